//! Reduced bases with their cofactors, and their certificates.
ghost use Rattle.std.specs.Prelude.{◌≡◌, ◌<◌, IfOk, All, length, map};
ghost use Rattle.fj_plain.specs.Holds.{Holds};
ghost use Rattle.fj_plain.specs.OrderRow.{order_in_row};
ghost use Rattle.fj_basis.specs.Basis.{IsCertificateOf, IsMadeOf, cofactor};

mod copy;
mod itself;
mod plain;

use crate::certificate::{plain_list, plain_table};
use crate::members::Row;
pub use copy::copy_list;
use fj_coeff::Coeff;
use fj_mono::Order;
use fj_plain::{Cert, OrderName};
use fj_poly::Poly;
use std::alloc::{AllocError, Global};
use std::marker::Model;

/// A reduced Gröbner basis for the order O, with the cofactors of its members over the list that it was made of, and
/// those of the list over the members.
#[derive(Drop)]
pub struct Basis<K: Coeff, O: Order> {
    members: Vec<Poly<K, O>>,
    down: Vec<Row<K, O>>,
    up: Vec<Row<K, O>>,
}

impl<K: Coeff, O: Order> Model for Basis<K, O> {
    ghost use Rattle.std.specs.Prelude.{◌≡◌, length, map, All};
    ghost use Rattle.fj_basis.specs.Basis.{WithCofactors, basis_code};

    ghost Value = { WithCofactors };

    ghost coded = { basis_code };

    ghost view = { λ b. record { members = b.members.items; down = map (λ row. row.items) b.down.items; up = map (λ row. row.items) b.up.items } };

    ghost invariant = { λ b. (length b.down.items ≡ length b.members.items) × All (λ row. length row.items ≡ length b.up.items) b.down.items × All (λ row. length row.items ≡ length b.members.items) b.up.items };
}

impl<K: Coeff, O: Order> Basis<K, O> {
    // The basis with these members, with their cofactors and with those of the given polynomials.
    pub(crate) fn new(
        members: Vec<Poly<K, O>>,
        down: Vec<Row<K, O>>,
        up: Vec<Row<K, O>>,
    ) -> Basis<K, O>
        requires rows { length down.items ≡ length members.items }
        requires down { All (λ row. length row.items ≡ length up.items) down.items }
        requires up { All (λ row. length row.items ≡ length members.items) up.items }
        ensures members { result.members ≡ members.items }
        ensures down { result.down ≡ map (λ row. row.items) down.items }
        ensures up { result.up ≡ map (λ row. row.items) up.items }
    {
        Basis { members, down, up }
    }

    /// The members, rising by lead.
    pub fn members(&self) -> &[Poly<K, O>]
        ensures { result.now ≡ self.now.members }
    {
        &self.members
    }

    /// The cofactor of the given polynomial at place j in the member at place i.
    pub fn down(&self, i: usize, j: usize) -> &Poly<K, O>
        requires member { i < length self.now.members }
        requires given { j < length self.now.up }
        ensures { result.now ≡ cofactor self.now.down i j }
    {
        &self.down[i][j]
    }

    /// The cofactor of the member at place i in the given polynomial at place j.
    pub fn up(&self, j: usize, i: usize) -> &Poly<K, O>
        requires given { j < length self.now.up }
        requires member { i < length self.now.members }
        ensures { result.now ≡ cofactor self.now.up j i }
    {
        &self.up[j][i]
    }

    /// The certificate that the basis and the list that it was made of generate one ideal, over a prime field: each
    /// member by its cofactors over the list, and each polynomial of the list by its cofactors over the members.
    pub fn cert(&self, alloc: Global, list: &[Poly<K, O>]) -> Result<Cert, AllocError>
        requires prime { K.SIZE ≡ K.P }
        requires made { IsMadeOf K.field list.now self.now }
        ensures value { IfOk result (IsCertificateOf K.P (order_in_row O.ROW) list.now self.now) }
        ensures holds { IfOk result Holds }
    {
        Ok(Cert::Basis {
            p: K::P,
            order: OrderName::of(O::ROW),
            given: plain_list(alloc, list)?,
            found: plain_list(alloc, &self.members)?,
            down: plain_table(alloc, &self.down)?,
            up: plain_table(alloc, &self.up)?,
        })
    }
}
