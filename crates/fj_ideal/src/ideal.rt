//! Ideals by their reduced Grevlex bases, with cofactors both ways.
ghost use Rattle.std.specs.Prelude.{◌≡◌, ◌<◌, ◌↔◌, [], All, IfOk, IsTrue, length};
ghost use Rattle.std.specs.FinMap.{empty};
ghost use Rattle.fj_theory.specs.Evaluation.{IsZeroOf, value};
ghost use Rattle.fj_theory.specs.Exponents.{origin};
ghost use Rattle.fj_theory.specs.Ideal.{ArePolynomials, SameIdeal, Member};
ghost use Rattle.fj_theory.specs.MonomialOrder.{grevlex_key};
ghost use Rattle.fj_theory.specs.Polynomial.{term};
ghost use Rattle.fj_groebner.specs.ReducedBasis.{IsReducedBasis};
ghost use Rattle.fj_groebner.specs.Run.{TooHigh, Unfinished};
ghost use Rattle.fj_plain.specs.Holds.{Holds};
ghost use Rattle.fj_plain.specs.OrderRow.{order_in_row};
ghost use Rattle.fj_plain.specs.declared.order_name.OrderName.TheVariants as orders;
ghost use Rattle.fj_basis.specs.Basis.{IsCertificateOf, IsMadeOf, cofactor};
ghost use Rattle.fj_basis.specs.Outcome.{IsStopWhere};
ghost use Rattle.fj_ideal.specs.Ideal.{IsIdeal, IsIdealOf, basis_of, of_itself};
ghost use Rattle.fj_ideal.specs.Lists.{NoProduct, RunFor};
ghost use Rattle.fj_ideal.specs.Stop.{StopsExactlyWith};

mod same;

use fj_basis::types::Basis;
use fj_basis::{Stop, basis, copy_list, look_over};
use fj_coeff::Coeff;
use fj_mono::{Grevlex, Order};
use fj_plain::Cert;
use fj_poly::{GPoly, Point, Poly};
use std::alloc::{AllocError, Global};
use std::marker::Model;

/// An ideal of polynomials: the list that it was made of, and its reduced Gröbner basis for Grevlex with the cofactors
/// both ways (Cox, Little and O'Shea 2015, chapter 2, section 7).
#[derive(Drop)]
pub struct Ideal<K: Coeff> {
    given: Vec<GPoly<K>>,
    basis: Basis<K, Grevlex>,
}

impl<K: Coeff> Model for Ideal<K> {
    ghost use Rattle.fj_ideal.specs.Ideal.{IsIdeal, WithBasis, ideal_code};

    ghost Value = { WithBasis };

    ghost coded = { ideal_code };

    ghost view = { λ a. record { given = a.given.items; members = a.basis.members; down = a.basis.down; up = a.basis.up } };

    ghost invariant = { λ a. IsIdeal K.field (record { given = a.given.items; members = a.basis.members; down = a.basis.down; up = a.basis.up }) };
}

impl<K: Coeff> Ideal<K> {
    /// The ideal of a list, by Buchberger's algorithm with at most `pairs` turns.
    ///
    /// `Pairs` exactly where that many turns were made and pairs are pending, `High` exactly where a sugar above 2^40 arises
    /// within these turns or, where no pair is then pending, in finishing. Both keep the list, its terms falling in Grevlex.
    /// `Product` never comes.
    pub fn of(alloc: Global, list: &[GPoly<K>], pairs: u64) -> Result<Ideal<K>, Stop>
        ensures value { IfOk result (IsIdealOf K.field list.now) }
        ensures stop { StopsExactlyWith K.field (RunFor orders.Grevlex (λ L. L ≡ list.now)) NoProduct pairs result }
    {
        let given = copy_list(alloc, list)?;
        Ideal::of_owned(alloc, given, pairs)
    }

    /// The ideal of a list that it takes: as `of`, without a copy of the list.
    pub fn of_owned(alloc: Global, given: Vec<GPoly<K>>, pairs: u64) -> Result<Ideal<K>, Stop>
        ensures value { IfOk result (IsIdealOf K.field given.items) }
        ensures stop { StopsExactlyWith K.field (RunFor orders.Grevlex (λ L. L ≡ given.items)) NoProduct pairs result }
    {
        look_over(&given);
        let basis = basis(alloc, &given, pairs)?;
        Ok(Ideal { given, basis })
    }

    /// The ideal of a list that is its own reduced Grevlex basis. The list is what it was made of, and has the members; the
    /// cofactors are 1 at the place of each and 0 elsewhere. Nothing is run.
    pub fn of_reduced(alloc: Global, list: Vec<GPoly<K>>) -> Result<Ideal<K>, AllocError>
        requires { IsReducedBasis K.field grevlex_key list.items list.items }
        ensures value { IfOk result (λ J. J ≡ of_itself list.items) }
        ensures ideal { IfOk result (IsIdeal K.field) }
    {
        let given = copy_list(alloc, &list)?;
        let basis = Basis::of_itself(alloc, list)?;
        Ok(Ideal { given, basis })
    }

    /// The list that the ideal was made of.
    pub fn given(&self) -> &[GPoly<K>]
        ensures value { result.now ≡ self.now.given }
        ensures ideal { IsIdeal K.field self.now }
    {
        &self.given
    }

    /// The members of the reduced Grevlex basis, rising by lead.
    pub fn members(&self) -> &[GPoly<K>]
        ensures value { result.now ≡ self.now.members }
        ensures ideal { IsIdeal K.field self.now }
    {
        let _ = &self.given;
        self.basis.members()
    }

    /// The cofactor of the given polynomial at place j in the member at place i.
    pub fn down(&self, i: usize, j: usize) -> &GPoly<K>
        requires member { i < length self.now.members }
        requires given { j < length self.now.given }
        ensures { result.now ≡ cofactor self.now.down i j }
    {
        self.basis.down(i, j)
    }

    /// The cofactor of the member at place i in the given polynomial at place j.
    pub fn up(&self, j: usize, i: usize) -> &GPoly<K>
        requires given { j < length self.now.given }
        requires member { i < length self.now.members }
        ensures { result.now ≡ cofactor self.now.up j i }
    {
        self.basis.up(j, i)
    }

    /// Whether 1 is in the ideal.
    pub fn is_unit(&self) -> bool
        ensures { IsTrue result ↔ Member K.field self.now.given (term 1 origin) }
    {
        match self.members() {
            [member] => member.degree() == Some(0),
            _ => false,
        }
    }

    /// Whether zero is the only polynomial in the ideal: each of the list that it was made of is zero, and the basis is
    /// empty.
    pub fn is_zero(&self) -> bool
        ensures given { IsTrue result ↔ All (λ g. g ≡ empty) self.now.given }
        ensures members { IsTrue result ↔ (self.now.members ≡ []) }
    {
        self.members().is_empty()
    }

    /// Whether the two are one ideal.
    pub fn same(&self, o: &Ideal<K>) -> bool
        ensures { IsTrue result ↔ SameIdeal K.field self.now.given o.now.given }
    {
        are_same(self.members(), o.members())
    }

    /// Whether the point is a zero of the ideal: each member of the basis is zero there, and so each polynomial of the list
    /// that the ideal was made of.
    pub fn vanishes_at(&self, at: &Point<K>) -> bool
        ensures members { IsTrue result ↔ IsZeroOf K.field self.now.members at.now }
        ensures given { IsTrue result ↔ IsZeroOf K.field self.now.given at.now }
    {
        // The coordinates are elements of the field.
        let _ = at.len();
        self.members().iter().all(|g| is_zero_at(g, at))
    }

    /// The reduced basis for another order, calculated of the members with at most `pairs` turns, with the cofactors over the
    /// members.
    ///
    /// `Pairs` exactly where that many turns were made and pairs are pending, `High` exactly where a sugar above 2^40 arises
    /// within these turns or, where no pair is then pending, in finishing. Both keep the members, their terms falling in O.
    /// `Product` never comes.
    pub fn in_order<O: Order>(&self, alloc: Global, pairs: u64) -> Result<Basis<K, O>, Stop>
        ensures reduced { IfOk result (λ b. IsReducedBasis K.field O.key self.now.given b.members) }
        ensures made { IfOk result (IsMadeOf K.field self.now.members) }
        ensures long { IfOk result (λ b. length b.up ≡ length self.now.members) }
        ensures stop { IsStopWhere K.field (Unfinished K.field O.key self.now.members pairs) (TooHigh K.field O.key self.now.members pairs) (order_in_row O.ROW) O.key self.now.members result }
    {
        let members = self.members();
        let mut list = Vec::with_capacity(alloc, members.len())?;
        for g in members {
            list.push(g.reorder(alloc)?)?;
        }
        basis(alloc, &list, pairs)
    }

    /// The same ideal once more, with the same list, members and cofactors.
    pub fn copy(&self, alloc: Global) -> Result<Ideal<K>, AllocError>
        ensures { IfOk result (λ J. J ≡ self.now) }
    {
        Ok(Ideal {
            given: copy_list(alloc, &self.given)?,
            basis: self.basis.copy(alloc)?,
        })
    }

    /// The certificate that the members and the list that the ideal was made of generate one ideal, over a prime field.
    pub fn cert(&self, alloc: Global) -> Result<Cert, AllocError>
        requires { K.SIZE ≡ K.P }
        ensures value { IfOk result (IsCertificateOf K.P (order_in_row 2) self.now.given (basis_of self.now)) }
        ensures holds { IfOk result Holds }
    {
        self.basis.cert(alloc, &self.given)
    }
}

/// Whether the two lists have the same polynomials, in order.
pub(crate) fn are_same<K: Coeff>(list: &[GPoly<K>], others: &[GPoly<K>]) -> bool
    ensures { IsTrue result ↔ (list.now ≡ others.now) }
{
    list.len() == others.len() && list.iter().zip(others).all(|(g, h)| g.same(h))
}

// Whether the polynomial is zero at the point.
fn is_zero_at<K: Coeff>(g: &GPoly<K>, at: &Point<K>) -> bool
    ensures { IsTrue result ↔ (value K.field g.now at.now ≡ 0) }
{
    g.eval(at).rank() == 0
}
