ghost use Rattle.std.specs.Prelude.{◌≡◌, IfOk, map};
ghost use Rattle.fj_theory.specs.Ideal.{ArePolynomials};

use super::Basis;
use fj_coeff::Coeff;
use fj_mono::Order;
use fj_poly::Poly;
use std::alloc::{AllocError, Global};

/// The polynomials of a list once more, in order.
pub fn copy_list<K: Coeff, O: Order>(
    alloc: Global,
    list: &[Poly<K, O>],
) -> Result<Vec<Poly<K, O>>, AllocError>
    ensures value { IfOk result (λ copies. copies.items ≡ list.now) }
    ensures polynomials { IfOk result (λ _. ArePolynomials K.field list.now) }
{
    let mut copies = Vec::with_capacity(alloc, list.len())?;
    for f in list {
        copies.push(f.copy(alloc)?)?;
    }
    Ok(copies)
}

// The rows of a table once more.
fn copy_table<K: Coeff, O: Order>(
    alloc: Global,
    rows: &[Vec<Poly<K, O>>],
) -> Result<Vec<Vec<Poly<K, O>>>, AllocError>
    ensures { IfOk result (λ copies. map (λ row. row.items) copies.items ≡ map (λ row. row.items) rows.now) }
{
    let mut copies = Vec::with_capacity(alloc, rows.len())?;
    for row in rows {
        copies.push(copy_list(alloc, row)?)?;
    }
    Ok(copies)
}

impl<K: Coeff, O: Order> Basis<K, O> {
    /// The same basis once more, with the same cofactors.
    pub fn copy(&self, alloc: Global) -> Result<Basis<K, O>, AllocError>
        ensures { IfOk result (λ b. b ≡ self.now) }
    {
        Ok(Basis {
            members: copy_list(alloc, &self.members)?,
            down: copy_table(alloc, &self.down)?,
            up: copy_table(alloc, &self.up)?,
        })
    }
}
