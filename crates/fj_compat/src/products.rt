//! The multiples of the members of an ideal by a polynomial.
ghost use Rattle.std.specs.Prelude.{◌≡◌, ◌∷◌, [], IfOk};
ghost use Rattle.fj_theory.specs.Ideal.{multiples};
ghost use Rattle.fj_theory.specs.Polynomial.{product};
ghost use Rattle.fj_poly.specs.Limit.{IsHigh};
ghost use Rattle.fj_ideal.specs.Lists.{AreLow, IsHighPair, NoList};
ghost use Rattle.fj_ideal.specs.Stop.{StopsOnlyWith};

use fj_basis::Stop;
use fj_coeff::Coeff;
use fj_ideal::kept_pair;
use fj_poly::{GPoly, PolyFault};
use std::alloc::Global;

// The product of two polynomials.
fn times<K: Coeff>(alloc: Global, u: &GPoly<K>, g: &GPoly<K>) -> Result<GPoly<K>, Stop>
    ensures value { IfOk result (λ p. p ≡ product K.field u.now g.now) }
    ensures low { IfOk result (λ p. IsHigh p → ⊥) }
    ensures stop { StopsOnlyWith K.field NoList (IsHighPair K.field (u.now ∷ []) (g.now ∷ [])) 0 result }
{
    match u.mul(alloc, g) {
        Ok(product) => Ok(product),
        Err(PolyFault::High) => Err(Stop::Product(kept_pair(alloc, u, g)?)),
        Err(PolyFault::Memory) => Err(Stop::Memory),
    }
}

/// The products u*g of the polynomials g of a list, in order.
pub(crate) fn multiples<K: Coeff>(
    alloc: Global,
    u: &GPoly<K>,
    list: &[GPoly<K>],
) -> Result<Vec<GPoly<K>>, Stop>
    ensures value { IfOk result (λ products. products.items ≡ multiples K.field u.now list.now) }
    ensures low { IfOk result (λ products. AreLow products.items) }
    ensures stop { StopsOnlyWith K.field NoList (IsHighPair K.field (u.now ∷ []) list.now) 0 result }
{
    let mut products = Vec::with_capacity(alloc, list.len())?;
    for g in list {
        products.push(times(alloc, u, g)?)?;
    }
    Ok(products)
}
