//! Sums and products of ideals, and the polynomials of a product that is too high.
ghost use Rattle.std.specs.Prelude.{◌≡◌, ◌++◌, ◌∷◌, [], IfOk};
ghost use Rattle.fj_theory.specs.Ideal.{ArePolynomials, SameIdeal, products};
ghost use Rattle.fj_theory.specs.Polynomial.{IsPolynomial, product};
ghost use Rattle.fj_theory.specs.MonomialOrder.{grevlex_key};
ghost use Rattle.fj_plain.specs.declared.order_name.OrderName.TheVariants as orders;
ghost use Rattle.fj_poly.specs.Limit.{IsHigh};
ghost use Rattle.fj_basis.specs.Outcome.{IsKeptOf};
ghost use Rattle.fj_ideal.specs.Ideal.{IsIdealOf};
ghost use Rattle.fj_ideal.specs.Lists.{AreLow, IsHighPair, IsProductList, IsSumList, NoList, NoProduct, RunFor};
ghost use Rattle.fj_ideal.specs.Stop.{StopsExactlyWith, StopsOnlyWith};

use crate::ideal::Ideal;
use fj_basis::{Stop, copy_list, kept};
use fj_coeff::Coeff;
use fj_plain::Kept;
use fj_poly::{GPoly, PolyFault};
use std::alloc::{AllocError, Global};

/// The two polynomials of a product that is too high, as a stop keeps them.
pub fn kept_pair<K: Coeff>(alloc: Global, g: &GPoly<K>, h: &GPoly<K>) -> Result<Kept, AllocError>
    ensures { IfOk result (IsKeptOf K.field orders.Grevlex grevlex_key (g.now ∷ h.now ∷ [])) }
{
    kept(alloc, &vec![in alloc; g.copy(alloc)?, h.copy(alloc)?]?)
}

// The product of two polynomials.
fn times<K: Coeff>(alloc: Global, g: &GPoly<K>, h: &GPoly<K>) -> Result<GPoly<K>, Stop>
    ensures value { IfOk result (λ p. p ≡ product K.field g.now h.now) }
    ensures polynomial { IfOk result (IsPolynomial K.field) }
    ensures low { IfOk result (λ p. IsHigh p → ⊥) }
    ensures stop { StopsOnlyWith K.field NoList (IsHighPair K.field (g.now ∷ []) (h.now ∷ [])) 0 result }
{
    match g.mul(alloc, h) {
        Ok(product) => Ok(product),
        Err(PolyFault::High) => Err(Stop::Product(kept_pair(alloc, g, h)?)),
        Err(PolyFault::Memory) => Err(Stop::Memory),
    }
}

// The products g*h of the polynomials of two lists, g slowest.
fn products_of<K: Coeff>(
    alloc: Global,
    list: &[GPoly<K>],
    others: &[GPoly<K>],
) -> Result<Vec<GPoly<K>>, Stop>
    ensures value { IfOk result (λ v. v.items ≡ products K.field list.now others.now) }
    ensures polynomials { IfOk result (λ v. ArePolynomials K.field v.items) }
    ensures low { IfOk result (λ v. AreLow v.items) }
    ensures stop { StopsOnlyWith K.field NoList (IsHighPair K.field list.now others.now) 0 result }
{
    let mut products = Vec::with_capacity(alloc, list.len().saturating_mul(others.len()))?;
    for g in list {
        for h in others {
            products.push(times(alloc, g, h)?)?;
        }
    }
    Ok(products)
}

impl<K: Coeff> Ideal<K> {
    /// The sum of the two ideals, made of the members of this one followed by those of the other, with at most `pairs`
    /// turns.
    ///
    /// `Pairs` exactly where that many turns were made and pairs are pending, `High` exactly where a sugar above 2^40 arises
    /// within these turns or, where no pair is then pending, in finishing. Both keep this list. `Product` never comes.
    pub fn sum(&self, alloc: Global, o: &Ideal<K>, pairs: u64) -> Result<Ideal<K>, Stop>
        ensures value { IfOk result (IsIdealOf K.field (self.now.members ++ o.now.members)) }
        ensures ideal { IfOk result (λ J. SameIdeal K.field (self.now.given ++ o.now.given) J.given) }
        ensures stop { StopsExactlyWith K.field (RunFor orders.Grevlex (IsSumList self.now.members o.now.members)) NoProduct pairs result }
    {
        let mut list = copy_list(alloc, self.members())?;
        list.append(&mut copy_list(alloc, o.members())?)?;
        Ideal::of_owned(alloc, list, pairs)
    }

    /// The product of the two ideals, made of the products g*h, g a member of this one and h of the other, g slowest, with
    /// at most `pairs` turns.
    ///
    /// `Product` exactly where such a product has a term of total degree above 2^40, and it keeps such g and h. Else `Pairs`
    /// exactly where that many turns were made and pairs are pending, `High` exactly where a sugar above 2^40 arises within
    /// these turns or, where no pair is then pending, in finishing. Both keep the list of the products.
    pub fn product(&self, alloc: Global, o: &Ideal<K>, pairs: u64) -> Result<Ideal<K>, Stop>
        ensures value { IfOk result (IsIdealOf K.field (products K.field self.now.members o.now.members)) }
        ensures ideal { IfOk result (λ J. SameIdeal K.field (products K.field self.now.given o.now.given) J.given) }
        ensures stop { StopsExactlyWith K.field (RunFor orders.Grevlex (IsProductList K.field self.now.members o.now.members)) (IsHighPair K.field self.now.members o.now.members) pairs result }
    {
        let list = products_of(alloc, self.members(), o.members())?;
        Ideal::of_owned(alloc, list, pairs)
    }
}
