//! Values: sums, products and negatives, where they aren't large.
ghost use Rattle.std.specs.Prelude.{◌≡◌, IfOk};
ghost use Rattle.fj_theory.specs.Polynomial.{negation, product, sum};
ghost use Rattle.fj_text.specs.Expression.{is_large, within};

use fj_coeff::Coeff;
use fj_poly::{GPoly, PolyFault};
use std::alloc::{AllocError, Global};

/// The most terms of a value.
const MAX_TERMS: usize = 1000;

/// The greatest degree of a value.
pub(crate) const MAX_DEGREE: u64 = 1000;

/// Whether a polynomial has more terms or a greater degree than a value may have.
#[tactic(auto, unfolding(crate::specs::Expression::is_large))]
fn is_large<K: Coeff>(f: &GPoly<K>) -> bool
    ensures { result ≡ is_large f.now }
{
    f.len() > MAX_TERMS || f.lead_degree().unwrap_or(0) > MAX_DEGREE
}

/// The polynomial, where it isn't large.
pub(crate) fn within<K: Coeff>(f: GPoly<K>) -> Option<GPoly<K>>
    ensures { result ≡ within f }
{
    if is_large(&f) { None } else { Some(f) }
}

/// The negative.
pub(crate) fn negative<K: Coeff>(alloc: Global, f: &GPoly<K>) -> Result<GPoly<K>, AllocError>
    ensures { IfOk result (λ p. p ≡ negation K.field f.now) }
{
    f.scale(alloc, K::one().neg())
}

/// The sum, where it isn't large. A single term is added in place.
pub(crate) fn sum_within<K: Coeff>(
    alloc: Global,
    f: GPoly<K>,
    g: &GPoly<K>,
) -> Result<Option<GPoly<K>>, AllocError>
    ensures { IfOk result (λ p. p ≡ within (sum K.field f g.now)) }
{
    if g.len() != 1 {
        return Ok(within(f.add(alloc, g)?));
    }
    let (c, m) = g.at(0);
    let mut sum = f;
    sum.add_term(c, &m)?;
    Ok(within(sum))
}

/// The product, where it isn't large.
pub(crate) fn product_within<K: Coeff>(
    alloc: Global,
    f: &GPoly<K>,
    g: &GPoly<K>,
) -> Result<Option<GPoly<K>>, AllocError>
    ensures { IfOk result (λ p. p ≡ within (product K.field f.now g.now)) }
{
    match f.mul(alloc, g) {
        Ok(product) => Ok(within(product)),
        Err(PolyFault::High) => Ok(None),
        Err(PolyFault::Memory) => Err(AllocError),
    }
}
