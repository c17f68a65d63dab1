//! Powers, where none of the products that form them is large.
ghost use Rattle.std.specs.Prelude.{◌≡◌, ◌-◌, ◌<◌, ◌≤◌, ℕ, List, IfOk, IfSome, IsTrue, Some, slice_get};
ghost use Rattle.std.specs.FinMap.{len};
ghost use Rattle.fj_algebra.specs.StrictSteps.{monomial_count};
ghost use Rattle.fj_theory.specs.Exponents.{divides, times};
ghost use Rattle.fj_theory.specs.MonomialOrder.{grevlex_key};
ghost use Rattle.fj_theory.specs.Polynomial.{power, terms_falling};
ghost use Rattle.fj_text.specs.Divisors.{divisor_count};
ghost use Rattle.fj_text.specs.Expression.{power_within, within};

use super::value::{MAX_DEGREE, product_within, within};
use fj_coeff::Coeff;
use fj_mono::Mono;
use fj_poly::{GPoly, Poly, PolyFault};
use std::alloc::{AllocError, Global};

/// The greatest exponent.
pub(crate) const MAX_EXPONENT: u64 = 1000;

/// The k-th power by k - 1 products, where none of them is large, product by product.
fn power_by_products<K: Coeff>(
    alloc: Global,
    f: &GPoly<K>,
    k: u64,
) -> Result<Option<GPoly<K>>, AllocError>
    ensures { IfOk result (λ p. p ≡ power_within K.field f.now k) }
{
    if k == 0 {
        return Ok(Some(Poly::term(alloc, K::one(), &Mono::one())?));
    }
    let mut power = f.copy(alloc)?;
    'products: for _formed in 1..k {
        let Some(product) = product_within(alloc, &power, f)? else {
            return Ok(None);
        };
        power = product;
    }
    Ok(Some(power))
}

/// The k-th power, where it isn't large.
fn last_power_within<K: Coeff>(
    alloc: Global,
    f: &GPoly<K>,
    k: u64,
) -> Result<Option<GPoly<K>>, AllocError>
    ensures { IfOk result (λ p. p ≡ within (power K.field f.now k)) }
{
    match f.pow(alloc, k) {
        Ok(power) => Ok(within(power)),
        Err(PolyFault::High) => Ok(None),
        Err(PolyFault::Memory) => Err(AllocError),
    }
}

/// Whether C(t + d, t), the number of monomials of degree at most d in t variables, is known to be at most 1,000.
fn has_few_monomials(t: usize, d: u64) -> bool
    ensures { IsTrue result → monomial_count t d ≤ 1000 }
{
    match t {
        0 => true,
        1 => d <= 999,
        2 => d <= 43,
        3 => d <= 16,
        4 => d <= 9,
        5 => d <= 7,
        6 => d <= 6,
        7 => d <= 5,
        8 => d <= 4,
        _ => false,
    }
}

/// A monomial that all terms divide. `None` where its degree is too high.
fn common_multiple<K: Coeff>(f: &GPoly<K>) -> Option<Mono>
    ensures { IfSome result (λ m. (i : ℕ) (t : List ℕ × ℕ) → slice_get (terms_falling grevlex_key f.now) i ≡ Some t → IsTrue (divides t.0 m.exponents)) }
{
    let mut multiple = Mono::one();
    'terms: for i in 0..f.len() {
        let (_, m) = f.at(i);
        let Ok(next) = multiple.lcm(&m) else {
            return None;
        };
        multiple = next;
    }
    Some(multiple)
}

/// Whether the k-th power of the monomial has at most 1,000 divisors.
fn has_few_divisors(m: &Mono, k: u64) -> bool
    requires { k ≤ 1000 }
    ensures { IsTrue result → divisor_count (times k m.now.exponents) ≤ 1000 }
{
    let mut count = 1;
    'variables: for i in 0..8 {
        let exponent = m.exp(i);
        if exponent > MAX_DEGREE {
            return false;
        }
        count *= exponent * k + 1;
        if count > 1000 {
            return false;
        }
    }
    true
}

/// Whether the powers below the k-th are known to have at most 1,000 terms. The j-th power of t + 1 terms has at most
/// C(t + j, t) of them; and where all terms divide m, those of the j-th power divide m^j.
fn lower_powers_are_short<K: Coeff>(f: &GPoly<K>, k: u64) -> bool
    requires above { 0 < k }
    requires most { k ≤ 1000 }
    ensures { IsTrue result → (j : ℕ) → j < k → len (power K.field f.now j) ≤ 1000 }
{
    if has_few_monomials(f.len().saturating_sub(1), k - 1) {
        return true;
    }
    match common_multiple(f) {
        Some(m) => has_few_divisors(&m, k - 1),
        None => false,
    }
}

/// The k-th power by k - 1 products, where none of them is large.
///
/// The degree of the last product is the greatest one. Where the lower powers have at most 1,000 terms, the last one alone
/// decides and is formed at once.
pub(crate) fn power_within<K: Coeff>(
    alloc: Global,
    f: &GPoly<K>,
    k: u64,
) -> Result<Option<GPoly<K>>, AllocError>
    ensures { IfOk result (λ p. p ≡ power_within K.field f.now k) }
{
    if k < 2 || k > MAX_EXPONENT {
        return power_by_products(alloc, f, k);
    }
    if f.lead_degree().unwrap_or(0).saturating_mul(k) > MAX_DEGREE {
        return Ok(None);
    }
    if lower_powers_are_short(f, k) {
        return last_power_within(alloc, f, k);
    }
    power_by_products(alloc, f, k)
}
