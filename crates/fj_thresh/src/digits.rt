//! Roots of powers of a polynomial, by the digits of the exponent.
ghost use Rattle.std.specs.Prelude.{◌≡◌, ◌+◌, ◌*◌, ◌++◌, ◌↔◌, ◌∷◌, [], IfOk, IsTrue, length, suc};
ghost use Rattle.fj_theory.specs.Digits.{value_of};
ghost use Rattle.fj_theory.specs.Exponents.{origin};
ghost use Rattle.fj_theory.specs.Polynomial.{term};
ghost use Rattle.fj_plain.specs.declared.order_name.OrderName.TheVariants as orders;
ghost use Rattle.fj_ideal.specs.Lists.{RunFor};
ghost use Rattle.fj_ideal.specs.Reduced.{IsReduced};
ghost use Rattle.fj_ideal.specs.Stop.{StopsOnlyWith};
ghost use Rattle.fj_testideal.specs.Threshold.{IsPowerInside};
ghost use Rattle.fj_chain.specs.Lists.{IsDigitList, IsHighInDigits, LeadTo};

use fj_basis::Stop;
use fj_coeff::Coeff;
use fj_frobenius::reduced_root_of_multiples;
use fj_ideal::{Ideal, Reduced};
use fj_mono::Mono;
use fj_poly::{GPoly, Poly};
use std::alloc::{AllocError, Global};
use std::slice;

/// Whether f^r is in the Frobenius power J^[q]: the number r has these digits, the highest first, and then the last one, and
/// q = p^e for as many digits as e. It is so where the Frobenius root I_e(f^r) is inside J.
pub(crate) fn is_power_inside<K: Coeff>(
    alloc: Global,
    f: &GPoly<K>,
    higher: &[u64],
    last: u64,
    j: &Ideal<K>,
    pairs: u64,
) -> Result<bool, Stop>
    ensures value { IfOk result (λ b. IsTrue b ↔ IsPowerInside K.field f.now j.now.given (suc (length higher.now)) (K.field.characteristic * value_of K.field.characteristic higher.now + last)) }
    ensures stop { StopsOnlyWith K.field (RunFor orders.Grevlex (IsDigitList K.field f.now (higher.now ++ last ∷ []))) (IsHighInDigits K.field f.now (higher.now ++ last ∷ [])) pairs result }
{
    // f is a polynomial over K.
    let _ = f.is_zero();
    let _ = j.given();
    let root = root_of_power(alloc, f, higher, last, pairs)?;
    Ok(root.is_inside(alloc, j)?)
}

// The polynomial 1.
fn one<K: Coeff>(alloc: Global) -> Result<GPoly<K>, AllocError>
    ensures { IfOk result (λ p. p ≡ term 1 origin) }
{
    Poly::term(alloc, K::one(), &Mono::one())
}

// The Frobenius root I_e(f^r): one step for each digit of r, the last one first.
fn root_of_power<K: Coeff>(
    alloc: Global,
    f: &GPoly<K>,
    higher: &[u64],
    last: u64,
    pairs: u64,
) -> Result<Reduced<K>, Stop>
    ensures list { IfOk result (λ J. LeadTo K.field f.now (higher.now ++ last ∷ []) (term 1 origin ∷ []) J.given) }
    ensures ideal { IfOk result (IsReduced K.field) }
    ensures stop { StopsOnlyWith K.field (RunFor orders.Grevlex (IsDigitList K.field f.now (higher.now ++ last ∷ []))) (IsHighInDigits K.field f.now (higher.now ++ last ∷ [])) pairs result }
{
    let one = one(alloc)?;
    let unit = Reduced::of(alloc, slice::from_ref(&one), pairs)?;
    let mut reached = reduced_root_of_multiples(alloc, last, f, &unit, pairs)?;
    let mut left = higher;
    while let [rest @ .., digit] = left {
        reached = reduced_root_of_multiples(alloc, *digit, f, &reached, pairs)?;
        left = rest;
    }
    Ok(reached)
}
