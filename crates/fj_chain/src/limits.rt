//! Test ideals, their limits from the left, and F-jumping numbers.
ghost use Rattle.std.specs.Prelude.{◌≡◌, ◌⊎◌, ◌*◌, ◌<◌, ◌≤◌, ◌↔◌, ◌∷◌, [], IfOk, IsTrue};
ghost use Rattle.fj_theory.specs.Exponents.{origin};
ghost use Rattle.fj_theory.specs.Ideal.{multiples};
ghost use Rattle.fj_theory.specs.Polynomial.{IsPolynomial, power, term};
ghost use Rattle.fj_plain.specs.declared.order_name.OrderName.TheVariants as orders;
ghost use Rattle.fj_ideal.specs.Ideal.{IsIdeal};
ghost use Rattle.fj_ideal.specs.Lists.{RunFor};
ghost use Rattle.fj_ideal.specs.Reduced.{IsReduced};
ghost use Rattle.fj_ideal.specs.Stop.{StopsOnlyWith};
ghost use Rattle.fj_testideal.specs.Jump.{IsJump};
ghost use Rattle.fj_testideal.specs.TestIdeal.{IsLeftLimit, IsTestIdeal};
ghost use Rattle.fj_frobenius.specs.Lists.{IsHighMultiple};
ghost use Rattle.fj_chain.specs.Admissible.{IsAdmissible};
ghost use Rattle.fj_chain.specs.Lists.{IsHighInJump, IsHighInLeft, IsHighInLimit, IsHighInTest, IsJumpList, IsLastLeftList, IsLastLimitList, IsLastTestList, IsLeftList, IsLimitList, IsMultipleList, IsTestList};

use crate::chain::{chain_from, one};
use crate::multiples::ideal_of_multiples;
use crate::steps::follow;
use fj_basis::Stop;
use fj_coeff::Coeff;
use fj_ideal::{Ideal, Reduced};
use fj_poly::GPoly;
use fj_ratio::{Digits, Ratio};
use std::alloc::Global;
use std::slice;

/// The test ideal of f^t for 0 <= t <= 8 (Blickle, Mustață and Smith 2008, section 2), each list run with at most `pairs`
/// turns. f isn't constant, has a degree of at most 1,000, and doesn't use the eighth variable.
///
/// `Pairs` and `High` only where a run is unfinished or too high on one of the test lists, which they keep, and `Product`
/// only where a product for such a list has a term of total degree above 2^40. It keeps f and the other polynomial.
pub fn test_ideal<K: Coeff>(
    alloc: Global,
    f: &GPoly<K>,
    t: &Ratio,
    pairs: u64,
) -> Result<Ideal<K>, Stop>
    requires at_most { t.now.numerator ≤ 8 * t.now.denominator }
    requires admissible { IsAdmissible f.now }
    ensures value { IfOk result (λ J. IsTestIdeal K.field f.now t.now J.given) }
    ensures list { IfOk result (λ J. IsLastTestList K.field f.now t.now J.given) }
    ensures ideal { IfOk result (IsIdeal K.field) }
    ensures stop { StopsOnlyWith K.field (RunFor orders.Grevlex (IsTestList K.field f.now t.now)) (IsHighInTest K.field f.now t.now) pairs result }
{
    let reduced = reduced_test_ideal(alloc, f, t, pairs)?;
    reduced.with_cofactors(alloc, pairs)
}

/// The limit from the left of the test ideals of f at t, for 0 < t <= 8, each list run with at most `pairs` turns. f isn't
/// constant, has a degree of at most 1,000, and doesn't use the eighth variable.
///
/// `Pairs` and `High` only where a run is unfinished or too high on one of the left lists, which they keep, and `Product`
/// only where a product for such a list has a term of total degree above 2^40. It keeps f and the other polynomial.
pub fn left_limit<K: Coeff>(
    alloc: Global,
    f: &GPoly<K>,
    t: &Ratio,
    pairs: u64,
) -> Result<Ideal<K>, Stop>
    requires above_zero { 0 < t.now.numerator }
    requires at_most { t.now.numerator ≤ 8 * t.now.denominator }
    requires admissible { IsAdmissible f.now }
    ensures value { IfOk result (λ J. IsLeftLimit K.field f.now t.now J.given) }
    ensures list { IfOk result (λ J. IsLastLeftList K.field f.now t.now J.given) }
    ensures ideal { IfOk result (IsIdeal K.field) }
    ensures stop { StopsOnlyWith K.field (RunFor orders.Grevlex (IsLeftList K.field f.now t.now)) (IsHighInLeft K.field f.now t.now) pairs result }
{
    let reduced = reduced_left_limit(alloc, f, t, pairs)?;
    reduced.with_cofactors(alloc, pairs)
}

/// Whether t is an F-jumping number of f, for 0 < t <= 8: the test ideal and its limit from the left differ there (Blickle,
/// Mustață and Smith 2008, section 2). Each list is run with at most `pairs` turns. f isn't constant, has a degree of at most
/// 1,000, and doesn't use the eighth variable.
///
/// `Pairs` and `High` only where a run is unfinished or too high on one of the test lists or the left lists, which they keep,
/// and `Product` only where a product for such a list has a term of total degree above 2^40. It keeps f and the other
/// polynomial.
pub fn is_jump<K: Coeff>(alloc: Global, f: &GPoly<K>, t: &Ratio, pairs: u64) -> Result<bool, Stop>
    requires above_zero { 0 < t.now.numerator }
    requires at_most { t.now.numerator ≤ 8 * t.now.denominator }
    requires admissible { IsAdmissible f.now }
    ensures value { IfOk result (λ b. IsTrue b ↔ IsJump K.field f.now t.now) }
    ensures stop { StopsOnlyWith K.field (RunFor orders.Grevlex (IsJumpList K.field f.now t.now)) (IsHighInJump K.field f.now t.now) pairs result }
{
    // f is a polynomial over K.
    let _ = f.is_zero();
    let at = reduced_test_ideal(alloc, f, t, pairs)?;
    let left = reduced_left_limit(alloc, f, t, pairs)?;
    Ok(!left.same(&at))
}

/// The test ideal as `test_ideal`, without cofactors.
///
/// It stops only where `test_ideal` may.
pub fn reduced_test_ideal<K: Coeff>(
    alloc: Global,
    f: &GPoly<K>,
    t: &Ratio,
    pairs: u64,
) -> Result<Reduced<K>, Stop>
    requires at_most { t.now.numerator ≤ 8 * t.now.denominator }
    requires admissible { IsAdmissible f.now }
    ensures value { IfOk result (λ J. IsTestIdeal K.field f.now t.now J.given) }
    ensures list { IfOk result (λ J. IsLastTestList K.field f.now t.now J.given) }
    ensures stop { StopsOnlyWith K.field (RunFor orders.Grevlex (IsTestList K.field f.now t.now)) (IsHighInTest K.field f.now t.now) pairs result }
{
    // f is a polynomial over K.
    let _ = f.is_zero();
    if t.num() == 0 {
        let unit = one(alloc)?;
        return Reduced::of(alloc, slice::from_ref(&unit), pairs);
    }
    limit_from(alloc, f, f, t, pairs)
}

/// The limit from the left as `left_limit`, without cofactors.
///
/// It stops only where `left_limit` may.
pub fn reduced_left_limit<K: Coeff>(
    alloc: Global,
    f: &GPoly<K>,
    t: &Ratio,
    pairs: u64,
) -> Result<Reduced<K>, Stop>
    requires above_zero { 0 < t.now.numerator }
    requires at_most { t.now.numerator ≤ 8 * t.now.denominator }
    requires admissible { IsAdmissible f.now }
    ensures value { IfOk result (λ J. IsLeftLimit K.field f.now t.now J.given) }
    ensures list { IfOk result (λ J. IsLastLeftList K.field f.now t.now J.given) }
    ensures stop { StopsOnlyWith K.field (RunFor orders.Grevlex (IsLeftList K.field f.now t.now)) (IsHighInLeft K.field f.now t.now) pairs result }
{
    // f is a polynomial over K.
    let _ = f.is_zero();
    let unit = one(alloc)?;
    limit_from(alloc, &unit, f, t, pairs)
}

// The limit at t > 0 of the chain from (first), which is (f) or (1), without cofactors.
fn limit_from<K: Coeff>(
    alloc: Global,
    first: &GPoly<K>,
    f: &GPoly<K>,
    t: &Ratio,
    pairs: u64,
) -> Result<Reduced<K>, Stop>
    requires above_zero { 0 < t.now.numerator }
    requires at_most { t.now.numerator ≤ 8 * t.now.denominator }
    requires admissible { IsAdmissible f.now }
    requires first { (first.now ≡ f.now) ⊎ (first.now ≡ term 1 origin) }
    ensures list { IfOk result (λ J. IsLastLimitList K.field f.now t.now first.now J.given) }
    ensures ideal { IfOk result (IsReduced K.field) }
    ensures stop { StopsOnlyWith K.field (RunFor orders.Grevlex (IsLimitList K.field f.now t.now first.now)) (IsHighInLimit K.field f.now t.now first.now) pairs result }
{
    let (whole, rest) = t.split_whole();
    let digits = Digits::of(alloc, K::P, &rest)?;
    let (limit, _) = chain_from(alloc, first, f, &digits, pairs)?;
    let reached = follow(alloc, f, digits.pre(), &limit, pairs)?;
    if whole == 0 {
        Ok(reached)
    } else {
        ideal_of_multiples(alloc, whole, f, &reached, pairs)
    }
}
