//! The greatest powers of a polynomial outside Frobenius powers of an ideal.
ghost use Rattle.std.specs.Prelude.{◌<◌, ◌≤◌, ◌++◌, ◌∷◌, [], IfOk};
ghost use Rattle.fj_plain.specs.declared.order_name.OrderName.TheVariants as orders;
ghost use Rattle.fj_ideal.specs.Lists.{RunFor};
ghost use Rattle.fj_ideal.specs.Stop.{StopsOnlyWith};
ghost use Rattle.fj_testideal.specs.Threshold.{IsNu};
ghost use Rattle.fj_chain.specs.Admissible.{IsAdmissible};
ghost use Rattle.fj_thresh.specs.Answer.{IsNuAnswer, IsProperWith};
ghost use Rattle.fj_thresh.specs.Lists.{IsHighInLongerDigits, IsHighInNu, IsLongerDigitList, IsNuList, WriteNu};

use crate::digits::is_power_inside;
use crate::types::Nu;
use fj_basis::Stop;
use fj_coeff::Coeff;
use fj_ideal::Ideal;
use fj_poly::GPoly;
use std::alloc::Global;

/// The number nu(e) of f at an ideal J: the greatest r such that f^r isn't in the Frobenius power J^[q], q = p^e (Mustață,
/// Takagi and Watanabe 2005). `Unit` exactly where J has 1, `NotIn` exactly where J is proper and f isn't in it. There e is
/// at most 12, and f isn't constant, has a degree of at most 1,000, and doesn't use the eighth variable. Each list is run with
/// at most `pairs` turns.
///
/// `Pairs` and `High` only where a run is unfinished or too high on one of the nu lists, which they keep, and `Product` only
/// where a product for such a list has a term of total degree above 2^40. It keeps f and the other polynomial. Where J has 1
/// or f isn't in J there are no such lists.
pub fn nu<K: Coeff>(
    alloc: Global,
    e: u32,
    f: &GPoly<K>,
    j: &Ideal<K>,
    pairs: u64,
) -> Result<Nu, Stop>
    requires small { e ≤ 12 }
    requires admissible { IsAdmissible f.now }
    ensures value { IfOk result (IsNuAnswer K.field e f.now j.now.given) }
    ensures stop { StopsOnlyWith K.field (RunFor orders.Grevlex (IsNuList K.field e f.now j.now.given)) (IsHighInNu K.field e f.now j.now.given) pairs result }
{
    // f is a polynomial over K.
    let _ = f.is_zero();
    let _ = j.given();
    if j.is_unit() {
        return Ok(Nu::Unit);
    }
    if j.member(alloc, f)?.is_none() {
        return Ok(Nu::NotIn);
    }
    let greatest = greatest_power(alloc, e, f, j, pairs)?;
    Ok(Nu::Is(greatest))
}

// The number nu(e), digit by digit, the highest first.
fn greatest_power<K: Coeff>(
    alloc: Global,
    e: u32,
    f: &GPoly<K>,
    j: &Ideal<K>,
    pairs: u64,
) -> Result<u64, Stop>
    requires small { e ≤ 12 }
    requires within { IsProperWith K.field j.now.given f.now }
    ensures value { IfOk result (IsNu K.field f.now j.now.given e) }
    ensures stop { StopsOnlyWith K.field (RunFor orders.Grevlex (IsNuList K.field e f.now j.now.given)) (IsHighInNu K.field e f.now j.now.given) pairs result }
{
    // f is a polynomial over K.
    let _ = f.is_zero();
    let _ = j.given();
    let mut digits = Vec::new(alloc);
    let mut nu = 0;
    'digits: for _ in 0..e {
        let digit = last_digit(alloc, f, &digits, j, pairs)?;
        digits.push(digit)?;
        nu = K::P * nu + digit;
    }
    Ok(nu)
}

// The last digit of the next nu, whose other digits are those of nu: f^(p*nu + p) is in the next Frobenius power, and f^(p*nu)
// isn't.
fn last_digit<K: Coeff>(
    alloc: Global,
    f: &GPoly<K>,
    higher: &[u64],
    j: &Ideal<K>,
    pairs: u64,
) -> Result<u64, Stop>
    requires nu { WriteNu K.field f.now j.now.given higher.now }
    ensures nu { IfOk result (λ last. WriteNu K.field f.now j.now.given (higher.now ++ last ∷ [])) }
    ensures stop { StopsOnlyWith K.field (RunFor orders.Grevlex (IsLongerDigitList K.field f.now higher.now)) (IsHighInLongerDigits K.field f.now higher.now) pairs result }
{
    // f is a polynomial over K.
    let _ = f.is_zero();
    let _ = j.given();
    let mut outside = 0;
    let mut inside = K::P;
    while inside - outside > 1 {
        let middle = outside + (inside - outside) / 2;
        if is_power_inside(alloc, f, higher, middle, j, pairs)? {
            inside = middle;
        } else {
            outside = middle;
        }
    }
    Ok(outside)
}
