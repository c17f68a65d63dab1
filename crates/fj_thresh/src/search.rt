//! Thresholds, by bisection of the candidates.
ghost use Rattle.std.specs.Prelude.{◌≡◌, ◌<◌, ◌≤◌, ◌^◌, IfOk};
ghost use Rattle.fj_plain.specs.declared.order_name.OrderName.TheVariants as orders;
ghost use Rattle.fj_ideal.specs.Lists.{RunFor};
ghost use Rattle.fj_ideal.specs.Stop.{StopsOnlyWith};
ghost use Rattle.fj_chain.specs.Admissible.{IsAdmissible};
ghost use Rattle.fj_thresh.specs.Answer.{IsProperWith, IsThresholdAnswer};
ghost use Rattle.fj_thresh.specs.Ends.{AreEnds, ComesInside, zero_fraction};
ghost use Rattle.fj_thresh.specs.Lists.{IsHighInThreshold, IsThresholdList};

use crate::types::Threshold;
use fj_basis::Stop;
use fj_chain::{reduced_left_limit, reduced_test_ideal};
use fj_coeff::Coeff;
use fj_ideal::Ideal;
use fj_poly::GPoly;
use fj_ratio::{Ratio, candidates};
use std::alloc::{AllocError, Global};

/// The F-threshold of f at an ideal J, as far as the candidates of C_e tell it: the t > 0 such that for every q = p^d f^ceil(t*q)
/// is in the Frobenius power J^[q] and f^(ceil(t*q) - 1) isn't (Mustață, Takagi and Watanabe 2005). `Unit` exactly where J has
/// 1, `NotIn` exactly where J is proper and f isn't in it, else `At` where the threshold is a candidate, and `Between` exactly
/// where no candidate is the threshold. `Off` never comes. There e is at least 1 and p^e at most 65,536, and f isn't constant,
/// has a degree of at most 1,000, and doesn't use the eighth variable. Each list is run with at most `pairs` turns.
///
/// `Pairs` and `High` only where a run is unfinished or too high on one of the test lists or the left lists of a candidate,
/// which they keep, and `Product` only where a product for such a list has a term of total degree above 2^40. It keeps f and
/// the other polynomial. Where J has 1 or f isn't in J there are no such lists.
pub fn threshold<K: Coeff>(
    alloc: Global,
    f: &GPoly<K>,
    j: &Ideal<K>,
    e: u32,
    pairs: u64,
) -> Result<Threshold, Stop>
    requires positive { 1 ≤ e }
    requires small { K.P ^ e ≤ 65536 }
    requires admissible { IsAdmissible f.now }
    ensures value { IfOk result (IsThresholdAnswer K.field e f.now j.now.given) }
    ensures stop { StopsOnlyWith K.field (RunFor orders.Grevlex (IsThresholdList K.field e f.now j.now.given)) (IsHighInThreshold K.field e f.now j.now.given) pairs result }
{
    // f is a polynomial over K.
    let _ = f.is_zero();
    let _ = j.given();
    if j.is_unit() {
        return Ok(Threshold::Unit);
    }
    if j.member(alloc, f)?.is_none() {
        return Ok(Threshold::NotIn);
    }
    proper_threshold(alloc, f, j, e, pairs)
}

/// The threshold where J is proper and f is in it: the upper end of the gap in which the test ideals come to be inside J, where
/// the limit from the left isn't inside. Else this gap has the threshold inside.
pub(crate) fn proper_threshold<K: Coeff>(
    alloc: Global,
    f: &GPoly<K>,
    j: &Ideal<K>,
    e: u32,
    pairs: u64,
) -> Result<Threshold, Stop>
    requires positive { 1 ≤ e }
    requires small { K.P ^ e ≤ 65536 }
    requires admissible { IsAdmissible f.now }
    requires within { IsProperWith K.field j.now.given f.now }
    ensures value { IfOk result (IsThresholdAnswer K.field e f.now j.now.given) }
    ensures stop { StopsOnlyWith K.field (RunFor orders.Grevlex (IsThresholdList K.field e f.now j.now.given)) (IsHighInThreshold K.field e f.now j.now.given) pairs result }
{
    // f is a polynomial over K.
    let _ = f.is_zero();
    let _ = j.given();
    let (lower, upper) = gap_inside(alloc, f, j, e, pairs)?;
    let left = reduced_left_limit(alloc, f, &upper, pairs)?;
    if left.is_inside(alloc, j)? {
        Ok(Threshold::Between(lower, upper))
    } else {
        Ok(Threshold::At(upper))
    }
}

// The gap in which the test ideals come to be inside J.
fn gap_inside<K: Coeff>(
    alloc: Global,
    f: &GPoly<K>,
    j: &Ideal<K>,
    e: u32,
    pairs: u64,
) -> Result<(Ratio, Ratio), Stop>
    requires positive { 1 ≤ e }
    requires small { K.P ^ e ≤ 65536 }
    requires admissible { IsAdmissible f.now }
    requires within { IsProperWith K.field j.now.given f.now }
    ensures gap { IfOk result (λ r. ComesInside K.field e f.now j.now.given (record { lower = r.0; upper = r.1 })) }
    ensures stop { StopsOnlyWith K.field (RunFor orders.Grevlex (IsThresholdList K.field e f.now j.now.given)) (IsHighInThreshold K.field e f.now j.now.given) pairs result }
{
    // f is a polynomial over K.
    let _ = f.is_zero();
    let _ = j.given();
    let ends = ends_of_gaps::<K>(alloc, e)?;
    let mut outside = 0;
    let mut inside = ends.len() - 1;
    while inside - outside > 1 {
        let middle = outside + (inside - outside) / 2;
        let ideal = reduced_test_ideal(alloc, f, &ends[middle], pairs)?;
        if ideal.is_inside(alloc, j)? {
            inside = middle;
        } else {
            outside = middle;
        }
    }
    Ok((ends[outside], ends[inside]))
}

// 0, and then the candidates of C_e, rising.
fn ends_of_gaps<K: Coeff>(alloc: Global, e: u32) -> Result<Vec<Ratio>, AllocError>
    requires positive { 1 ≤ e }
    requires small { K.P ^ e ≤ 65536 }
    ensures { IfOk result (λ ends. AreEnds K.field.characteristic e ends.items) }
{
    let mut ends = vec![in alloc; zero()]?;
    ends.append(&mut candidates(alloc, K::P, e)?)?;
    Ok(ends)
}

fn zero() -> Ratio
    ensures { result ≡ zero_fraction }
{
    let Ok(zero) = Ratio::new(0, 1) else {
        unreachable!()
    };
    zero
}
