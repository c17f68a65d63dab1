//! Thresholds at points.
ghost use Rattle.std.specs.Prelude.{◌≡◌, ◌<◌, ◌≤◌, ◌^◌, IfOk};
ghost use Rattle.fj_theory.specs.PointIdeal as theory;
ghost use Rattle.fj_theory.specs.PointIdeal.{UsesFirst};
ghost use Rattle.fj_plain.specs.declared.order_name.OrderName.TheVariants as orders;
ghost use Rattle.fj_ideal.specs.Lists.{RunFor};
ghost use Rattle.fj_ideal.specs.Stop.{StopsOnlyWith};
ghost use Rattle.fj_chain.specs.Admissible.{IsAdmissible};
ghost use Rattle.fj_thresh.specs.Answer.{IsPointAnswer};
ghost use Rattle.fj_thresh.specs.Lists.{IsHighInPointThreshold, IsPointThresholdList};

use crate::search::proper_threshold;
use crate::types::Threshold;
use fj_basis::Stop;
use fj_coeff::Coeff;
use fj_ideal::Ideal;
use fj_mono::Mono;
use fj_poly::{GPoly, Point, Poly};
use std::alloc::{AllocError, Global};

/// The F-threshold of f at the ideal of a point in the first `vars` variables, its F-pure threshold there (Takagi and Watanabe
/// 2004), as far as the candidates of C_e tell it. `Off` exactly where f isn't zero at the point, else as for `threshold`;
/// `Unit` and `NotIn` never come. There vars is at most 7, f uses the first `vars` variables alone, isn't constant and has a
/// degree of at most 1,000, e is at least 1 and p^e at most 65,536. Each list is run with at most `pairs` turns.
///
/// `Pairs` and `High` only where a run is unfinished or too high on the list of the polynomials x_i - c_i, c being the point, or
/// on one of the test lists or the left lists of a candidate. They keep this list. `Product` only where a product for such a list
/// has a term of total degree above 2^40, and it keeps f and the other polynomial. Where f isn't zero at the point there are no
/// such lists.
pub fn threshold_at<K: Coeff>(
    alloc: Global,
    f: &GPoly<K>,
    at: &Point<K>,
    vars: usize,
    e: u32,
    pairs: u64,
) -> Result<Threshold, Stop>
    requires few { vars ≤ 7 }
    requires uses { UsesFirst vars f.now }
    requires positive { 1 ≤ e }
    requires small { K.P ^ e ≤ 65536 }
    requires admissible { IsAdmissible f.now }
    ensures value { IfOk result (IsPointAnswer K.field e f.now vars at.now) }
    ensures stop { StopsOnlyWith K.field (RunFor orders.Grevlex (IsPointThresholdList K.field e f.now vars at.now)) (IsHighInPointThreshold K.field e f.now vars at.now) pairs result }
{
    // f is a polynomial over K, and the coordinates are elements of the field.
    let _ = f.is_zero();
    let _ = at.len();
    if f.eval(at).rank() != 0 {
        return Ok(Threshold::Off);
    }
    let list = point_ideal(alloc, at, vars)?;
    let j = Ideal::of_owned(alloc, list, pairs)?;
    proper_threshold(alloc, f, &j, e, pairs)
}

// The polynomials x_i - c_i for the first variables, c being the point.
fn point_ideal<K: Coeff>(
    alloc: Global,
    at: &Point<K>,
    vars: usize,
) -> Result<Vec<GPoly<K>>, AllocError>
    requires few { vars ≤ 7 }
    ensures { IfOk result (λ list. list.items ≡ theory.point_ideal K.field vars at.now) }
{
    let mut list = Vec::with_capacity(alloc, vars)?;
    for i in 0..vars {
        list.push(less_coordinate(alloc, at, i)?)?;
    }
    Ok(list)
}

// The polynomial x_i - c_i.
fn less_coordinate<K: Coeff>(alloc: Global, at: &Point<K>, i: usize) -> Result<GPoly<K>, AllocError>
    requires few { i < 7 }
    ensures { IfOk result (λ p. p ≡ theory.less_coordinate K.field at.now i) }
{
    // The coordinates are elements of the field.
    let _ = at.len();
    let mut exponents = [0; 8];
    exponents[i] = 1;
    let Ok(monomial) = Mono::new(exponents) else {
        unreachable!()
    };
    let variable: GPoly<K> = Poly::term(alloc, K::one(), &monomial)?;
    let coordinate = Poly::term(alloc, variable.eval(at), &Mono::one())?;
    variable.sub(alloc, &coordinate)
}
