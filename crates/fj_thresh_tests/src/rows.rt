//! Numbers nu and thresholds, row by row.

ghost use Rattle.std.specs.Prelude.{◌^◌, ◌≤◌, IsTrue};
ghost use Rattle.fj_chain.specs.Admissible.{IsAdmissible};

use fj_coeff::{Coeff, Fp};
use fj_elim::lacks_eighth;
use fj_ideal::Ideal;
use fj_mono::Mono;
use fj_poly::{GPoly, Point, Poly};
use fj_ratio::Ratio;
use fj_thresh::types::{Nu, Threshold};
use fj_thresh::{nu, threshold, threshold_at};
use std::alloc::{AllocError, Global};
use std::process::Abort;
use std::test::Fail;

// A polynomial in x, y and z: the exponents of each term, whose coefficients are 1.
type Terms<'a> = &'a [[u64; 3]];

// The turns of each run, as in a session that states no budget.
const PAIRS: u64 = 100_000;

const ONE: Terms<'static> = &[[0, 0, 0]];

const X: Terms<'static> = &[[1, 0, 0]];

const Y: Terms<'static> = &[[0, 1, 0]];

const Z: Terms<'static> = &[[0, 0, 1]];

// x + 1
const SHIFTED: Terms<'static> = &[[1, 0, 0], [0, 0, 0]];

// x^2 + y^3
const CUSP: Terms<'static> = &[[2, 0, 0], [0, 3, 0]];

// x^2 + y^2 + x^3
const NODE: Terms<'static> = &[[2, 0, 0], [0, 2, 0], [3, 0, 0]];

// x^3 + y^3 + z^3
const FERMAT: Terms<'static> = &[[3, 0, 0], [0, 3, 0], [0, 0, 3]];

fn poly<K: Coeff>(rt: &impl Abort, alloc: Global, terms: Terms) -> Result<GPoly<K>, AllocError> {
    let mut sum = Poly::zero(alloc);
    for [x, y, z] in terms {
        let m = Mono::new([*x, *y, *z, 0, 0, 0, 0, 0]).expect(rt, "a degree within the limit");
        sum = sum.add(alloc, &Poly::term(alloc, K::one(), &m)?)?;
    }
    Ok(sum)
}

fn ideal<K: Coeff>(rt: &impl Abort, alloc: Global, rows: &[Terms]) -> Result<Ideal<K>, Fail> {
    let mut list = Vec::new(alloc);
    for row in rows {
        list.push(poly(rt, alloc, row)?)?;
    }
    Ok(Ideal::of_owned(alloc, list, PAIRS)?)
}

// Whether test ideals of the polynomial may be asked for.
fn is_admissible<K: Coeff>(f: &GPoly<K>) -> bool
    ensures { IsTrue result → IsAdmissible f.now }
{
    match f.degree() {
        Some(degree) => 1 <= degree && degree <= 1000 && lacks_eighth(f),
        None => false,
    }
}

fn is_ratio(t: &Ratio, num: u64, den: u64) -> bool {
    t.num() == num && t.den() == den
}

fn is_at(found: Threshold, num: u64, den: u64) -> bool {
    match found {
        Threshold::At(t) => is_ratio(&t, num, den),
        _ => false,
    }
}

fn is_between(found: Threshold, lower: (u64, u64), upper: (u64, u64)) -> bool {
    match found {
        Threshold::Between(s, t) => {
            is_ratio(&s, lower.0, lower.1) && is_ratio(&t, upper.0, upper.1)
        }
        _ => false,
    }
}

// The threshold of a polynomial at the origin.
fn at_origin<K: Coeff>(rt: &impl Abort, alloc: Global, f: Terms, e: u32) -> Result<Threshold, Fail>
    requires positive { 1 ≤ e }
    requires small { K.P ^ e ≤ 65536 }
{
    let f: GPoly<K> = poly(rt, alloc, f)?;
    let origin = Point::of(alloc, &[])?;
    assert!(rt; is_admissible(&f));
    Ok(threshold_at(alloc, &f, &origin, 7, e, PAIRS)?)
}

// The threshold of a polynomial at the origin is num/den.
fn has_threshold<K: Coeff>(
    rt: &impl Abort,
    alloc: Global,
    f: Terms,
    e: u32,
    num: u64,
    den: u64,
) -> Result<(), Fail>
    requires positive { 1 ≤ e }
    requires small { K.P ^ e ≤ 65536 }
{
    let found = at_origin::<K>(rt, alloc, f, e)?;
    assert!(rt; is_at(found, num, den));
    Ok(())
}

// The threshold of a polynomial at an ideal.
fn at_ideal<K: Coeff>(
    rt: &impl Abort,
    alloc: Global,
    f: Terms,
    rows: &[Terms],
    e: u32,
) -> Result<Threshold, Fail>
    requires positive { 1 ≤ e }
    requires small { K.P ^ e ≤ 65536 }
{
    let f: GPoly<K> = poly(rt, alloc, f)?;
    let j = ideal(rt, alloc, rows)?;
    assert!(rt; is_admissible(&f));
    Ok(threshold(alloc, &f, &j, e, PAIRS)?)
}

// The number nu(e) of a polynomial at an ideal.
fn has_nu<K: Coeff>(
    rt: &impl Abort,
    alloc: Global,
    f: Terms,
    rows: &[Terms],
    e: u32,
    greatest: u64,
) -> Result<(), Fail>
    requires { e ≤ 12 }
{
    let f: GPoly<K> = poly(rt, alloc, f)?;
    let j = ideal(rt, alloc, rows)?;
    assert!(rt; is_admissible(&f));
    let found = nu(alloc, e, &f, &j, PAIRS)?;
    assert!(rt; matches!(found, Nu::Is(r) if r == greatest));
    Ok(())
}

#[test]
fn numbers_nu(rt: HostRuntime) -> Result<(), Fail> {
    let alloc = rt.alloc();
    has_nu::<Fp<5>>(&rt, alloc, CUSP, &[X, Y], 0, 0)?;
    has_nu::<Fp<5>>(&rt, alloc, CUSP, &[X, Y], 1, 3)?;
    has_nu::<Fp<5>>(&rt, alloc, CUSP, &[X, Y], 2, 19)?;
    has_nu::<Fp<7>>(&rt, alloc, CUSP, &[X, Y], 1, 5)?;
    // x^k is in (x^(3q)) from k = 3q on.
    has_nu::<Fp<2>>(&rt, alloc, X, &[X], 12, 4095)?;
    has_nu::<Fp<3>>(&rt, alloc, &[[3, 0, 0]], &[&[[2, 0, 0]]], 2, 5)
}

// (1) is the whole ring, and x + 1 isn't in (x).
#[test]
fn no_nu(rt: HostRuntime) -> Result<(), Fail> {
    let alloc = rt.alloc();
    let f: GPoly<Fp<5>> = poly(&rt, alloc, SHIFTED)?;
    assert!(rt; is_admissible(&f));
    let unit = nu(alloc, 1, &f, &ideal(&rt, alloc, &[ONE])?, PAIRS)?;
    assert!(rt; matches!(unit, Nu::Unit));
    let outside = nu(alloc, 1, &f, &ideal(&rt, alloc, &[X])?, PAIRS)?;
    assert!(rt; matches!(outside, Nu::NotIn));
    Ok(())
}

// The thresholds of the cusp at the origin.
#[test]
fn thresholds_of_the_cusp(rt: HostRuntime) -> Result<(), Fail> {
    let alloc = rt.alloc();
    has_threshold::<Fp<2>>(&rt, alloc, CUSP, 2, 1, 2)?;
    has_threshold::<Fp<3>>(&rt, alloc, CUSP, 2, 2, 3)?;
    has_threshold::<Fp<5>>(&rt, alloc, CUSP, 2, 4, 5)?;
    has_threshold::<Fp<7>>(&rt, alloc, CUSP, 1, 5, 6)?;
    has_threshold::<Fp<11>>(&rt, alloc, CUSP, 2, 9, 11)?;
    has_threshold::<Fp<13>>(&rt, alloc, CUSP, 1, 5, 6)?;
    has_threshold::<Fp<17>>(&rt, alloc, CUSP, 2, 14, 17)?;
    has_threshold::<Fp<19>>(&rt, alloc, CUSP, 1, 5, 6)?;
    has_threshold::<Fp<23>>(&rt, alloc, CUSP, 2, 19, 23)?;
    has_threshold::<Fp<29>>(&rt, alloc, CUSP, 2, 24, 29)?;
    has_threshold::<Fp<31>>(&rt, alloc, CUSP, 1, 5, 6)
}

#[test]
fn thresholds_at_the_origin(rt: HostRuntime) -> Result<(), Fail> {
    let alloc = rt.alloc();
    has_threshold::<Fp<5>>(&rt, alloc, FERMAT, 2, 4, 5)?;
    has_threshold::<Fp<7>>(&rt, alloc, FERMAT, 1, 1, 1)?;
    has_threshold::<Fp<7>>(&rt, alloc, NODE, 1, 1, 1)
}

// Where no candidate is the threshold: that of the Fermat cubic is 4/5, that of x^5 is 1/5, below each candidate. And where the
// polynomial isn't zero.
#[test]
fn no_threshold_at_the_origin(rt: HostRuntime) -> Result<(), Fail> {
    let alloc = rt.alloc();
    let cubic = at_origin::<Fp<5>>(&rt, alloc, FERMAT, 1)?;
    assert!(rt; is_between(cubic, (3, 4), (1, 1)));
    let power = at_origin::<Fp<2>>(&rt, alloc, &[[5, 0, 0]], 2)?;
    assert!(rt; is_between(power, (0, 1), (1, 3)));
    let shifted = at_origin::<Fp<5>>(&rt, alloc, SHIFTED, 1)?;
    assert!(rt; matches!(shifted, Threshold::Off));
    Ok(())
}

// x^3 at (x^2) has the threshold 2/3.
#[test]
fn thresholds_at_ideals(rt: HostRuntime) -> Result<(), Fail> {
    let alloc = rt.alloc();
    let unit = at_ideal::<Fp<5>>(&rt, alloc, SHIFTED, &[ONE], 1)?;
    assert!(rt; matches!(unit, Threshold::Unit));
    let outside = at_ideal::<Fp<5>>(&rt, alloc, SHIFTED, &[X], 1)?;
    assert!(rt; matches!(outside, Threshold::NotIn));
    let cubic = at_ideal::<Fp<5>>(&rt, alloc, FERMAT, &[X, Y, Z], 2)?;
    assert!(rt; is_at(cubic, 4, 5));
    let power = at_ideal::<Fp<2>>(&rt, alloc, &[[3, 0, 0]], &[&[[2, 0, 0]]], 2)?;
    assert!(rt; is_at(power, 2, 3));
    Ok(())
}
