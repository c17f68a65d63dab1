//! Chains and what they reach, row by row.

ghost use Rattle.std.specs.Prelude.{IsTrue};
ghost use Rattle.fj_chain.specs.Admissible.{IsAdmissible};

use fj_chain::{
    falling, is_jump, left_limit, reduced_left_limit, reduced_test_ideal, rising, step, test_ideal,
};
use fj_coeff::{Coeff, Fp, is_prime};
use fj_elim::lacks_eighth;
use fj_ideal::Ideal;
use fj_mono::Mono;
use fj_poly::{GPoly, Poly};
use fj_ratio::{Digits, Ratio};
use std::alloc::{AllocError, Global};
use std::process::Abort;
use std::test::Fail;

// A polynomial in x and y: the exponents of each term, whose coefficients are 1.
type Terms<'a> = &'a [[u64; 2]];

const ONE: Terms<'static> = &[[0, 0]];

const X: Terms<'static> = &[[1, 0]];

const Y: Terms<'static> = &[[0, 1]];

// x^2 + y^3
const CUSP: Terms<'static> = &[[2, 0], [0, 3]];

// x^5
const FIFTH: Terms<'static> = &[[5, 0]];

fn poly<K: Coeff>(rt: &impl Abort, alloc: Global, terms: Terms) -> Result<GPoly<K>, AllocError> {
    let mut sum = Poly::zero(alloc);
    for [x, y] in terms {
        let m = Mono::new([*x, *y, 0, 0, 0, 0, 0, 0]).expect(rt, "a degree within the limit");
        sum = sum.add(alloc, &Poly::term(alloc, K::one(), &m)?)?;
    }
    Ok(sum)
}

// The members of the ideal have these terms, in this order.
fn are<K: Coeff>(
    rt: &impl Abort,
    alloc: Global,
    ideal: &Ideal<K>,
    rows: &[Terms],
) -> Result<(), Fail> {
    have_rows(rt, alloc, ideal.members(), rows)
}

// The polynomials have these terms, in this order.
fn have_rows<K: Coeff>(
    rt: &impl Abort,
    alloc: Global,
    members: &[GPoly<K>],
    rows: &[Terms],
) -> Result<(), Fail> {
    assert_eq!(rt; members.len(), rows.len());
    for (f, row) in members.iter().zip(rows) {
        assert!(rt; f.same(&poly(rt, alloc, row)?));
    }
    Ok(())
}

// Whether test ideals of the polynomial may be asked for.
fn is_admissible<K: Coeff>(f: &GPoly<K>) -> bool
    ensures { IsTrue result → IsAdmissible f.now }
{
    match f.degree() {
        Some(degree) => 1 <= degree && degree <= 1000 && lacks_eighth(f),
        None => false,
    }
}

// The test ideal at a fraction and the limit from the left, with cofactors and without, and whether it is a jump.
fn has_limits<K: Coeff>(
    rt: &impl Abort,
    alloc: Global,
    f: Terms,
    fraction: (u64, u64),
    test: &[Terms],
    left: &[Terms],
    jump: bool,
) -> Result<(), Fail> {
    let f: GPoly<K> = poly(rt, alloc, f)?;
    let t = Ratio::new(fraction.0, fraction.1).expect(rt, "a fraction");
    assert!(rt; is_admissible(&f));
    assert!(rt; 0 < t.num());
    assert!(rt; t.num() <= 8 * t.den());
    are(rt, alloc, &test_ideal(alloc, &f, &t, 100)?, test)?;
    are(rt, alloc, &left_limit(alloc, &f, &t, 100)?, left)?;
    have_rows(
        rt,
        alloc,
        reduced_test_ideal(alloc, &f, &t, 100)?.members(),
        test,
    )?;
    have_rows(
        rt,
        alloc,
        reduced_left_limit(alloc, &f, &t, 100)?.members(),
        left,
    )?;
    assert_eq!(rt; is_jump(alloc, &f, &t, 100)?, jump);
    Ok(())
}

#[test]
fn limits_at_fractions(rt: HostRuntime) -> Result<(), Fail> {
    let alloc = rt.alloc();
    has_limits::<Fp<5>>(&rt, alloc, CUSP, (4, 5), &[Y, X], &[ONE], true)?;
    has_limits::<Fp<5>>(&rt, alloc, CUSP, (3, 4), &[ONE], &[ONE], false)?;
    has_limits::<Fp<2>>(&rt, alloc, FIFTH, (1, 3), &[X], &[X], false)?;
    has_limits::<Fp<2>>(&rt, alloc, FIFTH, (2, 3), &[&[[3, 0]]], &[&[[3, 0]]], false)?;
    has_limits::<Fp<2>>(&rt, alloc, FIFTH, (1, 5), &[X], &[ONE], true)?;
    // Above 1 the whole number comes out.
    has_limits::<Fp<2>>(&rt, alloc, X, (8, 1), &[&[[8, 0]]], &[&[[7, 0]]], true)?;
    has_limits::<Fp<2>>(&rt, alloc, X, (3, 2), &[X], &[X], false)
}

// At 0 the test ideal is (1).
#[test]
fn test_ideal_at_zero(rt: HostRuntime) -> Result<(), Fail> {
    let alloc = rt.alloc();
    let f: GPoly<Fp<2>> = poly(&rt, alloc, X)?;
    let zero = Ratio::new(0, 1).expect(&rt, "a fraction");
    assert!(rt; is_admissible(&f));
    assert!(rt; zero.num() <= 8 * zero.den());
    are(&rt, alloc, &test_ideal(alloc, &f, &zero, 100)?, &[ONE])
}

// The period of 1/3 in base 2 is 0 1. From (x^5) three periods lead to (x), (x^2) before it; from (1) two do.
#[test]
fn chains_of_a_period(rt: HostRuntime) -> Result<(), Fail> {
    let alloc = rt.alloc();
    let f: GPoly<Fp<2>> = poly(&rt, alloc, FIFTH)?;
    let third = Ratio::new(1, 3).expect(&rt, "a fraction");
    assert!(rt; is_admissible(&f));
    assert!(rt; is_prime(2));
    assert!(rt; 0 < third.num());
    assert!(rt; third.num() <= third.den());
    let digits = Digits::of(alloc, 2, &third)?;
    let (limit, periods) = rising(alloc, &f, &digits, 100)?;
    are(&rt, alloc, &limit, &[X])?;
    assert_eq!(rt; periods, 3);
    let (limit, periods) = falling(alloc, &f, &digits, 100)?;
    are(&rt, alloc, &limit, &[X])?;
    assert_eq!(rt; periods, 2);
    Ok(())
}

// Over GF(2) the root at 1 of x^5 (x) is (x^3), and that of (x) is (1).
#[test]
fn steps_by_a_digit(rt: HostRuntime) -> Result<(), Fail> {
    let alloc = rt.alloc();
    let f: GPoly<Fp<2>> = poly(&rt, alloc, FIFTH)?;
    let ideal = Ideal::of(alloc, &[poly(&rt, alloc, X)?], 100)?;
    are(&rt, alloc, &step(alloc, 1, &f, &ideal, 100)?, &[&[[3, 0]]])?;
    are(&rt, alloc, &step(alloc, 0, &f, &ideal, 100)?, &[ONE])
}
