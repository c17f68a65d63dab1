//! F-purity, splittings and compatible ideals, row by row.

ghost use Rattle.std.specs.Prelude.{◌≤◌};

use crate::given::{ONE, SQUARE, Terms, X, XY, XZ, YZ, fermat, ideal, lack_eighth, poly};
use fj_basis::Stop;
use fj_coeff::{Coeff, Fp};
use fj_compat::compatible;
use fj_fedder::{PureAt, is_pure, is_pure_at, split_ideal};
use fj_ideal::Ideal;
use fj_poly::Point;
use std::alloc::Global;
use std::process::Abort;
use std::test::Fail;

// Turns for each run.
const TURNS: u64 = 10_000;

const CUBIC: Terms<'static> = &[[3, 0, 0], [0, 3, 0], [0, 0, 3]];

// x^2*y + x^2
const FOLD: Terms<'static> = &[[2, 1, 0], [2, 0, 0]];

// x*y^2 + x
const CROSSED: Terms<'static> = &[[1, 2, 0], [1, 0, 0]];

// The polynomials modulo the ideal are F-pure, or aren't.
fn pure_modulo<K: Coeff>(
    rt: &impl Abort,
    alloc: Global,
    j: &Ideal<K>,
    expected: bool,
) -> Result<(), Fail> {
    assert!(rt; lack_eighth(j.members()));
    assert_eq!(rt; is_pure(alloc, j, TURNS)?, expected);
    Ok(())
}

// The polynomials modulo the ideal of these are F-pure, or aren't.
fn pure<K: Coeff>(
    rt: &impl Abort,
    alloc: Global,
    rows: &[Terms],
    expected: bool,
) -> Result<(), Fail> {
    pure_modulo(rt, alloc, &ideal::<K>(rt, alloc, rows)?, expected)
}

// The verdict at a point in x and y.
fn pure_at<K: Coeff>(
    rt: &impl Abort,
    alloc: Global,
    row: Terms,
    at: [K; 2],
    expected: PureAt,
) -> Result<(), Fail> {
    let j = ideal::<K>(rt, alloc, &[row])?;
    assert!(rt; lack_eighth(j.members()));
    let at = Point::of(alloc, &at)?;
    assert_eq!(rt; is_pure_at(alloc, &j, &at, TURNS)?, expected);
    Ok(())
}

// The root of I^[p] : I is (g).
fn split<K: Coeff>(rt: &impl Abort, alloc: Global, rows: &[Terms], g: Terms) -> Result<(), Fail> {
    let j = ideal::<K>(rt, alloc, rows)?;
    assert!(rt; lack_eighth(j.members()));
    let split = split_ideal(alloc, &j, TURNS)?;
    assert!(rt; split.same(&ideal(rt, alloc, &[g])?));
    Ok(())
}

// The ideal (g) is compatible with u at e, or isn't.
fn compatible_with<K: Coeff>(
    rt: &impl Abort,
    alloc: Global,
    e: u32,
    u: Terms,
    g: Terms,
    expected: bool,
) -> Result<(), Fail>
    requires { e ≤ 12 }
{
    let j = ideal::<K>(rt, alloc, &[g])?;
    let u = poly(rt, alloc, u)?;
    assert_eq!(rt; compatible(alloc, e, &u, &j)?, expected);
    Ok(())
}

// The cone over a Fermat cubic, an ordinary elliptic curve over GF(7) and a supersingular one over GF(5).
#[test]
fn fermat_cubics(rt: HostRuntime) -> Result<(), Fail> {
    let alloc = rt.alloc();
    pure::<Fp<5>>(&rt, alloc, &[CUBIC], false)?;
    pure::<Fp<7>>(&rt, alloc, &[CUBIC], true)
}

// Both verdicts on the cone over a Fermat quintic in five variables, that at the vertex without a turn.
fn fermat_quintic<K: Coeff>(
    rt: &impl Abort,
    alloc: Global,
    expected: bool,
    at_vertex: PureAt,
) -> Result<(), Fail> {
    let j = fermat::<K>(rt, alloc, 5)?;
    pure_modulo(rt, alloc, &j, expected)?;
    assert!(rt; lack_eighth(j.members()));
    assert_eq!(rt;
        is_pure_at(alloc, &j, &Point::of(alloc, &[])?, 0)?,
        at_vertex
    );
    Ok(())
}

// The (p - 1)-th power has the term of (x1*x2*x3*x4*x5)^(p-1) where 5 divides p - 1, and else each term has a p-th power.
#[test]
fn fermat_quintics(rt: HostRuntime) -> Result<(), Fail> {
    let alloc = rt.alloc();
    fermat_quintic::<Fp<7>>(&rt, alloc, false, PureAt::No)?;
    fermat_quintic::<Fp<11>>(&rt, alloc, true, PureAt::Yes)
}

// The coordinate axes, a double plane, all of space, and nothing.
#[test]
fn monomial_ideals(rt: HostRuntime) -> Result<(), Fail> {
    let alloc = rt.alloc();
    pure::<Fp<2>>(&rt, alloc, &[XY, XZ, YZ], true)?;
    pure::<Fp<2>>(&rt, alloc, &[SQUARE], false)?;
    pure::<Fp<2>>(&rt, alloc, &[], true)?;
    pure::<Fp<2>>(&rt, alloc, &[ONE], true)?;
    split::<Fp<2>>(&rt, alloc, &[SQUARE], X)?;
    split::<Fp<7>>(&rt, alloc, &[XY, XZ, YZ], ONE)
}

// (x^2*(y + 1)) is reduced away from x = 0. (x*(y + 1)^2) is so at the origin.
#[test]
fn points(rt: HostRuntime) -> Result<(), Fail> {
    let alloc = rt.alloc();
    let (zero, one) = (Fp::<2>::zero(), Fp::<2>::one());
    pure::<Fp<2>>(&rt, alloc, &[FOLD], false)?;
    pure_at(&rt, alloc, FOLD, [one, one], PureAt::Yes)?;
    pure_at(&rt, alloc, FOLD, [zero, zero], PureAt::No)?;
    pure_at(&rt, alloc, FOLD, [one, zero], PureAt::Off)?;
    pure::<Fp<2>>(&rt, alloc, &[CROSSED], false)?;
    pure_at(&rt, alloc, CROSSED, [zero, zero], PureAt::Yes)
}

// With x^2*y^2 over GF(3) (x) is compatible, and (x + y) isn't. With x over GF(2) (x) is so at 1, and isn't at 2.
#[test]
fn compatible_ideals(rt: HostRuntime) -> Result<(), Fail> {
    let alloc = rt.alloc();
    compatible_with::<Fp<3>>(&rt, alloc, 1, &[[2, 2, 0]], X, true)?;
    compatible_with::<Fp<3>>(&rt, alloc, 1, &[[2, 2, 0]], &[[1, 0, 0], [0, 1, 0]], false)?;
    compatible_with::<Fp<2>>(&rt, alloc, 1, X, X, true)?;
    compatible_with::<Fp<2>>(&rt, alloc, 2, X, X, false)?;
    compatible_with::<Fp<2>>(&rt, alloc, 0, X, X, true)
}

// A product that is too high is kept with u, and a power that is too high by itself.
#[test]
fn high_products(rt: HostRuntime) -> Result<(), Fail> {
    let alloc = rt.alloc();
    let j = ideal::<Fp<2>>(&rt, alloc, &[&[[1 << 39, 1, 0]]])?;
    let u = poly(&rt, alloc, &[[1 << 39, 0, 0]])?;
    match &compatible(alloc, 1, &u, &j) {
        Err(Stop::Product(kept)) => assert_eq!(rt; kept.list.len(), 2),
        _ => assert!(rt; false, "a product above 2^40"),
    }
    assert!(rt; lack_eighth(j.members()));
    match &is_pure(alloc, &j, TURNS) {
        Err(Stop::Product(kept)) => assert_eq!(rt; kept.list.len(), 1),
        _ => assert!(rt; false, "a square above 2^40"),
    }
    Ok(())
}
