//! Frobenius powers and roots of ideals.

use crate::rows::{have_terms, poly, polys};
use fj_basis::Stop;
use fj_coeff::{Coeff, Fp};
use fj_frobenius::{frobenius_power, frobenius_root, reduced_root_of_multiples, root_of_multiples};
use fj_ideal::{Ideal, Reduced};
use fj_poly::GPoly;
use std::alloc::Global;
use std::process::Abort;
use std::test::Fail;

// A polynomial in x and y: the exponents and the coefficient of each term.
type Terms<'a> = &'a [([u64; 2], u64)];

const ONE: Terms<'static> = &[([0, 0], 1)];

const X: Terms<'static> = &[([1, 0], 1)];

const Y: Terms<'static> = &[([0, 1], 1)];

const FIFTH: Terms<'static> = &[([5, 0], 1)];

const SQUARE: Terms<'static> = &[([2, 0], 1)];

const CUSP: Terms<'static> = &[([0, 3], 1), ([2, 0], 1)];

const HIGH: Terms<'static> = &[([1 << 40, 0], 1)];

fn ideal<K: Coeff>(rt: &impl Abort, alloc: Global, list: &[Terms]) -> Result<Ideal<K>, Fail> {
    Ok(Ideal::of_owned(alloc, polys(rt, alloc, list)?, 100)?)
}

// (x^3, x*y^2) has this Frobenius root at e over GF(2).
fn has_root(rt: &impl Abort, alloc: Global, e: u32, wanted: &[Terms]) -> Result<(), Fail> {
    assert!(rt; e <= 12);
    let j = ideal::<Fp<2>>(rt, alloc, &[&[([3, 0], 1)], &[([1, 2], 1)]])?;
    have_terms(
        rt,
        alloc,
        frobenius_root(alloc, e, &j, 100)?.members(),
        wanted,
    )
}

#[test]
fn frobenius_roots(rt: HostRuntime) -> Result<(), Fail> {
    let alloc = rt.alloc();
    has_root(&rt, alloc, 0, &[&[([1, 2], 1)], &[([3, 0], 1)]])?;
    has_root(&rt, alloc, 1, &[Y, X])?;
    has_root(&rt, alloc, 2, &[ONE])
}

// (x^3, x*y^2)^[2] = (x^6, x^2*y^4), and x^1000 has a ninth power over GF(13) that is too high.
#[test]
fn frobenius_powers(rt: HostRuntime) -> Result<(), Fail> {
    let alloc = rt.alloc();
    let j = ideal::<Fp<2>>(&rt, alloc, &[&[([3, 0], 1)], &[([1, 2], 1)]])?;
    have_terms(
        &rt,
        alloc,
        frobenius_power(alloc, 1, &j, 100)?.members(),
        &[&[([2, 4], 1)], &[([6, 0], 1)]],
    )?;
    let line = ideal::<Fp<13>>(&rt, alloc, &[&[([1000, 0], 1)]])?;
    match &frobenius_power(alloc, 9, &line, 100) {
        Err(Stop::Product(kept)) => assert_eq!(rt; kept.list.len(), 1),
        _ => assert!(rt; false, "a power that is too high"),
    }
    Ok(())
}

// The root at 1 of f^d*J has these members, with cofactors and without.
fn has_step<K: Coeff>(
    rt: &impl Abort,
    alloc: Global,
    d: u64,
    f: Terms,
    list: &[Terms],
    wanted: &[Terms],
) -> Result<(), Fail> {
    let f: GPoly<K> = poly(rt, alloc, f)?;
    let j = ideal::<K>(rt, alloc, list)?;
    have_terms(
        rt,
        alloc,
        root_of_multiples(alloc, d, &f, &j, 100)?.members(),
        wanted,
    )?;
    let j = Reduced::of_owned(alloc, polys(rt, alloc, list)?, 100)?;
    have_terms(
        rt,
        alloc,
        reduced_root_of_multiples(alloc, d, &f, &j, 100)?.members(),
        wanted,
    )
}

// x^5 = x*(x^2)^2 over GF(2), and the root at 1 of (f^5) is (f) over GF(5).
#[test]
fn steps(rt: HostRuntime) -> Result<(), Fail> {
    let alloc = rt.alloc();
    has_step::<Fp<2>>(&rt, alloc, 1, FIFTH, &[ONE], &[SQUARE])?;
    has_step::<Fp<2>>(&rt, alloc, 0, FIFTH, &[FIFTH], &[SQUARE])?;
    has_step::<Fp<5>>(&rt, alloc, 4, CUSP, &[CUSP], &[CUSP])?;
    has_step::<Fp<5>>(&rt, alloc, 4, HIGH, &[], &[])
}

// x*x^(2^40) passes the limit.
#[test]
fn high_step(rt: HostRuntime) -> Result<(), Fail> {
    let alloc = rt.alloc();
    let j = ideal::<Fp<2>>(&rt, alloc, &[HIGH])?;
    match &root_of_multiples(alloc, 1, &poly(&rt, alloc, X)?, &j, 100) {
        Err(Stop::Product(kept)) => assert_eq!(rt; kept.list.len(), 2),
        _ => assert!(rt; false, "a product that is too high"),
    }
    Ok(())
}
