//! Ideals by their bases alone: thinned lists, unit ideals, inclusion and equality.

use crate::rows::{have_terms, polys};
use fj_basis::Stop;
use fj_coeff::Fp;
use fj_ideal::{Ideal, Reduced};
use fj_poly::GPoly;
use std::alloc::Global;
use std::process::Abort;
use std::test::Fail;

// A polynomial over GF(2) in x and y: the exponents of each term, and 1.
type Terms<'a> = &'a [([u64; 2], u64)];

const ONE: Terms<'static> = &[([0, 0], 1)];

const X: Terms<'static> = &[([1, 0], 1)];

const Y: Terms<'static> = &[([0, 1], 1)];

const SQUARE: Terms<'static> = &[([2, 0], 1)];

const MIXED: Terms<'static> = &[([1, 1], 1)];

// x^2 + y
const PARABOLA: Terms<'static> = &[([2, 0], 1), ([0, 1], 1)];

// x^3 + x*y
const MULTIPLE: Terms<'static> = &[([3, 0], 1), ([1, 1], 1)];

fn list(rt: &impl Abort, alloc: Global, rows: &[Terms]) -> Result<Vec<GPoly<Fp<2>>>, Fail> {
    Ok(polys(rt, alloc, rows)?)
}

// The ideal of the list has these members, from the list and from its thinned list.
fn has_members(
    rt: &impl Abort,
    alloc: Global,
    rows: &[Terms],
    wanted: &[Terms],
) -> Result<(), Fail> {
    let plain = Reduced::of(alloc, &list(rt, alloc, rows)?, 100)?;
    have_terms(rt, alloc, plain.members(), wanted)?;
    let thinned = Reduced::by_thinning(alloc, list(rt, alloc, rows)?, 100)?;
    have_terms(rt, alloc, thinned.given(), rows)?;
    have_terms(rt, alloc, thinned.members(), wanted)?;
    assert!(rt; thinned.same(&plain));
    have_terms(rt, alloc, thinned.copy(alloc)?.members(), wanted)?;
    have_terms(
        rt,
        alloc,
        thinned.with_cofactors(alloc, 100)?.members(),
        wanted,
    )
}

// x^3 + x*y is x*(x^2 + y), and (x^2 + y, x*y) has y^2 too.
#[test]
fn members(rt: HostRuntime) -> Result<(), Fail> {
    let alloc = rt.alloc();
    has_members(&rt, alloc, &[], &[])?;
    has_members(&rt, alloc, &[MULTIPLE, PARABOLA, PARABOLA], &[PARABOLA])?;
    has_members(&rt, alloc, &[MULTIPLE, PARABOLA, MIXED, Y], &[Y, SQUARE])?;
    has_members(
        &rt,
        alloc,
        &[PARABOLA, MIXED],
        &[&[([0, 2], 1)], MIXED, PARABOLA],
    )?;
    has_members(&rt, alloc, &[PARABOLA, ONE, MIXED], &[ONE])
}

// One pair is pending before the first turn.
#[test]
fn stop(rt: HostRuntime) -> Result<(), Fail> {
    let alloc = rt.alloc();
    match &Reduced::by_thinning(alloc, list(&rt, alloc, &[PARABOLA, MIXED])?, 0) {
        Err(Stop::Pairs(kept)) => assert_eq!(rt; kept.list.len(), 2),
        _ => assert!(rt; false, "a pair that is pending"),
    }
    Ok(())
}

// (x^2, y) is inside (x, y) and not inside (x).
#[test]
fn inclusion(rt: HostRuntime) -> Result<(), Fail> {
    let alloc = rt.alloc();
    let small = Reduced::of(alloc, &list(&rt, alloc, &[PARABOLA, Y])?, 100)?;
    let point = Ideal::of(alloc, &list(&rt, alloc, &[X, Y])?, 100)?;
    let line = Ideal::of(alloc, &list(&rt, alloc, &[X])?, 100)?;
    assert!(rt; small.is_inside(alloc, &point)?);
    assert!(rt; !small.is_inside(alloc, &line)?);
    assert!(rt; point.has_all(alloc, &list(&rt, alloc, &[PARABOLA, MIXED])?)?);
    assert!(rt; !line.has_all(alloc, &list(&rt, alloc, &[PARABOLA, MIXED])?)?);
    assert!(rt; !small.is_unit());
    Ok(())
}
