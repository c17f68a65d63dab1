//! Ideals: members, inclusions, sums, products, zeros and orders.

use crate::rows::{have_terms, poly, polys};
use fj_basis::Stop;
use fj_coeff::{Coeff, Fp};
use fj_ideal::Ideal;
use fj_mono::Lex;
use fj_plain::{Cert, Kept, OrderName, PlainList, PlainPoly, holds};
use fj_poly::{GPoly, Point, Poly};
use std::alloc::Global;
use std::process::Abort;
use std::test::Fail;

// A polynomial over GF(2) in x and y: the exponents of each term, and 1.
type Terms<'a> = &'a [([u64; 2], u64)];

const ONE: Terms<'static> = &[([0, 0], 1)];

const X: Terms<'static> = &[([1, 0], 1)];

const Y: Terms<'static> = &[([0, 1], 1)];

const SHIFTED: Terms<'static> = &[([1, 0], 1), ([0, 0], 1)];

const SQUARE: Terms<'static> = &[([2, 0], 1)];

const HIGH: Terms<'static> = &[([1 << 40, 0], 1)];

fn ideal(rt: &impl Abort, alloc: Global, list: &[Terms]) -> Result<Ideal<Fp<2>>, Fail> {
    Ok(Ideal::of(alloc, &polys(rt, alloc, list)?, 100)?)
}

// The plain polynomial has these terms, falling in Grevlex.
fn has_plain_terms(rt: &impl Abort, f: &PlainPoly, wanted: Terms) {
    assert_eq!(rt; f.len(), wanted.len());
    for (k, ([x, y], n)) in wanted.iter().enumerate() {
        assert!(rt; k < f.len());
        assert_eq!(rt; f.get(k).exps, [*x, *y, 0, 0, 0, 0, 0, 0]);
        assert_eq!(rt; f.get(k).rank, *n);
    }
}

// The plain polynomials of the list have these terms.
pub fn have_plain_terms(rt: &impl Abort, list: &PlainList, wanted: &[Terms]) {
    assert_eq!(rt; list.len(), wanted.len());
    for (i, terms) in wanted.iter().enumerate() {
        assert!(rt; i < list.len());
        has_plain_terms(rt, list.get(i), terms);
    }
}

fn is_kept(rt: &impl Abort, kept: &Kept, wanted: &[Terms]) {
    assert!(rt; kept.order == OrderName::Grevlex);
    have_plain_terms(rt, &kept.list, wanted);
}

// The ideal of [x] has the basis [x], and both cofactors are 1.
#[test]
fn cofactors(rt: HostRuntime) -> Result<(), Fail> {
    let alloc = rt.alloc();
    let j = ideal(&rt, alloc, &[X])?;
    have_terms(&rt, alloc, j.given(), &[X])?;
    have_terms(&rt, alloc, j.members(), &[X])?;
    assert_eq!(rt; (j.given().len(), j.members().len()), (1, 1));
    let one = poly(&rt, alloc, ONE)?;
    assert!(rt; j.down(0, 0).same(&one));
    assert!(rt; j.up(0, 0).same(&one));
    Ok(())
}

// The certificate is one of a basis over GF(2) for Grevlex, of the list [x] and the basis [x].
fn is_certificate(rt: &impl Abort, cert: &Cert) {
    match cert {
        Cert::Basis {
            p,
            order,
            given,
            found,
            ..
        } => {
            assert_eq!(rt; *p, 2);
            assert!(rt; *order == OrderName::Grevlex);
            have_plain_terms(rt, given, &[X]);
            have_plain_terms(rt, found, &[X]);
        }
        _ => assert!(rt; false, "a certificate of a basis"),
    }
}

#[test]
fn certificate(rt: HostRuntime) -> Result<(), Fail> {
    let cert = ideal(&rt, rt.alloc(), &[X])?.cert(rt.alloc())?;
    assert!(rt; holds(rt.alloc(), &cert)?);
    is_certificate(&rt, &cert);
    Ok(())
}

// h is the sum of these cofactors times the members.
fn is_combination<K: Coeff>(
    rt: &impl Abort,
    alloc: Global,
    j: &Ideal<K>,
    cofactors: &[GPoly<K>],
    h: &GPoly<K>,
) -> Result<(), Fail> {
    assert_eq!(rt; cofactors.len(), j.members().len());
    let mut sum = Poly::zero(alloc);
    for (c, g) in cofactors.iter().zip(j.members()) {
        sum = sum.add(alloc, &c.mul(alloc, g)?)?;
    }
    assert!(rt; sum.same(h));
    Ok(())
}

// Whether the ideal of a list has h as a member.
fn has_member(
    rt: &impl Abort,
    alloc: Global,
    list: &[Terms],
    h: Terms,
    wanted: bool,
) -> Result<(), Fail> {
    let j = ideal(rt, alloc, list)?;
    let h = poly(rt, alloc, h)?;
    let found = j.member(alloc, &h)?;
    assert_eq!(rt; found.is_some(), wanted);
    match &found {
        Some(cofactors) => is_combination(rt, alloc, &j, cofactors, &h),
        None => Ok(()),
    }
}

// x^2 and 0 are in (x, y), and 1 isn't. x isn't in (x^2, y).
#[test]
fn members(rt: HostRuntime) -> Result<(), Fail> {
    let rows: [(&[Terms], Terms, bool); 5] = [
        (&[X, Y], SQUARE, true),
        (&[X, Y], &[], true),
        (&[X, Y], ONE, false),
        (&[SQUARE, Y], X, false),
        (&[], X, false),
    ];
    for (list, h, wanted) in rows {
        has_member(&rt, rt.alloc(), list, h, wanted)?;
    }
    Ok(())
}

// Whether (x, y) has the ideal of a list inside, and the other way round.
fn compare(
    rt: &impl Abort,
    alloc: Global,
    list: &[Terms],
    inside: bool,
    around: bool,
) -> Result<(), Fail> {
    let plane = ideal(rt, alloc, &[X, Y])?;
    let j = ideal(rt, alloc, list)?;
    assert_eq!(rt; plane.contains(alloc, &j)?, inside);
    assert_eq!(rt; j.contains(alloc, &plane)?, around);
    assert_eq!(rt; plane.same(&j), inside && around);
    assert_eq!(rt; j.same(&plane), inside && around);
    Ok(())
}

// (x, y) has (x^2) and (0) inside, and not the other way round; it is (x + y, y), and inside (1).
#[test]
fn inclusions(rt: HostRuntime) -> Result<(), Fail> {
    let line: Terms = &[([1, 0], 1), ([0, 1], 1)];
    let rows: [(&[Terms], bool, bool); 4] = [
        (&[SQUARE], true, false),
        (&[line, Y], true, true),
        (&[ONE], false, true),
        (&[], true, false),
    ];
    for (list, inside, around) in rows {
        compare(&rt, rt.alloc(), list, inside, around)?;
    }
    Ok(())
}

#[test]
fn copies(rt: HostRuntime) -> Result<(), Fail> {
    let alloc = rt.alloc();
    let plane = ideal(&rt, alloc, &[X, Y])?;
    let copy = plane.copy(alloc)?;
    assert!(rt; copy.same(&plane));
    have_terms(&rt, alloc, copy.given(), &[X, Y])?;
    have_terms(&rt, alloc, copy.members(), &[Y, X])
}

// (x) + (y) = (x, y).
#[test]
fn sums(rt: HostRuntime) -> Result<(), Fail> {
    let alloc = rt.alloc();
    let line = ideal(&rt, alloc, &[X])?;
    let plane = line.sum(alloc, &ideal(&rt, alloc, &[Y])?, 100)?;
    have_terms(&rt, alloc, plane.given(), &[X, Y])?;
    have_terms(&rt, alloc, plane.members(), &[Y, X])
}

// (x, y)*(x, y) = (x^2, x*y, y^2).
#[test]
fn products(rt: HostRuntime) -> Result<(), Fail> {
    let alloc = rt.alloc();
    let plane = ideal(&rt, alloc, &[X, Y])?;
    let product = plane.product(alloc, &plane, 100)?;
    let xy: Terms = &[([1, 1], 1)];
    let last: Terms = &[([0, 2], 1)];
    have_terms(&rt, alloc, product.given(), &[last, xy, xy, SQUARE])?;
    have_terms(&rt, alloc, product.members(), &[last, xy, SQUARE])
}

// (x, y) takes a turn.
#[test]
fn budget(rt: HostRuntime) -> Result<(), Fail> {
    let alloc = rt.alloc();
    let list: Vec<GPoly<Fp<2>>> = polys(&rt, alloc, &[X, Y])?;
    match &Ideal::of(alloc, &list, 0) {
        Err(Stop::Pairs(kept)) => is_kept(&rt, kept, &[X, Y]),
        _ => assert!(rt; false, "no turn is allowed"),
    }
    Ok(())
}

// x^(2^40) times y passes the limit.
#[test]
fn high_product(rt: HostRuntime) -> Result<(), Fail> {
    let alloc = rt.alloc();
    let line = ideal(&rt, alloc, &[HIGH])?;
    let other = ideal(&rt, alloc, &[Y])?;
    match &line.product(alloc, &other, 100) {
        Err(Stop::Product(kept)) => is_kept(&rt, kept, &[HIGH, Y]),
        _ => assert!(rt; false, "a product that is too high"),
    }
    Ok(())
}

// (x, x + 1) = (1), () = (0) = (0, 0).
#[test]
fn constants(rt: HostRuntime) -> Result<(), Fail> {
    let zero: Terms = &[];
    let rows: [(&[Terms], bool, bool); 5] = [
        (&[X, SHIFTED], true, false),
        (&[X], false, false),
        (&[X, Y], false, false),
        (&[], false, true),
        (&[zero, zero], false, true),
    ];
    for (list, unit, zero) in rows {
        let j = ideal(&rt, rt.alloc(), list)?;
        assert_eq!(rt; (j.is_unit(), j.is_zero()), (unit, zero));
    }
    Ok(())
}

// Whether the ideal of a list vanishes at a point of the plane.
fn vanishes(
    rt: &impl Abort,
    alloc: Global,
    list: &[Terms],
    point: [Fp<2>; 2],
    wanted: bool,
) -> Result<(), Fail> {
    let at = Point::of(alloc, &point)?;
    assert_eq!(rt; ideal(rt, alloc, list)?.vanishes_at(&at), wanted);
    Ok(())
}

// (x + 1, y) vanishes at (1, 0) and not at (0, 0) or (1, 1); (0) vanishes everywhere and (1) nowhere.
#[test]
fn zeros(rt: HostRuntime) -> Result<(), Fail> {
    let alloc = rt.alloc();
    let zero = Coeff::zero();
    let one = Coeff::one();
    vanishes(&rt, alloc, &[SHIFTED, Y], [one, zero], true)?;
    vanishes(&rt, alloc, &[SHIFTED, Y], [zero, zero], false)?;
    vanishes(&rt, alloc, &[SHIFTED, Y], [one, one], false)?;
    vanishes(&rt, alloc, &[], [one, one], true)?;
    vanishes(&rt, alloc, &[ONE], [zero, zero], false)
}

// (y^2 + x, y^3) has the Grevlex basis y^2 + x, x*y, x^2 and the Lex basis y^3, x + y^2.
#[test]
fn orders(rt: HostRuntime) -> Result<(), Fail> {
    let alloc = rt.alloc();
    let by_degree: Terms = &[([0, 2], 1), ([1, 0], 1)];
    let by_name: Terms = &[([1, 0], 1), ([0, 2], 1)];
    let cube: Terms = &[([0, 3], 1)];
    let j = ideal(&rt, alloc, &[by_degree, cube])?;
    let xy: Terms = &[([1, 1], 1)];
    have_terms(&rt, alloc, j.members(), &[by_degree, xy, SQUARE])?;
    let lex = j.in_order::<Lex>(alloc, 100)?;
    have_terms(&rt, alloc, lex.members(), &[cube, by_name])
}
