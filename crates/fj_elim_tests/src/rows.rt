//! Meets and quotients, row by row.

ghost use Rattle.std.specs.Prelude.{◌≡◌, IsTrue, All};
ghost use Rattle.fj_theory.specs.PointIdeal.{UsesFirst};

use fj_coeff::{Coeff, Fp};
use fj_elim::{colon, colon_by, drop_t, lacks_eighth, meet};
use fj_ideal::Ideal;
use fj_mono::{Elim, Mono, Order};
use fj_poly::{GPoly, Poly};
use std::alloc::{AllocError, Global};
use std::process::Abort;
use std::test::Fail;

// A polynomial in x, y and t: the exponents of each term, whose coefficients are 1.
type Terms<'a> = &'a [[u64; 3]];

const ONE: Terms<'static> = &[[0, 0, 0]];

const X: Terms<'static> = &[[1, 0, 0]];

const Y: Terms<'static> = &[[0, 1, 0]];

const XY: Terms<'static> = &[[1, 1, 0]];

const SQUARE: Terms<'static> = &[[2, 0, 0]];

const T: Terms<'static> = &[[0, 0, 1]];

const MIXED: Terms<'static> = &[[1, 0, 1], [0, 1, 0]];

fn poly<K: Coeff, O: Order>(
    rt: &impl Abort,
    alloc: Global,
    terms: Terms,
) -> Result<Poly<K, O>, AllocError> {
    let mut sum = Poly::zero(alloc);
    for [x, y, t] in terms {
        let m = Mono::new([*x, *y, 0, 0, 0, 0, 0, *t]).expect(rt, "a degree within the limit");
        sum = sum.add(alloc, &Poly::term(alloc, K::one(), &m)?)?;
    }
    Ok(sum)
}

fn polys<K: Coeff, O: Order>(
    rt: &impl Abort,
    alloc: Global,
    rows: &[Terms],
) -> Result<Vec<Poly<K, O>>, AllocError> {
    let mut list = Vec::new(alloc);
    for row in rows {
        list.push(poly(rt, alloc, row)?)?;
    }
    Ok(list)
}

fn ideal<K: Coeff>(rt: &impl Abort, alloc: Global, rows: &[Terms]) -> Result<Ideal<K>, Fail> {
    Ok(Ideal::of_owned(alloc, polys(rt, alloc, rows)?, 100)?)
}

// The polynomials of the list have these terms, in this order.
fn are<K: Coeff>(
    rt: &impl Abort,
    alloc: Global,
    list: &[GPoly<K>],
    rows: &[Terms],
) -> Result<(), Fail> {
    assert_eq!(rt; list.len(), rows.len());
    for (f, row) in list.iter().zip(rows) {
        assert!(rt; f.same(&poly(rt, alloc, row)?));
    }
    Ok(())
}

// Whether no polynomial of the list has the eighth variable.
fn lack_eighth<K: Coeff>(list: &[GPoly<K>]) -> bool
    ensures { IsTrue result → All (UsesFirst 7) list.now }
{
    list.iter().all(|g| lacks_eighth(g))
}

// Two ideals have this meet, and the first has this quotient by the second.
fn are_met<K: Coeff>(
    rt: &impl Abort,
    alloc: Global,
    first: &[Terms],
    second: &[Terms],
    met: &[Terms],
    quotient: &[Terms],
) -> Result<(), Fail> {
    let j = ideal::<K>(rt, alloc, first)?;
    let k = ideal::<K>(rt, alloc, second)?;
    assert!(rt; lack_eighth(j.members()));
    assert!(rt; lack_eighth(k.members()));
    are(rt, alloc, meet(alloc, &j, &k, 100)?.members(), met)?;
    are(rt, alloc, colon(alloc, &j, &k, 100)?.members(), quotient)
}

// (x^2, x*y) and (x) have the meet (x*y, x^2), and the quotient (y, x). The quotient by zero is (1), that of zero is (0).
#[test]
fn meets_and_quotients(rt: HostRuntime) -> Result<(), Fail> {
    let alloc = rt.alloc();
    are_met::<Fp<5>>(&rt, alloc, &[SQUARE, XY], &[X], &[XY, SQUARE], &[Y, X])?;
    are_met::<Fp<5>>(&rt, alloc, &[SQUARE, XY], &[], &[], &[ONE])?;
    are_met::<Fp<5>>(&rt, alloc, &[], &[X], &[], &[])?;
    are_met::<Fp<3>>(&rt, alloc, &[X], &[Y], &[XY], &[X])?;
    // By two members: (x^2, x*y) : (x, y) is the meet of (x, y) and (x).
    are_met::<Fp<5>>(&rt, alloc, &[SQUARE, XY], &[X, Y], &[XY, SQUARE], &[X])
}

// (x*y) : x is (y), and by zero it is (1).
#[test]
fn quotients_by_one(rt: HostRuntime) -> Result<(), Fail> {
    let alloc = rt.alloc();
    let j = ideal::<Fp<2>>(&rt, alloc, &[XY])?;
    assert!(rt; lack_eighth(j.members()));
    let x: GPoly<Fp<2>> = poly(&rt, alloc, X)?;
    assert!(rt; lacks_eighth(&x));
    are(&rt, alloc, colon_by(alloc, &j, &x, 100)?.members(), &[Y])?;
    let zero: GPoly<Fp<2>> = Poly::zero(alloc);
    assert!(rt; lacks_eighth(&zero));
    are(
        &rt,
        alloc,
        colon_by(alloc, &j, &zero, 100)?.members(),
        &[ONE],
    )
}

// Of x*t + y, t, x and y the last two lack t.
#[test]
fn members_without_the_eighth(rt: HostRuntime) -> Result<(), Fail> {
    let alloc = rt.alloc();
    let list: Vec<Poly<Fp<7>, Elim>> = polys(&rt, alloc, &[MIXED, T, X, Y])?;
    are(&rt, alloc, &drop_t(alloc, &list)?, &[X, Y])
}
