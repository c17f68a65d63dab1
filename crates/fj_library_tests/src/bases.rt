//! Division and reduced Gröbner bases.
ghost use Rattle.std.specs.Prelude.{◌≡◌};

use crate::rows::{have_terms, poly, polys};
use fj_basis::{Stop, basis, divide, reduced_basis};
use fj_coeff::{Coeff, Fp};
use fj_mono::{Elim, Grevlex, Grlex, Lex, Order};
use fj_plain::{Kept, OrderName, PlainPoly, holds};
use fj_poly::{Poly, PolyFault};
use std::alloc::Global;
use std::process::Abort;
use std::test::Fail;

// A polynomial in x, y and z: the exponents and the coefficient of each term.
type Terms<'a> = &'a [([u64; 3], u64)];

const ONE: Terms<'static> = &[([0, 0, 0], 1)];

const X: Terms<'static> = &[([1, 0, 0], 1)];

const Y: Terms<'static> = &[([0, 1, 0], 1)];

const Z: Terms<'static> = &[([0, 0, 1], 1)];

// The run on a list with these turns answers this reduced basis, whose certificate holds, with and without cofactors, and
// with one turn less it stops.
fn answers<K: Coeff, O: Order, const N: usize>(
    rt: &impl Abort,
    alloc: Global,
    given: &[&[([u64; N], u64)]],
    turns: u64,
    members: &[&[([u64; N], u64)]],
) -> Result<(), Fail>
    requires { K.SIZE ≡ K.P }
{
    let given: Vec<Poly<K, O>> = polys(rt, alloc, given)?;
    if turns > 0 {
        stops(rt, alloc, &given, turns - 1)?;
    }
    let found = basis(alloc, &given, turns)?;
    have_terms(rt, alloc, found.members(), members)?;
    have_terms(rt, alloc, &reduced_basis(alloc, &given, turns)?, members)?;
    let cert = found.cert(alloc, &given)?;
    assert!(rt; holds(alloc, &cert)?);
    Ok(())
}

// With so many turns the run stops, and keeps its list.
fn stops<K: Coeff, O: Order>(
    rt: &impl Abort,
    alloc: Global,
    given: &[Poly<K, O>],
    turns: u64,
) -> Result<(), Fail> {
    match basis(alloc, given, turns) {
        Err(Stop::Pairs(kept)) => is_kept(rt, alloc, &kept, given),
        _ => {
            assert!(rt; false, "too few turns");
            Ok(())
        }
    }
}

// With so many turns a sugar above the limit arises, and the run keeps its list.
fn is_high<K: Coeff, O: Order>(
    rt: &impl Abort,
    alloc: Global,
    given: &[Poly<K, O>],
    turns: u64,
) -> Result<(), Fail> {
    match basis(alloc, given, turns) {
        Err(Stop::High(kept)) => is_kept(rt, alloc, &kept, given),
        _ => {
            assert!(rt; false, "no sugar above the limit");
            Ok(())
        }
    }
}

fn is_kept<K: Coeff, O: Order>(
    rt: &impl Abort,
    alloc: Global,
    kept: &Kept,
    given: &[Poly<K, O>],
) -> Result<(), Fail> {
    assert!(rt; kept.order == OrderName::of(O::ROW));
    assert_eq!(rt; kept.list.len(), given.len());
    for (i, f) in given.iter().enumerate() {
        assert!(rt; i < kept.list.len());
        same_terms(rt, kept.list.get(i), &f.to_plain(alloc)?);
    }
    Ok(())
}

fn same_terms(rt: &impl Abort, f: &PlainPoly, g: &PlainPoly) {
    assert_eq!(rt; f.len(), g.len());
    for i in 0..f.len() {
        assert!(rt; i < g.len());
        assert_eq!(rt; f.get(i).exps, g.get(i).exps);
        assert_eq!(rt; f.get(i).rank, g.get(i).rank);
    }
}

const FIRST: Terms<'static> = &[([2, 0, 0], 1), ([0, 1, 0], 1)];

const SECOND: Terms<'static> = &[([1, 1, 0], 1), ([0, 0, 0], 1)];

const THIRD: Terms<'static> = &[([0, 2, 0], 1), ([1, 0, 0], 1)];

const CUBE: Terms<'static> = &[([0, 3, 0], 1), ([0, 0, 0], 1)];

// Over GF(2) the ideal (x^2 + y, x*y + 1) in each order.
#[test]
fn orders(rt: HostRuntime) -> Result<(), Fail> {
    let alloc = rt.alloc();
    let given = &[FIRST, SECOND];
    let graded = &[THIRD, SECOND, FIRST];
    answers::<Fp<2>, Grevlex, 3>(&rt, alloc, given, 2, graded)?;
    answers::<Fp<2>, Grlex, 3>(&rt, alloc, given, 2, graded)?;
    answers::<Fp<2>, Elim, 3>(&rt, alloc, given, 2, graded)?;
    answers::<Fp<2>, Lex, 3>(&rt, alloc, given, 4, &[CUBE, THIRD])
}

// Over GF(2) of t*x and (1 - t)*y, with t the eighth variable: the member without t generates the meet of (x) and (y).
#[test]
fn elimination(rt: HostRuntime) -> Result<(), Fail> {
    let tx = ([1, 0, 0, 0, 0, 0, 0, 1], 1);
    let ty = ([0, 1, 0, 0, 0, 0, 0, 1], 1);
    let y = ([0, 1, 0, 0, 0, 0, 0, 0], 1);
    let xy = ([1, 1, 0, 0, 0, 0, 0, 0], 1);
    let given: &[&[([u64; 8], u64)]] = &[&[tx], &[y, ty]];
    let members: &[&[([u64; 8], u64)]] = &[&[xy], &[ty, y], &[tx]];
    answers::<Fp<2>, Elim, 8>(&rt, rt.alloc(), given, 2, members)
}

// Lists of one member and of none, with zeros, repeated members, equal leads and a constant.
#[test]
fn small_lists(rt: HostRuntime) -> Result<(), Fail> {
    let zero: Terms = &[];
    let twice: Terms = &[([1, 0, 0], 2)];
    let line: Terms = &[([1, 0, 0], 1), ([0, 1, 0], 1)];
    let next: Terms = &[([0, 1, 0], 1), ([0, 0, 1], 1)];
    let across: Terms = &[([1, 0, 0], 1), ([0, 0, 1], 2)];
    let rows: [(&[Terms], u64, &[Terms]); 9] = [
        (&[], 0, &[]),
        (&[zero], 0, &[]),
        (&[twice], 0, &[X]),
        (&[zero, X, zero], 0, &[X]),
        (&[X, X], 1, &[X]),
        (&[line, X], 2, &[Y, X]),
        (&[X, ONE], 1, &[ONE]),
        (&[X, Y, Z], 3, &[Z, Y, X]),
        (&[line, next], 1, &[next, across]),
    ];
    for (given, turns, members) in rows {
        answers::<Fp<3>, Lex, 3>(&rt, rt.alloc(), given, turns, members)?;
        answers::<Fp<3>, Grevlex, 3>(&rt, rt.alloc(), given, turns, members)?;
    }
    Ok(())
}

// The example of Cox, Little and O'Shea, x^3 - 2*x*y and x^2*y - 2*y^2 + x in Grlex, over GF(7).
#[test]
fn textbook(rt: HostRuntime) -> Result<(), Fail> {
    let first: Terms = &[([3, 0, 0], 1), ([1, 1, 0], 5)];
    let second: Terms = &[([2, 1, 0], 1), ([0, 2, 0], 5), ([1, 0, 0], 1)];
    let square: Terms = &[([0, 2, 0], 1), ([1, 0, 0], 3)];
    let members = &[square, &[([1, 1, 0], 1)], &[([2, 0, 0], 1)]];
    answers::<Fp<7>, Grlex, 3>(&rt, rt.alloc(), &[first, second], 5, members)
}

// Over GF(3) an ideal whose remainder is not monic.
#[test]
fn monic_members(rt: HostRuntime) -> Result<(), Fail> {
    let first: Terms = &[([2, 0, 0], 2), ([0, 1, 0], 1)];
    let second: Terms = &[([1, 1, 0], 1), ([0, 0, 0], 2)];
    let third: Terms = &[([0, 2, 0], 1), ([1, 0, 0], 2)];
    let last: Terms = &[([2, 0, 0], 1), ([0, 1, 0], 2)];
    let members = &[third, second, last];
    answers::<Fp<3>, Grevlex, 3>(&rt, rt.alloc(), &[first, second], 2, members)
}

// Powers whose least common multiples are above the limit, so that each pair is dropped.
#[test]
fn high_pairs(rt: HostRuntime) -> Result<(), Fail> {
    let x: Terms = &[([815730721000, 0, 0], 1)];
    let y: Terms = &[([0, 815730721000, 0], 1)];
    let z: Terms = &[([0, 0, 815730721000], 1)];
    answers::<Fp<13>, Grevlex, 3>(&rt, rt.alloc(), &[x, y, z], 3, &[z, y, x])
}

// The least common multiple of the two powers is above the limit, and xy spares their pair.
#[test]
fn spared_high_pair(rt: HostRuntime) -> Result<(), Fail> {
    let x: Terms = &[([815730721000, 0, 0], 1)];
    let y: Terms = &[([0, 815730721000, 0], 1)];
    let xy: Terms = &[([1, 1, 0], 1)];
    answers::<Fp<13>, Grevlex, 3>(&rt, rt.alloc(), &[x, y, xy], 2, &[xy, y, x])
}

// Over GF(2) in Lex, g = x + y^(2^40): x is 1*g + y^(2^40), the division of x^2 passes the limit, and so does the run
// on g and x^2.
#[test]
fn limit(rt: HostRuntime) -> Result<(), Fail> {
    let alloc = rt.alloc();
    let power: Terms = &[([0, 1 << 40, 0], 1)];
    let sum: Terms = &[([1, 0, 0], 1), ([0, 1 << 40, 0], 1)];
    let square: Terms = &[([2, 0, 0], 1)];
    let by: Vec<Poly<Fp<2>, Lex>> = polys(&rt, alloc, &[sum])?;
    assert!(rt; by.iter().all(|g| !g.is_zero()));
    let (quotients, remainder) = divide(alloc, &poly(&rt, alloc, X)?, &by)?;
    have_terms(&rt, alloc, &quotients, &[ONE])?;
    assert!(rt; remainder.same(&poly(&rt, alloc, power)?));
    let high = divide(alloc, &poly(&rt, alloc, square)?, &by);
    assert!(rt; matches!(high, Err(PolyFault::High)));
    let given: Vec<Poly<Fp<2>, Lex>> = polys(&rt, alloc, &[sum, square])?;
    is_high(&rt, alloc, &given, 100)
}

// Over GF(5) in Lex, x*y - 1 and y^2 - 1 by Cox, Little and O'Shea: x^2*y + x*y^2 + y^2 is
// (x + y)*(x*y - 1) + 1*(y^2 - 1), and x + y + 1.
#[test]
fn quotients(rt: HostRuntime) -> Result<(), Fail> {
    let alloc = rt.alloc();
    let dividend: Terms = &[([2, 1, 0], 1), ([1, 2, 0], 1), ([0, 2, 0], 1)];
    let first: Terms = &[([1, 1, 0], 1), ([0, 0, 0], 4)];
    let second: Terms = &[([0, 2, 0], 1), ([0, 0, 0], 4)];
    let by: Vec<Poly<Fp<5>, Lex>> = polys(&rt, alloc, &[first, second])?;
    assert!(rt; by.iter().all(|g| !g.is_zero()));
    let (found, remainder) = divide(alloc, &poly(&rt, alloc, dividend)?, &by)?;
    let line: Terms = &[([1, 0, 0], 1), ([0, 1, 0], 1)];
    have_terms(&rt, alloc, &found, &[line, ONE])?;
    let rest: Terms = &[([1, 0, 0], 1), ([0, 1, 0], 1), ([0, 0, 0], 1)];
    assert!(rt; remainder.same(&poly(&rt, alloc, rest)?));
    Ok(())
}

// The basis of a list of two has two members, with these cofactors both ways.
fn has_cofactors<K: Coeff>(
    rt: &impl Abort,
    alloc: Global,
    given: &[Poly<K, Grevlex>],
    down: [[Terms; 2]; 2],
    up: [[Terms; 2]; 2],
) -> Result<(), Fail> {
    let found = basis(alloc, given, 3)?;
    assert_eq!(rt; (given.len(), found.members().len()), (2, 2));
    for i in 0..2 {
        for j in 0..2 {
            assert!(rt; found.down(i, j).same(&poly(rt, alloc, down[i][j])?));
            assert!(rt; found.up(i, j).same(&poly(rt, alloc, up[i][j])?));
        }
    }
    Ok(())
}

// Over GF(2), y = 1*(x + y) + 1*x and x = 1*x, and x + y = 1*y + 1*x.
#[test]
fn cofactors(rt: HostRuntime) -> Result<(), Fail> {
    let line: Terms = &[([1, 0, 0], 1), ([0, 1, 0], 1)];
    let given: Vec<Poly<Fp<2>, Grevlex>> = polys(&rt, rt.alloc(), &[line, X])?;
    let cofactors = [[ONE, ONE], [&[], ONE]];
    has_cofactors(&rt, rt.alloc(), &given, cofactors, cofactors)
}
