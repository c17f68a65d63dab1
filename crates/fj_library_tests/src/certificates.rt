//! Certificates that hold, and some that do not.

use fj_plain::{Cert, OrderName, PlainList, PlainPoly, PlainTable, PlainTerm, holds};
use std::alloc::AllocError;
use std::process::Abort;

// A term in x and y: the exponents and the rank.
type Entry = (u64, u64, u64);

fn poly(rt: &(impl AllocGlobal + Abort), row: &[Entry]) -> Result<PlainPoly, AllocError> {
    let mut terms = Vec::new(rt.alloc());
    for (x, y, rank) in row {
        terms.push(PlainTerm {
            exps: [*x, *y, 0, 0, 0, 0, 0, 0],
            rank: *rank,
        })?;
    }
    Ok(PlainPoly::of(terms, 31).expect(rt, "a plain polynomial"))
}

fn list(rt: &(impl AllocGlobal + Abort), rows: &[&[Entry]]) -> Result<PlainList, AllocError> {
    let mut members = Vec::new(rt.alloc());
    for row in rows {
        members.push(poly(rt, row)?)?;
    }
    Ok(PlainList::of(members))
}

fn table(rt: &(impl AllocGlobal + Abort), rows: &[&[&[Entry]]]) -> Result<PlainTable, AllocError> {
    let mut lists = Vec::new(rt.alloc());
    for row in rows {
        lists.push(list(rt, row)?)?;
    }
    Ok(PlainTable::of(lists))
}

// x is a basis of (x) over GF(2), by the cofactors 1 and 1, and not by 0 and 1, nor over a ring that is no field.
#[test]
fn basis(rt: HostRuntime) -> Result<(), AllocError> {
    let one: &[Entry] = &[(0, 0, 1)];
    let x: &[Entry] = &[(1, 0, 1)];
    let two_x: &[Entry] = &[(1, 0, 2)];
    let none: &[Entry] = &[];
    for (p, given, down, wanted) in [
        (2, x, one, true),
        (2, x, none, false),
        (4, x, one, false),
        (2, two_x, one, false),
    ] {
        let cert = Cert::Basis {
            p,
            order: OrderName::Grevlex,
            given: list(&rt, &[given])?,
            found: list(&rt, &[x])?,
            down: table(&rt, &[&[down]])?,
            up: table(&rt, &[&[one]])?,
        };
        assert_eq!(rt; holds(rt.alloc(), &cert)?, wanted);
    }
    Ok(())
}

// Over GF(p), x is the product of 2*x and (p + 1)/2. GF(37) is no coefficient field.
#[test]
fn halves(rt: HostRuntime) -> Result<(), AllocError> {
    for (p, half, wanted) in [
        (17, 9, true),
        (17, 7, false),
        (19, 10, true),
        (23, 12, true),
        (29, 15, true),
        (31, 16, true),
        (31, 9, false),
        (37, 19, false),
    ] {
        let cert = Cert::Basis {
            p,
            order: OrderName::Lex,
            given: list(&rt, &[&[(1, 0, 2)]])?,
            found: list(&rt, &[&[(1, 0, 1)]])?,
            down: table(&rt, &[&[&[(0, 0, half)]]])?,
            up: table(&rt, &[&[&[(0, 0, 2)]]])?,
        };
        assert_eq!(rt; holds(rt.alloc(), &cert)?, wanted);
    }
    Ok(())
}

// Over GF(5), (x, y) and (x + y, y) are one ideal, since x = (x + y) + 4*y.
#[test]
fn same(rt: HostRuntime) -> Result<(), AllocError> {
    let none: &[Entry] = &[];
    let one: &[Entry] = &[(0, 0, 1)];
    let four: &[Entry] = &[(0, 0, 4)];
    let x: &[Entry] = &[(1, 0, 1)];
    let y: &[Entry] = &[(0, 1, 1)];
    let sum: &[Entry] = &[(0, 1, 1), (1, 0, 1)];
    for (factor, wanted) in [(four, true), (one, false)] {
        let cert = Cert::Same {
            p: 5,
            first: list(&rt, &[x, y])?,
            second: list(&rt, &[sum, y])?,
            to_second: table(&rt, &[&[one, one], &[none, one]])?,
            to_first: table(&rt, &[&[one, factor], &[none, one]])?,
        };
        assert_eq!(rt; holds(rt.alloc(), &cert)?, wanted);
    }
    Ok(())
}

// Over GF(3), 2*x^4*y + x*y + y^3 = y^3 + x*y*(2*x + 1)^3. Over GF(17), 2 + 5*x^17*y = 2^17 + y*(5*x)^17. Over
// GF(p) for p = 13 and p = 31 the multiples of x^(2^41*p^12) cancel.
#[test]
fn root(rt: HostRuntime) -> Result<(), AllocError> {
    let one: &[Entry] = &[(0, 0, 1)];
    let y: &[Entry] = &[(0, 1, 1)];
    let xy: &[Entry] = &[(1, 1, 1)];
    let line: &[Entry] = &[(1, 0, 2), (0, 0, 1)];
    let whole: &[Entry] = &[(4, 1, 2), (1, 1, 1), (0, 3, 1)];
    let none: &[Entry] = &[];
    let high: &[Entry] = &[(1 << 41, 0, 1)];
    let opposite: &[Entry] = &[(1 << 41, 0, 12)];
    let negative: &[Entry] = &[(1 << 41, 0, 30)];
    let two: &[Entry] = &[(0, 0, 2)];
    let five_x: &[Entry] = &[(1, 0, 5)];
    let sum: &[Entry] = &[(17, 1, 5), (0, 0, 2)];
    for (p, e, member, residue, first, second, wanted) in [
        (3, 1, whole, xy, y, line, true),
        (3, 1, whole, xy, line, y, false),
        (3, 0, whole, xy, y, line, false),
        (3, 13, none, one, none, none, false),
        (13, 12, none, one, high, opposite, true),
        (13, 12, none, one, high, high, false),
        (17, 1, sum, y, two, five_x, true),
        (19, 1, sum, y, two, five_x, false),
        (31, 12, none, one, high, negative, true),
        (31, 12, none, one, high, opposite, false),
    ] {
        let cert = Cert::Root {
            p,
            e,
            list: list(&rt, &[member])?,
            residues: table(&rt, &[&[one, residue]])?,
            parts: table(&rt, &[&[first, second]])?,
        };
        assert_eq!(rt; holds(rt.alloc(), &cert)?, wanted);
    }
    Ok(())
}
