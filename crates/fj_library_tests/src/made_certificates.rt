//! The certificates that two ideals are one, and of parts over q-th powers.

use crate::ideals::have_plain_terms;
use crate::rows::polys;
use fj_coeff::Fp;
use fj_frobenius::root_cert;
use fj_ideal::Ideal;
use fj_plain::{Cert, PlainTable, holds};
use fj_poly::GPoly;
use std::alloc::Global;
use std::process::Abort;
use std::test::Fail;

// A polynomial over GF(2) in x and y: the exponents of each term, and 1.
type Terms = &'static [([u64; 2], u64)];

// Two lists, the rows of the second over the first, and those of the first over the second.
type Same = (
    &'static [Terms],
    &'static [Terms],
    &'static [&'static [Terms]],
    &'static [&'static [Terms]],
);

const ZERO: Terms = &[];

const ONE: Terms = &[([0, 0], 1)];

const X: Terms = &[([1, 0], 1)];

const Y: Terms = &[([0, 1], 1)];

const SUM: Terms = &[([1, 0], 1), ([0, 1], 1)];

// x = (x + y) + y, and zero is the sum of no multiples.
static SAMES: [Same; 3] = [
    (
        &[SUM, Y],
        &[X, Y],
        &[&[ONE, ONE], &[ZERO, ONE]],
        &[&[ONE, ONE], &[ZERO, ONE]],
    ),
    (&[ZERO, X], &[X], &[&[ZERO, ONE]], &[&[ZERO], &[ONE]]),
    (&[ZERO], &[], &[], &[&[]]),
];

fn ideal(rt: &impl Abort, alloc: Global, list: &[Terms]) -> Result<Ideal<Fp<2>>, Fail> {
    Ok(Ideal::of(alloc, &polys(rt, alloc, list)?, 100)?)
}

fn has_rows(rt: &impl Abort, table: &PlainTable, wanted: &[&[Terms]]) {
    assert_eq!(rt; table.len(), wanted.len());
    for (i, row) in wanted.iter().enumerate() {
        assert!(rt; i < table.len());
        have_plain_terms(rt, table.get(i), row);
    }
}

// The certificate that two equal ideals are one holds, and has their lists and these rows.
fn has_same(rt: &impl Abort, alloc: Global, row: Same) -> Result<(), Fail> {
    let one = ideal(rt, alloc, row.0)?;
    let other = ideal(rt, alloc, row.1)?;
    assert!(rt; one.same(&other));
    let cert = one.same_cert(alloc, &other)?;
    assert!(rt; holds(alloc, &cert)?);
    match &cert {
        Cert::Same {
            p,
            first,
            second,
            to_second,
            to_first,
        } => {
            assert_eq!(rt; *p, 2);
            have_plain_terms(rt, first, row.0);
            have_plain_terms(rt, second, row.1);
            has_rows(rt, to_second, row.2);
            has_rows(rt, to_first, row.3);
        }
        _ => assert!(rt; false, "a certificate of one ideal"),
    }
    Ok(())
}

#[test]
fn same(rt: HostRuntime) -> Result<(), Fail> {
    for row in SAMES {
        has_same(&rt, rt.alloc(), row)?;
    }
    Ok(())
}

// Over GF(2), x^3 + y^2 = y^2 + x*x^2.
#[test]
fn root(rt: HostRuntime) -> Result<(), Fail> {
    let alloc = rt.alloc();
    let cusp: Terms = &[([3, 0], 1), ([0, 2], 1)];
    let list: Vec<GPoly<Fp<2>>> = polys(&rt, alloc, &[cusp])?;
    let cert = root_cert(alloc, 1, &list)?;
    assert!(rt; holds(alloc, &cert)?);
    match &cert {
        Cert::Root {
            p,
            e,
            list,
            residues,
            parts,
        } => {
            assert_eq!(rt; (*p, *e), (2, 1));
            have_plain_terms(&rt, list, &[cusp]);
            has_rows(&rt, residues, &[&[ONE, X]]);
            has_rows(&rt, parts, &[&[Y, X]]);
        }
        _ => assert!(rt; false, "a certificate of parts"),
    }
    Ok(())
}
