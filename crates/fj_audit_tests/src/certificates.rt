//! Certificates that x is a basis of (x) over GF(2).
use fj_plain::{Cert, OrderName, PlainList, PlainPoly, PlainTable, PlainTerm};
use std::alloc::AllocError;
use std::process::Abort;

/// The polynomial whose terms are these powers of x.
fn poly(rt: &(impl AllocGlobal + Abort), powers: &[u64]) -> Result<PlainPoly, AllocError> {
    let mut terms = Vec::new(rt.alloc());
    for power in powers {
        terms.push(PlainTerm {
            exps: [*power, 0, 0, 0, 0, 0, 0, 0],
            rank: 1,
        })?;
    }
    Ok(PlainPoly::of(terms, 2).expect(rt, "a plain polynomial"))
}

fn list(rt: &(impl AllocGlobal + Abort), powers: &[u64]) -> Result<PlainList, AllocError> {
    let mut members = Vec::new(rt.alloc());
    members.push(poly(rt, powers)?)?;
    Ok(PlainList::of(members))
}

fn table(rt: &(impl AllocGlobal + Abort), powers: &[u64]) -> Result<PlainTable, AllocError> {
    let mut rows = Vec::new(rt.alloc());
    rows.push(list(rt, powers)?)?;
    Ok(PlainTable::of(rows))
}

/// The certificate with these cofactors of x in x. It holds where both are 1, the power 0 of x.
pub fn basis_of_x(
    rt: &(impl AllocGlobal + Abort),
    down: &[u64],
    up: &[u64],
) -> Result<Cert, AllocError> {
    Ok(Cert::Basis {
        p: 2,
        order: OrderName::Grevlex,
        given: list(rt, &[1])?,
        found: list(rt, &[1])?,
        down: table(rt, down)?,
        up: table(rt, up)?,
    })
}
