//! Copies of certificates.
ghost use Rattle.std.specs.Prelude.{◌≡◌, IfOk};
ghost use Rattle.fj_plain.specs.Terms.{entries};

use fj_plain::{Cert, PlainList, PlainPoly, PlainTable, PlainTerm};
use std::alloc::{AllocError, Global};

/// A copy of a certificate.
pub(crate) fn cert_copy(alloc: Global, c: &Cert) -> Result<Cert, AllocError>
    ensures { IfOk result (λ copy. copy ≡ c.now) }
{
    Ok(match c {
        Cert::Basis {
            p,
            order,
            given,
            found,
            down,
            up,
        } => Cert::Basis {
            p: *p,
            order: *order,
            given: list_copy(alloc, given)?,
            found: list_copy(alloc, found)?,
            down: table_copy(alloc, down)?,
            up: table_copy(alloc, up)?,
        },
        Cert::Same {
            p,
            first,
            second,
            to_second,
            to_first,
        } => Cert::Same {
            p: *p,
            first: list_copy(alloc, first)?,
            second: list_copy(alloc, second)?,
            to_second: table_copy(alloc, to_second)?,
            to_first: table_copy(alloc, to_first)?,
        },
        Cert::Root {
            p,
            e,
            list,
            residues,
            parts,
        } => Cert::Root {
            p: *p,
            e: *e,
            list: list_copy(alloc, list)?,
            residues: table_copy(alloc, residues)?,
            parts: table_copy(alloc, parts)?,
        },
    })
}

fn table_copy(alloc: Global, rows: &PlainTable) -> Result<PlainTable, AllocError>
    ensures { IfOk result (λ copy. copy ≡ rows.now) }
{
    let mut copies = Vec::with_capacity(alloc, rows.len())?;
    for i in 0..rows.len() {
        copies.push(list_copy(alloc, rows.get(i))?)?;
    }
    Ok(PlainTable::of(copies))
}

fn list_copy(alloc: Global, list: &PlainList) -> Result<PlainList, AllocError>
    ensures { IfOk result (λ copy. copy ≡ list.now) }
{
    let mut copies = Vec::with_capacity(alloc, list.len())?;
    for i in 0..list.len() {
        copies.push(poly_copy(alloc, list.get(i))?)?;
    }
    Ok(PlainList::of(copies))
}

// A rank is below some p, so that no rank is `u64::MAX`, and the copy isn't refused.
fn poly_copy(alloc: Global, f: &PlainPoly) -> Result<PlainPoly, AllocError>
    ensures { IfOk result (λ copy. copy ≡ f.now) }
{
    let terms = terms_copy(alloc, f)?;
    match PlainPoly::of(terms, u64::MAX) {
        Some(copy) => Ok(copy),
        None => Err(AllocError),
    }
}

fn terms_copy(alloc: Global, f: &PlainPoly) -> Result<Vec<PlainTerm>, AllocError>
    ensures { IfOk result (λ v. entries v.items ≡ f.now.terms) }
{
    let mut terms = Vec::with_capacity(alloc, f.len())?;
    for i in 0..f.len() {
        terms.push(*f.get(i))?;
    }
    Ok(terms)
}
