//! The identities of certificates: combinations of lists, and polynomials by their parts.
ghost use Rattle.std.specs.Prelude.{◌≡◌, ◌<◌, ◌↔◌, ◌^◌, Contains, IfOk, IsTrue, length};
ghost use Rattle.fj_coeff.specs.Field.{primes};
ghost use Rattle.fj_theory.specs.Plain.{HasRanksBelow};
ghost use Rattle.fj_theory.specs.Certificate.{AllRanksBelow, AllRowsBelow, HasParts, IsExpressed, IsExpressedBothWays, IsRootCertificate, IsRowOf};

use crate::lists::{PlainList, PlainTable};
use crate::plain::PlainPoly;
use crate::tally::Tally;
use fj_coeff::is_prime;
use std::alloc::{AllocError, Global};

/// The greatest exponent e of the powers p^e of a certificate.
const EXPONENT_LIMIT: u32 = 12;

/// Whether two lists are combinations of each other over GF(p), by the rows of two tables.
pub(crate) fn express_each_other(
    alloc: Global,
    p: u64,
    first: &PlainList,
    second: &PlainList,
    to_second: &PlainTable,
    to_first: &PlainTable,
) -> Result<bool, AllocError>
    ensures { IfOk result (λ b. IsTrue b ↔ IsExpressedBothWays p first.now second.now to_second.now to_first.now) }
{
    if !is_prime(p)
        || !first.have_ranks_below(p)
        || !second.have_ranks_below(p)
        || !to_second.have_ranks_below(p)
        || !to_first.have_ranks_below(p)
    {
        return Ok(false);
    }
    if !are_combinations(alloc, p, second, to_second, first)? {
        return Ok(false);
    }
    are_combinations(alloc, p, first, to_first, second)
}

/// Whether each member of a list is the sum of its parts over p^e-th powers, by its rows of two tables.
pub(crate) fn are_sums_of_parts(
    alloc: Global,
    p: u64,
    e: u32,
    members: &PlainList,
    residues: &PlainTable,
    parts: &PlainTable,
) -> Result<bool, AllocError>
    ensures { IfOk result (λ b. IsTrue b ↔ IsRootCertificate p e members.now residues.now parts.now) }
{
    if !is_prime(p)
        || e > EXPONENT_LIMIT
        || !members.have_ranks_below(p)
        || !residues.have_ranks_below(p)
        || !parts.have_ranks_below(p)
        || residues.len() != members.len()
        || parts.len() != members.len()
    {
        return Ok(false);
    }
    let q = p.pow(e);
    for i in 0..members.len() {
        if !is_sum_of_parts(
            alloc,
            p,
            e,
            q,
            members.get(i),
            residues.get(i),
            parts.get(i),
        )? {
            return Ok(false);
        }
    }
    Ok(true)
}

// Whether each target is the sum over j of row_j * source_j, by its own row of the table.
fn are_combinations(
    alloc: Global,
    p: u64,
    targets: &PlainList,
    table: &PlainTable,
    sources: &PlainList,
) -> Result<bool, AllocError>
    requires prime { Contains primes p }
    requires targets { AllRanksBelow p targets.now }
    requires table { AllRowsBelow p table.now }
    requires sources { AllRanksBelow p sources.now }
    ensures { IfOk result (λ b. IsTrue b ↔ IsExpressed p targets.now table.now sources.now) }
{
    if table.len() != targets.len() {
        return Ok(false);
    }
    for i in 0..targets.len() {
        if !is_combination(alloc, p, targets.get(i), table.get(i), sources)? {
            return Ok(false);
        }
    }
    Ok(true)
}

// Whether f is the sum over j of row_j * source_j.
fn is_combination(
    alloc: Global,
    p: u64,
    f: &PlainPoly,
    row: &PlainList,
    sources: &PlainList,
) -> Result<bool, AllocError>
    requires prime { Contains primes p }
    requires target { HasRanksBelow p f.now }
    requires row { AllRanksBelow p row.now }
    requires sources { AllRanksBelow p sources.now }
    ensures { IfOk result (λ b. IsTrue b ↔ IsRowOf p sources.now f.now row.now) }
{
    if row.len() != sources.len() {
        return Ok(false);
    }
    let mut difference = Tally::new(alloc);
    for i in 0..row.len() {
        difference.add_product(p, row.get(i), sources.get(i))?;
    }
    difference.subtract(p, f)?;
    Ok(difference.is_zero())
}

// Whether f is the sum over i of residue_i * (part_i)^q, where q is p^e.
fn is_sum_of_parts(
    alloc: Global,
    p: u64,
    e: u32,
    q: u64,
    f: &PlainPoly,
    residues: &PlainList,
    parts: &PlainList,
) -> Result<bool, AllocError>
    requires prime { Contains primes p }
    requires power { q ≡ p ^ e }
    requires target { HasRanksBelow p f.now }
    requires residues { AllRanksBelow p residues.now }
    requires parts { AllRanksBelow p parts.now }
    ensures { IfOk result (λ b. IsTrue b ↔ HasParts p q f.now residues.now parts.now) }
{
    if residues.len() != parts.len() {
        return Ok(false);
    }
    let mut difference = Tally::new(alloc);
    for i in 0..residues.len() {
        let residue = residues.get(i);
        if !residue.is_residue(q) {
            return Ok(false);
        }
        difference.add_multiple(p, e, q, residue.get(0), parts.get(i))?;
    }
    difference.subtract(p, f)?;
    Ok(difference.is_zero())
}
