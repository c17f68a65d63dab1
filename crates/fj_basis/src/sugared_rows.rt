//! Rows of cofactors of a reduced basis from a run by the sugar strategy, whose members are made in fewer steps and of lower
//! degrees than those of the run that is defined.
ghost use Rattle.std.specs.Prelude.{◌≡◌, true, List, IfOk, MatchOption, map};
ghost use Rattle.fj_theory.specs.Ideal.{ArePolynomials};
ghost use Rattle.fj_theory.specs.Polynomial.{Polynomial};
ghost use Rattle.fj_groebner.specs.Division.{polynomials_of};
ghost use Rattle.fj_groebner.specs.Rows.{AreRows};
ghost use Rattle.fj_basis.specs.History.{IsHistoryOf};
ghost use Rattle.fj_basis.specs.Members.{AreMonicMembers, sugared_members};
ghost use Rattle.fj_basis.specs.SugaredRun.{AreExpressed, IsExpressed, IsSugaredRun};

use crate::division::divide_sugared;
use crate::forming::rows_from;
use crate::history::{History, Source, with_negatives};
use crate::members::{Member, Row};
use crate::sugar::{look_over, sugar_of};
use crate::sugared_run::SugaredRun;
use fj_coeff::Coeff;
use fj_mono::{Mono, Order};
use fj_poly::{Poly, PolyFault};
use std::alloc::{AllocError, Global};

/// The cofactors over the list of the members of its reduced basis, by a run of at most this many turns. `None` where that
/// run doesn't find them.
pub(crate) fn sugared_rows<K: Coeff, O: Order>(
    alloc: Global,
    list: &[Poly<K, O>],
    basis: &[Member<K, O>],
    turns: usize,
) -> Result<Option<Vec<Row<K, O>>>, PolyFault>
    ensures { IfOk result (λ found. MatchOption found (Unit {0}) (λ rows. AreRows K.field list.now (polynomials_of (sugared_members basis.now)) (map (λ row. row.items) rows.items))) }
{
    look_over(list);
    let run = run_within(alloc, list, basis, turns)?;
    if !run.has_all() {
        return Ok(None);
    }
    let (members, mut history) = run.into_parts();
    if !are_expressed(alloc, basis, &members, &mut history)? {
        return Ok(None);
    }
    let rows = rows_from(alloc, list, &history.makings, members.len())?;
    Ok(Some(rows))
}

// The run on a list, until each lead of the basis is a multiple of a member's, until no pair is left, or until the turns are
// made.
fn run_within<K: Coeff, O: Order>(
    alloc: Global,
    list: &[Poly<K, O>],
    basis: &[Member<K, O>],
    turns: usize,
) -> Result<SugaredRun<K, O>, PolyFault>
    requires { ArePolynomials K.field list.now }
    ensures { IfOk result (IsSugaredRun K.field O.key list.now) }
{
    let mut run = SugaredRun::start(alloc, list, leads_of(alloc, basis)?)?;
    for _ in 0..turns {
        if run.has_all() || !run.turn(alloc)? {
            break;
        }
    }
    Ok(run)
}

// The leads of the members of the basis.
fn leads_of<K: Coeff, O: Order>(
    alloc: Global,
    basis: &[Member<K, O>],
) -> Result<Vec<Mono>, AllocError> {
    let mut leads = Vec::with_capacity(alloc, basis.len())?;
    for member in basis {
        if let Some((_, lead)) = member.polynomial.lead() {
            leads.push(lead)?;
        }
    }
    Ok(leads)
}

// Whether the remainder of each member of the basis by the members is zero. If so, it is recorded how all are made of them.
fn are_expressed<K: Coeff, O: Order>(
    alloc: Global,
    basis: &[Member<K, O>],
    members: &[Member<K, O>],
    history: &mut History<K, O>,
) -> Result<bool, PolyFault>
    requires { AreMonicMembers K.field O.key (sugared_members members.now) }
    ensures { IfOk result (λ found. found ≡ true → (L : List Polynomial) → history.old.is_kept ≡ true → IsHistoryOf K.field L (sugared_members members.now) history.old → AreExpressed K.field L (sugared_members members.now) (polynomials_of (sugared_members basis.now)) history.new) }
{
    for member in basis {
        if !is_expressed(alloc, &member.polynomial, members, history)? {
            return Ok(false);
        }
    }
    Ok(true)
}

// Whether the remainder of a polynomial by the members is zero. If so, it is recorded how the polynomial is made of them: its
// negative is the sum of their multiples by the negatives of the quotients.
fn is_expressed<K: Coeff, O: Order>(
    alloc: Global,
    f: &Poly<K, O>,
    members: &[Member<K, O>],
    history: &mut History<K, O>,
) -> Result<bool, PolyFault>
    requires { AreMonicMembers K.field O.key (sugared_members members.now) }
    ensures { IfOk result (λ found. found ≡ true → IsExpressed K.field (sugared_members members.now) f.now history.old history.new) }
{
    let division = divide_sugared(alloc, f, sugar_of(f), members)?;
    if !division.remainder().is_zero() {
        return Ok(false);
    }
    let summands = with_negatives(alloc, Vec::new(alloc), division.quotients(), 0)?;
    history.push(alloc, K::one().neg(), Source::Combined(summands))?;
    Ok(true)
}
