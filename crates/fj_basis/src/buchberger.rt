//! Reduced bases by Buchberger's algorithm: the run, its finishing and its cofactors, and where it stops.
ghost use Rattle.std.specs.Prelude.{◌≡◌, ℕ, true, IfOk, length, map};
ghost use Rattle.fj_groebner.specs.Division.{polynomials_of};
ghost use Rattle.fj_groebner.specs.ReducedBasis.{IsReducedBasis};
ghost use Rattle.fj_groebner.specs.Rows.{AreRows};
ghost use Rattle.fj_groebner.specs.Run.{TooHigh, Unfinished};
ghost use Rattle.fj_plain.specs.OrderRow.{order_in_row};
ghost use Rattle.fj_basis.specs.Basis.{IsMadeOf, IsResult};
ghost use Rattle.fj_basis.specs.Buchberger.{IsFinishedRun};
ghost use Rattle.fj_basis.specs.Members.{sugared_members};
ghost use Rattle.fj_basis.specs.Outcome.{IsFaultOnlyWhere, IsHighOnlyWhere, IsStopOf, IsStopWhere};
ghost use Rattle.fj_basis.specs.State.{IsEnded};

use crate::certificate::kept;
use crate::finishing::{given_rows, replaced};
use crate::forming::rows_from;
use crate::history::History;
use crate::members::{Member, Row, polynomials};
use crate::run::Run;
use crate::stop::Stop;
use crate::sugared_rows::sugared_rows;
use crate::types::Basis;
use fj_coeff::Coeff;
use fj_mono::Order;
use fj_poly::{Poly, PolyFault};
use std::alloc::{AllocError, Global};

/// A run has at least this many members where its cofactors are taken from a second run.
const LONG_RUN: usize = 12;

// Why a run is refused.
#[derive(Drop)]
enum RunFault {
    Pairs,
    High,
    Memory,
}

impl From<AllocError> for RunFault {
    ghost use Rattle.fj_basis.specs.declared.buchberger.RunFault.TheVariants.{Memory};

    ghost from_gives = { λ _ e. e ≡ Memory };

    fn from(_e: AllocError) -> RunFault {
        RunFault::Memory
    }
}

impl From<PolyFault> for RunFault {
    ghost use Rattle.fj_basis.specs.Outcome.{run_fault};

    ghost from_gives = { λ fault e. e ≡ run_fault fault };

    fn from(e: PolyFault) -> RunFault {
        match e {
            PolyFault::High => RunFault::High,
            PolyFault::Memory => RunFault::Memory,
        }
    }
}

// The run on a list, until no pair is pending.
fn run_to_end<K: Coeff, O: Order>(
    alloc: Global,
    list: &[Poly<K, O>],
    pairs: u64,
    is_recorded: bool,
) -> Result<Run<K, O>, RunFault>
    ensures value { IfOk result (IsEnded K.field O.key list.now pairs) }
    ensures kept { IfOk result (λ run. run.history.is_kept ≡ is_recorded) }
    ensures fault { IsFaultOnlyWhere (Unfinished K.field O.key list.now pairs) (TooHigh K.field O.key list.now pairs) result }
{
    let mut run = Run::start(alloc, list, is_recorded)?;
    let mut made = 0;
    while !run.is_done() {
        if made == pairs {
            return Err(RunFault::Pairs);
        }
        run.turn(alloc)?;
        made += 1;
    }
    Ok(run)
}

// A finished run: the members of its basis, the cofactors of the given list over them, and how they were made, from a place
// on.
#[derive(Drop)]
struct FinishedRun<K: Coeff, O: Order> {
    members: Vec<Member<K, O>>,
    up: Vec<Row<K, O>>,
    history: History<K, O>,
    from: usize,
}

// The run and its finishing.
fn finished<K: Coeff, O: Order>(
    alloc: Global,
    list: &[Poly<K, O>],
    pairs: u64,
    is_recorded: bool,
) -> Result<FinishedRun<K, O>, RunFault>
    ensures value { IfOk result (IsFinishedRun K.field O.key list.now pairs) }
    ensures kept { IfOk result (λ run. run.history.is_kept ≡ is_recorded) }
    ensures fault { IsFaultOnlyWhere (Unfinished K.field O.key list.now pairs) (TooHigh K.field O.key list.now pairs) result }
{
    let (found, mut history) = run_to_end(alloc, list, pairs, is_recorded)?.into_parts();
    let from = found.len();
    let members = replaced(alloc, found, &mut history)?;
    let up = given_rows(alloc, list, &members)?;
    Ok(FinishedRun {
        members,
        up,
        history,
        from,
    })
}

// The cofactors over the list of the members of its basis: by a second run where it finds them, else from how they were made.
// Where few members were made a second run takes longer than it saves.
fn down_rows<K: Coeff, O: Order>(
    alloc: Global,
    list: &[Poly<K, O>],
    found: &FinishedRun<K, O>,
) -> Result<Vec<Row<K, O>>, PolyFault>
    requires finished { (pairs : ℕ) × IsFinishedRun K.field O.key list.now pairs found.now }
    requires kept { found.now.history.is_kept ≡ true }
    ensures value { IfOk result (λ rows. AreRows K.field list.now (polynomials_of (sugared_members found.now.members.items)) (map (λ row. row.items) rows.items)) }
    ensures high { IsHighOnlyWhere ⊥ result }
{
    if found.from >= LONG_RUN {
        let turns = found.from.saturating_mul(found.from);
        match sugared_rows(alloc, list, &found.members, turns) {
            Ok(Some(rows)) => return Ok(rows),
            Err(PolyFault::Memory) => return Err(PolyFault::Memory),
            Ok(None) | Err(PolyFault::High) => {}
        }
    }
    rows_from(alloc, list, &found.history.makings, found.from)
}

// The reduced basis, with cofactors both ways.
fn with_cofactors<K: Coeff, O: Order>(
    alloc: Global,
    list: &[Poly<K, O>],
    pairs: u64,
) -> Result<Basis<K, O>, RunFault>
    ensures value { IfOk result (λ b. IsResult K.field O.key list.now pairs b.members) }
    ensures reduced { IfOk result (λ b. IsReducedBasis K.field O.key list.now b.members) }
    ensures made { IfOk result (IsMadeOf K.field list.now) }
    ensures fault { IsFaultOnlyWhere (Unfinished K.field O.key list.now pairs) (TooHigh K.field O.key list.now pairs) result }
{
    let found = finished(alloc, list, pairs, true)?;
    let down = down_rows(alloc, list, &found)?;
    let members = polynomials(alloc, found.members)?;
    Ok(Basis::new(members, down, found.up))
}

// The members of the reduced basis alone.
fn alone<K: Coeff, O: Order>(
    alloc: Global,
    list: &[Poly<K, O>],
    pairs: u64,
) -> Result<Vec<Poly<K, O>>, RunFault>
    ensures value { IfOk result (λ members. IsResult K.field O.key list.now pairs members.items) }
    ensures reduced { IfOk result (λ members. IsReducedBasis K.field O.key list.now members.items) }
    ensures fault { IsFaultOnlyWhere (Unfinished K.field O.key list.now pairs) (TooHigh K.field O.key list.now pairs) result }
{
    let found = finished(alloc, list, pairs, false)?;
    Ok(polynomials(alloc, found.members)?)
}

// The stop of a run on a list, which keeps the list.
fn stop_of<K: Coeff, O: Order>(
    alloc: Global,
    list: &[Poly<K, O>],
    fault: RunFault,
) -> Result<Stop, AllocError>
    ensures { IfOk result (λ stop. IsStopOf K.field (order_in_row O.ROW) O.key list.now fault stop) }
{
    match fault {
        RunFault::Pairs => Ok(Stop::Pairs(kept(alloc, list)?)),
        RunFault::High => Ok(Stop::High(kept(alloc, list)?)),
        RunFault::Memory => Ok(Stop::Memory),
    }
}

/// The reduced Gröbner basis of the ideal of a list for the order O, rising by lead, with the cofactors of its members
/// over the list and of the list over the members, by Buchberger's algorithm with at most `pairs` turns (Cox, Little and
/// O'Shea 2015, chapter 2, section 7). A pair that the chain criterion spares is removed without a turn (Buchberger 1979;
/// Gebauer and Möller 1988).
///
/// `Pairs` exactly where that many turns were made and pairs are pending, `High` exactly where a sugar above 2^40 arises
/// within these turns or, where no pair is then pending, in finishing. Both keep the list, the terms falling in O. `Product`
/// never comes.
pub fn basis<K: Coeff, O: Order>(
    alloc: Global,
    list: &[Poly<K, O>],
    pairs: u64,
) -> Result<Basis<K, O>, Stop>
    ensures reduced { IfOk result (λ b. IsReducedBasis K.field O.key list.now b.members) }
    ensures made { IfOk result (IsMadeOf K.field list.now) }
    ensures long { IfOk result (λ b. length b.up ≡ length list.now) }
    ensures stop { IsStopWhere K.field (Unfinished K.field O.key list.now pairs) (TooHigh K.field O.key list.now pairs) (order_in_row O.ROW) O.key list.now result }
{
    match with_cofactors(alloc, list, pairs) {
        Ok(basis) => Ok(basis),
        Err(fault) => Err(stop_of(alloc, list, fault)?),
    }
}

/// The members of the reduced Gröbner basis alone: `basis` without cofactors, which are neither formed nor kept on the way.
/// It stops where `basis` stops.
pub fn reduced_basis<K: Coeff, O: Order>(
    alloc: Global,
    list: &[Poly<K, O>],
    pairs: u64,
) -> Result<Vec<Poly<K, O>>, Stop>
    ensures reduced { IfOk result (λ members. IsReducedBasis K.field O.key list.now members.items) }
    ensures stop { IsStopWhere K.field (Unfinished K.field O.key list.now pairs) (TooHigh K.field O.key list.now pairs) (order_in_row O.ROW) O.key list.now result }
{
    match alone(alloc, list, pairs) {
        Ok(members) => Ok(members),
        Err(fault) => Err(stop_of(alloc, list, fault)?),
    }
}
