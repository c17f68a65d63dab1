//! What questions ask of splittings and of compatible ideals.
ghost use Rattle.std.specs.Prelude.{◌≡◌, ◌≤◌, IfOk, MatchBool};
ghost use Rattle.fj_coeff.specs.PrimeField.{prime_field};
ghost use Rattle.fj_theory.specs.Splitting.{IsCompatible, IsFPure};
ghost use Rattle.fj_ideal.specs.Stop.{StopsOnlyWith};
ghost use Rattle.fj_fedder.specs.Fedder.{IsSplitIdeal};
ghost use Rattle.fj_shell.specs.Asked.{IsPointAt, IsPolyAt};
ghost use Rattle.fj_shell.specs.Named.{point_at, polynomial_at};
ghost use Rattle.fj_session.specs.Names.{IsAtHand, standing_in};
ghost use Rattle.fj_session.specs.Outcome.{IsIdealFor, OwnStops};
ghost use Rattle.fj_session.specs.Standing.{IsDeclaredList};
ghost use Rattle.fj_session.specs.Splittings.{IsHighOfCompatible, IsHighOfSplit, IsLastOfSplit, IsListOfSplit, IsPurityAt};

use super::names::Names;
use super::points::point;
use super::types::Answer;
use fj_basis::Stop;
use fj_coeff::Coeff;
use fj_compat::compatible;
use fj_fedder::{PureAt, split_ideal};
use fj_ideal::Ideal;
use fj_poly::Poly;
use fj_shell::polynomial_at;
use std::alloc::Global;

/// The root at 1 of the quotient J^[p] : J.
pub(crate) fn split<K: Coeff>(
    alloc: Global,
    names: &Names<K>,
    budget: u64,
    j: u32,
) -> Result<Ideal<K>, Stop>
    requires field { K.field ≡ prime_field names.now.env.now.p }
    requires named { IsAtHand K.field names.now j }
    ensures ideal { IfOk result (IsIdealFor K.field (IsSplitIdeal K.field (standing_in names.now j).list) (IsLastOfSplit K.field (standing_in names.now j).list)) }
    ensures stop { StopsOnlyWith K.field (IsListOfSplit K.field (standing_in names.now j)) (IsHighOfSplit K.field (standing_in names.now j).list) budget result }
{
    // The ring has at most seven variables.
    let _ = names.env.vars.len();
    let ideal = names.standing(alloc, budget, j)?;
    split_ideal(alloc, ideal.ideal(), budget)
}

/// Whether the ring of polynomials modulo an ideal is F-pure.
pub(crate) fn is_pure<K: Coeff>(
    alloc: Global,
    names: &Names<K>,
    budget: u64,
    j: u32,
) -> Result<bool, Stop>
    requires field { K.field ≡ prime_field names.now.env.now.p }
    requires named { IsAtHand K.field names.now j }
    ensures verdict { IfOk result (λ b. MatchBool b (IsFPure K.field (standing_in names.now j).list) (IsFPure K.field (standing_in names.now j).list → ⊥)) }
    ensures stop { StopsOnlyWith K.field (IsListOfSplit K.field (standing_in names.now j)) (IsHighOfSplit K.field (standing_in names.now j).list) budget result }
{
    // The ring has at most seven variables.
    let _ = names.env.vars.len();
    let ideal = names.standing(alloc, budget, j)?;
    fj_fedder::is_pure(alloc, ideal.ideal(), budget)
}

/// Whether it is F-pure at a point, if the point is a zero of the ideal.
pub(crate) fn is_pure_at<K: Coeff>(
    alloc: Global,
    names: &Names<K>,
    budget: u64,
    j: u32,
    at: u32,
) -> Result<Answer, Stop>
    requires field { K.field ≡ prime_field names.now.env.now.p }
    requires ideal { IsAtHand K.field names.now j }
    requires point { IsPointAt names.now.env.now at }
    ensures answer { IfOk result (IsPurityAt K.field (standing_in names.now j).list (point_at names.now.env.now at)) }
    ensures stop { StopsOnlyWith K.field (IsListOfSplit K.field (standing_in names.now j)) (IsHighOfSplit K.field (standing_in names.now j).list) budget result }
{
    // The ring has at most seven variables.
    let _ = names.env.vars.len();
    let ideal = names.standing(alloc, budget, j)?;
    let zero = point(alloc, names.env, at)?;
    match fj_fedder::is_pure_at(alloc, ideal.ideal(), &zero, budget)? {
        PureAt::Yes => Ok(Answer::Yes),
        PureAt::No => Ok(Answer::No),
        PureAt::Off => Ok(Answer::Off),
    }
}

/// Whether an ideal is compatible with a polynomial at e.
pub(crate) fn is_compatible<K: Coeff>(
    alloc: Global,
    names: &Names<K>,
    budget: u64,
    e: u32,
    u: u32,
    j: u32,
) -> Result<bool, Stop>
    requires field { K.field ≡ prime_field names.now.env.now.p }
    requires small { e ≤ 12 }
    requires polynomial { IsPolyAt names.now.env.now u }
    requires ideal { IsAtHand K.field names.now j }
    ensures verdict { IfOk result (λ b. MatchBool b (IsCompatible K.field e (polynomial_at names.now.env.now u) (standing_in names.now j).list) (IsCompatible K.field e (polynomial_at names.now.env.now u) (standing_in names.now j).list → ⊥)) }
    ensures stop { OwnStops K.field (IsDeclaredList (standing_in names.now j)) (IsHighOfCompatible K.field (polynomial_at names.now.env.now u) (standing_in names.now j).list) budget result }
{
    let ideal = names.standing(alloc, budget, j)?;
    let multiplier = Poly::from_plain(alloc, polynomial_at(names.env, u))?;
    compatible(alloc, e, &multiplier, ideal.ideal())
}
