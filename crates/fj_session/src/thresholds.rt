//! What questions ask of the powers of a polynomial in the Frobenius powers of an ideal: the numbers nu, and thresholds.
ghost use Rattle.std.specs.Prelude.{◌≡◌, ◌≤◌, ◌^◌, IfOk, length};
ghost use Rattle.fj_coeff.specs.PrimeField.{prime_field};
ghost use Rattle.fj_thresh.specs.Answer.{IsPointAnswer, IsThresholdAnswer};
ghost use Rattle.fj_thresh.specs.Lists.{IsHighInNu, IsHighInPointThreshold, IsHighInThreshold, IsPointThresholdList};
ghost use Rattle.fj_shell.specs.Asked.{IsNonconstantAt, IsPointAt};
ghost use Rattle.fj_shell.specs.Named.{point_at, polynomial_at};
ghost use Rattle.fj_session.specs.Names.{IsAtHand, standing_in};
ghost use Rattle.fj_session.specs.Outcome.{OwnStops};
ghost use Rattle.fj_session.specs.Thresholds.{IsListOfNu, IsListOfThreshold, IsShownNu, IsShownThreshold, nu_shown, threshold_shown};

use super::limits::nonconstant;
use super::names::Names;
use super::points::point;
use super::types::Answer;
use fj_basis::Stop;
use fj_coeff::Coeff;
use fj_script::Env;
use fj_thresh::types::{Nu, Threshold};
use std::alloc::Global;

/// The number nu(e) of a polynomial at an ideal, or why there is none.
pub(crate) fn nu<K: Coeff>(
    alloc: Global,
    names: &Names<K>,
    budget: u64,
    e: u32,
    f: u32,
    j: u32,
) -> Result<Answer, Stop>
    requires field { K.field ≡ prime_field names.now.env.now.p }
    requires small { e ≤ 12 }
    requires named { IsNonconstantAt names.now.env.now f }
    requires ideal { IsAtHand K.field names.now j }
    ensures answer { IfOk result (IsShownNu K.field e (polynomial_at names.now.env.now f) (standing_in names.now j).list) }
    ensures stop { OwnStops K.field (IsListOfNu K.field e (polynomial_at names.now.env.now f) (standing_in names.now j)) (IsHighInNu K.field e (polynomial_at names.now.env.now f) (standing_in names.now j).list) budget result }
{
    let ideal = names.standing(alloc, budget, j)?;
    let polynomial = nonconstant(alloc, names.env, f)?;
    let found = fj_thresh::nu(alloc, e, &polynomial, ideal.ideal(), budget)?;
    Ok(shown(found))
}

/// The answer of the call as the answer of a question.
fn shown(nu: Nu) -> Answer
    ensures { result ≡ nu_shown nu }
{
    match nu {
        Nu::Is(greatest) => Answer::Nu(greatest),
        Nu::Unit => Answer::Unit,
        Nu::NotIn => Answer::NotIn,
    }
}

/// The threshold of a polynomial at an ideal, or why there is none.
pub(crate) fn threshold<K: Coeff>(
    alloc: Global,
    names: &Names<K>,
    budget: u64,
    f: u32,
    j: u32,
    e: u32,
) -> Result<Answer, Stop>
    requires field { K.field ≡ prime_field names.now.env.now.p }
    requires named { IsNonconstantAt names.now.env.now f }
    requires ideal { IsAtHand K.field names.now j }
    requires positive { 1 ≤ e }
    requires small { K.P ^ e ≤ 65536 }
    ensures answer { IfOk result (IsShownThreshold (IsThresholdAnswer K.field e (polynomial_at names.now.env.now f) (standing_in names.now j).list)) }
    ensures stop { OwnStops K.field (IsListOfThreshold K.field e (polynomial_at names.now.env.now f) (standing_in names.now j)) (IsHighInThreshold K.field e (polynomial_at names.now.env.now f) (standing_in names.now j).list) budget result }
{
    let ideal = names.standing(alloc, budget, j)?;
    let polynomial = nonconstant(alloc, names.env, f)?;
    let found = fj_thresh::threshold(alloc, &polynomial, ideal.ideal(), e, budget)?;
    Ok(shown_threshold(found))
}

/// The threshold of a polynomial at a point, or that it isn't zero there.
pub(crate) fn threshold_at<K: Coeff>(
    alloc: Global,
    env: &Env,
    budget: u64,
    f: u32,
    at: u32,
    e: u32,
) -> Result<Answer, Stop>
    requires field { K.field ≡ prime_field env.now.p }
    requires named { IsNonconstantAt env.now f }
    requires point { IsPointAt env.now at }
    requires positive { 1 ≤ e }
    requires small { K.P ^ e ≤ 65536 }
    ensures answer { IfOk result (IsShownThreshold (IsPointAnswer K.field e (polynomial_at env.now f) (length env.now.vars) (point_at env.now at))) }
    ensures stop { OwnStops K.field (IsPointThresholdList K.field e (polynomial_at env.now f) (length env.now.vars) (point_at env.now at)) (IsHighInPointThreshold K.field e (polynomial_at env.now f) (length env.now.vars) (point_at env.now at)) budget result }
{
    let vars = env.vars.len();
    let polynomial = nonconstant::<K>(alloc, env, f)?;
    let zero = point(alloc, env, at)?;
    let found = fj_thresh::threshold_at(alloc, &polynomial, &zero, vars, e, budget)?;
    Ok(shown_threshold(found))
}

/// The answer of a call for a threshold as the answer of a question.
fn shown_threshold(threshold: Threshold) -> Answer
    ensures { result ≡ threshold_shown threshold }
{
    match threshold {
        Threshold::At(t) => Answer::At(t),
        Threshold::Between(lower, upper) => Answer::Between(lower, upper),
        Threshold::NotIn => Answer::NotIn,
        Threshold::Unit => Answer::Unit,
        Threshold::Off => Answer::Off,
    }
}
