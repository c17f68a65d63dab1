//! The lets that a question uses, and their values.
//!
//! A let names only what stands before it. So one pass down through the places finds all lets that a question uses, and one
//! pass up calculates each of them once.
ghost use Rattle.std.specs.Prelude.{◌≡◌, ℕ, ◌<◌, ◌≤◌, All, Some, IfErr, IfOk, IsTrue, length, true};
ghost use Rattle.fj_coeff.specs.PrimeField.{prime_field};
ghost use Rattle.fj_plain.specs.declared.order_name.OrderName.TheVariants.{Grevlex};
ghost use Rattle.fj_script.specs.Question.{answers_ideal};
ghost use Rattle.fj_script.specs.declared.question.Question as script;
ghost use Rattle.fj_shell.specs.Asked.{IsOfSession};
ghost use Rattle.fj_shell.specs.Named.{places_in};
ghost use Rattle.fj_session.specs.Names.{AreAtHand, values_kept};
ghost use Rattle.fj_session.specs.Standing.{IsLet, IsStated};
ghost use Rattle.fj_session.specs.Statement.{meaning_of};
ghost use Rattle.fj_session.specs.Used.{AreMarkedFrom, AreMarks, AreNamesOf, HasValues, MarksNames, IsCauseAt, IsCauseFor, IsStopBefore, IsValueOf};

use super::asked::asked_ideal;
use super::names::{Names, reduced};
use fj_basis::Stop;
use fj_coeff::Coeff;
use fj_ideal::Ideal;
use fj_script::{Env, Question, Value};
use std::alloc::{AllocError, Global};

/// What the names of ideals stand for in a question: the lets that it uses have their values, each calculated once, in order of
/// declaration, with its own budget.
pub(crate) fn names_of<'s, K: Coeff>(
    alloc: Global,
    env: &'s Env,
    question: &Question,
) -> Result<Names<'s, K>, Stop>
    requires field { K.field ≡ prime_field env.now.p }
    requires stated { IsStated env.now question.now }
    ensures values { IfOk result (HasValues K.field env.now question.now) }
    ensures stop { IfErr result (IsStopBefore K.field env.now question.now) }
{
    let marks = marks_of(alloc, env, question)?;
    let mut names = Names {
        env,
        lets: Vec::new(alloc),
    };
    for place in 0..marks.len() {
        let value = value_at(alloc, &names, marks[place], place)?;
        names.lets.push(value)?;
    }
    Ok(names)
}

/// The value of the name at this place, if it is a let that is marked.
fn value_at<K: Coeff>(
    alloc: Global,
    names: &Names<K>,
    marked: bool,
    place: usize,
) -> Result<Option<Ideal<K>>, Stop>
    requires field { K.field ≡ prime_field names.now.env.now.p }
    requires session { IsOfSession names.now.env.now }
    requires within { place < length names.now.env.now.values }
    requires at_hand { IsTrue marked → (budget : ℕ) (question : script.Question) → IsLet names.now.env.now place budget question → AreAtHand K.field names.now question }
    ensures value { IfOk result (λ value. IsTrue marked → (budget : ℕ) (question : script.Question) → IsLet names.now.env.now place budget question → IsValueOf K.field names.now question value) }
    ensures stop { IfErr result (λ stop. IsTrue marked × IsCauseAt K.field names.now place stop) }
{
    if !marked {
        return Ok(None);
    }
    match names.env.values.get(place).1 {
        Value::Let { budget, question } => Ok(Some(value_of(alloc, names, *budget, question)?)),
        Value::Poly(_) => Ok(None),
        Value::Ideal(_) => Ok(None),
        Value::Point(_) => Ok(None),
    }
}

/// The value of a let with this budget and this question.
fn value_of<K: Coeff>(
    alloc: Global,
    names: &Names<K>,
    budget: u64,
    question: &Question,
) -> Result<Ideal<K>, Stop>
    requires field { K.field ≡ prime_field names.now.env.now.p }
    requires stated { IsStated names.now.env.now question.now }
    requires ideal { answers_ideal question.now ≡ true }
    requires at_hand { AreAtHand K.field names.now question.now }
    ensures value { IfOk result (λ J. IsValueOf K.field names.now question.now (Some J)) }
    ensures stop { IfErr result (IsCauseFor K.field (meaning_of K.field names.now.env.now (values_kept names.now.lets.items) Grevlex question.now) budget) }
{
    let ideal = asked_ideal(alloc, names, budget, question)?;
    Ok(reduced(alloc, &ideal)?)
}

/// Marks of the lets that a question uses, by place.
fn marks_of(alloc: Global, env: &Env, question: &Question) -> Result<Vec<bool>, AllocError>
    requires { IsStated env.now question.now }
    ensures { IfOk result (λ marks. AreMarks env.now question.now marks.items) }
{
    let (first, second) = names_in(question);
    let mut marks = vec![in alloc; false; first.max(second) as usize + 1]?;
    mark_names(question, &mut marks);
    let count = marks.len();
    for above in 0..count {
        mark_named(env, count - 1 - above, &mut marks);
    }
    Ok(marks)
}

/// Marks what the let at this place names, if there is one that is marked.
fn mark_named(env: &Env, place: usize, marks: &mut Vec<bool>)
    requires session { IsOfSession env.now }
    requires within { length marks.old.items ≤ length env.now.values }
    requires place { place < length marks.old.items }
    ensures { AreMarkedFrom env.now place marks.old.items marks.new.items }
{
    if !marks[place] {
        return;
    }
    match env.values.get(place).1 {
        Value::Let { question, .. } => mark_names(question, marks),
        Value::Poly(_) => {}
        Value::Ideal(_) => {}
        Value::Point(_) => {}
    }
}

/// Marks the names of a question.
fn mark_names(question: &Question, marks: &mut Vec<bool>)
    requires { All (λ j. j < length marks.old.items) (places_in question.now) }
    ensures { MarksNames question.now marks.old.items marks.new.items }
{
    let (first, second) = names_in(question);
    marks[first as usize] = true;
    marks[second as usize] = true;
}

/// The places of the names of a question, the first one twice where it has no other.
fn names_in(question: &Question) -> (u32, u32)
    ensures { AreNamesOf question.now result.0 result.1 }
{
    match *question {
        Question::Parts { f, .. } => (f, f),
        Question::Basis { j } => (j, j),
        Question::Member { f, j } => (f, j),
        Question::Same { j, k } => (j, k),
        Question::Sum { j, k } => (j, k),
        Question::Product { j, k } => (j, k),
        Question::Meet { j, k } => (j, k),
        Question::Colon { j, k } => (j, k),
        Question::Power { j, .. } => (j, j),
        Question::Root { j, .. } => (j, j),
        Question::Test { f, .. } => (f, f),
        Question::Left { f, .. } => (f, f),
        Question::IsJump { f, .. } => (f, f),
        Question::Regular { f, .. } => (f, f),
        Question::Jumps { f, .. } => (f, f),
        Question::Nu { f, j, .. } => (f, j),
        Question::Threshold { f, j, .. } => (f, j),
        Question::ThresholdAt { f, at, .. } => (f, at),
        Question::Pure { j } => (j, j),
        Question::PureAt { j, at } => (j, at),
        Question::Split { j } => (j, j),
        Question::Compatible { u, j, .. } => (u, j),
    }
}
