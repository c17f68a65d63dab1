//! Questions, and the reading of their arguments.
ghost use Rattle.std.specs.Prelude.{◌≡◌, ◌<◌, length, map, slice_get, Some};
ghost use Rattle.fj_text.specs.Seen.{seen};
ghost use Rattle.fj_script.specs.Question.{arguments, compatible, ideal_question_at, jumps, member, nu, of_frobenius, of_ideal, of_test_ideal, of_two_ideals, parts, pure, question_at, target_at, target_seen, threshold};
ghost use Rattle.fj_script.specs.Seen.{Gives};

use super::ask::{Ask, Frobenius, OneIdeal, TestIdeal, TwoIdeals, ask_of, ideal_ask_of};
use super::fault::{FaultKind, LineFault, fault_at};
use super::items::word;
use super::number::{exponent, level, ratio};
use super::session::Session;
use super::value::Kind;
use fj_plain::OrderName;
use fj_ratio::Ratio;
use fj_text::Reader;
use std::marker::Model;

/// A question. A name is its place among the declared ones, from 0; the names of fields are those of the manual.
#[derive(Clone, Copy, Debug)]
pub enum Question {
    Parts { e: u32, f: u32 },
    Basis { j: u32 },
    Member { f: u32, j: u32 },
    Same { j: u32, k: u32 },
    Sum { j: u32, k: u32 },
    Product { j: u32, k: u32 },
    Meet { j: u32, k: u32 },
    Colon { j: u32, k: u32 },
    Power { e: u32, j: u32 },
    Root { e: u32, j: u32 },
    Test { f: u32, t: Ratio },
    Left { f: u32, t: Ratio },
    IsJump { f: u32, t: Ratio },
    Regular { f: u32, t: Ratio },
    Jumps { f: u32, e: u32 },
    Nu { e: u32, f: u32, j: u32 },
    Threshold { f: u32, j: u32, e: u32 },
    ThresholdAt { f: u32, at: u32, e: u32 },
    Pure { j: u32 },
    PureAt { j: u32, at: u32 },
    Split { j: u32 },
    Compatible { e: u32, u: u32, j: u32 },
}

/// A question with its number, counted from 1, its printing order, and the turn budget of each of its basis runs.
#[derive(Clone, Copy, Debug)]
pub struct Asked {
    pub number: u32,
    pub order: OrderName,
    pub budget: u64,
    pub question: Question,
}

/// The questions of a session, in order.
#[derive(Debug, Drop)]
pub struct AskedList {
    items: Vec<Asked>,
}

impl Model for AskedList {
    ghost use Rattle.std.specs.Prelude.{List};
    ghost use Rattle.fj_script.specs.declared.question.Asked.{Asked};

    ghost Value = { List Asked };

    ghost view = { λ l. l.items.items };
}

impl AskedList {
    /// These questions.
    pub fn of(v: Vec<Asked>) -> AskedList
        ensures { result ≡ v.items }
    {
        AskedList { items: v }
    }

    /// The number of questions.
    pub fn len(&self) -> usize
        ensures { result ≡ length self.now }
    {
        self.items.len()
    }

    /// The question at place i, from 0.
    pub fn get(&self, i: usize) -> &Asked
        requires { i < length self.now }
        ensures { slice_get self.now i ≡ Some result.now }
    {
        &self.items[i]
    }
}

/// The second name of `threshold`.
#[derive(Clone, Copy)]
pub enum Target {
    /// The place of an ideal in the list of values.
    Ideal(u32),
    /// The place of a point there.
    Point(u32),
}

#[tactic(auto, unfolding(crate::specs::Question::parts))]
fn parts(session: &Session, reader: &mut Reader) -> Result<Question, LineFault>
    ensures { Gives (λ q. q) result reader.new (parts session.now reader.old) }
{
    let e = exponent(reader)?;
    let f = session.polynomial(reader)?;
    Ok(Question::Parts { e, f })
}

#[tactic(auto, unfolding(crate::specs::Question::member))]
fn member(session: &Session, reader: &mut Reader) -> Result<Question, LineFault>
    ensures { Gives (λ q. q) result reader.new (member session.now reader.old) }
{
    let f = session.polynomial(reader)?;
    let j = session.ideal(reader)?;
    Ok(Question::Member { f, j })
}

/// A question on one ideal.
#[tactic(auto, unfolding(crate::specs::Question::of_ideal))]
fn of_ideal(which: OneIdeal, session: &Session, reader: &mut Reader) -> Result<Question, LineFault>
    ensures { Gives (λ q. q) result reader.new (of_ideal which session.now reader.old) }
{
    let j = session.ideal(reader)?;
    Ok(match which {
        OneIdeal::Basis => Question::Basis { j },
        OneIdeal::Split => Question::Split { j },
    })
}

/// A question on two ideals.
#[tactic(auto, unfolding(crate::specs::Question::of_two_ideals))]
fn of_two_ideals(
    which: TwoIdeals,
    session: &Session,
    reader: &mut Reader,
) -> Result<Question, LineFault>
    ensures { Gives (λ q. q) result reader.new (of_two_ideals which session.now reader.old) }
{
    let j = session.ideal(reader)?;
    let k = session.ideal(reader)?;
    Ok(match which {
        TwoIdeals::Same => Question::Same { j, k },
        TwoIdeals::Sum => Question::Sum { j, k },
        TwoIdeals::Product => Question::Product { j, k },
        TwoIdeals::Meet => Question::Meet { j, k },
        TwoIdeals::Colon => Question::Colon { j, k },
    })
}

/// A question on a Frobenius power or root.
#[tactic(auto, unfolding(crate::specs::Question::of_frobenius))]
fn of_frobenius(
    which: Frobenius,
    session: &Session,
    reader: &mut Reader,
) -> Result<Question, LineFault>
    ensures { Gives (λ q. q) result reader.new (of_frobenius which session.now reader.old) }
{
    let e = exponent(reader)?;
    let j = session.ideal(reader)?;
    Ok(match which {
        Frobenius::Power => Question::Power { e, j },
        Frobenius::Root => Question::Root { e, j },
    })
}

/// A question on a test ideal. Limits from the left and jumps are at numbers above 0.
#[tactic(auto, unfolding(crate::specs::Question::of_test_ideal))]
fn of_test_ideal(
    which: TestIdeal,
    session: &Session,
    reader: &mut Reader,
) -> Result<Question, LineFault>
    ensures { Gives (λ q. q) result reader.new (of_test_ideal which session.now reader.old) }
{
    let f = session.nonconstant(reader)?;
    let t = ratio(which.is_above_zero(), reader)?;
    Ok(match which {
        TestIdeal::Test => Question::Test { f, t },
        TestIdeal::Left => Question::Left { f, t },
        TestIdeal::IsJump => Question::IsJump { f, t },
        TestIdeal::Regular => Question::Regular { f, t },
    })
}

#[tactic(auto, unfolding(crate::specs::Question::jumps))]
fn jumps(session: &Session, reader: &mut Reader) -> Result<Question, LineFault>
    ensures { Gives (λ q. q) result reader.new (jumps session.now reader.old) }
{
    let f = session.nonconstant(reader)?;
    let e = level(session.prime(), reader)?;
    Ok(Question::Jumps { f, e })
}

#[tactic(auto, unfolding(crate::specs::Question::nu))]
fn nu(session: &Session, reader: &mut Reader) -> Result<Question, LineFault>
    ensures { Gives (λ q. q) result reader.new (nu session.now reader.old) }
{
    let e = exponent(reader)?;
    let f = session.nonconstant(reader)?;
    let j = session.ideal(reader)?;
    Ok(Question::Nu { e, f, j })
}

/// An ideal or a point.
#[tactic(auto, unfolding(crate::specs::Question::target_at))]
fn target_at(session: &Session, reader: &mut Reader) -> Result<Target, LineFault>
    ensures { Gives target_seen result reader.new (target_at session.now reader.old) }
{
    let (place, kind) = session.declared(reader)?;
    match kind {
        Kind::Ideal => Ok(Target::Ideal(place)),
        Kind::Point => Ok(Target::Point(place)),
        Kind::Constant => Err(fault_at(FaultKind::Kind, reader)),
        Kind::Nonconstant => Err(fault_at(FaultKind::Kind, reader)),
    }
}

#[tactic(auto, unfolding(crate::specs::Question::threshold))]
fn threshold(session: &Session, reader: &mut Reader) -> Result<Question, LineFault>
    ensures { Gives (λ q. q) result reader.new (threshold session.now reader.old) }
{
    let f = session.nonconstant(reader)?;
    let target = target_at(session, reader)?;
    let e = level(session.prime(), reader)?;
    match target {
        Target::Ideal(j) => Ok(Question::Threshold { f, j, e }),
        Target::Point(at) => Ok(Question::ThresholdAt { f, at, e }),
    }
}

#[tactic(auto, unfolding(crate::specs::Question::pure))]
fn pure(session: &Session, reader: &mut Reader) -> Result<Question, LineFault>
    ensures { Gives (λ q. q) result reader.new (pure session.now reader.old) }
{
    let j = session.ideal(reader)?;
    let Some(token) = reader.take() else {
        return Ok(Question::Pure { j });
    };
    let at = session.point_by(token, reader)?;
    Ok(Question::PureAt { j, at })
}

#[tactic(auto, unfolding(crate::specs::Question::compatible))]
fn compatible(session: &Session, reader: &mut Reader) -> Result<Question, LineFault>
    ensures { Gives (λ q. q) result reader.new (compatible session.now reader.old) }
{
    let e = exponent(reader)?;
    let u = session.polynomial(reader)?;
    let j = session.ideal(reader)?;
    Ok(Question::Compatible { e, u, j })
}

/// The arguments of a question, from the word that names it.
#[tactic(auto, unfolding(crate::specs::Question::arguments))]
fn arguments(ask: Ask, session: &Session, reader: &mut Reader) -> Result<Question, LineFault>
    ensures { Gives (λ q. q) result reader.new (arguments ask session.now reader.old) }
{
    match ask {
        Ask::Parts => parts(session, reader),
        Ask::Member => member(session, reader),
        Ask::OneIdeal(which) => of_ideal(which, session, reader),
        Ask::TwoIdeals(which) => of_two_ideals(which, session, reader),
        Ask::Frobenius(which) => of_frobenius(which, session, reader),
        Ask::TestIdeal(which) => of_test_ideal(which, session, reader),
        Ask::Jumps => jumps(session, reader),
        Ask::Nu => nu(session, reader),
        Ask::Threshold => threshold(session, reader),
        Ask::Pure => pure(session, reader),
        Ask::Compatible => compatible(session, reader),
    }
}

/// A question, from the word that names it.
#[tactic(auto, unfolding(crate::specs::Question::question_at, crate::specs::Question::question_by))]
pub(crate) fn question_at(session: &Session, reader: &mut Reader) -> Result<Question, LineFault>
    ensures { Gives (λ q. q) result reader.new (question_at session.now reader.old) }
{
    let word = word(reader)?;
    match ask_of(word) {
        Some(ask) => arguments(ask, session, reader),
        None => Err(fault_at(FaultKind::Syntax, reader)),
    }
}

/// A question that has an ideal as its answer, from the word that names it.
#[tactic(auto, unfolding(crate::specs::Question::ideal_question_at, crate::specs::Question::question_by))]
pub(crate) fn ideal_question_at(
    session: &Session,
    reader: &mut Reader,
) -> Result<Question, LineFault>
    ensures { Gives (λ q. q) result reader.new (ideal_question_at session.now reader.old) }
{
    let word = word(reader)?;
    match ideal_ask_of(word) {
        Some(ask) => arguments(ask, session, reader),
        None => Err(fault_at(FaultKind::Syntax, reader)),
    }
}
