//! Statements: what a line does to a session.
ghost use Rattle.std.specs.Prelude.{◌≡◌, Some};
ghost use Rattle.fj_text.specs.Seen.{seen};
ghost use Rattle.fj_script.specs.Seen.{Makes};
ghost use Rattle.fj_script.specs.Statement.{asking, budget, first, keyword_of, later, line, order, order_of, statement};

use super::declaration::{ideal, named_result, point, poly};
use super::fault::{FaultKind, LineRefusal, fault_at};
use super::items::{at_end, word, word_of};
use super::number::within;
use super::question::question_at;
use super::ring::ring;
use super::session::Session;
use fj_plain::OrderName;
use fj_text::Reader;
use std::alloc::Global;

/// The most questions.
const MAX_ASKED: usize = 4096;

/// The greatest turn budget.
const MAX_BUDGET: u64 = 10000000;

/// The words that begin statements.
#[derive(Clone, Copy)]
pub enum Keyword {
    Ring,
    Order,
    Budget,
    Poly,
    Ideal,
    Point,
    Let,
    Ask,
}

/// The statement that begins with a word.
#[tactic(auto, unfolding(crate::specs::Statement::keyword_of))]
fn keyword_of(word: &[u8]) -> Option<Keyword>
    ensures { result ≡ keyword_of word.now }
{
    match word {
        b"ring" => Some(Keyword::Ring),
        b"order" => Some(Keyword::Order),
        b"budget" => Some(Keyword::Budget),
        b"poly" => Some(Keyword::Poly),
        b"ideal" => Some(Keyword::Ideal),
        b"point" => Some(Keyword::Point),
        b"let" => Some(Keyword::Let),
        b"ask" => Some(Keyword::Ask),
        _ => None,
    }
}

/// The order that a word names.
fn order_of(word: &[u8]) -> Option<OrderName>
    ensures { result ≡ order_of word.now }
{
    match word {
        b"grevlex" => Some(OrderName::Grevlex),
        b"grlex" => Some(OrderName::Grlex),
        b"lex" => Some(OrderName::Lex),
        _ => None,
    }
}

/// What stands behind the word `order`.
#[tactic(auto, using(crate::proofs::Ends::ends, crate::proofs::Ends::goes_on), unfolding(crate::specs::Statement::order))]
fn order(session: &mut Session, reader: &mut Reader) -> Result<(), LineRefusal>
    ensures { Makes (λ _. session.new) result (order session.old reader.old) }
{
    let word = word(reader)?;
    let Some(name) = order_of(word) else {
        return Err(fault_at(FaultKind::Syntax, reader).into());
    };
    at_end(reader)?;
    session.order = name;
    Ok(())
}

/// What stands behind the word `budget`.
#[tactic(auto, using(crate::proofs::Ends::ends, crate::proofs::Ends::goes_on), unfolding(crate::specs::Statement::budget))]
fn budget(session: &mut Session, reader: &mut Reader) -> Result<(), LineRefusal>
    ensures { Makes (λ _. session.new) result (budget session.old reader.old) }
{
    let turns = within(1, MAX_BUDGET, reader)?;
    at_end(reader)?;
    session.budget = turns;
    Ok(())
}

/// What stands behind the word `ask`.
#[tactic(auto, using(crate::proofs::Ends::ends, crate::proofs::Ends::goes_on), unfolding(crate::specs::Statement::asking))]
fn asking(session: &mut Session, reader: &mut Reader) -> Result<(), LineRefusal>
    ensures { Makes (λ _. session.new) result (asking session.old reader.old) }
{
    if session.asked.len() >= MAX_ASKED {
        return Err(fault_at(FaultKind::Many, reader).into());
    }
    let question = question_at(session, reader)?;
    at_end(reader)?;
    session.ask(question)?;
    Ok(())
}

/// The first statement.
#[tactic(auto, unfolding(crate::specs::Statement::first))]
fn first(
    alloc: Global,
    keyword: Option<Keyword>,
    reader: &mut Reader,
) -> Result<Session, LineRefusal>
    ensures { Makes (λ S. S) result (first keyword reader.old) }
{
    match keyword {
        Some(Keyword::Ring) => ring(alloc, reader),
        Some(_) => Err(fault_at(FaultKind::NoRing, reader).into()),
        None => Err(fault_at(FaultKind::Syntax, reader).into()),
    }
}

/// A later statement.
#[tactic(auto, unfolding(crate::specs::Statement::later))]
fn later(
    alloc: Global,
    keyword: Option<Keyword>,
    session: &mut Session,
    reader: &mut Reader,
) -> Result<(), LineRefusal>
    ensures { Makes (λ _. session.new) result (later keyword session.old reader.old) }
{
    match keyword {
        Some(Keyword::Order) => order(session, reader),
        Some(Keyword::Budget) => budget(session, reader),
        Some(Keyword::Poly) => poly(alloc, session, reader),
        Some(Keyword::Ideal) => ideal(alloc, session, reader),
        Some(Keyword::Point) => point(alloc, session, reader),
        Some(Keyword::Let) => named_result(alloc, session, reader),
        Some(Keyword::Ask) => asking(session, reader),
        Some(Keyword::Ring) => Err(fault_at(FaultKind::Syntax, reader).into()),
        None => Err(fault_at(FaultKind::Syntax, reader).into()),
    }
}

/// A line, behind those that made this session. A line without a token is skipped.
#[tactic(auto, unfolding(crate::specs::Statement::line, crate::specs::Statement::statement))]
pub(crate) fn line(
    alloc: Global,
    before: Option<Session>,
    bytes: &[u8],
) -> Result<Option<Session>, LineRefusal>
    ensures { Makes (λ S. S) result (line before bytes.now) }
{
    let mut reader = Reader::new(bytes, 0);
    let Some(token) = reader.take() else {
        return Ok(before);
    };
    let keyword = keyword_of(word_of(token, &reader)?);
    match before {
        None => Ok(Some(first(alloc, keyword, &mut reader)?)),
        Some(mut session) => {
            later(alloc, keyword, &mut session, &mut reader)?;
            Ok(Some(session))
        }
    }
}
