//! Declarations.
ghost use Rattle.std.specs.Prelude.{◌≡◌, ◌+◌, ◌<◌, ◌≤◌, ℕ, length, map, Contains, IfOk, OnOk, None};
ghost use Rattle.fj_coeff.specs.Field.{primes};
ghost use Rattle.fj_text.specs.Word.{IsWord, place_of};
ghost use Rattle.fj_script.specs.Declaration.{constant, coordinate, counted, generator, ideal, name_equals, named_result, point, poly};
ghost use Rattle.fj_script.specs.Items.{enclosed, listed};
ghost use Rattle.fj_script.specs.Names.{declared_names, new_name};
ghost use Rattle.fj_script.specs.Seen.{Gives, Makes, Reads, terms_of};
ghost use Rattle.fj_script.specs.Session.{terms_in};

use super::expression::expression;
use super::fault::{FaultKind, LineFault, LineRefusal, fault_at};
use super::items::{at_end, narrow, sign, word};
use super::question::ideal_question_at;
use super::session::Session;
use super::value::{MAX_VALUES, Value};
use fj_plain::{PlainList, PlainPoint, PlainPoly};
use fj_text::Reader;
use std::alloc::Global;

/// The most generators of an ideal.
const MAX_GENERATORS: usize = 256;

/// The most terms of all polynomials and generators.
const MAX_TERMS: usize = 1000000;

/// The word that has to be next, which isn't a name yet.
#[tactic(auto, unfolding(crate::specs::Names::new_name))]
fn new_name<'a>(session: &Session, reader: &mut Reader<'a>) -> Result<&'a [u8], LineFault>
    ensures gives { Gives (λ w. w.now) result reader.new (new_name session.now reader.old) }
    ensures word { IfOk result (λ w. IsWord w.now) }
    ensures new { IfOk result (λ w. place_of (declared_names session.now.values) w.now ≡ None) }
    ensures few { OnOk result (length session.now.values < 4096) }
{
    let word = word(reader)?;
    if session.is_variable(word) || session.values.find(word).is_some() {
        return Err(fault_at(FaultKind::Taken, reader));
    }
    if session.values.len() >= MAX_VALUES {
        return Err(fault_at(FaultKind::Many, reader));
    }
    Ok(word)
}

/// A new name and `=`.
#[tactic(auto, unfolding(crate::specs::Declaration::name_equals))]
fn name_equals<'a>(session: &Session, reader: &mut Reader<'a>) -> Result<&'a [u8], LineFault>
    ensures gives { Gives (λ w. w.now) result reader.new (name_equals session.now reader.old) }
    ensures word { IfOk result (λ w. IsWord w.now) }
    ensures new { IfOk result (λ w. place_of (declared_names session.now.values) w.now ≡ None) }
    ensures few { OnOk result (length session.now.values < 4096) }
{
    let name = new_name(session, reader)?;
    sign(b'=', reader)?;
    Ok(name)
}

/// An expression, where so many terms are declared before it.
#[tactic(auto, unfolding(crate::specs::Declaration::counted))]
fn counted(
    alloc: Global,
    session: &Session,
    terms: usize,
    reader: &mut Reader,
) -> Result<PlainPoly, LineRefusal>
    requires { terms ≤ 1000000 }
    ensures reads { Reads (λ h. h.terms) result reader.new (counted session.now terms reader.old) }
    ensures taken { OnOk result (length reader.new.left < length reader.old.left) }
    ensures few { IfOk result (λ h. terms + length h.terms ≤ 1000000) }
{
    let value = expression(alloc, session, reader)?;
    if value.len() > MAX_TERMS - terms {
        return Err(fault_at(FaultKind::Many, reader).into());
    }
    Ok(value)
}

/// What stands behind the word `poly`.
#[tactic(auto, using(crate::proofs::Ends::ends, crate::proofs::Ends::goes_on), unfolding(crate::specs::Declaration::poly))]
pub(crate) fn poly(
    alloc: Global,
    session: &mut Session,
    reader: &mut Reader,
) -> Result<(), LineRefusal>
    ensures { Makes (λ _. session.new) result (poly session.old reader.old) }
{
    let name = name_equals(session, reader)?;
    let value = counted(alloc, session, session.terms(), reader)?;
    at_end(reader)?;
    let terms = value.len();
    session.declare(alloc, name, Value::Poly(value), terms)?;
    Ok(())
}

/// A generator, behind these, where so many terms are declared before it.
#[tactic(auto, unfolding(crate::specs::Declaration::generator))]
fn generator(
    alloc: Global,
    session: &Session,
    generators: &[PlainPoly],
    terms: usize,
    reader: &mut Reader,
) -> Result<PlainPoly, LineRefusal>
    requires limit { terms ≤ 1000000 }
    requires counted { terms ≡ session.now.terms + terms_in (terms_of generators.now) }
    ensures reads { Reads (λ h. h.terms) result reader.new (generator session.now (terms_of generators.now) reader.old) }
    ensures taken { OnOk result (length reader.new.left < length reader.old.left) }
    ensures few { IfOk result (λ h. terms + length h.terms ≤ 1000000) }
{
    if generators.len() >= MAX_GENERATORS {
        return Err(fault_at(FaultKind::Many, reader).into());
    }
    counted(alloc, session, terms, reader)
}

/// Generators with a comma between each two, and how many terms they have.
#[tactic(auto, unfolding(crate::specs::Items::listed))]
fn generators(
    alloc: Global,
    session: &Session,
    reader: &mut Reader,
) -> Result<(Vec<PlainPoly>, usize), LineRefusal>
    ensures reads { Reads (λ fs. terms_of fs.0.items) result reader.new (listed (generator session.now) reader.old) }
    ensures count { IfOk result (λ fs. fs.1 ≡ terms_in (terms_of fs.0.items)) }
    ensures few { IfOk result (λ fs. session.now.terms + fs.1 ≤ 1000000) }
{
    let declared = session.terms();
    let mut generators = Vec::new(alloc);
    let first = generator(alloc, session, &generators, declared, reader)?;
    let mut terms = declared + first.len();
    generators.push(first)?;
    'generators: while reader.take_sign(b',') {
        let next = generator(alloc, session, &generators, terms, reader)?;
        terms += next.len();
        generators.push(next)?;
    }
    Ok((generators, terms - declared))
}

/// What stands behind the word `ideal`.
#[tactic(auto, using(crate::proofs::Ends::ends, crate::proofs::Ends::goes_on), unfolding(crate::specs::Declaration::ideal, crate::specs::Items::enclosed))]
pub(crate) fn ideal(
    alloc: Global,
    session: &mut Session,
    reader: &mut Reader,
) -> Result<(), LineRefusal>
    ensures { Makes (λ _. session.new) result (ideal session.old reader.old) }
{
    let name = name_equals(session, reader)?;
    sign(b'(', reader)?;
    let (generators, terms) = generators(alloc, session, reader)?;
    sign(b')', reader)?;
    at_end(reader)?;
    let value = Value::Ideal(PlainList::of(generators));
    session.declare(alloc, name, value, terms)?;
    Ok(())
}

/// A constant modulo p.
#[tactic(auto, unfolding(crate::specs::Declaration::constant))]
fn constant(p: u64, reader: &mut Reader) -> Result<u64, LineFault>
    requires { Contains primes p }
    ensures gives { Gives (λ c. c) result reader.new (constant p reader.old) }
    ensures taken { OnOk result (length reader.new.left < length reader.old.left) }
{
    if reader.take_sign(b'-') {
        let n = narrow(reader)?;
        return Ok((p - n % p) % p);
    }
    let n = narrow(reader)?;
    Ok(n % p)
}

/// A coordinate, behind these.
#[tactic(auto, unfolding(crate::specs::Declaration::coordinate))]
fn coordinate(session: &Session, coordinates: &[u64], reader: &mut Reader) -> Result<u64, LineFault>
    ensures gives { Gives (λ c. c) result reader.new (coordinate session.now coordinates.now reader.old) }
    ensures taken { OnOk result (length reader.new.left < length reader.old.left) }
{
    if coordinates.len() >= session.variables.len() {
        return Err(fault_at(FaultKind::Arity, reader));
    }
    constant(session.prime, reader)
}

/// Coordinates with a comma between each two.
#[tactic(auto, unfolding(crate::specs::Items::listed))]
fn coordinates(
    alloc: Global,
    session: &Session,
    reader: &mut Reader,
) -> Result<Vec<u64>, LineRefusal>
    ensures { Reads (λ cs. cs.items) result reader.new (listed (coordinate session.now) reader.old) }
{
    let mut coordinates = Vec::new(alloc);
    coordinates.push(coordinate(session, &coordinates, reader)?)?;
    'coordinates: while reader.take_sign(b',') {
        let next = coordinate(session, &coordinates, reader)?;
        coordinates.push(next)?;
    }
    Ok(coordinates)
}

/// What stands behind the word `point`.
#[tactic(auto, using(crate::proofs::Ends::ends, crate::proofs::Ends::goes_on), unfolding(crate::specs::Declaration::point, crate::specs::Items::enclosed))]
pub(crate) fn point(
    alloc: Global,
    session: &mut Session,
    reader: &mut Reader,
) -> Result<(), LineRefusal>
    ensures { Makes (λ _. session.new) result (point session.old reader.old) }
{
    let name = name_equals(session, reader)?;
    sign(b'(', reader)?;
    let coordinates = coordinates(alloc, session, reader)?;
    sign(b')', reader)?;
    if coordinates.len() < session.variables.len() {
        return Err(fault_at(FaultKind::Arity, reader).into());
    }
    at_end(reader)?;
    let value = Value::Point(PlainPoint::of(coordinates));
    session.declare(alloc, name, value, 0)?;
    Ok(())
}

/// What stands behind the word `let`.
#[tactic(auto, using(crate::proofs::Ends::ends, crate::proofs::Ends::goes_on), unfolding(crate::specs::Declaration::named_result))]
pub(crate) fn named_result(
    alloc: Global,
    session: &mut Session,
    reader: &mut Reader,
) -> Result<(), LineRefusal>
    ensures { Makes (λ _. session.new) result (named_result session.old reader.old) }
{
    let name = name_equals(session, reader)?;
    let question = ideal_question_at(session, reader)?;
    at_end(reader)?;
    let value = Value::Let {
        budget: session.budget,
        question,
    };
    session.declare(alloc, name, value, 0)?;
    Ok(())
}
