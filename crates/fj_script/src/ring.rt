//! The ring of a session.
ghost use Rattle.std.specs.Prelude.{◌≡◌, ◌<◌, length, map, Contains, IfOk, OnOk, None, is_some};
ghost use Rattle.fj_coeff.specs.Field.{primes};
ghost use Rattle.fj_text.specs.Word.{AreNames, IsWord, place_of};
ghost use Rattle.fj_script.specs.Items.{listed};
ghost use Rattle.fj_script.specs.Ring.{prime, ring, variable};
ghost use Rattle.fj_script.specs.Seen.{Gives, Makes, Reads};

use super::fault::{FaultKind, LineFault, LineRefusal, fault_at};
use super::items::{at_end, number, word};
use super::session::Session;
use fj_coeff::is_prime;
use fj_text::{Names, Reader};
use std::alloc::Global;

/// The most variables.
const MAX_VARIABLES: usize = 7;

/// The prime that has to be next.
#[tactic(auto, unfolding(crate::specs::Ring::prime))]
fn prime(reader: &mut Reader) -> Result<u64, LineFault>
    ensures gives { Gives (λ n. n) result reader.new (prime reader.old) }
    ensures in_table { IfOk result (Contains primes) }
{
    let n = number(reader)?;
    if !is_prime(n) {
        return Err(fault_at(FaultKind::Prime, reader));
    }
    Ok(n)
}

/// Whether a word is among names.
fn is_among(names: &[&str], word: &str) -> bool
    ensures { result ≡ is_some (place_of (map (λ name. name.now) names.now) word.now) }
{
    for name in names {
        if *name == word {
            return true;
        }
    }
    false
}

/// The variable that has to be next, behind these.
#[tactic(auto, unfolding(crate::specs::Ring::variable))]
fn variable<'a>(names: &[&str], reader: &mut Reader<'a>) -> Result<&'a str, LineFault>
    ensures gives { Gives (λ w. w.now) result reader.new (variable (map (λ name. name.now) names.now) reader.old) }
    ensures taken { OnOk result (length reader.new.left < length reader.old.left) }
    ensures word { IfOk result (λ w. IsWord w.now) }
    ensures new { IfOk result (λ w. place_of (map (λ name. name.now) names.now) w.now ≡ None) }
    ensures few { OnOk result (length names.now < 7) }
{
    let word = str::from_utf8(word(reader)?).unwrap();
    if names.len() >= MAX_VARIABLES {
        return Err(fault_at(FaultKind::Vars, reader));
    }
    if is_among(names, word) {
        return Err(fault_at(FaultKind::Taken, reader));
    }
    Ok(word)
}

/// The variables, with a comma between each two.
#[tactic(auto, unfolding(crate::specs::Items::listed))]
fn variables<'a>(alloc: Global, reader: &mut Reader<'a>) -> Result<Names, LineRefusal>
    ensures { Reads (λ names. names) result reader.new (listed variable reader.old) }
{
    let mut names = Vec::new(alloc);
    names.push(variable(&names, reader)?)?;
    'names: while reader.take_sign(b',') {
        let name = variable(&names, reader)?;
        names.push(name)?;
    }
    Ok(Names::of(alloc, &names)?)
}

/// What stands behind the word `ring`.
#[tactic(auto, using(crate::proofs::Ends::ends, crate::proofs::Ends::goes_on), unfolding(crate::specs::Ring::ring))]
pub(crate) fn ring(alloc: Global, reader: &mut Reader) -> Result<Session, LineRefusal>
    ensures { Makes (λ S. S) result (ring reader.old) }
{
    let prime = prime(reader)?;
    let variables = variables(alloc, reader)?;
    at_end(reader)?;
    Ok(Session::new(alloc, prime, variables))
}
