//! A session as far as it is read, and the look-up of its names.
ghost use Rattle.std.specs.Prelude.{◌≡◌, ◌+◌, ◌<◌, ◌≤◌, ◌++◌, ◌∷◌, [], length, Contains, OnOk, IfOk};
ghost use Rattle.fj_coeff.specs.Field.{primes};
ghost use Rattle.fj_text.specs.Seen.{seen};
ghost use Rattle.fj_text.specs.Token.{HasWord};
ghost use Rattle.fj_text.specs.Word.{IsWord, place_of};
ghost use Rattle.fj_script.specs.Names.{declared, declared_as, declared_by, declared_names, ideal, is_variable, nonconstant, point_by, polynomial};
ghost use Rattle.fj_script.specs.Seen.{Gives, seen as value_seen};
ghost use Rattle.fj_script.specs.Session.{ask, declare, new_session};

use super::fault::{FaultKind, LineFault, fault_at, not_here};
use super::items::word_of;
use super::question::{Asked, Question};
use super::value::{Kind, Value, ValueList};
use fj_plain::OrderName;
use fj_text::{Meaning, Names, Reader, Scope, Token};
use std::alloc::{AllocError, Global};
use std::marker::Model;

/// The turn budget where none is stated.
const BUDGET: u64 = 100000;

/// The ring, the values by their names, how many terms they have, the printing order and the turn budget of the questions
/// that follow, and the questions.
#[derive(Drop)]
pub(crate) struct Session {
    pub(crate) prime: u64,
    pub(crate) variables: Names,
    pub(crate) values: ValueList,
    pub(crate) terms: usize,
    pub(crate) order: OrderName,
    pub(crate) budget: u64,
    pub(crate) asked: Vec<Asked>,
}

impl Model for Session {
    ghost use Rattle.fj_script.specs.Session as spec;
    ghost use Rattle.fj_script.specs.Limits.{IsSession};
    ghost use Rattle.fj_script.specs.Seen.{seen_values};

    ghost Value = { spec.Session };

    ghost view = { λ s. record { prime = s.prime; variables = s.variables; values = seen_values s.values; terms = s.terms; order = s.order; budget = s.budget; asked = s.asked.items } };

    ghost invariant = { λ s. IsSession s.prime s.terms s.asked.items };
}

impl Session {
    /// A session with a ring, and nothing declared or asked.
    pub(crate) fn new(alloc: Global, prime: u64, variables: Names) -> Session
        requires { Contains primes prime }
        ensures { result ≡ new_session prime variables }
    {
        Session {
            prime,
            variables,
            values: ValueList::new(alloc),
            terms: 0,
            order: OrderName::Grevlex,
            budget: BUDGET,
            asked: Vec::new(alloc),
        }
    }

    /// The prime.
    pub(crate) fn prime(&self) -> u64
        ensures value { result ≡ self.now.prime }
        ensures prime { Contains primes result }
    {
        self.prime
    }

    /// The terms of all declared polynomials and generators.
    pub(crate) fn terms(&self) -> usize
        ensures value { result ≡ self.now.terms }
        ensures limit { result ≤ 1000000 }
    {
        self.terms
    }

    /// Whether a word is a variable.
    pub(crate) fn is_variable(&self, word: &[u8]) -> bool
        ensures { result ≡ is_variable self.now word.now }
    {
        match self.variables.meaning(word) {
            Meaning::Variable(_) => true,
            Meaning::OtherKind => false,
            Meaning::Unknown => false,
        }
    }

    /// The place and the kind of a declared name.
    #[tactic(auto, unfolding(crate::specs::Names::declared_as))]
    fn declared_as(&self, word: &[u8]) -> Option<(u32, Kind)>
        ensures { result ≡ declared_as self.now word.now }
    {
        let (place, value) = self.values.find(word)?;
        Some((place as u32, value.kind()))
    }

    /// A declared name, where this token is one.
    #[tactic(auto, unfolding(crate::specs::Names::declared_by))]
    fn declared_by(&self, token: Token, reader: &Reader) -> Result<(u32, Kind), LineFault>
        requires { HasWord (seen token) }
        ensures { Gives (λ v. v) result reader.now (declared_by self.now (seen token.entry) reader.now) }
    {
        let word = word_of(token, reader)?;
        match self.declared_as(word) {
            Some(found) => Ok(found),
            None => {
                if self.is_variable(word) {
                    Err(fault_at(FaultKind::Kind, reader))
                } else {
                    Err(fault_at(FaultKind::Unknown, reader))
                }
            }
        }
    }

    /// The declared name that has to be next.
    #[tactic(auto, unfolding(crate::specs::Names::declared))]
    pub(crate) fn declared(&self, reader: &mut Reader) -> Result<(u32, Kind), LineFault>
        ensures { Gives (λ v. v) result reader.new (declared self.now reader.old) }
    {
        let Some(token) = reader.take() else {
            return Err(not_here(reader));
        };
        self.declared_by(token, reader)
    }

    /// The polynomial whose name has to be next.
    #[tactic(auto, unfolding(crate::specs::Names::polynomial))]
    pub(crate) fn polynomial(&self, reader: &mut Reader) -> Result<u32, LineFault>
        ensures { Gives (λ v. v) result reader.new (polynomial self.now reader.old) }
    {
        let (place, kind) = self.declared(reader)?;
        match kind {
            Kind::Nonconstant => Ok(place),
            Kind::Constant => Ok(place),
            Kind::Ideal => Err(fault_at(FaultKind::Kind, reader)),
            Kind::Point => Err(fault_at(FaultKind::Kind, reader)),
        }
    }

    /// The nonconstant polynomial whose name has to be next.
    #[tactic(auto, unfolding(crate::specs::Names::nonconstant))]
    pub(crate) fn nonconstant(&self, reader: &mut Reader) -> Result<u32, LineFault>
        ensures { Gives (λ v. v) result reader.new (nonconstant self.now reader.old) }
    {
        let (place, kind) = self.declared(reader)?;
        match kind {
            Kind::Nonconstant => Ok(place),
            Kind::Constant => Err(fault_at(FaultKind::Constant, reader)),
            Kind::Ideal => Err(fault_at(FaultKind::Kind, reader)),
            Kind::Point => Err(fault_at(FaultKind::Kind, reader)),
        }
    }

    /// The ideal whose name has to be next.
    #[tactic(auto, unfolding(crate::specs::Names::ideal))]
    pub(crate) fn ideal(&self, reader: &mut Reader) -> Result<u32, LineFault>
        ensures { Gives (λ v. v) result reader.new (ideal self.now reader.old) }
    {
        let (place, kind) = self.declared(reader)?;
        match kind {
            Kind::Ideal => Ok(place),
            Kind::Nonconstant => Err(fault_at(FaultKind::Kind, reader)),
            Kind::Constant => Err(fault_at(FaultKind::Kind, reader)),
            Kind::Point => Err(fault_at(FaultKind::Kind, reader)),
        }
    }

    /// The point, where this token is its name.
    #[tactic(auto, unfolding(crate::specs::Names::point_by))]
    pub(crate) fn point_by(&self, token: Token, reader: &Reader) -> Result<u32, LineFault>
        requires { HasWord (seen token) }
        ensures { Gives (λ v. v) result reader.now (point_by self.now (seen token.entry) reader.now) }
    {
        let (place, kind) = self.declared_by(token, reader)?;
        match kind {
            Kind::Point => Ok(place),
            Kind::Nonconstant => Err(fault_at(FaultKind::Kind, reader)),
            Kind::Constant => Err(fault_at(FaultKind::Kind, reader)),
            Kind::Ideal => Err(fault_at(FaultKind::Kind, reader)),
        }
    }

    /// Declares a name, with so many terms that count for the limit on all terms.
    pub(crate) fn declare(
        &mut self,
        alloc: Global,
        name: &[u8],
        value: Value,
        terms: usize,
    ) -> Result<(), AllocError>
        requires word { IsWord name.now }
        requires new { place_of (declared_names self.old.values) name.now ≡ None }
        requires few { length self.old.values < 4096 }
        requires limit { self.old.terms + terms ≤ 1000000 }
        ensures { OnOk result (self.new ≡ declare self.old name.now (value_seen value) terms) }
    {
        self.values.declare(alloc, name, value)?;
        self.terms += terms;
        Ok(())
    }

    /// Appends a question.
    pub(crate) fn ask(&mut self, question: Question) -> Result<(), AllocError>
        requires { length self.old.asked < 4096 }
        ensures { OnOk result (self.new ≡ ask self.old question) }
    {
        let number = self.asked.len() as u32 + 1;
        self.asked.push(Asked {
            number,
            order: self.order,
            budget: self.budget,
            question,
        })?;
        Ok(())
    }
}

impl Scope for Session {
    ghost use Rattle.fj_script.specs.Names.{meaning};

    ghost meaning = { λ S word. meaning S word };

    fn meaning(&self, word: &[u8]) -> Meaning {
        match self.variables.meaning(word) {
            Meaning::Variable(place) => Meaning::Variable(place),
            Meaning::OtherKind => Meaning::OtherKind,
            Meaning::Unknown => {
                if self.values.find(word).is_some() {
                    Meaning::OtherKind
                } else {
                    Meaning::Unknown
                }
            }
        }
    }
}
