//! What declared names stand for.
ghost use Rattle.std.specs.Prelude.{◌≡◌, ◌+◌, ◌<◌, ◌≤◌, ◌++◌, ◌∷◌, [], ℕ, nat_lt, length, map, slice_get, OnOk, None, Some, IfSome};
ghost use Rattle.std.specs.Option.{option_map};
ghost use Rattle.fj_theory.specs.Exponents.{total};
ghost use Rattle.fj_text.specs.Word.{IsWord, place_of};
ghost use Rattle.fj_script.specs.Names.{declared_names};
ghost use Rattle.fj_script.specs.Session.{is_nonconstant, kind};
ghost use Rattle.fj_script.specs.Seen.{seen, seen_values};

use super::question::Question;
use fj_plain::{PlainList, PlainPoint, PlainPoly, PlainTerm};
use indexmap::IndexMap;
use std::alloc::{AllocError, Global};
use std::marker::Model;

/// The most names that are declared.
pub(crate) const MAX_VALUES: usize = 4096;

/// What a declared name stands for. The terms of polynomials fall in Grevlex.
#[derive(Debug, Drop)]
pub enum Value {
    Poly(PlainPoly),
    /// The generators of an ideal.
    Ideal(PlainList),
    /// The coordinates of a point, one for each variable.
    Point(PlainPoint),
    /// The ideal that a question has as its answer, where each basis run has at most so many turns.
    Let { budget: u64, question: Question },
}

/// The kinds of values, as places tell them apart.
#[derive(Clone, Copy)]
pub enum Kind {
    Constant,
    Nonconstant,
    Ideal,
    Point,
}

/// Whether a term has a degree above 0.
fn has_variable(term: &PlainTerm) -> bool
    ensures { result ≡ nat_lt 0 (total term.now.exps) }
{
    term.exps.iter().any(|e| *e > 0)
}

/// Whether a polynomial has a term with a degree above 0.
fn is_nonconstant(f: &PlainPoly) -> bool
    ensures { result ≡ is_nonconstant f.now.terms }
{
    for i in 0..f.len() {
        if has_variable(f.get(i)) {
            return true;
        }
    }
    false
}

impl Value {
    /// The kind of the value.
    pub(crate) fn kind(&self) -> Kind
        ensures { result ≡ kind (seen self.now) }
    {
        match self {
            Value::Poly(f) => {
                if is_nonconstant(f) {
                    Kind::Nonconstant
                } else {
                    Kind::Constant
                }
            }
            Value::Ideal(_) => Kind::Ideal,
            Value::Point(_) => Kind::Point,
            Value::Let { .. } => Kind::Ideal,
        }
    }
}

/// The declared names of a session with their values, in order of declaration: at most 4,096. Look-ups are by hash.
#[derive(Drop)]
pub struct ValueList {
    entries: IndexMap<Vec<u8>, Value>,
}

impl Model for ValueList {
    ghost use Rattle.std.specs.Prelude.{List, ℕ, ◌≤◌, length, map, All};
    ghost use Rattle.fj_text.specs.Word.{IsWord};
    ghost use Rattle.fj_script.specs.declared.value.Value as held;

    ghost Value = { List (List ℕ × held.Value) };

    ghost view = { λ l. map (λ e. (e.0.items, e.1)) l.entries.entries };

    ghost invariant = { λ l. All (λ e. IsWord e.0.items) l.entries.entries × (length l.entries.entries ≤ 4096) };
}

impl ValueList {
    /// No value.
    pub(crate) fn new(alloc: Global) -> ValueList
        ensures { result ≡ [] }
    {
        ValueList {
            entries: IndexMap::new(alloc),
        }
    }

    /// The number of values.
    pub fn len(&self) -> usize
        ensures length { result ≡ length self.now }
        ensures few { result ≤ 4096 }
    {
        self.entries.len()
    }

    /// The name and the value at place i.
    pub fn get(&self, i: usize) -> (&str, &Value)
        requires { i < length self.now }
        ensures { slice_get self.now i ≡ Some (result.0.now, result.1.now) }
    {
        let (name, value) = self.entries.get_index(i).unwrap();
        (str::from_utf8(name).unwrap(), value)
    }

    /// The place of a name and its value.
    pub(crate) fn find(&self, name: &[u8]) -> Option<(usize, &Value)>
        ensures place { option_map (λ v. v.0) result ≡ place_of (declared_names (seen_values self.now)) name.now }
        ensures value { IfSome result (λ v. slice_get (seen_values self.now) v.0 ≡ Some (name.now, seen v.1.now)) }
        ensures few { IfSome result (λ v. v.0 < 4096) }
    {
        let (place, _, value) = self.entries.get_full(name)?;
        Some((place, value))
    }

    /// Declares a name, which isn't declared yet.
    pub(crate) fn declare(
        &mut self,
        alloc: Global,
        name: &[u8],
        value: Value,
    ) -> Result<(), AllocError>
        requires word { IsWord name.now }
        requires new { place_of (declared_names (seen_values self.old)) name.now ≡ None }
        requires few { length self.old < 4096 }
        ensures { OnOk result (self.new ≡ self.old ++ (name.now, value) ∷ []) }
    {
        let name = name.to_vec(alloc)?;
        self.entries.insert(name, value)?;
        Ok(())
    }
}
