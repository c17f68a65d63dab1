//! What the names of a session stand for.
ghost use Rattle.std.specs.Prelude.{◌≡◌, ◌<◌, ◌≤◌, ◌^◌, All, length};
ghost use Rattle.fj_theory.specs.Exponents.{total};
ghost use Rattle.fj_theory.specs.Plain.{HasRanksBelow, polynomial};
ghost use Rattle.fj_shell.specs.Asked.{IsDeclaredIdealAt, IsIdealAt, IsPointAt, IsPolyAt};
ghost use Rattle.fj_shell.specs.NamedIdeal.{IsNamedIdeal};
ghost use Rattle.fj_shell.specs.Named.{ideal_at, point_at, polynomial_at, polynomials};

use fj_plain::{PlainList, PlainPoint, PlainPoly};
use fj_script::{Env, Question, Value};

/// The polynomial whose name has this place among the declared ones.
///
/// Condition: the name stands for a polynomial, as acceptance tells.
pub fn polynomial_at(env: &Env, place: u32) -> &PlainPoly
    requires { IsPolyAt env.now place }
    ensures value { polynomial result.now ≡ polynomial_at env.now place }
    ensures ranks { HasRanksBelow env.now.p result.now }
    ensures totals { All (λ t. total t.0 ≤ 2 ^ 40) result.now.terms }
{
    match env.values.get(place as usize).1 {
        Value::Poly(f) => f,
        Value::Ideal(_) => unreachable!(),
        Value::Point(_) => unreachable!(),
        Value::Let { .. } => unreachable!(),
    }
}

/// The generators of the ideal whose name has this place among the declared ones.
///
/// Condition: the name stands for an ideal that is declared by generators.
pub fn generators_at(env: &Env, place: u32) -> &PlainList
    requires { IsDeclaredIdealAt env.now place }
    ensures value { polynomials result.now ≡ ideal_at env.now place }
    ensures ranks { All (HasRanksBelow env.now.p) result.now }
    ensures totals { All (λ g. All (λ t. total t.0 ≤ 2 ^ 40) g.terms) result.now }
{
    match env.values.get(place as usize).1 {
        Value::Ideal(gens) => gens,
        Value::Poly(_) => unreachable!(),
        Value::Point(_) => unreachable!(),
        Value::Let { .. } => unreachable!(),
    }
}

/// What the name of an ideal stands for.
#[derive(Clone, Copy, Debug)]
pub enum NamedIdeal<'s> {
    /// The generators, as declared.
    Declared(&'s PlainList),
    /// The question whose answer it is, and the turn budget of each basis run for it.
    Let { budget: u64, question: &'s Question },
}

/// What the ideal whose name has this place among the declared ones was declared by.
///
/// - `Declared`: its generators.
/// - `Let`: a question that has an ideal as its answer, whose names have lower places.
///
/// Condition: the name stands for an ideal, as acceptance tells.
pub fn named_ideal_at(env: &Env, place: u32) -> NamedIdeal<'_>
    requires { IsIdealAt env.now place }
    ensures { IsNamedIdeal env.now place result }
{
    match env.values.get(place as usize).1 {
        Value::Ideal(gens) => NamedIdeal::Declared(gens),
        Value::Let { budget, question } => NamedIdeal::Let {
            budget: *budget,
            question,
        },
        Value::Poly(_) => unreachable!(),
        Value::Point(_) => unreachable!(),
    }
}

/// The coordinates of the point whose name has this place among the declared ones, one for each variable of the ring.
///
/// Condition: the name stands for a point, as acceptance tells.
pub fn point_at(env: &Env, place: u32) -> &PlainPoint
    requires { IsPointAt env.now place }
    ensures value { result.now ≡ point_at env.now place }
    ensures below { All (λ c. c < env.now.p) result.now }
    ensures long { length result.now ≡ length env.now.vars }
{
    match env.values.get(place as usize).1 {
        Value::Point(coordinates) => coordinates,
        Value::Poly(_) => unreachable!(),
        Value::Ideal(_) => unreachable!(),
        Value::Let { .. } => unreachable!(),
    }
}
