//! What questions ask of the test ideals of a polynomial.
ghost use Rattle.std.specs.Prelude.{◌≡◌, ◌*◌, ◌<◌, ◌≤◌, IfOk, MatchBool};
ghost use Rattle.fj_coeff.specs.PrimeField.{prime_field};
ghost use Rattle.fj_testideal.specs.Jump.{IsJump};
ghost use Rattle.fj_testideal.specs.TestIdeal.{IsLeftLimit, IsTestIdeal};
ghost use Rattle.fj_chain.specs.Admissible.{IsAdmissible};
ghost use Rattle.fj_chain.specs.Lists.{IsHighInJump, IsHighInLeft, IsHighInTest, IsJumpList, IsLastLeftList, IsLastTestList, IsLeftList, IsTestList};
ghost use Rattle.fj_shell.specs.Asked.{IsNonconstantAt};
ghost use Rattle.fj_shell.specs.Named.{polynomial_at};
ghost use Rattle.fj_session.specs.Limits.{IsRegularAt};
ghost use Rattle.fj_session.specs.Outcome.{IsIdealFor, OwnStops};

use fj_basis::Stop;
use fj_chain::{left_limit, test_ideal};
use fj_coeff::Coeff;
use fj_ideal::Ideal;
use fj_poly::{GPoly, Poly};
use fj_ratio::Ratio;
use fj_script::Env;
use fj_shell::polynomial_at;
use std::alloc::{AllocError, Global};

/// The polynomial of a name, which isn't constant.
pub(crate) fn nonconstant<K: Coeff>(
    alloc: Global,
    env: &Env,
    f: u32,
) -> Result<GPoly<K>, AllocError>
    requires field { K.field ≡ prime_field env.now.p }
    requires named { IsNonconstantAt env.now f }
    ensures value { IfOk result (λ p. p ≡ polynomial_at env.now f) }
    ensures admissible { IfOk result IsAdmissible }
{
    // The ring has at most seven variables.
    let _ = env.vars.len();
    Poly::from_plain(alloc, polynomial_at(env, f))
}

/// The test ideal of a polynomial at t.
pub(crate) fn test<K: Coeff>(
    alloc: Global,
    env: &Env,
    budget: u64,
    f: u32,
    t: &Ratio,
) -> Result<Ideal<K>, Stop>
    requires field { K.field ≡ prime_field env.now.p }
    requires named { IsNonconstantAt env.now f }
    requires at_most { t.now.numerator ≤ 8 * t.now.denominator }
    ensures ideal { IfOk result (IsIdealFor K.field (IsTestIdeal K.field (polynomial_at env.now f) t.now) (IsLastTestList K.field (polynomial_at env.now f) t.now)) }
    ensures stop { OwnStops K.field (IsTestList K.field (polynomial_at env.now f) t.now) (IsHighInTest K.field (polynomial_at env.now f) t.now) budget result }
{
    let polynomial = nonconstant(alloc, env, f)?;
    test_ideal(alloc, &polynomial, t, budget)
}

/// The limit from the left of the test ideals of a polynomial at t.
pub(crate) fn left<K: Coeff>(
    alloc: Global,
    env: &Env,
    budget: u64,
    f: u32,
    t: &Ratio,
) -> Result<Ideal<K>, Stop>
    requires field { K.field ≡ prime_field env.now.p }
    requires named { IsNonconstantAt env.now f }
    requires above_zero { 0 < t.now.numerator }
    requires at_most { t.now.numerator ≤ 8 * t.now.denominator }
    ensures ideal { IfOk result (IsIdealFor K.field (IsLeftLimit K.field (polynomial_at env.now f) t.now) (IsLastLeftList K.field (polynomial_at env.now f) t.now)) }
    ensures stop { OwnStops K.field (IsLeftList K.field (polynomial_at env.now f) t.now) (IsHighInLeft K.field (polynomial_at env.now f) t.now) budget result }
{
    let polynomial = nonconstant(alloc, env, f)?;
    left_limit(alloc, &polynomial, t, budget)
}

/// Whether t is an F-jumping number of a polynomial.
pub(crate) fn is_jump<K: Coeff>(
    alloc: Global,
    env: &Env,
    budget: u64,
    f: u32,
    t: &Ratio,
) -> Result<bool, Stop>
    requires field { K.field ≡ prime_field env.now.p }
    requires named { IsNonconstantAt env.now f }
    requires above_zero { 0 < t.now.numerator }
    requires at_most { t.now.numerator ≤ 8 * t.now.denominator }
    ensures verdict { IfOk result (λ b. MatchBool b (IsJump K.field (polynomial_at env.now f) t.now) (IsJump K.field (polynomial_at env.now f) t.now → ⊥)) }
    ensures stop { OwnStops K.field (IsJumpList K.field (polynomial_at env.now f) t.now) (IsHighInJump K.field (polynomial_at env.now f) t.now) budget result }
{
    let polynomial = nonconstant::<K>(alloc, env, f)?;
    fj_chain::is_jump(alloc, &polynomial, t, budget)
}

/// Whether 1 is in the test ideal of a polynomial at t.
pub(crate) fn is_regular<K: Coeff>(
    alloc: Global,
    env: &Env,
    budget: u64,
    f: u32,
    t: &Ratio,
) -> Result<bool, Stop>
    requires field { K.field ≡ prime_field env.now.p }
    requires named { IsNonconstantAt env.now f }
    requires at_most { t.now.numerator ≤ 8 * t.now.denominator }
    ensures verdict { IfOk result (λ b. MatchBool b (IsRegularAt K.field (polynomial_at env.now f) t.now) (IsRegularAt K.field (polynomial_at env.now f) t.now → ⊥)) }
    ensures stop { OwnStops K.field (IsTestList K.field (polynomial_at env.now f) t.now) (IsHighInTest K.field (polynomial_at env.now f) t.now) budget result }
{
    let polynomial = nonconstant::<K>(alloc, env, f)?;
    let ideal = test_ideal(alloc, &polynomial, t, budget)?;
    Ok(ideal.is_unit())
}
