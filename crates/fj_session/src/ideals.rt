//! The ideals that questions ask for, and what questions ask of ideals.
//!
//! The lists whose bases a question needs are run in order, and each of them once, so that the calculation stops at the
//! first list that stops.
ghost use Rattle.std.specs.Prelude.{◌≡◌, ◌++◌, ◌≤◌, ◌^◌, All, IfOk, MatchBool, MatchOption};
ghost use Rattle.fj_coeff.specs.PrimeField.{prime_field};
ghost use Rattle.fj_theory.specs.Colon.{IsColon, IsMeet};
ghost use Rattle.fj_theory.specs.FrobeniusPower as theory;
ghost use Rattle.fj_theory.specs.Ideal.{Member, products};
ghost use Rattle.fj_theory.specs.Root.{IsRoot};
ghost use Rattle.fj_plain.specs.Holds.{Holds};
ghost use Rattle.fj_ideal.specs.Ideal.{IsIdealOf};
ghost use Rattle.fj_ideal.specs.Lists.{NoProduct};
ghost use Rattle.fj_ideal.specs.Stop.{StopsOnlyWith};
ghost use Rattle.fj_shell.specs.Asked.{IsPolyAt};
ghost use Rattle.fj_shell.specs.Named.{polynomial_at};
ghost use Rattle.fj_session.specs.Ideals.{CertifiesParts, IsDeclared, IsHighOfColon, IsHighOfMeet, IsHighOfPower, IsHighOfProduct, IsLastOfColon, IsLastOfMeet, IsLastOfPower, IsLastOfProduct, IsLastOfRoot, IsLastOfSum, IsListOfColon, IsListOfMeet, IsListOfPower, IsListOfProduct, IsListOfRoot, IsListOfSum};
ghost use Rattle.fj_session.specs.Names.{IsAtHand, ideal_of, standing_in};
ghost use Rattle.fj_session.specs.Standing.{IsDeclaredList};
ghost use Rattle.fj_session.specs.Outcome.{IsCompared, IsIdealFor, OwnStops};

use super::certified::Certified;
use super::names::{Names, Standing};
use super::types::Answer;
use fj_basis::Stop;
use fj_coeff::Coeff;
use fj_frobenius::{frobenius_power, frobenius_root, root_cert};
use fj_ideal::Ideal;
use fj_plain::Cert;
use fj_poly::Poly;
use fj_shell::polynomial_at;
use std::alloc::{AllocError, Global};

/// The ideal of the second name, unless it is the first one again.
fn other<'n, K: Coeff>(
    alloc: Global,
    names: &'n Names<K>,
    budget: u64,
    j: u32,
    k: u32,
) -> Result<Option<Standing<'n, K>>, Stop>
    requires field { K.field ≡ prime_field names.now.env.now.p }
    requires named { IsAtHand K.field names.now k }
    ensures ideal { IfOk result (λ other. MatchOption other (k ≡ j) (λ J. IsIdealOf K.field (standing_in names.now k).list (ideal_of J))) }
    ensures stop { OwnStops K.field (IsDeclaredList (standing_in names.now k)) NoProduct budget result }
{
    if k == j {
        return Ok(None);
    }
    Ok(Some(names.standing(alloc, budget, k)?))
}

/// The sum of two ideals: that of the members of both bases together.
pub(crate) fn sum<K: Coeff>(
    alloc: Global,
    names: &Names<K>,
    budget: u64,
    j: u32,
    k: u32,
) -> Result<Ideal<K>, Stop>
    requires field { K.field ≡ prime_field names.now.env.now.p }
    requires first { IsAtHand K.field names.now j }
    requires second { IsAtHand K.field names.now k }
    ensures ideal { IfOk result (IsIdealFor K.field (λ M. M ≡ (standing_in names.now j).list ++ (standing_in names.now k).list) (IsLastOfSum K.field (standing_in names.now j).list (standing_in names.now k).list)) }
    ensures stop { OwnStops K.field (IsListOfSum K.field (standing_in names.now j) (standing_in names.now k)) NoProduct budget result }
{
    let first = names.standing(alloc, budget, j)?;
    let first = first.ideal();
    match other(alloc, names, budget, j, k)? {
        Some(second) => first.sum(alloc, second.ideal(), budget),
        None => first.sum(alloc, first, budget),
    }
}

/// The product of two ideals: that of the products of a member of each basis.
pub(crate) fn product<K: Coeff>(
    alloc: Global,
    names: &Names<K>,
    budget: u64,
    j: u32,
    k: u32,
) -> Result<Ideal<K>, Stop>
    requires field { K.field ≡ prime_field names.now.env.now.p }
    requires first { IsAtHand K.field names.now j }
    requires second { IsAtHand K.field names.now k }
    ensures ideal { IfOk result (IsIdealFor K.field (λ M. M ≡ products K.field (standing_in names.now j).list (standing_in names.now k).list) (IsLastOfProduct K.field (standing_in names.now j).list (standing_in names.now k).list)) }
    ensures stop { OwnStops K.field (IsListOfProduct K.field (standing_in names.now j) (standing_in names.now k)) (IsHighOfProduct K.field (standing_in names.now j).list (standing_in names.now k).list) budget result }
{
    let first = names.standing(alloc, budget, j)?;
    let first = first.ideal();
    match other(alloc, names, budget, j, k)? {
        Some(second) => first.product(alloc, second.ideal(), budget),
        None => first.product(alloc, first, budget),
    }
}

/// The meet of two ideals.
pub(crate) fn meet<K: Coeff>(
    alloc: Global,
    names: &Names<K>,
    budget: u64,
    j: u32,
    k: u32,
) -> Result<Ideal<K>, Stop>
    requires field { K.field ≡ prime_field names.now.env.now.p }
    requires first { IsAtHand K.field names.now j }
    requires second { IsAtHand K.field names.now k }
    ensures ideal { IfOk result (IsIdealFor K.field (IsMeet K.field (standing_in names.now j).list (standing_in names.now k).list) (IsLastOfMeet K.field (standing_in names.now j).list (standing_in names.now k).list)) }
    ensures stop { StopsOnlyWith K.field (IsListOfMeet K.field (standing_in names.now j) (standing_in names.now k)) (IsHighOfMeet K.field (standing_in names.now j).list (standing_in names.now k).list) budget result }
{
    // The ring has at most seven variables.
    let _ = names.env.vars.len();
    let first = names.standing(alloc, budget, j)?;
    let first = first.ideal();
    match other(alloc, names, budget, j, k)? {
        Some(second) => fj_elim::meet(alloc, first, second.ideal(), budget),
        None => fj_elim::meet(alloc, first, first, budget),
    }
}

/// The quotient of two ideals.
pub(crate) fn colon<K: Coeff>(
    alloc: Global,
    names: &Names<K>,
    budget: u64,
    j: u32,
    k: u32,
) -> Result<Ideal<K>, Stop>
    requires field { K.field ≡ prime_field names.now.env.now.p }
    requires first { IsAtHand K.field names.now j }
    requires second { IsAtHand K.field names.now k }
    ensures ideal { IfOk result (IsIdealFor K.field (IsColon K.field (standing_in names.now j).list (standing_in names.now k).list) (IsLastOfColon K.field (standing_in names.now j).list (standing_in names.now k).list)) }
    ensures stop { StopsOnlyWith K.field (IsListOfColon K.field (standing_in names.now j) (standing_in names.now k)) (IsHighOfColon K.field (standing_in names.now j).list (standing_in names.now k).list) budget result }
{
    // The ring has at most seven variables.
    let _ = names.env.vars.len();
    let first = names.standing(alloc, budget, j)?;
    let first = first.ideal();
    match other(alloc, names, budget, j, k)? {
        Some(second) => fj_elim::colon(alloc, first, second.ideal(), budget),
        None => fj_elim::colon(alloc, first, first, budget),
    }
}

/// The Frobenius power of an ideal.
pub(crate) fn power<K: Coeff>(
    alloc: Global,
    names: &Names<K>,
    budget: u64,
    e: u32,
    j: u32,
) -> Result<Ideal<K>, Stop>
    requires field { K.field ≡ prime_field names.now.env.now.p }
    requires small { e ≤ 12 }
    requires named { IsAtHand K.field names.now j }
    ensures ideal { IfOk result (IsIdealFor K.field (λ M. M ≡ theory.frobenius_power K.field (K.field.characteristic ^ e) (standing_in names.now j).list) (IsLastOfPower K.field (K.field.characteristic ^ e) (standing_in names.now j).list)) }
    ensures stop { OwnStops K.field (IsListOfPower K.field (K.field.characteristic ^ e) (standing_in names.now j)) (IsHighOfPower K.field (K.field.characteristic ^ e) (standing_in names.now j).list) budget result }
{
    let ideal = names.standing(alloc, budget, j)?;
    frobenius_power(alloc, e, ideal.ideal(), budget)
}

/// The Frobenius root of an ideal.
pub(crate) fn root<K: Coeff>(
    alloc: Global,
    names: &Names<K>,
    budget: u64,
    e: u32,
    j: u32,
) -> Result<Ideal<K>, Stop>
    requires field { K.field ≡ prime_field names.now.env.now.p }
    requires small { e ≤ 12 }
    requires named { IsAtHand K.field names.now j }
    ensures ideal { IfOk result (IsIdealFor K.field (IsRoot K.field (K.field.characteristic ^ e) (standing_in names.now j).list) (IsLastOfRoot K.field (K.field.characteristic ^ e) (standing_in names.now j).list)) }
    ensures stop { OwnStops K.field (IsListOfRoot K.field (K.field.characteristic ^ e) (standing_in names.now j)) NoProduct budget result }
{
    let ideal = names.standing(alloc, budget, j)?;
    frobenius_root(alloc, e, ideal.ideal(), budget)
}

/// The Frobenius root of an ideal, and the certificate of the parts of which it is made.
pub(crate) fn root_with_parts<K: Coeff>(
    alloc: Global,
    names: &Names<K>,
    budget: u64,
    e: u32,
    j: u32,
) -> Result<(Ideal<K>, Cert), Stop>
    requires field { K.field ≡ prime_field names.now.env.now.p }
    requires prime { K.SIZE ≡ K.P }
    requires small { e ≤ 12 }
    requires named { IsAtHand K.field names.now j }
    ensures ideal { IfOk result (λ root. IsIdealFor K.field (IsRoot K.field (K.field.characteristic ^ e) (standing_in names.now j).list) (IsLastOfRoot K.field (K.field.characteristic ^ e) (standing_in names.now j).list) root.0) }
    ensures parts { IfOk result (λ root. CertifiesParts K.field e (standing_in names.now j).list root.1) }
    ensures holds { IfOk result (λ root. Holds root.1) }
    ensures stop { OwnStops K.field (IsListOfRoot K.field (K.field.characteristic ^ e) (standing_in names.now j)) NoProduct budget result }
{
    let ideal = names.standing(alloc, budget, j)?;
    let ideal = ideal.ideal();
    let root = frobenius_root(alloc, e, ideal, budget)?;
    Ok((root, root_cert(alloc, e, ideal.members())?))
}

/// Whether a polynomial is in an ideal.
pub(crate) fn is_member<K: Coeff>(
    alloc: Global,
    names: &Names<K>,
    budget: u64,
    f: u32,
    j: u32,
) -> Result<bool, Stop>
    requires field { K.field ≡ prime_field names.now.env.now.p }
    requires polynomial { IsPolyAt names.now.env.now f }
    requires named { IsAtHand K.field names.now j }
    ensures verdict { IfOk result (λ b. MatchBool b (Member K.field (standing_in names.now j).list (polynomial_at names.now.env.now f)) (Member K.field (standing_in names.now j).list (polynomial_at names.now.env.now f) → ⊥)) }
    ensures stop { OwnStops K.field (IsDeclaredList (standing_in names.now j)) NoProduct budget result }
{
    let ideal = names.standing(alloc, budget, j)?;
    let h = Poly::from_plain(alloc, polynomial_at(names.env, f))?;
    Ok(ideal.ideal().member(alloc, &h)?.is_some())
}

/// Whether two ideals are the same, with a certificate if they are.
pub(crate) fn same<K: Coeff>(
    alloc: Global,
    names: &Names<K>,
    budget: u64,
    j: u32,
    k: u32,
) -> Result<Certified, Stop>
    requires field { K.field ≡ prime_field names.now.env.now.p }
    requires prime { K.SIZE ≡ K.P }
    requires first { IsAtHand K.field names.now j }
    requires second { IsAtHand K.field names.now k }
    ensures verdict { IfOk result (IsCompared K.field (standing_in names.now j).list (standing_in names.now k).list) }
    ensures stop { OwnStops K.field (IsDeclared (standing_in names.now j) (standing_in names.now k)) NoProduct budget result }
{
    let first = names.standing(alloc, budget, j)?;
    let first = first.ideal();
    match other(alloc, names, budget, j, k)? {
        Some(second) => Ok(compared(alloc, first, second.ideal())?),
        None => Ok(compared(alloc, first, first)?),
    }
}

/// The answer whether two ideals are one, with a certificate if they are.
fn compared<K: Coeff>(
    alloc: Global,
    first: &Ideal<K>,
    second: &Ideal<K>,
) -> Result<Certified, AllocError>
    requires prime { K.SIZE ≡ K.P }
    ensures { IfOk result (IsCompared K.field first.now.given second.now.given) }
{
    if !first.same(second) {
        return Ok(Certified::without(alloc, Answer::No));
    }
    let cert = first.same_cert(alloc, second)?;
    Ok(Certified {
        answer: Answer::Yes,
        certificates: vec![in alloc; cert]?,
    })
}
