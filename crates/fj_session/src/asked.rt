//! The ideal that a question asks for.
ghost use Rattle.std.specs.Prelude.{◌≡◌, IfOk, true};
ghost use Rattle.fj_coeff.specs.PrimeField.{prime_field};
ghost use Rattle.fj_plain.specs.declared.order_name.OrderName.TheVariants.{Grevlex};
ghost use Rattle.fj_script.specs.Question.{answers_ideal};
ghost use Rattle.fj_session.specs.Names.{AreAtHand, values_kept};
ghost use Rattle.fj_session.specs.Outcome.{IsIdealFor, StopsFor};
ghost use Rattle.fj_session.specs.Standing.{IsStated};
ghost use Rattle.fj_session.specs.Statement.{meaning_of};

use super::ideals::{colon, meet, power, product, root, sum};
use super::limits::{left, test};
use super::names::Names;
use super::splittings::split;
use fj_basis::Stop;
use fj_coeff::Coeff;
use fj_ideal::Ideal;
use fj_script::Question;
use std::alloc::Global;

/// The ideal that a question asks for, before it is printed.
pub(crate) fn asked_ideal<K: Coeff>(
    alloc: Global,
    names: &Names<K>,
    budget: u64,
    question: &Question,
) -> Result<Ideal<K>, Stop>
    requires field { K.field ≡ prime_field names.now.env.now.p }
    requires stated { IsStated names.now.env.now question.now }
    requires ideal { answers_ideal question.now ≡ true }
    requires at_hand { AreAtHand K.field names.now question.now }
    ensures ideal { IfOk result (IsIdealFor K.field (meaning_of K.field names.now.env.now (values_kept names.now.lets.items) Grevlex question.now).ideal (meaning_of K.field names.now.env.now (values_kept names.now.lets.items) Grevlex question.now).last) }
    ensures stop { StopsFor K.field (meaning_of K.field names.now.env.now (values_kept names.now.lets.items) Grevlex question.now) budget result }
{
    match *question {
        Question::Basis { j } => names.own_ideal(alloc, budget, j),
        Question::Sum { j, k } => sum(alloc, names, budget, j, k),
        Question::Product { j, k } => product(alloc, names, budget, j, k),
        Question::Meet { j, k } => meet(alloc, names, budget, j, k),
        Question::Colon { j, k } => colon(alloc, names, budget, j, k),
        Question::Power { e, j } => power(alloc, names, budget, e, j),
        Question::Root { e, j } => root(alloc, names, budget, e, j),
        Question::Test { f, t } => test(alloc, names.env, budget, f, &t),
        Question::Left { f, t } => left(alloc, names.env, budget, f, &t),
        Question::Split { j } => split(alloc, names, budget, j),
        Question::Parts { .. } => unreachable!(),
        Question::Member { .. } => unreachable!(),
        Question::Same { .. } => unreachable!(),
        Question::IsJump { .. } => unreachable!(),
        Question::Regular { .. } => unreachable!(),
        Question::Jumps { .. } => unreachable!(),
        Question::Nu { .. } => unreachable!(),
        Question::Threshold { .. } => unreachable!(),
        Question::ThresholdAt { .. } => unreachable!(),
        Question::Pure { .. } => unreachable!(),
        Question::PureAt { .. } => unreachable!(),
        Question::Compatible { .. } => unreachable!(),
    }
}
