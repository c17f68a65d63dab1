//! The answers to the questions of a session.
ghost use Rattle.std.specs.Prelude.{◌≡◌, ◌⊎◌, IfOk, List, OnErr, length, map};
ghost use Rattle.fj_coeff.specs.PrimeField.{prime_field};
ghost use Rattle.fj_plain.specs.declared.cert.Cert.{Cert};
ghost use Rattle.fj_audit.specs.Handing.{AreShownAll, AreShownFront};
ghost use Rattle.fj_session.specs.Answer.{AnswerUsesFirst, Certifies, IsAnswer};
ghost use Rattle.fj_session.specs.declared.types.Answer as types;
ghost use Rattle.fj_ideal.specs.Stop.{IsWritten};
ghost use Rattle.fj_shell.specs.Asked.{AreOfOneSession};
ghost use Rattle.fj_session.specs.Names.{AreAtHand, values_kept};
ghost use Rattle.fj_session.specs.Outcome.{IsCertifiedOver, IsFound, IsHandedOn, IsJudged, IsPlainIdeal, IsPrinted, IsPrintedAfter, IsPrintedRoot, IsToldStop};
ghost use Rattle.fj_session.specs.Statement.{meaning_of};
ghost use Rattle.fj_session.specs.Used.{HasValues};

use super::asked::asked_ideal;
use super::certified::Certified;
use super::ideals::{is_member, root_with_parts, same};
use super::jumps::jumps;
use super::lets::names_of;
use super::limits::{is_jump, is_regular};
use super::names::Names;
use super::part_rows::part_rows;
use super::shown::{shown_basis, shown_kept};
use super::splittings::{is_compatible, is_pure, is_pure_at};
use super::thresholds::{nu, threshold, threshold_at};
use super::types::Answer;
use fj_audit::{Auditor, hand_on_all};
use fj_basis::Stop;
use fj_coeff::{Coeff, OverField, over_prime_field};
use fj_ideal::Ideal;
use fj_plain::{Cert, OrderName};
use fj_script::{Asked, Env, Question};
use fj_shell::polynomial_at;
use std::alloc::{AllocError, Global};

/// The answer to a question of a session, over the prime field GF(p) of its ring.
///
/// - `parts e F`: the polynomials h_a with F = sum over a of h_a^q * x^a, a over the exponent lists with entries below
///   q = p^e (Blickle, Mustață and Smith 2008). Those that aren't zero are answered, their residues a rising in Lex and their
///   terms falling in the printing order of the question.
/// - `basis J`, `sum J K`, `product J K`, `power e J`, `root e J`: J, the sum, the product, the Frobenius power and the
///   Frobenius root, by their reduced bases for the printing order, the terms of each member falling in it.
/// - `meet J K`, `colon J K`: the meet and the quotient J : K, the same way (Cox, Little and O'Shea 2015, chapter 4).
/// - `test F t`, `left F t`: the test ideal of F^t, and the limit from the left of the test ideals of F at t, the same way.
/// - `member F J`, `same J K`: whether F is in J, whether J and K are one ideal.
/// - `isjump F t`, `regular F t`: whether t is an F-jumping number of F, whether 1 is in the test ideal of F^t.
/// - `fpure J`: whether the ring of polynomials modulo J is F-pure (Hochster and Roberts 1976, Fedder 1983). `fpure J P`:
///   whether it is so at the point P, and `Off` where P isn't a zero of J. `split J`: the root at 1 of J^[p] : J, by its
///   reduced basis for the printing order.
/// - `compatible e U J`: whether J is compatible with U at e (Schwede 2009).
/// - `jumps F E`: the F-jumping numbers of F among the candidates C_E, rising, each with its test ideal; the gaps between 0 and
///   the candidates in which the test ideal changes, rising; and whether there is no such gap. Then the F-jumping numbers in
///   (0, 1] are those of the list and no other.
/// - `nu e F J`: the greatest r such that F^r isn't in the Frobenius power J^[q], q = p^e (Mustață, Takagi and Watanabe 2005);
///   `Unit` exactly where J has 1, `NotIn` exactly where J is proper and F isn't in it.
/// - `threshold F J E`: the F-threshold of F at J, the same way `Unit` or `NotIn`, else `At` where it is a candidate of C_E, and
///   `Between` exactly where no candidate is the threshold, with the gap that has it inside. `threshold F P E`: that at the
///   ideal of the point P, and `Off` where F isn't zero at P (Takagi and Watanabe 2004).
///
/// J and K are ideals that are declared by generators, or lets: the value of a let is the reduced Grevlex basis of the ideal
/// that its question asks for, each let in it standing for its value. In a call the lets that the question uses, itself or
/// through others, are calculated once each, in order of declaration, and no other let.
///
/// The question stops only where a run on one of its lists, which is kept with its order, makes all turns of the question's
/// budget and leaves pairs pending (`StoppedPairs`), or comes to a sugar above 2^40, or where a product of it has a term of a
/// total degree above 2^40 (`StoppedHigh`; of a product its polynomials are kept). The lists are those that the question
/// names, as declared, then the one of its ideal, made of reduced Grevlex bases, and last, where the printing order isn't
/// Grevlex, the reduced Grevlex basis of each ideal that is printed. The value of a let is no list. Before them stand the lists
/// of each let that the question uses, with the budget of that let, without one for a printing order. The terms of what is kept
/// fall in the printing order.
///
/// Nothing past the variables of the ring occurs in an answer that doesn't stop.
///
/// Each certificate of the answer is handed to the auditors that remain, in order: one of the basis of each ideal that is
/// printed, in printed order; for `root` before it one of the parts of the reduced basis of J; for `same` that answers yes one
/// that both lists generate one ideal. A question that stops has none. After want of memory each auditor that remains may have
/// noted the first of them, all the same number or one more.
///
/// Condition: both are from one accepted session.
pub fn answer(
    alloc: Global,
    env: &Env,
    asked: &Asked,
    auditors: &mut Vec<Box<dyn Auditor>>,
) -> Result<Answer, AllocError>
    requires { AreOfOneSession env.now asked.now }
    ensures answer { IfOk result (IsAnswer env.now asked.now) }
    ensures variables { IfOk result (AnswerUsesFirst (length env.now.vars)) }
    ensures certificates { IfOk result (λ a. (certs : List Cert) × Certifies env.now asked.now a certs
        × AreShownAll certs (map account auditors.old.items) (map account auditors.new.items)) }
    ensures wanting { OnErr result ((map account auditors.new.items ≡ map account auditors.old.items)
        ⊎ ((a : types.Answer) × IsAnswer env.now asked.now a × ((certs : List Cert) × Certifies env.now asked.now a certs
        × AreShownFront certs (map account auditors.old.items) (map account auditors.new.items)))) }
{
    let certified = prime_answer(alloc, env, asked)?;
    hand_on_all(alloc, auditors, &certified.certificates)?;
    Ok(certified.answer)
}

/// Answering a question of a session.
#[derive(Drop)]
struct Answering<'s> {
    alloc: Global,
    env: &'s Env,
    asked: &'s Asked,
}

impl OverField for Answering<'_> {
    type Output = Result<Certified, AllocError>;

    ghost can = { λ work F. AreOfOneSession work.env.now work.asked.now × (F ≡ prime_field work.env.now.p) };

    ghost does = { λ work F answer after. IfOk answer (IsCertifiedOver F work.env.now work.asked.now) };

    fn over<K: Coeff>(&mut self) -> Result<Certified, AllocError> {
        field_answer::<K>(self.alloc, self.env, self.asked)
    }
}

/// The answer over GF(p), with its certificates.
fn prime_answer(alloc: Global, env: &Env, asked: &Asked) -> Result<Certified, AllocError>
    requires { AreOfOneSession env.now asked.now }
    ensures { IfOk result (IsCertifiedOver (prime_field env.now.p) env.now asked.now) }
{
    over_prime_field(env.p, &mut Answering { alloc, env, asked })
}

/// The answer over a field with its certificates, or that it stops.
fn field_answer<K: Coeff>(alloc: Global, env: &Env, asked: &Asked) -> Result<Certified, AllocError>
    requires session { AreOfOneSession env.now asked.now }
    requires field { K.field ≡ prime_field env.now.p }
    ensures { IfOk result (IsCertifiedOver K.field env.now asked.now) }
{
    match names_of::<K>(alloc, env, &asked.question) {
        Ok(names) => answer_over(alloc, &names, asked),
        Err(stop) => stopped::<K>(alloc, &stop, asked.order),
    }
}

/// The same, where the lets that the question uses have their values.
fn answer_over<K: Coeff>(
    alloc: Global,
    names: &Names<K>,
    asked: &Asked,
) -> Result<Certified, AllocError>
    requires session { AreOfOneSession names.now.env.now asked.now }
    requires field { K.field ≡ prime_field names.now.env.now.p }
    requires values { HasValues K.field names.now.env.now asked.now.question names.now }
    ensures { IfOk result (IsCertifiedOver K.field names.now.env.now asked.now) }
{
    match found(alloc, names, asked) {
        Ok(certified) => Ok(certified),
        Err(stop) => stopped::<K>(alloc, &stop, asked.order),
    }
}

/// The answer that tells a stop, whose list is kept in the printing order.
fn stopped<K: Coeff>(alloc: Global, stop: &Stop, order: OrderName) -> Result<Certified, AllocError>
    requires { IsWritten K.field stop.now }
    ensures { IfOk result (IsToldStop order stop.now) }
{
    match stop {
        Stop::Pairs(kept) => {
            let again = shown_kept::<K>(alloc, kept, order)?;
            Ok(Certified::without(alloc, Answer::StoppedPairs(again)))
        }
        Stop::High(kept) => {
            let again = shown_kept::<K>(alloc, kept, order)?;
            Ok(Certified::without(alloc, Answer::StoppedHigh(again)))
        }
        Stop::Product(kept) => {
            let again = shown_kept::<K>(alloc, kept, order)?;
            Ok(Certified::without(alloc, Answer::StoppedHigh(again)))
        }
        Stop::Memory => Err(AllocError),
    }
}

/// The answer over a field with its certificates, or why it stops.
fn found<K: Coeff>(alloc: Global, names: &Names<K>, asked: &Asked) -> Result<Certified, Stop>
    requires session { AreOfOneSession names.now.env.now asked.now }
    requires field { K.field ≡ prime_field names.now.env.now.p }
    requires prime { K.SIZE ≡ K.P }
    requires at_hand { AreAtHand K.field names.now asked.now.question }
    ensures { IsFound K.field (meaning_of K.field names.now.env.now (values_kept names.now.lets.items) asked.now.order asked.now.question) asked.now.order asked.now.budget result }
{
    let env = names.env;
    let budget = asked.budget;
    match asked.question {
        Question::Parts { e, f } => {
            let f = polynomial_at(env, f);
            let rows = part_rows::<K>(alloc, asked.order, e, f)?;
            Ok(Certified::without(alloc, Answer::Parts(rows)))
        }
        Question::Root { e, j } => {
            printed_root(alloc, asked, root_with_parts(alloc, names, budget, e, j))
        }
        Question::Member { f, j } => judged(alloc, is_member(alloc, names, budget, f, j)),
        Question::Same { j, k } => same(alloc, names, budget, j, k),
        Question::IsJump { f, t } => judged(alloc, is_jump::<K>(alloc, env, budget, f, &t)),
        Question::Regular { f, t } => judged(alloc, is_regular::<K>(alloc, env, budget, f, &t)),
        Question::Pure { j } => judged(alloc, is_pure(alloc, names, budget, j)),
        Question::PureAt { j, at } => alone(alloc, is_pure_at(alloc, names, budget, j, at)),
        Question::Compatible { e, u, j } => {
            judged(alloc, is_compatible(alloc, names, budget, e, u, j))
        }
        Question::Nu { e, f, j } => alone(alloc, nu(alloc, names, budget, e, f, j)),
        Question::Jumps { f, e } => jumps::<K>(alloc, env, asked, f, e),
        Question::Threshold { f, j, e } => alone(alloc, threshold(alloc, names, budget, f, j, e)),
        Question::ThresholdAt { f, at, e } => {
            alone(alloc, threshold_at::<K>(alloc, env, budget, f, at, e))
        }
        Question::Basis { .. }
        | Question::Sum { .. }
        | Question::Product { .. }
        | Question::Meet { .. }
        | Question::Colon { .. }
        | Question::Power { .. }
        | Question::Test { .. }
        | Question::Left { .. }
        | Question::Split { .. } => printed_ideal(alloc, names, asked),
    }
}

/// The answer that is the ideal that a question asks for.
fn printed_ideal<K: Coeff>(
    alloc: Global,
    names: &Names<K>,
    asked: &Asked,
) -> Result<Certified, Stop>
    requires session { AreOfOneSession names.now.env.now asked.now }
    requires field { K.field ≡ prime_field names.now.env.now.p }
    requires prime { K.SIZE ≡ K.P }
    requires ideal { IsPlainIdeal asked.now.question }
    requires at_hand { AreAtHand K.field names.now asked.now.question }
    ensures { IsFound K.field (meaning_of K.field names.now.env.now (values_kept names.now.lets.items) asked.now.order asked.now.question) asked.now.order asked.now.budget result }
{
    let ideal = asked_ideal(alloc, names, asked.budget, &asked.question);
    printed(alloc, asked, ideal)
}

/// The answer that an ideal is, for the printing order of the question.
fn printed<K: Coeff>(
    alloc: Global,
    asked: &Asked,
    ideal: Result<Ideal<K>, Stop>,
) -> Result<Certified, Stop>
    requires { K.SIZE ≡ K.P }
    ensures { IsPrinted K.field asked.now.order asked.now.budget ideal result }
{
    printed_after(alloc, asked, &ideal?, Vec::new(alloc))
}

/// The answer that a root is, after the certificate of the parts of which it is made.
fn printed_root<K: Coeff>(
    alloc: Global,
    asked: &Asked,
    root: Result<(Ideal<K>, Cert), Stop>,
) -> Result<Certified, Stop>
    requires { K.SIZE ≡ K.P }
    ensures { IsPrintedRoot K.field asked.now.order asked.now.budget root result }
{
    let (ideal, parts) = root?;
    printed_after(alloc, asked, &ideal, vec![in alloc; parts]?)
}

/// The answer that an ideal is, its certificate after these.
fn printed_after<K: Coeff>(
    alloc: Global,
    asked: &Asked,
    ideal: &Ideal<K>,
    before: Vec<Cert>,
) -> Result<Certified, Stop>
    requires { K.SIZE ≡ K.P }
    ensures { IsPrintedAfter K.field asked.now.order asked.now.budget ideal.now before.items result }
{
    let (list, cert) = shown_basis(alloc, ideal, asked.order, asked.budget)?;
    let mut certificates = before;
    certificates.push(cert)?;
    Ok(Certified {
        answer: Answer::Ideal(list),
        certificates,
    })
}

/// The answer yes, or no.
fn judged(alloc: Global, verdict: Result<bool, Stop>) -> Result<Certified, Stop>
    ensures { IsJudged verdict result }
{
    let holds = verdict?;
    let answer = if holds { Answer::Yes } else { Answer::No };
    Ok(Certified::without(alloc, answer))
}

/// An answer that shows no ideal.
fn alone(alloc: Global, answer: Result<Answer, Stop>) -> Result<Certified, Stop>
    ensures { IsHandedOn answer result }
{
    Ok(Certified::without(alloc, answer?))
}
