//! Expressions, as polynomials.
ghost use Rattle.std.specs.Prelude.{◌≡◌, ◌<◌, ◌≤◌, length, List, ℕ, IfOk, IfNone, IfSome};
ghost use Rattle.fj_theory.specs.PointIdeal.{variable_exponents};
ghost use Rattle.fj_theory.specs.Polynomial.{term};
ghost use Rattle.fj_text.specs.Expression.{atom, constant, exponent_of, expression, factor, first_term, formed, parenthesised, plus_term, sum_at, taking, term_at, times_factor, variable};
ghost use Rattle.fj_text.specs.Reading.{Reads, ReadsTurn};
ghost use Rattle.fj_text.specs.Variable.{IsWithin};

use super::fault::{Cause, ReadFault};
use super::power::{MAX_EXPONENT, power_within};
use super::reader::Reader;
use super::scope::{Meaning, Scope};
use super::token::{Token, WIDE};
use super::value::{negative, product_within, sum_within};
use fj_coeff::Coeff;
use fj_mono::Mono;
use fj_poly::{GPoly, Poly};
use std::alloc::{AllocError, Global};
use std::mem;

/// The most parentheses around each other.
const MAX_DEPTH: u64 = 64;

/// The value of the subexpression that ends with the last token, where one was formed.
fn formed<K: Coeff>(value: Option<GPoly<K>>, reader: &Reader) -> Result<GPoly<K>, ReadFault>
    ensures { Reads result reader.now (formed value reader.now) }
{
    match value {
        Some(f) => Ok(f),
        None => Err(reader.fault(Cause::Large).into()),
    }
}

/// A number, as a value.
#[tactic(auto, unfolding(crate::specs::Expression::constant))]
fn constant<K: Coeff>(alloc: Global, n: u64, reader: &Reader) -> Result<GPoly<K>, ReadFault>
    ensures { Reads result reader.now (constant K.field n reader.now) }
{
    if n >= WIDE {
        return Err(reader.fault(Cause::Wide).into());
    }
    let value = Poly::term(alloc, K::of_rank(n % K::P), &Mono::one())?;
    Ok(value)
}

/// The variable at this place.
fn variable_at<K: Coeff>(alloc: Global, place: usize) -> Result<GPoly<K>, AllocError>
    requires { place < 8 }
    ensures { IfOk result (λ p. p ≡ term 1 (variable_exponents place)) }
{
    let mut exponents = [0; 8];
    exponents[place] = 1;
    Poly::term(alloc, K::one(), &Mono::new(exponents).unwrap())
}

/// What a word stands for, as a value.
#[tactic(auto, unfolding(crate::specs::Expression::variable))]
fn variable<K: Coeff>(
    alloc: Global,
    meaning: Meaning,
    reader: &Reader,
) -> Result<GPoly<K>, ReadFault>
    requires { IsWithin meaning }
    ensures { Reads result reader.now (variable meaning reader.now) }
{
    match meaning {
        Meaning::Variable(place) => Ok(variable_at(alloc, place)?),
        Meaning::Unknown => Err(reader.fault(Cause::Unknown).into()),
        Meaning::OtherKind => Err(reader.fault(Cause::Kind).into()),
    }
}

/// The exponent that comes next.
#[tactic(auto, unfolding(crate::specs::Expression::exponent_of))]
fn exponent(reader: &mut Reader) -> Result<u64, ReadFault>
    ensures reads { Reads result reader.new (taking exponent_of reader.old) }
    ensures taken { IfOk result (λ _. length reader.new.left < length reader.old.left) }
{
    let Some(token) = reader.take() else {
        return Err(reader.unexpected().into());
    };
    match token {
        Token::Number(k) => {
            if k >= WIDE {
                Err(reader.fault(Cause::Wide).into())
            } else if k > MAX_EXPONENT {
                Err(reader.fault(Cause::Large).into())
            } else {
                Ok(k)
            }
        }
        Token::BadByte => Err(reader.fault(Cause::Byte).into()),
        Token::Word(_) => Err(reader.fault(Cause::Syntax).into()),
        Token::Sign(_) => Err(reader.fault(Cause::Syntax).into()),
    }
}

/// A number, a word, or an expression in parentheses, in which at most `depth` more may be nested.
#[cycle(expression)]
#[tactic(auto, unfolding(crate::specs::Expression::atom, crate::specs::Expression::atom_of))]
fn atom<K: Coeff, S: Scope>(
    alloc: Global,
    scope: &S,
    reader: &mut Reader,
    depth: u64,
) -> Result<GPoly<K>, ReadFault>
    requires { depth ≤ 64 }
    ensures reads { Reads result reader.new
        (atom K.field (S.meaning scope.now) (parenthesised K.field (S.meaning scope.now) depth) reader.old) }
    ensures taken { IfOk result (λ _. length reader.new.left < length reader.old.left) }
{
    let Some(token) = reader.take() else {
        return Err(reader.unexpected().into());
    };
    match token {
        Token::Number(n) => constant(alloc, n, reader),
        Token::Word(word) => variable(alloc, scope.meaning(word), reader),
        Token::Sign(sign) => {
            if sign == b'(' {
                parenthesised(alloc, scope, reader, depth)
            } else {
                Err(reader.fault(Cause::Syntax).into())
            }
        }
        Token::BadByte => Err(reader.fault(Cause::Byte).into()),
    }
}

/// An atom, to the power that stands behind it.
#[cycle(expression)]
#[tactic(auto, unfolding(crate::specs::Expression::factor))]
fn factor<K: Coeff, S: Scope>(
    alloc: Global,
    scope: &S,
    reader: &mut Reader,
    depth: u64,
) -> Result<GPoly<K>, ReadFault>
    requires { depth ≤ 64 }
    ensures reads { Reads result reader.new
        (factor K.field (S.meaning scope.now) (parenthesised K.field (S.meaning scope.now) depth) reader.old) }
    ensures taken { IfOk result (λ _. length reader.new.left < length reader.old.left) }
{
    let base = atom(alloc, scope, reader, depth)?;
    if !reader.take_sign(b'^') {
        return Ok(base);
    }
    let k = exponent(reader)?;
    formed(power_within(alloc, &base, k)?, reader)
}

/// A value times the factor behind a `*`, where there is one.
#[cycle(expression)]
#[tactic(auto, unfolding(crate::specs::Expression::times_factor))]
fn times_factor<K: Coeff, S: Scope>(
    alloc: Global,
    scope: &S,
    reader: &mut Reader,
    depth: u64,
    value: &GPoly<K>,
) -> Result<Option<GPoly<K>>, ReadFault>
    requires { depth ≤ 64 }
    ensures reads { ReadsTurn result reader.old reader.new
        (times_factor K.field (S.meaning scope.now) (parenthesised K.field (S.meaning scope.now) depth) value.now reader.old) }
    ensures taken { IfOk result (λ turn. IfSome turn (λ _. length reader.new.left < length reader.old.left)) }
{
    if !reader.take_sign(b'*') {
        return Ok(None);
    }
    let next = factor(alloc, scope, reader, depth)?;
    let product = formed(product_within(alloc, value, &next)?, reader)?;
    Ok(Some(product))
}

/// Factors with a `*` between each two.
#[cycle(expression)]
#[tactic(auto, unfolding(crate::specs::Expression::term_at))]
fn term<K: Coeff, S: Scope>(
    alloc: Global,
    scope: &S,
    reader: &mut Reader,
    depth: u64,
) -> Result<GPoly<K>, ReadFault>
    requires { depth ≤ 64 }
    ensures reads { Reads result reader.new
        (term_at K.field (S.meaning scope.now) (parenthesised K.field (S.meaning scope.now) depth) reader.old) }
    ensures taken { IfOk result (λ _. length reader.new.left < length reader.old.left) }
{
    let mut value = factor(alloc, scope, reader, depth)?;
    'factors: while let Some(product) = times_factor(alloc, scope, reader, depth, &value)? {
        value = product;
    }
    Ok(value)
}

/// The first term of an expression, negated by a leading `-`.
#[cycle(expression)]
#[tactic(auto, unfolding(crate::specs::Expression::first_term))]
fn first_term<K: Coeff, S: Scope>(
    alloc: Global,
    scope: &S,
    reader: &mut Reader,
    depth: u64,
) -> Result<GPoly<K>, ReadFault>
    requires { depth ≤ 64 }
    ensures reads { Reads result reader.new
        (first_term K.field (S.meaning scope.now) (parenthesised K.field (S.meaning scope.now) depth) reader.old) }
    ensures taken { IfOk result (λ _. length reader.new.left < length reader.old.left) }
{
    if !reader.take_sign(b'-') {
        return term(alloc, scope, reader, depth);
    }
    let value = term(alloc, scope, reader, depth)?;
    Ok(negative(alloc, &value)?)
}

/// A value plus the term behind a `+`, or less the term behind a `-`, where there is one. Then the value is used up.
#[cycle(expression)]
#[tactic(auto, unfolding(crate::specs::Expression::plus_term))]
fn plus_term<K: Coeff, S: Scope>(
    alloc: Global,
    scope: &S,
    reader: &mut Reader,
    depth: u64,
    value: &mut GPoly<K>,
) -> Result<Option<GPoly<K>>, ReadFault>
    requires { depth ≤ 64 }
    ensures reads { ReadsTurn result reader.old reader.new
        (plus_term K.field (S.meaning scope.now) (parenthesised K.field (S.meaning scope.now) depth) value.old reader.old) }
    ensures taken { IfOk result (λ turn. IfSome turn (λ _. length reader.new.left < length reader.old.left)) }
    ensures kept { IfOk result (λ turn. IfNone turn (value.new ≡ value.old)) }
{
    if reader.take_sign(b'+') {
        let next = term(alloc, scope, reader, depth)?;
        let before = mem::replace(value, Poly::zero(alloc));
        let sum = formed(sum_within(alloc, before, &next)?, reader)?;
        return Ok(Some(sum));
    }
    if reader.take_sign(b'-') {
        let next = term(alloc, scope, reader, depth)?;
        let next = negative(alloc, &next)?;
        let before = mem::replace(value, Poly::zero(alloc));
        let difference = formed(sum_within(alloc, before, &next)?, reader)?;
        return Ok(Some(difference));
    }
    Ok(None)
}

/// Terms with a `+` or a `-` between each two.
#[cycle(expression)]
#[tactic(auto, unfolding(crate::specs::Expression::sum_at))]
fn sum<K: Coeff, S: Scope>(
    alloc: Global,
    scope: &S,
    reader: &mut Reader,
    depth: u64,
) -> Result<GPoly<K>, ReadFault>
    requires { depth ≤ 64 }
    ensures reads { Reads result reader.new
        (sum_at K.field (S.meaning scope.now) (parenthesised K.field (S.meaning scope.now) depth) reader.old) }
    ensures taken { IfOk result (λ _. length reader.new.left < length reader.old.left) }
{
    let mut total = first_term(alloc, scope, reader, depth)?;
    'terms: while let Some(sum) = plus_term(alloc, scope, reader, depth, &mut total)? {
        total = sum;
    }
    Ok(total)
}

/// What stands behind an opening parenthesis, up to the closing one. In it at most `depth` - 1 more may be nested.
#[cycle(expression)]
fn parenthesised<K: Coeff, S: Scope>(
    alloc: Global,
    scope: &S,
    reader: &mut Reader,
    depth: u64,
) -> Result<GPoly<K>, ReadFault>
    requires { depth ≤ 64 }
    ensures reads { Reads result reader.new (parenthesised K.field (S.meaning scope.now) depth reader.old) }
    ensures taken { IfOk result (λ _. length reader.new.left < length reader.old.left) }
{
    if depth == 0 {
        return Err(reader.fault(Cause::Large).into());
    }
    let value = sum(alloc, scope, reader, depth - 1)?;
    if !reader.take_sign(b')') {
        return Err(reader.unexpected().into());
    }
    Ok(value)
}

/// The expression at the front of the tokens that are left. It is read as far as it goes, and the token behind it isn't
/// judged.
///
/// Sums and products are formed from the left, and `E^k` by k - 1 products from the left. Each value formed on the way
/// has at most 1,000 terms and a degree of at most 1,000; at most 64 parentheses are around each other.
///
/// After a fault, or where memory is out, the reader is spent: where it stands then isn't said. Each call of it still
/// meets its contract.
#[tactic(auto, unfolding(crate::specs::Expression::expression))]
pub fn read_expression<K: Coeff, S: Scope>(
    alloc: Global,
    scope: &S,
    reader: &mut Reader,
) -> Result<GPoly<K>, ReadFault>
    ensures reads { Reads result reader.new (expression K.field (S.meaning scope.now) reader.old) }
    ensures taken { IfOk result (λ _. length reader.new.left < length reader.old.left) }
{
    sum(alloc, scope, reader, MAX_DEPTH)
}
