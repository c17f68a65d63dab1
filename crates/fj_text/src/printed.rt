//! The printed text of polynomials, lists of polynomials and fractions.
ghost use Rattle.std.specs.Prelude.{ℕ, ◌≡◌, ◌==◌, [], ◌++◌, length, map, All, codes, decimal, IfOk, OnOk, if◌then◌else◌};
ghost use Rattle.fj_plain.specs.Terms.{entry};
ghost use Rattle.fj_theory.specs.Fraction.{IsLowest};
ghost use Rattle.fj_theory.specs.Plain.{polynomial};
ghost use Rattle.fj_theory.specs.PointIdeal.{UsesFirst};
ghost use Rattle.fj_text.specs.Printed.{joined, list_bytes, or_zero, polynomial_bytes, power_bytes, ratio_bytes, term_bytes};

use crate::names::Names;
use fj_plain::{PlainList, PlainPoly, PlainTerm};
use fj_ratio::Ratio;
use itoa::Buffer;
use std::alloc::{AllocError, Global};

/// The text of a polynomial: its terms in their order, joined by `+`; zero is `0`. A term is its coefficient and its
/// powers, joined by `*`. The exponent 1 is left out, and so is the coefficient 1 of a term that isn't constant.
///
/// Condition: no variable past the names occurs.
pub fn print_poly(alloc: Global, h: &PlainPoly, vars: &Names) -> Result<Vec<u8>, AllocError>
    requires { UsesFirst (length vars.now) (polynomial h.now) }
    ensures { IfOk result (λ text. text.items ≡ polynomial_bytes vars.now h.now) }
{
    let mut out = Vec::new(alloc);
    push_poly(&mut out, h, vars)?;
    Ok(out)
}

/// The text of a list of polynomials: its members in their order, parted by a comma and a blank, in parentheses. The
/// list without a member is `(0)`.
///
/// Condition: no variable past the names occurs.
pub fn print_list(alloc: Global, l: &PlainList, vars: &Names) -> Result<Vec<u8>, AllocError>
    requires { All (λ h. UsesFirst (length vars.now) (polynomial h)) l.now }
    ensures { IfOk result (λ text. text.items ≡ list_bytes vars.now l.now) }
{
    let mut out = Vec::new(alloc);
    out.push(b'(')?;
    push_members(&mut out, l, vars)?;
    out.push(b')')?;
    Ok(out)
}

/// The text of a fraction in lowest terms: numerator and denominator parted by `/`, or the numerator alone where the
/// denominator is 1.
pub fn print_ratio(alloc: Global, t: &Ratio) -> Result<Vec<u8>, AllocError>
    ensures text { IfOk result (λ text. text.items ≡ ratio_bytes t.now) }
    ensures lowest { OnOk result (IsLowest t.now) }
{
    let mut out = Vec::new(alloc);
    push_decimal(&mut out, t.num())?;
    if t.den() != 1 {
        out.push(b'/')?;
        push_decimal(&mut out, t.den())?;
    }
    Ok(out)
}

/// Appends the members of a list, or `0` where there is none.
fn push_members(out: &mut Vec<u8>, l: &PlainList, vars: &Names) -> Result<(), AllocError>
    ensures { OnOk result
        (out.new.items ≡ out.old.items ++ joined (codes ", ") (or_zero (map (polynomial_bytes vars.now) l.now))) }
{
    if l.len() == 0 {
        return push_zero(out);
    }
    for place in 0..l.len() {
        push_between(out, b", ", place)?;
        push_poly(out, l.get(place), vars)?;
    }
    Ok(())
}

/// Appends a polynomial.
fn push_poly(out: &mut Vec<u8>, h: &PlainPoly, vars: &Names) -> Result<(), AllocError>
    ensures { OnOk result (out.new.items ≡ out.old.items ++ polynomial_bytes vars.now h.now) }
{
    if h.len() == 0 {
        return push_zero(out);
    }
    for place in 0..h.len() {
        push_between(out, b"+", place)?;
        push_term(out, h.get(place), vars)?;
    }
    Ok(())
}

/// Appends `0`, which is written where there is no term and no member.
fn push_zero(out: &mut Vec<u8>) -> Result<(), AllocError>
    ensures { OnOk result (out.new.items ≡ out.old.items ++ codes "0") }
{
    out.push(b'0')?;
    Ok(())
}

/// Appends a term: its coefficient, and the powers of the named variables.
fn push_term(out: &mut Vec<u8>, term: &PlainTerm, vars: &Names) -> Result<(), AllocError>
    ensures { OnOk result (out.new.items ≡ out.old.items ++ term_bytes vars.now (entry term.now)) }
{
    let mut is_bare = term.rank == 1;
    if !is_bare {
        push_decimal(out, term.rank)?;
    }
    for place in 0..vars.len() {
        let exponent = term.exps[place];
        if exponent != 0 {
            push_star(out, is_bare)?;
            push_power(out, vars.word(place), exponent)?;
            is_bare = false;
        }
    }
    if is_bare {
        push_decimal(out, term.rank)?;
    }
    Ok(())
}

/// Appends a variable with its exponent.
fn push_power(out: &mut Vec<u8>, name: &[u8], exponent: u64) -> Result<(), AllocError>
    ensures { OnOk result (out.new.items ≡ out.old.items ++ power_bytes name.now exponent) }
{
    out.extend_from_slice(name)?;
    if exponent != 1 {
        out.push(b'^')?;
        push_decimal(out, exponent)?;
    }
    Ok(())
}

/// Appends the sign between factors, unless no factor is there yet.
fn push_star(out: &mut Vec<u8>, is_bare: bool) -> Result<(), AllocError>
    ensures { OnOk result (out.new.items ≡ out.old.items ++ (if is_bare then [] else codes "*")) }
{
    if !is_bare {
        out.push(b'*')?;
    }
    Ok(())
}

/// Appends the text between two pieces, unless the piece to come is the first.
fn push_between(out: &mut Vec<u8>, text: &[u8], place: usize) -> Result<(), AllocError>
    ensures { OnOk result (out.new.items ≡ out.old.items ++ (if place == 0 then [] else text.now)) }
{
    if place != 0 {
        out.extend_from_slice(text)?;
    }
    Ok(())
}

/// Appends a number in decimal.
fn push_decimal(out: &mut Vec<u8>, number: u64) -> Result<(), AllocError>
    ensures { OnOk result (out.new.items ≡ out.old.items ++ decimal number) }
{
    let mut buffer = Buffer::new();
    out.extend_from_slice(buffer.format(number).as_bytes())
}
