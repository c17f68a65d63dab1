//! The printed texts of answers.
ghost use Rattle.std.specs.List.{flat_map};
ghost use Rattle.std.specs.Prelude.{ℕ, ◌≡◌, ◌==◌, ◌≤◌, [], ◌++◌, All, length, map, take, codes, decimal, IfOk, OnOk, if◌then◌else◌};
ghost use Rattle.fj_theory.specs.Plain.{polynomial};
ghost use Rattle.fj_theory.specs.PointIdeal.{UsesFirst};
ghost use Rattle.fj_text.specs.Printed.{list_bytes, ratio_bytes};
ghost use Rattle.fj_session.specs.Answer.{AnswerUsesFirst, IdealUsesFirst, RowUsesFirst};
ghost use Rattle.fj_session.specs.Text.{answer_bytes, gap_line, jump_line, residue_bytes, row_line, rows_bytes};

use super::types::{Answer, PartList, PartRow, ShownJump, ShownJumps};
use fj_jump::{GapList, GapRow};
use fj_mono::Mono;
use fj_plain::PlainList;
use fj_ratio::Ratio;
use fj_shell::push_decimal;
use fj_text::{Names, print_list, print_poly, print_ratio};
use std::alloc::{AllocError, Global};

/// The text of the answer to the question with this number. The variables have these names.
///
/// Each part has a line `k: part (a1,..,an) = h`, with the n exponents of its residue; where there is none, the line is
/// `k: none`. An ideal has the line `k: (g1, g2, ..)`, or `k: (0)` where its basis is empty. The others have the lines
/// `k: nu r`, `k: threshold t`, `k: between s and t`, `k: notin`, `k: unit`, `k: yes`, `k: no`, `k: off`, `k: stopped pairs`
/// and `k: stopped high`. A list of F-jumping numbers has a line `k: jump t = (g1, g2, ..)` for each, a line `k: open (s, t)` for
/// each open gap, and `k: complete` or `k: incomplete`.
///
/// Condition: nothing past the names occurs.
pub fn print_answer(
    alloc: Global,
    vars: &Names,
    number: u32,
    a: &Answer,
) -> Result<Vec<u8>, AllocError>
    requires { AnswerUsesFirst (length vars.now) a.now }
    ensures { IfOk result (λ text. text.items ≡ answer_bytes vars.now number a.now) }
{
    let mut out = Vec::new(alloc);
    match a {
        Answer::Parts(rows) => push_rows(alloc, &mut out, vars, number, rows)?,
        Answer::Ideal(list) => push_ideal(alloc, &mut out, vars, number, list)?,
        Answer::Yes => push_word(&mut out, number, b": yes\n")?,
        Answer::No => push_word(&mut out, number, b": no\n")?,
        Answer::Off => push_word(&mut out, number, b": off\n")?,
        Answer::Jumps {
            jumps,
            gaps,
            complete,
        } => {
            push_jumps(alloc, &mut out, vars, number, jumps)?;
            push_gaps(alloc, &mut out, number, gaps)?;
            push_word(&mut out, number, end_of_list(*complete))?
        }
        Answer::At(t) => push_threshold(alloc, &mut out, number, t)?,
        Answer::Between(lower, upper) => push_between(alloc, &mut out, number, lower, upper)?,
        Answer::Nu(greatest) => push_nu(&mut out, number, *greatest)?,
        Answer::NotIn => push_word(&mut out, number, b": notin\n")?,
        Answer::Unit => push_word(&mut out, number, b": unit\n")?,
        Answer::StoppedPairs(_) => push_word(&mut out, number, b": stopped pairs\n")?,
        Answer::StoppedHigh(_) => push_word(&mut out, number, b": stopped high\n")?,
    }
    Ok(out)
}

/// Appends the lines of the parts, for the question with this number.
fn push_rows(
    alloc: Global,
    out: &mut Vec<u8>,
    vars: &Names,
    number: u32,
    rows: &PartList,
) -> Result<(), AllocError>
    requires { All (RowUsesFirst (length vars.now)) rows.now }
    ensures { OnOk result (out.new.items ≡ out.old.items ++ rows_bytes vars.now number rows.now) }
{
    if rows.len() == 0 {
        return push_word(out, number, b": none\n");
    }
    for place in 0..rows.len() {
        push_row(alloc, out, vars, number, rows.get(place))?;
    }
    Ok(())
}

/// Appends the line of an ideal, for the question with this number.
fn push_ideal(
    alloc: Global,
    out: &mut Vec<u8>,
    vars: &Names,
    number: u32,
    list: &PlainList,
) -> Result<(), AllocError>
    requires { All (λ h. UsesFirst (length vars.now) (polynomial h)) list.now }
    ensures { OnOk result (out.new.items ≡ out.old.items ++ (decimal number ++ codes ": " ++ list_bytes vars.now list.now ++ codes "\n")) }
{
    push_word(out, number, b": ")?;
    out.extend_from_slice(&print_list(alloc, list, vars)?)?;
    out.push(b'\n')?;
    Ok(())
}

/// Appends the lines of F-jumping numbers, for the question with this number.
fn push_jumps(
    alloc: Global,
    out: &mut Vec<u8>,
    vars: &Names,
    number: u32,
    rows: &ShownJumps,
) -> Result<(), AllocError>
    requires { All (λ row. IdealUsesFirst (length vars.now) row.ideal) rows.now }
    ensures { OnOk result (out.new.items ≡ out.old.items ++ flat_map (jump_line vars.now number) rows.now) }
{
    for place in 0..rows.len() {
        push_jump(alloc, out, vars, number, rows.get(place))?;
    }
    Ok(())
}

/// Appends the line of an F-jumping number.
#[tactic(auto, unfolding(crate::specs::Text::jump_line))]
fn push_jump(
    alloc: Global,
    out: &mut Vec<u8>,
    vars: &Names,
    number: u32,
    row: &ShownJump,
) -> Result<(), AllocError>
    requires { IdealUsesFirst (length vars.now) row.now.ideal }
    ensures { OnOk result (out.new.items ≡ out.old.items ++ jump_line vars.now number row.now) }
{
    push_word(out, number, b": jump ")?;
    out.extend_from_slice(&print_ratio(alloc, &row.at)?)?;
    out.extend_from_slice(b" = ")?;
    out.extend_from_slice(&print_list(alloc, &row.ideal, vars)?)?;
    out.push(b'\n')?;
    Ok(())
}

/// Appends the lines of open gaps, for the question with this number.
fn push_gaps(
    alloc: Global,
    out: &mut Vec<u8>,
    number: u32,
    rows: &GapList,
) -> Result<(), AllocError>
    ensures { OnOk result (out.new.items ≡ out.old.items ++ flat_map (gap_line number) rows.now) }
{
    for place in 0..rows.len() {
        push_gap(alloc, out, number, rows.get(place))?;
    }
    Ok(())
}

/// Appends the line of an open gap.
#[tactic(auto, unfolding(crate::specs::Text::gap_line))]
fn push_gap(alloc: Global, out: &mut Vec<u8>, number: u32, row: &GapRow) -> Result<(), AllocError>
    ensures { OnOk result (out.new.items ≡ out.old.items ++ gap_line number row.now) }
{
    push_word(out, number, b": open (")?;
    out.extend_from_slice(&print_ratio(alloc, &row.from)?)?;
    out.extend_from_slice(b", ")?;
    out.extend_from_slice(&print_ratio(alloc, &row.to)?)?;
    out.extend_from_slice(b")\n")
}

/// What stands behind the number in the line that ends a list of F-jumping numbers.
fn end_of_list(complete: bool) -> &'static [u8]
    ensures { result.now ≡ (if complete then codes ": complete\n" else codes ": incomplete\n") }
{
    if complete {
        b": complete\n"
    } else {
        b": incomplete\n"
    }
}

/// Appends the line of a threshold, for the question with this number.
fn push_threshold(
    alloc: Global,
    out: &mut Vec<u8>,
    number: u32,
    t: &Ratio,
) -> Result<(), AllocError>
    ensures { OnOk result (out.new.items ≡ out.old.items ++ (decimal number ++ codes ": threshold " ++ ratio_bytes t.now ++ codes "\n")) }
{
    push_word(out, number, b": threshold ")?;
    out.extend_from_slice(&print_ratio(alloc, t)?)?;
    out.push(b'\n')?;
    Ok(())
}

/// Appends the line of a gap that has a threshold inside, for the question with this number.
fn push_between(
    alloc: Global,
    out: &mut Vec<u8>,
    number: u32,
    lower: &Ratio,
    upper: &Ratio,
) -> Result<(), AllocError>
    ensures { OnOk result (out.new.items ≡ out.old.items ++ (decimal number ++ codes ": between " ++ ratio_bytes lower.now ++ codes " and " ++ ratio_bytes upper.now ++ codes "\n")) }
{
    push_word(out, number, b": between ")?;
    out.extend_from_slice(&print_ratio(alloc, lower)?)?;
    out.extend_from_slice(b" and ")?;
    out.extend_from_slice(&print_ratio(alloc, upper)?)?;
    out.push(b'\n')?;
    Ok(())
}

/// Appends the line of a number nu, for the question with this number.
fn push_nu(out: &mut Vec<u8>, number: u32, nu: u64) -> Result<(), AllocError>
    ensures { OnOk result (out.new.items ≡ out.old.items ++ (decimal number ++ codes ": nu " ++ decimal nu ++ codes "\n")) }
{
    push_word(out, number, b": nu ")?;
    push_decimal(out, nu)?;
    out.push(b'\n')?;
    Ok(())
}

/// Appends the line of a part, for the question with this number.
fn push_row(
    alloc: Global,
    out: &mut Vec<u8>,
    vars: &Names,
    number: u32,
    row: &PartRow,
) -> Result<(), AllocError>
    requires { RowUsesFirst (length vars.now) row.now }
    ensures { OnOk result (out.new.items ≡ out.old.items ++ row_line vars.now number row.now) }
{
    push_word(out, number, b": part ")?;
    push_residue(out, vars.len(), &row.residue)?;
    out.extend_from_slice(b" = ")?;
    out.extend_from_slice(&print_poly(alloc, &row.poly, vars)?)?;
    out.push(b'\n')?;
    Ok(())
}

/// Appends the exponents of the first variables, in parentheses.
fn push_residue(out: &mut Vec<u8>, count: usize, residue: &Mono) -> Result<(), AllocError>
    requires { count ≤ 8 }
    ensures { OnOk result (out.new.items ≡ out.old.items ++ residue_bytes (take count residue.now.exponents)) }
{
    out.push(b'(')?;
    for place in 0..count {
        push_comma(out, place)?;
        push_decimal(out, residue.exp(place))?;
    }
    out.push(b')')?;
    Ok(())
}

/// Appends the comma between numbers, unless no number is there yet.
fn push_comma(out: &mut Vec<u8>, place: usize) -> Result<(), AllocError>
    ensures { OnOk result (out.new.items ≡ out.old.items ++ (if place == 0 then [] else codes ",")) }
{
    if place != 0 {
        out.push(b',')?;
    }
    Ok(())
}

/// Appends the number of a question and what stands behind it.
fn push_word(out: &mut Vec<u8>, number: u32, word: &[u8]) -> Result<(), AllocError>
    ensures { OnOk result (out.new.items ≡ out.old.items ++ (decimal number ++ word.now)) }
{
    push_decimal(out, u64::from(number))?;
    out.extend_from_slice(word)
}
