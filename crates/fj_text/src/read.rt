//! Expressions in the variables of a ring.
ghost use Rattle.std.specs.Prelude.{◌≤◌, length};
ghost use Rattle.fj_text.specs.Reading.{GivesText, text_at};

use super::expression::read_expression;
use super::fault::TextFault;
use super::names::Names;
use super::reader::Reader;
use super::scope::{Meaning, Scope};
use fj_coeff::Coeff;
use fj_poly::GPoly;
use std::alloc::Global;

impl Scope for Names {
    ghost use Rattle.fj_text.specs.Reading.{meaning_among};

    ghost meaning = { λ names word. meaning_among names word };

    fn meaning(&self, word: &[u8]) -> Meaning {
        match self.place(word) {
            Some(place) => Meaning::Variable(place),
            None => Meaning::Unknown,
        }
    }
}

/// The expression of a line from a column on, as a polynomial in these variables, and the column behind its last token.
/// Columns count bytes from 0.
///
/// An expression is `expr = [ "-" ] term { ("+" | "-") term }`, `term = factor { "*" factor }`,
/// `factor = atom [ "^" number ]` and `atom = number | word | "(" expr ")"`. A word is a variable, and a number is taken
/// modulo the characteristic. A leading `-` negates the first term. Sums and products are formed from the left; `E^k` is
/// formed by k - 1 products from the left, and `E^0` is 1. Blank, tab and CR part tokens, and a `#` begins a comment.
///
/// The expression goes on as far as it can. The token behind it isn't judged, but for a bad byte.
///
/// The fault is the first one, from left to right, and at one place the one that is named first here:
/// - `Byte`: a byte that begins no token, as an LF is;
/// - `Syntax`: a token that can't stand there, or a line that ends too early, then behind its last token, and at
///   `from` where the whole line holds no token;
/// - `UnknownVar`: a word that is no variable;
/// - `Wide`: a number above 2^32 - 1;
/// - `Large`: an exponent above 1,000, at it; a value, or a product formed for a power, with over 1,000 terms or a degree
///   above 1,000, at the last token of its subexpression; a 65th nested parenthesis, at it.
#[tactic(auto, unfolding(crate::specs::Reading::text_at))]
pub fn read_expr<K: Coeff>(
    alloc: Global,
    line: &[u8],
    from: usize,
    vars: &Names,
) -> Result<(GPoly<K>, usize), TextFault>
    requires { from ≤ length line.now }
    ensures { GivesText result (text_at K.field vars.now line.now from) }
{
    let mut reader = Reader::new(line, from);
    let value = read_expression(alloc, vars, &mut reader)?;
    if reader.is_bad_next() {
        return Err(reader.unexpected().into());
    }
    Ok((value, reader.end()))
}
