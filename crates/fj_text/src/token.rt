//! The tokens of a line.
ghost use Rattle.std.specs.Prelude.{◌≡◌, ◌+◌, ◌≤◌, ◌<◌, zero, length, drop, IfSome, IsTrue};
ghost use Rattle.std.specs.List.{list_all, prefix_len};
ghost use Rattle.std.specs.Option.{option_map};
ghost use Rattle.std.specs.Char.{is_ascii_digit};
ghost use Rattle.fj_text.specs.Word.{is_word_start, is_word_byte};
ghost use Rattle.fj_text.specs.Token.{HasWord, is_blank, is_sign, number_shown, token_at, tokens_from};
ghost use Rattle.fj_text.specs.State.{end_of};
ghost use Rattle.fj_text.specs.Seen.{left_from, seen};

/// A number above 2^32 - 1 is shown as 2^32.
pub const WIDE: u64 = 1 << 32;

/// A token. A number shows its value, or 2^32 where it is above 2^32 - 1.
#[derive(Clone, Copy, Debug)]
pub enum Token<'a> {
    /// An ASCII letter or `_`, and then letters, digits and `_`, as long as possible.
    Word(&'a [u8]),
    /// Digits, as long as possible.
    Number(u64),
    /// One of `= , ( ) + - * ^ /`.
    Sign(u8),
    /// Any other byte outside a comment, alone.
    BadByte,
}

/// A token, the column of its first byte and the column behind its last byte.
#[derive(Clone, Copy, Debug)]
pub(crate) struct Placed<'a> {
    pub(crate) token: Token<'a>,
    pub(crate) start: usize,
    pub(crate) end: usize,
}

/// An ASCII letter or `_`.
fn is_word_start(byte: u8) -> bool
    ensures { result ≡ is_word_start byte }
{
    byte.is_ascii_alphabetic() || byte == b'_'
}

/// An ASCII letter, a digit or `_`.
fn is_word_byte(byte: u8) -> bool
    ensures { result ≡ is_word_byte byte }
{
    byte.is_ascii_alphanumeric() || byte == b'_'
}

/// Blank, tab or CR.
fn is_blank(byte: u8) -> bool
    ensures { result ≡ is_blank byte }
{
    byte == b' ' || byte == b'\t' || byte == b'\r'
}

/// One of `= , ( ) + - * ^ /`.
fn is_sign(byte: u8) -> bool
    ensures { result ≡ is_sign byte }
{
    b"=,()+-*^/".contains(&byte)
}

/// How many letters, digits and `_` are at the front.
fn word_len(bytes: &[u8]) -> usize
    ensures count { result ≡ prefix_len is_word_byte bytes.now }
    ensures within { result ≤ length bytes.now }
{
    bytes.iter().take_while(|b| is_word_byte(**b)).count()
}

/// How many digits are at the front.
fn digit_len(bytes: &[u8]) -> usize
    ensures count { result ≡ prefix_len is_ascii_digit bytes.now }
    ensures within { result ≤ length bytes.now }
{
    bytes.iter().take_while(|b| b.is_ascii_digit()).count()
}

/// How many blanks are at the front.
fn blank_len(bytes: &[u8]) -> usize
    ensures count { result ≡ prefix_len is_blank bytes.now }
    ensures within { result ≤ length bytes.now }
{
    bytes.iter().take_while(|b| is_blank(**b)).count()
}

/// The value of digits, or 2^32 where it is greater.
fn number_shown(digits: &[u8]) -> u64
    requires { IsTrue (list_all is_ascii_digit digits.now) }
    ensures { result ≡ number_shown digits.now }
{
    let mut number: u64 = 0;
    for digit in digits {
        number = (number * 10 + u64::from(*digit - b'0')).min(WIDE);
    }
    number
}

/// The token at the front and its length, unless the bytes end or a comment begins.
#[tactic(auto, unfolding(crate::specs::Token::token_at))]
fn token_at(bytes: &[u8]) -> Option<(Token<'_>, usize)>
    ensures token { option_map (λ t. (seen t.0, t.1)) result ≡ token_at bytes.now }
    ensures word { IfSome result (λ t. HasWord (seen t.0)) }
    ensures some { IfSome result (λ t. 0 < t.1) }
    ensures within { IfSome result (λ t. t.1 ≤ length bytes.now) }
{
    let first = *bytes.first()?;
    if is_word_start(first) {
        let len = word_len(bytes);
        Some((Token::Word(&bytes[..len]), len))
    } else if first.is_ascii_digit() {
        let len = digit_len(bytes);
        Some((Token::Number(number_shown(&bytes[..len])), len))
    } else if is_sign(first) {
        Some((Token::Sign(first), 1))
    } else if first == b'#' {
        None
    } else {
        Some((Token::BadByte, 1))
    }
}

/// The first token from a column on.
pub(crate) fn token_from(line: &[u8], column: usize) -> Option<Placed<'_>>
    requires { column ≤ length line.now }
    ensures tokens { left_from result line.now ≡ tokens_from zero column (drop column line.now) }
    ensures word { IfSome result (λ t. HasWord (seen t.token)) }
    ensures within { IfSome result (λ t. t.end ≤ length line.now) }
{
    let start = column + blank_len(&line[column..]);
    let (token, len) = token_at(&line[start..])?;
    Some(Placed {
        token,
        start,
        end: start + len,
    })
}

/// The column behind the last token of a line, or a column where it holds none.
pub(crate) fn end_of_line(line: &[u8], column: usize) -> usize
    ensures { result ≡ end_of (tokens_from zero zero line.now) column }
{
    let mut end = column;
    let mut next = token_from(line, 0);
    'tokens: while let Some(t) = next {
        end = t.end;
        next = token_from(line, t.end);
    }
    end
}
