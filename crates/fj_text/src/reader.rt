//! The reading of a line, token by token.
ghost use Rattle.std.specs.Prelude.{◌≡◌, ◌<◌, ◌≤◌, length, IfNone, IfSome, OnSome, MatchOption, None, Some};
ghost use Rattle.std.specs.Bool.{OnTrue, OnFalse};
ghost use Rattle.fj_text.specs.Seen.{seen};
ghost use Rattle.fj_text.specs.Token.{HasWord};
ghost use Rattle.fj_text.specs.State.{after_sign, blame, fault_at, is_bad, is_bad_next, is_the_sign, next, state_at, unexpected};

use super::fault::{Cause, Fault};
use super::token::{Placed, Token, end_of_line, token_from};
use std::marker::Model;

/// A line that is read from left to right: the tokens left, and the columns of the token that was taken last.
#[derive(Drop)]
pub struct Reader<'a> {
    line: &'a [u8],
    next: Option<Placed<'a>>,
    start: usize,
    end: usize,
}

impl<'a> Model for Reader<'a> {
    ghost use Rattle.std.specs.Prelude.{◌≤◌, length, IfSome};
    ghost use Rattle.fj_text.specs.Seen.{left_from, seen};
    ghost use Rattle.fj_text.specs.State.{State};
    ghost use Rattle.fj_text.specs.Token.{HasWord};

    ghost Value = { State };

    ghost view = { λ r. record { left = left_from r.next r.line.now; start = r.start; end = r.end } };

    ghost invariant = { λ r. IfSome r.next (λ t. (t.end ≤ length r.line.now) × HasWord (seen t.token)) };
}

// What is wrong with a token that may not stand where it stands.
fn blame(token: Token) -> Cause
    ensures { result ≡ blame (seen token.entry) }
{
    match token {
        Token::BadByte => Cause::Byte,
        Token::Word(_) => Cause::Syntax,
        Token::Number(_) => Cause::Syntax,
        Token::Sign(_) => Cause::Syntax,
    }
}

fn is_bad(token: Token) -> bool
    ensures { result ≡ is_bad (seen token.entry) }
{
    match token {
        Token::BadByte => true,
        Token::Word(_) => false,
        Token::Number(_) => false,
        Token::Sign(_) => false,
    }
}

fn is_the_sign(token: Token, sign: u8) -> bool
    ensures { result ≡ is_the_sign sign (seen token.entry) }
{
    match token {
        Token::Sign(next) => next == sign,
        Token::Word(_) => false,
        Token::Number(_) => false,
        Token::BadByte => false,
    }
}

impl<'a> Reader<'a> {
    /// The reading of a line from a column on.
    pub fn new(line: &'a [u8], column: usize) -> Reader<'a>
        requires { column ≤ length line.now }
        ensures { result ≡ state_at line.now column }
    {
        let next = token_from(line, column);
        let end = match next {
            Some(_) => column,
            None => end_of_line(line, column),
        };
        Reader {
            line,
            next,
            start: column,
            end,
        }
    }

    /// Takes the next token.
    pub fn take(&mut self) -> Option<Token<'a>>
        ensures taken { MatchOption result (next self.old ≡ None) (λ t. next self.old ≡ Some (seen t, self.new)) }
        ensures stays { IfNone result (self.new ≡ self.old) }
        ensures fewer { OnSome result (length self.new.left < length self.old.left) }
        ensures word { IfSome result (λ t. HasWord (seen t)) }
    {
        let t = self.next?;
        self.next = token_from(self.line, t.end);
        self.start = t.start;
        self.end = t.end;
        Some(t.token)
    }

    /// Takes the next token where it is this sign, and says whether it is.
    pub fn take_sign(&mut self, sign: u8) -> bool
        ensures taken { OnTrue result (after_sign sign self.old ≡ Some self.new) }
        ensures stays { OnFalse result ((after_sign sign self.old ≡ None) × (self.new ≡ self.old)) }
        ensures fewer { OnTrue result (length self.new.left < length self.old.left) }
    {
        let Some(t) = self.next else {
            return false;
        };
        if !is_the_sign(t.token, sign) {
            return false;
        }
        let _sign = self.take();
        true
    }

    /// The fault at the next token, which may not stand there, or behind the last one where the line ends.
    pub fn unexpected(&self) -> Fault
        ensures { result ≡ unexpected self.now }
    {
        match self.next {
            Some(t) => Fault {
                cause: blame(t.token),
                place: t.start,
            },
            None => Fault {
                cause: Cause::Syntax,
                place: self.end,
            },
        }
    }

    /// Whether the next token is a bad byte.
    pub fn is_bad_next(&self) -> bool
        ensures { result ≡ is_bad_next self.now }
    {
        match self.next {
            Some(t) => is_bad(t.token),
            None => false,
        }
    }

    /// A fault at the token that was taken last.
    pub fn fault(&self, cause: Cause) -> Fault
        ensures { result ≡ fault_at cause self.now }
    {
        Fault {
            cause,
            place: self.start,
        }
    }

    /// The column of the token that was taken last.
    pub fn start(&self) -> usize
        ensures { result ≡ self.now.start }
    {
        self.start
    }

    /// The column behind the token that was taken last.
    pub fn end(&self) -> usize
        ensures { result ≡ self.now.end }
    {
        self.end
    }
}
