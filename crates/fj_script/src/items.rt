//! What statements are made of: words, numbers, signs and the end of the line.
ghost use Rattle.std.specs.Prelude.{◌≡◌, ◌<◌, ◌^◌, length, IfOk, OnOk};
ghost use Rattle.fj_text.specs.Seen.{seen};
ghost use Rattle.fj_text.specs.Token.{HasWord};
ghost use Rattle.fj_text.specs.Word.{IsWord};
ghost use Rattle.fj_script.specs.Items.{narrow, number, number_of, sign, word, word_of};
ghost use Rattle.fj_script.specs.Seen.{Gives};
ghost use Rattle.fj_script.specs.Taken.{GivesSign, IsEnd};

use super::fault::{FaultKind, LineFault, fault_at, not_here};
use fj_text::{Reader, Token};

/// The least number that is too wide.
const WIDE: u64 = 1 << 32;

/// The word that this token is.
#[tactic(auto, unfolding(crate::specs::Items::word_of))]
pub(crate) fn word_of<'a>(token: Token<'a>, reader: &Reader) -> Result<&'a [u8], LineFault>
    requires { HasWord (seen token) }
    ensures gives { Gives (λ w. w.now) result reader.now (word_of (seen token.entry) reader.now) }
    ensures word { IfOk result (λ w. IsWord w.now) }
{
    match token {
        Token::Word(word) => Ok(word),
        Token::BadByte => Err(fault_at(FaultKind::Byte, reader)),
        Token::Number(_) => Err(fault_at(FaultKind::Syntax, reader)),
        Token::Sign(_) => Err(fault_at(FaultKind::Syntax, reader)),
    }
}

/// The number that this token is.
#[tactic(auto, unfolding(crate::specs::Items::number_of))]
fn number_of(token: Token, reader: &Reader) -> Result<u64, LineFault>
    ensures gives { Gives (λ n. n) result reader.now (number_of (seen token.entry) reader.now) }
{
    match token {
        Token::Number(n) => Ok(n),
        Token::BadByte => Err(fault_at(FaultKind::Byte, reader)),
        Token::Word(_) => Err(fault_at(FaultKind::Syntax, reader)),
        Token::Sign(_) => Err(fault_at(FaultKind::Syntax, reader)),
    }
}

/// The word that has to be next.
#[tactic(auto, unfolding(crate::specs::Items::word))]
pub(crate) fn word<'a>(reader: &mut Reader<'a>) -> Result<&'a [u8], LineFault>
    ensures gives { Gives (λ w. w.now) result reader.new (word reader.old) }
    ensures word { IfOk result (λ w. IsWord w.now) }
    ensures taken { OnOk result (length reader.new.left < length reader.old.left) }
{
    let Some(token) = reader.take() else {
        return Err(not_here(reader));
    };
    word_of(token, reader)
}

/// The number that has to be next.
#[tactic(auto, unfolding(crate::specs::Items::number))]
pub(crate) fn number(reader: &mut Reader) -> Result<u64, LineFault>
    ensures gives { Gives (λ n. n) result reader.new (number reader.old) }
    ensures taken { OnOk result (length reader.new.left < length reader.old.left) }
{
    let Some(token) = reader.take() else {
        return Err(not_here(reader));
    };
    number_of(token, reader)
}

/// The number that has to be next, of at most 2^32 - 1.
#[tactic(auto, unfolding(crate::specs::Items::narrow))]
pub(crate) fn narrow(reader: &mut Reader) -> Result<u64, LineFault>
    ensures gives { Gives (λ n. n) result reader.new (narrow reader.old) }
    ensures taken { OnOk result (length reader.new.left < length reader.old.left) }
    ensures below { IfOk result (λ n. n < 2 ^ 32) }
{
    let n = number(reader)?;
    if n >= WIDE {
        return Err(fault_at(FaultKind::Wide, reader));
    }
    Ok(n)
}

/// Takes a sign, which has to be next.
#[tactic(auto, unfolding(crate::specs::Items::sign))]
pub(crate) fn sign(b: u8, reader: &mut Reader) -> Result<(), LineFault>
    ensures gives { GivesSign result reader.new (sign b reader.old) }
    ensures taken { OnOk result (length reader.new.left < length reader.old.left) }
{
    if reader.take_sign(b) {
        Ok(())
    } else {
        Err(not_here(reader))
    }
}

/// The line has to end here.
#[tactic(auto, unfolding(crate::specs::Items::at_end))]
pub(crate) fn at_end(reader: &mut Reader) -> Result<(), LineFault>
    ensures { IsEnd result reader.old }
{
    let fault = not_here(reader);
    match reader.take() {
        None => Ok(()),
        Some(_) => Err(fault),
    }
}
