//! The reading of a whole session.
ghost use Rattle.std.specs.Prelude.{◌≡◌, ◌+◌, ◌<◌, ◌≤◌, length, IfSome};
ghost use Rattle.fj_script.specs.Script.{from_line, lines, script};
ghost use Rattle.fj_script.specs.Seen.{Holds, IsReadingOf};
ghost use Rattle.fj_script.specs.declared.fault.ScriptFault.TheVariants.{At};
ghost use Rattle.fj_script.specs.Lines.{IsFirstOf, MakesAll, MakesIn};

use super::fault::{Fault, FaultKind, LineRefusal, ScriptFault};
use super::question::AskedList;
use super::script::{Env, Script};
use super::session::Session;
use super::statement::line;
use std::alloc::Global;

/// The most bytes of a session.
const MAX_BYTES: usize = 1048576;

/// The bytes up to the first LF, and those behind it, where there is one.
fn split_line(bytes: &[u8]) -> (&[u8], Option<&[u8]>)
    ensures first { IsFirstOf result.0.now result.1 (lines bytes.now) }
    ensures within { length result.0.now ≤ length bytes.now }
    ensures fewer { IfSome result.1 (λ rest. length rest.now < length bytes.now) }
{
    match bytes.iter().position(|b| *b == b'\n') {
        Some(end) => (&bytes[..end], Some(&bytes[end + 1..])),
        None => (bytes, None),
    }
}

/// The line with this number, counted from 1.
fn numbered_line(
    alloc: Global,
    number: u32,
    before: Option<Session>,
    bytes: &[u8],
) -> Result<Option<Session>, ScriptFault>
    requires { length bytes.now ≤ 1048576 }
    ensures { MakesIn result number before bytes.now }
{
    match line(alloc, before, bytes) {
        Ok(after) => Ok(after),
        Err(LineRefusal::At(fault)) => Err(ScriptFault::At(Fault {
            kind: fault.kind,
            line: number,
            column: fault.column as u32 + 1,
        })),
        Err(LineRefusal::Memory) => Err(ScriptFault::Memory),
    }
}

/// The session that all lines make.
fn all_lines(alloc: Global, bytes: &[u8]) -> Result<Option<Session>, ScriptFault>
    requires { length bytes.now ≤ 1048576 }
    ensures { MakesAll result (from_line 1 None (lines bytes.now)) }
{
    let mut session = None;
    let mut number: u32 = 0;
    let mut left = Some(bytes);
    'lines: while let Some(text) = left {
        let (first, rest) = split_line(text);
        number += 1;
        session = numbered_line(alloc, number, session, first)?;
        left = rest;
    }
    Ok(session)
}

/// The session that these bytes are: its ring, its values and its questions; or its first fault, by line and column, and
/// at one place the kind that is named first in `FaultKind`.
///
/// A session is lines parted by LF. A `#` begins a comment, and blank, tab and CR part tokens. The first statement is
/// `ring p v1, v2, ..`, a prime up to 31 and one to seven variables. Then come `order grevlex`, `order grlex` or
/// `order lex`, `budget b` with 1 to 10,000,000 turns, `poly N = expr`, `ideal N = (expr, ..)` with one to 256 generators,
/// `point N = (c, ..)` with a constant for each variable, and `ask` with a question. At most 4,096 names are declared, with
/// at most 1,000,000 terms, and at most 4,096 questions asked.
pub fn read_script(alloc: Global, bytes: &[u8]) -> Result<Script, ScriptFault>
    ensures { IsReadingOf (script bytes.now) result }
{
    if bytes.len() > MAX_BYTES {
        return Err(start(FaultKind::Long));
    }
    let Some(session) = all_lines(alloc, bytes)? else {
        return Err(start(FaultKind::NoRing));
    };
    Ok(Script {
        env: Env {
            p: session.prime,
            vars: session.variables,
            values: session.values,
        },
        asked: AskedList::of(session.asked),
    })
}

/// A fault at the start of the session.
fn start(kind: FaultKind) -> ScriptFault
    ensures { result ≡ At (record { kind = kind; line = 1; column = 1 }) }
{
    ScriptFault::At(Fault {
        kind,
        line: 1,
        column: 1,
    })
}
