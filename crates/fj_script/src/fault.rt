//! What is wrong in a session, and where.
ghost use Rattle.std.specs.Prelude.{◌≡◌};
ghost use Rattle.fj_script.specs.declared.fault.LineRefusal.TheVariants.{At, Memory};
ghost use Rattle.fj_script.specs.LineFault.{fault_at, fault_of, kind_of, not_here};
ghost use Rattle.fj_script.specs.Refusals.{refusal_of};

use fj_text::{Cause, ReadFault, Reader};
use std::alloc::{AllocError, AllocFailed};
use thiserror::Error;

/// What is wrong at a place of a session. At one place the kind that is named first stands.
#[derive(Clone, Copy, Debug, PartialEq, Eq)]
pub enum FaultKind {
    /// The session has more than 1,048,576 bytes.
    Long,
    /// A byte that begins no token.
    Byte,
    /// A token that no statement may have there, a line that ends too early, or a later `ring`.
    Syntax,
    /// The first statement is another one than `ring`, or there is none.
    NoRing,
    /// The ring's number isn't a prime up to 31.
    Prime,
    /// An eighth variable.
    Vars,
    /// A variable or declared name that is already a name.
    Taken,
    /// A name, or a word in an expression, that isn't declared.
    Unknown,
    /// A name of another kind than the place takes.
    Kind,
    /// A number above 2^32 - 1.
    Wide,
    /// An exponent above 1,000, a value with over 1,000 terms or a degree above 1,000, or a 65th nested parenthesis.
    Large,
    /// A constant polynomial where a nonconstant one is wanted.
    Constant,
    /// More or fewer coordinates of a point than there are variables.
    Arity,
    /// A 4,097th declared name or question, a 257th generator, or over 1,000,000 terms in all declarations.
    Many,
    /// A number outside its limits.
    Range,
}

/// The first fault of a session. Lines and columns count from 1, columns in bytes.
#[derive(Clone, Copy, Debug, PartialEq, Eq)]
pub struct Fault {
    pub kind: FaultKind,
    pub line: u32,
    pub column: u32,
}

/// Why no script was read.
#[derive(Clone, Copy, Debug, PartialEq, Eq, Error)]
pub enum ScriptFault {
    #[error("a fault in the session")]
    At(Fault),
    #[error("out of memory")]
    Memory,
}

/// The first fault of a line. The column is that of a byte, from 0.
#[derive(Clone, Copy)]
pub struct LineFault {
    pub kind: FaultKind,
    pub column: usize,
}

/// Why a line was not read.
#[derive(Clone, Copy)]
pub(crate) enum LineRefusal {
    At(LineFault),
    Memory,
}

impl From<LineFault> for LineRefusal {
    ghost from_gives = { λ fault e. e ≡ At fault };

    fn from(fault: LineFault) -> LineRefusal {
        LineRefusal::At(fault)
    }
}

impl From<AllocError> for LineRefusal {
    ghost from_gives = { λ _ e. e ≡ Memory };

    fn from(_error: AllocError) -> LineRefusal {
        LineRefusal::Memory
    }
}

impl<T: Drop> From<AllocFailed<T>> for LineRefusal {
    ghost from_gives = { λ _ e. e ≡ Memory };

    fn from(_failed: AllocFailed<T>) -> LineRefusal {
        LineRefusal::Memory
    }
}

impl From<ReadFault> for LineRefusal {
    ghost from_gives = { λ fault e. e ≡ refusal_of fault };

    fn from(fault: ReadFault) -> LineRefusal {
        match fault {
            ReadFault::At(fault) => LineRefusal::At(LineFault {
                kind: kind_of(fault.cause),
                column: fault.place,
            }),
            ReadFault::Memory => LineRefusal::Memory,
        }
    }
}

// The kind of a fault of an expression.
fn kind_of(cause: Cause) -> FaultKind
    ensures { result ≡ kind_of cause }
{
    match cause {
        Cause::Byte => FaultKind::Byte,
        Cause::Syntax => FaultKind::Syntax,
        Cause::Unknown => FaultKind::Unknown,
        Cause::Kind => FaultKind::Kind,
        Cause::Wide => FaultKind::Wide,
        Cause::Large => FaultKind::Large,
    }
}

/// A fault at the token that was taken last.
pub(crate) fn fault_at(kind: FaultKind, reader: &Reader) -> LineFault
    ensures { result ≡ fault_at kind reader.now }
{
    LineFault {
        kind,
        column: reader.start(),
    }
}

/// The fault at the next token, which may not stand there, or behind the last one where the line ends.
pub(crate) fn not_here(reader: &Reader) -> LineFault
    ensures { result ≡ not_here reader.now }
{
    let fault = reader.unexpected();
    LineFault {
        kind: kind_of(fault.cause),
        column: fault.place,
    }
}
