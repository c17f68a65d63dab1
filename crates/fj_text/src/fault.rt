//! What is wrong in a text, and where.
ghost use Rattle.std.specs.Prelude.{◌≡◌};
ghost use Rattle.fj_text.specs.declared.fault.ReadFault.TheVariants.{At, Memory};
ghost use Rattle.fj_text.specs.Reading.{fault_of, text_fault};

use std::alloc::{AllocError, AllocFailed};
use thiserror::Error;

/// What is wrong at a place of a text.
#[derive(Clone, Copy, Debug, PartialEq, Eq)]
pub enum Cause {
    /// A byte that begins no token.
    Byte,
    /// A token that may not stand there, or a line that ends too early.
    Syntax,
    /// A word that stands for nothing.
    Unknown,
    /// A word that stands for something else than a variable.
    Kind,
    /// A number above 2^32 - 1.
    Wide,
    /// An exponent above 1,000, a value with over 1,000 terms or a degree above 1,000, or a 65th nested parenthesis.
    Large,
}

/// The first fault of a line: what is wrong, and the place of the byte in the line, from 0.
#[derive(Clone, Copy, Debug, PartialEq, Eq)]
pub struct Fault {
    pub cause: Cause,
    pub place: usize,
}

/// Why nothing was read.
#[derive(Clone, Copy, Debug, PartialEq, Eq)]
pub enum ReadFault {
    At(Fault),
    Memory,
}

impl From<Fault> for ReadFault {
    ghost from_gives = { λ fault e. e ≡ At fault };

    fn from(fault: Fault) -> ReadFault {
        ReadFault::At(fault)
    }
}

impl From<AllocError> for ReadFault {
    ghost from_gives = { λ _ e. e ≡ Memory };

    fn from(_error: AllocError) -> ReadFault {
        ReadFault::Memory
    }
}

/// Why an expression was not read. The number is the byte's place in the line, from 0.
#[derive(Clone, Copy, Debug, PartialEq, Eq, Error)]
pub enum TextFault {
    /// A byte that begins no token.
    #[error("a byte that begins no token, at {0}")]
    Byte(usize),
    /// A token that may not stand there, or a line that ends too early.
    #[error("not an expression, at {0}")]
    Syntax(usize),
    /// A word that is no variable.
    #[error("not a variable, at {0}")]
    UnknownVar(usize),
    /// A number above 2^32 - 1.
    #[error("a number above 2^32 - 1, at {0}")]
    Wide(usize),
    /// An exponent above 1,000, a value with over 1,000 terms or a degree above 1,000, or a 65th nested parenthesis.
    #[error("too large, at {0}")]
    Large(usize),
    #[error("out of memory")]
    Memory,
}

impl From<Fault> for TextFault {
    ghost from_gives = { λ fault e. e ≡ fault_of fault.cause fault.place };

    fn from(fault: Fault) -> TextFault {
        let place = fault.place;
        match fault.cause {
            Cause::Byte => TextFault::Byte(place),
            Cause::Syntax => TextFault::Syntax(place),
            Cause::Unknown => TextFault::UnknownVar(place),
            Cause::Kind => TextFault::UnknownVar(place),
            Cause::Wide => TextFault::Wide(place),
            Cause::Large => TextFault::Large(place),
        }
    }
}

impl From<ReadFault> for TextFault {
    ghost from_gives = { λ fault e. e ≡ text_fault fault };

    fn from(fault: ReadFault) -> TextFault {
        match fault {
            ReadFault::At(fault) => fault.into(),
            ReadFault::Memory => TextFault::Memory,
        }
    }
}
