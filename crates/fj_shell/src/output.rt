//! What is written to a sink, and with which status.
ghost use Rattle.std.specs.Prelude.{◌≡◌, ◌≢◌, ◌≤◌, ◌<◌};
ghost use Rattle.std.specs.Io.KnownBytes.{Appends};
ghost use Rattle.fj_io.specs.Outside.{AppendsFront, Rose};
ghost use Rattle.fj_shell.specs.Shell.{fault_line};
ghost use Rattle.fj_shell.specs.declared.output.Unwritten.TheVariants.{WriteFailed, NoMemory};

use super::fault_line::print_fault;
use super::status::{FAULT, NO_MEMORY, WRITE_FAILED};
use fj_io::{Failed, Sink};
use fj_script::Fault;
use std::alloc::{AllocError, Global};
use thiserror::Error;

/// Why a text was not written.
#[derive(Clone, Copy, Debug, PartialEq, Eq, Error)]
pub enum Unwritten {
    #[error("a write failed")]
    WriteFailed,
    #[error("out of memory")]
    NoMemory,
}

impl From<Failed> for Unwritten {
    ghost from_gives = { λ _ e. e ≡ WriteFailed };

    fn from(_failed: Failed) -> Unwritten {
        Unwritten::WriteFailed
    }
}

impl From<AllocError> for Unwritten {
    ghost from_gives = { λ _ e. e ≡ NoMemory };

    fn from(_error: AllocError) -> Unwritten {
        Unwritten::NoMemory
    }
}

/// Hands a text to the sink in one piece, and answers the status: the given one where the text was written, and 5 where the
/// write failed; then a front of the text was taken.
///
/// Condition: the given status is below 4.
pub fn write_text<K: Sink>(sink: &mut K, status: u8, text: &[u8]) -> u8
    requires { status < 4 }
    ensures written { result < 4 → (result ≡ status) × Appends (K.taken sink.old) (K.taken sink.new) text.now }
    ensures failed { 4 ≤ result → (result ≡ 5) × AppendsFront (K.taken sink.old) (K.taken sink.new) text.now × Rose (K.faults sink.old) (K.faults sink.new) }
{
    match sink.write_all(text) {
        Ok(()) => status,
        Err(_) => WRITE_FAILED,
    }
}

/// Hands the line of a fault to the sink, and answers the status: 2 where the line was written, 5 where the write failed, then
/// a front of the line was taken, and 6 where memory was wanting, then nothing was.
pub fn write_fault<K: Sink>(alloc: Global, fault: &Fault, sink: &mut K) -> u8
    ensures written { result < 4 → (result ≡ 2) × Appends (K.taken sink.old) (K.taken sink.new) (fault_line fault.now) }
    ensures failed { result ≡ 5 → AppendsFront (K.taken sink.old) (K.taken sink.new) (fault_line fault.now) × Rose (K.faults sink.old) (K.faults sink.new) }
    ensures memory { result ≡ 6 → sink.new ≡ sink.old }
    ensures statuses { (result ≤ 6) × (result ≢ 4) }
{
    match print_fault(alloc, fault) {
        Ok(line) => write_text(sink, FAULT, &line),
        Err(_) => NO_MEMORY,
    }
}
