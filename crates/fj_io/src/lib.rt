//! The outside: where a session is read from, and where its answers go.
#![tactic(auto)]

ghost use Rattle.std.specs.Prelude.{◌≡◌, ◌<◌, ℕ, List, [], length, IsOk, OnOk, OnErr};
ghost use Rattle.std.specs.declared.option.Option.{Option};
ghost use Rattle.std.specs.Io.{ReadsAtMost};
ghost use Rattle.std.specs.Io.KnownBytes.{Appends, ReadConsumes};
ghost use Rattle.fj_io.specs.Outside.{HasCause, AppendsFront};

mod memory;
mod standard;
#[cfg(test)]
mod tests;

pub use memory::{MemorySink, MemorySource};
pub use standard::{StdSink, StdSource};
use thiserror::Error;

/// A read or a write failed.
#[derive(Clone, Copy, Debug, PartialEq, Eq, Error)]
#[error("a read or a write failed")]
pub struct Failed;

/// Gives bytes.
pub trait Source {
    /// The bytes not yet read, where the source tells them.
    ghost left: { Self → Option (List ℕ) };

    /// How many faults it has had: a count that never falls.
    ghost faults: { Self → ℕ };

    /// Puts the next bytes at the front of `into`, and answers how many: 0 at the end of input alone.
    fn read(&mut self, into: &mut [u8]) -> Result<usize, Failed>
        requires { 0 < length into.old }
        ensures bound { ReadsAtMost result into.new }
        ensures bytes { ReadConsumes (left self.old) (left self.new) result into.new }
        ensures cause { HasCause (faults self.old) (faults self.new) result };
}

/// Takes bytes.
pub trait Sink {
    /// The bytes accepted, where the sink tells them.
    ghost taken: { Self → Option (List ℕ) };

    /// How many faults it has had: a count that never falls.
    ghost faults: { Self → ℕ };

    /// Takes the whole piece. Where it fails, it has taken a front of the piece.
    fn write_all(&mut self, piece: &[u8]) -> Result<(), Failed>
        ensures ok { OnOk result (Appends (taken self.old) (taken self.new) piece.now) }
        ensures err { OnErr result (AppendsFront (taken self.old) (taken self.new) piece.now) }
        ensures empty { piece.now ≡ [] → IsOk result }
        ensures cause { HasCause (faults self.old) (faults self.new) result };
}
