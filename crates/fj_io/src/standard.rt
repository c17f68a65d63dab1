//! The readers and writers of the standard library as a source and a sink.
ghost use Rattle.std.specs.Prelude.{◌≡◌, ◌<◌, [], length, IsOk, OnErr, OnOk};
ghost use Rattle.std.specs.Io.{ReadsAtMost};
ghost use Rattle.std.specs.Io.KnownBytes.{Appends, ReadConsumes};
ghost use Rattle.fj_io.specs.Outside.{AppendsFront, CountsFault, HasCause};

use super::{Failed, Sink, Source};
use std::io::{Read, Write};

/// A reader of the standard library. Each `Err` of it counts as a fault.
#[derive(Debug, Drop)]
pub struct StdSource<R> {
    inner: R,
    faults: u64,
}

impl<R: Read> StdSource<R> {
    /// A source over a reader, with no fault so far.
    pub fn new(inner: R) -> StdSource<R>
        ensures left { ⟦<StdSource<R> as Source>⟧.left result ≡ R.remaining inner }
        ensures faults { ⟦<StdSource<R> as Source>⟧.faults result ≡ 0 }
    {
        StdSource { inner, faults: 0 }
    }
}

impl<R: Read> Source for StdSource<R> {
    ghost left = { λ s. R.remaining s.inner };

    ghost faults = { λ s. s.faults };

    fn read(&mut self, into: &mut [u8]) -> Result<usize, Failed>
        requires { 0 < length into.old }
        ensures bound { ReadsAtMost result into.new }
        ensures bytes { ReadConsumes (R.remaining self.old.inner) (R.remaining self.new.inner) result into.new }
        ensures cause { HasCause self.old.faults self.new.faults result }

        // Each failure is one fault more, and nothing else is.
        ensures counted { CountsFault self.old.faults self.new.faults result }
    {
        match self.inner.read(into) {
            Ok(count) => Ok(count),
            Err(_) => {
                self.faults = self.faults.saturating_add(1);
                Err(Failed)
            }
        }
    }
}

/// A writer of the standard library. Each `Err` of it counts as a fault, and so does a write that takes
/// nothing of a piece that isn't empty.
#[derive(Debug, Drop)]
pub struct StdSink<W> {
    inner: W,
    faults: u64,
}

impl<W: Write> StdSink<W> {
    /// A sink over a writer, with no fault so far.
    pub fn new(inner: W) -> StdSink<W>
        ensures taken { ⟦<StdSink<W> as Sink>⟧.taken result ≡ W.contents inner }
        ensures faults { ⟦<StdSink<W> as Sink>⟧.faults result ≡ 0 }
    {
        StdSink { inner, faults: 0 }
    }
}

impl<W: Write> Sink for StdSink<W> {
    ghost taken = { λ s. W.contents s.inner };

    ghost faults = { λ s. s.faults };

    fn write_all(&mut self, piece: &[u8]) -> Result<(), Failed>
        ensures ok { OnOk result (Appends (W.contents self.old.inner) (W.contents self.new.inner) piece.now) }
        ensures err { OnErr result (AppendsFront (W.contents self.old.inner) (W.contents self.new.inner) piece.now) }
        ensures empty { piece.now ≡ [] → IsOk result }
        ensures cause { HasCause self.old.faults self.new.faults result }

        // Each failure is one fault more, and nothing else is.
        ensures counted { CountsFault self.old.faults self.new.faults result }
    {
        let mut rest = piece;
        while !rest.is_empty() {
            match self.inner.write(rest) {
                Ok(count) if count > 0 => rest = &rest[count..],
                _ => {
                    self.faults = self.faults.saturating_add(1);
                    return Err(Failed);
                }
            }
        }
        Ok(())
    }
}
