//! A source and a sink in memory, for tests: the calls whose numbers are listed fail.
ghost use Rattle.std.specs.Prelude.{◌≡◌, ◌↔◌, ◌+◌, ◌<◌, ◌≤◌, [], ◌++◌, length, take, drop, IsTrue, IfOk, OnOk, OnErr, IsOk, IsErr};
ghost use Rattle.std.specs.Io.{ReadsAtMost};
ghost use Rattle.std.specs.Io.KnownBytes.{Appends, ReadConsumes};
ghost use Rattle.fj_io.specs.Outside.{next_count, HasCause, AppendsFront};
ghost use Rattle.fj_io.specs.Memory.{first_schedule, after_call, after_fault, is_listed, given_count, after_giving, after_failed_read, is_taken_whole, after_taking, after_failed_write};

use super::{Failed, Sink, Source};
use std::alloc::{AllocError, Global};
use std::marker::Model;

/// Which calls fail, and how many were made and failed. Both counts stay at `u64::MAX` once there.
#[derive(Debug, Drop)]
struct CallSchedule {
    fails: Vec<u64>,
    calls: u64,
    faults: u64,
}

impl Model for CallSchedule {
    ghost use Rattle.fj_io.specs.Memory.{Schedule};

    ghost Value = { Schedule };

    ghost view = { λ s. record { fails = s.fails.items; calls = s.calls; faults = s.faults } };
}

impl CallSchedule {
    fn new(alloc: Global, fails: &[u64]) -> Result<CallSchedule, AllocError>
        ensures { IfOk result (λ s. s ≡ first_schedule fails.now) }
    {
        let fails = Vec::from_slice(alloc, fails)?;
        Ok(CallSchedule {
            fails,
            calls: 0,
            faults: 0,
        })
    }

    /// Counts a call, and answers whether it is listed. Number `u64::MAX` names no call.
    fn count_call(&mut self) -> bool
        ensures listed { result ≡ is_listed self.old }
        ensures counted { self.new ≡ after_call self.old }
    {
        self.calls = self.calls.saturating_add(1);
        self.calls < u64::MAX && self.fails.contains(&self.calls)
    }

    /// Counts a fault of the call that was counted last.
    fn count_fault(&mut self)
        ensures counted { self.new ≡ record self.old { faults = next_count self.old.faults } }
        ensures later { self.old.faults ≤ self.new.faults }
    {
        self.faults = self.faults.saturating_add(1);
    }
}

/// Gives bytes of its own, at most `step` at a call. The calls whose numbers are listed, counted from 1, fail.
#[derive(Debug, Drop)]
pub struct MemorySource {
    bytes: Vec<u8>,
    at: usize,
    step: usize,
    schedule: CallSchedule,
}

impl Model for MemorySource {
    ghost use Rattle.std.specs.Prelude.{◌≤◌, ◌<◌, drop, length};
    ghost use Rattle.fj_io.specs.Memory.{Input};

    ghost Value = { Input };

    ghost view = { λ s. record { left = drop s.at s.bytes.items; step = s.step; schedule = s.schedule } };

    ghost invariant = { λ s. (s.at ≤ length s.bytes.items) × (0 < s.step) };
}

impl MemorySource {
    /// A source of these bytes.
    pub fn new(
        alloc: Global,
        bytes: &[u8],
        step: usize,
        fails: &[u64],
    ) -> Result<MemorySource, AllocError>
        requires { 1 ≤ step }
        ensures { IfOk result (λ s. s
            ≡ record { left = bytes.now; step = step; schedule = first_schedule fails.now }) }
    {
        Ok(MemorySource {
            bytes: Vec::from_slice(alloc, bytes)?,
            at: 0,
            step,
            schedule: CallSchedule::new(alloc, fails)?,
        })
    }
}

impl Source for MemorySource {
    ghost use Rattle.std.specs.Prelude.{Some};

    ghost left = { λ s. Some s.left };

    ghost faults = { λ s. s.schedule.faults };

    fn read(&mut self, into: &mut [u8]) -> Result<usize, Failed>
        requires { 0 < length into.old }
        ensures bound { ReadsAtMost result into.new }
        ensures bytes { ReadConsumes (Some self.old.left) (Some self.new.left) result into.new }
        ensures cause { HasCause self.old.schedule.faults self.new.schedule.faults result }

        // Which calls fail, and what each call gives and leaves.
        ensures listed { IsErr result ↔ IsTrue (is_listed self.old.schedule) }
        ensures count { IfOk result (λ n. n ≡ given_count self.old (length into.old)) }
        ensures given { IfOk result (λ n. into.new ≡ take n self.old.left ++ drop n into.old) }
        ensures after { IfOk result (λ n. self.new ≡ after_giving self.old n) }
        ensures failed { OnErr result (self.new ≡ after_failed_read self.old) }
    {
        if self.schedule.count_call() {
            self.schedule.count_fault();
            return Err(Failed);
        }
        let rest = &self.bytes[self.at..];
        let count = self.step.min(into.len()).min(rest.len());
        into[..count].copy_from_slice(&rest[..count]);
        self.at += count;
        Ok(count)
    }
}

/// Takes bytes as far as it has room. The calls whose numbers are listed, counted from 1, fail and take nothing.
#[derive(Debug, Drop)]
pub struct MemorySink {
    taken: Vec<u8>,
    room: usize,
    schedule: CallSchedule,
}

impl Model for MemorySink {
    ghost use Rattle.std.specs.Prelude.{◌≤◌, vec_len, vec_capacity};
    ghost use Rattle.fj_io.specs.Memory.{Output};

    ghost Value = { Output };

    ghost view = { λ s. record { taken = s.taken.items; room = s.room; schedule = s.schedule } };

    ghost invariant = { λ s. (vec_len s.taken ≤ s.room) × (s.room ≤ vec_capacity s.taken) };
}

impl MemorySink {
    /// A sink with room for so many bytes, which it takes first.
    pub fn new(alloc: Global, room: usize, fails: &[u64]) -> Result<MemorySink, AllocError>
        ensures { IfOk result (λ s. s
            ≡ record { taken = []; room = room; schedule = first_schedule fails.now }) }
    {
        Ok(MemorySink {
            taken: Vec::with_capacity(alloc, room)?,
            room,
            schedule: CallSchedule::new(alloc, fails)?,
        })
    }

    /// The bytes taken.
    pub fn taken(&self) -> &[u8]
        ensures { result.now ≡ self.now.taken }
    {
        &self.taken
    }

    /// Appends a piece that fits.
    fn append(&mut self, piece: &[u8])
        requires { length self.old.taken + length piece.now ≤ self.old.room }
        ensures { self.new ≡ record self.old { taken = self.old.taken ++ piece.now } }
    {
        self.taken.extend_from_slice(piece).unwrap();
    }
}

impl Sink for MemorySink {
    ghost use Rattle.std.specs.Prelude.{Some};

    ghost taken = { λ s. Some s.taken };

    ghost faults = { λ s. s.schedule.faults };

    fn write_all(&mut self, piece: &[u8]) -> Result<(), Failed>
        ensures ok { OnOk result (Appends (Some self.old.taken) (Some self.new.taken) piece.now) }
        ensures err { OnErr result (AppendsFront (Some self.old.taken) (Some self.new.taken) piece.now) }
        ensures empty { piece.now ≡ [] → IsOk result }
        ensures cause { HasCause self.old.schedule.faults self.new.schedule.faults result }

        // Which calls fail, and what each call takes.
        ensures whole { IsOk result ↔ IsTrue (is_taken_whole self.old (length piece.now)) }
        ensures after { OnOk result (self.new ≡ after_taking self.old piece.now) }
        ensures failed { OnErr result (self.new ≡ after_failed_write self.old piece.now) }
    {
        let is_listed = self.schedule.count_call();

        let front = if is_listed {
            0
        } else {
            (self.room - self.taken.len()).min(piece.len())
        };
        self.append(&piece[..front]);
        if front < piece.len() {
            self.schedule.count_fault();
            return Err(Failed);
        }
        Ok(())
    }
}
