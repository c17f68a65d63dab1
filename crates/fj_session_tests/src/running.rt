//! Rows of tests, and how they are run.
ghost use Rattle.std.specs.Prelude.{◌≤◌};

use fj_audit::{Auditor, Recheck, Tally};
use fj_io::{MemorySink, MemorySource};
use fj_session::run;
use std::alloc::{AllocError, Global};
use std::process::Abort;
use std::test::Fail;

/// The words, the session, the status and the output.
pub(crate) type Row<'a> = (&'static [&'static str], &'a [u8], u8, &'a [u8]);

pub(crate) const RUN: &[&str] = &["run"];

pub(crate) const AUDIT: &[&str] = &["run", "audit"];

/// How the outside behaves: the most bytes of a read, the read that fails, the room of the sink and the write that fails.
/// Calls are counted from 1, and call 0 is none.
#[derive(Clone, Copy, Debug)]
pub(crate) struct Outside {
    pub step: usize,
    pub failing_read: u64,
    pub room: usize,
    pub failing_write: u64,
}

/// Nothing fails.
pub(crate) const AMPLE: Outside = Outside {
    step: 10,
    failing_read: 0,
    room: 1000,
    failing_write: 0,
};

/// Runs `run` with these auditors, and answers the status and the sink.
///
/// Condition: a read has at least one byte.
pub(crate) fn outcome(
    alloc: Global,
    words: &[&str],
    session: &[u8],
    outside: Outside,
    auditors: &mut Vec<Box<dyn Auditor>>,
) -> Result<(u8, MemorySink), AllocError>
    requires { 1 ≤ outside.step }
{
    let mut source = MemorySource::new(alloc, session, outside.step, &[outside.failing_read])?;
    let mut sink = MemorySink::new(alloc, outside.room, &[outside.failing_write])?;
    let status = run(alloc, words, &mut source, &mut sink, auditors);
    Ok((status, sink))
}

/// The row holds with these auditors.
///
/// Condition: a read has at least one byte.
pub(crate) fn ends_with(
    rt: &impl Abort,
    alloc: Global,
    row: Row<'_>,
    outside: Outside,
    auditors: &mut Vec<Box<dyn Auditor>>,
) -> Result<(), Fail>
    requires { 1 ≤ outside.step }
{
    let (words, session, status, output) = row;
    let (ended, sink) = outcome(alloc, words, session, outside, auditors)?;
    assert_eq!(rt; ended, status);
    assert_eq!(rt; sink.taken(), output);
    Ok(())
}

/// The row holds with the auditors of the program.
pub(crate) fn ends(
    rt: &impl Abort,
    alloc: Global,
    row: Row<'_>,
    outside: Outside,
) -> Result<(), Fail> {
    let mut auditors: Vec<Box<dyn Auditor>> = Vec::new(alloc);
    auditors.push(Box::new(alloc, Recheck::new())?)?;
    auditors.push(Box::new(alloc, Tally::new())?)?;
    assert!(rt; outside.step >= 1);
    ends_with(rt, alloc, row, outside, &mut auditors)
}

/// The rows hold where nothing fails.
pub(crate) fn all_end(rt: &impl Abort, alloc: Global, rows: &[Row<'static>]) -> Result<(), Fail> {
    for row in rows {
        ends(rt, alloc, *row, AMPLE)?;
    }
    Ok(())
}
