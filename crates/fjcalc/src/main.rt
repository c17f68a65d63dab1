//! `fjcalc`: reads a session from standard input, or makes one, and answers it on standard output; an auditor that checks
//! each certificate again and one that counts them are shown those of the answers. What is written, and each status, is
//! `fj_session::run`'s own; status 8 is main's, where the system doesn't give the words.
#![tactic(auto)]

use fj_audit::{Auditor, Recheck, Tally};
use fj_io::{StdSink, StdSource};
use fj_session::run;
use std::alloc::AllocError;
use std::env::{self, Args};
use std::io::ErrorKind;
use std::process::ExitCode;

/// Memory was wanting.
const NO_MEMORY: u8 = 6;

/// The system didn't give the words.
const NO_WORDS: u8 = 8;

/// Runs over the words behind the program's name with the auditors of the program, in the order of their lines, and answers
/// the status.
fn run_with(rt: &HostRuntime, args: Args) -> Result<u8, AllocError> {
    let alloc = rt.alloc();
    let mut texts = Vec::new(alloc);
    for text in args.skip(1) {
        texts.push(text)?;
    }
    let mut words = Vec::new(alloc);
    for text in &texts {
        words.push(text.as_str())?;
    }
    let mut auditors: Vec<Box<dyn Auditor>> = Vec::new(alloc);
    auditors.push(Box::new(alloc, Recheck::new())?)?;
    auditors.push(Box::new(alloc, Tally::new())?)?;
    let mut source = StdSource::new(rt.stdin());
    let mut sink = StdSink::new(rt.stdout());
    Ok(run(alloc, &words, &mut source, &mut sink, &mut auditors))
}

fn main(rt: HostRuntime) -> ExitCode {
    let status = match env::args(&rt) {
        Ok(args) => run_with(&rt, args).unwrap_or(NO_MEMORY),
        Err(e) if e.kind() == ErrorKind::OutOfMemory => NO_MEMORY,
        Err(_) => NO_WORDS,
    };
    ExitCode::from(status)
}
