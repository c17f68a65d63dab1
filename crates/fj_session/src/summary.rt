//! The summary of a generated session.
ghost use Rattle.std.specs.Prelude.{◌≡◌, ◌≢◌, ◌+◌, ◌^◌, ◌<◌, ◌≤◌, ◌++◌, ℕ, List, IfOk, OnOk, decimal, map, if◌then◌else◌, ◌==◌};
ghost use Rattle.std.specs.Io.KnownBytes.{Appends};
ghost use Rattle.std.specs.List.{AllZip};
ghost use Rattle.fj_audit.specs.Handing.{AreShownAll, IsAsGood};
ghost use Rattle.fj_io.specs.Outside.{AppendsFront, Rose};
ghost use Rattle.fj_session.specs.Lines.{IsCount, no_answer, summary_line, summary_of, with_answer};
ghost use Rattle.fj_session.specs.Reply.{AreReplies, Reply, certificates_of, status_of};
ghost use Rattle.fj_shell.specs.Asked.{IsScriptOf};

use super::answering::answer;
use super::types::Answer;
use fj_audit::Auditor;
use fj_io::Sink;
use fj_script::Script;
use fj_shell::status::{ANSWERED, NO_MEMORY, STOPPED};
use fj_shell::write_text;
use itoa::Buffer;
use std::alloc::{AllocError, Global};

/// The questions, all F-jumping numbers, all open gaps and the stops of a session.
#[derive(Clone, Copy, Debug)]
pub(crate) struct Summary {
    questions: u128,
    jumps: u128,
    gaps: u128,
    stopped: u128,
}

impl Summary {
    /// Where no question is answered.
    fn new() -> Summary
        ensures { result ≡ no_answer }
    {
        Summary {
            questions: 0,
            jumps: 0,
            gaps: 0,
            stopped: 0,
        }
    }

    /// Counts an answer more.
    fn count(&mut self, answer: &Answer)
        requires counts { IsCount self.old }
        requires few { self.old.questions + 1 < 2 ^ 64 }
        ensures after { self.new ≡ with_answer self.old answer.now }
        ensures counts { IsCount self.new }
    {
        self.questions += 1;
        match answer {
            Answer::Jumps { jumps, gaps, .. } => {
                self.jumps += jumps.len() as u128;
                self.gaps += gaps.len() as u128;
            }
            Answer::StoppedPairs(_) | Answer::StoppedHigh(_) => self.stopped += 1,
            _ => {}
        }
    }

    /// The status: 3 where a question stopped, else 0.
    fn status(&self) -> u8
        ensures { result ≡ (if self.now.stopped == 0 then 0 else 3) }
    {
        if self.stopped == 0 { ANSWERED } else { STOPPED }
    }
}

/// Answers the questions of a generated session and hands the line of their summary to the sink, in one piece. The status is 0
/// or 3 where the line was written, 5 where the write failed, and 6 where memory was wanting.
pub(crate) fn write_summary<K: Sink>(
    alloc: Global,
    n: u32,
    script: &Script,
    sink: &mut K,
    auditors: &mut Vec<Box<dyn Auditor>>,
) -> u8
    requires { (bytes : List ℕ) × IsScriptOf bytes script.now }
    ensures whole { result < 4 → (replies : List Reply) × AreReplies script.now.env script.now.asked replies
        × (result ≡ status_of replies)
        × Appends (K.taken sink.old) (K.taken sink.new) (summary_line n (summary_of replies))
        × AreShownAll (certificates_of replies) (map account auditors.old.items) (map account auditors.new.items) }
    ensures failed { result ≡ 5 → Rose (K.faults sink.old) (K.faults sink.new)
        × ((replies : List Reply) × AreReplies script.now.env script.now.asked replies
        × AppendsFront (K.taken sink.old) (K.taken sink.new) (summary_line n (summary_of replies))) }
    ensures memory { result ≡ 6 → sink.new ≡ sink.old }
    ensures good { AllZip IsAsGood (map account auditors.old.items) (map account auditors.new.items) }
    ensures statuses { (result ≤ 6) × (result ≢ 4) }
{
    let Ok(summary) = summarize(alloc, script, auditors) else {
        return NO_MEMORY;
    };
    let Ok(line) = print_summary(alloc, n, &summary) else {
        return NO_MEMORY;
    };
    write_text(sink, summary.status(), &line)
}

/// Answers the questions of a session, and sums them up.
fn summarize(
    alloc: Global,
    script: &Script,
    auditors: &mut Vec<Box<dyn Auditor>>,
) -> Result<Summary, AllocError>
    requires { (bytes : List ℕ) × IsScriptOf bytes script.now }
    ensures summary { IfOk result (λ summary. (replies : List Reply) × AreReplies script.now.env script.now.asked replies
        × (summary ≡ summary_of replies)
        × AreShownAll (certificates_of replies) (map account auditors.old.items) (map account auditors.new.items)) }
    ensures good { AllZip IsAsGood (map account auditors.old.items) (map account auditors.new.items) }
{
    let mut summary = Summary::new();
    for i in 0..script.asked.len() {
        let answer = answer(alloc, &script.env, script.asked.get(i), auditors)?;
        summary.count(&answer);
    }
    Ok(summary)
}

/// The line of a summary.
#[tactic(auto, unfolding(crate::specs::Lines::summary_line))]
fn print_summary(alloc: Global, n: u32, summary: &Summary) -> Result<Vec<u8>, AllocError>
    ensures { IfOk result (λ text. text.items ≡ summary_line n summary.now) }
{
    let mut out = Vec::new(alloc);
    out.extend_from_slice(b"gen ")?;
    push_count(&mut out, u128::from(n))?;
    out.extend_from_slice(b": questions ")?;
    push_count(&mut out, summary.questions)?;
    out.extend_from_slice(b", jumps ")?;
    push_count(&mut out, summary.jumps)?;
    out.extend_from_slice(b", open ")?;
    push_count(&mut out, summary.gaps)?;
    out.extend_from_slice(b", stopped ")?;
    push_count(&mut out, summary.stopped)?;
    out.extend_from_slice(b"\n")?;
    Ok(out)
}

/// Appends a number in decimal.
fn push_count(out: &mut Vec<u8>, number: u128) -> Result<(), AllocError>
    ensures { OnOk result (out.new.items ≡ out.old.items ++ decimal number) }
{
    let mut buffer = Buffer::new();
    out.extend_from_slice(buffer.format(number).as_bytes())
}
