//! The answers to the questions of a session, each written as it comes.
ghost use Rattle.std.specs.Prelude.{◌≡◌, ◌≢◌, ◌≤◌, ◌<◌, ◌+◌, ◌++◌, ◌∷◌, [], ℕ, List, IfOk, IsErrOf, length, map, take, if◌then◌else◌};
ghost use Rattle.std.specs.Io.KnownBytes.{Appends};
ghost use Rattle.std.specs.List.{AllZip};
ghost use Rattle.fj_audit.specs.Handing.{AreShownAll, IsAsGood};
ghost use Rattle.fj_io.specs.Outside.{AppendsFront, Rose};
ghost use Rattle.fj_session.specs.Answer.{is_stopped};
ghost use Rattle.fj_session.specs.Reply.{AreReplies, IsReply, Reply, answer_texts, certificates_of, status_of};
ghost use Rattle.fj_session.specs.Text.{answer_bytes};
ghost use Rattle.fj_shell.specs.Asked.{AreOfOneSession, IsScriptOf};
ghost use Rattle.fj_shell.specs.Shell.{AppendsCut, together};

use super::answering::answer;
use super::printing::print_answer;
use super::types::Answer;
use fj_audit::Auditor;
use fj_io::Sink;
use fj_script::{Asked, Env, Script};
use fj_shell::Unwritten;
use fj_shell::status::{ANSWERED, NO_MEMORY, STOPPED, WRITE_FAILED};
use std::alloc::Global;

/// Answers a question, hands its text to the sink, and tells whether it stopped.
fn write_answer<K: Sink>(
    alloc: Global,
    env: &Env,
    asked: &Asked,
    sink: &mut K,
    auditors: &mut Vec<Box<dyn Auditor>>,
) -> Result<bool, Unwritten>
    requires { AreOfOneSession env.now asked.now }
    ensures answered { IfOk result (λ stopped. (r : Reply) × (r.asked ≡ asked.now) × IsReply env.now r × (stopped ≡ is_stopped r.answer)
        × Appends (K.taken sink.old) (K.taken sink.new) (answer_bytes env.now.vars asked.now.number r.answer)
        × AreShownAll r.certificates (map account auditors.old.items) (map account auditors.new.items)) }
    ensures failed { IsErrOf result Unwritten.WriteFailed → Rose (K.faults sink.old) (K.faults sink.new)
        × ((r : Reply) × (r.asked ≡ asked.now) × IsReply env.now r
        × AppendsFront (K.taken sink.old) (K.taken sink.new) (answer_bytes env.now.vars asked.now.number r.answer)) }
    ensures memory { IsErrOf result Unwritten.NoMemory → sink.new ≡ sink.old }
    ensures good { AllZip IsAsGood (map account auditors.old.items) (map account auditors.new.items) }
    ensures later { K.faults sink.old ≤ K.faults sink.new }
{
    let answer = answer(alloc, env, asked, auditors)?;
    let text = print_answer(alloc, &env.vars, asked.number, &answer)?;
    sink.write_all(&text)?;
    Ok(is_stopped(&answer))
}

/// Whether a question stopped.
fn is_stopped(answer: &Answer) -> bool
    ensures { result ≡ is_stopped answer.now }
{
    matches!(answer, Answer::StoppedPairs(_) | Answer::StoppedHigh(_))
}

/// The status after one more answer.
fn status_after(status: u8, is_stopped: bool) -> u8
    ensures { result ≡ (if is_stopped then 3 else status) }
{
    if is_stopped { STOPPED } else { status }
}

/// Answers the questions of a session, hands each text to the sink, and answers the status: 0 or 3 where all were written, 5
/// where a write failed, and 6 where memory was wanting.
pub(crate) fn write_answers<K: Sink>(
    alloc: Global,
    script: &Script,
    sink: &mut K,
    auditors: &mut Vec<Box<dyn Auditor>>,
) -> u8
    requires { (bytes : List ℕ) × IsScriptOf bytes script.now }
    ensures whole { result < 4 → (replies : List Reply) × AreReplies script.now.env script.now.asked replies
        × (result ≡ status_of replies)
        × Appends (K.taken sink.old) (K.taken sink.new) (together (answer_texts script.now.env replies))
        × AreShownAll (certificates_of replies) (map account auditors.old.items) (map account auditors.new.items) }
    ensures failed { result ≡ 5 → Rose (K.faults sink.old) (K.faults sink.new)
        × ((replies : List Reply) × (last : Reply)
        × AreReplies script.now.env (take (length replies + 1) script.now.asked) (replies ++ last ∷ [])
        × AppendsCut (K.taken sink.old) (K.taken sink.new) (answer_texts script.now.env replies)
        (answer_bytes script.now.env.vars last.asked.number last.answer)) }
    ensures memory { result ≡ 6 → (replies : List Reply)
        × AreReplies script.now.env (take (length replies) script.now.asked) replies
        × Appends (K.taken sink.old) (K.taken sink.new) (together (answer_texts script.now.env replies)) }
    ensures good { AllZip IsAsGood (map account auditors.old.items) (map account auditors.new.items) }
    ensures statuses { (result ≤ 6) × (result ≢ 4) }
    ensures later { K.faults sink.old ≤ K.faults sink.new }
{
    let mut status = ANSWERED;
    for i in 0..script.asked.len() {
        let asked = script.asked.get(i);
        let is_stopped = match write_answer(alloc, &script.env, asked, sink, auditors) {
            Ok(is_stopped) => is_stopped,
            Err(Unwritten::WriteFailed) => return WRITE_FAILED,
            Err(Unwritten::NoMemory) => return NO_MEMORY,
        };
        status = status_after(status, is_stopped);
    }
    status
}
