//! The program's one call: a session is read or generated, answered and written.
ghost use Rattle.std.specs.Prelude.{◌≡◌, ◌≢◌, ◌≤◌, ◌<◌, ◌⊎◌, ◌++◌, ◌∷◌, [], ℕ, List, Err, IfOk, IsErrOf, filter, length, map};
ghost use Rattle.std.specs.Io.KnownBytes.{Appends};
ghost use Rattle.std.specs.List.{AllZip};
ghost use Rattle.fj_audit.specs.Handing.{AreShownAll, IsAsGood, remains};
ghost use Rattle.fj_gen.specs.Generated.{generated};
ghost use Rattle.fj_io.specs.Outside.{Rose};
ghost use Rattle.fj_plain.specs.declared.cert.Cert.{Cert};
ghost use Rattle.fj_script.specs.Script as session;
ghost use Rattle.fj_script.specs.declared.fault.Fault.{Fault};
ghost use Rattle.fj_script.specs.declared.script.Script as scripts;
ghost use Rattle.fj_session.specs.Program.{AreBeforeLast, AreFirstOfRun, AreFirstOfSession, IsRun, IsSession, all_pieces};
ghost use Rattle.fj_session.specs.Reply.{AreReplies, Reply, certificates_of, status_of};
ghost use Rattle.fj_session.specs.Words.{AskForReading, IsForm};
ghost use Rattle.fj_session.specs.declared.words.Form as forms;
ghost use Rattle.fj_shell.specs.Asked.{IsScriptOf};
ghost use Rattle.fj_shell.specs.Shell.{AppendsCut, texts_of, together};

use super::auditing::write_auditors;
use super::summary::write_summary;
use super::words::{Form, read_words};
use super::writing::write_answers;
use fj_audit::{Auditor, sweep};
use fj_gen::laws::generated_is_accepted;
use fj_gen::made_script;
use fj_io::{Sink, Source};
use fj_script::{Script, ScriptFault, read_script};
use fj_shell::status::{NO_MEMORY, READ_FAILED, STOPPED, USAGE};
use fj_shell::{Unread, read_whole_script, write_fault, write_text};
use std::alloc::{AllocError, Global};

/// The words, as a line.
const USAGE_LINE: &[u8] = b"usage: fjcalc run | fjcalc run audit | fjcalc gen N\n";

/// Drops the auditors that are out, of so many. It has a condition, since the check doubts a function without one that hands
/// boxed objects to another crate: it can't tell whether they are the caller's.
fn drop_out(many: usize, auditors: &mut Vec<Box<dyn Auditor>>)
    requires { many ≡ length auditors.old.items }
    ensures kept { auditors.new.items ≡ filter (λ a. remains (account a)) auditors.old.items }
{
    let _ = many;
    sweep(auditors);
}

/// The script of the generated session of n.
///
/// Condition: n is at least 1 and at most 1,000.
fn generated_script(alloc: Global, n: u32) -> Result<Script, AllocError>
    requires some { 1 ≤ n }
    requires few { n ≤ 1000 }
    ensures { IfOk result (IsScriptOf (generated n)) }
{
    let bytes = made_script(alloc, n)?;
    generated_is_accepted();
    match read_script(alloc, &bytes) {
        Ok(script) => Ok(script),
        Err(ScriptFault::At(_)) => unreachable!(),
        Err(ScriptFault::Memory) => Err(AllocError),
    }
}

/// The script of the session that the words ask for.
fn script_for<S: Source>(alloc: Global, form: Form, source: &mut S) -> Result<Script, Unread>
    requires { (words : List (List ℕ)) × IsForm form words }
    ensures script { IfOk result (λ script. (bytes : List ℕ)
        × IsSession form (S.left source.old) (S.left source.new) bytes × IsScriptOf bytes script) }
    ensures fault { (fault : Fault) → IsErrOf result (Unread.At fault) → (bytes : List ℕ)
        × IsSession form (S.left source.old) (S.left source.new) bytes × (session.script bytes ≡ Err fault) }
    ensures failed { IsErrOf result Unread.Failed → Rose (S.faults source.old) (S.faults source.new) }
    ensures memory { IsErrOf result Unread.Memory → (source.new ≡ source.old)
        ⊎ ((bytes : List ℕ) × IsSession form (S.left source.old) (S.left source.new) bytes) }
    ensures generated { (n : ℕ) → form ≡ Form.Gen n → (source.new ≡ source.old)
        × (IsErrOf result Unread.Failed → ⊥) × ((fault : Fault) → IsErrOf result (Unread.At fault) → ⊥) }
{
    match form {
        Form::Run | Form::Audit => read_whole_script(alloc, source),
        Form::Gen(n) => generated_script(alloc, n).map_err(|_| Unread::Memory),
    }
}

/// Answers the questions of a session and writes what the form wants. The status is 0 or 3 where all was written, 5 where a
/// write failed, and 6 where memory was wanting.
fn answer_script<K: Sink>(
    alloc: Global,
    form: Form,
    script: &Script,
    sink: &mut K,
    auditors: &mut Vec<Box<dyn Auditor>>,
) -> u8
    requires { (bytes : List ℕ) × IsScriptOf bytes script.now }
    ensures whole { result < 4 → (replies : List Reply) × AreReplies script.now.env script.now.asked replies
        × (result ≡ status_of replies)
        × Appends (K.taken sink.old) (K.taken sink.new) (together (all_pieces form (map account auditors.new.items) script.now.env replies))
        × AreShownAll (certificates_of replies) (map account auditors.old.items) (map account auditors.new.items) }
    ensures failed { result ≡ 5 → Rose (K.faults sink.old) (K.faults sink.new)
        × ((whole : List (List ℕ)) × (next : List ℕ)
        × AreFirstOfSession form (map account auditors.new.items) script.now (whole ++ next ∷ [])
        × AppendsCut (K.taken sink.old) (K.taken sink.new) whole next) }
    ensures memory { result ≡ 6 → (whole : List (List ℕ))
        × AreBeforeLast form (map account auditors.new.items) script.now whole
        × Appends (K.taken sink.old) (K.taken sink.new) (together whole) }
    ensures good { AllZip IsAsGood (map account auditors.old.items) (map account auditors.new.items) }
    ensures statuses { (result ≤ 6) × (result ≢ 4) }
{
    match form {
        Form::Run => write_answers(alloc, script, sink, auditors),
        Form::Audit => audit_script(alloc, script, sink, auditors),
        Form::Gen(n) => write_summary(alloc, n, script, sink, auditors),
    }
}

/// Writes the answers to the questions of a session, and then the lines of the auditors that remain.
fn audit_script<K: Sink>(
    alloc: Global,
    script: &Script,
    sink: &mut K,
    auditors: &mut Vec<Box<dyn Auditor>>,
) -> u8
    requires { (bytes : List ℕ) × IsScriptOf bytes script.now }
    ensures whole { result < 4 → (replies : List Reply) × AreReplies script.now.env script.now.asked replies
        × (result ≡ status_of replies)
        × Appends (K.taken sink.old) (K.taken sink.new) (together (all_pieces Form.Audit (map account auditors.new.items) script.now.env replies))
        × AreShownAll (certificates_of replies) (map account auditors.old.items) (map account auditors.new.items) }
    ensures failed { result ≡ 5 → Rose (K.faults sink.old) (K.faults sink.new)
        × ((whole : List (List ℕ)) × (next : List ℕ)
        × AreFirstOfSession Form.Audit (map account auditors.new.items) script.now (whole ++ next ∷ [])
        × AppendsCut (K.taken sink.old) (K.taken sink.new) whole next) }
    ensures memory { result ≡ 6 → (whole : List (List ℕ))
        × AreBeforeLast Form.Audit (map account auditors.new.items) script.now whole
        × Appends (K.taken sink.old) (K.taken sink.new) (together whole) }
    ensures good { AllZip IsAsGood (map account auditors.old.items) (map account auditors.new.items) }
    ensures statuses { (result ≤ 6) × (result ≢ 4) }
{
    let status = write_answers(alloc, script, sink, auditors);
    if status > STOPPED {
        return status;
    }
    write_auditors(alloc, status, auditors, sink)
}

/// Reads a session from the source or makes one, answers its questions, shows the auditors the certificates of the answers,
/// and hands what is written to the sink, in order. The words are those of the command line, without the program's name:
///
/// - `run`: a session is read to its end, or until it is longer than 1,048,576 bytes, before it is answered. The text of each
///   answer is handed to the sink in one piece.
/// - `run audit`: the same, and behind the answers a line `auditor NAME: seen S, bad B` for each auditor that remains.
/// - `gen N`, N of one to four digits and from 1 to 1,000: the generated session of N is answered, and one line written,
///   `gen N: questions Q, jumps J, open G, stopped S`, with the numbers of questions, of F-jumping numbers in all lists, of open
///   gaps and of stops. The source isn't read.
///
/// First the auditors that are out are dropped; from then on none leaves the list. Each that remains is shown the certificates
/// of all answers in order, under each form. One whose note fails is out, stays in the list, and changes no answer and no status.
///
/// For every accepted session, unless memory, reading or writing fails: each printed ideal is the one asked for, a test ideal
/// being the eventual Frobenius root; each list printed complete holds exactly the F-jumping numbers of f in (0, 1], each once,
/// rising; each threshold, F-purity and compatibility verdict is exact; each open interval truly holds a change; a question
/// stops only where a needed basis or product exceeds stated limits. It is the clause `whole`, phrase by phrase in
/// docs/HEADLINE.md.
///
/// The status, and when it comes; 0, 1, 2 and 3 yield to 4, 5 and 6:
///
/// - 0: the session has no fault, all questions were answered, and all was written.
/// - 1: the words are of no form, and the usage line was written. The source isn't read.
/// - 2: the session has a fault, and its line was written. It doesn't come under `gen`.
/// - 3: the session has no fault, some questions stopped, and all was written.
/// - 4: a read failed. Nothing was written. It doesn't come under `gen`.
/// - 5: a write failed. The pieces before it and a front of its own were written.
/// - 6: memory was wanting, maybe for an auditor's note. Either there was no room for the session, and nothing was read or
///   written; or the session was there, and the pieces before were written, or nothing. No line of a fault was written.
///
/// With 1, 2 and 4 no auditor is shown anything. No auditor's count of bad certificates rises, whatever the status.
pub fn run<S: Source, K: Sink>(
    alloc: Global,
    words: &[&str],
    source: &mut S,
    sink: &mut K,
    auditors: &mut Vec<Box<dyn Auditor>>,
) -> u8
    // What is written, and what the auditors are shown, where nothing outside fails.
    ensures whole { result < 4 → (pieces : List (List ℕ)) × (certs : List Cert)
        × IsRun (texts_of words.now) (S.left source.old) (S.left source.new) (map account auditors.new.items) result pieces certs
        × Appends (K.taken sink.old) (K.taken sink.new) (together pieces)
        × AreShownAll certs (filter remains (map account auditors.old.items)) (map account auditors.new.items) }

    // When each failure comes, and what it leaves.
    ensures read_failed { result ≡ 4 → AskForReading (texts_of words.now)
        × Rose (S.faults source.old) (S.faults source.new) × (sink.new ≡ sink.old) }
    ensures write_failed { result ≡ 5 → Rose (K.faults sink.old) (K.faults sink.new)
        × ((whole : List (List ℕ)) × (next : List ℕ)
        × AreFirstOfRun (texts_of words.now) (S.left source.old) (S.left source.new) (map account auditors.new.items) (whole ++ next ∷ [])
        × AppendsCut (K.taken sink.old) (K.taken sink.new) whole next) }
    ensures memory { result ≡ 6 → (form : forms.Form) × IsForm form (texts_of words.now)
        × ((source.new ≡ source.old) × (sink.new ≡ sink.old)
        ⊎ ((bytes : List ℕ) × IsSession form (S.left source.old) (S.left source.new) bytes
        × ((sink.new ≡ sink.old) ⊎ ((script : scripts.Script) × IsScriptOf bytes script × ((whole : List (List ℕ))
        × AreBeforeLast form (map account auditors.new.items) script whole
        × Appends (K.taken sink.old) (K.taken sink.new) (together whole)))))) }
    ensures statuses { result ≤ 6 }
    ensures generated { (n : ℕ) → IsForm (Form.Gen n) (texts_of words.now) → (result ≢ 2) × (result ≢ 4) }
    ensures unread { (AskForReading (texts_of words.now) → ⊥) → source.new ≡ source.old }

    // The auditors, whatever the status.
    ensures unshown { (result ≡ 1) ⊎ (result ≡ 2) ⊎ (result ≡ 4)
        → map account auditors.new.items ≡ filter remains (map account auditors.old.items) }
    ensures good { AllZip IsAsGood (filter remains (map account auditors.old.items)) (map account auditors.new.items) }
{
    let many = auditors.len();
    drop_out(many, auditors);
    let form = match read_words(words) {
        Some(form) => form,
        None => return write_text(sink, USAGE, USAGE_LINE),
    };
    match script_for(alloc, form, source) {
        Ok(script) => answer_script(alloc, form, &script, sink, auditors),
        Err(Unread::At(fault)) => write_fault(alloc, &fault, sink),
        Err(Unread::Failed) => READ_FAILED,
        Err(Unread::Memory) => NO_MEMORY,
    }
}
