//! The lines of the auditors that remain.
ghost use Rattle.std.specs.Prelude.{◌≡◌, ◌≢◌, ◌≤◌, ◌<◌, ◌++◌, ◌∷◌, [], ℕ, List, IfOk, IsErrOf, length, map};
ghost use Rattle.std.specs.Io.KnownBytes.{Appends};
ghost use Rattle.fj_audit.specs.Account.{Remains};
ghost use Rattle.fj_io.specs.Outside.{AppendsFront, Rose};
ghost use Rattle.fj_session.specs.Lines.{auditor_line, auditor_lines};
ghost use Rattle.fj_shell.specs.Shell.{AppendsCut, together};

use fj_audit::Auditor;
use fj_io::Sink;
use fj_shell::status::{NO_MEMORY, WRITE_FAILED};
use fj_shell::{Unwritten, push_decimal};
use std::alloc::{AllocError, Global};

/// The line of an auditor.
#[tactic(auto, unfolding(crate::specs::Lines::auditor_line))]
fn print_auditor(alloc: Global, auditor: &Box<dyn Auditor>) -> Result<Vec<u8>, AllocError>
    ensures { IfOk result (λ text. text.items ≡ auditor_line (account auditor.now)) }
{
    let mut out = Vec::new(alloc);
    out.extend_from_slice(b"auditor ")?;
    out.extend_from_slice(auditor.name().as_bytes())?;
    out.extend_from_slice(b": seen ")?;
    push_decimal(&mut out, auditor.seen())?;
    out.extend_from_slice(b", bad ")?;
    push_decimal(&mut out, auditor.bad())?;
    out.extend_from_slice(b"\n")?;
    Ok(out)
}

/// Hands the line of an auditor to the sink, if it remains.
fn write_auditor<K: Sink>(
    alloc: Global,
    auditor: &Box<dyn Auditor>,
    sink: &mut K,
) -> Result<(), Unwritten>
    ensures written { IfOk result (λ _. Appends (K.taken sink.old) (K.taken sink.new) (together (auditor_lines (account auditor.now ∷ [])))) }
    ensures failed { IsErrOf result Unwritten.WriteFailed → Remains (account auditor.now)
        × Rose (K.faults sink.old) (K.faults sink.new)
        × AppendsFront (K.taken sink.old) (K.taken sink.new) (auditor_line (account auditor.now)) }
    ensures memory { IsErrOf result Unwritten.NoMemory → Remains (account auditor.now) × (sink.new ≡ sink.old) }
    ensures later { K.faults sink.old ≤ K.faults sink.new }
{
    if auditor.faults() > 0 {
        return Ok(());
    }
    let line = print_auditor(alloc, auditor)?;
    sink.write_all(&line)?;
    Ok(())
}

/// Hands the line of each auditor that remains to the sink, in order and each in one piece, and answers the status: the given
/// one, 5 where a write failed, 6 where memory was wanting.
///
/// Condition: the given status is below 4.
pub(crate) fn write_auditors<K: Sink>(
    alloc: Global,
    status: u8,
    auditors: &[Box<dyn Auditor>],
    sink: &mut K,
) -> u8
    requires { status < 4 }
    ensures written { result < 4 → (result ≡ status)
        × Appends (K.taken sink.old) (K.taken sink.new) (together (auditor_lines (map account auditors.now))) }
    ensures failed { result ≡ 5 → Rose (K.faults sink.old) (K.faults sink.new)
        × ((whole : List (List ℕ)) × (next : List ℕ) × (rest : List (List ℕ))
        × (auditor_lines (map account auditors.now) ≡ whole ++ next ∷ rest)
        × AppendsCut (K.taken sink.old) (K.taken sink.new) whole next) }
    ensures memory { result ≡ 6 → (whole : List (List ℕ)) × (next : List ℕ) × (rest : List (List ℕ))
        × (auditor_lines (map account auditors.now) ≡ whole ++ next ∷ rest)
        × Appends (K.taken sink.old) (K.taken sink.new) (together whole) }
    ensures statuses { (result ≤ 6) × (result ≢ 4) }
    ensures later { K.faults sink.old ≤ K.faults sink.new }
{
    for auditor in auditors {
        match write_auditor(alloc, auditor, sink) {
            Ok(()) => {}
            Err(Unwritten::WriteFailed) => return WRITE_FAILED,
            Err(Unwritten::NoMemory) => return NO_MEMORY,
        }
    }
    status
}
