//! The line of a fault.
ghost use Rattle.std.specs.Prelude.{◌≡◌, ◌++◌, decimal, IfOk, OnOk};
ghost use Rattle.fj_shell.specs.Shell.{fault_line, kind_bytes};

use fj_script::{Fault, FaultKind};
use itoa::Buffer;
use std::alloc::{AllocError, Global};

/// The line of a fault: `fault KIND at LINE:COLUMN`.
#[tactic(auto, unfolding(crate::specs::Shell::fault_line))]
pub fn print_fault(alloc: Global, fault: &Fault) -> Result<Vec<u8>, AllocError>
    ensures { IfOk result (λ text. text.items ≡ fault_line fault.now) }
{
    let mut out = Vec::new(alloc);
    out.extend_from_slice(b"fault ")?;
    out.extend_from_slice(kind_name(fault.kind))?;
    out.extend_from_slice(b" at ")?;
    push_decimal(&mut out, u64::from(fault.line))?;
    out.push(b':')?;
    push_decimal(&mut out, u64::from(fault.column))?;
    out.push(b'\n')?;
    Ok(out)
}

/// The printed name of a kind of fault.
fn kind_name(kind: FaultKind) -> &'static [u8]
    ensures { result.now ≡ kind_bytes kind }
{
    match kind {
        FaultKind::Long => b"Long",
        FaultKind::Byte => b"Byte",
        FaultKind::Syntax => b"Syntax",
        FaultKind::NoRing => b"NoRing",
        FaultKind::Prime => b"Prime",
        FaultKind::Vars => b"Vars",
        FaultKind::Taken => b"Taken",
        FaultKind::Unknown => b"Unknown",
        FaultKind::Kind => b"Kind",
        FaultKind::Wide => b"Wide",
        FaultKind::Large => b"Large",
        FaultKind::Constant => b"Constant",
        FaultKind::Arity => b"Arity",
        FaultKind::Many => b"Many",
        FaultKind::Range => b"Range",
    }
}

/// Appends a number in decimal.
pub fn push_decimal(out: &mut Vec<u8>, number: u64) -> Result<(), AllocError>
    ensures { OnOk result (out.new.items ≡ out.old.items ++ decimal number) }
{
    let mut buffer = Buffer::new();
    out.extend_from_slice(buffer.format(number).as_bytes())
}
