//! The script of a session that a source gives.
ghost use Rattle.std.specs.Prelude.{◌≡◌, ◌≤◌, ◌⊎◌, ℕ, List, Err, IfOk, IsErrOf};
ghost use Rattle.fj_io.specs.Outside.{Rose};
ghost use Rattle.fj_script.specs.Script as session;
ghost use Rattle.fj_script.specs.declared.fault.Fault.{Fault};
ghost use Rattle.fj_shell.specs.Asked.{IsScriptOf};
ghost use Rattle.fj_shell.specs.Shell.{IsRead};

use super::input::{ReadFault, read_session};
use fj_io::Source;
use fj_script::{Fault, Script, ScriptFault, read_script};
use std::alloc::Global;
use thiserror::Error;

/// Why a source gave no script.
#[derive(Clone, Copy, Debug, PartialEq, Eq, Error)]
pub enum Unread {
    #[error("a fault in the session")]
    At(Fault),
    #[error("a read failed")]
    Failed,
    #[error("out of memory")]
    Memory,
}

/// Reads a session to its end, or until it is longer than 1,048,576 bytes, and gives its script.
///
/// - `At`: the session was read, and has this first fault.
/// - `Failed`: a read failed. How far the session was read then isn't said.
/// - `Memory`: memory was wanting, either before the first read, or once the session was read.
pub fn read_whole_script<S: Source>(alloc: Global, source: &mut S) -> Result<Script, Unread>
    ensures script { IfOk result (λ script. (bytes : List ℕ)
        × IsRead (S.left source.old) (S.left source.new) bytes × IsScriptOf bytes script) }

    // When each failure comes, and what it leaves.
    ensures fault { (fault : Fault) → IsErrOf result (Unread.At fault) → (bytes : List ℕ)
        × IsRead (S.left source.old) (S.left source.new) bytes × (session.script bytes ≡ Err fault) }
    ensures failed { IsErrOf result Unread.Failed → Rose (S.faults source.old) (S.faults source.new) }
    ensures memory { IsErrOf result Unread.Memory → (source.new ≡ source.old)
        ⊎ ((bytes : List ℕ) × IsRead (S.left source.old) (S.left source.new) bytes) }
    ensures later { S.faults source.old ≤ S.faults source.new }
{
    let bytes = match read_session(alloc, source) {
        Ok(bytes) => bytes,
        Err(ReadFault::Failed) => return Err(Unread::Failed),
        Err(ReadFault::Memory) => return Err(Unread::Memory),
    };
    match read_script(alloc, &bytes) {
        Ok(script) => Ok(script),
        Err(ScriptFault::At(fault)) => Err(Unread::At(fault)),
        Err(ScriptFault::Memory) => Err(Unread::Memory),
    }
}
