//! The bytes of a session, read from a source.
ghost use Rattle.std.specs.Prelude.{◌≡◌, ◌+◌, ◌≤◌, ◌⊎◌, length, take, vec_len, IfOk, IsErrOf};
ghost use Rattle.std.specs.Io.{ReadsAtMost};
ghost use Rattle.std.specs.Io.KnownBytes.{Consumes, IsAtEnd};
ghost use Rattle.fj_io.specs.Outside.{Rose, HasCause};
ghost use Rattle.fj_shell.specs.declared.input.ReadFault.TheVariants.{Failed as ReadFailed, Memory};

use fj_io::{Failed, Source};
use std::alloc::{AllocError, Global};
use thiserror::Error;

/// The most bytes of a session.
pub const MAX_SESSION: usize = 1_048_576;

/// Why a session was not read.
#[derive(Clone, Copy, Debug, PartialEq, Eq, Error)]
pub enum ReadFault {
    #[error("a read failed")]
    Failed,
    #[error("out of memory")]
    Memory,
}

impl From<Failed> for ReadFault {
    ghost from_gives = { λ _ e. e ≡ ReadFailed };

    fn from(_failed: Failed) -> ReadFault {
        ReadFault::Failed
    }
}

impl From<AllocError> for ReadFault {
    ghost from_gives = { λ _ e. e ≡ Memory };

    fn from(_error: AllocError) -> ReadFault {
        ReadFault::Memory
    }
}

/// Reads until a read gives no byte, or `into` is full, and answers how many bytes were read.
fn fill<S: Source>(source: &mut S, into: &mut [u8]) -> Result<usize, Failed>
    ensures bound { ReadsAtMost result into.new }
    ensures taken { IfOk result (λ n. Consumes (S.left source.old) (S.left source.new) (take n into.new)) }
    ensures whole { IfOk result (λ n. IsAtEnd (S.left source.new) ⊎ (n ≡ length into.new)) }
    ensures cause { HasCause (S.faults source.old) (S.faults source.new) result }
{
    let mut taken = 0;
    while taken < into.len() {
        let count = source.read(&mut into[taken..])?;
        if count == 0 {
            return Ok(taken);
        }
        taken += count;
    }
    Ok(taken)
}

/// Reads to the end, or so many bytes. The room is taken before the first read.
fn read_at_most<S: Source>(alloc: Global, source: &mut S, most: usize) -> Result<Vec<u8>, ReadFault>
    ensures taken { IfOk result (λ bytes. Consumes (S.left source.old) (S.left source.new) bytes.items) }
    ensures short { IfOk result (λ bytes. vec_len bytes ≤ most) }
    ensures whole { IfOk result (λ bytes. IsAtEnd (S.left source.new) ⊎ (vec_len bytes ≡ most)) }

    // When each fault comes, and what it leaves.
    ensures failed { IsErrOf result ReadFault.Failed → Rose (S.faults source.old) (S.faults source.new) }
    ensures memory { IsErrOf result ReadFault.Memory → source.new ≡ source.old }
    ensures later { S.faults source.old ≤ S.faults source.new }
{
    let mut bytes = vec![in alloc; 0u8; most]?;
    let taken = fill(source, &mut bytes)?;
    bytes.truncate(taken);
    Ok(bytes)
}

/// Reads a session to its end, or one byte more than a session may have.
pub fn read_session<S: Source>(alloc: Global, source: &mut S) -> Result<Vec<u8>, ReadFault>
    ensures taken { IfOk result (λ bytes. Consumes (S.left source.old) (S.left source.new) bytes.items) }
    ensures short { IfOk result (λ bytes. vec_len bytes ≤ MAX_SESSION + 1) }
    ensures whole { IfOk result (λ bytes. IsAtEnd (S.left source.new) ⊎ (vec_len bytes ≡ MAX_SESSION + 1)) }

    // When each fault comes, and what it leaves.
    ensures failed { IsErrOf result ReadFault.Failed → Rose (S.faults source.old) (S.faults source.new) }
    ensures memory { IsErrOf result ReadFault.Memory → source.new ≡ source.old }
    ensures later { S.faults source.old ≤ S.faults source.new }
{
    read_at_most(alloc, source, MAX_SESSION + 1)
}
