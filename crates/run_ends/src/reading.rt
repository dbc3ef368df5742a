//! Reads a source to its end.

ghost use Rattle.std.specs.Prelude.{◌≡◌, ◌≤◌, ◌<◌, ◌++◌, List, ℕ, length, vec_len, IfOk, IsErrOf};
ghost use Rattle.run_ends.specs.SourceReads.{Rose, TakesFront, TakesAll, TakesUpTo, EndsWhereNoneIsLeft};

use crate::Source;
use std::alloc::{AllocError, Global};

/// The most bytes that a script may have.
pub const MAX_SCRIPT_BYTES: usize = 16_777_216;

/// The most bytes that are asked for in one call.
const BLOCK_BYTES: usize = 65_536;

/// Why a source is not read to its end.
#[derive(Clone, Copy, Debug, PartialEq, Eq)]
pub enum ReadStop {
    /// A read failed.
    Failed,
    /// There are more than `MAX_SCRIPT_BYTES` bytes.
    TooLong,
    /// Memory for the bytes was not found.
    NoMemory,
}

/// All the bytes that are left, if they are at most `MAX_SCRIPT_BYTES`. No more than one byte past them is read, and
/// nothing is read after a failure.
pub fn read_all<S: Source>(alloc: Global, source: &mut S) -> Result<Vec<u8>, ReadStop>
    ensures whole { IfOk result (λ bytes. TakesAll (S.left source.old)
        (S.left source.new) bytes.items
        × (length bytes.items ≤ 16777216)) }
    ensures failed { IsErrOf result ReadStop.Failed
        → Rose (S.faults source.old) (S.faults source.new) }
    ensures too_long { IsErrOf result ReadStop.TooLong → (bytes : List ℕ)
        × TakesFront (S.left source.old) (S.left source.new) bytes × (length bytes ≡ 16777217) }
    ensures bounded { TakesUpTo 16777217 (S.left source.old) (S.left source.new) }
    ensures never_falls { S.faults source.old ≤ S.faults source.new }
{
    let mut block = read_block(alloc).map_err(|_| ReadStop::NoMemory)?;
    let buffer = block.as_mut_slice();
    let mut bytes = Vec::new(alloc);
    while bytes.len() <= MAX_SCRIPT_BYTES {
        let room = (MAX_SCRIPT_BYTES + 1 - bytes.len()).min(buffer.len());
        let count = read_more(source, &mut buffer[..room], &mut bytes)?;
        if count == 0 {
            return Ok(bytes);
        }
    }
    Err(ReadStop::TooLong)
}

/// Room for what one read gives, which is 65,536 bytes at most.
pub fn read_block(alloc: Global) -> Result<Vec<u8>, AllocError>
    ensures { IfOk result (λ block. vec_len block ≡ 65536) }
{
    zeros(alloc, BLOCK_BYTES)
}

/// So many zeros.
fn zeros(alloc: Global, count: usize) -> Result<Vec<u8>, AllocError>
    ensures { IfOk result (λ block. vec_len block ≡ count) }
{
    vec![in alloc; 0; count]
}

/// Reads once, puts what was read at the end of the bytes, and answers how many bytes it is.
fn read_more<S: Source>(
    source: &mut S,
    buffer: &mut [u8],
    bytes: &mut Vec<u8>,
) -> Result<usize, ReadStop>
    ensures fits { IfOk result (λ n. n ≤ length buffer.old) }
    ensures appended { IfOk result (λ n. (taken : List ℕ)
        × TakesFront (S.left source.old) (S.left source.new) taken
        × (length taken ≡ n) × (bytes.new.items ≡ bytes.old.items ++ taken)) }
    ensures end { IfOk result (λ n. EndsWhereNoneIsLeft (S.left source.old) (length buffer.old) n) }
    ensures failed { IsErrOf result ReadStop.Failed
        → Rose (S.faults source.old) (S.faults source.new) }
    ensures never_long { IsErrOf result ReadStop.TooLong → ⊥ }
    ensures bounded { TakesUpTo (length buffer.old) (S.left source.old) (S.left source.new) }
    ensures never_falls { S.faults source.old ≤ S.faults source.new }
{
    let count = source.read(buffer).map_err(|_| ReadStop::Failed)?;
    bytes
        .extend_from_slice(&buffer[..count])
        .map_err(|_| ReadStop::NoMemory)?;
    Ok(count)
}
