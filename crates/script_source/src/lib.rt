//! Reads a script from a source, piece by piece.
#![tactic(auto)]

ghost use Rattle.std.specs.Prelude.{◌≡◌, ◌+◌, ◌-◌, ◌≤◌, ◌^◌, List, ℕ, length, IfOk, IsErrOf};
ghost use Rattle.map_script.specs.Pieces.{IsFed};
ghost use Rattle.map_script.specs.Reading.{read_as, IsReading};
ghost use Rattle.run_ends.specs.SourceReads.{Rose, TakesFront, TakesAll, TakesUpTo, EndsWhereNoneIsLeft};

use map_script::{Form, Script, ScriptReader, ScriptRefusal};
use run_ends::{MAX_SCRIPT_BYTES, ReadStop, Source, read_block};
use std::alloc::Global;

/// Reads all the bytes that are left, if they are at most `MAX_SCRIPT_BYTES`, as a script of a form. The source is read to its
/// end, or one byte past that limit, also where the script has a fault; nothing is read after a failure, nor where memory was
/// not found. Beside the script it keeps no more of the bytes than the line that isn't whole yet.
pub fn script_from<S: Source>(
    alloc: Global,
    form: Form,
    source: &mut S,
) -> Result<Result<Script, ScriptRefusal>, ReadStop>
    // All that was left was taken, and the answer is what it is read as, unless memory ran out.
    ensures whole { IfOk result (λ read. (input : List ℕ)
        × TakesAll (S.left source.old) (S.left source.new) input × (length input ≤ 16777216)
        × IsReading read (read_as form input)) }
    ensures failed { IsErrOf result ReadStop.Failed
        → Rose (S.faults source.old) (S.faults source.new) }
    ensures too_long { IsErrOf result ReadStop.TooLong → (bytes : List ℕ)
        × TakesFront (S.left source.old) (S.left source.new) bytes × (length bytes ≡ 16777217) }

    // Whatever comes of it, one byte past the limit is the last that is taken.
    ensures bounded { TakesUpTo 16777217 (S.left source.old) (S.left source.new) }
    ensures never_falls { S.faults source.old ≤ S.faults source.new }
{
    let Ok(mut reader) = ScriptReader::open(alloc, form) else {
        return Err(ReadStop::NoMemory);
    };
    let mut block = read_block(alloc).map_err(|_| ReadStop::NoMemory)?;
    let buffer = block.as_mut_slice();
    let mut taken = 0;
    while taken <= MAX_SCRIPT_BYTES {
        let room = (MAX_SCRIPT_BYTES + 1 - taken).min(buffer.len());
        let count = feed_more(source, &mut buffer[..room], &mut reader)?;
        if count == 0 {
            return Ok(reader.finish());
        }
        taken += count;
    }
    Err(ReadStop::TooLong)
}

/// Reads once, feeds what was read, and answers how many bytes it is.
fn feed_more<S: Source>(
    source: &mut S,
    buffer: &mut [u8],
    reader: &mut ScriptReader,
) -> Result<usize, ReadStop>
    requires { reader.old.line_feeds + length buffer.old ≤ 2 ^ 32 - 3 }
    ensures fits { IfOk result (λ n. n ≤ length buffer.old) }
    ensures fed { IfOk result (λ n. (piece : List ℕ)
        × TakesFront (S.left source.old) (S.left source.new) piece
        × (length piece ≡ n) × IsFed reader.old piece reader.new) }
    ensures end { IfOk result (λ n. EndsWhereNoneIsLeft (S.left source.old) (length buffer.old) n) }
    ensures failed { IsErrOf result ReadStop.Failed
        → Rose (S.faults source.old) (S.faults source.new) }
    ensures never_long { IsErrOf result ReadStop.TooLong → ⊥ }
    ensures bounded { TakesUpTo (length buffer.old) (S.left source.old) (S.left source.new) }
    ensures never_falls { S.faults source.old ≤ S.faults source.new }
{
    let count = source.read(buffer).map_err(|_| ReadStop::Failed)?;
    reader
        .feed(&buffer[..count])
        .map_err(|_| ReadStop::NoMemory)?;
    Ok(count)
}
