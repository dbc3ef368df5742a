//! Keys with their values, read from the front of a text.

ghost use Rattle.std.specs.Prelude.{◌≡◌, IfOk, MatchOption, None, Some};
ghost use Rattle.map_types.specs.Creation.{IsShape};
ghost use Rattle.record_reading.specs.Readers.{times};
ghost use Rattle.record_reading.specs.ReplyReaders.{pair};

use crate::hexadecimal::bytes;
use crate::values::value;
use crate::words::behind;
use map_types::{Bytes, NoMemory, PairBlock, Pairs, Shape, Side, value_len};
use std::alloc::Global;

/// So many pairs, with values as a side reads them. The text says how many there are to be, so no room is made for them before they are read.
pub(crate) fn pairs<'a>(
    alloc: Global,
    shape: &Shape,
    side: Side,
    text: &'a [u8],
    count: u64,
) -> Result<Option<(Pairs, &'a [u8])>, NoMemory>
    requires { IsShape shape.now }
    ensures { IfOk result (λ found. MatchOption found (times count (pair shape.now side) text.now ≡ None)
        (λ f. times count (pair shape.now side) text.now ≡ Some (f.0, f.1.now))) }
{
    let block = PairBlock::new(alloc)?;
    let mut keys = Vec::new(alloc);
    let mut values = Vec::new(alloc);
    let mut rest = text;
    for i in 0..count {
        let Some((key, value, after)) = pair(alloc, shape, side, rest)? else {
            return Ok(None);
        };
        keys.extend_from_slice(key.as_slice())?;
        values.extend_from_slice(value.as_slice())?;
        rest = after;
    }
    let key_size = shape.key_size as usize;
    let value_size = value_len(shape, side) as usize;
    let found = Pairs::of(block, count as usize, key_size, value_size, keys, values);
    Ok(Some((found, rest)))
}

/// ` KEY=VALUE`, with a value as a side reads it.
#[tactic(auto, unfolding(crate::specs::ReplyReaders::pair))]
fn pair<'a>(
    alloc: Global,
    shape: &Shape,
    side: Side,
    text: &'a [u8],
) -> Result<Option<(Bytes, Bytes, &'a [u8])>, NoMemory>
    requires { IsShape shape.now }
    ensures { IfOk result (λ found. MatchOption found (pair shape.now side text.now ≡ None)
        (λ f. pair shape.now side text.now ≡ Some ((f.0, f.1), f.2.now))) }
{
    let Some(rest) = behind(text, b" ") else {
        return Ok(None);
    };
    let Some((key, rest)) = bytes(alloc, rest, shape.key_size as usize)? else {
        return Ok(None);
    };
    let Some(rest) = behind(rest, b"=") else {
        return Ok(None);
    };
    let Some((value, rest)) = value(alloc, shape, side, rest)? else {
        return Ok(None);
    };
    Ok(Some((key, value, rest)))
}
