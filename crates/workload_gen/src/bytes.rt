//! Numbers as keys and values.

ghost use Rattle.std.specs.Prelude.{◌≡◌, IfOk};
ghost use Rattle.workload_gen.specs.Generated.{little_endian};

use map_types::{Bytes, NoMemory};
use std::alloc::Global;

/// A number in so many bytes, the lowest first: higher ones are cut, and zeros fill what is left.
pub(crate) fn little_endian(alloc: Global, number: u32, size: u32) -> Result<Bytes, NoMemory>
    ensures { IfOk result (λ bytes. bytes ≡ little_endian size number) }
{
    let low = number.to_le_bytes();
    let count = low.len().min(size as usize);
    let mut bytes = Bytes::zeroed(alloc, size as usize)?;
    bytes.write_at(0, &low[..count]);
    Ok(bytes)
}
