//! Bytes that contracts see as a list.

ghost use Rattle.std.specs.Prelude.{◌≡◌, ◌==◌, ◌+◌, ◌≤◌, ◌++◌, length, take, drop, IfOk};
ghost use Rattle.map_types.specs.Bytes.{bytes_of};
ghost use Rattle.map_types.specs.Parts.{zeros};

use crate::NoMemory;
use std::alloc::Global;
use std::marker::Model;

/// So many bytes lie in the value itself, without a block of their own: keys of flows, and counters.
const SHORT: usize = 22;

/// Bytes, as of a key or a value, which contracts see as a list.
#[derive(Drop)]
pub struct Bytes {
    data: Data,
}

/// Where bytes lie.
#[derive(Drop)]
pub(crate) enum Data {
    /// In place, the first `len` of these.
    Short { len: u8, bytes: [u8; SHORT] },
    /// In a block of their own.
    Long(Box<Vec<u8>>),
}

impl Model for Bytes {
    ghost use Rattle.std.specs.Prelude.{List, ℕ};
    ghost use Rattle.map_types.specs.Bytes.{bytes_of, IsWithin};

    ghost Value = { List ℕ };

    ghost view = { λ b. bytes_of b.data };

    ghost invariant = { λ b. IsWithin b.data };
}

impl Bytes {
    /// A copy of these bytes.
    pub fn from_slice(alloc: Global, source: &[u8]) -> Result<Bytes, NoMemory>
        ensures { IfOk result (λ copy. copy ≡ source.now) }
    {
        if source.len() > SHORT {
            let items = source.to_vec(alloc)?;
            return Ok(Bytes {
                data: Data::Long(Box::new(alloc, items)?),
            });
        }
        Ok(Bytes::short(source))
    }

    /// A copy of at most 22 bytes. It takes no memory.
    pub fn short(source: &[u8]) -> Bytes
        requires { length source.now ≤ 22 }
        ensures { result ≡ source.now }
    {
        Bytes {
            data: Data::Short {
                len: source.len() as u8,
                bytes: padded(source),
            },
        }
    }

    /// So many bytes, which are all 0.
    pub fn zeroed(alloc: Global, len: usize) -> Result<Bytes, NoMemory>
        ensures { IfOk result (λ bytes. bytes ≡ zeros len) }
    {
        if len > SHORT {
            let items = vec![in alloc; 0; len]?;
            return Ok(Bytes {
                data: Data::Long(Box::new(alloc, items)?),
            });
        }
        Ok(Bytes {
            data: Data::Short {
                len: len as u8,
                bytes: [0; SHORT],
            },
        })
    }

    /// The bytes, in order.
    pub fn as_slice(&self) -> &[u8]
        ensures { result.now ≡ self.now }
    {
        match &self.data {
            Data::Short { len, bytes } => &bytes[..*len as usize],
            Data::Long(items) => items.as_slice(),
        }
    }

    /// How many there are.
    pub fn len(&self) -> usize
        ensures { result ≡ length self.now }
    {
        self.as_slice().len()
    }

    /// Whether there is none.
    pub fn is_empty(&self) -> bool
        ensures { result ≡ (length self.now == 0) }
    {
        self.as_slice().is_empty()
    }

    /// Writes bytes over those at a place. The others stay.
    pub fn write_at(&mut self, start: usize, source: &[u8])
        requires { start + length source.now ≤ length self.old }
        ensures { self.new
            ≡ take start self.old ++ (source.now ++ drop (start + length source.now) self.old) }
    {
        match &mut self.data {
            Data::Short { len: _, bytes } => {
                bytes[start..start + source.len()].copy_from_slice(source)
            }
            Data::Long(items) => items[start..start + source.len()].copy_from_slice(source),
        }
    }

    /// Writes 0 over each byte.
    pub fn fill_zero(&mut self)
        ensures { self.new ≡ zeros (length self.old) }
    {
        match &mut self.data {
            Data::Short { len: _, bytes } => *bytes = [0; SHORT],
            Data::Long(items) => items.fill(0),
        }
    }

    /// The same bytes once more.
    pub fn copy(&self, alloc: Global) -> Result<Bytes, NoMemory>
        ensures { IfOk result (λ copy. copy ≡ self.now) }
    {
        Bytes::from_slice(alloc, self.as_slice())
    }
}

/// An array that begins with these bytes. The usual sizes of a key and of a counter are copied in a few words.
fn padded(source: &[u8]) -> [u8; SHORT]
    requires { length source.now ≤ 22 }
    ensures { take (length source.now) result ≡ source.now }
{
    let len = source.len();
    let mut bytes = [0; SHORT];
    if len == 16 {
        bytes[..16].copy_from_slice(&source[..16]);
        return bytes;
    }
    if len == 8 {
        bytes[..8].copy_from_slice(&source[..8]);
        return bytes;
    }
    bytes[..len].copy_from_slice(source);
    bytes
}
