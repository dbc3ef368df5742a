//! What an element holds.

ghost use Rattle.std.specs.Prelude.{◌≡◌, length, IfOk};
ghost use Rattle.std.specs.Borrow.{sem};
ghost use Rattle.map_types.specs.Stored.{zero_stored};

use crate::Values;
use map_types::{Bytes, NoMemory};
use std::alloc::Global;
use std::marker::Model;

/// An element's number, its key and its values. Contracts see a record of the three. A short key lies in place, and so
/// do short values; longer ones have a block each, whatever the number of parts.
#[derive(Drop)]
pub struct Body {
    element: u32,
    key: Bytes,
    values: Values,
}

impl Model for Body {
    ghost use Rattle.map_types.specs.Stored.{Stored};

    ghost Value = { Stored };

    ghost view = { λ b. record { element = b.element; key = b.key; values = b.values } };
}

impl Body {
    ghost use Rattle.percpu_values.specs.Lending.{LendsValues};

    /// A body whose key and values have these sizes in bytes, and are all 0.
    pub(crate) fn zeroed(
        alloc: Global,
        element: u32,
        key_size: u32,
        parts: u32,
        size: u32,
    ) -> Result<Body, NoMemory>
        ensures { IfOk result (λ body. body ≡ zero_stored element key_size parts size) }
    {
        let key = Bytes::zeroed(alloc, key_size as usize)?;
        let values = Values::zeroed(alloc, parts, size)?;
        Ok(Body {
            element,
            key,
            values,
        })
    }

    /// The element's number.
    pub fn element(&self) -> u32
        ensures { result ≡ self.now.element }
    {
        self.element
    }

    /// The key.
    pub fn key(&self) -> &[u8]
        ensures { result.now ≡ self.now.key }
    {
        self.key.as_slice()
    }

    /// Sets the key to one of as many bytes.
    pub fn set_key(&mut self, key: &[u8])
        requires { length key.now ≡ length self.old.key }
        ensures { self.new ≡ record self.old { key = key.now } }
    {
        self.key.write_at(0, key);
    }

    /// The values.
    pub fn values(&self) -> &Values
        ensures { result.now ≡ self.now.values }
    {
        &self.values
    }

    /// The values, to be written.
    pub fn values_mut(&mut self) -> &mut Values
        ensures* writes_back { sem 𝓛 (LendsValues self.entry result) }
        ensures value { result.now ≡ self.old.values }
    {
        &mut self.values
    }
}
