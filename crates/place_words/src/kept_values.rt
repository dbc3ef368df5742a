//! The values that a kept element holds.

ghost use Rattle.std.specs.Prelude.{◌≡◌, ◌∷◌, [], IfOk};

use crate::copying::{EqualCopy, copy_each};
use map_types::{Bytes, List, NoMemory};
use std::alloc::Global;
use std::marker::Model;
use std::slice;

/// The values of an element, one for each part. A single one may lie in place, with no list around it. Contracts see the list, whichever
/// form holds it.
#[derive(Drop)]
pub struct KeptValues {
    data: ValuesData,
}

#[derive(Drop)]
pub(crate) enum ValuesData {
    /// A single value, in place.
    One(Bytes),
    /// A list of them, in the order of the parts.
    Each(List<Bytes>),
}

impl Model for KeptValues {
    ghost use Rattle.std.specs.Prelude.{List, ℕ};
    ghost use Rattle.place_words.specs.KeptValues.{values_of};

    ghost Value = { List (List ℕ) };

    ghost view = { λ v. values_of v.data };
}

impl KeptValues {
    /// A single value. It takes no memory of its own.
    pub fn one(value: Bytes) -> KeptValues
        ensures { result ≡ value ∷ [] }
    {
        KeptValues {
            data: ValuesData::One(value),
        }
    }

    /// These values, in the order of the parts. It takes no memory of its own.
    pub fn each(values: List<Bytes>) -> KeptValues
        ensures { result ≡ values }
    {
        KeptValues {
            data: ValuesData::Each(values),
        }
    }

    /// The values, in the order of the parts.
    pub fn as_slice(&self) -> &[Bytes]
        ensures { result.now ≡ self.now }
    {
        match &self.data {
            ValuesData::One(value) => slice::from_ref(value),
            ValuesData::Each(values) => values.as_slice(),
        }
    }
}

impl EqualCopy for KeptValues {
    fn copy(&self, alloc: Global) -> Result<KeptValues, NoMemory> {
        match &self.data {
            ValuesData::One(value) => Ok(KeptValues::one(value.copy(alloc)?)),
            ValuesData::Each(values) => Ok(KeptValues::each(copy_each(values, alloc)?)),
        }
    }
}
