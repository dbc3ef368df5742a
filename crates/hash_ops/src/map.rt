//! A map that doesn't evict.

ghost use Rattle.std.specs.Prelude.{◌≡◌, ℕ, ◌<◌, true, false, IfOk, length};
ghost use Rattle.map_types.specs.Creation.{IsShape};
ghost use Rattle.map_types.specs.Kind.{is_lru};
ghost use Rattle.place_words.specs.Traces.{bucket_of_key};
ghost use Rattle.place_table.specs.Views.{is_among};
ghost use Rattle.place_table.specs.Passes.{IsFirstPass, IsPassOf, IsInNoCall};
ghost use Rattle.place_table.specs.Closing.{IsClosed};

use bucket_chain::bucket_number;
use map_types::{NoMemory, Shape};
use place_table::{Closed, Pass, PlaceTable};
use std::alloc::Global;
use std::marker::Model;
use thiserror::Error;

/// Why an update is refused. No clause rests on the numbers.
#[derive(Clone, Copy, Debug, PartialEq, Eq, Error)]
pub enum PlainRefusal {
    /// The flags are above BPF_EXIST.
    #[error("Einval")]
    Einval = 1,
    /// The key is absent, and the flags are BPF_EXIST.
    #[error("Enoent")]
    Enoent = 2,
    /// The key is present, and the flags are BPF_NOEXIST.
    #[error("Eexist")]
    Eexist = 3,
    /// The key is absent, and each CPU's freelist was found empty.
    #[error("E2big")]
    E2big = 4,
}

/// A map of kind HASH or PERCPU_HASH, which may be shared by threads, each of which has a pass. Contracts see its table.
#[derive(Drop)]
pub struct PlainMap {
    pub(crate) table: PlaceTable,
}

impl Model for PlainMap {
    ghost use Rattle.std.specs.Prelude.{◌≡◌, false};
    ghost use Rattle.map_types.specs.Creation.{IsShape};
    ghost use Rattle.map_types.specs.Kind.{is_lru};
    ghost use Rattle.place_table.specs.Passes.{TableView};

    ghost Value = { TableView };

    ghost view = { λ m. m.table };

    ghost invariant = { λ m. IsShape m.table.shape × (is_lru m.table.shape.kind ≡ false) };
}

impl PlainMap {
    /// A new map, and its first pass, which has all CPUs and spares and is in no call. Memory for all elements is found
    /// here. The rule of `htab_map_alloc`, without the checks of the attributes.
    pub fn create(alloc: Global, shape: &Shape) -> Result<(PlainMap, Pass), NoMemory>
        requires shape { IsShape shape.now }
        requires plain { is_lru shape.now.kind ≡ false }
        ensures { IfOk result (λ made. (made.0.shape ≡ shape.now) × IsFirstPass made.0 made.1) }
    {
        let (table, pass) = PlaceTable::create(alloc, shape)?;
        Ok((PlainMap { table }, pass))
    }

    /// The table of the map, whose shape is within the limits and whose kind doesn't evict.
    pub fn table(&self) -> &PlaceTable
        ensures value { result.now ≡ self.now }
        ensures shape { IsShape self.now.shape }
        ensures plain { is_lru self.now.shape.kind ≡ false }
    {
        &self.table
    }

    /// Closes a map whose one pass has all CPUs and is in no call, and hands out what is left. Where there is no memory
    /// for that, the map and the pass are gone.
    pub fn close(self, pass: Pass) -> Result<Closed, NoMemory>
        requires table { IsPassOf self pass }
        requires all_cpus { (c : ℕ) → c < self.shape.cpus → is_among c pass.view.cpus ≡ true }
        requires in_no_call { IsInNoCall pass }
        ensures { IfOk result (λ closed. IsClosed self.shape pass closed) }
    {
        let PlainMap { table } = self;
        table.close(pass)
    }

    /// The bucket of a key.
    pub(crate) fn bucket_of_key(&self, key: &[u8]) -> u32
        requires key { length key.now ≡ self.now.shape.key_size }
        ensures value { result ≡ bucket_of_key self.now.shape key.now }
        ensures in_range { result < self.now.shape.buckets }
    {
        bucket_number(self.table.shape(), key)
    }
}
