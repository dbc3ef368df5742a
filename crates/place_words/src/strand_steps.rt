//! The steps of a strand, each in eight bytes, as long as they fit.

ghost use Rattle.std.specs.Prelude.{◌≡◌, ◌∷◌, ◌++◌, ◌<◌, ◌==◌, [], IfOk, IfSome, MatchOption, OnErr, OnOk, Some, drop, length, slice_get, slice_index_or, take};
ghost use Rattle.place_words.specs.declared.history.StrandStep.{StrandStep};
ghost use Rattle.place_words.specs.StrandSteps.{lock_of_code, row_read, step_unpacked, steps_made, HasRoom};

use crate::StrandStep;
use crate::copying::copy_list;
use map_types::{DomainId, List, NoMemory};
use std::alloc::{AllocError, Global};
use std::marker::Model;

/// One step: the code of its lock, and the place of its entry in that lock's history.
#[derive(Clone, Copy, Debug)]
pub(crate) struct PackedStep {
    pub(crate) lock: u32,
    pub(crate) index: u32,
}

/// The steps of a strand. Contracts see their list. Packed steps stand first, and behind them those that lie as they are: from the
/// first one on that doesn't fit, also in a copy of what stands behind it. A step fits whose place is below 2^32, and whose lock is the
/// global lists, one of a CPU below 16, or a bucket below 2^32 - 49.
#[derive(Drop)]
pub struct StrandSteps {
    packed: List<PackedStep>,
    plain: List<StrandStep>,
}

/// The steps of a strand that still grows.
#[derive(Drop)]
pub struct StepBuffer {
    pub(crate) packed: Vec<PackedStep>,
    pub(crate) plain: Vec<StrandStep>,
}

/// Some steps of a strand, one behind the other, read where they lie.
#[derive(Clone, Copy)]
pub struct StepRow<'a> {
    pub(crate) packed: &'a [PackedStep],
    pub(crate) plain: &'a [StrandStep],
}

impl Model for StrandSteps {
    ghost use Rattle.std.specs.Prelude.{List};
    ghost use Rattle.place_words.specs.declared.history.StrandStep.{StrandStep};
    ghost use Rattle.place_words.specs.StrandSteps.{steps_in};

    ghost Value = { List StrandStep };

    ghost view = { λ s. steps_in s.packed s.plain };
}

impl StepBuffer {
    /// No step, with room for so many that are packed.
    pub fn with_room(alloc: Global, steps: usize) -> Result<StepBuffer, NoMemory>
        ensures { IfOk result (λ made. steps_made made ≡ []) }
    {
        Ok(StepBuffer {
            packed: Vec::with_capacity(alloc, steps)?,
            plain: Vec::new(alloc),
        })
    }

    /// No step. It takes no memory.
    pub fn new(alloc: Global) -> StepBuffer
        ensures { steps_made result ≡ [] }
    {
        StepBuffer {
            packed: Vec::new(alloc),
            plain: Vec::new(alloc),
        }
    }

    /// How many there are.
    pub fn len(&self) -> usize
        ensures { result ≡ length (steps_made self.now) }
    {
        self.packed.len() + self.plain.len()
    }

    /// Whether there is none.
    pub fn is_empty(&self) -> bool
        ensures { result ≡ (length (steps_made self.now) == 0) }
    {
        self.packed.is_empty() && self.plain.is_empty()
    }

    /// Room for one step more, whichever it is.
    pub fn reserve_one(&mut self) -> Result<(), AllocError>
        ensures room { OnOk result (HasRoom self.new) }
        ensures same { steps_made self.new ≡ steps_made self.old }
    {
        self.packed.reserve(1)?;
        self.plain.reserve(1)
    }

    /// Adds a step, for which there is room.
    #[inline(always)]
    pub fn push_reserved(&mut self, step: StrandStep)
        requires { HasRoom self.old }
        ensures { steps_made self.new ≡ steps_made self.old ++ step ∷ [] }
    {
        match packed_step(step) {
            Some(packed) if self.plain.is_empty() => self.packed.push_reserved(packed),
            _ => self.plain.push_reserved(step),
        }
    }
}

impl StrandSteps {
    /// The steps of a buffer. It takes no memory.
    pub fn of(made: StepBuffer) -> StrandSteps
        ensures { result ≡ steps_made made }
    {
        StrandSteps {
            packed: List::of(made.packed),
            plain: List::of(made.plain),
        }
    }

    /// All of them.
    pub fn row(&self) -> StepRow<'_>
        ensures { row_read result ≡ self.now }
    {
        StepRow {
            packed: self.packed.as_slice(),
            plain: self.plain.as_slice(),
        }
    }

    /// How many there are.
    pub fn len(&self) -> usize
        ensures { result ≡ length self.now }
    {
        self.row().len()
    }

    /// The step at a place, from 0.
    pub fn at(&self, index: usize) -> StrandStep
        requires { index < length self.now }
        ensures found { slice_get self.now index ≡ Some result }
        ensures whatever { (other : StrandStep) → slice_index_or self.now index other ≡ result }
    {
        self.row().at(index)
    }

    /// Adds a step. StrandSteps that are shared, or for which memory isn't found, stay as they are.
    pub fn push(&mut self, step: StrandStep) -> Result<(), NoMemory>
        ensures added { OnOk result (self.new ≡ self.old ++ step ∷ []) }
        ensures same { OnErr result (self.new ≡ self.old) }
    {
        match packed_step(step) {
            Some(packed) if self.plain.is_empty() => self.packed.push(packed),
            _ => self.plain.push(step),
        }
    }

    /// The same steps, so that a copy of them takes no memory.
    pub fn share(self, alloc: Global) -> Result<StrandSteps, NoMemory>
        ensures { IfOk result (λ steps. steps ≡ self) }
    {
        let StrandSteps { packed, plain } = self;
        Ok(StrandSteps {
            packed: packed.share(alloc)?,
            plain: plain.share(alloc)?,
        })
    }

    /// Equal ones. Those that are shared take no memory.
    pub fn copy(&self, alloc: Global) -> Result<StrandSteps, NoMemory>
        ensures { IfOk result (λ copy. copy ≡ self.now) }
    {
        Ok(StrandSteps {
            packed: copy_list(&self.packed, alloc)?,
            plain: copy_list(&self.plain, alloc)?,
        })
    }
}

impl<'a> StepRow<'a> {
    /// How many there are.
    pub fn len(&self) -> usize
        ensures { result ≡ length (row_read self.now) }
    {
        self.packed.len() + self.plain.len()
    }

    /// Whether there is none.
    pub fn is_empty(&self) -> bool
        ensures { result ≡ (length (row_read self.now) == 0) }
    {
        self.packed.is_empty() && self.plain.is_empty()
    }

    /// The step at a place, from 0.
    pub fn at(&self, index: usize) -> StrandStep
        requires { index < length (row_read self.now) }
        ensures found { slice_get (row_read self.now) index ≡ Some result }
        ensures whatever { (other : StrandStep) → slice_index_or (row_read self.now) index other ≡ result }
    {
        if index < self.packed.len() {
            unpacked(self.packed[index])
        } else {
            self.plain[index - self.packed.len()]
        }
    }

    /// The first one, and those behind it.
    pub fn split_first(&self) -> Option<(StrandStep, StepRow<'a>)>
        ensures { MatchOption result (row_read self.now ≡ []) (λ split. row_read self.now ≡ split.0 ∷ row_read split.1) }
    {
        if let Some((first, packed)) = self.packed.split_first() {
            let rest = StepRow {
                packed,
                plain: self.plain,
            };
            return Some((unpacked(*first), rest));
        }
        let (first, plain) = self.plain.split_first()?;
        let rest = StepRow {
            packed: self.packed,
            plain,
        };
        Some((*first, rest))
    }

    /// The first so many, or all that there are.
    #[tactic(auto, using(crate::proofs::StepRows::first_parts))]
    pub fn first(&self, count: usize) -> StepRow<'a>
        ensures { row_read result ≡ take count (row_read self.now) }
    {
        StepRow {
            packed: first_of(self.packed, count),
            plain: first_of(self.plain, count.saturating_sub(self.packed.len())),
        }
    }

    /// Those behind the first so many, or none where there are no more.
    #[tactic(auto, using(crate::proofs::StepRows::behind_parts))]
    pub fn behind(&self, count: usize) -> StepRow<'a>
        ensures { row_read result ≡ drop count (row_read self.now) }
    {
        StepRow {
            packed: behind_in(self.packed, count),
            plain: behind_in(self.plain, count.saturating_sub(self.packed.len())),
        }
    }

    /// Equal ones, of which a copy takes memory.
    pub fn copy(&self, alloc: Global) -> Result<StrandSteps, NoMemory>
        ensures { IfOk result (λ copy. copy ≡ row_read self.now) }
    {
        Ok(StrandSteps {
            packed: List::of(Vec::from_slice(alloc, self.packed)?),
            plain: List::of(Vec::from_slice(alloc, self.plain)?),
        })
    }
}

/// The step in eight bytes, if it fits.
#[inline(always)]
fn packed_step(step: StrandStep) -> Option<PackedStep>
    ensures { IfSome result (λ packed. step_unpacked packed ≡ step) }
{
    if step.index > u32::MAX as u64 {
        return None;
    }
    let lock = code_of_lock(step.lock)?;
    Some(PackedStep {
        lock,
        index: step.index as u32,
    })
}

/// The code of a lock, where it has one.
#[inline(always)]
fn code_of_lock(lock: DomainId) -> Option<u32>
    ensures { IfSome result (λ code. lock_of_code code ≡ lock) }
{
    match lock {
        DomainId::Global => Some(0),
        DomainId::Local(cpu) if cpu < 16 => Some(1 + cpu),
        DomainId::CpuLru(cpu) if cpu < 16 => Some(17 + cpu),
        DomainId::Freelist(cpu) if cpu < 16 => Some(33 + cpu),
        DomainId::Bucket(bucket) if bucket < u32::MAX - 48 => Some(49 + bucket),
        _ => None,
    }
}

/// The lock of a code.
fn lock_of_code(code: u32) -> DomainId
    ensures { result ≡ lock_of_code code }
{
    match code {
        0 => DomainId::Global,
        1..=16 => DomainId::Local(code - 1),
        17..=32 => DomainId::CpuLru(code - 17),
        33..=48 => DomainId::Freelist(code - 33),
        _ => DomainId::Bucket(code - 49),
    }
}

/// The step that was packed.
fn unpacked(packed: PackedStep) -> StrandStep
    ensures { result ≡ step_unpacked packed }
{
    StrandStep {
        lock: lock_of_code(packed.lock),
        index: packed.index as u64,
    }
}

/// The first so many, or all that there are.
fn first_of<T>(items: &[T], count: usize) -> &[T]
    ensures { result.now ≡ take count items.now }
{
    &items[..count.min(items.len())]
}

/// Those behind the first so many, or none where there are no more.
fn behind_in<T>(items: &[T], count: usize) -> &[T]
    ensures { result.now ≡ drop count items.now }
{
    &items[count.min(items.len())..]
}
