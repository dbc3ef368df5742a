//! The turns of a strand from some place on, which lie in the histories of the locks.

ghost use Rattle.std.specs.Prelude.{◌≡◌, ◌∷◌, [], All, MatchOption, None, Some, length, take, if◌then◌else◌};
ghost use Rattle.place_words.specs.Entries.{part_read};
ghost use Rattle.place_words.specs.StrandSteps.{row_read};
ghost use Rattle.trace_check.specs.Reading.{same_turns};
ghost use Rattle.trace_check.specs.Strand as strand;

use map_types::{DomainId, Shape};
use place_words::{LockHistory, PartAt, StepRow, StrandStep};
use std::marker::Model;

/// A turn: its lock, and what was done under it.
#[derive(Drop)]
pub struct Turn<'a> {
    pub lock: DomainId,
    pub part: PartAt<'a>,
}

impl<'a> Model for Turn<'a> {
    ghost use Rattle.place_words.specs.Entries.{part_read};
    ghost use Rattle.place_words.specs.Turns.{Turn, on_lock};

    ghost Value = { Turn };

    ghost view = { λ t. on_lock t.lock (part_read t.part) };
}

/// Turns of a strand on a map that doesn't evict, which are read where they lie.
#[derive(Drop)]
pub struct Turns<'a> {
    buckets: u32,
    histories: &'a [LockHistory],
    steps: StepRow<'a>,
}

impl<'a> Model for Turns<'a> {
    ghost use Rattle.std.specs.Prelude.{All, List};
    ghost use Rattle.place_words.specs.StrandSteps.{row_read};
    ghost use Rattle.place_words.specs.Turns.{Turn};
    ghost use Rattle.trace_check.specs.Strand.{IsEntry, turns_at};

    ghost Value = { List Turn };

    ghost view = { λ t. turns_at t.buckets t.histories.now (row_read t.steps) };

    ghost invariant = { λ t. All (IsEntry t.buckets t.histories.now) (row_read t.steps) };
}

impl<'a> Turns<'a> {
    /// Those that these steps name in the histories of a map's locks.
    pub fn of(shape: &Shape, histories: &'a [LockHistory], steps: StepRow<'a>) -> Turns<'a>
        requires { All (strand.IsEntry shape.now.buckets histories.now) (row_read steps) }
        ensures { result ≡ strand.turns_at shape.now.buckets histories.now (row_read steps.entry) }
    {
        Turns {
            buckets: shape.buckets,
            histories,
            steps,
        }
    }

    /// How many there are.
    pub fn len(&self) -> usize
        ensures { result ≡ length self.now }
    {
        self.steps.len()
    }

    /// Whether there is none.
    pub fn is_empty(&self) -> bool
        ensures { result ≡ same_turns [] self.now }
    {
        self.steps.is_empty()
    }

    /// The first one, and those behind it.
    pub fn split_first(&self) -> Option<(Turn<'a>, Turns<'a>)>
        ensures { MatchOption result (self.now ≡ []) (λ split. self.now ≡ split.0 ∷ split.1) }
    {
        let (step, rest) = self.steps.split_first()?;
        let turn = Turn {
            lock: step.lock,
            part: part_at(self.buckets, self.histories, step),
        };
        let behind = Turns {
            buckets: self.buckets,
            histories: self.histories,
            steps: rest,
        };
        Some((turn, behind))
    }

    /// The same turns once more.
    pub fn again(&self) -> Turns<'a>
        ensures { result ≡ self.now }
    {
        Turns {
            buckets: self.buckets,
            histories: self.histories,
            steps: self.steps,
        }
    }

    /// The first so many.
    pub fn first(&self, count: usize) -> Turns<'a>
        ensures { result ≡ take count self.now }
    {
        Turns {
            buckets: self.buckets,
            histories: self.histories,
            steps: self.steps.first(count),
        }
    }
}

/// What the turn did that a step names.
fn part_at<'a>(buckets: u32, histories: &'a [LockHistory], step: StrandStep) -> PartAt<'a>
    requires { strand.IsEntry buckets histories.now step }
    ensures { part_read result ≡ strand.part_at buckets histories.now step }
{
    let history: &'a LockHistory = &histories[history_place(buckets, step.lock)];
    history.entries.at(step.index as usize).part
}

/// Where a lock's history stands.
fn history_place(buckets: u32, lock: DomainId) -> usize
    ensures { result ≡ strand.history_place buckets lock }
{
    match lock {
        DomainId::Bucket(bucket) => bucket as usize,
        DomainId::Freelist(cpu) => buckets as usize + cpu as usize,
        _ => 0,
    }
}

/// The spare before the first of so many turns that are left.
pub(crate) fn spare_before(spares: &[Option<u32>], left: usize) -> Option<u32>
    ensures { result ≡ strand.spare_before spares.now left }
{
    match spares.get(spares.len().saturating_sub(left)) {
        Some(spare) => *spare,
        None => None,
    }
}

/// The turns behind a call, if it is the call.
pub(crate) fn rest_if<'a>(is: bool, rest: Turns<'a>) -> Option<Turns<'a>>
    ensures { result ≡ (if is then Some rest.entry else None) }
{
    is.then_some(rest)
}
