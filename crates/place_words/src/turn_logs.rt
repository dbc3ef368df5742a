//! The turns of buckets as they are logged, strand by strand: one behind the other, whichever bucket they are of. Beside them the places
//! of each bucket's turns, by which they are read bucket by bucket.

ghost use Rattle.std.specs.Prelude.{◌≡◌, drop, length};
ghost use Rattle.place_words.specs.Entries.{entry_read};
ghost use Rattle.place_words.specs.TurnLogs.{no_turn, turn_at, turn_in, turn_logged};

use crate::{EntryAt, FreePart, PackedBucket, PartAt};

/// One turn of a bucket's lock, with the bucket's number and how many turns its lock had before it.
#[derive(Drop)]
pub struct LoggedTurn {
    pub bucket: u32,
    pub index: u32,
    pub ticket: u64,
    pub cpu: u32,
    pub call: u32,
    pub part: PackedBucket,
}

/// Where a turn stands: in which log, and how many stand before it there.
#[derive(Clone, Copy, Debug)]
pub struct TurnPlace {
    pub log: u32,
    pub turn: u32,
}

/// The logs of some strands, and places of their turns. A closed table's have those of each bucket side by side, in the order in which
/// its lock had them.
#[derive(Drop)]
pub struct TurnLogs {
    pub logs: Vec<Vec<LoggedTurn>>,
    pub places: Vec<TurnPlace>,
}

impl LoggedTurn {
    /// The turn, read in place.
    pub fn in_place(&self) -> EntryAt<'_>
        ensures { entry_read result ≡ turn_logged self.now }
    {
        EntryAt {
            ticket: self.ticket,
            cpu: self.cpu,
            call: self.call,
            part: PartAt::Bucket(&self.part),
        }
    }
}

impl TurnLogs {
    /// How many places there are from one on.
    pub(crate) fn places_from(&self, first: usize) -> usize
        ensures { result ≡ length (drop first self.now.places.items) }
    {
        self.places.len().saturating_sub(first)
    }

    /// The turn at a place. Where there is none, it reads as one that found a freelist empty.
    pub fn turn(&self, place: TurnPlace) -> EntryAt<'_>
        ensures { entry_read result ≡ turn_at self.now.logs.items place }
    {
        match self.logs.get(place.log as usize) {
            Some(turns) => turn_in(turns.as_slice(), place.turn as usize),
            None => no_turn(),
        }
    }
}

/// The turn at a place of a log.
fn turn_in(turns: &[LoggedTurn], place: usize) -> EntryAt<'_>
    ensures { entry_read result ≡ turn_in turns.now place }
{
    match turns.get(place) {
        Some(turn) => turn.in_place(),
        None => no_turn(),
    }
}

/// What is read where no turn stands.
fn no_turn<'a>() -> EntryAt<'a>
    ensures { entry_read result ≡ no_turn }
{
    EntryAt {
        ticket: 0,
        cpu: 0,
        call: 0,
        part: PartAt::Free(FreePart::FoundEmpty),
    }
}
