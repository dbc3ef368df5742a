//! Parts of list locks as they lie in an entry. One that has much to tell lies in a block of its own, so that the many small entries
//! don't make room for it.

ghost use Rattle.std.specs.Prelude.{◌≡◌, ◌≤◌, ◌+◌, [], IfOk, MatchResult, Option, drop, length, option_map, take};
ghost use Rattle.place_words.specs.Packed.{own_read, shrink_told, turn_of_few, turn_of_own, IsFewTurn, IsOwnTurn};
ghost use Rattle.place_words.specs.declared.visits.ShrinkNote.{ShrinkNote};
ghost use Rattle.place_words.specs.declared.list_part.GlobalPart.TheVariants as global;
ghost use Rattle.place_words.specs.declared.list_part.LocalPart.TheVariants as local;
ghost use Rattle.place_words.specs.declared.list_part.OwnPart.TheVariants as own;
ghost use Rattle.place_words.specs.declared.list_part.Stolen.TheVariants as stolen;

use crate::copying::EqualCopy;
use crate::{GlobalPart, LocalPart, OwnPart, ShrinkNote, Stolen, Visit};
use map_types::{List, NoMemory};
use std::alloc::{AllocError, Global};
use std::marker::Model;

/// What one turn of the lock of a CPU's local lists did. Contracts see the part.
#[derive(Drop)]
pub struct PackedLocal {
    data: LocalData,
}

/// Where a part of local lists lies.
#[derive(Drop)]
pub(crate) enum LocalData {
    /// In a block of its own.
    Boxed(Box<LocalPart>),
    /// In place: a pop.
    Pop {
        hash: u32,
        element: u32,
    },
    /// In place: a theft of the head of the free list, with no walk.
    Steal {
        element: u32,
        alloc: Global,
    },
    /// In place: a stolen element that came to pending with this hash, and the CPU from which the next theft starts.
    Add {
        hash: u32,
        element: u32,
        cursor: u32,
    },
    /// In place: a push.
    Push {
        element: u32,
        done: bool,
    },
}

impl Model for PackedLocal {
    ghost use Rattle.place_words.specs.declared.list_part.LocalPart.{LocalPart};
    ghost use Rattle.place_words.specs.Packed.{local_of};

    ghost Value = { LocalPart };

    ghost view = { λ p. local_of p.data };
}

impl PackedLocal {
    /// A part, in a block of its own.
    pub fn new(alloc: Global, part: LocalPart) -> Result<PackedLocal, NoMemory>
        ensures { IfOk result (λ packed. packed ≡ part) }
    {
        Ok(PackedLocal {
            data: LocalData::Boxed(Box::new(alloc, part)?),
        })
    }

    /// A pop of an element, which went to pending with this hash. It takes no memory.
    pub fn pop(hash: u32, element: u32) -> PackedLocal
        ensures { result ≡ local.Pop hash element }
    {
        PackedLocal {
            data: LocalData::Pop { hash, element },
        }
    }

    /// A theft of the head of the free list. It takes no memory.
    pub fn steal_free(alloc: Global, element: u32) -> PackedLocal
        ensures { result ≡ local.Steal (stolen.Free element) [] [] }
    {
        PackedLocal {
            data: LocalData::Steal { element, alloc },
        }
    }

    /// A stolen element that came to pending with this hash, and the CPU from which the next theft starts. It takes no memory.
    pub fn add(hash: u32, element: u32, cursor: u32) -> PackedLocal
        ensures { result ≡ local.Add hash element cursor }
    {
        PackedLocal {
            data: LocalData::Add {
                hash,
                element,
                cursor,
            },
        }
    }

    /// A push of an element, and whether it was pending. It takes no memory.
    pub fn push(element: u32, done: bool) -> PackedLocal
        ensures { result ≡ local.Push element done }
    {
        PackedLocal {
            data: LocalData::Push { element, done },
        }
    }

    /// The part: the one in its block, or one that is made for the answer.
    pub fn part(&self) -> Result<&LocalPart, LocalPart>
        ensures { MatchResult result (λ part. part.now ≡ self.now) (λ part. part ≡ self.now) }
    {
        match &self.data {
            LocalData::Boxed(part) => Ok(part),
            LocalData::Pop { hash, element } => Err(LocalPart::Pop {
                hash: *hash,
                element: *element,
            }),
            LocalData::Steal { element, alloc } => Err(LocalPart::Steal {
                got: Stolen::Free(*element),
                first: List::of(Vec::new(*alloc)),
                second: List::of(Vec::new(*alloc)),
            }),
            LocalData::Add {
                hash,
                element,
                cursor,
            } => Err(LocalPart::Add {
                hash: *hash,
                element: *element,
                cursor: *cursor,
            }),
            LocalData::Push { element, done } => Err(LocalPart::Push {
                element: *element,
                done: *done,
            }),
        }
    }
}

impl EqualCopy for PackedLocal {
    fn copy(&self, alloc: Global) -> Result<PackedLocal, NoMemory> {
        match &self.data {
            LocalData::Boxed(part) => PackedLocal::new(alloc, part.copy(alloc)?),
            LocalData::Pop { hash, element } => Ok(PackedLocal::pop(*hash, *element)),
            LocalData::Steal { element, alloc } => Ok(PackedLocal::steal_free(*alloc, *element)),
            LocalData::Add {
                hash,
                element,
                cursor,
            } => Ok(PackedLocal::add(*hash, *element, *cursor)),
            LocalData::Push { element, done } => Ok(PackedLocal::push(*element, *done)),
        }
    }
}

/// What one turn of the global lists' lock did. Contracts see the part.
#[derive(Drop)]
pub struct PackedGlobal {
    data: GlobalData,
}

/// Where a part of the global lists lies.
#[derive(Drop)]
pub(crate) enum GlobalData {
    /// In a block of its own.
    Boxed(Box<GlobalPart>),
    /// In place: a push of this element.
    Push(u32),
}

impl Model for PackedGlobal {
    ghost use Rattle.place_words.specs.declared.list_part.GlobalPart.{GlobalPart};
    ghost use Rattle.place_words.specs.Packed.{global_of};

    ghost Value = { GlobalPart };

    ghost view = { λ p. global_of p.data };
}

impl PackedGlobal {
    /// A part, in a block of its own.
    pub fn new(alloc: Global, part: GlobalPart) -> Result<PackedGlobal, NoMemory>
        ensures { IfOk result (λ packed. packed ≡ part) }
    {
        Ok(PackedGlobal {
            data: GlobalData::Boxed(Box::new(alloc, part)?),
        })
    }

    /// A push of an element. It takes no memory.
    pub fn push(element: u32) -> PackedGlobal
        ensures { result ≡ global.Push element }
    {
        PackedGlobal {
            data: GlobalData::Push(element),
        }
    }

    /// The part: the one in its block, or one that is made for the answer.
    pub fn part(&self) -> Result<&GlobalPart, GlobalPart>
        ensures { MatchResult result (λ part. part.now ≡ self.now) (λ part. part ≡ self.now) }
    {
        match &self.data {
            GlobalData::Boxed(part) => Ok(part),
            GlobalData::Push(element) => Err(GlobalPart::Push { element: *element }),
        }
    }
}

impl EqualCopy for PackedGlobal {
    fn copy(&self, alloc: Global) -> Result<PackedGlobal, NoMemory> {
        match &self.data {
            GlobalData::Boxed(part) => PackedGlobal::new(alloc, part.copy(alloc)?),
            GlobalData::Push(element) => Ok(PackedGlobal::push(*element)),
        }
    }
}

/// What one turn of the lock of a CPU's own list set did. Contracts see the part.
#[derive(Drop)]
pub struct PackedOwn {
    data: OwnData,
}

/// Where a part of an own set lies.
#[derive(Drop)]
pub(crate) enum OwnData {
    /// In a block of its own: a turn of the lists whose rotation came by few elements, with no shrink.
    Few(Box<FewTurn>),
    /// The same with a shrink, in one block.
    FewShrunk(Box<ShrunkTurn>),
    /// In a block of its own, with another for what its rotation came by.
    Turn(Box<OwnTurn>),
    /// In place: a push of this element.
    Push(u32),
}

/// How many visits a turn has room for in its own block, which its clauses say too. A rotation of an own set makes at most four on
/// each list, and on active only where inactive is shorter; a turn with more lies as `OwnTurn`.
const FEW: usize = 4;

/// A turn of an own set whose rotation came by few elements: active elements before inactive ones, and then visits that say nothing.
#[derive(Drop)]
pub(crate) struct FewTurn {
    hash: u32,
    /// So many of the elements that the rotation came by were active.
    active: u8,
    /// And so many inactive.
    inactive: u8,
    visits: [Visit; FEW],
    got: Option<u32>,
}

/// A turn of an own set whose rotation came by few elements, with a shrink.
#[derive(Drop)]
pub(crate) struct ShrunkTurn {
    turn: FewTurn,
    shrink: ShrinkNote,
}

/// A turn of an own set whose rotation came by more elements. They lie side by side, active elements before inactive ones, and a
/// shrink, which few turns have, in a block of its own.
#[derive(Drop)]
pub(crate) struct OwnTurn {
    hash: u32,
    /// So many of the elements that the rotation came by were active.
    active: u32,
    visits: Vec<Visit>,
    shrink: Option<Box<ShrinkNote>>,
    got: Option<u32>,
}

/// What one turn of the lock of a CPU's own list set did, read where it lies.
#[derive(Clone, Copy)]
pub enum OwnAt<'a> {
    Turn {
        hash: u32,
        active: &'a [Visit],
        inactive: &'a [Visit],
        shrink: Option<&'a ShrinkNote>,
        got: Option<u32>,
    },
    Push {
        element: u32,
    },
}

impl Model for PackedOwn {
    ghost use Rattle.place_words.specs.declared.list_part.OwnPart.{OwnPart};
    ghost use Rattle.place_words.specs.Packed.{own_of, IsOwn};

    ghost Value = { OwnPart };

    ghost view = { λ p. own_of p.data };

    ghost invariant = { λ p. IsOwn p.data };
}

impl PackedOwn {
    /// A part, in a block of its own.
    #[inline(always)]
    pub fn new(alloc: Global, part: OwnPart) -> Result<PackedOwn, NoMemory>
        ensures { IfOk result (λ packed. packed ≡ part) }
    {
        match part {
            OwnPart::Turn {
                hash,
                active,
                inactive,
                shrink,
                got,
            } => PackedOwn::turn(
                alloc,
                hash,
                active.as_slice(),
                inactive.as_slice(),
                shrink,
                got,
            ),
            OwnPart::Push { element } => Ok(PackedOwn::push(element)),
        }
    }

    /// A turn of the lists: which active and inactive elements its rotation came by, a shrink, if there was one, and which element,
    /// if any, it got for a key with this hash.
    #[inline(always)]
    pub fn turn(
        alloc: Global,
        hash: u32,
        active: &[Visit],
        inactive: &[Visit],
        shrink: Option<ShrinkNote>,
        got: Option<u32>,
    ) -> Result<PackedOwn, NoMemory>
        ensures { IfOk result (λ packed. packed
            ≡ own.Turn hash active.now inactive.now shrink got) }
    {
        if active.len() + inactive.len() <= FEW {
            return few_packed(alloc, few_turn(hash, active, inactive, got), shrink);
        }
        let turn = own_turn(alloc, hash, active, inactive, shrink, got)?;
        Ok(PackedOwn {
            data: OwnData::Turn(Box::new(alloc, turn)?),
        })
    }

    /// A push of an element. It takes no memory.
    pub fn push(element: u32) -> PackedOwn
        ensures { result ≡ own.Push element }
    {
        PackedOwn {
            data: OwnData::Push(element),
        }
    }

    /// The part, read where it lies.
    pub fn part(&self) -> OwnAt<'_>
        ensures { own_read result ≡ self.now }
    {
        match &self.data {
            OwnData::Few(turn) => few_read(turn, None),
            OwnData::FewShrunk(turn) => few_read(&turn.turn, Some(&turn.shrink)),
            OwnData::Turn(turn) => turn_read(turn),
            OwnData::Push(element) => OwnAt::Push { element: *element },
        }
    }
}

impl OwnPart {
    /// The same part, read in place.
    pub fn in_place(&self) -> OwnAt<'_>
        ensures { own_read result ≡ self.now }
    {
        match self {
            OwnPart::Turn {
                hash,
                active,
                inactive,
                shrink,
                got,
            } => OwnAt::Turn {
                hash: *hash,
                active: active.as_slice(),
                inactive: inactive.as_slice(),
                shrink: shrink.as_ref(),
                got: *got,
            },
            OwnPart::Push { element } => OwnAt::Push { element: *element },
        }
    }
}

impl EqualCopy for PackedOwn {
    fn copy(&self, alloc: Global) -> Result<PackedOwn, NoMemory> {
        match self.part() {
            OwnAt::Turn {
                hash,
                active,
                inactive,
                shrink,
                got,
            } => PackedOwn::turn(
                alloc,
                hash,
                active,
                inactive,
                shrink_copy(alloc, shrink)?,
                got,
            ),
            OwnAt::Push { element } => Ok(PackedOwn::push(element)),
        }
    }
}

/// A turn of an own set whose rotation came by few elements.
fn few_turn(hash: u32, active: &[Visit], inactive: &[Visit], got: Option<u32>) -> FewTurn
    requires { length active.now + length inactive.now ≤ 4 }
    ensures turn { (shrink : Option ShrinkNote) → turn_of_few result shrink ≡ own.Turn hash active.now inactive.now shrink got }
    ensures few { IsFewTurn result }
{
    FewTurn {
        hash,
        active: active.len() as u8,
        inactive: inactive.len() as u8,
        visits: visits_behind(first_visits(active), active.len(), inactive),
        got,
    }
}

/// Such a turn in a block, with its shrink, if there was one.
fn few_packed(
    alloc: Global,
    turn: FewTurn,
    shrink: Option<ShrinkNote>,
) -> Result<PackedOwn, NoMemory>
    requires { IsFewTurn turn }
    ensures { IfOk result (λ packed. packed ≡ turn_of_few turn shrink) }
{
    match shrink {
        Some(shrink) => Ok(PackedOwn {
            data: OwnData::FewShrunk(Box::new(alloc, ShrunkTurn { turn, shrink })?),
        }),
        None => Ok(PackedOwn {
            data: OwnData::Few(Box::new(alloc, turn)?),
        }),
    }
}

/// An array that begins with these visits.
fn first_visits(visits: &[Visit]) -> [Visit; FEW]
    requires { length visits.now ≤ 4 }
    ensures { take (length visits.now) result ≡ visits.now }
{
    let mut room = [Visit {
        element: 0,
        bit: false,
    }; FEW];
    room[..visits.len()].copy_from_slice(visits);
    room
}

/// An array with these visits at a place, and what it had before it.
fn visits_behind(room: [Visit; FEW], start: usize, visits: &[Visit]) -> [Visit; FEW]
    requires { start + length visits.now ≤ 4 }
    ensures before { take start result ≡ take start room }
    ensures here { take (length visits.now) (drop start result) ≡ visits.now }
{
    let mut room = room;
    room[start..start + visits.len()].copy_from_slice(visits);
    room
}

/// A turn of an own set, with what its rotation came by side by side.
fn own_turn(
    alloc: Global,
    hash: u32,
    active: &[Visit],
    inactive: &[Visit],
    shrink: Option<ShrinkNote>,
    got: Option<u32>,
) -> Result<OwnTurn, NoMemory>
    ensures { IfOk result (λ turn. (turn_of_own turn ≡ own.Turn hash active.now inactive.now shrink got)
        × IsOwnTurn turn) }
{
    if active.len() > u32::MAX as usize {
        return Err(AllocError.into());
    }
    let mut visits = Vec::with_capacity(alloc, active.len() + inactive.len())?;
    visits.extend_from_slice(active)?;
    visits.extend_from_slice(inactive)?;
    let shrink = match shrink {
        Some(shrink) => Some(Box::new(alloc, shrink)?),
        None => None,
    };
    Ok(OwnTurn {
        hash,
        active: active.len() as u32,
        visits,
        shrink,
        got,
    })
}

/// A turn of an own set whose rotation came by few elements, read where it lies.
fn few_read<'a>(turn: &'a FewTurn, shrink: Option<&'a ShrinkNote>) -> OwnAt<'a>
    requires { IsFewTurn turn.now }
    ensures { own_read result ≡ turn_of_few turn.now (option_map (λ note. note.now) shrink.entry) }
{
    let active = turn.active as usize;
    let past = active + turn.inactive as usize;
    OwnAt::Turn {
        hash: turn.hash,
        active: &turn.visits[..active],
        inactive: &turn.visits[active..past],
        shrink,
        got: turn.got,
    }
}

/// A turn of an own set, read where it lies.
fn turn_read(turn: &OwnTurn) -> OwnAt<'_>
    requires { IsOwnTurn turn.now }
    ensures { own_read result ≡ turn_of_own turn.now }
{
    let active = turn.active as usize;
    OwnAt::Turn {
        hash: turn.hash,
        active: &turn.visits[..active],
        inactive: &turn.visits[active..],
        shrink: shrink_at(&turn.shrink),
        got: turn.got,
    }
}

/// A shrink, if there is one, read where it lies.
fn shrink_at(shrink: &Option<Box<ShrinkNote>>) -> Option<&ShrinkNote>
    ensures { option_map (λ note. note.now) result ≡ shrink_told shrink.now }
{
    match shrink {
        Some(shrink) => Some(shrink),
        None => None,
    }
}

/// A copy of a shrink, if there is one.
fn shrink_copy(alloc: Global, shrink: Option<&ShrinkNote>) -> Result<Option<ShrinkNote>, NoMemory>
    ensures { IfOk result (λ copy. copy ≡ option_map (λ s. s.now) shrink.entry) }
{
    match shrink {
        Some(shrink) => Ok(Some(shrink.copy(alloc)?)),
        None => Ok(None),
    }
}
