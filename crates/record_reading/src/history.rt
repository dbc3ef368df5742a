//! Lines of histories, and the turns of strands.

ghost use Rattle.std.specs.Prelude.{◌+◌, ◌≡◌, IfOk, MatchOption, None, Some, codes, nat_le};
ghost use Rattle.map_types.specs.Creation.{IsShape};
ghost use Rattle.place_words.specs.declared.history.Part.TheVariants as parts;
ghost use Rattle.place_words.specs.Locks.{is_same_lock};
ghost use Rattle.record_reading.specs.BucketReaders.{bucket_part, free_part};
ghost use Rattle.record_reading.specs.LineReaders.{entry, lock_head, part_of, step_part};
ghost use Rattle.record_reading.specs.ListReaders.{global_part, local_part, own_part};
ghost use Rattle.record_reading.specs.Readers.{after, made, number, tested, whole};

use crate::bucket_part::bucket_part;
use crate::free_part::free_part;
use crate::list_part::{global_part, local_part, own_part};
use crate::lock_names::lock_part;
use crate::numbers::{blank_number, cpu_text, number, number_to};
use crate::words::behind;
use map_types::{DomainId, NoMemory, Shape};
use place_words::{
    Entry, GlobalPart, LocalPart, OwnPart, PackedBucket, PackedGlobal, PackedLocal, PackedOwn,
    Part, StrandStep,
};
use std::alloc::Global;

/// `lock NAME N`: a lock of the map, and how many entries its history has.
#[tactic(auto, unfolding(crate::specs::LineReaders::lock_head))]
pub(crate) fn lock_head(shape: &Shape, line: &[u8]) -> Option<(DomainId, u64)>
    ensures { result ≡ whole (lock_head shape.now) line.now }
{
    let (lock, rest) = lock_part(shape, behind(line, b"lock ")?)?;
    let (count, rest) = blank_number(rest)?;
    if rest.is_empty() {
        Some((lock, count))
    } else {
        None
    }
}

/// Whether two names are of one lock.
pub(crate) fn is_same_lock(one: DomainId, other: DomainId) -> bool
    ensures { result ≡ is_same_lock one other }
{
    match (one, other) {
        (DomainId::Local(one), DomainId::Local(other)) => one == other,
        (DomainId::Global, DomainId::Global) => true,
        (DomainId::CpuLru(one), DomainId::CpuLru(other)) => one == other,
        (DomainId::Bucket(one), DomainId::Bucket(other)) => one == other,
        (DomainId::Freelist(one), DomainId::Freelist(other)) => one == other,
        _ => false,
    }
}

/// `at NAME I`: a turn of a strand.
#[tactic(auto, unfolding(crate::specs::LineReaders::step_part))]
pub(crate) fn step_line(shape: &Shape, line: &[u8]) -> Option<StrandStep>
    ensures { result ≡ whole (step_part shape.now) line.now }
{
    let (lock, rest) = lock_part(shape, behind(line, b"at ")?)?;
    let (index, rest) = blank_number(rest)?;
    if rest.is_empty() {
        Some(StrandStep { lock, index })
    } else {
        None
    }
}

/// An entry in the history of a lock, of a script with so many calls.
pub(crate) fn entry_line(
    alloc: Global,
    shape: &Shape,
    calls: u32,
    lock: DomainId,
    line: &[u8],
) -> Result<Option<Entry>, NoMemory>
    requires { IsShape shape.now }
    ensures { IfOk result (λ found. found ≡ whole (entry shape.now calls lock) line.now) }
{
    let Some((entry, rest)) = entry(alloc, shape, calls, lock, line)? else {
        return Ok(None);
    };
    if rest.is_empty() {
        Ok(Some(entry))
    } else {
        Ok(None)
    }
}

/// `TICKET CPU CALL PART`: an entry in the history of a lock, of a script with so many calls.
#[tactic(auto, unfolding(crate::specs::LineReaders::entry, crate::specs::BucketReaders::cpu_text))]
fn entry<'a>(
    alloc: Global,
    shape: &Shape,
    calls: u32,
    lock: DomainId,
    text: &'a [u8],
) -> Result<Option<(Entry, &'a [u8])>, NoMemory>
    requires { IsShape shape.now }
    ensures { IfOk result (λ found. MatchOption found (entry shape.now calls lock text.now ≡ None)
        (λ f. entry shape.now calls lock text.now ≡ Some (f.0, f.1.now))) }
{
    let Some((ticket, rest)) = number(text) else {
        return Ok(None);
    };
    let Some((cpu, rest)) = cpu_text(shape, rest) else {
        return Ok(None);
    };
    let Some((call, rest)) = call_text(calls, rest) else {
        return Ok(None);
    };
    let Some(rest) = behind(rest, b" ") else {
        return Ok(None);
    };
    let Some((part, rest)) = part_of(alloc, shape, lock, rest)? else {
        return Ok(None);
    };
    let entry = Entry {
        ticket,
        cpu,
        call,
        part,
    };
    Ok(Some((entry, rest)))
}

/// The number of one of so many calls, from 1 on, behind a blank.
fn call_text(calls: u32, text: &[u8]) -> Option<(u32, &[u8])>
    ensures { MatchOption result
        (tested (nat_le 1) (after (codes " ") (number (calls + 1))) text.now ≡ None)
        (λ f. tested (nat_le 1) (after (codes " ") (number (calls + 1))) text.now
        ≡ Some (f.0, f.1.now)) }
{
    let (call, rest) = number_to(behind(text, b" ")?, calls)?;
    if call < 1 {
        return None;
    }
    Some((call, rest))
}

/// What one turn of a lock did, by what lies under the lock.
#[tactic(auto, unfolding(crate::specs::LineReaders::part_of))]
fn part_of<'a>(
    alloc: Global,
    shape: &Shape,
    lock: DomainId,
    text: &'a [u8],
) -> Result<Option<(Part, &'a [u8])>, NoMemory>
    requires { IsShape shape.now }
    ensures { IfOk result (λ found. MatchOption found (part_of shape.now lock text.now ≡ None)
        (λ f. part_of shape.now lock text.now ≡ Some (f.0, f.1.now))) }
{
    match lock {
        DomainId::Bucket(_) => of_bucket(alloc, shape, text),
        DomainId::Freelist(_) => Ok(of_freelist(shape, text)),
        DomainId::Local(_) => of_local(alloc, shape, text),
        DomainId::Global => of_global(alloc, shape, text),
        DomainId::CpuLru(_) => of_set(alloc, shape, text),
    }
}

/// What one turn of a bucket's lock did.
fn of_bucket<'a>(
    alloc: Global,
    shape: &Shape,
    text: &'a [u8],
) -> Result<Option<(Part, &'a [u8])>, NoMemory>
    requires { IsShape shape.now }
    ensures { IfOk result (λ found. MatchOption found
        (made parts.Bucket (bucket_part shape.now) text.now ≡ None)
        (λ f. made parts.Bucket (bucket_part shape.now) text.now ≡ Some (f.0, f.1.now))) }
{
    let Some((part, rest)) = bucket_part(alloc, shape, text)? else {
        return Ok(None);
    };
    Ok(Some((Part::Bucket(PackedBucket::new(alloc, part)?), rest)))
}

/// What one turn of a freelist's lock did.
fn of_freelist<'a>(shape: &Shape, text: &'a [u8]) -> Option<(Part, &'a [u8])>
    ensures { MatchOption result (made parts.Free (free_part shape.now) text.now ≡ None)
        (λ f. made parts.Free (free_part shape.now) text.now ≡ Some (f.0, f.1.now)) }
{
    let (part, rest) = free_part(shape, text)?;
    Some((Part::Free(part), rest))
}

/// What one turn of the lock of a CPU's local lists did.
fn of_local<'a>(
    alloc: Global,
    shape: &Shape,
    text: &'a [u8],
) -> Result<Option<(Part, &'a [u8])>, NoMemory>
    requires { IsShape shape.now }
    ensures { IfOk result (λ found. MatchOption found
        (made parts.Local (local_part shape.now) text.now ≡ None)
        (λ f. made parts.Local (local_part shape.now) text.now ≡ Some (f.0, f.1.now))) }
{
    let Some((part, rest)) = local_part(alloc, shape, text)? else {
        return Ok(None);
    };
    Ok(Some((Part::Local(packed_local(alloc, part)?), rest)))
}

/// A part of local lists as it lies in an entry.
fn packed_local(alloc: Global, part: LocalPart) -> Result<PackedLocal, NoMemory>
    ensures { IfOk result (λ packed. packed ≡ part) }
{
    match part {
        LocalPart::Pop { hash, element } => Ok(PackedLocal::pop(hash, element)),
        LocalPart::Add {
            hash,
            element,
            cursor,
        } => Ok(PackedLocal::add(hash, element, cursor)),
        LocalPart::Push { element, done } => Ok(PackedLocal::push(element, done)),
        turn => PackedLocal::new(alloc, turn),
    }
}

/// What one turn of the global lists' lock did.
fn of_global<'a>(
    alloc: Global,
    shape: &Shape,
    text: &'a [u8],
) -> Result<Option<(Part, &'a [u8])>, NoMemory>
    requires { IsShape shape.now }
    ensures { IfOk result (λ found. MatchOption found
        (made parts.Global (global_part shape.now) text.now ≡ None)
        (λ f. made parts.Global (global_part shape.now) text.now ≡ Some (f.0, f.1.now))) }
{
    let Some((part, rest)) = global_part(alloc, shape, text)? else {
        return Ok(None);
    };
    Ok(Some((Part::Global(packed_global(alloc, part)?), rest)))
}

/// A part of the global lists as it lies in an entry.
fn packed_global(alloc: Global, part: GlobalPart) -> Result<PackedGlobal, NoMemory>
    ensures { IfOk result (λ packed. packed ≡ part) }
{
    match part {
        GlobalPart::Push { element } => Ok(PackedGlobal::push(element)),
        turn => PackedGlobal::new(alloc, turn),
    }
}

/// What one turn of the lock of a CPU's own list set did.
fn of_set<'a>(
    alloc: Global,
    shape: &Shape,
    text: &'a [u8],
) -> Result<Option<(Part, &'a [u8])>, NoMemory>
    requires { IsShape shape.now }
    ensures { IfOk result (λ found. MatchOption found
        (made parts.Own (own_part shape.now) text.now ≡ None)
        (λ f. made parts.Own (own_part shape.now) text.now ≡ Some (f.0, f.1.now))) }
{
    let Some((part, rest)) = own_part(alloc, shape, text)? else {
        return Ok(None);
    };
    Ok(Some((Part::Own(packed_own(alloc, part)?), rest)))
}

/// A part of an own list set as it lies in an entry.
fn packed_own(alloc: Global, part: OwnPart) -> Result<PackedOwn, NoMemory>
    ensures { IfOk result (λ packed. packed ≡ part) }
{
    match part {
        OwnPart::Push { element } => Ok(PackedOwn::push(element)),
        turn => PackedOwn::new(alloc, turn),
    }
}
