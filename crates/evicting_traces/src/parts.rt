//! What a turn tells, if it is one that a call asks for.

ghost use Rattle.std.specs.Prelude.{◌≡◌, is_some, option_map};
ghost use Rattle.map_types.specs.Shape.{HasBounds};
ghost use Rattle.place_words.specs.Entries.{part_read};
ghost use Rattle.place_words.specs.Packed.{own_read};
ghost use Rattle.place_words.specs.Takings.{stolen_element};
ghost use Rattle.map_types.specs.declared.kind.DomainId.TheVariants as locks;
ghost use Rattle.evicting_traces.specs.Calls as calls;
ghost use Rattle.evicting_traces.specs.Parts as told;

use crate::seen::Seen;
use key_hash::bucket_of;
use map_types::{DomainId, Shape, Side};
use place_words::{
    BucketPart, GlobalPart, LocalPart, OwnAt, PackedBucket, PartAt, Put, Seen as Probed, Stolen,
};
use trace_check::{same_bool, same_side};

/// The element that was popped for a key of this hash.
fn popped_in(part: &LocalPart, hash: u32) -> Option<u32>
    ensures { result ≡ told.popped_in hash part.now }
{
    match part {
        LocalPart::Pop {
            hash: stored,
            element,
        } if hash == *stored => Some(*element),
        _ => None,
    }
}

/// Whether this element came to pending so.
fn is_added(part: &LocalPart, hash: u32, element: u32, cursor: u32) -> bool
    ensures { result ≡ is_some (told.added_in hash element cursor part.now) }
{
    match part {
        LocalPart::Add {
            hash: stored,
            element: added,
            cursor: next,
        } => { hash == *stored && element == *added && cursor == *next }
        _ => false,
    }
}

/// Whether this element was pushed, and was found so.
fn is_pushed(part: &LocalPart, element: u32, done: bool) -> bool
    ensures { result ≡ is_some (told.pushed_in element done part.now) }
{
    match part {
        LocalPart::Push {
            element: pushed,
            done: was_done,
        } => { element == *pushed && same_bool(done, *was_done) }
        _ => false,
    }
}

/// What an update with these words put that was offered this.
pub(crate) fn put_of(
    packed: &PackedBucket,
    side: Side,
    flags: u32,
    key: &[u8],
    value: &[u8],
    offer: Option<u32>,
) -> Option<Put>
    ensures { result ≡ told.put_of side flags key.now value.now offer packed.now }
{
    match packed.part() {
        Ok(part) => put_by(part, side, flags, key, value, offer),
        Err(part) => put_by(&part, side, flags, key, value, offer),
    }
}

/// The same of a part that is at hand.
fn put_by(
    part: &BucketPart,
    side: Side,
    flags: u32,
    key: &[u8],
    value: &[u8],
    offer: Option<u32>,
) -> Option<Put>
    ensures { result ≡ told.put_of side flags key.now value.now offer part.now }
{
    match part {
        BucketPart::Update {
            side: was,
            flags: with,
            key: asked,
            value: given,
            offer: offered,
            put,
        } => {
            if same_side(side, *was)
                && flags == *with
                && key == asked.as_slice()
                && value == given.as_slice()
                && same_offer(offer, *offered)
            {
                Some(*put)
            } else {
                None
            }
        }
        _ => None,
    }
}

/// Whether two updates were offered the same.
fn same_offer(offer: Option<u32>, other: Option<u32>) -> bool
    ensures { result ≡ told.same_offer offer other }
{
    match offer {
        None => other.is_none(),
        Some(element) => matches!(other, Some(another) if element == another),
    }
}

/// Whether two probes found the same.
fn same_seen(probed: Probed, other: Probed) -> bool
    ensures { result ≡ told.same_seen probed other }
{
    match probed {
        Probed::Removed => matches!(other, Probed::Removed),
        Probed::Held(cpu) => matches!(other, Probed::Held(another) if cpu == another),
    }
}

/// Whether it is a turn in which an element was to be evicted.
pub(crate) fn is_evict(part: PartAt<'_>) -> bool
    ensures { result ≡ is_some (told.evicted (part_read part.entry)) }
{
    match part {
        PartAt::Bucket(packed) => match packed.part() {
            Ok(part) => is_eviction(part),
            Err(part) => is_eviction(&part),
        },
        _ => false,
    }
}

/// Whether an element was to be evicted.
fn is_eviction(part: &BucketPart) -> bool
    ensures { result ≡ is_some (told.evicted_in part.now) }
{
    matches!(part, BucketPart::Evict { .. })
}

/// Whether a turn is what a probe of an element with this hash, which found this, makes of a bucket.
pub(crate) fn is_answer(
    shape: &Shape,
    element: u32,
    probed: Probed,
    hash: Option<u32>,
    seen: &Seen<'_>,
) -> bool
    requires { HasBounds shape.now }
    ensures { result ≡ told.is_answer shape.now (told.try_of element probed) hash seen.now.turn }
{
    match hash {
        None => false,
        Some(stored) => match seen.lock {
            DomainId::Bucket(number) => {
                number == bucket_of(stored, shape.buckets) && is_try(seen.part, element, probed)
            }
            _ => false,
        },
    }
}

/// Whether an element was to be evicted, and was found so.
fn is_try(part: PartAt<'_>, element: u32, probed: Probed) -> bool
    ensures { result ≡ told.is_try (told.try_of element probed) (told.evicted (part_read part.entry)) }
{
    match part {
        PartAt::Bucket(packed) => match packed.part() {
            Ok(part) => is_tried(part, element, probed),
            Err(part) => is_tried(&part, element, probed),
        },
        _ => false,
    }
}

/// The same of a turn of a bucket.
fn is_tried(part: &BucketPart, element: u32, probed: Probed) -> bool
    ensures { result ≡ told.is_try (told.try_of element probed) (told.evicted_in part.now) }
{
    match part {
        BucketPart::Evict {
            element: evicted,
            probed: found,
        } => element == *evicted && same_seen(probed, *found),
        _ => false,
    }
}

/// Whether it is a push on the local lists of some CPU, which found the element so.
pub(crate) fn is_local_push(seen: &Seen<'_>, element: u32, done: bool) -> bool
    ensures { result ≡ is_some (calls.on_some_local (told.of_local (told.pushed_in element done)) seen.now.turn) }
{
    match seen.lock {
        DomainId::Local(_) => match seen.part {
            PartAt::Local(packed) => match packed.part() {
                Ok(part) => is_pushed(part, element, done),
                Err(part) => is_pushed(&part, element, done),
            },
            _ => false,
        },
        _ => false,
    }
}

/// Whether it is a push on the global lists.
pub(crate) fn is_global_push(seen: &Seen<'_>, element: u32) -> bool
    ensures { result ≡ is_some (told.on locks.Global (told.of_global (told.freed_in element)) seen.now.turn) }
{
    match seen.lock {
        DomainId::Global => match seen.part {
            PartAt::Global(packed) => match packed.part() {
                Ok(part) => is_freed(part, element),
                Err(part) => is_freed(&part, element),
            },
            _ => false,
        },
        _ => false,
    }
}

/// Whether this element was freed.
fn is_freed(part: &GlobalPart, element: u32) -> bool
    ensures { result ≡ is_some (told.freed_in element part.now) }
{
    match part {
        GlobalPart::Push { element: pushed } => element == *pushed,
        GlobalPart::Turn { .. } => false,
    }
}

/// Whether it is a push on a CPU's own lists.
pub(crate) fn is_own_push(seen: &Seen<'_>, cpu: u32, element: u32) -> bool
    ensures { result ≡ is_some (told.on (locks.CpuLru cpu) (told.of_own (told.own_freed_in element)) seen.now.turn) }
{
    match seen.lock {
        DomainId::CpuLru(at) => {
            at == cpu
                && match seen.part {
                    PartAt::Own(packed) => is_own_freed(packed.part(), element),
                    _ => false,
                }
        }
        _ => false,
    }
}

/// Whether this element was freed.
fn is_own_freed(part: OwnAt<'_>, element: u32) -> bool
    ensures { result ≡ is_some (told.own_freed_in element (own_read part.entry)) }
{
    match part {
        OwnAt::Push { element: pushed } => element == pushed,
        OwnAt::Turn { .. } => false,
    }
}

/// The element that was popped from the local lists of a CPU for a key of this hash.
pub(crate) fn popped(seen: &Seen<'_>, cpu: u32, hash: u32) -> Option<u32>
    ensures { result ≡ told.on (locks.Local cpu) (told.of_local (told.popped_in hash)) seen.now.turn }
{
    match seen.lock {
        DomainId::Local(at) if at == cpu => match seen.part {
            PartAt::Local(packed) => match packed.part() {
                Ok(part) => popped_in(part, hash),
                Err(part) => popped_in(&part, hash),
            },
            _ => None,
        },
        _ => None,
    }
}

/// What a turn of a CPU's own lists got for a key of this hash.
pub(crate) fn own_got(seen: &Seen<'_>, cpu: u32, hash: u32) -> Option<Option<u32>>
    ensures { result ≡ calls.own_got cpu hash seen.now.turn }
{
    match seen.lock {
        DomainId::CpuLru(at) if at == cpu => match seen.part {
            PartAt::Own(packed) => got_of(packed.part(), hash),
            _ => None,
        },
        _ => None,
    }
}

/// What was got for a key of this hash.
fn got_of(part: OwnAt<'_>, hash: u32) -> Option<Option<u32>>
    ensures { result ≡ option_map (λ (given : told.OwnGiving). given.3) (told.own_given_in hash (own_read part.entry)) }
{
    match part {
        OwnAt::Turn {
            hash: stored,
            got,
            ..
        } if hash == stored => Some(got),
        _ => None,
    }
}

/// What was stolen from the local lists of a CPU.
pub(crate) fn theft(seen: &Seen<'_>, from: u32) -> Option<Option<u32>>
    ensures { result ≡ calls.theft_of from seen.now.turn }
{
    match seen.lock {
        DomainId::Local(at) if at == from => match seen.part {
            PartAt::Local(packed) => match packed.part() {
                Ok(part) => stolen_in(part),
                Err(part) => stolen_in(&part),
            },
            _ => None,
        },
        _ => None,
    }
}

/// What a theft got.
fn stolen_in(part: &LocalPart) -> Option<Option<u32>>
    ensures { result ≡ option_map (λ (theft : told.Theft). stolen_element theft.0) (told.stolen_in part.now) }
{
    match part {
        LocalPart::Steal { got, .. } => Some(stolen_element(*got)),
        _ => None,
    }
}

/// The element that was stolen.
fn stolen_element(stolen: Stolen) -> Option<u32>
    ensures { result ≡ stolen_element stolen }
{
    match stolen {
        Stolen::Free(element) | Stolen::Pending(element) => Some(element),
        Stolen::Nothing => None,
    }
}

/// Whether a stolen element was brought home.
pub(crate) fn is_home(seen: &Seen<'_>, cpu: u32, hash: u32, element: u32, cursor: u32) -> bool
    ensures { result ≡ is_some (told.on (locks.Local cpu) (told.of_local (told.added_in hash element cursor)) seen.now.turn) }
{
    match seen.lock {
        DomainId::Local(at) => {
            at == cpu
                && match seen.part {
                    PartAt::Local(packed) => match packed.part() {
                        Ok(part) => is_added(part, hash, element, cursor),
                        Err(part) => is_added(&part, hash, element, cursor),
                    },
                    _ => false,
                }
        }
        _ => false,
    }
}
