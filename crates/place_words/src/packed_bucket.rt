//! What was done under a bucket's lock, as it lies in an entry. An eviction lies in place, and so does a lookup, a delete or an update
//! whose key and value fit into a pair, but for an update with flags from 256 on, and one that was offered an element and put
//! another one, or none. Every other part lies in a block of its own.

ghost use Rattle.std.specs.Prelude.{◌≡◌, ℕ, Some, None, IfOk, IfSome, MatchResult, true};
ghost use Rattle.place_words.specs.declared.bucket_part.BucketPart.TheVariants as bucket;
ghost use Rattle.place_words.specs.PackedBuckets.{bucket_of, eviction_of, in_place_of, key_in, value_in, may_lie_in_place, FitsPair};

use crate::copying::EqualCopy;
use crate::pair::{Pair, key_of, pair_of, usual_key, usual_pair, value_of};
use crate::{BucketPart, Put, Seen};
use map_types::{Bytes, NoMemory, Side};
use std::alloc::Global;
use std::marker::Model;

/// What one turn of a bucket's lock did. Contracts see the part.
#[derive(Drop)]
pub struct PackedBucket {
    data: BucketData,
}

/// Where a part of a bucket lies.
#[derive(Drop)]
pub(crate) enum BucketData {
    /// In a block of its own.
    Boxed(Box<BucketPart>),
    /// Here: an element that was to be evicted, and what its probe found.
    Evict {
        element: u32,
        probed: Seen,
    },
    /// Here: a lookup, a delete, or an update whose flags are below 256. `form` says what became of it, and which of the other
    /// fields it has a use for; the others say nothing.
    InPlace {
        form: Form,
        side: Side,
        flags: u8,
        pair: Pair,
        element: u32,
        other: u32,
    },
}

/// What became of a lookup, a delete or an update that lies in place, told by the fields beside it.
#[derive(Clone, Copy, Debug)]
pub(crate) enum Form {
    /// A lookup that found no element.
    Missed,
    /// A lookup that found `element`. The value is the one that was read.
    Got,
    /// A delete that found no element.
    DeletedNone,
    /// A delete of the key that `element` held.
    Deleted,
    /// An update that was offered no element, and added `element`.
    Added,
    /// An update that was offered no element, and found the key present: `element` holds the key now, where `other` held it.
    Replaced,
    /// An update that was offered no element, and found the key present: the values of `element`, which holds it, were written.
    Written,
    /// An update that was offered no element, and found the key present, which its flags refuse.
    Exists,
    /// An update that was offered no element, and found the key absent, which its flags refuse.
    Absent,
    /// An update that was offered no element, and found the key absent, and each freelist empty when it was looked at.
    Full,
    /// An update that was offered `element`, and added it.
    OfferAdded,
    /// An update that was offered `element`, and found the key present: `element` holds the key now, where `other` held it.
    OfferReplaced,
    /// An update that was offered `element`, and found the key present: the values of `other`, which holds it, were written.
    OfferWritten,
}

/// A form, and the elements that it means.
#[derive(Clone, Copy, Debug)]
struct Formed {
    form: Form,
    element: u32,
    other: u32,
}

impl Model for PackedBucket {
    ghost use Rattle.place_words.specs.declared.bucket_part.BucketPart.{BucketPart};
    ghost use Rattle.place_words.specs.PackedBuckets.{bucket_of, IsPacked};

    ghost Value = { BucketPart };

    ghost view = { λ p. bucket_of p.data };

    ghost invariant = { λ p. IsPacked p.data };
}

// Where a part is of the usual sizes it is made in registers. What another function answers has to be taken up and answered anew
// there: were it handed on, both would be made in memory.
impl PackedBucket {
    /// A part, in place where it fits, else in a block of its own.
    pub fn new(alloc: Global, part: BucketPart) -> Result<PackedBucket, NoMemory>
        ensures { IfOk result (λ packed. packed ≡ part) }
    {
        match in_place(&part) {
            Some(packed) => Ok(packed),
            None => boxed(alloc, part),
        }
    }

    /// An eviction of an element, and what its probe found. It takes no memory.
    pub fn evict(element: u32, probed: Seen) -> PackedBucket
        ensures { result ≡ bucket.Evict element probed }
    {
        PackedBucket {
            data: BucketData::Evict { element, probed },
        }
    }

    /// A lookup of a key that found no element.
    #[inline(always)]
    pub fn missed(alloc: Global, side: Side, key: &[u8]) -> Result<PackedBucket, NoMemory>
        ensures { IfOk result (λ packed. packed ≡ bucket.Lookup side key.now None) }
    {
        match usual_key(key) {
            Some(pair) => Ok(missed_with(pair, side)),
            None => Ok(missed_any(alloc, side, key)?),
        }
    }

    /// A lookup of a key that found an element with this value.
    #[inline(always)]
    pub fn got(
        alloc: Global,
        side: Side,
        key: &[u8],
        element: u32,
        value: &[u8],
    ) -> Result<PackedBucket, NoMemory>
        ensures { IfOk result (λ packed. packed
            ≡ bucket.Lookup side key.now (Some (element, value.now))) }
    {
        match usual_pair(key, value) {
            Some(pair) => Ok(got_with(pair, side, element)),
            None => Ok(got_any(alloc, side, key, element, value)?),
        }
    }

    /// A delete of a key, and the element that is gone, if one held it.
    #[inline(always)]
    pub fn deleted(alloc: Global, key: &[u8], gone: Option<u32>) -> Result<PackedBucket, NoMemory>
        ensures { IfOk result (λ packed. packed ≡ bucket.Delete key.now gone) }
    {
        match usual_key(key) {
            Some(pair) => Ok(deleted_with(pair, gone)),
            None => Ok(deleted_any(alloc, key, gone)?),
        }
    }

    /// An update with these words that was offered this element, if any, and did this.
    #[inline(always)]
    pub fn updated(
        alloc: Global,
        side: Side,
        flags: u32,
        key: &[u8],
        value: &[u8],
        offer: Option<u32>,
        put: Put,
    ) -> Result<PackedBucket, NoMemory>
        ensures { IfOk result (λ packed. packed
            ≡ bucket.Update side flags key.now value.now offer put) }
    {
        if let Some(pair) = usual_pair(key, value) {
            if flags <= 255 {
                if let Some(formed) = form_of(offer, put) {
                    return Ok(in_form(formed, side, flags as u8, pair));
                }
            }
        }
        Ok(updated_any(alloc, side, flags, key, value, offer, put)?)
    }

    /// The part: `Ok` is the one in its block, `Err` one that is made for the answer, of a kind that may lie in place.
    pub fn part(&self) -> Result<&BucketPart, BucketPart>
        ensures part { MatchResult result (λ part. part.now ≡ self.now) (λ part. part ≡ self.now) }
        ensures made { MatchResult result (λ _. Unit {0}) (λ part. may_lie_in_place part ≡ true) }
    {
        match &self.data {
            BucketData::Boxed(part) => Ok(part),
            BucketData::Evict { element, probed } => Err(BucketPart::Evict {
                element: *element,
                probed: *probed,
            }),
            BucketData::InPlace {
                form,
                side,
                flags,
                pair,
                element,
                other,
            } => {
                let formed = Formed {
                    form: *form,
                    element: *element,
                    other: *other,
                };
                Err(part_in(formed, *side, *flags, pair))
            }
        }
    }

    /// The element that was to be evicted, and what its probe found, if it is an eviction.
    pub fn eviction(&self) -> Option<(u32, Seen)>
        ensures { result ≡ eviction_of self.now }
    {
        match &self.data {
            BucketData::Evict { element, probed } => Some((*element, *probed)),
            BucketData::Boxed(part) => eviction_in(part),
            _ => None,
        }
    }
}

impl EqualCopy for PackedBucket {
    fn copy(&self, alloc: Global) -> Result<PackedBucket, NoMemory> {
        match self.part() {
            Ok(part) => PackedBucket::new(alloc, part.copy(alloc)?),
            Err(part) => PackedBucket::new(alloc, part),
        }
    }
}

/// A part that lies in a block of its own.
fn boxed(alloc: Global, part: BucketPart) -> Result<PackedBucket, NoMemory>
    ensures { IfOk result (λ packed. packed ≡ part) }
{
    Ok(PackedBucket {
        data: BucketData::Boxed(Box::new(alloc, part)?),
    })
}

/// A lookup that found no element, whatever the size of its key.
fn missed_any(alloc: Global, side: Side, key: &[u8]) -> Result<PackedBucket, NoMemory>
    ensures { IfOk result (λ packed. packed ≡ bucket.Lookup side key.now None) }
{
    if let Some(packed) = missed_in_place(side, key) {
        return Ok(packed);
    }
    let key = Bytes::from_slice(alloc, key)?;
    boxed(
        alloc,
        BucketPart::Lookup {
            side,
            key,
            got: None,
        },
    )
}

/// A lookup that found an element, whatever the sizes of its key and value.
fn got_any(
    alloc: Global,
    side: Side,
    key: &[u8],
    element: u32,
    value: &[u8],
) -> Result<PackedBucket, NoMemory>
    ensures { IfOk result (λ packed. packed
        ≡ bucket.Lookup side key.now (Some (element, value.now))) }
{
    if let Some(packed) = got_in_place(side, key, element, value) {
        return Ok(packed);
    }
    let key = Bytes::from_slice(alloc, key)?;
    let value = Bytes::from_slice(alloc, value)?;
    boxed(
        alloc,
        BucketPart::Lookup {
            side,
            key,
            got: Some((element, value)),
        },
    )
}

/// A delete, whatever the size of its key.
fn deleted_any(alloc: Global, key: &[u8], gone: Option<u32>) -> Result<PackedBucket, NoMemory>
    ensures { IfOk result (λ packed. packed ≡ bucket.Delete key.now gone) }
{
    if let Some(packed) = deleted_in_place(key, gone) {
        return Ok(packed);
    }
    let key = Bytes::from_slice(alloc, key)?;
    boxed(alloc, BucketPart::Delete { key, gone })
}

/// An update, whatever the sizes of its key and value.
fn updated_any(
    alloc: Global,
    side: Side,
    flags: u32,
    key: &[u8],
    value: &[u8],
    offer: Option<u32>,
    put: Put,
) -> Result<PackedBucket, NoMemory>
    ensures { IfOk result (λ packed. packed
        ≡ bucket.Update side flags key.now value.now offer put) }
{
    if let Some(packed) = updated_in_place(side, flags, key, value, offer, put) {
        return Ok(packed);
    }
    let key = Bytes::from_slice(alloc, key)?;
    let value = Bytes::from_slice(alloc, value)?;
    boxed(
        alloc,
        BucketPart::Update {
            side,
            flags,
            key,
            value,
            offer,
            put,
        },
    )
}

/// A part in place, if there is a form for it there, and its key and value fit.
fn in_place(part: &BucketPart) -> Option<PackedBucket>
    ensures { IfSome result (λ packed. packed ≡ part.now) }
{
    match part {
        BucketPart::Lookup { side, key, got } => match got {
            None => missed_in_place(*side, key.as_slice()),
            Some((element, value)) => {
                got_in_place(*side, key.as_slice(), *element, value.as_slice())
            }
        },
        BucketPart::Update {
            side,
            flags,
            key,
            value,
            offer,
            put,
        } => updated_in_place(
            *side,
            *flags,
            key.as_slice(),
            value.as_slice(),
            *offer,
            *put,
        ),
        BucketPart::Delete { key, gone } => deleted_in_place(key.as_slice(), *gone),
        BucketPart::Evict { element, probed } => Some(PackedBucket::evict(*element, *probed)),
        BucketPart::Take { .. }
        | BucketPart::Next { .. }
        | BucketPart::First { .. }
        | BucketPart::Walk { .. } => None,
    }
}

/// A lookup that found no element, if its key fits.
fn missed_in_place(side: Side, key: &[u8]) -> Option<PackedBucket>
    ensures { IfSome result (λ packed. packed ≡ bucket.Lookup side key.now None) }
{
    Some(missed_with(pair_of(key, &[])?, side))
}

/// A lookup that found an element, if its key and value fit.
fn got_in_place(side: Side, key: &[u8], element: u32, value: &[u8]) -> Option<PackedBucket>
    ensures { IfSome result (λ packed. packed
        ≡ bucket.Lookup side key.now (Some (element, value.now))) }
{
    Some(got_with(pair_of(key, value)?, side, element))
}

/// A delete, if its key fits.
fn deleted_in_place(key: &[u8], gone: Option<u32>) -> Option<PackedBucket>
    ensures { IfSome result (λ packed. packed ≡ bucket.Delete key.now gone) }
{
    Some(deleted_with(pair_of(key, &[])?, gone))
}

/// An update, if its key and value fit, its flags are below 256, and there is a form for what it did.
fn updated_in_place(
    side: Side,
    flags: u32,
    key: &[u8],
    value: &[u8],
    offer: Option<u32>,
    put: Put,
) -> Option<PackedBucket>
    ensures { IfSome result (λ packed. packed
        ≡ bucket.Update side flags key.now value.now offer put) }
{
    if flags > 255 {
        return None;
    }
    let formed = form_of(offer, put)?;
    Some(in_form(formed, side, flags as u8, pair_of(key, value)?))
}

/// A lookup of the key in a pair that found no element.
#[inline(always)]
fn missed_with(pair: Pair, side: Side) -> PackedBucket
    requires { FitsPair pair }
    ensures { result ≡ bucket.Lookup side (key_in pair) None }
{
    let formed = Formed {
        form: Form::Missed,
        element: 0,
        other: 0,
    };
    in_form(formed, side, 0, pair)
}

/// A lookup of the key in a pair that found an element with its value.
#[inline(always)]
fn got_with(pair: Pair, side: Side, element: u32) -> PackedBucket
    requires { FitsPair pair }
    ensures { result ≡ bucket.Lookup side (key_in pair) (Some (element, value_in pair)) }
{
    let formed = Formed {
        form: Form::Got,
        element,
        other: 0,
    };
    in_form(formed, side, 0, pair)
}

/// A delete of the key in a pair.
#[inline(always)]
fn deleted_with(pair: Pair, gone: Option<u32>) -> PackedBucket
    requires { FitsPair pair }
    ensures { result ≡ bucket.Delete (key_in pair) gone }
{
    let (form, element) = match gone {
        Some(element) => (Form::Deleted, element),
        None => (Form::DeletedNone, 0),
    };
    let formed = Formed {
        form,
        element,
        other: 0,
    };
    in_form(formed, Side::Prog, 0, pair)
}

/// A part in place, with these fields.
#[inline(always)]
fn in_form(formed: Formed, side: Side, flags: u8, pair: Pair) -> PackedBucket
    requires { FitsPair pair }
    ensures { result ≡ in_place_of formed.form side flags pair formed.element formed.other }
{
    PackedBucket {
        data: BucketData::InPlace {
            form: formed.form,
            side,
            flags,
            pair,
            element: formed.element,
            other: formed.other,
        },
    }
}

/// The form of an update that was offered this element, if any, and did this, if there is one for it.
#[inline(always)]
fn form_of(offer: Option<u32>, put: Put) -> Option<Formed>
    ensures { IfSome result (λ formed. (side : Side) → (flags : ℕ) → (pair : Pair)
        → in_place_of formed.form side flags pair formed.element formed.other
        ≡ bucket.Update side flags (key_in pair) (value_in pair) offer put) }
{
    let Some(offer) = offer else {
        return Some(form_alone(put));
    };
    let (form, element, other) = match put {
        Put::Added(added) => (Form::OfferAdded, added, 0),
        Put::Replaced { new, old } => (Form::OfferReplaced, new, old),
        Put::Written(written) => (Form::OfferWritten, offer, written),
        Put::Exists | Put::Absent | Put::Full => return None,
    };
    if element != offer {
        return None;
    }
    Some(Formed {
        form,
        element,
        other,
    })
}

/// The form of an update that was offered no element, and did this.
#[inline(always)]
fn form_alone(put: Put) -> Formed
    ensures { (side : Side) → (flags : ℕ) → (pair : Pair)
        → in_place_of result.form side flags pair result.element result.other
        ≡ bucket.Update side flags (key_in pair) (value_in pair) None put }
{
    let (form, element, other) = match put {
        Put::Added(added) => (Form::Added, added, 0),
        Put::Replaced { new, old } => (Form::Replaced, new, old),
        Put::Written(written) => (Form::Written, written, 0),
        Put::Exists => (Form::Exists, 0, 0),
        Put::Absent => (Form::Absent, 0, 0),
        Put::Full => (Form::Full, 0, 0),
    };
    Formed {
        form,
        element,
        other,
    }
}

/// The part that lies in place.
fn part_in(formed: Formed, side: Side, flags: u8, pair: &Pair) -> BucketPart
    requires { FitsPair pair.now }
    ensures { result
        ≡ in_place_of formed.form side flags pair.now formed.element formed.other }
{
    let (element, other) = (formed.element, formed.other);
    let (offer, put) = match formed.form {
        Form::Missed => {
            return BucketPart::Lookup {
                side,
                key: key_of(pair),
                got: None,
            };
        }
        Form::Got => {
            return BucketPart::Lookup {
                side,
                key: key_of(pair),
                got: Some((element, value_of(pair))),
            };
        }
        Form::DeletedNone => {
            return BucketPart::Delete {
                key: key_of(pair),
                gone: None,
            };
        }
        Form::Deleted => {
            return BucketPart::Delete {
                key: key_of(pair),
                gone: Some(element),
            };
        }
        Form::Added => (None, Put::Added(element)),
        Form::Replaced => (
            None,
            Put::Replaced {
                new: element,
                old: other,
            },
        ),
        Form::Written => (None, Put::Written(element)),
        Form::Exists => (None, Put::Exists),
        Form::Absent => (None, Put::Absent),
        Form::Full => (None, Put::Full),
        Form::OfferAdded => (Some(element), Put::Added(element)),
        Form::OfferReplaced => (
            Some(element),
            Put::Replaced {
                new: element,
                old: other,
            },
        ),
        Form::OfferWritten => (Some(element), Put::Written(other)),
    };
    BucketPart::Update {
        side,
        flags: flags as u32,
        key: key_of(pair),
        value: value_of(pair),
        offer,
        put,
    }
}

/// The element that was to be evicted, and what its probe found, if it is an eviction.
fn eviction_in(part: &BucketPart) -> Option<(u32, Seen)>
    ensures { result ≡ eviction_of part.now }
{
    match part {
        BucketPart::Evict { element, probed } => Some((*element, *probed)),
        _ => None,
    }
}
