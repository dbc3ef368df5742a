//! What one turn of a bucket's lock did, read from the front of a text.

ghost use Rattle.std.specs.Prelude.{◌≡◌, IfOk, MatchOption, None, Some, codes};
ghost use Rattle.map_types.specs.Creation.{IsShape};
ghost use Rattle.record_reading.specs.BucketReaders.{bucket_part, delete_part, evict_part, first_call, first_part, gone_part, lookup_part, next_call, next_part, put_part, read_part, seen_part, take_part, taken_part, u32_text, update_part, walk_part, walked_part, element_text};
ghost use Rattle.record_reading.specs.Readers.{after, both};

use crate::hexadecimal::bytes;
use crate::many::{Readable, counted};
use crate::numbers::{
    cpu_text, element_behind, element_colon, element_text, option_text, u32_text,
};
use crate::values::{given_text, key_text, value, value_text};
use crate::words::{behind, side_word};
use map_types::{Bytes, NoMemory, Shape, Side};
use place_words::{BucketPart, Kept, KeptValues, NextFound, Put, Seen, Walked};
use std::alloc::Global;

/// What one turn of a bucket's lock did.
#[tactic(auto, unfolding(crate::specs::BucketReaders::bucket_part, crate::specs::Readers::or_else))]
pub(crate) fn bucket_part<'a>(
    alloc: Global,
    shape: &Shape,
    text: &'a [u8],
) -> Result<Option<(BucketPart, &'a [u8])>, NoMemory>
    requires { IsShape shape.now }
    ensures { IfOk result (λ found. MatchOption found (bucket_part shape.now text.now ≡ None)
        (λ f. bucket_part shape.now text.now ≡ Some (f.0, f.1.now))) }
{
    if let Some(found) = lookup_part(alloc, shape, text)? {
        return Ok(Some(found));
    }
    if let Some(found) = update_part(alloc, shape, text)? {
        return Ok(Some(found));
    }
    if let Some(found) = delete_part(alloc, shape, text)? {
        return Ok(Some(found));
    }
    if let Some(found) = take_part(alloc, shape, text)? {
        return Ok(Some(found));
    }
    if let Some(found) = next_call(alloc, shape, text)? {
        return Ok(Some(found));
    }
    if let Some(found) = first_call(alloc, shape, text)? {
        return Ok(Some(found));
    }
    if let Some(found) = walk_part(alloc, shape, text, false, b"walk keep")? {
        return Ok(Some(found));
    }
    if let Some(found) = walk_part(alloc, shape, text, true, b"walk drop")? {
        return Ok(Some(found));
    }
    Ok(evict_part(shape, text))
}

/// `lookup SIDE KEY`, and the element and the value that were got.
#[tactic(auto, unfolding(crate::specs::BucketReaders::lookup_part))]
fn lookup_part<'a>(
    alloc: Global,
    shape: &Shape,
    text: &'a [u8],
) -> Result<Option<(BucketPart, &'a [u8])>, NoMemory>
    requires { IsShape shape.now }
    ensures { IfOk result (λ found. MatchOption found (lookup_part shape.now text.now ≡ None)
        (λ f. lookup_part shape.now text.now ≡ Some (f.0, f.1.now))) }
{
    let Some(rest) = behind(text, b"lookup ") else {
        return Ok(None);
    };
    let Some((side, rest)) = side_word(rest) else {
        return Ok(None);
    };
    let Some((key, rest)) = key_text(alloc, shape, rest)? else {
        return Ok(None);
    };
    let Some((got, rest)) = read_part(alloc, shape, rest, b" got", side)? else {
        return Ok(None);
    };
    Ok(Some((BucketPart::Lookup { side, key, got }, rest)))
}

/// `update SIDE FLAGS KEY VALUE`, the offer, and what was put.
#[tactic(auto, unfolding(crate::specs::BucketReaders::update_part))]
fn update_part<'a>(
    alloc: Global,
    shape: &Shape,
    text: &'a [u8],
) -> Result<Option<(BucketPart, &'a [u8])>, NoMemory>
    requires { IsShape shape.now }
    ensures { IfOk result (λ found. MatchOption found (update_part shape.now text.now ≡ None)
        (λ f. update_part shape.now text.now ≡ Some (f.0, f.1.now))) }
{
    let Some(rest) = behind(text, b"update ") else {
        return Ok(None);
    };
    let Some((side, rest)) = side_word(rest) else {
        return Ok(None);
    };
    let Some((flags, rest)) = u32_text(rest) else {
        return Ok(None);
    };
    let Some((key, rest)) = key_text(alloc, shape, rest)? else {
        return Ok(None);
    };
    let Some((value, rest)) = given_text(alloc, shape, side, rest)? else {
        return Ok(None);
    };
    let Some(rest) = behind(rest, b" offer") else {
        return Ok(None);
    };
    let Some((offer, rest)) = option_text(shape, rest) else {
        return Ok(None);
    };
    let Some((put, rest)) = put_part(shape, rest) else {
        return Ok(None);
    };
    let part = BucketPart::Update {
        side,
        flags,
        key,
        value,
        offer,
        put,
    };
    Ok(Some((part, rest)))
}

/// `delete KEY`, and the element that is gone.
#[tactic(auto, unfolding(crate::specs::BucketReaders::delete_part))]
fn delete_part<'a>(
    alloc: Global,
    shape: &Shape,
    text: &'a [u8],
) -> Result<Option<(BucketPart, &'a [u8])>, NoMemory>
    ensures { IfOk result (λ found. MatchOption found (delete_part shape.now text.now ≡ None)
        (λ f. delete_part shape.now text.now ≡ Some (f.0, f.1.now))) }
{
    let Some(rest) = behind(text, b"delete") else {
        return Ok(None);
    };
    let Some((key, rest)) = key_text(alloc, shape, rest)? else {
        return Ok(None);
    };
    let Some((gone, rest)) = gone_part(shape, rest) else {
        return Ok(None);
    };
    Ok(Some((BucketPart::Delete { key, gone }, rest)))
}

/// `take KEY`, and the element that is gone with its value.
#[tactic(auto, unfolding(crate::specs::BucketReaders::take_part))]
fn take_part<'a>(
    alloc: Global,
    shape: &Shape,
    text: &'a [u8],
) -> Result<Option<(BucketPart, &'a [u8])>, NoMemory>
    requires { IsShape shape.now }
    ensures { IfOk result (λ found. MatchOption found (take_part shape.now text.now ≡ None)
        (λ f. take_part shape.now text.now ≡ Some (f.0, f.1.now))) }
{
    let Some(rest) = behind(text, b"take") else {
        return Ok(None);
    };
    let Some((key, rest)) = key_text(alloc, shape, rest)? else {
        return Ok(None);
    };
    let Some((gone, rest)) = read_part(alloc, shape, rest, b" gone", Side::Sys)? else {
        return Ok(None);
    };
    Ok(Some((BucketPart::Take { key, gone }, rest)))
}

/// `next KEY`, and what follows it.
#[tactic(auto, unfolding(crate::specs::BucketReaders::next_call))]
fn next_call<'a>(
    alloc: Global,
    shape: &Shape,
    text: &'a [u8],
) -> Result<Option<(BucketPart, &'a [u8])>, NoMemory>
    ensures { IfOk result (λ found. MatchOption found (next_call shape.now text.now ≡ None)
        (λ f. next_call shape.now text.now ≡ Some (f.0, f.1.now))) }
{
    let Some(rest) = behind(text, b"next") else {
        return Ok(None);
    };
    let Some((key, rest)) = key_text(alloc, shape, rest)? else {
        return Ok(None);
    };
    let Some((found, rest)) = next_part(alloc, shape, rest)? else {
        return Ok(None);
    };
    Ok(Some((BucketPart::Next { key, found }, rest)))
}

/// `first`, and the key at the head.
#[tactic(auto, unfolding(crate::specs::BucketReaders::first_call))]
fn first_call<'a>(
    alloc: Global,
    shape: &Shape,
    text: &'a [u8],
) -> Result<Option<(BucketPart, &'a [u8])>, NoMemory>
    ensures { IfOk result (λ found. MatchOption found (first_call shape.now text.now ≡ None)
        (λ f. first_call shape.now text.now ≡ Some (f.0, f.1.now))) }
{
    let Some(rest) = behind(text, b"first") else {
        return Ok(None);
    };
    let Some((key, rest)) = first_part(alloc, shape, rest)? else {
        return Ok(None);
    };
    Ok(Some((BucketPart::First { key }, rest)))
}

/// A walk by its word, the room that it had, and what it took.
#[tactic(auto, unfolding(crate::specs::BucketReaders::walk_part))]
fn walk_part<'a>(
    alloc: Global,
    shape: &Shape,
    text: &'a [u8],
    remove: bool,
    word: &[u8],
) -> Result<Option<(BucketPart, &'a [u8])>, NoMemory>
    requires { IsShape shape.now }
    ensures { IfOk result (λ found. MatchOption found
        (walk_part shape.now remove word.now text.now ≡ None)
        (λ f. walk_part shape.now remove word.now text.now ≡ Some (f.0, f.1.now))) }
{
    let Some(rest) = behind(text, word) else {
        return Ok(None);
    };
    let Some((room, rest)) = u32_text(rest) else {
        return Ok(None);
    };
    let Some((walked, rest)) = walked_part(alloc, shape, rest)? else {
        return Ok(None);
    };
    let part = BucketPart::Walk {
        remove,
        room,
        result: walked,
    };
    Ok(Some((part, rest)))
}

/// `evict E`, and what the probe found.
#[tactic(auto, unfolding(crate::specs::BucketReaders::evict_part))]
fn evict_part<'a>(shape: &Shape, text: &'a [u8]) -> Option<(BucketPart, &'a [u8])>
    ensures { MatchOption result (evict_part shape.now text.now ≡ None)
        (λ f. evict_part shape.now text.now ≡ Some (f.0, f.1.now)) }
{
    let (element, rest) = element_behind(shape, text, b"evict")?;
    let (probed, rest) = seen_part(shape, rest)?;
    Some((BucketPart::Evict { element, probed }, rest))
}

/// An element and its value behind a word, or ` none`.
#[tactic(auto, unfolding(crate::specs::BucketReaders::read_part, crate::specs::Readers::or_else))]
fn read_part<'a>(
    alloc: Global,
    shape: &Shape,
    text: &'a [u8],
    word: &[u8],
    side: Side,
) -> Result<Option<(Option<(u32, Bytes)>, &'a [u8])>, NoMemory>
    requires { IsShape shape.now }
    ensures { IfOk result (λ found. MatchOption found
        (read_part shape.now word.now side text.now ≡ None)
        (λ f. read_part shape.now word.now side text.now ≡ Some (f.0, f.1.now))) }
{
    if let Some(rest) = behind(text, b" none") {
        return Ok(Some((None, rest)));
    }
    let Some((element, rest)) = element_behind(shape, text, word) else {
        return Ok(None);
    };
    let Some((value, rest)) = value_text(alloc, shape, side, rest)? else {
        return Ok(None);
    };
    Ok(Some((Some((element, value)), rest)))
}

/// The element that is gone, or ` none`.
#[tactic(auto, unfolding(crate::specs::BucketReaders::gone_part, crate::specs::Readers::or_else))]
fn gone_part<'a>(shape: &Shape, text: &'a [u8]) -> Option<(Option<u32>, &'a [u8])>
    ensures { MatchOption result (gone_part shape.now text.now ≡ None)
        (λ f. gone_part shape.now text.now ≡ Some (f.0, f.1.now)) }
{
    if let Some(rest) = behind(text, b" none") {
        return Some((None, rest));
    }
    let (element, rest) = element_behind(shape, text, b" gone")?;
    Some((Some(element), rest))
}

/// What an update did.
#[tactic(auto, unfolding(crate::specs::BucketReaders::put_part, crate::specs::Readers::or_else))]
fn put_part<'a>(shape: &Shape, text: &'a [u8]) -> Option<(Put, &'a [u8])>
    ensures { MatchOption result (put_part shape.now text.now ≡ None)
        (λ f. put_part shape.now text.now ≡ Some (f.0, f.1.now)) }
{
    if let Some((element, rest)) = element_behind(shape, text, b" added") {
        return Some((Put::Added(element), rest));
    }
    if let Some((new, old, rest)) = replaced_pair(shape, text) {
        return Some((Put::Replaced { new, old }, rest));
    }
    if let Some((element, rest)) = element_behind(shape, text, b" written") {
        return Some((Put::Written(element), rest));
    }
    if let Some(rest) = behind(text, b" exists") {
        return Some((Put::Exists, rest));
    }
    if let Some(rest) = behind(text, b" absent") {
        return Some((Put::Absent, rest));
    }
    let rest = behind(text, b" full")?;
    Some((Put::Full, rest))
}

/// ` replaced`, the new element and the old one.
fn replaced_pair<'a>(shape: &Shape, text: &'a [u8]) -> Option<(u32, u32, &'a [u8])>
    ensures { MatchOption result
        (after (codes " replaced") (both (element_text shape.now) (λ _. element_text shape.now)) text.now ≡ None)
        (λ f. after (codes " replaced") (both (element_text shape.now) (λ _. element_text shape.now)) text.now ≡ Some ((f.0, f.1), f.2.now)) }
{
    let (new, rest) = element_behind(shape, text, b" replaced")?;
    let (old, rest) = element_text(shape, rest)?;
    Some((new, old, rest))
}

/// What follows a key.
#[tactic(auto, unfolding(crate::specs::BucketReaders::next_part, crate::specs::Readers::or_else))]
fn next_part<'a>(
    alloc: Global,
    shape: &Shape,
    text: &'a [u8],
) -> Result<Option<(NextFound, &'a [u8])>, NoMemory>
    ensures { IfOk result (λ found. MatchOption found (next_part shape.now text.now ≡ None)
        (λ f. next_part shape.now text.now ≡ Some (f.0, f.1.now))) }
{
    if let Some(rest) = behind(text, b" absent") {
        return Ok(Some((NextFound::Absent, rest)));
    }
    if let Some(rest) = behind(text, b" last") {
        return Ok(Some((NextFound::Last, rest)));
    }
    let Some(rest) = behind(text, b" key") else {
        return Ok(None);
    };
    let Some((key, rest)) = key_text(alloc, shape, rest)? else {
        return Ok(None);
    };
    Ok(Some((NextFound::Key(key), rest)))
}

/// The key at the head, or ` none`.
#[tactic(auto, unfolding(crate::specs::BucketReaders::first_part, crate::specs::Readers::or_else))]
fn first_part<'a>(
    alloc: Global,
    shape: &Shape,
    text: &'a [u8],
) -> Result<Option<(Option<Bytes>, &'a [u8])>, NoMemory>
    ensures { IfOk result (λ found. MatchOption found (first_part shape.now text.now ≡ None)
        (λ f. first_part shape.now text.now ≡ Some (f.0, f.1.now))) }
{
    if let Some(rest) = behind(text, b" none") {
        return Ok(Some((None, rest)));
    }
    let Some(rest) = behind(text, b" key") else {
        return Ok(None);
    };
    let Some((key, rest)) = key_text(alloc, shape, rest)? else {
        return Ok(None);
    };
    Ok(Some((Some(key), rest)))
}

/// What a walk took of a bucket.
#[tactic(auto, unfolding(crate::specs::BucketReaders::walked_part, crate::specs::Readers::or_else))]
fn walked_part<'a>(
    alloc: Global,
    shape: &Shape,
    text: &'a [u8],
) -> Result<Option<(Walked, &'a [u8])>, NoMemory>
    requires { IsShape shape.now }
    ensures { IfOk result (λ found. MatchOption found (walked_part shape.now text.now ≡ None)
        (λ f. walked_part shape.now text.now ≡ Some (f.0, f.1.now))) }
{
    if let Some((count, rest)) = over_count(text) {
        return Ok(Some((Walked::Over(count), rest)));
    }
    let Some(rest) = behind(text, b" taken") else {
        return Ok(None);
    };
    let Some((elements, rest)) = counted::<Kept>(alloc, shape, rest)? else {
        return Ok(None);
    };
    Ok(Some((Walked::Taken(elements), rest)))
}

/// ` over`, and how many elements there are.
fn over_count(text: &[u8]) -> Option<(u32, &[u8])>
    ensures { MatchOption result (after (codes " over") u32_text text.now ≡ None)
        (λ f. after (codes " over") u32_text text.now ≡ Some (f.0, f.1.now)) }
{
    u32_text(behind(text, b" over")?)
}

/// ` E:KEY=VALUE` of a walk, with the value that the system call reads.
impl Readable for Kept {
    ghost front = { taken_part };

    #[tactic(auto, unfolding(crate::specs::BucketReaders::taken_part))]
    fn read<'a>(
        alloc: Global,
        shape: &Shape,
        text: &'a [u8],
    ) -> Result<Option<(Kept, &'a [u8])>, NoMemory> {
        let Some((element, rest)) = element_colon(shape, text) else {
            return Ok(None);
        };
        let Some((key, rest)) = bytes(alloc, rest, shape.key_size as usize)? else {
            return Ok(None);
        };
        let Some(rest) = behind(rest, b"=") else {
            return Ok(None);
        };
        let Some((value, rest)) = value(alloc, shape, Side::Sys, rest)? else {
            return Ok(None);
        };
        let kept = Kept {
            element,
            key,
            values: KeptValues::one(value),
        };
        Ok(Some((kept, rest)))
    }
}

/// What a probe of an element found.
#[tactic(auto, unfolding(crate::specs::BucketReaders::seen_part, crate::specs::Readers::or_else))]
fn seen_part<'a>(shape: &Shape, text: &'a [u8]) -> Option<(Seen, &'a [u8])>
    ensures { MatchOption result (seen_part shape.now text.now ≡ None)
        (λ f. seen_part shape.now text.now ≡ Some (f.0, f.1.now)) }
{
    if let Some(rest) = behind(text, b" removed") {
        return Some((Seen::Removed, rest));
    }
    let (holder, rest) = cpu_text(shape, behind(text, b" held")?)?;
    Some((Seen::Held(holder), rest))
}
