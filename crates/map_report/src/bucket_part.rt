//! What one turn of a bucket's or a freelist's lock did, as text.

ghost use Rattle.std.specs.Prelude.{◌≡◌, ◌++◌, OnOk, string_bytes};
ghost use Rattle.std.specs.List.{flat_map};
ghost use Rattle.hex.specs.Hex.{encode_lower};
ghost use Rattle.place_words.specs.declared.bucket_part.BucketPart.TheVariants as parts;
ghost use Rattle.map_report.specs.BucketParts.{asked_text, bucket_part_text, first_text, free_part_text, gone_text, next_text, put_text, read_text, seen_text, taken_text, walk_name, walked_text};

use crate::piece::{Piece, push_bytes, push_counted, push_hex, push_number};
use crate::words::side_name;
use map_types::{Bytes, Side};
use place_words::{BucketPart, FreePart, Kept, NextFound, Put, Seen, Walked};
use std::alloc::AllocError;

impl Piece for BucketPart {
    ghost shown = { bucket_part_text };

    fn push_to(&self, text: &mut String) -> Result<(), AllocError> {
        match self {
            BucketPart::Lookup { side, key, got } => push_lookup(text, *side, key, got),
            BucketPart::Update {
                side,
                flags,
                key,
                value,
                offer,
                put,
            } => push_update(text, *side, *flags, key, value, *offer, *put),
            BucketPart::Delete { key, gone } => push_delete(text, key, *gone),
            BucketPart::Take { key, gone } => push_take(text, key, gone),
            BucketPart::Next { key, found } => push_next(text, key, found),
            BucketPart::First { key } => push_first(text, key),
            BucketPart::Walk {
                remove,
                room,
                result: walked,
            } => push_walk(text, *remove, *room, walked),
            BucketPart::Evict { element, probed } => push_evict(text, *element, *probed),
        }
    }
}

/// Adds `lookup SIDE KEY` and what was got.
fn push_lookup(
    text: &mut String,
    side: Side,
    key: &Bytes,
    got: &Option<(u32, Bytes)>,
) -> Result<(), AllocError>
    ensures { OnOk result (string_bytes text.new
        ≡ string_bytes text.old ++ bucket_part_text (parts.Lookup side key.now got.now)) }
{
    text.push_str("lookup ")?;
    text.push_str(side_name(side))?;
    key.push_to(text)?;
    push_read(text, " got", got)
}

/// Adds `update SIDE FLAGS KEY VALUE offer E` and what was put.
fn push_update(
    text: &mut String,
    side: Side,
    flags: u32,
    key: &Bytes,
    value: &Bytes,
    offer: Option<u32>,
    put: Put,
) -> Result<(), AllocError>
    ensures { OnOk result (string_bytes text.new
        ≡ string_bytes text.old
        ++ bucket_part_text (parts.Update side flags key.now value.now offer put)) }
{
    push_asked(text, side, flags, key, value)?;
    text.push_str(" offer")?;
    offer.push_to(text)?;
    put.push_to(text)
}

/// Adds `update SIDE FLAGS KEY VALUE`.
fn push_asked(
    text: &mut String,
    side: Side,
    flags: u32,
    key: &Bytes,
    value: &Bytes,
) -> Result<(), AllocError>
    ensures { OnOk result (string_bytes text.new
        ≡ string_bytes text.old ++ asked_text side flags key.now value.now) }
{
    text.push_str("update ")?;
    text.push_str(side_name(side))?;
    flags.push_to(text)?;
    key.push_to(text)?;
    value.push_to(text)
}

/// Adds `delete KEY` and the element that is gone.
fn push_delete(text: &mut String, key: &Bytes, gone: Option<u32>) -> Result<(), AllocError>
    ensures { OnOk result (string_bytes text.new
        ≡ string_bytes text.old ++ bucket_part_text (parts.Delete key.now gone)) }
{
    text.push_str("delete")?;
    key.push_to(text)?;
    push_gone(text, gone)
}

/// Adds ` gone E`, and ` none` where no element is.
fn push_gone(text: &mut String, gone: Option<u32>) -> Result<(), AllocError>
    ensures { OnOk result (string_bytes text.new ≡ string_bytes text.old ++ gone_text gone) }
{
    match gone {
        Some(element) => {
            text.push_str(" gone")?;
            element.push_to(text)
        }
        None => text.push_str(" none"),
    }
}

/// Adds `take KEY` and the element that is gone, with its value.
fn push_take(text: &mut String, key: &Bytes, gone: &Option<(u32, Bytes)>) -> Result<(), AllocError>
    ensures { OnOk result (string_bytes text.new
        ≡ string_bytes text.old ++ bucket_part_text (parts.Take key.now gone.now)) }
{
    text.push_str("take")?;
    key.push_to(text)?;
    push_read(text, " gone", gone)
}

/// Adds a word and an element with the value that was read, and ` none` where there is none.
fn push_read(text: &mut String, word: &str, read: &Option<(u32, Bytes)>) -> Result<(), AllocError>
    ensures { OnOk result (string_bytes text.new
        ≡ string_bytes text.old ++ read_text word.now read.now) }
{
    match read {
        Some((element, value)) => {
            text.push_str(word)?;
            element.push_to(text)?;
            value.push_to(text)
        }
        None => text.push_str(" none"),
    }
}

/// Adds `next KEY` and what follows it.
fn push_next(text: &mut String, key: &Bytes, found: &NextFound) -> Result<(), AllocError>
    ensures { OnOk result (string_bytes text.new
        ≡ string_bytes text.old ++ bucket_part_text (parts.Next key.now found.now)) }
{
    text.push_str("next")?;
    key.push_to(text)?;
    found.push_to(text)
}

impl Piece for NextFound {
    ghost shown = { next_text };

    fn push_to(&self, text: &mut String) -> Result<(), AllocError> {
        match self {
            NextFound::Absent => text.push_str(" absent"),
            NextFound::Last => text.push_str(" last"),
            NextFound::Key(key) => {
                text.push_str(" key")?;
                key.push_to(text)
            }
        }
    }
}

/// Adds `first` and the key at the head.
fn push_first(text: &mut String, key: &Option<Bytes>) -> Result<(), AllocError>
    ensures { OnOk result (string_bytes text.new
        ≡ string_bytes text.old ++ bucket_part_text (parts.First key.now)) }
{
    text.push_str("first")?;
    match key {
        Some(key) => {
            text.push_str(" key")?;
            key.push_to(text)
        }
        None => text.push_str(" none"),
    }
}

/// Adds how a batch read came by, the room that it had, and what it took.
fn push_walk(text: &mut String, remove: bool, room: u32, walked: &Walked) -> Result<(), AllocError>
    ensures { OnOk result (string_bytes text.new
        ≡ string_bytes text.old ++ bucket_part_text (parts.Walk remove room walked.now)) }
{
    text.push_str(walk_name(remove))?;
    room.push_to(text)?;
    walked.push_to(text)
}

/// `walk drop` of a walk that takes the elements out, and `walk keep` of one that leaves them.
fn walk_name(remove: bool) -> &'static str
    ensures { result.now ≡ walk_name remove }
{
    if remove { "walk drop" } else { "walk keep" }
}

impl Piece for Walked {
    ghost shown = { walked_text };

    fn push_to(&self, text: &mut String) -> Result<(), AllocError> {
        match self {
            Walked::Over(count) => {
                text.push_str(" over")?;
                count.push_to(text)
            }
            Walked::Taken(elements) => {
                text.push_str(" taken")?;
                push_counted(text, elements.as_slice())
            }
        }
    }
}

/// ` E:KEY=VALUE`, as a batch read takes it.
impl Piece for Kept {
    ghost shown = { taken_text };

    fn push_to(&self, text: &mut String) -> Result<(), AllocError> {
        self.element.push_to(text)?;
        text.push_str(":")?;
        push_hex(text, self.key.as_slice())?;
        text.push_str("=")?;
        push_values(text, self.values.as_slice())
    }
}

/// Adds values, with nothing between them.
fn push_values(text: &mut String, values: &[Bytes]) -> Result<(), AllocError>
    ensures { OnOk result (string_bytes text.new
        ≡ string_bytes text.old ++ flat_map encode_lower values.now) }
{
    for value in values {
        push_hex(text, value.as_slice())?;
    }
    Ok(())
}

/// Adds `evict E` and what was seen of it.
fn push_evict(text: &mut String, element: u32, probed: Seen) -> Result<(), AllocError>
    ensures { OnOk result (string_bytes text.new
        ≡ string_bytes text.old ++ bucket_part_text (parts.Evict element probed)) }
{
    text.push_str("evict")?;
    element.push_to(text)?;
    match probed {
        Seen::Removed => text.push_str(" removed"),
        Seen::Held(holder) => {
            text.push_str(" held")?;
            holder.push_to(text)
        }
    }
}

impl Piece for Put {
    ghost shown = { put_text };

    fn push_to(&self, text: &mut String) -> Result<(), AllocError> {
        match self {
            Put::Added(element) => {
                text.push_str(" added")?;
                element.push_to(text)
            }
            Put::Replaced { new, old } => {
                text.push_str(" replaced")?;
                new.push_to(text)?;
                old.push_to(text)
            }
            Put::Written(element) => {
                text.push_str(" written")?;
                element.push_to(text)
            }
            Put::Exists => text.push_str(" exists"),
            Put::Absent => text.push_str(" absent"),
            Put::Full => text.push_str(" full"),
        }
    }
}

impl Piece for FreePart {
    ghost shown = { free_part_text };

    fn push_to(&self, text: &mut String) -> Result<(), AllocError> {
        match self {
            FreePart::Pushed(element) => {
                text.push_str("push")?;
                element.push_to(text)
            }
            FreePart::Popped(element) => {
                text.push_str("pop")?;
                element.push_to(text)
            }
            FreePart::FoundEmpty => text.push_str("empty"),
        }
    }
}
