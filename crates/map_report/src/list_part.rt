//! What one turn of the lock of an LRU list did, as text.

ghost use Rattle.std.specs.Prelude.{◌≡◌, ◌++◌, OnOk, Some, option_map, string_bytes};
ghost use Rattle.place_words.specs.declared.list_part.GlobalPart.TheVariants as global;
ghost use Rattle.place_words.specs.declared.list_part.LocalPart.TheVariants as local;
ghost use Rattle.place_words.specs.declared.list_part.OwnPart.TheVariants as own;
ghost use Rattle.place_words.specs.Packed.{own_read};
ghost use Rattle.map_report.specs.ListParts.{done_text, flush_text, global_part_text, got_text, local_part_text, look_text, own_part_text, probe_text, probed_text, push_text, rotation_text, shrink_text, stolen_text, try_text, visit_text};
ghost use Rattle.map_report.specs.Words.{counted};

use crate::piece::{Piece, push_counted, push_decimal, push_hash};
use crate::words::bit_text;
use map_types::{List, Numbers};
use place_words::{
    Flush, GlobalPart, LocalPart, Look, OwnAt, Seen, ShrinkNote, Stolen, Try, Visit,
};
use std::alloc::AllocError;

/// ` E:B`
impl Piece for Visit {
    ghost shown = { visit_text };

    fn push_to(&self, text: &mut String) -> Result<(), AllocError> {
        self.element.push_to(text)?;
        text.push_str(":")?;
        text.push_str(bit_text(self.bit))
    }
}

/// ` E:HASH:B`
impl Piece for Flush {
    ghost shown = { flush_text };

    fn push_to(&self, text: &mut String) -> Result<(), AllocError> {
        self.element.push_to(text)?;
        text.push_str(":")?;
        push_hash(text, self.hash)?;
        text.push_str(":")?;
        text.push_str(bit_text(self.bit))
    }
}

/// ` E:B`, with `:r` or `:hH` where it was probed.
impl Piece for Look {
    ghost shown = { look_text };

    fn push_to(&self, text: &mut String) -> Result<(), AllocError> {
        self.element.push_to(text)?;
        text.push_str(":")?;
        text.push_str(bit_text(self.bit))?;
        push_probed(text, self.probed)
    }
}

/// ` E:r` or ` E:hH`
impl Piece for Try {
    ghost shown = { try_text };

    fn push_to(&self, text: &mut String) -> Result<(), AllocError> {
        self.element.push_to(text)?;
        push_probe(text, self.probed)
    }
}

/// Adds what a probe found, if there was one.
fn push_probed(text: &mut String, probed: Option<Seen>) -> Result<(), AllocError>
    ensures { OnOk result (string_bytes text.new ≡ string_bytes text.old ++ probed_text probed) }
{
    match probed {
        Some(probed) => push_probe(text, probed),
        None => Ok(()),
    }
}

/// Adds what a probe found.
fn push_probe(text: &mut String, probed: Seen) -> Result<(), AllocError>
    ensures { OnOk result (string_bytes text.new ≡ string_bytes text.old ++ probe_text probed) }
{
    match probed {
        Seen::Removed => text.push_str(":r"),
        Seen::Held(holder) => {
            text.push_str(":h")?;
            push_decimal(text, holder as u64)
        }
    }
}

/// Adds ` shrink TARGET N`, what was looked at, ` forced N` and what was tried by force. ` shrink no` where there was no shrink.
fn push_shrink(text: &mut String, shrink: Option<&ShrinkNote>) -> Result<(), AllocError>
    ensures { OnOk result (string_bytes text.new
        ≡ string_bytes text.old ++ shrink_text (option_map (λ note. note.now) shrink.entry)) }
{
    match shrink {
        Some(note) => push_note(text, note),
        None => text.push_str(" shrink no"),
    }
}

/// Adds what a shrink did.
fn push_note(text: &mut String, note: &ShrinkNote) -> Result<(), AllocError>
    ensures { OnOk result (string_bytes text.new
        ≡ string_bytes text.old ++ shrink_text (Some note.now)) }
{
    text.push_str(" shrink")?;
    note.target.push_to(text)?;
    push_counted(text, note.looks.as_slice())?;
    text.push_str(" forced")?;
    push_counted(text, note.forced.as_slice())
}

impl Piece for Stolen {
    ghost shown = { stolen_text };

    fn push_to(&self, text: &mut String) -> Result<(), AllocError> {
        match self {
            Stolen::Free(element) => {
                text.push_str(" free")?;
                element.push_to(text)
            }
            Stolen::Pending(element) => {
                text.push_str(" pending")?;
                element.push_to(text)
            }
            Stolen::Nothing => text.push_str(" none"),
        }
    }
}

/// Adds a word, how many items there are, and each of them.
fn push_list<T: Piece>(text: &mut String, word: &str, items: &[T]) -> Result<(), AllocError>
    ensures { OnOk result (string_bytes text.new
        ≡ string_bytes text.old ++ (word.now ++ counted T.shown items.now)) }
{
    text.push_str(word)?;
    push_counted(text, items)
}

/// Adds what a rotation saw of both lists.
#[tactic(auto, unfolding(crate::specs::ListParts::rotation_text))]
fn push_rotation(text: &mut String, active: &[Visit], inactive: &[Visit]) -> Result<(), AllocError>
    ensures { OnOk result (string_bytes text.new
        ≡ string_bytes text.old ++ rotation_text active.now inactive.now) }
{
    push_list(text, " active", active)?;
    push_list(text, " inactive", inactive)
}

/// Adds `push E`.
fn push_push(text: &mut String, element: u32) -> Result<(), AllocError>
    ensures { OnOk result (string_bytes text.new ≡ string_bytes text.old ++ push_text element) }
{
    text.push_str("push")?;
    element.push_to(text)
}

/// Adds ` got E`, and ` got -` where none was got.
fn push_got(text: &mut String, got: Option<u32>) -> Result<(), AllocError>
    ensures { OnOk result (string_bytes text.new ≡ string_bytes text.old ++ got_text got) }
{
    text.push_str(" got")?;
    got.push_to(text)
}

/// ` done` of a push that ends there, and ` moved` of one whose element isn't there any more.
fn done_text(done: bool) -> &'static str
    ensures { result.now ≡ done_text done }
{
    if done { " done" } else { " moved" }
}

impl Piece for LocalPart {
    ghost shown = { local_part_text };

    fn push_to(&self, text: &mut String) -> Result<(), AllocError> {
        match self {
            LocalPart::Pop { hash, element } => push_pop(text, *hash, *element),
            LocalPart::Refill {
                hash,
                flushed,
                gained,
                got,
            } => push_refill(text, *hash, flushed.as_slice(), gained.as_slice(), *got),
            LocalPart::Steal { got, first, second } => push_steal(
                text,
                *got,
                first.as_slice(),
                second.as_slice(),
            ),
            LocalPart::Add {
                hash,
                element,
                cursor,
            } => push_add(text, *hash, *element, *cursor),
            LocalPart::Push { element, done } => push_back(text, *element, *done),
        }
    }
}

/// Adds `pop HASH E`.
fn push_pop(text: &mut String, hash: u32, element: u32) -> Result<(), AllocError>
    ensures { OnOk result (string_bytes text.new
        ≡ string_bytes text.old ++ local_part_text (local.Pop hash element)) }
{
    text.push_str("pop ")?;
    push_hash(text, hash)?;
    element.push_to(text)
}

/// Adds `refill HASH`, what was flushed, what was gained, and what was got.
fn push_refill(
    text: &mut String,
    hash: u32,
    flushed: &[Visit],
    gained: &[u32],
    got: Option<u32>,
) -> Result<(), AllocError>
    ensures { OnOk result (string_bytes text.new
        ≡ string_bytes text.old ++ local_part_text (local.Refill hash flushed.now gained.now got)) }
{
    text.push_str("refill ")?;
    push_hash(text, hash)?;
    push_list(text, " flush", flushed)?;
    push_list(text, " gain", gained)?;
    push_got(text, got)
}

/// Adds `steal`, what was stolen, and what both walks saw.
fn push_steal(
    text: &mut String,
    got: Stolen,
    first: &[Look],
    second: &[Try],
) -> Result<(), AllocError>
    ensures { OnOk result (string_bytes text.new
        ≡ string_bytes text.old ++ local_part_text (local.Steal got first.now second.now)) }
{
    text.push_str("steal")?;
    got.push_to(text)?;
    push_list(text, " first", first)?;
    push_list(text, " second", second)
}

/// Adds `add HASH E cursor C`.
fn push_add(text: &mut String, hash: u32, element: u32, cursor: u32) -> Result<(), AllocError>
    ensures { OnOk result (string_bytes text.new
        ≡ string_bytes text.old ++ local_part_text (local.Add hash element cursor)) }
{
    text.push_str("add ")?;
    push_hash(text, hash)?;
    element.push_to(text)?;
    text.push_str(" cursor")?;
    cursor.push_to(text)
}

/// Adds `push E` and whether it is done there.
fn push_back(text: &mut String, element: u32, done: bool) -> Result<(), AllocError>
    ensures { OnOk result (string_bytes text.new
        ≡ string_bytes text.old ++ local_part_text (local.Push element done)) }
{
    push_push(text, element)?;
    text.push_str(done_text(done))
}

impl Piece for GlobalPart {
    ghost shown = { global_part_text };

    fn push_to(&self, text: &mut String) -> Result<(), AllocError> {
        match self {
            GlobalPart::Turn {
                flushed,
                active,
                inactive,
                free,
                shrink,
            } => push_global_turn(text, flushed, active, inactive, free, shrink),
            GlobalPart::Push { element } => push_push(text, *element),
        }
    }
}

/// Adds what a turn of the global lists did.
fn push_global_turn(
    text: &mut String,
    flushed: &List<Flush>,
    active: &List<Visit>,
    inactive: &List<Visit>,
    free: &Numbers,
    shrink: &Option<ShrinkNote>,
) -> Result<(), AllocError>
    ensures { OnOk result (string_bytes text.new
        ≡ string_bytes text.old
        ++ global_part_text (global.Turn flushed.now active.now inactive.now free.now shrink.now)) }
{
    push_list(text, "turn flush", flushed.as_slice())?;
    push_rotation(text, active.as_slice(), inactive.as_slice())?;
    push_list(text, " free", free.as_slice())?;
    push_shrink(text, shrink.as_ref())
}

impl Piece for OwnAt<'_> {
    ghost shown = { λ part. own_part_text (own_read part) };

    fn push_to(&self, text: &mut String) -> Result<(), AllocError> {
        match self {
            OwnAt::Turn {
                hash,
                active,
                inactive,
                shrink,
                got,
            } => push_own_turn(text, *hash, active, inactive, *shrink, *got),
            OwnAt::Push { element } => push_push(text, *element),
        }
    }
}

/// Adds what a turn of a CPU's own lists did.
fn push_own_turn(
    text: &mut String,
    hash: u32,
    active: &[Visit],
    inactive: &[Visit],
    shrink: Option<&ShrinkNote>,
    got: Option<u32>,
) -> Result<(), AllocError>
    ensures { OnOk result (string_bytes text.new
        ≡ string_bytes text.old
        ++ own_part_text (own.Turn hash active.now inactive.now
        (option_map (λ note. note.now) shrink.entry) got)) }
{
    text.push_str("turn ")?;
    push_hash(text, hash)?;
    push_rotation(text, active, inactive)?;
    push_shrink(text, shrink)?;
    push_got(text, got)
}
