//! The lines of a report that say what a map holds.

ghost use Rattle.std.specs.Prelude.{◌≡◌, [], ◌∷◌, ◌++◌, OnOk, if◌then◌else◌};
ghost use Rattle.std.specs.List.{flat_map};
ghost use Rattle.map_types.specs.declared.kind.DomainId.TheVariants as locks;
ghost use Rattle.map_report.specs.Dump.{bucket_lines, common_lines, cursor_line, dump_lines, evicting_lines, freelist_lines, list_line, local_lines, marked_line, name_text, own_lines, plain_lines, set_lines, spare_line, steal_line, stored_line};
ghost use Rattle.map_report.specs.Words.{lock_name};

use crate::lines::{Lines, Section, add_numbered};
use crate::piece::{Piece, push_each, push_number};
use map_types::{List, Numbers, Shape};
use place_words::{Finals, Kept, LocalFinal, SetFinal};
use std::alloc::AllocError;

/// Adds what a map holds: a line for each element in a bucket, and then the lists of the other locks.
pub(crate) fn add_dump<L: Lines>(
    lines: &mut L,
    shape: &Shape,
    finals: &Finals,
) -> Result<(), AllocError>
    ensures { OnOk result (L.written lines.new
        ≡ L.written lines.old ++ flat_map L.line (dump_lines shape.now finals.now)) }
{
    add_numbered(lines, 0, finals.buckets.as_slice())?;
    if shape.kind.is_lru() {
        add_evicting(lines, shape.common, finals)
    } else {
        add_plain(lines, finals)
    }
}

/// Adds the freelists and the spares of a map that doesn't evict.
fn add_plain<L: Lines>(lines: &mut L, finals: &Finals) -> Result<(), AllocError>
    ensures { OnOk result (L.written lines.new
        ≡ L.written lines.old ++ flat_map L.line (plain_lines finals.now)) }
{
    add_numbered(lines, 0, finals.freelists.as_slice())?;
    add_numbered(lines, 0, finals.spares.as_slice())
}

/// Adds the lists of a map that evicts, and its marked elements.
fn add_evicting<L: Lines>(lines: &mut L, common: bool, finals: &Finals) -> Result<(), AllocError>
    ensures { OnOk result (L.written lines.new
        ≡ L.written lines.old ++ flat_map L.line (evicting_lines common finals.now)) }
{
    add_lists(lines, common, finals)?;
    lines.add(&Marked {
        elements: finals.marked.as_slice(),
    })
}

/// Adds the lists of a map that evicts.
fn add_lists<L: Lines>(lines: &mut L, common: bool, finals: &Finals) -> Result<(), AllocError>
    ensures { OnOk result (L.written lines.new ≡ L.written lines.old
        ++ flat_map L.line (if common then common_lines finals.now else own_lines finals.now)) }
{
    if common {
        add_global(lines, finals.sets.as_slice())?;
        add_numbered(lines, 0, finals.locals.as_slice())
    } else {
        add_numbered(lines, 0, finals.sets.as_slice())
    }
}

/// Adds the global lists.
fn add_global<L: Lines>(lines: &mut L, sets: &[SetFinal]) -> Result<(), AllocError>
    ensures { OnOk result (L.written lines.new ≡ L.written lines.old
        ++ flat_map L.line (flat_map (set_lines (lock_name locks.Global)) sets.now)) }
{
    for set in sets {
        add_global_set(lines, set)?;
    }
    Ok(())
}

/// Adds the lists of the global set.
fn add_global_set<L: Lines>(lines: &mut L, set: &SetFinal) -> Result<(), AllocError>
    ensures { OnOk result (L.written lines.new
        ≡ L.written lines.old ++ flat_map L.line (set_lines (lock_name locks.Global) set.now)) }
{
    let lock = Name {
        word: "global",
        number: None,
    };
    add_set(lines, lock, set)
}

/// Adds the lists of a set, and its cursor.
#[tactic(auto, unfolding(crate::specs::Dump::set_lines))]
fn add_set<L: Lines>(lines: &mut L, lock: Name, set: &SetFinal) -> Result<(), AllocError>
    ensures { OnOk result (L.written lines.new ≡ L.written lines.old
        ++ flat_map L.line (set_lines (name_text lock.word.now lock.number) set.now)) }
{
    lines.add(&ListLine {
        lock,
        list: " active",
        elements: set.active.as_slice(),
    })?;
    lines.add(&ListLine {
        lock,
        list: " inactive",
        elements: set.inactive.as_slice(),
    })?;
    lines.add(&ListLine {
        lock,
        list: " free",
        elements: set.free.as_slice(),
    })?;
    lines.add(&CursorLine {
        lock,
        cursor: set.cursor,
    })
}

/// A bucket: a line for each of its elements.
impl Section for List<Kept> {
    ghost lines_at = { bucket_lines };

    fn add_to<L: Lines>(&self, number: usize, lines: &mut L) -> Result<(), AllocError> {
        add_bucket(lines, number, self.as_slice())
    }
}

/// Adds a line for each element of a bucket.
fn add_bucket<L: Lines>(lines: &mut L, bucket: usize, elements: &[Kept]) -> Result<(), AllocError>
    ensures { OnOk result (L.written lines.new
        ≡ L.written lines.old ++ flat_map L.line (bucket_lines bucket elements.now)) }
{
    for kept in elements {
        lines.add(&Stored { bucket, kept })?;
    }
    Ok(())
}

/// A freelist.
impl Section for Numbers {
    ghost lines_at = { freelist_lines };

    fn add_to<L: Lines>(&self, number: usize, lines: &mut L) -> Result<(), AllocError> {
        lines.add(&ListLine {
            lock: Name {
                word: "freelist",
                number: Some(number),
            },
            list: "",
            elements: self.as_slice(),
        })
    }
}

/// A spare.
impl Section for u32 {
    ghost lines_at = { λ cpu element. spare_line cpu element ∷ [] };

    fn add_to<L: Lines>(&self, number: usize, lines: &mut L) -> Result<(), AllocError> {
        lines.add(&Spare {
            cpu: number,
            element: *self,
        })
    }
}

/// The list set of a CPU.
impl Section for SetFinal {
    ghost lines_at = { λ cpu set. set_lines (lock_name (locks.CpuLru cpu)) set };

    fn add_to<L: Lines>(&self, number: usize, lines: &mut L) -> Result<(), AllocError> {
        let lock = Name {
            word: "lru",
            number: Some(number),
        };
        add_set(lines, lock, self)
    }
}

/// The local lists of a CPU.
impl Section for LocalFinal {
    ghost lines_at = { local_lines };

    fn add_to<L: Lines>(&self, number: usize, lines: &mut L) -> Result<(), AllocError> {
        let lock = Name {
            word: "local",
            number: Some(number),
        };
        lines.add(&ListLine {
            lock,
            list: " free",
            elements: self.free.as_slice(),
        })?;
        lines.add(&ListLine {
            lock,
            list: " pending",
            elements: self.pending.as_slice(),
        })?;
        lines.add(&Steal {
            lock,
            steal: self.steal,
        })
    }
}

/// A lock's name: a word, and a number where there are many of it.
#[derive(Clone, Copy)]
struct Name {
    word: &'static str,
    number: Option<usize>,
}

impl Piece for Name {
    ghost shown = { λ name. name_text name.word.now name.number };

    fn push_to(&self, text: &mut String) -> Result<(), AllocError> {
        text.push_str(self.word)?;
        match self.number {
            Some(number) => push_number(text, number as u64),
            None => Ok(()),
        }
    }
}

/// An element in a bucket.
#[derive(Clone, Copy)]
struct Stored<'a> {
    bucket: usize,
    kept: &'a Kept,
}

/// `bucket B E KEY` and the values.
impl Piece for Stored<'_> {
    ghost shown = { λ stored. stored_line stored.bucket stored.kept.now };

    fn push_to(&self, text: &mut String) -> Result<(), AllocError> {
        let kept = self.kept;
        text.push_str("bucket")?;
        push_number(text, self.bucket as u64)?;
        kept.element.push_to(text)?;
        kept.key.push_to(text)?;
        push_each(text, kept.values.as_slice())
    }
}

/// A list that lies under a lock.
#[derive(Clone, Copy)]
struct ListLine<'a> {
    lock: Name,
    list: &'static str,
    elements: &'a [u32],
}

impl Piece for ListLine<'_> {
    ghost shown = { λ line. list_line (name_text line.lock.word.now line.lock.number) line.list.now
        line.elements.now };

    fn push_to(&self, text: &mut String) -> Result<(), AllocError> {
        self.lock.push_to(text)?;
        text.push_str(self.list)?;
        push_each(text, self.elements)
    }
}

/// Where the cursor of a list set stands.
#[derive(Clone, Copy)]
struct CursorLine {
    lock: Name,
    cursor: Option<u32>,
}

impl Piece for CursorLine {
    ghost shown = { λ line. cursor_line (name_text line.lock.word.now line.lock.number)
        line.cursor };

    fn push_to(&self, text: &mut String) -> Result<(), AllocError> {
        self.lock.push_to(text)?;
        text.push_str(" cursor")?;
        self.cursor.push_to(text)
    }
}

/// The CPU from which a CPU steals next.
#[derive(Clone, Copy)]
struct Steal {
    lock: Name,
    steal: u32,
}

impl Piece for Steal {
    ghost shown = { λ line. steal_line (name_text line.lock.word.now line.lock.number) line.steal };

    fn push_to(&self, text: &mut String) -> Result<(), AllocError> {
        self.lock.push_to(text)?;
        text.push_str(" steal")?;
        self.steal.push_to(text)
    }
}

/// The spare of a CPU.
#[derive(Clone, Copy)]
struct Spare {
    cpu: usize,
    element: u32,
}

impl Piece for Spare {
    ghost shown = { λ spare. spare_line spare.cpu spare.element };

    fn push_to(&self, text: &mut String) -> Result<(), AllocError> {
        text.push_str("spare")?;
        push_number(text, self.cpu as u64)?;
        self.element.push_to(text)
    }
}

/// The elements whose bit is set.
#[derive(Clone, Copy)]
struct Marked<'a> {
    elements: &'a [u32],
}

impl Piece for Marked<'_> {
    ghost shown = { λ marked. marked_line marked.elements.now };

    fn push_to(&self, text: &mut String) -> Result<(), AllocError> {
        text.push_str("marked")?;
        push_each(text, self.elements)
    }
}
