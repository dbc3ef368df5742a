//! What the map holds.

ghost use Rattle.std.specs.Prelude.{◌≡◌, ◌++◌, IfOk, codes};
ghost use Rattle.map_types.specs.Creation.{IsShape};
ghost use Rattle.map_report.specs.Serial.{spare_count};
ghost use Rattle.map_report.specs.Words.{lock_name};
ghost use Rattle.record_reading.specs.DumpReaders.{cursor_part, freelist_section, list_named, local_section, set_section, spare_part, steal_part};
ghost use Rattle.record_reading.specs.LineReaders.{marks};
ghost use Rattle.record_reading.specs.Outcomes.{Reads};
ghost use Rattle.record_reading.specs.Readers.{word_then};
ghost use Rattle.record_reading.specs.RecordReaders.{bucket_section, finals_section, marked_section, set_name};
ghost use Rattle.record_reading.specs.Sections.{one_line};
ghost use Rattle.record_shape.specs.WellShaped.{freelist_count, local_count, set_count};

use crate::dump_lines::{cursor_line, list_line, marked_line, spare_line, steal_line, stored_line};
use crate::lines::Lines;
use crate::sections::{Numbered, read_numbered};
use map_types::{DomainId, List, MapKind, NoMemory, Numbers, Shape};
use place_words::{Finals, Kept, LocalFinal, SetFinal};
use std::alloc::Global;

/// A list of elements, by the name of its lock and a word.
#[tactic(auto, using(crate::proofs::LineLemmas::line_found, crate::proofs::LineLemmas::line_other, crate::proofs::LineLemmas::line_missing))]
fn read_list(
    alloc: Global,
    shape: &Shape,
    lock: DomainId,
    word: &[u8],
    lines: &mut Lines,
) -> Result<Option<Numbers>, NoMemory>
    requires { IsShape shape.now }
    ensures lines { IfOk result (Reads (one_line (list_named shape.now (lock_name lock ++ word.now)))
        lines.old.0 lines.new.0) }
    ensures rest { lines.new.1 ≡ lines.old.1 }
{
    let Some(line) = lines.first() else {
        return Ok(None);
    };
    let Some(list) = list_line(alloc, shape, lock, word, line)? else {
        return Ok(None);
    };
    lines.pass();
    Ok(Some(list))
}

/// The freelist of a CPU.
impl Numbered for Numbers {
    ghost section = { freelist_section };

    fn read<'a>(
        alloc: Global,
        shape: &Shape,
        number: u32,
        lines: &mut Lines<'a>,
    ) -> Result<Option<Numbers>, NoMemory> {
        read_list(alloc, shape, DomainId::Freelist(number), b"", lines)
    }
}

/// The spare element of a CPU.
impl Numbered for u32 {
    ghost section = { λ shape cpu. one_line (spare_part shape cpu) };

    #[tactic(auto, using(crate::proofs::LineLemmas::line_found, crate::proofs::LineLemmas::line_other, crate::proofs::LineLemmas::line_missing))]
    fn read<'a>(
        _: Global,
        shape: &Shape,
        number: u32,
        lines: &mut Lines<'a>,
    ) -> Result<Option<u32>, NoMemory> {
        let Some(line) = lines.first() else {
            return Ok(None);
        };
        let Some(element) = spare_line(shape, number, line) else {
            return Ok(None);
        };
        lines.pass();
        Ok(Some(element))
    }
}

/// Where the cursor of a set stands.
#[tactic(auto, using(crate::proofs::LineLemmas::line_found, crate::proofs::LineLemmas::line_other, crate::proofs::LineLemmas::line_missing))]
fn read_cursor(
    shape: &Shape,
    lock: DomainId,
    lines: &mut Lines,
) -> Result<Option<Option<u32>>, NoMemory>
    requires { IsShape shape.now }
    ensures lines { IfOk result (Reads (one_line (cursor_part shape.now (lock_name lock))) lines.old.0 lines.new.0) }
    ensures rest { lines.new.1 ≡ lines.old.1 }
{
    let Some(line) = lines.first() else {
        return Ok(None);
    };
    let Some(cursor) = cursor_line(shape, lock, line) else {
        return Ok(None);
    };
    lines.pass();
    Ok(Some(cursor))
}

/// The CPU from which a CPU steals next.
#[tactic(auto, using(crate::proofs::LineLemmas::line_found, crate::proofs::LineLemmas::line_other, crate::proofs::LineLemmas::line_missing))]
fn read_steal(lock: DomainId, lines: &mut Lines) -> Result<Option<u32>, NoMemory>
    ensures lines { IfOk result (Reads (one_line (steal_part (lock_name lock))) lines.old.0 lines.new.0) }
    ensures rest { lines.new.1 ≡ lines.old.1 }
{
    let Some(line) = lines.first() else {
        return Ok(None);
    };
    let Some(cpu) = steal_line(lock, line) else {
        return Ok(None);
    };
    lines.pass();
    Ok(Some(cpu))
}

/// The lists of a set, and its cursor.
impl Numbered for SetFinal {
    ghost section = { λ shape number. set_section shape (set_name shape number) };

    fn read<'a>(
        alloc: Global,
        shape: &Shape,
        number: u32,
        lines: &mut Lines<'a>,
    ) -> Result<Option<SetFinal>, NoMemory> {
        if shape.common {
            read_set(alloc, shape, DomainId::Global, lines)
        } else {
            read_set(alloc, shape, DomainId::CpuLru(number), lines)
        }
    }
}

/// The lists under a lock, and the cursor.
#[tactic(auto, unfolding(crate::specs::Sections::go_on))]
fn read_set(
    alloc: Global,
    shape: &Shape,
    lock: DomainId,
    lines: &mut Lines,
) -> Result<Option<SetFinal>, NoMemory>
    requires { IsShape shape.now }
    ensures lines { IfOk result (Reads (set_section shape.now (lock_name lock)) lines.old.0 lines.new.0) }
    ensures rest { lines.new.1 ≡ lines.old.1 }
{
    let Some(active) = read_list(alloc, shape, lock, b" active", lines)? else {
        return Ok(None);
    };
    let Some(inactive) = read_list(alloc, shape, lock, b" inactive", lines)? else {
        return Ok(None);
    };
    let Some(free) = read_list(alloc, shape, lock, b" free", lines)? else {
        return Ok(None);
    };
    let Some(cursor) = read_cursor(shape, lock, lines)? else {
        return Ok(None);
    };
    Ok(Some(SetFinal {
        active,
        inactive,
        free,
        cursor,
    }))
}

/// The local lists of a CPU.
impl Numbered for LocalFinal {
    ghost section = { local_section };

    #[tactic(auto, unfolding(crate::specs::Sections::go_on))]
    fn read<'a>(
        alloc: Global,
        shape: &Shape,
        number: u32,
        lines: &mut Lines<'a>,
    ) -> Result<Option<LocalFinal>, NoMemory> {
        let lock = DomainId::Local(number);
        let Some(free) = read_list(alloc, shape, lock, b" free", lines)? else {
            return Ok(None);
        };
        let Some(pending) = read_list(alloc, shape, lock, b" pending", lines)? else {
            return Ok(None);
        };
        let Some(steal) = read_steal(lock, lines)? else {
            return Ok(None);
        };
        Ok(Some(LocalFinal {
            free,
            pending,
            steal,
        }))
    }
}

/// The elements of a bucket, as far as lines of them go.
impl Numbered for List<Kept> {
    ghost section = { bucket_section };

    #[tactic(auto, using(crate::proofs::StoredLemmas::stored_more, crate::proofs::StoredLemmas::stored_done, crate::proofs::StoredLemmas::stored_end))]
    fn read<'a>(
        alloc: Global,
        shape: &Shape,
        number: u32,
        lines: &mut Lines<'a>,
    ) -> Result<Option<List<Kept>>, NoMemory> {
        let mut bucket = List::of(Vec::new(alloc));
        while let Some(line) = lines.first() {
            let Some(kept) = stored_line(alloc, shape, number, line)? else {
                return Ok(Some(bucket));
            };
            lines.pass();
            bucket.push(kept)?;
        }
        Ok(Some(bucket))
    }
}

/// The elements whose bit is set, which only a map that evicts tells.
#[tactic(auto, using(crate::proofs::LineLemmas::line_found, crate::proofs::LineLemmas::line_other, crate::proofs::LineLemmas::line_missing))]
fn read_marked(alloc: Global, shape: &Shape, lines: &mut Lines) -> Result<Option<Numbers>, NoMemory>
    requires { IsShape shape.now }
    ensures lines { IfOk result (Reads (one_line (word_then (codes "marked") (marks shape.now))) lines.old.0 lines.new.0) }
    ensures rest { lines.new.1 ≡ lines.old.1 }
{
    let Some(line) = lines.first() else {
        return Ok(None);
    };
    let Some(elements) = marked_line(alloc, shape, line)? else {
        return Ok(None);
    };
    lines.pass();
    Ok(Some(elements))
}

/// The elements whose bit is set, and none of a map that doesn't evict.
fn read_marked_of(
    alloc: Global,
    shape: &Shape,
    lines: &mut Lines,
) -> Result<Option<Numbers>, NoMemory>
    requires { IsShape shape.now }
    ensures lines { IfOk result (Reads (marked_section shape.now) lines.old.0 lines.new.0) }
    ensures rest { lines.new.1 ≡ lines.old.1 }
{
    if shape.kind.is_lru() {
        read_marked(alloc, shape, lines)
    } else {
        Ok(Some(Numbers::of(Vec::new(alloc))))
    }
}

/// How many freelists a map has.
fn freelist_count(shape: &Shape) -> u32
    ensures { result ≡ freelist_count shape.now }
{
    if shape.kind.is_lru() { 0 } else { shape.cpus }
}

/// How many spare elements a map has.
fn spare_count(shape: &Shape) -> u32
    ensures { result ≡ spare_count shape.now }
{
    match shape.kind {
        MapKind::Hash => shape.cpus,
        MapKind::PercpuHash => 0,
        MapKind::LruHash => 0,
        MapKind::LruPercpuHash => 0,
    }
}

/// How many sets a map has.
fn set_count(shape: &Shape) -> u32
    ensures { result ≡ set_count shape.now }
{
    if !shape.kind.is_lru() {
        0
    } else if shape.common {
        1
    } else {
        shape.cpus
    }
}

/// How many CPUs have local lists.
fn local_count(shape: &Shape) -> u32
    ensures { result ≡ local_count shape.now }
{
    if shape.kind.is_lru() && shape.common {
        shape.cpus
    } else {
        0
    }
}

/// What the map holds.
#[tactic(auto, unfolding(crate::specs::Sections::go_on))]
pub(crate) fn read_finals(
    alloc: Global,
    shape: &Shape,
    lines: &mut Lines,
) -> Result<Option<Finals>, NoMemory>
    requires { IsShape shape.now }
    ensures lines { IfOk result (Reads (finals_section shape.now) lines.old.0 lines.new.0) }
    ensures rest { lines.new.1 ≡ lines.old.1 }
{
    let Some(buckets) = read_numbered(alloc, shape, shape.buckets, lines)? else {
        return Ok(None);
    };
    let Some(freelists) = read_numbered(alloc, shape, freelist_count(shape), lines)? else {
        return Ok(None);
    };
    let Some(spares) = read_numbered(alloc, shape, spare_count(shape), lines)? else {
        return Ok(None);
    };
    let Some(sets) = read_numbered(alloc, shape, set_count(shape), lines)? else {
        return Ok(None);
    };
    let Some(locals) = read_numbered(alloc, shape, local_count(shape), lines)? else {
        return Ok(None);
    };
    let Some(marked) = read_marked_of(alloc, shape, lines)? else {
        return Ok(None);
    };
    Ok(Some(Finals {
        buckets,
        freelists,
        spares,
        sets,
        locals,
        marked,
    }))
}
