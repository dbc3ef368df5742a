//! What a closed table leaves, read of what came out of its slots.

ghost use Rattle.std.specs.Prelude.{◌≡◌, ◌≤◌, ℕ, Bool, List, Option, false, IfOk, IfSome, filter, length, map, slice_index_or};
ghost use Rattle.std.specs.List.{range_with_len};
ghost use Rattle.map_types.specs.Creation.{IsShape};
ghost use Rattle.place_words.specs.Locks.{lock_count};
ghost use Rattle.place_words.specs.Bodies.{numbers};
ghost use Rattle.place_table.specs.declared.content.Content.{Content};
ghost use Rattle.place_table.specs.declared.view.Ended.{Ended};
ghost use Rattle.place_table.specs.Leaving.{Logs, numbers_in, freelists_in, spares_in, AreApart, AreContents, AreKept, finished_told, AreTold, WasLeft};
ghost use Rattle.place_table.specs.Passes.{AreFinished};

use crate::close::{Emptied, Histories};
use crate::closed::Closed;
use crate::content::Content;
use crate::lists_left::ListsLeft;
use crate::strands::FinishedStrand;
use cpu_freelist::Freelist;
use map_types::{List, NoMemory, Numbers, Shape};
use percpu_values::BoxedBody;
use place_words::{Finals, LockHistory, Strand};
use std::alloc::Global;
use std::mem;

/// What is left of what came out of the slots, beside the marked elements, the strands and the spares. What may be long is
/// shared, so that it is had once more without copies.
pub(crate) fn read_slots(
    alloc: Global,
    shape: &Shape,
    emptied: Emptied,
    lists: ListsLeft,
    marked: Numbers,
    ended: Option<Vec<FinishedStrand>>,
    spares: &[Option<BoxedBody>; 16],
) -> Result<Closed, NoMemory>
    requires shape { IsShape shape.now }
    ensures { (log : Logs) (lost bit : ℕ → Bool) (strands : List Ended)
        (contents : List (Option Content)) → AreContents shape.now log contents
        → length contents ≡ lock_count shape.now
        → AreApart shape.now contents
        lists emptied.freelists.items emptied.buckets.items
        → IfSome ended (λ _. AreKept shape.now log lost
        (lock_count shape.now) emptied.histories.kept.items emptied.histories.lost)
        → marked ≡ filter bit (range_with_len 0 shape.now.elements) → AreFinished strands ended
        → IfOk result (λ closed. WasLeft shape.now log lost bit strands spares.now closed) }
{
    let closed = closed_of(alloc, shape, emptied, lists, marked, ended, spares)?;
    let same = share(alloc, closed)?;
    Ok(same)
}

/// The same, of which every list may be had once more without copies.
fn share(alloc: Global, closed: Closed) -> Result<Closed, NoMemory>
    ensures { IfOk result (λ same. same ≡ closed) }
{
    let Closed {
        histories,
        strands,
        finals,
        lost,
    } = closed;
    Ok(Closed {
        histories: histories.share(alloc)?,
        strands,
        finals: share_finals(alloc, finals)?,
        lost,
    })
}

/// The same, of which every list may be had once more without copies.
fn share_finals(alloc: Global, finals: Finals) -> Result<Finals, NoMemory>
    ensures { IfOk result (λ same. same ≡ finals) }
{
    let Finals {
        buckets,
        freelists,
        spares,
        sets,
        locals,
        marked,
    } = finals;
    Ok(Finals {
        buckets: buckets.share(alloc)?,
        freelists: freelists.share(alloc)?,
        spares: spares.share(alloc)?,
        sets: sets.share(alloc)?,
        locals: locals.share(alloc)?,
        marked: marked.share(alloc)?,
    })
}

/// What is left of what came out of the slots, beside the marked elements, the strands and the spares.
fn closed_of(
    alloc: Global,
    shape: &Shape,
    emptied: Emptied,
    lists: ListsLeft,
    marked: Numbers,
    ended: Option<Vec<FinishedStrand>>,
    spares: &[Option<BoxedBody>; 16],
) -> Result<Closed, NoMemory>
    requires shape { IsShape shape.now }
    ensures { (log : Logs) (lost bit : ℕ → Bool) (strands : List Ended)
        (contents : List (Option Content)) → AreContents shape.now log contents
        → length contents ≡ lock_count shape.now
        → AreApart shape.now contents
        lists emptied.freelists.items emptied.buckets.items
        → IfSome ended (λ _. AreKept shape.now log lost
        (lock_count shape.now) emptied.histories.kept.items emptied.histories.lost)
        → marked ≡ filter bit (range_with_len 0 shape.now.elements) → AreFinished strands ended
        → IfOk result (λ closed. WasLeft shape.now log lost bit strands spares.now closed) }
{
    let Emptied {
        lists: _,
        buckets,
        counts: _,
        freelists,
        turns: _,
        histories,
    } = emptied;
    let ListsLeft { sets, locals } = lists;
    let freelists = all_freelists_left(alloc, shape, freelists)?;
    let Turns {
        histories,
        strands,
        lost,
    } = turns_left(alloc, shape, histories, ended)?;
    let spares = spares_left(alloc, shape, spares)?;
    Ok(Closed {
        histories,
        strands,
        finals: Finals {
            buckets: List::of(buckets),
            freelists: List::of(freelists),
            spares,
            sets: List::of(sets),
            locals: List::of(locals),
            marked,
        },
        lost,
    })
}

/// The elements of the freelists of a map that doesn't evict.
fn all_freelists_left(
    alloc: Global,
    shape: &Shape,
    freelists: Vec<Option<Content>>,
) -> Result<Vec<Numbers>, NoMemory>
    ensures { IfOk result (λ left. left.items ≡ freelists_in shape.now freelists.items) }
{
    if shape.kind.is_lru() {
        Ok(Vec::new(alloc))
    } else {
        freelists_left(alloc, freelists)
    }
}

/// The elements of the freelists.
fn freelists_left(alloc: Global, contents: Vec<Option<Content>>) -> Result<Vec<Numbers>, NoMemory>
    ensures { IfOk result (λ freelists. freelists.items ≡ map numbers_in contents.items) }
{
    let mut freelists = Vec::with_capacity(alloc, contents.len())?;
    for content in contents {
        freelists.push(freelist_left(alloc, content)?)?;
    }
    Ok(freelists)
}

/// The elements of a freelist, top first.
fn freelist_left(alloc: Global, content: Option<Content>) -> Result<Numbers, NoMemory>
    ensures { IfOk result (λ elements. elements ≡ numbers_in content) }
{
    match content {
        Some(Content::Freelist(freelist)) => numbers_left(alloc, freelist),
        _ => Ok(List::of(Vec::new(alloc))),
    }
}

/// The elements of a freelist, top first. Their bodies stay where they are.
fn numbers_left(alloc: Global, mut freelist: Freelist) -> Result<Numbers, NoMemory>
    ensures { IfOk result (λ elements. elements ≡ numbers freelist.bodies) }
{
    let mut elements = Vec::new(alloc);
    while let Some(body) = freelist.pop() {
        elements.push(body.body().element())?;
        mem::forget(body);
    }
    Ok(List::of(elements))
}

/// The turns that are handed out: the histories whose record isn't lost, the strands, and whether a record is lost.
#[derive(Drop)]
struct Turns {
    histories: List<LockHistory>,
    strands: List<Strand>,
    lost: bool,
}

/// The histories with the strands. Where no strands were kept, every record is lost.
fn turns_left(
    alloc: Global,
    shape: &Shape,
    histories: Histories,
    ended: Option<Vec<FinishedStrand>>,
) -> Result<Turns, NoMemory>
    requires shape { IsShape shape.now }
    ensures { (log : Logs) (lost : ℕ → Bool) (strands : List Ended)
        → IfSome ended (λ _. AreKept shape.now log lost
        (lock_count shape.now) histories.kept.items histories.lost)
        → AreFinished strands ended
        → IfOk result
        (λ turns. AreTold shape.now log lost strands turns.histories turns.strands turns.lost) }
{
    let Some(ended) = ended else {
        return Ok(Turns {
            histories: List::of(Vec::new(alloc)),
            strands: List::of(Vec::new(alloc)),
            lost: true,
        });
    };
    let Histories { kept, lost } = histories;
    Ok(Turns {
        histories: List::of(kept),
        strands: strands_left(alloc, shape, ended)?,
        lost,
    })
}

/// The strands that were kept.
fn strands_left(
    alloc: Global,
    shape: &Shape,
    ended: Vec<FinishedStrand>,
) -> Result<List<Strand>, NoMemory>
    requires few { shape.now.cpus ≤ 16 }
    ensures { IfOk result (λ strands. strands ≡ map (finished_told shape.now) ended.items) }
{
    let mut strands = Vec::with_capacity(alloc, ended.len())?;
    for strand in ended {
        strands.push(strand_left(alloc, shape, strand)?)?;
    }
    Ok(List::of(strands))
}

/// A strand that was kept.
fn strand_left(alloc: Global, shape: &Shape, strand: FinishedStrand) -> Result<Strand, NoMemory>
    requires few { shape.now.cpus ≤ 16 }
    ensures { IfOk result (λ told. told ≡ finished_told shape.now strand) }
{
    let FinishedStrand { cpus, steps } = strand;
    Ok(Strand {
        phase: 0,
        cpus: cpus_left(alloc, shape.cpus, &cpus)?,
        steps: steps.share(alloc)?,
    })
}

/// The CPUs below this number whose flag is set.
fn cpus_left(alloc: Global, count: u32, flags: &[bool; 16]) -> Result<Numbers, NoMemory>
    requires few { count ≤ 16 }
    ensures { IfOk result (λ cpus. cpus
        ≡ filter (λ cpu. slice_index_or flags.now cpu false) (range_with_len 0 count)) }
{
    let mut cpus = Vec::new(alloc);
    for cpu in 0..count {
        if flags[cpu as usize] {
            cpus.push(cpu)?;
        }
    }
    Ok(List::of(cpus))
}

/// The elements of the spares that are kept, by CPU.
fn spares_left(
    alloc: Global,
    shape: &Shape,
    spares: &[Option<BoxedBody>; 16],
) -> Result<Numbers, NoMemory>
    requires few { shape.now.cpus ≤ 16 }
    ensures { IfOk result (λ elements. elements ≡ spares_in shape.now spares.now) }
{
    let mut elements = Vec::new(alloc);
    for cpu in 0..shape.cpus {
        if let Some(body) = &spares[cpu as usize] {
            elements.push(body.body().element())?;
        }
    }
    Ok(List::of(elements))
}
