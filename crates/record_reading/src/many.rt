//! Lists with their lengths before them, read from the front of a text.

ghost use Rattle.std.specs.Prelude.{◌≡◌, IfOk, List, MatchOption, None, Option, Some, ℕ};
ghost use Rattle.map_types.specs.Creation.{IsShape};
ghost use Rattle.map_types.specs.declared.attr.Shape as shapes;
ghost use Rattle.record_reading.specs.BucketReaders.{element_text};
ghost use Rattle.record_reading.specs.Readers.{counted, times};

use crate::numbers::{blank_number, element_text};
use map_types::{List, NoMemory, Shape};
use std::alloc::Global;

/// What stands in a list that tells its length.
pub(crate) trait Readable: Sized + Drop {
    /// What is read from the front of a text.
    ghost front: { shapes.Shape → List ℕ → Option (Self × List ℕ) };

    /// Reads one, and what stands behind it.
    fn read<'a>(
        alloc: Global,
        shape: &Shape,
        text: &'a [u8],
    ) -> Result<Option<(Self, &'a [u8])>, NoMemory>
        requires { IsShape shape.now }
        ensures { IfOk result (λ found. MatchOption found (front shape.now text.now ≡ None)
            (λ f. front shape.now text.now ≡ Some (f.0, f.1.now))) };
}

/// An element behind a blank.
impl Readable for u32 {
    ghost front = { element_text };

    fn read<'a>(
        _: Global,
        shape: &Shape,
        text: &'a [u8],
    ) -> Result<Option<(u32, &'a [u8])>, NoMemory> {
        Ok(element_text(shape, text))
    }
}

/// How many there are, and then each.
pub(crate) fn counted<'a, T: Readable>(
    alloc: Global,
    shape: &Shape,
    text: &'a [u8],
) -> Result<Option<(List<T>, &'a [u8])>, NoMemory>
    requires { IsShape shape.now }
    ensures { IfOk result (λ found. MatchOption found (counted (T.front shape.now) text.now ≡ None)
        (λ f. counted (T.front shape.now) text.now ≡ Some (f.0, f.1.now))) }
{
    let Some((count, rest)) = blank_number(text) else {
        return Ok(None);
    };
    times::<T>(alloc, shape, rest, count)
}

/// So many of them. The text says how many there are to be, so no room is made for them before they are read.
#[tactic(auto, using(crate::proofs::TimesLemmas::times_more, crate::proofs::TimesLemmas::times_none, crate::proofs::TimesLemmas::times_done))]
pub(crate) fn times<'a, T: Readable>(
    alloc: Global,
    shape: &Shape,
    text: &'a [u8],
    count: u64,
) -> Result<Option<(List<T>, &'a [u8])>, NoMemory>
    requires { IsShape shape.now }
    ensures { IfOk result (λ found. MatchOption found (times count (T.front shape.now) text.now ≡ None)
        (λ f. times count (T.front shape.now) text.now ≡ Some (f.0, f.1.now))) }
{
    let mut found = List::of(Vec::new(alloc));
    let mut rest = text;
    for i in 0..count {
        let Some((item, after)) = T::read(alloc, shape, rest)? else {
            return Ok(None);
        };
        found.push(item)?;
        rest = after;
    }
    Ok(Some((found, rest)))
}
