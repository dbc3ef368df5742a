//! What a rotation, a flush and a shrink saw, read from the front of a text.

ghost use Rattle.std.specs.Prelude.{◌≡◌, IfOk, MatchOption, None, Some, codes};
ghost use Rattle.map_types.specs.Creation.{IsShape};
ghost use Rattle.record_reading.specs.ListReaders.{attempt, flush, look, probe, probed, shrink, shrink_note, visit};
ghost use Rattle.record_reading.specs.Readers.{after, colon, hash};

use crate::hexadecimal::hash;
use crate::many::{Readable, counted};
use crate::numbers::{element_colon, number_below, u32_text};
use crate::words::{behind, bit};
use map_types::{NoMemory, Shape};
use place_words::{Flush, Look, Seen, ShrinkNote, Try, Visit};
use std::alloc::Global;

/// `E:` and the element's bit.
impl Readable for Visit {
    ghost front = { visit };

    #[tactic(auto, unfolding(crate::specs::ListReaders::visit))]
    fn read<'a>(
        _: Global,
        shape: &Shape,
        text: &'a [u8],
    ) -> Result<Option<(Visit, &'a [u8])>, NoMemory> {
        let Some((element, rest)) = element_colon(shape, text) else {
            return Ok(None);
        };
        let Some((bit, rest)) = bit(rest) else {
            return Ok(None);
        };
        Ok(Some((Visit { element, bit }, rest)))
    }
}

/// `E:HASH:` and the element's bit.
impl Readable for Flush {
    ghost front = { flush };

    #[tactic(auto, unfolding(crate::specs::ListReaders::flush))]
    fn read<'a>(
        _: Global,
        shape: &Shape,
        text: &'a [u8],
    ) -> Result<Option<(Flush, &'a [u8])>, NoMemory> {
        let Some((element, rest)) = element_colon(shape, text) else {
            return Ok(None);
        };
        let Some((hash, rest)) = hash_colon(rest) else {
            return Ok(None);
        };
        let Some((bit, rest)) = bit(rest) else {
            return Ok(None);
        };
        Ok(Some((Flush { element, hash, bit }, rest)))
    }
}

/// A hash with a colon behind it.
fn hash_colon(text: &[u8]) -> Option<(u32, &[u8])>
    ensures { MatchOption result (colon hash text.now ≡ None)
        (λ f. colon hash text.now ≡ Some (f.0, f.1.now)) }
{
    let (hash, rest) = hash(text)?;
    let rest = behind(rest, b":")?;
    Some((hash, rest))
}

/// What a probe found.
#[tactic(auto, unfolding(crate::specs::ListReaders::probe, crate::specs::Readers::or_else))]
fn probe<'a>(shape: &Shape, text: &'a [u8]) -> Option<(Seen, &'a [u8])>
    ensures { MatchOption result (probe shape.now text.now ≡ None)
        (λ f. probe shape.now text.now ≡ Some (f.0, f.1.now)) }
{
    if let Some(rest) = behind(text, b"r") {
        return Some((Seen::Removed, rest));
    }
    let (holder, rest) = number_below(behind(text, b"h")?, shape.cpus)?;
    Some((Seen::Held(holder), rest))
}

/// What a probe found, behind a colon, or nothing where there was none.
#[tactic(auto, using(crate::proofs::LeafLemmas::behind_nothing), unfolding(crate::specs::ListReaders::probed, crate::specs::Readers::or_else))]
fn probed<'a>(shape: &Shape, text: &'a [u8]) -> (Option<Seen>, &'a [u8])
    ensures { probed shape.now text.now ≡ Some (result.0, result.1.now) }
{
    match behind_colon(shape, text) {
        Some((seen, rest)) => (Some(seen), rest),
        None => (None, text),
    }
}

/// A colon, and what a probe found.
fn behind_colon<'a>(shape: &Shape, text: &'a [u8]) -> Option<(Seen, &'a [u8])>
    ensures { MatchOption result (after (codes ":") (probe shape.now) text.now ≡ None)
        (λ f. after (codes ":") (probe shape.now) text.now ≡ Some (f.0, f.1.now)) }
{
    probe(shape, behind(text, b":")?)
}

/// `E:`, the element's bit, and what a probe found.
impl Readable for Look {
    ghost front = { look };

    #[tactic(auto, unfolding(crate::specs::ListReaders::look))]
    fn read<'a>(
        _: Global,
        shape: &Shape,
        text: &'a [u8],
    ) -> Result<Option<(Look, &'a [u8])>, NoMemory> {
        let Some((element, rest)) = element_colon(shape, text) else {
            return Ok(None);
        };
        let Some((bit, rest)) = bit(rest) else {
            return Ok(None);
        };
        let (probed, rest) = probed(shape, rest);
        Ok(Some((
            Look {
                element,
                bit,
                probed,
            },
            rest,
        )))
    }
}

/// `E:` and what a probe found.
impl Readable for Try {
    ghost front = { attempt };

    #[tactic(auto, unfolding(crate::specs::ListReaders::attempt))]
    fn read<'a>(
        _: Global,
        shape: &Shape,
        text: &'a [u8],
    ) -> Result<Option<(Try, &'a [u8])>, NoMemory> {
        let Some((element, rest)) = element_colon(shape, text) else {
            return Ok(None);
        };
        let Some((probed, rest)) = probe(shape, rest) else {
            return Ok(None);
        };
        Ok(Some((Try { element, probed }, rest)))
    }
}

/// A shrink, or ` shrink no` where there was none.
#[tactic(auto, unfolding(crate::specs::ListReaders::shrink, crate::specs::Readers::or_else))]
pub(crate) fn shrink<'a>(
    alloc: Global,
    shape: &Shape,
    text: &'a [u8],
) -> Result<Option<(Option<ShrinkNote>, &'a [u8])>, NoMemory>
    requires { IsShape shape.now }
    ensures { IfOk result (λ found. MatchOption found (shrink shape.now text.now ≡ None)
        (λ f. shrink shape.now text.now ≡ Some (f.0, f.1.now))) }
{
    if let Some((note, rest)) = shrink_note(alloc, shape, text)? {
        return Ok(Some((Some(note), rest)));
    }
    let Some(rest) = behind(text, b" shrink no") else {
        return Ok(None);
    };
    Ok(Some((None, rest)))
}

/// ` shrink T`, what was looked at, and what was tried by force.
fn shrink_note<'a>(
    alloc: Global,
    shape: &Shape,
    text: &'a [u8],
) -> Result<Option<(ShrinkNote, &'a [u8])>, NoMemory>
    requires { IsShape shape.now }
    ensures { IfOk result (λ found. MatchOption found (shrink_note shape.now text.now ≡ None)
        (λ f. shrink_note shape.now text.now ≡ Some (f.0, f.1.now))) }
{
    let Some(rest) = behind(text, b" shrink") else {
        return Ok(None);
    };
    let Some((target, rest)) = u32_text(rest) else {
        return Ok(None);
    };
    let Some((looks, rest)) = counted::<Look>(alloc, shape, rest)? else {
        return Ok(None);
    };
    let Some(rest) = behind(rest, b" forced") else {
        return Ok(None);
    };
    let Some((forced, rest)) = counted::<Try>(alloc, shape, rest)? else {
        return Ok(None);
    };
    Ok(Some((
        ShrinkNote {
            target,
            looks,
            forced,
        },
        rest,
    )))
}
