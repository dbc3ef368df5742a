//! What one turn of the lock of an LRU list did, read from the front of a text.

ghost use Rattle.std.specs.Prelude.{◌≡◌, IfOk, MatchOption, None, Some};
ghost use Rattle.map_types.specs.Creation.{IsShape};
ghost use Rattle.record_reading.specs.ListReaders.{done_part, global_part, global_turn, local_add, local_part, local_pop, local_push, local_refill, local_steal, own_part, own_turn, stolen};

use crate::hexadecimal::hash;
use crate::many::counted;
use crate::numbers::{element_behind, element_text, option_text, u32_text};
use crate::visits::shrink;
use crate::words::behind;
use map_types::{NoMemory, Shape};
use place_words::{Flush, GlobalPart, LocalPart, Look, OwnPart, Stolen, Try, Visit};
use std::alloc::Global;

/// What one turn of the lock of a CPU's local lists did.
#[tactic(auto, unfolding(crate::specs::ListReaders::local_part, crate::specs::Readers::or_else))]
pub(crate) fn local_part<'a>(
    alloc: Global,
    shape: &Shape,
    text: &'a [u8],
) -> Result<Option<(LocalPart, &'a [u8])>, NoMemory>
    requires { IsShape shape.now }
    ensures { IfOk result (λ found. MatchOption found (local_part shape.now text.now ≡ None)
        (λ f. local_part shape.now text.now ≡ Some (f.0, f.1.now))) }
{
    if let Some(found) = local_pop(shape, text) {
        return Ok(Some(found));
    }
    if let Some(found) = local_refill(alloc, shape, text)? {
        return Ok(Some(found));
    }
    if let Some(found) = local_steal(alloc, shape, text)? {
        return Ok(Some(found));
    }
    if let Some(found) = local_add(shape, text) {
        return Ok(Some(found));
    }
    Ok(local_push(shape, text))
}

/// `pop HASH E`.
fn local_pop<'a>(shape: &Shape, text: &'a [u8]) -> Option<(LocalPart, &'a [u8])>
    ensures { MatchOption result (local_pop shape.now text.now ≡ None)
        (λ f. local_pop shape.now text.now ≡ Some (f.0, f.1.now)) }
{
    let (hash, rest) = hash(behind(text, b"pop ")?)?;
    let (element, rest) = element_text(shape, rest)?;
    Some((LocalPart::Pop { hash, element }, rest))
}

/// `refill HASH`, what was flushed and gained, and the element that was got.
fn local_refill<'a>(
    alloc: Global,
    shape: &Shape,
    text: &'a [u8],
) -> Result<Option<(LocalPart, &'a [u8])>, NoMemory>
    requires { IsShape shape.now }
    ensures { IfOk result (λ found. MatchOption found (local_refill shape.now text.now ≡ None)
        (λ f. local_refill shape.now text.now ≡ Some (f.0, f.1.now))) }
{
    let Some(rest) = behind(text, b"refill ") else {
        return Ok(None);
    };
    let Some((hash, rest)) = hash(rest) else {
        return Ok(None);
    };
    let Some(rest) = behind(rest, b" flush") else {
        return Ok(None);
    };
    let Some((flushed, rest)) = counted::<Visit>(alloc, shape, rest)? else {
        return Ok(None);
    };
    let Some(rest) = behind(rest, b" gain") else {
        return Ok(None);
    };
    let Some((gained, rest)) = counted::<u32>(alloc, shape, rest)? else {
        return Ok(None);
    };
    let Some(rest) = behind(rest, b" got") else {
        return Ok(None);
    };
    let Some((got, rest)) = option_text(shape, rest) else {
        return Ok(None);
    };
    let part = LocalPart::Refill {
        hash,
        flushed,
        gained,
        got,
    };
    Ok(Some((part, rest)))
}

/// `steal`, what was stolen, and the two walks.
fn local_steal<'a>(
    alloc: Global,
    shape: &Shape,
    text: &'a [u8],
) -> Result<Option<(LocalPart, &'a [u8])>, NoMemory>
    requires { IsShape shape.now }
    ensures { IfOk result (λ found. MatchOption found (local_steal shape.now text.now ≡ None)
        (λ f. local_steal shape.now text.now ≡ Some (f.0, f.1.now))) }
{
    let Some(rest) = behind(text, b"steal") else {
        return Ok(None);
    };
    let Some((got, rest)) = stolen(shape, rest) else {
        return Ok(None);
    };
    let Some(rest) = behind(rest, b" first") else {
        return Ok(None);
    };
    let Some((first, rest)) = counted::<Look>(alloc, shape, rest)? else {
        return Ok(None);
    };
    let Some(rest) = behind(rest, b" second") else {
        return Ok(None);
    };
    let Some((second, rest)) = counted::<Try>(alloc, shape, rest)? else {
        return Ok(None);
    };
    Ok(Some((LocalPart::Steal { got, first, second }, rest)))
}

/// `add HASH E cursor C`.
fn local_add<'a>(shape: &Shape, text: &'a [u8]) -> Option<(LocalPart, &'a [u8])>
    ensures { MatchOption result (local_add shape.now text.now ≡ None)
        (λ f. local_add shape.now text.now ≡ Some (f.0, f.1.now)) }
{
    let (hash, rest) = hash(behind(text, b"add ")?)?;
    let (element, rest) = element_text(shape, rest)?;
    let (cursor, rest) = u32_text(behind(rest, b" cursor")?)?;
    let part = LocalPart::Add {
        hash,
        element,
        cursor,
    };
    Some((part, rest))
}

/// `push E`, and whether the element was pending here.
fn local_push<'a>(shape: &Shape, text: &'a [u8]) -> Option<(LocalPart, &'a [u8])>
    ensures { MatchOption result (local_push shape.now text.now ≡ None)
        (λ f. local_push shape.now text.now ≡ Some (f.0, f.1.now)) }
{
    let (element, rest) = element_behind(shape, text, b"push")?;
    let (done, rest) = done_part(rest)?;
    Some((LocalPart::Push { element, done }, rest))
}

/// What was stolen.
#[tactic(auto, unfolding(crate::specs::ListReaders::stolen, crate::specs::Readers::or_else))]
fn stolen<'a>(shape: &Shape, text: &'a [u8]) -> Option<(Stolen, &'a [u8])>
    ensures { MatchOption result (stolen shape.now text.now ≡ None)
        (λ f. stolen shape.now text.now ≡ Some (f.0, f.1.now)) }
{
    if let Some((element, rest)) = element_behind(shape, text, b" free") {
        return Some((Stolen::Free(element), rest));
    }
    if let Some((element, rest)) = element_behind(shape, text, b" pending") {
        return Some((Stolen::Pending(element), rest));
    }
    let rest = behind(text, b" none")?;
    Some((Stolen::Nothing, rest))
}

/// Whether a push was done, or its element had moved.
#[tactic(auto, unfolding(crate::specs::ListReaders::done_part, crate::specs::Readers::or_else))]
fn done_part(text: &[u8]) -> Option<(bool, &[u8])>
    ensures { MatchOption result (done_part text.now ≡ None)
        (λ f. done_part text.now ≡ Some (f.0, f.1.now)) }
{
    if let Some(rest) = behind(text, b" done") {
        return Some((true, rest));
    }
    let rest = behind(text, b" moved")?;
    Some((false, rest))
}

/// What one turn of the global lists' lock did.
#[tactic(auto, unfolding(crate::specs::ListReaders::global_part, crate::specs::Readers::or_else))]
pub(crate) fn global_part<'a>(
    alloc: Global,
    shape: &Shape,
    text: &'a [u8],
) -> Result<Option<(GlobalPart, &'a [u8])>, NoMemory>
    requires { IsShape shape.now }
    ensures { IfOk result (λ found. MatchOption found (global_part shape.now text.now ≡ None)
        (λ f. global_part shape.now text.now ≡ Some (f.0, f.1.now))) }
{
    if let Some(found) = global_turn(alloc, shape, text)? {
        return Ok(Some(found));
    }
    let Some((element, rest)) = element_behind(shape, text, b"push") else {
        return Ok(None);
    };
    Ok(Some((GlobalPart::Push { element }, rest)))
}

/// `turn flush`, the flushed elements, the rotation, what moved off the free list, and the shrink.
fn global_turn<'a>(
    alloc: Global,
    shape: &Shape,
    text: &'a [u8],
) -> Result<Option<(GlobalPart, &'a [u8])>, NoMemory>
    requires { IsShape shape.now }
    ensures { IfOk result (λ found. MatchOption found (global_turn shape.now text.now ≡ None)
        (λ f. global_turn shape.now text.now ≡ Some (f.0, f.1.now))) }
{
    let Some(rest) = behind(text, b"turn flush") else {
        return Ok(None);
    };
    let Some((flushed, rest)) = counted::<Flush>(alloc, shape, rest)? else {
        return Ok(None);
    };
    let Some(rest) = behind(rest, b" active") else {
        return Ok(None);
    };
    let Some((active, rest)) = counted::<Visit>(alloc, shape, rest)? else {
        return Ok(None);
    };
    let Some(rest) = behind(rest, b" inactive") else {
        return Ok(None);
    };
    let Some((inactive, rest)) = counted::<Visit>(alloc, shape, rest)? else {
        return Ok(None);
    };
    let Some(rest) = behind(rest, b" free") else {
        return Ok(None);
    };
    let Some((free, rest)) = counted::<u32>(alloc, shape, rest)? else {
        return Ok(None);
    };
    let Some((shrink, rest)) = shrink(alloc, shape, rest)? else {
        return Ok(None);
    };
    let part = GlobalPart::Turn {
        flushed,
        active,
        inactive,
        free,
        shrink,
    };
    Ok(Some((part, rest)))
}

/// What one turn of the lock of a CPU's own list set did.
#[tactic(auto, unfolding(crate::specs::ListReaders::own_part, crate::specs::Readers::or_else))]
pub(crate) fn own_part<'a>(
    alloc: Global,
    shape: &Shape,
    text: &'a [u8],
) -> Result<Option<(OwnPart, &'a [u8])>, NoMemory>
    requires { IsShape shape.now }
    ensures { IfOk result (λ found. MatchOption found (own_part shape.now text.now ≡ None)
        (λ f. own_part shape.now text.now ≡ Some (f.0, f.1.now))) }
{
    if let Some(found) = own_turn(alloc, shape, text)? {
        return Ok(Some(found));
    }
    let Some((element, rest)) = element_behind(shape, text, b"push") else {
        return Ok(None);
    };
    Ok(Some((OwnPart::Push { element }, rest)))
}

/// `turn HASH`, the rotation, the shrink, and the element that was got.
fn own_turn<'a>(
    alloc: Global,
    shape: &Shape,
    text: &'a [u8],
) -> Result<Option<(OwnPart, &'a [u8])>, NoMemory>
    requires { IsShape shape.now }
    ensures { IfOk result (λ found. MatchOption found (own_turn shape.now text.now ≡ None)
        (λ f. own_turn shape.now text.now ≡ Some (f.0, f.1.now))) }
{
    let Some(rest) = behind(text, b"turn ") else {
        return Ok(None);
    };
    let Some((hash, rest)) = hash(rest) else {
        return Ok(None);
    };
    let Some(rest) = behind(rest, b" active") else {
        return Ok(None);
    };
    let Some((active, rest)) = counted::<Visit>(alloc, shape, rest)? else {
        return Ok(None);
    };
    let Some(rest) = behind(rest, b" inactive") else {
        return Ok(None);
    };
    let Some((inactive, rest)) = counted::<Visit>(alloc, shape, rest)? else {
        return Ok(None);
    };
    let Some((shrink, rest)) = shrink(alloc, shape, rest)? else {
        return Ok(None);
    };
    let Some(rest) = behind(rest, b" got") else {
        return Ok(None);
    };
    let Some((got, rest)) = option_text(shape, rest) else {
        return Ok(None);
    };
    let part = OwnPart::Turn {
        hash,
        active,
        inactive,
        shrink,
        got,
    };
    Ok(Some((part, rest)))
}
