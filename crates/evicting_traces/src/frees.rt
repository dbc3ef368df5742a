//! Elements that are freed, read at the beginning of turns.

ghost use Rattle.std.specs.Prelude.{◌≡◌, false, IsTrue, MatchOption, None, Some};
ghost use Rattle.map_types.specs.declared.reply.Reply as replies;
ghost use Rattle.map_types.specs.Kind.{is_lru};
ghost use Rattle.map_types.specs.Shape.{HasBounds};
ghost use Rattle.place_words.specs.Takings.{set_of};
ghost use Rattle.evicting_traces.specs.Calls as told;

use crate::parts::{is_global_push, is_local_push, is_own_push};
use crate::seen::Seens;
use map_types::Shape;

/// What is behind the turns in which an element is freed.
pub(crate) fn read_frees<'a>(shape: &Shape, element: u32, seens: &Seens<'a>) -> Option<Seens<'a>>
    requires bounds { HasBounds shape.now }
    requires evicts { IsTrue (is_lru shape.now.kind) }
    ensures { MatchOption result (told.read_frees shape.now element seens.now ≡ None)
        (λ rest. told.read_frees shape.now element seens.now ≡ Some (tt, rest)) }
{
    if shape.common {
        read_shared(element, seens)
    } else {
        read_own_freed(shape, element, seens)
    }
}

/// What is behind the turns in which an element is freed, if there is one.
pub(crate) fn read_frees_one<'a>(
    shape: &Shape,
    element: Option<u32>,
    seens: &Seens<'a>,
) -> Option<Seens<'a>>
    requires bounds { HasBounds shape.now }
    requires evicts { IsTrue (is_lru shape.now.kind) }
    ensures { (reply : replies.Reply) → MatchOption result (told.read_frees_one shape.now reply element seens.now ≡ None)
        (λ rest. told.read_frees_one shape.now reply element seens.now ≡ Some (reply, rest)) }
{
    match element {
        None => Some(seens.again()),
        Some(freed) => read_frees(shape, freed, seens),
    }
}

/// On a map whose CPUs share lists.
fn read_shared<'a>(element: u32, seens: &Seens<'a>) -> Option<Seens<'a>>
    ensures { MatchOption result (told.read_shared element seens.now ≡ None) (λ rest. told.read_shared element seens.now ≡ Some (tt, rest)) }
{
    match read_pending(element, seens) {
        Some(rest) => Some(rest),
        None => match read_flushed(element, seens) {
            Some(rest) => Some(rest),
            None => read_freed_globally(element, seens),
        },
    }
}

/// It was pending.
fn read_pending<'a>(element: u32, seens: &Seens<'a>) -> Option<Seens<'a>>
    ensures { MatchOption result (told.read_pending element seens.now ≡ None) (λ rest. told.read_pending element seens.now ≡ Some (tt, rest)) }
{
    let (first, rest) = seens.split_first()?;
    if is_local_push(first, element, true) {
        Some(rest)
    } else {
        None
    }
}

/// A refill had flushed it.
fn read_flushed<'a>(element: u32, seens: &Seens<'a>) -> Option<Seens<'a>>
    ensures { MatchOption result (told.read_flushed element seens.now ≡ None) (λ rest. told.read_flushed element seens.now ≡ Some (tt, rest)) }
{
    let (first, rest) = seens.split_first()?;
    if first.flushed && is_local_push(first, element, false) {
        read_freed_globally(element, &rest)
    } else {
        None
    }
}

/// It is freed on the global lists.
fn read_freed_globally<'a>(element: u32, seens: &Seens<'a>) -> Option<Seens<'a>>
    ensures { MatchOption result (told.read_freed_globally element seens.now ≡ None)
        (λ rest. told.read_freed_globally element seens.now ≡ Some (tt, rest)) }
{
    let (first, rest) = seens.split_first()?;
    if is_global_push(first, element) {
        Some(rest)
    } else {
        None
    }
}

/// It is freed in the set in which it lives.
fn read_own_freed<'a>(shape: &Shape, element: u32, seens: &Seens<'a>) -> Option<Seens<'a>>
    requires bounds { HasBounds shape.now }
    requires evicts { IsTrue (is_lru shape.now.kind) }
    requires own { shape.now.common ≡ false }
    ensures { MatchOption result (told.read_own_freed shape.now element seens.now ≡ None)
        (λ rest. told.read_own_freed shape.now element seens.now ≡ Some (tt, rest)) }
{
    let (first, rest) = seens.split_first()?;
    if is_own_push(first, set_of(shape, element), element) {
        Some(rest)
    } else {
        None
    }
}

/// The CPU in whose set an element lives.
fn set_of(shape: &Shape, element: u32) -> u32
    requires bounds { HasBounds shape.now }
    requires evicts { IsTrue (is_lru shape.now.kind) }
    requires own { shape.now.common ≡ false }
    ensures { result ≡ set_of shape.now element }
{
    element / (shape.elements / shape.cpus)
}
