//! Elements that are taken, read at the beginning of turns.

ghost use Rattle.std.specs.Prelude.{◌≡◌, ◌<◌, ◌+◌, ◌-◌, ◌∷◌, drop};
ghost use Rattle.map_types.specs.Shape.{HasBounds};
ghost use Rattle.place_words.specs.Takings.{ring_next};
ghost use Rattle.place_words.specs.Turns.{ring};
ghost use Rattle.evicting_traces.specs.Calls as told;

use crate::chase::answered_turn;
use crate::parts::{is_home, own_got, popped, theft};
use crate::refill::refilled;
use crate::seen::Seens;
use map_types::Shape;

/// What a CPU took for a key of this hash, and the turns behind.
pub(crate) fn read_acquires<'a>(
    shape: &Shape,
    cpu: u32,
    hash: u32,
    seens: &Seens<'a>,
) -> Option<(Option<u32>, Seens<'a>)>
    requires { HasBounds shape.now }
    ensures { result ≡ told.read_acquires shape.now cpu hash seens.now }
{
    if shape.common {
        read_shared_taking(shape, cpu, hash, seens)
    } else {
        read_own(shape, cpu, hash, seens)
    }
}

/// On a map whose CPUs share lists.
fn read_shared_taking<'a>(
    shape: &Shape,
    cpu: u32,
    hash: u32,
    seens: &Seens<'a>,
) -> Option<(Option<u32>, Seens<'a>)>
    requires { HasBounds shape.now }
    ensures { result ≡ told.read_shared_taking shape.now cpu hash seens.now }
{
    match read_pop(cpu, hash, seens) {
        Some(found) => Some(found),
        None => read_by_refill(shape, cpu, hash, seens),
    }
}

/// From the own lists.
fn read_own<'a>(
    shape: &Shape,
    cpu: u32,
    hash: u32,
    seens: &Seens<'a>,
) -> Option<(Option<u32>, Seens<'a>)>
    requires { HasBounds shape.now }
    ensures { result ≡ told.read_own shape.now cpu hash seens.now }
{
    let (last, rest) = answered_turn(shape, seens)?;
    let got = own_got(last, cpu, hash)?;
    Some((got, rest))
}

/// From the own local free list.
fn read_pop<'a>(cpu: u32, hash: u32, seens: &Seens<'a>) -> Option<(Option<u32>, Seens<'a>)>
    ensures { result ≡ told.read_pop cpu hash seens.now }
{
    let (first, rest) = seens.split_first()?;
    let element = popped(first, cpu, hash)?;
    Some((Some(element), rest))
}

/// By a refill, and where that got nothing by a theft.
fn read_by_refill<'a>(
    shape: &Shape,
    cpu: u32,
    hash: u32,
    seens: &Seens<'a>,
) -> Option<(Option<u32>, Seens<'a>)>
    requires { HasBounds shape.now }
    ensures { result ≡ told.read_by_refill shape.now cpu hash seens.now }
{
    let ((got, steal), rest) = read_refill(shape, cpu, hash, seens)?;
    match got {
        Some(element) => Some((Some(element), rest)),
        None => read_steals(shape, cpu, hash, steal, &rest),
    }
}

/// What a refill got, and where a round of thefts begins.
fn read_refill<'a>(
    shape: &Shape,
    cpu: u32,
    hash: u32,
    seens: &Seens<'a>,
) -> Option<((Option<u32>, u32), Seens<'a>)>
    requires { HasBounds shape.now }
    ensures { result ≡ told.read_refill shape.now cpu hash seens.now }
{
    let (given, rest) = answered_turn(shape, seens)?;
    let (last, behind) = rest.split_first()?;
    let refill = refilled(given, last, cpu, hash)?;
    Some((refill, behind))
}

/// What a round of thefts gave that starts at a CPU.
fn read_steals<'a>(
    shape: &Shape,
    cpu: u32,
    hash: u32,
    start: u32,
    seens: &Seens<'a>,
) -> Option<(Option<u32>, Seens<'a>)>
    requires { HasBounds shape.now }
    ensures { result ≡ told.read_steals shape.now cpu hash (ring start shape.now.cpus) seens.now }
{
    let mut left = seens.again();
    for place in 0..shape.cpus.saturating_sub(start) + start {
        let from = in_ring(start, shape.cpus, place);
        let (tried, rest) = answered_turn(shape, &left)?;
        match theft(tried, from)? {
            None => left = rest,
            Some(element) => return read_home(shape, cpu, hash, from, element, &rest),
        }
    }
    Some((None, left))
}

/// The CPU at a place of a round.
fn in_ring(start: u32, cpus: u32, place: u32) -> u32
    requires { place < cpus - start + start }
    ensures there { drop place (ring start cpus) ≡ result ∷ drop (place + 1) (ring start cpus) }
    ensures below { result < 4294967295 }
{
    let upwards = cpus.saturating_sub(start);
    if place < upwards {
        start + place
    } else {
        place - upwards
    }
}

/// What is stolen from a CPU is brought home.
fn read_home<'a>(
    shape: &Shape,
    cpu: u32,
    hash: u32,
    from: u32,
    element: u32,
    seens: &Seens<'a>,
) -> Option<(Option<u32>, Seens<'a>)>
    requires { from < 4294967295 }
    ensures { result ≡ told.read_home shape.now cpu hash from element seens.now }
{
    let (first, rest) = seens.split_first()?;
    if is_home(first, cpu, hash, element, next_cpu(from, shape.cpus)) {
        Some((Some(element), rest))
    } else {
        None
    }
}

/// The CPU behind one of so many.
fn next_cpu(cpu: u32, cpus: u32) -> u32
    requires { cpu < 4294967295 }
    ensures { result ≡ ring_next cpu cpus }
{
    if cpu + 1 == cpus { 0 } else { cpu + 1 }
}
