//! The opening of a core.

ghost use Rattle.std.specs.Prelude.{◌≡◌, map, IfOk};
ghost use Rattle.std.specs.List.{range_with_len};
ghost use Rattle.map_types.specs.Creation.{IsShape};
ghost use Rattle.place_words.specs.Locks.{lock_count};
ghost use Rattle.place_words.specs.OpeningState.{AreOpeningOwners, opening_home, opening_lists};
ghost use Rattle.place_core.specs.Answers.{view_of};
ghost use Rattle.place_core.specs.OpeningView.{IsOpening};

use crate::cells::Cells;
use map_types::{NoMemory, Numbers, Shape};
use place_words::{Home, Lists, Owner, free_at_first, home_at_first, lock_named, owners_at_first};
use std::alloc::Global;

/// What lies under each lock at first.
fn lists_at_first(alloc: Global, shape: &Shape, owners: &[Owner]) -> Result<Vec<Lists>, NoMemory>
    requires shape { IsShape shape.now }
    requires owners { AreOpeningOwners shape.now owners.now }
    ensures { IfOk result (λ lists. lists.items
        ≡ map (opening_lists shape.now) (range_with_len 0 (lock_count shape.now))) }
{
    let mut lists = Vec::new(alloc);
    let count = shape.cpus + 1 + shape.cpus + shape.buckets + shape.cpus;
    for number in 0..count {
        let free = free_at_first(alloc, shape, owners, lock_named(shape, number))?;
        lists.push(Lists {
            free,
            first: Numbers::of(Vec::new(alloc)),
            second: Numbers::of(Vec::new(alloc)),
            cursor: None,
        })?;
    }
    Ok(lists)
}

/// Where the home of each element is at first.
fn homes_at_first(alloc: Global, shape: &Shape) -> Result<Vec<Home>, NoMemory>
    requires { IsShape shape.now }
    ensures { IfOk result (λ homes. homes.items
        ≡ map (opening_home shape.now) (range_with_len 0 shape.now.elements)) }
{
    let mut homes = Vec::new(alloc);
    for element in 0..shape.elements {
        homes.push(home_at_first(shape, element))?;
    }
    Ok(homes)
}

/// The cells of a map at its opening.
pub(crate) fn cells_at_first(alloc: Global, shape: &Shape) -> Result<Cells, NoMemory>
    requires { IsShape shape.now }
    ensures { IfOk result (λ cells. IsOpening shape.now (view_of cells)) }
{
    let owners = owners_at_first(alloc, shape)?;
    let lists = lists_at_first(alloc, shape, owners.as_slice())?;
    let homes = homes_at_first(alloc, shape)?;
    let bits = vec![in alloc; false; shape.elements as usize]?;
    Ok(Cells {
        shape: *shape,
        held: Vec::new(alloc),
        lists,
        owners,
        homes,
        bits,
    })
}
