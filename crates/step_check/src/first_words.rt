//! The words at the opening of a map.

ghost use Rattle.std.specs.Prelude.{◌≡◌, map, IfOk};
ghost use Rattle.std.specs.List.{range_with_len};
ghost use Rattle.map_types.specs.Creation.{IsShape};
ghost use Rattle.place_words.specs.OpeningState.{opening, opening_home};
ghost use Rattle.core_runs.specs.Words.{words_of};
ghost use Rattle.step_check.specs.Answers.{view_of};
ghost use Rattle.step_check.specs.WordsView.{words_in, AreWords};

use crate::words::Kept;
use map_types::{NoMemory, Shape};
use place_words::{Home, home_at_first, owners_at_first};
use std::alloc::Global;

/// Where the home of each element is at first.
fn homes_at_first(alloc: Global, shape: &Shape) -> Result<Vec<Home>, NoMemory>
    requires { IsShape shape.now }
    ensures { IfOk result (λ homes. homes.items
        ≡ map (opening_home shape.now) (range_with_len 0 shape.now.elements)) }
{
    let mut homes = Vec::new(alloc);
    for element in 0..shape.elements {
        homes.push(home_at_first(shape, element))?;
    }
    Ok(homes)
}

/// The words of a map at its opening.
pub(crate) fn words_at_first(alloc: Global, shape: &Shape) -> Result<Kept, NoMemory>
    requires { IsShape shape.now }
    ensures are { IfOk result (λ kept. AreWords (view_of kept)) }
    ensures shape { IfOk result (λ kept. kept.shape ≡ shape.now) }
    ensures exact { IfOk result (λ kept. words_in (view_of kept) ≡ words_of (opening shape.now)) }
{
    let owners = owners_at_first(alloc, shape)?;
    let homes = homes_at_first(alloc, shape)?;
    Ok(Kept {
        shape: *shape,
        held: Vec::new(alloc),
        owners,
        homes,
    })
}
