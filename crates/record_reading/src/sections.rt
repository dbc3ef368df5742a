//! Sections of a report that have numbers.

ghost use Rattle.std.specs.Prelude.{◌≡◌, IfOk, ℕ};
ghost use Rattle.std.specs.List.{range_with_len};
ghost use Rattle.map_types.specs.Creation.{IsShape};
ghost use Rattle.map_types.specs.declared.attr.Shape as shapes;
ghost use Rattle.record_reading.specs.Outcomes.{Reads};
ghost use Rattle.record_reading.specs.Sections.{Section, for_each};

use crate::lines::Lines;
use map_types::{List, NoMemory, Shape};
use std::alloc::Global;

/// What is told by lines of its own, with a number.
pub(crate) trait Numbered: Sized + Drop {
    /// How its lines are read.
    ghost section: { shapes.Shape → ℕ → Section Self };

    /// Reads the one of this number.
    fn read<'a>(
        alloc: Global,
        shape: &Shape,
        number: u32,
        lines: &mut Lines<'a>,
    ) -> Result<Option<Self>, NoMemory>
        requires { IsShape shape.now }
        ensures lines { IfOk result (Reads (section shape.now number) lines.old.0 lines.new.0) }
        ensures rest { lines.new.1 ≡ lines.old.1 };
}

/// Reads so many of them, numbered from 0 on.
#[tactic(auto, using(crate::proofs::LoopLemmas::numbered_more, crate::proofs::LoopLemmas::numbered_none, crate::proofs::LoopLemmas::numbered_done))]
pub(crate) fn read_numbered<'a, T: Numbered>(
    alloc: Global,
    shape: &Shape,
    count: u32,
    lines: &mut Lines<'a>,
) -> Result<Option<List<T>>, NoMemory>
    requires { IsShape shape.now }
    ensures lines { IfOk result (Reads (for_each (T.section shape.now) (range_with_len 0 count))
        lines.old.0 lines.new.0) }
    ensures rest { lines.new.1 ≡ lines.old.1 }
{
    let mut all = List::of(Vec::new(alloc));
    for number in 0..count {
        let Some(one) = T::read(alloc, shape, number, lines)? else {
            return Ok(None);
        };
        all.push(one)?;
    }
    Ok(Some(all))
}
