//! Shrinks worked by hand, after the kernel's `__bpf_lru_list_shrink`.

ghost use Rattle.std.specs.Prelude.{◌≤◌};

use crate::list_sets::{filled, has};
use crate::memory_bits::MemoryBits;
use lru_lists::{ListName, ListSet, Noted, ShrinkNotes};
use lru_shrink::shrink;
use percpu_values::BodyStack;
use place_words::{Look, Seen, Try};
use row_list::{PlainRows, Rows};
use std::alloc::Global;

/// A shrink of so many inactive elements, 0 at the tail: before it the cursor, the elements whose bits are set, those that
/// are in a bucket and the target; and what is left, freed, looked at and tried.
struct Case {
    rows: u32,
    stands: Option<u32>,
    set: &'static [u32],
    bodies: &'static [u32],
    target: u32,
    answer: u32,
    active: &'static [u32],
    inactive: &'static [u32],
    out: &'static [u32],
    cursor: Option<u32>,
    looks: &'static [Look],
    forced: &'static [Try],
}

static CASES: [Case; 2] = [
    // A set bit gives a second chance, an element in a hand is passed over, and the walk ends at the target.
    Case {
        rows: 5,
        stands: Some(2),
        set: &[1],
        bodies: &[1, 2, 3, 4],
        target: 2,
        answer: 2,
        active: &[1],
        inactive: &[4, 0],
        out: &[3, 2],
        cursor: Some(4),
        looks: &[
            Look {
                element: 0,
                bit: false,
                probed: Some(Seen::Held(1)),
            },
            Look {
                element: 1,
                bit: true,
                probed: None,
            },
            Look {
                element: 2,
                bit: false,
                probed: Some(Seen::Removed),
            },
            Look {
                element: 3,
                bit: false,
                probed: Some(Seen::Removed),
            },
        ],
        forced: &[],
    },
    // All were used lately, so one is taken from active by force.
    Case {
        rows: 2,
        stands: None,
        set: &[0, 1],
        bodies: &[0, 1],
        target: 4,
        answer: 1,
        active: &[1],
        inactive: &[],
        out: &[0],
        cursor: None,
        looks: &[
            Look {
                element: 0,
                bit: true,
                probed: None,
            },
            Look {
                element: 1,
                bit: true,
                probed: None,
            },
        ],
        forced: &[Try {
            element: 0,
            probed: Seen::Removed,
        }],
    },
];

/// Sets the cursor to an inactive element that isn't the head, and answers whether there is such a one.
fn stand(set: &mut ListSet<PlainRows>, element: u32) -> bool {
    if set.rows(ListName::Inactive).before(element).is_none() {
        return false;
    }
    set.set_cursor(Some(element));
    true
}

/// What a shrink with the scan limit 4 answers and frees, or None where memory isn't found or a bit is left.
fn shrunk(
    alloc: Global,
    set: &mut ListSet<PlainRows>,
    case: &Case,
    notes: &mut ShrinkNotes,
) -> Option<(u32, BodyStack)>
    requires { 1 ≤ case.now.target }
{
    let rows = set.rows(ListName::Active).len() as usize
        + set.rows(ListName::Inactive).len() as usize;
    let Ok(mut table) = MemoryBits::of(alloc, case.set, case.bodies, 8 + rows) else {
        return None;
    };
    let Ok(mut out) = BodyStack::with_room(alloc, case.target) else {
        return None;
    };
    let answer = shrink(set, &mut table, 4, case.target, &mut out, notes);
    if table.is_clear() {
        Some((answer, out))
    } else {
        None
    }
}

/// Whether the bodies of these elements are on a stack, top first.
fn are_stacked(elements: &[u32], out: &mut BodyStack) -> bool {
    for element in elements {
        match out.pop() {
            Some(body) if body.body().element() == *element => {}
            _ => return false,
        }
    }
    out.len() == 0
}

/// Whether these are the notes.
pub(crate) fn are_noted<T: PartialEq + Drop>(items: &[T], notes: &Noted<T>) -> bool {
    match notes {
        Noted::Kept(list) => list.as_slice() == items,
        Noted::Lost => false,
    }
}

/// Whether a shrink does what it is to do, and clears all bits.
fn is_right(alloc: Global, set: &mut ListSet<PlainRows>, case: &Case) -> bool {
    if case.target == 0 {
        return false;
    }
    let mut notes = ShrinkNotes::empty(alloc);
    match shrunk(alloc, set, case, &mut notes) {
        Some((answer, mut out)) => {
            answer == case.answer
                && has(set, case.active, case.inactive, case.cursor)
                && are_stacked(case.out, &mut out)
                && are_noted(case.looks, &notes.looks)
                && are_noted(case.forced, &notes.forced)
        }
        None => false,
    }
}

/// The first shrink that does something else.
fn wrong_shrink(alloc: Global, cases: &[Case]) -> Option<usize> {
    for row in 0..cases.len() {
        let case = &cases[row];
        let Some(mut set) = filled(alloc, case.rows) else {
            return Some(row);
        };
        if let Some(element) = case.stands
            && !stand(&mut set, element)
        {
            return Some(row);
        }
        if !is_right(alloc, &mut set, case) {
            return Some(row);
        }
    }
    None
}

#[test]
fn shrinks(rt: HostRuntime) {
    assert_eq!(rt; wrong_shrink(rt.alloc(), &CASES), None);
}
