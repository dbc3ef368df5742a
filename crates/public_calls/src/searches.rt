//! Searches of a list worked by hand, after the kernel's `__local_list_pop_pending`.

use crate::list_sets::filled;
use crate::memory_bits::MemoryBits;
use crate::shrinks::are_noted;
use lru_lists::{ListName, Noted};
use lru_shrink::{search_all, search_sparing};
use map_types::NoMemory;
use place_words::{Look, Seen, Try};
use row_list::{PlainRows, Rows};
use std::alloc::Global;

/// A list of so many elements, 0 at the tail: the elements whose bits are set, and those that are in a bucket; and what each
/// search of it comes by and finds.
struct Case {
    rows: u32,
    set: &'static [u32],
    bodies: &'static [u32],
    looks: &'static [Look],
    spared: Option<u32>,
    tries: &'static [Try],
    unspared: Option<u32>,
}

static CASES: [Case; 2] = [
    // One whose bit is set is passed over or not, one in a hand always, and what lies behind the removed one isn't reached.
    Case {
        rows: 4,
        set: &[0],
        bodies: &[0, 2, 3],
        looks: &[
            Look {
                element: 0,
                bit: true,
                probed: None,
            },
            Look {
                element: 1,
                bit: false,
                probed: Some(Seen::Held(1)),
            },
            Look {
                element: 2,
                bit: false,
                probed: Some(Seen::Removed),
            },
        ],
        spared: Some(2),
        tries: &[Try {
            element: 0,
            probed: Seen::Removed,
        }],
        unspared: Some(0),
    },
    // All were used lately, so only the search that spares none finds one.
    Case {
        rows: 2,
        set: &[0, 1],
        bodies: &[1],
        looks: &[
            Look {
                element: 0,
                bit: true,
                probed: None,
            },
            Look {
                element: 1,
                bit: true,
                probed: None,
            },
        ],
        spared: None,
        tries: &[
            Try {
                element: 0,
                probed: Seen::Held(1),
            },
            Try {
                element: 1,
                probed: Seen::Removed,
            },
        ],
        unspared: Some(1),
    },
];

/// The element that the search which spares set bits finds.
fn spared(
    alloc: Global,
    rows: &PlainRows,
    case: &Case,
    notes: &mut Noted<Look>,
) -> Result<Option<u32>, NoMemory> {
    let room = 2 * rows.len() as usize;
    let mut table = MemoryBits::of(alloc, case.set, case.bodies, room)?;
    match search_sparing(rows, &mut table, notes) {
        Some(body) => Ok(Some(body.body().element())),
        None => Ok(None),
    }
}

/// The element that the search which spares none finds.
fn unspared(
    alloc: Global,
    rows: &PlainRows,
    case: &Case,
    notes: &mut Noted<Try>,
) -> Result<Option<u32>, NoMemory> {
    let room = rows.len() as usize;
    let mut table = MemoryBits::of(alloc, case.set, case.bodies, room)?;
    match search_all(rows, &mut table, notes) {
        Some(body) => Ok(Some(body.body().element())),
        None => Ok(None),
    }
}

/// Whether the search that spares set bits does what it is to do.
fn is_spared_right(alloc: Global, case: &Case) -> bool {
    let Some(set) = filled(alloc, case.rows) else {
        return false;
    };
    let mut notes = Noted::empty(alloc);
    match spared(alloc, set.rows(ListName::Inactive), case, &mut notes) {
        Ok(found) => found == case.spared && are_noted(case.looks, &notes),
        Err(_) => false,
    }
}

/// Whether the search that spares none does what it is to do.
fn is_unspared_right(alloc: Global, case: &Case) -> bool {
    let Some(set) = filled(alloc, case.rows) else {
        return false;
    };
    let mut notes = Noted::empty(alloc);
    match unspared(alloc, set.rows(ListName::Inactive), case, &mut notes) {
        Ok(found) => found == case.unspared && are_noted(case.tries, &notes),
        Err(_) => false,
    }
}

#[test]
fn searches_that_spare(rt: HostRuntime) {
    for case in &CASES {
        assert!(rt; is_spared_right(rt.alloc(), case));
    }
}

#[test]
fn searches_of_all(rt: HostRuntime) {
    for case in &CASES {
        assert!(rt; is_unspared_right(rt.alloc(), case));
    }
}
