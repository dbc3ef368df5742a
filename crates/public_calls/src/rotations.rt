//! Rotations worked by hand, after the kernel's `__bpf_lru_list_rotate`.

use crate::list_sets::{filled, has};
use crate::memory_bits::MemoryBits;
use lru_lists::{ListSet, Noted, RotateNotes};
use lru_rotate::rotate;
use place_words::Visit;
use row_list::PlainRows;
use std::alloc::Global;

/// A rotation of the set that the one before it leaves: the elements whose bits are set before it, what each part visits
/// with the bits that it finds, and the lists and the cursor after it.
struct Case {
    set: &'static [u32],
    active_visits: &'static [(u32, bool)],
    inactive_visits: &'static [(u32, bool)],
    active: &'static [u32],
    inactive: &'static [u32],
    cursor: Option<u32>,
}

static CASES: [Case; 3] = [
    Case {
        set: &[0, 2],
        active_visits: &[],
        inactive_visits: &[(0, true), (1, false), (2, true), (3, false)],
        active: &[2, 0],
        inactive: &[5, 4, 3, 1],
        cursor: Some(4),
    },
    Case {
        set: &[4, 1],
        active_visits: &[],
        inactive_visits: &[(4, true), (5, false), (1, true), (3, false)],
        active: &[1, 4, 2, 0],
        inactive: &[5, 3],
        cursor: Some(5),
    },
    Case {
        set: &[],
        active_visits: &[(0, false), (2, false), (4, false), (1, false)],
        inactive_visits: &[(5, false), (0, false), (2, false), (4, false)],
        active: &[],
        inactive: &[1, 4, 2, 0, 5, 3],
        cursor: Some(1),
    },
];

/// Rotates a set with the scan limit 4, and answers whether memory was found and no bit is left.
fn turn(
    alloc: Global,
    set: &mut ListSet<PlainRows>,
    bits: &[u32],
    notes: &mut RotateNotes,
) -> bool {
    let Ok(mut table) = MemoryBits::of(alloc, bits, &[], 8) else {
        return false;
    };
    rotate(set, &mut table, 4, notes);
    table.is_clear()
}

/// Whether these are the visits that were noted.
fn are_noted(visits: &[(u32, bool)], notes: &Noted<Visit>) -> bool {
    let Noted::Kept(list) = notes else {
        return false;
    };
    let found = list.as_slice();
    if found.len() != visits.len() {
        return false;
    }
    for at in 0..found.len() {
        if (found[at].element, found[at].bit) != visits[at] {
            return false;
        }
    }
    true
}

/// Whether a rotation does what it is to do, and clears all bits.
fn is_right(alloc: Global, set: &mut ListSet<PlainRows>, case: &Case) -> bool {
    let mut notes = RotateNotes::empty(alloc);
    turn(alloc, set, case.set, &mut notes)
        && has(set, case.active, case.inactive, case.cursor)
        && are_noted(case.active_visits, &notes.active)
        && are_noted(case.inactive_visits, &notes.inactive)
}

/// The first rotation that does something else.
fn wrong_rotation(alloc: Global, cases: &[Case]) -> Option<usize> {
    let Some(mut set) = filled(alloc, 6) else {
        return Some(0);
    };
    for row in 0..cases.len() {
        if !is_right(alloc, &mut set, &cases[row]) {
            return Some(row);
        }
    }
    None
}

#[test]
fn rotations(rt: HostRuntime) {
    assert_eq!(rt; wrong_rotation(rt.alloc(), &CASES), None);
}
