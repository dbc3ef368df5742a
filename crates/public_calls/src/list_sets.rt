//! List sets of the elements below 6.

ghost use Rattle.std.specs.Prelude.{◌≡◌, ◌<◌};

use lru_lists::{ListName, ListSet};
use row_list::{PlainRows, Row, Rows};
use std::alloc::Global;

/// A set with so many elements, at most 6, on inactive, and 0 at the tail, or None where memory for it is not found.
pub(crate) fn filled(alloc: Global, count: u32) -> Option<ListSet<PlainRows>> {
    let Ok(mut set) = ListSet::<PlainRows>::create(alloc, 6) else {
        return None;
    };
    for element in 0..count.min(6) {
        if !put(&mut set, element) {
            return None;
        }
    }
    Some(set)
}

/// Puts an element on inactive that is on no list, and answers whether it is.
fn put(set: &mut ListSet<PlainRows>, element: u32) -> bool
    requires { element < set.old.elements }
    ensures { set.new.elements ≡ set.old.elements }
{
    if set.take_off(element).is_some() || set.free_len() != 0 {
        return false;
    }
    let row = Row {
        element,
        hash: 10 + element % 6,
    };
    set.move_in(row, ListName::Inactive);
    true
}

/// Whether these are the elements of a list, head first, each with the hash that it was put with.
fn are_in(elements: &[u32], rows: &PlainRows) -> bool {
    let mut next = rows.head();
    for element in elements {
        match next {
            Some(row) if row.element == *element && row.hash == 10 + row.element % 6 => {
                next = rows.after(row.element);
            }
            _ => return false,
        }
    }
    next.is_none()
}

/// Whether a set has these elements on its lists, and this cursor.
pub(crate) fn has(
    set: &ListSet<PlainRows>,
    active: &[u32],
    inactive: &[u32],
    cursor: Option<u32>,
) -> bool {
    are_in(active, set.rows(ListName::Active))
        && are_in(inactive, set.rows(ListName::Inactive))
        && set.cursor() == cursor
}
