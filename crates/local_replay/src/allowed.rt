//! Where a turn of local lists may be this part. The lists lie in vectors, with their heads at the end.

ghost use Rattle.map_types.specs.declared.row.Row.{Row};
ghost use Rattle.place_words.specs.declared.visits.Visit.{Visit};
ghost use Rattle.std.specs.Prelude.{◌≡◌, ◌==◌, ◌<◌, length, slice_index_or, not, MatchBool, reverse};
ghost use Rattle.std.specs.List.{list_any};
ghost use Rattle.map_types.specs.ElementLists.{IsHead};
ghost use Rattle.place_words.specs.Locals.{last_of};
ghost use Rattle.local_replay.specs.Walks.{visits_are};
ghost use Rattle.place_words.specs.Sets.{has_row as row_is_there};

use map_types::Row;
use place_words::Visit;

/// Whether an element is the head of a list.
pub(crate) fn is_head(free: &[u32], element: u32) -> bool
    ensures { MatchBool result (IsHead element (reverse free.now)) (¬ IsHead element (reverse free.now)) }
{
    match free.last() {
        Some(head) => *head == element,
        None => false,
    }
}

/// Whether an element has a row.
pub(crate) fn has_row(rows: &[Row], element: u32) -> bool
    ensures { result ≡ row_is_there element rows.now }
{
    rows.iter().any(|row| row.element == element)
}

/// Whether an element isn't in a list.
pub(crate) fn is_absent(free: &[u32], element: u32) -> bool
    ensures { result ≡ not (list_any (λ x. x == element) free.now) }
{
    !free.contains(&element)
}

/// Whether these are visits of all rows, in their order.
pub(crate) fn visits_all(rows: &[Row], visits: &[Visit]) -> bool
    ensures { result ≡ visits_are rows.now visits.now }
{
    if visits.len() != rows.len() {
        return false;
    }
    for index in 0..visits.len() {
        if !is_visited_at(rows, visits, index) {
            return false;
        }
    }
    true
}

/// Whether the visit at an index is of the row there.
fn is_visited_at(rows: &[Row], visits: &[Visit], index: usize) -> bool
    requires { (index < length rows.now) × (index < length visits.now) }
    ensures { (row : Row) (visit : Visit)
        → result ≡ ((slice_index_or visits.now index visit).element == (slice_index_or rows.now index row).element) }
{
    visits[index].element == rows[index].element
}

/// Whether this is the last of a list.
pub(crate) fn is_last(gained: &[u32], got: Option<u32>) -> bool
    ensures { MatchBool result (got ≡ last_of gained.now) (¬ (got ≡ last_of gained.now)) }
{
    got == gained.last().copied()
}
