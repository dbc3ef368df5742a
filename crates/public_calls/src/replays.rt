//! Moves of rows, one after another, on each kind of list.

ghost use Rattle.std.specs.Prelude.{◌≡◌, []};

use linked_rows::LinkedRows;
use row_list::{PlainRows, Row, RowMove, Rows, replay};
use std::alloc::Global;

fn row(element: u32) -> Row
    ensures { result.element ≡ element }
{
    Row {
        element,
        hash: element / 2 + 10,
    }
}

/// Three rows are pushed, the middle one is taken out and pushed again, and one that isn't there is taken out.
fn move_rows<R: Rows>(rows: &mut R)
    requires empty { R.rows rows.old ≡ [] }
    requires bound { R.bound rows.old ≡ 8 }
{
    let moves = [
        RowMove::Push(row(0)),
        RowMove::Push(row(1)),
        RowMove::Push(row(2)),
        RowMove::TakeOut(1),
        RowMove::Push(row(1)),
        RowMove::TakeOut(7),
    ];
    replay(rows, &moves);
}

/// Whether a row is there, and is this element's.
fn is_row(found: Option<Row>, element: u32) -> bool {
    found == Some(row(element))
}

/// Whether 1, 2 and 0 are left, in this order.
fn are_left<R: Rows>(alloc: Global, rows: &R) -> bool {
    let elements = rows
        .elements(alloc)
        .is_ok_and(|elements| elements.as_slice() == [1, 2, 0].as_slice());
    let ends = is_row(rows.head(), 1) && is_row(rows.tail(), 0);
    let before = is_row(rows.before(0), 2) && is_row(rows.before(2), 1) && rows.before(1).is_none();
    let after = is_row(rows.after(1), 2) && is_row(rows.after(2), 0) && rows.after(0).is_none();
    let nowhere = rows.before(7).is_none() && rows.after(7).is_none() && rows.before(8).is_none();
    elements && ends && before && after && nowhere && rows.len() == 3
}

/// Whether all rows can be taken out, and are then gone.
fn are_taken_out<R: Rows>(rows: &mut R) -> bool {
    let taken = is_row(rows.take_out(2), 2) && is_row(rows.take_out(1), 1);
    let one_left = is_row(rows.head(), 0) && is_row(rows.tail(), 0) && rows.len() == 1;
    let last = is_row(rows.take_out(0), 0) && rows.take_out(0).is_none();
    taken && one_left && last && rows.head().is_none() && rows.tail().is_none() && rows.len() == 0
}

fn goes_right<R: Rows>(alloc: Global) -> bool {
    let Ok(mut rows) = R::with_room(alloc, 8) else {
        return false;
    };
    move_rows(&mut rows);
    are_left(alloc, &rows) && are_taken_out(&mut rows)
}

#[test]
fn moves_of_plain_rows(rt: HostRuntime) {
    assert!(rt; goes_right::<PlainRows>(rt.alloc()));
}

#[test]
fn moves_of_linked_rows(rt: HostRuntime) {
    assert!(rt; goes_right::<LinkedRows>(rt.alloc()));
}
