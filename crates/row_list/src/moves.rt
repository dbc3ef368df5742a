//! Moves of rows, one after another.

ghost use Rattle.std.specs.Prelude.{◌≡◌, fold};
ghost use Rattle.row_list.specs.Moves.{moved, CanMove};

use crate::{Row, Rows};

/// A change of a list of rows.
#[derive(Clone, Copy, Debug, PartialEq, Eq)]
pub enum RowMove {
    /// The row is put before the first one.
    Push(Row),
    /// The row of the element is taken out, where there is one.
    TakeOut(u32),
}

/// Makes moves, in their order. Each row that is pushed is of an element below the bound that isn't in the list at that
/// move.
pub fn replay<R: Rows>(rows: &mut R, moves: &[RowMove])
    requires { CanMove (R.bound rows.old) (R.rows rows.old) moves.now }
    ensures moved { R.rows rows.new ≡ fold moved (R.rows rows.old) moves.now }
    ensures bound { R.bound rows.new ≡ R.bound rows.old }
{
    for step in moves {
        match *step {
            RowMove::Push(row) => rows.push_head(row),
            RowMove::TakeOut(element) => {
                rows.take_out(element);
            }
        }
    }
}
