//! What a list of rows is.

ghost use Rattle.std.specs.Prelude.{◌≡◌, ◌≢◌, ◌<◌, ◌≤◌, ℕ, List, [], ◌∷◌, length, reverse, ◌↔◌, IfOk, IsSome};
ghost use Rattle.map_types.specs.ElementLists.{times, IsIn, IsHead};
ghost use Rattle.map_types.specs.declared.row.Row as row_record;
ghost use Rattle.map_types.specs.Listed.{elements_of};
ghost use Rattle.row_list.specs.RowWords.{row_of, without_row, head_row, tail_row, row_before, row_after, AreRows, spare_of};

use crate::Row;
use map_types::{NoMemory, Numbers};
use std::alloc::Global;

/// A list of rows, head first, with distinct elements below a bound that no call changes. It has room for as many more
/// rows as the bound is above its length.
pub trait Rows: Drop {
    /// The rows, head first.
    ghost rows: { Self → List row_record.Row };

    /// The bound of the elements, and of their number.
    ghost bound: { Self → ℕ };

    /// An empty list, with the bound `elements` and room for that many rows.
    fn with_room(alloc: Global, elements: u32) -> Result<Self, NoMemory>
        ensures empty { IfOk result (λ list. rows list ≡ []) }
        ensures bound { IfOk result (λ list. bound list ≡ elements) };

    /// Adds a row at the head, where there is room and its element is below the bound and isn't in the list.
    fn push_head(&mut self, row: Row)
        requires room { 1 ≤ spare_of (bound self.old) (rows self.old) }
        requires below { row.element < bound self.old }
        requires absent { times row.element (elements_of (rows self.old)) ≡ 0 }
        ensures rows { rows self.new ≡ row ∷ rows self.old }
        ensures bound { bound self.new ≡ bound self.old };

    /// The first row, where there is one.
    fn head(&self) -> Option<Row>
        ensures exact { result ≡ head_row (rows self.now) }
        ensures present { IsSome result ↔ (rows self.now ≢ []) };

    /// The last row, where there is one.
    fn tail(&self) -> Option<Row>
        ensures exact { result ≡ tail_row (rows self.now) }
        ensures present { IsSome result ↔ (rows self.now ≢ []) };

    /// The row next to that of an element, towards the head: None where the element isn't in the list or is the head.
    fn before(&self, element: u32) -> Option<Row>
        ensures exact { result ≡ row_before element (rows self.now) }
        ensures present { IsSome result
            ↔ (IsIn element (elements_of (rows self.now))
            × (¬ IsHead element (elements_of (rows self.now)))) };

    /// The row next to that of an element, towards the tail: None where the element isn't in the list or is the tail.
    fn after(&self, element: u32) -> Option<Row>
        ensures exact { result ≡ row_after element (rows self.now) }
        ensures present { IsSome result
            ↔ (IsIn element (elements_of (rows self.now))
            × (¬ IsHead element (reverse (elements_of (rows self.now))))) };

    /// Takes out the row of an element, where it is in the list.
    fn take_out(&mut self, element: u32) -> Option<Row>
        ensures taken { result ≡ row_of element (rows self.old) }
        ensures present { IsSome result ↔ IsIn element (elements_of (rows self.old)) }
        ensures rows { rows self.new ≡ without_row element (rows self.old) }
        ensures bound { bound self.new ≡ bound self.old };

    /// The elements of the rows, head first.
    fn elements(&self, alloc: Global) -> Result<Numbers, NoMemory>
        ensures { IfOk result (λ elements. elements ≡ elements_of (rows self.now)) };

    /// How many rows there are.
    fn len(&self) -> u32
        ensures { result ≡ length (rows self.now) };

    /// At all times the elements are distinct and below the bound, and there are no more rows than the bound says.
    ghost whole: { (list : Self) → AreRows (bound list) (rows list) };
}
