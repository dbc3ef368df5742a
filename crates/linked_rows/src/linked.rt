//! Rows that are linked through cells.

ghost use Rattle.std.specs.Prelude.{◌≡◌, length};
ghost use Rattle.linked_rows.specs.Cells.{rows_of, IsLinked};

use crate::cells::{
    Cell, after_in, before_in, elements_in, head_in, no_rows, put_first, row_in, tail_in, take_off,
};
use map_types::{List, NoMemory, Numbers, Row};
use row_list::Rows;
use std::alloc::Global;

/// Rows whose cells are linked, one for each element below the bound. A call finds its row by the element's number,
/// and takes no memory.
#[derive(Drop)]
pub struct LinkedRows {
    /// A cell for each element, and then one for the mark, whose number is the bound.
    cells: Vec<Cell>,
    bound: u32,
    len: u32,
    ghost linked: { IsLinked bound cells.items (rows_of bound cells.items) },
    ghost counted: { len ≡ length (rows_of bound cells.items) },
}

impl Rows for LinkedRows {
    ghost use Rattle.linked_rows.specs.Cells.{rows_of};

    ghost rows = { λ list. rows_of list.bound list.cells.items };

    ghost bound = { λ list. list.bound };

    ghost whole = { λ list. list.linked.are };

    fn with_room(alloc: Global, elements: u32) -> Result<Self, NoMemory> {
        Ok(LinkedRows {
            cells: no_rows(alloc, elements)?,
            bound: elements,
            len: 0,
        })
    }

    fn push_head(&mut self, row: Row) {
        put_first(&mut self.cells, self.bound, row);
        self.len += 1;
    }

    fn head(&self) -> Option<Row> {
        head_in(&self.cells, self.bound)
    }

    fn tail(&self) -> Option<Row> {
        tail_in(&self.cells, self.bound)
    }

    fn before(&self, element: u32) -> Option<Row> {
        before_in(&self.cells, self.bound, element)
    }

    fn after(&self, element: u32) -> Option<Row> {
        after_in(&self.cells, self.bound, element)
    }

    fn take_out(&mut self, element: u32) -> Option<Row> {
        let row = row_in(&self.cells, element)?;
        take_off(&mut self.cells, self.bound, element);
        self.len -= 1;
        Some(row)
    }

    fn elements(&self, alloc: Global) -> Result<Numbers, NoMemory> {
        Ok(List::of(elements_in(alloc, &self.cells, self.bound, self.len)?))
    }

    fn len(&self) -> u32 {
        self.len
    }
}
