//! A body in a block of its own.

ghost use Rattle.std.specs.Prelude.{◌≡◌, IfOk};
ghost use Rattle.std.specs.Borrow.{sem};
ghost use Rattle.map_types.specs.Stored.{zero_stored, HasSizes};
ghost use Rattle.percpu_values.specs.Cells.{body_in, IsLast};

use crate::{Body, Cell};
use map_types::NoMemory;
use std::alloc::Global;
use std::marker::Model;

/// A body in a block of its own, which has room for the link to a next one: to move it from list to list moves a pointer.
/// Contracts see the body.
#[derive(Drop)]
pub struct BoxedBody {
    cell: Box<Cell>,
}

impl Model for BoxedBody {
    ghost use Rattle.map_types.specs.Stored.{Stored};
    ghost use Rattle.percpu_values.specs.Cells.{body_in, IsLast};

    ghost Value = { Stored };

    ghost view = { λ b. body_in b.cell.value };

    ghost invariant = { λ b. IsLast b.cell.value };
}

impl BoxedBody {
    ghost use Rattle.percpu_values.specs.Lending.{LendsBody};

    /// The body of an element, with a key of `key_size` bytes and values in so many parts of `size` bytes. All are 0.
    pub fn create(
        alloc: Global,
        element: u32,
        key_size: u32,
        parts: u32,
        size: u32,
    ) -> Result<BoxedBody, NoMemory>
        ensures zeroed { IfOk result (λ body. body ≡ zero_stored element key_size parts size) }
        ensures sized { IfOk result (λ body. HasSizes key_size parts size body) }
    {
        let body = Body::zeroed(alloc, element, key_size, parts, size)?;
        let cell = Box::new(alloc, Cell { body, next: None })?;
        Ok(BoxedBody { cell })
    }

    /// The body.
    pub fn body(&self) -> &Body
        ensures { result.now ≡ self.now }
    {
        &self.cell.body
    }

    /// The body, to be written.
    pub fn body_mut(&mut self) -> &mut Body
        ensures* writes_back { sem 𝓛 (LendsBody self.entry result) }
        ensures value { result.now ≡ self.old }
    {
        &mut self.cell.body
    }

    /// The cell of the body, which has no next one.
    pub fn into_cell(self) -> Box<Cell>
        ensures last { IsLast result.value }
        ensures body { body_in result.value ≡ self }
    {
        self.cell
    }

    /// The body of a cell that has no next one.
    pub fn of_cell(cell: Box<Cell>) -> BoxedBody
        requires { IsLast cell.value }
        ensures { result ≡ body_in cell.value }
    {
        BoxedBody { cell }
    }
}
