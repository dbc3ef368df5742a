//! Cells, in which bodies are linked to lists.

use crate::Body;

/// A body, and the cell of the next one in the list that it is linked in. Plain data.
pub struct Cell {
    pub body: Body,
    pub next: Option<Box<Cell>>,
}

/// A list of any length is dropped cell by cell from its first: no drop calls itself for the next cell.
impl Drop for Cell {
    fn drop(mut self) {
        loop {
            let Cell { body: _body, next } = self;
            match next {
                None => return,
                Some(rest) => self = Box::into_inner(rest),
            }
        }
    }
}
