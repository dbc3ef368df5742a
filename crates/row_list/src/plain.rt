//! Rows in a vector.

ghost use Rattle.std.specs.Prelude.{◌≡◌, ◌<◌, ◌≤◌, ℕ, length, reverse, position, slice_get, vec_capacity, IfOk, IfSome};
ghost use Rattle.map_types.specs.ElementLists.{times};
ghost use Rattle.map_types.specs.Listed.{elements_of};
ghost use Rattle.row_list.specs.RowWords.{AreRows, is_of, row_before, row_after};

use crate::{Row, Rows};
use map_types::{List, NoMemory, Numbers};
use std::alloc::Global;

/// Rows in a vector, which is searched for an element from the tail on.
#[derive(Drop)]
pub struct PlainRows {
    /// The head is the last.
    items: Vec<Row>,
    bound: u32,
    ghost whole: { AreRows bound (reverse items.items) },
    ghost room: { bound ≤ vec_capacity items },
}

impl Rows for PlainRows {
    ghost use Rattle.std.specs.Prelude.{reverse};

    ghost rows = { λ list. reverse list.items.items };

    ghost bound = { λ list. list.bound };

    ghost whole = { λ list. list.whole };

    fn with_room(alloc: Global, elements: u32) -> Result<Self, NoMemory> {
        Ok(PlainRows {
            items: Vec::with_capacity(alloc, elements as usize)?,
            bound: elements,
        })
    }

    fn push_head(&mut self, row: Row) {
        self.items.push_reserved(row);
    }

    fn head(&self) -> Option<Row> {
        self.items.last().copied()
    }

    fn tail(&self) -> Option<Row> {
        self.items.first().copied()
    }

    fn before(&self, element: u32) -> Option<Row> {
        behind_in(&self.items, element)
    }

    fn after(&self, element: u32) -> Option<Row> {
        ahead_in(&self.items, element)
    }

    fn take_out(&mut self, element: u32) -> Option<Row> {
        let at = place_of(&self.items, element)?;
        Some(self.items.remove(at))
    }

    fn elements(&self, alloc: Global) -> Result<Numbers, NoMemory> {
        Ok(List::of(elements_in(alloc, &self.items)?))
    }

    fn len(&self) -> u32 {
        self.items.len() as u32
    }
}

/// The elements of rows that lie tail first, head first.
fn elements_in(alloc: Global, items: &[Row]) -> Result<Vec<u32>, NoMemory>
    ensures { IfOk result (λ elements. elements.items ≡ elements_of (reverse items.now)) }
{
    Ok(items.iter().rev().map(|row| row.element).collect(alloc)?)
}

/// Where the row of an element lies.
fn place_of(items: &[Row], element: u32) -> Option<usize>
    ensures exact { result ≡ position (is_of element) items.now }
    ensures within { IfSome result (λ at. at < length items.now) }
{
    items.iter().position(|row| row.element == element)
}

/// The row that lies behind that of an element, which is next to it towards the head.
fn behind_in(items: &[Row], element: u32) -> Option<Row>
    requires { (e : ℕ) → times e (elements_of (reverse items.now)) ≤ 1 }
    ensures { result ≡ row_before element (reverse items.now) }
{
    let at = place_of(items, element)?;
    row_at(items, at + 1)
}

/// The row that lies at an index, where there is one.
fn row_at(items: &[Row], at: usize) -> Option<Row>
    ensures { result ≡ slice_get items.now at }
{
    items.get(at).copied()
}

/// The row that lies ahead of that of an element, which is next to it towards the tail.
fn ahead_in(items: &[Row], element: u32) -> Option<Row>
    requires { (e : ℕ) → times e (elements_of (reverse items.now)) ≤ 1 }
    ensures { result ≡ row_after element (reverse items.now) }
{
    let at = place_of(items, element)?;
    if at == 0 { None } else { Some(items[at - 1]) }
}
