//! The cells of a list, one for each element and one for the mark.

ghost use Rattle.std.specs.Prelude.{◌≡◌, ◌<◌, ◌≤◌, List, [], ◌∷◌, length, Some, None, IsSome, IfOk};
ghost use Rattle.map_types.specs.ElementLists.{times};
ghost use Rattle.map_types.specs.Listed.{elements_of};
ghost use Rattle.row_list.specs.RowWords.{head_row, tail_row, row_before, row_after, without_row, spare_of};
ghost use Rattle.linked_rows.specs.Cells.{row_at, rows_of, IsLinked, Joins, Keeps};

use map_types::{NoMemory, Row};
use std::alloc::Global;

/// What is kept of an element: its row, and the cells beside its own. The mark stands before the head and behind the
/// tail, and is never on the list.
#[derive(Clone, Copy)]
pub struct Cell {
    /// Whether the element is on the list.
    pub listed: bool,
    /// The stored hash of the element's key.
    pub hash: u32,
    /// The next cell towards the head.
    pub before: u32,
    /// The next cell towards the tail.
    pub after: u32,
}

/// The cells of an empty list.
pub fn no_rows(alloc: Global, elements: u32) -> Result<Vec<Cell>, NoMemory>
    ensures { IfOk result (λ cells. IsLinked elements cells.items []) }
{
    let cell = Cell {
        listed: false,
        hash: 0,
        before: elements,
        after: elements,
    };
    Ok(vec![in alloc; cell; elements as usize + 1]?)
}

/// The row of an element, where it is on the list.
pub fn row_in(cells: &[Cell], element: u32) -> Option<Row>
    ensures { result ≡ row_at cells.now element }
{
    let cell = cells.get(element as usize)?;
    if cell.listed {
        Some(Row {
            element,
            hash: cell.hash,
        })
    } else {
        None
    }
}

/// The first row.
pub fn head_in(cells: &[Cell], mark: u32) -> Option<Row>
    requires { IsLinked mark cells.now (rows_of mark cells.now) }
    ensures { result ≡ head_row (rows_of mark cells.now) }
{
    row_in(cells, cells[mark as usize].after)
}

/// The last row.
pub fn tail_in(cells: &[Cell], mark: u32) -> Option<Row>
    requires { IsLinked mark cells.now (rows_of mark cells.now) }
    ensures { result ≡ tail_row (rows_of mark cells.now) }
{
    row_in(cells, cells[mark as usize].before)
}

/// The row next to that of an element, towards the head.
pub fn before_in(cells: &[Cell], mark: u32, element: u32) -> Option<Row>
    requires { IsLinked mark cells.now (rows_of mark cells.now) }
    ensures { result ≡ row_before element (rows_of mark cells.now) }
{
    row_in(cells, element)?;
    row_in(cells, cells[element as usize].before)
}

/// The row next to that of an element, towards the tail.
pub fn after_in(cells: &[Cell], mark: u32, element: u32) -> Option<Row>
    requires { IsLinked mark cells.now (rows_of mark cells.now) }
    ensures { result ≡ row_after element (rows_of mark cells.now) }
{
    row_in(cells, element)?;
    row_in(cells, cells[element as usize].after)
}

/// Links two cells.
fn join(cells: &mut [Cell], first: u32, second: u32)
    requires first { first < length cells.now }
    requires second { second < length cells.now }
    ensures { Joins first second cells.old cells.new }
{
    cells[first as usize].after = second;
    cells[second as usize].before = first;
}

/// Writes a row into its element's cell.
fn write(cells: &mut [Cell], row: Row)
    requires { row.element < length cells.now }
    ensures { Keeps row.element (Some row) cells.old cells.new }
{
    let cell = &mut cells[row.element as usize];
    cell.listed = true;
    cell.hash = row.hash;
}

/// Takes the row out of an element's cell.
fn clear(cells: &mut [Cell], element: u32)
    requires { element < length cells.now }
    ensures { Keeps element None cells.old cells.new }
{
    cells[element as usize].listed = false;
}

/// Puts a row before the first one.
pub fn put_first(cells: &mut [Cell], mark: u32, row: Row)
    requires linked { IsLinked mark cells.now (rows_of mark cells.now) }
    requires room { 1 ≤ spare_of mark (rows_of mark cells.now) }
    requires below { row.element < mark }
    requires absent { times row.element (elements_of (rows_of mark cells.now)) ≡ 0 }
    ensures { IsLinked mark cells.new (row ∷ rows_of mark cells.old) }
{
    let next = cells[mark as usize].after;
    write(cells, row);
    join(cells, mark, row.element);
    join(cells, row.element, next);
}

/// Takes out the row of an element that has one.
pub fn take_off(cells: &mut [Cell], mark: u32, element: u32)
    requires linked { IsLinked mark cells.now (rows_of mark cells.now) }
    requires listed { IsSome (row_at cells.now element) }
    ensures { IsLinked mark cells.new (without_row element (rows_of mark cells.old)) }
{
    let cell = cells[element as usize];
    join(cells, cell.before, cell.after);
    clear(cells, element);
}

/// The elements of the rows, head first.
pub fn elements_in(alloc: Global, cells: &[Cell], mark: u32, len: u32) -> Result<Vec<u32>, NoMemory>
    requires linked { IsLinked mark cells.now (rows_of mark cells.now) }
    requires counted { len ≡ length (rows_of mark cells.now) }
    ensures { IfOk result (λ elements. elements.items ≡ elements_of (rows_of mark cells.now)) }
{
    let mut elements = Vec::with_capacity(alloc, len as usize)?;
    let mut at = cells[mark as usize].after;
    for _ in 0..len {
        elements.push(at)?;
        at = cells[at as usize].after;
    }
    Ok(elements)
}
