//! Links of cells.

ghost use Rattle.std.specs.Prelude.{◌≡◌, ◌<◌, length, Some, IfSome, IfOk};
ghost use Rattle.ta_links.specs.Links.{linked, headed, spliced, with_after, with_before, freed, taken, taken_at, next_free, valued};
ghost use Rattle.ta_links.specs.Chains.{cell_at};

use crate::cell::Cell;
use crate::way::Way;
use std::alloc::AllocError;

// A cell.
pub(crate) fn cell_of(cells: &[Cell], at: usize) -> Cell
    requires { at < length cells.now }
    ensures { result ≡ cell_at cells.now at }
{
    cells[at]
}

// Writes the value of a cell.
pub(crate) fn write_value(cells: &mut Vec<Cell>, at: usize, value: i128)
    requires { at < length cells.old.items }
    ensures { cells.new.items ≡ valued cells.old.items at value }
{
    cells[at].value = value;
}

// Writes the link forward of a cell, if there is one.
fn link_after(way: Way, cells: &mut Vec<Cell>, at: Option<usize>, to: Option<usize>)
    requires { IfSome at (λ k. k < length cells.old.items) }
    ensures { cells.new.items ≡ linked (with_after way) cells.old.items at to }
{
    if let Some(at) = at {
        way.set_after(&mut cells[at], to);
    }
}

// Writes the link back of a cell, if there is one.
fn link_before(way: Way, cells: &mut Vec<Cell>, at: Option<usize>, to: Option<usize>)
    requires { IfSome at (λ k. k < length cells.old.items) }
    ensures { cells.new.items ≡ linked (with_before way) cells.old.items at to }
{
    if let Some(at) = at {
        way.set_before(&mut cells[at], to);
    }
}

// Writes the head of a line, where no cell goes before.
pub(crate) fn link_head(
    heads: &mut Vec<Option<usize>>,
    before: Option<usize>,
    line: u32,
    to: Option<usize>,
)
    requires { line < length heads.old.items }
    ensures { heads.new.items ≡ headed heads.old.items before line to }
{
    if let None = before {
        heads[line as usize] = to;
    }
}

// Writes the links of the cells on both sides of a gap in a line.
pub(crate) fn splice(
    way: Way,
    cells: &mut Vec<Cell>,
    before: Option<usize>,
    after: Option<usize>,
    forward: Option<usize>,
    back: Option<usize>,
)
    requires before { IfSome before (λ k. k < length cells.old.items) }
    requires after { IfSome after (λ k. k < length cells.old.items) }
    ensures { cells.new.items ≡ spliced way cells.old.items before after forward back }
{
    link_after(way, cells, before, forward);
    link_before(way, cells, after, back);
}

// Makes a cell the first of the free ones.
pub(crate) fn free_cell(cells: &mut Vec<Cell>, free_head: &mut Option<usize>, at: usize)
    requires { at < length cells.old.items }
    ensures cells { cells.new.items ≡ freed cells.old.items free_head.old at }
    ensures head { free_head.new ≡ Some at }
{
    let cell = &mut cells[at];
    cell.value = 0;
    cell.right = *free_head;
    *free_head = Some(at);
}

// Writes a cell into the first free one, or else at the end, and gives its index.
pub(crate) fn take_cell(
    cells: &mut Vec<Cell>,
    free_head: &mut Option<usize>,
    cell: Cell,
) -> Result<usize, AllocError>
    requires { IfSome free_head.old (λ k. k < length cells.old.items) }
    ensures at { IfOk result (λ i. i ≡ taken_at cells.old.items free_head.old) }
    ensures cells { IfOk result (λ _. cells.new.items ≡ taken cells.old.items free_head.old cell) }
    ensures head { IfOk result (λ _. free_head.new ≡ next_free cells.old.items free_head.old) }
{
    match *free_head {
        Some(at) => {
            *free_head = cells[at].right;
            cells[at] = cell;
            Ok(at)
        }
        None => {
            let at = cells.len();
            cells.push(cell)?;
            Ok(at)
        }
    }
}
