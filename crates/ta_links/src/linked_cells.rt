//! Cells in chains.

ghost use Rattle.std.specs.Prelude.{◌≡◌, ◌≢◌, ◌<◌, ◌≤◌, ◌+◌, ◌+ℤ◌, ◌-ℤ◌, ℕ, pos, length, Some, None, IfOk};
ghost use Rattle.ta_linear.specs.Numbers.{InRange};
ghost use Rattle.ta_links.specs.Chains.{IsLive, cell_at, along_rows, along_columns};
ghost use Rattle.ta_links.specs.Values.{value_in, only_at_place};
ghost use Rattle.ta_links.specs.Gaps.{IsEmptyPlace, AreSound, Stays};
ghost use Rattle.ta_links.specs.Links.{direction, following};

use crate::cell::Cell;
use crate::linking::{cell_of, free_cell, link_head, splice, take_cell, write_value};
use crate::way::Way;
use std::alloc::AllocError;

/// Cells in one vector, with the first cell of each row and column, and the first free one.
#[derive(Drop)]
pub(crate) struct LinkedCells {
    pub(crate) cells: Vec<Cell>,
    pub(crate) row_heads: Vec<Option<usize>>,
    pub(crate) column_heads: Vec<Option<usize>>,
    pub(crate) free_head: Option<usize>,
}

// The cell behind a gap in a line.
pub(crate) fn cell_behind(
    way: Way,
    cells: &[Cell],
    heads: &[Option<usize>],
    line: u32,
    before: Option<usize>,
) -> Option<usize>
    requires line { line < length heads.now }
    requires before { (h : ℕ) → before ≡ Some h → h < length cells.now }
    ensures { result ≡ following (direction way) cells.now heads.now line before }
{
    match before {
        Some(at) => way.after(&cells[at]),
        None => heads[line as usize],
    }
}

// Takes a cell for a number other than 0, and puts it into the gap of its row behind `left` and of
// its column below `above`.
pub(crate) fn insert(
    links: &mut LinkedCells,
    left: Option<usize>,
    above: Option<usize>,
    row: u32,
    column: u32,
    value: i128,
) -> Result<(), AllocError>
    requires sound { AreSound links.old }
    requires row { row < length links.old.row_heads.items }
    requires column { column < length links.old.column_heads.items }
    requires left { IsEmptyPlace along_rows links.old.cells.items links.old.row_heads.items row column left }
    requires above { IsEmptyPlace along_columns links.old.cells.items links.old.column_heads.items column row above }
    requires value { value ≢ pos 0 }
    requires fits { InRange value }
    ensures sound { IfOk result (λ _. AreSound links.new) }
    ensures rows { IfOk result (λ _. length links.new.row_heads.items ≡ length links.old.row_heads.items) }
    ensures columns { IfOk result (λ _. length links.new.column_heads.items ≡ length links.old.column_heads.items) }
    ensures values { IfOk result (λ _. (r c : ℕ) → value_in links.new.cells.items r c ≡ (value_in links.old.cells.items r c +ℤ only_at_place row column value r c)) }
    ensures kept { IfOk result (λ _. (k : ℕ) → IsLive links.old.cells.items k → Stays links.old.cells.items links.new.cells.items k) }
    ensures fresh { IfOk result (λ _. links.old.free_head ≡ None → links.new.free_head ≡ None) }
    ensures held { IfOk result (λ _. length links.new.cells.items ≤ length links.old.cells.items + 1) }
{
    let right = cell_behind(Way::Rows, &links.cells, &links.row_heads, row, left);
    let below = cell_behind(
        Way::Columns,
        &links.cells,
        &links.column_heads,
        column,
        above,
    );
    let cell = Cell {
        row,
        column,
        value,
        left,
        right,
        above,
        below,
    };
    let at = take_cell(&mut links.cells, &mut links.free_head, cell)?;
    splice(Way::Rows, &mut links.cells, left, right, Some(at), Some(at));
    link_head(&mut links.row_heads, left, row, Some(at));
    splice(
        Way::Columns,
        &mut links.cells,
        above,
        below,
        Some(at),
        Some(at),
    );
    link_head(&mut links.column_heads, above, column, Some(at));
    Ok(())
}

// Takes a live cell out of its row and its column, and frees it.
pub(crate) fn remove(links: &mut LinkedCells, at: usize)
    requires sound { AreSound links.old }
    requires live { IsLive links.old.cells.items at }
    ensures sound { AreSound links.new }
    ensures rows { length links.new.row_heads.items ≡ length links.old.row_heads.items }
    ensures columns { length links.new.column_heads.items ≡ length links.old.column_heads.items }
    ensures values { let cell = cell_at links.old.cells.items at in (r c : ℕ) → value_in links.new.cells.items r c ≡ (value_in links.old.cells.items r c -ℤ only_at_place cell.row cell.column cell.value r c) }
    ensures kept { (k : ℕ) → IsLive links.old.cells.items k → k ≢ at → Stays links.old.cells.items links.new.cells.items k }
    ensures held { length links.new.cells.items ≡ length links.old.cells.items }
{
    let cell = cell_of(&links.cells, at);
    splice(
        Way::Rows,
        &mut links.cells,
        cell.left,
        cell.right,
        cell.right,
        cell.left,
    );
    link_head(&mut links.row_heads, cell.left, cell.row, cell.right);
    splice(
        Way::Columns,
        &mut links.cells,
        cell.above,
        cell.below,
        cell.below,
        cell.above,
    );
    link_head(&mut links.column_heads, cell.above, cell.column, cell.below);
    free_cell(&mut links.cells, &mut links.free_head, at);
}

// Writes another number than 0 into a live cell.
pub(crate) fn set_value(links: &mut LinkedCells, at: usize, value: i128)
    requires sound { AreSound links.old }
    requires live { IsLive links.old.cells.items at }
    requires value { value ≢ pos 0 }
    requires fits { InRange value }
    ensures sound { AreSound links.new }
    ensures rows { length links.new.row_heads.items ≡ length links.old.row_heads.items }
    ensures columns { length links.new.column_heads.items ≡ length links.old.column_heads.items }
    ensures values { let cell = cell_at links.old.cells.items at in (r c : ℕ) → value_in links.new.cells.items r c ≡ (value_in links.old.cells.items r c +ℤ only_at_place cell.row cell.column (value -ℤ cell.value) r c) }
    ensures kept { (k : ℕ) → IsLive links.old.cells.items k → Stays links.old.cells.items links.new.cells.items k }
    ensures held { length links.new.cells.items ≡ length links.old.cells.items }
{
    write_value(&mut links.cells, at, value);
}
