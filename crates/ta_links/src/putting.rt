//! Numbers that are written into places.

ghost use Rattle.std.specs.Prelude.{◌≡◌, ◌<◌, ◌≤◌, ◌+◌, ℕ, pos, length, None, IfOk};
ghost use Rattle.ta_linear.specs.Numbers.{InRange};
ghost use Rattle.ta_links.specs.Chains.{along_rows};
ghost use Rattle.ta_links.specs.Values.{value_in, written, fills};
ghost use Rattle.ta_links.specs.Gaps.{IsEmptyPlace, IsCellBefore, MayBefore, AreSound, IsAt};

use crate::linked_cells::{LinkedCells, insert, remove, set_value};
use crate::seeking::{cell_at_place, seek};
use crate::way::Way;
use std::alloc::AllocError;

// Writes a number into the place of a live cell.
fn rewrite(links: &mut LinkedCells, at: usize, row: u32, column: u32, value: i128)
    requires sound { AreSound links.old }
    requires at { IsAt links.old.cells.items row column at }
    requires fits { InRange value }
    ensures sound { AreSound links.new }
    ensures rows { length links.new.row_heads.items ≡ length links.old.row_heads.items }
    ensures columns { length links.new.column_heads.items ≡ length links.old.column_heads.items }
    ensures values { (r c : ℕ) → value_in links.new.cells.items r c ≡ written (value_in links.old.cells.items) row column value r c }
    ensures kept { (r h : ℕ) → IsCellBefore along_rows links.old.cells.items r column h → IsCellBefore along_rows links.new.cells.items r column h }
    ensures held { length links.new.cells.items ≡ length links.old.cells.items }
{
    if value == 0 {
        remove(links, at);
        return;
    }
    set_value(links, at, value);
}

// Writes a number into a place that has no cell.
fn fill(
    links: &mut LinkedCells,
    row: u32,
    column: u32,
    left: Option<usize>,
    value: i128,
) -> Result<(), AllocError>
    requires sound { AreSound links.old }
    requires row { row < length links.old.row_heads.items }
    requires column { column < length links.old.column_heads.items }
    requires left { IsEmptyPlace along_rows links.old.cells.items links.old.row_heads.items row column left }
    requires fits { InRange value }
    ensures sound { IfOk result (λ _. AreSound links.new) }
    ensures rows { IfOk result (λ _. length links.new.row_heads.items ≡ length links.old.row_heads.items) }
    ensures columns { IfOk result (λ _. length links.new.column_heads.items ≡ length links.old.column_heads.items) }
    ensures values { IfOk result (λ _. (r c : ℕ) → value_in links.new.cells.items r c ≡ written (value_in links.old.cells.items) row column value r c) }
    ensures kept { IfOk result (λ _. (r h : ℕ) → IsCellBefore along_rows links.old.cells.items r column h → IsCellBefore along_rows links.new.cells.items r column h) }
    ensures fresh { IfOk result (λ _. links.old.free_head ≡ None → links.new.free_head ≡ None) }
    ensures held { IfOk result (λ _. length links.new.cells.items ≤ length links.old.cells.items + fills (value_in links.old.cells.items row column) value) }
{
    if value == 0 {
        return Ok(());
    }
    let above = seek(
        Way::Columns,
        &links.cells,
        &links.column_heads,
        column,
        row,
        None,
    );
    insert(links, left, above, row, column, value)?;
    Ok(())
}

// Writes a number into a place, sought from a cell before it on, and gives the last cell before it.
pub(crate) fn put(
    links: &mut LinkedCells,
    start: Option<usize>,
    row: u32,
    column: u32,
    value: i128,
) -> Result<Option<usize>, AllocError>
    requires sound { AreSound links.old }
    requires row { row < length links.old.row_heads.items }
    requires column { column < length links.old.column_heads.items }
    requires start { MayBefore along_rows links.old.cells.items row column start }
    requires fits { InRange value }
    ensures sound { IfOk result (λ _. AreSound links.new) }
    ensures rows { IfOk result (λ _. length links.new.row_heads.items ≡ length links.old.row_heads.items) }
    ensures columns { IfOk result (λ _. length links.new.column_heads.items ≡ length links.old.column_heads.items) }
    ensures values { IfOk result (λ _. (r c : ℕ) → value_in links.new.cells.items r c ≡ written (value_in links.old.cells.items) row column value r c) }
    ensures before { IfOk result (λ o. MayBefore along_rows links.new.cells.items row column o) }
    ensures kept { IfOk result (λ _. (r h : ℕ) → IsCellBefore along_rows links.old.cells.items r column h → IsCellBefore along_rows links.new.cells.items r column h) }
    ensures fresh { IfOk result (λ _. links.old.free_head ≡ None → value_in links.old.cells.items row column ≡ pos 0 → links.new.free_head ≡ None) }
    ensures held { IfOk result (λ _. length links.new.cells.items ≤ length links.old.cells.items + fills (value_in links.old.cells.items row column) value) }
{
    let left = seek(
        Way::Rows,
        &links.cells,
        &links.row_heads,
        row,
        column,
        start,
    );
    match cell_at_place(&links.cells, &links.row_heads, row, column, left) {
        Some(at) => {
            rewrite(links, at, row, column, value);
            Ok(left)
        }
        None => {
            fill(links, row, column, left, value)?;
            Ok(left)
        }
    }
}
