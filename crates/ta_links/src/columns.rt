//! Rows that are written over.

ghost use Rattle.std.specs.Prelude.{◌≡◌, ◌≢◌, ◌<◌, ◌≤◌, ◌+◌, ℕ, pos, length, None, IfOk};
ghost use Rattle.ta_linear.specs.Terms.{IsNormal, coefficient};
ghost use Rattle.ta_links.specs.Values.{value_in, filled_places};
ghost use Rattle.ta_links.specs.Gaps.{AreSound};

use crate::linked_cells::LinkedCells;
use crate::putting::put;
use std::alloc::AllocError;
use ta_linear::Form;

// Writes the form's coefficients into those columns of a row that a list has.
pub(crate) fn write_columns(
    links: &mut LinkedCells,
    row: u32,
    list: &[(u32, i128)],
    form: &Form,
) -> Result<(), AllocError>
    requires sound { AreSound links.old }
    requires row { row < length links.old.row_heads.items }
    requires list { IsNormal 0 (length links.old.column_heads.items) list.now }
    ensures sound { IfOk result (λ _. AreSound links.new) }
    ensures rows { IfOk result (λ _. length links.new.row_heads.items ≡ length links.old.row_heads.items) }
    ensures columns { IfOk result (λ _. length links.new.column_heads.items ≡ length links.old.column_heads.items) }
    ensures others { IfOk result (λ _. (r c : ℕ) → r ≢ row → value_in links.new.cells.items r c ≡ value_in links.old.cells.items r c) }
    ensures listed { IfOk result (λ _. (c : ℕ) → coefficient list.now c ≢ pos 0 → value_in links.new.cells.items row c ≡ coefficient form.now.terms c) }
    ensures rest { IfOk result (λ _. (c : ℕ) → coefficient list.now c ≡ pos 0 → value_in links.new.cells.items row c ≡ value_in links.old.cells.items row c) }
    ensures fresh { IfOk result (λ _. links.old.free_head ≡ None → ((c : ℕ) → value_in links.old.cells.items row c ≡ pos 0) → links.new.free_head ≡ None) }
    ensures held { IfOk result (λ _. length links.new.cells.items ≤ length links.old.cells.items + filled_places (length links.old.column_heads.items) (value_in links.old.cells.items row) (value_in links.new.cells.items row)) }
{
    let mut left = None;
    for (column, _) in list {
        let value = form.coefficient_of(*column);
        left = put(links, left, row, *column, value)?;
    }
    Ok(())
}
