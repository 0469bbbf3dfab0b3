//! The chosen row, solved for the variable that enters.

ghost use Rattle.std.specs.Prelude.{◌≡◌, ◌<◌, pos, ◌<ℤ◌, length, IfOk};
ghost use Rattle.ta_links.specs.Values.{value_in};
ghost use Rattle.ta_links.specs.Gaps.{AreSound};
ghost use Rattle.ta_links.specs.Linked.{AreProperHeads};
ghost use Rattle.ta_links.specs.Merging.{RowTurned};

use crate::linked_cells::LinkedCells;
use crate::merging::{Merge, write_merged};
use crate::merging_rows::write_head;
use crate::reading::{head_of, number};
use crate::row_head::RowHead;
use std::alloc::AllocError;

// Solves the row for the variable that enters: each number is negated, the column gets the
// denominator, and its number becomes the denominator.
pub(crate) fn turn_row(
    heads: &mut Vec<RowHead>,
    links: &mut LinkedCells,
    columns: u32,
    row: u32,
    column: u32,
    entering: u32,
) -> Result<(), AllocError>
    requires sound { AreSound links.old }
    requires columns { columns ≡ length links.old.column_heads.items }
    requires rows { length links.old.row_heads.items ≡ length heads.old.items }
    requires proper { AreProperHeads heads.old.items }
    requires row { row < length heads.old.items }
    requires column { column < columns }
    requires positive { pos 0 <ℤ value_in links.old.cells.items row column }
    ensures { IfOk result (λ _. RowTurned columns row column entering heads.old.items links.old heads.new.items links.new) }
{
    let head = head_of(heads, row);
    let denominator = number(links, row, column);
    let merge = Merge {
        row,
        at: row,
        p: -1,
        q: 0,
        column,
        turned: head.denominator,
    };
    write_merged(links, columns, merge, 1)?;
    let turned = RowHead {
        basic: entering,
        denominator,
        constant: -head.constant,
    };
    write_head(heads, row, turned);
    Ok(())
}
