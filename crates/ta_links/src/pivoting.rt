//! Rows after a pivot.

ghost use Rattle.std.specs.Prelude.{◌≡◌, ◌<◌, pos, ◌<ℤ◌, length, get_or, IfOk, IfSome, IfNone};
ghost use Rattle.ta_dense.specs.Tableau.{no_row};
ghost use Rattle.ta_dense.specs.Merge.{FirstOtherRefused};
ghost use Rattle.ta_links.specs.Values.{value_in};
ghost use Rattle.ta_links.specs.Gaps.{AreSound};
ghost use Rattle.ta_links.specs.Linked.{AreProperHeads};
ghost use Rattle.ta_links.specs.Pivoting.{RowsPivoted, rows_in};

use crate::lines::list_line;
use crate::linked_cells::LinkedCells;
use crate::merging_all::merge_others;
use crate::row_head::RowHead;
use crate::turning::turn_row;
use crate::way::Way;
use std::alloc::{AllocError, Global};

// Merges the row into each that has a cell in the column and solves it for the variable that enters,
// or gives the first row in which a product or difference leaves the range.
pub(crate) fn pivot_rows(
    alloc: Global,
    heads: &mut Vec<RowHead>,
    links: &mut LinkedCells,
    columns: u32,
    row: u32,
    column: u32,
    entering: u32,
) -> Result<Option<u32>, AllocError>
    requires sound { AreSound links.old }
    requires columns { columns ≡ length links.old.column_heads.items }
    requires rows { length links.old.row_heads.items ≡ length heads.old.items }
    requires proper { AreProperHeads heads.old.items }
    requires row { row < length heads.old.items }
    requires column { column < columns }
    requires positive { pos 0 <ℤ value_in links.old.cells.items row column }
    ensures done { IfOk result (λ o. IfNone o (RowsPivoted columns row column entering heads.old.items links.old heads.new.items links.new)) }
    ensures refused { let rows = rows_in heads.old.items links.old columns in IfOk result (λ o. IfSome o (FirstOtherRefused row column (get_or rows row no_row) rows)) }
{
    let met = list_line(alloc, Way::Columns, links, column)?;
    if let Some(at) = merge_others(heads, links, columns, &met, 0, row, column)? {
        return Ok(Some(at));
    }
    turn_row(heads, links, columns, row, column, entering)?;
    Ok(None)
}
