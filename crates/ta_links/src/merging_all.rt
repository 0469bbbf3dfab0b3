//! All rows but one that are merged with it.

ghost use Rattle.std.specs.Prelude.{◌≡◌, ◌<◌, pos, true, false, ◌<ℤ◌, length, IfOk, IfSome, IfNone};
ghost use Rattle.ta_links.specs.Values.{value_in};
ghost use Rattle.ta_links.specs.Gaps.{AreSound};
ghost use Rattle.ta_links.specs.Linked.{AreProperHeads};
ghost use Rattle.ta_links.specs.Listing.{Lists};
ghost use Rattle.ta_links.specs.Merging.{MayMerge, MergedBelow, RowStepped, MergeRefused};
ghost use Rattle.ta_links.specs.MergingAll.{RefusedFirst};
ghost use Rattle.ta_links.specs.declared.way.Way.TheVariants.{Columns};

use crate::linked_cells::LinkedCells;
use crate::merging_rows::merge_row;
use crate::reading::number;
use crate::row_head::RowHead;
use std::alloc::AllocError;

// Merges row `row` into row `at`, if that is another row from the first one on with a cell in the
// column, or tells that a product or difference leaves the range.
fn merge_one(
    heads: &mut Vec<RowHead>,
    links: &mut LinkedCells,
    columns: u32,
    first: u32,
    row: u32,
    at: u32,
    column: u32,
) -> Result<bool, AllocError>
    requires { MayMerge columns row at column heads.old.items links.old }
    ensures done { IfOk result (λ b. b ≡ true → RowStepped first columns row at column heads.old.items links.old heads.new.items links.new) }
    ensures refused { IfOk result (λ b. b ≡ false → MergeRefused first columns row at column heads.old.items links.old) }
{
    if at < first {
        return Ok(true);
    }
    if at == row {
        return Ok(true);
    }
    if number(links, at, column) == 0 {
        return Ok(true);
    }
    let merged = merge_row(heads, links, columns, row, at, column)?;
    Ok(merged)
}

// Merges row `row` into the others from the first one on that a list of the column's cells names, or
// gives the first of them in which a product or difference leaves the range.
pub(crate) fn merge_others(
    heads: &mut Vec<RowHead>,
    links: &mut LinkedCells,
    columns: u32,
    met: &[(u32, i128)],
    first: u32,
    row: u32,
    column: u32,
) -> Result<Option<u32>, AllocError>
    requires sound { AreSound links.old }
    requires columns { columns ≡ length links.old.column_heads.items }
    requires rows { length links.old.row_heads.items ≡ length heads.old.items }
    requires met { Lists Columns links.old column met.now }
    requires proper { AreProperHeads heads.old.items }
    requires row { row < length heads.old.items }
    requires column { column < columns }
    requires positive { pos 0 <ℤ value_in links.old.cells.items row column }
    ensures done { IfOk result (λ o. IfNone o (MergedBelow first columns row column heads.old.items links.old (length heads.old.items) heads.new.items links.new)) }
    ensures refused { IfOk result (λ o. IfSome o (RefusedFirst first columns row column heads.old.items links.old (length heads.old.items))) }
{
    for (at, _) in met {
        if !merge_one(heads, links, columns, first, row, *at, column)? {
            return Ok(Some(*at));
        }
    }
    Ok(None)
}
