//! New rows that are carried through kept pivots.

ghost use Rattle.std.specs.Prelude.{◌≡◌, ◌≢◌, ◌+◌, ◌<◌, ◌^◌, ℕ, pos, length, get_or, IfOk, IfSome, IfNone};
ghost use Rattle.ta_dense.specs.Kept.{IsKept};
ghost use Rattle.ta_links.specs.Values.{value_in};
ghost use Rattle.ta_links.specs.Gaps.{AreSound};
ghost use Rattle.ta_links.specs.Carrying.{CarryRefused, IsEmpty, HasChosenNumbers, IsRoom, OthersSame, RowsCarried};

use crate::columns::write_columns;
use crate::kept::LinkedPivot;
use crate::lines::list_line;
use crate::linked_cells::LinkedCells;
use crate::merging_all::merge_others;
use crate::merging_rows::write_head;
use crate::row_head::RowHead;
use crate::way::Way;
use std::alloc::{AllocError, Global};
use ta_linear::Form;

// Writes the chosen row of a kept pivot into the last row, which is empty.
fn place_pivot(
    heads: &mut Vec<RowHead>,
    links: &mut LinkedCells,
    columns: u32,
    last: u32,
    kept: &LinkedPivot,
) -> Result<(), AllocError>
    requires room { IsRoom columns last heads.old.items links.old }
    requires empty { IsEmpty last links.old }
    requires kept { IsKept columns kept.now }
    ensures room { IfOk result (λ _. IsRoom columns last heads.new.items links.new) }
    ensures placed { IfOk result (λ _. HasChosenNumbers last kept.now heads.new.items links.new) }
    ensures others { IfOk result (λ _. OthersSame last heads.old.items links.old heads.new.items links.new) }
{
    let form = kept.form();
    write_columns(links, last, form.terms.as_slice(), form)?;
    write_head(heads, last, kept.head());
    Ok(())
}

// Empties the last row, in which the chosen row of a kept pivot stands.
fn clear_row(
    alloc: Global,
    links: &mut LinkedCells,
    columns: u32,
    last: u32,
    kept: &LinkedPivot,
) -> Result<(), AllocError>
    requires sound { AreSound links.old }
    requires columns { length links.old.column_heads.items ≡ columns }
    requires row { last < length links.old.row_heads.items }
    requires kept { IsKept columns kept.now }
    requires numbers { (c : ℕ) → value_in links.old.cells.items last c ≡ get_or kept.now.cells c (pos 0) }
    ensures sound { IfOk result (λ _. AreSound links.new) }
    ensures rows { IfOk result (λ _. length links.new.row_heads.items ≡ length links.old.row_heads.items) }
    ensures same_columns { IfOk result (λ _. length links.new.column_heads.items ≡ length links.old.column_heads.items) }
    ensures empty { IfOk result (λ _. IsEmpty last links.new) }
    ensures others { IfOk result (λ _. (i c : ℕ) → i ≢ last → value_in links.new.cells.items i c ≡ value_in links.old.cells.items i c) }
{
    let form = kept.form();
    let nothing = Form::constant_of(alloc, 0);
    write_columns(links, last, form.terms.as_slice(), &nothing)?;
    Ok(())
}

// Carries the rows from a first one on, up to the last, which is empty, through a kept pivot, or
// gives the first of them in which a product or difference leaves the range.
pub(crate) fn carry_through(
    alloc: Global,
    heads: &mut Vec<RowHead>,
    links: &mut LinkedCells,
    columns: u32,
    first: u32,
    count: u32,
    kept: &LinkedPivot,
) -> Result<Option<u32>, AllocError>
    requires room { IsRoom columns (first + count) heads.old.items links.old }
    requires empty { IsEmpty (first + count) links.old }
    requires few { first + count < 2 ^ 32 }
    requires kept { IsKept columns kept.now }
    ensures done { IfOk result (λ o. IfNone o (RowsCarried columns first count kept.now heads.old.items links.old heads.new.items links.new)) }
    ensures refused { IfOk result (λ o. IfSome o (CarryRefused columns first count kept.now heads.old.items links.old)) }
{
    let last = first + count;
    place_pivot(heads, links, columns, last, kept)?;
    let column = kept.column();
    let met = list_line(alloc, Way::Columns, links, column)?;
    if let Some(at) = merge_others(heads, links, columns, &met, first, last, column)? {
        return Ok(Some(at));
    }
    clear_row(alloc, links, columns, last, kept)?;
    Ok(None)
}
