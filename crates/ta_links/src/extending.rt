//! Rows of a longer system.

ghost use Rattle.std.specs.Prelude.{◌≡◌, ◌<◌, ◌≤◌, ◌+◌, ◌-◌, ◌++◌, ◌∷◌, ◌^◌, [], ℕ, pos, length, map, take, drop, get_or, replicate, slice_index, None, IfOk, IfSome, IfNone};
ghost use Rattle.std.specs.List.{range_with_len};
ghost use Rattle.ta_dense.specs.Slack.{variables};
ghost use Rattle.ta_dense.specs.Kept.{AreKept};
ghost use Rattle.ta_dense.specs.Extending.{raised};
ghost use Rattle.ta_links.specs.Values.{value_in};
ghost use Rattle.ta_links.specs.Gaps.{AreSound};
ghost use Rattle.ta_links.specs.Linked.{no_head};
ghost use Rattle.ta_links.specs.Starting.{RowsShow, slack_heads};
ghost use Rattle.ta_links.specs.Carrying.{IsEmpty, IsRoom};
ghost use Rattle.ta_links.specs.Extending.{AllCarried, IsRefusal, raised_head};

use crate::carrying::carry_through;
use crate::cell::Cell;
use crate::kept::LinkedPivot;
use crate::linked_cells::LinkedCells;
use crate::row_head::RowHead;
use crate::starting::{push_heads, write_rows};
use std::alloc::{AllocError, Global};
use ta_dense::{padded_items, raised_variable};
use ta_linear::System;

// Copies of the heads where there are more unknowns.
fn raised_heads(
    alloc: Global,
    heads: &[RowHead],
    unknowns: u32,
    new: u32,
) -> Result<Vec<RowHead>, AllocError>
    requires { (i : ℕ) → i < length heads.now → (get_or heads.now i no_head).basic + new < 2 ^ 32 }
    ensures { IfOk result (λ v. v.items ≡ map (raised_head unknowns new) heads.now) }
{
    let mut all = Vec::with_capacity(alloc, heads.len())?;
    for head in heads {
        all.push(RowHead {
            basic: raised_variable(head.basic, unknowns, new),
            denominator: head.denominator,
            constant: head.constant,
        })?;
    }
    Ok(all)
}

// The heads of a longer system's rows, before the new ones are carried, and one for the last row.
pub(crate) fn begun_heads(
    alloc: Global,
    heads: &[RowHead],
    unknowns: u32,
    longer: &System,
) -> Result<Vec<RowHead>, AllocError>
    requires room { variables longer.now < 2 ^ 32 }
    requires rows { length heads.now ≤ length longer.now.rows }
    requires unknowns { unknowns ≤ longer.now.unknowns }
    requires basic { (i : ℕ) → i < length heads.now → (get_or heads.now i no_head).basic < unknowns + length heads.now }
    ensures { IfOk result (λ v. v.items ≡ (map (raised_head unknowns (longer.now.unknowns - unknowns)) heads.now ++ slack_heads (longer.now.unknowns + length heads.now) (drop (length heads.now) longer.now.rows)) ++ no_head ∷ []) }
{
    let mut all = raised_heads(alloc, heads, unknowns, longer.unknowns - unknowns)?;
    push_heads(&mut all, longer, heads.len() as u32)?;
    all.push(RowHead {
        basic: 0,
        denominator: 1,
        constant: 0,
    })?;
    Ok(all)
}

// A copy of the cells.
fn copied_cells(alloc: Global, cells: &[Cell]) -> Result<Vec<Cell>, AllocError>
    ensures { IfOk result (λ v. v.items ≡ cells.now) }
{
    let mut copy = Vec::with_capacity(alloc, cells.len())?;
    copy.extend_from_slice(cells)?;
    Ok(copy)
}

// A copy of the cells, with more rows and columns.
fn widened_cells(
    alloc: Global,
    links: &LinkedCells,
    rows: usize,
    columns: usize,
) -> Result<LinkedCells, AllocError>
    requires sound { AreSound links.now }
    requires rows { length links.now.row_heads.items ≤ rows }
    requires columns { length links.now.column_heads.items ≤ columns }
    ensures sound { IfOk result AreSound }
    ensures cells { IfOk result (λ l. l.cells.items ≡ links.now.cells.items) }
    ensures rows { IfOk result (λ l. length l.row_heads.items ≡ rows) }
    ensures columns { IfOk result (λ l. length l.column_heads.items ≡ columns) }
{
    let cells = copied_cells(alloc, &links.cells)?;
    let row_heads = padded_items(alloc, &links.row_heads, rows, None)?;
    let column_heads = padded_items(alloc, &links.column_heads, columns, None)?;
    Ok(LinkedCells {
        cells,
        row_heads,
        column_heads,
        free_head: links.free_head,
    })
}

// The cells of a longer system's rows, before the new ones are carried, and an empty last row.
pub(crate) fn begun_cells(
    alloc: Global,
    links: &LinkedCells,
    first: u32,
    longer: &System,
) -> Result<LinkedCells, AllocError>
    requires room { variables longer.now < 2 ^ 32 }
    requires sound { AreSound links.now }
    requires first { first ≡ length links.now.row_heads.items }
    requires rows { first ≤ length longer.now.rows }
    requires columns { length links.now.column_heads.items ≤ longer.now.unknowns }
    ensures sound { IfOk result AreSound }
    ensures rows { IfOk result (λ l. length l.row_heads.items ≡ length longer.now.rows + 1) }
    ensures columns { IfOk result (λ l. length l.column_heads.items ≡ longer.now.unknowns) }
    ensures shows { IfOk result (λ l. RowsShow first (value_in links.now.cells.items) longer.now.rows (length longer.now.rows) (value_in l.cells.items)) }
{
    let rows = longer.rows.as_slice().len() + 1;
    let mut all = widened_cells(alloc, links, rows, longer.unknowns as usize)?;
    write_rows(&mut all, longer, first)?;
    Ok(all)
}

/// Where carrying rows leaves the range: the number of the pivot, and the row's.
#[derive(Drop)]
pub(crate) struct Refusal {
    pub(crate) pivot: usize,
    pub(crate) row: u32,
}

// Carries the rows from a first one on, up to the last, which is empty, through the pivots, one
// after another, or gives the first pivot, and in it the first row, that is refused.
pub(crate) fn carry_rows(
    alloc: Global,
    heads: &mut Vec<RowHead>,
    links: &mut LinkedCells,
    columns: u32,
    first: u32,
    count: u32,
    kept: &[LinkedPivot],
) -> Result<Option<Refusal>, AllocError>
    requires room { IsRoom columns (first + count) heads.old.items links.old }
    requires empty { IsEmpty (first + count) links.old }
    requires few { first + count < 2 ^ 32 }
    requires kept { AreKept columns kept.now }
    ensures done { IfOk result (λ o. IfNone o (AllCarried columns first count kept.now (length kept.now) heads.old.items links.old heads.new.items links.new)) }
    ensures below { IfOk result (λ o. IfSome o (λ r. r.pivot < length kept.now)) }
    ensures refused { IfOk result (λ o. IfSome o (λ r. IsRefusal columns first count kept.now heads.old.items links.old r.pivot r.row)) }
{
    for pivot in 0..kept.len() {
        let chosen = &kept[pivot];
        if let Some(row) = carry_through(alloc, heads, links, columns, first, count, chosen)? {
            return Ok(Some(Refusal { pivot, row }));
        }
    }
    Ok(None)
}

// Drops the last row, which is empty.
pub(crate) fn drop_last(heads: &mut Vec<RowHead>, links: &mut LinkedCells, columns: u32, last: u32)
    requires room { IsRoom columns last heads.old.items links.old }
    requires empty { IsEmpty last links.old }
    ensures sound { AreSound links.new }
    ensures heads { heads.new.items ≡ take last heads.old.items }
    ensures cells { links.new.cells.items ≡ links.old.cells.items }
    ensures rows { length links.new.row_heads.items ≡ last }
    ensures columns { links.new.column_heads.items ≡ links.old.column_heads.items }
{
    heads.truncate(last as usize);
    links.row_heads.truncate(last as usize);
}
