//! The dictionary of a longer system from that of a shorter one.
//!
//! A child's system begins with its parent's rows, in which the new unknowns have coefficient 0. So
//! the old rows get cells of 0 for the new columns, the numbers of the old slacks rise by the
//! number of new unknowns, and the new rows are carried through the kept pivots one after the
//! other. That is the dictionary to which the same pivots lead from the longer system's slacks, and
//! a number leaves the range at the pivot and row at which it does there.
//!
//! Cost: new rows times kept pivots times columns, in place of all rows.

ghost use Rattle.std.specs.Prelude.{◌≡◌, ◌<◌, ◌≤◌, ◌+◌, ◌-◌, ◌^◌, ◌++◌, ℕ, pos, length, map, drop, get_or, replicate, slice_index, IfOk, IfNone, IfSome};
ghost use Rattle.std.specs.List.{range_with_len};
ghost use Rattle.ta_dense.specs.Tableau.{no_row};
ghost use Rattle.ta_dense.specs.Slack.{slack_rows, variables};
ghost use Rattle.ta_dense.specs.Merge.{FirstRefused};
ghost use Rattle.ta_dense.specs.Rows.{row_view, views, AreProper};
ghost use Rattle.ta_dense.specs.Kept.{AreKept, StayInRange, carried, chosen_row, kept_at};
ghost use Rattle.ta_dense.specs.Extending.{raised, widened};
ghost use Rattle.ta_dense.specs.Inside.Padded.{padded};

use crate::dense::slack_row;
use crate::kept::DensePivot;
use crate::rows::{DenseRow, merge_all};
use std::alloc::{AllocError, Global};
use ta_linear::System;

// The system's rows from a number on, each solved for its slack.
pub(crate) fn new_slack_rows(
    alloc: Global,
    system: &System,
    first: u32,
) -> Result<Vec<DenseRow>, AllocError>
    requires room { variables system.now < 2 ^ 32 }
    requires first { first ≤ length system.now.rows }
    ensures value { IfOk result (λ v. views v.items ≡ slack_rows system.now.unknowns (system.now.unknowns + first) (drop first system.now.rows)) }
    ensures proper { IfOk result (λ v. AreProper system.now.unknowns v.items) }
    ensures long { IfOk result (λ v. length v.items + first ≡ length system.now.rows) }
{
    let (_, list) = system.rows.as_slice().split_at(first as usize);
    let mut rows = Vec::with_capacity(alloc, list.len())?;
    let mut slack = system.unknowns + first;
    for row in list {
        rows.push(slack_row(alloc, row, system.unknowns, slack)?)?;
        slack += 1;
    }
    Ok(rows)
}

/// A copy of the items, with more of one kind up to a number of them.
pub fn padded_items<T: Copy>(
    alloc: Global,
    items: &[T],
    count: usize,
    more: T,
) -> Result<Vec<T>, AllocError>
    requires { length items.now ≤ count }
    ensures { IfOk result (λ v. v.items ≡ items.now ++ replicate (count - length items.now) more) }
{
    let mut all = Vec::with_capacity(alloc, count)?;
    all.extend_from_slice(items)?;
    all.resize(count, more)?;
    Ok(all)
}

// A copy of the row for a variable, with zeros up to a number of columns.
pub(crate) fn padded_row(
    alloc: Global,
    row: &DenseRow,
    basic: u32,
    columns: usize,
) -> Result<DenseRow, AllocError>
    requires { length row.now.cells.items ≤ columns }
    ensures { IfOk result (λ r. row_view r ≡ padded basic columns (row_view row.now)) }
{
    Ok(DenseRow {
        basic,
        denominator: row.denominator,
        constant: row.constant,
        cells: padded_items(alloc, &row.cells, columns, 0)?,
    })
}

/// A variable's number where there are more unknowns.
pub fn raised_variable(variable: u32, unknowns: u32, new: u32) -> u32
    requires { variable + new < 2 ^ 32 }
    ensures { result ≡ raised unknowns new variable }
{
    if variable < unknowns {
        variable
    } else {
        variable + new
    }
}

// The unknowns, up to a number, as the non-basic variables.
pub(crate) fn first_columns(alloc: Global, unknowns: u32) -> Result<Vec<u32>, AllocError>
    ensures { IfOk result (λ v. v.items ≡ range_with_len 0 unknowns) }
{
    let mut columns = Vec::with_capacity(alloc, unknowns as usize)?;
    for unknown in 0..unknowns {
        columns.push(unknown)?;
    }
    Ok(columns)
}

/// The non-basic variables where there are more unknowns, and then these.
pub fn raised_columns(
    alloc: Global,
    non_basic: &[u32],
    unknowns: u32,
    new: u32,
) -> Result<Vec<u32>, AllocError>
    requires room { (j : ℕ) → j < length non_basic.now → slice_index non_basic.now j + new < 2 ^ 32 }
    requires few { unknowns + new < 2 ^ 32 }
    ensures { IfOk result (λ v. v.items ≡ map (raised unknowns new) non_basic.now ++ range_with_len unknowns new) }
{
    let mut columns = raised_old(alloc, non_basic, unknowns, new)?;
    for unknown in 0..new {
        columns.push(unknowns + unknown)?;
    }
    Ok(columns)
}

// The non-basic variables where there are more unknowns.
fn raised_old(
    alloc: Global,
    non_basic: &[u32],
    unknowns: u32,
    new: u32,
) -> Result<Vec<u32>, AllocError>
    requires { (j : ℕ) → j < length non_basic.now → slice_index non_basic.now j + new < 2 ^ 32 }
    ensures { IfOk result (λ v. v.items ≡ map (raised unknowns new) non_basic.now) }
{
    let mut columns = Vec::with_capacity(alloc, non_basic.len() + new as usize)?;
    for variable in non_basic {
        columns.push(raised_variable(*variable, unknowns, new))?;
    }
    Ok(columns)
}

// Copies of the rows where there are more unknowns.
pub(crate) fn widened_rows(
    alloc: Global,
    rows: &[DenseRow],
    unknowns: u32,
    new: u32,
) -> Result<Vec<DenseRow>, AllocError>
    requires proper { AreProper unknowns rows.now }
    requires room { (i : ℕ) → i < length rows.now → (get_or (views rows.now) i no_row).basic + new < 2 ^ 32 }
    requires few { unknowns + new < 2 ^ 32 }
    ensures value { IfOk result (λ v. views v.items ≡ map (widened unknowns new) (views rows.now)) }
    ensures proper { IfOk result (λ v. AreProper (unknowns + new) v.items) }
{
    let mut wide = Vec::with_capacity(alloc, rows.len())?;
    for row in rows {
        let basic = raised_variable(row.basic, unknowns, new);
        wide.push(padded_row(alloc, row, basic, (unknowns + new) as usize)?)?;
    }
    Ok(wide)
}

/// Where carrying rows leaves the range: the number of the pivot, and the row's among those that
/// are carried.
#[derive(Drop)]
pub(crate) struct Refusal {
    pub(crate) pivot: usize,
    pub(crate) row: usize,
}

// Carries the rows through the pivots, one after another, or gives the first pivot, and in it the
// first row, that is refused.
pub(crate) fn carry_rows(
    alloc: Global,
    rows: &mut [DenseRow],
    columns: u32,
    kept: &[DensePivot],
) -> Result<Option<Refusal>, AllocError>
    requires proper { AreProper columns rows.old }
    requires kept { AreKept columns kept.now }
    ensures value { IfOk result (λ o. IfNone o (views rows.new ≡ carried columns kept.now (length kept.now) (views rows.old))) }
    ensures proper { IfOk result (λ o. IfNone o (AreProper columns rows.new)) }
    ensures in_range { IfOk result (λ o. IfNone o (StayInRange columns kept.now (length kept.now) (views rows.old))) }
    ensures below { IfOk result (λ o. IfSome o (λ p. p.pivot < length kept.now)) }
    ensures before { IfOk result (λ o. IfSome o (λ p. StayInRange columns kept.now p.pivot (views rows.old))) }
    ensures refused { IfOk result (λ o. IfSome o (λ p. FirstRefused (kept_at kept.now p.pivot).column (chosen_row columns (kept_at kept.now p.pivot)) (carried columns kept.now p.pivot (views rows.old)) p.row)) }
{
    for pivot in 0..kept.len() {
        let chosen = kept[pivot].padded(alloc, columns)?;
        if let Some(row) = merge_all(rows, &chosen, kept[pivot].column() as usize) {
            return Ok(Some(Refusal { pivot, row }));
        }
    }
    Ok(None)
}
