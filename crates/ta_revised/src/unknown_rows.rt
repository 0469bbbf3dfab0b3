//! The rows of the unknowns, and what a pivot makes of them.
#![tactic(auto)]

ghost use Rattle.std.specs.Prelude.{◌≡◌, ◌<◌, ◌^◌, ◌++◌, ◌∷◌, [], ◌⊎◌, pos, ◌<ℤ◌, length, IfOk, IfSome};
ghost use Rattle.std.specs.Bool.{OnTrue};
ghost use Rattle.ta_dense.specs.Tableau.{cell_of, turned};
ghost use Rattle.ta_revised.specs.Narrow.{narrow_view, IsNarrow};
ghost use Rattle.ta_revised.specs.UnknownRows.{AreAfter, AreUnknownRows, IsAfter, IsColumn, IsUnknownRow, ListsBasic, unknown_row, unknown_rows};

use crate::narrow_rows::{NarrowRow, merge_narrow, turn_narrow};
use std::alloc::{AllocError, Global};

/// The row of an unknown.
#[derive(Drop)]
pub(crate) enum UnknownRow {
    /// The unknown belongs to a column: its row is 1 there.
    Column { unknown: u32, column: u32 },
    /// The row of a basic unknown.
    Basic(NarrowRow),
}

/// So many of the row's first cells are stored, or have to be.
pub(crate) fn stored_of(row: &UnknownRow) -> usize {
    match row {
        UnknownRow::Column { column, .. } => *column as usize + 1,
        UnknownRow::Basic(basic) => basic.cells.stored(),
    }
}

// Adds an unknown to a list, unless it belongs to a column.
fn list_basic(list: &mut Vec<u32>, unknown: u32, row: &UnknownRow) -> Result<(), AllocError>
    ensures { IfOk result (λ done. ((list.new.items ≡ list.old.items) × IsColumn row.now) ⊎ (list.new.items ≡ list.old.items ++ unknown ∷ [])) }
{
    if let UnknownRow::Basic(_) = row {
        list.push(unknown)?;
    }
    Ok(())
}

/// The unknowns that don't belong to columns.
pub(crate) fn basic_unknowns(alloc: Global, rows: &[UnknownRow]) -> Result<Vec<u32>, AllocError>
    requires { length rows.now < 2 ^ 32 }
    ensures { IfOk result (λ v. ListsBasic v.items rows.now) }
{
    let mut list = Vec::with_capacity(alloc, rows.len())?;
    for at in 0..rows.len() {
        list_basic(&mut list, at as u32, &rows[at])?;
    }
    Ok(list)
}

/// The row for a variable again. It shares the row's cells.
pub(crate) fn copied(row: &NarrowRow) -> Result<NarrowRow, AllocError>
    ensures value { IfOk result (λ r. narrow_view r ≡ narrow_view row.now) }
    ensures bound { IfOk result (λ r. r.bound ≡ row.now.bound) }
{
    Ok(NarrowRow {
        basic: row.basic,
        denominator: row.denominator,
        constant: row.constant,
        cells: row.cells.shared()?,
        bound: row.bound,
    })
}

// The chosen row, solved for the unknown that enters.
fn turned_row(
    alloc: Global,
    chosen: &NarrowRow,
    column: usize,
    unknown: u32,
) -> Result<UnknownRow, AllocError>
    requires chosen { IsNarrow (length chosen.now.cells) chosen.now }
    requires column { column < length chosen.now.cells }
    requires positive { pos 0 <ℤ cell_of (narrow_view chosen.now) column }
    ensures value { IfOk result (λ r. unknown_row (length chosen.now.cells) r ≡ turned unknown column (narrow_view chosen.now)) }
    ensures row { IfOk result (λ r. IsUnknownRow (length chosen.now.cells) r) }
{
    let mut row = copied(chosen)?;
    turn_narrow(alloc, &mut row, column, unknown)?;
    Ok(UnknownRow::Basic(row))
}

// Takes the variable that enters out of a row, where bounds show that 16 bits suffice. The unknown
// that enters gets the chosen row, and the one that leaves gets the column.
fn merge_row(
    alloc: Global,
    chosen: &NarrowRow,
    column: u32,
    row: &mut UnknownRow,
) -> Result<bool, AllocError>
    requires chosen { IsNarrow (length chosen.now.cells) chosen.now }
    requires row { IsUnknownRow (length chosen.now.cells) row.old }
    requires column { column < length chosen.now.cells }
    requires positive { pos 0 <ℤ cell_of (narrow_view chosen.now) column }
    ensures after { IfOk result (λ done. OnTrue done (IsAfter (length chosen.now.cells) column (narrow_view chosen.now)
        (unknown_row (length chosen.now.cells) row.old) (unknown_row (length chosen.now.cells) row.new))) }
    ensures row { IfOk result (λ done. OnTrue done (IsUnknownRow (length chosen.now.cells) row.new)) }
{
    let next = match row {
        UnknownRow::Column {
            unknown,
            column: own,
        } => {
            if *own != column {
                return Ok(true);
            }
            turned_row(alloc, chosen, column as usize, *unknown)?
        }
        UnknownRow::Basic(basic) => {
            if basic.basic != chosen.basic {
                return merge_narrow(alloc, chosen, column as usize, basic);
            }
            UnknownRow::Column {
                unknown: chosen.basic,
                column,
            }
        }
    };
    *row = next;
    Ok(true)
}

// Takes the variable that enters out of each row, where bounds show that 16 bits suffice. It lists
// the unknowns that don't belong to columns then.
pub(crate) fn merge_rows(
    alloc: Global,
    rows: &mut [UnknownRow],
    chosen: &NarrowRow,
    column: u32,
) -> Result<Option<Vec<u32>>, AllocError>
    requires room { length rows.old < 2 ^ 32 }
    requires chosen { IsNarrow (length chosen.now.cells) chosen.now }
    requires rows { AreUnknownRows (length chosen.now.cells) rows.old }
    requires column { column < length chosen.now.cells }
    requires positive { pos 0 <ℤ cell_of (narrow_view chosen.now) column }
    ensures after { IfOk result (λ o. IfSome o (λ v. AreAfter (length chosen.now.cells) column (narrow_view chosen.now)
        (unknown_rows (length chosen.now.cells) rows.old) (unknown_rows (length chosen.now.cells) rows.new))) }
    ensures rows { IfOk result (λ o. IfSome o (λ v. AreUnknownRows (length chosen.now.cells) rows.new)) }
    ensures basic { IfOk result (λ o. IfSome o (λ v. ListsBasic v.items rows.new)) }
{
    let mut basic = Vec::with_capacity(alloc, rows.len())?;
    for at in 0..rows.len() {
        if !merge_row(alloc, chosen, column, &mut rows[at])? {
            return Ok(None);
        }
        list_basic(&mut basic, at as u32, &rows[at])?;
    }
    Ok(Some(basic))
}
