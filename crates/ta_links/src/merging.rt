//! A row that is merged with the chosen one, place by place.
//!
//! Two cursors move along the chains of both rows. A first pass over the places computes the
//! greatest common divisor of the merged numbers and tests their range; a second one computes them
//! again and writes them, divided. So nothing is written where a number leaves the range.

ghost use Rattle.std.specs.Prelude.{◌≡◌, ◌≢◌, ◌<◌, ◌≤◌, ◌+◌, ◌^◌, ℕ, pos, ◌<ℤ◌, int_div, length, IfOk, IfSome, IfNone};
ghost use Rattle.ta_linear.specs.Numbers.{InRange};
ghost use Rattle.ta_links.specs.Chains.{along_rows};
ghost use Rattle.ta_links.specs.Values.{value_in, filled_places};
ghost use Rattle.ta_links.specs.Gaps.{AreSound, IsSought, MayBefore};
ghost use Rattle.ta_links.specs.Merging.{merged_cell, MergesAt, RefusedAt, gcd_below};

use crate::linked_cells::LinkedCells;
use crate::putting::put;
use crate::reading::number_behind;
use crate::seeking::seek_in_row;
use std::alloc::AllocError;
use ta_dense::combined;
use ta_linear::gcd_natural;

/// How a row is merged with the chosen one: `p` times its numbers less `q` times those of the chosen row.
#[derive(Clone, Copy)]
pub(crate) struct Merge {
    /// The chosen row.
    pub row: u32,
    /// The row that is merged with it.
    pub at: u32,
    /// The factor of the row that is merged.
    pub p: i128,
    /// The factor of the chosen row.
    pub q: i128,
    /// The column of the variable that enters.
    pub column: u32,
    /// The number that this column gets.
    pub turned: i128,
}

/// The last cells before a place in the row that is merged and in the chosen one.
#[derive(Clone, Copy)]
struct Cursors {
    /// That of the row that is merged.
    at: Option<usize>,
    /// That of the chosen row.
    chosen: Option<usize>,
}

// Moves the cursors on to a place.
fn moved(links: &LinkedCells, row: u32, at: u32, cursors: Cursors, place: u32) -> Cursors
    requires sound { AreSound links.now }
    requires row { row < length links.now.row_heads.items }
    requires at { at < length links.now.row_heads.items }
    requires before_at { MayBefore along_rows links.now.cells.items at place cursors.at }
    requires before_chosen { MayBefore along_rows links.now.cells.items row place cursors.chosen }
    ensures at { IsSought along_rows links.now.cells.items links.now.row_heads.items at place result.at }
    ensures chosen { IsSought along_rows links.now.cells.items links.now.row_heads.items row place result.chosen }
{
    Cursors {
        at: seek_in_row(links, at, place, cursors.at),
        chosen: seek_in_row(links, row, place, cursors.chosen),
    }
}

// The number at a place of row `at`, merged with `row`, where it is in range.
fn merged_number(links: &LinkedCells, merge: Merge, cursors: Cursors, place: u32) -> Option<i128>
    requires sound { AreSound links.now }
    requires row { merge.row < length links.now.row_heads.items }
    requires at { merge.at < length links.now.row_heads.items }
    requires turned { InRange merge.turned }
    requires sought_at { IsSought along_rows links.now.cells.items links.now.row_heads.items merge.at place cursors.at }
    requires sought_chosen { IsSought along_rows links.now.cells.items links.now.row_heads.items merge.row place cursors.chosen }
    ensures value { IfSome result (λ z. z
        ≡ merged_cell merge.p merge.q merge.column merge.turned (value_in links.now.cells.items merge.at) (value_in links.now.cells.items merge.row) place) }
    ensures fits { IfSome result InRange }
    ensures within { IfSome result
        (λ _. MergesAt merge.p merge.q merge.column (value_in links.now.cells.items merge.at) (value_in links.now.cells.items merge.row) place) }
    ensures refused { IfNone result
        (¬ (MergesAt merge.p merge.q merge.column (value_in links.now.cells.items merge.at) (value_in links.now.cells.items merge.row) place)) }
{
    if place == merge.column {
        return Some(merge.turned);
    }
    let number_at = number_behind(links, merge.at, place, cursors.at);
    let chosen_at = number_behind(links, merge.row, place, cursors.chosen);
    combined(merge.p, number_at, merge.q, chosen_at)
}

// A number divided by a positive one.
pub(crate) fn quotient(number: i128, divisor: i128) -> i128
    requires divisor { pos 0 <ℤ divisor }
    requires number { InRange number }
    ensures value { result ≡ int_div number divisor }
    ensures fits { InRange result }
{
    number / divisor
}

// The greatest common divisor of a number and the merged numbers, where all are in range.
pub(crate) fn divisor_of_merged(
    links: &LinkedCells,
    columns: u32,
    merge: Merge,
    first: u128,
) -> Option<u128>
    requires sound { AreSound links.now }
    requires row { merge.row < length links.now.row_heads.items }
    requires at { merge.at < length links.now.row_heads.items }
    requires turned { InRange merge.turned }
    requires first { first < 2 ^ 127 }
    ensures value { IfSome result (λ d. d ≡ gcd_below first
        (merged_cell merge.p merge.q merge.column merge.turned (value_in links.now.cells.items merge.at) (value_in links.now.cells.items merge.row)) columns) }
    ensures bound { IfSome result (λ d. d < 2 ^ 127) }
    ensures within { IfSome result (λ _. (j : ℕ) → j < columns
        → MergesAt merge.p merge.q merge.column (value_in links.now.cells.items merge.at) (value_in links.now.cells.items merge.row) j) }
    ensures refused { IfNone result
        (RefusedAt merge.p merge.q merge.column (value_in links.now.cells.items merge.at) (value_in links.now.cells.items merge.row) columns) }
{
    let mut divisor = first;
    let mut cursors = Cursors {
        at: None,
        chosen: None,
    };
    for place in 0..columns {
        cursors = moved(links, merge.row, merge.at, cursors, place);
        let Some(cell) = merged_number(links, merge, cursors, place) else {
            return None;
        };
        divisor = gcd_natural(divisor, cell.unsigned_abs());
    }
    Some(divisor)
}

// Writes the merged numbers of row `at`, each divided.
pub(crate) fn write_merged(
    links: &mut LinkedCells,
    columns: u32,
    merge: Merge,
    divisor: i128,
) -> Result<(), AllocError>
    requires sound { AreSound links.old }
    requires columns { columns ≡ length links.old.column_heads.items }
    requires row { merge.row < length links.old.row_heads.items }
    requires at { merge.at < length links.old.row_heads.items }
    requires turned { InRange merge.turned }
    requires divisor { pos 0 <ℤ divisor }
    requires within { (j : ℕ) → j < columns
        → MergesAt merge.p merge.q merge.column (value_in links.old.cells.items merge.at) (value_in links.old.cells.items merge.row) j }
    ensures sound { IfOk result (λ _. AreSound links.new) }
    ensures rows { IfOk result (λ _. length links.new.row_heads.items ≡ length links.old.row_heads.items) }
    ensures same_columns { IfOk result (λ _. length links.new.column_heads.items ≡ length links.old.column_heads.items) }
    ensures others { IfOk result (λ _. (r c : ℕ) → r ≢ merge.at → value_in links.new.cells.items r c ≡ value_in links.old.cells.items r c) }
    ensures values { IfOk result (λ _. (j : ℕ) → j < columns → value_in links.new.cells.items merge.at j
        ≡ int_div (merged_cell merge.p merge.q merge.column merge.turned (value_in links.old.cells.items merge.at)
        (value_in links.old.cells.items merge.row) j) divisor) }
    ensures held { IfOk result (λ _. length links.new.cells.items ≤ length links.old.cells.items
        + filled_places columns (value_in links.old.cells.items merge.at) (value_in links.new.cells.items merge.at)) }
{
    let mut cursors = Cursors {
        at: None,
        chosen: None,
    };
    for place in 0..columns {
        cursors = moved(links, merge.row, merge.at, cursors, place);
        let Some(cell) = merged_number(links, merge, cursors, place) else {
            return Ok(());
        };
        let left = put(links, cursors.at, merge.at, place, quotient(cell, divisor))?;
        cursors.at = left;
    }
    Ok(())
}
