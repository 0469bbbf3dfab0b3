//! A row of a dense dictionary, and what a pivot makes of it.
//!
//! Where the entering variable has coefficient a in a row and c in the chosen row, with greatest
//! common divisor g, the new row is c/g times the row minus a/g times the chosen row, in lowest
//! terms. Each product and difference is tested for its range; the first row in which one fails is
//! the answer. A row with a = 0 stays as it is.

ghost use Rattle.std.specs.Prelude.{◌≡◌, ◌<◌, ◌^◌, pos, ◌<ℤ◌, unsigned_abs, int_div, length, map, All, IsTrue, IfSome, IfNone, ◌↔◌};
ghost use Rattle.std.specs.Bool.{OnTrue};
ghost use Rattle.ta_linear.specs.Numbers.{InRange};
ghost use Rattle.ta_dense.specs.Tableau.{merged_by, divided, divisor_of, reduced, merged, turned, pivoted_rows, cell_of, factor_divisor};
ghost use Rattle.ta_dense.specs.Merge.{MergesByInRange, MergesInRange, IsProper, RowsMergeBelow, FirstRefused, OthersMergeBelow, FirstOtherRefused};
ghost use Rattle.ta_dense.specs.Rows.{row_view, views, view_at, columns_of, AreProper};

use crate::cells::{combine_cells, combined, divide_cells, gcd_of_cells, negate_cells};
use ta_linear::{gcd, gcd_natural, multiply};

/// The row `denominator * basic = constant + sum of cells * non-basic`.
#[derive(Drop)]
pub(crate) struct DenseRow {
    pub(crate) basic: u32,
    pub(crate) denominator: i128,
    pub(crate) constant: i128,
    pub(crate) cells: Vec<i128>,
}

// `p` times the row minus `q` times the chosen row. A row that is refused is of no use.
fn merge_by(p: i128, q: i128, column: usize, chosen: &DenseRow, row: &mut DenseRow) -> bool
    requires long { length row.old.cells.items ≡ length chosen.now.cells.items }
    requires constant { InRange row.old.constant }
    requires cells { All InRange row.old.cells.items }
    ensures within { IsTrue result ↔ MergesByInRange p q column (row_view chosen.now) (row_view row.old) }
    ensures value { OnTrue result (row_view row.new ≡ merged_by p q column (row_view chosen.now) (row_view row.old)) }
{
    let Some(denominator) = multiply(p, row.denominator) else {
        return false;
    };
    let Some(constant) = combined(p, row.constant, q, chosen.constant) else {
        return false;
    };
    let Some(turned) = multiply(q, chosen.denominator) else {
        return false;
    };
    row.denominator = denominator;
    row.constant = constant;
    combine_cells(p, q, &mut row.cells, &chosen.cells, column, turned)
}

// The greatest common divisor of the row's numbers.
fn divisor_of_row(row: &DenseRow) -> u128
    requires { IsProper (length row.now.cells.items) (row_view row.now) }
    ensures value { result ≡ divisor_of (row_view row.now) }
    ensures positive { 0 < result }
    ensures bound { result < 2 ^ 127 }
{
    if row.denominator == 1 {
        return 1;
    }
    let first = gcd_natural(row.denominator.unsigned_abs(), row.constant.unsigned_abs());
    gcd_of_cells(first, &row.cells)
}

// Divides each number of the row.
fn divide_row(row: &mut DenseRow, divisor: i128)
    requires { pos 0 <ℤ divisor }
    ensures { row_view row.new ≡ divided (unsigned_abs divisor) (row_view row.old) }
{
    row.denominator = row.denominator / divisor;
    row.constant = row.constant / divisor;
    divide_cells(&mut row.cells, divisor);
}

// Divides the row by the greatest common divisor of its numbers.
fn reduce(row: &mut DenseRow)
    requires { IsProper (length row.old.cells.items) (row_view row.old) }
    ensures { row_view row.new ≡ reduced (row_view row.old) }
{
    let divisor = divisor_of_row(row);
    if divisor > 1 {
        divide_row(row, divisor as i128);
    }
}

/// The two factors of a merge: the chosen row's cell and the other row's, each divided by the greatest
/// common divisor of both.
pub fn factors(c: i128, a: i128) -> (i128, i128)
    requires c_in_range { InRange c }
    requires a_in_range { InRange a }
    requires c_positive { pos 0 <ℤ c }
    ensures first { result.0 ≡ int_div c (pos (factor_divisor c a)) }
    ensures second { result.1 ≡ int_div a (pos (factor_divisor c a)) }
    ensures positive { pos 0 <ℤ result.0 }
{
    let divisor = gcd(c, a);
    (c / divisor, a / divisor)
}

// Takes the entering variable out of a row. A row that is refused is of no use.
pub(crate) fn merge(chosen: &DenseRow, column: usize, row: &mut DenseRow) -> bool
    requires chosen { IsProper (length chosen.now.cells.items) (row_view chosen.now) }
    requires row { IsProper (length chosen.now.cells.items) (row_view row.old) }
    requires column { column < length chosen.now.cells.items }
    requires positive { pos 0 <ℤ cell_of (row_view chosen.now) column }
    ensures within { IsTrue result ↔ MergesInRange column (row_view chosen.now) (row_view row.old) }
    ensures value { OnTrue result (row_view row.new ≡ merged column (row_view chosen.now) (row_view row.old)) }
    ensures proper { OnTrue result (IsProper (length chosen.now.cells.items) (row_view row.new)) }
{
    let a = row.cells[column];
    if a == 0 {
        return true;
    }
    let (p, q) = factors(chosen.cells[column], a);
    if !merge_by(p, q, column, chosen, row) {
        return false;
    }
    reduce(row);
    true
}

// Merges the chosen row into each of the rows, up to the first that is refused.
pub(crate) fn merge_all(rows: &mut [DenseRow], chosen: &DenseRow, column: usize) -> Option<usize>
    requires chosen { IsProper (length chosen.now.cells.items) (row_view chosen.now) }
    requires rows { AreProper (length chosen.now.cells.items) rows.old }
    requires column { column < length chosen.now.cells.items }
    requires positive { pos 0 <ℤ cell_of (row_view chosen.now) column }
    ensures value { IfNone result (views rows.new ≡ map (merged column (row_view chosen.now)) (views rows.old)) }
    ensures in_range { IfNone result (RowsMergeBelow column (row_view chosen.now) (views rows.old) (length rows.old)) }
    ensures proper { IfNone result (AreProper (length chosen.now.cells.items) rows.new) }
    ensures refused { IfSome result (FirstRefused column (row_view chosen.now) (views rows.old)) }
{
    for at in 0..rows.len() {
        if !merge(chosen, column, &mut rows[at]) {
            return Some(at);
        }
    }
    None
}

// Solves the row for the entering variable.
pub(crate) fn turn(row: &mut DenseRow, column: usize, entering: u32)
    requires proper { IsProper (length row.old.cells.items) (row_view row.old) }
    requires column { column < length row.old.cells.items }
    requires positive { pos 0 <ℤ cell_of (row_view row.old) column }
    ensures value { row_view row.new ≡ turned entering column (row_view row.old) }
{
    let denominator = row.cells[column];
    negate_cells(&mut row.cells);
    row.cells[column] = row.denominator;
    row.denominator = denominator;
    row.constant = -row.constant;
    row.basic = entering;
}

// Merges the row into the others and turns it, or gives the first row that is refused.
pub(crate) fn pivot_rows(
    rows: &mut [DenseRow],
    row: usize,
    column: usize,
    entering: u32,
) -> Option<usize>
    requires row { row < length rows.old }
    requires proper { AreProper (columns_of rows.old row) rows.old }
    requires column { column < columns_of rows.old row }
    requires positive { pos 0 <ℤ cell_of (view_at rows.old row) column }
    ensures value { IfNone result (views rows.new ≡ pivoted_rows (views rows.old) row column entering) }
    ensures in_range { IfNone result (OthersMergeBelow row column (view_at rows.old row) (views rows.old) (length rows.old)) }
    ensures refused { IfSome result (FirstOtherRefused row column (view_at rows.old row) (views rows.old)) }
{
    let (before, rest) = rows.split_at_mut(row);
    let Some((chosen, after)) = rest.split_first_mut() else {
        return None;
    };
    if let Some(at) = merge_all(before, chosen, column) {
        return Some(at);
    }
    if let Some(at) = merge_all(after, chosen, column) {
        return Some(row + 1 + at);
    }
    turn(chosen, column, entering);
    None
}
