//! The row of a slack, from its system's row and the rows of the unknowns.
//!
//! The scale times a system's row is a whole sum of the unknowns' rows: an unknown's row says
//! `d*x = b + sum of c*y` with a d that divides the scale, so the scale times x is so many times
//! that row. In lowest terms the sum is the slack's row in the dictionary.
#![tactic(auto)]

ghost use Rattle.std.specs.Prelude.{◌≡◌, ◌<◌, ◌≤◌, ◌+◌, ◌*◌, ◌^◌, ◌*ℤ◌, ℕ, pos, length, unsigned_abs, IfOk, IfSome};
ghost use Rattle.std.specs.Bool.{OnTrue};
ghost use Rattle.ta_linear.specs.Terms.{IsNormal};
ghost use Rattle.ta_revised.specs.Bounds.{IsBound};
ghost use Rattle.ta_revised.specs.Narrow.{narrow_view, IsNarrow};
ghost use Rattle.ta_revised.specs.Scale.{IsScale};
ghost use Rattle.ta_revised.specs.Slack.{factor_of, plus_cell, plus_row, plus_terms, scaled_constant, slack_row_over};
ghost use Rattle.ta_revised.specs.UnknownRows.{AreUnknownRows, IsUnknownRow, unknown_row, unknown_rows};

use crate::narrow_rows::{NarrowRow, least_bound, reduce_narrow, tighten};
use crate::row_cells::RowCells;
use crate::unknown_rows::{UnknownRow, stored_of};
use std::alloc::{AllocError, Global};
use ta_linear::Row;

/// Absolute values are below this.
const LIMIT: u32 = 1 << 15;

// The scale times a number of 128 bits, where it fits 16 bits.
fn scaled(number: i128, scale: u32) -> Option<i16>
    requires { scale < 2 ^ 15 }
    ensures value { IfSome result (λ z. z ≡ pos scale *ℤ number) }
    ensures small { IfSome result (λ z. unsigned_abs z < 2 ^ 15) }
{
    if number.unsigned_abs() >= LIMIT as u128 {
        return None;
    }
    let product = scale as i32 * number as i32;
    if product.unsigned_abs() >= LIMIT {
        return None;
    }
    Some(product as i16)
}

// So many cells of the terms' unknowns are stored at most.
fn most_stored(rows: &[UnknownRow], terms: &[(u32, i128)]) -> usize
    requires { IsNormal 0 (length rows.now) terms.now }
{
    let mut most = 0;
    for &(unknown, _) in terms {
        most = most.max(stored_of(&rows[unknown as usize]));
    }
    most
}

// The scale times a constant, as the row of a slack, where it fits 16 bits. So many of its cells are
// stored at once.
fn first_sum(
    alloc: Global,
    constant: i128,
    stored: usize,
    columns: usize,
    slack: u32,
    scale: u32,
) -> Result<Option<NarrowRow>, AllocError>
    requires positive { 0 < scale }
    requires few { scale < 2 ^ 15 }
    ensures value { IfOk result (λ o. IfSome o (λ r. narrow_view r ≡ scaled_constant scale columns slack constant)) }
    ensures narrow { IfOk result (λ o. IfSome o (λ r. IsNarrow columns r)) }
{
    let Some(constant) = scaled(constant, scale) else {
        return Ok(None);
    };
    Ok(Some(NarrowRow {
        basic: slack,
        denominator: scale as i16,
        constant,
        cells: RowCells::zeros(alloc, stored, columns)?,
        bound: (scale as u16).max(constant.unsigned_abs()),
    }))
}

// Whether bounds show that so much fits 16 bits beside the sum's numbers. Where the sum's bound
// doesn't, it is taken anew.
fn has_room(sum: &mut NarrowRow, more: u32) -> bool
    requires sum { IsNarrow (length sum.old.cells) sum.old }
    requires more { more < 2 ^ 31 }
    ensures view { narrow_view sum.new ≡ narrow_view sum.old }
    ensures narrow { IsNarrow (length sum.old.cells) sum.new }
    ensures room { OnTrue result (sum.new.bound + more < 2 ^ 15) }
{
    if sum.bound as u32 + more < LIMIT {
        return true;
    }
    tighten(sum);
    sum.bound as u32 + more < LIMIT
}

// A bound of the row's numbers, so many times of which fits 16 bits beside the sum's numbers.
fn bound_beside(sum: &mut NarrowRow, times: u16, row: &NarrowRow) -> Option<u16>
    requires sum { IsNarrow (length sum.old.cells) sum.old }
    requires row { IsNarrow (length row.now.cells) row.now }
    requires times { times < 2 ^ 15 }
    ensures view { narrow_view sum.new ≡ narrow_view sum.old }
    ensures narrow { IsNarrow (length sum.old.cells) sum.new }
    ensures bound { IfSome result (λ b. IsBound b (narrow_view row.now)) }
    ensures room { IfSome result (λ b. sum.new.bound + times * b < 2 ^ 15) }
{
    if sum.bound as u32 + times as u32 * (row.bound as u32) < LIMIT {
        return Some(row.bound);
    }
    let least = least_bound(row);
    if has_room(sum, times as u32 * least as u32) {
        return Some(least);
    }
    None
}

// Adds a number to the cell of a column, where bounds show that the sum fits 16 bits.
fn add_cell(
    alloc: Global,
    sum: &mut NarrowRow,
    column: usize,
    number: i16,
) -> Result<bool, AllocError>
    requires sum { IsNarrow (length sum.old.cells) sum.old }
    requires column { column < length sum.old.cells }
    requires number { unsigned_abs number < 2 ^ 15 }
    ensures value { IfOk result (λ fits. OnTrue fits (narrow_view sum.new ≡ plus_cell column number (narrow_view sum.old))) }
    ensures narrow { IfOk result (λ fits. OnTrue fits (IsNarrow (length sum.old.cells) sum.new)) }
{
    let more = number.unsigned_abs();
    if !has_room(sum, more as u32) {
        return Ok(false);
    }
    let cell = sum.cells.at(column) + number;
    sum.cells.write(alloc, column, cell)?;
    sum.bound = sum.bound + more;
    Ok(true)
}

// Adds so many times a row, where bounds show that the sum fits 16 bits.
fn add_row(
    alloc: Global,
    sum: &mut NarrowRow,
    factor: i16,
    row: &NarrowRow,
) -> Result<bool, AllocError>
    requires sum { IsNarrow (length sum.old.cells) sum.old }
    requires row { IsNarrow (length sum.old.cells) row.now }
    requires factor { unsigned_abs factor < 2 ^ 15 }
    ensures value { IfOk result (λ fits. OnTrue fits (narrow_view sum.new ≡ plus_row factor (narrow_view row.now) (narrow_view sum.old))) }
    ensures narrow { IfOk result (λ fits. OnTrue fits (IsNarrow (length sum.old.cells) sum.new)) }
{
    let times = factor.unsigned_abs();
    let Some(bound) = bound_beside(sum, times, row) else {
        return Ok(false);
    };
    sum.constant += factor * row.constant;
    sum.cells.combine(alloc, 1, -factor, &row.cells)?;
    sum.bound = sum.bound + times * bound;
    Ok(true)
}

// Adds the row of an unknown for a term, where bounds show that the sum fits 16 bits.
fn add_term(
    alloc: Global,
    sum: &mut NarrowRow,
    row: &UnknownRow,
    coefficient: i128,
    scale: u32,
) -> Result<bool, AllocError>
    requires sum { IsNarrow (length sum.old.cells) sum.old }
    requires row { IsUnknownRow (length sum.old.cells) row.now }
    requires few { scale < 2 ^ 15 }
    ensures value { IfOk result (λ fits. OnTrue fits (narrow_view sum.new ≡ plus_row (factor_of scale coefficient (unknown_row (length sum.old.cells) row.now))
        (unknown_row (length sum.old.cells) row.now) (narrow_view sum.old))) }
    ensures narrow { IfOk result (λ fits. OnTrue fits (IsNarrow (length sum.old.cells) sum.new)) }
{
    match row {
        UnknownRow::Column { column, .. } => {
            let Some(factor) = scaled(coefficient, scale) else {
                return Ok(false);
            };
            add_cell(alloc, sum, *column as usize, factor)
        }
        UnknownRow::Basic(basic) => {
            let Some(factor) = scaled(coefficient, scale / basic.denominator as u32) else {
                return Ok(false);
            };
            add_row(alloc, sum, factor, basic)
        }
    }
}

// Adds the rows of the unknowns for all terms, where bounds show that the sums fit 16 bits.
fn add_terms(
    alloc: Global,
    sum: &mut NarrowRow,
    rows: &[UnknownRow],
    terms: &[(u32, i128)],
    scale: u32,
) -> Result<bool, AllocError>
    requires sum { IsNarrow (length sum.old.cells) sum.old }
    requires rows { AreUnknownRows (length sum.old.cells) rows.now }
    requires terms { IsNormal 0 (length rows.now) terms.now }
    requires few { scale < 2 ^ 15 }
    ensures value { IfOk result (λ fits. OnTrue fits (narrow_view sum.new ≡ plus_terms scale
        (unknown_rows (length sum.old.cells) rows.now) (narrow_view sum.old) terms.now)) }
    ensures narrow { IfOk result (λ fits. OnTrue fits (IsNarrow (length sum.old.cells) sum.new)) }
{
    for &(unknown, coefficient) in terms {
        if !add_term(alloc, sum, &rows[unknown as usize], coefficient, scale)? {
            return Ok(false);
        }
    }
    Ok(true)
}

/// The row of a slack, where bounds show that the sum fits 16 bits.
pub(crate) fn slack_row(
    alloc: Global,
    rows: &[UnknownRow],
    columns: usize,
    row: &Row,
    slack: u32,
    scale: u32,
) -> Result<Option<NarrowRow>, AllocError>
    requires rows { AreUnknownRows columns rows.now }
    requires terms { IsNormal 0 (length rows.now) row.now.form.terms }
    requires scale { IsScale scale (unknown_rows columns rows.now) }
    ensures value { IfOk result (λ o. IfSome o (λ r. narrow_view r ≡ slack_row_over scale columns (unknown_rows columns rows.now) slack row.now)) }
    ensures narrow { IfOk result (λ o. IfSome o (λ r. IsNarrow columns r)) }
{
    let terms = row.form.terms.as_slice();
    let stored = most_stored(rows, terms);
    let Some(mut sum) = first_sum(alloc, row.form.constant, stored, columns, slack, scale)? else {
        return Ok(None);
    };
    if !add_terms(alloc, &mut sum, rows, terms, scale)? {
        return Ok(None);
    }
    reduce_narrow(alloc, &mut sum)?;
    Ok(Some(sum))
}
