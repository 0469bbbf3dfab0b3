//! A row of 16-bit numbers, with a bound of their absolute values.
//!
//! A merge makes `p*row - q*chosen`, so p times the row's bound plus q times that of the chosen row
//! bounds the result, and becomes the new bound. It grows faster than the numbers, which are
//! divided to lowest terms; where it no longer suffices it is taken anew from them (`tighten`). So
//! one test of bounds stands before a loop over cells, which needs none.
//! Rows in lowest terms are mostly divided by 2 to 5 and multiplied by 1 or 2: these have loops of
//! their own, without divisions (narrow_cells.rt).
#![tactic(auto)]

ghost use Rattle.std.specs.Prelude.{◌≡◌, ◌<◌, ◌≤◌, ◌+◌, ◌*◌, ◌^◌, ℕ, pos, ◌<ℤ◌, unsigned_abs, int_div, length, IfOk};
ghost use Rattle.std.specs.Bool.{OnTrue};
ghost use Rattle.ta_dense.specs.Tableau.{merged_by, divided, divisor_of, reduced, merged, turned, cell_of, factor_divisor};
ghost use Rattle.ta_dense.specs.Merge.{IsProper};
ghost use Rattle.ta_dense.specs.Inside.Padded.{padded};
ghost use Rattle.ta_revised.specs.Bounds.{IsBound};
ghost use Rattle.ta_revised.specs.Narrow.{narrow_view, IsNarrow};

use crate::narrow_cells::gcd_narrow;
use crate::row_cells::RowCells;
use std::alloc::{AllocError, Global};

/// The row `denominator * basic = constant + sum of cells * non-basic`. A bound is a number that
/// no absolute value of the row's numbers is above; it need not be one of them.
#[derive(Drop)]
pub struct NarrowRow {
    pub basic: u32,
    pub denominator: i16,
    pub constant: i16,
    pub cells: RowCells,
    pub bound: u16,
}

/// The greatest absolute value of the row's numbers.
pub(crate) fn least_bound(row: &NarrowRow) -> u16
    requires { IsNarrow (length row.now.cells) row.now }
    ensures bound { IsBound result (narrow_view row.now) }
    ensures fits { result < 2 ^ 15 }
    ensures least { (b : ℕ) → IsBound b (narrow_view row.now) → result ≤ b }
{
    let first = row
        .denominator
        .unsigned_abs()
        .max(row.constant.unsigned_abs());
    row.cells.greatest(first)
}

// Takes the row's bound anew.
pub(crate) fn tighten(row: &mut NarrowRow)
    requires { IsNarrow (length row.old.cells) row.old }
    ensures view { narrow_view row.new ≡ narrow_view row.old }
    ensures narrow { IsNarrow (length row.old.cells) row.new }
    ensures least { (b : ℕ) → IsBound b (narrow_view row.old) → row.new.bound ≤ b }
{
    row.bound = least_bound(row);
}

/// The row for a variable, with zeros up to a number of columns. It shares the row's cells.
pub(crate) fn padded_narrow(
    row: &NarrowRow,
    basic: u32,
    columns: usize,
) -> Result<NarrowRow, AllocError>
    requires narrow { IsNarrow (length row.now.cells) row.now }
    requires columns { length row.now.cells ≤ columns }
    ensures value { IfOk result (λ r. narrow_view r ≡ padded basic columns (narrow_view row.now)) }
    ensures narrow { IfOk result (λ r. IsNarrow columns r) }
{
    Ok(NarrowRow {
        basic,
        denominator: row.denominator,
        constant: row.constant,
        cells: row.cells.padded(columns)?,
        bound: row.bound,
    })
}

// Whether `p` times the first bound and `q` times the second are less than 2^15 together.
fn is_small(p: u16, first: u16, q: u16, second: u16) -> bool
    requires p { p ≤ 2 ^ 15 }
    requires first { first < 2 ^ 15 }
    requires q { q ≤ 2 ^ 15 }
    requires second { second < 2 ^ 15 }
    ensures { OnTrue result (p * first + q * second < 2 ^ 15) }
{
    p as u32 * first as u32 + q as u32 * (second as u32) < 1 << 15
}

// Whether bounds show that `p` times the row minus `q` times the chosen row fits 16 bits. Where the
// row's bound doesn't, it is taken anew.
fn fits(p: i16, q: i16, chosen: &NarrowRow, row: &mut NarrowRow) -> bool
    requires chosen { chosen.now.bound < 2 ^ 15 }
    requires row { IsNarrow (length row.old.cells) row.old }
    ensures view { narrow_view row.new ≡ narrow_view row.old }
    ensures narrow { IsNarrow (length row.old.cells) row.new }
    ensures within { OnTrue result (unsigned_abs p * row.new.bound + unsigned_abs q * chosen.now.bound < 2 ^ 15) }
{
    let (p, q) = (p.unsigned_abs(), q.unsigned_abs());
    if is_small(p, row.bound, q, chosen.bound) {
        return true;
    }
    tighten(row);
    is_small(p, row.bound, q, chosen.bound)
}

// `p` times the row minus `q` times the chosen row, with a bound of that.
fn merge_narrow_by(
    alloc: Global,
    p: i16,
    q: i16,
    column: usize,
    chosen: &NarrowRow,
    row: &mut NarrowRow,
) -> Result<(), AllocError>
    requires chosen { IsBound chosen.now.bound (narrow_view chosen.now) }
    requires row { IsBound row.old.bound (narrow_view row.old) }
    requires long { length row.old.cells ≡ length chosen.now.cells }
    requires column { column < length chosen.now.cells }
    requires within { unsigned_abs p * row.old.bound + unsigned_abs q * chosen.now.bound < 2 ^ 15 }
    ensures value { IfOk result (λ done. narrow_view row.new ≡ merged_by p q column (narrow_view chosen.now) (narrow_view row.old)) }
    ensures bound { IfOk result (λ done. row.new.bound ≡ unsigned_abs p * row.old.bound + unsigned_abs q * chosen.now.bound) }
{
    let turned = q * chosen.denominator;
    row.denominator = p * row.denominator;
    row.constant = p * row.constant - q * chosen.constant;
    row.bound = p.unsigned_abs() * row.bound + q.unsigned_abs() * chosen.bound;
    row.cells.combine(alloc, p, q, &chosen.cells)?;
    row.cells.write(alloc, column, turned)?;
    Ok(())
}

// The greatest common divisor of the row's numbers.
fn divisor_of_narrow(row: &NarrowRow) -> u16
    requires { IsProper (length row.now.cells) (narrow_view row.now) }
    ensures value { result ≡ divisor_of (narrow_view row.now) }
    ensures positive { 0 < result }
{
    if row.denominator == 1 {
        return 1;
    }
    let first = gcd_narrow(row.denominator.unsigned_abs(), row.constant.unsigned_abs());
    row.cells.divisor(first)
}

// Divides each number of the row.
fn divide_narrow_row(alloc: Global, row: &mut NarrowRow, divisor: i16) -> Result<(), AllocError>
    requires { pos 0 <ℤ divisor }
    ensures value { IfOk result (λ done. narrow_view row.new ≡ divided (unsigned_abs divisor) (narrow_view row.old)) }
    ensures bound { IfOk result (λ done. row.new.bound ≡ row.old.bound) }
{
    row.denominator = row.denominator / divisor;
    row.constant = row.constant / divisor;
    row.cells.divide(alloc, divisor)?;
    Ok(())
}

/// Divides the row by the greatest common divisor of its numbers.
pub(crate) fn reduce_narrow(alloc: Global, row: &mut NarrowRow) -> Result<(), AllocError>
    requires { IsNarrow (length row.old.cells) row.old }
    ensures value { IfOk result (λ done. narrow_view row.new ≡ reduced (narrow_view row.old)) }
    ensures bound { IfOk result (λ done. row.new.bound ≡ row.old.bound) }
{
    let divisor = divisor_of_narrow(row);
    if divisor > 1 {
        divide_narrow_row(alloc, row, divisor as i16)?;
    }
    Ok(())
}

// The two factors: each cell divided by the greatest common divisor of both.
fn narrow_factors(c: i16, a: i16) -> (i16, i16)
    requires a { unsigned_abs a < 2 ^ 15 }
    requires positive { pos 0 <ℤ c }
    ensures first { result.0 ≡ int_div c (pos (factor_divisor c a)) }
    ensures second { result.1 ≡ int_div a (pos (factor_divisor c a)) }
{
    if c == 1 {
        return (1, a);
    }
    let divisor = gcd_narrow(c.unsigned_abs(), a.unsigned_abs()) as i16;
    if divisor == 1 {
        return (c, a);
    }
    (c / divisor, a / divisor)
}

/// Takes the entering variable out of a row, where bounds show that 16 bits suffice.
pub(crate) fn merge_narrow(
    alloc: Global,
    chosen: &NarrowRow,
    column: usize,
    row: &mut NarrowRow,
) -> Result<bool, AllocError>
    requires chosen { IsNarrow (length chosen.now.cells) chosen.now }
    requires row { IsNarrow (length chosen.now.cells) row.old }
    requires column { column < length chosen.now.cells }
    requires positive { pos 0 <ℤ cell_of (narrow_view chosen.now) column }
    ensures value { IfOk result (λ done. OnTrue done (narrow_view row.new ≡ merged column (narrow_view chosen.now) (narrow_view row.old))) }
    ensures narrow { IfOk result (λ done. OnTrue done (IsNarrow (length chosen.now.cells) row.new)) }
{
    let a = row.cells.at(column);
    if a == 0 {
        return Ok(true);
    }
    let (p, q) = narrow_factors(chosen.cells.at(column), a);
    if !fits(p, q, chosen, row) {
        return Ok(false);
    }
    merge_narrow_by(alloc, p, q, column, chosen, row)?;
    reduce_narrow(alloc, row)?;
    Ok(true)
}

/// Solves the row for the entering variable.
pub(crate) fn turn_narrow(
    alloc: Global,
    row: &mut NarrowRow,
    column: usize,
    entering: u32,
) -> Result<(), AllocError>
    requires row { IsNarrow (length row.old.cells) row.old }
    requires column { column < length row.old.cells }
    requires positive { pos 0 <ℤ cell_of (narrow_view row.old) column }
    ensures value { IfOk result (λ done. narrow_view row.new ≡ turned entering column (narrow_view row.old)) }
    ensures bound { IfOk result (λ done. row.new.bound ≡ row.old.bound) }
{
    let denominator = row.cells.at(column);
    row.cells.negate(alloc)?;
    row.cells.write(alloc, column, row.denominator)?;
    row.denominator = denominator;
    row.constant = -row.constant;
    row.basic = entering;
    Ok(())
}
