//! A common scale of the unknowns' rows, the unknowns' values over it, and the variable that leaves.
#![tactic(auto)]

ghost use Rattle.std.specs.Prelude.{◌≡◌, ◌<◌, ◌≤◌, ◌/◌, ◌^◌, ◌<ℤ◌, ◌*ℤ◌, ℕ, pos, length, get_or, unsigned_abs, IfOk, IfSome, IfNone};
ghost use Rattle.std.specs.Int.{◌∣◌};
ghost use Rattle.ta_dense.specs.Slack.{variables};
ghost use Rattle.ta_dense.specs.Tableau.{no_row};
ghost use Rattle.ta_revised.specs.Negative.{IsLeastNegative, NoneIsNegative, RowsHold, UnknownsHold};
ghost use Rattle.ta_revised.specs.Scale.{AreValues, IsScale};
ghost use Rattle.ta_revised.specs.ShortRows.{AreShort};
ghost use Rattle.ta_revised.specs.UnknownRows.{AreUnknownRows, IsUnknownRow, ListsBasic, unknown_row, unknown_rows};

use crate::narrow_cells::gcd_narrow;
use crate::short_rows::ShortRows;
use crate::unknown_rows::UnknownRow;
use std::alloc::{AllocError, Global};
use ta_linear::System;

/// Scales are below this.
const LIMIT: u32 = 1 << 15;

// The least common multiple of two numbers, if it isn't too great.
fn common_multiple(scale: u32, denominator: u32) -> Option<u32>
    requires scale { 0 < scale }
    requires few { scale < 2 ^ 15 }
    requires positive { 0 < denominator }
    requires small { denominator < 2 ^ 15 }
    ensures first { IfSome result (λ m. scale ∣ m) }
    ensures second { IfSome result (λ m. denominator ∣ m) }
    ensures positive { IfSome result (λ m. 0 < m) }
    ensures few { IfSome result (λ m. m < 2 ^ 15) }
{
    if denominator == 1 {
        return Some(scale);
    }
    if scale == denominator {
        return Some(scale);
    }
    if scale % denominator == 0 {
        return Some(scale);
    }
    let divisor = gcd_narrow(scale as u16, denominator as u16) as u32;
    let multiple = (scale / divisor) as u64 * denominator as u64;
    if multiple >= LIMIT as u64 {
        return None;
    }
    Some(multiple as u32)
}

// The denominator of the row.
fn denominator_of(row: &UnknownRow, columns: usize) -> u32
    requires { IsUnknownRow columns row.now }
    ensures value { result ≡ unsigned_abs (unknown_row columns row.now).denominator }
    ensures positive { 0 < result }
    ensures small { result < 2 ^ 15 }
{
    let _columns = columns;
    match row {
        UnknownRow::Column { .. } => 1,
        UnknownRow::Basic(basic) => basic.denominator.unsigned_abs() as u32,
    }
}

/// A common multiple of the rows' denominators, if it isn't too great.
pub(crate) fn scale_of(rows: &[UnknownRow], basic: &[u32], columns: usize) -> Option<u32>
    requires rows { AreUnknownRows columns rows.now }
    requires basic { ListsBasic basic.now rows.now }
    ensures { IfSome result (λ scale. IsScale scale (unknown_rows columns rows.now)) }
{
    let mut scale = 1;
    for &unknown in basic {
        let row = &rows[unknown as usize];
        scale = common_multiple(scale, denominator_of(row, columns))?;
    }
    Some(scale)
}

// The quotient by a denominator, which is often 1.
fn quotient(scale: u32, denominator: u32) -> u32
    requires { 0 < denominator }
    ensures { result ≡ scale / denominator }
{
    if denominator == 1 {
        scale
    } else {
        scale / denominator
    }
}

// The value of a row's unknown, times the scale.
fn value_of(row: &UnknownRow, columns: usize, scale: u32) -> i64
    requires row { IsUnknownRow columns row.now }
    requires few { scale < 2 ^ 15 }
    requires multiple { unsigned_abs (unknown_row columns row.now).denominator ∣ scale }
    ensures value { (unknown_row columns row.now).denominator *ℤ result ≡ pos scale *ℤ (unknown_row columns row.now).constant }
    ensures small { unsigned_abs result ≤ 2 ^ 46 }
{
    let _columns = columns;
    match row {
        UnknownRow::Column { .. } => 0,
        UnknownRow::Basic(basic) => {
            if basic.constant == 0 {
                return 0;
            }
            let factor = quotient(scale, basic.denominator.unsigned_abs() as u32);
            factor as i64 * basic.constant as i64
        }
    }
}

/// The value of each unknown, times the scale.
pub(crate) fn values_of(
    alloc: Global,
    rows: &[UnknownRow],
    basic: &[u32],
    columns: usize,
    scale: u32,
) -> Result<Vec<i64>, AllocError>
    requires rows { AreUnknownRows columns rows.now }
    requires basic { ListsBasic basic.now rows.now }
    requires scale { IsScale scale (unknown_rows columns rows.now) }
    ensures { IfOk result (λ v. AreValues scale (unknown_rows columns rows.now) v.items) }
{
    let mut values = vec![in alloc; 0; rows.len()]?;
    for &unknown in basic {
        values[unknown as usize] = value_of(&rows[unknown as usize], columns, scale);
    }
    Ok(values)
}

// The first unknown with a negative value.
fn negative_unknown(values: &[i64]) -> Option<u32>
    requires { length values.now < 2 ^ 32 }
    ensures found { IfSome result (λ v. (v < length values.now) × (get_or values.now v (pos 0) <ℤ pos 0) × UnknownsHold values.now v) }
    ensures none { IfNone result (UnknownsHold values.now (length values.now)) }
{
    for unknown in 0..values.len() {
        if values[unknown] < 0 {
            return Some(unknown as u32);
        }
    }
    None
}

/// The least variable of the system with a negative value, where these are its rows, and the values
/// of the first of them, so many, are not negative.
pub(crate) fn least_negative(
    system: &System,
    rows: &ShortRows,
    values: &[i64],
    scale: u32,
    from: usize,
) -> Option<u32>
    requires room { variables system.now < 2 ^ 32 }
    requires rows { AreShort rows.now system.now.rows }
    requires count { length values.now ≡ system.now.unknowns }
    requires few { scale < 2 ^ 15 }
    requires small { (u : ℕ) → u < length values.now → unsigned_abs (get_or values.now u (pos 0)) ≤ 2 ^ 46 }
    requires from { RowsHold scale values.now system.now.rows from }
    ensures found { IfSome result (IsLeastNegative scale system.now values.now) }
    ensures none { IfNone result (NoneIsNegative scale system.now values.now) }
{
    if let Some(unknown) = negative_unknown(values) {
        return Some(unknown);
    }
    let row = rows.first_negative(system, values, scale, from)?;
    Some(system.unknowns + row)
}
