//! Conditions at the values of the places.
#![tactic(auto)]

ghost use Rattle.std.specs.Prelude.{length, IfOk, IfErr, IfSome, IfNone};
ghost use Rattle.ta_linear.specs.Terms.{IsNormal};
ghost use Rattle.ta_linear.specs.Values.{point_of};
ghost use Rattle.ta_automaton.specs.Runs.{HoldsAt};
ghost use Rattle.ta_counter.specs.Checks.{RowAnswer, RowsAnswer, RowsOver, FirstFalse, Over};

use ta_automaton::Condition;
use ta_linear::{OutOfRange, Row};

/// The first comparison that is false where place i has `values[i]`, if there is one. Comparisons
/// are evaluated in order up to that one, and rows in order.
pub fn first_false(condition: &Condition, values: &[i128]) -> Result<Option<u32>, OutOfRange>
    requires { Over (length values.now) condition.now }
    ensures answer { FirstFalse (point_of values.now) condition.now result }
    ensures holds { IfOk result (λ first. IfNone first (HoldsAt (point_of values.now) condition.now)) }
    ensures fails { IfOk result (λ first. IfSome first (λ _. ¬ HoldsAt (point_of values.now) condition.now)) }
{
    for (number, comparison) in condition.comparisons.as_slice().iter().enumerate() {
        if !rows_hold(comparison.rows.as_slice(), values)? {
            return Ok(Some(number as u32));
        }
    }
    Ok(None)
}

/// Whether all rows hold; they are evaluated in order up to the first that doesn't.
fn rows_hold(rows: &[Row], values: &[i128]) -> Result<bool, OutOfRange>
    requires { RowsOver (length values.now) rows.now }
    ensures { RowsAnswer (point_of values.now) rows.now result }
{
    for row in rows {
        if !row_holds(row, values)? {
            return Ok(false);
        }
    }
    Ok(true)
}

/// Whether a row's form is at least 0.
pub(crate) fn row_holds(row: &Row, values: &[i128]) -> Result<bool, OutOfRange>
    requires { IsNormal 0 (length values.now) row.now.form.terms }
    ensures { RowAnswer (point_of values.now) row.now result }
{
    let value = row.form.value_at(values)?;
    Ok(value >= 0)
}
