//! The guards of a rule.
#![tactic(auto)]

ghost use Rattle.std.specs.Prelude.{ℕ, ◌≡◌, ◌+◌, ◌<◌, ◌≤◌, ◌↔◌, length, IsTrue, OnOk, IfErr, IsBitSet};
ghost use Rattle.ta_linear.specs.Terms.{IsNormal};
ghost use Rattle.ta_linear.specs.Values.{point_of};
ghost use Rattle.ta_automaton.specs.Shape.{RuleWithin};
ghost use Rattle.ta_counter.specs.Checks.{RowPasses, RowsOver};
ghost use Rattle.ta_counter.specs.Configs.{places_of};
ghost use Rattle.ta_counter.specs.Guards.{MaskedPass};
ghost use Rattle.ta_counter.specs.Inside.Guards.{GuardRowFault, MaskedFault, GuardFault};

use crate::condition::row_holds;
use crate::fault::StepFault;
use ta_automaton::{Automaton, Rule};
use ta_base::masks::contains;
use ta_linear::Row;

/// Checks rise guards at the old values, then fall guards at the values before the last firing.
pub(crate) fn check_guards(
    automaton: &Automaton,
    rule: &Rule,
    values: &[i128],
    before_last: &[i128],
) -> Result<(), StepFault>
    requires places { length values.now ≡ places_of automaton.now }
    requires places_last { length before_last.now ≡ places_of automaton.now }
    ensures rise { OnOk result (MaskedPass (point_of values.now) rule.now.rise automaton.now.rise) }
    ensures fall { OnOk result (MaskedPass (point_of before_last.now) rule.now.fall automaton.now.fall) }
    ensures fails { IfErr result (λ fault. GuardFault automaton.now rule.now (point_of values.now) (point_of before_last.now) fault) }
{
    let rise = automaton.rise.as_slice();
    let fall = automaton.fall.as_slice();
    check_rows(rise, u128::from(rule.rise), 0, values)?;
    check_rows(fall, u128::from(rule.fall), rise.len() as u32, before_last)
}

/// Checks the rows that a mask names; the guard number of the first row is given.
fn check_rows(rows: &[Row], mask: u128, first: u32, values: &[i128]) -> Result<(), StepFault>
    requires count { length rows.now ≤ 64 }
    requires first { first ≤ 64 }
    requires places { length values.now ≤ 224 }
    requires over { RowsOver (length values.now) rows.now }
    ensures passes { OnOk result (MaskedPass (point_of values.now) mask rows.now) }
    ensures fails { IfErr result (λ fault. MaskedFault (point_of values.now) mask rows.now (length values.now) first fault) }
{
    for (number, row) in rows.iter().enumerate() {
        if contains(mask, number as u32) {
            check_row(row, first + number as u32, values)?;
        }
    }
    Ok(())
}

/// Checks the row of a guard.
fn check_row(row: &Row, guard: u32, values: &[i128]) -> Result<(), StepFault>
    requires guard { guard ≤ 128 }
    requires places { length values.now ≤ 224 }
    requires over { IsNormal 0 (length values.now) row.now.form.terms }
    ensures passes { OnOk result (RowPasses (point_of values.now) row.now) }
    ensures fails { IfErr result (λ fault. GuardRowFault (point_of values.now) row.now (length values.now) guard fault) }
{
    let Ok(holds) = row_holds(row, values) else {
        return Err(StepFault::OutOfRange(values.len() as u32 + guard));
    };
    if !holds {
        return Err(StepFault::Guard(guard));
    }
    Ok(())
}
