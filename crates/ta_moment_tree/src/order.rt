//! The rows of the order of two moments.
#![tactic(auto)]

ghost use Rattle.std.specs.Prelude.{ℕ, OnOk, slice_get};
ghost use Rattle.ta_moments.specs.Laws.{Speaks};
ghost use Rattle.ta_moments.specs.Moments.{below, early, late, rows_of_order};
ghost use Rattle.ta_moment_tree.specs.Forms.{SmallVector};
ghost use Rattle.ta_moment_tree.specs.Moments.{MomentsSpeak, SmallMoments, moment_of, moments_of};
ghost use Rattle.ta_moment_tree.specs.Plan.{IsPlan};
ghost use Rattle.ta_moment_tree.specs.Rows.{AddsForms};

use crate::moment::{Moment, get_moment};
use crate::plan::Plan;
use crate::rows::push_below;
use std::alloc::AllocError;
use ta_linear::Row;

/// A moment isn't after another.
fn push_order_of(
    plan: &Plan,
    first: &Moment,
    second: &Moment,
    rows: &mut Vec<Row>,
) -> Result<(), AllocError>
    requires plan { IsPlan plan.now }
    requires first { SmallVector 3 (late (moment_of first.now)) }
    requires second { SmallVector 3 (early (moment_of second.now)) }
    ensures { (n : ℕ) → ((r : ℕ) → Speaks n (late (moment_of first.now) r)) → ((r : ℕ) → Speaks n (early (moment_of second.now) r)) → OnOk result (AddsForms (below plan.now.task.automaton.now plan.now.task.pattern.now n (late (moment_of first.now)) (early (moment_of second.now))) rows.old.items rows.new.items) }
{
    let beneath = first.late();
    let above = second.early();
    push_below(plan, beneath, above, rows)?;
    Ok(())
}

/// A moment isn't after that of a number.
fn push_order_to(
    plan: &Plan,
    first: &Moment,
    moments: &[Moment],
    second: u32,
    rows: &mut Vec<Row>,
) -> Result<(), AllocError>
    requires plan { IsPlan plan.now }
    requires moments { SmallMoments (moments_of moments.now) }
    requires first { SmallVector 3 (late (moment_of first.now)) }
    ensures { (n : ℕ) → MomentsSpeak n (moments_of moments.now) → ((r : ℕ) → Speaks n (late (moment_of first.now) r)) → OnOk result (AddsForms (rows_of_order plan.now.task.automaton.now plan.now.task.pattern.now n (Some (moment_of first.now)) (slice_get (moments_of moments.now) second)) rows.old.items rows.new.items) }
{
    match get_moment(moments, second) {
        None => Ok(()),
        Some(other) => {
            push_order_of(plan, first, other, rows)?;
            Ok(())
        }
    }
}

/// The first moment isn't after the second, by their numbers.
pub(crate) fn push_order(
    plan: &Plan,
    moments: &[Moment],
    first: u32,
    second: u32,
    rows: &mut Vec<Row>,
) -> Result<(), AllocError>
    requires plan { IsPlan plan.now }
    requires moments { SmallMoments (moments_of moments.now) }
    ensures { (n : ℕ) → MomentsSpeak n (moments_of moments.now) → OnOk result (AddsForms (rows_of_order plan.now.task.automaton.now plan.now.task.pattern.now n (slice_get (moments_of moments.now) first) (slice_get (moments_of moments.now) second)) rows.old.items rows.new.items) }
{
    match get_moment(moments, first) {
        None => Ok(()),
        Some(moment) => {
            push_order_to(plan, moment, moments, second, rows)?;
            Ok(())
        }
    }
}
