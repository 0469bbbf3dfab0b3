//! The rows that say that two moments are the same step.
#![tactic(auto)]

ghost use Rattle.std.specs.Prelude.{ℕ, ◌++◌, OnOk, slice_get};
ghost use Rattle.ta_moments.specs.Laws.{Speaks};
ghost use Rattle.ta_moments.specs.Moments.{below, early, late, rows_of_same};
ghost use Rattle.ta_moment_tree.specs.Forms.{SmallVector, vector_of};
ghost use Rattle.ta_moment_tree.specs.Moments.{MomentsSpeak, SmallMoments, moment_of, moments_of};
ghost use Rattle.ta_moment_tree.specs.Plan.{IsPlan};
ghost use Rattle.ta_moment_tree.specs.Rows.{AddsForms};

use crate::moment::{Moment, get_moment};
use crate::plan::Plan;
use crate::rows::push_below;
use std::alloc::AllocError;
use ta_linear::{Form, Row};

/// Two vectors are each below the other.
fn push_equal(
    plan: &Plan,
    left: &[Form],
    right: &[Form],
    rows: &mut Vec<Row>,
) -> Result<(), AllocError>
    requires plan { IsPlan plan.now }
    requires left { SmallVector 3 (vector_of left.now) }
    requires right { SmallVector 3 (vector_of right.now) }
    ensures { (n : ℕ) → ((r : ℕ) → Speaks n (vector_of left.now r)) → ((r : ℕ) → Speaks n (vector_of right.now r)) → OnOk result (AddsForms (below plan.now.task.automaton.now plan.now.task.pattern.now n (vector_of left.now) (vector_of right.now) ++ below plan.now.task.automaton.now plan.now.task.pattern.now n (vector_of right.now) (vector_of left.now)) rows.old.items rows.new.items) }
{
    push_below(plan, left, right, rows)?;
    push_below(plan, right, left, rows)?;
    Ok(())
}

/// Two moments are the same step.
fn push_same_of(
    plan: &Plan,
    first: &Moment,
    second: &Moment,
    rows: &mut Vec<Row>,
) -> Result<(), AllocError>
    requires plan { IsPlan plan.now }
    requires first { SmallVector 3 (early (moment_of first.now)) }
    requires first_late { SmallVector 3 (late (moment_of first.now)) }
    requires second { SmallVector 3 (early (moment_of second.now)) }
    requires second_late { SmallVector 3 (late (moment_of second.now)) }
    ensures { (n : ℕ) → ((r : ℕ) → Speaks n (early (moment_of first.now) r)) → ((r : ℕ) → Speaks n (late (moment_of first.now) r)) → ((r : ℕ) → Speaks n (early (moment_of second.now) r)) → ((r : ℕ) → Speaks n (late (moment_of second.now) r))
        → OnOk result (AddsForms (rows_of_same plan.now.task.automaton.now plan.now.task.pattern.now n (Some (moment_of first.now)) (Some (moment_of second.now))) rows.old.items rows.new.items) }
{
    let early = first.early();
    let other_early = second.early();
    let late = first.late();
    let other_late = second.late();
    push_equal(plan, early, other_early, rows)?;
    push_equal(plan, late, other_late, rows)?;
    Ok(())
}

/// A moment and that of a number are the same step.
fn push_same_to(
    plan: &Plan,
    first: &Moment,
    moments: &[Moment],
    second: u32,
    rows: &mut Vec<Row>,
) -> Result<(), AllocError>
    requires plan { IsPlan plan.now }
    requires moments { SmallMoments (moments_of moments.now) }
    requires first { SmallVector 3 (early (moment_of first.now)) }
    requires first_late { SmallVector 3 (late (moment_of first.now)) }
    ensures { (n : ℕ) → MomentsSpeak n (moments_of moments.now) → ((r : ℕ) → Speaks n (early (moment_of first.now) r)) → ((r : ℕ) → Speaks n (late (moment_of first.now) r)) → OnOk result (AddsForms (rows_of_same plan.now.task.automaton.now plan.now.task.pattern.now n (Some (moment_of first.now)) (slice_get (moments_of moments.now) second)) rows.old.items rows.new.items) }
{
    match get_moment(moments, second) {
        None => Ok(()),
        Some(other) => {
            push_same_of(plan, first, other, rows)?;
            Ok(())
        }
    }
}

/// Two moments, by their numbers, are the same step.
pub(crate) fn push_same(
    plan: &Plan,
    moments: &[Moment],
    first: u32,
    second: u32,
    rows: &mut Vec<Row>,
) -> Result<(), AllocError>
    requires plan { IsPlan plan.now }
    requires moments { SmallMoments (moments_of moments.now) }
    ensures { (n : ℕ) → MomentsSpeak n (moments_of moments.now) → OnOk result (AddsForms (rows_of_same plan.now.task.automaton.now plan.now.task.pattern.now n (slice_get (moments_of moments.now) first) (slice_get (moments_of moments.now) second)) rows.old.items rows.new.items) }
{
    match get_moment(moments, first) {
        None => Ok(()),
        Some(moment) => {
            push_same_to(plan, moment, moments, second, rows)?;
            Ok(())
        }
    }
}
