//! The rows of facts that add no moment.
#![tactic(auto)]

ghost use Rattle.std.specs.Prelude.{ℕ, OnOk, map};
ghost use Rattle.ta_moments.specs.Facts.{needing};
ghost use Rattle.ta_moments.specs.Forms.{opposite_form};
ghost use Rattle.ta_moment_tree.specs.Forms.{SmallVector, vector_of};
ghost use Rattle.ta_moment_tree.specs.Moments.{MomentsSpeak, SmallMoments, moments_of};
ghost use Rattle.ta_moment_tree.specs.Plan.{IsPlan};
ghost use Rattle.ta_moment_tree.specs.Plain.{plain_rows};
ghost use Rattle.ta_moment_tree.specs.Rows.{AddsForms};

use crate::moment::Moment;
use crate::order::push_order;
use crate::plan::Plan;
use crate::rows::{push_guard, push_opposites};
use crate::same::push_same;
use crate::silence::{push_failing, push_vacant};
use std::alloc::AllocError;
use ta_linear::{Form, Row};
use ta_moments::Fact;

/// No moving rule that needs a guard fires.
fn push_never(plan: &Plan, end: &[Form], guard: u32, rows: &mut Vec<Row>) -> Result<(), AllocError>
    requires plan { IsPlan plan.now }
    requires end { SmallVector 3 (vector_of end.now) }
    ensures { OnOk result (AddsForms (map (λ r. opposite_form (vector_of end.now r)) (needing plan.now.task.automaton.now plan.now.task.pattern.now guard)) rows.old.items rows.new.items) }
{
    let needed = plan.needing(guard)?;
    let rules = needed.as_slice();
    push_opposites(plan, end, rules, rows)?;
    Ok(())
}

/// The rows of a fact that adds no moment.
pub(crate) fn push_plain(
    plan: &Plan,
    silent: &[u32],
    end: &[Form],
    moments: &[Moment],
    fact: Fact,
    rows: &mut Vec<Row>,
) -> Result<(), AllocError>
    requires plan { IsPlan plan.now }
    requires end { SmallVector 3 (vector_of end.now) }
    requires moments { SmallMoments (moments_of moments.now) }
    ensures { (n : ℕ) → MomentsSpeak n (moments_of moments.now) → OnOk result (AddsForms (plain_rows plan.now.task.automaton.now plan.now.task.pattern.now silent.now n (vector_of end.now) (moments_of moments.now) fact) rows.old.items rows.new.items) }
{
    match fact {
        Fact::Never(guard) => push_never(plan, end, guard, rows)?,
        Fact::Stands(guard) => push_guard(plan, end, guard, rows)?,
        Fact::Before(first, second) => push_order(plan, moments, first, second, rows)?,
        Fact::After(first, second) => push_order(plan, moments, second, first, rows)?,
        Fact::Same(first, second) => push_same(plan, moments, first, second, rows)?,
        Fact::Vacant(rule) => push_vacant(plan, end, rule, rows)?,
        Fact::Fails(_, guard) => push_failing(plan, silent, end, guard, rows)?,
        Fact::First(_) | Fact::Last(_) => {}
    }
    Ok(())
}
