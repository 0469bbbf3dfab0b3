//! What a fact adds to a node.
#![tactic(auto)]

ghost use Rattle.std.specs.Prelude.{◌<◌, ◌^◌, ◌≡◌, true, IfOk};
ghost use Rattle.ta_moments.specs.declared.fact.Fact.TheVariants.{First, Last};
ghost use Rattle.ta_moment_tree.specs.Draft.{Added, DraftFits, is_plain};
ghost use Rattle.ta_moment_tree.specs.Plan.{IsPlan};

use crate::draft::Draft;
use crate::plain::push_plain;
use crate::plan::Plan;
use crate::uses::{Use, push_first_use, push_last_use};
use std::alloc::AllocError;
use ta_moments::Fact;

/// A node with one more fact, one that adds no moment.
fn with_plain(plan: &Plan, silent: &[u32], fact: Fact, draft: Draft) -> Result<Draft, AllocError>
    requires plan { IsPlan plan.now }
    requires fits { DraftFits plan.now.task.automaton.now draft }
    requires plain { is_plain fact ≡ true }
    ensures { IfOk result (Added plan.now.task.automaton.now plan.now.task.pattern.now silent.now draft fact) }
{
    let Draft {
        unknowns,
        end,
        moments,
        mut rows,
    } = draft;
    let vector = end.as_slice();
    let known = moments.as_slice();
    push_plain(plan, silent, vector, known, fact, &mut rows)?;
    Ok(Draft {
        unknowns,
        end,
        moments,
        rows,
    })
}

/// A node with the first use of a guard.
fn with_first(plan: &Plan, silent: &[u32], guard: u32, draft: Draft) -> Result<Draft, AllocError>
    requires plan { IsPlan plan.now }
    requires fits { DraftFits plan.now.task.automaton.now draft }
    requires room { draft.unknowns < 2 ^ 31 }
    ensures { IfOk result (Added plan.now.task.automaton.now plan.now.task.pattern.now silent.now draft (First guard)) }
{
    let Draft {
        unknowns: before,
        end,
        mut moments,
        mut rows,
    } = draft;
    let vector = end.as_slice();
    let used = push_first_use(plan, vector, before, guard, &mut rows)?;
    let Use { unknowns, moment } = used;
    moments.push(moment)?;
    Ok(Draft {
        unknowns: before + unknowns,
        end,
        moments,
        rows,
    })
}

/// A node with the last use of a guard.
fn with_last(plan: &Plan, silent: &[u32], guard: u32, draft: Draft) -> Result<Draft, AllocError>
    requires plan { IsPlan plan.now }
    requires fits { DraftFits plan.now.task.automaton.now draft }
    requires room { draft.unknowns < 2 ^ 31 }
    ensures { IfOk result (Added plan.now.task.automaton.now plan.now.task.pattern.now silent.now draft (Last guard)) }
{
    let Draft {
        unknowns: before,
        end,
        mut moments,
        mut rows,
    } = draft;
    let vector = end.as_slice();
    let used = push_last_use(plan, vector, before, guard, &mut rows)?;
    let Use { unknowns, moment } = used;
    moments.push(moment)?;
    Ok(Draft {
        unknowns: before + unknowns,
        end,
        moments,
        rows,
    })
}

/// A node with one more fact: its unknowns, moments and rows stand behind those that were there.
pub(crate) fn with_fact(
    plan: &Plan,
    silent: &[u32],
    fact: Fact,
    draft: Draft,
) -> Result<Draft, AllocError>
    requires plan { IsPlan plan.now }
    requires fits { DraftFits plan.now.task.automaton.now draft }
    requires room { draft.unknowns < 2 ^ 31 }
    ensures { IfOk result (Added plan.now.task.automaton.now plan.now.task.pattern.now silent.now draft fact) }
{
    match fact {
        Fact::First(guard) => with_first(plan, silent, guard, draft),
        Fact::Last(guard) => with_last(plan, silent, guard, draft),
        Fact::Never(_) | Fact::Stands(_) | Fact::Vacant(_) => with_plain(plan, silent, fact, draft),
        Fact::Before(_, _) | Fact::After(_, _) | Fact::Same(_, _) | Fact::Fails(_, _) => {
            with_plain(plan, silent, fact, draft)
        }
    }
}
