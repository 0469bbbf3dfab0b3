//! The guards and the rules of a node at its end.
#![tactic(auto)]

ghost use Rattle.std.specs.Prelude.{ℕ, ◌+◌, ◌<◌, ◌≡◌, ◌∷◌, [], IfOk, List as Items, Option, cond, filter, flat_map, length, map, slice_get, true};
ghost use Rattle.std.specs.List.{range_with_len};
ghost use Rattle.ta_moments.specs.Facts.{guards_of, has_guard, may_be_stuck};
ghost use Rattle.ta_moments.specs.declared.fact.Fact.{Fact};
ghost use Rattle.ta_moments.specs.Moments.{guard_at, guards, quiet_at, source_at};
ghost use Rattle.ta_moments.specs.Questions.{guard_at_end, guards_at_end, parts_at, rule_at_end, rules_at_end};
ghost use Rattle.ta_moments.specs.Refutes.{Asking};
ghost use Rattle.ta_moment_tree.specs.Forms.{SmallVector, all_forms, form_of, vector_of};
ghost use Rattle.ta_moment_tree.specs.Nodes.{IsAnyNode, IsNode};
ghost use Rattle.ta_moment_tree.specs.Parts.{guard_of, parts_of, rule_of};
ghost use Rattle.ta_moment_tree.specs.Plan.{IsPlan};
ghost use Rattle.ta_moment_tree.specs.Systems.{bounded_node};
ghost use Rattle.ta_encode.specs.declared.meaning.Bound.{Bound};

use crate::asking::may_be_stuck;
use crate::at::{form_at, place_form};
use crate::encoding::MomentEncoding;
use crate::moment_parts::{GuardAtEnd, NodeParts, RuleAtEnd};
use crate::plan::{Plan, guard_row, has_guard};
use crate::silence::quiet_form;
use std::alloc::AllocError;
use ta_automaton::Automaton;
use ta_base::List;
use ta_encode::first_location;
use ta_linear::Form;

/// How many guards there are.
fn guard_count(automaton: &Automaton) -> usize
    ensures guards { result ≡ length (guards automaton.now) }
    ensures both { result ≡ length automaton.now.rise + length automaton.now.fall }
{
    automaton.rise.as_slice().len() + automaton.fall.as_slice().len()
}

/// The row of a guard at the end.
fn row_at_end(plan: &Plan, end: &[Form], guard: u32) -> Result<Form, AllocError>
    requires plan { IsPlan plan.now }
    requires end { SmallVector 3 (vector_of end.now) }
    requires guard { guard < length (guards plan.now.task.automaton.now) }
    ensures { IfOk result (λ form. form_of form ∷ [] ≡ guard_at plan.now.task.automaton.now plan.now.task.pattern.now (vector_of end.now) (slice_get (guards plan.now.task.automaton.now) guard)) }
{
    match guard_row(plan.task.automaton, guard) {
        None => unreachable!(),
        Some(row) => {
            let terms = row.form.terms.as_slice();
            let form = form_at(plan, end, row.form.constant, terms)?;
            Ok(form)
        }
    }
}

/// A guard at the end.
fn guard_at_end(plan: &Plan, end: &[Form], guard: u32) -> Result<GuardAtEnd, AllocError>
    requires plan { IsPlan plan.now }
    requires end { SmallVector 3 (vector_of end.now) }
    requires guard { guard < length (guards plan.now.task.automaton.now) }
    ensures { IfOk result (λ is. guard_of is ≡ guard_at_end plan.now.task.automaton.now plan.now.task.pattern.now (vector_of end.now) guard) }
{
    let rules = plan.needing(guard)?;
    let row = row_at_end(plan, end, guard)?;
    Ok(GuardAtEnd {
        number: guard,
        needing: List::from_vec(rules),
        row,
    })
}

/// The guards at the end.
fn guards_at_end(plan: &Plan, end: &[Form]) -> Result<Vec<GuardAtEnd>, AllocError>
    requires plan { IsPlan plan.now }
    requires end { SmallVector 3 (vector_of end.now) }
    ensures { IfOk result (λ guards. map guard_of guards.items ≡ guards_at_end plan.now.task.automaton.now plan.now.task.pattern.now (vector_of end.now)) }
{
    let mut guards = Vec::new(plan.alloc);
    for guard in 0..guard_count(plan.task.automaton) {
        let is = guard_at_end(plan, end, guard as u32)?;
        guards.push(is)?;
    }
    Ok(guards)
}

/// The counter of a rule's source at the end.
fn source_at_end(plan: &Plan, end: &[Form], rule: u32) -> Result<Form, AllocError>
    requires plan { IsPlan plan.now }
    requires end { SmallVector 3 (vector_of end.now) }
    requires rule { rule < length plan.now.task.automaton.now.rules }
    ensures { IfOk result (λ form. form_of form ∷ [] ≡ source_at plan.now.task.automaton.now plan.now.task.pattern.now (vector_of end.now) (slice_get plan.now.task.automaton.now.rules rule)) }
{
    let automaton = plan.task.automaton;
    match automaton.rules.as_slice().get(rule as usize) {
        None => unreachable!(),
        Some(rule) => {
            let form = place_form(plan, end, first_location(automaton) + rule.from)?;
            Ok(form)
        }
    }
}

/// The row of a guard at the end without the silent places.
fn quiet_at_end(plan: &Plan, silent: &[u32], end: &[Form], guard: u32) -> Result<Form, AllocError>
    requires plan { IsPlan plan.now }
    requires end { SmallVector 3 (vector_of end.now) }
    requires guard { guard < length (guards plan.now.task.automaton.now) }
    ensures { IfOk result (λ form. form_of form ∷ [] ≡ quiet_at plan.now.task.automaton.now plan.now.task.pattern.now silent.now (vector_of end.now) (slice_get (guards plan.now.task.automaton.now) guard)) }
{
    match guard_row(plan.task.automaton, guard) {
        None => unreachable!(),
        Some(row) => {
            let form = quiet_form(plan, silent, end, guard, row)?;
            Ok(form)
        }
    }
}

/// The rows of a rule's guards at the end without the silent places.
fn rows_at_end(
    plan: &Plan,
    silent: &[u32],
    end: &[Form],
    rule: u32,
) -> Result<Vec<Form>, AllocError>
    requires plan { IsPlan plan.now }
    requires end { SmallVector 3 (vector_of end.now) }
    ensures { IfOk result (λ rows. all_forms rows.items ≡ flat_map (λ g. quiet_at plan.now.task.automaton.now plan.now.task.pattern.now silent.now (vector_of end.now) (slice_get (guards plan.now.task.automaton.now) g)) (guards_of plan.now.task.automaton.now (slice_get plan.now.task.automaton.now.rules rule))) }
{
    let mut rows = Vec::new(plan.alloc);
    for guard in 0..guard_count(plan.task.automaton) {
        if has_guard(plan.task.automaton, guard as u32, rule) {
            let row = quiet_at_end(plan, silent, end, guard as u32)?;
            rows.push(row)?;
        }
    }
    Ok(rows)
}

/// A rule at the end.
fn rule_at_end(
    plan: &Plan,
    silent: &[u32],
    end: &[Form],
    rule: u32,
) -> Result<RuleAtEnd, AllocError>
    requires plan { IsPlan plan.now }
    requires end { SmallVector 3 (vector_of end.now) }
    requires rule { rule < length plan.now.task.automaton.now.rules }
    ensures { IfOk result (λ is. rule_of is ≡ rule_at_end plan.now.task.automaton.now plan.now.task.pattern.now silent.now (vector_of end.now) rule) }
{
    let source = source_at_end(plan, end, rule)?;
    let rows = rows_at_end(plan, silent, end, rule)?;
    Ok(RuleAtEnd {
        number: rule,
        source,
        rows: List::from_vec(rows),
    })
}

/// The rules at the end that may be stuck.
fn rules_at_end(plan: &Plan, silent: &[u32], end: &[Form]) -> Result<Vec<RuleAtEnd>, AllocError>
    requires plan { IsPlan plan.now }
    requires end { SmallVector 3 (vector_of end.now) }
    ensures { IfOk result (λ rules. map rule_of rules.items ≡ rules_at_end plan.now.task.automaton.now plan.now.task.pattern.now silent.now (vector_of end.now)) }
{
    let automaton = plan.task.automaton;
    let mut rules = Vec::new(plan.alloc);
    for rule in 0..automaton.rules.as_slice().len() {
        if may_be_stuck(automaton, plan.task.pattern, rule as u32) {
            let is = rule_at_end(plan, silent, end, rule as u32)?;
            rules.push(is)?;
        }
    }
    Ok(rules)
}

/// The rules at the end that may be stuck where it is asked of rest, else none.
fn rules_of(
    plan: &Plan,
    rest: bool,
    silent: &[u32],
    end: &[Form],
) -> Result<Vec<RuleAtEnd>, AllocError>
    requires plan { IsPlan plan.now }
    requires end { SmallVector 3 (vector_of end.now) }
    ensures { IfOk result (λ rules. map rule_of rules.items ≡ cond rest (rules_at_end plan.now.task.automaton.now plan.now.task.pattern.now silent.now (vector_of end.now)) []) }
{
    if rest {
        rules_at_end(plan, silent, end)
    } else {
        Ok(Vec::new(plan.alloc))
    }
}

impl MomentEncoding<'_> {
    /// What the question of the node may be of, where it is asked of rest or not, with these silent
    /// places. Only want of memory is an error.
    pub fn parts<'b>(&'b self, rest: bool, silent: &[u32]) -> Result<NodeParts<'b>, AllocError>
        requires node { IsAnyNode self.now }
        ensures parts { IfOk result (λ parts. (asking : Asking) (candidate : Option ℕ) (past : Items Fact) (bounds : Items Bound) → asking.rest ≡ rest → asking.silent ≡ silent.now → IsNode asking.silent candidate past self.now
            → parts_of parts ≡ parts_at self.now.plan.task.automaton.now self.now.plan.task.pattern.now asking (bounded_node candidate past bounds)) }
        ensures moments { IfOk result (λ parts. parts.moments.now ≡ self.now.draft.moments.items) }
    {
        let end = self.draft.end.as_slice();
        let guards = guards_at_end(&self.plan, end)?;
        let rules = rules_of(&self.plan, rest, silent, end)?;
        Ok(NodeParts {
            moving: self.plan.moving.as_slice(),
            end,
            guards: List::from_vec(guards),
            moments: self.draft.moments.as_slice(),
            rules: List::from_vec(rules),
        })
    }
}
