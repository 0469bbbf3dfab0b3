//! Where a tree of questions begins, and which questions there are at a node.
#![tactic(auto)]

ghost use Rattle.std.specs.Prelude.{ℕ, ◌≡◌, ◌↔◌, ◌≤◌, ◌+◌, ◌&&◌, IfOk, not, filter, length, map, nat_lt, slice_get, true, List, Option, Some};
ghost use Rattle.std.specs.List.{range_with_len};
ghost use Rattle.ta_moments.specs.Facts.{candidates, has_later, may_be_stuck};
ghost use Rattle.ta_moments.specs.declared.fact.Fact.{Fact};
ghost use Rattle.ta_moments.specs.Moments.{known};
ghost use Rattle.ta_moments.specs.Refutes.{Asking, Exists, root};
ghost use Rattle.ta_automaton.specs.declared.automaton.Automaton.{Automaton};
ghost use Rattle.ta_moments.specs.Searched.{Maker};
ghost use Rattle.ta_moments.specs.Searched.{exists_as, moment_search, pending_of};
ghost use Rattle.ta_moment_tree.specs.Nodes.{IsNode};

use crate::encoding::MomentEncoding;
use crate::first::comes_after;
use crate::moment::Moment;
use crate::plan::is_in;
use std::alloc::{AllocError, Global};
use ta_automaton::{Automaton, Pattern, Task};
use ta_base::List;
use ta_moments::Question;

/// Whether some event comes after one.
pub fn has_later(pattern: &Pattern, event: usize) -> bool
    ensures { result ≡ has_later pattern.now event }
{
    for other in 0..pattern.events.as_slice().len() {
        if comes_after(pattern, other, event) {
            return true;
        }
    }
    false
}

/// The events that no other comes after, in order.
fn last_events(alloc: Global, pattern: &Pattern) -> Result<Vec<Option<u32>>, AllocError>
    requires { length pattern.now.events ≤ 8 }
    ensures { IfOk result (λ events. events.items ≡ map Some (filter (λ e. not (has_later pattern.now e)) (range_with_len 0 (length pattern.now.events)))) }
{
    let mut events = Vec::new(alloc);
    for event in 0..pattern.events.as_slice().len() {
        if !has_later(pattern, event) {
            events.push(Some(event as u32))?;
        }
    }
    Ok(events)
}

/// The events that may be the last, in order; none where the pattern has no event. A tree of
/// questions begins at each of them. Only want of memory is an error.
pub fn candidates(alloc: Global, task: Task<'_>) -> Result<List<Option<u32>>, AllocError>
    ensures events { IfOk result (λ events. events ≡ candidates task.entry.pattern.now) }
    ensures roots { IfOk result (λ events. (a : Automaton) (asking : Asking) (maker : Maker) → map (λ c. pending_of (root c)) events ≡ (moment_search a task.entry.pattern.now asking maker).roots) }
{
    if task.pattern.events.as_slice().is_empty() {
        let mut none = Vec::new(alloc);
        none.push(None)?;
        return Ok(List::from_vec(none));
    }
    let events = last_events(alloc, task.pattern)?;
    Ok(List::from_vec(events))
}

/// Whether it may be asked what keeps a rule from firing.
pub fn may_be_stuck(automaton: &Automaton, pattern: &Pattern, rule: u32) -> bool
    ensures { result ≡ may_be_stuck pattern.now (slice_get automaton.now.rules rule) }
{
    match automaton.rules.as_slice().get(rule as usize) {
        None => false,
        Some(rule) => {
            let source = rule.from;
            source != rule.to && !is_in(pattern.empty, source as usize)
        }
    }
}

/// Whether a guard has this number.
pub fn is_guard(automaton: &Automaton, guard: u32) -> bool
    ensures { result ≡ nat_lt guard (length automaton.now.rise + length automaton.now.fall) }
{
    let guards = automaton.rise.as_slice().len() + automaton.fall.as_slice().len();
    (guard as usize) < guards
}

/// Whether a question of the order of two of these moments exists.
fn is_order(moments: &[Moment], one: u32, other: u32) -> bool
    ensures { result ≡ (nat_lt one other && nat_lt other (length moments.now)) }
{
    one < other && (other as usize) < moments.len()
}

impl MomentEncoding<'_> {
    /// Whether a question exists at the node.
    fn exists_as(&self, rest: bool, question: Question) -> bool
        ensures { (asking : Asking) (candidate : Option ℕ) (past : List Fact) → asking.rest ≡ rest → IsNode asking.silent candidate past self.now → result ≡ exists_as self.now.plan.task.automaton.now self.now.plan.task.pattern.now asking (known self.now.plan.task.automaton.now self.now.plan.task.pattern.now asking.silent candidate past) question }
    {
        let automaton = self.plan.task.automaton;
        match question {
            Question::OfGuard(guard) => is_guard(automaton, guard),
            Question::OfOrder(one, other) => is_order(self.draft.moments.as_slice(), one, other),
            Question::OfStuck(rule) => {
                rest && may_be_stuck(automaton, self.plan.task.pattern, rule)
            }
        }
    }

    /// Whether a question exists at the node: of a guard of the automaton, of two of its moments, the
    /// lower number first, or, where it is asked of rest, of a rule that may be stuck.
    pub fn question_exists(&self, rest: bool, question: Question) -> bool
        ensures computed { (asking : Asking) (candidate : Option ℕ) (past : List Fact) → asking.rest ≡ rest → IsNode asking.silent candidate past self.now → result ≡ exists_as self.now.plan.task.automaton.now self.now.plan.task.pattern.now asking (known self.now.plan.task.automaton.now self.now.plan.task.pattern.now asking.silent candidate past) question }
        ensures exists { (asking : Asking) (candidate : Option ℕ) (past : List Fact) → asking.rest ≡ rest → IsNode asking.silent candidate past self.now → (result ≡ true) ↔ Exists self.now.plan.task.automaton.now self.now.plan.task.pattern.now asking (known self.now.plan.task.automaton.now self.now.plan.task.pattern.now asking.silent candidate past) question }
    {
        self.exists_as(rest, question)
    }
}
