//! Turns how often each rule fires into steps that go forward.
//!
//! First circulations are taken out (circulation.rt): in scope no rule on a cycle has an update, so
//! firings round a cycle change nothing together. The rules that are left have no cycle, so the
//! locations have an order in which each rule leads forward (order.rt). The rules are listed by
//! their sources in that order, each with its count.
//!
//! Why the steps are possible: when the rules of a location fire, nothing that still has to fire
//! leads into it. So its counter rises first and then falls to its value at the end; if that is
//! natural, no process is missing on the way (proofs/ArrangedLaws.antt). Each rule stands at most
//! once in the list, which makes runs short.
#![tactic(auto)]

ghost use Rattle.std.specs.Prelude.{ℕ, ℤ, pos, ◌<◌, ◌≡◌, ◌==◌, ◌&&◌, if◌then◌else◌, int_lt, List, [], ◌∷◌, ◌++◌, length, IfOk, IsOk};
ghost use Rattle.ta_scope.specs.Arranged.{AreRuleCounts, ArrangedOf, steps_along};
ghost use Rattle.ta_scope.specs.Inside.Listed.{steps_from};

use crate::circulation::{support_of, without_circulations};
use crate::order::order_of;
use crate::scoped::ScopedFile;
use std::alloc::{AllocError, Global};
use ta_automaton::{Automaton, Rule};
use ta_base::List;

/// Steps that go forward: the numbers of rules, each with how often it fires, from 1 on.
#[derive(Drop)]
pub struct Arranged {
    pub steps: List<(u32, i128)>,
}

impl ScopedFile {
    /// The steps of counts, one for each rule: circulations are taken out, and what is left is
    /// listed by the order of the sources, then by number.
    pub fn arrange(&self, alloc: Global, counts: &[i128]) -> Result<Arranged, AllocError>
        requires { AreRuleCounts self.now.file.automaton counts.now }
        ensures { IfOk result (λ arranged. ArrangedOf self.now.file.automaton counts.now arranged.steps) }
    {
        let automaton = &self.file.automaton;
        let rest = without_circulations(alloc, automaton, counts)?;
        let order = order_of(alloc, automaton, &support_of(rest.as_slice()))?;
        let steps = steps_of(alloc, automaton, rest.as_slice(), order.as_slice())?;
        Ok(Arranged {
            steps: List::from_vec(steps),
        })
    }
}

/// The rules with a count above 0, each with its count, by their source in an order of the
/// locations and then by number.
fn steps_of(
    alloc: Global,
    automaton: &Automaton,
    counts: &[i128],
    order: &[u32],
) -> Result<Vec<(u32, i128)>, AllocError>
    requires { length counts.now ≡ length automaton.now.rules }
    ensures { IfOk result (λ steps. steps.items ≡ steps_along automaton.now counts.now order.now) }
{
    let mut steps = Vec::new(alloc);
    for location in order {
        push_steps(&mut steps, automaton, counts, *location)?;
    }
    Ok(steps)
}

/// Adds the rules that leave a location and have a count above 0, each with its count.
fn push_steps(
    steps: &mut Vec<(u32, i128)>,
    automaton: &Automaton,
    counts: &[i128],
    location: u32,
) -> Result<(), AllocError>
    requires { length counts.now ≡ length automaton.now.rules }
    ensures { IsOk result → steps.new.items ≡ steps.old.items ++ steps_from automaton.now counts.now location (length automaton.now.rules) }
{
    for (number, rule) in automaton.rules.as_slice().iter().enumerate() {
        push_step(steps, counts[number], location, number as u32, rule)?;
    }
    Ok(())
}

/// Adds a rule with its count, where it leaves a location and the count is above 0.
fn push_step(
    steps: &mut Vec<(u32, i128)>,
    count: i128,
    location: u32,
    number: u32,
    rule: &Rule,
) -> Result<(), AllocError>
    ensures { IsOk result → steps.new.items ≡ steps.old.items ++ (if (rule.now.from == location) && int_lt (pos 0) count then (number, count) ∷ [] else []) }
{
    if rule.from == location && count > 0 {
        steps.push((number, count))?;
    }
    Ok(())
}
