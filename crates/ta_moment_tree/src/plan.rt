//! A pattern beside its automaton, with its moving rules.
#![tactic(auto)]

ghost use Rattle.std.specs.Prelude.{◌≡◌, filter, not, slice_get, IfOk, option_copied};
ghost use Rattle.ta_base.specs.Masks.{has_bit};
ghost use Rattle.ta_moments.specs.Facts.{has_guard, is_moving, moving_rules, needing, sparing};
ghost use Rattle.ta_moments.specs.Moments.{guards};
ghost use Rattle.ta_moment_tree.specs.Plan.{IsPlan};

use std::alloc::{AllocError, Global};
use ta_automaton::{Automaton, Pattern, Task};
use ta_base::List;
use ta_base::masks::contains;
use ta_encode::Meaning;
use ta_linear::Row;

/// A pattern and its automaton, with the moving rules and the unknowns at the start.
#[derive(Drop)]
pub(crate) struct Plan<'a> {
    pub(crate) alloc: Global,
    pub(crate) task: Task<'a>,
    pub(crate) moving: Vec<u32>,
    pub(crate) starts: List<Meaning>,
}

/// Whether a number is in a set.
pub(crate) fn is_in(mask: u128, number: usize) -> bool
    ensures { result ≡ has_bit mask number }
{
    if number < 128 {
        contains(mask, number as u32)
    } else {
        false
    }
}

/// Whether a rule moves a process between locations that aren't kept empty.
pub fn is_moving(automaton: &Automaton, pattern: &Pattern, rule: usize) -> bool
    ensures { result ≡ is_moving pattern.now (slice_get automaton.now.rules rule) }
{
    match automaton.rules.as_slice().get(rule) {
        None => false,
        Some(rule) => {
            rule.from != rule.to
                && !is_in(pattern.empty, rule.from as usize)
                && !is_in(pattern.empty, rule.to as usize)
        }
    }
}

/// The moving rules, in order.
pub(crate) fn moving_rules(
    alloc: Global,
    automaton: &Automaton,
    pattern: &Pattern,
) -> Result<Vec<u32>, AllocError>
    ensures { IfOk result (λ rules. rules.items ≡ moving_rules automaton.now pattern.now) }
{
    let mut rules = Vec::new(alloc);
    for rule in 0..automaton.rules.as_slice().len() {
        if is_moving(automaton, pattern, rule) {
            rules.push(rule as u32)?;
        }
    }
    Ok(rules)
}

/// Whether a rule has a guard.
pub fn has_guard(automaton: &Automaton, guard: u32, rule: u32) -> bool
    ensures { result ≡ has_guard automaton.now guard (slice_get automaton.now.rules rule) }
{
    let rises = automaton.rise.as_slice().len() as u32;
    match automaton.rules.as_slice().get(rule as usize) {
        None => false,
        Some(rule) => {
            if guard < rises {
                is_in(u128::from(rule.rise), guard as usize)
            } else {
                is_in(u128::from(rule.fall), (guard - rises) as usize)
            }
        }
    }
}

/// Of some rules those that need a guard, in order.
fn needing(
    alloc: Global,
    automaton: &Automaton,
    moving: &[u32],
    guard: u32,
) -> Result<Vec<u32>, AllocError>
    ensures { IfOk result (λ rules. rules.items ≡ filter (λ r. has_guard automaton.now guard (slice_get automaton.now.rules r)) moving.now) }
{
    let mut rules = Vec::new(alloc);
    for rule in moving {
        if has_guard(automaton, guard, *rule) {
            rules.push(*rule)?;
        }
    }
    Ok(rules)
}

/// Of some rules those that don't need a guard, in order.
fn sparing(
    alloc: Global,
    automaton: &Automaton,
    moving: &[u32],
    guard: u32,
) -> Result<Vec<u32>, AllocError>
    ensures { IfOk result (λ rules. rules.items ≡ filter (λ r. not (has_guard automaton.now guard (slice_get automaton.now.rules r))) moving.now) }
{
    let mut rules = Vec::new(alloc);
    for rule in moving {
        if !has_guard(automaton, guard, *rule) {
            rules.push(*rule)?;
        }
    }
    Ok(rules)
}

impl<'a> Plan<'a> {
    /// The moving rules that need a guard, in order.
    pub(crate) fn needing(&self, guard: u32) -> Result<Vec<u32>, AllocError>
        requires { IsPlan self.now }
        ensures { IfOk result (λ rules. rules.items ≡ needing self.now.task.automaton.now self.now.task.pattern.now guard) }
    {
        let rules = needing(
            self.alloc,
            self.task.automaton,
            self.moving.as_slice(),
            guard,
        )?;
        Ok(rules)
    }

    /// The moving rules that don't need a guard, in order.
    pub(crate) fn sparing(&self, guard: u32) -> Result<Vec<u32>, AllocError>
        requires { IsPlan self.now }
        ensures { IfOk result (λ rules. rules.items ≡ sparing self.now.task.automaton.now self.now.task.pattern.now guard) }
    {
        let rules = sparing(
            self.alloc,
            self.task.automaton,
            self.moving.as_slice(),
            guard,
        )?;
        Ok(rules)
    }
}

/// A guard's row: the rise guards come first.
pub(crate) fn guard_row(automaton: &Automaton, guard: u32) -> Option<&Row>
    ensures { option_copied result ≡ slice_get (guards automaton.now) guard }
{
    let guard = guard as usize;
    let rises = automaton.rise.as_slice();
    if guard < rises.len() {
        rises.get(guard)
    } else {
        automaton.fall.as_slice().get(guard - rises.len())
    }
}
