//! Takes circulations out of counts.
//!
//! While the rules with a count above 0 have a cycle, the least rule on one, with the first path
//! from its target back to its source, is such a cycle, and the least of its counts is subtracted
//! from each of them. Each location of a cycle is entered as often as it is left, so the end of the
//! counts stays the same. One count becomes 0 each time: there are no more rounds than rules.
#![tactic(auto)]

ghost use Rattle.std.specs.Prelude.{ℕ, ℤ, pos, ◌<◌, ◌≤◌, ◌≡◌, ◌⊎◌, ◌↔◌, ◌≤ℤ◌, length, slice_get, Some, IsTrue, IfOk, IfSome, IfNone, IsBitSet};
ghost use Rattle.std.specs.List.{AllByRecursion};
ghost use Rattle.ta_base.specs.Masks.{In};
ghost use Rattle.ta_base.specs.Lists.{Distinct};
ghost use Rattle.ta_scope.specs.Cycles.{OnCycle, NoCycle};
ghost use Rattle.ta_scope.specs.Arranged.{AreRuleCounts, Support, LeastCount, SubtractsFrom, count_at};
ghost use Rattle.ta_scope.specs.Inside.Taking.{IsLeastCycle, IsCycleOf, FullyTakenOut};

use crate::path::first_path;
use std::alloc::{AllocError, Global};
use ta_automaton::{Automaton, Rule};
use ta_base::LongMask;

/// The counts without their circulations.
pub fn without_circulations(
    alloc: Global,
    automaton: &Automaton,
    counts: &[i128],
) -> Result<Vec<i128>, AllocError>
    requires { AreRuleCounts automaton.now counts.now }
    ensures { IfOk result (λ rest. FullyTakenOut automaton.now counts.now rest.items) }
{
    let mut rest = Vec::new(alloc);
    rest.extend_from_slice(counts)?;
    while let Some(cycle) = first_cycle(alloc, automaton, &support_of(rest.as_slice()))? {
        take_out(rest.as_mut_slice(), cycle.as_slice());
    }
    Ok(rest)
}

/// The mask of the rules with a count above 0.
pub fn support_of(counts: &[i128]) -> LongMask
    requires { length counts.now ≤ 1024 }
    ensures { Support counts.now result }
{
    let mut rules = LongMask::empty();
    for (number, count) in counts.iter().enumerate() {
        insert_counted(&mut rules, number as u32, *count);
    }
    rules
}

/// Puts a rule into a mask of rules, where its count is above 0.
fn insert_counted(rules: &mut LongMask, number: u32, count: i128)
    requires { number < 1024 }
    ensures { (r : ℕ) → IsBitSet rules.new r ↔ (IsBitSet rules.old r ⊎ ((r ≡ number) × (pos 1 ≤ℤ count))) }
{
    if count > 0 {
        rules.insert(number);
    }
}

/// The least rule on a cycle of a mask's rules, and the first path from its target back to its
/// source.
fn first_cycle(
    alloc: Global,
    automaton: &Automaton,
    rules: &LongMask,
) -> Result<Option<Vec<u32>>, AllocError>
    ensures some { IfOk result (λ found. IfSome found (λ cycle. IsLeastCycle automaton.now rules.now cycle.items)) }
    ensures none { IfOk result (λ found. IfNone found (NoCycle automaton.now rules.now)) }
{
    for (number, rule) in automaton.rules.as_slice().iter().enumerate() {
        if let Some(cycle) = cycle_of(alloc, automaton, rules, number as u32, rule)? {
            return Ok(Some(cycle));
        }
    }
    Ok(None)
}

/// A rule of a mask, and the first path from its target back to its source, if there is one.
fn cycle_of(
    alloc: Global,
    automaton: &Automaton,
    rules: &LongMask,
    number: u32,
    rule: &Rule,
) -> Result<Option<Vec<u32>>, AllocError>
    requires { slice_get automaton.now.rules number ≡ Some rule.now }
    ensures some { IfOk result (λ found. IfSome found (λ cycle. IsCycleOf automaton.now rules.now number rule.now cycle.items)) }
    ensures none { IfOk result (λ found. IfNone found (IsBitSet rules.now number → ¬ OnCycle automaton.now rules.now rule.now)) }
{
    if !rules.contains(number) {
        return Ok(None);
    }
    match first_path(alloc, automaton, rules, rule.to, rule.from)? {
        Some(back) => {
            let mut cycle = Vec::new(alloc);
            cycle.push(number)?;
            cycle.extend_from_slice(back.as_slice())?;
            Ok(Some(cycle))
        }
        None => Ok(None),
    }
}

/// Subtracts the least of the counts of some rules from each of them.
fn take_out(counts: &mut [i128], rules: &[u32])
    requires some { 1 ≤ length rules.now }
    requires within { AllByRecursion (λ r. r < length counts.old) rules.now }
    requires distinct { Distinct rules.now }
    requires natural { (r : ℕ) → pos 0 ≤ℤ count_at counts.old r }
    ensures { (amount : ℤ) × LeastCount counts.old rules.now amount × SubtractsFrom rules.now amount counts.old counts.new }
{
    let amount = least_count(counts, rules);
    subtract(counts, rules, amount);
}

/// The least of the counts of some rules.
fn least_count(counts: &[i128], rules: &[u32]) -> i128
    requires some { 1 ≤ length rules.now }
    requires within { AllByRecursion (λ r. r < length counts.now) rules.now }
    ensures { LeastCount counts.now rules.now result }
{
    let mut least = counts[rules[0] as usize];
    for number in rules {
        least = least.min(counts[*number as usize]);
    }
    least
}

/// Subtracts an amount from the counts of some rules.
fn subtract(counts: &mut [i128], rules: &[u32], amount: i128)
    requires within { AllByRecursion (λ r. r < length counts.old) rules.now }
    requires distinct { Distinct rules.now }
    requires natural { pos 0 ≤ℤ amount }
    requires least { (r : ℕ) → In r rules.now → amount ≤ℤ count_at counts.old r }
    ensures { SubtractsFrom rules.now amount counts.old counts.new }
{
    for number in rules {
        counts[*number as usize] -= amount;
    }
}
