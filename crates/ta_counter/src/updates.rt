//! What a rule does to the values of the places.
#![tactic(auto)]

ghost use Rattle.std.specs.Prelude.{ℕ, ◌≡◌, ◌+◌, ◌<◌, ◌≤◌, ◌↔◌, ◌+ℤ◌, ◌-ℤ◌, ◌*ℤ◌, ◌≤ℤ◌, pos, length, IsTrue, OnOk, IfOk, IfErr};
ghost use Rattle.std.specs.List.{AllByRecursion};
ghost use Rattle.ta_linear.specs.Numbers.{InRange};
ghost use Rattle.ta_linear.specs.Values.{point_of};
ghost use Rattle.ta_automaton.specs.Places.{location_place};
ghost use Rattle.ta_base.specs.Sums.{one_if};
ghost use Rattle.ta_automaton.specs.Shape.{RuleWithin};
ghost use Rattle.ta_counter.specs.Values.{Value};
ghost use Rattle.ta_counter.specs.Configs.{AreOf, counters_of, places_of, sum_of};
ghost use Rattle.ta_counter.specs.Steps.{AllGrow, Enough, StepFails, StepIsTaken, UpdateOutOfRange, shifted};
ghost use Rattle.ta_counter.specs.declared.fault.StepFault.TheVariants.{OutOfRange};

use crate::config::Places;
use crate::fault::StepFault;
use crate::guards::check_guards;
use arrayvec::ArrayVec;
use ta_automaton::{Automaton, Rule};
use ta_linear::plus_product;

/// The values after `factor` firings in a row, or the first check that fails.
pub(crate) fn values_after(
    automaton: &Automaton,
    rule: &Rule,
    factor: i128,
    values: &[i128],
) -> Result<Places, StepFault>
    requires within { RuleWithin (length automaton.now.shared) (length automaton.now.locations) (length automaton.now.rise) (length automaton.now.fall) rule.now }
    requires factor { pos 1 ≤ℤ factor }
    requires natural { AllByRecursion Value values.now }
    requires is_of { AreOf automaton.now values.now }
    ensures ok { IfOk result (λ after. StepIsTaken automaton.now rule.now factor values.now after.items) }
    ensures natural { IfOk result (λ after. AllByRecursion Value after.items) }
    ensures is_of { IfOk result (λ after. AreOf automaton.now after.items) }
    ensures fails { IfErr result (λ fault. StepFails automaton.now rule.now factor values.now fault) }
{
    if !has_enough(automaton, rule, factor, values) {
        return Err(StepFault::Count);
    }
    let mut after = copy_of(values);
    add_updates(automaton, rule, factor, after.as_mut_slice())?;
    let mut before_last = copy_of(values);
    add_updates(automaton, rule, factor - 1, before_last.as_mut_slice())?;
    check_guards(automaton, rule, values, before_last.as_slice())?;
    move_processes(automaton, rule, factor, after.as_mut_slice());
    Ok(after)
}

/// A copy of at most 224 values.
pub(crate) fn copy_of(values: &[i128]) -> Places
    requires { length values.now ≤ 224 }
    ensures { result.items ≡ values.now }
{
    let mut copy = ArrayVec::new();
    let _all = copy.try_extend_from_slice(values);
    copy
}

/// The place of a location's counter.
fn place_of(automaton: &Automaton, location: u32) -> usize
    requires { location < length automaton.now.locations }
    ensures { result ≡ location_place automaton.now location }
{
    automaton.parameters.as_slice().len() + automaton.shared.as_slice().len() + location as usize
}

/// Whether the rule's source has enough processes.
fn has_enough(automaton: &Automaton, rule: &Rule, factor: i128, values: &[i128]) -> bool
    requires from { rule.now.from < length automaton.now.locations }
    requires places { length values.now ≡ places_of automaton.now }
    ensures { IsTrue result ↔ Enough automaton.now rule.now factor values.now }
{
    let needed = if rule.from == rule.to { 1 } else { factor };
    needed <= values[place_of(automaton, rule.from)]
}

/// Adds the rule's updates a number of times.
fn add_updates(
    automaton: &Automaton,
    rule: &Rule,
    times: i128,
    values: &mut [i128],
) -> Result<(), StepFault>
    requires within { RuleWithin (length automaton.now.shared) (length automaton.now.locations) (length automaton.now.rise) (length automaton.now.fall) rule.now }
    requires times { pos 0 ≤ℤ times }
    requires places { length values.old ≡ places_of automaton.now }
    requires natural { AllByRecursion Value values.old }
    ensures grow { OnOk result (AllGrow automaton.now rule.now times values.old) }
    ensures shifted { OnOk result ((place : ℕ) → point_of values.new place ≡ shifted automaton.now rule.now times values.old place) }
    ensures natural { OnOk result (AllByRecursion Value values.new) }
    ensures leaves { IfErr result (λ fault. (place : ℕ) × (fault ≡ OutOfRange place) × UpdateOutOfRange automaton.now rule.now times values.old place) }
{
    let first = automaton.parameters.as_slice().len() as u32;
    for (variable, amount) in rule.updates.as_slice() {
        let place = first + *variable;
        let old = values[place as usize];
        let Some(sum) = plus_product(old, times, *amount) else {
            return Err(StepFault::OutOfRange(place));
        };
        values[place as usize] = sum;
    }
    Ok(())
}

/// Moves processes from the rule's source to its target.
fn move_processes(automaton: &Automaton, rule: &Rule, factor: i128, values: &mut [i128])
    requires within { RuleWithin (length automaton.now.shared) (length automaton.now.locations) (length automaton.now.rise) (length automaton.now.fall) rule.now }
    requires factor { pos 1 ≤ℤ factor }
    requires places { length values.old ≡ places_of automaton.now }
    requires natural { AllByRecursion Value values.old }
    requires enough { Enough automaton.now rule.now factor values.old }
    requires fits { InRange (sum_of (counters_of automaton.now values.old)) }
    ensures moved { (place : ℕ) → point_of values.new place ≡ (point_of values.old place +ℤ (factor *ℤ (one_if (location_place automaton.now rule.now.to) place -ℤ one_if (location_place automaton.now rule.now.from) place))) }
    ensures natural { AllByRecursion Value values.new }
    ensures sum { sum_of (counters_of automaton.now values.new) ≡ sum_of (counters_of automaton.now values.old) }
{
    if rule.from != rule.to {
        let from = place_of(automaton, rule.from);
        let to = place_of(automaton, rule.to);
        let left = values[from] - factor;
        let arrived = values[to] + factor;
        values[from] = left;
        values[to] = arrived;
    }
}
