//! What stands before an unknown where the value of a place is written in unknowns.
#![tactic(auto)]

ghost use Rattle.std.specs.Prelude.{ℕ, ℤ, ◌+◌, ◌≡◌, ◌≤◌, ◌<◌, Some, length, slice_get, unsigned_abs};
ghost use Rattle.std.specs.List.{AllByRecursion};
ghost use Rattle.ta_linear.specs.Terms.{coefficient};
ghost use Rattle.ta_automaton.specs.Places.{rule_change};
ghost use Rattle.ta_base.specs.Sums.{one_if};
ghost use Rattle.ta_automaton.specs.Shape.{Update};
ghost use Rattle.ta_encode.specs.Unknowns.{place_coefficient};

use crate::meaning::Meaning;
use ta_automaton::{Automaton, Rule};
use ta_base::limits::LARGEST_NUMBER;

/// What one of an unknown's value adds at a place.
pub fn place_coefficient(automaton: &Automaton, meaning: Meaning, place: u32) -> i128
    ensures value { result ≡ place_coefficient automaton.now meaning place }
    ensures small { unsigned_abs result ≤ 17000000000 }
{
    match meaning {
        Meaning::Parameter(parameter) => one_if(u64::from(parameter), u64::from(place)),
        Meaning::Start(location) => one_if(
            u64::from(first_location(automaton)) + u64::from(location),
            u64::from(place),
        ),
        Meaning::Count { element: _, rule } => change_of(automaton, rule, place),
        Meaning::Single { element: _, rule } => change_of(automaton, rule, place),
    }
}

/// The place number of the first location.
pub fn first_location(automaton: &Automaton) -> u32
    ensures { result ≡ length automaton.now.parameters + length automaton.now.shared }
{
    (automaton.parameters.as_slice().len() + automaton.shared.as_slice().len()) as u32
}

fn one_if(number: u64, other: u64) -> i128
    ensures { result ≡ one_if number other }
{
    if number == other { 1 } else { 0 }
}

/// What one firing of a rule, by its number, adds at a place.
pub fn change_of(automaton: &Automaton, rule: u32, place: u32) -> i128
    ensures value { result ≡ rule_change automaton.now (slice_get automaton.now.rules rule) place }
    ensures small { unsigned_abs result ≤ 17000000000 }
{
    match automaton.rules.as_slice().get(rule as usize) {
        None => 0,
        Some(rule) => rule_change(automaton, rule, place),
    }
}

fn rule_change(automaton: &Automaton, rule: &Rule, place: u32) -> i128
    requires updates { AllByRecursion (Update (length automaton.now.shared)) rule.now.updates }
    requires limit { length rule.now.updates ≤ 16 }
    ensures value { result ≡ rule_change automaton.now (Some rule.now) place }
    ensures small { unsigned_abs result ≤ 17000000000 }
{
    let first_shared = automaton.parameters.as_slice().len() as u32;
    let first_location = first_location(automaton);
    if place < first_shared {
        0
    } else if place < first_location {
        update_of(rule, place - first_shared)
    } else {
        let location = u64::from(place - first_location);
        one_if(u64::from(rule.to), location) - one_if(u64::from(rule.from), location)
    }
}

/// How much a rule adds to a shared variable.
fn update_of(rule: &Rule, variable: u32) -> i128
    requires limit { length rule.now.updates ≤ 16 }
    requires small { AllByRecursion (λ (t : ℕ × ℤ). unsigned_abs t.1 ≤ LARGEST_NUMBER) rule.now.updates }
    ensures value { result ≡ coefficient rule.now.updates variable }
    ensures small { unsigned_abs result ≤ 16000000000 }
{
    let mut total = 0;
    for (number, amount) in rule.updates.as_slice() {
        if *number == variable {
            total += *amount;
        }
    }
    total
}
