//! The locations in an order in which every rule leads forward: a topological order, least location
//! first.
#![tactic(auto)]

ghost use Rattle.std.specs.Prelude.{ℕ, ◌<◌, ◌↔◌, length, IsTrue, IsBitSet, Contains, IfOk, IfSome, IfNone};
ghost use Rattle.ta_scope.specs.Cycles.{NoCycle};
ghost use Rattle.ta_scope.specs.Order.{Blocks, Ready, Next, IsLocationOrder};

use std::alloc::{AllocError, Global};
use ta_automaton::{Automaton, Rule};
use ta_base::LongMask;

/// The locations in an order in which every rule of a mask between two of them goes forward: again
/// and again the least location to which no rule of the mask leads from another remaining one.
pub fn order_of(
    alloc: Global,
    automaton: &Automaton,
    rules: &LongMask,
) -> Result<Vec<u32>, AllocError>
    requires { NoCycle automaton.now rules.now }
    ensures { IfOk result (λ order. IsLocationOrder automaton.now rules.now order.items) }
{
    let mut order = Vec::new(alloc);
    while let Some(location) = next_location(automaton, rules, order.as_slice()) {
        order.push(location)?;
    }
    Ok(order)
}

/// The least remaining location to which no rule of a mask leads from another remaining one.
fn next_location(automaton: &Automaton, rules: &LongMask, placed: &[u32]) -> Option<u32>
    ensures some { IfSome result (λ location. Next automaton.now rules.now placed.now location) }
    ensures none { IfNone result ((l : ℕ) → l < length automaton.now.locations → ¬ Ready automaton.now rules.now placed.now l) }
{
    let count = automaton.locations.as_slice().len() as u32;
    for location in 0..count {
        if is_ready(automaton, rules, placed, location) {
            return Some(location);
        }
    }
    None
}

/// Whether a location remains and no rule of a mask leads to it from another remaining one.
fn is_ready(automaton: &Automaton, rules: &LongMask, placed: &[u32], location: u32) -> bool
    ensures { IsTrue result ↔ Ready automaton.now rules.now placed.now location }
{
    if is_placed(placed, location) {
        return false;
    }
    for (number, rule) in automaton.rules.as_slice().iter().enumerate() {
        if blocks(rules, placed, location, number as u32, rule) {
            return false;
        }
    }
    true
}

/// Whether a rule of a mask leads to a location from another one that remains.
fn blocks(rules: &LongMask, placed: &[u32], location: u32, number: u32, rule: &Rule) -> bool
    requires { number < 1024 }
    ensures { IsTrue result ↔ (IsBitSet rules.now number × Blocks placed.now location rule.now) }
{
    rules.contains(number)
        && rule.to == location
        && rule.from != location
        && !is_placed(placed, rule.from)
}

/// Whether a location is placed already.
fn is_placed(placed: &[u32], location: u32) -> bool
    ensures { IsTrue result ↔ Contains placed.now location }
{
    placed.contains(&location)
}
