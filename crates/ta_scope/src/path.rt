//! The first path between two locations by some of the rules: the fewest rules, and of these lists
//! the least.
//!
//! The distance is the number of rounds in which a mask of locations comes to have the target, if
//! each round adds where the rules lead from it. Then the path is followed from its beginning: at
//! each location the least rule that leads to one from which the distance is one less. So the path
//! is determined, and with it the run of a solution.
#![tactic(auto)]

ghost use Rattle.std.specs.Prelude.{ℕ, ◌+◌, ◌<◌, ◌≤◌, ◌≡◌, ◌⊎◌, ◌↔◌, length, slice_get, Some, IsTrue, IfOk, IfSome, IfNone, IsBitSet};
ghost use Rattle.ta_scope.specs.Cycles.{Reaches};
ghost use Rattle.ta_scope.specs.Arranged.{FirstPath};
ghost use Rattle.ta_scope.specs.Inside.Distances.{Distance, LeadsTo, AddsNextLocations, IsStep, FirstStep};

use std::alloc::{AllocError, Global};
use ta_automaton::{Automaton, Rule};
use ta_base::LongMask;
use ta_base::masks::contains;

/// The path of a mask's rules with the fewest rules, and among several such paths the least list of
/// numbers.
pub fn first_path(
    alloc: Global,
    automaton: &Automaton,
    rules: &LongMask,
    from: u32,
    to: u32,
) -> Result<Option<Vec<u32>>, AllocError>
    requires from_exists { from < length automaton.now.locations }
    requires to_exists { to < length automaton.now.locations }
    ensures some { IfOk result (λ found. IfSome found (λ path. FirstPath automaton.now rules.now from path.items to)) }
    ensures none { IfOk result (λ found. IfNone found (¬ Reaches automaton.now rules.now from to)) }
{
    match distance(automaton, rules, from, to) {
        Some(count) => Ok(Some(path_of(alloc, automaton, rules, from, to, count)?)),
        None => Ok(None),
    }
}

/// The first path between two locations at a distance.
fn path_of(
    alloc: Global,
    automaton: &Automaton,
    rules: &LongMask,
    from: u32,
    to: u32,
    count: u128,
) -> Result<Vec<u32>, AllocError>
    requires from_exists { from < length automaton.now.locations }
    requires to_exists { to < length automaton.now.locations }
    requires distance { Distance automaton.now rules.now from to count }
    ensures { IfOk result (λ path. FirstPath automaton.now rules.now from path.items to) }
{
    let mut path = Vec::new(alloc);
    let mut location = from;
    let mut left = count;
    while left > 0 {
        left -= 1;
        let number = first_step(automaton, rules, location, to, left);
        path.push(number)?;
        location = target(automaton, number);
    }
    Ok(path)
}

/// Where a rule leads.
fn target(automaton: &Automaton, number: u32) -> u32
    requires { number < length automaton.now.rules }
    ensures { (rule : Rule) → slice_get automaton.now.rules number ≡ Some rule → result ≡ rule.to }
{
    automaton.rules.as_slice()[number as usize].to
}

/// The least rule that leaves a location toward another one.
fn first_step(automaton: &Automaton, rules: &LongMask, from: u32, to: u32, left: u128) -> u32
    requires to_exists { to < length automaton.now.locations }
    requires distance { Distance automaton.now rules.now from to (left + 1) }
    ensures { FirstStep automaton.now rules.now from to left result }
{
    for (number, rule) in automaton.rules.as_slice().iter().enumerate() {
        if is_step(automaton, rules, from, to, left, number as u32, rule) {
            return number as u32;
        }
    }
    unreachable!()
}

/// Whether a rule of a mask leaves a location and leads to one at a distance from another.
fn is_step(
    automaton: &Automaton,
    rules: &LongMask,
    from: u32,
    to: u32,
    left: u128,
    number: u32,
    rule: &Rule,
) -> bool
    requires number_fits { number < 1024 }
    requires target_exists { rule.now.to < length automaton.now.locations }
    requires to_exists { to < length automaton.now.locations }
    ensures { IsTrue result ↔ IsStep automaton.now rules.now from to left number rule.now }
{
    rules.contains(number) && rule.from == from && is_distance(automaton, rules, rule.to, to, left)
}

/// Whether so many rules are the fewest that lead from one location to another.
fn is_distance(automaton: &Automaton, rules: &LongMask, from: u32, to: u32, count: u128) -> bool
    requires from_exists { from < length automaton.now.locations }
    requires to_exists { to < length automaton.now.locations }
    ensures { IsTrue result ↔ Distance automaton.now rules.now from to count }
{
    match distance(automaton, rules, from, to) {
        Some(fewest) => fewest == count,
        None => false,
    }
}

/// The fewest rules of a mask that lead from one location to another. Each round adds a location, so
/// they are fewer than the mask as a number.
fn distance(automaton: &Automaton, rules: &LongMask, from: u32, to: u32) -> Option<u128>
    requires from_exists { from < length automaton.now.locations }
    requires to_exists { to < length automaton.now.locations }
    ensures some { IfSome result (λ count. Distance automaton.now rules.now from to count) }
    ensures none { IfNone result (¬ Reaches automaton.now rules.now from to) }
{
    let mut reached: u128 = 1 << from;
    let mut count = 0u128;
    while !contains(reached, to) {
        let more = stepped(automaton, rules, reached);
        if more == reached {
            return None;
        }
        reached = more;
        count += 1;
    }
    Some(count)
}

/// The locations of a mask, and those to which rules lead from one of them.
fn stepped(automaton: &Automaton, rules: &LongMask, mask: u128) -> u128
    ensures stepped { AddsNextLocations automaton.now rules.now mask result }
    ensures grows { mask ≤ result }
{
    let mut more = mask;
    for (number, rule) in automaton.rules.as_slice().iter().enumerate() {
        more = with_target(rules, mask, more, number as u32, rule);
    }
    more
}

/// A mask of locations with a rule's target, where the rule is in a mask of rules and leads from a
/// location of a mask of locations.
fn with_target(rules: &LongMask, mask: u128, more: u128, number: u32, rule: &Rule) -> u128
    requires number_fits { number < 1024 }
    requires from_fits { rule.now.from < 128 }
    requires to_fits { rule.now.to < 128 }
    ensures grown { (l : ℕ) → IsBitSet result l ↔ (IsBitSet more l ⊎ LeadsTo rules.now mask l number rule.now) }
    ensures grows { more ≤ result }
{
    if rules.contains(number) && contains(mask, rule.from) {
        return more | (1 << rule.to);
    }
    more
}
