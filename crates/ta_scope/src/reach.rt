//! Which locations lead to which, by some of the rules.
#![tactic(auto)]

ghost use Rattle.std.specs.Prelude.{ℕ, ◌<◌, ◌↔◌, length, slice_index, IsTrue, IfOk, IfSome, IfNone, IsBitSet};
ghost use Rattle.ta_scope.specs.Cycles.{Reaches, IsReachTable};
ghost use Rattle.ta_scope.specs.Inside.Reached.{LeadsOut, AddsLocation, IsClosed};

use std::alloc::{AllocError, Global};
use ta_automaton::{Automaton, Rule};
use ta_base::LongMask;
use ta_base::masks::contains;

/// For each location the mask of the locations to which rules of a mask lead from it. Bit l of an
/// item names location l.
pub fn leads(
    alloc: Global,
    automaton: &Automaton,
    rules: &LongMask,
) -> Result<Vec<u128>, AllocError>
    ensures { IfOk result (λ table. IsReachTable automaton.now rules.now table.items) }
{
    let mut table = Vec::new(alloc);
    let count = automaton.locations.as_slice().len() as u32;
    for location in 0..count {
        table.push(reached_from(automaton, rules, location))?;
    }
    Ok(table)
}

/// Whether a rule lies on a cycle, by the table of some rules: its target leads back to its source.
pub fn is_on_cycle(table: &[u128], rule: &Rule) -> bool
    requires to { rule.now.to < length table.now }
    requires from { rule.now.from < 128 }
    ensures { IsTrue result ↔ IsBitSet (slice_index table.now rule.now.to) rule.now.from }
{
    contains(table[rule.to as usize], rule.from)
}

/// The mask of the locations to which rules of a mask lead from a location.
fn reached_from(automaton: &Automaton, rules: &LongMask, location: u32) -> u128
    requires { location < length automaton.now.locations }
    ensures { (y : ℕ) → IsBitSet result y ↔ Reaches automaton.now rules.now location y }
{
    let mut reached: u128 = 1 << location;
    while let Some(more) = grown(automaton, rules, reached) {
        reached = more;
    }
    reached
}

/// A mask with one more location, to which a rule leads out of the mask, if there is one.
fn grown(automaton: &Automaton, rules: &LongMask, mask: u128) -> Option<u128>
    ensures some { IfSome result (λ more. AddsLocation automaton.now rules.now mask more) }
    ensures greater { IfSome result (λ more. mask < more) }
    ensures none { IfNone result (IsClosed automaton.now rules.now mask) }
{
    for (number, rule) in automaton.rules.as_slice().iter().enumerate() {
        if leads_out(rules, mask, number as u32, rule) {
            return Some(mask | (1 << rule.to));
        }
    }
    None
}

/// Whether a rule is in a mask of rules and leads from a location of a mask to one beside it.
fn leads_out(rules: &LongMask, mask: u128, number: u32, rule: &Rule) -> bool
    requires number_fits { number < 1024 }
    requires from_fits { rule.now.from < 128 }
    requires to_fits { rule.now.to < 128 }
    ensures { IsTrue result ↔ LeadsOut rules.now mask number rule.now }
{
    rules.contains(number) && contains(mask, rule.from) && !contains(mask, rule.to)
}
