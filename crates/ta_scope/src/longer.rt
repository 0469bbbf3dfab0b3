//! Cycles of two or more locations.
#![tactic(auto)]

ghost use Rattle.std.specs.Prelude.{ℕ, ◌≢◌, ◌<◌, ◌↔◌, length, slice_index, IsTrue, IfOk, IfSome, IfNone, IsBitSet};
ghost use Rattle.ta_scope.specs.Cycles.{every_rule, IsReachTable};
ghost use Rattle.ta_scope.specs.LongerCycles.{FirstLongerCycle, LoopsAlone};

use crate::reach::{is_on_cycle, leads};
use std::alloc::{AllocError, Global};
use ta_automaton::{Automaton, Rule};
use ta_base::LongMask;

/// The number of the first rule in file order that lies on a cycle of two or more locations, counted
/// from 0; `None` where every cycle of rules is a self-loop.
pub fn first_longer_cycle(alloc: Global, automaton: &Automaton) -> Result<Option<u32>, AllocError>
    ensures some { IfOk result (λ found. IfSome found (λ number. FirstLongerCycle automaton.now number)) }
    ensures none { IfOk result (λ found. IfNone found (LoopsAlone automaton.now)) }
{
    let table = leads(alloc, automaton, &LongMask::full())?;
    Ok(first_by_table(automaton, table.as_slice()))
}

/// The same by a table of all rules.
fn first_by_table(automaton: &Automaton, table: &[u128]) -> Option<u32>
    requires { IsReachTable automaton.now every_rule table.now }
    ensures some { IfSome result (λ number. FirstLongerCycle automaton.now number) }
    ensures none { IfNone result (LoopsAlone automaton.now) }
{
    for (number, rule) in automaton.rules.as_slice().iter().enumerate() {
        if is_on_longer_cycle(table, rule) {
            return Some(number as u32);
        }
    }
    None
}

/// Whether a rule leads from one location to another whose target leads back by a table.
fn is_on_longer_cycle(table: &[u128], rule: &Rule) -> bool
    requires to { rule.now.to < length table.now }
    requires from { rule.now.from < 128 }
    ensures { IsTrue result ↔ ((rule.now.from ≢ rule.now.to) × IsBitSet (slice_index table.now rule.now.to) rule.now.from) }
{
    rule.from != rule.to && is_on_cycle(table, rule)
}
