//! Which rule puts an automaton out of scope.
#![tactic(auto)]

ghost use Rattle.std.specs.Prelude.{◌≢◌, ◌<◌, ◌↔◌, [], length, slice_index, IsTrue, IsBitSet, OnOk, IfErr};
ghost use Rattle.ta_automaton.specs.Runs.{InScope};
ghost use Rattle.ta_scope.specs.Cycles.{every_rule, IsReachTable};
ghost use Rattle.ta_scope.specs.Faults.{ScopeFaultOf};
ghost use Rattle.ta_scope.specs.declared.fault.ScopeFault.TheVariants.{Memory};

use crate::fault::ScopeFault;
use crate::reach::{is_on_cycle, leads};
use std::alloc::Global;
use ta_automaton::{Automaton, Rule};
use ta_base::LongMask;

/// Ok where an automaton is in scope, else the first rule that puts it out.
pub fn judge(alloc: Global, automaton: &Automaton) -> Result<(), ScopeFault>
    ensures ok { OnOk result (InScope automaton.now) }
    ensures fault { IfErr result (λ fault. ScopeFaultOf automaton.now fault) }
    ensures out_of_scope { IfErr result (λ fault. fault ≢ Memory → ¬ InScope automaton.now) }
{
    let table = leads(alloc, automaton, &LongMask::full())?;
    first_at_fault(automaton, table.as_slice())
}

/// Ok where no rule puts it out of scope by a table of all rules, else the first one that does.
fn first_at_fault(automaton: &Automaton, table: &[u128]) -> Result<(), ScopeFault>
    requires { IsReachTable automaton.now every_rule table.now }
    ensures ok { OnOk result (InScope automaton.now) }
    ensures fault { IfErr result (λ fault. ScopeFaultOf automaton.now fault) }
    ensures out_of_scope { IfErr result (λ fault. ¬ InScope automaton.now) }
    ensures no_memory { IfErr result (λ fault. fault ≢ Memory) }
{
    for (number, rule) in automaton.rules.as_slice().iter().enumerate() {
        if is_at_fault(table, rule) {
            return Err(ScopeFault::CycleUpdates(number as u32));
        }
    }
    Ok(())
}

/// Whether a rule has an update, and its target leads back to its source by a table.
fn is_at_fault(table: &[u128], rule: &Rule) -> bool
    requires to { rule.now.to < length table.now }
    requires from { rule.now.from < 128 }
    ensures { IsTrue result ↔ ((rule.now.updates ≢ []) × IsBitSet (slice_index table.now rule.now.to) rule.now.from) }
{
    !rule.updates.as_slice().is_empty() && is_on_cycle(table, rule)
}
