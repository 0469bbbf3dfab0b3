//! The silent places of a file.
#![tactic(auto)]

ghost use Rattle.std.specs.Prelude.{◌≡◌, true, IfOk};
ghost use Rattle.ta_moments.specs.Silent.{IsSilentIn, MayBeSilent};

use crate::fault::SilentFault;
use crate::naming::{first_fault, places_named};
use crate::subtracting::guard_that_subtracts;
use std::alloc::Global;
use ta_automaton::Automaton;
use ta_base::List;

/// The places of the names of a text, which are to be silent in a file. An error is the first of the
/// names in order, then that of the first guard that subtracts one of them.
pub fn silent_places(
    alloc: Global,
    automaton: &Automaton,
    text: &str,
) -> Result<List<u32>, SilentFault>
    ensures is { IsSilentIn automaton.now text.now result }
    ensures may { IfOk result (MayBeSilent automaton.now) }
{
    if let Some(fault) = first_fault(automaton, text) {
        return Err(fault);
    }
    let places = places_named(alloc, automaton, text)?;
    match guard_that_subtracts(automaton, places.as_slice()) {
        Some(guard) => Err(SilentFault::Subtracted(guard)),
        None => Ok(List::from_vec(places)),
    }
}
