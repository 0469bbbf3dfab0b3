//! Locations that stay empty.
#![tactic(auto)]

ghost use Rattle.std.specs.Prelude.{◌≡◌, ◌<◌, ◌^◌, ◌↔◌, length, IsTrue, IsBitSet};
ghost use Rattle.ta_counter.specs.Configs.{IsOf, config_of};
ghost use Rattle.ta_pattern.specs.Empty.{KeepsEmpty};

use ta_automaton::{Automaton, Pattern};
use ta_base::masks::contains;
use ta_counter::Config;

/// Whether each location of the pattern's mask has no process.
pub fn holds_empty(automaton: &Automaton, pattern: &Pattern, config: &Config) -> bool
    requires is_of { IsOf automaton.now config.now }
    requires empty { pattern.now.empty < 2 ^ length automaton.now.locations }
    ensures { IsTrue result ↔ KeepsEmpty pattern.now.empty (config_of automaton.now config.now) }
{
    let first = automaton.parameters.as_slice().len() + automaton.shared.as_slice().len();
    let values = config.values();
    for location in 0..automaton.locations.as_slice().len() {
        if contains(pattern.empty, location as u32) && values[first + location] != 0 {
            return false;
        }
    }
    true
}
