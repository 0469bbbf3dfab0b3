//! Start conditions and events.
#![tactic(auto)]

ghost use Rattle.std.specs.Prelude.{◌≡◌, ◌<◌, length, slice_get, Some, IfOk, IfSome, IfNone};
ghost use Rattle.ta_linear.specs.Values.{point_of};
ghost use Rattle.ta_automaton.specs.declared.automaton.Automaton.{Automaton};
ghost use Rattle.ta_automaton.specs.declared.pattern.Event.{Event};
ghost use Rattle.ta_automaton.specs.Runs.{Holds};
ghost use Rattle.ta_counter.specs.Checks.{FirstFalse, Over};
ghost use Rattle.ta_counter.specs.Configs.{config_of};
ghost use Rattle.ta_pattern.specs.Events.{EventAnswer, TellsEvent};

use ta_automaton::Pattern;
use ta_counter::{Config, first_false};
use ta_linear::OutOfRange;

/// The first comparison of the start condition that is false, if there is one. Comparisons are
/// evaluated in order up to that one, and rows in order.
pub fn failing_start(pattern: &Pattern, config: &Config) -> Result<Option<u32>, OutOfRange>
    requires { Over (length config.now.values.items) pattern.now.start }
    ensures answer { FirstFalse (point_of config.now.values.items) pattern.now.start result }
    ensures holds { (a : Automaton) → IfOk result (λ first. IfNone first (Holds pattern.now.start (config_of a config.now))) }
    ensures fails { (a : Automaton) → IfOk result (λ first. IfSome first (λ _. ¬ Holds pattern.now.start (config_of a config.now))) }
{
    first_false(&pattern.start, config.values())
}

/// Whether an event's condition holds, evaluated as a start condition is.
pub fn holds_event(pattern: &Pattern, event: u32, config: &Config) -> Result<bool, OutOfRange>
    requires exists { event < length pattern.now.events }
    requires over { (e : Event) → slice_get pattern.now.events event ≡ Some e → Over (length config.now.values.items) e.condition }
    ensures answer { (e : Event) → slice_get pattern.now.events event ≡ Some e → EventAnswer (point_of config.now.values.items) e.condition result }
    ensures holds { (a : Automaton) (e : Event) → slice_get pattern.now.events event ≡ Some e → TellsEvent e.condition (config_of a config.now) result }
{
    let event = &pattern.events.as_slice()[event as usize];
    let failing = first_false(&event.condition, config.values())?;
    Ok(failing.is_none())
}
