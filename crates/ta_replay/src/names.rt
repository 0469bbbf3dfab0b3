//! Numbers of patterns, rules and events by their names.
#![tactic(auto)]

ghost use Rattle.std.specs.Prelude.{◌≡◌, ◌↔◌, ◌≤◌, ◌^◌, length, map, IsTrue, MatchOption};
ghost use Rattle.ta_automaton.specs.Patterns.{event_name, pattern_name};
ghost use Rattle.ta_automaton.specs.Shape.{name_of};
ghost use Rattle.ta_replay.specs.Inside.Reading.{IsNameOf, NoNameOf};

use ta_automaton::{Event, Pattern, Rule};
use ta_base::Text;

/// Whether a name is spelled so.
pub fn is_called(name: &Text, bytes: &[u8]) -> bool
    ensures { IsTrue result ↔ (name.now ≡ bytes.now) }
{
    name.as_str().as_bytes() == bytes
}

/// The number of the pattern with this name.
pub fn find_pattern(patterns: &[Pattern], name: &[u8]) -> Option<u32>
    requires { length patterns.now ≤ 2 ^ 32 }
    ensures { MatchOption result (NoNameOf (map pattern_name patterns.now) name.now) (λ number. IsNameOf (map pattern_name patterns.now) name.now number) }
{
    for (i, pattern) in patterns.iter().enumerate() {
        if is_called(&pattern.name, name) {
            return Some(i as u32);
        }
    }
    None
}

/// The number of the rule with this name.
pub fn find_rule(rules: &[Rule], name: &[u8]) -> Option<u32>
    requires { length rules.now ≤ 2 ^ 32 }
    ensures { MatchOption result (NoNameOf (map name_of rules.now) name.now) (λ number. IsNameOf (map name_of rules.now) name.now number) }
{
    for (i, rule) in rules.iter().enumerate() {
        if is_called(&rule.name, name) {
            return Some(i as u32);
        }
    }
    None
}

/// The number of the event with this name.
pub fn find_event(events: &[Event], name: &[u8]) -> Option<u32>
    requires { length events.now ≤ 2 ^ 32 }
    ensures { MatchOption result (NoNameOf (map event_name events.now) name.now) (λ number. IsNameOf (map event_name events.now) name.now number) }
{
    for (i, event) in events.iter().enumerate() {
        if is_called(&event.name, name) {
            return Some(i as u32);
        }
    }
    None
}
