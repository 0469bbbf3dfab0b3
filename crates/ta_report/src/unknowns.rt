//! The unknowns of a pattern's node without facts, by name.
#![tactic(auto)]

ghost use Rattle.std.specs.Prelude.{◌≡◌, ◌++◌, IfOk, OnOk, flat_map, map, slice_get, string_bytes};
ghost use Rattle.ta_encode.specs.Unknowns.{start_locations};
ghost use Rattle.ta_moments.specs.Facts.{moving_rules};
ghost use Rattle.ta_report.specs.Show.{each};
ghost use Rattle.ta_report.specs.Unknowns.{fired_name, fired_names, pattern_unknowns_text, rule_name, start_name, unknown_names};

use crate::shown::{name_at, show_listed};
use std::alloc::{AllocError, Global};
use ta_automaton::{Automaton, Event, Pattern};
use ta_base::masks::contains;
use ta_base::{List, Text};
use ta_moment_tree::is_moving;

/// Writes the unknowns of each pattern.
pub fn show_unknowns(
    alloc: Global,
    automaton: &Automaton,
    patterns: &[Pattern],
    text: &mut String,
) -> Result<(), AllocError>
    ensures { OnOk result (string_bytes text.new ≡ string_bytes text.old ++ each (pattern_unknowns_text automaton.now) patterns.now) }
{
    for pattern in patterns {
        show_of_pattern(alloc, automaton, pattern, text)?;
    }
    Ok(())
}

/// Writes the unknowns of a pattern.
fn show_of_pattern(
    alloc: Global,
    automaton: &Automaton,
    pattern: &Pattern,
    text: &mut String,
) -> Result<(), AllocError>
    ensures { OnOk result (string_bytes text.new ≡ string_bytes text.old ++ pattern_unknowns_text automaton.now pattern.now) }
{
    let names = unknown_names(alloc, automaton, pattern)?;
    let word = format!(in alloc; "unknowns of {} ", pattern.name.as_str())?;
    show_listed(word.as_str(), &names, automaton, text)
}

/// The names of a pattern's unknowns, by number.
fn unknown_names(
    alloc: Global,
    automaton: &Automaton,
    pattern: &Pattern,
) -> Result<List<Text>, AllocError>
    ensures { IfOk result (λ names. names ≡ unknown_names automaton.now pattern.now) }
{
    let mut names = Vec::new(alloc);
    push_parameters(alloc, automaton, &mut names)?;
    push_starts(alloc, automaton, pattern, &mut names)?;
    push_events(alloc, automaton, pattern, &mut names)?;
    Ok(List::from_vec(names))
}

/// Adds the parameters.
fn push_parameters(
    alloc: Global,
    automaton: &Automaton,
    names: &mut Vec<Text>,
) -> Result<(), AllocError>
    ensures { OnOk result (names.new.items ≡ names.old.items ++ automaton.now.parameters) }
{
    for name in automaton.parameters.as_slice() {
        names.push(name.copy(alloc)?)?;
    }
    Ok(())
}

/// Adds the start counts.
fn push_starts(
    alloc: Global,
    automaton: &Automaton,
    pattern: &Pattern,
    names: &mut Vec<Text>,
) -> Result<(), AllocError>
    ensures { OnOk result (names.new.items ≡ names.old.items ++ map (start_name automaton.now) (start_locations automaton.now pattern.now)) }
{
    for location in automaton.initial.as_slice() {
        if !contains(pattern.empty, *location) {
            names.push(start_name(alloc, automaton, *location)?)?;
        }
    }
    Ok(())
}

/// The name of a start count.
fn start_name(alloc: Global, automaton: &Automaton, location: u32) -> Result<Text, AllocError>
    ensures { IfOk result (λ name. name ≡ start_name automaton.now location) }
{
    let location = name_at(automaton.locations.as_slice(), location);
    let name = format!(in alloc; "start {}", location)?;
    Ok(Text::from_string(name))
}

/// Adds for each event how often each moving rule fires before it.
fn push_events(
    alloc: Global,
    automaton: &Automaton,
    pattern: &Pattern,
    names: &mut Vec<Text>,
) -> Result<(), AllocError>
    ensures { OnOk result (names.new.items ≡ names.old.items ++ flat_map (fired_names automaton.now pattern.now) pattern.now.events) }
{
    for event in pattern.events.as_slice() {
        push_fired(alloc, automaton, pattern, event, names)?;
    }
    Ok(())
}

/// Adds how often each moving rule fires before an event.
fn push_fired(
    alloc: Global,
    automaton: &Automaton,
    pattern: &Pattern,
    event: &Event,
    names: &mut Vec<Text>,
) -> Result<(), AllocError>
    ensures { OnOk result (names.new.items ≡ names.old.items ++ fired_names automaton.now pattern.now event.now) }
{
    for rule in 0..automaton.rules.as_slice().len() {
        if is_moving(automaton, pattern, rule) {
            names.push(fired_name(alloc, automaton, event, rule)?)?;
        }
    }
    Ok(())
}

/// The name of how often a rule fires before an event.
fn fired_name(
    alloc: Global,
    automaton: &Automaton,
    event: &Event,
    rule: usize,
) -> Result<Text, AllocError>
    ensures { IfOk result (λ name. name ≡ fired_name automaton.now event.now rule) }
{
    let rule = rule_name(automaton, rule);
    let name = format!(in alloc; "{}: {}", event.name.as_str(), rule)?;
    Ok(Text::from_string(name))
}

/// The name of a rule; there are only names of numbers below that of rules.
fn rule_name(automaton: &Automaton, rule: usize) -> &str
    ensures { result.now ≡ rule_name (slice_get automaton.now.rules rule) }
{
    match automaton.rules.as_slice().get(rule) {
        Some(rule) => rule.name.as_str(),
        None => "",
    }
}
