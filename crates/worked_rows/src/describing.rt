//! Files as texts.
#![tactic(auto)]

use crate::given::Given;
use ta_automaton::{Automaton, Condition, File, Pattern, Rule};
use ta_base::Text;
use ta_linear::{Form, Row};

/// What a file means: its places by kind, its forms (a constant and then place:coefficient), its
/// guards, its rules (source, target, masks, updates) and its patterns.
pub fn describe(given: &mut Given, file: &File) {
    describe_places(given, &file.automaton);
    describe_conditions(given, &file.automaton);
    for rule in file.automaton.rules.as_slice() {
        describe_rule(given, rule);
    }
    for pattern in file.patterns.as_slice() {
        describe_pattern(given, pattern);
    }
}

/// Writes a name behind a text.
fn say_name(given: &mut Given, before: &str, name: &Text) {
    given.say(before);
    given.say(name.as_str());
}

fn say_names(given: &mut Given, before: &str, names: &[Text]) {
    given.say(before);
    for name in names {
        say_name(given, " ", name);
    }
}

fn describe_places(given: &mut Given, automaton: &Automaton) {
    say_name(given, "automaton ", &automaton.name);
    say_names(given, "\nplaces", automaton.parameters.as_slice());
    say_names(given, " |", automaton.shared.as_slice());
    say_names(given, " |", automaton.locations.as_slice());
    given.say("\ninitial");
    for location in automaton.initial.as_slice() {
        given.number(" ", *location);
    }
}

fn describe_conditions(given: &mut Given, automaton: &Automaton) {
    given.say("\nprocesses ");
    say_form(given, &automaton.processes);
    given.say("\nresilience");
    say_condition(given, &automaton.resilience);
    say_rows(given, "\nrise ", automaton.rise.as_slice());
    say_rows(given, "\nfall ", automaton.fall.as_slice());
}

fn say_condition(given: &mut Given, condition: &Condition) {
    for comparison in condition.comparisons.as_slice() {
        say_rows(given, " & ", comparison.rows.as_slice());
        given.say(";");
    }
}

fn describe_rule(given: &mut Given, rule: &Rule) {
    say_name(given, "\nrule ", &rule.name);
    given.number(" ", rule.from);
    given.number(" ", rule.to);
    given.number(" ", rule.rise);
    given.number(" ", rule.fall);
    given.pairs("+", rule.updates.as_slice());
}

fn describe_pattern(given: &mut Given, pattern: &Pattern) {
    say_name(given, "\npattern ", &pattern.name);
    given.number(" ", pattern.empty);
    say_condition(given, &pattern.start);
    for event in pattern.events.as_slice() {
        say_name(given, "\nevent ", &event.name);
        given.number(" ", event.after);
        say_condition(given, &event.condition);
    }
}

/// Writes a form: its constant, and each variable with its coefficient.
fn say_form(given: &mut Given, form: &Form) {
    given.number("", form.constant);
    given.pairs(":", form.terms.as_slice());
}

/// Writes rows, each behind a text.
pub fn say_rows(given: &mut Given, before: &str, rows: &[Row]) {
    for row in rows {
        given.say(before);
        say_form(given, &row.form);
    }
}
