//! The text of a file.
#![tactic(auto)]

ghost use Rattle.std.specs.Prelude.{◌≡◌, ◌++◌, OnOk, IfOk, string_bytes};
ghost use Rattle.ta_report.specs.Show.{automaton_text, comparison_text, condition_text, event_text, location_text, name_text, order_text, pattern_text, row_text, rule_text, show_text, update_text, way_text};
ghost use Rattle.ta_report.specs.Unknowns.{unknowns_text};

use crate::shown::{Shown, name_at, show_listed, show_mask, show_sum};
use crate::unknowns::show_unknowns;
use std::alloc::{AllocError, Global};
use ta_automaton::{Automaton, Comparison, Condition, Event, File, Pattern, Rule};
use ta_base::{List, Text};
use ta_linear::Row;

/// The text of a file as it was understood, and of pairs of rise guards of which the first comes
/// before the second; and behind it the unknowns of each pattern's node without facts.
pub fn show(alloc: Global, file: &File, orders: &List<(u32, u32)>) -> Result<Text, AllocError>
    ensures { IfOk result (λ text. text ≡ show_text file.now orders.now ++ unknowns_text file.now) }
{
    let automaton = &file.automaton;
    let mut text = String::new(alloc);
    show_automaton(automaton, &mut text)?;
    show_listed("patterns ", &file.patterns, automaton, &mut text)?;
    show_listed("orders ", orders, automaton, &mut text)?;
    show_unknowns(alloc, automaton, file.patterns.as_slice(), &mut text)?;
    Ok(Text::from_string(text))
}

/// Writes an automaton.
fn show_automaton(automaton: &Automaton, text: &mut String) -> Result<(), AllocError>
    ensures { OnOk result (string_bytes text.new ≡ string_bytes text.old ++ automaton_text automaton.now) }
{
    write!(text, "automaton {}\n", automaton.name.as_str())?;
    show_listed("parameters ", &automaton.parameters, automaton, text)?;
    show_listed("shared ", &automaton.shared, automaton, text)?;
    show_listed("locations ", &automaton.locations, automaton, text)?;
    show_listed("initial ", &automaton.initial, automaton, text)?;
    show_sum(&automaton.processes, automaton, text)?;
    text.push_str("processes\n")?;
    show_condition("resilience ", &automaton.resilience, automaton, text)?;
    show_listed("rise ", &automaton.rise, automaton, text)?;
    show_listed("fall ", &automaton.fall, automaton, text)?;
    show_listed("rules ", &automaton.rules, automaton, text)?;
    Ok(())
}

/// Writes a condition.
fn show_condition(
    word: &str,
    condition: &Condition,
    automaton: &Automaton,
    text: &mut String,
) -> Result<(), AllocError>
    ensures { OnOk result (string_bytes text.new ≡ string_bytes text.old ++ condition_text word.now automaton.now condition.now) }
{
    show_listed(word, &condition.comparisons, automaton, text)
}

impl Shown for Text {
    ghost shown = { λ a. name_text };

    fn show(&self, automaton: &Automaton, text: &mut String) -> Result<(), AllocError> {
        write!(text, "{}\n", self.as_str())
    }
}

impl Shown for u32 {
    ghost shown = { location_text };

    fn show(&self, automaton: &Automaton, text: &mut String) -> Result<(), AllocError> {
        write!(text, "{}\n", name_at(automaton.locations.as_slice(), *self))
    }
}

impl Shown for Row {
    ghost shown = { row_text };

    fn show(&self, automaton: &Automaton, text: &mut String) -> Result<(), AllocError> {
        show_sum(&self.form, automaton, text)?;
        text.push_str(">= 0\n")
    }
}

impl Shown for Comparison {
    ghost shown = { comparison_text };

    fn show(&self, automaton: &Automaton, text: &mut String) -> Result<(), AllocError> {
        show_listed("rows ", &self.rows, automaton, text)
    }
}

impl Shown for (u32, i128) {
    ghost shown = { update_text };

    fn show(&self, automaton: &Automaton, text: &mut String) -> Result<(), AllocError> {
        let name = name_at(automaton.shared.as_slice(), self.0);
        write!(text, "{} += {}\n", name, self.1)
    }
}

/// Writes the name of a rule and its locations.
fn show_way(rule: &Rule, automaton: &Automaton, text: &mut String) -> Result<(), AllocError>
    ensures { OnOk result (string_bytes text.new ≡ string_bytes text.old ++ way_text automaton.now rule.now) }
{
    let from = name_at(automaton.locations.as_slice(), rule.from);
    let to = name_at(automaton.locations.as_slice(), rule.to);
    write!(text, "{} {} -> {} rise", rule.name.as_str(), from, to)
}

impl Shown for Rule {
    ghost shown = { rule_text };

    fn show(&self, automaton: &Automaton, text: &mut String) -> Result<(), AllocError> {
        show_way(self, automaton, text)?;
        show_mask(u128::from(self.rise), text)?;
        text.push_str(", fall")?;
        show_mask(u128::from(self.fall), text)?;
        text.push_str("\n")?;
        show_listed("updates ", &self.updates, automaton, text)?;
        Ok(())
    }
}

impl Shown for Event {
    ghost shown = { event_text };

    fn show(&self, automaton: &Automaton, text: &mut String) -> Result<(), AllocError> {
        write!(text, "{} after", self.name.as_str())?;
        show_mask(u128::from(self.after), text)?;
        text.push_str("\n")?;
        show_condition("holds ", &self.condition, automaton, text)?;
        Ok(())
    }
}

impl Shown for Pattern {
    ghost shown = { pattern_text };

    fn show(&self, automaton: &Automaton, text: &mut String) -> Result<(), AllocError> {
        write!(text, "{} empty", self.name.as_str())?;
        show_mask(self.empty, text)?;
        text.push_str("\n")?;
        show_condition("start ", &self.start, automaton, text)?;
        show_listed("events ", &self.events, automaton, text)?;
        Ok(())
    }
}

impl Shown for (u32, u32) {
    ghost shown = { λ a. order_text };

    fn show(&self, automaton: &Automaton, text: &mut String) -> Result<(), AllocError> {
        write!(text, "{} {}\n", self.0, self.1)
    }
}
