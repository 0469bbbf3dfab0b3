//! The text of a run.
#![tactic(auto)]

ghost use Rattle.std.specs.Prelude.{◌≡◌, ◌++◌, ◌∷◌, [], length, map, codes, string_bytes, OnOk, IfOk};
ghost use Rattle.std.specs.List.{AllByRecursion};
ghost use Rattle.ta_replay.specs.Fits.{Fits, LineFits};
ghost use Rattle.ta_replay.specs.RunText.{parameter_slots, start_slots, value_lines, line_of, lines_text, run_text};

use crate::reading::location_name;
use crate::run::{Run, RunLine};
use std::alloc::{AllocError, Global};
use ta_automaton::{Automaton, File, Pattern};
use ta_base::Text;

/// The text of a run that fits a file. Reading it gives the run again.
pub fn print_run(alloc: Global, file: &File, run: &Run) -> Result<Text, AllocError>
    requires { Fits file.now run.now }
    ensures { IfOk result (λ text. text ≡ run_text file.now run.now) }
{
    let automaton = &file.automaton;
    let pattern = &file.patterns.as_slice()[run.pattern as usize];
    let mut text = format!(in alloc; "run {}\n", pattern.name.as_str())?;
    write_parameters(&mut text, automaton, run.parameters.as_slice())?;
    write_counts(&mut text, automaton, run.counts.as_slice())?;
    write_lines(&mut text, automaton, pattern, run.lines.as_slice())?;
    Ok(Text::from_string(text))
}

/// Writes the values of the parameters.
fn write_parameters(
    text: &mut String,
    automaton: &Automaton,
    values: &[i128],
) -> Result<(), AllocError>
    requires { length values.now ≡ length automaton.now.parameters }
    ensures { OnOk result (string_bytes text.new ≡ string_bytes text.old ++ lines_text (value_lines (parameter_slots automaton.now) values.now)) }
{
    let names = automaton.parameters.as_slice();
    for (i, value) in values.iter().enumerate() {
        let name = names[i].as_str();
        write!(text, "parameter {} {}\n", name, *value)?;
    }
    Ok(())
}

/// Writes the counts at the initial locations.
fn write_counts(text: &mut String, automaton: &Automaton, counts: &[i128]) -> Result<(), AllocError>
    requires { length counts.now ≡ length automaton.now.initial }
    ensures { OnOk result (string_bytes text.new ≡ string_bytes text.old ++ lines_text (value_lines (start_slots automaton.now) counts.now)) }
{
    let initial = automaton.initial.as_slice();
    for (i, count) in counts.iter().enumerate() {
        let name = location_name(automaton, initial[i]);
        write!(text, "start {} {}\n", name, *count)?;
    }
    Ok(())
}

/// Writes the steps and marks, and the end.
fn write_lines(
    text: &mut String,
    automaton: &Automaton,
    pattern: &Pattern,
    lines: &[RunLine],
) -> Result<(), AllocError>
    requires { AllByRecursion (LineFits automaton.now pattern.now) lines.now }
    ensures { OnOk result (string_bytes text.new ≡ string_bytes text.old ++ lines_text (map (line_of automaton.now pattern.now) lines.now ++ (codes "end" ∷ []))) }
{
    for line in lines {
        write_line(text, automaton, pattern, *line)?;
    }
    text.push_str("end\n")?;
    Ok(())
}

/// Writes a step or a mark.
fn write_line(
    text: &mut String,
    automaton: &Automaton,
    pattern: &Pattern,
    line: RunLine,
) -> Result<(), AllocError>
    requires { LineFits automaton.now pattern.now line }
    ensures { OnOk result (string_bytes text.new ≡ string_bytes text.old ++ (line_of automaton.now pattern.now line ++ (10 ∷ []))) }
{
    match line {
        RunLine::Step { rule, factor } => {
            let rule = &automaton.rules.as_slice()[rule as usize];
            write!(text, "step {} {}\n", rule.name.as_str(), factor)
        }
        RunLine::Mark { event } => {
            let event = &pattern.events.as_slice()[event as usize];
            write!(text, "mark {}\n", event.name.as_str())
        }
    }
}
