//! The texts of `check`, of `rest-check` and of `replay`.
#![tactic(auto)]

ghost use Rattle.std.specs.Prelude.{◌≡◌, ◌++◌, IfOk, IfSome, OnOk, string_bytes};
ghost use Rattle.ta_report.specs.Check.{given_line, proofs_text, word_told};
ghost use Rattle.ta_report.specs.Report.{SampleFits};
ghost use Rattle.ta_report.specs.Shown.{shown_line};

use crate::report::write_sample;
use crate::verdict::ReportSample;
use std::alloc::{AllocError, Global};
use ta_automaton::File;
use ta_base::Text;
use ta_replay::Shown;

/// The text that says which patterns of a file are proved: those of these numbers; as `check` says
/// it, or `rest-check`. Behind the automaton's name stands the line of the parameters, where a sample
/// is given.
pub fn proofs_text(
    alloc: Global,
    rest: bool,
    file: &File,
    sample: &Option<ReportSample>,
    numbers: &[u32],
) -> Result<Text, AllocError>
    requires { IfSome sample.now (SampleFits file.now) }
    ensures { IfOk result (λ text. text ≡ proofs_text rest file.now sample.now numbers.now) }
{
    let mut text = format!(in alloc; "automaton {}\n", file.automaton.name.as_str())?;
    write_given(&mut text, file, sample)?;
    for (number, pattern) in file.patterns.as_slice().iter().enumerate() {
        let word = word_told(rest, numbers, number as u32);
        write!(text, "pattern {}: {word}\n", pattern.name.as_str())?;
    }
    Ok(Text::from_string(text))
}

/// Writes the line of the parameters, where a sample is given.
fn write_given(
    text: &mut String,
    file: &File,
    sample: &Option<ReportSample>,
) -> Result<(), AllocError>
    requires { IfSome sample.now (SampleFits file.now) }
    ensures { OnOk result (string_bytes text.new ≡ string_bytes text.old ++ given_line file.now sample.now) }
{
    match sample {
        Some(sample) => write_sample(text, file, sample),
        None => Ok(()),
    }
}

/// The word for the pattern of a number, where those of `numbers` are proved.
pub(crate) fn word_told(rest: bool, numbers: &[u32], number: u32) -> &'static str
    ensures { result.now ≡ word_told rest numbers.now number }
{
    if numbers.contains(&number) {
        if rest { "rest proved" } else { "proved" }
    } else if rest {
        "not rest proved"
    } else {
        "not proved"
    }
}

/// The line of a pattern that a run shows, with its unit steps and marks.
pub fn shown_line(alloc: Global, name: &str, shown: Shown) -> Result<Text, AllocError>
    ensures { IfOk result (λ text. text ≡ shown_line name.now shown) }
{
    let (steps, marks) = (shown.steps, shown.marks);
    let text = format!(in alloc;
        "pattern {}: shown, {} steps, {} marks\n",
        name, steps, marks
    )?;
    Ok(Text::from_string(text))
}
