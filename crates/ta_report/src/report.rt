//! The reports of `verify` and `rest`.
#![tactic(auto)]

ghost use Rattle.std.specs.Prelude.{◌≡◌, ◌++◌, IfOk, OnOk, length, string_bytes};
ghost use Rattle.std.specs.List.{AllByRecursion};
ghost use Rattle.ta_counter.specs.Values.{Value};
ghost use Rattle.ta_report.specs.Picked.{picked};
ghost use Rattle.ta_report.specs.Report.{SampleFits, VerdictFits, report_text, rest_text, run_part, sample_line, told_line, told_lines, told_text, values_text, word_before};

use crate::pick::Pick;
use crate::said::Said;
use crate::verdict::{ReportSample, Verdict};
use std::alloc::{AllocError, Global};
use ta_automaton::{File, Pattern};
use ta_base::Text;
use ta_replay::print_run;

/// The report of a sample of the parameters, in a line, and of one verdict for each picked
/// pattern, in the order of the file: a line, and behind it the text of the run where there is one.
pub fn report_text(alloc: Global, said: &Said<'_>) -> Result<Text, AllocError>
    requires sample { SampleFits said.now.file.now said.now.sample.now }
    requires all { length said.now.verdicts.now ≡ length (picked said.now.pick said.now.file.now.patterns) }
    requires fit { AllByRecursion (VerdictFits said.now.file.now) said.now.verdicts.now }
    ensures { IfOk result (λ text. text ≡ report_text said.now.file.now said.now.pick said.now.sample.now said.now.verdicts.now) }
{
    told_text(alloc, false, said)
}

/// The report of `rest`: as `report_text`, with `rest safe` and `rest unsafe` in place of `safe` and
/// `unsafe`.
pub fn rest_text(alloc: Global, said: &Said<'_>) -> Result<Text, AllocError>
    requires sample { SampleFits said.now.file.now said.now.sample.now }
    requires all { length said.now.verdicts.now ≡ length (picked said.now.pick said.now.file.now.patterns) }
    requires fit { AllByRecursion (VerdictFits said.now.file.now) said.now.verdicts.now }
    ensures { IfOk result (λ text. text ≡ rest_text said.now.file.now said.now.pick said.now.sample.now said.now.verdicts.now) }
{
    told_text(alloc, true, said)
}

/// The report, or that of `rest`.
fn told_text(alloc: Global, rest: bool, said: &Said<'_>) -> Result<Text, AllocError>
    requires sample { SampleFits said.now.file.now said.now.sample.now }
    requires fit { AllByRecursion (VerdictFits said.now.file.now) said.now.verdicts.now }
    ensures { IfOk result (λ text. text ≡ told_text rest said.now.file.now said.now.pick said.now.sample.now said.now.verdicts.now) }
{
    told_of(
        alloc,
        rest,
        said.file,
        said.pick,
        said.sample,
        said.verdicts,
    )
}

/// The same of a report's parts.
fn told_of(
    alloc: Global,
    rest: bool,
    file: &File,
    pick: Pick,
    sample: &ReportSample,
    verdicts: &[Verdict],
) -> Result<Text, AllocError>
    requires sample { SampleFits file.now sample.now }
    requires fit { AllByRecursion (VerdictFits file.now) verdicts.now }
    ensures { IfOk result (λ text. text ≡ told_text rest file.now pick sample.now verdicts.now) }
{
    let mut text = format!(in alloc; "automaton {}\n", file.automaton.name.as_str())?;
    write_sample(&mut text, file, sample)?;
    let patterns = pick.of(file.patterns.as_slice());
    write_patterns(alloc, &mut text, rest, file, patterns, verdicts)?;
    Ok(Text::from_string(text))
}

/// Writes for each pattern its line and the text of its run, where it has one.
fn write_patterns(
    alloc: Global,
    text: &mut String,
    rest: bool,
    file: &File,
    patterns: &[Pattern],
    verdicts: &[Verdict],
) -> Result<(), AllocError>
    requires { AllByRecursion (VerdictFits file.now) verdicts.now }
    ensures { OnOk result (string_bytes text.new ≡ string_bytes text.old ++ told_lines rest file.now patterns.now verdicts.now) }
{
    for (pattern, verdict) in patterns.iter().zip(verdicts) {
        write_pattern(alloc, text, rest, file, pattern, verdict)?;
    }
    Ok(())
}

/// Writes the line of a pattern and the text of its run, where it has one.
fn write_pattern(
    alloc: Global,
    text: &mut String,
    rest: bool,
    file: &File,
    pattern: &Pattern,
    verdict: &Verdict,
) -> Result<(), AllocError>
    requires { VerdictFits file.now verdict.now }
    ensures { OnOk result (string_bytes text.new ≡ string_bytes text.old ++ (told_line rest pattern.now verdict.now ++ run_part file.now verdict.now)) }
{
    let word = word_before(rest, verdict);
    write!(text, "pattern {}: {word}{verdict}\n", pattern.name.as_str())?;
    write_run(alloc, text, file, verdict)
}

/// What stands before a verdict: where it decides, the word of `rest`.
fn word_before(rest: bool, verdict: &Verdict) -> &'static str
    ensures { result.now ≡ word_before rest verdict.now }
{
    if !rest {
        return "";
    }
    match verdict {
        Verdict::Safe { .. } | Verdict::Unsafe { .. } => "rest ",
        Verdict::Spent { .. } | Verdict::Overflow { .. } => "",
    }
}

/// Writes the line of the parameters.
pub(crate) fn write_sample(
    text: &mut String,
    file: &File,
    sample: &ReportSample,
) -> Result<(), AllocError>
    requires { SampleFits file.now sample.now }
    ensures { OnOk result (string_bytes text.new ≡ string_bytes text.old ++ sample_line file.now sample.now) }
{
    match sample {
        ReportSample::Sample(values) => {
            text.push_str("parameters: sample")?;
            write_values(
                text,
                file.automaton.parameters.as_slice(),
                values.as_slice(),
            )?;
            text.push_str("\n")?;
        }
        ReportSample::Empty => text.push_str("parameters: none\n")?,
        ReportSample::Spent { count } => {
            write!(text, "parameters: unknown, {count} nodes spent\n")?;
        }
        ReportSample::Overflow { node, kind } => {
            write!(
                text,
                "parameters: unknown, outside 128 bits at node {node}, {kind}\n"
            )?;
        }
    }
    Ok(())
}

/// Writes the values of the parameters, each with its name.
fn write_values(text: &mut String, names: &[Text], values: &[i128]) -> Result<(), AllocError>
    requires { length values.now ≡ length names.now }
    ensures { OnOk result (string_bytes text.new ≡ string_bytes text.old ++ values_text names.now values.now) }
{
    for (i, value) in values.iter().enumerate() {
        write!(text, " {}={}", names[i].as_str(), *value)?;
    }
    Ok(())
}

/// Writes the text of a verdict's run, where it has one.
fn write_run(
    alloc: Global,
    text: &mut String,
    file: &File,
    verdict: &Verdict,
) -> Result<(), AllocError>
    requires { VerdictFits file.now verdict.now }
    ensures { OnOk result (string_bytes text.new ≡ string_bytes text.old ++ run_part file.now verdict.now) }
{
    let Verdict::Unsafe { run, .. } = verdict else {
        return Ok(());
    };
    let run = print_run(alloc, file, run)?;
    text.push_str(run.as_str())
}
