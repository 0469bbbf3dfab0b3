//! The report of `verify`, or that of `rest`, as a line of JSON.
#![tactic(auto)]

ghost use Rattle.std.specs.Prelude.{◌≡◌, IfOk, codes, length};
ghost use Rattle.std.specs.List.{AllByRecursion};
ghost use Rattle.serde_json.specs.Data.{array, object, put as with_member, string};
ghost use Rattle.serde_json.specs.View.{members_view, view};
ghost use Rattle.ta_replay.specs.Fits.{Fits};
ghost use Rattle.ta_replay.specs.RunText.{run_lines};
ghost use Rattle.ta_report.specs.Json.{digits_data, json_text, report_data, sample_data, text_lines, texts_data, unknown_sample_data, unknown_verdict_data, value_data, values_data, verdict_data, verdicts_data};
ghost use Rattle.ta_report.specs.Picked.{picked};
ghost use Rattle.ta_report.specs.Report.{SampleFits, VerdictFits, place_text, safe_word, unsafe_word};
ghost use Rattle.ta_report.specs.declared.verdict.Verdict.TheVariants.{Overflow, Safe, Spent, Unsafe};

use crate::members::{with_digits, with_patterns, with_text, with_value, with_verdict};
use crate::said::Said;
use crate::verdict::{ReportKind, ReportSample, Verdict};
use serde_json::{Map, Value, json};
use std::alloc::{AllocError, Global};
use ta_automaton::{File, Pattern};
use ta_base::Text;
use ta_replay::{Run, print_run};

/// The report of a sample of the parameters and of one verdict for each picked pattern, in the order of
/// the file, or that of `rest`, as the compact text of one JSON object and a line feed. All numbers are
/// strings of decimal digits, and a run is the list of its lines.
pub fn report_json(alloc: Global, rest: bool, said: &Said<'_>) -> Result<Text, AllocError>
    requires sample { SampleFits said.now.file.now said.now.sample.now }
    requires all { length said.now.verdicts.now ≡ length (picked said.now.pick said.now.file.now.patterns) }
    requires fit { AllByRecursion (VerdictFits said.now.file.now) said.now.verdicts.now }
    ensures { IfOk result (λ text. text ≡ json_text rest said.now.file.now said.now.pick said.now.sample.now said.now.verdicts.now) }
{
    let report = report_value(alloc, rest, said)?;
    let mut text = report.to_string(alloc)?;
    text.push_str("\n")?;
    Ok(Text::from_string(text))
}

/// The report as a value.
fn report_value(alloc: Global, rest: bool, said: &Said<'_>) -> Result<Value, AllocError>
    requires sample { SampleFits said.now.file.now said.now.sample.now }
    requires all { length said.now.verdicts.now ≡ length (picked said.now.pick said.now.file.now.patterns) }
    requires fit { AllByRecursion (VerdictFits said.now.file.now) said.now.verdicts.now }
    ensures { IfOk result (λ value. view value ≡ report_data rest said.now.file.now said.now.pick said.now.sample.now said.now.verdicts.now) }
{
    let automaton = said.file.automaton.name.as_str();
    let members = with_text(alloc, Map::new(alloc), "automaton", automaton)?;
    let parameters = sample_value(alloc, said.file, said.sample)?;
    let members = with_value(alloc, members, "parameters", parameters)?;
    let told = said.pick.of(said.file.patterns.as_slice());
    let patterns = verdict_values(alloc, rest, said.file, told, said.verdicts)?;
    with_patterns(alloc, members, patterns)
}

/// A number as a value: the text of its digits.
pub fn digits_value(alloc: Global, number: u64) -> Result<Value, AllocError>
    ensures { IfOk result (λ value. view value ≡ digits_data number) }
{
    Ok(Value::String(format!(in alloc; "{number}")?))
}

/// The object of these members and the nodes that were spent.
fn with_spent(alloc: Global, members: Map<String, Value>, nodes: u64) -> Result<Value, AllocError>
    ensures { IfOk result (λ value. view value ≡ object (with_member (codes "verdict") (string (codes "spent")) (with_member (codes "nodes") (digits_data nodes) (members_view members.entries)))) }
{
    let members = with_digits(alloc, members, "nodes", nodes)?;
    with_verdict(alloc, members, "spent")
}

/// The object of these members, of a node, and of the place in it where a number left 128 bits.
fn with_overflow(
    alloc: Global,
    members: Map<String, Value>,
    node: u64,
    kind: ReportKind,
) -> Result<Value, AllocError>
    ensures { IfOk result (λ value. view value ≡ object (with_member (codes "verdict") (string (codes "overflow")) (with_member (codes "place") (string (place_text kind)) (with_member (codes "node") (digits_data node) (members_view members.entries))))) }
{
    let members = with_digits(alloc, members, "node", node)?;
    let place = format!(in alloc; "{kind}")?;
    let members = with_value(alloc, members, "place", Value::String(place))?;
    with_verdict(alloc, members, "overflow")
}

/// What is said of the parameters.
pub(crate) fn sample_value(
    alloc: Global,
    file: &File,
    sample: &ReportSample,
) -> Result<Value, AllocError>
    requires { SampleFits file.now sample.now }
    ensures { IfOk result (λ value. view value ≡ sample_data file.now sample.now) }
{
    match sample {
        ReportSample::Sample(values) => {
            let names = file.automaton.parameters.as_slice();
            let values = parameter_values(alloc, names, values.as_slice())?;
            let members = with_value(alloc, Map::new(alloc), "values", values)?;
            with_verdict(alloc, members, "sample")
        }
        ReportSample::Empty => with_verdict(alloc, Map::new(alloc), "none"),
        ReportSample::Spent { .. } | ReportSample::Overflow { .. } => {
            unknown_sample_value(alloc, sample)
        }
    }
}

/// Why the parameters are unknown, as a value: the object that the report has for them, or `null` where they
/// are known.
pub fn unknown_sample_value(alloc: Global, sample: &ReportSample) -> Result<Value, AllocError>
    ensures { IfOk result (λ value. view value ≡ unknown_sample_data sample.now) }
{
    match sample {
        ReportSample::Sample(_) | ReportSample::Empty => Ok(Value::Null),
        ReportSample::Spent { count } => with_spent(alloc, Map::new(alloc), *count),
        ReportSample::Overflow { node, kind } => {
            with_overflow(alloc, Map::new(alloc), *node, *kind)
        }
    }
}

/// The values of the parameters, each with its name.
fn parameter_values(alloc: Global, names: &[Text], values: &[i128]) -> Result<Value, AllocError>
    requires { length values.now ≡ length names.now }
    ensures { IfOk result (λ value. view value ≡ array (values_data names.now values.now)) }
{
    let mut items = Vec::new(alloc);
    for (number, value) in values.iter().enumerate() {
        items.push(parameter_value(alloc, names[number].as_str(), *value)?)?;
    }
    Ok(Value::Array(items))
}

/// A parameter and its value.
fn parameter_value(alloc: Global, name: &str, value: i128) -> Result<Value, AllocError>
    ensures { IfOk result (λ pair. view pair ≡ value_data name.now value) }
{
    let digits = format!(in alloc; "{value}")?;
    json!(in alloc; [name, digits])
}

/// What is said of each pattern.
fn verdict_values(
    alloc: Global,
    rest: bool,
    file: &File,
    patterns: &[Pattern],
    verdicts: &[Verdict],
) -> Result<Value, AllocError>
    requires all { length verdicts.now ≡ length patterns.now }
    requires fit { AllByRecursion (VerdictFits file.now) verdicts.now }
    ensures { IfOk result (λ value. view value ≡ array (verdicts_data rest file.now patterns.now verdicts.now)) }
{
    let mut items = Vec::new(alloc);
    for (number, verdict) in verdicts.iter().enumerate() {
        items.push(verdict_value(alloc, rest, file, &patterns[number], verdict)?)?;
    }
    Ok(Value::Array(items))
}

/// What is said of a pattern.
fn verdict_value(
    alloc: Global,
    rest: bool,
    file: &File,
    pattern: &Pattern,
    verdict: &Verdict,
) -> Result<Value, AllocError>
    requires { VerdictFits file.now verdict.now }
    ensures { IfOk result (λ value. view value ≡ verdict_data rest file.now pattern.now verdict.now) }
{
    let name = pattern.name.as_str();
    match verdict {
        Verdict::Safe { nodes, leaves } => {
            let members = with_digits(alloc, Map::new(alloc), "leaves", *leaves)?;
            let members = with_text(alloc, members, "name", name)?;
            let members = with_digits(alloc, members, "nodes", *nodes)?;
            with_verdict(alloc, members, safe_word(rest))
        }
        Verdict::Unsafe { nodes, run } => {
            let members = with_text(alloc, Map::new(alloc), "name", name)?;
            let members = with_digits(alloc, members, "nodes", *nodes)?;
            let lines = run_value(alloc, file, run)?;
            let members = with_value(alloc, members, "run", lines)?;
            with_verdict(alloc, members, unsafe_word(rest))
        }
        Verdict::Spent { .. } | Verdict::Overflow { .. } => {
            unknown_verdict_value(alloc, name, verdict)
        }
    }
}

/// Why the pattern of this name is unknown, as a value: the object that the report has for it, or `null` where
/// it is known.
pub fn unknown_verdict_value(
    alloc: Global,
    name: &str,
    verdict: &Verdict,
) -> Result<Value, AllocError>
    ensures { IfOk result (λ value. view value ≡ unknown_verdict_data name.now verdict.now) }
{
    match verdict {
        Verdict::Safe { .. } | Verdict::Unsafe { .. } => Ok(Value::Null),
        Verdict::Spent { nodes } => {
            let members = with_text(alloc, Map::new(alloc), "name", name)?;
            with_spent(alloc, members, *nodes)
        }
        Verdict::Overflow { node, kind } => {
            let members = with_text(alloc, Map::new(alloc), "name", name)?;
            with_overflow(alloc, members, *node, *kind)
        }
    }
}

/// The word for a safe pattern.
fn safe_word(rest: bool) -> &'static str
    ensures { result.now ≡ safe_word rest }
{
    if rest { "rest safe" } else { "safe" }
}

/// The word for an unsafe pattern.
fn unsafe_word(rest: bool) -> &'static str
    ensures { result.now ≡ unsafe_word rest }
{
    if rest { "rest unsafe" } else { "unsafe" }
}

/// The lines of a run's text.
fn run_value(alloc: Global, file: &File, run: &Run) -> Result<Value, AllocError>
    requires { Fits file.now run.now }
    ensures { IfOk result (λ value. view value ≡ array (texts_data (run_lines file.now run.now))) }
{
    let text = print_run(alloc, file, run)?;
    lines_value(alloc, text.as_str())
}

/// The lines of a text as a value: the list of them, each without its line feed.
pub fn lines_value(alloc: Global, text: &str) -> Result<Value, AllocError>
    ensures { IfOk result (λ value. view value ≡ array (texts_data (text_lines text.now))) }
{
    let mut items = Vec::new(alloc);
    for line in text.split('\n') {
        items.push(Value::try_from_str(alloc, line)?)?;
    }
    // nothing stands behind the last line feed
    drop(items.pop());
    Ok(Value::Array(items))
}
