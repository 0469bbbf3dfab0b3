//! The texts of `check`, of `rest-check` and of `replay` as lines of JSON.
#![tactic(auto)]

ghost use Rattle.std.specs.Prelude.{◌≡◌, ◌++◌, codes, false, true, IfOk, IfSome};
ghost use Rattle.serde_json.specs.Data.{array, object, put as with_member};
ghost use Rattle.serde_json.specs.View.{members_view, view};
ghost use Rattle.serde_json.specs.Written.{compact_text, has_float};
ghost use Rattle.ta_report.specs.CheckJson.{all_proofs_data, proofs_data, proofs_json, replay_data, shown_data, shown_text, told_data};
ghost use Rattle.ta_report.specs.Report.{SampleFits};

use crate::check::word_told;
use crate::members::{with_digits, with_patterns, with_text, with_value, with_verdict};
use crate::object::sample_value;
use crate::verdict::ReportSample;
use serde_json::{Map, Value};
use std::alloc::{AllocError, Global};
use ta_automaton::File;
use ta_base::Text;
use ta_replay::Shown;

/// The line of JSON that says which patterns of a file are proved: those of these numbers; as `check`
/// says it, or `rest-check`. It has the parameters where a sample is given.
pub fn proofs_json(
    alloc: Global,
    rest: bool,
    file: &File,
    sample: &Option<ReportSample>,
    numbers: &[u32],
) -> Result<Text, AllocError>
    requires { IfSome sample.now (SampleFits file.now) }
    ensures { IfOk result (λ text. text ≡ proofs_json rest file.now sample.now numbers.now) }
{
    let value = proofs_value(alloc, rest, file, sample, numbers)?;
    json_line(alloc, &value)
}

/// The line of JSON for a pattern of an automaton that a run shows, with its unit steps and marks.
pub fn shown_json(
    alloc: Global,
    automaton: &str,
    name: &str,
    shown: Shown,
) -> Result<Text, AllocError>
    ensures { IfOk result (λ text. text ≡ shown_text true automaton.now name.now shown) }
{
    let value = replay_value(alloc, automaton, name, shown)?;
    json_line(alloc, &value)
}

/// The line of a value without fractions: its compact text and a line feed.
pub fn json_line(alloc: Global, value: &Value) -> Result<Text, AllocError>
    requires { has_float (view value.now) ≡ false }
    ensures { IfOk result (λ text. text ≡ compact_text (view value.now) ++ codes "\n") }
{
    let mut text = value.to_string(alloc)?;
    text.push_str("\n")?;
    Ok(Text::from_string(text))
}

/// Which patterns of a file are proved.
fn proofs_value(
    alloc: Global,
    rest: bool,
    file: &File,
    sample: &Option<ReportSample>,
    numbers: &[u32],
) -> Result<Value, AllocError>
    requires { IfSome sample.now (SampleFits file.now) }
    ensures { IfOk result (λ value. view value ≡ all_proofs_data rest file.now sample.now numbers.now) }
{
    let automaton = file.automaton.name.as_str();
    let members = with_text(alloc, Map::new(alloc), "automaton", automaton)?;
    match sample {
        Some(sample) => {
            let parameters = sample_value(alloc, file, sample)?;
            let members = with_value(alloc, members, "parameters", parameters)?;
            with_proofs(alloc, members, rest, file, numbers)
        }
        None => with_proofs(alloc, members, rest, file, numbers),
    }
}

/// The object of these members and of what is said of each pattern.
fn with_proofs(
    alloc: Global,
    members: Map<String, Value>,
    rest: bool,
    file: &File,
    numbers: &[u32],
) -> Result<Value, AllocError>
    ensures { IfOk result (λ value. view value ≡ object (with_member (codes "patterns") (array (proofs_data rest numbers.now 0 file.now.patterns)) (members_view members.entries))) }
{
    let patterns = proof_values(alloc, rest, file, numbers)?;
    with_patterns(alloc, members, patterns)
}

/// Whether each pattern is proved.
fn proof_values(
    alloc: Global,
    rest: bool,
    file: &File,
    numbers: &[u32],
) -> Result<Value, AllocError>
    ensures { IfOk result (λ value. view value ≡ array (proofs_data rest numbers.now 0 file.now.patterns)) }
{
    let mut items = Vec::new(alloc);
    for (number, pattern) in file.patterns.as_slice().iter().enumerate() {
        let word = word_told(rest, numbers, number as u32);
        items.push(told_value(alloc, pattern.name.as_str(), word)?)?;
    }
    Ok(Value::Array(items))
}

/// A name, and what is said of it.
fn told_value(alloc: Global, name: &str, word: &str) -> Result<Value, AllocError>
    ensures { IfOk result (λ value. view value ≡ told_data name.now word.now) }
{
    let members = with_text(alloc, Map::new(alloc), "name", name)?;
    with_verdict(alloc, members, word)
}

/// A pattern of an automaton that a run shows.
fn replay_value(
    alloc: Global,
    automaton: &str,
    name: &str,
    shown: Shown,
) -> Result<Value, AllocError>
    ensures { IfOk result (λ value. view value ≡ replay_data automaton.now name.now shown) }
{
    let members = with_text(alloc, Map::new(alloc), "automaton", automaton)?;
    let pattern = shown_value(alloc, name, shown)?;
    let patterns = vec![in alloc; pattern]?;
    with_patterns(alloc, members, Value::Array(patterns))
}

/// A pattern that a run shows.
fn shown_value(alloc: Global, name: &str, shown: Shown) -> Result<Value, AllocError>
    ensures { IfOk result (λ value. view value ≡ shown_data name.now shown) }
{
    let members = with_digits(alloc, Map::new(alloc), "marks", u64::from(shown.marks))?;
    let members = with_text(alloc, members, "name", name)?;
    let members = with_digits(alloc, members, "steps", shown.steps)?;
    with_verdict(alloc, members, "shown")
}
