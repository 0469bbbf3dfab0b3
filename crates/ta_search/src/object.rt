//! The end of a search as a line of JSON.
#![tactic(auto)]

ghost use Rattle.std.specs.Prelude.{◌≡◌, ◌++◌, IfOk, OnOk, codes, map};
ghost use Rattle.serde_json.specs.Data.{array, member, object, string};
ghost use Rattle.serde_json.specs.View.{view};
ghost use Rattle.ta_report.specs.Faults.{file_fault_text};
ghost use Rattle.ta_report.specs.Json.{verdict_member};
ghost use Rattle.ta_search.specs.Inside.Objects.{choice_list};
ghost use Rattle.ta_search.specs.declared.outcome.Outcome.TheVariants.{Refused, SampleUnknown, Unknown, Unsafe};
ghost use Rattle.ta_search.specs.SearchJson.{choice_data, found_word, hole_data, outcome_data, search_data, search_json, search_told, tried_data, tries_data, unsafe_data};

use crate::outcome::{Outcome, SearchEnd, Tried};
use crate::printing::{search_text, write_phrase};
use crate::template::{Hole, Template};
use serde_json::{Value, json};
use std::alloc::{AllocError, Global};
use ta_base::Text;
use ta_report::{
    ReportSample, Verdict, digits_value, file_fault_phrase, json_line, lines_value,
    unknown_sample_value, unknown_verdict_value,
};
use ta_syntax::FileFault;

/// The text of a search: a line of JSON, or the lines of `search_text`.
pub fn search_told(
    alloc: Global,
    json: bool,
    template: &Template,
    end: &SearchEnd,
) -> Result<Text, AllocError>
    ensures { IfOk result (λ text. text ≡ search_told json template.now end.now) }
{
    if json {
        search_json(alloc, template, end)
    } else {
        search_text(alloc, template, end)
    }
}

/// The end of a search as the compact text of one JSON object and a line feed: each vector that was tried, in
/// order, with its values, its outcome and what decides that. All numbers are strings of decimal digits, and a run
/// is the list of its lines.
pub fn search_json(alloc: Global, template: &Template, end: &SearchEnd) -> Result<Text, AllocError>
    ensures { IfOk result (λ text. text ≡ search_json template.now end.now) }
{
    let value = search_value(alloc, template, end)?;
    json_line(alloc, &value)
}

/// The end of a search as a value.
fn search_value(alloc: Global, template: &Template, end: &SearchEnd) -> Result<Value, AllocError>
    ensures { IfOk result (λ value. view value ≡ search_data template.now end.now) }
{
    let tried = tries_value(alloc, template.holes.as_slice(), end.tried.as_slice())?;
    let word = found_word(end.found);
    json!(in alloc; {"tried": tried, "verdict": word})
}

/// The word for whether values were found.
fn found_word(found: bool) -> &'static str
    ensures { result.now ≡ found_word found }
{
    if found { "found" } else { "not found" }
}

/// The vectors that were tried.
fn tries_value(alloc: Global, holes: &[Hole], tried: &[Tried]) -> Result<Value, AllocError>
    ensures { IfOk result (λ value. view value ≡ array (tries_data holes.now tried.now)) }
{
    let mut items = Vec::new(alloc);
    'vectors: for next in tried {
        items.push(tried_value(alloc, holes, next)?)?;
    }
    Ok(Value::Array(items))
}

/// A vector and its outcome.
fn tried_value(alloc: Global, holes: &[Hole], tried: &Tried) -> Result<Value, AllocError>
    ensures { IfOk result (λ value. view value ≡ tried_data holes.now tried.now) }
{
    let values = choice_value(alloc, holes, tried.values.as_slice())?;
    outcome_value(alloc, values, &tried.outcome)
}

/// A value for each hole, behind its name.
fn choice_value(alloc: Global, holes: &[Hole], values: &[u32]) -> Result<Value, AllocError>
    ensures { IfOk result (λ value. view value ≡ array (choice_data holes.now values.now)) }
{
    let mut items = Vec::new(alloc);
    push_choice(alloc, &mut items, holes, values)?;
    Ok(Value::Array(items))
}

/// Adds a value for each hole.
fn push_choice(
    alloc: Global,
    items: &mut Vec<Value>,
    holes: &[Hole],
    values: &[u32],
) -> Result<(), AllocError>
    ensures { OnOk result (map view items.new.items ≡ map view items.old.items ++ choice_list holes.now values.now) }
{
    match (holes.split_first(), values.split_first()) {
        (Some((hole, holes)), Some((value, values))) => {
            items.push(hole_value(alloc, hole.name.as_str(), *value)?)?;
            push_choice(alloc, items, holes, values)
        }
        _ => Ok(()),
    }
}

/// The name of a hole and its value.
fn hole_value(alloc: Global, name: &str, value: u32) -> Result<Value, AllocError>
    ensures { IfOk result (λ pair. view pair ≡ hole_data name.now value) }
{
    let digits = digits_value(alloc, u64::from(value))?;
    json!(in alloc; [name, digits])
}

/// An outcome, with the values of its vector.
fn outcome_value(alloc: Global, values: Value, outcome: &Outcome) -> Result<Value, AllocError>
    ensures { IfOk result (λ value. view value ≡ outcome_data outcome.now (view values)) }
{
    match outcome {
        Outcome::Long => bare_value(alloc, values, "long"),
        Outcome::Refused(fault) => refused_value(alloc, values, fault),
        Outcome::Empty => bare_value(alloc, values, "no parameters"),
        Outcome::SampleUnknown(sample) => no_sample_value(alloc, values, sample),
        Outcome::Unsafe { pattern, run } => {
            unsafe_outcome_value(alloc, values, pattern.as_str(), run.as_str())
        }
        Outcome::Unknown { pattern, verdict } => {
            unknown_outcome_value(alloc, values, pattern.as_str(), verdict)
        }
        Outcome::Safe { .. } => bare_value(alloc, values, "safe"),
    }
}

/// An outcome without anything that decides it but its word.
fn bare_value(alloc: Global, values: Value, word: &str) -> Result<Value, AllocError>
    ensures { IfOk result (λ value. view value ≡ object (member (codes "values") (view values) (verdict_member word.now))) }
{
    json!(in alloc; {"values": values, "verdict": word})
}

/// That the filled text isn't a legal file.
fn refused_value(alloc: Global, values: Value, fault: &FileFault) -> Result<Value, AllocError>
    ensures { IfOk result (λ value. view value ≡ outcome_data (Refused fault.now) (view values)) }
{
    let fault = fault_value(alloc, fault)?;
    json!(in alloc; {"fault": fault, "values": values, "verdict": "refused"})
}

/// That no parameters were found, and why.
fn no_sample_value(alloc: Global, values: Value, sample: &ReportSample) -> Result<Value, AllocError>
    ensures { IfOk result (λ value. view value ≡ outcome_data (SampleUnknown sample.now) (view values)) }
{
    let parameters = unknown_sample_value(alloc, sample)?;
    json!(in alloc; {"parameters": parameters, "values": values, "verdict": "unknown"})
}

/// That a pattern is unsafe.
fn unsafe_outcome_value(
    alloc: Global,
    values: Value,
    name: &str,
    run: &str,
) -> Result<Value, AllocError>
    ensures { IfOk result (λ value. view value ≡ outcome_data (Unsafe name.now run.now) (view values)) }
{
    let pattern = unsafe_value(alloc, name, run)?;
    decided_value(alloc, values, pattern, "unsafe")
}

/// That a pattern is unknown.
fn unknown_outcome_value(
    alloc: Global,
    values: Value,
    name: &str,
    verdict: &Verdict,
) -> Result<Value, AllocError>
    ensures { IfOk result (λ value. view value ≡ outcome_data (Unknown name.now verdict.now) (view values)) }
{
    let pattern = unknown_verdict_value(alloc, name, verdict)?;
    decided_value(alloc, values, pattern, "unknown")
}

/// An outcome that a pattern decides.
fn decided_value(
    alloc: Global,
    values: Value,
    pattern: Value,
    word: &str,
) -> Result<Value, AllocError>
    ensures { IfOk result (λ value. view value ≡
        object (member (codes "pattern") (view pattern) (member (codes "values") (view values) (verdict_member word.now)))) }
{
    json!(in alloc; {"pattern": pattern, "values": values, "verdict": word})
}

/// The words for a file's error.
fn fault_value(alloc: Global, fault: &FileFault) -> Result<Value, AllocError>
    ensures { IfOk result (λ value. view value ≡ string (file_fault_text fault.now)) }
{
    let mut text = String::new(alloc);
    write_phrase(&mut text, &file_fault_phrase(fault))?;
    Ok(Value::String(text))
}

/// An unsafe pattern, with the lines of its run.
fn unsafe_value(alloc: Global, name: &str, run: &str) -> Result<Value, AllocError>
    ensures { IfOk result (λ value. view value ≡ unsafe_data name.now run.now) }
{
    let lines = lines_value(alloc, run)?;
    json!(in alloc; {"name": name, "run": lines, "verdict": "unsafe"})
}
