//! The text of a search.
#![tactic(auto)]

ghost use Rattle.std.specs.Prelude.{◌≡◌, ◌++◌, IfOk, OnOk, string_bytes};
ghost use Rattle.ta_shelf.specs.Lines.{phrase_text};
ghost use Rattle.ta_search.specs.SearchText.{choice_text, end_line, outcome_text, overflow_words, sample_words, search_text, tried_text, verdict_words};

use crate::outcome::{Outcome, SearchEnd, Tried};
use crate::template::{Hole, Template};
use std::alloc::{AllocError, Global};
use ta_base::Text;
use ta_report::{ReportKind, ReportSample, Verdict, file_fault_phrase};
use ta_shelf::Phrase;

/// The text of a search: a line for each vector that was tried, behind it the text of the run where
/// a pattern is unsafe, and last whether the search has found.
pub fn search_text(alloc: Global, template: &Template, end: &SearchEnd) -> Result<Text, AllocError>
    ensures { IfOk result (λ text. text ≡ search_text template.now end.now) }
{
    let holes = template.holes.as_slice();
    let mut text = String::new(alloc);
    let tried = end.tried.as_slice();
    'vectors: for next in tried {
        write_tried(&mut text, holes, next)?;
    }
    text.push_str(last_line(end.found))?;
    Ok(Text::from_string(text))
}

/// The last line.
fn last_line(found: bool) -> &'static str
    ensures { result.now ≡ end_line found }
{
    if found { "found\n" } else { "not found\n" }
}

/// Writes a vector and its outcome.
fn write_tried(text: &mut String, holes: &[Hole], tried: &Tried) -> Result<(), AllocError>
    ensures { OnOk result (string_bytes text.new ≡ string_bytes text.old ++ tried_text holes.now tried.now) }
{
    text.push_str("try")?;
    write_choice(text, holes, tried.values.as_slice())?;
    text.push_str(":")?;
    write_outcome(text, &tried.outcome)
}

/// Writes a value for each hole, behind its name.
fn write_choice(text: &mut String, holes: &[Hole], values: &[u32]) -> Result<(), AllocError>
    ensures { OnOk result (string_bytes text.new ≡ string_bytes text.old ++ choice_text holes.now values.now) }
{
    match (holes.split_first(), values.split_first()) {
        (Some((hole, holes)), Some((value, values))) => {
            write!(text, " {}={}", hole.name.as_str(), *value)?;
            write_choice(text, holes, values)
        }
        _ => Ok(()),
    }
}

/// Writes an outcome, up to the end of its line, and the text of a run.
fn write_outcome(text: &mut String, outcome: &Outcome) -> Result<(), AllocError>
    ensures { OnOk result (string_bytes text.new ≡ string_bytes text.old ++ outcome_text outcome.now) }
{
    match outcome {
        Outcome::Long => text.push_str(" long\n"),
        Outcome::Refused(fault) => {
            text.push_str(" refused, ")?;
            write_phrase(text, &file_fault_phrase(fault))?;
            text.push_str("\n")
        }
        Outcome::Empty => text.push_str(" no parameters\n"),
        Outcome::SampleUnknown(sample) => {
            text.push_str(" unknown, parameters, ")?;
            write_sample(text, sample)?;
            text.push_str("\n")
        }
        Outcome::Unsafe { pattern, run } => {
            write!(
                text,
                " unsafe, pattern {}\n{}",
                pattern.as_str(),
                run.as_str()
            )
        }
        Outcome::Unknown { pattern, verdict } => {
            write!(text, " unknown, pattern {}, ", pattern.as_str())?;
            write_verdict(text, verdict)?;
            text.push_str("\n")
        }
        Outcome::Safe { .. } => text.push_str(" safe\n"),
    }
}

/// Writes a phrase.
pub(crate) fn write_phrase(text: &mut String, phrase: &Phrase) -> Result<(), AllocError>
    ensures { OnOk result (string_bytes text.new ≡ string_bytes text.old ++ phrase_text phrase.now) }
{
    match phrase {
        Phrase::Plain(words) => text.push_str(words),
        Phrase::One { head, number, tail } => write!(text, "{}{}{}", *head, *number, *tail),
        Phrase::Two {
            head,
            first,
            middle,
            second,
            tail,
        } => write!(text, "{}{}{}{}{}", *head, *first, *middle, *second, *tail),
    }
}

/// Writes why a sample is unknown.
fn write_sample(text: &mut String, sample: &ReportSample) -> Result<(), AllocError>
    ensures { OnOk result (string_bytes text.new ≡ string_bytes text.old ++ sample_words sample.now) }
{
    match sample {
        ReportSample::Spent { count } => write!(text, "{count} nodes spent"),
        ReportSample::Overflow { node, kind } => write_place(text, *node, *kind),
        ReportSample::Sample(_) | ReportSample::Empty => Ok(()),
    }
}

/// Writes why a pattern is unknown.
fn write_verdict(text: &mut String, verdict: &Verdict) -> Result<(), AllocError>
    ensures { OnOk result (string_bytes text.new ≡ string_bytes text.old ++ verdict_words verdict.now) }
{
    match verdict {
        Verdict::Spent { nodes } => write!(text, "{nodes} nodes spent"),
        Verdict::Overflow { node, kind } => write_place(text, *node, *kind),
        Verdict::Safe { .. } | Verdict::Unsafe { .. } => Ok(()),
    }
}

/// Writes where a number left 128 bits.
fn write_place(text: &mut String, node: u64, kind: ReportKind) -> Result<(), AllocError>
    ensures { OnOk result (string_bytes text.new ≡ string_bytes text.old ++ overflow_words node kind) }
{
    write!(text, "outside 128 bits at node {node}, {kind}")
}
