//! How a report is told: its number and its text.
#![tactic(auto)]

ghost use Rattle.std.specs.Prelude.{◌≡◌, IfOk, length};
ghost use Rattle.std.specs.List.{AllByRecursion};
ghost use Rattle.ta_report.specs.Picked.{picked};
ghost use Rattle.ta_report.specs.Report.{SampleFits, VerdictFits};
ghost use Rattle.ta_report.specs.Telling.{report_of};
ghost use Rattle.ta_program.specs.Inside.Reported.{SampleReported};
ghost use Rattle.ta_program.specs.Statuses.{ZeroSays, report_number, tells_nothing, verdicts_number};

use crate::budget::Budget;
use std::alloc::{AllocError, Global};
use ta_automaton::File;
use ta_base::Text;
use ta_report::{Pick, ReportSample, Said, Verdict, report_json, report_text, rest_text};
use ta_verdict::{is_unknown, is_unsafe, sample_of};

/// Whether a report is that of `rest`, whether it is a line of JSON, and whether its number is 0 only
/// where it tells something of all.
#[derive(Clone, Copy)]
pub(crate) struct Form {
    pub rest: bool,
    pub json: bool,
    pub all: bool,
}

/// A report: the number that its command ends with, and its text.
#[derive(Drop)]
pub(crate) struct Report {
    pub number: u8,
    pub text: Text,
}

/// The report of a sample of the parameters and of these verdicts.
pub(crate) fn tell(
    alloc: Global,
    form: Form,
    file: &File,
    pick: Pick,
    budget: &Budget,
    verdicts: &[Verdict],
) -> Result<Report, AllocError>
    requires all { length verdicts.now ≡ length (picked pick file.now.patterns) }
    requires fit { AllByRecursion (VerdictFits file.now) verdicts.now }
    ensures { IfOk result (λ report. SampleReported form file.now pick budget.now.given.nodes verdicts.now report.number report.text) }
{
    let sample = sample_of(alloc, file, budget.given.nodes)?;
    let number = report_number(form.all, &sample, verdicts);
    let said = Said {
        file,
        pick,
        sample: &sample,
        verdicts,
    };
    let text = text_of(alloc, form, &said)?;
    Ok(Report { number, text })
}

/// The text of a report, as lines or as a line of JSON.
fn text_of(alloc: Global, form: Form, said: &Said<'_>) -> Result<Text, AllocError>
    requires sample { SampleFits said.now.file.now said.now.sample.now }
    requires all { length said.now.verdicts.now ≡ length (picked said.now.pick said.now.file.now.patterns) }
    requires fit { AllByRecursion (VerdictFits said.now.file.now) said.now.verdicts.now }
    ensures { IfOk result (λ text. text ≡ report_of form.rest form.json said.now.file.now said.now.pick said.now.sample.now said.now.verdicts.now) }
{
    if form.json {
        return report_json(alloc, form.rest, said);
    }
    if form.rest {
        return rest_text(alloc, said);
    }
    report_text(alloc, said)
}

/// The number of a report: that of its verdicts, or 2 in place of 0 where it is to tell something of
/// all, and tells nothing.
fn report_number(all: bool, sample: &ReportSample, verdicts: &[Verdict]) -> u8
    ensures { result ≡ report_number all sample.now verdicts.now }
{
    let number = number_of(verdicts);
    if !all {
        return number;
    }
    if number != 0 {
        return number;
    }
    if tells_nothing(sample, verdicts) {
        return 2;
    }
    0
}

/// Whether no parameters are known that have an initial configuration, or there is no verdict.
fn tells_nothing(sample: &ReportSample, verdicts: &[Verdict]) -> bool
    ensures { result ≡ tells_nothing sample.now verdicts.now }
{
    match sample {
        ReportSample::Sample(_) => verdicts.is_empty(),
        ReportSample::Empty => true,
        ReportSample::Spent { .. } => true,
        ReportSample::Overflow { .. } => true,
    }
}

/// The law that verdicts have the number 0 only where none is unsafe and none unknown; the call does
/// nothing.
pub(crate) fn zero_says()
    ensures { ZeroSays }
{}

/// The number of verdicts: 1 where some pattern is unsafe, else 2 where some is unknown, else 0.
fn number_of(verdicts: &[Verdict]) -> u8
    ensures { result ≡ verdicts_number verdicts.now }
{
    if verdicts.iter().any(|verdict| is_unsafe(verdict)) {
        1
    } else if verdicts.iter().any(|verdict| is_unknown(verdict)) {
        2
    } else {
        0
    }
}
