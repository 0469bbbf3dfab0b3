//! What `check` and `rest-check` answer where a certificate was read.
#![tactic(auto)]

ghost use Rattle.std.specs.Prelude.{◌≡◌, [], IfOk, IfSome, Option};
ghost use Rattle.ta_report.specs.CheckJson.{proofs_of};
ghost use Rattle.ta_report.specs.Report.{SampleFits};
ghost use Rattle.ta_shelf.specs.Put.{Told};
ghost use Rattle.ta_shelf.specs.Commands.{Says};
ghost use Rattle.ta_shelf.specs.Reading.{ReadCause};
ghost use Rattle.ta_shelf.specs.Stages.{replies};
ghost use Rattle.ta_program.specs.Proofs.{IsSampleFor, SaysProofs, are_proved, each_proved, has_start, printed_sample, proofs_number, wants_sample};

use crate::proof_options::ProofOptions;
use std::alloc::{AllocError, Global};
use ta_automaton::File;
use ta_base::Text;
use ta_base::limits::DEFAULT_NODES;
use ta_report::{ReportSample, proofs_json, proofs_text};
use ta_shelf::{Answer, Refusal};
use ta_verdict::sample_of;

/// The answer that says which patterns of a file are proved: those of these numbers. The sample is no
/// part of what is proved: it is searched where the status or the line of the parameters wants it.
pub(crate) fn answer_proofs<'a>(
    alloc: Global,
    rest: bool,
    file: &File,
    options: ProofOptions,
    numbers: &[u32],
) -> Result<Answer, Refusal<'a>>
    ensures says { (files : Option Told) → Says (replies [] (SaysProofs rest file.now options numbers.now)) files result [] }
    ensures cause { ReadCause result 0 0 }
{
    match say_proofs(alloc, rest, file, options, numbers) {
        Ok(answer) => Ok(answer),
        Err(AllocError) => Err(Refusal::Memory),
    }
}

/// The same, or none for want of memory.
fn say_proofs(
    alloc: Global,
    rest: bool,
    file: &File,
    options: ProofOptions,
    numbers: &[u32],
) -> Result<Answer, AllocError>
    ensures { IfOk result (SaysProofs rest file.now options numbers.now) }
{
    let sample = sample_for(alloc, options, file)?;
    let number = number_for(options.all, file, &sample, numbers);
    let printed = printed_of(options.parameters, sample);
    let text = text_for(alloc, options.json, rest, file, &printed, numbers)?;
    Ok(Answer::writing(alloc, number, text))
}

/// A sample of the parameters, where it is wanted.
fn sample_for(
    alloc: Global,
    options: ProofOptions,
    file: &File,
) -> Result<Option<ReportSample>, AllocError>
    ensures { IfOk result (IsSampleFor (wants_sample options) file.now) }
{
    if options.all || options.parameters {
        Ok(Some(sample_of(alloc, file, DEFAULT_NODES)?))
    } else {
        Ok(None)
    }
}

/// What is printed of a sample.
fn printed_of(parameters: bool, sample: Option<ReportSample>) -> Option<ReportSample>
    ensures { result ≡ printed_sample parameters sample }
{
    if parameters { sample } else { None }
}

/// The status: 2 where all is to be proved and isn't.
fn number_for(all: bool, file: &File, sample: &Option<ReportSample>, numbers: &[u32]) -> u8
    ensures { result ≡ proofs_number all file.now sample.now numbers.now }
{
    if all && !(has_start(sample) && each_proved(file, numbers)) {
        2
    } else {
        0
    }
}

/// Whether values of the parameters were found that have an initial configuration.
fn has_start(sample: &Option<ReportSample>) -> bool
    ensures { result ≡ has_start sample.now }
{
    match sample {
        Some(ReportSample::Sample(_)) => true,
        Some(ReportSample::Empty | ReportSample::Spent { .. } | ReportSample::Overflow { .. })
        | None => false,
    }
}

/// Whether a file has patterns, and all are proved: among those of these numbers.
fn each_proved(file: &File, numbers: &[u32]) -> bool
    ensures { result ≡ each_proved file.now numbers.now }
{
    !file.patterns.as_slice().is_empty() && are_proved(file, numbers)
}

/// Whether all patterns of a file are among those of these numbers.
fn are_proved(file: &File, numbers: &[u32]) -> bool
    ensures { result ≡ are_proved numbers.now 0 file.now.patterns }
{
    for (number, _pattern) in file.patterns.as_slice().iter().enumerate() {
        if !numbers.contains(&(number as u32)) {
            return false;
        }
    }
    true
}

/// The text, in JSON where that is asked for.
fn text_for(
    alloc: Global,
    json: bool,
    rest: bool,
    file: &File,
    sample: &Option<ReportSample>,
    numbers: &[u32],
) -> Result<Text, AllocError>
    requires { IfSome sample.now (SampleFits file.now) }
    ensures { IfOk result (λ text. text ≡ proofs_of json rest file.now sample.now numbers.now) }
{
    if json {
        proofs_json(alloc, rest, file, sample, numbers)
    } else {
        proofs_text(alloc, rest, file, sample, numbers)
    }
}
