//! The outcome of one vector of a template's values.
#![tactic(auto)]

ghost use Rattle.std.specs.Prelude.{◌≡◌, ◌≤◌, ◌<◌, ◌++◌, IfOk, OnOk, List, ℕ, ℤ, false, length};
ghost use Rattle.std.specs.List.{AllByRecursion};
ghost use Rattle.ta_automaton.specs.Narrow.{IsWithin};
ghost use Rattle.ta_base.specs.LimitRows.{narrow};
ghost use Rattle.ta_meaning.specs.Reading.{Legal};
ghost use Rattle.ta_report.specs.Report.{VerdictFits};
ghost use Rattle.ta_report.specs.declared.verdict.ReportSample.TheVariants.{Sample};
ghost use Rattle.ta_search.specs.Holes.{HoleInRange, vector_count};
ghost use Rattle.ta_search.specs.Inside.Trying.{IsOfPattern, vector_at};
ghost use Rattle.ta_search.specs.Outcomes.{IsSampled, OutcomeHolds, is_safe, safe_before};
ghost use Rattle.ta_search.specs.Searching.{IsTried, is_found};
ghost use Rattle.ta_automaton.specs.Numbered.{OfPattern};

use crate::certificate::CertificateText;
use crate::filling::fill;
use crate::lines::vector_count;
use crate::outcome::{Outcome, Tried};
use crate::template::{Hole, Template};
use crate::terms::Terms;
use std::alloc::{AllocError, Global};
use std::thread::Threads;
use ta_automaton::File;
use ta_base::limits::{MOST_NODES, MOST_VECTORS};
use ta_base::{List, Text};
use ta_meaning::read_file;
use ta_replay::print_run;
use ta_report::{ReportSample, Verdict};
use ta_scope::ScopedFile;
use ta_syntax::FileFault;
use ta_verdict::{judge_file, sample_of};

/// Whether an outcome says that every pattern is safe.
pub(crate) fn is_found(outcome: &Outcome) -> bool
    ensures { result ≡ is_found outcome.now }
{
    matches!(outcome, Outcome::Safe { .. })
}

/// Tries the vector of a number.
pub(crate) fn try_vector<R: Threads + Sync>(
    rt: &R,
    alloc: Global,
    template: &Template,
    place: u64,
    terms: Terms,
) -> Result<Tried, AllocError>
    requires place { place < vector_count template.now.holes }
    requires some { 0 < terms.budget.nodes }
    requires limit { terms.budget.nodes ≤ MOST_NODES }
    requires narrow { terms.budget.lazy ≡ false → terms.limits ≡ narrow }
    ensures { IfOk result (λ tried. IsTried template.now terms (vector_at template.now.holes place) tried) }
{
    let mut values = Vec::new(alloc);
    push_vector(&mut values, template.holes.as_slice(), place)?;
    let bytes = fill(alloc, template, values.as_slice())?;
    let outcome = text_outcome(rt, alloc, bytes.as_slice(), terms)?;
    Ok(Tried {
        values: List::from_vec(values),
        outcome,
    })
}

/// Adds the values of the vector of a number.
fn push_vector(values: &mut Vec<u32>, holes: &[Hole], place: u64) -> Result<(), AllocError>
    requires ranges { AllByRecursion HoleInRange holes.now }
    requires few { vector_count holes.now ≤ MOST_VECTORS }
    requires place { place < vector_count holes.now }
    ensures { OnOk result (values.new.items ≡ values.old.items ++ vector_at holes.now place) }
{
    let Some((first, rest)) = holes.split_first() else {
        return Ok(());
    };
    let count = vector_count(rest);
    values.push(first.low + (place / count) as u32)?;
    push_vector(values, rest, place % count)
}

/// What comes of a filled text.
fn text_outcome<R: Threads + Sync>(
    rt: &R,
    alloc: Global,
    bytes: &[u8],
    terms: Terms,
) -> Result<Outcome, AllocError>
    requires some { 0 < terms.budget.nodes }
    requires limit { terms.budget.nodes ≤ MOST_NODES }
    requires narrow { terms.budget.lazy ≡ false → terms.limits ≡ narrow }
    ensures { IfOk result (OutcomeHolds bytes.now terms) }
{
    if bytes.len() > terms.limits.bytes {
        return Ok(Outcome::Long);
    }
    match read_file(alloc, bytes, &terms.limits) {
        Ok(scoped) => {
            let outcome = file_outcome(rt, alloc, &scoped, terms);
            drop(scoped);
            outcome
        }
        Err(FileFault::Memory) => Err(AllocError),
        Err(fault) => Ok(Outcome::Refused(fault)),
    }
}

/// What comes of a file.
fn file_outcome<R: Threads + Sync>(
    rt: &R,
    alloc: Global,
    scoped: &ScopedFile,
    terms: Terms,
) -> Result<Outcome, AllocError>
    requires some { 0 < terms.budget.nodes }
    requires limit { terms.budget.nodes ≤ MOST_NODES }
    requires narrow { terms.budget.lazy ≡ false → terms.limits ≡ narrow }
    requires within { IsWithin terms.limits scoped.now.file.automaton }
    ensures { (bytes : List ℕ) → length bytes ≤ terms.limits.bytes → Legal terms.limits bytes scoped.now.file → IfOk result (OutcomeHolds bytes terms) }
{
    match sample_of(alloc, &scoped.file, terms.budget.nodes)? {
        ReportSample::Sample(_) => patterns_outcome(rt, alloc, scoped, terms),
        ReportSample::Empty => Ok(Outcome::Empty),
        ReportSample::Spent { count } => {
            Ok(Outcome::SampleUnknown(ReportSample::Spent { count }))
        }
        ReportSample::Overflow { node, kind } => {
            Ok(Outcome::SampleUnknown(ReportSample::Overflow { node, kind }))
        }
    }
}

/// What comes of a file that has a sample.
fn patterns_outcome<R: Threads + Sync>(
    rt: &R,
    alloc: Global,
    scoped: &ScopedFile,
    terms: Terms,
) -> Result<Outcome, AllocError>
    requires some { 0 < terms.budget.nodes }
    requires limit { terms.budget.nodes ≤ MOST_NODES }
    requires narrow { terms.budget.lazy ≡ false → terms.limits ≡ narrow }
    requires within { IsWithin terms.limits scoped.now.file.automaton }
    ensures { (bytes : List ℕ) (values : List ℤ) → IsSampled bytes terms scoped.now.file (Sample values) → IfOk result (OutcomeHolds bytes terms) }
{
    let judged = judge_file(rt, alloc, scoped, terms.budget, true)?;
    let verdicts = judged.verdicts.as_slice();
    let place = safe_before(verdicts);
    match verdicts.get(place) {
        Some(verdict) => pattern_outcome(alloc, &scoped.file, place, verdict),
        None => Ok(Outcome::Safe {
            certificate: CertificateText::from_pieces(judged.certificate),
        }),
    }
}

/// How many verdicts stand before the first that isn't Safe.
fn safe_before(verdicts: &[Verdict]) -> usize
    ensures { result ≡ safe_before verdicts.now }
{
    verdicts
        .iter()
        .take_while(|verdict| is_safe(verdict))
        .count()
}

/// Whether a verdict says that a pattern is safe.
fn is_safe(verdict: &Verdict) -> bool
    ensures { result ≡ is_safe verdict.now }
{
    matches!(verdict, Verdict::Safe { .. })
}

/// What comes of a file by the verdict on its pattern of this number, which is the first that isn't Safe.
fn pattern_outcome(
    alloc: Global,
    file: &File,
    number: usize,
    verdict: &Verdict,
) -> Result<Outcome, AllocError>
    requires exists { number < length file.now.patterns }
    requires fits { VerdictFits file.now verdict.now }
    requires other { is_safe verdict.now ≡ false }
    ensures { OfPattern file.now number (λ p. IfOk result (IsOfPattern file.now p verdict.now)) }
{
    let name = copied(alloc, &file.patterns.as_slice()[number].name)?;
    match verdict {
        Verdict::Unsafe { run, .. } => Ok(Outcome::Unsafe {
            pattern: name,
            run: print_run(alloc, file, run)?,
        }),
        Verdict::Spent { nodes } => Ok(Outcome::Unknown {
            pattern: name,
            verdict: Verdict::Spent { nodes: *nodes },
        }),
        Verdict::Overflow { node, kind } => Ok(Outcome::Unknown {
            pattern: name,
            verdict: Verdict::Overflow {
                node: *node,
                kind: *kind,
            },
        }),
        Verdict::Safe { .. } => unreachable!(),
    }
}

/// A copy of a text.
fn copied(alloc: Global, text: &Text) -> Result<Text, AllocError>
    ensures { IfOk result (λ copy. copy ≡ text.now) }
{
    Ok(Text::from_string(String::from_str(alloc, text.as_str())?))
}
