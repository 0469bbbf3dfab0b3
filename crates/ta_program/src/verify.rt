//! The command `verify`.
#![tactic(auto)]

ghost use Rattle.std.specs.Prelude.{◌≡◌, [], false, IfErr, IfOk, map, Option, option_map};
ghost use Rattle.ta_automaton.specs.Narrow.{IsNarrow};
ghost use Rattle.ta_shelf.specs.Put.{Told};
ghost use Rattle.ta_shelf.specs.Ends.{ShelfState};
ghost use Rattle.ta_shelf.specs.OutputCalls.{Changed};
ghost use Rattle.ta_shelf.specs.Puts.{may_put};
ghost use Rattle.ta_shelf.specs.Staging.{Begun, SaysAndStages, StagedBy};
ghost use Rattle.ta_program.specs.Inside.Certifying.{SaysStaged};
ghost use Rattle.ta_program.specs.Inside.Reported.{ReportedTo};
ghost use Rattle.ta_program.specs.Reporting.{picked_meaning, report_meaning, verify_meaning};
ghost use Rattle.ta_program.specs.Asking.{verify_seen};
ghost use Rattle.ta_program.specs.Taken.{taken_of};
ghost use Rattle.ta_program.specs.VerifyWords.{verify_taken, verify_words};

use crate::budget::Budget;
use crate::certified::{answer_certified, answer_plain};
use crate::pattern_option::find_pick;
use crate::reading::read_spared;
use crate::request::StagingRequest;
use crate::telling::{Form, Report, tell};
use crate::values::{budget_of, file_name_of, out_of, wide_of};
use crate::words::{
    ALL_OPTION, CERTIFICATE_OPTION, JSON_OPTION, LAZY_OPTION, NODES_OPTION, PATTERN_OPTION, Taken,
    WIDE_OPTION, take_words,
};
use std::alloc::{AllocError, Global};
use std::thread::Threads;
use ta_report::Pick;
use ta_scope::ScopedFile;
use ta_shelf::{Outputs, Refusal, Shelf, StagedAnswer, StagingCommand, begin_file};
use ta_verdict::{Draft, Target, judge_picked_to};

/// What `verify` is asked for.
#[derive(Drop)]
pub(crate) struct Verify<'a> {
    file: &'a str,
    budget: Budget,
    out: Option<&'a str>,
    json: bool,
    pattern: Option<&'a str>,
    all: bool,
}

impl<'a> StagingRequest<'a> for Verify<'a> {
    ghost use Rattle.ta_program.specs.Reporting.{verify_asked};

    ghost asked = { verify_asked };

    fn read(words: &[&'a str]) -> Option<Verify<'a>> {
        read_verify(words)
    }
}

impl<'a> StagingCommand for Verify<'a> {
    ghost use Rattle.ta_program.specs.Asking.{verify_seen};
    ghost use Rattle.ta_program.specs.Reporting.{verify_meaning};

    ghost meaning = { λ command. verify_meaning (verify_seen command) };

    fn outputs(&self) -> Outputs<'_> {
        Outputs::one(self.out)
    }

    fn judge<R: Threads + Sync, S: Shelf>(
        &self,
        rt: &R,
        alloc: Global,
        shelf: &mut S,
    ) -> Result<StagedAnswer<'_, S::Stage>, Refusal<'_>> {
        judge_verify(rt, alloc, shelf, self)
    }
}

/// Reads the words of `verify`.
fn read_verify<'a>(words: &[&'a str]) -> Option<Verify<'a>>
    ensures { option_map verify_seen result ≡ verify_words (map (λ w. w.now) words.now) }
{
    let options = [
        NODES_OPTION,
        CERTIFICATE_OPTION,
        JSON_OPTION,
        LAZY_OPTION,
        PATTERN_OPTION,
        ALL_OPTION,
        WIDE_OPTION,
    ];
    verify_taken(take_words(1, &options, words)?)
}

/// What is asked for by what was taken of the words.
fn verify_taken(taken: Taken<'_>) -> Option<Verify<'_>>
    ensures { option_map verify_seen result ≡ verify_taken (taken_of taken.entry) }
{
    let file = file_name_of(taken.plain(0))?;
    let nodes = budget_of(taken.value(0))?;
    let out = out_of(file, taken.value(1))?;
    let lazy = taken.value(3).is_some();
    let wide = wide_of(taken.value(6).is_some(), lazy)?;
    Some(Verify {
        file,
        budget: Budget {
            given: ta_verdict::Budget { nodes, lazy },
            wide,
        },
        out,
        json: taken.value(2).is_some(),
        pattern: taken.value(4),
        all: taken.value(5).is_some(),
    })
}

/// Reads a file, which OUT is not to destroy, gives a sample of its parameters and a verdict on each
/// pattern that is asked for, and stages the certificate of those that are safe for the file OUT, where
/// that is asked for.
fn judge_verify<'a, R: Threads + Sync, S: Shelf>(
    rt: &R,
    alloc: Global,
    shelf: &mut S,
    asked: &Verify<'a>,
) -> Result<StagedAnswer<'a, S::Stage>, Refusal<'a>>
    ensures says { SaysAndStages (verify_meaning (verify_seen asked.now)) S.stage_name S.stage_bytes result
        (record { files = S.files shelf.old; calls = S.calls shelf.old; faults = S.faults shelf.old })
        (record { files = S.files shelf.new; calls = S.calls shelf.new; faults = S.faults shelf.new }) }
    ensures kept { S.files shelf.new ≡ S.files shelf.old }
{
    match read_spared(
        alloc,
        shelf,
        asked.file,
        asked.budget.wide,
        &Outputs::one(asked.out),
    ) {
        Ok(scoped) => {
            let answer = answer_picked(rt, alloc, shelf, &scoped, asked);
            drop(scoped);
            answer
        }
        Err(refusal) => Err(refusal),
    }
}

/// The answer of a file, unless it has no pattern with the name that is asked for.
fn answer_picked<'a, R: Threads + Sync, S: Shelf>(
    rt: &R,
    alloc: Global,
    shelf: &mut S,
    scoped: &ScopedFile,
    asked: &Verify<'a>,
) -> Result<StagedAnswer<'a, S::Stage>, Refusal<'a>>
    requires narrow { asked.now.budget.given.lazy ≡ false → IsNarrow scoped.now.file.automaton }
    ensures says { (files : Option Told) → SaysStaged (picked_meaning (verify_seen asked.now) scoped.now.file) S.stage_bytes files result }
    ensures staged { Changed (StagedBy (may_put (option_map (λ w. w.now) asked.now.out)) S.stage_name S.stage_bytes result (S.faults shelf.old) (S.faults shelf.new)) (S.calls shelf.old) (S.calls shelf.new) }
    ensures kept { S.files shelf.new ≡ S.files shelf.old }
{
    match find_pick(asked.file, &scoped.file, asked.pattern) {
        Ok(pick) => answer_report(rt, alloc, shelf, scoped, pick, asked),
        Err(refusal) => Err(refusal),
    }
}

/// The answer with a sample of the parameters and a verdict on each picked pattern of a file, and the
/// certificate that is asked for.
fn answer_report<'a, R: Threads + Sync, S: Shelf>(
    rt: &R,
    alloc: Global,
    shelf: &mut S,
    scoped: &ScopedFile,
    pick: Pick,
    asked: &Verify<'a>,
) -> Result<StagedAnswer<'a, S::Stage>, Refusal<'a>>
    requires narrow { asked.now.budget.given.lazy ≡ false → IsNarrow scoped.now.file.automaton }
    ensures says { (files : Option Told) → SaysStaged (report_meaning (verify_seen asked.now) scoped.now.file pick) S.stage_bytes files result }
    ensures staged { Changed (StagedBy (may_put (option_map (λ w. w.now) asked.now.out)) S.stage_name S.stage_bytes result (S.faults shelf.old) (S.faults shelf.new)) (S.calls shelf.old) (S.calls shelf.new) }
    ensures kept { S.files shelf.new ≡ S.files shelf.old }
{
    match asked.out {
        None => {
            let mut none = Draft::new(alloc, false);
            answer_plain(report_to(rt, alloc, scoped, pick, asked, &mut (), &mut none))
        }
        Some(name) => match begin_file(shelf, name) {
            Ok(mut file) => {
                let report = report_to(rt, alloc, scoped, pick, asked, shelf, &mut file);
                answer_certified(shelf, name, file, report)
            }
            Err(AllocError) => Err(Refusal::Memory),
        },
    }
}

/// The report of a sample of the parameters and of a verdict on each picked pattern of a file, whose
/// certificate goes to a target.
fn report_to<R: Threads + Sync, P, T: Target<P>>(
    rt: &R,
    alloc: Global,
    scoped: &ScopedFile,
    pick: Pick,
    asked: &Verify<'_>,
    place: &mut P,
    target: &mut T,
) -> Result<Report, AllocError>
    requires narrow { asked.now.budget.given.lazy ≡ false → IsNarrow scoped.now.file.automaton }
    ensures reports { (begun : Begun) → T.has begun target.old place.old [] → IfOk result (λ report. ReportedTo (record { rest = false; json = asked.now.json; all = asked.now.all }) scoped.now.file pick asked.now.budget.given report.number report.text (T.has begun target.new place.new)) }
    ensures stops { (begun : Begun) → T.has begun target.old place.old [] → IfErr result (λ _. T.stopped begun target.new place.new) }
{
    let form = Form {
        rest: false,
        json: asked.json,
        all: asked.all,
    };
    let budget = asked.budget.given;
    let verdicts = judge_picked_to(rt, alloc, scoped, pick, budget, place, target)?;
    let report = tell(
        alloc,
        form,
        &scoped.file,
        pick,
        &asked.budget,
        verdicts.as_slice(),
    )?;
    Ok(report)
}
