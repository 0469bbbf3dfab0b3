//! The command `rest`.
#![tactic(auto)]

ghost use Rattle.std.specs.Prelude.{◌≡◌, [], false, IfErr, IfOk, IfSome, map, None, Option, option_map, true};
ghost use Rattle.ta_automaton.specs.Narrow.{IsNarrow};
ghost use Rattle.ta_automaton.specs.declared.file.File.{File};
ghost use Rattle.ta_rest.specs.Faults.{EndingsOf};
ghost use Rattle.ta_verdict.specs.Rest.Budgets.{resting};
ghost use Rattle.ta_shelf.specs.Put.{Told};
ghost use Rattle.ta_shelf.specs.Ends.{ShelfState};
ghost use Rattle.ta_shelf.specs.OutputCalls.{Changed};
ghost use Rattle.ta_shelf.specs.Puts.{may_put};
ghost use Rattle.ta_shelf.specs.Staging.{Begun, SaysAndStages, StagedBy};
ghost use Rattle.ta_shelf.specs.Stages.{finds};
ghost use Rattle.ta_program.specs.Inside.Certifying.{SaysStaged};
ghost use Rattle.ta_program.specs.Inside.Reported.{RestReportedTo};
ghost use Rattle.ta_program.specs.Rest.{rest_meaning, rest_picked, rest_quietly, rest_report_meaning};
ghost use Rattle.ta_program.specs.RestEnds.{CycleHinders, IsEnds, ends_of};
ghost use Rattle.ta_program.specs.RestSeen.{rest_seen};
ghost use Rattle.ta_program.specs.RestWords.{quiet_names, rest_taken, rest_words};
ghost use Rattle.ta_program.specs.Taken.{taken_of};

use crate::budget::Budget;
use crate::certified::{answer_certified, answer_plain};
use crate::ends::find_ends;
use crate::pattern_option::find_pick;
use crate::reading::read_spared;
use crate::request::StagingRequest;
use crate::silent_budget::SilentBudget;
use crate::silent_names::{find_silent, names_of};
use crate::telling::{Form, Report, tell};
use crate::values::{budget_of, file_name_of, out_of, wide_of};
use crate::words::{
    ALL_OPTION, CERTIFICATE_OPTION, JSON_OPTION, LAZY_OPTION, NODES_OPTION, PATTERN_OPTION,
    SILENT_OPTION, Taken, WIDE_OPTION, take_words,
};
use std::alloc::{AllocError, Global};
use std::thread::Threads;
use ta_report::Pick;
use ta_rest::RestFile;
use ta_scope::ScopedFile;
use ta_shelf::{Outputs, Refusal, Shelf, StagedAnswer, StagingCommand, begin_file};
use ta_verdict::rest::judge_rest_to;
use ta_verdict::{Draft, Target};

/// What `rest` is asked for.
#[derive(Drop)]
pub(crate) struct Rest<'a> {
    file: &'a str,
    silent: SilentBudget<'a>,
    out: Option<&'a str>,
    json: bool,
    pattern: Option<&'a str>,
    all: bool,
}

impl<'a> StagingRequest<'a> for Rest<'a> {
    ghost use Rattle.ta_program.specs.Rest.{rest_asked};

    ghost asked = { rest_asked };

    fn read(words: &[&'a str]) -> Option<Rest<'a>> {
        read_rest(words)
    }
}

impl<'a> StagingCommand for Rest<'a> {
    ghost use Rattle.ta_program.specs.Rest.{rest_meaning};
    ghost use Rattle.ta_program.specs.RestSeen.{rest_seen};

    ghost meaning = { λ command. rest_meaning (rest_seen command) };

    fn outputs(&self) -> Outputs<'_> {
        Outputs::one(self.out)
    }

    fn judge<R: Threads + Sync, S: Shelf>(
        &self,
        rt: &R,
        alloc: Global,
        shelf: &mut S,
    ) -> Result<StagedAnswer<'_, S::Stage>, Refusal<'_>> {
        judge_file(rt, alloc, shelf, self)
    }
}

/// Reads the words of `rest`.
fn read_rest<'a>(words: &[&'a str]) -> Option<Rest<'a>>
    ensures { option_map rest_seen result ≡ rest_words (map (λ w. w.now) words.now) }
{
    let options = [
        NODES_OPTION,
        CERTIFICATE_OPTION,
        JSON_OPTION,
        LAZY_OPTION,
        PATTERN_OPTION,
        ALL_OPTION,
        WIDE_OPTION,
        SILENT_OPTION,
    ];
    rest_taken(take_words(1, &options, words)?)
}

/// What is asked for by what was taken of the words.
fn rest_taken(taken: Taken<'_>) -> Option<Rest<'_>>
    ensures { option_map rest_seen result ≡ rest_taken (taken_of taken.entry) }
{
    let file = file_name_of(taken.plain(0))?;
    let nodes = budget_of(taken.value(0))?;
    let out = out_of(file, taken.value(1))?;
    let lazy = taken.value(3).is_some();
    let wide = wide_of(taken.value(6).is_some(), lazy)?;
    let names = quiet_names(lazy, taken.value(7))?;
    Some(Rest {
        file,
        silent: SilentBudget {
            budget: Budget {
                given: ta_verdict::Budget { nodes, lazy },
                wide,
            },
            names,
        },
        out,
        json: taken.value(2).is_some(),
        pattern: taken.value(4),
        all: taken.value(5).is_some(),
    })
}

/// The names that are to be silent, where they are given: with moments on demand alone.
fn quiet_names(lazy: bool, names: Option<&str>) -> Option<Option<&str>>
    ensures asked { option_map (λ o. option_map (λ w. w.now) o) result ≡ quiet_names lazy (option_map (λ w. w.now) names.entry) }
    ensures quiet { IfSome result (λ quiet. lazy ≡ false → quiet ≡ None) }
{
    match names {
        None => Some(None),
        Some(_) if lazy => names_of(names),
        Some(_) => None,
    }
}

/// Reads a file, which OUT is not to destroy, gives a sample of its parameters and says of each pattern
/// that is asked for whether a run in which it occurs comes to rest, and stages the certificate of those
/// that are safe for the file OUT, where that is asked for. Rest does not count on the silent names.
fn judge_file<'a, R: Threads + Sync, S: Shelf>(
    rt: &R,
    alloc: Global,
    shelf: &mut S,
    asked: &Rest<'a>,
) -> Result<StagedAnswer<'a, S::Stage>, Refusal<'a>>
    ensures says { SaysAndStages (rest_meaning (rest_seen asked.now)) S.stage_name S.stage_bytes result
        (record { files = S.files shelf.old; calls = S.calls shelf.old; faults = S.faults shelf.old })
        (record { files = S.files shelf.new; calls = S.calls shelf.new; faults = S.faults shelf.new }) }
    ensures kept { S.files shelf.new ≡ S.files shelf.old }
{
    match read_spared(
        alloc,
        shelf,
        asked.file,
        asked.silent.budget.wide,
        &Outputs::one(asked.out),
    ) {
        Ok(scoped) => answer_scoped(rt, alloc, shelf, scoped, asked),
        Err(refusal) => Err(refusal),
    }
}

/// The answer of a file, unless a rule lies on a longer cycle.
fn answer_scoped<'a, R: Threads + Sync, S: Shelf>(
    rt: &R,
    alloc: Global,
    shelf: &mut S,
    scoped: ScopedFile,
    asked: &Rest<'a>,
) -> Result<StagedAnswer<'a, S::Stage>, Refusal<'a>>
    requires narrow { asked.now.silent.budget.given.lazy ≡ false → IsNarrow scoped.file.automaton }
    ensures says { (files : Option Told) → SaysStaged (finds (IsEnds scoped.file) (CycleHinders asked.now.file.now scoped.file) (may_put (option_map (λ w. w.now) asked.now.out)) (rest_quietly (rest_seen asked.now) scoped.file)) S.stage_bytes files result }
    ensures staged { Changed (StagedBy (may_put (option_map (λ w. w.now) asked.now.out)) S.stage_name S.stage_bytes result (S.faults shelf.old) (S.faults shelf.new)) (S.calls shelf.old) (S.calls shelf.new) }
    ensures kept { S.files shelf.new ≡ S.files shelf.old }
{
    match find_ends(alloc, asked.file, scoped) {
        Ok(rest) => {
            let answer = answer_quietly(rt, alloc, shelf, &rest, asked);
            drop(rest);
            answer
        }
        Err(refusal) => Err(refusal),
    }
}

/// The answer of the endings of a file, unless the names may not be silent in it.
fn answer_quietly<'a, R: Threads + Sync, S: Shelf>(
    rt: &R,
    alloc: Global,
    shelf: &mut S,
    rest: &RestFile,
    asked: &Rest<'a>,
) -> Result<StagedAnswer<'a, S::Stage>, Refusal<'a>>
    requires narrow { asked.now.silent.budget.given.lazy ≡ false → IsNarrow rest.now.ending.file.automaton }
    ensures says { (files : Option Told) (file : File) → EndingsOf file rest.now.ending.file rest.now.added → SaysStaged (rest_quietly (rest_seen asked.now) file (ends_of rest.now)) S.stage_bytes files result }
    ensures staged { Changed (StagedBy (may_put (option_map (λ w. w.now) asked.now.out)) S.stage_name S.stage_bytes result (S.faults shelf.old) (S.faults shelf.new)) (S.calls shelf.old) (S.calls shelf.new) }
    ensures kept { S.files shelf.new ≡ S.files shelf.old }
{
    let names = asked.silent.names;
    match find_silent(alloc, asked.file, &rest.ending.file.automaton, names) {
        Ok(places) => answer_picked(rt, alloc, shelf, rest, places.as_slice(), asked),
        Err(refusal) => Err(refusal),
    }
}

/// The answer of the endings of a file, unless it has no pattern with the name that is asked for.
fn answer_picked<'a, R: Threads + Sync, S: Shelf>(
    rt: &R,
    alloc: Global,
    shelf: &mut S,
    rest: &RestFile,
    silent: &[u32],
    asked: &Rest<'a>,
) -> Result<StagedAnswer<'a, S::Stage>, Refusal<'a>>
    requires words { asked.now.silent.budget.given.lazy ≡ false → silent.now ≡ [] }
    requires narrow { asked.now.silent.budget.given.lazy ≡ false → IsNarrow rest.now.ending.file.automaton }
    ensures says { (files : Option Told) (file : File) → EndingsOf file rest.now.ending.file rest.now.added → SaysStaged (rest_picked (rest_seen asked.now) file (ends_of rest.now) (resting asked.now.silent.budget.given silent.now)) S.stage_bytes files result }
    ensures staged { Changed (StagedBy (may_put (option_map (λ w. w.now) asked.now.out)) S.stage_name S.stage_bytes result (S.faults shelf.old) (S.faults shelf.new)) (S.calls shelf.old) (S.calls shelf.new) }
    ensures kept { S.files shelf.new ≡ S.files shelf.old }
{
    match find_pick(asked.file, &rest.ending.file, asked.pattern) {
        Ok(pick) => answer_rest(rt, alloc, shelf, rest, silent, pick, asked),
        Err(refusal) => Err(refusal),
    }
}

/// The answer with a sample of the parameters and a verdict on each picked pattern of a file, and the
/// certificate that is asked for.
fn answer_rest<'a, R: Threads + Sync, S: Shelf>(
    rt: &R,
    alloc: Global,
    shelf: &mut S,
    rest: &RestFile,
    silent: &[u32],
    pick: Pick,
    asked: &Rest<'a>,
) -> Result<StagedAnswer<'a, S::Stage>, Refusal<'a>>
    requires words { asked.now.silent.budget.given.lazy ≡ false → silent.now ≡ [] }
    requires narrow { asked.now.silent.budget.given.lazy ≡ false → IsNarrow rest.now.ending.file.automaton }
    ensures says { (files : Option Told) (file : File) → EndingsOf file rest.now.ending.file rest.now.added → SaysStaged (rest_report_meaning (rest_seen asked.now) file (ends_of rest.now) (resting asked.now.silent.budget.given silent.now) pick) S.stage_bytes files result }
    ensures staged { Changed (StagedBy (may_put (option_map (λ w. w.now) asked.now.out)) S.stage_name S.stage_bytes result (S.faults shelf.old) (S.faults shelf.new)) (S.calls shelf.old) (S.calls shelf.new) }
    ensures kept { S.files shelf.new ≡ S.files shelf.old }
{
    match asked.out {
        None => {
            let mut none = Draft::new(alloc, false);
            answer_plain(report_to(rt, alloc, rest, silent, pick, asked, &mut (), &mut none))
        }
        Some(name) => match begin_file(shelf, name) {
            Ok(mut file) => {
                let report = report_to(rt, alloc, rest, silent, pick, asked, shelf, &mut file);
                answer_certified(shelf, name, file, report)
            }
            Err(AllocError) => Err(Refusal::Memory),
        },
    }
}

/// The report of a sample of the parameters and of a verdict on each picked pattern of a file of endings,
/// whose certificate goes to a target.
fn report_to<R: Threads + Sync, P, T: Target<P>>(
    rt: &R,
    alloc: Global,
    rest: &RestFile,
    silent: &[u32],
    pick: Pick,
    asked: &Rest<'_>,
    place: &mut P,
    target: &mut T,
) -> Result<Report, AllocError>
    requires words { asked.now.silent.budget.given.lazy ≡ false → silent.now ≡ [] }
    requires narrow { asked.now.silent.budget.given.lazy ≡ false → IsNarrow rest.now.ending.file.automaton }
    ensures reports { (begun : Begun) → T.has begun target.old place.old [] → IfOk result (λ report. RestReportedTo (record { rest = true; json = asked.now.json; all = asked.now.all }) rest.now pick (resting asked.now.silent.budget.given silent.now) report.number report.text (T.has begun target.new place.new)) }
    ensures stops { (begun : Begun) → T.has begun target.old place.old [] → IfErr result (λ _. T.stopped begun target.new place.new) }
{
    let form = Form {
        rest: true,
        json: asked.json,
        all: asked.all,
    };
    let budget = &asked.silent.budget;
    let verdicts = judge_rest_to(rt, alloc, rest, pick, budget.given, silent, place, target)?;
    let report = tell(
        alloc,
        form,
        &rest.ending.file,
        pick,
        budget,
        verdicts.as_slice(),
    )?;
    Ok(report)
}
