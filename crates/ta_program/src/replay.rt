//! The command `replay`.
#![tactic(auto)]

ghost use Rattle.std.specs.Prelude.{◌≡◌, ◌≢◌, [], map, option_map, IfOk, IfErr, Option};
ghost use Rattle.ta_replay.specs.declared.fault.RunFault.TheVariants as fault;
ghost use Rattle.ta_replay.specs.Fits.{Fits};
ghost use Rattle.ta_replay.specs.Shows.{shown_of};
ghost use Rattle.ta_report.specs.CheckJson.{shown_text};
ghost use Rattle.ta_shelf.specs.Calls.{Grew};
ghost use Rattle.ta_shelf.specs.Put.{Told};
ghost use Rattle.ta_shelf.specs.Commands.{Says};
ghost use Rattle.ta_shelf.specs.Reading.{ReadCause};
ghost use Rattle.ta_shelf.specs.Stages.{Stage, replies};
ghost use Rattle.ta_program.specs.CheckSeen.{replay_seen};
ghost use Rattle.ta_program.specs.CheckWords.{replay_taken, replay_words};
ghost use Rattle.ta_program.specs.Kinds.{RunFaultIn, ShowsRun, run_kind};
ghost use Rattle.ta_program.specs.Replay.{SaysShown, replay_meaning, shown_meaning};
ghost use Rattle.ta_program.specs.Taken.{taken_of};

use crate::limits::RUN;
use crate::reading::read_legal;
use crate::request::Request;
use crate::values::file_name_of;
use crate::words::{JSON_OPTION, Taken, WIDE_OPTION, take_words};
use std::alloc::{AllocError, Global};
use std::thread::Threads;
use ta_automaton::File;
use ta_base::Text;
use ta_replay::{Run, RunFault, Shown, read_run, replay};
use ta_report::{run_fault_phrase, shown_json, shown_line};
use ta_shelf::{Answer, Command, Outputs, Refusal, Shelf, read_text};

/// What `replay` is asked for.
#[derive(Drop)]
pub(crate) struct Replay<'a> {
    file: &'a str,
    run: &'a str,
    wide: bool,
    json: bool,
}

impl<'a> Request<'a> for Replay<'a> {
    ghost use Rattle.ta_program.specs.Replay.{replay_asked};

    ghost asked = { replay_asked };

    fn read(words: &[&'a str]) -> Option<Replay<'a>> {
        read_replay(words)
    }
}

impl<'a> Command for Replay<'a> {
    ghost use Rattle.ta_program.specs.CheckSeen.{replay_seen};
    ghost use Rattle.ta_program.specs.Replay.{replay_meaning};

    ghost meaning = { λ command. replay_meaning (replay_seen command) };

    fn outputs(&self) -> Outputs<'_> {
        Outputs::none()
    }

    fn judge<R: Threads + Sync, S: Shelf>(
        &self,
        rt: &R,
        alloc: Global,
        shelf: &mut S,
    ) -> Result<Answer, Refusal<'_>> {
        let _ = rt;
        judge_files(alloc, shelf, self)
    }
}

/// Reads the words of `replay`.
fn read_replay<'a>(words: &[&'a str]) -> Option<Replay<'a>>
    ensures { option_map replay_seen result ≡ replay_words (map (λ w. w.now) words.now) }
{
    let options = [JSON_OPTION, WIDE_OPTION];
    replay_taken(take_words(2, &options, words)?)
}

/// What is asked for by what was taken of the words.
fn replay_taken(taken: Taken<'_>) -> Option<Replay<'_>>
    ensures { option_map replay_seen result ≡ replay_taken (taken_of taken.entry) }
{
    let file = file_name_of(taken.plain(0))?;
    let run = file_name_of(taken.plain(1))?;
    Some(Replay {
        file,
        run,
        wide: taken.value(1).is_some(),
        json: taken.value(0).is_some(),
    })
}

/// Reads a file, then a run, and says that the run shows its pattern.
fn judge_files<'a, S: Shelf>(
    alloc: Global,
    shelf: &mut S,
    asked: &Replay<'a>,
) -> Result<Answer, Refusal<'a>>
    ensures says { Grew (Says (replay_meaning (replay_seen asked.now)) (S.files shelf.old) result) (S.calls shelf.old) (S.calls shelf.new) }
    ensures cause { ReadCause result (S.faults shelf.old) (S.faults shelf.new) }
    ensures kept { S.files shelf.new ≡ S.files shelf.old }
{
    match read_legal(alloc, shelf, asked.file, asked.wide) {
        Ok(scoped) => {
            let answer = judge_run(alloc, shelf, scoped.file(), asked.run, asked.json);
            drop(scoped);
            answer
        }
        Err(refusal) => Err(refusal),
    }
}

/// Reads a run of a file and follows it, and says that it shows its pattern.
fn judge_run<'a, S: Shelf>(
    alloc: Global,
    shelf: &mut S,
    file: &File,
    name: &'a str,
    json: bool,
) -> Result<Answer, Refusal<'a>>
    ensures says { Grew (Says (shown_meaning file.now json name.now) (S.files shelf.old) result) (S.calls shelf.old) (S.calls shelf.new) }
    ensures cause { ReadCause result (S.faults shelf.old) (S.faults shelf.new) }
    ensures kept { S.files shelf.new ≡ S.files shelf.old }
{
    match read_shown(alloc, shelf, file, name) {
        Ok(shown) => answer_shown(alloc, file, json, &shown),
        Err(refusal) => Err(refusal),
    }
}

/// Reads a run of a file and follows it.
fn read_shown<'a, S: Shelf>(
    alloc: Global,
    shelf: &mut S,
    file: &File,
    name: &'a str,
) -> Result<ShownRun, Refusal<'a>>
    ensures stage { Grew (Stage (run_kind file.now) (λ shown. shown.run) (S.files shelf.old) name.now result) (S.calls shelf.old) (S.calls shelf.new) }
    ensures shown { IfOk result (λ shown. shown.shown ≡ shown_of shown.run) }
    ensures cause { ReadCause result (S.faults shelf.old) (S.faults shelf.new) }
    ensures kept { S.files shelf.new ≡ S.files shelf.old }
{
    match read_text(alloc, shelf, name, RUN) {
        Ok(bytes) => match follow(alloc, file, bytes.as_slice()) {
            Ok(shown) => Ok(shown),
            Err(RunFault::Memory) => Err(Refusal::Memory),
            Err(fault) => Err(Refusal::Refused {
                number: RUN.number,
                name,
                why: run_fault_phrase(&fault),
            }),
        },
        Err(refusal) => Err(refusal),
    }
}

/// A run, and what it shows.
#[derive(Drop)]
struct ShownRun {
    run: Run,
    shown: Shown,
}

/// The run of a text, and what it shows.
fn follow(alloc: Global, file: &File, bytes: &[u8]) -> Result<ShownRun, RunFault>
    ensures shows { IfOk result (λ shown. ShowsRun file.now bytes.now shown.run) }
    ensures shown { IfOk result (λ shown. shown.shown ≡ shown_of shown.run) }
    ensures fault { IfErr result (λ found. found ≢ fault.Memory → RunFaultIn file.now bytes.now found) }
{
    let run = read_run(alloc, file, bytes)?;
    let shown = replay(file, &run)?;
    Ok(ShownRun { run, shown })
}

/// The answer that says that a run of a file shows its pattern.
fn answer_shown<'a>(
    alloc: Global,
    file: &File,
    json: bool,
    shown: &ShownRun,
) -> Result<Answer, Refusal<'a>>
    requires fits { Fits file.now shown.now.run }
    requires shown { shown.now.shown ≡ shown_of shown.now.run }
    ensures says { (files : Option Told) → Says (replies [] (SaysShown file.now json shown.now.run)) files result [] }
    ensures cause { ReadCause result 0 0 }
{
    let pattern = &file.patterns.as_slice()[shown.run.pattern as usize];
    let automaton = file.automaton.name.as_str();
    match text_of(alloc, json, automaton, pattern.name.as_str(), shown.shown) {
        Ok(text) => Ok(Answer::writing(alloc, 0, text)),
        Err(AllocError) => Err(Refusal::Memory),
    }
}

/// The text that says so, in JSON where that is asked for.
fn text_of(
    alloc: Global,
    json: bool,
    automaton: &str,
    name: &str,
    shown: Shown,
) -> Result<Text, AllocError>
    ensures { IfOk result (λ text. text ≡ shown_text json automaton.now name.now shown) }
{
    if json {
        shown_json(alloc, automaton, name, shown)
    } else {
        shown_line(alloc, name, shown)
    }
}
