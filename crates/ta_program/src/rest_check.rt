//! The command `rest-check`.
#![tactic(auto)]

ghost use Rattle.std.specs.Prelude.{◌≡◌, [], map, option_map};
ghost use Rattle.ta_automaton.specs.declared.file.File.{File};
ghost use Rattle.ta_rest.specs.Faults.{EndingsOf};
ghost use Rattle.ta_shelf.specs.Calls.{Grew};
ghost use Rattle.ta_shelf.specs.Commands.{Says};
ghost use Rattle.ta_shelf.specs.Reading.{ReadCause};
ghost use Rattle.ta_shelf.specs.Stages.{finds};
ghost use Rattle.ta_program.specs.RestCheck.{quietly_meaning, rest_check_meaning, rest_proved_meaning};
ghost use Rattle.ta_program.specs.RestEnds.{CycleHinders, IsEnds, ends_of};
ghost use Rattle.ta_program.specs.RestSeen.{rest_check_seen};
ghost use Rattle.ta_program.specs.RestWords.{rest_check_taken, rest_check_words};
ghost use Rattle.ta_program.specs.Taken.{taken_of};

use crate::check::read_certificate;
use crate::ends::find_ends;
use crate::proof_options::ProofOptions;
use crate::proofs_said::answer_proofs;
use crate::reading::read_legal;
use crate::request::Request;
use crate::silent_names::{find_silent, names_of};
use crate::values::{file_name_of, limits_of};
use crate::words::{ALL_OPTION, JSON_OPTION, SILENT_OPTION, Taken, WIDE_OPTION, take_words};
use std::alloc::Global;
use std::thread::Threads;
use ta_check::Checker;
use ta_rest::RestFile;
use ta_scope::ScopedFile;
use ta_shelf::{Answer, Command, Outputs, Refusal, Shelf};

/// What `rest-check` is asked for.
#[derive(Drop)]
pub(crate) struct RestCheck<'a> {
    file: &'a str,
    certificate: &'a str,
    wide: bool,
    silent: Option<&'a str>,
    options: ProofOptions,
}

impl<'a> Request<'a> for RestCheck<'a> {
    ghost use Rattle.ta_program.specs.RestCheck.{rest_check_asked};

    ghost asked = { rest_check_asked };

    fn read(words: &[&'a str]) -> Option<RestCheck<'a>> {
        read_rest_check(words)
    }
}

impl<'a> Command for RestCheck<'a> {
    ghost use Rattle.ta_program.specs.RestCheck.{rest_check_meaning};
    ghost use Rattle.ta_program.specs.RestSeen.{rest_check_seen};

    ghost meaning = { λ command. rest_check_meaning (rest_check_seen command) };

    fn outputs(&self) -> Outputs<'_> {
        Outputs::none()
    }

    fn judge<R: Threads + Sync, S: Shelf>(
        &self,
        rt: &R,
        alloc: Global,
        shelf: &mut S,
    ) -> Result<Answer, Refusal<'_>> {
        let _ = rt;
        judge_files(alloc, shelf, self)
    }
}

/// Reads the words of `rest-check`.
fn read_rest_check<'a>(words: &[&'a str]) -> Option<RestCheck<'a>>
    ensures { option_map rest_check_seen result ≡ rest_check_words (map (λ w. w.now) words.now) }
{
    let options = [SILENT_OPTION, ALL_OPTION, JSON_OPTION, WIDE_OPTION];
    rest_check_taken(take_words(2, &options, words)?)
}

/// What is asked for by what was taken of the words.
fn rest_check_taken(taken: Taken<'_>) -> Option<RestCheck<'_>>
    ensures { option_map rest_check_seen result ≡ rest_check_taken (taken_of taken.entry) }
{
    let file = file_name_of(taken.plain(0))?;
    let certificate = file_name_of(taken.plain(1))?;
    let silent = names_of(taken.value(0))?;
    Some(RestCheck {
        file,
        certificate,
        wide: taken.value(3).is_some(),
        silent,
        options: ProofOptions {
            all: taken.value(1).is_some(),
            parameters: false,
            json: taken.value(2).is_some(),
        },
    })
}

/// Reads a file, then a certificate for its endings, where the places of some names may be silent, and
/// says which patterns are proved.
fn judge_files<'a, S: Shelf>(
    alloc: Global,
    shelf: &mut S,
    asked: &RestCheck<'a>,
) -> Result<Answer, Refusal<'a>>
    ensures says { Grew (Says (rest_check_meaning (rest_check_seen asked.now)) (S.files shelf.old) result) (S.calls shelf.old) (S.calls shelf.new) }
    ensures cause { ReadCause result (S.faults shelf.old) (S.faults shelf.new) }
    ensures kept { S.files shelf.new ≡ S.files shelf.old }
{
    match read_legal(alloc, shelf, asked.file, asked.wide) {
        Ok(scoped) => judge_scoped(alloc, shelf, scoped, asked),
        Err(refusal) => Err(refusal),
    }
}

/// Reads a certificate for the endings of a file, unless a rule lies on a longer cycle.
fn judge_scoped<'a, S: Shelf>(
    alloc: Global,
    shelf: &mut S,
    scoped: ScopedFile,
    asked: &RestCheck<'a>,
) -> Result<Answer, Refusal<'a>>
    ensures says { Grew (Says (finds (IsEnds scoped.file) (CycleHinders asked.now.file.now scoped.file) [] (quietly_meaning (rest_check_seen asked.now) scoped.file)) (S.files shelf.old) result) (S.calls shelf.old) (S.calls shelf.new) }
    ensures cause { ReadCause result (S.faults shelf.old) (S.faults shelf.new) }
    ensures kept { S.files shelf.new ≡ S.files shelf.old }
{
    match find_ends(alloc, asked.file, scoped) {
        Ok(rest) => {
            let answer = judge_quietly(alloc, shelf, &rest, asked);
            drop(rest);
            answer
        }
        Err(refusal) => Err(refusal),
    }
}

/// Reads a certificate for the endings of a file, unless the names may not be silent in it.
fn judge_quietly<'a, S: Shelf>(
    alloc: Global,
    shelf: &mut S,
    rest: &RestFile,
    asked: &RestCheck<'a>,
) -> Result<Answer, Refusal<'a>>
    ensures says { (file : File) → EndingsOf file rest.now.ending.file rest.now.added → Grew (Says (quietly_meaning (rest_check_seen asked.now) file (ends_of rest.now)) (S.files shelf.old) result) (S.calls shelf.old) (S.calls shelf.new) }
    ensures cause { ReadCause result (S.faults shelf.old) (S.faults shelf.new) }
    ensures kept { S.files shelf.new ≡ S.files shelf.old }
{
    match find_silent(alloc, asked.file, &rest.ending.file.automaton, asked.silent) {
        Ok(places) => judge_rest(alloc, shelf, rest, places.as_slice(), asked),
        Err(refusal) => Err(refusal),
    }
}

/// Reads a certificate for the endings of a file with silent places, and says which patterns are proved.
fn judge_rest<'a, S: Shelf>(
    alloc: Global,
    shelf: &mut S,
    rest: &RestFile,
    silent: &[u32],
    asked: &RestCheck<'a>,
) -> Result<Answer, Refusal<'a>>
    ensures says { (file : File) → EndingsOf file rest.now.ending.file rest.now.added → Grew (Says (rest_proved_meaning (rest_check_seen asked.now) file (ends_of rest.now) silent.now) (S.files shelf.old) result) (S.calls shelf.old) (S.calls shelf.new) }
    ensures cause { ReadCause result (S.faults shelf.old) (S.faults shelf.new) }
    ensures kept { S.files shelf.new ≡ S.files shelf.old }
{
    let limits = limits_of(asked.wide);
    let checker = Checker::resting_silently(alloc, rest, silent, limits.line_bytes);
    match read_certificate(shelf, checker, asked.certificate) {
        Ok(accepted) => {
            let numbers = accepted.patterns.as_slice();
            answer_proofs(alloc, true, &rest.ending.file, asked.options, numbers)
        }
        Err(refusal) => Err(refusal),
    }
}
