//! Commands that read FILE alone, and print a text of the file that it means.
#![tactic(auto)]

ghost use Rattle.std.specs.Prelude.{◌≡◌, [], Option, map, option_map};
ghost use Rattle.ta_shelf.specs.Calls.{Grew};
ghost use Rattle.ta_shelf.specs.Put.{Told};
ghost use Rattle.ta_shelf.specs.Commands.{Says};
ghost use Rattle.ta_shelf.specs.Reading.{ReadCause};
ghost use Rattle.ta_program.specs.OneFile.{one_file_meaning, one_file_taken, one_file_words, printing};
ghost use Rattle.ta_program.specs.Taken.{file_seen, taken_of};

use crate::reading::read_legal;
use crate::request::Request;
use crate::values::{file_name_of, limits_of};
use crate::words::{Taken, WIDE_OPTION, take_words};
use std::alloc::{AllocError, Global};
use std::marker::PhantomData;
use std::thread::Threads;
use ta_base::Text;
use ta_base::limits::Limits;
use ta_scope::ScopedFile;
use ta_shelf::{Answer, Command, Outputs, Refusal, Shelf};

/// The name of FILE, and whether the wide limits are meant.
#[derive(Clone, Copy, Drop)]
pub(crate) struct AskedFile<'a> {
    name: &'a str,
    wide: bool,
}

/// A command of FILE alone, by what it prints.
pub(crate) trait OfOneFile: Drop + Sized {
    ghost use Rattle.std.specs.Prelude.{IfOk, List, ℕ};
    ghost use Rattle.ta_automaton.specs.declared.file.File.{File};
    ghost use Rattle.ta_base.specs.declared.limits.Limits.{Limits};

    // which texts it may print of a file that was read within these limits
    ghost text: { Limits → File → List ℕ → Type 0 };

    /// The text that it prints of a file that was read within these limits.
    fn write_text(alloc: Global, scoped: &ScopedFile, limits: &Limits) -> Result<Text, AllocError>
        ensures { IfOk result (text limits.now scoped.now.file) };
}

/// The name of FILE, whether the wide limits are meant, and the command.
#[derive(Drop)]
pub(crate) struct OneFile<'a, C: OfOneFile> {
    asked: AskedFile<'a>,
    command: PhantomData<C>,
}

impl<'a, C: OfOneFile> Request<'a> for OneFile<'a, C> {
    ghost use Rattle.ta_program.specs.OneFile.{one_file_asked};

    ghost asked = { one_file_asked C.text };

    fn read(words: &[&'a str]) -> Option<OneFile<'a, C>> {
        read_one_file(words)
    }
}

impl<'a, C: OfOneFile> Command for OneFile<'a, C> {
    ghost use Rattle.ta_program.specs.OneFile.{one_file_meaning};
    ghost use Rattle.ta_program.specs.Taken.{file_seen};

    ghost meaning = { λ command. one_file_meaning C.text (file_seen command.asked) };

    fn outputs(&self) -> Outputs<'_> {
        Outputs::none()
    }

    fn judge<R: Threads + Sync, S: Shelf>(
        &self,
        rt: &R,
        alloc: Global,
        shelf: &mut S,
    ) -> Result<Answer, Refusal<'_>> {
        let _ = rt;
        judge_one_file::<C, S>(alloc, shelf, self.asked)
    }
}

/// Reads the words of a command of one file: its name, and `--wide` or no option.
fn read_one_file<'a, C: OfOneFile>(words: &[&'a str]) -> Option<OneFile<'a, C>>
    ensures { option_map (λ command. file_seen command.asked) result ≡ one_file_words (map (λ w. w.now) words.now) }
{
    let options = [WIDE_OPTION];
    let asked = one_file_taken(take_words(1, &options, words)?)?;
    Some(OneFile {
        asked,
        command: PhantomData,
    })
}

/// What is asked for by what was taken of the words.
fn one_file_taken(taken: Taken<'_>) -> Option<AskedFile<'_>>
    ensures { option_map file_seen result ≡ one_file_taken (taken_of taken.entry) }
{
    let name = file_name_of(taken.plain(0))?;
    Some(AskedFile {
        name,
        wide: taken.value(0).is_some(),
    })
}

/// Reads a file, and answers its text.
fn judge_one_file<'a, C: OfOneFile, S: Shelf>(
    alloc: Global,
    shelf: &mut S,
    asked: AskedFile<'a>,
) -> Result<Answer, Refusal<'a>>
    ensures says { Grew (Says (one_file_meaning C.text (file_seen asked.entry)) (S.files shelf.old) result) (S.calls shelf.old) (S.calls shelf.new) }
    ensures cause { ReadCause result (S.faults shelf.old) (S.faults shelf.new) }
    ensures kept { S.files shelf.new ≡ S.files shelf.old }
{
    match read_legal(alloc, shelf, asked.name, asked.wide) {
        Ok(scoped) => {
            let limits = limits_of(asked.wide);
            let answer = answer_one_file::<C>(alloc, &scoped, &limits);
            drop(scoped);
            answer
        }
        Err(refusal) => Err(refusal),
    }
}

/// The answer with the text of a file.
fn answer_one_file<'a, C: OfOneFile>(
    alloc: Global,
    scoped: &ScopedFile,
    limits: &Limits,
) -> Result<Answer, Refusal<'a>>
    ensures says { (files : Option Told) → Says (printing (C.text limits.now scoped.now.file)) files result [] }
    ensures cause { ReadCause result 0 0 }
{
    match C::write_text(alloc, scoped, limits) {
        Ok(text) => Ok(Answer::writing(alloc, 0, text)),
        Err(AllocError) => Err(Refusal::Memory),
    }
}
