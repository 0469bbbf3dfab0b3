//! The command `export`.
#![tactic(auto)]

ghost use Rattle.std.specs.Prelude.{◌≡◌, [], IfOk, Option, map, option_map};
ghost use Rattle.ta_automaton.specs.Narrow.{IsNarrow};
ghost use Rattle.ta_shelf.specs.Calls.{Grew};
ghost use Rattle.ta_shelf.specs.Put.{Told};
ghost use Rattle.ta_shelf.specs.Commands.{Says};
ghost use Rattle.ta_shelf.specs.Reading.{ReadCause};
ghost use Rattle.ta_shelf.specs.Stages.{replies};
ghost use Rattle.ta_smt.specs.Named.{IsLegalWord, Spelling};
ghost use Rattle.ta_program.specs.Export.{SaysSystem, export_meaning, export_words, system_meaning};
ghost use Rattle.ta_program.specs.WordSeen.{asked_seen, word_seen};

use crate::reading::read_narrow;
use crate::request::Request;
use crate::spelled::WordAsked;
use crate::word_asked::{asked_of, find_word};
use crate::words::take_words;
use std::alloc::{AllocError, Global};
use std::thread::Threads;
use ta_automaton::File;
use ta_base::Text;
use ta_shelf::{Answer, Command, Outputs, Refusal, Shelf};
use ta_smt::{NamedWord, word_text};

/// What `export` is asked for.
#[derive(Drop)]
pub(crate) struct Export<'a> {
    asked: WordAsked<'a>,
}

impl<'a> Request<'a> for Export<'a> {
    ghost use Rattle.ta_program.specs.Export.{export_asked};

    ghost asked = { export_asked };

    fn read(words: &[&'a str]) -> Option<Export<'a>> {
        read_export(words)
    }
}

impl<'a> Command for Export<'a> {
    ghost use Rattle.ta_program.specs.Export.{export_meaning};
    ghost use Rattle.ta_program.specs.WordSeen.{asked_seen};

    ghost meaning = { λ command. export_meaning (asked_seen command.asked) };

    fn outputs(&self) -> Outputs<'_> {
        Outputs::none()
    }

    fn judge<R: Threads + Sync, S: Shelf>(
        &self,
        rt: &R,
        alloc: Global,
        shelf: &mut S,
    ) -> Result<Answer, Refusal<'_>> {
        let _ = rt;
        judge_export(alloc, shelf, &self.asked)
    }
}

/// Reads the words of `export`.
fn read_export<'a>(words: &[&'a str]) -> Option<Export<'a>>
    ensures { option_map (λ command. asked_seen command.asked) result ≡ export_words (map (λ w. w.now) words.now) }
{
    let taken = take_words(4, &[], words)?;
    let asked = asked_of(&taken)?;
    Some(Export { asked })
}

/// Reads a file, and answers the text of the system of its word.
fn judge_export<'a, S: Shelf>(
    alloc: Global,
    shelf: &mut S,
    asked: &WordAsked<'a>,
) -> Result<Answer, Refusal<'a>>
    ensures says { Grew (Says (export_meaning (asked_seen asked.now)) (S.files shelf.old) result) (S.calls shelf.old) (S.calls shelf.new) }
    ensures cause { ReadCause result (S.faults shelf.old) (S.faults shelf.new) }
    ensures kept { S.files shelf.new ≡ S.files shelf.old }
{
    match read_narrow(alloc, shelf, asked.file) {
        Ok(scoped) => {
            let answer = answer_export(alloc, &scoped.file, asked);
            drop(scoped);
            answer
        }
        Err(refusal) => Err(refusal),
    }
}

/// The answer with the text of the system of a file's word, where the file has it.
fn answer_export<'a>(
    alloc: Global,
    file: &File,
    asked: &WordAsked<'a>,
) -> Result<Answer, Refusal<'a>>
    requires narrow { IsNarrow file.now.automaton }
    ensures says { (files : Option Told) → Says (system_meaning asked.now.file.now (asked_seen asked.now).word file.now) files result [] }
    ensures cause { ReadCause result 0 0 }
{
    match find_word(alloc, file, asked) {
        Ok(word) => answer_system(alloc, file, &word),
        Err(refusal) => Err(refusal),
    }
}

/// The answer with the text of the system of a word.
fn answer_system<'a>(alloc: Global, file: &File, word: &NamedWord) -> Result<Answer, Refusal<'a>>
    requires word { IsLegalWord file.now (word_seen word.now) }
    requires narrow { IsNarrow file.now.automaton }
    ensures says { (files : Option Told) → Says (replies [] (SaysSystem file.now (word_seen word.now))) files result [] }
    ensures cause { ReadCause result 0 0 }
{
    match word_text(alloc, file, word) {
        Ok(text) => {
            let text = Text::from_string(text.into_string());
            Ok(Answer::writing(alloc, 0, text))
        }
        Err(AllocError) => Err(Refusal::Memory),
    }
}
