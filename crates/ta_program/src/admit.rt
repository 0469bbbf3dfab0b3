//! The command `admit`.
#![tactic(auto)]

ghost use Rattle.std.specs.Prelude.{◌≡◌, ◌≢◌, ◌++◌, [], decimal, IfOk, IfErr, Option, map, option_map};
ghost use Rattle.ta_automaton.specs.Narrow.{IsNarrow};
ghost use Rattle.ta_replay.specs.Fits.{Fits};
ghost use Rattle.ta_replay.specs.RunText.{run_text};
ghost use Rattle.ta_shelf.specs.Calls.{Grew};
ghost use Rattle.ta_shelf.specs.Put.{Told};
ghost use Rattle.ta_shelf.specs.Commands.{Says};
ghost use Rattle.ta_shelf.specs.Lines.{phrase_text};
ghost use Rattle.ta_shelf.specs.Reading.{ReadCause};
ghost use Rattle.ta_shelf.specs.Stages.{Stage, Writes, replies};
ghost use Rattle.ta_smt.specs.declared.fault.AdmitFault.TheVariants as fault;
ghost use Rattle.ta_smt.specs.Admit.{Admits};
ghost use Rattle.ta_smt.specs.Named.{IsLegalWord};
ghost use Rattle.ta_program.specs.Admit.{AdmitRefuses, admit_fault_text, admit_meaning, admit_words, run_meaning, values_kind, values_meaning};
ghost use Rattle.ta_program.specs.AdmitSeen.{admit_seen};
ghost use Rattle.ta_program.specs.WordSeen.{asked_seen, word_seen};

use crate::limits::VALUES;
use crate::reading::read_narrow;
use crate::request::Request;
use crate::spelled::WordAsked;
use crate::values::file_name_of;
use crate::word_asked::{asked_of, find_whole};
use crate::words::take_words;
use std::alloc::{AllocError, Global};
use std::thread::Threads;
use ta_automaton::File;
use ta_base::Text;
use ta_replay::{Run, print_run};
use ta_scope::ScopedFile;
use ta_shelf::{Answer, Command, Outputs, Phrase, Refusal, Shelf, read_text};
use ta_smt::{AdmitFault, NamedWord, admit};

/// What `admit` is asked for.
#[derive(Drop)]
pub(crate) struct Admit<'a> {
    asked: WordAsked<'a>,
    values: &'a str,
}

impl<'a> Request<'a> for Admit<'a> {
    ghost use Rattle.ta_program.specs.Admit.{admit_asked};

    ghost asked = { admit_asked };

    fn read(words: &[&'a str]) -> Option<Admit<'a>> {
        read_admit(words)
    }
}

impl<'a> Command for Admit<'a> {
    ghost use Rattle.ta_program.specs.Admit.{admit_meaning};
    ghost use Rattle.ta_program.specs.AdmitSeen.{admit_seen};

    ghost meaning = { λ command. admit_meaning (admit_seen command.asked command.values.now) };

    fn outputs(&self) -> Outputs<'_> {
        Outputs::none()
    }

    fn judge<R: Threads + Sync, S: Shelf>(
        &self,
        rt: &R,
        alloc: Global,
        shelf: &mut S,
    ) -> Result<Answer, Refusal<'_>> {
        let _ = rt;
        judge_admit(alloc, shelf, &self.asked, self.values)
    }
}

/// Reads the words of `admit`.
fn read_admit<'a>(words: &[&'a str]) -> Option<Admit<'a>>
    ensures { option_map (λ command. admit_seen command.asked command.values.now) result ≡ admit_words (map (λ w. w.now) words.now) }
{
    let taken = take_words(5, &[], words)?;
    let asked = asked_of(&taken)?;
    let values = file_name_of(taken.plain(4))?;
    Some(Admit { asked, values })
}

/// Reads a file, looks for its word, reads values, and answers the text of their run.
fn judge_admit<'a, S: Shelf>(
    alloc: Global,
    shelf: &mut S,
    asked: &WordAsked<'a>,
    values: &'a str,
) -> Result<Answer, Refusal<'a>>
    ensures says { Grew (Says (admit_meaning (admit_seen asked.now values.now)) (S.files shelf.old) result) (S.calls shelf.old) (S.calls shelf.new) }
    ensures cause { ReadCause result (S.faults shelf.old) (S.faults shelf.new) }
    ensures kept { S.files shelf.new ≡ S.files shelf.old }
{
    match read_narrow(alloc, shelf, asked.file) {
        Ok(scoped) => {
            let answer = judge_word(alloc, shelf, &scoped, asked, values);
            drop(scoped);
            answer
        }
        Err(refusal) => Err(refusal),
    }
}

/// Looks for a word of a file, reads values for it, and answers the text of their run.
fn judge_word<'a, S: Shelf>(
    alloc: Global,
    shelf: &mut S,
    scoped: &ScopedFile,
    asked: &WordAsked<'a>,
    values: &'a str,
) -> Result<Answer, Refusal<'a>>
    requires narrow { IsNarrow scoped.now.file.automaton }
    ensures says { Grew (Says (run_meaning asked.now.file.now (asked_seen asked.now).word values.now scoped.now.file) (S.files shelf.old) result) (S.calls shelf.old) (S.calls shelf.new) }
    ensures cause { ReadCause result (S.faults shelf.old) (S.faults shelf.new) }
    ensures kept { S.files shelf.new ≡ S.files shelf.old }
{
    match find_whole(alloc, &scoped.file, asked) {
        Ok(word) => judge_values(alloc, shelf, scoped, &word, values),
        Err(refusal) => Err(refusal),
    }
}

/// Reads values for a word of a file, and answers the text of their run.
fn judge_values<'a, S: Shelf>(
    alloc: Global,
    shelf: &mut S,
    scoped: &ScopedFile,
    word: &NamedWord,
    name: &'a str,
) -> Result<Answer, Refusal<'a>>
    requires word { IsLegalWord scoped.now.file (word_seen word.now) }
    requires narrow { IsNarrow scoped.now.file.automaton }
    ensures says { Grew (Says (values_meaning name.now scoped.now.file (word_seen word.now)) (S.files shelf.old) result) (S.calls shelf.old) (S.calls shelf.new) }
    ensures cause { ReadCause result (S.faults shelf.old) (S.faults shelf.new) }
    ensures kept { S.files shelf.new ≡ S.files shelf.old }
{
    match read_admitted(alloc, shelf, scoped, word, name) {
        Ok(run) => answer_run(alloc, &scoped.file, &run),
        Err(refusal) => Err(refusal),
    }
}

/// Reads values for a word of a file, and makes their run.
fn read_admitted<'a, S: Shelf>(
    alloc: Global,
    shelf: &mut S,
    scoped: &ScopedFile,
    word: &NamedWord,
    name: &'a str,
) -> Result<Run, Refusal<'a>>
    requires word { IsLegalWord scoped.now.file (word_seen word.now) }
    requires narrow { IsNarrow scoped.now.file.automaton }
    ensures stage { Grew (Stage (values_kind scoped.now.file (word_seen word.now)) (λ run. run) (S.files shelf.old) name.now result) (S.calls shelf.old) (S.calls shelf.new) }
    ensures fits { IfOk result (λ run. Fits scoped.now.file run) }
    ensures cause { ReadCause result (S.faults shelf.old) (S.faults shelf.new) }
    ensures kept { S.files shelf.new ≡ S.files shelf.old }
{
    match read_text(alloc, shelf, name, VALUES) {
        Ok(bytes) => match admit_bytes(alloc, scoped, word, bytes.as_slice()) {
            Ok(run) => Ok(run),
            Err(AdmitFault::Memory) => Err(Refusal::Memory),
            Err(fault) => Err(Refusal::Refused {
                number: VALUES.number,
                name,
                why: admit_fault_phrase(&fault),
            }),
        },
        Err(refusal) => Err(refusal),
    }
}

/// The run of the values that bytes are.
fn admit_bytes(
    alloc: Global,
    scoped: &ScopedFile,
    word: &NamedWord,
    bytes: &[u8],
) -> Result<Run, AdmitFault>
    requires word { IsLegalWord scoped.now.file (word_seen word.now) }
    requires narrow { IsNarrow scoped.now.file.automaton }
    ensures run { IfOk result (λ run. Admits scoped.now.file (word_seen word.now) bytes.now run) }
    ensures fault { IfErr result (λ found. found ≢ fault.Memory → AdmitRefuses scoped.now.file (word_seen word.now) bytes.now found) }
{
    match admit(
        alloc,
        scoped,
        word.pattern,
        word.start_mask,
        &word.word,
        bytes,
    ) {
        Ok(run) => Ok(run),
        Err(fault) => Err(fault),
    }
}

/// Why values give no run.
fn admit_fault_phrase(fault: &AdmitFault) -> Phrase
    ensures { phrase_text result ≡ admit_fault_text fault.now }
{
    match *fault {
        AdmitFault::Incomplete => Phrase::Plain("V4 word not complete"),
        AdmitFault::Line(line) => Phrase::between("V5 malformed at line ", line, ""),
        AdmitFault::Count(lines) => Phrase::between("V6 ", lines, " values"),
        AdmitFault::Row(row) => Phrase::between("V7 row ", u64::from(row), " is false"),
        AdmitFault::Overflow(row) => {
            Phrase::between("V8 outside 128 bits in row ", u64::from(row), "")
        }
        AdmitFault::Run => Phrase::Plain("V9 run outside 128 bits"),
        AdmitFault::Memory => Phrase::Plain("out of memory"),
    }
}

/// The answer with the text of a run.
fn answer_run<'a>(alloc: Global, file: &File, run: &Run) -> Result<Answer, Refusal<'a>>
    requires { Fits file.now run.now }
    ensures says { (files : Option Told) → Says (replies [] (Writes 0 (run_text file.now run.now))) files result [] }
    ensures cause { ReadCause result 0 0 }
{
    match print_run(alloc, file, run) {
        Ok(text) => {
            let text = Text::from_string(text.into_string());
            Ok(Answer::writing(alloc, 0, text))
        }
        Err(AllocError) => Err(Refusal::Memory),
    }
}
