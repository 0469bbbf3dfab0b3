//! The command `compress`.
#![tactic(auto)]

ghost use Rattle.std.specs.Prelude.{◌≡◌, ◌≢◌, ◌++◌, [], codes, decimal, unsigned_abs, IfOk, IfErr, Option};
ghost use Rattle.ta_compress.specs.declared.fault.CompressFault.TheVariants as fault;
ghost use Rattle.ta_replay.specs.declared.run.Run.{Run};
ghost use Rattle.ta_replay.specs.Fits.{Fits};
ghost use Rattle.ta_replay.specs.RunText.{IsRunText};
ghost use Rattle.ta_shelf.specs.Calls.{Grew};
ghost use Rattle.ta_shelf.specs.Put.{Told};
ghost use Rattle.ta_shelf.specs.Commands.{Says};
ghost use Rattle.ta_shelf.specs.Lines.{phrase_text};
ghost use Rattle.ta_shelf.specs.Reading.{ReadCause};
ghost use Rattle.ta_shelf.specs.Stages.{Stage, replies};
ghost use Rattle.ta_program.specs.Compress.{CompressFaultIn, Compresses, SaysShort, ShortOf, compress_fault_text, long_kind, of_run, short_meaning};

use crate::limits::RUN;
use crate::reading::read_legal;
use crate::two_files::OfTwoFiles;
use crate::values::TwoNames;
use std::alloc::{AllocError, Global};
use ta_automaton::File;
use ta_base::Text;
use ta_compress::{CompressFault, compress};
use ta_replay::{Run, RunFault, print_run, read_run};
use ta_report::run_fault_phrase;
use ta_scope::ScopedFile;
use ta_shelf::{Answer, Phrase, Refusal, Shelf, read_text};

/// Reads a file, then a run, and answers the text of the compressed run.
#[derive(Drop)]
pub(crate) struct Compress;

impl OfTwoFiles for Compress {
    ghost use Rattle.std.specs.Prelude.{Some};
    ghost use Rattle.ta_program.specs.Asked.{LegalFile};
    ghost use Rattle.ta_program.specs.Compress.{compress_meaning};
    ghost use Rattle.ta_program.specs.Values.{limits_of};

    ghost legal = { λ names told. LegalFile told (Some (names.file, limits_of names.wide)) };

    ghost stated = { compress_meaning };

    fn judge_files<'a, S: Shelf>(
        alloc: Global,
        shelf: &mut S,
        names: TwoNames<'a>,
    ) -> Result<Answer, Refusal<'a>> {
        match read_legal(alloc, shelf, names.file, names.wide) {
            Ok(scoped) => {
                let answer = judge_long(alloc, shelf, &scoped, names.other);
                drop(scoped);
                answer
            }
            Err(refusal) => Err(refusal),
        }
    }

    fn is_determined() {}
}

/// Reads a run of a file, and answers the text of the compressed run.
fn judge_long<'a, S: Shelf>(
    alloc: Global,
    shelf: &mut S,
    scoped: &ScopedFile,
    name: &'a str,
) -> Result<Answer, Refusal<'a>>
    ensures says { Grew (Says (short_meaning scoped.now.file name.now) (S.files shelf.old) result) (S.calls shelf.old) (S.calls shelf.new) }
    ensures cause { ReadCause result (S.faults shelf.old) (S.faults shelf.new) }
    ensures kept { S.files shelf.new ≡ S.files shelf.old }
{
    match read_shortened(alloc, shelf, scoped, name) {
        Ok(runs) => {
            let answer = answer_short(alloc, &scoped.file, &runs);
            drop(runs);
            answer
        }
        Err(refusal) => Err(refusal),
    }
}

/// A run, and the compressed one.
#[derive(Drop)]
struct Shortened {
    run: Run,
    short: Run,
}

/// Reads a run of a file and compresses it.
fn read_shortened<'a, S: Shelf>(
    alloc: Global,
    shelf: &mut S,
    scoped: &ScopedFile,
    name: &'a str,
) -> Result<Shortened, Refusal<'a>>
    ensures stage { Grew (Stage (long_kind scoped.now.file) (λ runs. runs.run) (S.files shelf.old) name.now result) (S.calls shelf.old) (S.calls shelf.new) }
    ensures short { IfOk result (λ runs. ShortOf scoped.now.file runs.run runs.short) }
    ensures cause { ReadCause result (S.faults shelf.old) (S.faults shelf.new) }
    ensures kept { S.files shelf.new ≡ S.files shelf.old }
{
    match read_text(alloc, shelf, name, RUN) {
        Ok(bytes) => match shorten(alloc, scoped, bytes.as_slice()) {
            Ok(runs) => Ok(runs),
            Err(CompressFault::Memory) => Err(Refusal::Memory),
            Err(fault) => Err(Refusal::Refused {
                number: RUN.number,
                name,
                why: compress_fault_phrase(&fault),
            }),
        },
        Err(refusal) => Err(refusal),
    }
}

/// The run of a text, and the compressed one.
fn shorten(alloc: Global, scoped: &ScopedFile, bytes: &[u8]) -> Result<Shortened, CompressFault>
    ensures compresses { IfOk result (λ runs. Compresses scoped.now.file bytes.now runs.run) }
    ensures short { IfOk result (λ runs. ShortOf scoped.now.file runs.run runs.short) }
    ensures fault { IfErr result (λ found. found ≢ fault.Memory → CompressFaultIn scoped.now.file bytes.now found) }
{
    let run = read_long(alloc, &scoped.file, bytes)?;
    let short = compress(alloc, scoped, &run)?;
    Ok(Shortened { run, short })
}

/// The run of a text.
fn read_long(alloc: Global, file: &File, bytes: &[u8]) -> Result<Run, CompressFault>
    ensures text { IfOk result (λ run. IsRunText file.now run bytes.now) }
    ensures one { IfOk result (λ run. (other : Run) → IsRunText file.now other bytes.now → other ≡ run) }
    ensures fault { IfErr result (λ found. found ≢ fault.Memory → CompressFaultIn file.now bytes.now found) }
{
    match read_run(alloc, file, bytes) {
        Ok(run) => Ok(run),
        Err(fault) => Err(of_run(fault)),
    }
}

/// The error of a text as a run.
fn of_run(fault: RunFault) -> CompressFault
    ensures { result ≡ of_run fault }
{
    match fault {
        RunFault::Memory => CompressFault::Memory,
        other => CompressFault::Replay(other),
    }
}

/// What is wrong in a run that is to be compressed.
fn compress_fault_phrase(fault: &CompressFault) -> Phrase
    ensures { phrase_text result ≡ compress_fault_text fault.now }
{
    match *fault {
        CompressFault::Replay(fault) => run_fault_phrase(&fault),
        CompressFault::TooManySteps(steps) => too_many(steps),
        CompressFault::Memory => Phrase::Plain("out of memory"),
    }
}

/// How many steps are too many.
fn too_many(steps: i128) -> Phrase
    ensures { phrase_text result ≡ codes "N13 " ++ (decimal (unsigned_abs steps) ++ codes " unit steps") }
{
    Phrase::One {
        head: "N13 ",
        number: steps.unsigned_abs(),
        tail: " unit steps",
    }
}

/// The answer with the text of the compressed run.
fn answer_short<'a>(alloc: Global, file: &File, runs: &Shortened) -> Result<Answer, Refusal<'a>>
    requires { ShortOf file.now runs.now.run runs.now.short }
    ensures says { (files : Option Told) → Says (replies [] (SaysShort file.now runs.now.run)) files result [] }
    ensures cause { ReadCause result 0 0 }
{
    match print_run(alloc, file, &runs.short) {
        Ok(text) => {
            let text = Text::from_string(text.into_string());
            Ok(Answer::writing(alloc, 0, text))
        }
        Err(AllocError) => Err(Refusal::Memory),
    }
}
