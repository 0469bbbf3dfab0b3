//! The command `check`.
#![tactic(auto)]

ghost use Rattle.std.specs.Prelude.{ℕ, ◌≡◌, ◌≤◌, List, [], length, map, option_map};
ghost use Rattle.ta_check.specs.Checkers.{IsSoundChecker, CheckerStandsFor, subject_of};
ghost use Rattle.ta_shelf.specs.Calls.{Event, Grew};
ghost use Rattle.ta_shelf.specs.Commands.{Says};
ghost use Rattle.ta_shelf.specs.Reading.{ReadCause};
ghost use Rattle.ta_shelf.specs.Stages.{Stage};
ghost use Rattle.ta_program.specs.Check.{check_meaning, proved_meaning};
ghost use Rattle.ta_program.specs.CheckSeen.{check_seen};
ghost use Rattle.ta_program.specs.CheckWords.{check_taken, check_words};
ghost use Rattle.ta_program.specs.Inside.Judged.{JudgingGives, JudgedTo, PieceFed, RefusedBy, Turn};
ghost use Rattle.ta_program.specs.Kinds.{certificate_kind};
ghost use Rattle.ta_program.specs.Taken.{taken_of};

use crate::limits::CERTIFICATE;
use crate::proof_options::ProofOptions;
use crate::proofs_said::answer_proofs;
use crate::reading::read_legal;
use crate::request::Request;
use crate::values::{file_name_of, limits_of};
use crate::words::{ALL_OPTION, JSON_OPTION, PARAMETERS_OPTION, Taken, WIDE_OPTION, take_words};
use std::alloc::Global;
use std::thread::Threads;
use ta_cert::CertFault;
use ta_check::{Accepted, Checker};
use ta_report::cert_fault_phrase;
use ta_scope::ScopedFile;
use ta_shelf::{Answer, Command, Outputs, Refusal, Shelf, read_piece, too_long, unread};

/// How many bytes of a certificate are read at once.
const PIECE: usize = 65_536;

/// What `check` is asked for.
#[derive(Drop)]
pub(crate) struct Check<'a> {
    file: &'a str,
    certificate: &'a str,
    wide: bool,
    options: ProofOptions,
}

impl<'a> Request<'a> for Check<'a> {
    ghost use Rattle.ta_program.specs.Check.{check_asked};

    ghost asked = { check_asked };

    fn read(words: &[&'a str]) -> Option<Check<'a>> {
        read_check(words)
    }
}

impl<'a> Command for Check<'a> {
    ghost use Rattle.ta_program.specs.Check.{check_meaning};
    ghost use Rattle.ta_program.specs.CheckSeen.{check_seen};

    ghost meaning = { λ command. check_meaning (check_seen command) };

    fn outputs(&self) -> Outputs<'_> {
        Outputs::none()
    }

    fn judge<R: Threads + Sync, S: Shelf>(
        &self,
        rt: &R,
        alloc: Global,
        shelf: &mut S,
    ) -> Result<Answer, Refusal<'_>> {
        let _ = rt;
        judge_files(alloc, shelf, self)
    }
}

/// Reads the words of `check`.
fn read_check<'a>(words: &[&'a str]) -> Option<Check<'a>>
    ensures { option_map check_seen result ≡ check_words (map (λ w. w.now) words.now) }
{
    let options = [ALL_OPTION, PARAMETERS_OPTION, JSON_OPTION, WIDE_OPTION];
    check_taken(take_words(2, &options, words)?)
}

/// What is asked for by what was taken of the words.
fn check_taken(taken: Taken<'_>) -> Option<Check<'_>>
    ensures { option_map check_seen result ≡ check_taken (taken_of taken.entry) }
{
    let file = file_name_of(taken.plain(0))?;
    let certificate = file_name_of(taken.plain(1))?;
    Some(Check {
        file,
        certificate,
        wide: taken.value(3).is_some(),
        options: ProofOptions {
            all: taken.value(0).is_some(),
            parameters: taken.value(1).is_some(),
            json: taken.value(2).is_some(),
        },
    })
}

/// Reads a file, then a certificate, and says which patterns are proved.
fn judge_files<'a, S: Shelf>(
    alloc: Global,
    shelf: &mut S,
    asked: &Check<'a>,
) -> Result<Answer, Refusal<'a>>
    ensures says { Grew (Says (check_meaning (check_seen asked.now)) (S.files shelf.old) result) (S.calls shelf.old) (S.calls shelf.new) }
    ensures cause { ReadCause result (S.faults shelf.old) (S.faults shelf.new) }
    ensures kept { S.files shelf.new ≡ S.files shelf.old }
{
    match read_legal(alloc, shelf, asked.file, asked.wide) {
        Ok(scoped) => {
            let answer = judge_certificate(alloc, shelf, &scoped, asked);
            drop(scoped);
            answer
        }
        Err(refusal) => Err(refusal),
    }
}

/// Reads a certificate of a file, and says which patterns are proved.
fn judge_certificate<'a, S: Shelf>(
    alloc: Global,
    shelf: &mut S,
    scoped: &ScopedFile,
    asked: &Check<'a>,
) -> Result<Answer, Refusal<'a>>
    ensures says { Grew (Says (proved_meaning (check_seen asked.now) scoped.now.file) (S.files shelf.old) result) (S.calls shelf.old) (S.calls shelf.new) }
    ensures cause { ReadCause result (S.faults shelf.old) (S.faults shelf.new) }
    ensures kept { S.files shelf.new ≡ S.files shelf.old }
{
    let limits = limits_of(asked.wide);
    let checker = Checker::new(alloc, scoped, limits.line_bytes);
    match read_certificate(shelf, checker, asked.certificate) {
        Ok(accepted) => {
            let numbers = accepted.patterns.as_slice();
            answer_proofs(alloc, false, scoped.file(), asked.options, numbers)
        }
        Err(refusal) => Err(refusal),
    }
}

/// Reads a certificate and judges it. It is read in pieces, and up to its first error.
pub(crate) fn read_certificate<'a, S: Shelf>(
    shelf: &mut S,
    checker: Checker<'_>,
    name: &'a str,
) -> Result<Accepted, Refusal<'a>>
    requires { CheckerStandsFor checker [] }
    ensures stage { Grew (Stage (certificate_kind (subject_of checker.entry)) (λ accepted. accepted.patterns) (S.files shelf.old) name.now result) (S.calls shelf.old) (S.calls shelf.new) }
    ensures cause { ReadCause result (S.faults shelf.old) (S.faults shelf.new) }
    ensures kept { S.files shelf.new ≡ S.files shelf.old }
{
    match judge_pieces(shelf, checker, name) {
        Ok(checker) => match checker.finish() {
            Ok(accepted) => Ok(accepted),
            Err(fault) => Err(refused(name, &fault)),
        },
        Err(refusal) => Err(refusal),
    }
}

/// Judges the pieces of a certificate to its end, which the judge is still to be told.
fn judge_pieces<'a, 'b, S: Shelf>(
    shelf: &mut S,
    first: Checker<'b>,
    name: &'a str,
) -> Result<Checker<'b>, Refusal<'a>>
    requires { CheckerStandsFor first [] }
    ensures judged { Grew (JudgingGives (subject_of first.entry) (S.files shelf.old) name.now result) (S.calls shelf.old) (S.calls shelf.new) }
    ensures cause { ReadCause result (S.faults shelf.old) (S.faults shelf.new) }
    ensures kept { S.files shelf.new ≡ S.files shelf.old }
{
    let mut checker = first;
    let mut buffer = [0u8; PIECE];
    let mut at = 0;
    'pieces: loop {
        match judge_piece(shelf, name, at, &mut buffer, &mut checker) {
            Ok(Some(next)) => at = next,
            Ok(None) => return Ok(checker),
            Err(refusal) => {
                drop(checker);
                return Err(refusal);
            }
        }
    }
}

/// Reads the piece of a certificate from an offset on and judges it; gives the offset behind it, where
/// the file may go on.
fn judge_piece<'a, S: Shelf>(
    shelf: &mut S,
    name: &'a str,
    at: u64,
    buffer: &mut [u8],
    checker: &mut Checker<'_>,
) -> Result<Option<u64>, Refusal<'a>>
    requires within { at ≤ CERTIFICATE.bytes }
    requires room { length buffer.old ≡ 65536 }
    requires sound { IsSoundChecker checker.old }
    ensures turn { (first : List Event) (text : List ℕ) → JudgedTo (S.files shelf.old) name.now first (S.calls shelf.old) checker.old text → at ≡ length text
        → Turn (subject_of checker.old) (S.files shelf.old) name.now at first (S.calls shelf.new) checker.new result }
    ensures subject { subject_of checker.new ≡ subject_of checker.old }
    ensures cause { ReadCause result (S.faults shelf.old) (S.faults shelf.new) }
    ensures kept { S.files shelf.new ≡ S.files shelf.old }
{
    match read_piece(shelf, name, at, buffer) {
        Ok(count) => {
            let ended = count < buffer.len();
            feed_piece(name, at, &buffer[..count], ended, checker)
        }
        Err(fault) => Err(unread(name, CERTIFICATE, fault)),
    }
}

/// Judges a piece that begins at an offset, as far as a certificate may go; it may end the file.
fn feed_piece<'a>(
    name: &'a str,
    at: u64,
    piece: &[u8],
    ended: bool,
    checker: &mut Checker<'_>,
) -> Result<Option<u64>, Refusal<'a>>
    requires within { at ≤ CERTIFICATE.bytes }
    requires sound { IsSoundChecker checker.old }
    ensures fed { (text : List ℕ) → CheckerStandsFor checker.old text → at ≡ length text → PieceFed (subject_of checker.old) name.now text piece.now ended checker.new result }
    ensures subject { subject_of checker.new ≡ subject_of checker.old }
    ensures cause { ReadCause result 0 0 }
{
    let room = CERTIFICATE.bytes - at;
    let allowed = (piece.len() as u64).min(room) as usize;
    match checker.feed(&piece[..allowed]) {
        Ok(()) => {
            if allowed < piece.len() {
                Err(too_long(name, CERTIFICATE))
            } else if ended {
                Ok(None)
            } else {
                Ok(Some(at + piece.len() as u64))
            }
        }
        Err(fault) => Err(refused(name, &fault)),
    }
}

/// Why a certificate is refused.
fn refused<'a>(name: &'a str, fault: &CertFault) -> Refusal<'a>
    ensures { RefusedBy name.now fault.now result }
{
    match fault {
        CertFault::Memory => Refusal::Memory,
        _ => Refusal::Refused {
            number: CERTIFICATE.number,
            name,
            why: cert_fault_phrase(fault),
        },
    }
}
