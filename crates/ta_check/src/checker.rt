//! Judges a certificate that comes in pieces of any length.
//!
//! The reader of ta_cert cuts a piece into lines and keeps the unfinished one, the position takes
//! the lines, and nothing else is kept: memory does not grow with the certificate. Contracts speak
//! of all bytes fed so far, through a relation over every text for which the checker stands
//! (`CheckerStandsFor`), so how the text was cut does not matter. Judging ends at the first line
//! that is refused.
#![tactic(auto)]

ghost use Rattle.std.specs.Prelude.{ℕ, ◌≡◌, ◌↔◌, ◌++◌, [], true, List as Bytes, IfOk, IsErrOf, is_err};
ghost use Rattle.ta_check.specs.Certificate.{AllClaimsHold, AllUnsolved};
ghost use Rattle.ta_check.specs.Checkers.{CheckerFeedAnswers, CheckerFinishAnswers, IsExactCheck, IsExactFeed, IsSoundChecker, StandBehind, CheckerStandsFor, subject_of};
ghost use Rattle.ta_check.specs.Subjects.{claiming, claiming_with};
ghost use Rattle.ta_check.specs.Inside.Pieces.{NextTaken, StandSomewhere, TakenTo};

use crate::accepted::Accepted;
use crate::position::Position;
use std::alloc::Global;
use ta_automaton::File;
use ta_base::List;
use ta_cert::{CertFault, Ended, Reader};
use ta_rest::{Claim, RestFile};
use ta_scope::ScopedFile;

/// Judges a certificate of a file whose text comes in pieces: that patterns are safe, or that they are
/// safe at rest. It keeps of the text the unfinished
/// line, and the place in the proof that is being read; nothing of the lines before.
#[derive(Drop)]
pub struct Checker<'a> {
    alloc: Global,
    /// What its patterns are claimed to be.
    claim: Claim,
    scoped: &'a ScopedFile,
    /// The places on which rest does not count.
    silent: &'a [u32],
    /// How many bytes a line has at most, its line feed aside.
    line_bytes: usize,
    reader: Reader,
    failed: bool,
    position: Position<'a>,
}

/// Takes the line that the next line feed of some bytes ends, and says how many bytes that were; or
/// keeps all of them where there is none.
fn take_next<'a>(
    alloc: Global,
    claim: Claim,
    file: &'a File,
    silent: &'a [u32],
    reader: &mut Reader,
    position: &mut Position<'a>,
    bytes: &[u8],
) -> Result<Option<usize>, CertFault>
    requires { StandSomewhere (claiming_with claim file.now silent.now) reader.old position.old }
    ensures { (limit : ℕ) (text : Bytes ℕ) → StandBehind (claiming_with claim file.now silent.now limit) reader.old position.old text → NextTaken (claiming_with claim file.now silent.now limit) text bytes.now reader.new position.new result }
{
    match reader.feed_line(bytes)? {
        None => Ok(None),
        Some(
            Ended {
                number,
                line,
                taken,
            },
        ) => {
            position.take_line(alloc, claim, file, silent, number, &line)?;
            Ok(Some(taken))
        }
    }
}

/// Takes the lines of a piece, and keeps what stands behind them.
fn take_lines<'a>(
    alloc: Global,
    claim: Claim,
    file: &'a File,
    silent: &'a [u32],
    reader: &mut Reader,
    position: &mut Position<'a>,
    piece: &[u8],
) -> Result<(), CertFault>
    requires { StandSomewhere (claiming_with claim file.now silent.now) reader.old position.old }
    ensures { (limit : ℕ) (text : Bytes ℕ) → StandBehind (claiming_with claim file.now silent.now limit) reader.old position.old text → TakenTo (claiming_with claim file.now silent.now limit) (text ++ piece.now) reader.new position.new result }
{
    let mut rest = piece;
    'lines: while let Some(taken) = take_next(alloc, claim, file, silent, reader, position, rest)? {
        let (_, behind) = rest.split_at(taken);
        rest = behind;
    }
    Ok(())
}

impl<'a> Checker<'a> {
    /// A judge of a certificate that patterns of a file are safe, before the first piece. A line of the
    /// certificate has at most `line_bytes` bytes, its line feed aside. It takes no memory.
    pub fn new(alloc: Global, scoped: &'a ScopedFile, line_bytes: usize) -> Checker<'a>
        ensures stands { CheckerStandsFor result [] }
        ensures subject { subject_of result ≡ claiming Claim.Safe scoped.now.file line_bytes }
    {
        Checker {
            alloc,
            claim: Claim::Safe,
            scoped,
            silent: &[],
            line_bytes,
            reader: Reader::new(alloc, line_bytes),
            failed: false,
            position: Position::new(alloc),
        }
    }

    /// A judge of a certificate that no run comes to rest where the last event of a pattern happens.
    /// It takes no memory.
    pub fn resting(alloc: Global, rest: &'a RestFile, line_bytes: usize) -> Checker<'a>
        ensures stands { CheckerStandsFor result [] }
        ensures subject { subject_of result ≡ claiming Claim.RestSafe rest.now.ending.file line_bytes }
    {
        Checker::resting_silently(alloc, rest, &[], line_bytes)
    }

    /// The same where these places are silent: no run comes to quiet rest there. It takes no memory.
    pub fn resting_silently(
        alloc: Global,
        rest: &'a RestFile,
        silent: &'a [u32],
        line_bytes: usize,
    ) -> Checker<'a>
        ensures stands { CheckerStandsFor result [] }
        ensures subject { subject_of result ≡ claiming_with Claim.RestSafe rest.now.ending.file silent.now line_bytes }
    {
        Checker {
            alloc,
            claim: Claim::RestSafe,
            scoped: &rest.ending,
            silent,
            line_bytes,
            reader: Reader::new(alloc, line_bytes),
            failed: false,
            position: Position::new(alloc),
        }
    }

    /// Judges the next piece. An error is that of the first refused line, where a byte of this piece
    /// ends it, makes it too long or stands behind the last line. Once a piece was refused, each
    /// later call is.
    pub fn feed(&mut self, piece: &[u8]) -> Result<(), CertFault>
        requires { IsSoundChecker self.old }
        ensures answer { (text : Bytes ℕ) → CheckerStandsFor self.old text → CheckerFeedAnswers text piece.now self.new result }
        ensures exact { (text : Bytes ℕ) → CheckerStandsFor self.old text → IsExactFeed (subject_of self.old) (text ++ piece.now) result }
        ensures refused { IsErrOf result CertFault.Failed ↔ (self.old.failed ≡ true) }
        ensures stays { self.new.failed ≡ is_err result }
        ensures subject { subject_of self.new ≡ subject_of self.old }
        ensures sound { IsSoundChecker self.new }
    {
        if self.failed {
            return Err(CertFault::Failed);
        }
        let answer = take_lines(
            self.alloc,
            self.claim,
            &self.scoped.file,
            self.silent,
            &mut self.reader,
            &mut self.position,
            piece,
        );
        self.failed = answer.is_err();
        answer
    }

    /// What the certificate proves, where its text ended where it had to.
    pub fn finish(self) -> Result<Accepted, CertFault>
        requires { IsSoundChecker self }
        ensures answer { (text : Bytes ℕ) → CheckerStandsFor self.entry text → CheckerFinishAnswers (subject_of self.entry) text result }
        ensures exact { (text : Bytes ℕ) → CheckerStandsFor self.entry text → IsExactCheck (subject_of self.entry) text result }
        ensures refused { IsErrOf result CertFault.Failed ↔ (self.entry.failed ≡ true) }
        ensures holds { IfOk result (λ accepted. AllClaimsHold (subject_of self.entry) accepted.patterns) }
        ensures unsolved { self.entry.claim ≡ Claim.Safe → IfOk result (λ accepted. AllUnsolved self.entry.scoped.now.file accepted.patterns) }
    {
        let failed = self.failed;
        let (reader, proved) = self.into_parts();
        if failed {
            return Err(CertFault::Failed);
        }
        reader.finish()?;
        Ok(Accepted {
            patterns: List::from_vec(proved),
        })
    }

    /// The reader and the patterns whose proofs began; the rest is dropped.
    fn into_parts(self) -> (Reader, Vec<u32>)
        ensures reader { result.0 ≡ self.entry.reader }
        ensures proved { result.1 ≡ self.entry.position.proved }
    {
        let Checker {
            reader,
            position,
            ..
        } = self;
        (reader, position.proved)
    }
}
