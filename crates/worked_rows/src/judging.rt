//! Rows of certificates.
#![tactic(auto)]

ghost use Rattle.ta_check.specs.Checkers.{IsSoundChecker};

use crate::given::Given;
use crate::walks::end;
use std::alloc::AllocError;
use std::thread::Threads;
use ta_cert::CertFault;
use ta_check::{Accepted, Checker, check};
use ta_scope::ScopedFile;

/// How many bytes a line of a certificate has at most here.
const LINE_BYTES: usize = 1_048_576;

/// The patterns that a certificate proves, or its first error. It comes whole, in pieces of several
/// sizes, and in two pieces, cut behind each of its bytes; the answers have to be the same.
pub fn judgement(given: &mut Given, scoped: &ScopedFile, text: &str) {
    let bytes = text.as_bytes();
    judge_by_sizes(given, scoped, bytes);
    for place in 0..bytes.len() {
        if !is_judged_alike(given, scoped, bytes, place, bytes.len()) {
            return;
        }
    }
}

/// The same of a certificate that comes whole and in pieces of several sizes.
fn judge_by_sizes(given: &mut Given, scoped: &ScopedFile, text: &[u8]) {
    say_answer(given, check(given.alloc, scoped, text, LINE_BYTES));
    for size in [1, 2, 3, 7] {
        if !is_judged_alike(given, scoped, text, size, size) {
            return;
        }
    }
}

/// Whether the same is answered to a text that comes in pieces, the first of so many bytes.
fn is_judged_alike(
    given: &mut Given,
    scoped: &ScopedFile,
    text: &[u8],
    first: usize,
    size: usize,
) -> bool {
    let mut checker = Checker::new(given.alloc, scoped, LINE_BYTES);
    let fed = feed(&mut checker, text, first, size);
    let mut other = Given::new(given.alloc);
    say_answer(&mut other, fed.and(checker.finish()));
    given.is_same(&other, "cut behind byte ", first)
}

/// How the walk of pattern 0 ends, and, where it is refuted, how many lines its certificate has, and
/// what this proves, whole and in pieces of several sizes.
pub fn round<R: Threads + Sync>(
    rt: &R,
    given: &mut Given,
    scoped: &ScopedFile,
    nodes: u64,
) -> Result<(), AllocError> {
    let mut walked = Given::new(given.alloc);
    let ended = end(rt, &mut walked, scoped, nodes, true);
    let text = walked.as_str();
    let (first, certificate) = text.split_once("\n").unwrap_or((text, ""));
    let mut judged = Given::new(given.alloc);
    judge_by_sizes(&mut judged, scoped, certificate.as_bytes());
    given.say(first);
    given.number(", ", certificate.lines().count());
    given.say(" lines, ");
    given.add(&judged);
    ended
}

/// The errors of a text, of nothing behind it, and of its end.
pub fn refusals(given: &mut Given, scoped: &ScopedFile, text: &str) {
    let mut checker = Checker::new(given.alloc, scoped, LINE_BYTES);
    given.value(&checker.feed(text.as_bytes()).err());
    given.say(" ");
    given.value(&checker.feed(b"").err());
    given.say(" ");
    given.value(&checker.finish().err());
}

/// Feeds a text in pieces, the first of so many bytes, the others of a size.
fn feed(checker: &mut Checker<'_>, text: &[u8], first: usize, size: usize) -> Result<(), CertFault>
    requires { IsSoundChecker checker.old }
    ensures { IsSoundChecker checker.new }
{
    let (front, behind) = text.split_at(first.min(text.len()));
    checker.feed(front)?;
    for piece in behind.chunks(size.max(1)) {
        checker.feed(piece)?;
    }
    Ok(())
}

fn say_answer(given: &mut Given, answer: Result<Accepted, CertFault>) {
    match answer {
        Ok(accepted) => {
            given.say("proved");
            for number in accepted.patterns.as_slice() {
                given.number(" ", *number);
            }
        }
        Err(fault) => given.value(&fault),
    }
}
