//! A run of the program.
#![tactic(auto)]

ghost use Rattle.std.specs.Prelude.{◌≡◌, map};
ghost use Rattle.ta_shelf.specs.Ends.{SinkState, Tells, state};
ghost use Rattle.ta_program.specs.Asked.{Runs, usage_line};
ghost use Rattle.ta_program.specs.Promises.{EndPromises, Promises};
ghost use Rattle.ta_program.specs.Requests.{request_of};

use crate::admit::Admit;
use crate::bench::Bench;
use crate::check::Check;
use crate::compress::Compress;
use crate::count::Count;
use crate::export::Export;
use crate::one_file::OneFile;
use crate::replay::Replay;
use crate::request::{Request, StagingRequest};
use crate::rest::Rest;
use crate::rest_check::RestCheck;
use crate::search::Search;
use crate::show::Show;
use crate::telling::zero_says;
use crate::two_files::TwoFiles;
use crate::verify::Verify;
use crate::version::Version;
use std::alloc::Global;
use std::thread::Threads;
use ta_report::reports_are_distinct;
use ta_shelf::{Shelf, Sink, perform, perform_staging, tell_line};

/// The line where the words are no command's.
const USAGE: &str =
    "tav: usage: verify FILE [--nodes N] [--certificate OUT] [--json], check FILE CERT, replay FILE RUN, compress FILE RUN, count FILE, bench K, rest FILE [--nodes N] [--certificate OUT], rest-check FILE CERT, search FILE [--nodes N] [--certificate OUT] [--filled OUT2], show FILE, export FILE PATTERN START WORD, admit FILE PATTERN START WORD VALUES, version, --lazy with verify, rest or search, --silent NAMES with rest or rest-check, --json with rest, search, check, rest-check or replay, --pattern NAME with verify or rest, --all with verify, rest, check or rest-check, --parameters with check, --wide with verify, rest, search, check, rest-check, replay, compress, count or show\n";

/// Does what the words ask for, and answers the number that the process ends with: 0 where all is
/// done, 1 where some pattern is unsafe or no values were found, 2 where that isn't known, 3 where FILE hinders, 4
/// where CERT, RUN, VALUES or a word does, or the certificate is too long, or OUT holds what was read or
/// leads to the place of OUT2, 5 where the words are no command's, 6 where the shelf or the output
/// failed, and 7 for want of memory.
///
/// A file is read and judged whole before the next one is opened, and a text is made whole before
/// it is written. A certificate and a filled text are begun before anything is read; what their names
/// hold is compared with FILE's bytes, and the places to which they lead with one another, before
/// anything is searched; they are made before the report is written, the certificate of `verify` and of
/// `rest` pattern by pattern while these are judged, and put in their places behind it, and nothing else
/// is ever put on the shelf. A failing `err` changes nothing.
pub fn run<R: Threads + Sync, S: Shelf, O: Sink, E: Sink>(
    rt: &R,
    alloc: Global,
    words: &[&str],
    shelf: &mut S,
    out: &mut O,
    err: &mut E,
) -> u8
    ensures promises { Promises (record {
      status = result;
      words = map (λ w. w.now) words.now;
      before = record { files = S.files shelf.old; calls = S.calls shelf.old; written = O.written out.old };
      after = record { files = S.files shelf.new; calls = S.calls shelf.new; written = O.written out.new };
    }) }
    ensures ends { EndPromises result (map (λ w. w.now) words.now)
        (state (S.files shelf.old) (S.calls shelf.old) (S.faults shelf.old) (O.written out.old) (O.faults out.old) (O.stalls out.old) (E.written err.old) (E.faults err.old) (E.stalls err.old))
        (state (S.files shelf.new) (S.calls shelf.new) (S.faults shelf.new) (O.written out.new) (O.faults out.new) (O.stalls out.new) (E.written err.new) (E.faults err.new) (E.stalls err.new)) }
{
    // the laws by which the text of a report and its number tell its verdicts; the calls do nothing
    reports_are_distinct();
    zero_says();
    obey(rt, alloc, words, shelf, out, err)
}

/// Does what is asked for, where something is: one row a command.
fn obey<R: Threads + Sync, S: Shelf, O: Sink, E: Sink>(
    rt: &R,
    alloc: Global,
    words: &[&str],
    shelf: &mut S,
    out: &mut O,
    err: &mut E,
) -> u8
    ensures { Runs (request_of (map (λ w. w.now) words.now)) result
        (state (S.files shelf.old) (S.calls shelf.old) (S.faults shelf.old) (O.written out.old) (O.faults out.old) (O.stalls out.old) (E.written err.old) (E.faults err.old) (E.stalls err.old))
        (state (S.files shelf.new) (S.calls shelf.new) (S.faults shelf.new) (O.written out.new) (O.faults out.new) (O.stalls out.new) (E.written err.new) (E.faults err.new) (E.stalls err.new)) }
{
    let Some((name, words)) = words.split_first() else {
        return refuse(err);
    };
    match *name {
        "admit" => attempt::<Admit<'_>, R, S, O, E>(rt, alloc, words, shelf, out, err),
        "bench" => attempt::<Bench, R, S, O, E>(rt, alloc, words, shelf, out, err),
        "check" => attempt::<Check<'_>, R, S, O, E>(rt, alloc, words, shelf, out, err),
        "compress" => attempt::<TwoFiles<'_, Compress>, R, S, O, E>(
            rt, alloc, words, shelf, out, err,
        ),
        "count" => attempt::<OneFile<'_, Count>, R, S, O, E>(rt, alloc, words, shelf, out, err),
        "export" => attempt::<Export<'_>, R, S, O, E>(rt, alloc, words, shelf, out, err),
        "replay" => attempt::<Replay<'_>, R, S, O, E>(rt, alloc, words, shelf, out, err),
        "rest" => attempt_staging::<Rest<'_>, R, S, O, E>(rt, alloc, words, shelf, out, err),
        "rest-check" => attempt::<RestCheck<'_>, R, S, O, E>(rt, alloc, words, shelf, out, err),
        "search" => attempt::<Search<'_>, R, S, O, E>(rt, alloc, words, shelf, out, err),
        "show" => attempt::<OneFile<'_, Show>, R, S, O, E>(rt, alloc, words, shelf, out, err),
        "verify" => attempt_staging::<Verify<'_>, R, S, O, E>(rt, alloc, words, shelf, out, err),
        "version" => attempt::<Version, R, S, O, E>(rt, alloc, words, shelf, out, err),
        _ => refuse(err),
    }
}

/// Does a command, where the words behind its name are of its form.
fn attempt<'a, C: Request<'a>, R: Threads + Sync, S: Shelf, O: Sink, E: Sink>(
    rt: &R,
    alloc: Global,
    words: &[&'a str],
    shelf: &mut S,
    out: &mut O,
    err: &mut E,
) -> u8
    ensures { Runs (C.asked (map (λ w. w.now) words.now)) result
        (state (S.files shelf.old) (S.calls shelf.old) (S.faults shelf.old) (O.written out.old) (O.faults out.old) (O.stalls out.old) (E.written err.old) (E.faults err.old) (E.stalls err.old))
        (state (S.files shelf.new) (S.calls shelf.new) (S.faults shelf.new) (O.written out.new) (O.faults out.new) (O.stalls out.new) (E.written err.new) (E.faults err.new) (E.stalls err.new)) }
{
    match C::read(words) {
        Some(command) => perform(rt, alloc, &command, shelf, out, err),
        None => refuse(err),
    }
}

/// The same of a command that stages its output while it judges.
fn attempt_staging<'a, C: StagingRequest<'a>, R: Threads + Sync, S: Shelf, O: Sink, E: Sink>(
    rt: &R,
    alloc: Global,
    words: &[&'a str],
    shelf: &mut S,
    out: &mut O,
    err: &mut E,
) -> u8
    ensures { Runs (C.asked (map (λ w. w.now) words.now)) result
        (state (S.files shelf.old) (S.calls shelf.old) (S.faults shelf.old) (O.written out.old) (O.faults out.old) (O.stalls out.old) (E.written err.old) (E.faults err.old) (E.stalls err.old))
        (state (S.files shelf.new) (S.calls shelf.new) (S.faults shelf.new) (O.written out.new) (O.faults out.new) (O.stalls out.new) (E.written err.new) (E.faults err.new) (E.stalls err.new)) }
{
    match C::read(words) {
        Some(command) => perform_staging(rt, alloc, &command, shelf, out, err),
        None => refuse(err),
    }
}

/// Tells that the words are no command's.
fn refuse<E: Sink>(err: &mut E) -> u8
    ensures five { result ≡ 5 }
    ensures told { Tells usage_line (record { written = E.written err.old; faults = E.faults err.old; stalls = E.stalls err.old })
        (record { written = E.written err.new; faults = E.faults err.new; stalls = E.stalls err.new }) }
{
    tell_line(err, USAGE);
    5
}
