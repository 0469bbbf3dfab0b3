//! What each kind of row gives.
#![tactic(auto)]

use crate::commands::{cuts, grown, perform, put};
use crate::files::Files;
use crate::given::Given;
use crate::layers::of_file;
use crate::lines::lines;
use crate::table::{Row, cut};
use crate::texts::fault;
use crate::towers::pivots;
use crate::trees;
use std::alloc::AllocError;
use std::thread::Threads;
use ta_base::limits::Limits;

/// Writes what a row gives. Where that is a file, it is kept instead, and the answer is false.
pub fn answer<R: Threads + Sync>(
    rt: &R,
    given: &mut Given,
    files: &mut Files,
    row: &Row<'_>,
) -> Result<bool, AllocError> {
    let (what, rest) = cut(row.heading);
    if is_file(given, files, what, rest, row.body) {
        let (name, _) = cut(rest);
        files.set(given.alloc, name, given.whole()?)?;
        return Ok(false);
    }
    of_row(rt, given, files, what, rest)?;
    Ok(true)
}

/// Whether a row gives a file, whose text is then written.
fn is_file(given: &mut Given, files: &Files, what: &str, rest: &str, body: &str) -> bool {
    let (_, rest) = cut(rest);
    let (count, other) = cut(rest);
    match what {
        "file" => unescape(given, body),
        "text" => {
            unescape(given, body);
            given.say("\n");
        }
        "spaces" => {
            say_spaces(given, count);
            given.say(files.text(other));
        }
        "padded" => {
            given.say(files.text(other));
            say_spaces(given, count);
        }
        _ => return false,
    }
    true
}

fn of_row<R: Threads + Sync>(
    rt: &R,
    given: &mut Given,
    files: &mut Files,
    what: &str,
    rest: &str,
) -> Result<(), AllocError> {
    match what {
        "run" => perform(rt, given, files, rest, false),
        "calls" => perform(rt, given, files, rest, true),
        "put" => put(rt, given, files, rest),
        "cuts" => cuts(rt, given, files, rest),
        "grown" => grown(rt, given, files, rest),
        "pivots" => pivots(given, rest),
        _ => {
            let text = rest.replace(given.alloc, "\\n", "\n")?;
            of_text(rt, given, files, what, text.as_str())
        }
    }
}

/// Writes what a row gives in which `\\n` stood for the end of a line.
fn of_text<R: Threads + Sync>(
    rt: &R,
    given: &mut Given,
    files: &Files,
    what: &str,
    text: &str,
) -> Result<(), AllocError> {
    match what {
        "reads" => fault(given, text),
        "lines" => lines(given, text),
        "tree" => trees::fault(given, text),
        "tree-cuts" => trees::cuts(given, text),
        "tree-limit" => trees::limit(given, text, &Limits::narrow()),
        "wide-limit" => trees::limit(given, text, &Limits::wide()),
        "prints" => trees::printed(given, text),
        _ => return of_file(rt, given, files, what, text),
    }
    Ok(())
}

/// Writes so many spaces.
fn say_spaces(given: &mut Given, count: &str) {
    for _ in 0..count.parse::<u32>().unwrap_or(0) {
        given.say(" ");
    }
}

/// Writes a text in which `\\n` stands for the end of a line.
fn unescape(given: &mut Given, text: &str) {
    match text.replace(given.alloc, "\\n", "\n") {
        Ok(text) => given.say(text.as_str()),
        Err(fault) => given.note(Err(fault)),
    }
}
