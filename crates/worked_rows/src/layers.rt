//! What each kind of row of the layers below the program gives.
#![tactic(auto)]

use crate::describing::describe;
use crate::files::Files;
use crate::given::Given;
use crate::judging::{judgement, refusals, round};
use crate::steps::{arranged, steps};
use crate::systems::of_word;
use crate::table::cut;
use crate::texts::scoped;
use crate::walks::{end, solution};
use std::alloc::AllocError;
use std::thread::Threads;
use ta_scope::ScopedFile;

/// Writes what a row of a file gives.
pub fn of_file<R: Threads + Sync>(
    rt: &R,
    given: &mut Given,
    files: &Files,
    what: &str,
    rest: &str,
) -> Result<(), AllocError> {
    let (name, rest) = cut(rest);
    match scoped(given.alloc, files, name) {
        Some(scoped) => {
            let ended = of_scoped(rt, given, &scoped, what, rest);
            drop(scoped);
            ended
        }
        None => given.end("no such file"),
    }
}

fn of_scoped<R: Threads + Sync>(
    rt: &R,
    given: &mut Given,
    scoped: &ScopedFile,
    what: &str,
    rest: &str,
) -> Result<(), AllocError> {
    match what {
        "walk" => return end(rt, given, scoped, nodes_of(rest), true),
        "wide" => return end(rt, given, scoped, nodes_of(rest), false),
        "round" => return round(rt, given, scoped, nodes_of(rest)),
        "solution" => return solution(rt, given, scoped),
        "arrange" => return arranged(given, scoped, rest),
        "means" => describe(given, scoped.file()),
        "judge" => judgement(given, scoped, rest),
        "refuse" => refusals(given, scoped, rest),
        "steps" => steps(given, &scoped.file.automaton, rest),
        _ => return of_word(given, scoped.file(), what, rest),
    }
    Ok(())
}

fn nodes_of(rest: &str) -> u64 {
    if rest.is_empty() {
        1_000_000
    } else {
        rest.parse::<u64>().unwrap_or(0)
    }
}
