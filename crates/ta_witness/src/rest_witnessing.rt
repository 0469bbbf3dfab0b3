//! The run of a solution of a system of rest.
#![tactic(auto)]

ghost use Rattle.std.specs.Prelude.{◌<◌, ◌≡◌, ◌++◌, ◌∷◌, [], List, IfErr, IfOk, IsBitSet, IsTrue, ◌↔◌};
ghost use Rattle.ta_automaton.specs.Narrow.{IsNarrow};
ghost use Rattle.ta_automaton.specs.declared.file.File.{File};
ghost use Rattle.ta_replay.specs.declared.run.RunLine.{RunLine};
ghost use Rattle.ta_replay.specs.declared.run.RunLine.TheVariants.{Mark};
ghost use Rattle.ta_replay.specs.Fits.{Fits};
ghost use Rattle.ta_witness.specs.Witness.{WitnessFaultOf};
ghost use Rattle.ta_witness.specs.Runs.{EndsAsAdded, IsRestSolution, OwnWitness, ending_run, marked_at_end};

use crate::{WitnessFault, witness};
use std::alloc::Global;
use ta_base::List;
use ta_encode::Solution;
use ta_replay::Run;
use ta_rest::RestFile;

/// The run of a solution, which is replayed before it is given, for the file's own pattern: it has no
/// mark of an event that was added to the pattern.
pub fn rest_witness(
    alloc: Global,
    rest: &RestFile,
    solution: &Solution,
) -> Result<Run, WitnessFault>
    requires solution { IsRestSolution rest.now.ending.file solution.now }
    requires narrow { IsNarrow rest.now.ending.file.automaton }
    ensures run { IfOk result (OwnWitness rest.now solution.now) }
    ensures fits { IfOk result (Fits rest.now.ending.file) }
    ensures fault { IfErr result (WitnessFaultOf rest.now.ending.file solution.now) }
{
    let run = witness(alloc, &rest.ending, solution)?;
    Ok(own_run(rest, run))
}

/// The run of the file's own pattern that a run of its ending stands for: less its last line, the mark
/// of the event, where one was added to the pattern, else the run as it is.
pub fn own_run(rest: &RestFile, run: Run) -> Run
    requires named { run.pattern < 64 }
    ensures is { EndsAsAdded rest.now.added run → run ≡ ending_run rest.now.added result }
    ensures fits { (file : File) → Fits file run → Fits file result }
{
    if has_pattern(rest.added, run.pattern) {
        return without_last(run);
    }
    run
}

/// Whether a mask of patterns has a number.
fn has_pattern(mask: u64, number: u32) -> bool
    requires { number < 64 }
    ensures { IsTrue result ↔ IsBitSet mask number }
{
    mask & (1 << number) != 0
}

/// A run without its last line.
fn without_last(run: Run) -> Run
    ensures marked { (lines : List RunLine) → run.lines ≡ lines ++ Mark 0 ∷ [] → run ≡ marked_at_end result }
    ensures fits { (file : File) → Fits file run → Fits file result }
{
    let mut lines = run.lines.into_vec();
    lines.pop();
    Run {
        pattern: run.pattern,
        parameters: run.parameters,
        counts: run.counts,
        lines: List::from_vec(lines),
    }
}
