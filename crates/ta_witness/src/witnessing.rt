//! The run of a solution.
#![tactic(auto)]

ghost use Rattle.std.specs.Prelude.{IfErr, IfOk, OnOk};
ghost use Rattle.ta_automaton.specs.Narrow.{IsNarrow};
ghost use Rattle.ta_replay.specs.Fits.{Fits};
ghost use Rattle.ta_replay.specs.Replays.{ReplayStays};
ghost use Rattle.ta_replay.specs.Shows.{Shows};
ghost use Rattle.ta_witness.specs.Witness.{IsShortRun, IsSolution, WitnessFaultOf, WitnessOf};
ghost use Rattle.ta_witness.specs.Inside.Making.{IsMadeFrom, RunOf};

use crate::fault::WitnessFault;
use crate::known::{parameters_of, starts_of};
use crate::lines::lines_of;
use std::alloc::{AllocError, Global};
use ta_automaton::Pattern;
use ta_base::List;
use ta_encode::{Meaning, Solution, encode};
use ta_replay::{Run, RunFault, replay};
use ta_scope::ScopedFile;
use ta_words::NarrowTask;

/// The run of a solution, which is replayed before it is given: for each element of the word the
/// arranged steps of its Counts, and then the single step of a Fall, or the mark of an Event.
pub fn witness(alloc: Global, scoped: &ScopedFile, solution: &Solution) -> Result<Run, WitnessFault>
    requires solution { IsSolution scoped.now.file solution.now }
    requires narrow { IsNarrow scoped.now.file.automaton }
    ensures witness { IfOk result (λ run. WitnessOf scoped.now.file solution.now run) }
    ensures fits { IfOk result (λ run. Fits scoped.now.file run) }
    ensures shows { IfOk result (λ run. Shows scoped.now.file run) }
    ensures stays { IfOk result (λ run. ReplayStays scoped.now.file run) }
    ensures short { IfOk result (λ run. IsShortRun scoped.now.file run) }
    ensures fault { IfErr result (WitnessFaultOf scoped.now.file solution.now) }
{
    let run = run_of(alloc, scoped, solution)?;
    match replay(&scoped.file, &run) {
        Ok(_) => Ok(run),
        Err(RunFault::Overflow(_)) => Err(WitnessFault::Overflow),
        // Since the run shows the pattern, there is no other error.
        Err(_) => Err(WitnessFault::Memory),
    }
}

/// The run of a solution, before it is replayed.
fn run_of(alloc: Global, scoped: &ScopedFile, solution: &Solution) -> Result<Run, AllocError>
    requires solution { IsSolution scoped.now.file solution.now }
    requires narrow { IsNarrow scoped.now.file.automaton }
    ensures witness { IfOk result (λ run. WitnessOf scoped.now.file solution.now run) }
    ensures fits { IfOk result (λ run. Fits scoped.now.file run) }
    ensures shows { IfOk result (λ run. Shows scoped.now.file run) }
    ensures short { IfOk result (λ run. IsShortRun scoped.now.file run) }
{
    let task = NarrowTask::of(&scoped.file, solution.pattern);
    let encoded = encode(alloc, task, solution.start_mask, &solution.word, &[])?;
    let meanings = encoded.meanings.as_slice();
    run_for(alloc, scoped, task.pattern, meanings, solution)
}

/// The run of a solution, with its pattern and what its unknowns stand for.
fn run_for(
    alloc: Global,
    scoped: &ScopedFile,
    pattern: &Pattern,
    meanings: &[Meaning],
    solution: &Solution,
) -> Result<Run, AllocError>
    requires made { IsMadeFrom scoped.now.file pattern.now meanings.now solution.now }
    requires narrow { IsNarrow scoped.now.file.automaton }
    ensures { IfOk result (λ run. RunOf scoped.now.file pattern.now meanings.now solution.now run) }
{
    let automaton = &scoped.file.automaton;
    let values = solution.values.as_slice();
    let count = automaton.parameters.as_slice().len();
    let elements = solution.word.elements();
    let parameters = parameters_of(alloc, count, meanings, values)?;
    let counts = starts_of(alloc, automaton.initial.as_slice(), meanings, values)?;
    let lines = lines_of(alloc, scoped, pattern, meanings, values, elements)?;
    Ok(Run {
        pattern: solution.pattern,
        parameters: List::from_vec(parameters),
        counts: List::from_vec(counts),
        lines: List::from_vec(lines),
    })
}
