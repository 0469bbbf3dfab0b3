//! The run of a whole node.
#![tactic(auto)]

ghost use Rattle.std.specs.Prelude.{IfErr, IfOk, OnOk};
ghost use Rattle.std.specs.List.{AllByRecursion};
ghost use Rattle.ta_replay.specs.Fits.{Fits};
ghost use Rattle.ta_replay.specs.Shows.{Shows};
ghost use Rattle.ta_witness.specs.Given.{EncodesSomeWhole, MomentRunFault, MomentStays, RestOfEncoding, RunOfEncoding, ShortOfEncoding, StaysWithin};
ghost use Rattle.ta_witness.specs.Inside.Stops.{MadeRun, MomentsFault};

use crate::moment_lines::lines_of;
use crate::stops::stops_of;
use crate::values::moving_counts;
use crate::{WitnessFault, parameters_of, starts_of};
use std::alloc::Global;
use ta_automaton::Task;
use ta_base::List;
use ta_moment_tree::MomentEncoding;
use ta_replay::{Run, RunFault, replay};
use ta_scope::ScopedFile;

/// The run of a node of the pattern with this number, at natural values of its unknowns at which no
/// question is left. It is replayed before it is given.
pub fn moment_run(
    alloc: Global,
    scoped: &ScopedFile,
    number: u32,
    node: &MomentEncoding<'_>,
    values: &[i128],
) -> Result<Run, WitnessFault>
    requires { EncodesSomeWhole scoped.now.file number node.now values.now }
    ensures run { IfOk result (RunOfEncoding scoped.now.file number node.now values.now) }
    ensures fits { IfOk result (Fits scoped.now.file) }
    ensures shows { IfOk result (Shows scoped.now.file) }
    ensures stays { IfOk result (StaysWithin scoped.now.file node.now values.now) }
    ensures short { IfOk result (ShortOfEncoding scoped.now.file number node.now values.now) }
    ensures rests { IfOk result (RestOfEncoding scoped.now.file number node.now values.now) }
    ensures fault { IfErr result (MomentRunFault scoped.now.file number node.now values.now) }
{
    let run = run_of(alloc, scoped, number, node, values)?;
    match replay(&scoped.file, &run) {
        Ok(_) => Ok(run),
        Err(RunFault::Overflow(_)) => Err(WitnessFault::Overflow),
        // Since the run shows the pattern, there is no other error.
        Err(_) => Err(WitnessFault::Memory),
    }
}

/// The run of a node, before it is replayed.
fn run_of(
    alloc: Global,
    scoped: &ScopedFile,
    number: u32,
    node: &MomentEncoding<'_>,
    values: &[i128],
) -> Result<Run, WitnessFault>
    requires { EncodesSomeWhole scoped.now.file number node.now values.now }
    ensures made { IfOk result (MadeRun scoped.now.file number node.now values.now) }
    ensures stays { OnOk result (AllByRecursion (MomentStays values.now) node.now.draft.moments.items) }
    ensures fault { IfErr result (MomentsFault values.now node.now.draft.moments.items) }
{
    let automaton = &scoped.file.automaton;
    let task = Task::of(&scoped.file, number);
    let pattern = task.pattern;
    let stops = stops_of(alloc, automaton, pattern, node.moments(), values)?;
    let starts = node.starts();
    let front = &values[..starts.len()];
    let count = automaton.parameters.as_slice().len();
    let parameters = parameters_of(alloc, count, starts, front)?;
    let counts = starts_of(alloc, automaton.initial.as_slice(), starts, front)?;
    let none = moving_counts(alloc, automaton, pattern, &[])?;
    let lines = lines_of(alloc, scoped, pattern, none.as_slice(), stops.as_slice())?;
    Ok(Run {
        pattern: number,
        parameters: List::from_vec(parameters),
        counts: List::from_vec(counts),
        lines: List::from_vec(lines),
    })
}
