//! Shortens a run, cut by cut.
//!
//! Doing it twice may shorten more where a rule adds more than 1. With `big: A -> B do x += 5`,
//! `small: B -> C do x += 1`, a guard `x >= 6`, 1 process in A and 2 in B, the run small, small,
//! big, mark becomes big 1, small 2. There x reaches 6 after the first small, so the next cut gives
//! big 1, small 1, small 1.
#![tactic(auto)]

ghost use Rattle.std.specs.Prelude.{ℕ, pos, ◌≡◌, ◌≢◌, ◌≤◌, ◌<◌, ◌+◌, ◌^◌, ◌-◌, min, IfOk, IfErr, OnOk, IsOk};
ghost use Rattle.ta_replay.specs.Fits.{Fits};
ghost use Rattle.ta_replay.specs.Shows.{Shows, factor_of, factors_sum};
ghost use Rattle.ta_replay.specs.declared.run.RunLine.TheVariants.{Mark};
ghost use Rattle.ta_counter.specs.Configs.{IsOf};
ghost use Rattle.ta_counter.specs.Starts.{StartsAt};
ghost use Rattle.ta_compress.specs.declared.fault.CompressFault.TheVariants.{Memory};
ghost use Rattle.ta_compress.specs.Faults.{IsSmallReplay, Compressible, CompressFaultOf, GuardsStayed, IsShortRun, StepsStop};
ghost use Rattle.ta_compress.specs.Pieces.{CompressOf, CutOf};
ghost use Rattle.ta_compress.specs.Tales.{SameTale};
ghost use Rattle.ta_compress.specs.Units.{EndsAtLastMark};
ghost use Rattle.ta_compress.specs.Inside.Drafts.{IsFirstDraft};

use crate::draft::{Draft, no_counts};
use crate::fault::CompressFault;
use std::alloc::{AllocError, Global};
use ta_automaton::File;
use ta_base::List;
use ta_base::limits::MOST_UNIT_STEPS;
use ta_counter::{Config, guards_at};
use ta_replay::{Run, RunFault, RunLine, replay};
use ta_scope::ScopedFile;

/// Shortens a run that shows its pattern: between two cuts at most one step of each rule is left,
/// and one that makes a fall guard false. Cuts are the marks and the switches of guards.
pub fn compress(alloc: Global, scoped: &ScopedFile, run: &Run) -> Result<Run, CompressFault>
    requires { Fits scoped.now.file run.now }
    ensures admits { OnOk result (Compressible scoped.now.file run.now) }
    ensures exact { IfOk result (CompressOf scoped.now.file run.now) }
    ensures fits { IfOk result (Fits scoped.now.file) }
    ensures shows { IfOk result (Shows scoped.now.file) }
    ensures same { IfOk result (SameTale scoped.now.file run.now) }
    ensures short { IfOk result (IsShortRun scoped.now.file) }
    ensures fault { IfErr result (CompressFaultOf scoped.now.file run.now) }
    ensures only { Compressible scoped.now.file run.now → IfErr result (λ fault. fault ≡ Memory) }
{
    admit(scoped.file(), run)?;
    let lines = shorten(alloc, scoped, run)?;
    let short = with_lines(alloc, run, lines)?;
    Ok(short)
}

/// The run with other lines.
fn with_lines(alloc: Global, run: &Run, lines: Vec<RunLine>) -> Result<Run, AllocError>
    ensures pattern { IfOk result (λ short. short.pattern ≡ run.now.pattern) }
    ensures parameters { IfOk result (λ short. short.parameters ≡ run.now.parameters) }
    ensures counts { IfOk result (λ short. short.counts ≡ run.now.counts) }
    ensures lines { IfOk result (λ short. short.lines ≡ lines.items) }
{
    let parameters = run.parameters.as_slice().to_vec(alloc)?;
    let counts = run.counts.as_slice().to_vec(alloc)?;
    Ok(Run {
        pattern: run.pattern,
        parameters: List::from_vec(parameters),
        counts: List::from_vec(counts),
        lines: List::from_vec(lines),
    })
}

/// Whether the run is replayed and has at most 1,000,000 unit steps.
fn admit(file: &File, run: &Run) -> Result<(), CompressFault>
    requires { Fits file.now run.now }
    ensures admitted { OnOk result (IsSmallReplay file.now run.now) }
    ensures fault { IfErr result (CompressFaultOf file.now run.now) }
    ensures no_memory { IfErr result (λ fault. fault ≢ Memory) }
{
    match replay(file, run) {
        Ok(_) => few_steps(run.lines.as_slice()),
        Err(fault) => Err(CompressFault::Replay(fault)),
    }
}

/// Whether lines have at most 1,000,000 unit steps.
fn few_steps(lines: &[RunLine]) -> Result<(), CompressFault>
    ensures few { OnOk result (factors_sum lines.now ≤ 1000000) }
    ensures many { IfErr result (StepsStop lines.now) }
{
    let steps = steps_of(lines);
    if steps > MOST_UNIT_STEPS {
        return Err(CompressFault::TooManySteps(steps));
    }
    Ok(())
}

/// The lines of the compressed run.
fn shorten(alloc: Global, scoped: &ScopedFile, run: &Run) -> Result<Vec<RunLine>, CompressFault>
    requires fits { Fits scoped.now.file run.now }
    requires admitted { IsSmallReplay scoped.now.file run.now }
    ensures cut { IfOk result (λ lines. CutOf scoped.now.file.automaton run.now lines.items) }
    ensures stayed { OnOk result (GuardsStayed scoped.now.file.automaton run.now) }
    ensures fault { IfErr result (CompressFaultOf scoped.now.file run.now) }
{
    let automaton = &scoped.file.automaton;
    let mut draft = begin(alloc, &scoped.file, run)?;
    let lines = run.lines.as_slice();
    let first = 2 + automaton.parameters.as_slice().len() + automaton.initial.as_slice().len();
    for number in 0..last_mark(lines) {
        draft.follow(alloc, scoped, lines[number], (first + number) as u64)?;
    }
    Ok(draft.lines)
}

/// The draft at the first configuration.
fn begin(alloc: Global, file: &File, run: &Run) -> Result<Draft, CompressFault>
    requires fits { Fits file.now run.now }
    requires admitted { IsSmallReplay file.now run.now }
    ensures begun { IfOk result (IsFirstDraft file.now.automaton run.now) }
    ensures fault { IfErr result (CompressFaultOf file.now run.now) }
{
    let config = first_config(file, run)?;
    let Ok(guards) = guards_at(&file.automaton, &config) else {
        return Err(CompressFault::Replay(RunFault::Overflow(1)));
    };
    let counts = no_counts(alloc, &file.automaton)?;
    Ok(Draft {
        config,
        guards,
        counts,
        lines: Vec::new(alloc),
    })
}

/// The first configuration.
fn first_config(file: &File, run: &Run) -> Result<Config, CompressFault>
    requires fits { Fits file.now run.now }
    requires admitted { IsSmallReplay file.now run.now }
    ensures starts { IfOk result (λ config. StartsAt file.now.automaton run.now.parameters run.now.counts config.values.items) }
    ensures is_of { IfOk result (IsOf file.now.automaton) }
    ensures always { IsOk result }
{
    let parameters = run.parameters.as_slice();
    match Config::start(&file.automaton, parameters, run.counts.as_slice()) {
        Ok(config) => Ok(config),
        Err(_) => Err(CompressFault::Memory),
    }
}

/// The number of lines up to the last mark.
fn last_mark(lines: &[RunLine]) -> usize
    ensures { EndsAtLastMark lines.now result }
{
    let mut count = 0;
    for (number, line) in lines.iter().enumerate() {
        count = count_with(count, number, *line);
    }
    count
}

/// The number of lines up to the last mark, with one more line.
fn count_with(count: usize, number: usize, line: RunLine) -> usize
    requires { number < 2 ^ 64 - 1 }
    ensures marked { (e : ℕ) → line ≡ Mark e → result ≡ number + 1 }
    ensures other { ((e : ℕ) → line ≡ Mark e → ⊥) → result ≡ count }
{
    match line {
        RunLine::Step { .. } => count,
        RunLine::Mark { .. } => number + 1,
    }
}

/// The sum of the factors, or 2^127 - 1 where it is larger.
fn steps_of(lines: &[RunLine]) -> i128
    ensures { result ≡ pos (min (factors_sum lines.now) (2 ^ 127 - 1)) }
{
    let mut steps: u128 = 0;
    for line in lines {
        steps = steps.saturating_add(steps_on(*line));
    }
    steps.min(i128::MAX as u128) as i128
}

/// The factor of a line; 0 for a mark.
fn steps_on(line: RunLine) -> u128
    ensures { result ≡ factor_of line }
{
    match line {
        RunLine::Step { factor, .. } => factor.unsigned_abs(),
        RunLine::Mark { .. } => 0,
    }
}
