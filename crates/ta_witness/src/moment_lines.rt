//! The lines of a run, stop by stop.
#![tactic(auto)]

ghost use Rattle.std.specs.Prelude.{ℕ, pos, ◌<◌, ◌≡◌, ◌≤ℤ◌, ◌++◌, IfOk, OnOk, [], Some, length, map};
ghost use Rattle.std.specs.List.{AllByRecursion};
ghost use Rattle.ta_replay.specs.declared.run.RunLine.TheVariants.{Mark};
ghost use Rattle.ta_witness.specs.Inside.StopLines.{AddsStop, AddsStops, StopFits, gap, gaps, marked};

use crate::push_steps;
use crate::stop::Stop;
use std::alloc::{AllocError, Global};
use ta_automaton::Pattern;
use ta_replay::RunLine;
use ta_scope::ScopedFile;

/// How many firings are missing.
fn gap(before: i128, after: i128) -> i128
    requires { pos 0 ≤ℤ before }
    ensures { result ≡ gap before after }
{
    if before < after { after - before } else { 0 }
}

/// The firings between two positions, for each rule.
fn missing(alloc: Global, before: &[i128], after: &[i128]) -> Result<Vec<i128>, AllocError>
    requires same { length before.now ≡ length after.now }
    requires natural { AllByRecursion (λ z. pos 0 ≤ℤ z) before.now }
    ensures { IfOk result (λ counts. counts.items ≡ gaps before.now after.now) }
{
    let mut counts = Vec::new(alloc);
    for rule in 0..after.len() {
        counts.push(gap(before[rule], after[rule]))?;
    }
    Ok(counts)
}

/// Adds the mark of an event.
fn push_mark(mark: Option<u32>, lines: &mut Vec<RunLine>) -> Result<(), AllocError>
    ensures { OnOk result (lines.new.items ≡ lines.old.items ++ map Mark (marked mark)) }
{
    if let Some(event) = mark {
        lines.push(RunLine::Mark { event })?;
    }
    Ok(())
}

/// Adds the lines of the piece that leads to a stop: the missing firings, arranged, and the mark of the
/// event that happens there.
fn push_stop(
    alloc: Global,
    scoped: &ScopedFile,
    pattern: &Pattern,
    before: &[i128],
    after: &[i128],
    mark: Option<u32>,
    lines: &mut Vec<RunLine>,
) -> Result<(), AllocError>
    requires same { length before.now ≡ length after.now }
    requires rules { length after.now ≡ length scoped.now.file.automaton.rules }
    requires natural { AllByRecursion (λ z. pos 0 ≤ℤ z) before.now }
    requires event { (e : ℕ) → mark ≡ Some e → e < length pattern.now.events }
    ensures { OnOk result (AddsStop scoped.now.file.automaton pattern.now before.now after.now mark lines.old.items lines.new.items) }
{
    let counts = missing(alloc, before, after)?;
    let arranged = scoped.arrange(alloc, counts.as_slice())?;
    push_steps(arranged.steps.as_slice(), lines)?;
    push_mark(mark, lines)?;
    Ok(())
}

/// The lines of the pieces that lead from some counts to the first stop, and from each to the next.
pub(crate) fn lines_of(
    alloc: Global,
    scoped: &ScopedFile,
    pattern: &Pattern,
    first: &[i128],
    stops: &[Stop],
) -> Result<Vec<RunLine>, AllocError>
    requires rules { length first.now ≡ length scoped.now.file.automaton.rules }
    requires natural { AllByRecursion (λ z. pos 0 ≤ℤ z) first.now }
    requires stops { AllByRecursion (StopFits scoped.now.file.automaton pattern.now) stops.now }
    ensures { IfOk result (λ lines. AddsStops scoped.now.file.automaton pattern.now first.now stops.now [] lines.items) }
{
    let mut lines = Vec::new(alloc);
    let mut before = first;
    for stop in stops {
        let after = stop.counts.as_slice();
        push_stop(alloc, scoped, pattern, before, after, stop.mark, &mut lines)?;
        before = after;
    }
    Ok(lines)
}
