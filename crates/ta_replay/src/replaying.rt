//! Follows a run line by line and checks what it claims: its start, its steps, its marks.
#![tactic(auto)]

ghost use Rattle.std.specs.Prelude.{ℕ, pos, ◌≤ℤ◌, ◌≡◌, ◌<◌, ◌≤◌, ◌^◌, ◌-◌, ◌↔◌, length, min, IsTrue, IsBitSet, IfErr, IfOk, OnOk, IfSome, IfNone};
ghost use Rattle.std.specs.List.{AllByRecursion};
ghost use Rattle.ta_linear.specs.Values.{point_of};
ghost use Rattle.ta_counter.specs.Checks.{ConditionPasses, Over};
ghost use Rattle.ta_counter.specs.Configs.{IsOf};
ghost use Rattle.ta_counter.specs.Values.{Value};
ghost use Rattle.ta_replay.specs.Fits.{Fits, LineFits};
ghost use Rattle.ta_replay.specs.Shows.{Shows, ShowsPattern, factor_of, factors_sum, shown_of};
ghost use Rattle.ta_replay.specs.Replays.{EmptyAt, FirstFilled, InOrder, LineTakes, NoneFilled, MarkPasses, NumbersStay, ReplayStays, Takes};
ghost use Rattle.ta_replay.specs.ReplayFaults.{ConfigRefuses, FirstRefusal, LineRefuses, MarkRefuses, RefusedThough, ReplayFault, StartRefuses, StepRefuses};
ghost use Rattle.ta_replay.specs.Inside.Following.{EventsOver, FirstUnmarked, FitsPattern, AreFollowed, Following, MarksAfter, PatternOf, StartsWith};
ghost use Rattle.ta_replay.specs.declared.fault.RunFault.TheVariants.{Memory};
ghost use Rattle.ta_replay.specs.declared.run.RunLine.TheVariants.{Mark};

use crate::fault::RunFault;
use crate::run::{Run, RunLine, Shown};
use ta_automaton::{Automaton, File, Pattern};
use ta_base::masks::contains;
use ta_counter::{Config, StartFault, StepFault};
use ta_pattern::{failing_start, holds_empty, holds_event};

/// Follows a run line by line, up to the first check that refuses. It takes no memory: so a run that
/// fits shows its pattern, or some check is the first that refuses.
pub fn replay(file: &File, run: &Run) -> Result<Shown, RunFault>
    requires { Fits file.now run.now }
    ensures shows { OnOk result (Shows file.now run.now) }
    ensures stays { OnOk result (ReplayStays file.now run.now) }
    ensures counts { IfOk result (λ shown. shown ≡ shown_of run.now) }
    ensures fault { IfErr result (ReplayFault file.now run.now) }
    ensures shown { Shows file.now run.now → IfErr result (RefusedThough file.now run.now) }
    ensures only { Shows file.now run.now → ReplayStays file.now run.now → IfErr result (λ fault. fault ≡ Memory) }
{
    let pattern = &file.patterns.as_slice()[run.pattern as usize];
    replay_pattern(&file.automaton, pattern, run)?;
    // Each event has exactly one mark now.
    Ok(Shown {
        steps: steps_of(run.lines.as_slice()),
        marks: pattern.events.as_slice().len() as u32,
    })
}

/// Follows a run for a pattern.
fn replay_pattern(automaton: &Automaton, pattern: &Pattern, run: &Run) -> Result<(), RunFault>
    requires fits { FitsPattern automaton.now pattern.now run.now }
    requires within { PatternOf automaton.now pattern.now }
    ensures shows { OnOk result (ShowsPattern automaton.now pattern.now run.now) }
    ensures stays { OnOk result (NumbersStay automaton.now pattern.now run.now) }
    ensures refuses { IfErr result (FirstRefusal automaton.now pattern.now run.now) }
{
    let config = begin(automaton, pattern, run)?;
    let marks = follow(automaton, pattern, run, config)?;
    if let Some(event) = first_unmarked(pattern, marks) {
        return Err(RunFault::MissingEvent(event));
    }
    Ok(())
}

/// The configuration that the lines start at.
fn begin(automaton: &Automaton, pattern: &Pattern, run: &Run) -> Result<Config, RunFault>
    requires fits { FitsPattern automaton.now pattern.now run.now }
    requires within { PatternOf automaton.now pattern.now }
    ensures begins { IfOk result (λ config. Following automaton.now pattern.now run.now 0 config 0) }
    ensures refuses { IfErr result (FirstRefusal automaton.now pattern.now run.now) }
{
    let config = first_config(automaton, run)?;
    check_start(pattern, &config)?;
    if let Some(place) = first_filled(automaton, pattern, run) {
        let line = 2 + automaton.parameters.as_slice().len() + place;
        return Err(RunFault::NotEmpty(line as u64));
    }
    Ok(config)
}

/// The configuration of the run's parameters and start counts.
fn first_config(automaton: &Automaton, run: &Run) -> Result<Config, RunFault>
    requires parameters { length run.now.parameters ≡ length automaton.now.parameters }
    requires parameters_natural { AllByRecursion Value run.now.parameters }
    requires counts { length run.now.counts ≡ length automaton.now.initial }
    requires counts_natural { AllByRecursion Value run.now.counts }
    ensures starts { IfOk result (λ config. StartsWith automaton.now run.now config) }
    ensures refuses { IfErr result (ConfigRefuses automaton.now run.now) }
{
    let parameters = run.parameters.as_slice();
    match Config::start(automaton, parameters, run.counts.as_slice()) {
        Ok(config) => Ok(config),
        Err(StartFault::Resilience(comparison)) => Err(RunFault::Resilience(comparison)),
        Err(StartFault::Processes) => Err(RunFault::Processes),
        Err(StartFault::OutOfRange) => Err(RunFault::Overflow(1)),
    }
}

/// Whether the start condition holds.
fn check_start(pattern: &Pattern, config: &Config) -> Result<(), RunFault>
    requires { Over (length config.now.values.items) pattern.now.start }
    ensures passes { OnOk result (ConditionPasses (point_of config.now.values.items) pattern.now.start) }
    ensures refuses { IfErr result (StartRefuses pattern.now config.now.values.items) }
{
    match failing_start(pattern, config) {
        Ok(None) => Ok(()),
        Ok(Some(comparison)) => Err(RunFault::Start(comparison)),
        Err(_) => Err(RunFault::Overflow(1)),
    }
}

/// The first initial location of `empty` that has processes, by its place among the initial ones.
fn first_filled(automaton: &Automaton, pattern: &Pattern, run: &Run) -> Option<usize>
    requires { length run.now.counts ≡ length automaton.now.initial }
    ensures some { IfSome result (FirstFilled automaton.now pattern.now run.now) }
    ensures none { IfNone result (NoneFilled automaton.now pattern.now run.now) }
{
    let counts = run.counts.as_slice();
    for (place, location) in automaton.initial.as_slice().iter().enumerate() {
        if contains(pattern.empty, *location) && counts[place] != 0 {
            return Some(place);
        }
    }
    None
}

/// Follows all lines from the first configuration on, and answers the marked events as a mask.
fn follow(
    automaton: &Automaton,
    pattern: &Pattern,
    run: &Run,
    mut config: Config,
) -> Result<u8, RunFault>
    requires fits { FitsPattern automaton.now pattern.now run.now }
    requires within { PatternOf automaton.now pattern.now }
    requires begins { Following automaton.now pattern.now run.now 0 config 0 }
    ensures follows { IfOk result (AreFollowed automaton.now pattern.now run.now) }
    ensures refuses { IfErr result (FirstRefusal automaton.now pattern.now run.now) }
{
    let first = 2 + automaton.parameters.as_slice().len() + automaton.initial.as_slice().len();
    let mut marks = 0;
    for (number, line) in run.lines.as_slice().iter().enumerate() {
        let line_number = (first + number) as u64;
        marks = follow_line(automaton, pattern, &mut config, marks, *line, line_number)?;
    }
    Ok(marks)
}

/// Follows a line with a number, after some marks.
fn follow_line(
    automaton: &Automaton,
    pattern: &Pattern,
    config: &mut Config,
    marks: u8,
    line: RunLine,
    number: u64,
) -> Result<u8, RunFault>
    requires fits { LineFits automaton.now pattern.now line }
    requires within { PatternOf automaton.now pattern.now }
    requires is_of { IsOf automaton.now config.old }
    ensures takes { OnOk result (LineTakes automaton.now pattern.now (IsBitSet marks) config.old.values.items line config.new.values.items) }
    ensures is_of { OnOk result (IsOf automaton.now config.new) }
    ensures marks { IfOk result (MarksAfter marks line) }
    ensures refuses { IfErr result (LineRefuses automaton.now pattern.now (IsBitSet marks) config.old.values.items line number) }
{
    match line {
        RunLine::Step { rule, factor } => {
            follow_step(automaton, pattern, config, rule, factor, number)?;
            Ok(marks)
        }
        RunLine::Mark { event } => follow_mark(pattern, config, marks, event, number),
    }
}

/// Follows a step, on a line with a number.
fn follow_step(
    automaton: &Automaton,
    pattern: &Pattern,
    config: &mut Config,
    rule: u32,
    factor: i128,
    number: u64,
) -> Result<(), RunFault>
    requires exists { rule < length automaton.now.rules }
    requires factor { pos 1 ≤ℤ factor }
    requires empty { pattern.now.empty < 2 ^ length automaton.now.locations }
    requires is_of { IsOf automaton.now config.old }
    ensures takes { OnOk result (Takes automaton.now rule factor config.old.values.items config.new.values.items) }
    ensures kept { OnOk result (EmptyAt automaton.now pattern.now.empty config.new.values.items) }
    ensures is_of { OnOk result (IsOf automaton.now config.new) }
    ensures refuses { IfErr result (StepRefuses automaton.now pattern.now config.old.values.items rule factor number) }
{
    match config.accelerated_step(automaton, rule, factor) {
        Ok(()) => {}
        Err(StepFault::Count) => return Err(RunFault::Count(number)),
        Err(StepFault::OutOfRange(_)) => return Err(RunFault::Overflow(number)),
        Err(StepFault::Guard(guard)) => return Err(RunFault::Guard {
            line: number,
            guard,
        }),
    }
    if !holds_empty(automaton, pattern, config) {
        return Err(RunFault::NotEmpty(number));
    }
    Ok(())
}

/// Follows a mark, on a line with a number, after some marks.
fn follow_mark(
    pattern: &Pattern,
    config: &Config,
    marks: u8,
    event: u32,
    number: u64,
) -> Result<u8, RunFault>
    requires exists { event < length pattern.now.events }
    requires limit { length pattern.now.events ≤ 8 }
    requires over { EventsOver (length config.now.values.items) pattern.now }
    ensures takes { OnOk result (MarkPasses pattern.now (IsBitSet marks) config.now.values.items event) }
    ensures marks { IfOk result (MarksAfter marks (Mark event)) }
    ensures refuses { IfErr result (MarkRefuses pattern.now (IsBitSet marks) config.now.values.items event number) }
{
    if !is_in_order(pattern, marks, event) {
        return Err(RunFault::Order(number));
    }
    let Ok(holds) = holds_event(pattern, event, config) else {
        return Err(RunFault::Overflow(number));
    };
    if !holds {
        return Err(RunFault::Event(number));
    }
    Ok(marks | (1 << event))
}

/// Whether an event isn't marked yet, and each that it comes after is.
fn is_in_order(pattern: &Pattern, marks: u8, event: u32) -> bool
    requires exists { event < length pattern.now.events }
    requires limit { length pattern.now.events ≤ 8 }
    ensures { IsTrue result ↔ InOrder pattern.now (IsBitSet marks) event }
{
    let after = pattern.events.as_slice()[event as usize].after;
    !contains(u128::from(marks), event) && has_all(marks, after)
}

/// The first event without a mark.
fn first_unmarked(pattern: &Pattern, marks: u8) -> Option<u32>
    requires { length pattern.now.events ≤ 8 }
    ensures some { IfSome result (FirstUnmarked pattern.now marks) }
    ensures none { IfNone result ((e : ℕ) → e < length pattern.now.events → IsBitSet marks e) }
{
    for event in 0..pattern.events.as_slice().len() as u32 {
        if !contains(u128::from(marks), event) {
            return Some(event);
        }
    }
    None
}

/// The sum of the factors, or 2^64 - 1 where it is larger.
fn steps_of(lines: &[RunLine]) -> u64
    ensures { result ≡ min (factors_sum lines.now) (2 ^ 64 - 1) }
{
    let mut steps: u64 = 0;
    for line in lines {
        steps = steps.saturating_add(steps_on(*line));
    }
    steps
}

/// The factor of a line, or 2^64 - 1 where it is larger; 0 for a mark.
fn steps_on(line: RunLine) -> u64
    ensures { result ≡ min (factor_of line) (2 ^ 64 - 1) }
{
    match line {
        RunLine::Step { factor, .. } => u64::try_from(factor.unsigned_abs()).unwrap_or(u64::MAX),
        RunLine::Mark { .. } => 0,
    }
}

/// Whether a mask has each number of another.
fn has_all(mask: u8, part: u8) -> bool
    ensures { IsTrue result ↔ ((f : ℕ) → IsBitSet part f → IsBitSet mask f) }
{
    for number in 0..8 {
        if contains(u128::from(part), number) && !contains(u128::from(mask), number) {
            return false;
        }
    }
    true
}
