//! A compressed run in the making: the lines up to the last cut, and since then a count for each
//! rule.
//!
//! A unit step that changes no guard is counted. One that makes a rise guard true is counted and
//! ends the piece: it may be reordered with the others, since that guard was false before each of
//! them and none needs it. One that makes a fall guard false is not counted but stands by itself
//! behind the piece: fall guards are evaluated before the last firing of a step, so all others may
//! be reordered in front of it.
#![tactic(auto)]

ghost use Rattle.std.specs.Prelude.{ℕ, ℤ, pos, ◌+◌, ◌≡◌, ◌<◌, ◌≤◌, ◌≤ℤ◌, ◌↔◌, ◌++◌, ◌∷◌, [], List, length, map, replicate, IfOk, IfErr, IsOk, IsErr, OnOk, IsTrue, IsBitSet};
ghost use Rattle.ta_linear.specs.Values.{point_of};
ghost use Rattle.ta_counter.specs.Configs.{IsOf};
ghost use Rattle.ta_counter.specs.Holding.{GuardsAnswer, GuardsAre, GuardsStay};
ghost use Rattle.ta_scope.specs.Arranged.{AreRuleCounts, count_at};
ghost use Rattle.ta_replay.specs.declared.run.RunLine.{RunLine};
ghost use Rattle.ta_replay.specs.declared.run.RunLine.TheVariants.{Mark};
ghost use Rattle.ta_replay.specs.Shows.{factor_of};
ghost use Rattle.ta_compress.specs.declared.fault.CompressFault.TheVariants.{Memory};
ghost use Rattle.ta_replay.specs.Pieces.{step_line};
ghost use Rattle.ta_compress.specs.Units.{unit, unfolded};
ghost use Rattle.ta_compress.specs.Inside.Drafts.{Advances, Closes, CountsStep, DraftAt, HasFallen, LineKeeps, LineMay, DraftStops, MayRepeat, MayStep, OneMore, DraftIsReady, RepeatsRule, RepeatStops, Room, SameGuards, repeated, zeros};

use crate::fault::CompressFault;
use std::alloc::{AllocError, Global};
use ta_automaton::Automaton;
use ta_base::masks::contains;
use ta_counter::{Config, Guards, guards_at};
use ta_linear::OutOfRange;
use ta_replay::{RunFault, RunLine};
use ta_scope::ScopedFile;

/// The lines up to the last cut, and since then the configuration, the guards that hold there, and
/// how often each rule has fired.
#[derive(Drop)]
pub(crate) struct Draft {
    pub config: Config,
    pub guards: Guards,
    pub counts: Vec<i128>,
    pub lines: Vec<RunLine>,
}

impl Draft {
    /// Follows a line with a number.
    pub fn follow(
        &mut self,
        alloc: Global,
        scoped: &ScopedFile,
        line: RunLine,
        number: u64,
    ) -> Result<(), CompressFault>
        requires ready { DraftIsReady scoped.now.file.automaton self.old }
        requires may { LineMay scoped.now.file.automaton self.old line }
        ensures ready { OnOk result (DraftIsReady scoped.now.file.automaton self.new) }
        ensures goes { OnOk result ((first : List ℤ) (done : List RunLine) → DraftAt scoped.now.file.automaton first done self.old → DraftAt scoped.now.file.automaton first (done ++ unfolded (line ∷ [])) self.new) }
        ensures keeps { OnOk result (LineKeeps scoped.now.file.automaton self.old.config.values.items line) }
        ensures room { OnOk result ((more : ℕ) → Room (factor_of line + more) self.old.counts.items → Room more self.new.counts.items) }
        ensures stops { IfErr result (DraftStops scoped.now.file.automaton self.old.config.values.items line number) }
    {
        match line {
            RunLine::Step { rule, factor } => {
                self.repeat(alloc, scoped, rule, factor.unsigned_abs() as u32, number)
            }
            RunLine::Mark { event } => {
                self.mark(alloc, scoped, event)?;
                Ok(())
            }
        }
    }

    /// Fires a rule some times, one by one, on a line with a number.
    fn repeat(
        &mut self,
        alloc: Global,
        scoped: &ScopedFile,
        rule: u32,
        factor: u32,
        line: u64,
    ) -> Result<(), CompressFault>
        requires ready { DraftIsReady scoped.now.file.automaton self.old }
        requires exists { rule < length scoped.now.file.automaton.rules }
        requires may { MayRepeat scoped.now.file.automaton rule factor self.old.config.values.items }
        requires room { Room factor self.old.counts.items }
        ensures ready { OnOk result (DraftIsReady scoped.now.file.automaton self.new) }
        ensures goes { OnOk result ((first : List ℤ) (done : List RunLine) → DraftAt scoped.now.file.automaton first done self.old → DraftAt scoped.now.file.automaton first (done ++ replicate factor (unit rule)) self.new) }
        ensures stayed { OnOk result ((times : ℕ) → 1 ≤ times → times ≤ factor → GuardsStay scoped.now.file.automaton (repeated scoped.now.file.automaton rule self.old.config.values.items times)) }
        ensures room { OnOk result ((more : ℕ) → Room (factor + more) self.old.counts.items → Room more self.new.counts.items) }
        ensures stops { IfErr result (RepeatStops scoped.now.file.automaton rule factor self.old.config.values.items line) }
    {
        for _ in 0..factor {
            self.step(alloc, scoped, rule, line)?;
        }
        Ok(())
    }

    /// Fires a rule once, on a line with a number.
    fn step(
        &mut self,
        alloc: Global,
        scoped: &ScopedFile,
        rule: u32,
        line: u64,
    ) -> Result<(), CompressFault>
        requires ready { DraftIsReady scoped.now.file.automaton self.old }
        requires exists { rule < length scoped.now.file.automaton.rules }
        requires may { MayStep scoped.now.file.automaton rule self.old.config.values.items }
        requires room { Room 1 self.old.counts.items }
        ensures advances { OnOk result (Advances scoped.now.file.automaton rule self.old self.new) }
        ensures stops { IfErr result (RepeatStops scoped.now.file.automaton rule 1 self.old.config.values.items line) }
    {
        let automaton = &scoped.file.automaton;
        match next_guards(automaton, &mut self.config, rule) {
            Ok(guards) => {
                self.count(alloc, scoped, rule, guards)?;
                Ok(())
            }
            Err(_) => Err(CompressFault::Replay(RunFault::Overflow(line))),
        }
    }

    /// Counts a firing of a rule that leads to these guards, and ends the piece where they aren't
    /// the same as before. One that makes a fall guard false isn't counted but stands by itself.
    fn count(
        &mut self,
        alloc: Global,
        scoped: &ScopedFile,
        rule: u32,
        guards: Guards,
    ) -> Result<(), AllocError>
        requires exists { rule < length scoped.now.file.automaton.rules }
        requires counts { AreRuleCounts scoped.now.file.automaton self.old.counts.items }
        requires room { Room 1 self.old.counts.items }
        ensures config { self.new.config ≡ self.old.config }
        ensures guards { self.new.guards ≡ guards }
        ensures counts { OnOk result (AreRuleCounts scoped.now.file.automaton self.new.counts.items) }
        ensures counted { OnOk result ((before after : ℕ → ℤ) → GuardsAre scoped.now.file.automaton before self.old.guards → GuardsAre scoped.now.file.automaton after guards → CountsStep scoped.now.file.automaton rule before after self.old self.new) }
    {
        let before = self.guards;
        self.guards = guards;
        if is_same(before, guards) {
            count_one(&mut self.counts, rule);
            return Ok(());
        }
        if has_fallen(before.fall, guards.fall) {
            self.close(alloc, scoped)?;
            self.lines.push(RunLine::Step { rule, factor: 1 })?;
            return Ok(());
        }
        count_one(&mut self.counts, rule);
        self.close(alloc, scoped)?;
        Ok(())
    }

    /// Marks an event, which ends the piece.
    pub fn mark(&mut self, alloc: Global, scoped: &ScopedFile, event: u32) -> Result<(), AllocError>
        requires { AreRuleCounts scoped.now.file.automaton self.old.counts.items }
        ensures config { self.new.config ≡ self.old.config }
        ensures guards { self.new.guards ≡ self.old.guards }
        ensures closes { OnOk result (Closes scoped.now.file.automaton self.old.counts.items (Mark event ∷ []) self.old self.new) }
    {
        self.close(alloc, scoped)?;
        self.lines.push(RunLine::Mark { event })?;
        Ok(())
    }

    /// Adds the arranged steps of the counts, and begins to count anew.
    fn close(&mut self, alloc: Global, scoped: &ScopedFile) -> Result<(), AllocError>
        requires { AreRuleCounts scoped.now.file.automaton self.old.counts.items }
        ensures config { self.new.config ≡ self.old.config }
        ensures guards { self.new.guards ≡ self.old.guards }
        ensures closes { OnOk result (Closes scoped.now.file.automaton self.old.counts.items [] self.old self.new) }
    {
        let arranged = scoped.arrange(alloc, self.counts.as_slice())?;
        push_steps(&mut self.lines, arranged.steps.as_slice())?;
        self.counts = no_counts(alloc, &scoped.file.automaton)?;
        Ok(())
    }
}

/// Fires a rule once, where no check refuses, and evaluates all guards then.
fn next_guards(automaton: &Automaton, config: &mut Config, rule: u32) -> Result<Guards, OutOfRange>
    requires is_of { IsOf automaton.now config.old }
    requires exists { rule < length automaton.now.rules }
    requires may { MayStep automaton.now rule config.old.values.items }
    ensures is_of { IsOf automaton.now config.new }
    ensures moved { RepeatsRule automaton.now rule config.old.values.items 1 config.new.values.items }
    ensures answer { GuardsAnswer automaton.now (point_of config.new.values.items) result }
{
    match config.unit_step(automaton, rule) {
        Ok(()) => guards_at(automaton, config),
        Err(_) => Err(OutOfRange),
    }
}

/// Adds one to the count of a rule.
fn count_one(counts: &mut Vec<i128>, rule: u32)
    requires exists { rule < length counts.old.items }
    requires natural { (r : ℕ) → pos 0 ≤ℤ count_at counts.old.items r }
    requires room { Room 1 counts.old.items }
    ensures { OneMore rule counts.old.items counts.new.items }
{
    counts[rule as usize] += 1;
}

/// Whether the same guards hold.
fn is_same(before: Guards, now: Guards) -> bool
    ensures { IsTrue result ↔ SameGuards before now }
{
    before.rise == now.rise && before.fall == now.fall
}

/// Whether a number of the first mask isn't in the second.
fn has_fallen(before: u128, now: u128) -> bool
    ensures { IsTrue result ↔ HasFallen before now }
{
    for number in 0..128 {
        if contains(before, number) && !contains(now, number) {
            return true;
        }
    }
    false
}

/// Adds steps as lines.
fn push_steps(lines: &mut Vec<RunLine>, steps: &[(u32, i128)]) -> Result<(), AllocError>
    ensures { IsOk result → lines.new.items ≡ lines.old.items ++ map step_line steps.now }
{
    for (rule, factor) in steps {
        lines.push(RunLine::Step {
            rule: *rule,
            factor: *factor,
        })?;
    }
    Ok(())
}

/// A count of 0 for each rule.
pub(crate) fn no_counts(alloc: Global, automaton: &Automaton) -> Result<Vec<i128>, AllocError>
    ensures { IfOk result (λ counts. counts.items ≡ zeros automaton.now) }
{
    let mut counts = Vec::new(alloc);
    counts.resize(automaton.rules.as_slice().len(), 0)?;
    Ok(counts)
}
