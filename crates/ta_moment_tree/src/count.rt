//! What the facts of a node say without its rows: how many moments and unknowns it has, and which
//! moments are pairs.
#![tactic(auto)]

ghost use Rattle.std.specs.Prelude.{ℕ, ◌+◌, ◌<◌, ◌≤◌, ◌≡◌, ◌^◌, List, Option, length, reverse, slice_get};
ghost use Rattle.ta_moments.specs.Facts.{moving_rules, sparing};
ghost use Rattle.ta_moments.specs.Moments.{Known, Vector, known, unknowns_at_first, with_fact};
ghost use Rattle.ta_moment_tree.specs.Draft.{is_plain};
ghost use Rattle.ta_automaton.specs.declared.automaton.Automaton.{Automaton};
ghost use Rattle.ta_moment_tree.specs.Counts.{is_last, is_pair_in};

use crate::{has_guard, is_moving};
use ta_automaton::{Automaton, Pattern, Task};
use ta_encode::start_count;
use ta_moments::Fact;

/// How many rules are moving.
fn moving_count(automaton: &Automaton, pattern: &Pattern) -> u32
    ensures value { result ≡ length (moving_rules automaton.now pattern.now) }
    ensures few { result ≤ 1024 }
{
    let mut count = 0;
    for rule in 0..automaton.rules.as_slice().len() {
        if is_moving(automaton, pattern, rule) {
            count += 1;
        }
    }
    count
}

/// How many moving rules don't need a guard.
fn sparing_count(automaton: &Automaton, pattern: &Pattern, guard: u32) -> u32
    ensures value { result ≡ length (sparing automaton.now pattern.now guard) }
    ensures few { result ≤ 1024 }
{
    let mut count = 0;
    for rule in 0..automaton.rules.as_slice().len() {
        if is_moving(automaton, pattern, rule) && !has_guard(automaton, guard, rule as u32) {
            count += 1;
        }
    }
    count
}

/// How many unknowns the node without facts has.
fn first_count(task: Task<'_>) -> u32
    ensures value { result ≡ unknowns_at_first task.entry.automaton.now task.entry.pattern.now }
    ensures few { result ≤ 8352 }
{
    let starts = start_count(task.automaton, task.pattern);
    let events = task.pattern.events.as_slice().len() as u32;
    starts + events * moving_count(task.automaton, task.pattern)
}

/// How many unknowns a fact adds.
fn added_count(task: Task<'_>, fact: Fact) -> u32
    ensures value { (silent : List ℕ) (end : Vector) (k : Known) → (with_fact task.entry.automaton.now task.entry.pattern.now silent end k fact).unknowns ≡ k.unknowns + result }
    ensures few { result ≤ 1024 }
{
    match fact {
        Fact::First(guard) => sparing_count(task.automaton, task.pattern, guard),
        Fact::Last(_) => moving_count(task.automaton, task.pattern),
        Fact::Never(_) | Fact::Stands(_) | Fact::Vacant(_) | Fact::Fails(_, _) => 0,
        Fact::Before(_, _) | Fact::After(_, _) | Fact::Same(_, _) => 0,
    }
}

/// How many unknowns a node has.
pub(crate) fn unknown_count(task: Task<'_>, facts: &[Fact]) -> u32
    requires { (silent : List ℕ) (candidate : Option ℕ) → (known task.automaton.now task.pattern.now silent candidate (reverse facts.now)).unknowns < 2 ^ 31 }
    ensures { (silent : List ℕ) (candidate : Option ℕ) → result ≡ (known task.entry.automaton.now task.entry.pattern.now silent candidate (reverse facts.now)).unknowns }
{
    let mut count = first_count(task);
    for fact in facts {
        count += added_count(task, *fact);
    }
    count
}

/// Whether a fact adds no moment.
fn is_plain(fact: Fact) -> bool
    ensures { result ≡ is_plain fact }
{
    !matches!(fact, Fact::First(_) | Fact::Last(_))
}

/// Whether a fact adds a pair.
fn is_last(fact: Fact) -> bool
    ensures { result ≡ is_last fact }
{
    matches!(fact, Fact::Last(_))
}

/// How many moments a node has.
pub(crate) fn moment_count(pattern: &Pattern, facts: &[Fact]) -> usize
    ensures { (a : Automaton) (silent : List ℕ) (candidate : Option ℕ) → result ≡ length (known a pattern.now silent candidate (reverse facts.now)).moments }
{
    let mut count = pattern.events.as_slice().len();
    for fact in facts {
        if !is_plain(*fact) {
            count += 1;
        }
    }
    count
}

/// Whether a moment of a node is a pair: that of a last use.
pub(crate) fn is_pair(pattern: &Pattern, facts: &[Fact], moment: u32) -> bool
    ensures { (a : Automaton) (silent : List ℕ) (candidate : Option ℕ) → result ≡ is_pair_in (slice_get (known a pattern.now silent candidate (reverse facts.now)).moments moment) }
{
    let mut count = pattern.events.as_slice().len();
    for fact in facts {
        if !is_plain(*fact) {
            if count == moment as usize {
                return is_last(*fact);
            }
            count += 1;
        }
    }
    false
}
