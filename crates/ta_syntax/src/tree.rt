//! Automaton files as trees. The types keep the widest limits of their lists.
#![tactic(auto)]

ghost use Rattle.std.specs.Prelude.{◌≤◌, length};
ghost use Rattle.ta_syntax.specs.Grammar.{IsSum};
ghost use Rattle.ta_syntax.specs.PlainSums.{plain_sum, sum_depth, IsSum-prop};

use crate::names::{Digits, Spelled};
use crate::sums::TreeSum;
use crate::tokens::Relation;
use ta_base::List;

/// Two sums and how they are compared. The offset is that of the first token.
#[derive(Drop)]
pub struct TreeComparison {
    pub at: u32,
    pub left: TreeSum,
    pub relation: Relation,
    pub right: TreeSum,
    pub ghost is_left: { IsSum (plain_sum left) } by { IsSum-prop (plain_sum left) },
    pub ghost is_right: { IsSum (plain_sum right) } by { IsSum-prop (plain_sum right) },
    pub ghost shallow_left: { sum_depth (plain_sum left) ≤ 32 },
    pub ghost shallow_right: { sum_depth (plain_sum right) ≤ 32 },
}

/// A location, and whether processes may start there.
#[derive(Drop)]
pub struct TreeLocation {
    pub name: Spelled,
    pub initial: bool,
}

/// A number that a shared variable is raised by.
#[derive(Drop)]
pub struct TreeUpdate {
    pub name: Spelled,
    pub amount: Digits,
}

/// A rule. Without a guard it is always open.
#[derive(Drop)]
pub struct TreeRule {
    pub name: Spelled,
    pub from: Spelled,
    pub to: Spelled,
    pub guards: List<TreeComparison>,
    pub updates: List<TreeUpdate>,
    pub ghost few_guards: { length guards ≤ 16 },
    pub ghost few_updates: { length updates ≤ 16 },
}

/// An event, the events after which it may come, and what holds when it comes.
#[derive(Drop)]
pub struct TreeEvent {
    pub name: Spelled,
    pub after: List<Spelled>,
    pub condition: List<TreeComparison>,
    pub ghost few_after: { length after ≤ 8 },
    pub ghost some: { 1 ≤ length condition },
    pub ghost few: { length condition ≤ 16 },
}

/// A pattern of events, what holds at its start, and the locations that stay empty.
#[derive(Drop)]
pub struct TreePattern {
    pub name: Spelled,
    pub start: List<TreeComparison>,
    pub empty: List<Spelled>,
    pub events: List<TreeEvent>,
    pub ghost few_start: { length start ≤ 16 },
    pub ghost few_empty: { length empty ≤ 128 },
    pub ghost few_events: { length events ≤ 8 },
}

/// An automaton file. `locations_at` is the offset of the keyword `locations`, and `processes_at` that of the first token of the sum of `processes`.
#[derive(Drop)]
pub struct Tree {
    pub name: Spelled,
    pub parameters: List<Spelled>,
    pub shared: List<Spelled>,
    pub locations_at: u32,
    pub locations: List<TreeLocation>,
    pub processes_at: u32,
    pub processes: TreeSum,
    pub resilience: List<TreeComparison>,
    pub rules: List<TreeRule>,
    pub patterns: List<TreePattern>,
    pub ghost few_parameters: { length parameters ≤ 32 },
    pub ghost few_shared: { length shared ≤ 64 },
    pub ghost some_locations: { 1 ≤ length locations },
    pub ghost few_locations: { length locations ≤ 128 },
    pub ghost is_processes: { IsSum (plain_sum processes) } by { IsSum-prop (plain_sum processes) },
    pub ghost shallow_processes: { sum_depth (plain_sum processes) ≤ 32 },
    pub ghost few_resilience: { length resilience ≤ 16 },
    pub ghost few_rules: { length rules ≤ 1024 },
    pub ghost few_patterns: { length patterns ≤ 64 },
}
