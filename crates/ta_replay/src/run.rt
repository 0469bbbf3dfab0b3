//! Runs.
#![tactic(auto)]

use ta_base::List;

/// A line of a run: a rule that fires as often as the factor says, or an event that is marked at the
/// moment that the steps so far lead to.
#[derive(Clone, Copy, Debug, Drop, PartialEq, Eq)]
pub enum RunLine {
    Step { rule: u32, factor: i128 },
    Mark { event: u32 },
}

/// A run that is to show a pattern: the values of the parameters, the counts of processes at the
/// initial locations in file order, and what happens, line by line.
#[derive(Drop)]
pub struct Run {
    pub pattern: u32,
    pub parameters: List<i128>,
    pub counts: List<i128>,
    pub lines: List<RunLine>,
}

/// What a run that shows its pattern is made of: the sum of its factors (2^64 - 1 where it is
/// larger) and the number of its marks.
#[derive(Clone, Copy, Debug, Drop, PartialEq, Eq)]
pub struct Shown {
    pub steps: u64,
    pub marks: u32,
}
