//! Unknowns and bounds.
#![tactic(auto)]

/// What an unknown of a word's system stands for.
#[derive(Clone, Copy, PartialEq, Eq)]
pub enum Meaning {
    /// The value of a parameter.
    Parameter(u32),
    /// How many processes begin in a location.
    Start(u32),
    /// How often a rule fires before an element of the word, numbered from 0.
    Count { element: u32, rule: u32 },
    /// 1 if a rule is the single step of a Fall, else 0.
    Single { element: u32, rule: u32 },
}

/// Which side of a split a bound keeps.
#[derive(Clone, Copy)]
pub enum Side {
    /// At most the floor.
    Low,
    /// More than the floor.
    High,
}

/// A bound of an unknown, by its number in the system: at most `floor`, or at least `floor + 1`.
#[derive(Clone, Copy)]
pub struct Bound {
    pub unknown: u32,
    pub floor: i128,
    pub side: Side,
}
