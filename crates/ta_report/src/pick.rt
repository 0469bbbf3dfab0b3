//! Which patterns of a file are meant.
#![tactic(auto)]

ghost use Rattle.std.specs.Prelude.{◌≡◌};
ghost use Rattle.ta_report.specs.Picked.{picked};

use std::slice::from_ref;
use ta_automaton::Pattern;

/// All patterns of a file, or one.
#[derive(Clone, Copy)]
pub enum Pick {
    /// All, in the order of the file.
    All,
    /// The one with this number, from 0.
    One(u32),
}

impl Pick {
    /// Those of a file's patterns that are meant: none where there is none with the number.
    pub fn of(self, patterns: &[Pattern]) -> &[Pattern]
        ensures { result.now ≡ picked self patterns.now }
    {
        match self {
            Pick::All => patterns,
            Pick::One(number) => match patterns.get(number as usize) {
                Some(pattern) => from_ref(pattern),
                None => &[],
            },
        }
    }
}
