//! A pattern beside its automaton.
#![tactic(auto)]

ghost use Rattle.std.specs.Prelude.{◌+◌, ◌≡◌, ◌<◌, Some, length, slice_get};
ghost use Rattle.ta_automaton.specs.Patterns.{PatternOver, PatternWithin-prop};

use crate::automaton::Automaton;
use crate::file::File;
use crate::pattern::Pattern;

/// A pattern, and the automaton that it is of.
#[derive(Clone, Copy)]
pub struct Task<'a> {
    pub automaton: &'a Automaton,
    pub pattern: &'a Pattern,
    pub ghost over: { PatternOver automaton.now pattern.now } by { PatternWithin-prop (length automaton.now.parameters + length automaton.now.shared + length automaton.now.locations) (length automaton.now.locations) pattern.now },
}

impl<'a> Task<'a> {
    /// The pattern of this number, from 0, in a file.
    pub fn of(file: &'a File, number: u32) -> Task<'a>
        requires { number < length file.now.patterns }
        ensures automaton { result.automaton.now ≡ file.now.automaton }
        ensures pattern { slice_get file.now.patterns number ≡ Some result.pattern.now }
    {
        let pattern = &file.patterns.as_slice()[number as usize];
        Task {
            automaton: &file.automaton,
            pattern,
        }
    }
}
