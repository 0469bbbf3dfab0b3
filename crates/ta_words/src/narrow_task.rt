//! A pattern of a narrow automaton.
#![tactic(auto)]

ghost use Rattle.std.specs.Prelude.{◌+◌, ◌≡◌, ◌<◌, Some, length, slice_get};
ghost use Rattle.ta_automaton.specs.Narrow.{IsNarrow, IsNarrow-prop};
ghost use Rattle.ta_automaton.specs.Patterns.{PatternOver, PatternWithin-prop};

use ta_automaton::{Automaton, File, Pattern, Task};

/// A pattern, and the automaton that it is of, which is within the narrow limits.
#[derive(Clone, Copy)]
pub struct NarrowTask<'a> {
    pub automaton: &'a Automaton,
    pub pattern: &'a Pattern,
    pub ghost over: { PatternOver automaton.now pattern.now } by { PatternWithin-prop (length automaton.now.parameters + length automaton.now.shared + length automaton.now.locations) (length automaton.now.locations) pattern.now },
    pub ghost narrow: { IsNarrow automaton.now } by { IsNarrow-prop automaton.now },
}

impl<'a> NarrowTask<'a> {
    /// The pattern of this number, from 0, in a file.
    pub fn of(file: &'a File, number: u32) -> NarrowTask<'a>
        requires number { number < length file.now.patterns }
        requires narrow { IsNarrow file.now.automaton }
        ensures automaton { result.automaton.now ≡ file.now.automaton }
        ensures pattern { slice_get file.now.patterns number ≡ Some result.pattern.now }
    {
        let task = Task::of(file, number);
        NarrowTask {
            automaton: task.automaton,
            pattern: task.pattern,
        }
    }
}
