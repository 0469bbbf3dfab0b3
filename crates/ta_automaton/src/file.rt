//! Automaton files.
#![tactic(auto)]

ghost use Rattle.std.specs.Prelude.{◌+◌, length};
ghost use Rattle.ta_automaton.specs.Patterns.{PatternsShape, PatternsShape-prop};

use crate::automaton::Automaton;
use crate::pattern::Pattern;
use ta_base::List;

/// An automaton and the patterns that are to be refuted or shown.
#[derive(Drop)]
pub struct File {
    pub automaton: Automaton,
    pub patterns: List<Pattern>,
    pub ghost shape: { PatternsShape (length automaton.parameters + length automaton.shared + length automaton.locations) (length automaton.locations) patterns } by { PatternsShape-prop (length automaton.parameters + length automaton.shared + length automaton.locations) (length automaton.locations) patterns },
}
