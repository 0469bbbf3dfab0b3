//! Whether an automaton is within the narrow limits.
#![tactic(auto)]

ghost use Rattle.std.specs.Prelude.{◌↔◌, IsTrue};
ghost use Rattle.ta_automaton.specs.Narrow.{IsNarrow};

use crate::automaton::Automaton;

impl Automaton {
    /// Whether it is within the narrow limits, so that its tree of schemas can be walked.
    pub fn is_narrow(&self) -> bool
        ensures { IsTrue result ↔ IsNarrow self.now }
    {
        let few_places = self.parameters.as_slice().len() <= 16
            && self.shared.as_slice().len() <= 16
            && self.locations.as_slice().len() <= 32;
        let few_guards = self.rise.as_slice().len() <= 16 && self.fall.as_slice().len() <= 6;
        few_places && few_guards && self.rules.as_slice().len() <= 128
    }
}
