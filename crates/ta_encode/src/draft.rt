//! What is written of a system so far.
#![tactic(auto)]

ghost use Rattle.std.specs.Prelude.{◌^◌, ◌<◌, ◌≡◌, [], length};

use crate::meaning::Meaning;
use std::alloc::Global;
use ta_automaton::Automaton;
use ta_linear::Row;

/// The unknowns and rows of a word, as far as they are written.
#[derive(Drop)]
pub(crate) struct Draft<'a> {
    pub(crate) alloc: Global,
    pub(crate) automaton: &'a Automaton,
    pub(crate) meanings: Vec<Meaning>,
    pub(crate) rows: Vec<Row>,
    pub ghost few: { length meanings.items < 2 ^ 32 },
}

impl<'a> Draft<'a> {
    /// Unknowns without rows. It takes no memory.
    pub(crate) fn of(alloc: Global, automaton: &'a Automaton, meanings: Vec<Meaning>) -> Draft<'a>
        requires few { length meanings.items < 2 ^ 32 }
        ensures automaton { result.automaton.now ≡ automaton.now }
        ensures meanings { result.meanings.items ≡ meanings.items }
        ensures rows { result.rows.items ≡ [] }
    {
        Draft {
            alloc,
            automaton,
            meanings,
            rows: Vec::new(alloc),
        }
    }
}
