//! The trees of questions of a pattern.
#![tactic(auto)]

ghost use Rattle.std.specs.Prelude.{ℕ, ◌≡◌, ◌<◌, ◌↔◌, length, List};
ghost use Rattle.ta_automaton.specs.Numbered.{OfPattern};
ghost use Rattle.ta_moments.specs.declared.fact.Fact.{Fact};
ghost use Rattle.ta_moments.specs.Searched.{candidate_of, moment_search};
ghost use Rattle.ta_moment_tree.specs.Kept.{IsKept, IsKeptAt};
ghost use Rattle.ta_moment_tree.specs.Makers.{moment_maker};
ghost use Rattle.ta_moment_tree.specs.Trees.{IsAt, IsKeptFor, asking_of, search_of_moments};
ghost use Rattle.ta_moment_tree.specs.declared.kept.MomentKept.{MomentKept};

use ta_automaton::{File, Task};

/// The nodes of a pattern's trees of questions, and their systems: a tree for each candidate.
#[derive(Clone, Copy)]
pub struct MomentTree<'a> {
    /// The pattern's number, from 0, in its file.
    pub number: u32,
    pub(crate) task: Task<'a>,
    /// Whether it is asked what keeps rules from firing.
    pub rest: bool,
    /// The places that don't count there.
    pub silent: &'a [u32],
}

impl<'a> MomentTree<'a> {
    /// The trees of the pattern of this number, from 0. At rest it is asked of rules too, with these
    /// silent places.
    pub fn new(file: &'a File, number: u32, rest: bool, silent: &'a [u32]) -> MomentTree<'a>
        requires { number < length file.now.patterns }
        ensures number { result.number ≡ number }
        ensures asking { asking_of result ≡ record { rest = rest; silent = silent.now } }
        ensures search { OfPattern file.now number (λ p. search_of_moments result ≡ moment_search file.now.automaton p (asking_of result) (moment_maker file.now.automaton p (asking_of result))) }
        ensures kept { OfPattern file.now number (λ p. (kept : MomentKept) → IsKeptFor result kept ↔ IsKept file.now.automaton p silent.now kept) }
        ensures at { OfPattern file.now number (λ p. (start : ℕ) (past : List Fact) (kept : MomentKept) → IsAt result start past kept ↔ IsKeptAt file.now.automaton p silent.now (candidate_of start) past kept) }
    {
        let task = Task::of(file, number);
        MomentTree {
            number,
            task,
            rest,
            silent,
        }
    }
}
