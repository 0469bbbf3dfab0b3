//! What may be asked at a node, by its facts.
#![tactic(auto)]

ghost use Rattle.std.specs.Prelude.{ℕ, ◌≡◌, ◌&&◌, Option, reverse};
ghost use Rattle.ta_encode.specs.Asking.{ask_node};
ghost use Rattle.ta_moments.specs.Facts.{is_open};
ghost use Rattle.ta_moments.specs.Moments.{known};
ghost use Rattle.ta_moments.specs.Searched.{exists_as, question_in};
ghost use Rattle.ta_moment_tree.specs.Trees.{asking_of};

use crate::count::moment_count;
use crate::moment_tree::MomentTree;
use crate::{is_guard, may_be_stuck};
use ta_encode::Ask;
use ta_moments::{Fact, Question, is_open};

/// The question that a node asks.
pub(crate) fn question_in(ask: Ask) -> Option<Question>
    ensures { result ≡ question_in (ask_node ask) }
{
    match ask {
        Ask::Extend => None,
        Ask::Guard(guard) => Some(Question::OfGuard(guard)),
        Ask::Order { before, after } => Some(Question::OfOrder(before, after)),
        Ask::Stuck(rule) => Some(Question::OfStuck(rule)),
    }
}

impl MomentTree<'_> {
    /// Whether a question exists at the node with these facts.
    fn exists(&self, facts: &[Fact], question: Question) -> bool
        ensures { (candidate : Option ℕ) → result ≡ exists_as self.now.task.automaton.now self.now.task.pattern.now (asking_of self.now) (known self.now.task.automaton.now self.now.task.pattern.now self.now.silent.now candidate (reverse facts.now)) question }
    {
        match question {
            Question::OfGuard(guard) => is_guard(self.task.automaton, guard),
            Question::OfOrder(one, other) => {
                one < other && (other as usize) < moment_count(self.task.pattern, facts)
            }
            Question::OfStuck(rule) => {
                self.rest && may_be_stuck(self.task.automaton, self.task.pattern, rule)
            }
        }
    }

    /// Whether a question exists at the node with these facts, and none of them answers it.
    pub(crate) fn may_be_asked(&self, facts: &[Fact], question: Question) -> bool
        ensures { (candidate : Option ℕ) → result ≡ (is_open (reverse facts.now) question && exists_as self.now.task.automaton.now self.now.task.pattern.now (asking_of self.now) (known self.now.task.automaton.now self.now.task.pattern.now self.now.silent.now candidate (reverse facts.now)) question) }
    {
        is_open(facts, question) && self.exists(facts, question)
    }
}
