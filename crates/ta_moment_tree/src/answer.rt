//! What may be answered at a node, by its facts.
#![tactic(auto)]

ghost use Rattle.std.specs.Prelude.{ℕ, ◌≡◌, ◌∷◌, [], Option, cond, length, map, nat_lt, reverse, slice_get};
ghost use Rattle.ta_moments.specs.Facts.{guards_of};
ghost use Rattle.ta_moments.specs.declared.fact.Fact.TheVariants.{Never, First, Stands, Last, Before, After, Same, Vacant, Fails};
ghost use Rattle.ta_moments.specs.Moments.{known};
ghost use Rattle.ta_moments.specs.Refutes.{answers};

use crate::count::is_pair;
use crate::has_guard;
use crate::moment_tree::MomentTree;
use ta_automaton::Automaton;
use ta_moments::{Fact, Question};

/// The answer of this number, from 0, to a question of a guard.
fn guard_answer(automaton: &Automaton, guard: u32, number: usize) -> Option<Fact>
    ensures { result ≡ slice_get (cond (nat_lt guard (length automaton.now.rise)) (Never guard ∷ First guard ∷ []) (Never guard ∷ Stands guard ∷ Last guard ∷ [])) number }
{
    let rises = (guard as usize) < automaton.rise.as_slice().len();
    match number {
        0 => Some(Fact::Never(guard)),
        1 if rises => Some(Fact::First(guard)),
        1 => Some(Fact::Stands(guard)),
        2 if !rises => Some(Fact::Last(guard)),
        _ => None,
    }
}

/// The answer of this number, from 0, to a question of the order of two moments.
fn order_answer(pairs: bool, one: u32, other: u32, number: usize) -> Option<Fact>
    ensures { result ≡ slice_get (cond pairs (Same one other ∷ Before one other ∷ After one other ∷ []) (Before one other ∷ After one other ∷ [])) number }
{
    match number {
        0 if pairs => Some(Fact::Same(one, other)),
        0 => Some(Fact::Before(one, other)),
        1 if pairs => Some(Fact::Before(one, other)),
        1 => Some(Fact::After(one, other)),
        2 if pairs => Some(Fact::After(one, other)),
        _ => None,
    }
}

/// The guard of this number, from 0, among those of a rule.
fn guard_of(automaton: &Automaton, rule: u32, number: usize) -> Option<u32>
    ensures { result ≡ slice_get (guards_of automaton.now (slice_get automaton.now.rules rule)) number }
{
    let guards = automaton.rise.as_slice().len() + automaton.fall.as_slice().len();
    let mut passed = 0;
    for guard in 0..guards {
        if has_guard(automaton, guard as u32, rule) {
            if passed == number {
                return Some(guard as u32);
            }
            passed += 1;
        }
    }
    None
}

/// The answer of this number, from 0, to a question of a rule.
fn stuck_answer(automaton: &Automaton, rule: u32, number: usize) -> Option<Fact>
    ensures { result ≡ slice_get (Vacant rule ∷ map (Fails rule) (guards_of automaton.now (slice_get automaton.now.rules rule))) number }
{
    if number == 0 {
        return Some(Fact::Vacant(rule));
    }
    match guard_of(automaton, rule, number - 1) {
        None => None,
        Some(guard) => Some(Fact::Fails(rule, guard)),
    }
}

impl MomentTree<'_> {
    /// The answer of this number, from 0, to a question at the node with these facts.
    pub(crate) fn answer_at(
        &self,
        facts: &[Fact],
        question: Question,
        number: usize,
    ) -> Option<Fact>
        ensures { (candidate : Option ℕ) → result ≡ slice_get (answers self.now.task.automaton.now (known self.now.task.automaton.now self.now.task.pattern.now self.now.silent.now candidate (reverse facts.now)) question) number }
    {
        let automaton = self.task.automaton;
        match question {
            Question::OfGuard(guard) => guard_answer(automaton, guard, number),
            Question::OfOrder(one, other) => {
                let pattern = self.task.pattern;
                let pairs = is_pair(pattern, facts, one) && is_pair(pattern, facts, other);
                order_answer(pairs, one, other, number)
            }
            Question::OfStuck(rule) => stuck_answer(automaton, rule, number),
        }
    }
}
