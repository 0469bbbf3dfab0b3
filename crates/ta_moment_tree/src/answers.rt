//! What may be answered at a node.
#![tactic(auto)]

ghost use Rattle.std.specs.Prelude.{ℕ, ◌≡◌, ◌∷◌, [], IfOk, cond, map, nat_lt, length, option_copied, slice_get, List, Option, Some};
ghost use Rattle.std.specs.Option.{option_map};
ghost use Rattle.ta_moments.specs.Facts.{guards_of};
ghost use Rattle.ta_moments.specs.declared.fact.Fact.{Fact};
ghost use Rattle.ta_moments.specs.declared.fact.Fact.TheVariants.{Never, First, Stands, Last, Before, After, Same, Vacant, Fails};
ghost use Rattle.ta_moments.specs.Moments.{Known, known};
ghost use Rattle.ta_moments.specs.Refutes.{Asking, answers, are_pairs};
ghost use Rattle.ta_moments.specs.Searched.{answers_if_open, asking_node, moment_search, start_of};
ghost use Rattle.ta_moments.specs.Searched.{Maker};
ghost use Rattle.ta_encode.specs.Search.{asked};
ghost use Rattle.ta_moment_tree.specs.Moments.{moment_of, moments_of};
ghost use Rattle.ta_moment_tree.specs.Nodes.{IsNode};

use crate::encoding::MomentEncoding;
use crate::moment::{Moment, get_moment};
use crate::plan::has_guard;
use std::alloc::{AllocError, Global};
use ta_automaton::Automaton;
use ta_base::List;
use ta_moments::{Fact, Question, is_open};

/// The answers of a question of a guard.
fn guard_answers(alloc: Global, automaton: &Automaton, guard: u32) -> Result<Vec<Fact>, AllocError>
    ensures { IfOk result (λ facts. facts.items ≡ cond (nat_lt guard (length automaton.now.rise)) (Never guard ∷ First guard ∷ []) (Never guard ∷ Stands guard ∷ Last guard ∷ [])) }
{
    let mut facts = Vec::new(alloc);
    facts.push(Fact::Never(guard))?;
    if (guard as usize) < automaton.rise.as_slice().len() {
        facts.push(Fact::First(guard))?;
        return Ok(facts);
    }
    facts.push(Fact::Stands(guard))?;
    facts.push(Fact::Last(guard))?;
    Ok(facts)
}

/// Whether two moments are pairs.
fn are_pairs(one: Option<&Moment>, other: Option<&Moment>) -> bool
    ensures { result ≡ are_pairs (option_map moment_of (option_copied one.entry)) (option_map moment_of (option_copied other.entry)) }
{
    match (one, other) {
        (Some(x), Some(y)) => x.is_pair() && y.is_pair(),
        _ => false,
    }
}

/// The answers of a question of the order of two moments.
fn order_answers(
    alloc: Global,
    moments: &[Moment],
    one: u32,
    other: u32,
) -> Result<Vec<Fact>, AllocError>
    ensures { IfOk result (λ facts. facts.items ≡ cond (are_pairs (slice_get (moments_of moments.now) one) (slice_get (moments_of moments.now) other)) (Same one other ∷ Before one other ∷ After one other ∷ []) (Before one other ∷ After one other ∷ [])) }
{
    let mut facts = Vec::new(alloc);
    if are_pairs(get_moment(moments, one), get_moment(moments, other)) {
        facts.push(Fact::Same(one, other))?;
        facts.push(Fact::Before(one, other))?;
        facts.push(Fact::After(one, other))?;
        return Ok(facts);
    }
    facts.push(Fact::Before(one, other))?;
    facts.push(Fact::After(one, other))?;
    Ok(facts)
}

/// The answers of a question of a rule.
fn stuck_answers(alloc: Global, automaton: &Automaton, rule: u32) -> Result<Vec<Fact>, AllocError>
    ensures { IfOk result (λ facts. facts.items ≡ Vacant rule ∷ map (Fails rule) (guards_of automaton.now (slice_get automaton.now.rules rule))) }
{
    let guards = automaton.rise.as_slice().len() + automaton.fall.as_slice().len();
    let mut facts = Vec::new(alloc);
    facts.push(Fact::Vacant(rule))?;
    for guard in 0..guards {
        if has_guard(automaton, guard as u32, rule) {
            facts.push(Fact::Fails(rule, guard as u32))?;
        }
    }
    Ok(facts)
}

/// The answers of a question at a node.
fn all_answers(
    alloc: Global,
    automaton: &Automaton,
    moments: &[Moment],
    question: Question,
) -> Result<Vec<Fact>, AllocError>
    ensures { IfOk result (λ facts. (k : Known) → k.moments ≡ moments_of moments.now → facts.items ≡ answers automaton.now k question) }
{
    match question {
        Question::OfGuard(guard) => guard_answers(alloc, automaton, guard),
        Question::OfOrder(one, other) => order_answers(alloc, moments, one, other),
        Question::OfStuck(rule) => stuck_answers(alloc, automaton, rule),
    }
}

impl MomentEncoding<'_> {
    /// The answers of a question at the node, in order. Only want of memory is an error.
    pub fn answers(&self, alloc: Global, question: Question) -> Result<List<Fact>, AllocError>
        ensures { IfOk result (λ facts. (silent : List ℕ) (candidate : Option ℕ) (past : List Fact) → IsNode silent candidate past self.now → facts ≡ answers self.now.plan.task.automaton.now (known self.now.plan.task.automaton.now self.now.plan.task.pattern.now silent candidate past) question) }
    {
        let moments = self.draft.moments.as_slice();
        let facts = all_answers(alloc, self.plan.task.automaton, moments, question)?;
        Ok(List::from_vec(facts))
    }

    /// The answers of a question in order, where it exists at the node and none of its facts, the
    /// newest first, answers it; none else. Only want of memory is an error.
    pub fn answers_if_open(
        &self,
        alloc: Global,
        facts: &[Fact],
        rest: bool,
        question: Question,
    ) -> Result<Option<List<Fact>>, AllocError>
        ensures node { IfOk result (λ found. (asking : Asking) (candidate : Option ℕ) → asking.rest ≡ rest → IsNode asking.silent candidate facts.now self.now → found ≡ answers_if_open self.now.plan.task.automaton.now self.now.plan.task.pattern.now asking (known self.now.plan.task.automaton.now self.now.plan.task.pattern.now asking.silent candidate facts.now) facts.now (Some question)) }
        ensures search { IfOk result (λ found. (asking : Asking) (maker : Maker) (candidate : Option ℕ) → asking.rest ≡ rest → IsNode asking.silent candidate facts.now self.now → found ≡ asked (moment_search self.now.plan.task.automaton.now self.now.plan.task.pattern.now asking maker) (start_of candidate) facts.now (asking_node question)) }
    {
        if !(is_open(facts, question) && self.question_exists(rest, question)) {
            return Ok(None);
        }
        let answers = self.answers(alloc, question)?;
        Ok(Some(answers))
    }
}
