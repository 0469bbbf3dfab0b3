//! Which questions are answered.
#![tactic(auto)]

ghost use Rattle.std.specs.Prelude.{◌≡◌};
ghost use Rattle.ta_moments.specs.Facts.{is_open, question_of, same_question};

use crate::fact::{Fact, Question};

/// The question that a fact answers.
fn question_of(fact: Fact) -> Question
    ensures { result ≡ question_of fact }
{
    match fact {
        Fact::Never(guard) | Fact::First(guard) | Fact::Stands(guard) | Fact::Last(guard) => {
            Question::OfGuard(guard)
        }
        Fact::Before(one, other) | Fact::After(one, other) | Fact::Same(one, other) => {
            Question::OfOrder(one, other)
        }
        Fact::Vacant(rule) | Fact::Fails(rule, _) => Question::OfStuck(rule),
    }
}

/// Whether two questions are the same.
fn same_question(one: Question, other: Question) -> bool
    ensures { result ≡ same_question one other }
{
    one == other
}

/// Whether no fact answers a question.
pub fn is_open(facts: &[Fact], question: Question) -> bool
    ensures { result ≡ is_open facts.now question }
{
    for fact in facts {
        if same_question(question_of(*fact), question) {
            return false;
        }
    }
    true
}
