//! The law that each automaton has an answer.
#![tactic(auto)]

ghost use Rattle.ta_scope.specs.Answers.{ScopesHaveAnswers};

/// An automaton is in scope, or has a first rule that puts it out.
pub fn scopes_have_answers()
    ensures { ScopesHaveAnswers }
{}
