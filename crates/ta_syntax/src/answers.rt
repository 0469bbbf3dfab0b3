//! Laws that each text has an answer.
#![tactic(auto)]

ghost use Rattle.ta_syntax.specs.AnswerLaws.{TreesAreWithin, TreesExist, LimitsAgree, TextsHaveTokens, TextsHaveTrees, TokensHaveAnswers};

/// Each text has tokens, or a first refused byte.
pub fn texts_have_tokens()
    ensures { TextsHaveTokens }
{}

/// Tokens are a text of the grammar within the limits, or leave one of the two at a first token.
pub fn tokens_have_answers()
    ensures answers { TokensHaveAnswers }
    ensures limits { LimitsAgree }
{}

/// A text of the grammar within the limits has a tree, and each text has one or a first error. Each tree is within the wide limits.
pub fn texts_have_trees()
    ensures exist { TreesExist }
    ensures within { TreesAreWithin }
    ensures texts { TextsHaveTrees }
{}
