//! Laws that each text has an answer.
#![tactic(auto)]

ghost use Rattle.ta_meaning.specs.Answers.{FilesExist, TextsHaveAnswers};

/// For every row of limits: a tree without errors of meaning means a file, and each text of at most 4,194,304 bytes is a legal file or has a first error.
pub fn texts_have_answers()
    ensures files { FilesExist }
    ensures texts { TextsHaveAnswers }
{}
