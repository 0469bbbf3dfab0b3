//! What is asked of a word.
#![tactic(auto)]

ghost use Rattle.std.specs.Prelude.{◌≡◌, is_some, true};
ghost use Rattle.ta_smt.specs.WordText.{elements_of};

/// FILE, the name of a pattern, a start set, in which bit j stands for fall guard j, and the text of
/// a word's elements.
#[derive(Drop)]
pub(crate) struct WordAsked<'a> {
    pub file: &'a str,
    pub pattern: &'a str,
    pub start: u8,
    pub elements: &'a str,
    pub ghost spelled: { is_some (elements_of elements.now) ≡ true },
}
