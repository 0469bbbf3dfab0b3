//! Names and numbers of a text, with their offsets.
#![tactic(auto)]

ghost use Rattle.ta_syntax.specs.Kinds.{IsNameText, IsNameText-prop, IsDigits, IsDigits-prop};

use ta_base::Text;

/// A name and the offset of its first byte.
#[derive(Drop)]
pub struct Spelled {
    pub name: Text,
    pub at: u32,
    pub ghost legal: { IsNameText name } by { IsNameText-prop name },
}

/// A number's digits and the offset of the first.
#[derive(Drop)]
pub struct Digits {
    pub text: Text,
    pub at: u32,
    pub ghost legal: { IsDigits text } by { IsDigits-prop text },
}
