//! The words of a line.
#![tactic(auto)]

ghost use Rattle.std.specs.Prelude.{ℕ, ℤ, List, MatchOption};
ghost use Rattle.ta_replay.specs.TextFaults.{IsNamedLine, IsValued};

use crate::numbers::read_number;
use ta_base::bytes::{after, is_word, split_at_byte};

/// The name in a line of this word and a name.
pub fn read_named<'a>(word: &[u8], line: &'a [u8]) -> Option<&'a [u8]>
    ensures { MatchOption result ((name : List ℕ) → IsNamedLine word.now line.now name → ⊥) (λ name. IsNamedLine word.now line.now name.now) }
{
    let name = after(line, word)?;
    if is_word(name) { Some(name) } else { None }
}

/// The name and the number in a line of this word, a name and a number.
pub fn read_valued<'a>(word: &[u8], line: &'a [u8]) -> Option<(&'a [u8], i128)>
    ensures { MatchOption result ((name : List ℕ) (value : ℤ) → IsValued word.now line.now name value → ⊥) (λ x. IsValued word.now line.now x.0.now x.1) }
{
    let rest = after(line, word)?;
    let (name, digits) = split_at_byte(rest, b' ')?;
    if !is_word(name) {
        return None;
    }
    let value = read_number(digits)?;
    Some((name, value))
}
