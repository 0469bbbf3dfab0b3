//! Natural numbers below 2^127 as texts.
#![tactic(auto)]

ghost use Rattle.std.specs.Prelude.{ℤ, MatchOption};
ghost use Rattle.ta_replay.specs.Reading.{IsNumber};

use ta_base::decimals::whole_decimal;

/// Numbers are below this.
const NUMBERS: u128 = 1 << 127;

/// The number that the bytes are.
pub fn read_number(bytes: &[u8]) -> Option<i128>
    ensures { MatchOption result ((value : ℤ) → IsNumber bytes.now value → ⊥) (λ value. IsNumber bytes.now value) }
{
    let value = whole_decimal(bytes, NUMBERS)?;
    Some(value as i128)
}
