//! The numbers that digits write.
#![tactic(auto)]

ghost use Rattle.std.specs.Prelude.{◌≡◌};
ghost use Rattle.ta_meaning.specs.Sums.{number_of};
ghost use Rattle.ta_meaning.specs.Faults.{Judges, digits_faults};

use ta_base::limits::LARGEST_NUMBER;
use ta_syntax::{Digits, FileFault};

/// The number that digits write, zeros in front included.
pub(crate) fn read_number(digits: &Digits) -> Result<u32, FileFault>
    ensures { Judges (digits_faults digits.now) (λ n. n ≡ number_of digits.now.text) result }
{
    let mut number = 0u64;
    'digits: for digit in digits.text.as_str().as_bytes() {
        number = 10 * number + u64::from(*digit - b'0');
        if number > LARGEST_NUMBER {
            return Err(FileFault::TooLarge(digits.at));
        }
    }
    Ok(number as u32)
}
