//! Whole numbers in decimal.
#![tactic(auto)]

ghost use Rattle.std.specs.Prelude.{◌≡◌, ◌<◌, ◌^◌, ◌++◌, MatchOption, OnOk, SomeIff, decimal};
ghost use Rattle.std.specs.Char.{is_ascii_digit};
ghost use Rattle.std.specs.List.{list_all, prefix_len};
ghost use Rattle.std.specs.Str.Parse.{AllDigits, digits_value};
ghost use Rattle.ta_base.specs.Decimals.{DecimalAt, DigitsAt, IsDecimal, NoDecimal, NoDecimalAt, is_padded};

use std::alloc::{AllocError, Global};

/// How many digits stand first.
pub fn digits_len(bytes: &[u8]) -> usize
    ensures { result ≡ prefix_len is_ascii_digit bytes.now }
{
    bytes
        .iter()
        .take_while(|byte| byte.is_ascii_digit())
        .count()
}

/// Whether all bytes are digits.
pub fn are_digits(bytes: &[u8]) -> bool
    ensures { result ≡ list_all is_ascii_digit bytes.now }
{
    bytes.iter().all(|byte| byte.is_ascii_digit())
}

/// The digits that stand first, and the bytes after them.
fn split_digits(bytes: &[u8]) -> (&[u8], &[u8])
    ensures { DigitsAt bytes.now result.0.now result.1.now }
{
    bytes.split_at(digits_len(bytes))
}

/// The number that digits write, zeros in front included, where it fits.
pub fn value_of_digits(digits: &[u8]) -> Option<u128>
    requires { AllDigits 10 digits.now }
    ensures { SomeIff result (digits_value 10 digits.now < 2 ^ 128) (digits_value 10 digits.now) }
{
    let mut value: u128 = 0;
    for digit in digits {
        value = value
            .checked_mul(10)?
            .checked_add(u128::from(*digit - b'0'))?;
    }
    Some(value)
}

/// Whether digits are none, or begin with a zero that they don't need.
fn is_padded(digits: &[u8]) -> bool
    ensures { result ≡ is_padded digits.now }
{
    match digits {
        [] => true,
        [b'0', _, ..] => true,
        _ => false,
    }
}

/// The number below the limit that stands first, and the bytes after its digits.
pub fn read_decimal(bytes: &[u8], limit: u128) -> Option<(u128, &[u8])>
    ensures { MatchOption result (NoDecimalAt limit bytes.now) (λ x. DecimalAt limit bytes.now x.0 x.1.now) }
{
    let (digits, rest) = split_digits(bytes);
    if is_padded(digits) {
        return None;
    }
    let value = value_of_digits(digits)?;
    if value < limit {
        Some((value, rest))
    } else {
        None
    }
}

/// The number below the limit that the bytes are.
pub fn whole_decimal(bytes: &[u8], limit: u128) -> Option<u128>
    ensures { MatchOption result (NoDecimal limit bytes.now) (λ n. IsDecimal limit bytes.now n) }
{
    let (value, rest) = read_decimal(bytes, limit)?;
    if rest.is_empty() { Some(value) } else { None }
}

/// Writes a number behind a text.
pub fn push_decimal(alloc: Global, text: &mut Vec<u8>, number: u32) -> Result<(), AllocError>
    ensures { OnOk result (text.new.items ≡ text.old.items ++ decimal number) }
{
    let mut digits = String::new(alloc);
    write!(&mut digits, "{}", number)?;
    text.extend_from_slice(digits.as_bytes())
}
