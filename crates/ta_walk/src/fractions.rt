//! Fractions in lowest terms.
#![tactic(auto)]

ghost use Rattle.std.specs.Prelude.{◌≡◌, ◌<◌, ◌^◌, SomeIff};
ghost use Rattle.ta_linear.specs.Numbers.{InRange};
ghost use Rattle.ta_moments.specs.Vertices.{common_divisor, lowest_denominator, lowest_numerator, multiple_of, number_over};

use ta_linear::{gcd_natural, multiply};
use ta_simplex::Fraction;

/// The numbers in range are below this one in absolute value.
const LIMIT: u128 = 170141183460469231731687303715884105728;

/// What a fraction's numerator and denominator have in common.
fn common_divisor(value: Fraction) -> u128
    ensures value { result ≡ common_divisor (value.top, value.bottom) }
    ensures some { 0 < result }
    ensures fits { result < 2 ^ 127 }
{
    let bottom = value.bottom.unsigned_abs();
    let rest = value.top.unsigned_abs() % bottom;
    gcd_natural(bottom, rest)
}

/// The denominator of a fraction in lowest terms.
pub(crate) fn lowest_denominator(value: Fraction) -> u128
    ensures value { result ≡ lowest_denominator (value.top, value.bottom) }
    ensures some { 0 < result }
    ensures fits { result < 2 ^ 127 }
{
    let bottom = value.bottom.unsigned_abs();
    if bottom == 1 {
        return 1;
    }
    bottom / common_divisor(value)
}

/// The numerator of a fraction in lowest terms.
fn lowest_numerator(value: Fraction) -> i128
    ensures { result ≡ lowest_numerator (value.top, value.bottom) }
{
    value.top / common_divisor(value) as i128
}

/// The least common multiple of two numbers, if it is in range.
pub(crate) fn multiple_of(one: u128, other: u128) -> Option<u128>
    requires one { one < 2 ^ 127 }
    requires other { other < 2 ^ 127 }
    requires some { 0 < other }
    ensures { SomeIff result (multiple_of one other < 2 ^ 127) (multiple_of one other) }
{
    if other == 1 {
        return Some(one);
    }
    let factor = other / gcd_natural(one, other);
    match one.checked_mul(factor) {
        None => None,
        Some(product) => within(product),
    }
}

/// A number if it is in range.
fn within(number: u128) -> Option<u128>
    ensures { SomeIff result (number < 2 ^ 127) number }
{
    if number < LIMIT { Some(number) } else { None }
}

/// A fraction times a multiple of its denominator in lowest terms, if it is in range.
pub(crate) fn number_over(denominator: u128, value: Fraction) -> Option<i128>
    requires { denominator < 2 ^ 127 }
    ensures { SomeIff result (InRange (number_over denominator (value.top, value.bottom))) (number_over denominator (value.top, value.bottom)) }
{
    if value.top == 0 {
        return Some(0);
    }
    let factor = denominator / lowest_denominator(value);
    multiply(factor as i128, lowest_numerator(value))
}
