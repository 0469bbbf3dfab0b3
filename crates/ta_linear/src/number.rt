//! Sums, products and quotients that stay within the range.
#![tactic(auto)]

ghost use Rattle.std.specs.Prelude.{◌+ℤ◌, ◌-ℤ◌, ◌*ℤ◌, ◌<ℤ◌, ◌≤ℤ◌, ◌<◌, ◌^◌, pos, unsigned_abs};
ghost use Rattle.std.specs.Option.{SomeIff};
ghost use Rattle.ta_linear.specs.Numbers.{InRange};
ghost use Rattle.std.specs.Int.{IsGcd};

/// The sum, or `None` exactly where it leaves the range.
pub fn plus(a: i128, b: i128) -> Option<i128>
    ensures { SomeIff result (InRange (a +ℤ b)) (a +ℤ b) }
{
    if let Ok(x) = i64::try_from(a) {
        if let Ok(y) = i64::try_from(b) {
            return Some(x as i128 + y as i128);
        }
    }
    match a.checked_add(b) {
        Some(i128::MIN) => None,
        other => other,
    }
}

/// The difference, or `None` exactly where it leaves the range.
pub fn minus(a: i128, b: i128) -> Option<i128>
    ensures { SomeIff result (InRange (a -ℤ b)) (a -ℤ b) }
{
    if let Ok(x) = i64::try_from(a) {
        if let Ok(y) = i64::try_from(b) {
            return Some(x as i128 - y as i128);
        }
    }
    match a.checked_sub(b) {
        Some(i128::MIN) => None,
        other => other,
    }
}

/// The product, or `None` exactly where it leaves the range.
pub fn multiply(a: i128, b: i128) -> Option<i128>
    ensures { SomeIff result (InRange (a *ℤ b)) (a *ℤ b) }
{
    if let Ok(x) = i64::try_from(a) {
        if let Ok(y) = i64::try_from(b) {
            return Some(x as i128 * y as i128);
        }
    }
    match a.checked_mul(b) {
        Some(i128::MIN) => None,
        other => other,
    }
}

/// The sum of a number and a product, or `None` exactly where the product or the sum leaves the
/// range.
pub fn plus_product(sum: i128, factor: i128, number: i128) -> Option<i128>
    ensures { let product = factor *ℤ number in
        SomeIff result (InRange product × InRange (sum +ℤ product)) (sum +ℤ product) }
{
    plus(sum, multiply(factor, number)?)
}

/// The greatest common divisor; 0 for 0 and 0.
pub fn gcd(a: i128, b: i128) -> i128
    requires a { InRange a }
    requires b { InRange b }
    ensures value { IsGcd (unsigned_abs a) (unsigned_abs b) (unsigned_abs result) }
    ensures natural { pos 0 ≤ℤ result }
    ensures fits { InRange result }
{
    gcd_natural(a.unsigned_abs(), b.unsigned_abs()) as i128
}

/// The greatest common divisor of natural numbers below 2^127; 0 for 0 and 0.
pub fn gcd_natural(a: u128, b: u128) -> u128
    requires a { a < 2 ^ 127 }
    requires b { b < 2 ^ 127 }
    ensures value { IsGcd a b result }
    ensures fits { result < 2 ^ 127 }
{
    let mut x = a;
    let mut y = b;
    while y != 0 {
        let rest = x % y;
        x = y;
        y = rest;
    }
    x
}

/// The quotient, rounded down.
pub fn floor_div(a: i128, b: i128) -> i128
    requires { pos 0 <ℤ b }
    ensures low { (result *ℤ b) ≤ℤ a }
    ensures high { a <ℤ ((result +ℤ pos 1) *ℤ b) }
    ensures fits { InRange a → InRange result }
{
    a.div_euclid(b)
}
