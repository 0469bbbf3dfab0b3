//! Fractions.
#![tactic(auto)]

ghost use Rattle.std.specs.Prelude.{pos, ◌<ℤ◌};

/// A fraction with a positive denominator, which need not be in lowest terms.
#[derive(Clone, Copy, Debug)]
pub struct Fraction {
    pub top: i128,
    pub bottom: i128,
    pub ghost positive: { pos 0 <ℤ bottom },
}
