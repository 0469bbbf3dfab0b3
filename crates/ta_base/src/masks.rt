//! Masks: bit i stands for number i.
#![tactic(auto)]

ghost use Rattle.std.specs.Prelude.{ℕ, ◌<◌, ◌≤◌, ◌^◌, ◌≡◌, ◌==◌, ◌↔◌, not, ◌||◌, IsBitSet, IsTrue};
ghost use Rattle.ta_base.specs.Masks.{all_below, has_bit, implies};

/// Whether a number is in a set.
pub fn contains(mask: u128, number: u32) -> bool
    requires { number < 128 }
    ensures tells { IsTrue result ↔ IsBitSet mask number }
    ensures bit { result ≡ has_bit mask number }
{
    mask & (1 << number) != 0
}

/// The set with a number; numbers from 128 on are left out.
pub fn with(mask: u128, number: u32) -> u128
    ensures { (i : ℕ) → i < 128 → has_bit result i ≡ ((number == i) || has_bit mask i) }
{
    if number < 128 {
        mask | (1 << number)
    } else {
        mask
    }
}

/// The numbers of either set.
pub fn union(mask: u128, other: u128) -> u128
    ensures { (i : ℕ) → has_bit result i ≡ (has_bit other i || has_bit mask i) }
{
    mask | other
}

/// Whether each number of a set is in another.
pub fn is_subset(part: u128, whole: u128) -> bool
    ensures { (n : ℕ) → part < 2 ^ n → result ≡ all_below n (λ i. implies (has_bit part i) (has_bit whole i)) }
{
    part & whole == part
}

/// Whether two sets have no number in common.
pub fn is_disjoint(part: u128, other: u128) -> bool
    ensures { (n : ℕ) → part < 2 ^ n → result ≡ all_below n (λ i. implies (has_bit part i) (not (has_bit other i))) }
{
    part & other == 0
}
