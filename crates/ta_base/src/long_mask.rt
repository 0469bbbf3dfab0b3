//! Sets of numbers below 1,024.
#![tactic(auto)]

ghost use Rattle.std.specs.Prelude.{ℕ, ◌-◌, ◌<◌, ◌^◌, ◌≡◌, ◌⊎◌, ◌↔◌, IsBitSet, IsTrue};

use crate::masks::{contains, with};
use std::marker::Model;

/// A set of numbers below 1,024. Contracts see it as a mask: bit i for number i.
#[derive(Drop)]
pub struct LongMask {
    // the bits from 128 times k on in word k
    words: [u128; 8],
}

impl Model for LongMask {
    ghost use Rattle.std.specs.Prelude.{ℕ};
    ghost use Rattle.ta_base.specs.Masks.{AreWords, words_value};

    ghost Value = { ℕ };

    ghost view = { λ s. words_value s.words };

    ghost invariant = { λ s. AreWords s.words };
}

impl LongMask {
    /// The set of no number.
    pub fn empty() -> LongMask
        ensures { result ≡ 0 }
    {
        LongMask { words: [0; 8] }
    }

    /// The set of all numbers.
    pub fn full() -> LongMask
        ensures { result ≡ 2 ^ 1024 - 1 }
    {
        LongMask {
            words: [u128::MAX; 8],
        }
    }

    /// Whether a number is in the set.
    pub fn contains(&self, number: u32) -> bool
        requires { number < 1024 }
        ensures { IsTrue result ↔ IsBitSet self.now number }
    {
        contains(self.words[(number / 128) as usize], number % 128)
    }

    /// Puts a number into the set.
    pub fn insert(&mut self, number: u32)
        requires { number < 1024 }
        ensures { (i : ℕ) → IsBitSet self.new i ↔ (IsBitSet self.old i ⊎ (i ≡ number)) }
    {
        let place = (number / 128) as usize;
        self.words[place] = with(self.words[place], number % 128);
    }
}
