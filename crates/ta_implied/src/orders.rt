//! Pairs of rise guards, of which the later implies the earlier.
//!
//! Each guard has a mask of those before it. A pair may join if no chain of pairs leads from its
//! later guard to its earlier one: a mask of all guards from which a chain leads there grows until
//! it stays the same. Without such a circle the guards that rise at one moment can be put into an
//! order that keeps all pairs.
#![tactic(auto)]

ghost use Rattle.std.specs.Prelude.{ℕ, ◌≡◌, ◌↔◌, ◌≤◌, ◌<◌, ◌^◌, ◌⊎◌, [], true, IsTrue, IfErr, OnOk};
ghost use Rattle.ta_linear.specs.Leaf.{AreMultipliers};
ghost use Rattle.ta_base.specs.Masks.{In, has_bit};
ghost use Rattle.ta_implied.specs.Implied.{Good, IsPair};
ghost use Rattle.ta_implied.specs.Orders.{HasNoCircle, IsBeforeSome, JoinsPair, LeadsSome, MayJoin, with_pair};
ghost use Rattle.ta_implied.specs.Refused.{IsOrderFault};

use crate::fault::OrderFault;
use crate::system::imply_system;
use std::alloc::Global;
use std::marker::Model;
use ta_automaton::Automaton;
use ta_base::masks::contains;
use ta_farkas::check_leaf;

/// Pairs of rise guards, of which one comes before the other. Contracts see them as a list of pairs
/// (before, after), by rising number of the guard after and then of the guard before, in whatever
/// order they were pushed. No chain of them leads from a guard back to itself.
#[derive(Drop)]
pub struct Orders {
    // for each rise guard the guards before it
    masks: [u64; 64],
}

impl Model for Orders {
    ghost use Rattle.std.specs.Prelude.{ℕ, List};
    ghost use Rattle.ta_implied.specs.Orders.{AreOrderMasks, pairs_from};

    ghost Value = { List (ℕ × ℕ) };

    ghost view = { λ s. pairs_from 0 s.masks };

    ghost invariant = { λ s. AreOrderMasks s.masks };
}

impl Orders {
    /// No pairs.
    pub fn new() -> Orders
        ensures { result ≡ [] }
    {
        Orders { masks: [0; 64] }
    }

    /// The guards that come before a guard: bit j for rise guard j.
    pub fn mask(&self, guard: u32) -> u64
        ensures { (j : ℕ) → (has_bit result j ≡ true) ↔ In (j, guard) self.now }
    {
        if guard < 64 {
            self.masks[guard as usize]
        } else {
            0
        }
    }

    /// Whether there are no pairs.
    pub fn is_empty(&self) -> bool
        ensures { IsTrue result ↔ (self.now ≡ []) }
    {
        self.masks == [0; 64]
    }

    /// Whether a pair of guards may join the pairs.
    pub fn takes(&self, automaton: &Automaton, before: u32, after: u32) -> bool
        ensures { IsTrue result ↔ MayJoin automaton.now self.now (before, after) }
    {
        are_pair(automaton, before, after) && !self.has(before, after) && !self.leads(after, before)
    }

    /// Pushes a pair of guards without a leaf.
    pub fn insert(&mut self, automaton: &Automaton, before: u32, after: u32)
        requires { MayJoin automaton.now self.old (before, after) }
        ensures { self.new ≡ with_pair (before, after) self.old }
    {
        let with_it = self.masks[after as usize] | 1 << before;
        self.masks[after as usize] = with_it;
    }

    /// Pushes a pair of guards with a leaf of its system.
    pub fn push(
        &mut self,
        alloc: Global,
        automaton: &Automaton,
        before: u32,
        after: u32,
        multipliers: &[(u32, i128)],
    ) -> Result<(), OrderFault>
        requires { AreMultipliers 0 (2 ^ 32) multipliers.now }
        ensures fault { IfErr result (IsOrderFault automaton.now self.old (before, after) multipliers.now) }
        ensures kept { IfErr result (λ _. self.new ≡ self.old) }
        ensures joined { OnOk result (JoinsPair automaton.now (before, after) multipliers.now self.old self.new) }
        ensures good { Good automaton.now self.old → Good automaton.now self.new }
    {
        if !self.takes(automaton, before, after) {
            return Err(OrderFault::Pair);
        }
        let system = imply_system(alloc, automaton, before, after)?;
        if let Err(fault) = check_leaf(&system, multipliers) {
            return Err(OrderFault::Leaf(fault));
        }
        self.insert(automaton, before, after);
        Ok(())
    }

    /// No chain of the pairs leads from a guard back to itself. The function does nothing: its
    /// contract states what the type keeps.
    pub fn keep(&self)
        ensures { HasNoCircle self.now }
    {
        let _ = &self.masks;
    }

    // Whether a pair is among the pairs.
    fn has(&self, before: u32, after: u32) -> bool
        requires { before < 64 }
        ensures { IsTrue result ↔ In (before, after) self.now }
    {
        contains(u128::from(self.mask(after)), before)
    }

    // Whether a chain of pairs leads from one guard to another.
    fn leads(&self, first: u32, last: u32) -> bool
        requires { first < 64 }
        ensures { IsTrue result ↔ LeadsSome self.now first last }
    {
        contains(u128::from(self.sources(last)), first)
    }

    // The guards from which a chain of pairs leads to a guard.
    fn sources(&self, guard: u32) -> u64
        ensures { (j : ℕ) → (has_bit result j ≡ true) ↔ LeadsSome self.now j guard }
    {
        let mut found = self.mask(guard);
        loop {
            let more = self.with_sources(found);
            if more == found {
                return found;
            }
            found = more;
        }
    }

    // Some guards, with all that come before one of them.
    fn with_sources(&self, found: u64) -> u64
        ensures grown { found ≤ result }
        ensures members { (j : ℕ) → (has_bit result j ≡ true) ↔ ((has_bit found j ≡ true) ⊎ IsBeforeSome self.now found 64 j) }
    {
        let mut all = found;
        for guard in 0..64 {
            all |= self.mask_if(found, guard);
        }
        all
    }

    // The guards that come before a guard, if it is in a set.
    fn mask_if(&self, set: u64, guard: u32) -> u64
        requires { guard < 64 }
        ensures { (j : ℕ) → (has_bit result j ≡ true) ↔ ((has_bit set guard ≡ true) × In (j, guard) self.now) }
    {
        if contains(u128::from(set), guard) {
            self.mask(guard)
        } else {
            0
        }
    }
}

// Whether two numbers are those of different rise guards.
fn are_pair(automaton: &Automaton, before: u32, after: u32) -> bool
    ensures { IsTrue result ↔ IsPair automaton.now (before, after) }
{
    let guards = automaton.rise.as_slice().len();
    (before as usize) < guards && (after as usize) < guards && before != after
}
