//! Distinct names, numbered in the order in which they were declared.
#![tactic(auto)]

ghost use Rattle.std.specs.Prelude.{◌≡◌, ◌+◌, ◌-◌, ◌≤◌, ◌++◌, [], ◌∷◌, length, take, drop, slice_get, Some, OnOk};
ghost use Rattle.ta_meaning.specs.Faults.{Judges, Answers, declared_faults, used_faults};

use crate::named::check_length;
use indexmap::IndexSet;
use std::alloc::Global;
use std::marker::Model;
use ta_syntax::{FileFault, Spelled};

/// Names in the order in which they were declared, no two of them the same. A contract sees the list.
#[derive(Drop)]
pub struct NameList {
    names: IndexSet<String>,
}

impl Model for NameList {
    ghost use Rattle.std.specs.Prelude.{List, ℕ, map};
    ghost use Rattle.std.specs.String.{string_bytes};

    ghost Value = { List (List ℕ) };

    ghost view = { λ s. map string_bytes s.names.keys };
}

impl NameList {
    /// No names yet. It takes no memory.
    pub fn new(alloc: Global) -> NameList
        ensures { result ≡ [] }
    {
        NameList {
            names: IndexSet::new(alloc),
        }
    }

    /// How many names there are.
    pub fn len(&self) -> usize
        ensures { result ≡ length self.now }
    {
        self.names.len()
    }

    /// Declares a name after the others: F3 where it is there already, else F6 where it is too long.
    pub fn declare(&mut self, alloc: Global, name: &Spelled) -> Result<(), FileFault>
        ensures faults { Answers (declared_faults self.old name.now) (λ _. self.new ≡ self.old ++ name.now.name ∷ []) result }
    {
        if self.names.contains(name.name.as_str()) {
            return Err(FileFault::Duplicate(name.at));
        }
        check_length(name)?;
        let key = name.name.copy(alloc)?.into_string();
        self.names.insert(key)?;
        Ok(())
    }

    /// The number of a used name among the names from one number on and below another, counted from
    /// the first of these: F4 where the name isn't declared, F5 where it is another's.
    pub fn number_in(&self, from: u32, to: u32, name: &Spelled) -> Result<u32, FileFault>
        requires order { from ≤ to }
        requires within { to ≤ length self.now }
        ensures { Judges (used_faults self.now (take (to - from) (drop from self.now)) name.now) (λ i. slice_get (take (to - from) (drop from self.now)) i ≡ Some name.now.name) result }
    {
        let Some(number) = self.names.get_index_of(name.name.as_str()) else {
            return Err(FileFault::Unknown(name.at));
        };
        let count = self.names.len();
        prove!(number < count);
        if number < from as usize || to as usize <= number {
            return Err(FileFault::WrongKind(name.at));
        }
        Ok(number as u32 - from)
    }
}
