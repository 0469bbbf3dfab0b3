//! Items that have a declared name.
#![tactic(auto)]

ghost use Rattle.std.specs.Prelude.{◌≡◌, List, ℕ, map};
ghost use Rattle.ta_automaton.specs.Shape.{name_of};
ghost use Rattle.ta_automaton.specs.Patterns.{pattern_name};
ghost use Rattle.ta_meaning.specs.Faults.{Judges, where_, is_long, declared_faults};
ghost use Rattle.ta_meaning.specs.Sums.{has_name};

use ta_automaton::{Pattern, Rule};
use ta_syntax::{FileFault, Spelled};

/// What has a declared name.
pub trait Named {
    ghost named: { Self → List ℕ };

    /// Its name.
    fn name(&self) -> &str
        ensures { result.now ≡ named self.now };
}

impl Named for Rule {
    ghost named = { name_of };

    fn name(&self) -> &str {
        self.name.as_str()
    }
}

impl Named for Pattern {
    ghost named = { pattern_name };

    fn name(&self) -> &str {
        self.name.as_str()
    }
}

/// A name after those of the items before: F3 where one of them has it, else F6 where it is too long.
pub fn check_declared<T: Named>(before: &[T], name: &Spelled) -> Result<(), FileFault>
    ensures { Judges (declared_faults (map T.named before.now) name.now) (λ _. Unit {0}) result }
{
    if has_name(before, name.name.as_str()) {
        return Err(FileFault::Duplicate(name.at));
    }
    check_length(name)
}

/// F6 where a name is too long.
pub fn check_length(name: &Spelled) -> Result<(), FileFault>
    ensures { Judges (where_ (is_long name.now) (FileFault.TooLarge name.now.at)) (λ _. Unit {0}) result }
{
    if name.name.as_str().len() > 64 {
        return Err(FileFault::TooLarge(name.at));
    }
    Ok(())
}

/// Whether some item has the name.
fn has_name<T: Named>(items: &[T], name: &str) -> bool
    ensures { result ≡ has_name (map T.named items.now) name.now }
{
    items.iter().any(|item| item.name() == name)
}
