//! The marks of relations.
#![tactic(auto)]

ghost use Rattle.std.specs.Prelude.{◌≡◌, MatchOption};
ghost use Rattle.ta_syntax.specs.Grammar.{relation_kind};
ghost use Rattle.ta_syntax.specs.declared.tokens.Kind.{Kind};
ghost use Rattle.ta_syntax.specs.declared.tokens.Kind.TheVariants.{Fixed};
ghost use Rattle.ta_syntax.specs.declared.tokens.Relation.{Relation};

use crate::tokens::{Mark, Relation};

/// The relation that a mark writes.
pub fn relation_of(mark: Mark) -> Option<Relation>
    ensures { MatchOption result ((r : Relation) → relation_kind r ≡ Fixed mark → ⊥) (λ r. relation_kind r ≡ Fixed mark) }
{
    match mark {
        Mark::Less => Some(Relation::Less),
        Mark::AtMost => Some(Relation::AtMost),
        Mark::Equal => Some(Relation::Equal),
        Mark::AtLeast => Some(Relation::AtLeast),
        Mark::More => Some(Relation::More),
        _ => None,
    }
}
