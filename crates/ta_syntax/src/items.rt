//! The items of lists: names, locations, comparisons and updates.
#![tactic(auto)]

ghost use Rattle.std.specs.Prelude.{◌≡◌, MatchOption};
ghost use Rattle.ta_syntax.specs.Grammar.{name_kinds, location_kinds, update_kinds, comparison_kinds, relation_kind};
ghost use Rattle.ta_syntax.specs.PlainTrees.{plain_location, plain_update, plain_comparison};
ghost use Rattle.ta_syntax.specs.Stated.{name_stated, location_stated, update_stated, comparison_stated};
ghost use Rattle.ta_syntax.specs.FileGrammar.{a_name, comparison, location, update};
ghost use Rattle.ta_syntax.specs.Productions.{first, stands};
ghost use Rattle.ta_syntax.specs.Faults.{kinds};
ghost use Rattle.ta_syntax.specs.Reading.{BeginsWithKind, NoRelation};

use crate::fault::FileFault;
use crate::lists::Item;
use crate::names::Spelled;
use crate::placed::Token;
use crate::reading::{expect, first_offset, read_name, read_number, read_sum, skip};
use crate::relations::relation_of;
use crate::tokens::{Kind, Mark, Relation};
use crate::tree::{TreeComparison, TreeLocation, TreeUpdate};
use std::alloc::Global;

impl Item for Spelled {
    ghost grammar = { a_name };

    ghost spelled = { λ n. name_kinds n.name };

    ghost stated = { λ n. name_stated n };

    fn starts(tokens: &[Token]) -> bool {
        is_name_next(tokens)
    }

    fn read(alloc: Global, tokens: &[Token], end: u32) -> Result<(Spelled, &[Token]), FileFault> {
        let (name, rest) = read_name(alloc, tokens, end)?;
        Ok((name, rest))
    }
}

impl Item for TreeLocation {
    ghost grammar = { location };

    ghost spelled = { λ l. location_kinds (plain_location l) };

    ghost stated = { λ l. location_stated l };

    fn starts(tokens: &[Token]) -> bool {
        is_name_next(tokens)
    }

    fn read(
        alloc: Global,
        tokens: &[Token],
        end: u32,
    ) -> Result<(TreeLocation, &[Token]), FileFault> {
        let (name, rest) = read_name(alloc, tokens, end)?;
        if let Some(after) = skip(rest, Mark::Initial) {
            return Ok((
                TreeLocation {
                    name,
                    initial: true,
                },
                after,
            ));
        }
        Ok((
            TreeLocation {
                name,
                initial: false,
            },
            rest,
        ))
    }
}

impl Item for TreeUpdate {
    ghost grammar = { update };

    ghost spelled = { λ u. update_kinds (plain_update u) };

    ghost stated = { λ u. update_stated u };

    fn starts(tokens: &[Token]) -> bool {
        is_name_next(tokens)
    }

    fn read(
        alloc: Global,
        tokens: &[Token],
        end: u32,
    ) -> Result<(TreeUpdate, &[Token]), FileFault> {
        let (name, after_name) = read_name(alloc, tokens, end)?;
        let after_mark = expect(after_name, end, Mark::PlusEquals)?;
        let Some((amount, rest)) = read_number(alloc, after_mark)? else {
            return Err(FileFault::Syntax(first_offset(after_mark, end)));
        };
        Ok((TreeUpdate { name, amount }, rest))
    }
}

impl Item for TreeComparison {
    ghost grammar = { comparison };

    ghost spelled = { λ c. comparison_kinds (plain_comparison c) };

    ghost stated = { λ c. comparison_stated c };

    fn starts(tokens: &[Token]) -> bool {
        is_sum_next(tokens)
    }

    fn read(
        alloc: Global,
        tokens: &[Token],
        end: u32,
    ) -> Result<(TreeComparison, &[Token]), FileFault> {
        let at = first_offset(tokens, end);
        let (left, after_left) = read_sum(alloc, tokens, end, 32)?;
        let Some((relation, after_relation)) = next_relation(after_left) else {
            return Err(FileFault::Syntax(first_offset(after_left, end)));
        };
        let (right, rest) = read_sum(alloc, after_relation, end, 32)?;
        Ok((
            TreeComparison {
                at,
                left,
                relation,
                right,
            },
            rest,
        ))
    }
}

/// The relation that stands first, and the tokens after it.
fn next_relation(tokens: &[Token]) -> Option<(Relation, &[Token])>
    ensures { MatchOption result (NoRelation (kinds tokens.now)) (λ x. BeginsWithKind tokens.now (relation_kind x.0) x.1.now) }
{
    let Some((first, rest)) = tokens.split_first() else {
        return None;
    };
    let Kind::Fixed(mark) = first.kind else {
        return None;
    };
    let Some(relation) = relation_of(mark) else {
        return None;
    };
    Some((relation, rest))
}

/// Whether a name stands first.
fn is_name_next(tokens: &[Token]) -> bool
    ensures { result ≡ stands (first a_name) tokens.now }
{
    match tokens.split_first() {
        Some((first, _)) => matches!(first.kind, Kind::Name(_)),
        None => false,
    }
}

/// Whether a token stands first that may begin a sum.
fn is_sum_next(tokens: &[Token]) -> bool
    ensures { result ≡ stands (first comparison) tokens.now }
{
    match tokens.split_first() {
        Some((first, _)) => matches!(
            first.kind,
            Kind::Name(_) | Kind::Number(_) | Kind::Fixed(Mark::Open) | Kind::Fixed(Mark::Minus)
        ),
        None => false,
    }
}
