//! Lists with commas.
#![tactic(auto)]

ghost use Rattle.std.specs.Prelude.{◌≡◌, List, ℕ, MatchResult};
ghost use Rattle.ta_syntax.specs.FileGrammar.{items};
ghost use Rattle.ta_syntax.specs.Grammar.{listed};
ghost use Rattle.ta_syntax.specs.Productions.{Production, first, stands};
ghost use Rattle.ta_syntax.specs.Reading.{Halts, Took, TookSome};
ghost use Rattle.ta_syntax.specs.Stated.{unplaced};
ghost use Rattle.ta_syntax.specs.declared.tokens.Kind.{Kind};
ghost use Rattle.ta_syntax.specs.declared.tokens.Kind.TheVariants.{Fixed};

use crate::fault::FileFault;
use crate::placed::Token;
use crate::reading::{first_offset, skip};
use crate::tokens::Mark;
use std::alloc::Global;

/// What a list has, with commas between.
pub trait Item: Sized + Drop {
    ghost grammar: { Production };

    ghost spelled: { Self → List Kind };

    ghost stated: { Self → List (List ℕ) };

    /// Whether an item may begin by the first token.
    fn starts(tokens: &[Token]) -> bool
        ensures { result ≡ stands (first grammar) tokens.now };

    /// Reads an item.
    fn read(alloc: Global, tokens: &[Token], end: u32) -> Result<(Self, &[Token]), FileFault>
        ensures { MatchResult result (λ x. Took grammar (spelled x.0) (stated x.0) tokens.now x.1.now) (λ e. Halts grammar end tokens.now e) };
}

/// The error of the first token where as many items as there may be stand before it.
fn past_limit<T: Item>(tokens: &[Token], end: u32) -> FileFault
    ensures { Halts (items 0 T.grammar) end tokens.now result }
{
    let at = first_offset(tokens, end);
    if T::starts(tokens) {
        return FileFault::TooMany(at);
    }
    FileFault::Syntax(at)
}

/// Reads at least one item and at most `limit`, with commas between.
pub fn read_list<T: Item>(
    alloc: Global,
    tokens: &[Token],
    end: u32,
    limit: usize,
) -> Result<(Vec<T>, &[Token]), FileFault>
    ensures { MatchResult result (λ x. TookSome limit x.0.items (items limit T.grammar) (listed Fixed T.spelled x.0.items) (listed unplaced T.stated x.0.items) tokens.now x.1.now) (λ e. Halts (items limit T.grammar) end tokens.now e) }
{
    let mut items = Vec::new(alloc);
    let mut rest = tokens;
    'items: loop {
        if items.len() == limit {
            return Err(past_limit::<T>(rest, end));
        }
        let (item, after) = T::read(alloc, rest, end)?;
        items.push(item)?;
        let Some(after_comma) = skip(after, Mark::Comma) else {
            return Ok((items, after));
        };
        rest = after_comma;
    }
}
