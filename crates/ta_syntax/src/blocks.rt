//! Rules, patterns and events, each behind its keyword.
#![tactic(auto)]

ghost use Rattle.std.specs.Prelude.{◌≡◌, List, ℕ, MatchResult};
ghost use Rattle.std.specs.Prelude.{[]};
ghost use Rattle.ta_base.specs.declared.limits.Limits.{Limits};
ghost use Rattle.ta_syntax.specs.FileGrammar.{blocks};
ghost use Rattle.ta_syntax.specs.Grammar.{each};
ghost use Rattle.ta_syntax.specs.Productions.{Production};
ghost use Rattle.ta_syntax.specs.Reading.{Halts, Took, TookUpTo, with_mark};
ghost use Rattle.ta_syntax.specs.declared.tokens.Kind.{Kind};
ghost use Rattle.ta_syntax.specs.declared.tokens.Kind.TheVariants.{Fixed};

use crate::fault::FileFault;
use crate::placed::Token;
use crate::reading::{first_offset, skip};
use crate::tokens::Mark;
use std::alloc::Global;
use ta_base::limits::Limits;

/// What stands behind a keyword any number of times.
pub trait Block: Sized + Drop {
    ghost grammar: { Limits → Production };

    ghost spelled: { Self → List Kind };

    ghost stated: { Self → List (List ℕ) };

    /// Reads a block behind its keyword.
    fn read<'t>(
        alloc: Global,
        tokens: &'t [Token],
        end: u32,
        limits: &Limits,
    ) -> Result<(Self, &'t [Token]), FileFault>
        ensures { MatchResult result (λ x. Took (grammar limits.now) (spelled x.0) (stated x.0) tokens.now x.1.now) (λ e. Halts (grammar limits.now) end tokens.now e) };
}

/// Reads blocks, each behind its keyword, at most `limit`, and each within `limits`.
pub fn read_blocks<'t, T: Block>(
    alloc: Global,
    tokens: &'t [Token],
    end: u32,
    mark: Mark,
    limit: usize,
    limits: &Limits,
) -> Result<(Vec<T>, &'t [Token]), FileFault>
    ensures { MatchResult result (λ x. TookUpTo limit x.0.items (blocks limit mark (T.grammar limits.now)) (each (with_mark (Fixed mark) T.spelled) x.0.items) (each (with_mark [] T.stated) x.0.items) tokens.now x.1.now) (λ e. Halts (blocks limit mark (T.grammar limits.now)) end tokens.now e) }
{
    let mut items = Vec::new(alloc);
    let mut rest = tokens;
    'turns: while let Some(inner) = skip(rest, mark) {
        if items.len() == limit {
            return Err(FileFault::TooMany(first_offset(rest, end)));
        }
        let (block, after) = T::read(alloc, inner, end, limits)?;
        items.push(block)?;
        rest = after;
    }
    Ok((items, rest))
}
