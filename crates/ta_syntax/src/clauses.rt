//! Lists behind keywords, and lists that a semicolon ends.
#![tactic(auto)]

ghost use Rattle.std.specs.Prelude.{[], ◌++◌, ◌∷◌, MatchResult};
ghost use Rattle.ta_syntax.specs.FileGrammar.{a_mark, a_name, declared_list};
ghost use Rattle.ta_syntax.specs.FileGrammar as grammar;
ghost use Rattle.ta_syntax.specs.Grammar.{ended, led, listed};
ghost use Rattle.ta_syntax.specs.Productions.{both};
ghost use Rattle.ta_syntax.specs.Reading.{Halts, Took, TookSome, TookUpTo};
ghost use Rattle.ta_syntax.specs.Stated.{unplaced};
ghost use Rattle.ta_syntax.specs.declared.tokens.Kind.TheVariants.{Fixed, Name};
ghost use Rattle.ta_syntax.specs.declared.tokens.Mark.TheVariants.{Semicolon};

use crate::fault::FileFault;
use crate::lists::{Item, read_list};
use crate::names::Spelled;
use crate::placed::Token;
use crate::reading::{expect, read_name, skip};
use crate::tokens::Mark;
use std::alloc::Global;
use ta_base::List;

/// Reads a name and the mark after it.
pub fn read_name_then(
    alloc: Global,
    tokens: &[Token],
    end: u32,
    mark: Mark,
) -> Result<(Spelled, &[Token]), FileFault>
    ensures { MatchResult result (λ x. Took (both a_name (a_mark mark)) (Name x.0.name ∷ Fixed mark ∷ []) ((x.0.at ∷ []) ∷ [] ∷ []) tokens.now x.1.now) (λ e. Halts (both a_name (a_mark mark)) end tokens.now e) }
{
    let (name, after_name) = read_name(alloc, tokens, end)?;
    let rest = expect(after_name, end, mark)?;
    Ok((name, rest))
}

/// Reads a list and the semicolon after it.
pub fn read_list_end<T: Item>(
    alloc: Global,
    tokens: &[Token],
    end: u32,
    limit: usize,
) -> Result<(List<T>, &[Token]), FileFault>
    ensures { MatchResult result (λ x. TookSome limit x.0 (grammar.list_end limit T.grammar) (listed Fixed T.spelled x.0 ++ Fixed Semicolon ∷ []) (listed unplaced T.stated x.0 ++ [] ∷ []) tokens.now x.1.now) (λ e. Halts (grammar.list_end limit T.grammar) end tokens.now e) }
{
    let (items, after_list) = read_list::<T>(alloc, tokens, end, limit)?;
    let rest = expect(after_list, end, Mark::Semicolon)?;
    Ok((List::from_vec(items), rest))
}

/// Reads a list behind its keyword, where the keyword stands first.
pub fn read_led<T: Item>(
    alloc: Global,
    tokens: &[Token],
    end: u32,
    mark: Mark,
    limit: usize,
) -> Result<(List<T>, &[Token]), FileFault>
    ensures { MatchResult result (λ x. TookUpTo limit x.0 (grammar.led mark limit T.grammar) (led Fixed mark T.spelled x.0) (led unplaced mark T.stated x.0) tokens.now x.1.now) (λ e. Halts (grammar.led mark limit T.grammar) end tokens.now e) }
{
    let Some(inner) = skip(tokens, mark) else {
        return Ok((List::from_vec(Vec::new(alloc)), tokens));
    };
    let (items, rest) = read_list::<T>(alloc, inner, end, limit)?;
    Ok((List::from_vec(items), rest))
}

/// Reads a list between its keyword and a semicolon, where the keyword stands first.
pub fn read_ended<T: Item>(
    alloc: Global,
    tokens: &[Token],
    end: u32,
    mark: Mark,
    limit: usize,
) -> Result<(List<T>, &[Token]), FileFault>
    ensures { MatchResult result (λ x. TookUpTo limit x.0 (grammar.ended mark limit T.grammar) (ended Fixed mark T.spelled x.0) (ended unplaced mark T.stated x.0) tokens.now x.1.now) (λ e. Halts (grammar.ended mark limit T.grammar) end tokens.now e) }
{
    let Some(inner) = skip(tokens, mark) else {
        return Ok((List::from_vec(Vec::new(alloc)), tokens));
    };
    let (items, rest) = read_list_end::<T>(alloc, inner, end, limit)?;
    Ok((items, rest))
}

/// Reads a keyword, a list that may be absent, and a semicolon.
pub fn read_declared<T: Item>(
    alloc: Global,
    tokens: &[Token],
    end: u32,
    mark: Mark,
    limit: usize,
) -> Result<(List<T>, &[Token]), FileFault>
    ensures { MatchResult result (λ x. TookUpTo limit x.0 (declared_list mark limit T.grammar) (Fixed mark ∷ (listed Fixed T.spelled x.0 ++ Fixed Semicolon ∷ [])) ([] ∷ (listed unplaced T.stated x.0 ++ [] ∷ [])) tokens.now x.1.now) (λ e. Halts (declared_list mark limit T.grammar) end tokens.now e) }
{
    let inner = expect(tokens, end, mark)?;
    if let Some(rest) = skip(inner, Mark::Semicolon) {
        return Ok((List::from_vec(Vec::new(alloc)), rest));
    }
    let (items, rest) = read_list_end::<T>(alloc, inner, end, limit)?;
    Ok((items, rest))
}
