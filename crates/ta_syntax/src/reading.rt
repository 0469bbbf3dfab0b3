//! Reading tokens, with one token of lookahead.
#![tactic(auto)]

ghost use Rattle.std.specs.Prelude.{◌≡◌, ℕ, MatchResult, MatchOption, false};
ghost use Rattle.ta_syntax.specs.FileGrammar.{factor, signs, sum_with, term_with};
ghost use Rattle.ta_syntax.specs.Grammar.{sign_kind};
ghost use Rattle.ta_syntax.specs.Productions.{stands};
ghost use Rattle.ta_syntax.specs.Faults.{kinds, offset_of};
ghost use Rattle.ta_syntax.specs.Reading.{BeginsWithKind, Halts, IsOther, IsUnexpected, IsUnnamed, LeadingSign, NoNumber, TookFactor, TookSum, TookTerm};

use crate::fault::FileFault;
use crate::names::{Digits, Spelled};
use crate::placed::Token;
use crate::sums::{Sign, TreeFactor, TreeSum, TreeTerm};
use crate::tokens::{Kind, Mark};
use std::alloc::Global;

/// Reads a factor. As many parentheses may be open in it as `left` says.
#[cycle(reading)]
fn read_factor(
    alloc: Global,
    tokens: &[Token],
    end: u32,
    left: u32,
) -> Result<(TreeFactor, &[Token]), FileFault>
    ensures { MatchResult result (λ x. TookFactor left x.0 tokens.now x.1.now) (λ e. Halts (factor left) end tokens.now e) }
{
    let Some(inner) = skip(tokens, Mark::Open) else {
        let (name, rest) = read_name(alloc, tokens, end)?;
        return Ok((TreeFactor::Named(name), rest));
    };
    if left == 0 {
        return Err(FileFault::TooDeep(first_offset(tokens, end)));
    }
    let (sum, after) = read_sum(alloc, inner, end, left - 1)?;
    let rest = expect(after, end, Mark::Close)?;
    Ok((TreeFactor::Nested(sum), rest))
}

/// Reads a term.
#[cycle(reading)]
fn read_term(
    alloc: Global,
    tokens: &[Token],
    end: u32,
    left: u32,
) -> Result<(TreeTerm, &[Token]), FileFault>
    ensures { MatchResult result (λ x. TookTerm left x.0 tokens.now x.1.now) (λ e. Halts (term_with (factor left)) end tokens.now e) }
{
    let at = first_offset(tokens, end);
    let Some((factor, rest)) = read_number(alloc, tokens)? else {
        let (alone, rest) = read_factor(alloc, tokens, end, left)?;
        return Ok((
            TreeTerm {
                at,
                factor: None,
                body: Some(alone),
            },
            rest,
        ));
    };
    let Some(after) = skip(rest, Mark::Star) else {
        return Ok((
            TreeTerm {
                at,
                factor: Some(factor),
                body: None,
            },
            rest,
        ));
    };
    let (body, rest) = read_factor(alloc, after, end, left)?;
    Ok((
        TreeTerm {
            at,
            factor: Some(factor),
            body: Some(body),
        },
        rest,
    ))
}

/// Reads a sum.
#[cycle(reading)]
pub fn read_sum(
    alloc: Global,
    tokens: &[Token],
    end: u32,
    left: u32,
) -> Result<(TreeSum, &[Token]), FileFault>
    ensures { MatchResult result (λ x. TookSum left x.0 tokens.now x.1.now) (λ e. Halts (sum_with (factor left)) end tokens.now e) }
{
    let (mut sign, mut rest) = leading_sign(tokens);
    let mut terms = Vec::new(alloc);
    loop {
        let (term, after) = read_term(alloc, rest, end, left)?;
        terms.push((sign, term))?;
        let Some((next, after_sign)) = next_sign(after) else {
            return Ok((TreeSum { terms }, after));
        };
        sign = next;
        rest = after_sign;
    }
}

/// Reads a name, which has to stand first.
pub fn read_name(
    alloc: Global,
    tokens: &[Token],
    end: u32,
) -> Result<(Spelled, &[Token]), FileFault>
    ensures { MatchResult result (λ x. BeginsWithKind tokens.now (Kind.Name x.0.name) x.1.now × (x.0.at ≡ offset_of end tokens.now)) (λ e. IsUnnamed end tokens.now e) }
{
    let Some((first, rest)) = tokens.split_first() else {
        return Err(FileFault::Syntax(end));
    };
    let Kind::Name(name) = &first.kind else {
        return Err(FileFault::Syntax(first.at));
    };
    let name = name.copy(alloc)?;
    Ok((Spelled { name, at: first.at }, rest))
}

/// Reads a number, where one stands first.
pub fn read_number(alloc: Global, tokens: &[Token]) -> Result<Option<(Digits, &[Token])>, FileFault>
    ensures { MatchResult result (λ found. MatchOption found (NoNumber (kinds tokens.now)) (λ x. BeginsWithKind tokens.now (Kind.Number x.0.text) x.1.now × ((end : ℕ) → x.0.at ≡ offset_of end tokens.now))) (λ e. e ≡ FileFault.Memory) }
{
    let Some((first, rest)) = tokens.split_first() else {
        return Ok(None);
    };
    let Kind::Number(text) = &first.kind else {
        return Ok(None);
    };
    let text = text.copy(alloc)?;
    Ok(Some((Digits { text, at: first.at }, rest)))
}

/// The sign before the first term, and the tokens after it.
fn leading_sign(tokens: &[Token]) -> (Sign, &[Token])
    ensures { LeadingSign tokens.now result.0 result.1.now }
{
    match skip(tokens, Mark::Minus) {
        Some(rest) => (Sign::Minus, rest),
        None => (Sign::Plus, tokens),
    }
}

/// The sign before a further term, and the tokens after it.
fn next_sign(tokens: &[Token]) -> Option<(Sign, &[Token])>
    ensures { MatchOption result (stands signs tokens.now ≡ false) (λ x. BeginsWithKind tokens.now (sign_kind x.0) x.1.now) }
{
    if let Some(rest) = skip(tokens, Mark::Plus) {
        return Some((Sign::Plus, rest));
    }
    match skip(tokens, Mark::Minus) {
        Some(rest) => Some((Sign::Minus, rest)),
        None => None,
    }
}

/// The tokens after a mark, where it stands first.
pub fn skip(tokens: &[Token], mark: Mark) -> Option<&[Token]>
    ensures { MatchOption result (IsOther tokens.now mark) (λ rest. BeginsWithKind tokens.now (Kind.Fixed mark) rest.now) }
{
    let (first, rest) = tokens.split_first()?;
    match first.kind {
        Kind::Fixed(found) if found == mark => Some(rest),
        _ => None,
    }
}

/// The tokens after a mark, which has to stand first.
pub fn expect(tokens: &[Token], end: u32, mark: Mark) -> Result<&[Token], FileFault>
    ensures { MatchResult result (λ rest. BeginsWithKind tokens.now (Kind.Fixed mark) rest.now) (λ e. IsUnexpected end tokens.now mark e) }
{
    match skip(tokens, mark) {
        Some(rest) => Ok(rest),
        None => Err(FileFault::Syntax(first_offset(tokens, end))),
    }
}

/// The offset of the first token, or the end.
pub fn first_offset(tokens: &[Token], end: u32) -> u32
    ensures { result ≡ offset_of end tokens.now }
{
    match tokens.split_first() {
        Some((first, _)) => first.at,
        None => end,
    }
}
