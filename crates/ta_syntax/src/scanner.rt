//! Cutting a text into tokens.
#![tactic(auto)]

ghost use Rattle.std.specs.Prelude.{◌≡◌, IfOk, MatchResult, length, ◌+◌, ◌≤◌};
ghost use Rattle.std.specs.Str.{IsAscii};
ghost use Rattle.ta_syntax.specs.Tokens.{AreTokens};
ghost use Rattle.ta_syntax.specs.Inside.Tokens.{BeginsByDigit, TokenFrom, TokenStops, ScanStops};
ghost use Rattle.ta_base.specs.Bytes.{BeginsByLetter};
ghost use Rattle.ta_syntax.specs.declared.fault.FileFault.{FileFault};

use crate::fault::FileFault;
use crate::marks::{keyword, mark_at, skip_gap};
use crate::placed::Token;
use crate::tokens::Kind;
use std::alloc::{AllocError, Global};
use ta_base::Text;
use ta_base::bytes::{is_letter, word_len};
use ta_base::decimals::digits_len;
use ta_base::limits::FILE_BYTES;

/// The text of ASCII bytes.
fn ascii_text(alloc: Global, bytes: &[u8]) -> Result<Text, AllocError>
    requires { IsAscii bytes.now }
    ensures { IfOk result (λ t. t ≡ bytes.now) }
{
    let bytes = Vec::from_slice(alloc, bytes)?;
    match String::from_utf8(bytes) {
        Ok(text) => Ok(Text::from_string(text)),
        Err(_) => unreachable!(),
    }
}

/// A keyword or a name, and the bytes after it.
fn read_word(alloc: Global, bytes: &[u8]) -> Result<(Kind, &[u8]), AllocError>
    requires { BeginsByLetter bytes.now }
    ensures { IfOk result (λ x. TokenFrom bytes.now x.0 x.1.now) }
{
    let (word, rest) = bytes.split_at(word_len(bytes));
    if let Some(mark) = keyword(word) {
        return Ok((Kind::Fixed(mark), rest));
    }
    Ok((Kind::Name(ascii_text(alloc, word)?), rest))
}

/// A number, and the bytes after it.
fn read_digits(alloc: Global, bytes: &[u8]) -> Result<(Kind, &[u8]), AllocError>
    requires { BeginsByDigit bytes.now }
    ensures { IfOk result (λ x. TokenFrom bytes.now x.0 x.1.now) }
{
    let (digits, rest) = bytes.split_at(digits_len(bytes));
    Ok((Kind::Number(ascii_text(alloc, digits)?), rest))
}

/// The token that stands first, and the bytes after it.
fn read_kind(alloc: Global, bytes: &[u8], at: u32) -> Result<(Kind, &[u8]), FileFault>
    ensures { MatchResult result (λ x. TokenFrom bytes.now x.0 x.1.now) (λ e. TokenStops at bytes.now e) }
{
    let Some((first, _)) = bytes.split_first() else {
        return Err(FileFault::Byte(at));
    };
    if is_letter(*first) {
        return Ok(read_word(alloc, bytes)?);
    }
    if first.is_ascii_digit() {
        return Ok(read_digits(alloc, bytes)?);
    }
    let Some((mark, rest)) = mark_at(bytes) else {
        return Err(FileFault::Byte(at));
    };
    Ok((Kind::Fixed(mark), rest))
}

/// The tokens of a text.
pub fn scan(alloc: Global, bytes: &[u8]) -> Result<Vec<Token>, FileFault>
    requires { length bytes.now ≤ FILE_BYTES }
    ensures { MatchResult result (λ v. AreTokens bytes.now v.items) (λ e. ScanStops bytes.now e) }
{
    let mut tokens = Vec::new(alloc);
    let mut rest = bytes;
    'tokens: loop {
        let start = skip_gap(rest);
        if start.is_empty() {
            return Ok(tokens);
        }
        let at = (bytes.len() - start.len()) as u32;
        let (kind, after) = read_kind(alloc, start, at)?;
        tokens.push(Token { kind, at })?;
        rest = after;
    }
}
