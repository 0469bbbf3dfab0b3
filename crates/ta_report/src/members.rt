//! The members of an object of JSON, one call for each.
//!
//! A call takes the members and gives them back with one more, so that no way out of its caller drops
//! them: what is to be proved of a way out grows with what it drops.
#![tactic(auto)]

ghost use Rattle.std.specs.Prelude.{◌≡◌, IfOk, codes};
ghost use Rattle.serde_json.specs.Data.{object, put as with_member, string};
ghost use Rattle.serde_json.specs.View.{members_view, view};
ghost use Rattle.ta_report.specs.Json.{digits_data};

use serde_json::{Map, Value, put};
use std::alloc::{AllocError, Global};

/// These members, and a value under this key.
pub(crate) fn with_value(
    alloc: Global,
    members: Map<String, Value>,
    key: &str,
    value: Value,
) -> Result<Map<String, Value>, AllocError>
    ensures { IfOk result (λ more. members_view more.entries ≡ with_member key.now (view value) (members_view members.entries)) }
{
    let mut members = members;
    put(&mut members, alloc, key, value)?;
    Ok(members)
}

/// These members, and a text under this key.
pub(crate) fn with_text(
    alloc: Global,
    members: Map<String, Value>,
    key: &str,
    text: &str,
) -> Result<Map<String, Value>, AllocError>
    ensures { IfOk result (λ more. members_view more.entries ≡ with_member key.now (string text.now) (members_view members.entries)) }
{
    let text = Value::String(String::from_str(alloc, text)?);
    with_value(alloc, members, key, text)
}

/// These members, and under this key the text of a number's digits.
pub(crate) fn with_digits(
    alloc: Global,
    members: Map<String, Value>,
    key: &str,
    number: u64,
) -> Result<Map<String, Value>, AllocError>
    ensures { IfOk result (λ more. members_view more.entries ≡ with_member key.now (digits_data number) (members_view members.entries)) }
{
    let digits = format!(in alloc; "{number}")?;
    with_value(alloc, members, key, Value::String(digits))
}

/// The object of these members and a verdict in this word.
pub(crate) fn with_verdict(
    alloc: Global,
    members: Map<String, Value>,
    word: &str,
) -> Result<Value, AllocError>
    ensures { IfOk result (λ value. view value ≡ object (with_member (codes "verdict") (string word.now) (members_view members.entries))) }
{
    let members = with_text(alloc, members, "verdict", word)?;
    Ok(Value::Object(members))
}

/// The object of these members and a list of what is said of patterns.
pub(crate) fn with_patterns(
    alloc: Global,
    members: Map<String, Value>,
    patterns: Value,
) -> Result<Value, AllocError>
    ensures { IfOk result (λ value. view value ≡ object (with_member (codes "patterns") (view patterns) (members_view members.entries))) }
{
    let members = with_value(alloc, members, "patterns", patterns)?;
    Ok(Value::Object(members))
}
