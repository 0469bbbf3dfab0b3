//! What plain words and values of options may be.
#![tactic(auto)]

ghost use Rattle.std.specs.Prelude.{◌≡◌, ◌≤◌, false, map, option_map, IfSome, Some};
ghost use Rattle.std.specs.Char.{is_ascii_digit};
ghost use Rattle.std.specs.List.{list_all};
ghost use Rattle.ta_program.specs.Taken.{names_seen, taken_of};
ghost use Rattle.ta_program.specs.Values.{are_same, budget_of, filled_of, file_name_of, limits_of, out_of, two_names, two_taken, wide_of};

use crate::words::{Taken, WIDE_OPTION, take_words};
use ta_base::limits::{DEFAULT_NODES, Limits, MOST_NODES};

/// The names of two files, FILE and one that belongs to it, and whether the wide limits are meant.
#[derive(Clone, Copy, Drop)]
pub(crate) struct TwoNames<'a> {
    pub file: &'a str,
    pub other: &'a str,
    pub wide: bool,
}

/// The names that words give: two plain words, and `--wide` or no option.
pub(crate) fn two_names<'a>(words: &[&'a str]) -> Option<TwoNames<'a>>
    ensures { option_map names_seen result ≡ two_names (map (λ w. w.now) words.now) }
{
    let options = [WIDE_OPTION];
    two_taken(take_words(2, &options, words)?)
}

/// The names by what was taken of the words.
fn two_taken(taken: Taken<'_>) -> Option<TwoNames<'_>>
    ensures { option_map names_seen result ≡ two_taken (taken_of taken.entry) }
{
    let file = file_name_of(taken.plain(0))?;
    let other = file_name_of(taken.plain(1))?;
    Some(TwoNames {
        file,
        other,
        wide: taken.value(0).is_some(),
    })
}

/// The limits within which FILE is read.
pub(crate) fn limits_of(is_wide: bool) -> Limits
    ensures { result ≡ limits_of is_wide }
{
    if is_wide {
        Limits::wide()
    } else {
        Limits::narrow()
    }
}

/// Whether these are the wide ones where trees are searched: only with moments on demand, since the tree
/// of schemas orders every guard.
pub(crate) fn wide_of(is_wide: bool, lazy: bool) -> Option<bool>
    ensures asked { result ≡ wide_of is_wide lazy }
    ensures narrow { IfSome result (λ wide. lazy ≡ false → wide ≡ false) }
{
    if is_wide && !lazy {
        None
    } else {
        Some(is_wide)
    }
}

/// The name of a file, which isn't empty.
pub(crate) fn file_name_of(name: &str) -> Option<&str>
    ensures { option_map (λ w. w.now) result ≡ file_name_of name.now }
{
    if name.is_empty() { None } else { Some(name) }
}

/// The name of the file OUT, where it is given: it isn't empty, and differs from that of FILE.
pub(crate) fn out_of<'a>(file: &str, out: Option<&'a str>) -> Option<Option<&'a str>>
    ensures { option_map (λ o. option_map (λ w. w.now) o) result ≡ out_of file.now (option_map (λ w. w.now) out.entry) }
{
    match out {
        None => Some(None),
        Some(name) if !name.is_empty() && name != file => Some(Some(name)),
        Some(_) => None,
    }
}

/// The name of the file OUT2, where it is given: it isn't empty, and differs from those of FILE and of
/// OUT.
pub(crate) fn filled_of<'a>(
    file: &str,
    out: Option<&str>,
    filled: Option<&'a str>,
) -> Option<Option<&'a str>>
    ensures { option_map (λ o. option_map (λ w. w.now) o) result ≡ filled_of file.now (option_map (λ w. w.now) out.entry) (option_map (λ w. w.now) filled.entry) }
{
    if are_same(out, filled) {
        None
    } else {
        out_of(file, filled)
    }
}

/// Whether two names are both given, and are the same.
fn are_same(name: Option<&str>, other: Option<&str>) -> bool
    ensures { result ≡ are_same (option_map (λ w. w.now) name.entry) (option_map (λ w. w.now) other.entry) }
{
    match (name, other) {
        (Some(name), Some(other)) => name == other,
        _ => false,
    }
}

/// The budget of nodes that is asked for: 1,000,000 where none is given.
pub(crate) fn budget_of(nodes: Option<&str>) -> Option<u64>
    ensures asked { result ≡ budget_of (option_map (λ w. w.now) nodes.entry) }
    ensures limits { IfSome result (λ n. (1 ≤ n) × (n ≤ MOST_NODES)) }
{
    match nodes {
        Some(text) => read_budget(text),
        None => Some(DEFAULT_NODES),
    }
}

/// The budget of nodes that a text is: 1 to 10 digits, with a value within the limits.
fn read_budget(text: &str) -> Option<u64>
    ensures asked { result ≡ budget_of (Some text.now) }
    ensures limits { IfSome result (λ n. (1 ≤ n) × (n ≤ MOST_NODES)) }
{
    let digits = text.as_bytes();
    if digits.is_empty() || digits.len() > 10 || !are_digits(digits) {
        return None;
    }
    match text.parse::<u64>() {
        Ok(value) if 1 <= value && value <= MOST_NODES => Some(value),
        _ => None,
    }
}

/// Whether all bytes are digits.
fn are_digits(bytes: &[u8]) -> bool
    ensures { result ≡ list_all is_ascii_digit bytes.now }
{
    bytes.iter().all(|byte| byte.is_ascii_digit())
}
