//! Rows of trees: the first errors of texts, their cuts, their lists, and what is printed of them.
#![tactic(auto)]

use crate::given::Given;
use std::alloc::{AllocError, Global};
use ta_base::limits::{FILE_BYTES, Limits};
use ta_syntax::{FileFault, Tree, print_then_read, print_tree, read_tree};

/// The first error of a text as a tree within these limits.
fn fault_of(alloc: Global, bytes: &[u8], limits: &Limits) -> Option<FileFault> {
    if bytes.len() > FILE_BYTES {
        return Some(FileFault::Memory);
    }
    read_tree(alloc, bytes, limits).err()
}

/// The first error of a text as a tree, or `a tree`.
pub fn fault(given: &mut Given, text: &str) {
    match fault_of(given.alloc, text.as_bytes(), &Limits::narrow()) {
        Some(fault) => given.value(&fault),
        None => given.say("a tree"),
    }
}

/// What is printed of a text, and again of what is read of that, which has to be the same.
pub fn printed(given: &mut Given, text: &str) {
    let bytes = text.as_bytes();
    if bytes.len() > FILE_BYTES {
        return given.say("too long");
    }
    match read_tree(given.alloc, bytes, &Limits::narrow()) {
        Ok(tree) => print_twice(given, &tree),
        Err(fault) => given.value(&fault),
    }
}

fn print_twice(given: &mut Given, tree: &Tree) {
    match print_tree(given.alloc, tree) {
        Ok(text) if text.as_str().len() <= FILE_BYTES => {
            given.say(text.as_str());
            print_again(given, print_then_read(given.alloc, tree, &Limits::narrow()));
        }
        _ => given.say("not printed"),
    }
}

fn print_again(given: &mut Given, read: Result<Tree, FileFault>) {
    let printed = match read {
        Ok(same) => print_tree(given.alloc, &same),
        Err(_) => Err(AllocError),
    };
    match printed {
        Ok(text) if text.as_str() == given.as_str() => {}
        _ => given.say("\nand not the same again"),
    }
}

/// Where a text with so many items behind it, and with one more, has a list that is past its limit in
/// a row of limits.
/// Between ` | ` stand how many, the item, and the text.
pub fn limit(given: &mut Given, rest: &str, limits: &Limits) {
    let (count, rest) = rest.split_once(" | ").unwrap_or((rest, ""));
    let (item, front) = rest.split_once(" | ").unwrap_or((rest, ""));
    let mut text = Given::new(given.alloc);
    text.say(front);
    for _ in 0..count.parse::<u16>().unwrap_or(0) {
        text.say(item);
    }
    given.value(&past_limit(&text, limits));
    text.say(item);
    given.say(" ");
    given.value(&past_limit(&text, limits));
}

fn past_limit(text: &Given, limits: &Limits) -> Option<u32> {
    match fault_of(text.alloc, text.as_str().as_bytes(), limits) {
        Some(FileFault::TooMany(at)) => Some(at),
        _ => None,
    }
}

/// The lengths at which a text can't be cut: behind `resilience ..;`, a rule or a pattern it is a
/// tree, and anywhere else there is a syntax error; behind a space, at its end; and where it ends
/// with ` =`, a wrong byte.
pub fn cuts(given: &mut Given, text: &str) {
    given.say("as they should");
    let bytes = text.as_bytes();
    for length in 0..bytes.len() + 1 {
        let cut = &bytes[..length];
        if !is_right(cut, fault_of(given.alloc, cut, &Limits::narrow())) {
            given.number(", but at ", length);
        }
    }
}

fn is_right(cut: &[u8], fault: Option<FileFault>) -> bool {
    let end = cut.len();
    if may_end(cut) {
        fault.is_none()
    } else if cut.last() == Some(&b' ') {
        matches!(fault, Some(FileFault::Syntax(at)) if at as usize == end)
    } else if cut.ends_with(b" =") {
        matches!(fault, Some(FileFault::Byte(at)) if at as usize == end.saturating_sub(1))
    } else {
        matches!(fault, Some(FileFault::Syntax(_)))
    }
}

/// Whether a file may end there.
fn may_end(text: &[u8]) -> bool {
    let mut semicolons = 0;
    let mut open = false;
    let mut ends = false;
    for byte in text {
        match *byte {
            b'{' => open = true,
            b'}' => {
                open = false;
                ends = true;
            }
            b';' => {
                if semicolons < 6 {
                    semicolons += 1;
                }
                ends = semicolons >= 6 && !open;
            }
            b' ' => {}
            _ => ends = false,
        }
    }
    ends
}
