//! Rows of certificates' lines.
#![tactic(auto)]

use crate::given::Given;
use ta_cert::{CertFault, Line, Node, Reader};

/// The lines of a text, a word or two each, or its first error. It is read in pieces of several sizes,
/// which have to agree.
pub fn lines(given: &mut Given, text: &str) {
    say_lines(given, text, 1000);
    for size in [1, 2, 3, 7] {
        let mut other = Given::new(given.alloc);
        say_lines(&mut other, text, size);
        if !given.is_same(&other, "by ", size) {
            return;
        }
    }
}

fn say_lines(given: &mut Given, text: &str, size: usize) {
    let mut shown = Given::new(given.alloc);
    let mut reader = Reader::new(given.alloc, 1_048_576);
    let fed = feed(&mut reader, &mut shown, text.as_bytes(), size);
    match fed.and(reader.finish()) {
        Ok(()) => given.add(&shown),
        Err(fault) => given.value(&fault),
    }
}

/// Reads a text in pieces of a size, and shows its lines.
fn feed(reader: &mut Reader, shown: &mut Given, text: &[u8], size: usize) -> Result<(), CertFault> {
    for piece in text.chunks(size.max(1)) {
        for (number, line) in reader.feed(piece)?.as_slice() {
            shown.number("", *number);
            show(shown, line);
            shown.say(", ");
        }
    }
    Ok(())
}

/// Writes a line in other words than a certificate's.
fn show(shown: &mut Given, line: &Line) {
    match line {
        Line::Header(version) => shown.number(" header ", *version),
        Line::Pattern(pattern) => shown.number(" pattern ", *pattern),
        Line::Tree(Node::Extend) => shown.say(" extend"),
        Line::Tree(Node::Split { unknown, floor }) => {
            shown.number(" split ", *unknown);
            shown.number(" at ", *floor);
        }
        Line::Tree(Node::Leaf(pairs)) => {
            shown.say(" leaf");
            shown.pairs("*", pairs.as_slice());
        }
        Line::Tree(Node::Guard(guard)) => shown.number(" guard ", *guard),
        Line::Tree(Node::Order { before, after }) => {
            shown.number(" order ", *before);
            shown.number(" ", *after);
        }
        Line::Tree(Node::Stuck(rule)) => shown.number(" stuck ", *rule),
        Line::End => shown.say(" end"),
    }
}
