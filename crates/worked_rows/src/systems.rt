//! Rows of words: their systems, their children and the rules that they allow.
#![tactic(auto)]

ghost use Rattle.std.specs.Prelude.{IfSome, IsTrue, reverse};
ghost use Rattle.ta_encode.specs.Lines.{BoundWithin};
ghost use Rattle.ta_words.specs.Words.{LegalWord};

use crate::backs::say_cells;
use crate::beside::Beside;
use crate::describing::say_rows;
use crate::given::Given;
use crate::table::cut;
use crate::walks::has_words;
use std::alloc::AllocError;
use ta_automaton::File;
use ta_encode::{Bound, Encoded, Meaning, Side, encode, unknown_count};
use ta_implied::Orders;
use ta_linear::System;
use ta_simplex::{End, SolveFault, solve};
use ta_words::{Element, NarrowTask, Word, allowed_rules, children, is_complete};

/// Writes what a row of a word of pattern 0 gives.
pub fn of_word(given: &mut Given, file: &File, what: &str, rest: &str) -> Result<(), AllocError> {
    let (mask, rest) = cut(rest);
    let start_mask = mask.parse::<u8>().unwrap_or(0);
    if !has_words(file) {
        return given.end("no word of pattern 0");
    }
    let task = NarrowTask::of(file, 0);
    match word_of(task, start_mask, rest) {
        Some(word) => of_task(given, task, start_mask, &word, what, rest),
        None => given.end("no word of pattern 0"),
    }
}

/// The word of the elements that words name, where each is a child of those before it.
fn word_of(task: NarrowTask<'_>, start_mask: u8, rest: &str) -> Option<Word>
    ensures { IfSome result (λ word. LegalWord task.entry.automaton.now task.entry.pattern.now start_mask (reverse word)) }
{
    let orders = Orders::new();
    let mut word = Word::new();
    for name in rest.split(" ") {
        if let Some(element) = element_of(name) {
            if !word.push(task, start_mask, &orders, element) {
                return None;
            }
        }
    }
    Some(word)
}

/// The element that a word names: `e0` is an event, `r0` a rise and `f0` a fall.
fn element_of(name: &str) -> Option<Element> {
    let number = name.get(1..)?.parse::<u32>().ok()?;
    if name.starts_with("e") {
        Some(Element::Event(number))
    } else if name.starts_with("r") {
        Some(Element::Rise(number))
    } else if name.starts_with("f") {
        Some(Element::Fall(u8::try_from(number).ok()?))
    } else {
        None
    }
}

fn of_task(
    given: &mut Given,
    task: NarrowTask<'_>,
    start_mask: u8,
    word: &Word,
    what: &str,
    rest: &str,
) -> Result<(), AllocError>
    requires { LegalWord task.automaton.now task.pattern.now start_mask (reverse word.now) }
{
    match what {
        "following" => following(given, task, start_mask, word),
        "bounded" => return bounded(given, task, start_mask, word, rest),
        _ => {
            let encoded = encode(given.alloc, task, start_mask, word, &[])?;
            of_system(given, &encoded, what, rest);
        }
    }
    Ok(())
}

fn of_system(given: &mut Given, encoded: &Encoded, what: &str, rest: &str) {
    let system = &encoded.system;
    if what == "system" {
        describe(given, encoded);
    } else if system.unknowns >= 100 || system.row_count() >= 100 {
        given.say("no small system");
    } else if what == "solve" {
        say_end(given, solve::<Beside>(given.alloc, system));
    } else {
        let (row, rest) = cut(rest);
        say_cells(given, system, number_of(row), number_of(cut(rest).0));
    }
}

/// The system of a word with two bounds: an unknown is at most a floor, and another one more than a
/// floor.
fn bounded(
    given: &mut Given,
    task: NarrowTask<'_>,
    start_mask: u8,
    word: &Word,
    rest: &str,
) -> Result<(), AllocError>
    requires { LegalWord task.automaton.now task.pattern.now start_mask (reverse word.now) }
{
    let (low, rest) = cut(rest);
    let low = bound_of(low, "<=", Side::Low);
    let high = bound_of(cut(rest).0, ">", Side::High);
    let count = unknown_count(task, start_mask, word.elements());
    if is_bound(&low, count) && is_bound(&high, count) {
        let bounds = [low, high];
        let encoded = encode(given.alloc, task, start_mask, word, &bounds)?;
        describe(given, &encoded);
    } else {
        given.say("no such bounds");
    }
    Ok(())
}

/// Whether a bound is one of so many unknowns.
fn is_bound(bound: &Bound, count: u32) -> bool
    ensures { IsTrue result → BoundWithin count bound.now }
{
    bound.unknown < count && bound.floor >= 0 && bound.floor <= i128::MAX / 2
}

/// The bound that a word names, of an unknown and a floor.
fn bound_of(word: &str, sign: &str, side: Side) -> Bound {
    let (unknown, floor) = word.split_once(sign).unwrap_or((word, ""));
    Bound {
        unknown: number_of(unknown),
        floor: floor.parse::<i128>().unwrap_or(-1),
        side,
    }
}

/// The number of a row or an unknown.
fn number_of(word: &str) -> u32 {
    word.parse::<u32>().unwrap_or(u32::MAX)
}

/// What the solver says of a system: the rows with their multipliers, or the values of a vertex, or the
/// pivot at which numbers left 128 bits.
fn say_end(given: &mut Given, end: Result<End, SolveFault>) {
    match end {
        Ok(End::Refuted(multipliers)) => {
            given.say("refuted");
            given.pairs(":", multipliers.as_slice());
        }
        Ok(End::Vertex(values)) => {
            given.say("vertex");
            for value in values.as_slice() {
                given.number(" ", value.top);
                given.number("/", value.bottom);
            }
        }
        Err(SolveFault::Overflow(pivot)) => given.number("overflow ", pivot),
        Err(SolveFault::Memory) => given.note(Err(AllocError)),
    }
}

/// The meanings of the unknowns of a system, and its rows, a line each.
fn describe(given: &mut Given, encoded: &Encoded) {
    let mut before = "";
    for meaning in encoded.meanings.as_slice() {
        given.say(before);
        say_unknown(given, *meaning);
        before = ", ";
    }
    say_rows(given, "\n", encoded.system.rows.as_slice());
}

fn say_unknown(given: &mut Given, meaning: Meaning) {
    match meaning {
        Meaning::Parameter(number) => given.number("parameter ", number),
        Meaning::Start(location) => given.number("start ", location),
        Meaning::Count { element, rule } => {
            given.number("count ", element);
            given.number(" ", rule);
        }
        Meaning::Single { element, rule } => {
            given.number("single ", element);
            given.number(" ", rule);
        }
    }
}

/// The children of a word, the mask of the rules that it allows, and whether it is complete.
fn following(given: &mut Given, task: NarrowTask<'_>, start_mask: u8, word: &Word)
    requires { LegalWord task.automaton.now task.pattern.now start_mask (reverse word.now) }
{
    given.say("children");
    for child in children(task, start_mask, &Orders::new(), word.elements()).elements() {
        match *child {
            Element::Event(event) => given.number(" e", event),
            Element::Rise(guard) => given.number(" r", guard),
            Element::Fall(guard) => given.number(" f", guard),
        }
    }
    given.number("\nrules ", allowed_rules(task, start_mask, word));
    if is_complete(task, word.elements()) {
        given.say("\ncomplete");
    }
}
