//! The command `count`.
#![tactic(auto)]

ghost use Rattle.std.specs.Prelude.{◌≡◌, ◌++◌, OnOk, length, string_bytes};
ghost use Rattle.ta_program.specs.Count.{count_line, count_text, most_events};

use crate::one_file::OfOneFile;
use std::alloc::{AllocError, Global};
use ta_automaton::{File, Pattern};
use ta_base::limits::{Limits, MOST_EVENTS};
use ta_base::{List, Text};
use ta_scope::ScopedFile;

/// Prints how much of each limit of its lists a file uses.
#[derive(Drop)]
pub(crate) struct Count;

impl OfOneFile for Count {
    ghost use Rattle.ta_program.specs.Count.{IsCount};

    ghost text = { IsCount };

    fn write_text(alloc: Global, scoped: &ScopedFile, limits: &Limits) -> Result<Text, AllocError> {
        let mut text = String::new(alloc);
        push_counts(&scoped.file, limits, &mut text)?;
        Ok(Text::from_string(text))
    }
}

/// Appends the lines of a file that was read within these limits.
fn push_counts(file: &File, limits: &Limits, text: &mut String) -> Result<(), AllocError>
    ensures { OnOk result (string_bytes text.new ≡ string_bytes text.old ++ count_text limits.now file.now) }
{
    let automaton = &file.automaton;
    push_length("parameters", &automaton.parameters, limits.parameters, text)?;
    push_length("shared", &automaton.shared, limits.shared, text)?;
    push_length("locations", &automaton.locations, limits.locations, text)?;
    push_length("rules", &automaton.rules, limits.rules, text)?;
    push_length("rise guards", &automaton.rise, limits.rises, text)?;
    push_length("fall guards", &automaton.fall, limits.falls, text)?;
    push_length("patterns", &file.patterns, limits.patterns, text)?;
    let events = most_events(file.patterns.as_slice());
    push_line("events", events, MOST_EVENTS, text)?;
    Ok(())
}

/// Appends the line of the limit of a list.
fn push_length<T>(
    word: &str,
    items: &List<T>,
    limit: usize,
    text: &mut String,
) -> Result<(), AllocError>
    ensures { OnOk result (string_bytes text.new ≡ string_bytes text.old ++ count_line (word.now, length items.now, limit)) }
{
    push_line(word, items.as_slice().len(), limit, text)
}

/// Appends the line of a limit: what it limits, how many of these there are, and the limit.
fn push_line(word: &str, number: usize, limit: usize, text: &mut String) -> Result<(), AllocError>
    ensures { OnOk result (string_bytes text.new ≡ string_bytes text.old ++ count_line (word.now, number, limit)) }
{
    write!(text, "{} {} of {}\n", word, number, limit)
}

/// How many events the pattern has that has the most.
fn most_events(patterns: &[Pattern]) -> usize
    ensures { result ≡ most_events patterns.now }
{
    let mut most = 0;
    for pattern in patterns {
        most = most.max(pattern.events.as_slice().len());
    }
    most
}
