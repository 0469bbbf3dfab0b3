//! Names that are to be silent: those of shared variables and parameters on which rest does not count.
#![tactic(auto)]

ghost use Rattle.std.specs.Prelude.{◌≡◌, IfErr, IfOk, Ok, Some, option_map};
ghost use Rattle.ta_shelf.specs.Lines.{phrase_text};
ghost use Rattle.ta_moments.specs.Silent.{silent_in};
ghost use Rattle.ta_program.specs.Inside.Found.{SilentRefused, TellsSilent};
ghost use Rattle.ta_program.specs.SilentNames.{AreSilent, names_of, silent_fault_text};

use crate::limits::FILE_NUMBER;
use std::alloc::Global;
use ta_automaton::Automaton;
use ta_base::List;
use ta_moments::{SilentFault, silent_places};
use ta_shelf::{Phrase, Refusal};
use ta_smt::are_names;

/// The names that are to be silent, where they are given: names with a comma between.
pub(crate) fn names_of(names: Option<&str>) -> Option<Option<&str>>
    ensures { option_map (λ o. option_map (λ w. w.now) o) result ≡ names_of (option_map (λ w. w.now) names.entry) }
{
    match names {
        None => Some(None),
        Some(text) if are_names(text) => Some(Some(text)),
        Some(_) => None,
    }
}

/// The places of the names that are to be silent in the file of a name.
pub(crate) fn find_silent<'a>(
    alloc: Global,
    name: &'a str,
    automaton: &Automaton,
    names: Option<&str>,
) -> Result<List<u32>, Refusal<'a>>
    ensures silent { IfOk result (AreSilent automaton.now (option_map (λ w. w.now) names.entry)) }
    ensures refusal { IfErr result (SilentRefused name.now automaton.now (option_map (λ w. w.now) names.entry)) }
{
    match names {
        None => Ok(List::from_vec(Vec::new(alloc))),
        Some(text) => places_of(alloc, name, automaton, text),
    }
}

/// The places of names that are given.
fn places_of<'a>(
    alloc: Global,
    name: &'a str,
    automaton: &Automaton,
    names: &str,
) -> Result<List<u32>, Refusal<'a>>
    ensures silent { IfOk result (λ places. silent_in automaton.now names.now ≡ Ok places) }
    ensures refusal { IfErr result (SilentRefused name.now automaton.now (Some names.now)) }
{
    match silent_places(alloc, automaton, names) {
        Ok(places) => Ok(places),
        Err(fault) => Err(refused(name, fault)),
    }
}

/// That names may not be silent, told of FILE.
fn refused<'a>(name: &'a str, fault: SilentFault) -> Refusal<'a>
    ensures { TellsSilent name.now fault result }
{
    match fault {
        SilentFault::Memory => Refusal::Memory,
        _ => Refusal::Refused {
            number: FILE_NUMBER,
            name,
            why: silent_fault_phrase(fault),
        },
    }
}

/// Why names may not be silent.
fn silent_fault_phrase(fault: SilentFault) -> Phrase
    ensures { phrase_text result ≡ silent_fault_text fault }
{
    match fault {
        SilentFault::Unknown => Phrase::Plain("F4 unknown name at offset 0"),
        SilentFault::WrongKind => Phrase::Plain("F5 wrong kind of name at offset 0"),
        SilentFault::Subtracted(guard) => Phrase::One {
            head: "F15 silent name is subtracted in guard ",
            number: u128::from(guard),
            tail: "",
        },
        SilentFault::Memory => Phrase::Plain("out of memory"),
    }
}
