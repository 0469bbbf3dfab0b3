//! Names in a text, and what they name.
#![tactic(auto)]

ghost use Rattle.std.specs.Prelude.{◌≡◌, ◌==◌, is_some, IfOk};
ghost use Rattle.std.specs.List.{find};
ghost use Rattle.std.specs.Option.{option_map};
ghost use Rattle.ta_moments.specs.Silent.{fault_of_name, first_fault, names_in, number_among, place_named, places_named};

use crate::fault::SilentFault;
use std::alloc::{AllocError, Global};
use ta_automaton::Automaton;
use ta_base::Text;

/// The number of the first of some names that is this one.
fn number_among(name: &str, names: &[Text]) -> Option<usize>
    ensures { result ≡ number_among name.now names.now }
{
    names.iter().position(|other| other.as_str() == name)
}

/// The place of the parameter or shared variable of a name.
fn place_named(automaton: &Automaton, name: &str) -> Option<u32>
    ensures { result ≡ place_named automaton.now name.now }
{
    let parameters = automaton.parameters.as_slice();
    if let Some(number) = number_among(name, parameters) {
        return Some(number as u32);
    }
    match number_among(name, automaton.shared.as_slice()) {
        Some(number) => Some((parameters.len() + number) as u32),
        None => None,
    }
}

/// Why a name may not be silent: it is a location's, or none of the file's.
fn fault_of_name(automaton: &Automaton, name: &str) -> Option<SilentFault>
    ensures { result ≡ fault_of_name automaton.now name.now }
{
    if place_named(automaton, name).is_some() {
        return None;
    }
    if number_among(name, automaton.locations.as_slice()).is_some() {
        Some(SilentFault::WrongKind)
    } else {
        Some(SilentFault::Unknown)
    }
}

/// The error of the first name of a text that may not be silent.
pub(crate) fn first_fault(automaton: &Automaton, text: &str) -> Option<SilentFault>
    ensures { result ≡ first_fault automaton.now (names_in text.now) }
{
    match first_refused(automaton, text) {
        None => None,
        Some(name) => fault_of_name(automaton, name),
    }
}

/// The first name of a text that may not be silent.
fn first_refused<'t>(automaton: &Automaton, text: &'t str) -> Option<&'t str>
    ensures { option_map (λ name. name.now) result ≡ find (λ name. is_some (fault_of_name automaton.now name)) (names_in text.now) }
{
    text.split(',')
        .find(|name| fault_of_name(automaton, name).is_some())
}

/// The places of the names of a text, in order.
pub(crate) fn places_named(
    alloc: Global,
    automaton: &Automaton,
    text: &str,
) -> Result<Vec<u32>, AllocError>
    ensures { IfOk result (λ places. places.items ≡ places_named automaton.now (names_in text.now)) }
{
    let mut places = Vec::new(alloc);
    for name in text.split(',') {
        if let Some(place) = place_named(automaton, name) {
            places.push(place)?;
        }
    }
    Ok(places)
}
