//! The sample system: parameters that meet the resilience condition and have an initial
//! configuration.
#![tactic(auto)]

ghost use Rattle.std.specs.Prelude.{◌≡◌, IfOk, length};
ghost use Rattle.ta_encode.specs.Lines.{BoundsWithin};
ghost use Rattle.ta_encode.specs.Code.{SystemAt};
ghost use Rattle.ta_encode.specs.Sample.{SamplesStart, StartsAreSampled, sample_meanings, sample_search, sampled};

use crate::draft::Draft;
use crate::encoded::Encoded;
use crate::meaning::{Bound, Meaning};
use crate::unknowns::{push_parameters, push_starts};
use std::alloc::{AllocError, Global};
use ta_automaton::{Automaton, File};

/// The sample system of a file with bounds. It has no word: its unknowns are the parameters and a
/// start count for each initial location. Only want of memory is an error: by the limits of automaton
/// files no number leaves the range.
pub fn encode_sample(alloc: Global, file: &File, bounds: &[Bound]) -> Result<Encoded, AllocError>
    requires { BoundsWithin (length (sample_meanings file.now.automaton)) bounds.now }
    ensures system { IfOk result (λ encoded. SystemAt (sample_search file.now.automaton) (sampled bounds.now) encoded.system) }
    ensures meanings { IfOk result (λ encoded. encoded.meanings ≡ sample_meanings file.now.automaton) }
{
    let automaton = &file.automaton;
    let meanings = sample_meanings(alloc, automaton)?;
    let mut draft = Draft::of(alloc, automaton, meanings);
    draft.push_condition(&automaton.resilience)?;
    draft.push_processes()?;
    let encoded = draft.encoded(bounds)?;
    Ok(encoded)
}

/// The unknowns of the sample system.
fn sample_meanings(alloc: Global, automaton: &Automaton) -> Result<Vec<Meaning>, AllocError>
    ensures { IfOk result (λ meanings. meanings.items ≡ sample_meanings automaton.now) }
{
    let mut meanings = Vec::new(alloc);
    push_parameters(automaton.parameters.as_slice().len(), &mut meanings)?;
    push_starts(automaton, 0, &mut meanings)?;
    Ok(meanings)
}

/// A solution of the sample system begins with parameters that have an initial configuration, and
/// an initial configuration gives a solution.
pub fn samples_are_real()
    ensures start { SamplesStart }
    ensures sampled { StartsAreSampled }
{}
