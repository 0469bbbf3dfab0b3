//! Which files have runs that all reach a deadlock.
#![tactic(auto)]

ghost use Rattle.std.specs.Prelude.{IfOk, IfErr};
ghost use Rattle.ta_scope.specs.LongerCycles.{LoopsAlone};
ghost use Rattle.ta_rest.specs.Faults.{EndingsOf, RestFaultOf};

use crate::endings::{endings_of, without_events};
use crate::fault::RestFault;
use crate::rest_file::RestFile;
use std::alloc::{AllocError, Global};
use ta_automaton::File;
use ta_base::List;
use ta_scope::{ScopedFile, first_longer_cycle};

/// The file with the endings of its patterns, if every cycle of its rules is a self-loop; else the
/// file is dropped.
pub fn rest_scope(alloc: Global, scoped: ScopedFile) -> Result<RestFile, RestFault>
    ensures ok { IfOk result (λ rest. EndingsOf scoped.file rest.ending.file rest.added) }
    ensures fault { IfErr result (λ fault. RestFaultOf scoped.file.automaton fault) }
{
    match first_longer_cycle(alloc, &scoped.file().automaton)? {
        Some(number) => Err(RestFault::Cycle(number)),
        None => Ok(with_endings(alloc, scoped)?),
    }
}

/// The file with the endings of its patterns.
fn with_endings(alloc: Global, scoped: ScopedFile) -> Result<RestFile, AllocError>
    requires { LoopsAlone scoped.file.automaton }
    ensures { IfOk result (λ rest. EndingsOf scoped.file rest.ending.file rest.added) }
{
    let added = without_events(scoped.file().patterns.as_slice());
    let file = scoped.into_file();
    let endings = endings_of(alloc, file.patterns.into_vec())?;
    let ending = ScopedFile {
        file: File {
            automaton: file.automaton,
            patterns: List::from_vec(endings),
        },
    };
    Ok(RestFile { ending, added })
}
