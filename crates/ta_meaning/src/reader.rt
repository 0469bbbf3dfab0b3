//! Reading an automaton file whole.
#![tactic(auto)]

ghost use Rattle.std.specs.Prelude.{◌≡◌, ◌≤◌, IfOk, length};
ghost use Rattle.ta_automaton.specs.Narrow.{IsWithin};
ghost use Rattle.ta_meaning.specs.Reading.{Reads, file_fault};

use crate::file::resolve;
use std::alloc::Global;
use ta_base::limits::{FILE_BYTES, Limits};
use ta_scope::{ScopeFault, ScopedFile, scope};
use ta_syntax::{FileFault, read_tree};

/// Reads an automaton file within limits: its bytes, its tokens, what it means, and its scope. Ok
/// exactly where the bytes mean a file in scope and no stage finds an error, and then the automaton
/// is within the limits; else the first error, the stages gone through in this order.
pub fn read_file(alloc: Global, bytes: &[u8], limits: &Limits) -> Result<ScopedFile, FileFault>
    requires { length bytes.now ≤ FILE_BYTES }
    ensures reads { Reads limits.now bytes.now result }
    ensures within { IfOk result (λ scoped. IsWithin limits.now scoped.file.automaton) }
{
    let tree = read_tree(alloc, bytes, limits)?;
    let file = resolve(alloc, limits, tree)?;
    match scope(alloc, file) {
        Ok(scoped) => Ok(scoped),
        Err(fault) => Err(fault_of(fault)),
    }
}

/// The error of the file that an error of scope is.
fn fault_of(fault: ScopeFault) -> FileFault
    ensures { result ≡ file_fault fault }
{
    match fault {
        ScopeFault::CycleUpdates(rule) => FileFault::CycleUpdates(rule),
        ScopeFault::Memory => FileFault::Memory,
    }
}
