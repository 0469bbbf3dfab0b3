//! Files in scope.
#![tactic(auto)]

ghost use Rattle.std.specs.Prelude.{◌≡◌, ◌≢◌, IfOk, IfErr};
ghost use Rattle.ta_automaton.specs.Runs.{InScope};
ghost use Rattle.ta_scope.specs.declared.fault.ScopeFault.TheVariants.{Memory};
ghost use Rattle.ta_scope.specs.Faults.{InScope-prop, ScopeFaultOf};

use crate::fault::ScopeFault;
use crate::judge::judge;
use std::alloc::Global;
use ta_automaton::File;

/// A file in scope: no rule that lies on a cycle has an update. A rule from a location to itself is
/// a cycle.
#[derive(Drop)]
pub struct ScopedFile {
    pub file: File,
    pub ghost in_scope: { InScope file.automaton } by { InScope-prop file.automaton },
}

impl ScopedFile {
    /// The file.
    pub fn file(&self) -> &File
        ensures { result.now ≡ self.now.file }
    {
        &self.file
    }

    /// The file again. It takes no memory.
    pub fn into_file(self) -> File
        ensures { result ≡ self.file }
    {
        self.file
    }
}

/// The file, if no rule on a cycle has an update; else the file is dropped.
pub fn scope(alloc: Global, file: File) -> Result<ScopedFile, ScopeFault>
    ensures ok { IfOk result (λ scoped. scoped.file ≡ file) }
    ensures fault { IfErr result (λ fault. ScopeFaultOf file.automaton fault) }
    ensures out_of_scope { IfErr result (λ fault. fault ≢ Memory → ¬ InScope file.automaton) }
{
    judge(alloc, &file.automaton)?;
    Ok(ScopedFile { file })
}
