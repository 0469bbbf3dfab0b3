//! The unknowns and rows at the start, but for those of the fall guards.
#![tactic(auto)]

ghost use Rattle.std.specs.Prelude.{◌≡◌, IfOk};
ghost use Rattle.ta_encode.specs.Code.{AreRowsOf};
ghost use Rattle.ta_encode.specs.Inside.Draft.{IsOpen};
ghost use Rattle.ta_encode.specs.System.{open_rows};
ghost use Rattle.ta_encode.specs.Unknowns.{start_meanings};

use crate::draft::Draft;
use crate::encoded::Encoded;
use crate::unknowns::start_meanings;
use std::alloc::{AllocError, Global};
use ta_automaton::Task;

/// The system of the start without its fall guards, and what its unknowns mean.
pub fn encode_start(alloc: Global, task: Task<'_>) -> Result<Encoded, AllocError>
    ensures rows { IfOk result (λ encoded. AreRowsOf (open_rows task.entry.automaton.now task.entry.pattern.now) encoded.system.rows) }
    ensures meanings { IfOk result (λ encoded. encoded.meanings ≡ start_meanings task.entry.automaton.now task.entry.pattern.now) }
{
    let draft = Draft::begin(alloc, task)?;
    let encoded = draft.encoded(&[])?;
    Ok(encoded)
}

impl<'a> Draft<'a> {
    /// The unknowns at the start, and its rows but for those of the fall guards.
    pub(crate) fn begin(alloc: Global, task: Task<'a>) -> Result<Draft<'a>, AllocError>
        ensures { IfOk result (IsOpen task.entry.automaton.now task.entry.pattern.now) }
    {
        let Task { automaton, pattern } = task;
        let meanings = start_meanings(alloc, automaton, pattern)?;
        let mut draft = Draft::of(alloc, automaton, meanings);
        draft.push_condition(&automaton.resilience)?;
        draft.push_processes()?;
        draft.push_condition(&pattern.start)?;
        Ok(draft)
    }
}
