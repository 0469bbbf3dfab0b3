//! Systems of words.
#![tactic(auto)]

ghost use Rattle.std.specs.Prelude.{◌≡◌, IfOk, length, reverse};
ghost use Rattle.ta_words.specs.Words.{LegalWord};
ghost use Rattle.ta_encode.specs.Code.{SystemOf};
ghost use Rattle.ta_encode.specs.Inside.Draft.{AreEncoded, HasWritten};
ghost use Rattle.ta_encode.specs.Lines.{BoundsWithin};
ghost use Rattle.ta_encode.specs.Unknowns.{meanings};

use crate::draft::Draft;
use crate::meaning::{Bound, Meaning};
use crate::origin::Origin;
use crate::rows::push_bounds;
use std::alloc::{AllocError, Global};
use ta_base::List;
use ta_linear::System;
use ta_words::{NarrowTask, Word};

/// The system of a word, and what its unknowns mean.
#[derive(Drop)]
pub struct Encoded {
    pub system: System,
    pub meanings: List<Meaning>,
}

/// A complete word of a pattern and a start set, and a value for each unknown of its system.
#[derive(Drop)]
pub struct Solution {
    pub pattern: u32,
    pub start_mask: u8,
    pub word: Word,
    pub values: List<i128>,
}

/// The system of a word with bounds. Only want of memory is an error: by the limits of automaton
/// files no number leaves the range.
pub fn encode(
    alloc: Global,
    task: NarrowTask<'_>,
    start_mask: u8,
    word: &Word,
    bounds: &[Bound],
) -> Result<Encoded, AllocError>
    requires legal { LegalWord task.automaton.now task.pattern.now start_mask (reverse word.now) }
    requires bounds { BoundsWithin (length (meanings task.automaton.now task.pattern.now start_mask (reverse word.now))) bounds.now }
    ensures system { IfOk result (λ encoded. SystemOf task.entry.automaton.now task.entry.pattern.now start_mask (reverse word.now) bounds.now encoded.system) }
    ensures meanings { IfOk result (λ encoded. encoded.meanings ≡ meanings task.entry.automaton.now task.entry.pattern.now start_mask (reverse word.now)) }
{
    let origin = Origin { task, start_mask };
    let mut draft = Draft::start(alloc, &origin)?;
    draft.push_elements(&origin, word.elements())?;
    let encoded = draft.encoded(bounds)?;
    Ok(encoded)
}

impl<'a> Draft<'a> {
    /// The system of what is written, with bounds.
    pub(crate) fn encoded(self, bounds: &[Bound]) -> Result<Encoded, AllocError>
        requires bounds { BoundsWithin (length self.meanings.items) bounds.now }
        requires written { HasWritten (length self.meanings.items) self.rows.items }
        ensures { IfOk result (λ encoded. AreEncoded self.entry.meanings.items self.entry.rows.items bounds.now encoded.meanings encoded.system) }
    {
        let Draft {
            alloc,
            automaton: _,
            meanings,
            mut rows,
        } = self;
        let unknowns = meanings.len();
        push_bounds(alloc, unknowns, bounds, &mut rows)?;
        Ok(Encoded {
            system: System {
                unknowns: unknowns as u32,
                rows: List::from_vec(rows),
            },
            meanings: List::from_vec(meanings),
        })
    }
}
