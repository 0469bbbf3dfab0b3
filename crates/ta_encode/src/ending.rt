//! Rows of a word's end.
#![tactic(auto)]

ghost use Rattle.std.specs.Prelude.{OnOk};
ghost use Rattle.ta_encode.specs.Ends.{ended_rows};
ghost use Rattle.ta_encode.specs.Inside.Draft.{Adds};

use crate::draft::Draft;
use crate::line::Sense;
use std::alloc::AllocError;

/// What is asked of a word's end: which rise guards fail there, and in which locations anybody may
/// be. Bit i stands for number i.
#[derive(Clone, Copy)]
pub struct WordEnd {
    pub failing: u128,
    pub inhabited: u128,
}

impl<'a> Draft<'a> {
    /// The rows of a word's end, where anything is asked of it.
    pub(crate) fn push_end(&mut self, end: Option<WordEnd>) -> Result<(), AllocError>
        ensures { OnOk result (Adds (λ a ms. ended_rows a ms end) self.old self.new) }
    {
        match end {
            None => {}
            Some(WordEnd { failing, inhabited }) => {
                self.push_rises(failing, Sense::Negated)?;
                self.push_counters(inhabited, Sense::Opposite)?;
            }
        }
        Ok(())
    }
}
