//! The rows of an element behind those of others.
//!
//! At the end of every element the counters are natural, and the fall guards that have not fallen
//! hold; a Rise adds that its guard holds, an Event its condition. A Fall has two groups of rows:
//! before its single step its guards hold, behind it they are false.
#![tactic(auto)]

ghost use Rattle.std.specs.Prelude.{ℕ, ◌==◌, ◌≡◌, ◌<◌, ◌++◌, OnOk, map, not, slice_get};
ghost use Rattle.ta_base.specs.Masks.{has_bit};
ghost use Rattle.ta_encode.specs.Inside.Draft.{Adds};
ghost use Rattle.ta_encode.specs.Inside.Lines.{SmallEvents, counters_outside};
ghost use Rattle.ta_encode.specs.System.{event_rows, guard_rows, negated};

use crate::draft::Draft;
use crate::line::Sense;
use std::alloc::AllocError;
use ta_automaton::Pattern;

/// The set of one number below 128.
fn only(number: u32) -> u128
    ensures { (k : ℕ) → k < 128 → has_bit result k ≡ (k == number) }
{
    if number < 128 { 1 << number } else { 0 }
}

impl<'a> Draft<'a> {
    /// The rows of a rise guard at its end; `fallen` are the fall guards that have fallen.
    pub(crate) fn push_rise(
        &mut self,
        empty: u128,
        fallen: u128,
        rise: u32,
    ) -> Result<(), AllocError>
        ensures { OnOk result (Adds (λ a ms. counters_outside a ms empty
            ++ (guard_rows a ms (λ k. k == rise) 0 a.rise
            ++ guard_rows a ms (λ j. not (has_bit fallen j)) 0 a.fall)) self.old self.new) }
    {
        self.push_counters(empty, Sense::Plain)?;
        self.push_rises(only(rise), Sense::Plain)?;
        self.push_standing(fallen)?;
        Ok(())
    }

    /// The rows of the fall guards that have not fallen.
    fn push_standing(&mut self, fallen: u128) -> Result<(), AllocError>
        ensures { OnOk result (Adds (λ a ms. guard_rows a ms (λ j. not (has_bit fallen j)) 0 a.fall) self.old self.new) }
    {
        self.push_falls(!fallen, Sense::Plain)?;
        Ok(())
    }

    /// The rows of an event at its end.
    pub(crate) fn push_event(
        &mut self,
        pattern: &Pattern,
        fallen: u128,
        event: u32,
    ) -> Result<(), AllocError>
        requires small { SmallEvents pattern.now }
        ensures { OnOk result (Adds (λ a ms. counters_outside a ms pattern.now.empty
            ++ (event_rows a ms (slice_get pattern.now.events event)
            ++ guard_rows a ms (λ j. not (has_bit fallen j)) 0 a.fall)) self.old self.new) }
    {
        self.push_counters(pattern.empty, Sense::Plain)?;
        self.push_happening(pattern, event)?;
        self.push_standing(fallen)?;
        Ok(())
    }

    /// The rows of an event's condition.
    fn push_happening(&mut self, pattern: &Pattern, event: u32) -> Result<(), AllocError>
        requires small { SmallEvents pattern.now }
        ensures { OnOk result (Adds (λ a ms. event_rows a ms (slice_get pattern.now.events event)) self.old self.new) }
    {
        match pattern.events.as_slice().get(event as usize) {
            None => {}
            Some(event) => self.push_condition(&event.condition)?,
        }
        Ok(())
    }

    /// The rows of a Fall at the moment before its Singles.
    pub(crate) fn push_falling(&mut self, empty: u128, falls: u8) -> Result<(), AllocError>
        ensures { OnOk result (Adds (λ a ms. counters_outside a ms empty ++ guard_rows a ms (has_bit falls) 0 a.fall) self.old self.new) }
    {
        self.push_counters(empty, Sense::Plain)?;
        self.push_falls(u128::from(falls), Sense::Plain)?;
        Ok(())
    }

    /// The rows of a Fall at its end; `fallen` are the fall guards that have fallen by then.
    pub(crate) fn push_fallen(
        &mut self,
        empty: u128,
        falls: u8,
        fallen: u128,
    ) -> Result<(), AllocError>
        ensures { OnOk result (Adds (λ a ms. counters_outside a ms empty
            ++ (map negated (guard_rows a ms (has_bit falls) 0 a.fall)
            ++ guard_rows a ms (λ j. not (has_bit fallen j)) 0 a.fall)) self.old self.new) }
    {
        self.push_counters(empty, Sense::Plain)?;
        self.push_falls(u128::from(falls), Sense::Negated)?;
        self.push_standing(fallen)?;
        Ok(())
    }
}
