//! Moments: positions of a run, or the two positions of one step.
#![tactic(auto)]

ghost use Rattle.std.specs.Prelude.{◌≡◌, option_copied, slice_get};
ghost use Rattle.std.specs.Option.{option_map};
ghost use Rattle.ta_moments.specs.Moments.{early, is_pair, late};
ghost use Rattle.ta_moment_tree.specs.Forms.{vector_of};
ghost use Rattle.ta_moment_tree.specs.Moments.{moment_of, moments_of};

use ta_linear::Form;

/// A moment, by its vector: a form for each rule, by number. A pair has the vectors before and after
/// its step.
#[derive(Drop)]
pub enum Moment {
    Point(Vec<Form>),
    Pair(Vec<Form>, Vec<Form>),
}

impl Moment {
    /// The vector of the first position.
    pub fn early(&self) -> &[Form]
        ensures { vector_of result.now ≡ early (moment_of self.now) }
    {
        match self {
            Moment::Point(vector) => vector.as_slice(),
            Moment::Pair(before, _) => before.as_slice(),
        }
    }

    /// The vector of the last position.
    pub fn late(&self) -> &[Form]
        ensures { vector_of result.now ≡ late (moment_of self.now) }
    {
        match self {
            Moment::Point(vector) => vector.as_slice(),
            Moment::Pair(_, after) => after.as_slice(),
        }
    }

    /// Whether it is the two positions of a step.
    pub fn is_pair(&self) -> bool
        ensures { result ≡ is_pair (moment_of self.now) }
    {
        match self {
            Moment::Point(_) => false,
            Moment::Pair(_, _) => true,
        }
    }
}

/// The moment of a number, from 0.
pub(crate) fn get_moment(moments: &[Moment], number: u32) -> Option<&Moment>
    ensures { option_map moment_of (option_copied result) ≡ slice_get (moments_of moments.now) number }
{
    moments.get(number as usize)
}
