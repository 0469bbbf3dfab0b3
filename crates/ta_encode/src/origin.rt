//! Where schemas begin: a pattern and a start set.
#![tactic(auto)]

use ta_words::NarrowTask;

/// A pattern and a start set.
#[derive(Clone, Copy)]
pub(crate) struct Origin<'a> {
    pub(crate) task: NarrowTask<'a>,
    pub(crate) start_mask: u8,
}
