//! What a command answers that stages its output while it judges.
#![tactic(auto)]

use ta_base::Text;

/// The output of a command that stages it while it judges.
#[derive(Drop)]
pub enum StagedOutput<'a, T: Drop> {
    /// None is asked for.
    Unasked,
    /// The file of a name, which is staged whole.
    Staged { name: &'a str, stage: T },
    /// The shelf failed at staging the file of a name.
    Lost { name: &'a str },
}

/// A text, the number that the process ends with once it is written, and an output that is put in its
/// place behind it.
#[derive(Drop)]
pub struct StagedAnswer<'a, T: Drop> {
    pub number: u8,
    pub text: Text,
    pub output: StagedOutput<'a, T>,
}
