//! What `check` and `rest-check` are asked for beside the files.
#![tactic(auto)]

/// Whether all patterns are to be proved, and whether the parameters and JSON are to be printed.
#[derive(Clone, Copy, Drop)]
pub(crate) struct ProofOptions {
    /// Status 2 in place of 0 where not all is proved.
    pub all: bool,
    /// The line of the parameters.
    pub parameters: bool,
    /// One line of JSON.
    pub json: bool,
}
