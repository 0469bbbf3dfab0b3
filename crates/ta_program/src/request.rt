//! Commands that words ask for.
#![tactic(auto)]

use ta_shelf::{Command, StagingCommand};

/// A command of the program: one that words ask for, of which the first is its name.
pub(crate) trait Request<'a>: Command + Drop + Sized {
    ghost use Rattle.std.specs.Prelude.{List, ℕ, map};
    ghost use Rattle.ta_program.specs.Asked.{Asked, IsAskedFor};

    // what the words behind its name ask for
    ghost asked: { List (List ℕ) → Asked };

    /// Reads the words behind its name.
    fn read(words: &[&'a str]) -> Option<Self>
        ensures { IsAskedFor Self.meaning (asked (map (λ w. w.now) words.now)) result };
}

/// The same of a command that stages its output while it judges.
pub(crate) trait StagingRequest<'a>: StagingCommand + Drop + Sized {
    ghost use Rattle.std.specs.Prelude.{List, ℕ, map};
    ghost use Rattle.ta_program.specs.Asked.{Asked, IsAskedFor};

    // what the words behind its name ask for
    ghost asked: { List (List ℕ) → Asked };

    /// Reads the words behind its name.
    fn read(words: &[&'a str]) -> Option<Self>
        ensures { IsAskedFor Self.meaning (asked (map (λ w. w.now) words.now)) result };
}
