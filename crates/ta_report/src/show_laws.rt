//! What a text of a file determines, and what its names of unknowns are. The functions do nothing: their contracts
//! state the laws.
#![tactic(auto)]

ghost use Rattle.ta_report.specs.Determined.{ShowsDiffer};
ghost use Rattle.ta_report.specs.Named.{UnknownsAreNamed};

/// Two files, or two lists of pairs, that differ have different texts, and neither text begins the other.
pub fn shows_differ()
    ensures { ShowsDiffer }
{}

/// The names that are printed of a pattern's unknowns stand by their numbers, each at its own.
pub fn unknowns_are_named()
    ensures { UnknownsAreNamed }
{}
