//! Laws of the definitions.
#![tactic(auto)]

ghost use Rattle.ta_meaning.specs.Laws.{TreesAreUnique, FaultsAreUnique, FilesAreUnique, FirstFaultsAreUnique};

/// For every row of limits a text has at most one tree, one list of errors of what it means, one file that it means, and one first error.
pub fn meanings_are_unique()
    ensures trees { TreesAreUnique }
    ensures faults { FaultsAreUnique }
    ensures files { FilesAreUnique }
    ensures first_faults { FirstFaultsAreUnique }
{}
