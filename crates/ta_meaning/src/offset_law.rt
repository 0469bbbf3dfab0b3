//! The law of the order of errors of meaning.
#![tactic(auto)]

ghost use Rattle.ta_meaning.specs.Offsets.{FaultsRise, FirstIsLeast, FaultsStandAtTokens, FaultsAreOfMeaning};
ghost use Rattle.ta_meaning.specs.Table.{FaultsAreOfTheTable};

/// The errors of what a tree means stand at rising offsets, each at a token. So the first of them is the one with the smallest offset, and at most one stands at each offset.
pub fn faults_rise()
    ensures rise { FaultsRise }
    ensures least { FirstIsLeast }
    ensures tokens { FaultsStandAtTokens }
    ensures kinds { FaultsAreOfMeaning }
{}

/// Each entry of the list of errors of what a tree means is an error of the table: what its code says is wrong at its token.
pub fn faults_are_of_the_table()
    ensures { FaultsAreOfTheTable }
{}
