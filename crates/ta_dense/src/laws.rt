//! Laws of dictionaries, each the contract of a function that does nothing.

ghost use Rattle.ta_dense.specs.Laws.{SlacksAreADictionary, PivotsKeepDictionaries, RowsAreUnique, EqualRowsNeverLeave};

/// The tableau in which every slack is basic is a dictionary of its system.
pub fn slacks_are_a_dictionary()
    ensures { SlacksAreADictionary }
{}

/// A pivot on a positive cell keeps a dictionary of a system.
pub fn pivots_keep_dictionaries()
    ensures { PivotsKeepDictionaries }
{}

/// For a basis that pivots reach, the row of a basic variable in lowest terms is unique.
pub fn rows_are_unique()
    ensures { RowsAreUnique }
{}

/// A row that equals an earlier row of its system never takes part: by the least-index rule its slack
/// never leaves the basis.
pub fn equal_rows_never_leave()
    ensures { EqualRowsNeverLeave }
{}
