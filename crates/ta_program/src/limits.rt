//! How long the files of the commands may be, and the numbers where they are no use.
#![tactic(auto)]

ghost use Rattle.std.specs.Prelude.{◌≡◌};
ghost use Rattle.ta_program.specs.Kinds.{file_limit};
ghost use Rattle.ta_program.specs.Values.{limits_of};

use crate::values::limits_of;
use ta_base::limits::{CERTIFICATE_BYTES, RUN_BYTES, VALUES_BYTES};
use ta_shelf::Limit;

/// The number where FILE is no use: an automaton file, or a template.
pub const FILE_NUMBER: u8 = 3;

/// How long FILE may be, and that number.
pub(crate) fn file_limit(is_wide: bool) -> Limit
    ensures { result ≡ file_limit (limits_of is_wide) }
{
    let limits = limits_of(is_wide);
    Limit {
        bytes: limits.bytes as u64,
        number: FILE_NUMBER,
    }
}

/// A certificate, read or written.
pub const CERTIFICATE: Limit = Limit {
    bytes: CERTIFICATE_BYTES,
    number: 4,
};

/// A run.
pub const RUN: Limit = Limit {
    bytes: RUN_BYTES,
    number: 4,
};

/// Values for the unknowns of a word.
pub const VALUES: Limit = Limit {
    bytes: VALUES_BYTES,
    number: 4,
};
