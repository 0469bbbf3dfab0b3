//! Whether a file holds given bytes.
#![tactic(auto)]

ghost use Rattle.std.specs.Prelude.{◌≡◌, ◌≢◌, ◌++◌, ◌<◌, ◌+◌, ◌^◌, List, ℕ, drop, length, IfSome, IsErrOf, MatchBool};
ghost use Rattle.ta_shelf.specs.Calls.{Grew};
ghost use Rattle.ta_shelf.specs.Compare.{CompareFailsOnlyFaulted, ComparesBy, HoldsSo};

use crate::fault::ShelfFault;
use crate::shelf::Shelf;

/// Whether the file of a name holds exactly these bytes now: it is read in pieces, up to the first that
/// differs, and takes no memory. A name without a file holds none, and neither does one whose bytes
/// can't be read again, as a pipe, which isn't opened.
pub fn holds<S: Shelf>(shelf: &mut S, name: &str, bytes: &[u8]) -> Result<bool, ShelfFault>
    requires { length bytes.now < 2 ^ 63 }
    ensures told { IfSome (S.files shelf.old) (λ m. HoldsSo (m name.now) bytes.now result) }
    ensures log { Grew (ComparesBy name.now bytes.now result) (S.calls shelf.old) (S.calls shelf.new) }
    ensures cause { CompareFailsOnlyFaulted result (S.faults shelf.old) (S.faults shelf.new) }
    ensures memory { IsErrOf result ShelfFault.Memory → S.wants_memory }
    ensures kept { S.files shelf.new ≡ S.files shelf.old }
{
    if shelf.keeps_bytes(name) {
        compare(shelf, name, bytes)
    } else {
        Ok(false)
    }
}

/// The same of a name whose bytes can be read again.
fn compare<S: Shelf>(shelf: &mut S, name: &str, bytes: &[u8]) -> Result<bool, ShelfFault>
    requires { length bytes.now < 2 ^ 63 }
    ensures told { IfSome (S.files shelf.old) (λ m. HoldsSo (m name.now) bytes.now result) }
    ensures log { Grew (ComparesBy name.now bytes.now result) (S.calls shelf.old) (S.calls shelf.new) }
    ensures cause { CompareFailsOnlyFaulted result (S.faults shelf.old) (S.faults shelf.new) }
    ensures memory { IsErrOf result ShelfFault.Memory → S.wants_memory }
    ensures kept { S.files shelf.new ≡ S.files shelf.old }
{
    let mut buffer = [0u8; 8192];
    let mut at = 0;
    'comparing: loop {
        let count = match shelf.read_at(name, at as u64, &mut buffer) {
            Ok(count) => count,
            Err(ShelfFault::Missing) => return Ok(false),
            Err(ShelfFault::Failed) => return Err(ShelfFault::Failed),
            Err(ShelfFault::Memory) => return Err(ShelfFault::Memory),
        };
        if count == 0 {
            return Ok(at == bytes.len());
        }
        if !begin_with(&bytes[at..], &buffer[..count]) {
            return Ok(false);
        }
        at += count;
    }
}

/// Whether bytes begin with others.
fn begin_with(bytes: &[u8], first: &[u8]) -> bool
    ensures { MatchBool result (bytes.now ≡ first.now ++ drop (length first.now) bytes.now) ((rest : List ℕ) → bytes.now ≢ first.now ++ rest) }
{
    first.len() <= bytes.len() && &bytes[..first.len()] == first
}
