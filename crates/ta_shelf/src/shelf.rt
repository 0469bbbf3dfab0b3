//! Files by name, as the program sees them: the trait of real files and of files in memory.
//!
//! All that is read and written goes through a shelf, so contracts can speak of files. A shelf in
//! memory tells what its files hold. The real one can't, since others may change a file at any
//! time; so each call is logged: for reads the name, the offset, how much was asked for and what
//! came, for changes the bytes and whether they were taken. The top contract speaks of the bytes of
//! the log. Without it a body that reads a file twice and judges the second text would be proved.
//!
//! Commands make a file as a stage: begun, added to, and then published whole or abandoned. A stage
//! is a value, since two outputs may be in the making.
#![tactic(auto)]

ghost use Rattle.std.specs.Prelude.{◌≡◌, ◌≤◌, ◌++◌, ◌∷◌, [], ℕ, List, length, IfOk, IfSome, IsErrOf, IsTrue, MatchBool, Ok};
ghost use Rattle.std.specs.declared.option.Option.{Option};
ghost use Rattle.ta_shelf.specs.Calls.{Event, Reads, Puts, filled};
ghost use Rattle.ta_shelf.specs.Compare.{asks_nothing, CompareFailsOnlyFaulted};
ghost use Rattle.ta_shelf.specs.Place.{asks_place, LeadsSo};
ghost use Rattle.ta_shelf.specs.Put.{WhereTold, Creates, Appends, OthersStay, PutFailsOnlyFaulted};
ghost use Rattle.ta_shelf.specs.Shelf.{ReadsAt, FailsOnlyFaulted};
ghost use Rattle.ta_shelf.specs.Stage.{answer_of, AddsTo, Publishes};

use crate::entry::Step;
use crate::fault::{PutFault, ShelfFault};

/// Files by name, and a count of the calls that failed.
///
/// An implementation may leave untold what its files hold.
pub trait Shelf {
    /// A file in the making, for a name.
    type Stage: Drop;

    // the bytes of the file of each name; None where they are untold
    ghost files: { Self → Option (List ℕ → Option (List ℕ)) };

    // how many calls failed
    ghost faults: { Self → ℕ };

    // the calls so far, one after the other: each that read with what it gave, and each that changed
    // files with the bytes that it was handed and whether they were taken; the log takes no memory
    ghost calls: { Self → List Event };

    // whether a call that reads may want memory
    ghost wants_memory: { Type 0 };

    // the name that a file in the making is for
    ghost stage_name: { Self.Stage → List ℕ };

    // the bytes that were added to it so far
    ghost stage_bytes: { Self.Stage → List ℕ };

    /// Reads bytes of a file from the offset `at` on into a buffer, and says how many.
    fn read_at(&mut self, name: &str, at: u64, buf: &mut [u8]) -> Result<usize, ShelfFault>
        ensures count { IfOk result (λ k. k ≤ length buf.new) }
        ensures bytes { IfSome (files self.old) (λ m. ReadsAt (m name.now) at buf.new result) }
        ensures cause { FailsOnlyFaulted result (faults self.old) (faults self.new) }
        ensures memory { IsErrOf result ShelfFault.Memory → wants_memory }
        // the log has exactly this call more
        ensures log { calls self.new ≡ calls self.old ++ Reads (record { name = name.now; at = at; asked = length buf.old; gave = filled buf.new result }) ∷ [] }
        ensures kept { files self.new ≡ files self.old };

    /// Whether the bytes of a name can be read again: not where it is a pipe, say, or a device. It opens
    /// nothing.
    fn keeps_bytes(&mut self, name: &str) -> bool
        ensures told { IfSome (files self.old) (λ m. IsTrue result) }
        ensures faults { faults self.new ≡ faults self.old }
        // the log has a call that asks for nothing where they can't
        ensures log { MatchBool result (calls self.new ≡ calls self.old) (calls self.new ≡ calls self.old ++ Reads (asks_nothing name.now) ∷ []) }
        ensures kept { files self.new ≡ files self.old };

    /// Whether two names lead to the same place: a file that is published under the one then comes in the
    /// place of the other's. Names of no regular file, as of a pipe, don't, since bytes published there
    /// come behind what is there. It opens nothing.
    fn same_place(&mut self, name: &str, other: &str) -> Result<bool, ShelfFault>
        ensures told { IfSome (files self.old) (λ m. LeadsSo name.now other.now result) }
        ensures cause { CompareFailsOnlyFaulted result (faults self.old) (faults self.new) }
        ensures memory { IsErrOf result ShelfFault.Memory → wants_memory }
        ensures log { calls self.new ≡ calls self.old ++ Reads (asks_place name.now other.now result) ∷ [] }
        ensures kept { files self.new ≡ files self.old };

    /// Makes the file of a name, which is empty then; one that is there is emptied.
    ///
    /// After a refusal this file may hold any bytes or be absent. The other files stay.
    fn create(&mut self, name: &str) -> Result<(), PutFault>
        ensures made { WhereTold (Creates result name.now) (files self.old) (files self.new) }
        ensures others { WhereTold (OthersStay name.now) (files self.old) (files self.new) }
        ensures cause { PutFailsOnlyFaulted result (faults self.old) (faults self.new) }
        ensures log { calls self.new ≡ calls self.old ++ Puts (record { name = name.now; step = Step.Create; bytes = []; answer = result }) ∷ [] };

    /// Adds bytes at the end of the file of a name; one that is absent is made with them.
    ///
    /// After a refusal this file may hold any bytes or be absent. The other files stay.
    fn append(&mut self, name: &str, bytes: &[u8]) -> Result<(), PutFault>
        ensures added { WhereTold (Appends result name.now bytes.now) (files self.old) (files self.new) }
        ensures others { WhereTold (OthersStay name.now) (files self.old) (files self.new) }
        ensures cause { PutFailsOnlyFaulted result (faults self.old) (faults self.new) }
        ensures log { calls self.new ≡ calls self.old ++ Puts (record { name = name.now; step = Step.Append; bytes = bytes.now; answer = result }) ∷ [] };

    /// Begins a file in the making for a name, without bytes. The name holds what it held, as does each
    /// other one, until it is published.
    fn begin(&mut self, name: &str) -> Result<Self::Stage, PutFault>
        ensures named { IfOk result (λ stage. stage_name stage ≡ name.now) }
        ensures empty { IfOk result (λ stage. stage_bytes stage ≡ []) }
        ensures cause { PutFailsOnlyFaulted (answer_of result) (faults self.old) (faults self.new) }
        ensures log { calls self.new ≡ calls self.old ++ Puts (record { name = name.now; step = Step.Begin; bytes = []; answer = answer_of result }) ∷ [] }
        ensures kept { files self.new ≡ files self.old };

    /// Adds bytes to a file in the making; after a refusal some of their first ones may be added.
    fn add(&mut self, stage: &mut Self::Stage, bytes: &[u8]) -> Result<(), PutFault>
        ensures named { stage_name stage.new ≡ stage_name stage.old }
        ensures added { AddsTo result bytes.now (stage_bytes stage.old) (stage_bytes stage.new) }
        ensures cause { PutFailsOnlyFaulted result (faults self.old) (faults self.new) }
        ensures log { calls self.new ≡ calls self.old ++ Puts (record { name = stage_name stage.old; step = Step.Add; bytes = bytes.now; answer = result }) ∷ [] }
        ensures kept { files self.new ≡ files self.old };

    /// Puts a file in the making in the place of its name, which then holds exactly the bytes that were
    /// added. After a refusal it holds those, or what it held. The other files stay.
    fn publish(&mut self, stage: Self::Stage) -> Result<(), PutFault>
        ensures published { WhereTold (Publishes result (stage_name stage) (stage_bytes stage)) (files self.old) (files self.new) }
        ensures others { WhereTold (OthersStay (stage_name stage)) (files self.old) (files self.new) }
        ensures cause { PutFailsOnlyFaulted result (faults self.old) (faults self.new) }
        ensures log { calls self.new ≡ calls self.old ++ Puts (record { name = stage_name stage; step = Step.Publish; bytes = []; answer = result }) ∷ [] };

    /// Lets a file in the making go. All files stay. Where its bytes can't be taken off the disk, nobody is
    /// told: nothing was asked for that isn't done.
    fn abandon(&mut self, stage: Self::Stage)
        ensures faults { faults self.new ≡ faults self.old }
        ensures log { calls self.new ≡ calls self.old ++ Puts (record { name = stage_name stage; step = Step.Abandon; bytes = []; answer = Ok tt }) ∷ [] }
        ensures kept { files self.new ≡ files self.old };
}
