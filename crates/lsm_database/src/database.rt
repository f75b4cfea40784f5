//! A database that is open.

ghost use Rattle.std.specs.Prelude.{◌∷◌, [], Some, None, IfErr, IfOk};
ghost use Rattle.std.specs.Option.{option_map};
ghost use Rattle.lsm_database.specs.Databases.{ComesIn, Finds, IsUnread};
ghost use Rattle.lsm_database.specs.Databases.{IsUnwritten, Shows, StaysOut};
ghost use Rattle.lsm_database.specs.Keeping.{CameIn};

use lsm_batch::Batch;
use lsm_query::Pair;
use lsm_state::{Ingested, StateFault};
use lsm_table::ReadFault;

/// A database that is open, while workers compact beside. It is lent to a `Program`.
///
/// Contracts see what it knows to have come in (`seen`). What is written is on the device before a
/// call answers. Nothing but the program that it is lent to writes, so what a read knows is what
/// was there when it was opened, and what was written since; contracts say that this came in, and
/// beside it nothing but batches that the program may ask for (`asks`). Each call needs that the
/// database is `ready`, as it is where it is lent, and leaves it so.
pub trait Database {
    ghost use Rattle.std.specs.Prelude.{List};
    ghost use Rattle.lsm_batch.specs.declared.write.Write.{Write};
    ghost use Rattle.lsm_shelf.specs.Asked.{Asked};
    ghost use Rattle.lsm_shelf.specs.declared.shelf_fault.ShelfFault.{ShelfFault};
    ghost use Rattle.lsm_state.specs.Held.{Held};
    ghost use Rattle.lsm_database.specs.Databases.{Seen};

    /// What it knows to have come in, and what its shelves were told.
    ghost seen: { Self → Seen };

    /// The premise on reads: that of its shelf.
    ghost honest: { Type 0 };

    /// Which calls its shelf may refuse with which faults.
    ghost refuses: { Asked → ShelfFault → Type 0 };

    /// The state that was begun or opened.
    ghost found: { Held };

    /// Which batches its program may ask for: those that it says (`Program`).
    ghost asks: { List Write → Type 0 };

    /// It is one whose calls do what they say.
    ghost ready: { Self → Type 0 };

    /// Gives a key a value. The refusals are those of `write`; `OutOfMemory`.
    fn put(&mut self, key: &[u8], value: &[u8]) -> Result<Ingested, StateFault>
        requires ready { ready self.old }
        requires asked { asks (record { key = key.now; value = Some value.now } ∷ []) }
        ensures ready { ready self.new }
        ensures asked { ∥ CameIn asks found (seen self.new).known ∥₁ }
        ensures came { IfOk result (λ r. ComesIn
            (record { key = key.now; value = Some value.now } ∷ []) r (seen self.old)
            (seen self.new)) }
        ensures refused { IfErr result (λ e. IsUnwritten refuses
            (record { key = key.now; value = Some value.now } ∷ []) e (seen self.old)
            (seen self.new)) };

    /// Deletes a key, if it is there. The refusals are those of `write`; `OutOfMemory`.
    fn delete(&mut self, key: &[u8]) -> Result<Ingested, StateFault>
        requires ready { ready self.old }
        requires asked { asks (record { key = key.now; value = None } ∷ []) }
        ensures ready { ready self.new }
        ensures asked { ∥ CameIn asks found (seen self.new).known ∥₁ }
        ensures came { IfOk result (λ r. ComesIn (record { key = key.now; value = None } ∷ []) r
            (seen self.old) (seen self.new)) }
        ensures refused { IfErr result (λ e. IsUnwritten refuses
            (record { key = key.now; value = None } ∷ []) e (seen self.old) (seen self.new)) };

    /// Brings a batch in, whose keys ascend: all of it or nothing. Where level 0 is full it waits
    /// until workers have made room there.
    ///
    /// The refusals are those of `State::ingest`. `LevelZeroFull` only where no worker can make
    /// room: there is none, or each has ended by a fault.
    fn write(&mut self, batch: &Batch) -> Result<Ingested, StateFault>
        requires ready { ready self.old }
        requires asked { asks batch.now }
        ensures ready { ready self.new }
        ensures asked { ∥ CameIn asks found (seen self.new).known ∥₁ }
        ensures came { IfOk result (λ r. ComesIn batch.now r (seen self.old) (seen self.new)) }
        ensures refused { IfErr result (λ e.
            StaysOut refuses batch.now e (seen self.old) (seen self.new)) };

    /// The newest value of a key, or none. Blocks that were read are kept, and not read again as
    /// long as they are.
    ///
    /// `Shelf` where the shelf refused. `Table` with `OutOfMemory` where a growth was refused, and
    /// with another refusal of a table only where the shelf's bytes are not those that were put.
    fn get(&mut self, key: &[u8]) -> Result<Option<Vec<u8>>, ReadFault>
        requires { ready self.old }
        ensures ready { ready self.new }
        ensures asked { ∥ CameIn asks found (seen self.new).known ∥₁ }
        ensures found { IfOk result (λ v.
            Finds honest key.now (option_map (λ b. b.items) v) (seen self.old) (seen self.new)) }
        ensures refused { IfErr result (λ e.
            IsUnread honest refuses e (seen self.old) (seen self.new)) };

    /// The first keys at or past `from` that have a value, each with it, ascending; up to so many.
    /// All of them are as of one moment. The refusals are those of `get`.
    fn scan(&mut self, from: &[u8], limit: usize) -> Result<Vec<Pair>, ReadFault>
        requires { ready self.old }
        ensures ready { ready self.new }
        ensures asked { ∥ CameIn asks found (seen self.new).known ∥₁ }
        ensures shown { IfOk result (λ v.
            Shows honest from.now limit v.items (seen self.old) (seen self.new)) }
        ensures refused { IfErr result (λ e.
            IsUnread honest refuses e (seen self.old) (seen self.new)) };
}
