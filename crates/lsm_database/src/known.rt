//! What contracts see of a database, whatever its type.

/// What contracts see of a database, whatever its type. It has no calls.
pub trait Known: Drop {
    ghost use Rattle.std.specs.Prelude.{List};
    ghost use Rattle.lsm_batch.specs.declared.write.Write.{Write};
    ghost use Rattle.lsm_shelf.specs.Asked.{Asked};
    ghost use Rattle.lsm_shelf.specs.declared.shelf_fault.ShelfFault.{ShelfFault};
    ghost use Rattle.lsm_state.specs.Held.{Held};
    ghost use Rattle.lsm_database.specs.Databases.{Seen};
    ghost use Rattle.lsm_database.specs.Keeping.{CameIn};

    /// What it knows, and what its shelves were told.
    ghost seen: { Self → Seen };

    /// The premise on reads: that of its shelf.
    ghost honest: { Type 0 };

    /// Which calls its shelf may refuse with which faults.
    ghost refuses: { Asked → ShelfFault → Type 0 };

    /// The state that was begun or opened.
    ghost found: { Held };

    /// The batches that may be asked for.
    ghost asks: { List Write → Type 0 };

    /// No others came in since.
    ghost asked: { (d : Self) → ∥ CameIn asks found (seen d).known ∥₁ };
}
