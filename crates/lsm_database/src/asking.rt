//! What the lock of a database keeps.

use lsm_slots::Boarded;
use lsm_store::Invariant;
use lsm_table::Shelf;
use std::marker::{Brand, PhantomData};

/// Stands for the state that was begun or opened, and for the batches that a program may ask for.
/// Both are picked at a call, by `Brand`, when the state and the program are there.
pub(crate) trait Asking: Send + Sync {
    ghost use Rattle.std.specs.Prelude.{List};
    ghost use Rattle.lsm_batch.specs.declared.write.Write.{Write};
    ghost use Rattle.lsm_state.specs.Held.{Held};

    ghost found: { Held };

    ghost asks: { List Write → Type 0 };
}

impl Asking for Brand {
    ghost use Rattle.std.specs.Prelude.{[]};
    ghost use Rattle.lsm_opening.specs.Parts.{usual};
    ghost use Rattle.lsm_pins.specs.View.{spent_view};
    ghost use Rattle.lsm_state.specs.Making.{created_state};

    ghost found = { created_state usual
        (record { board = ⟦<Brand as Boarded>⟧.board; knows = spent_view }) [] };

    ghost asks = { λ _. Unit {0} };
}

/// What the lock of a database keeps: the state came from the one that was found by steps of
/// workers, and by ingests of batches alone that the program may ask for.
#[derive(Drop)]
pub(crate) struct AskedFor<N: Boarded, S: Shelf, A: Asking> {
    of: PhantomData<(N, S, A)>,
}

impl<N: Boarded, S: Shelf, A: Asking> Invariant for AskedFor<N, S, A> {
    ghost use Rattle.lsm_database.specs.Keeping.{HasComeTo};

    ghost keeps = { HasComeTo (S.refuses N.place) S.honest A.asks A.found };
}
