//! Since where a store is loaded.

ghost use Rattle.std.specs.Prelude.{[]};

use lsm_store::Invariant;
use std::marker::{Brand, PhantomData};

/// Stands for how far a store was when it was found, and for a fact that its lock keeps since then.
/// A program picks both at a call, by `Brand`, when the state is there.
pub trait Origin: Send + Sync {
    ghost use Rattle.lsm_state.specs.Held.{Held};
    ghost use Rattle.lsm_bulk_load.specs.Marks.{Marked};

    ghost found: { Marked };

    ghost keeps: { Held → Type 0 };
}

impl Origin for Brand {
    ghost found = { record { history = []; last = 0 } };

    ghost keeps = { λ _. Unit {0} };
}

/// What the lock of a store keeps while batches come in: the fact; and that since the store was
/// found as many entries came in as sequences were taken. By that a count of sequences tells
/// whether another batch came in between two.
#[derive(Drop)]
pub struct Grown<O: Origin> {
    of: PhantomData<O>,
}

impl<O: Origin> Invariant for Grown<O> {
    ghost use Rattle.lsm_bulk_load.specs.Keeping.{IsKeptSince};

    ghost keeps = { IsKeptSince O.keeps O.found };
}
