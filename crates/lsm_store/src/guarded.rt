//! What lies under the lock.

use crate::invariant::{Invariant, Lawful};
use lsm_slots::Boarded;
use lsm_state::State;
use lsm_table::Shelf;
use std::marker::PhantomData;

/// Stands for a fact. It holds nothing.
#[derive(Drop)]
pub(crate) struct Fact<K: Invariant> {
    of: PhantomData<K>,
}

impl<K: Invariant> Fact<K> {
    pub(crate) fn new() -> Fact<K> {
        Fact { of: PhantomData }
    }
}

/// What lies under the lock of a store: the state, and the fact that is kept of it. Who locks knows
/// the fact. Calls are made on `state`, and whoever makes one shows the fact again.
#[derive(Drop)]
pub struct Guarded<N: Boarded, S: Shelf, K: Invariant = Lawful> {
    pub state: State<N, S>,
    pub(crate) fact: Fact<K>,
    pub ghost kept: { ∥ K.keeps state ∥₁ },
}
