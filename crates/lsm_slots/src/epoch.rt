//! A version in its slot.

use lsm_table::{Naming, Shelf};
use lsm_version::Version;
use std::marker::Model;
use std::sync::Arc;

/// A version in its slot: its id, and how often it is pinned under the lock.
pub struct Epoch<N: Naming, S: Shelf> {
    pub(crate) id: u32,
    pub(crate) version: Arc<Version<N, S>>,
    pub(crate) pins: u32,
}

impl<N: Naming, S: Shelf> Drop for Epoch<N, S> {
    fn drop(self) {
        let Self {
            id: _,
            version: _,
            pins: _,
        } = self;
    }
}

impl<N: Naming, S: Shelf> Model for Epoch<N, S> {
    ghost use Rattle.std.specs.Arc.{arc_value};
    ghost use Rattle.lsm_slots.specs.Slots.{Epoch as Held};

    ghost Value = { Held };

    ghost view = { λ e. record { id = e.id; version = arc_value e.version; pins = e.pins } };
}
