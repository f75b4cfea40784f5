//! What a worker finds when it looks.

use lsm_merge::Job;
use lsm_slots::Boarded;
use lsm_table::Shelf;

/// What a worker found at one look at the state.
#[derive(Drop)]
pub(crate) enum Look<N: Boarded, S: Shelf> {
    /// Files of level 0, which it gathered.
    Gathered,
    /// This job, which it reserved.
    Reserved(Job<N, S>),
    /// Nothing to do.
    Nothing,
}
