//! The command `compact` of the program `lsm`: workers compact the database of a LevelDB folder,
//! until nothing is left to do.
//!
//! Stands on `lsm_opening` for the opening, for what is removed and for faults, and on `lsm_store`
//! for the store, its workers and their shelves. Its contract: `run_compact` does what the words of
//! a command line ask, and answers the exit status, by one clause for each.
#![tactic(auto)]

mod compacting;

pub use compacting::program::{compact, run_compact};
