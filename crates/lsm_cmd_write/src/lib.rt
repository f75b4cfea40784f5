//! The commands of the program `lsm` that write in a LevelDB folder: `ingest`, `put` and `delete`, and
//! `clean`.
//!
//! Stands on `lsm_opening` for the folder and its database, and on `lsm_state` for what comes in.
//! Its contract: `run_ingest`, `run_write` and `run_clean` do what the words of a command line ask,
//! and answer the exit status, by one clause for each.
#![tactic(auto)]

// A command each.
mod cleaning;
mod ingesting;

// What holds of them.
mod laws;

pub use cleaning::program::{clean, run_clean};
pub use ingesting::batch_input::read_batch;
pub use ingesting::program::{ingest, run_ingest, run_write};
pub use laws::quick_batches_are_whole;
