//! A database in a folder, for a program of your own: `open` opens it and runs a `Program` on it,
//! while workers compact beside.
//!
//! Stands on `lsm_opening` for the folder, on `lsm_store` for what compacts beside, and on
//! `lsm_query` for reads; it picks the name of the database, so that a program needs no proof file.
//! Its contract: a program ran on the database that was begun or opened there (`ran` of `open`),
//! or why none did (`refused`); what `Database::write` brings in (`came`), and what `get` and
//! `scan` answer (`found`, `shown`).
#![tactic(auto)]

// A database that is open: what comes in, what is read.
mod asking;
mod batches;
mod database;
mod found;
mod handle;
mod known;
mod lent;
mod pairs;
mod reads;
mod served;
mod wanted;

// The program that is run on it.
mod program;

// A folder is opened, and a program runs there.
mod database_fault;
mod opening;
mod running;

pub use database::Database;
pub use database_fault::DatabaseFault;
pub use lsm_batch::Batch;
pub use lsm_codec::Bytes;
pub use lsm_directory::{Paths, SystemPaths};
pub use lsm_folder::{Images, Mute};
pub use lsm_opening::WriterFault;
pub use lsm_query::Pair;
pub use lsm_state::{Ingested, StateFault};
pub use lsm_store::WorkerEnd;
pub use lsm_table::ReadFault;
pub use opening::open;
pub use program::Program;
