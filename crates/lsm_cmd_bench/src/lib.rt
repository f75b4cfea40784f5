//! The command `bench`: how fast a database in a folder is filled and read, under the names and in
//! the form that users know from LevelDB's `db_bench`.
//!
//! Stands on `lsm_store` for the store, its readers and its workers, on `lsm_lines` for batches,
//! and on `lsm_opening` for the beginning of the database. Its contract: status 0 only where a
//! database was begun in a folder that had none. What is printed are times, of which no clause
//! speaks.
#![tactic(auto)]

// What is written and read.
mod draws;
mod key;

// The work.
mod bench;
mod filling;
mod reading;
mod views;

// What is told of it.
mod bench_fault;
mod report;

// One run.
mod program;
mod running;

pub use bench_fault::BenchFault;
pub use program::run_bench;
