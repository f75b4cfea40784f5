//! The command `repair` of the program `lsm`: a new manifest for a folder whose own is lost or
//! damaged, of all entries of its whole tables.
//!
//! Stands on `lsm_repair` for the table and the manifest, and on `lsm_directory` for the folder.
//! Its contract: behind `run_repair` the database has each entry of each whole table, and nothing
//! else, and what was left out is told; or it says why not.
#![tactic(auto)]

// Why a run is refused.
mod repair_fault;

// What is said of a database that was repaired.
mod reply;

// One run.
mod program;

pub use program::run_repair;
pub use repair_fault::RepairFault;
