//! A new manifest for a folder whose own is lost or damaged: all entries of the tables that are
//! whole, in one new table.
//!
//! Stands on `lsm_inflate` for the tables that are there, on `lsm_table` for the new one and for
//! shelves, and on `lsm_manifest` for its edit. Its contract: behind `repair_on` the database has
//! each entry of each whole table, and nothing else, and it is sound; or it says why not. No file
//! that was there is changed but `CURRENT`, and none is removed.
#![tactic(auto)]

// Why a table is left out, and why no manifest is begun.
mod left_out;
mod mend_fault;

// The manifest that is replaced.
mod old_logs;
mod old_manifest;

// The entries of the tables, in memory.
mod kept_entry;
mod reading;

// Their table, and the manifest that names it.
mod laws;
mod mending;
mod merging;

// A folder: a free number, its shelf, its manifest, and its logs.
mod beginning;
mod free_number;
mod repairing;
mod unsure_logs;

pub use left_out::LeftOut;
pub use mend_fault::MendFault;
pub use old_logs::OldLogs;
pub use repairing::{Repaired, repair_on};
