//! The judgment of a shape that a manifest gives: its tables are read, and become a version.
//!
//! Stands on `lsm_version` for the tables of each level, on `lsm_query` for the runs of a second
//! look, on `lsm_iterators` for going through them, on `lsm_manifest` for the shape of a version, and
//! on `lsm_table` for tables, shelves and the registry. Its contract: what passes is a sound
//! version of the shape, and a refusal says why.
#![tactic(auto)]

// A shape that a manifest gives.
mod checking;

// The files of a shape and their tables.
mod ahead;
mod checked_table;
mod entry_counts;
mod file_numbers;
mod judged_table;
mod judged_tables;
mod loading;
mod sequences;
mod span;

// How the tables lie, and which files that settles.
mod aged;
mod layouts;
mod reaching;
mod unsettled;

// A second look at the others.
mod ages;

// Why they are no version.
mod check_fault;
mod hex_key;

pub use ahead::{NoWatch, Watch, judge_ahead};
pub use check_fault::CheckFault;
pub use checking::{check, check_by, shapes_in_order};
pub use judged_tables::JudgedTables;
