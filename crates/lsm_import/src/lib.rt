//! A copy of a database, made on another shelf: its tables as plain ones, and its logs as one table
//! more.
//!
//! Stands on `lsm_inflate` for tables, on `lsm_wal` and `lsm_batch` for logs, on `lsm_manifest` for
//! the edit of the copy, and on `lsm_table` for shelves. Its contract: the source is only read, the
//! copy has just the source's entries and the last writes of its logs, and until `begin` the target
//! is no database.
#![tactic(auto)]

// Why it is not made.
mod import_fault;

// The tables, one after another.
mod copying;
mod fresh_numbers;

// The copy: its tables, the table of the logs, its manifest.
mod beginning;
mod copied;
mod log_table;
mod logs;

// A database that is not copied: it stands as it is.
mod standing;

// What it answers.
mod laws;

pub use beginning::manifest_bytes;
pub use copied::Copied;
pub use copying::plain_of;
pub use import_fault::ImportFault;
pub use laws::copies_answer;
pub use log_table::LogTable;
