//! Reads of a version: what a user key answers, and scans.
//!
//! Stands on `lsm_version` for the tables of each level, on `lsm_iterators` for merges, which it
//! lends, and on `lsm_reader` for reads of tables block by block. Its contract: a sound version
//! answers as its union of entries.
#![tactic(auto)]

// Reads of a key.
mod find;
mod reads;

// Merges of all levels.
mod depths;
mod runs;
mod scans;
mod unread;

pub use lsm_iterators::{FileFault, Merger, Pair, Row, Run, Scan, SharedLevels, against_age};
pub use lsm_reader::{Blocks, Direct, OpenTable};
pub use reads::{get, get_by};
pub use runs::open_runs;
pub use scans::{scan, scan_by, scan_from, scan_from_by};
pub use unread::Unread;
