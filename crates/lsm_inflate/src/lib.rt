//! LevelDB's tables with Snappy's blocks, made plain tables of the same entries.
//!
//! Stands on `lsm_snappy` for a block's bytes, and on `lsm_table` and `lsm_block` for what a table
//! is and how a plain one is written. Its contract: the plain table has just the entries that the
//! packed one spells, and what spells none is refused by its first fault.
#![tactic(auto)]

// Why a file is no such table.
mod inflate_fault;

// A block's contents, by its type byte.
mod stored_contents;

// The plain table, begun and done.
mod filling;
mod plain_table;

// From the file to the plain table.
mod packed_file;

pub use inflate_fault::InflateFault;
pub use packed_file::{inflate, one_packed_table};
pub use plain_table::PlainTable;
