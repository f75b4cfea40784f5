//! The merge of sorted tables: entries in order, each with its source's depth, and what a scan
//! shows of them.
//!
//! Stands on `lsm_model` for what a merge is, and on `lsm_reader` for tables that are read block
//! by block. Data flows from `table_iter` (a place in a table) through `run` (the tables of a
//! level, one after another), `tree`, `merger` and `walk` to `scan` and `ages`. Its contract: a
//! merge is its sources in order, and after a fault what is left is as before.
#![tactic(auto)]

// Sources, each in the order of keys.
mod file_fault;
mod table_iter;
// Tables, one after another.
mod later;
mod row;
mod run;
mod shared_levels;

// Their merge: the fronts that keys share.
mod front;
// The sources that lead.
mod tree;
// The merge.
mod merger;

// What goes along the merge.
mod walk;
// What a scan shows of it.
mod pair;
mod scan;
// The age order of its entries.
mod ages;

pub use ages::against_age;
pub use file_fault::FileFault;
pub use merger::Merger;
pub use pair::Pair;
pub use row::Row;
pub use run::Run;
pub use scan::Scan;
pub use shared_levels::SharedLevels;
pub use walk::{FirstKey, Walk};
