//! The shelves that keep tables and a manifest: in memory, and in a folder as LevelDB's
//! `doc/impl.md` describes it.
//!
//! Stands on `lsm_shelf` for what a shelf promises, on `lsm_folder` for the calls on a folder, and
//! on `boxcar` for images that threads share. Its contract: a shelf in memory is a map from numbers
//! to images; a shelf in a folder makes just the calls of its plans.
#![tactic(auto)]

// What a value was told, for those who write a shelf.
mod account;
mod changes;

// The shelves.
mod file;
mod memory;

pub use account::{Account, tag_of_both, tag_of_bytes, tag_of_more, tag_of_number, tag_of_numbers};
pub use changes::{tag_of_append, tag_of_put, tag_of_removal, tag_of_start};
pub use file::{FileReceipt, FileShelf, SystemShelf, manifest_file};
pub use lsm_finding::Finding;
pub use lsm_shelf::{Shelf, ShelfFault, TableReceipt};
pub use memory::{MemoryReceipt, MemoryShelf};
