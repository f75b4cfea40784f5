//! The shelf on a folder.

mod append;
mod as_finding;
mod as_shelf;
mod current;
mod fault;
mod file_names;
mod file_receipt;
mod file_shelf;
mod listing;
mod start;
mod tables;

pub use file_names::manifest_file;
pub use file_receipt::FileReceipt;
pub use file_shelf::{FileShelf, SystemShelf};
