//! The command `import` of the program `lsm`: a copy of the database in a folder, which other
//! commands may not read, in another folder.
//!
//! Stands on `lsm_import` for the copy, on `lsm_log_files` for the source's manifest and logs, on
//! `lsm_verify` for the judgment, and on `lsm_directory` and `lsm_opening` for the two folders. Its
//! contract: `run_import` makes a database that answers as the one that it read, with its logs; or
//! says why not, and then the folder of the copy has none.
#![tactic(auto)]

// Why there is no copy.
mod copy_fault;

// The copy, and what is said of it.
mod copying;
mod given;
mod importing;
mod reply;

// One run.
mod program;

pub use copy_fault::CopyFault;
pub use program::run_import;
pub use reply::CopyMade;
