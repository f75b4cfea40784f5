//! The logs of a folder that LevelDB left unflushed come into its database, in place.
//!
//! Stands on `lsm_log_files` for the manifest and the logs, on `lsm_verify` for the judgment of the
//! tables, and on `lsm_import` for the table of the logs and the new manifest. Its contract: behind
//! `recover_on` the database answers as it did with its logs, and none of them is one to read; or
//! it says why not, and no manifest was begun.
#![tactic(auto)]

// Why the writes do not come in, and what is said of those that do.
mod bring_fault;
mod brought;

// The tables are judged, and the writes come in.
mod bringing;
mod given;
mod recovering;

pub use bring_fault::BringFault;
pub use brought::Brought;
pub use recovering::{recover_on, recover_to};
