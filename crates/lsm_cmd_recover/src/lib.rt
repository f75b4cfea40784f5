//! The command `recover` of the program `lsm`: the logs of a folder that are not flushed come into
//! its database, in place; and so before another command.
//!
//! Stands on `lsm_recovery` for what comes in, and on `lsm_directory` and `lsm_opening` for the
//! folder. Its contract: behind `run_recover` the database answers as it did with its logs, and
//! none of them is one to read; or it says why not, and no manifest was begun. `recover_first` does
//! so before another command, where there is a database.
#![tactic(auto)]

// Why a run is refused.
mod recover_fault;

// What is said of writes that came in.
mod reply;

// One run.
mod program;

pub use program::{recover_first, run_recover};
pub use recover_fault::RecoverFault;
