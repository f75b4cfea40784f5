//! The commands of the program `lsm` that only read a LevelDB folder: `check`, `list`, `get` and
//! `scan`.
//!
//! Stands on `lsm_directory` for the folder, its lock and its logs, on `lsm_journal` to find the
//! database there, on `lsm_admission` to find it without reading its tables, on `lsm_preview` and
//! `lsm_mirror` to see it with its logs or with plain tables, and on `lsm_query` to read it. Its
//! contract: `run_look` does what a line of words asks, and answers the exit status; over an honest
//! shelf what is printed is of the version that the folder holds or shows, and the folder was only
//! read.
#![tactic(auto)]

// One run, what is asked, and why it is refused.
mod inquiry;
mod look_fault;
mod program;

// A directory that is opened, and what is done on it.
mod given;
mod opened;
mod performing;

// The same, without a judgment of its tables.
mod admitted;
mod quick;

// The same, of what is seen with its logs, or with its tables plain.
mod seeing;

// A command each.
mod answering;
mod checking;
mod json_lines;
mod listing;
mod scanning;

// What a check counts; what is told beside.
mod counting;
mod notes;
mod progress;

// What holds of what is printed.
mod laws;

pub use inquiry::Inquiry;
pub use laws::{one_object, quick_lines_are_whole, quick_looks_are_whole, seen_lines_answer};
pub use look_fault::LookFault;
pub use opened::{Opened, open};
pub use program::{look, look_quickly, run_look};
