//! What a folder has of a database beside its tables: its manifest, and the logs that LevelDB reads
//! when it opens the folder.
//!
//! Stands on `lsm_journal` for the manifest, on `lsm_wal` for logs, and on `lsm_directory` for the
//! folder's files. Its contract: `read_source` reads the manifest, and then just these logs, each
//! whole, by ascending numbers; or says at which of them it stopped. Nothing is written.
#![tactic(auto)]

// Why it is not read.
mod source_fault;

// Which logs there are.
mod log_files;

// The manifest, and the logs one after another; or up to the first fault.
mod log_stop;
mod reading;
mod stopping;

pub use log_stop::{LogStop, tell_left_out};
pub use reading::{SourceRead, read_source};
pub use source_fault::SourceFault;
pub use stopping::{SourceFront, read_source_to};
