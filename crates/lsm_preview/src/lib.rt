//! A database seen as it would be with the writes of its logs, and with its tables plain. Nothing
//! is written.
//!
//! Stands on `lsm_log_files` for the manifest and the logs, on `lsm_import` for the table of the
//! logs and the plain ones, and on `lsm_mirror` for what is shown. Its contract: `preview` gives a
//! view of the database that answers as LevelDB reads the tables with the logs; or it says why not.
#![tactic(auto)]

// How it is seen, what is given, and why not.
mod preview_fault;
mod seen;
mod sight;

// The database as it stands, its tables, its view.
mod base;
mod previewing;
mod tables;

// What a view answers.
mod laws;

pub use laws::{preview_answers, versions_answer};
pub use preview_fault::PreviewFault;
pub use previewing::preview;
pub use seen::Preview;
pub use sight::Sight;
