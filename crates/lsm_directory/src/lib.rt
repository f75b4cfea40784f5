//! What the commands of the program `lsm` on a LevelDB folder share: where the words of a command
//! line find it, its lock, its names and the logs beside its tables, and what is told of a fault.
//!
//! Stands on `lsm_folder` for the calls on a folder, on `lsm_storage` for shelves on it, on
//! `lsm_journal` and `lsm_verify` for the faults of a directory, and on `lsm_text` for their texts.
//! Its contract: what a command asks of a folder before its tables, which file a name is of, the
//! text of each fault of a directory, and the exit status.
#![tactic(auto)]

// Where files and folders are found.
mod paths;

// A folder: its lock, its names, its logs.
mod folder;

// Why a command ends with status 1, and what is told of that.
mod faults;
mod telling;

pub use faults::directory_fault::DirectoryFault;
pub use faults::meanings::check_meaning;
pub use folder::beside::{Beside, look_beside};
pub use folder::file_kind::FileKind;
pub use folder::folder_file::FolderFile;
pub use folder::holding::hold;
pub use folder::logs::{first_unread, push_logs};
pub use folder::looking::{files_beside, folder_names, log_files, logs_among};
pub use folder::named_manifest::NamedManifest;
pub use folder::notes::{push_beside, refuse_beside};
pub use folder::rest::{push_rest, refuse_left_out};
pub use folder::wording::Wording;
pub use paths::{Paths, SystemPaths, open_at};
pub use telling::output::{OutputFault, flush, write_bytes, write_output};
pub use telling::unopened::Unopened;
pub use telling::{Exit, Known, refuse, status_of};
