//! The calls on one folder that a LevelDB-like store makes, as a trait: each call is noted with its
//! answer in a list that only contracts read.
//!
//! Stands on `boxcar` for vectors whose values stay where they are, on `atomic_table` for one proof
//! by hand, and on `thiserror`. Its contract: a value's list of calls grows by exactly the call
//! that was made. Two folders: the system's, and one in memory for which it is proved that each
//! read answers the bytes that were written.
#![tactic(auto)]

// What a folder is asked, and why it refuses.
mod finding_calls;
mod folder_calls;
mod folder_fault;
mod lock_kind;
mod mark;

// What contracts read of a folder: its calls, in order.
mod log;
mod tags;

// A folder in memory.
mod directory;
mod file;
mod file_life;
mod image;
mod memory_calls;
mod memory_files;
mod memory_folder;
mod memory_lock;
mod memory_mark;
mod stops;

// Who sees the reads of a folder of the system.
mod contents;
mod images;
mod mute;
mod witness;

// A folder of the system.
mod open_files;
mod opened_folder;
mod reasons;
mod seen_log;
mod system_calls;
mod system_fault;
mod system_files;
mod system_folder;
mod system_locks;
mod system_mark;
mod truth;

pub use contents::{Contents, Unsaid};
pub use finding_calls::FindingCalls;
pub use folder_calls::FolderCalls;
pub use folder_fault::FolderFault;
pub use images::Images;
pub use lock_kind::LockKind;
pub use mark::Mark;
pub use memory_calls::memory_is_honest;
pub use memory_folder::MemoryFolder;
pub use memory_mark::MemoryMark;
pub use mute::Mute;
pub use reasons::Reasons;
pub use system_folder::SystemFolder;
pub use system_mark::SystemMark;
pub use truth::{
    compared_system_is_honest, found_files_are_read, system_is_honest, the_mute_cannot_tell,
    the_mute_system_is_not_honest, truth_can_be_told,
};
pub use witness::Witness;
