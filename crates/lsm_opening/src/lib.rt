//! How the database in a folder is opened: the folder is held and looked at, and its database is
//! begun, or opened where it is there.
//!
//! Stands on `lsm_directory` for the folder, its lock and its logs, on `lsm_state` and `lsm_store`
//! for the database, and on `lsm_refusals` for the texts of refusals. Commands and the server stand
//! side by side over it. Its contract: a state was begun or opened, beside no log that LevelDB
//! would read (`started` of `start`), or why it was not (`refused`).
#![tactic(auto)]

// What a state is made with, as one value.
mod parts;

// A folder is held and looked at: to which database its names lead, and which logs are beside it;
// and what the last openings left behind is removed.
mod holding;
mod names;
mod obsolete;
mod prepared;
mod preparing;
mod tidying;

// A database is begun or opened, or opened to be read alone.
mod quick;
mod reading;
mod starting;

// What holds of it.
mod laws;

// What is removed behind workers.
mod sweeping;

// Why not, and what is told of that.
mod faults;

pub use faults::compact_fault::CompactFault;
pub use faults::writer_fault::WriterFault;
pub use holding::held_shelf;
pub use laws::quick_openings_are_whole;
pub use names::{is_temporary, manifest_in, table_in};
pub use obsolete::is_obsolete;
pub use parts::NewParts;
pub use prepared::{Prepared, Start};
pub use preparing::{plainly, prepare};
pub use quick::open_quickly;
pub use reading::open_to_read;
pub use starting::{begin, begin_with, open, start, start_with};
pub use sweeping::sweep;
