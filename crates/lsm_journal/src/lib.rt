//! The journal of a database: the manifest that it holds, and what it writes there when the current
//! version changes.
//!
//! Stands on `lsm_version` for versions and their changes, on `lsm_verify` for the version of what
//! is found, on `lsm_manifest` for the bytes of a manifest, and on `lsm_table` and `lsm_shelf` for
//! tables and shelves. Its contract: the manifest held records the current version, and what is
//! held and what the shelf was sent grow alike. `Found` is what every command that opens a database
//! begins with.
#![tactic(auto)]

// A change, and the edits that are written.
mod keys;
mod version_change;
mod written;

// The manifest held, and how it begins.
mod create;
mod journal;
mod manifest_limit;
mod recover;
mod recover_fault;

// A database that is there.
mod found;
mod open_fault;

// What is sent at a change.
mod roll_over;
mod send;

// What holds of it.
mod laws;

pub use found::Found;
pub use journal::Journal;
pub use keys::added_keys_fit;
pub use laws::{
    differences_fit, named_is_recorded, recorded_keys_fit, recovered_is_recorded,
    torn_changes_record_one_of_two, whole_keys_fit,
};
pub use manifest_limit::ManifestLimit;
pub use open_fault::OpenFault;
pub use recover::Recovered;
pub use recover_fault::RecoverFault;
pub use version_change::VersionChange;
pub use written::meta_of;
