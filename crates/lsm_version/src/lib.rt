//! Versions: which tables stand at which level, which of them a range of user keys meets, and
//! changes.
//!
//! Stands on `lsm_model` for the laws of plain files, which it lends, on `lsm_table` for tables
//! and the registry, and on `lsm_manifest` for the order of a level. It reads no table: reads of a
//! version are in `lsm_query`, and the judgment of a shape in `lsm_verify`. Its contract: a sound
//! version's tables lie as the law of levels says, and so do those of a changed one.
#![tactic(auto)]

// The tables of each level.
mod copies;
mod ordered_level;
mod version;

// Which tables a key or a range meets.
mod overlap;
mod user_range;

// A version with other tables.
mod change;

pub use change::{
    changed_files, changed_is_sound, changed_tables, deletions_are_sound, tables_are_whole,
    whole_tables_fit,
};
pub use copies::{copies_of, copy_of};
pub use lsm_model::{KeyRange, Layout, laws, layout_of};
pub use ordered_level::index_in;
pub use user_range::{begins_by, first_reaching, high_of, low_of, youngest_below};
pub use version::Version;
