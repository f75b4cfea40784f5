//! A history that only grows: all that ever came into a store, as lists of entries that contracts
//! alone read, and what others remember of it.
//!
//! Stands on `atomic_table`, which keeps the history's rule between any two steps of any threads,
//! and on `lsm_codec` for entries. Its contract: who remembered the history and comes to its keeper
//! later knows that the history goes on from what was remembered, whatever came in between.
#![tactic(auto)]

// Entries and editions without bytes, and the name of a history.
mod historied;
mod history;
mod recalls;

// The rule of a history, and the steps at it.
mod rule;
mod steps;
mod view;

// A history before it has a name, the end that knows it whole, and what is remembered of it.
mod catalogue;
mod keeper;
mod memory;
mod new_history;

pub use catalogue::Catalogue;
pub use historied::Historied;
pub use history::History;
pub use keeper::Keeper;
pub use memory::Memory;
pub use new_history::NewHistory;
pub use recalls::Recalls;
pub use rule::{HistoryRule, Words};
pub use view::View;
