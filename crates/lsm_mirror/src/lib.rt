//! A shelf that shows other bytes than lie below it: another manifest, one table more, and packed
//! tables as plain ones.
//!
//! Stands on `lsm_inflate` for the plain tables, on `lsm_shelf` for shelves, and on `boxcar` for
//! bytes that only contracts read. Its contract: a mirror stores just what its view shows of the
//! shelf below, and nothing is written there.
#![tactic(auto)]

// What is shown.
mod mirroring;
mod view;

// Receipts.
mod made_receipt;
mod mirror_receipt;
mod plain_receipt;

// Plain tables, and those that are held.
mod held_table;
mod part;
mod plain;

// The shelf.
mod as_shelf;
mod counts;
mod laws;
mod mirror;

pub use held_table::MAX_HELD;
pub use laws::stored_is_shown;
pub use mirror::Mirror;
pub use mirror_receipt::MirrorReceipt;
pub use mirroring::Mirroring;
pub use view::{MadeTable, View};
