//! What keeps old versions of a store readable: versions in the slots of a board of pins, and
//! snapshots.
//!
//! Stands on `lsm_version` for versions and on `lsm_pins` for the board. Its contract: a slot turns
//! free only by a look that found no reader there, where its version is not current and has no pin
//! under the lock.
#![tactic(auto)]

// A version in a slot, and the pins of its readers.
mod boarded;
mod epoch;
mod slot_pins;
mod slots;

// Snapshots.
mod snapshots;

pub use boarded::Boarded;
pub use epoch::Epoch;
pub use slots::Slots;
pub use snapshots::Snapshots;
