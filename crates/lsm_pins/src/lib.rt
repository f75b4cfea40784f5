//! A board of pins: a reader pins the current version of a value by one atomic step and no lock,
//! and the one publisher sees by another when a version's slot has no pin left, so that the slot
//! may be used again.
//!
//! Stands on `atomic_table`, which keeps the board's rule between any two steps of any threads (and
//! on `thiserror` for its faults). Its contract: no slot is free while a view holds it, and each
//! call's result is that of the word at its one step.
#![tactic(auto)]

// The words of a board, and the steps at it.
mod head;
mod rule;
mod slot_record;
mod steps;

// The board, its ends, and what each knows.
mod board;
mod pin_fault;
mod pinner;
mod publish_fault;
mod publisher;
mod view;

// What holds between any two steps.
mod laws;

pub use board::Board;
pub use laws::{
    a_pin_outlives_its_version, board_law, each_start_has_a_state, held_is_not_free,
    missed_is_held, no_law_is_absurd,
};
pub use pin_fault::PinFault;
pub use pinner::Pinner;
pub use publish_fault::PublishFault;
pub use publisher::Publisher;
pub use rule::{BoardRule, Start, Words};
pub use slot_record::SlotRecord;
pub use view::View;
