//! A database that is served over channels (`docs/PROTOCOL.md`).
//!
//! Stands on `lsm_store` for the database, on `lsm_frames` for requests and answers, and on
//! `lsm_opening` and `lsm_recovery` for a folder and its database. What comes over a channel goes
//! through `channel` to `session`, which does what is asked by one module for each kind of request.
//! Its contract: an answer is the store's own, by one relation for each kind (`answered` of
//! `Session::perform`).
#![tactic(auto)]

// What is asked is done.
mod collecting;
mod compacting;
mod reading;
mod scanning;
mod session;
mod snapshots;
mod statistics;
mod turn;
mod writing;

// What these share: what is known, answers, a view of what has come in.
mod channel_reader;
mod channel_view;
mod knowing;
mod locked_pin;
mod locked_version;
mod pin;
mod refusing;
mod saying;
mod viewing;

// Frames over wires, a thread for each channel.
mod channel;
mod channel_thread;
mod opened;
mod serving;
mod unserved;
mod wires;

// A database is opened.
mod door;
mod ended;
mod opening_fault;
mod parts;
mod plan;
mod program;
mod telling;

pub use door::Door;
pub use ended::Ended;
pub use program::serve_opening;
pub use session::Session;
