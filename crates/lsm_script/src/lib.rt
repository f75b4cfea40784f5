//! Lists of commands on a state, one after another on one thread, each with its reply; the lines of
//! text that spell them, and what is printed of replies.
//!
//! Stands on `lsm_state` for the commands, on `lsm_merge` for merges, on `lsm_refusals` for what is
//! printed of refusals, and on `lsm_text` for words. Data flows from lines to commands, from a
//! `command` through `run`, which hands it to one function a command, to a `reply`, and from
//! replies to text. Its contract: the replies are a run of the plain machine, as a reader of the
//! database sees it, from the state's own entries; a line spells one command or none.
#![tactic(auto)]

// What is asked and what is answered.
mod command;
mod command_fault;
mod reply;

// One command each.
mod batches;
mod installing;
mod merging;
mod numbers;
mod pins;
mod reads;
mod reserving;
mod snapshots;

// Commands one after another, and the jobs that they hold.
mod answering;
mod desk;
mod held;
mod script;

// Commands as text.
mod command_line;
mod laws;
mod named;
mod script_text;
mod words;

// Replies as text.
mod refusal_text;
mod reply_text;

pub use command::Command;
pub use command_fault::CommandFault;
pub use command_line::command_in;
pub use desk::Desk;
pub use laws::{one_script, steps_are_of_the_history};
pub use reply::{Reply, Reserved};
pub use reply_text::{push_replies, push_reply};
pub use script::run;
pub use script_text::{ScriptFault, script_in};
pub use words::words_in;
