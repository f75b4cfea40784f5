//! A conversation with a database: commands on an input, one a line, and a reply to each.
//!
//! Stands on `lsm_lines` for lines and for the writes of a batch, on `lsm_script` for commands and
//! their replies, on `lsm_query` for scans, on `lsm_opening` for the database of a folder, and on
//! `lsm_text` for words. Data flows from a line to what it asks for, and from there to its reply.
//! Its contract: what is written is the replies to just the lines that were read, in their order,
//! each of them a step of the state's.
#![tactic(auto)]

// What a line asks for.
mod ask;
mod ask_line;
mod scan_line;
mod writes;

// What is wrong with a line that asks for nothing.
mod line_kind;
mod mistake;
mod mistake_text;
mod want;
mod wrong_line;
mod wrong_word;

// The replies.
mod answering;
mod batching;
mod compacting;
mod help;
mod outcome;
mod pairs;
mod replying;
mod rounds;
mod saying;
mod speech;
mod statistics;

// The conversation.
mod beside;
mod talk_fault;
mod talking;

// What holds of a conversation.
mod laws;

// The conversation with the database of a folder.
mod conversing;
mod conversing_beside;
mod conversing_to_read;
mod notes;
mod program;
mod shell_fault;

pub use ask::Ask;
pub use ask_line::ask_in;
pub use beside::talk_beside;
pub use conversing::converse;
pub use conversing_beside::converse_beside;
pub use conversing_to_read::converse_to_read;
pub use laws::{a_bad_line_has_one_reply, halted_states_refuse_batches, talks_are_of_the_history};
pub use line_kind::LineKind;
pub use mistake::{Mistake, Wrong};
pub use outcome::Outcome;
pub use pairs::{ScanFault, Step};
pub use program::run_shell;
pub use shell_fault::ShellFault;
pub use talk_fault::TalkFault;
pub use talking::talk;
pub use want::Want;
pub use wrong_line::mistake_in;
