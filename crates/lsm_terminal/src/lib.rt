//! What the program `lsm` does because there is a person at a terminal, or a stream that is closed:
//! a line that says how far a command is, the prompt of a shell, and `/dev/null` in the place of
//! standard streams that are closed.
//!
//! Stands on nothing of this repository. Its contracts: an input is read as it is, and an output
//! holds just what is written, unless it shows how far a command is. What a terminal shows is
//! tested (README.md).
#![tactic(auto)]

mod far;
mod prompt;
mod streams;

pub use far::{BesideLine, OneLine, asking, shows_how_far, tell_unwritten};
pub use prompt::{Prompted, at_terminal};
pub use streams::hold_streams;
