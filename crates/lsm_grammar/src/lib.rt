//! The command line of the program `lsm`: what its words ask for, and what help says of them.
//!
//! Stands on `clap` for the grammar, on `lsm_text` for words of keys and values, and on
//! `lsm_requests` for what commands are asked for. Its contract: `read_line` answers the one request
//! that words ask for by the grammar, and in which manner, or that they ask for none.
#![tactic(auto)]

// What is asked for.
mod bench_line;
mod manner;
mod request;
mod shell_line;
mod writing_command;
mod writing_line;

// How words ask for it: the grammar, what it finds in words, and what that says.
mod arguments;
mod asking;
mod benchmarks;
mod command_line;
mod command_name;
mod grammar;
mod overview;
mod pages;
mod usage;
mod usage_fault;

// What holds of words that ask for help.
mod laws;

pub use bench_line::BenchLine;
pub use command_line::{CommandLine, read_line};
pub use command_name::CommandName;
pub use laws::help_is_no_fault;
pub use manner::Manner;
pub use request::Request;
pub use shell_line::ShellLine;
pub use writing_command::WritingCommand;
pub use writing_line::WritingLine;
