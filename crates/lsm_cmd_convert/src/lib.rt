//! The commands of the program `lsm` on one input: `mktable`, `dump` and `manifest`, which print a
//! list as a file and a file as a list, and `script`, which does a list of commands on a new
//! database in memory.
//!
//! Stands on `lsm_text` for lists and texts, on `lsm_directory` for inputs and refusals, on
//! `lsm_script` for lists of commands, and on `lsm_opening` for a new database and for faults. Its
//! contracts: `convert` and `script` say what is written for an input, and what a refusal says of
//! it; `run_convert` and `run_script` the same of the input that words name.
#![tactic(auto)]

// mktable, dump and manifest: an input is printed in another form.
mod converting;

// script: a list of commands, on a new database in memory.
mod playing;

pub use converting::program::{convert, run_convert};
pub use playing::program::{run_script, script};
pub use playing::script_input::read_script;
pub use playing::watched::Watched;
