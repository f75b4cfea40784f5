//! Jobs, merges and what comes of them.
//!
//! Stands on `lsm_version` for the tables of versions and on `lsm_iterators` for their merge. Its
//! contract: over an honest shelf the outputs of a finished job are just the entries of its inputs
//! that the drop rule keeps, cut between user keys, and a refused job comes back with the numbers
//! that were put.
#![tactic(auto)]

// A job, as it is given to a worker.
mod copies;
mod job;
mod job_parts;
mod sameness;

// The merge of its inputs.
mod compaction;
mod dropping;
mod gathering;
mod inputs;
mod rows;
mod stream;

// Outputs, each under a number of its own.
mod noted;
mod number_source;
mod output;
mod outputs;
mod putting;

// What is handed in.
mod finished;
mod merge_fault;

pub use compaction::compact;
pub use finished::Finished;
pub use gathering::gather;
pub use job::Job;
pub use job_parts::JobParts;
pub use merge_fault::{InputFault, MergeFault, OutputFault};
pub use noted::with_number;
pub use number_source::{NumberFault, NumberSource};
