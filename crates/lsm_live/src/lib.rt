//! Live jobs: those that are reserved, and neither installed nor cancelled yet, with the numbers
//! that were drawn for their outputs.
//!
//! Stands on `lsm_merge` for jobs and what comes of them, on `lsm_model` for files, their jobs and
//! what live jobs are to the plain machine, and on `lsm_picker` for reservations. Its contract:
//! each call is what the plain machine makes of its live jobs, and says exactly whether a ticket is
//! live, a result is stale.
#![tactic(auto)]

// The live jobs, and the numbers that each drew.
mod live_job;
mod live_jobs;

// What is taken from a version, and what comes back.
mod live_result;
mod reserved;

// What live jobs are to the plain machine.
pub mod laws;

pub use live_job::LiveJob;
pub use live_jobs::LiveJobs;
