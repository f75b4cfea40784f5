//! Refusals of a database and of a merge, as they are printed: `refused N Name ..`.
//!
//! Stands on `lsm_state` and `lsm_merge` for the faults, and on `lsm_text` for the form of a
//! refusal. Its contract: the text of each refusal.
#![tactic(auto)]

mod refusals;

pub use refusals::{cause_of_merge, of_merge, of_state};
