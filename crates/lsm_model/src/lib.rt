//! Files in levels as plain data: the law of a version, what a merge keeps, jobs and plans, what an
//! install changes; and the store as a plain machine over them: sequences, numbers, snapshots and
//! live jobs, with the law that every event keeps, whatever their order and however many jobs are
//! live.
//!
//! Stands on `lsm_codec` alone: a file is its level, its number, its range of user keys and its
//! entries. Its contract: a version that keeps the law answers as its union of entries, an install
//! that rests on an open job changes no answer, and after every run of the machine each read that
//! is promised answers as all that was ingested.
#![tactic(auto)]

mod key_range;
pub mod laws;
pub mod machine;

pub use key_range::{KeyRange, Layout, is_at_most, layout_of};
