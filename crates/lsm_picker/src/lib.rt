//! Which compaction comes next: the scores of levels, the closed plans of files, and the choice
//! among them beside live jobs.
//!
//! Stands on `lsm_version` for versions, on `lsm_model` for plans, jobs and their laws, and on
//! `lsm_table` for the records of tables. Its contract: a plan is closed, so that its job may stay
//! open whatever comes, and the choice is the first candidate of the ranking that conflicts with no
//! live job.
#![tactic(auto)]

// What a choice looks at: live jobs, ranges, and the tables that a range reaches.
mod deep_ranges;
mod linked_tables;
mod plan;
mod reservation;
mod span;
mod table_range;

// Plans: closed, and clear of the live jobs.
mod conflicts;
mod move_rule;
mod plan_maker;

// Which plan: by the scores of levels, by a range that is asked for, by a file of level 0 that
// needs no merge, or by small files that are joined; and which files of level 0 become one.
mod candidates;
mod choice;
mod gathering;
mod joining;
mod level_scores;
mod manual;
mod outermost;
mod plan_fault;
mod range_plan;

// What callers learn of plans.
pub mod laws;

pub use choice::choose;
pub use conflicts::conflict;
pub use deep_ranges::ranges_below;
pub use gathering::{level_zero_is_ready, to_gather};
pub use joining::span_to_join;
pub use level_scores::{limit, scale, scores};
pub use manual::{is_cleared, span_to_clear};
pub use move_rule::{is_large_move, is_move};
pub use outermost::outermost_span;
pub use plan::Plan;
pub use plan_fault::PlanFault;
pub use range_plan::plan_range;
pub use reservation::Reservation;
pub use span::Span;
