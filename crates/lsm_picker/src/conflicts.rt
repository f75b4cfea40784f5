//! Which live jobs a plan conflicts with.

ghost use Rattle.std.specs.Prelude.{◌≡◌, MatchOption};
ghost use Rattle.lsm_picker.specs.Reservations.{IsClear, IsLeastConflict, IsLesserTicket};
ghost use Rattle.lsm_picker.specs.Reservations.{conflicts, hulls_meet, is_taken, shares};

use crate::plan::Plan;
use crate::reservation::Reservation;
use lsm_model::is_at_most;
use lsm_table::{Naming, Registry, Shelf, TableRef};

/// Whether a table is an input of a live job.
pub(crate) fn is_taken<N: Naming, S: Shelf>(
    registry: &Registry<N, S>,
    reservations: &[Reservation],
    table: &TableRef<N, S>,
) -> bool
    ensures { result ≡ is_taken reservations.now table.now }
{
    let number = registry.record(table).number();
    reservations.iter().any(|job| job.has_input(number))
}

/// Whether one of the tables is an input of a live job.
fn shares<N: Naming, S: Shelf>(
    registry: &Registry<N, S>,
    tables: &[TableRef<N, S>],
    job: &Reservation,
) -> bool
    ensures { result ≡ shares tables.now job.now }
{
    for table in tables {
        if job.has_input(registry.record(table).number()) {
            return true;
        }
    }
    false
}

/// Whether a plan and a live job have one output level, and hulls that meet.
fn hulls_meet<N: Naming, S: Shelf>(plan: &Plan<N, S>, job: &Reservation) -> bool
    ensures { result ≡ hulls_meet plan.now job.now }
{
    plan.level() == job.level()
        && is_at_most(plan.low(), job.high())
        && is_at_most(job.low(), plan.high())
}

/// Whether a plan conflicts with a live job.
fn conflicts<N: Naming, S: Shelf>(
    registry: &Registry<N, S>,
    plan: &Plan<N, S>,
    job: &Reservation,
) -> bool
    ensures { result ≡ conflicts plan.now job.now }
{
    hulls_meet(plan, job)
        || shares(registry, plan.upper(), job)
        || shares(registry, plan.lower(), job)
}

/// The lesser of a ticket and another one, if there is one.
fn lesser_ticket(least: Option<u64>, ticket: u64) -> u64
    ensures { IsLesserTicket least ticket result }
{
    match least {
        Some(least) if least <= ticket => least,
        _ => ticket,
    }
}

/// The least ticket of the live jobs with which a plan conflicts: those that share an input with
/// it, or have its output level and a hull that meets its hull. None exactly where it conflicts
/// with none.
pub fn conflict<N: Naming, S: Shelf>(
    registry: &Registry<N, S>,
    plan: &Plan<N, S>,
    reservations: &[Reservation],
) -> Option<u64>
    ensures { MatchOption result (IsClear plan.now reservations.now) (λ ticket.
        IsLeastConflict plan.now reservations.now ticket) }
{
    let mut least = None;
    for job in reservations {
        if conflicts(registry, plan, job) {
            least = Some(lesser_ticket(least, job.ticket()));
        }
    }
    least
}
