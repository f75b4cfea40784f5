//! The live jobs as a choice has to know them.

ghost use Rattle.std.specs.Prelude.{◌≡◌, ◌++◌, map, IfOk, OnOk};
ghost use Rattle.lsm_picker.specs.Reservations.{reserved_of};
ghost use Rattle.lsm_merge.specs.Work.{job_of};
ghost use Rattle.lsm_live.specs.Reserving.{reserved_jobs};

use crate::live_jobs::LiveJobs;
use lsm_codec::{Bytes, List};
use lsm_merge::Job;
use lsm_picker::Reservation;
use lsm_table::{Naming, Registry, Shelf, TableRef};
use std::alloc::{AllocError, Global};

/// Appends the numbers of tables.
fn push_numbers<N: Naming, S: Shelf>(
    registry: &Registry<N, S>,
    tables: &[TableRef<N, S>],
    numbers: &mut Vec<u64>,
) -> Result<(), AllocError>
    ensures { OnOk result (numbers.new.items
        ≡ numbers.old.items ++ map (λ t. t.number) tables.now) }
{
    for table in tables {
        numbers.push(registry.record(table).number())?;
    }
    Ok(())
}

/// The reservation of a job.
fn reservation_of<N: Naming, S: Shelf>(
    alloc: Global,
    registry: &Registry<N, S>,
    job: &Job<N, S>,
) -> Result<Reservation, AllocError>
    ensures { IfOk result (λ r. r ≡ reserved_of (job_of job.now)) }
{
    let mut inputs = Vec::new(alloc);
    push_numbers(registry, job.upper(), &mut inputs)?;
    push_numbers(registry, job.lower(), &mut inputs)?;
    let low = Bytes::of(Vec::from_slice(alloc, job.low())?);
    let high = Bytes::of(Vec::from_slice(alloc, job.high())?);
    Ok(Reservation::new(
        job.ticket(),
        job.level() as u8,
        List::of(inputs),
        (low, high),
    ))
}

impl<N: Naming, S: Shelf> LiveJobs<N, S> {
    /// What a choice has to know of the live jobs: a reservation for each, in the order in which
    /// they were made. `AllocError` where a growth was refused.
    pub fn reservations(
        &self,
        alloc: Global,
        registry: &Registry<N, S>,
    ) -> Result<Vec<Reservation>, AllocError>
        ensures { IfOk result (λ v. v.items ≡ reserved_jobs self.now) }
    {
        let mut reservations = Vec::with_capacity(alloc, self.jobs.len())?;
        for one in &self.jobs {
            reservations.push(reservation_of(alloc, registry, one.job())?)?;
        }
        Ok(reservations)
    }
}
