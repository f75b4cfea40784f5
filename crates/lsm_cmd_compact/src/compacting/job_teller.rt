//! What is said of each job before it is merged.

use crate::compacting::progress::write_job;
use lsm_store::Gate;
use std::io::Write;
use std::sync::{Mutex, Wait};

/// Says on standard error which worker begins which job, a line each, counting workers from 1;
/// workers share it. What can't be written is left out.
#[derive(Drop)]
pub(crate) struct JobTeller<'a, R: Wait + Sync, E: Write> {
    rt: &'a R,
    err: Mutex<&'a mut E>,
}

impl<'a, R: Wait + Sync, E: Write> JobTeller<'a, R, E> {
    /// One that writes there.
    pub(crate) fn new(rt: &'a R, err: &'a mut E) -> JobTeller<'a, R, E> {
        JobTeller {
            rt,
            err: Mutex::new(err),
        }
    }
}

impl<'a, R: Wait + Sync, E: Write> Gate for JobTeller<'a, R, E> {
    fn merging(&self, worker: usize, ticket: u64) {
        let mut err = self.err.lock(self.rt);
        let _ = write_job(&mut **err, worker.saturating_add(1), ticket);
        let _ = (**err).flush();
    }
}
