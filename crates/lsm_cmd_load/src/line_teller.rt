//! Which lines are in, in lines on standard error.

use crate::stopped::write_came;
use lsm_bulk_load::{Progress, Teller};
use std::io::Write;

/// Says which lines are in after each batch. What can't be written is left out.
#[derive(Drop)]
pub(crate) struct LineTeller<'a, E: Write> {
    err: &'a mut E,
    passed: u64,
}

impl<'a, E: Write> LineTeller<'a, E> {
    /// One that writes there, of an input of which so many lines were passed over.
    pub(crate) fn new(err: &'a mut E, passed: u64) -> LineTeller<'a, E> {
        LineTeller { err, passed }
    }
}

impl<'a, E: Write> Teller for LineTeller<'a, E> {
    fn came(&mut self, progress: Progress) {
        let line = progress.lines.saturating_add(u128::from(self.passed));
        let _ = write_came(self.err, line);
        let _ = self.err.flush();
    }
}
