//! A gate that rings.

use crate::bell::Bell;
use crate::gate::Gate;
use std::sync::Wait;

/// Rings the bell of other workers before each merge, as behind an install, for a worker merges
/// again once it has installed: so writers who wait for room at level 0 try again, and what was
/// replaced is swept.
#[derive(Drop)]
pub(crate) struct Ringing<'a, R: Wait> {
    pub(crate) rt: &'a R,
    pub(crate) bell: &'a Bell,
}

impl<'a, R: Wait> Gate for Ringing<'a, R> {
    fn merging(&self, _worker: usize, _ticket: u64) {
        self.bell.installed(self.rt);
    }
}
