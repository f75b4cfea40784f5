//! How often a mirror refused.

ghost use Rattle.std.specs.Prelude.{◌≡◌, ◌≤◌, OnOk};
ghost use Rattle.lsm_shelf.specs.Told.{Told, CountedBy};
ghost use Rattle.lsm_mirror.specs.Counts.{with_counts};

use lsm_shelf::ShelfFault;

/// How often a mirror answered `Device`, and how often `Missing` or `Taken`.
#[derive(Clone, Copy)]
pub(crate) struct Counts {
    pub(crate) faults: u64,
    pub(crate) misses: u64,
}

impl Counts {
    /// Counts a refusal, once. A count stays at its last value.
    pub(crate) fn count<T: Drop>(&mut self, outcome: Result<T, ShelfFault>) -> Result<T, ShelfFault>
        ensures same { result ≡ outcome }
        ensures ok { OnOk result (self.new ≡ self.old) }
        ensures faults { self.old.faults ≤ self.new.faults }
        ensures misses { self.old.misses ≤ self.new.misses }
        ensures counts { (was is : Told)
            → CountedBy result (with_counts self.old was) (with_counts self.new is) }
    {
        match &outcome {
            Err(ShelfFault::Device) => self.faults = self.faults.saturating_add(1),
            Err(ShelfFault::Missing | ShelfFault::Taken(_)) => {
                self.misses = self.misses.saturating_add(1);
            }
            _ => {}
        }
        outcome
    }
}
