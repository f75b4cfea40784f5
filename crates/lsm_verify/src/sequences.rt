//! The sequences of a table.

ghost use Rattle.std.specs.Prelude.{◌≡◌, IfOk};
ghost use Rattle.lsm_verify.specs.CheckedFiles.{of_one, spread};

use std::alloc::AllocError;

/// The sequences of a table's entries, one each: the least, the greatest, and how many they are.
#[derive(Clone, Copy, Drop)]
pub struct Sequences {
    pub least: u64,
    pub greatest: u64,
    pub count: u64,
}

impl Sequences {
    /// Those of one entry.
    pub(crate) fn of(seq: u64) -> Sequences
        ensures { result ≡ of_one seq }
    {
        Sequences {
            least: seq,
            greatest: seq,
            count: 1,
        }
    }

    /// With that of one more entry. No memory holds so many that they can't be counted.
    pub(crate) fn with(self, seq: u64) -> Result<Sequences, AllocError>
        ensures { IfOk result (λ s. s ≡ spread self seq) }
    {
        let Some(count) = self.count.checked_add(1) else {
            return Err(AllocError);
        };
        Ok(Sequences {
            least: self.least.min(seq),
            greatest: self.greatest.max(seq),
            count,
        })
    }
}
