//! Why a batch is refused.

ghost use Rattle.std.specs.Prelude.{◌≡◌};
ghost use Rattle.lsm_batch.specs.BatchFault.{name_of, number_of};

use thiserror::Error;

/// Why a batch is refused.
#[derive(Clone, Copy, Debug, Drop, Error, PartialEq, Eq)]
pub enum BatchFault {
    /// It has no entry.
    #[error("EmptyBatch")]
    EmptyBatch,
    /// The key at this place, from 0, is not greater than the one before.
    #[error("KeyOrder {0}")]
    KeyOrder(u64),
    /// A key, a value, the count or the sum is over its limit.
    #[error("TooLarge")]
    TooLarge,
}

impl BatchFault {
    /// The number of the refusal in docs/FORMATS.md.
    pub fn number(&self) -> u8
        ensures { result ≡ number_of self.now }
    {
        match self {
            BatchFault::EmptyBatch => 37,
            BatchFault::KeyOrder(_) => 38,
            BatchFault::TooLarge => 39,
        }
    }

    /// The name of the refusal in docs/FORMATS.md, without its fields.
    pub fn name(&self) -> &'static str
        ensures { result.now ≡ name_of self.now }
    {
        match self {
            BatchFault::EmptyBatch => "EmptyBatch",
            BatchFault::KeyOrder(_) => "KeyOrder",
            BatchFault::TooLarge => "TooLarge",
        }
    }
}
