//! Why an answer cannot grow.

ghost use Rattle.std.specs.Prelude.{◌≡◌};
ghost use Rattle.lsm_frames.specs.declared.answer_fault.AnswerFault.TheVariants.{OutOfMemory};

use std::alloc::AllocError;
use thiserror::Error;

/// Why an answer cannot grow.
#[derive(Clone, Copy, Debug, Drop, Error, PartialEq, Eq)]
pub enum AnswerFault {
    /// A growth of memory was refused.
    #[error("OutOfMemory")]
    OutOfMemory,
    /// It would pass the length of an answer.
    #[error("TooLong")]
    TooLong,
}

impl From<AllocError> for AnswerFault {
    ghost from_gives = { λ _ e. e ≡ OutOfMemory };

    fn from(_error: AllocError) -> AnswerFault {
        AnswerFault::OutOfMemory
    }
}
