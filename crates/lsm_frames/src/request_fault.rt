//! Why a request is not spelled.

ghost use Rattle.std.specs.Prelude.{◌≡◌};
ghost use Rattle.lsm_frames.specs.declared.request_fault.RequestFault.TheVariants.{OutOfMemory};

use std::alloc::AllocError;
use thiserror::Error;

/// Why a request is not spelled.
#[derive(Clone, Copy, Debug, Drop, Error, PartialEq, Eq)]
pub enum RequestFault {
    /// A growth of memory was refused.
    #[error("OutOfMemory")]
    OutOfMemory,
    /// A write without writes, or a read without keys.
    #[error("Empty")]
    Empty,
    /// It would pass the length of a request.
    #[error("TooLong")]
    TooLong,
}

impl From<AllocError> for RequestFault {
    ghost from_gives = { λ _ e. e ≡ OutOfMemory };

    fn from(_error: AllocError) -> RequestFault {
        RequestFault::OutOfMemory
    }
}
