//! Why no program ran on a database.

use lsm_opening::WriterFault;
use thiserror::Error;

/// Why no program ran on a database: it could not be begun or opened, or there was no memory or no
/// thread for the workers.
#[derive(Debug, Drop, Error)]
#[error("{fault}")]
pub struct DatabaseFault {
    /// The refusal of the opening.
    pub fault: WriterFault,
}

impl From<WriterFault> for DatabaseFault {
    ghost use Rattle.std.specs.Prelude.{◌≡◌};

    ghost from_gives = { λ fault e. e ≡ record { fault = fault } };

    fn from(fault: WriterFault) -> DatabaseFault {
        DatabaseFault { fault }
    }
}
