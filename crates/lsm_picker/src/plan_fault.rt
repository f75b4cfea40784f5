//! Why there is no range plan.

ghost use Rattle.std.specs.Prelude.{◌≡◌};
ghost use Rattle.lsm_picker.specs.PlanFault.{number_of, name_of};

use std::alloc::AllocError;
use thiserror::Error;

/// Why a range plan was refused.
#[derive(Clone, Copy, Debug, Drop, Error, PartialEq, Eq)]
pub enum PlanFault {
    /// A growth was refused.
    #[error("OutOfMemory")]
    OutOfMemory,
    /// Nothing is compacted from this level, as it is above 5.
    #[error("BadLevel {0}")]
    BadLevel(u8),
}

impl PlanFault {
    /// The number of the refusal in docs/FORMATS.md.
    pub fn number(&self) -> u8
        ensures { result ≡ number_of self.now }
    {
        match self {
            PlanFault::OutOfMemory => 1,
            PlanFault::BadLevel(_) => 23,
        }
    }

    /// The name of the refusal in docs/FORMATS.md, without its field.
    pub fn name(&self) -> &'static str
        ensures { result.now ≡ name_of self.now }
    {
        match self {
            PlanFault::OutOfMemory => "OutOfMemory",
            PlanFault::BadLevel(_) => "BadLevel",
        }
    }
}

impl From<AllocError> for PlanFault {
    ghost use Rattle.lsm_picker.specs.declared.plan_fault.PlanFault.TheVariants.{OutOfMemory};

    ghost from_gives = { λ _ e. e ≡ OutOfMemory };

    fn from(_error: AllocError) -> PlanFault {
        PlanFault::OutOfMemory
    }
}
