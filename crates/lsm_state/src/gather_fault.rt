//! Why the newest files of level 0 were not gathered.

ghost use Rattle.std.specs.Prelude.{◌≡◌};
ghost use Rattle.lsm_state.specs.GatherFault.{name_of, number_of};

use crate::state_fault::StateFault;
use lsm_merge::MergeFault;
use std::alloc::AllocError;
use thiserror::Error;

/// Why the newest files of level 0 were not gathered.
#[derive(Clone, Copy, Debug, Drop, Error, PartialEq, Eq)]
pub enum GatherFault {
    /// The state refused.
    #[error("{0}")]
    State(StateFault),
    /// They were not merged.
    #[error("{0}")]
    Merge(MergeFault),
}

impl GatherFault {
    /// The number of the refusal in docs/FORMATS.md.
    pub fn number(&self) -> u8
        ensures { result ≡ number_of self.now }
    {
        match self {
            GatherFault::State(fault) => fault.number(),
            GatherFault::Merge(fault) => fault.number(),
        }
    }

    /// The name of the refusal in docs/FORMATS.md, without its fields.
    pub fn name(&self) -> &'static str
        ensures { result.now ≡ name_of self.now }
    {
        match self {
            GatherFault::State(fault) => fault.name(),
            GatherFault::Merge(fault) => fault.name(),
        }
    }
}

impl From<StateFault> for GatherFault {
    ghost use Rattle.lsm_state.specs.declared.gather_fault.GatherFault.TheVariants.{State};

    ghost from_gives = { λ fault e. e ≡ State fault };

    fn from(fault: StateFault) -> GatherFault {
        GatherFault::State(fault)
    }
}

impl From<MergeFault> for GatherFault {
    ghost use Rattle.lsm_state.specs.declared.gather_fault.GatherFault.TheVariants.{Merge};

    ghost from_gives = { λ fault e. e ≡ Merge fault };

    fn from(fault: MergeFault) -> GatherFault {
        GatherFault::Merge(fault)
    }
}

impl From<AllocError> for GatherFault {
    ghost use Rattle.lsm_state.specs.declared.gather_fault.GatherFault.TheVariants.{State};
    ghost use Rattle.lsm_state.specs.declared.state_fault.StateFault.TheVariants.{OutOfMemory};

    ghost from_gives = { λ _ e. e ≡ State OutOfMemory };

    fn from(_: AllocError) -> GatherFault {
        GatherFault::State(StateFault::OutOfMemory)
    }
}
