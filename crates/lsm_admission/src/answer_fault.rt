//! Why a key is not answered.

ghost use Rattle.std.specs.Prelude.{◌≡◌};

use lsm_journal::{OpenFault, RecoverFault};
use lsm_table::ReadFault;
use std::alloc::AllocError;
use thiserror::Error;

/// Why a key of a database is not answered.
#[derive(Debug, Drop, Error)]
pub enum AnswerFault {
    /// The database is not found.
    #[error("{0}")]
    Open(OpenFault),
    /// A table could not be read.
    #[error("{0}")]
    Read(ReadFault),
}

impl From<OpenFault> for AnswerFault {
    ghost use Rattle.lsm_admission.specs.declared.answer_fault.AnswerFault.TheVariants.{Open};

    ghost from_gives = { λ fault e. e ≡ Open fault };

    fn from(fault: OpenFault) -> AnswerFault {
        AnswerFault::Open(fault)
    }
}

impl From<RecoverFault> for AnswerFault {
    ghost use Rattle.lsm_admission.specs.declared.answer_fault.AnswerFault.TheVariants.{Open};
    ghost use Rattle.lsm_journal.specs.declared.open_fault.OpenFault.TheVariants.{Recover};

    ghost from_gives = { λ fault e. e ≡ Open (Recover fault) };

    fn from(fault: RecoverFault) -> AnswerFault {
        AnswerFault::Open(OpenFault::Recover(fault))
    }
}

impl From<ReadFault> for AnswerFault {
    ghost use Rattle.lsm_admission.specs.declared.answer_fault.AnswerFault.TheVariants.{Read};

    ghost from_gives = { λ fault e. e ≡ Read fault };

    fn from(fault: ReadFault) -> AnswerFault {
        AnswerFault::Read(fault)
    }
}

impl From<AllocError> for AnswerFault {
    ghost use Rattle.lsm_admission.specs.declared.answer_fault.AnswerFault.TheVariants.{Open};
    ghost use Rattle.lsm_journal.specs.declared.open_fault.OpenFault.TheVariants.{OutOfMemory};

    ghost from_gives = { λ _ e. e ≡ Open OutOfMemory };

    fn from(_: AllocError) -> AnswerFault {
        AnswerFault::Open(OpenFault::OutOfMemory)
    }
}
