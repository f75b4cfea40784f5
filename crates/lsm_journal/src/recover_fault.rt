//! Why a manifest could not be read.

ghost use Rattle.std.specs.Prelude.{◌≡◌};
ghost use Rattle.lsm_journal.specs.RecoverFault.{name_of, number_of};

use lsm_manifest::{EditFault, LogFault, ReplayFault};
use lsm_table::ShelfFault;
use thiserror::Error;

/// Why a manifest could not be read. Each of them may stand for a growth that was refused.
#[derive(Clone, Copy, Debug, Drop, Error, PartialEq, Eq)]
pub enum RecoverFault {
    /// The shelf refused.
    #[error("{0}")]
    Shelf(ShelfFault),
    /// The bytes are no record log.
    #[error("{0}")]
    Log(LogFault),
    /// A record is no edit.
    #[error("{0}")]
    Edit(EditFault),
    /// The edits come to no shape.
    #[error("{0}")]
    Replay(ReplayFault),
}

impl RecoverFault {
    /// The number of the refusal in docs/FORMATS.md.
    pub fn number(&self) -> u8
        ensures { result ≡ number_of self.now }
    {
        match self {
            RecoverFault::Shelf(fault) => fault.number(),
            RecoverFault::Log(fault) => fault.number(),
            RecoverFault::Edit(fault) => fault.number(),
            RecoverFault::Replay(fault) => fault.number(),
        }
    }

    /// The name of the refusal in docs/FORMATS.md, without its fields.
    pub fn name(&self) -> &'static str
        ensures { result.now ≡ name_of self.now }
    {
        match self {
            RecoverFault::Shelf(fault) => fault.name(),
            RecoverFault::Log(fault) => fault.name(),
            RecoverFault::Edit(fault) => fault.name(),
            RecoverFault::Replay(fault) => fault.name(),
        }
    }
}

impl From<ShelfFault> for RecoverFault {
    ghost use Rattle.lsm_journal.specs.declared.recover_fault.RecoverFault.TheVariants.{Shelf};

    ghost from_gives = { λ fault e. e ≡ Shelf fault };

    fn from(fault: ShelfFault) -> RecoverFault {
        RecoverFault::Shelf(fault)
    }
}

impl From<LogFault> for RecoverFault {
    ghost use Rattle.lsm_journal.specs.declared.recover_fault.RecoverFault.TheVariants.{Log};

    ghost from_gives = { λ fault e. e ≡ Log fault };

    fn from(fault: LogFault) -> RecoverFault {
        RecoverFault::Log(fault)
    }
}

impl From<EditFault> for RecoverFault {
    ghost use Rattle.lsm_journal.specs.declared.recover_fault.RecoverFault.TheVariants.{Edit};

    ghost from_gives = { λ fault e. e ≡ Edit fault };

    fn from(fault: EditFault) -> RecoverFault {
        RecoverFault::Edit(fault)
    }
}

impl From<ReplayFault> for RecoverFault {
    ghost use Rattle.lsm_journal.specs.declared.recover_fault.RecoverFault.TheVariants.{Replay};

    ghost from_gives = { λ fault e. e ≡ Replay fault };

    fn from(fault: ReplayFault) -> RecoverFault {
        RecoverFault::Replay(fault)
    }
}
