//! Why a run of `recover` ends with status 1.

ghost use Rattle.std.specs.Prelude.{◌≡◌, None};
ghost use Rattle.lsm_cmd_recover.specs.RecoverFault.{file_of};
ghost use Rattle.lsm_cmd_recover.specs.declared.recover_fault.RecoverFault.TheVariants.{Logs};

use lsm_batch::Write as KeyWrite;
use lsm_directory::Exit;
use lsm_recovery::BringFault;
use std::fmt;
use std::io::{self, Write};

/// Why a run of `recover` ends with status 1. It prints as a text without a newline.
#[derive(Debug, Drop)]
pub enum RecoverFault {
    /// The logs did not come in.
    Logs(BringFault),
    /// They came in, and what is told of it was not written.
    Write,
}

impl fmt::Display for RecoverFault {
    ghost output = { λ _. None };

    fn fmt<W: fmt::Write>(&self, f: &mut fmt::Formatter<W>) -> fmt::Result {
        match self {
            RecoverFault::Logs(fault) => write!(f, "{fault}"),
            RecoverFault::Write => f.write_str("write fault"),
        }
    }
}

impl Exit for RecoverFault {
    ghost file = { file_of };

    ghost meaning = { λ _. None };

    fn table_file(&self) -> Option<u64> {
        match self {
            RecoverFault::Logs(fault) => fault.table_file(),
            RecoverFault::Write => None,
        }
    }

    fn refusal(&self) -> Option<u64> {
        match self {
            RecoverFault::Logs(fault) => fault.refusal(),
            RecoverFault::Write => None,
        }
    }

    fn explain<E: Write>(&self, err: &mut E, writes: &[KeyWrite]) -> io::Result<()> {
        match self {
            RecoverFault::Logs(fault) => fault.explain(err, writes),
            RecoverFault::Write => Ok(()),
        }
    }
}

impl From<BringFault> for RecoverFault {
    ghost from_gives = { λ e f. f ≡ Logs e };

    fn from(error: BringFault) -> RecoverFault {
        RecoverFault::Logs(error)
    }
}
