//! Why a command that only reads ends with status 1.

ghost use Rattle.std.specs.Prelude.{◌≡◌, None};
ghost use Rattle.lsm_cmd_read.specs.LookFault.{file_of};
ghost use Rattle.lsm_cmd_read.specs.declared.look_fault.LookFault.TheVariants.{Directory};

use lsm_batch::Write as KeyWrite;
use lsm_directory::{DirectoryFault, Exit};
use lsm_preview::PreviewFault;
use std::fmt;
use std::io::{self, Write};

/// Why a command that only reads ends with status 1. It prints as a text without a newline.
#[derive(Debug, Drop)]
pub enum LookFault {
    /// Of the folder as it lies, or of what is seen of it.
    Directory(DirectoryFault),
    /// The folder could not be seen with its logs, or with its tables plain.
    Unseen(PreviewFault),
}

impl fmt::Display for LookFault {
    ghost output = { λ _. None };

    fn fmt<W: fmt::Write>(&self, f: &mut fmt::Formatter<W>) -> fmt::Result {
        match self {
            LookFault::Directory(fault) => write!(f, "{fault}"),
            LookFault::Unseen(fault) => write!(f, "{fault}"),
        }
    }
}

impl Exit for LookFault {
    ghost file = { file_of };

    ghost meaning = { λ _. None };

    fn table_file(&self) -> Option<u64> {
        match self {
            LookFault::Directory(fault) => fault.table_file(),
            LookFault::Unseen(fault) => fault.table_file(),
        }
    }

    fn refusal(&self) -> Option<u64> {
        match self {
            LookFault::Directory(fault) => fault.refusal(),
            LookFault::Unseen(fault) => fault.refusal(),
        }
    }

    fn explain<E: Write>(&self, err: &mut E, writes: &[KeyWrite]) -> io::Result<()> {
        match self {
            LookFault::Directory(fault) => fault.explain(err, writes),
            LookFault::Unseen(fault) => fault.explain(err, writes),
        }
    }
}

impl From<DirectoryFault> for LookFault {
    ghost from_gives = { λ e f. f ≡ Directory e };

    fn from(error: DirectoryFault) -> LookFault {
        LookFault::Directory(error)
    }
}
