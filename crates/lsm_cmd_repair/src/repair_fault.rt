//! Why a run of `repair` ends with status 1.

ghost use Rattle.std.specs.Prelude.{◌≡◌, None};
ghost use Rattle.lsm_cmd_repair.specs.RepairFault.{file_of};
ghost use Rattle.lsm_cmd_repair.specs.declared.repair_fault.RepairFault.TheVariants.{Mend};

use lsm_batch::Write as KeyWrite;
use lsm_directory::{DirectoryFault, Exit};
use lsm_repair::MendFault;
use std::fmt;
use std::io::{self, Write};

/// Of keys that are not in bytewise order.
const OTHER_ORDER: &[u8] =
    b"in the manifest that CURRENT names; lsm manifest prints which comparator it has\n";

/// Why a run of `repair` ends with status 1. It prints as a text without a newline.
#[derive(Debug, Drop)]
pub enum RepairFault {
    /// The folder could not be opened or locked.
    Folder(DirectoryFault),
    /// The database is not repaired.
    Mend(MendFault),
    /// It is, and the lines or the notes of it were not written.
    Write,
}

impl fmt::Display for RepairFault {
    ghost output = { λ _. None };

    fn fmt<W: fmt::Write>(&self, f: &mut fmt::Formatter<W>) -> fmt::Result {
        match self {
            RepairFault::Folder(fault) => write!(f, "{fault}"),
            RepairFault::Mend(fault) => write!(f, "refused {} {fault}", fault.number()),
            RepairFault::Write => f.write_str("write fault"),
        }
    }
}

impl Exit for RepairFault {
    ghost file = { file_of };

    ghost meaning = { λ _. None };

    fn table_file(&self) -> Option<u64> {
        match self {
            RepairFault::Mend(MendFault::Unread(number, _)) => Some(*number),
            _ => None,
        }
    }

    fn refusal(&self) -> Option<u64> {
        match self {
            RepairFault::Folder(fault) => fault.refusal(),
            RepairFault::Mend(fault) => Some(u64::from(fault.number())),
            RepairFault::Write => None,
        }
    }

    fn explain<E: Write>(&self, err: &mut E, _writes: &[KeyWrite]) -> io::Result<()> {
        match self {
            RepairFault::Folder(fault) => fault.explain(err, &[]),
            RepairFault::Mend(MendFault::TwoValues(one, other)) => writeln!(
                err,
                "move {one:06}.ldb or {other:06}.ldb out of DIR: the other one is then taken"
            ),
            RepairFault::Mend(MendFault::OtherComparator) => err.write_all(OTHER_ORDER),
            RepairFault::Mend(_) | RepairFault::Write => Ok(()),
        }
    }
}

impl From<MendFault> for RepairFault {
    ghost from_gives = { λ e f. f ≡ Mend e };

    fn from(error: MendFault) -> RepairFault {
        RepairFault::Mend(error)
    }
}
