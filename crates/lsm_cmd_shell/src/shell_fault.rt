//! Why a run of `shell` ends with status 1.

ghost use Rattle.std.specs.Prelude.{◌≡◌, None};
ghost use Rattle.lsm_opening.specs.declared.faults.compact_fault.CompactFault.TheVariants.{Writer};
ghost use Rattle.lsm_opening.specs.declared.faults.writer_fault.WriterFault.TheVariants.{Directory};
ghost use Rattle.lsm_cmd_shell.specs.Conversing.{of_talk};
ghost use Rattle.lsm_cmd_shell.specs.ShellFault.{fault_text, table_file_of};
ghost use Rattle.lsm_cmd_shell.specs.declared.shell_fault.ShellFault.TheVariants.{Run};

use crate::talk_fault::TalkFault;
use lsm_batch::Write as KeyWrite;
use lsm_directory::{DirectoryFault, Exit};
use lsm_opening::{CompactFault, WriterFault};
use std::{fmt, io};

/// Why a run of `shell` ends with status 1. It prints as a text without a newline.
#[derive(Debug, Drop)]
pub enum ShellFault {
    /// The folder was refused, the input could not be read, a reply could not be written, or a
    /// worker ended early.
    Run(CompactFault),
    /// A line was bad, or was refused.
    LineFailed,
    /// A batch was begun, and neither committed nor aborted.
    BatchOpen,
}

impl ShellFault {
    /// A refusal of the folder.
    pub(crate) fn of_writer(fault: WriterFault) -> ShellFault
        ensures { result ≡ Run (Writer fault) }
    {
        ShellFault::Run(CompactFault::Writer(fault))
    }

    /// What a conversation came to.
    pub(crate) fn of_talk(fault: TalkFault) -> ShellFault
        ensures { result ≡ of_talk fault }
    {
        match fault {
            TalkFault::Read => ShellFault::of_writer(WriterFault::Read),
            TalkFault::Write => ShellFault::of_writer(WriterFault::Write),
            TalkFault::LineFailed => ShellFault::LineFailed,
            TalkFault::BatchOpen => ShellFault::BatchOpen,
        }
    }
}

impl fmt::Display for ShellFault {
    ghost output = { λ f. fault_text f };

    fn fmt<W: fmt::Write>(&self, f: &mut fmt::Formatter<W>) -> fmt::Result {
        match self {
            ShellFault::Run(fault) => write!(f, "{fault}"),
            ShellFault::LineFailed => f.write_str("failed line"),
            ShellFault::BatchOpen => f.write_str("open batch"),
        }
    }
}

impl Exit for ShellFault {
    ghost file = { table_file_of };

    ghost meaning = { λ _. None };

    fn table_file(&self) -> Option<u64> {
        match self {
            ShellFault::Run(fault) => fault.table_file(),
            ShellFault::LineFailed | ShellFault::BatchOpen => None,
        }
    }

    fn refusal(&self) -> Option<u64> {
        match self {
            ShellFault::Run(fault) => fault.refusal(),
            ShellFault::LineFailed | ShellFault::BatchOpen => None,
        }
    }

    fn explain<E: io::Write>(&self, err: &mut E, writes: &[KeyWrite]) -> io::Result<()> {
        match self {
            ShellFault::Run(CompactFault::Writer(WriterFault::Read)) => {
                writeln!(err, "the input could not be read any further")
            }
            ShellFault::Run(fault) => fault.explain(err, writes),
            ShellFault::LineFailed => {
                writeln!(err, "a line was bad or was refused: its reply says why")
            }
            ShellFault::BatchOpen => writeln!(
                err,
                "a batch was begun, and neither committed nor aborted: nothing of it came in"
            ),
        }
    }
}

impl From<CompactFault> for ShellFault {
    ghost from_gives = { λ e f. f ≡ Run e };

    fn from(error: CompactFault) -> ShellFault {
        ShellFault::Run(error)
    }
}

impl From<DirectoryFault> for ShellFault {
    ghost from_gives = { λ e f. f ≡ Run (Writer (Directory e)) };

    fn from(error: DirectoryFault) -> ShellFault {
        ShellFault::Run(CompactFault::from(error))
    }
}
