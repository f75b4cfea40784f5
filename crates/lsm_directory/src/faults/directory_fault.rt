//! Why a command on a directory ends with status 1.

ghost use Rattle.std.specs.Prelude.{◌≡◌, Some};
ghost use Rattle.lsm_directory.specs.DirectoryFault.{fault_text, file_of, meaning_of, number_of};
ghost use Rattle.lsm_directory.specs.DirectoryFault.{of_open};
ghost use Rattle.lsm_directory.specs.declared.faults.directory_fault.DirectoryFault.TheVariants.{OutOfMemory};
ghost use Rattle.lsm_directory.specs.declared.faults.directory_fault.DirectoryFault.TheVariants.{Shelf};
ghost use Rattle.lsm_directory.specs.declared.faults.directory_fault.DirectoryFault.TheVariants.{Manifest};
ghost use Rattle.lsm_directory.specs.declared.faults.directory_fault.DirectoryFault.TheVariants.{Tables};
ghost use Rattle.lsm_directory.specs.declared.faults.directory_fault.DirectoryFault.TheVariants.{Read};
ghost use Rattle.lsm_directory.specs.declared.faults.directory_fault.DirectoryFault.TheVariants.{Write as WriteVariant};

use crate::faults::directory_refusals::{
    of_later, of_locked, of_manifest, of_rocksdb, of_spent, of_tables, of_torn, of_unflushed,
};
use crate::faults::meanings::meaning_of;
use crate::telling::Exit;
use crate::telling::output::OutputFault;
use lsm_batch::Write as KeyWrite;
use lsm_journal::{OpenFault, RecoverFault};
use lsm_table::{ReadFault, ShelfFault, TableFault};
use lsm_text::Refusal;
use lsm_verify::CheckFault;
use std::alloc::{AllocError, AllocFailed};
use std::fmt;
use std::io::{self, Write};

/// What a command on a directory could not do. It prints as a text without a newline.
#[derive(Debug, Drop)]
pub enum DirectoryFault {
    /// A growth of memory was refused.
    OutOfMemory,
    /// A write failed.
    Write,
    /// The folder could not be opened, locked or looked at, or its tables could not be listed.
    Shelf(ShelfFault),
    /// The manifest could not be read.
    Manifest(RecoverFault),
    /// The tables that it names are no version.
    Tables(CheckFault),
    /// A table could not be read again.
    Read(ReadFault),
    /// A table that is listed, or of the version, or the manifest has the number 2^64 - 1.
    NumbersSpent,
    /// Another program holds the lock of the folder.
    Locked,
    /// The log of this number is not flushed, and that is not accepted.
    UnflushedLog(u64),
    /// So many bytes at the manifest's end hold no whole record, and that is not accepted.
    TornManifest(u64),
    /// The manifest of this number is later than the one that `CURRENT` names, and that is not
    /// accepted.
    LaterManifest(u64),
    /// Files of RocksDB are there, and that is not accepted.
    RocksDbFiles,
    /// The key has no value, where the exit status is to tell that.
    Absent,
}

impl DirectoryFault {
    /// The number of the refusal in docs/FORMATS.md; none of a write that failed, and of a key that
    /// is absent.
    pub fn number(&self) -> Option<u8>
        ensures { result ≡ number_of self.now }
    {
        match self {
            DirectoryFault::OutOfMemory => Some(1),
            DirectoryFault::Write => None,
            DirectoryFault::Shelf(fault) => Some(fault.number()),
            DirectoryFault::Manifest(fault) => Some(fault.number()),
            DirectoryFault::Tables(fault) => Some(fault.number()),
            DirectoryFault::Read(fault) => Some(fault.number()),
            DirectoryFault::NumbersSpent => Some(46),
            DirectoryFault::Locked => Some(52),
            DirectoryFault::UnflushedLog(_) => Some(51),
            DirectoryFault::TornManifest(_) => Some(61),
            DirectoryFault::LaterManifest(_) => Some(62),
            DirectoryFault::RocksDbFiles => Some(63),
            DirectoryFault::Absent => None,
        }
    }

    /// The number of the file that a refusal of its table is about.
    pub fn file(&self) -> Option<u64>
        ensures { result ≡ file_of self.now }
    {
        match self {
            DirectoryFault::Tables(CheckFault::Read(file, _)) => *file,
            _ => None,
        }
    }
}

impl fmt::Display for DirectoryFault {
    ghost output = { λ f. fault_text f };

    fn fmt<W: fmt::Write>(&self, f: &mut fmt::Formatter<W>) -> fmt::Result {
        let refusal = match self {
            DirectoryFault::Write => return f.write_str("write fault"),
            DirectoryFault::Absent => return f.write_str("absent"),
            DirectoryFault::OutOfMemory => Refusal::of_table(TableFault::OutOfMemory),
            DirectoryFault::Shelf(fault) => Refusal::of_shelf(*fault),
            DirectoryFault::Manifest(fault) => of_manifest(*fault),
            DirectoryFault::Read(fault) => Refusal::of_read(*fault),
            DirectoryFault::NumbersSpent => of_spent(),
            DirectoryFault::Locked => of_locked(),
            DirectoryFault::UnflushedLog(number) => of_unflushed(*number),
            DirectoryFault::TornManifest(rest) => of_torn(*rest),
            DirectoryFault::LaterManifest(number) => of_later(*number),
            DirectoryFault::RocksDbFiles => of_rocksdb(),
            DirectoryFault::Tables(fault) => match of_tables(fault) {
                Some(refusal) => refusal,
                None => return write!(f, "refused 33 {fault}"),
            },
        };
        write!(f, "{refusal}")
    }
}

impl Exit for DirectoryFault {
    ghost file = { file_of };

    ghost meaning = { λ f. Some (meaning_of f) };

    fn table_file(&self) -> Option<u64> {
        self.file()
    }

    fn refusal(&self) -> Option<u64> {
        match self.number() {
            Some(number) => Some(u64::from(number)),
            None => None,
        }
    }

    fn explain<E: Write>(&self, err: &mut E, _writes: &[KeyWrite]) -> io::Result<()> {
        err.write_all(meaning_of(self).as_bytes())
    }
}

impl From<AllocError> for DirectoryFault {
    ghost from_gives = { λ _ f. f ≡ OutOfMemory };

    fn from(_error: AllocError) -> DirectoryFault {
        DirectoryFault::OutOfMemory
    }
}

impl<T: Drop> From<AllocFailed<T>> for DirectoryFault {
    ghost from_gives = { λ _ f. f ≡ OutOfMemory };

    fn from(_error: AllocFailed<T>) -> DirectoryFault {
        DirectoryFault::OutOfMemory
    }
}

impl From<ShelfFault> for DirectoryFault {
    ghost from_gives = { λ e f. f ≡ Shelf e };

    fn from(error: ShelfFault) -> DirectoryFault {
        DirectoryFault::Shelf(error)
    }
}

impl From<OpenFault> for DirectoryFault {
    ghost from_gives = { λ e f. f ≡ of_open e };

    fn from(error: OpenFault) -> DirectoryFault {
        match error {
            OpenFault::OutOfMemory => DirectoryFault::OutOfMemory,
            OpenFault::Shelf(fault) => DirectoryFault::Shelf(fault),
            OpenFault::Recover(fault) => DirectoryFault::Manifest(fault),
            OpenFault::Check(fault) => DirectoryFault::Tables(fault),
            OpenFault::NumbersSpent => DirectoryFault::NumbersSpent,
        }
    }
}

impl From<RecoverFault> for DirectoryFault {
    ghost from_gives = { λ e f. f ≡ Manifest e };

    fn from(error: RecoverFault) -> DirectoryFault {
        DirectoryFault::Manifest(error)
    }
}

impl From<CheckFault> for DirectoryFault {
    ghost from_gives = { λ e f. f ≡ Tables e };

    fn from(error: CheckFault) -> DirectoryFault {
        DirectoryFault::Tables(error)
    }
}

impl From<ReadFault> for DirectoryFault {
    ghost from_gives = { λ e f. f ≡ Read e };

    fn from(error: ReadFault) -> DirectoryFault {
        DirectoryFault::Read(error)
    }
}

impl From<OutputFault> for DirectoryFault {
    ghost from_gives = { λ _ f. f ≡ WriteVariant };

    fn from(_error: OutputFault) -> DirectoryFault {
        DirectoryFault::Write
    }
}
