//! Why the tables of a shape are no version.

ghost use Rattle.std.specs.Prelude.{◌≡◌};
ghost use Rattle.lsm_verify.specs.CheckFault.{number_of, name_of};

use crate::hex_key::HexKey;
use lsm_codec::Bytes;
use lsm_table::{ReadFault, TableFault};
use std::alloc::{AllocError, AllocFailed};
use thiserror::Error;

/// Why the tables of a shape are no version.
#[derive(Debug, Drop, Error)]
pub enum CheckFault {
    /// The table of the file of this number could not be read: the shelf refused, the bytes are no
    /// table, or memory ran out over it. No number is named where memory ran out beside the tables:
    /// over lists of files, their places in a level, or pointers.
    #[error("{1}")]
    Read(Option<u64>, ReadFault),
    /// Two files have this number.
    #[error("DoubleFile {0}")]
    DoubleFile(u64),
    /// Two files of this level, 1 to 6, meet in internal keys.
    #[error("Overlap {0}")]
    Overlap(u8),
    /// The table of this number is not as the shape says: its size, its first or its last key is
    /// another one, or an entry is above the last sequence.
    #[error("WrongRange {0}")]
    WrongRange(u64),
    /// Of this user key a deeper entry has no lesser sequence than a shallower one.
    #[error("AgeOrder {}", HexKey::of(.0))]
    AgeOrder(Bytes),
}

impl CheckFault {
    /// The number of the refusal in docs/FORMATS.md.
    pub fn number(&self) -> u8
        ensures { result ≡ number_of self.now }
    {
        match self {
            CheckFault::Read(_, fault) => fault.number(),
            CheckFault::DoubleFile(_) => 30,
            CheckFault::Overlap(_) => 31,
            CheckFault::WrongRange(_) => 32,
            CheckFault::AgeOrder(_) => 33,
        }
    }

    /// The name of the refusal in docs/FORMATS.md, without its fields.
    pub fn name(&self) -> &'static str
        ensures { result.now ≡ name_of self.now }
    {
        match self {
            CheckFault::Read(_, fault) => fault.name(),
            CheckFault::DoubleFile(_) => "DoubleFile",
            CheckFault::Overlap(_) => "Overlap",
            CheckFault::WrongRange(_) => "WrongRange",
            CheckFault::AgeOrder(_) => "AgeOrder",
        }
    }
}

impl From<AllocError> for CheckFault {
    ghost use Rattle.lsm_verify.specs.CheckFault.{out_of_memory};

    ghost from_gives = { λ _ e. e ≡ out_of_memory };

    fn from(error: AllocError) -> CheckFault {
        CheckFault::Read(None, ReadFault::from(error))
    }
}

impl<T: Drop> From<AllocFailed<T>> for CheckFault {
    ghost use Rattle.lsm_verify.specs.CheckFault.{out_of_memory};

    ghost from_gives = { λ _ e. e ≡ out_of_memory };

    fn from(_error: AllocFailed<T>) -> CheckFault {
        CheckFault::Read(None, ReadFault::Table(TableFault::OutOfMemory))
    }
}
