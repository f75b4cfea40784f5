//! Why a table on a shelf could not be read.

ghost use Rattle.std.specs.Prelude.{◌≡◌};
ghost use Rattle.lsm_table.specs.ReadFault.{number_of, name_of};

use crate::table_fault::TableFault;
use lsm_shelf::ShelfFault;
use std::alloc::{AllocError, AllocFailed};
use thiserror::Error;

/// Why a table on a shelf could not be read: the shelf refused, or what it gave is no table.
#[derive(Clone, Copy, Debug, Drop, Error, PartialEq, Eq)]
pub enum ReadFault {
    /// The shelf refused.
    #[error("{0}")]
    Shelf(ShelfFault),
    /// The bytes are no table, or memory ran out over them.
    #[error("{0}")]
    Table(TableFault),
}

impl ReadFault {
    /// The number of the refusal in docs/FORMATS.md.
    pub fn number(&self) -> u8
        ensures { result ≡ number_of self.now }
    {
        match self {
            ReadFault::Shelf(fault) => fault.number(),
            ReadFault::Table(fault) => fault.number(),
        }
    }

    /// The name of the refusal in docs/FORMATS.md, without its fields.
    pub fn name(&self) -> &'static str
        ensures { result.now ≡ name_of self.now }
    {
        match self {
            ReadFault::Shelf(fault) => fault.name(),
            ReadFault::Table(fault) => fault.name(),
        }
    }
}

impl From<ShelfFault> for ReadFault {
    ghost use Rattle.lsm_table.specs.declared.read_fault.ReadFault.TheVariants.{Shelf};

    ghost from_gives = { λ fault e. e ≡ Shelf fault };

    fn from(fault: ShelfFault) -> ReadFault {
        ReadFault::Shelf(fault)
    }
}

impl From<TableFault> for ReadFault {
    ghost use Rattle.lsm_table.specs.declared.read_fault.ReadFault.TheVariants.{Table};

    ghost from_gives = { λ fault e. e ≡ Table fault };

    fn from(fault: TableFault) -> ReadFault {
        ReadFault::Table(fault)
    }
}

impl From<AllocError> for ReadFault {
    ghost use Rattle.lsm_table.specs.ReadFault.{out_of_memory};

    ghost from_gives = { λ _ e. e ≡ out_of_memory };

    fn from(_error: AllocError) -> ReadFault {
        ReadFault::Table(TableFault::OutOfMemory)
    }
}

impl<T: Drop> From<AllocFailed<T>> for ReadFault {
    ghost use Rattle.lsm_table.specs.ReadFault.{out_of_memory};

    ghost from_gives = { λ _ e. e ≡ out_of_memory };

    fn from(_error: AllocFailed<T>) -> ReadFault {
        ReadFault::Table(TableFault::OutOfMemory)
    }
}
