//! Why tables could not be read together.

use lsm_iterators::FileFault;
use lsm_table::{ReadFault, TableFault};
use std::alloc::{AllocError, AllocFailed};

/// Why tables could not be read together, and which file it was, if it was one.
#[derive(Drop)]
pub struct Unread {
    pub file: Option<u64>,
    pub fault: ReadFault,
}

impl From<FileFault> for Unread {
    ghost use Rattle.std.specs.Prelude.{◌≡◌, Some};

    ghost from_gives = { λ fault e. e ≡ record { file = Some fault.number; fault = fault.fault } };

    fn from(fault: FileFault) -> Unread {
        Unread {
            file: Some(fault.number),
            fault: fault.fault,
        }
    }
}

impl From<AllocError> for Unread {
    ghost use Rattle.std.specs.Prelude.{◌≡◌, None};
    ghost use Rattle.lsm_table.specs.declared.read_fault.ReadFault.TheVariants.{Table};
    ghost use Rattle.lsm_table.specs.declared.table_fault.TableFault.TheVariants.{OutOfMemory};

    ghost from_gives = { λ _ e. e ≡ record { file = None; fault = Table OutOfMemory } };

    fn from(_error: AllocError) -> Unread {
        Unread {
            file: None,
            fault: ReadFault::Table(TableFault::OutOfMemory),
        }
    }
}

impl<T: Drop> From<AllocFailed<T>> for Unread {
    ghost use Rattle.std.specs.Prelude.{◌≡◌, None};
    ghost use Rattle.lsm_table.specs.declared.read_fault.ReadFault.TheVariants.{Table};
    ghost use Rattle.lsm_table.specs.declared.table_fault.TableFault.TheVariants.{OutOfMemory};

    ghost from_gives = { λ _ e. e ≡ record { file = None; fault = Table OutOfMemory } };

    fn from(_error: AllocFailed<T>) -> Unread {
        Unread {
            file: None,
            fault: ReadFault::Table(TableFault::OutOfMemory),
        }
    }
}
