//! Records of tables that have no name yet.

use crate::table_record::TableRecord;
use lsm_shelf::TableReceipt;
use std::alloc::{AllocError, Global};
use std::marker::Model;

/// Where the records of tables will lie. A program makes it before it picks a name for it
/// (`Naming`); `Registry::of` makes it the registry of that name.
pub struct Records<C: TableReceipt> {
    pub(crate) list: boxcar::Vec<TableRecord<C>>,
}

impl<C: TableReceipt> Drop for Records<C> {
    fn drop(self) {
        let Self { list: _ } = self;
    }
}

impl<C: TableReceipt> Model for Records<C> {
    ghost use Rattle.boxcar.specs.Table.{Shelves};

    ghost Value = { Shelves };

    ghost view = { λ r. r.list };
}

impl<C: TableReceipt> Records<C> {
    /// None yet. `AllocError` where a growth was refused.
    pub fn new(alloc: Global) -> Result<Records<C>, AllocError> {
        Ok(Records {
            list: boxcar::Vec::new(alloc)?,
        })
    }
}
