//! Tables that were judged before a check comes to them.

ghost use Rattle.std.specs.Prelude.{◌≡◌, IfSome};
ghost use Rattle.lsm_verify.specs.CheckedFiles.{IsImageOf};

use crate::judged_table::JudgedTable;
use lsm_manifest::FileMeta;
use lsm_table::{Naming, Shelf};
use std::alloc::Global;

/// Tables of a shape that were read and judged before a check comes to their files. Nothing rests
/// on which these are: the check reads each other table itself.
#[derive(Drop)]
pub struct JudgedTables<N: Naming, S: Shelf> {
    // In the order of the files, where one was judged. The next file's is the last one.
    tables: Vec<Option<JudgedTable<N, S>>>,
}

impl<N: Naming, S: Shelf> JudgedTables<N, S> {
    /// None.
    pub fn none(alloc: Global) -> JudgedTables<N, S> {
        JudgedTables {
            tables: Vec::new(alloc),
        }
    }

    /// These, in the order of the files.
    pub(crate) fn of(tables: Vec<Option<JudgedTable<N, S>>>) -> JudgedTables<N, S> {
        let mut tables = tables;
        tables.reverse();
        JudgedTables { tables }
    }

    /// The table of the next file, where it was judged.
    pub(crate) fn take(&mut self, file: &FileMeta, last: u64) -> Option<JudgedTable<N, S>>
        ensures number { IfSome result (λ t. t.number ≡ file.now.number) }
        ensures smallest { IfSome result (λ t. t.smallest ≡ file.now.smallest) }
        ensures largest { IfSome result (λ t. t.largest ≡ file.now.largest) }
        ensures image { IfSome result (λ t. IsImageOf last file.now t.image) }
    {
        let table = self.tables.pop()??;
        if table.is_of(file, last) {
            Some(table)
        } else {
            None
        }
    }
}
