//! The files of the current version.

ghost use Rattle.std.specs.Prelude.{◌≡◌, ◌++◌, IfOk, OnOk};
ghost use Rattle.lsm_state.specs.Listing.{listed_at, listed_from};

use crate::state::State;
use lsm_journal::meta_of;
use lsm_manifest::FileMeta;
use lsm_slots::Boarded;
use lsm_table::{Naming, Registry, Shelf, TableRef};
use std::alloc::{AllocError, Global};

// Appends the files of a level.
fn push_files<N: Naming, S: Shelf>(
    alloc: Global,
    registry: &Registry<N, S>,
    level: u8,
    tables: &[TableRef<N, S>],
    files: &mut Vec<(u8, FileMeta)>,
) -> Result<(), AllocError>
    ensures { OnOk result (files.new.items ≡ files.old.items ++ listed_at level tables.now) }
{
    for table in tables {
        let file = meta_of(alloc, registry, table)?;
        files.push((level, file))?;
    }
    Ok(())
}

impl<N: Boarded, S: Shelf> State<N, S> {
    /// The files of the current version, each with its level, by level, then in the order of the
    /// level. `AllocError` where a growth was refused.
    pub fn files(&self, alloc: Global) -> Result<Vec<(u8, FileMeta)>, AllocError>
        ensures { IfOk result (λ v. v.items ≡ listed_from 0 self.now.slots.version.tables) }
    {
        let version = self.slots.version();
        // What holds of the version is told by this call.
        let _last = version.last();
        let mut files = Vec::new(alloc);
        for level in 0..7u8 {
            let tables = version.level(usize::from(level));
            push_files(alloc, &self.registry, level, tables, &mut files)?;
        }
        Ok(files)
    }
}
