//! The footers and index blocks of tables that were found.

ghost use Rattle.std.specs.Prelude.{IfErr, OnOk, map};
ghost use Rattle.lsm_table.specs.Told.{Becomes};
ghost use Rattle.lsm_verify.specs.CheckFault.{CheckCounted};
ghost use Rattle.lsm_admission.specs.Indexes.{HasIndex, HaveIndexes, IsIndexFault, IsIndexRefusal};
ghost use Rattle.lsm_admission.specs.Indexes.{all_tables};

use lsm_finding::{Vouched, Vouching};
use lsm_reader::OpenTable;
use lsm_table::{NamedShelf, Naming, Registry, Shelf, TableRef};
use lsm_verify::CheckFault;
use lsm_version::Version;
use std::alloc::Global;

/// Reads the footer of a table, and its index block.
fn open_index<N: Naming, V: Vouching, S: Shelf>(
    shelf: &mut NamedShelf<N, S>,
    alloc: Global,
    registry: &Registry<N, Vouched<V, S>>,
    table: &TableRef<N, Vouched<V, S>>,
) -> Result<(), CheckFault>
    ensures opened { S.honest → OnOk result (HasIndex table.now.image) }
    ensures refused { IfErr result (IsIndexFault (S.refuses N.place) S.honest table.now) }
    ensures told { Becomes shelf.old shelf.new }
    ensures cause { IfErr result (λ e. CheckCounted e shelf.old shelf.new) }
{
    let record = registry.record(table);
    match OpenTable::open(shelf, alloc, &record.receipt) {
        Ok(_table) => Ok(()),
        Err(fault) => Err(CheckFault::Read(Some(record.number()), fault)),
    }
}

/// The same of the tables of a level.
fn open_level<N: Naming, V: Vouching, S: Shelf>(
    shelf: &mut NamedShelf<N, S>,
    alloc: Global,
    registry: &Registry<N, Vouched<V, S>>,
    level: &[TableRef<N, Vouched<V, S>>],
) -> Result<(), CheckFault>
    ensures opened { S.honest → OnOk result (HaveIndexes level.now) }
    ensures refused { IfErr result (IsIndexRefusal (S.refuses N.place) S.honest level.now) }
    ensures told { Becomes shelf.old shelf.new }
    ensures cause { IfErr result (λ e. CheckCounted e shelf.old shelf.new) }
{
    for table in level {
        open_index(shelf, alloc, registry, table)?;
    }
    Ok(())
}

/// The same of the tables of all levels.
fn open_levels<N: Naming, V: Vouching, S: Shelf>(
    shelf: &mut NamedShelf<N, S>,
    alloc: Global,
    registry: &Registry<N, Vouched<V, S>>,
    levels: &[Vec<TableRef<N, Vouched<V, S>>>],
) -> Result<(), CheckFault>
    ensures opened { S.honest
        → OnOk result (HaveIndexes (all_tables (map (λ l. l.items) levels.now))) }
    ensures refused { IfErr result (IsIndexRefusal (S.refuses N.place) S.honest
        (all_tables (map (λ l. l.items) levels.now))) }
    ensures told { Becomes shelf.old shelf.new }
    ensures cause { IfErr result (λ e. CheckCounted e shelf.old shelf.new) }
{
    for level in levels {
        open_level(shelf, alloc, registry, level.as_slice())?;
    }
    Ok(())
}

/// Reads the footer and the index block of each table of a version, level by level, and in a level
/// in its order: two reads a table. So a table whose footer or index is of another kind is found at
/// once, where none was judged; not one of which the data blocks alone are compressed. It rests on
/// the honesty of the shelf inside alone, not on what was supposed of its tables. The shelf is
/// given back.
///
/// The first refusal names its table: 12 to 17, and 6 to 8, of the footer or the index block; those
/// of reading the table; `OutOfMemory`.
pub fn open_indexes<N: Naming, V: Vouching, S: Shelf>(
    alloc: Global,
    shelf: NamedShelf<N, Vouched<V, S>>,
    version: &Version<N, Vouched<V, S>>,
) -> (Result<(), CheckFault>, NamedShelf<N, Vouched<V, S>>)
    ensures opened { S.honest → OnOk result.0 (HaveIndexes (all_tables version.now.tables)) }
    ensures refused { IfErr result.0
        (IsIndexRefusal (S.refuses N.place) S.honest (all_tables version.now.tables)) }
    ensures told { Becomes shelf result.1 }
    ensures cause { IfErr result.0 (λ e. CheckCounted e shelf result.1) }
{
    let mut inner: NamedShelf<N, S> = NamedShelf::of(shelf.into_shelf().into_shelf());
    let opened = open_levels(&mut inner, alloc, version.registry(), version.levels());
    let vouched: Vouched<V, S> = Vouched::of(inner.into_shelf());
    (opened, NamedShelf::of(vouched))
}
