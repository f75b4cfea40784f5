//! The change of a version that the result of a job makes.

ghost use Rattle.std.specs.Prelude.{◌≡◌, [], ◌++◌, IfOk, MatchOption, OnOk};
ghost use Rattle.lsm_codec.specs.Lists.{Has};
ghost use Rattle.lsm_table.specs.Registry.{Table};
ghost use Rattle.lsm_manifest.specs.EditFit.{FitsKey};
ghost use Rattle.lsm_picker.specs.Choice.{bytes_cmp};
ghost use Rattle.lsm_state.specs.Installing.{IsInstallChange, IsLargestKey, IsPointer, added_at};
ghost use Rattle.lsm_state.specs.Installing.{deleted_at};
ghost use Rattle.lsm_state.specs.LargestKeys.{IsGreaterKey, IsHighestKey};

use lsm_codec::{Bytes, key_parts};
use lsm_journal::{VersionChange, added_keys_fit};
use lsm_manifest::DeletedFile;
use lsm_merge::Finished;
use lsm_table::{Naming, Registry, Shelf, TableRef};
use std::alloc::{AllocError, Global};
use std::cmp::Ordering;

// The order of internal keys by their bytes.
fn compare_keys(a: &[u8], b: &[u8]) -> Ordering
    ensures { result ≡ bytes_cmp a.now b.now }
{
    let (user, packed) = key_parts(a);
    let (other_user, other_packed) = key_parts(b);
    user.cmp(other_user).then(other_packed.cmp(&packed))
}

// The greater of two keys.
fn greater_key<'a>(a: &'a [u8], b: &'a [u8]) -> &'a [u8]
    ensures { IsGreaterKey result.now a.now b.now }
{
    if compare_keys(b, a).is_gt() { b } else { a }
}

// The largest key of a table.
fn key_of<'a, N: Naming, S: Shelf>(registry: &'a Registry<N, S>, table: &TableRef<N, S>) -> &'a [u8]
    ensures { result.now ≡ table.now.largest }
{
    registry.record(table).largest.as_slice()
}

// The greatest of a key and the largest keys of tables.
fn highest_key<'a, N: Naming, S: Shelf>(
    registry: &'a Registry<N, S>,
    tables: &[TableRef<N, S>],
    key: &'a [u8],
) -> &'a [u8]
    ensures { IsHighestKey tables.now key.now result.now }
{
    let mut highest = key;
    for table in tables {
        highest = greater_key(highest, key_of(registry, table));
    }
    highest
}

// The largest key of tables, none where there is none.
fn largest_key<'a, N: Naming, S: Shelf>(
    registry: &'a Registry<N, S>,
    tables: &[TableRef<N, S>],
) -> Option<&'a [u8]>
    ensures { MatchOption result (tables.now ≡ []) (λ key. IsLargestKey tables.now key.now) }
{
    if tables.is_empty() {
        return None;
    }
    let first = key_of(registry, &tables[0]);
    Some(highest_key(registry, tables, first))
}

// A level with the largest key of tables as its pointer.
fn pointer_of<N: Naming, S: Shelf>(
    alloc: Global,
    registry: &Registry<N, S>,
    level: usize,
    tables: &[TableRef<N, S>],
) -> Result<Option<(usize, Bytes)>, AllocError>
    ensures { IfOk result (λ p. IsPointer level tables.now p) }
{
    match largest_key(registry, tables) {
        None => Ok(None),
        Some(key) => Ok(Some((level, Bytes::of(Vec::from_slice(alloc, key)?)))),
    }
}

// Appends tables as files that go from a level.
pub(crate) fn push_deleted<N: Naming, S: Shelf>(
    registry: &Registry<N, S>,
    level: u8,
    tables: &[TableRef<N, S>],
    deleted: &mut Vec<DeletedFile>,
) -> Result<(), AllocError>
    ensures { OnOk result (deleted.new.items ≡ deleted.old.items ++ deleted_at level tables.now) }
{
    for table in tables {
        let number = registry.record(table).number();
        deleted.push(DeletedFile { level, number })?;
    }
    Ok(())
}

// Tables that come to a level.
fn placed_at<N: Naming, S: Shelf>(
    alloc: Global,
    level: usize,
    tables: &[TableRef<N, S>],
) -> Result<Vec<(usize, TableRef<N, S>)>, AllocError>
    ensures { IfOk result (λ v. v.items ≡ added_at level tables.now) }
{
    let mut placed = Vec::new(alloc);
    for table in tables {
        placed.push((level, table.again()))?;
    }
    Ok(placed)
}

// The change of a version that a finished job makes: its inputs go, its outputs come one level
// down, and its level gets the largest key of its inputs there as its pointer.
pub(crate) fn change_of<N: Naming, S: Shelf>(
    alloc: Global,
    registry: &Registry<N, S>,
    done: &Finished<N, S>,
    last: u64,
) -> Result<VersionChange<N, S>, AllocError>
    requires keys { (t : Table) → Has done.now.work.upper t
        → FitsKey t.smallest × FitsKey t.largest }
    ensures { IfOk result (λ c. IsInstallChange done.now last c) }
{
    let job = done.job();
    let level = job.level();
    let mut deleted = Vec::new(alloc);
    push_deleted(registry, level as u8, job.upper(), &mut deleted)?;
    push_deleted(registry, level as u8 + 1, job.lower(), &mut deleted)?;
    let added = placed_at(alloc, level + 1, done.outputs())?;
    added_keys_fit(registry, &added);
    let pointer = pointer_of(alloc, registry, level, job.upper())?;
    let change = VersionChange::new(deleted, added, pointer, last);
    // What holds of the change is told by this call.
    let _last = change.last();
    Ok(change)
}
