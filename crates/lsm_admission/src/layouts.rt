//! How the tables of the levels from 1 on lie, by the keys that a manifest gives them.

ghost use Rattle.std.specs.Prelude.{◌≡◌, IfErr, IfOk, IsFalse, IsTrue, OnOk, length, map};
ghost use Rattle.std.specs.List.Sorted.{IsSortedBy};
ghost use Rattle.lsm_codec.specs.Keys.{InternalKey, IsKey};
ghost use Rattle.lsm_verify.specs.LevelLayouts.{IsLayoutRefusal, LieAs, LieInOrder};
ghost use Rattle.lsm_version.specs.Versions.{AreInOrder, stands_before};
ghost use Rattle.lsm_admission.specs.FoundTables.{AreBounded, AreLevelsBounded, IsBounds};

use lsm_codec::KeyRef;
use lsm_table::{Naming, Registry, Shelf, TableRef};
use lsm_verify::CheckFault;
use lsm_version::{KeyRange, Layout, layout_of};
use std::alloc::{AllocError, Global};

/// Whether these are two internal keys, the first at most the second.

pub(crate) fn are_bounds(smallest: &[u8], largest: &[u8]) -> bool
    ensures yes { IsTrue result → IsBounds smallest.now largest.now }
    ensures no { IsFalse result → IsBounds smallest.now largest.now → ⊥ }
{
    let Ok(first) = KeyRef::split(smallest) else {
        return false;
    };
    let Ok(last) = KeyRef::split(largest) else {
        return false;
    };
    first.compare(&last).is_le()
}

/// The range between two internal keys.
fn range_of<'a>(smallest: &'a [u8], largest: &'a [u8]) -> KeyRange<'a>
    requires first { (key : InternalKey) × IsKey smallest.now key }
    requires last { (key : InternalKey) × IsKey largest.now key }
    ensures first { IsKey smallest.entry.now result.smallest }
    ensures last { IsKey largest.entry.now result.largest }
{
    let Ok(first) = KeyRef::split(smallest) else {
        unreachable!()
    };
    let Ok(last) = KeyRef::split(largest) else {
        unreachable!()
    };
    KeyRange::new(first, last)
}

/// How the tables of a level lie.
fn level_layout<N: Naming, S: Shelf>(
    alloc: Global,
    registry: &Registry<N, S>,
    level: &[TableRef<N, S>],
) -> Result<Layout, AllocError>
    requires bounded { AreBounded level.now }
    requires order { IsSortedBy stands_before level.now }
    ensures { IfOk result (λ layout. LieAs level.now layout) }
{
    let mut ranges = Vec::new(alloc);
    for table in level {
        let record = registry.record(table);
        let range = range_of(record.smallest.as_slice(), record.largest.as_slice());
        ranges.push(range)?;
    }
    Ok(layout_of(&ranges))
}

/// Refuses the least level from 1 on with two tables that meet in internal keys. A user key may go
/// on in the next table.
pub(crate) fn judge_layouts<N: Naming, S: Shelf>(
    alloc: Global,
    registry: &Registry<N, S>,
    levels: &[Vec<TableRef<N, S>>],
) -> Result<(), CheckFault>
    requires seven { length levels.now ≡ 7 }
    requires bounded { AreLevelsBounded (map (λ l. l.items) levels.now) }
    requires order { AreInOrder (map (λ l. l.items) levels.now) }
    ensures ok { OnOk result (LieInOrder (map (λ l. l.items) levels.now)) }
    ensures refused { IfErr result (λ e. IsLayoutRefusal (map (λ l. l.items) levels.now) e) }
{
    for number in 1..7u8 {
        let level = levels[number as usize].as_slice();
        match level_layout(alloc, registry, level)? {
            Layout::Overlap => return Err(CheckFault::Overlap(number)),
            _ => {}
        }
    }
    Ok(())
}
