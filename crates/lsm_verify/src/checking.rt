//! The version of a shape: its tables are read and judged.

ghost use Rattle.std.specs.Prelude.{◌≡◌, IfErr, IfOk, List, Option, length, map, ℕ};
ghost use Rattle.lsm_shelf.specs.Stored.{Stored};
ghost use Rattle.lsm_shelf.specs.Asked.{Load};
ghost use Rattle.lsm_table.specs.Told.{Becomes};
ghost use Rattle.lsm_verify.specs.CheckFault.{CheckCounted};
ghost use Rattle.lsm_verify.specs.AskedCalls.{IsCheckAsked};
ghost use Rattle.lsm_verify.specs.Counts.{count_of};
ghost use Rattle.lsm_verify.specs.CheckRefusal.{AreTablesOf, IsOfShape, IsRefusal};
ghost use Rattle.lsm_verify.specs.Settled.{IsSettled, KeepsAge};
ghost use Rattle.lsm_version.specs.FileNumbers.{AreDistinct, numbers_of};
ghost use Rattle.lsm_version.specs.Versions.{IsSound, files, files_from};

use crate::ages::judge_ages;
use crate::check_fault::CheckFault;
use crate::entry_counts::counts_of;
use crate::file_numbers::judge_numbers;
use crate::judged_tables::JudgedTables;
use crate::layouts::judge_layouts;
use crate::loading::load_levels;
use crate::unsettled::unsettled_files;
use lsm_manifest::Shape;
use lsm_table::{NamedShelf, Naming, Registry, Shelf, TableRef};
use lsm_version::{Version, copies_of};
use std::alloc::Global;
use std::sync::{Arc, Wait};

/// Reads and judges the tables of a shape, level by level, and counts the entries of each level.
fn check_levels<N: Naming, S: Shelf, R: Wait>(
    shelf: &mut NamedShelf<N, S>,
    rt: &R,
    alloc: Global,
    registry: &Arc<Registry<N, S>>,
    ahead: JudgedTables<N, S>,
    shape: &Shape,
) -> Result<(Vec<Vec<TableRef<N, S>>>, Vec<u64>), CheckFault>
    ensures tables { IfOk result (λ v. AreTablesOf (Stored S.Receipt (S.is_of N.place)
        S.Receipt.number S.Receipt.image) shape.now (map (λ l. l.items) v.0.items)) }
    ensures seven { IfOk result (λ v. length v.0.items ≡ 7) }
    ensures judged { IfOk result (λ v. (pointers : List (Option (List ℕ)))
        → KeepsAge (files_from 0 (map (λ l. l.items) v.0.items)) → IsSound record {
          tables = map (λ l. l.items) v.0.items;
          pointers = pointers;
          last = shape.now.last;
        }) }
    ensures ages { S.honest
        → IfOk result (λ v. KeepsAge (files_from 0 (map (λ l. l.items) v.0.items))) }
    ensures entries { IfOk result (λ v.
        v.1.items ≡ map count_of (map (λ l. l.items) v.0.items)) }
    ensures refused { IfErr result (λ e.
        IsRefusal (Stored S.Receipt (S.is_of N.place) S.Receipt.number S.Receipt.image) (λ number.
        S.refuses N.place (Load number)) S.honest shape.now e) }
    ensures asked { IfErr result (IsCheckAsked (S.refuses N.place)) }
    ensures told { Becomes shelf.old shelf.new }
    ensures cause { IfErr result (λ e. CheckCounted e shelf.old shelf.new) }
{
    judge_numbers(alloc, &shape.levels)?;
    let mut ahead = ahead;
    let (levels, sequences) = load_levels(shelf, rt, alloc, registry, &mut ahead, shape)?;
    judge_layouts(alloc, registry, &levels)?;
    let unsettled = unsettled_files(alloc, registry, &levels, &sequences)?;
    judge_ages(shelf, alloc, registry, &levels, &unsettled)?;
    let counts = counts_of(alloc, &sequences)?;
    Ok((levels, counts))
}

/// The version of a shape: reads every table of it from the shelf, one image at a time, and
/// judges them. No two of its files have one number. Whatever the shelf gives later, the
/// version is sound but for the age order; and sound where the ranges and the sequences of its
/// files alone settle that (`IsSettled`): then no table is read again. Else the tables of the
/// files that are not settled are read a second time, block by block, and the version is sound
/// as long as the shelf gives the same bytes again, as an honest one does.
///
/// `DoubleFile` with the least number that two files have; then the files by level, and in a
/// level in the order of the shape: the shelf's refusals, those of a table, and want of memory
/// over it, with the file's number, and `WrongRange` where a table has another size, another
/// first or last internal key than the shape says, no entries, or an entry above the last
/// sequence; then `Overlap` with the least level from 1 on in which two files meet in internal
/// keys (a user key may go on in the next file of a level); then, where a second look is
/// needed, the shelf's refusals and those of a table with the number of one of the files that
/// are not settled, or `AgeOrder` with the least user key of which a deeper entry has no lesser
/// sequence than a shallower one (that a key's entries are newer the shallower they lie is what
/// LevelDB's `doc/impl.md` builds on; that a database which breaks it is refused is this
/// project's rule). Beside want of memory a file may be named or not.
///
/// Time: one walk through each table, by its bytes; for each file a search in each deeper
/// level, and a look at the files there that its range meets. The files of level 0 are sorted
/// by number; just those whose least sequence is not above the greatest of all files of a
/// lesser number are looked at with each other file of level 0. Of files whose sequences rise
/// with their numbers, as LevelDB writes them, there are none. A second look is a merge, and
/// takes a merge's time.
pub fn check<N: Naming, S: Shelf, R: Wait>(
    shelf: &mut NamedShelf<N, S>,
    rt: &R,
    alloc: Global,
    shape: &Shape,
    registry: Arc<Registry<N, S>>,
) -> Result<Version<N, S>, CheckFault>
    ensures shape { IfOk result (λ v. IsOfShape shape.now v) }
    ensures numbers { IfOk result (λ _. AreDistinct (numbers_of shape.now.levels)) }
    ensures sound { S.honest → IfOk result (λ v. IsSound v) }
    // Whatever the shelf is.
    ensures settled { IfOk result (λ v. IsSettled (files v) → IsSound v) }
    ensures judged { IfOk result (λ v. KeepsAge (files v) → IsSound v) }
    ensures refused { IfErr result (λ e.
        IsRefusal (Stored S.Receipt (S.is_of N.place) S.Receipt.number S.Receipt.image) (λ number.
        S.refuses N.place (Load number)) S.honest shape.now e) }
    ensures asked { IfErr result (IsCheckAsked (S.refuses N.place)) }
    ensures told { Becomes shelf.old shelf.new }
    ensures cause { IfErr result (λ e. CheckCounted e shelf.old shelf.new) }
{
    let none = JudgedTables::none(alloc);
    let (version, _counts) = check_by(shelf, rt, alloc, shape, registry, none)?;
    Ok(version)
}

/// The same, of which these tables were judged before, as `judge_ahead` does. Whichever they are,
/// the answer is one that `check` gives: such a table was read from these contents and judged as
/// this call does, and each other one is read and judged here, in the order of the files, so that
/// the first refusal is this call's own. With the version comes how many entries each level has.
pub fn check_by<N: Naming, S: Shelf, R: Wait>(
    shelf: &mut NamedShelf<N, S>,
    rt: &R,
    alloc: Global,
    shape: &Shape,
    registry: Arc<Registry<N, S>>,
    ahead: JudgedTables<N, S>,
) -> Result<(Version<N, S>, Vec<u64>), CheckFault>
    ensures shape { IfOk result (λ r. IsOfShape shape.now r.0) }
    ensures numbers { IfOk result (λ _. AreDistinct (numbers_of shape.now.levels)) }
    ensures sound { S.honest → IfOk result (λ r. IsSound r.0) }
    // Whatever the shelf is.
    ensures settled { IfOk result (λ r. IsSettled (files r.0) → IsSound r.0) }
    ensures judged { IfOk result (λ r. KeepsAge (files r.0) → IsSound r.0) }
    ensures entries { IfOk result (λ r. r.1.items ≡ map count_of r.0.tables) }
    ensures refused { IfErr result (λ e.
        IsRefusal (Stored S.Receipt (S.is_of N.place) S.Receipt.number S.Receipt.image) (λ number.
        S.refuses N.place (Load number)) S.honest shape.now e) }
    ensures asked { IfErr result (IsCheckAsked (S.refuses N.place)) }
    ensures told { Becomes shelf.old shelf.new }
    ensures cause { IfErr result (λ e. CheckCounted e shelf.old shelf.new) }
{
    let (levels, counts) = check_levels(shelf, rt, alloc, &registry, ahead, shape)?;
    let pointers = copies_of(alloc, &shape.pointers)?;
    let version = Version::of(alloc, registry, levels, pointers, shape.last)?;
    Ok((version, counts))
}

ghost use Rattle.lsm_manifest.specs.declared.shape.Shape.{Shape};
ghost use Rattle.lsm_verify.specs.Loading.{AreInFileOrder, AreLevelsOf};
ghost use Rattle.lsm_version.specs.Versions.{Levels};

/// A law: where the files of each level of a shape stand in the level's order, as those of a replay
/// do, a version of the shape has a table for each of them in just that order.
pub fn shapes_in_order()
    ensures { (shape : Shape) (v : Levels) → IsOfShape shape v → AreInFileOrder shape.levels
        → AreLevelsOf shape.last shape.levels v.tables }
{}
