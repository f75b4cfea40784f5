//! The age order of the files that ranges and sequences alone do not settle.

ghost use Rattle.std.specs.Prelude.{◌≡◌, ◌==◌, IfErr, IfOk, List, MatchOption, OnOk, length, map};
ghost use Rattle.std.specs.List.{filter, list_any};
ghost use Rattle.std.specs.List.Sorted.{IsNonDecreasing};
ghost use Rattle.lsm_codec.specs.Lists.{Has};
ghost use Rattle.lsm_table.specs.ReadFault.{IsMemoryOrShelf, ReadCounted};
ghost use Rattle.lsm_table.specs.Told.{Becomes};
ghost use Rattle.lsm_model.specs.Ages.{IsAgeOrder, IsLeastAgainstAge};
ghost use Rattle.lsm_model.specs.Files.{File, Fits};
ghost use Rattle.lsm_model.specs.Merging.{Placed, merge_all};
ghost use Rattle.lsm_verify.specs.CheckFault.{CheckCounted};
ghost use Rattle.lsm_verify.specs.CheckRefusal.{IsAgeRefusal};
ghost use Rattle.lsm_verify.specs.AskedCalls.{IsLookAsked};
ghost use Rattle.lsm_reader.specs.Refusals.{IsReadRefusal};
ghost use Rattle.lsm_query.specs.Unread.{IsOfFile, NamesOne};
ghost use Rattle.lsm_query.specs.Runs.{AreMergeable, AreRunsOf, IsNumberIn};
ghost use Rattle.lsm_verify.specs.Chosen.{chosen, is_among};
ghost use Rattle.lsm_verify.specs.Settled.{AreUnsettled, KeepsAge};
ghost use Rattle.lsm_version.specs.Versions.{files_from, level_in};

use crate::check_fault::CheckFault;
use lsm_codec::Bytes;
use lsm_iterators::{Merger, against_age};
use lsm_query::{SharedLevels, Unread, open_runs};
use lsm_reader::{Blocks, Direct};
use lsm_table::{NamedShelf, Naming, Registry, Shelf, TableRef};
use std::alloc::{AllocError, Global};
use std::sync::Arc;

/// Whether a number is one of ascending ones.
pub(crate) fn is_among(numbers: &[u64], number: u64) -> bool
    requires { IsNonDecreasing numbers.now }
    ensures { result ≡ list_any (λ n. n == number) numbers.now }
{
    numbers.binary_search(&number).is_ok()
}

/// The tables of these numbers of a level.
fn choose_level<N: Naming, S: Shelf>(
    alloc: Global,
    registry: &Registry<N, S>,
    level: &[TableRef<N, S>],
    numbers: &[u64],
) -> Result<Vec<TableRef<N, S>>, AllocError>
    requires ascending { IsNonDecreasing numbers.now }
    ensures { IfOk result (λ v. v.items ≡ filter (is_among numbers.now) level.now) }
{
    let mut tables = Vec::new(alloc);
    for table in level {
        if is_among(numbers, registry.record(table).number()) {
            tables.push(table.again())?;
        }
    }
    Ok(tables)
}

/// The same of all levels.
fn choose<N: Naming, S: Shelf>(
    alloc: Global,
    registry: &Registry<N, S>,
    levels: &[Vec<TableRef<N, S>>],
    numbers: &[u64],
) -> Result<Vec<Vec<TableRef<N, S>>>, AllocError>
    requires ascending { IsNonDecreasing numbers.now }
    ensures { IfOk result (λ v.
        map (λ l. l.items) v.items ≡ chosen numbers.now (map (λ l. l.items) levels.now)) }
{
    let mut chosen = Vec::new(alloc);
    for level in levels {
        chosen.push(choose_level(alloc, registry, level.as_slice(), numbers)?)?;
    }
    Ok(chosen)
}

/// Such tables, to be shared with their sources.
fn choose_shared<N: Naming, S: Shelf>(
    alloc: Global,
    registry: &Arc<Registry<N, S>>,
    levels: &[Vec<TableRef<N, S>>],
    numbers: &[u64],
) -> Result<SharedLevels<N, S>, AllocError>
    requires ascending { IsNonDecreasing numbers.now }
    ensures { IfOk result (λ l. l ≡ chosen numbers.now (map (λ l. l.items) levels.now)) }
{
    let chosen = choose(alloc, registry, levels, numbers)?;
    let chosen = Arc::new(alloc, chosen)?;
    Ok(SharedLevels::of(Arc::try_clone(registry)?, chosen))
}

/// Goes through the tables of all levels in the order of keys, block by block: the least user key
/// of which a deeper entry has no lesser sequence than a shallower one, if there is one. A refusal
/// names the file of one of these tables, unless memory ran out beside them.
fn look_again<N: Naming, S: Shelf, B: Blocks<N, S>>(
    blocks: &mut B,
    alloc: Global,
    levels: &SharedLevels<N, S>,
) -> Result<Option<Bytes>, Unread>
    requires seven { length levels.now ≡ 7 }
    requires mergeable { S.honest → AreMergeable levels.now }
    ensures judged { S.honest → IfOk result (λ r. (ls : List (List Placed))
        × AreRunsOf (level_in levels.now 0) (Has (files_from 0 levels.now)) ls
        × MatchOption r (IsAgeOrder (merge_all ls)) (λ k. IsLeastAgainstAge (merge_all ls) k)) }
    ensures sound { S.honest → IfErr result (λ e. IsMemoryOrShelf e.fault) }
    ensures number { IfErr result (λ e. NamesOne (IsNumberIn levels.now) e.file e.fault) }
    ensures told { Becomes (B.told blocks.old) (B.told blocks.new) }
    ensures loan { B.loan blocks.new ≡ B.loan blocks.old }
    ensures cause { IfErr result (λ e.
        ReadCounted e.fault (B.told blocks.old) (B.told blocks.new)) }
    ensures refused { IfErr result (λ e.
        IsOfFile (IsReadRefusal (S.refuses N.place)) e.file e.fault) }
{
    let runs = open_runs(blocks, alloc, levels)?;
    let mut merger = Merger::new(alloc, runs)?;
    match against_age(blocks, alloc, &mut merger) {
        Ok(user) => Ok(user),
        Err(fault) => Err(Unread {
            file: Some(fault.number),
            fault: fault.fault,
        }),
    }
}

/// Reads the tables of these numbers a second time, block by block, in the order of keys, and
/// refuses the least user key of which a deeper entry has no lesser sequence than a shallower one.
/// Where there is no number, it reads nothing. A refusal names a file of one of these numbers,
/// unless memory ran out beside them.
pub(crate) fn judge_ages<N: Naming, S: Shelf>(
    shelf: &mut NamedShelf<N, S>,
    alloc: Global,
    registry: &Arc<Registry<N, S>>,
    levels: &[Vec<TableRef<N, S>>],
    unsettled: &[u64],
) -> Result<(), CheckFault>
    requires seven { length levels.now ≡ 7 }
    requires mergeable { AreMergeable (map (λ l. l.items) levels.now) }
    requires fits { (F : File) → Has (files_from 0 (map (λ l. l.items) levels.now)) F → Fits F }
    requires ascending { IsNonDecreasing unsettled.now }
    requires unsettled { AreUnsettled (files_from 0 (map (λ l. l.items) levels.now)) unsettled.now }
    ensures ok { S.honest → OnOk result (KeepsAge (files_from 0 (map (λ l. l.items) levels.now))) }
    ensures refused { IfErr result (λ e.
        IsAgeRefusal S.honest (files_from 0 (map (λ l. l.items) levels.now)) e) }
    ensures asked { IfErr result (IsLookAsked (S.refuses N.place)) }
    ensures told { Becomes shelf.old shelf.new }
    ensures cause { IfErr result (λ e. CheckCounted e shelf.old shelf.new) }
{
    if unsettled.is_empty() {
        return Ok(());
    }
    let chosen = choose_shared(alloc, registry, levels, unsettled)?;
    let mut direct = Direct::new(shelf);
    match look_again(&mut direct, alloc, &chosen) {
        Ok(None) => Ok(()),
        Ok(Some(user)) => Err(CheckFault::AgeOrder(user)),
        Err(unread) => Err(CheckFault::Read(unread.file, unread.fault)),
    }
}
