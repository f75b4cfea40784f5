//! The inputs of a job, as one stream.

ghost use Rattle.std.specs.Prelude.{◌≡◌, ◌<◌, ◌≤◌, ◌++◌, List, None, length, map, IfOk, IfErr, OnOk};
ghost use Rattle.lsm_codec.specs.Lists.{Has};
ghost use Rattle.lsm_codec.specs.Entries.{Entry};
ghost use Rattle.lsm_shelf.specs.Told.{Becomes};
ghost use Rattle.lsm_table.specs.Registry.{Table};
ghost use Rattle.lsm_table.specs.declared.table_options.TableOptions.{TableOptions};
ghost use Rattle.lsm_model.specs.Files.{all_entries};
ghost use Rattle.lsm_model.specs.Merging.{AreOrdered, IsSorted, entries_of, placed_at};
ghost use Rattle.lsm_model.specs.Streams.{IsAscending, IsMerge};
ghost use Rattle.lsm_iterators.specs.Runs.{files_at};
ghost use Rattle.lsm_version.specs.Versions.{IsWhole};
ghost use Rattle.lsm_merge.specs.Causes.{HasCause, NamesRefused};
ghost use Rattle.lsm_merge.specs.InputOrder.{HasTwins, StandInOrder};
ghost use Rattle.lsm_merge.specs.Inputs.{AreInputs, IsOfReading, IsReadable, entries_of_tables};
ghost use Rattle.lsm_merge.specs.Inputs.{files_in, input_numbers, numbers_of, streams};
ghost use Rattle.lsm_merge.specs.Work.{job_of};

use crate::job::Job;
use crate::merge_fault::MergeFault;
use crate::stream::Stream;
use lsm_iterators::{Merger, Run};
use lsm_model::laws::merges_are_in_order;
use lsm_reader::Direct;
use lsm_table::{NamedShelf, Naming, Registry, Shelf, TableRef};
use std::alloc::Global;
use std::slice;

/// The tables of a level one after another, or one table, as a source of this depth.
#[tactic(auto, using(crate::proofs::InputLaws::readable_of, crate::proofs::InputLaws::cause_of_read, crate::proofs::InputLaws::reading_of, crate::proofs::Refused::refused_read))]
fn open_run<N: Naming, S: Shelf>(
    shelf: &mut NamedShelf<N, S>,
    alloc: Global,
    registry: &Registry<N, S>,
    depth: u64,
    tables: &[TableRef<N, S>],
) -> Result<Run<N, S>, MergeFault>
    requires some { 0 < length tables.now }
    requires whole { S.honest → (t : Table) → Has tables.now t → IsWhole t }
    ensures entries { S.honest
        → IfOk result (λ r. r.placed ≡ placed_at depth (entries_of_tables tables.now)) }
    ensures files { IfOk result (λ r. r.files ≡ files_at depth (numbers_of tables.now)) }
    ensures kind { IfErr result IsOfReading }
    ensures sound { S.honest → IfErr result IsReadable }
    ensures told { Becomes shelf.old shelf.new }
    ensures cause { IfErr result (λ e. HasCause (numbers_of tables.now) e shelf.old shelf.new) }
    ensures refused { (options : TableOptions) → IfErr result
        (NamesRefused (S.refuses N.place) options) }
{
    let mut direct = Direct::new(shelf);
    match Run::over_by(&mut direct, alloc, depth, registry, tables) {
        Ok(run) => Ok(run),
        Err(fault) => Err(MergeFault::of_read(fault.number, fault.fault)),
    }
}

/// Adds such a source, where there is a table.
fn push_run<N: Naming, S: Shelf>(
    shelf: &mut NamedShelf<N, S>,
    alloc: Global,
    registry: &Registry<N, S>,
    tables: &[TableRef<N, S>],
    runs: &mut Vec<Run<N, S>>,
) -> Result<(), MergeFault>
    requires whole { S.honest → (t : Table) → Has tables.now t → IsWhole t }
    ensures entries { S.honest → OnOk result (streams runs.new.items
        ≡ streams runs.old.items ++ entries_of_tables tables.now) }
    ensures ordered { S.honest → IsSorted (entries_of_tables tables.now)
        → OnOk result (AreOrdered (map (λ r. r.placed) runs.old.items)
        → AreOrdered (map (λ r. r.placed) runs.new.items)) }
    ensures files { OnOk result (files_in runs.new.items
        ≡ files_in runs.old.items ++ numbers_of tables.now) }
    ensures kind { IfErr result IsOfReading }
    ensures sound { S.honest → IfErr result IsReadable }
    ensures told { Becomes shelf.old shelf.new }
    ensures cause { IfErr result (λ e. HasCause (numbers_of tables.now) e shelf.old shelf.new) }
    ensures refused { (options : TableOptions) → IfErr result
        (NamesRefused (S.refuses N.place) options) }
{
    if tables.is_empty() {
        return Ok(());
    }
    let run = open_run(shelf, alloc, registry, runs.len() as u64, tables)?;
    runs.push(run)?;
    Ok(())
}

/// Adds each table as a source of its own.
fn push_each<N: Naming, S: Shelf>(
    shelf: &mut NamedShelf<N, S>,
    alloc: Global,
    registry: &Registry<N, S>,
    tables: &[TableRef<N, S>],
    runs: &mut Vec<Run<N, S>>,
) -> Result<(), MergeFault>
    requires whole { S.honest → (t : Table) → Has tables.now t → IsWhole t }
    ensures entries { S.honest → OnOk result (streams runs.new.items
        ≡ streams runs.old.items ++ entries_of_tables tables.now) }
    ensures ordered { S.honest → OnOk result (AreOrdered (map (λ r. r.placed) runs.old.items)
        → AreOrdered (map (λ r. r.placed) runs.new.items)) }
    ensures files { OnOk result (files_in runs.new.items
        ≡ files_in runs.old.items ++ numbers_of tables.now) }
    ensures kind { IfErr result IsOfReading }
    ensures sound { S.honest → IfErr result IsReadable }
    ensures told { Becomes shelf.old shelf.new }
    ensures cause { IfErr result (λ e. HasCause (numbers_of tables.now) e shelf.old shelf.new) }
    ensures refused { (options : TableOptions) → IfErr result
        (NamesRefused (S.refuses N.place) options) }
{
    for table in tables {
        push_run(shelf, alloc, registry, slice::from_ref(table), runs)?;
    }
    Ok(())
}

/// Adds the inputs of a job's own level. At level 0, where files may overlap, each is a source of
/// its own.
fn push_upper<N: Naming, S: Shelf>(
    shelf: &mut NamedShelf<N, S>,
    alloc: Global,
    registry: &Registry<N, S>,
    level: usize,
    tables: &[TableRef<N, S>],
    runs: &mut Vec<Run<N, S>>,
) -> Result<(), MergeFault>
    requires whole { S.honest → (t : Table) → Has tables.now t → IsWhole t }
    ensures entries { S.honest → OnOk result (streams runs.new.items
        ≡ streams runs.old.items ++ entries_of_tables tables.now) }
    ensures ordered { S.honest → (1 ≤ level → IsSorted (entries_of_tables tables.now))
        → OnOk result (AreOrdered (map (λ r. r.placed) runs.old.items)
        → AreOrdered (map (λ r. r.placed) runs.new.items)) }
    ensures files { OnOk result (files_in runs.new.items
        ≡ files_in runs.old.items ++ numbers_of tables.now) }
    ensures kind { IfErr result IsOfReading }
    ensures sound { S.honest → IfErr result IsReadable }
    ensures told { Becomes shelf.old shelf.new }
    ensures cause { IfErr result (λ e. HasCause (numbers_of tables.now) e shelf.old shelf.new) }
    ensures refused { (options : TableOptions) → IfErr result
        (NamesRefused (S.refuses N.place) options) }
{
    if level == 0 {
        push_each(shelf, alloc, registry, tables, runs)
    } else {
        push_run(shelf, alloc, registry, tables, runs)
    }
}

/// The merge of the inputs of a job.
fn open_inputs<N: Naming, S: Shelf>(
    shelf: &mut NamedShelf<N, S>,
    alloc: Global,
    registry: &Registry<N, S>,
    job: &Job<N, S>,
) -> Result<Merger<N, S>, MergeFault>
    ensures merges { S.honest → IfOk result (λ m. IsAscending (entries_of m.placed)
        → IsMerge (entries_of m.placed) (all_entries (job_of job.now).inputs)) }
    ensures from { S.honest → IfOk result (λ m. (e : Entry) → Has (entries_of m.placed) e
        → Has (all_entries (job_of job.now).inputs) e) }
    ensures order { S.honest → StandInOrder job.now → IfOk result (λ m.
        (IsAscending (entries_of m.placed) → ⊥) → HasTwins (all_entries (job_of job.now).inputs)) }
    ensures apart { S.honest → StandInOrder job.now → IfOk result (λ m.
        IsAscending (entries_of m.placed) → HasTwins (all_entries (job_of job.now).inputs) → ⊥) }
    ensures files { IfOk result (λ m. AreInputs m.files (input_numbers job.now)) }
    ensures kind { IfErr result IsOfReading }
    ensures sound { S.honest → IfErr result IsReadable }
    ensures told { Becomes shelf.old shelf.new }
    ensures cause { IfErr result (λ e. HasCause (input_numbers job.now) e shelf.old shelf.new) }
    ensures refused { (options : TableOptions) → IfErr result
        (NamesRefused (S.refuses N.place) options) }
{
    merges_are_in_order();
    // What holds of the job is told by this call.
    let _ticket = job.ticket();
    let mut runs = Vec::new(alloc);
    push_upper(shelf, alloc, registry, job.level(), job.upper(), &mut runs)?;
    push_run(shelf, alloc, registry, job.lower(), &mut runs)?;
    Ok(Merger::new(alloc, runs)?)
}

/// The same with the entry before, of which there is none yet.
pub(crate) fn open_stream<N: Naming, S: Shelf>(
    shelf: &mut NamedShelf<N, S>,
    alloc: Global,
    registry: &Registry<N, S>,
    job: &Job<N, S>,
) -> Result<Stream<N, S>, MergeFault>
    ensures before { IfOk result (λ s. s.before ≡ None) }
    ensures merges { S.honest → IfOk result (λ s. IsAscending (entries_of s.left.placed)
        → IsMerge (entries_of s.left.placed) (all_entries (job_of job.now).inputs)) }
    ensures from { S.honest → IfOk result (λ s. (e : Entry) → Has (entries_of s.left.placed) e
        → Has (all_entries (job_of job.now).inputs) e) }
    ensures order { S.honest → StandInOrder job.now
        → IfOk result (λ s. (IsAscending (entries_of s.left.placed) → ⊥)
        → HasTwins (all_entries (job_of job.now).inputs)) }
    ensures apart { S.honest → StandInOrder job.now
        → IfOk result (λ s. IsAscending (entries_of s.left.placed)
        → HasTwins (all_entries (job_of job.now).inputs) → ⊥) }
    ensures files { IfOk result (λ s. AreInputs s.left.files (input_numbers job.now)) }
    ensures kind { IfErr result IsOfReading }
    ensures sound { S.honest → IfErr result IsReadable }
    ensures told { Becomes shelf.old shelf.new }
    ensures cause { IfErr result (λ e. HasCause (input_numbers job.now) e shelf.old shelf.new) }
    ensures refused { (options : TableOptions) → IfErr result
        (NamesRefused (S.refuses N.place) options) }
{
    let merger = open_inputs(shelf, alloc, registry, job)?;
    Ok(Stream::new(alloc, merger))
}
