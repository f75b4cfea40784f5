//! Tables that become one, with all their entries.

ghost use Rattle.std.specs.Prelude.{◌≡◌, ◌<◌, [], ◌∷◌, ℕ, List, IfErr, IfOk, OnErr, OnOk, false};
ghost use Rattle.std.specs.Prelude.{length};
ghost use Rattle.lsm_codec.specs.Lists.{Has};
ghost use Rattle.lsm_shelf.specs.Told.{Told, Becomes, putting};
ghost use Rattle.lsm_table.specs.HeldTable.{entries_in};
ghost use Rattle.lsm_table.specs.Options.{AreInRange};
ghost use Rattle.lsm_table.specs.Registry.{Table};
ghost use Rattle.lsm_table.specs.declared.table_options.TableOptions.{TableOptions};
ghost use Rattle.lsm_model.specs.Files.{all_entries};
ghost use Rattle.lsm_model.specs.Merging.{Placed};
ghost use Rattle.lsm_iterators.specs.Heads.{no_more};
ghost use Rattle.lsm_iterators.specs.Runs.{ReadsNoOther};
ghost use Rattle.lsm_version.specs.Versions.{IsWhole, files_of};
ghost use Rattle.lsm_merge.specs.Causes.{HasCause, NamesRefused};
ghost use Rattle.lsm_merge.specs.Dropping.{Follows, IsUpTo};
ghost use Rattle.lsm_merge.specs.Gathering.{HasEachOf, IsInTheMaking, IsOfOneOutput};
ghost use Rattle.lsm_merge.specs.Gathering.{PutsAtMost, TakesIn};
ghost use Rattle.lsm_merge.specs.InputOrder.{HasTwins, StandInOrder};
ghost use Rattle.lsm_merge.specs.Inputs.{AreInputs, IsOrderFault, IsReadable, input_numbers};
ghost use Rattle.lsm_merge.specs.Inputs.{numbers_of};
ghost use Rattle.lsm_merge.specs.Work.{IsBuilt, job_of};

use crate::copies::again_all;
use crate::inputs::open_stream;
use crate::job::Job;
use crate::job_parts::JobParts;
use crate::merge_fault::{InputFault, MergeFault};
use crate::output::Output;
use crate::outputs::grow;
use crate::putting::put_image;
use crate::stream::Stream;
use lsm_codec::Bytes;
use lsm_table::{
    NamedShelf, Naming, ReadFault, Registry, Shelf, TableFault, TableOptions, TableRef, entries_are,
};
use lsm_version::tables_are_whole;
use std::alloc::Global;
use std::sync::Wait;

/// A table in the making that begins with the entry at hand, which is passed.
#[tactic(auto, using(crate::proofs::Refused::refused_build))]
fn begin_with<N: Naming, S: Shelf>(
    shelf: &mut NamedShelf<N, S>,
    alloc: Global,
    stream: &mut Stream<N, S>,
    sizes: TableOptions,
    number: u64,
) -> Result<Output, MergeFault>
    requires some { no_more stream.old.left.placed ≡ false }
    requires in_range { AreInRange sizes }
    ensures ok { (p : Placed) (rest : List Placed) → stream.old.left.placed ≡ p ∷ rest
        → IfOk result (λ o. TakesIn S.honest number sizes [] p rest o
        stream.new.before stream.new.left) }
    ensures files { OnOk result (ReadsNoOther stream.old.left stream.new.left) }
    ensures told { Becomes shelf.old shelf.new }
    ensures cause { IfErr result (λ e. (inputs : List ℕ) → AreInputs stream.old.left.files inputs
        → HasCause inputs e shelf.old shelf.new) }
    ensures refused { IfErr result (NamesRefused (S.refuses N.place) sizes) }
    ensures sound { S.honest → IfErr result IsReadable }
    ensures numbers { IfErr result (IsOfOneOutput number) }
    ensures order { IfErr result (λ e. IsOrderFault e → ⊥) }
{
    let Some(key) = stream.key() else {
        unreachable!()
    };
    let output = match Output::begin(alloc, number, sizes, &key, stream.value()) {
        Ok(output) => output,
        Err(fault) => return Err(MergeFault::of_build(number, fault)),
    };
    stream.pass(shelf, alloc)?;
    Ok(output)
}

/// Takes the entry at hand into a table in the making, and passes it.
fn take_in<N: Naming, S: Shelf>(
    shelf: &mut NamedShelf<N, S>,
    alloc: Global,
    stream: &mut Stream<N, S>,
    output: &mut Output,
) -> Result<(), MergeFault>
    requires some { no_more stream.old.left.placed ≡ false }
    requires up { IsUpTo output.old.entries stream.old.before }
    ensures ok { (p : Placed) (rest : List Placed) → stream.old.left.placed ≡ p ∷ rest
        → OnOk result (TakesIn S.honest output.old.number output.old.options output.old.entries
        p rest output.new stream.new.before stream.new.left) }
    ensures files { OnOk result (ReadsNoOther stream.old.left stream.new.left) }
    ensures told { Becomes shelf.old shelf.new }
    ensures cause { IfErr result (λ e. (inputs : List ℕ) → AreInputs stream.old.left.files inputs
        → HasCause inputs e shelf.old shelf.new) }
    ensures refused { IfErr result (NamesRefused (S.refuses N.place) output.old.options) }
    ensures sound { S.honest → IfErr result IsReadable }
    ensures numbers { IfErr result (IsOfOneOutput output.old.number) }
    ensures order { IfErr result (λ e. IsOrderFault e → (p : Placed) (rest : List Placed)
        → stream.old.left.placed ≡ p ∷ rest → Follows stream.old.before p.1 → ⊥) }
{
    let Some(key) = stream.key() else {
        unreachable!()
    };
    if !stream.is_followed_by(&key) {
        return Err(MergeFault::ReadFailed(stream.number(), InputFault::OutOfOrder));
    }
    output.tell_order();
    grow(output, &key, stream.value())?;
    stream.pass(shelf, alloc)
}

/// Puts a table in the making, and then its record into the registry.
#[tactic(auto, using(crate::proofs::Refused::refused_build))]
fn put_gathered<N: Naming, S: Shelf, R: Wait>(
    rt: &R,
    alloc: Global,
    shelf: &mut NamedShelf<N, S>,
    registry: &Registry<N, S>,
    output: Output,
) -> Result<TableRef<N, S>, MergeFault>
    ensures whole { IfOk result IsWhole }
    ensures entries { IfOk result (λ t. entries_in t.image ≡ output.entries) }
    ensures built { IfOk result (IsBuilt output.options) }
    ensures number { IfOk result (λ t. t.number ≡ output.number) }
    ensures told { IfOk result (λ t.
        Becomes (putting output.number t.image shelf.old) shelf.new) }
    ensures cause { IfErr result (λ e. HasCause [] e shelf.old shelf.new) }
    ensures refused { IfErr result (NamesRefused (S.refuses N.place) output.options) }
    ensures stands { OnErr result
        (PutsAtMost output.number output.options shelf.old shelf.new) }
    ensures numbers { IfErr result (IsOfOneOutput output.number) }
    ensures order { IfErr result (λ e. IsOrderFault e → ⊥) }
    ensures sound { IfErr result IsReadable }
{
    tables_are_whole();
    entries_are();
    let number = output.number();
    let image = match output.finish(alloc) {
        Ok(image) => image,
        Err(fault) => return Err(MergeFault::of_build(number, fault)),
    };
    let mut put = Vec::new(alloc);
    let table = put_image(rt, alloc, shelf, registry, image, number, &mut put)?;
    Ok(table)
}

/// That the inputs gave no entry: the first of them is at fault.
fn no_entry<N: Naming, S: Shelf>(registry: &Registry<N, S>, job: &Job<N, S>) -> MergeFault
    requires { 0 < length job.now.upper }
    ensures cause { (t u : Told) → HasCause (input_numbers job.now) result t u }
    ensures refused { (options : TableOptions) → NamesRefused (S.refuses N.place) options result }
    ensures numbers { (number : ℕ) → IsOfOneOutput number result }
    ensures order { IsOrderFault result → ⊥ }
{
    let first = registry.record(&job.upper()[0]).number();
    let fault = ReadFault::Table(TableFault::BadIndex);
    MergeFault::ReadFailed(first, InputFault::Read(fault))
}

/// The inputs of a job as one stream, and a table in the making that has its first entry.
fn begin_gathered<N: Naming, S: Shelf>(
    shelf: &mut NamedShelf<N, S>,
    alloc: Global,
    registry: &Registry<N, S>,
    job: &Job<N, S>,
    number: u64,
) -> Result<(Stream<N, S>, Output), MergeFault>
    requires some { 0 < length job.now.upper }
    ensures begun { IfOk result (λ r. IsInTheMaking S.honest job.now number r.1
        r.0.before r.0.left shelf.old shelf.new) }
    ensures told { Becomes shelf.old shelf.new }
    ensures cause { IfErr result (λ e.
        HasCause (input_numbers job.now) e shelf.old shelf.new) }
    ensures refused { IfErr result (NamesRefused (S.refuses N.place) job.now.table) }
    ensures sound { S.honest → IfErr result IsReadable }
    ensures numbers { IfErr result (IsOfOneOutput number) }
    ensures order { IfErr result (λ e. IsOrderFault e → ⊥) }
{
    // What holds of the job is told by this call.
    let _ticket = job.ticket();
    let mut stream = open_stream(shelf, alloc, registry, job)?;
    if stream.is_at_end() {
        return Err(no_entry(registry, job));
    }
    let output = begin_with(shelf, alloc, &mut stream, job.table(), number)?;
    Ok((stream, output))
}

/// Merges all entries of a job's inputs into one table, under this number. Nothing is dropped.
fn gather_inputs<N: Naming, S: Shelf, R: Wait>(
    rt: &R,
    alloc: Global,
    shelf: &mut NamedShelf<N, S>,
    registry: &Registry<N, S>,
    job: &Job<N, S>,
    number: u64,
) -> Result<TableRef<N, S>, MergeFault>
    requires some { 0 < length job.now.upper }
    ensures whole { IfOk result IsWhole }
    ensures number { IfOk result (λ t. t.number ≡ number) }
    ensures built { IfOk result (IsBuilt job.now.table) }
    ensures entries { S.honest → IfOk result (λ t.
        HasEachOf (entries_in t.image) (all_entries (job_of job.now).inputs)) }
    ensures told { IfOk result (λ t. Becomes (putting number t.image shelf.old) shelf.new) }
    ensures cause { IfErr result (λ e.
        HasCause (input_numbers job.now) e shelf.old shelf.new) }
    ensures refused { IfErr result (NamesRefused (S.refuses N.place) job.now.table) }
    ensures sound { S.honest → IfErr result IsReadable }
    ensures numbers { IfErr result (IsOfOneOutput number) }
    ensures order { S.honest → StandInOrder job.now → IfErr result (λ e. IsOrderFault e
        → HasTwins (all_entries (job_of job.now).inputs)) }
    ensures stands { OnErr result (PutsAtMost number job.now.table shelf.old shelf.new) }
{
    let begun = begin_gathered(shelf, alloc, registry, job, number)?;
    let (mut stream, mut output) = begun;
    'entries: for _ in rt.forever() {
        if stream.is_at_end() {
            return put_gathered(rt, alloc, shelf, registry, output);
        }
        take_in(shelf, alloc, &mut stream, &mut output)?;
    }
    unreachable!()
}

/// Merges tables, of which there is one at least, into one table with all their entries, which is
/// put on the shelf under this number, and then its row is pushed into the registry. The tables may
/// overlap, as those of level 0 do. It holds one block a table, and the new one.
///
/// # Errors
/// `OutOfMemory` where a growth was refused; `ReadFailed` with the number of the table that could
/// not be read or whose next entry has the internal key of the one before it; `PutFailed` with the
/// new number where the table could not be built or put. Then the shelf was told to put nothing; or
/// the table was put, and its record found no memory.
pub fn gather<N: Naming, S: Shelf, R: Wait>(
    rt: &R,
    alloc: Global,
    shelf: &mut NamedShelf<N, S>,
    registry: &Registry<N, S>,
    tables: &[TableRef<N, S>],
    sizes: TableOptions,
    number: u64,
) -> Result<TableRef<N, S>, MergeFault>
    requires some { 0 < length tables.now }
    requires whole { S.honest → (t : Table) → Has tables.now t → IsWhole t }
    requires in_range { AreInRange sizes }
    ensures whole { IfOk result IsWhole }
    ensures number { IfOk result (λ t. t.number ≡ number) }
    ensures built { IfOk result (IsBuilt sizes) }
    ensures entries { S.honest → IfOk result (λ t.
        HasEachOf (entries_in t.image) (all_entries (files_of 0 tables.now))) }
    ensures told { IfOk result (λ t. Becomes (putting number t.image shelf.old) shelf.new) }
    ensures cause { IfErr result (λ e.
        HasCause (numbers_of tables.now) e shelf.old shelf.new) }
    ensures refused { IfErr result (NamesRefused (S.refuses N.place) sizes) }
    ensures sound { S.honest → IfErr result IsReadable }
    ensures numbers { IfErr result (IsOfOneOutput number) }
    ensures order { S.honest → IfErr result (λ e. IsOrderFault e
        → HasTwins (all_entries (files_of 0 tables.now))) }
    ensures stands { OnErr result (PutsAtMost number sizes shelf.old shelf.new) }
{
    let job = Job::of(JobParts {
        ticket: 0,
        level: 0,
        upper: again_all(alloc, tables)?,
        lower: Vec::new(alloc),
        low: Bytes::of(Vec::new(alloc)),
        high: Bytes::of(Vec::new(alloc)),
        floor: 0,
        ranges: Vec::new(alloc),
        is_move: false,
        table: sizes,
        target_size: 0,
    });
    gather_inputs(rt, alloc, shelf, registry, &job, number)
}
