//! The merge of a job.

ghost use Rattle.std.specs.Prelude.{◌≡◌, [], ◌∷◌, ◌++◌, ℕ, List, None, false, true, IfOk, IfErr};
ghost use Rattle.std.specs.Prelude.{OnErr, OnOk};
ghost use Rattle.lsm_model.specs.Files.{all_entries};
ghost use Rattle.lsm_model.specs.Merging.{Placed};
ghost use Rattle.lsm_iterators.specs.Heads.{no_more};
ghost use Rattle.lsm_iterators.specs.Runs.{ReadsNoOther};
ghost use Rattle.lsm_shelf.specs.Told.{Becomes};
ghost use Rattle.lsm_merge.specs.Causes.{AnswersOf, AsksFor, HasCause, Leaves, NamesRefused};
ghost use Rattle.lsm_merge.specs.Causes.{NamesTicket};
ghost use Rattle.lsm_merge.specs.Compacting.{AreMergedOf, nothing_of};
ghost use Rattle.lsm_merge.specs.Dropping.{Follows, IsUpTo, is_kept};
ghost use Rattle.lsm_merge.specs.InputOrder.{HasTwins, StandInOrder};
ghost use Rattle.lsm_merge.specs.Inputs.{AreInputs, IsOrderFault, IsReadable, Stepped};
ghost use Rattle.lsm_merge.specs.Inputs.{input_numbers};
ghost use Rattle.lsm_merge.specs.Limits.{IsOverLimit, IsSizeFault};
ghost use Rattle.lsm_merge.specs.Outputs.{AreGood, PutsEach, PutsMore, PutsTables, drawn_of};
ghost use Rattle.lsm_merge.specs.Outputs.{entries_of_last, going, putting_all};
ghost use Rattle.lsm_merge.specs.PutBefore.{IsTime, PutsBefore, PutsLast};
ghost use Rattle.lsm_merge.specs.Work.{job_of, puts_by, puts_of};
ghost use Rattle.lsm_merge.specs.declared.merge_fault.MergeFault.TheVariants.{OutOfMemory};

use crate::copies::again_all;
use crate::dropping::is_kept;
use crate::finished::Finished;
use crate::inputs::open_stream;
use crate::job::Job;
use crate::merge_fault::{InputFault, MergeFault};
use crate::number_source::NumberSource;
use crate::outputs::Outputs;
use crate::rows::Rows;
use crate::stream::Stream;
use lsm_model::laws::streaming_keeps_the_kept;
use lsm_table::{NamedShelf, Naming, Registry, Shelf};
use std::alloc::Global;
use std::sync::Wait;

/// One step of the merge: the entry at hand is dropped or placed, and passed.
#[tactic(auto, using(crate::proofs::PutLaws::puts_none))]
fn step<N: Naming, S: Shelf, R: Wait, D: NumberSource>(
    rt: &R,
    alloc: Global,
    shelf: &mut NamedShelf<N, S>,
    registry: &Registry<N, S>,
    job: &Job<N, S>,
    ranges: &Rows<'_>,
    numbers: &mut D,
    outputs: &mut Outputs<N, S>,
    stream: &mut Stream<N, S>,
) -> Result<(), MergeFault>
    requires ranges { ranges.now ≡ job.now.ranges }
    requires ready { D.ready numbers.old }
    requires good { AreGood outputs.old }
    requires some { no_more stream.old.left.placed ≡ false }
    requires up { IsUpTo (entries_of_last outputs.old.last) stream.old.before }
    ensures ok { (p : Placed) (rest : List Placed) → stream.old.left.placed ≡ p ∷ rest → OnOk result
        (Stepped S.honest job.now p rest stream.old.before stream.new.before outputs.old outputs.new
        stream.new.left) }
    ensures drawn { OnOk result ((there : List ℕ) → D.drew numbers.old ≡ drawn_of outputs.old there
        → D.drew numbers.new ≡ drawn_of outputs.new there) }
    ensures answered { OnOk result (D.refused numbers.new ≡ D.refused numbers.old) }
    ensures files { OnOk result (ReadsNoOther stream.old.left stream.new.left) }
    ensures told { PutsMore outputs.old.put outputs.new.put shelf.old shelf.new }
    ensures tables { OnOk result
        (PutsTables outputs.old.tables outputs.new.tables shelf.old shelf.new) }
    ensures leaves { IfErr result (λ e. (there : List ℕ) → D.drew numbers.old
        ≡ drawn_of outputs.old there → Leaves e outputs.new.put (D.drew numbers.new) there) }
    ensures stands { OnErr result ((p : Placed) (rest : List Placed)
        → stream.old.left.placed ≡ p ∷ rest → PutsLast outputs.old (IsTime outputs.old
        (is_kept job.now.floor job.now.ranges stream.old.before p.1) p.1) outputs.new.put
        shelf.old shelf.new) }
    ensures why { IfErr result (λ e. AnswersOf e (D.refused numbers.old) (D.refused numbers.new)) }
    ensures cause { IfErr result (λ e. (inputs : List ℕ) → AreInputs stream.old.left.files inputs
        → HasCause inputs e shelf.old shelf.new) }
    ensures refused { IfErr result (NamesRefused (S.refuses N.place) outputs.old.options) }
    ensures sound { S.honest → IfErr result IsReadable }
    ensures order { IfErr result (λ e. IsOrderFault e → (p : Placed) (rest : List Placed)
        → stream.old.left.placed ≡ p ∷ rest → Follows stream.old.before p.1 → ⊥) }
    ensures asked { AsksFor outputs.old.ticket (D.asked numbers.old) (D.asked numbers.new) }
    ensures ticket { IfErr result (λ e. NamesTicket e outputs.old.ticket) }
    ensures large { IfErr result (λ e. IsSizeFault e → (p : Placed) (rest : List Placed)
        → stream.old.left.placed ≡ p ∷ rest
        → IsOverLimit outputs.old.options (entries_of_last outputs.old.last ++ p.1 ∷ [])) }
    ensures ready { D.ready numbers.new }
{
    let Some(key) = stream.key() else {
        unreachable!()
    };
    if !stream.is_followed_by(&key) {
        return Err(MergeFault::ReadFailed(stream.number(), InputFault::OutOfOrder));
    }
    outputs.tell_order();
    let floor = job.floor();
    let shadowed = stream.shadows(floor, &key);
    let kept = is_kept(shadowed, floor, ranges, &key);
    outputs.take(rt, shelf, registry, numbers, kept, &key, stream.value())?;
    stream.pass(shelf, alloc)
}

/// Merges the inputs of a job into outputs.
#[tactic(auto, using(crate::proofs::PutLaws::each_none, crate::proofs::PutLaws::puts_none, crate::proofs::PutLaws::tables_none))]
fn merge<N: Naming, S: Shelf, R: Wait, D: NumberSource>(
    rt: &R,
    alloc: Global,
    shelf: &mut NamedShelf<N, S>,
    registry: &Registry<N, S>,
    job: &Job<N, S>,
    numbers: &mut D,
    outputs: &mut Outputs<N, S>,
) -> Result<(), MergeFault>
    requires ready { D.ready numbers.old }
    requires fresh { outputs.old ≡ nothing_of job.now }
    ensures good { OnOk result (AreGood outputs.new × (outputs.new.last ≡ None)) }
    ensures sizes { OnOk result (outputs.new.options ≡ job.now.table) }
    ensures kept { S.honest → OnOk result (AreMergedOf job.now outputs.new.tables) }
    ensures drew { OnOk result (D.drew numbers.new ≡ going outputs.new.put (D.drew numbers.old)) }
    ensures answered { OnOk result (D.refused numbers.new ≡ D.refused numbers.old) }
    ensures told { PutsEach outputs.new.put shelf.old shelf.new }
    ensures tables { OnOk result
        (Becomes (putting_all (puts_of outputs.new.tables) shelf.old) shelf.new) }
    ensures leaves { IfErr result (λ e.
        Leaves e outputs.new.put (D.drew numbers.new) (D.drew numbers.old)) }
    ensures before { OnErr result
        (PutsBefore S.honest job.now outputs.new.put shelf.old shelf.new) }
    ensures why { IfErr result (λ e. AnswersOf e (D.refused numbers.old) (D.refused numbers.new)) }
    ensures cause { IfErr result (λ e. HasCause (input_numbers job.now) e shelf.old shelf.new) }
    ensures refused { IfErr result (NamesRefused (S.refuses N.place) job.now.table) }
    ensures sound { S.honest → IfErr result IsReadable }
    ensures asked { AsksFor job.now.ticket (D.asked numbers.old) (D.asked numbers.new) }
    ensures ticket { IfErr result (λ e. NamesTicket e job.now.ticket) }
    ensures large { S.honest → IfErr result (λ e. IsSizeFault e
        → IsOverLimit job.now.table (all_entries (job_of job.now).inputs)) }
    ensures order { S.honest → StandInOrder job.now
        → IfErr result (λ e. IsOrderFault e → HasTwins (all_entries (job_of job.now).inputs)) }
    ensures apart { S.honest → StandInOrder job.now
        → OnOk result (HasTwins (all_entries (job_of job.now).inputs) → ⊥) }
    ensures ready { D.ready numbers.new }
{
    streaming_keeps_the_kept();
    // What holds of the job is told by this call.
    let _ticket = job.ticket();
    let Ok(ranges) = Rows::of(alloc, job.ranges()) else {
        return Err(MergeFault::OutOfMemory);
    };
    let mut stream = open_stream(shelf, alloc, registry, job)?;
    'entries: for _ in rt.forever() {
        if stream.is_at_end() {
            return outputs.put_last(rt, shelf, registry);
        }
        step(
            rt,
            alloc,
            shelf,
            registry,
            job,
            &ranges,
            numbers,
            outputs,
            &mut stream,
        )?;
    }
    unreachable!()
}

/// The job with its one input as its output.
fn hand_on<N: Naming, S: Shelf>(
    alloc: Global,
    job: Job<N, S>,
) -> Result<Finished<N, S>, (MergeFault, Job<N, S>, Vec<u64>)>
    requires { job.is_move ≡ true }
    ensures work { IfOk result (λ f. f.work ≡ job) }
    ensures put { IfOk result (λ f. f.put ≡ []) }
    ensures refused { IfErr result (λ e. (e.0 ≡ OutOfMemory) × (e.1 ≡ job) × (e.2.items ≡ [])) }
{
    // What holds of the job is told by this call.
    let _ticket = job.ticket();
    match again_all(alloc, job.upper()) {
        Ok(outputs) => Ok(Finished {
            job,
            outputs,
            put: Vec::new(alloc),
        }),
        Err(_memory) => Err((MergeFault::OutOfMemory, job, Vec::new(alloc))),
    }
}

/// Merges the tables of a job into new ones, which hold what the job keeps of their entries
/// (LevelDB's `doc/impl.md`, "Compactions"). Each is put on the shelf under a number that is drawn
/// for it when it gets its first entry, and then its row is pushed into the registry. It holds one
/// block a source, the output in the making, and the key of the entry before. A move puts nothing,
/// and hands its input on.
///
/// # Errors
/// With every refusal the job comes back, with the numbers of the tables that were put, in the
/// order in which they were put. `OutOfMemory` where a growth was refused; `ReadFailed` with the
/// number of the input that could not be read or whose next entry has the internal key of the one
/// before it; `PutFailed` with the number of the output that could not be built or put;
/// `UnknownTicket` and `NumbersSpent` are the source's.
#[tactic(auto, using(crate::proofs::PutLaws::each_none))]
pub fn compact<N: Naming, S: Shelf, R: Wait, D: NumberSource>(
    rt: &R,
    alloc: Global,
    shelf: &mut NamedShelf<N, S>,
    registry: &Registry<N, S>,
    job: Job<N, S>,
    numbers: &mut D,
) -> Result<Finished<N, S>, (MergeFault, Job<N, S>, Vec<u64>)>
    requires ready { D.ready numbers.old }

    // What a finished job has, its type says (`Finished::job`).
    ensures work { IfOk result (λ f. f.work ≡ job) }

    // The shelf was told to put just the outputs, in their order, each under its number with its
    // image, and the numbers drawn are theirs.
    ensures told { IfOk result (λ f. Becomes (putting_all (puts_by f) shelf.old) shelf.new) }
    ensures drew { IfOk result (λ f. D.drew numbers.new ≡ going f.put (D.drew numbers.old)) }
    ensures answered { OnOk result (D.refused numbers.new ≡ D.refused numbers.old) }

    // A refusal hands the job back, with just the numbers put, and the tables put under them are
    // the job's (`before`).
    ensures back { IfErr result (λ e. e.1 ≡ job) }
    ensures put { IfErr result (λ e. PutsEach e.2.items shelf.old shelf.new) }
    ensures before { IfErr result (λ e.
        PutsBefore S.honest job e.2.items shelf.old shelf.new) }
    ensures leaves { IfErr result (λ e.
        Leaves e.0 e.2.items (D.drew numbers.new) (D.drew numbers.old)) }
    ensures why { IfErr result (λ e.
        AnswersOf e.0 (D.refused numbers.old) (D.refused numbers.new)) }
    ensures cause { IfErr result (λ e. HasCause (input_numbers job) e.0 shelf.old shelf.new) }
    ensures refused { IfErr result (λ e. NamesRefused (S.refuses N.place) job.table e.0) }
    ensures sound { S.honest → IfErr result (λ e. IsReadable e.0) }

    // Over an honest shelf inputs that stand in order are refused as out of order only where two of
    // their entries have one internal key, and are not merged there; and an output is too large
    // only where entries of the inputs make no table.
    ensures order { S.honest → StandInOrder job
        → IfErr result (λ e. IsOrderFault e.0 → HasTwins (all_entries (job_of job).inputs)) }
    ensures apart { S.honest → StandInOrder job → job.is_move ≡ false
        → OnOk result (HasTwins (all_entries (job_of job).inputs) → ⊥) }
    ensures large { S.honest → IfErr result (λ e. IsSizeFault e.0
        → IsOverLimit job.table (all_entries (job_of job).inputs)) }

    // Numbers are drawn for the job's ticket, and for no other.
    ensures asked { AsksFor job.ticket (D.asked numbers.old) (D.asked numbers.new) }
    ensures ticket { IfErr result (λ e. NamesTicket e.0 job.ticket) }

    // A move asks nothing of the shelf or of the source of numbers.
    ensures unasked { job.is_move ≡ true
        → (shelf.new ≡ shelf.old) × (D.drew numbers.new ≡ D.drew numbers.old)
        × (D.refused numbers.new ≡ D.refused numbers.old)
        × (D.asked numbers.new ≡ D.asked numbers.old) }
    ensures moved { job.is_move ≡ true
        → IfErr result (λ e. (e.0 ≡ OutOfMemory) × (e.2.items ≡ [])) }
    ensures ready { D.ready numbers.new }
{
    if job.is_move() {
        return hand_on(alloc, job);
    }
    // What holds of the job is told by this call.
    let _ticket = job.ticket();
    let mut outputs = Outputs::none(alloc, &job);
    let merged = merge(rt, alloc, shelf, registry, &job, numbers, &mut outputs);
    let (tables, put) = outputs.into_parts();
    match merged {
        Ok(()) => Ok(Finished {
            job,
            outputs: tables,
            put,
        }),
        Err(fault) => Err((fault, job, put)),
    }
}
