//! The theorems over the system's folder, with the witness that compares: no premise is left of
//! what a read gives. Each is the theorem of its name, without "honest".

ghost use Rattle.std.specs.Prelude.{◌≡◌, ℕ, IfOk, OnOk};
ghost use Rattle.std.specs.Option.{option_map};
ghost use Rattle.lsm_codec.specs.Entries.{answer};
ghost use Rattle.lsm_codec.specs.Keys.{UserKey};
ghost use Rattle.lsm_codec.specs.Lists.{Has};
ghost use Rattle.lsm_iterators.specs.Seeking.{at_or_past};
ghost use Rattle.lsm_model.specs.Files.{all_entries};
ghost use Rattle.lsm_model.specs.Plain.{IsReadable};
ghost use Rattle.lsm_model.specs.Scanning.{IsScan};
ghost use Rattle.lsm_state.specs.Held.{plain};
ghost use Rattle.lsm_state.specs.Reading.{IsSequence};
ghost use Rattle.lsm_store.specs.Readers.{IsPromised};
ghost use Rattle.lsm_theorems.specs.Newest.{IsReadOf, IsReadOfAll};
ghost use Rattle.lsm_theorems.specs.Unchanged.{read_of};
ghost use Rattle.lsm_version.specs.Versions.{files};

use crate::compactions::installs_change_no_answer;
use crate::ingests::ingests_add_their_batch;
use crate::memories::{first_reads_are_remembered, later_reads_go_on};
use crate::reads::{
    reads_give_the_newest, scans_from_a_key_show_the_newest, scans_show_the_newest,
    views_give_the_newest,
};
use lsm_batch::Batch;
use lsm_folder::Images;
use lsm_history::Memory;
use lsm_merge::Finished;
use lsm_model::machine::Premise;
use lsm_query::{Scan, get};
use lsm_slots::Boarded;
use lsm_state::{Ingested, State, StateFault};
use lsm_storage::SystemShelf;
use lsm_store::{Invariant, Store, View};
use lsm_table::{NamedShelf, Naming, ReadFault};
use lsm_version::Version;
use std::alloc::Global;
use std::sync::Wait;

/// A shelf on the system's folder, which lets a read through where it is what was written.
pub type ComparedShelf = SystemShelf<HostRuntime, Images>;

/// Theorems 7 and 9 suppose `P.holds`, where `P` is a state: that its shelf is honest. Of a state
/// over such a shelf that is so.
pub fn compared_states_meet_the_premise<N: Boarded>() {
    premise_is_met::<State<N, ComparedShelf>>();
}

fn premise_is_met<P: Premise>()
    requires { P.holds }
{}

/// A read of a version gives what its newest entry says.
pub fn compared_versions_give_the_newest<N: Naming>(
    version: &Version<N, ComparedShelf>,
    shelf: &mut NamedShelf<N, ComparedShelf>,
    alloc: Global,
    user: &[u8],
    seq: u64,
) -> Result<Option<Vec<u8>>, ReadFault>
    ensures { IfOk result (λ v.
        option_map (λ b. b.items) v ≡ answer (all_entries (files version.now)) user.now seq) }
{
    get(version, shelf, alloc, user, seq)
}

/// Theorem 1, under the lock.
pub fn compared_reads_give_the_newest<N: Boarded>(
    state: &State<N, ComparedShelf>,
    shelf: &mut NamedShelf<N, ComparedShelf>,
    alloc: Global,
    user: &[u8],
    at: Option<u64>,
) -> Result<Option<Vec<u8>>, StateFault>
    ensures { IfOk result (λ v. (seq : ℕ) × IsSequence state.now at seq
        × IsReadOf state.now.history user.now seq (option_map (λ b. b.items) v)) }
{
    reads_give_the_newest(state, shelf, alloc, user, at)
}

/// Theorem 1, by a view.
pub fn compared_views_give_the_newest<N: Boarded>(
    view: &mut View<N, ComparedShelf>,
    alloc: Global,
    user: &[u8],
    seq: u64,
) -> Result<Option<Vec<u8>>, ReadFault>
    ensures { IsPromised view.old seq → IfOk result (λ v.
        IsReadOf view.old.history user.now seq (option_map (λ b. b.items) v)) }
{
    views_give_the_newest(view, alloc, user, seq)
}

/// Theorem 1, of a scan.
pub fn compared_scans_show_the_newest<N: Boarded>(
    view: &mut View<N, ComparedShelf>,
    alloc: Global,
    seq: u64,
) -> Result<Scan<N, ComparedShelf>, ReadFault>
    ensures { IsPromised view.old seq → IfOk result (λ s. IsScan seq view.old.history s.left) }
{
    scans_show_the_newest(view, alloc, seq)
}

/// Theorem 1, of a scan from a key on.
pub fn compared_scans_from_a_key_show_the_newest<N: Boarded>(
    view: &mut View<N, ComparedShelf>,
    alloc: Global,
    seq: u64,
    from: &[u8],
) -> Result<Scan<N, ComparedShelf>, ReadFault>
    ensures { IsPromised view.old seq
        → IfOk result (λ s. IsScan seq (at_or_past from.now view.old.history) s.left) }
{
    scans_from_a_key_show_the_newest(view, alloc, seq, from)
}

/// Theorem 2, of a result that is installed or refused: what reads give.
pub fn compared_installs_change_no_answer<N: Boarded, R: Wait>(
    rt: &R,
    alloc: Global,
    state: &mut State<N, ComparedShelf>,
    shelf: &mut NamedShelf<N, ComparedShelf>,
    done: Finished<N, ComparedShelf>,
) -> Result<Vec<u64>, (StateFault, Finished<N, ComparedShelf>)>
    ensures { (k : UserKey) (seq : ℕ) → IsReadable (plain state.old) seq
        → read_of state.new k seq ≡ read_of state.old k seq }
{
    installs_change_no_answer(rt, alloc, state, shelf, done)
}

/// Theorem 3: what reads at live snapshots give.
pub fn compared_ingests_change_no_snapshot<N: Boarded, R: Wait>(
    rt: &R,
    alloc: Global,
    state: &mut State<N, ComparedShelf>,
    shelf: &mut NamedShelf<N, ComparedShelf>,
    batch: &Batch,
) -> Result<Ingested, StateFault>
    ensures { OnOk result ((id seq : ℕ) (k : UserKey) → Has state.old.snapshots.taken (id, seq)
        → read_of state.new k seq ≡ read_of state.old k seq) }
{
    ingests_add_their_batch(rt, alloc, state, shelf, batch)
}

/// Theorem 5, of the first read.
pub fn compared_first_reads_are_remembered<N: Boarded, K: Invariant, R: Wait>(
    rt: &R,
    alloc: Global,
    store: &Store<N, ComparedShelf, K>,
    shelf: &mut NamedShelf<N, ComparedShelf>,
    user: &[u8],
) -> (Result<Option<Vec<u8>>, StateFault>, Memory<N>)
    ensures { IfOk result.0 (λ v. IsReadOfAll result.1 user.now (option_map (λ b. b.items) v)) }
{
    first_reads_are_remembered(rt, alloc, store, shelf, user)
}

/// Theorem 5, of a later read.
pub fn compared_later_reads_go_on<N: Boarded, K: Invariant, R: Wait>(
    rt: &R,
    alloc: Global,
    store: &Store<N, ComparedShelf, K>,
    shelf: &mut NamedShelf<N, ComparedShelf>,
    memory: Memory<N>,
    user: &[u8],
) -> (Result<Option<Vec<u8>>, StateFault>, Memory<N>)
    ensures { IfOk result.0 (λ v. IsReadOfAll result.1 user.now (option_map (λ b. b.items) v)) }
{
    later_reads_go_on(rt, alloc, store, shelf, memory, user)
}
