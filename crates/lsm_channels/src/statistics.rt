//! How much a database has.

ghost use Rattle.std.specs.Prelude.{◌≡◌, IfOk, length, sum_by};
ghost use Rattle.lsm_history.specs.History.{IsLater};
ghost use Rattle.lsm_channels.specs.Counting.{IsListed, capped, files_at, size_at, sizes_of};
ghost use Rattle.lsm_channels.specs.Keeping.{IsKeptByLooks, IsKnown};
ghost use Rattle.lsm_channels.specs.Served.{IsToldBy};
ghost use Rattle.lsm_state.specs.Listing.{listed_from};

use crate::knowing::catch_up;
use lsm_frames::LevelSize;
use lsm_history::Memory;
use lsm_manifest::FileMeta;
use lsm_slots::Boarded;
use lsm_state::State;
use lsm_store::{Invariant, Store};
use lsm_table::Shelf;
use std::alloc::{AllocError, Global};
use std::sync::Wait;

/// The last sequence of a state, and its files, each with its level.
fn files_of<N: Boarded, S: Shelf>(
    state: &mut State<N, S>,
    alloc: Global,
    memory: &mut Memory<N>,
) -> Result<(u64, Vec<(u8, FileMeta)>), AllocError>
    ensures told { IsToldBy state.old memory.old memory.new }
    ensures last { IfOk result (λ r. r.0 ≡ state.old.slots.version.last) }
    ensures files { IfOk result (λ r. r.1.items ≡ listed_from 0 state.old.slots.version.tables) }
    ensures same { state.new ≡ state.old }
{
    catch_up(state, memory);
    let last = state.current().1.last();
    let files = state.files(alloc)?;
    Ok((last, files))
}

/// How many files of a level there are among these.
fn count_at(files: &[(u8, FileMeta)], level: u8) -> u64
    ensures { result ≡ length (files_at level files.now) }
{
    let mut count = 0u64;
    for file in files {
        if file.0 == level {
            count += 1;
        }
    }
    count
}

/// How many bytes the files of a level have, at most 2^64 - 1.
fn bytes_at(files: &[(u8, FileMeta)], level: u8) -> u64
    ensures { result ≡ capped (sum_by (λ f. f.1.size) (files_at level files.now)) }
{
    let mut bytes = 0u128;
    for file in files {
        if file.0 == level {
            bytes += u128::from(file.1.size);
        }
    }
    match u64::try_from(bytes) {
        Ok(bytes) => bytes,
        Err(_) => u64::MAX,
    }
}

/// How much a level has.
fn size_at(files: &[(u8, FileMeta)], level: u8) -> LevelSize
    ensures { result ≡ size_at files.now level }
{
    LevelSize {
        files: count_at(files, level),
        bytes: bytes_at(files, level),
    }
}

/// How much each level has.
pub(crate) fn sizes_of(files: &[(u8, FileMeta)]) -> [LevelSize; 7]
    ensures { result ≡ sizes_of files.now }
{
    [
        size_at(files, 0),
        size_at(files, 1),
        size_at(files, 2),
        size_at(files, 3),
        size_at(files, 4),
        size_at(files, 5),
        size_at(files, 6),
    ]
}

/// The last sequence, and the files, each with its level.
#[tactic(auto, using(crate::proofs::KnownLaws::told_later))]
pub(crate) fn list<N: Boarded, S: Shelf, K: Invariant, R: Wait>(
    rt: &R,
    alloc: Global,
    store: &Store<N, S, K>,
    memory: &mut Memory<N>,
) -> Result<(u64, Vec<(u8, FileMeta)>), AllocError>
    requires looks { IsKeptByLooks K.keeps }
    ensures listed { IfOk result (λ r. IsListed K.keeps r.0 r.1.items memory.old memory.new) }
    ensures known { IsLater memory.new memory.old }
    ensures kept { IsKnown K.keeps memory.new }
{
    files_of(&mut store.lock(rt).state, alloc, memory)
}
