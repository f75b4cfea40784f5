//! A store: one is opened over a shelf in memory, batches come in, views read it, and two workers
//! compact it. A view answers from the version that it was begun at, whatever is brought in,
//! compacted and collected later.

ghost use Rattle.std.specs.Prelude.{◌≡◌, IfOk};
ghost use Rattle.std.specs.Option.{option_map};
ghost use Rattle.lsm_codec.specs.Entries.{answer};
ghost use Rattle.lsm_model.specs.Files.{all_entries};
ghost use Rattle.lsm_opening.specs.Parts.{AreOf, usual};
ghost use Rattle.lsm_version.specs.Versions.{files};

use anyhow::{Context, bail};
use lsm_batch::Batch;
use lsm_codec::Bytes;
use lsm_opening::{NewParts, begin};
use lsm_slots::Boarded;
use lsm_storage::MemoryShelf;
use lsm_store::{NoGate, Reader, Store, View, WorkerEnd, WorkerFault, forks, run_workers};
use lsm_table::{NamedShelf, ReadFault, Shelf};
use std::alloc::{AllocError, Global};
use std::io::Print;
use std::marker::Brand;
use std::sync::Wait;
use std::thread::Threads;

fn bytes(alloc: Global, text: &str) -> Result<Bytes, AllocError> {
    Ok(Bytes::of(Vec::from_slice(alloc, text.as_bytes())?))
}

fn put(alloc: Global, batch: &mut Batch, key: &str, value: &str) -> Result<(), AllocError> {
    batch.put(bytes(alloc, key)?, bytes(alloc, value)?)
}

/// What apples and cherries are today. The keys of a batch ascend.
fn batch(alloc: Global, apple: &str, cherry: &str) -> Result<Batch, AllocError> {
    let mut batch = Batch::new(alloc);
    put(alloc, &mut batch, "apple", apple)?;
    put(alloc, &mut batch, "cherry", cherry)?;
    Ok(batch)
}

/// Brings a batch in. The guard of the lock is let go with the statement.
fn bring_in<N: Boarded, S: Shelf, R: Wait + Print>(
    rt: &R,
    alloc: Global,
    store: &Store<N, S>,
    shelf: &mut NamedShelf<N, S>,
    batch: &Batch,
) -> anyhow::Result<()> {
    let came = store.lock(rt).state.ingest(rt, alloc, shelf, batch)?;
    Ok(println!(rt;
        "table {} has sequences {} to {}",
        came.file, came.first, came.last
    )?)
}

/// Brings in what apples and cherries are today.
fn update<N: Boarded, S: Shelf, R: Wait + Print>(
    rt: &R,
    alloc: Global,
    store: &Store<N, S>,
    shelf: &mut NamedShelf<N, S>,
    apple: &str,
    cherry: &str,
) -> anyhow::Result<()> {
    let batch = batch(alloc, apple, cherry)?;
    bring_in(rt, alloc, store, shelf, &batch)
}

/// A view of the current version, which the next reader learns under the lock. No view is begun
/// between the two.
fn view_of<N: Boarded, S: Shelf, R: Wait>(
    rt: &R,
    store: &Store<N, S>,
    readers: &mut Vec<Reader<N, S>>,
) -> anyhow::Result<View<N, S>> {
    let mut reader = readers.pop().context("no reader is left")?;
    reader.refresh(&mut store.lock(rt).state)?;
    match reader.begin() {
        Ok(view) => Ok(view),
        Err((_reader, fault)) => Err(fault.into()),
    }
}

/// The newest value of a key in the view's version.
fn newest<N: Boarded, S: Shelf>(
    alloc: Global,
    view: &mut View<N, S>,
    key: &str,
) -> Result<Option<Vec<u8>>, ReadFault>
    ensures { S.honest → IfOk result (λ v. option_map (λ b. b.items) v
        ≡ answer (all_entries (files view.old.version)) key.now view.old.version.last) }
{
    let last = view.last();
    view.get(alloc, key.as_bytes(), last)
}

/// Prints what the view answers for a key.
fn show<N: Boarded, S: Shelf>(
    rt: &impl Print,
    alloc: Global,
    view: &mut View<N, S>,
    key: &str,
) -> anyhow::Result<()> {
    match newest(alloc, view, key)? {
        Some(value) => println!(rt; "{key}: {}", str::from_utf8(&value)?)?,
        None => println!(rt; "{key}: absent")?,
    }
    Ok(())
}

/// Prints what the view answers for both keys.
fn show_both<N: Boarded, S: Shelf>(
    rt: &impl Print,
    alloc: Global,
    view: &mut View<N, S>,
) -> anyhow::Result<()> {
    show(rt, alloc, view, "apple")?;
    show(rt, alloc, view, "cherry")
}

/// How many results workers installed.
fn installed(ends: &[WorkerEnd]) -> Result<u64, WorkerFault> {
    let mut installed = 0u64;
    for end in ends {
        if let Some(fault) = end.fault {
            return Err(fault);
        }
        installed = installed.saturating_add(end.installed);
    }
    Ok(installed)
}

/// Compacts with two workers, in a thread each.
fn compact<N: Boarded, S: Shelf, R: Threads + Wait + Print + Sync>(
    rt: &R,
    alloc: Global,
    store: &Store<N, S>,
    shelf: &mut NamedShelf<N, S>,
) -> anyhow::Result<()> {
    let shelves = forks(alloc, shelf, 2)?;
    let ends = run_workers(rt, alloc, store, shelves, &NoGate)?;
    Ok(println!(rt; "workers installed {}", installed(&ends)?)?)
}

/// Removes the tables that no version needs any more.
fn collect<N: Boarded, S: Shelf, R: Wait + Print>(
    rt: &R,
    alloc: Global,
    store: &Store<N, S>,
    shelf: &mut NamedShelf<N, S>,
) -> anyhow::Result<()> {
    match store.lock(rt).state.collect(rt, alloc, shelf) {
        Ok(removed) => Ok(println!(rt; "{} tables went", removed.len())?),
        Err((fault, _removed)) => Err(fault.into()),
    }
}

/// Two batches more come in, workers compact, and tables go. The view, which was begun before,
/// answers as it did then.
fn go_on<N: Boarded, S: Shelf, R: Threads + Wait + Print + Sync>(
    rt: &R,
    alloc: Global,
    store: &Store<N, S>,
    view: &mut View<N, S>,
    shelf: &mut NamedShelf<N, S>,
) -> anyhow::Result<()> {
    update(rt, alloc, store, shelf, "baked", "dried")?;
    update(rt, alloc, store, shelf, "eaten", "sold")?;
    compact(rt, alloc, store, shelf)?;
    collect(rt, alloc, store, shelf)?;
    show_both(rt, alloc, view)
}

/// Goes on beside a view, which is ended also after a refusal.
fn hold<N: Boarded, S: Shelf, R: Threads + Wait + Print + Sync>(
    rt: &R,
    alloc: Global,
    store: &Store<N, S>,
    readers: &mut Vec<Reader<N, S>>,
    shelf: &mut NamedShelf<N, S>,
) -> anyhow::Result<()> {
    let mut view = view_of(rt, store, readers)?;
    let done = go_on(rt, alloc, store, &mut view, shelf);
    view.end();
    done
}

/// Reads what came in.
fn look<N: Boarded, S: Shelf, R: Wait + Print>(
    rt: &R,
    alloc: Global,
    store: &Store<N, S>,
    readers: &mut Vec<Reader<N, S>>,
) -> anyhow::Result<()> {
    let mut view = view_of(rt, store, readers)?;
    let done = show_both(rt, alloc, &mut view);
    view.end();
    done
}

/// The store at work. What a view holds is collected once it has ended.
fn work<N: Boarded, S: Shelf, R: Threads + Wait + Print + Sync>(
    rt: &R,
    alloc: Global,
    store: &Store<N, S>,
    readers: &mut Vec<Reader<N, S>>,
    shelf: &mut NamedShelf<N, S>,
) -> anyhow::Result<()> {
    update(rt, alloc, store, shelf, "green", "sour")?;
    update(rt, alloc, store, shelf, "red", "sweet")?;
    hold(rt, alloc, store, readers, shelf)?;
    look(rt, alloc, store, readers)?;
    collect(rt, alloc, store, shelf)
}

/// A new database at work. What is generic in `N` is of the parts and of the shelf's contents that
/// the premises name; the caller picks them by `proofs/store/show_store/Invariants.antt`.
fn serve<N: Boarded, S: Shelf, R: Threads + Wait + Print + Sync>(
    rt: &R,
    alloc: Global,
    shelf: S,
    parts: NewParts<S>,
) -> anyhow::Result<()>
    requires parts { AreOf usual N.registry N.board N.history parts }
    requires named { (S.told shelf).place ≡ N.place }
{
    let mut shelf: NamedShelf<N, S> = NamedShelf::of(shelf);
    let state = match begin(rt, alloc, &mut shelf, 1, parts) {
        Ok(state) => state,
        Err(fault) => bail!("{fault}"),
    };
    let reading = shelf.fork(alloc)?;
    match Store::new(alloc, state, reading) {
        Ok((store, mut readers)) => work(rt, alloc, &store, &mut readers, &mut shelf),
        Err((_state, _shelf, fault)) => Err(fault.into()),
    }
}

/// What a program does with a store.
pub fn show_store<R: Threads + Wait + Print + Sync>(rt: &R, alloc: Global) -> anyhow::Result<()> {
    let parts = NewParts::make(alloc)?;
    let shelf = MemoryShelf::new(alloc)?;
    serve::<Brand, MemoryShelf, _>(rt, alloc, shelf, parts)
}
