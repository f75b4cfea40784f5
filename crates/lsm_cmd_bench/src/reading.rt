//! Pairs are read.

ghost use Rattle.lsm_bulk_load.specs.Keeping.{IsKeptByLearning};

use crate::bench_fault::BenchFault;
use crate::draws::Draws;
use crate::key::key_of;
use crate::views::{end, view_now};
use lsm_bulk_load::{Grown, Origin};
use lsm_query::Scan;
use lsm_slots::Boarded;
use lsm_store::{Reader, Store, View};
use lsm_table::{ReadFault, Shelf};
use std::alloc::Global;
use std::sync::Wait;

/// How many pairs were found, and how many bytes keys and values of them have.
#[derive(Clone, Copy)]
pub(crate) struct Found {
    pub(crate) pairs: u64,
    pub(crate) bytes: u64,
}

impl Found {
    /// Nothing yet.
    pub(crate) fn nothing() -> Found {
        Found { pairs: 0, bytes: 0 }
    }

    /// A pair more, whose key and value have so many bytes.
    fn add(&mut self, key: usize, value: usize) {
        let pair = (key as u64).saturating_add(value as u64);
        self.pairs = self.pairs.saturating_add(1);
        self.bytes = self.bytes.saturating_add(pair);
    }
}

/// Reads a key in the newest version.
fn read_key<N: Boarded, S: Shelf, O: Origin, R: Wait>(
    rt: &R,
    alloc: Global,
    store: &Store<N, S, Grown<O>>,
    readers: &mut Vec<Reader<N, S>>,
    key: &[u8],
    found: &mut Found,
) -> Result<(), BenchFault>
    requires readers { IsKeptByLearning O.keeps }
{
    let mut view = view_now(rt, store, readers)?;
    let last = view.last();
    let value = view.get(alloc, key, last);
    end(view, readers);
    match value {
        Ok(Some(value)) => {
            found.add(key.len(), value.len());
            Ok(())
        }
        Ok(None) => Ok(()),
        Err(fault) => Err(BenchFault::of_read(fault)),
    }
}

/// Reads so many drawn keys, each in the version that is the newest one then.
pub(crate) fn read_drawn<N: Boarded, S: Shelf, O: Origin, R: Wait>(
    rt: &R,
    alloc: Global,
    store: &Store<N, S, Grown<O>>,
    readers: &mut Vec<Reader<N, S>>,
    keys: u64,
    draws: &mut Draws,
    found: &mut Found,
) -> Result<(), BenchFault>
    requires readers { IsKeptByLearning O.keeps }
{
    for _ in 0..keys {
        let key = key_of(draws.number_below(keys));
        read_key(rt, alloc, store, readers, &key, found)?;
    }
    Ok(())
}

/// Goes on through all pairs of a scan.
fn go_through<N: Boarded, S: Shelf>(
    alloc: Global,
    view: &mut View<N, S>,
    scan: &mut Scan<N, S>,
    found: &mut Found,
) -> Result<(), ReadFault> {
    for _ in 0..u64::MAX {
        if !view.step(alloc, scan)? {
            return Ok(());
        }
        found.add(scan.user().len(), scan.value().len());
    }
    Ok(())
}

/// Goes through all pairs of a view.
fn read_pairs<N: Boarded, S: Shelf>(
    alloc: Global,
    view: &mut View<N, S>,
    found: &mut Found,
) -> Result<(), ReadFault> {
    let last = view.last();
    let mut scan = view.scan(alloc, last)?;
    let read = go_through(alloc, view, &mut scan, found);
    drop(scan);
    read
}

/// Goes through all pairs of the newest version.
pub(crate) fn read_all<N: Boarded, S: Shelf, O: Origin, R: Wait>(
    rt: &R,
    alloc: Global,
    store: &Store<N, S, Grown<O>>,
    readers: &mut Vec<Reader<N, S>>,
    found: &mut Found,
) -> Result<(), BenchFault>
    requires readers { IsKeptByLearning O.keeps }
{
    let mut view = view_now(rt, store, readers)?;
    let read = read_pairs(alloc, &mut view, found);
    end(view, readers);
    match read {
        Ok(()) => Ok(()),
        Err(fault) => Err(BenchFault::of_read(fault)),
    }
}
