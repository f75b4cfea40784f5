//! Threads that judge tables.

use crate::judged_table::{JudgedTable, judge_table};
use crate::judged_tables::JudgedTables;
use lsm_codec::List;
use lsm_manifest::{FileMeta, Shape};
use lsm_table::{NamedShelf, Naming, Shelf};
use std::alloc::{AllocError, Global};
use std::sync::Wait;
use std::sync::atomic::{AtomicUsize, Ordering};
use std::thread;
use std::thread::Threads;

/// Is told of each table that a thread has judged. It promises nothing, and nothing rests on what
/// it does.
pub trait Watch {
    /// One more table was judged, of so many files.
    fn judged(&self, all: usize);
}

/// A watch that does nothing.
#[derive(Clone, Copy, Debug, Drop)]
pub struct NoWatch;

impl Watch for NoWatch {
    fn judged(&self, _all: usize) {}
}

/// The files of all levels.
fn files_in(alloc: Global, levels: &[List<FileMeta>]) -> Result<Vec<&FileMeta>, AllocError> {
    let mut files = Vec::new(alloc);
    for level in levels {
        for file in level.as_slice() {
            files.push(file)?;
        }
    }
    Ok(files)
}

/// A table that was judged, with the place of its file among all.
type Placed<N, S> = (usize, JudgedTable<N, S>);

/// What one thread does: it takes files and judges their tables, until none is left to be taken or
/// one is refused.
fn work<N: Naming, S: Shelf, R: Wait, W: Watch>(
    rt: &R,
    alloc: Global,
    shelf: NamedShelf<N, S>,
    files: &[&FileMeta],
    last: u64,
    next: &AtomicUsize,
    watch: &W,
) -> Vec<Placed<N, S>> {
    let mut shelf = shelf;
    let mut judged = Vec::new(alloc);
    for _ in 0..files.len() {
        let index = next.fetch_add(1, Ordering::SeqCst);
        let Some(file) = files.get(index) else {
            break;
        };
        let Ok(table) = judge_table(&mut shelf, rt, alloc, *file, last) else {
            next.store(files.len(), Ordering::SeqCst);
            break;
        };
        if judged.push((index, table)).is_err() {
            break;
        }
        watch.judged(files.len());
    }
    judged
}

/// Room for the tables of so many files.
fn no_tables<N: Naming, S: Shelf>(
    alloc: Global,
    count: usize,
) -> Result<Vec<Option<JudgedTable<N, S>>>, AllocError> {
    let mut tables = Vec::with_capacity(alloc, count)?;
    for _ in 0..count {
        tables.push(None)?;
    }
    Ok(tables)
}

/// Puts tables where their files stand.
fn place<N: Naming, S: Shelf>(tables: &mut [Option<JudgedTable<N, S>>], judged: Vec<Placed<N, S>>) {
    for (index, table) in judged {
        if let Some(slot) = tables.get_mut(index) {
            *slot = Some(table);
        }
    }
}

/// Lets a thread for each shelf judge the tables of all levels.
fn judge_beside<N: Naming, S: Shelf, R: Threads + Wait + Sync, W: Watch + Sync>(
    rt: &R,
    alloc: Global,
    shelves: Vec<NamedShelf<N, S>>,
    levels: &[List<FileMeta>],
    last: u64,
    watch: &W,
) -> Result<Vec<Option<JudgedTable<N, S>>>, AllocError> {
    let files = files_in(alloc, levels)?;
    let files = files.as_slice();
    let mut tables = no_tables(alloc, files.len())?;
    let next = AtomicUsize::new(0);
    let next = &next;
    let parts = thread::map_vec(
        rt,
        shelves,
        &|shelf| { work(rt, alloc, shelf, files, last, next, watch) },
    )?;
    for part in parts {
        place(&mut tables, part);
    }
    Ok(tables)
}

/// Lets threads judge the tables of a shape, one for each of these shelves, forks of one shelf: 1
/// to 8 are meant. Each takes the next file that none has taken, reads its table and judges it; the
/// watch is told by the thread that has judged. After a refusal none takes another file: a check
/// comes to that one, and says what is wrong with it.
///
/// Each thread holds one image at a time. Where a thread cannot be made, its work is done by this
/// one; where memory runs out, none was judged.
pub fn judge_ahead<N: Naming, S: Shelf, R: Threads + Wait + Sync, W: Watch + Sync>(
    rt: &R,
    alloc: Global,
    shelves: Vec<NamedShelf<N, S>>,
    shape: &Shape,
    watch: &W,
) -> JudgedTables<N, S> {
    if shelves.is_empty() {
        return JudgedTables::none(alloc);
    }
    match judge_beside(rt, alloc, shelves, &shape.levels, shape.last, watch) {
        Ok(tables) => JudgedTables::of(tables),
        Err(AllocError) => JudgedTables::none(alloc),
    }
}
