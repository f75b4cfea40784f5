//! Lines come into a store.

ghost use Rattle.std.specs.Prelude.{◌≡◌, [], IfErr, OnOk};
ghost use Rattle.lsm_bulk_load.specs.Keeping.{IsKeptByAll, IsOfLines};
ghost use Rattle.lsm_bulk_load.specs.Loading.{IsLoaded, IsStopped, IsToldOfBatches};

use crate::bringing::take_batch;
use crate::load_fault::LoadFault;
use crate::mark::Mark;
use crate::origin::{Grown, Origin};
use crate::progress::Progress;
use crate::teller::Teller;
use lsm_lines::{BatchEnd, BatchReader};
use lsm_slots::Boarded;
use lsm_store::{Background, Store};
use lsm_table::{NamedShelf, Shelf};
use std::alloc::Global;
use std::io::Read;
use std::sync::Wait;

/// Brings the lines of an input, of which none was gathered yet, into a store that is as far as a
/// mark says, as batches, one after another, while its workers compact beside. How far it is then,
/// and how much came in. The fact of the lock is one that the ingest of each batch keeps that lines
/// of the input spell.
///
/// A refusal leaves whole batches: the mark is behind them, and the progress says how many lines
/// they are, which are all lines before the first one that is no write of a batch, where one is
/// not. Behind `Other` the mark is later than they are. The shelf is asked for nothing but what the
/// ingests of these batches ask.
pub fn load<N: Boarded, S: Shelf, O: Origin, R: Wait, I: Read + Drop, T: Teller>(
    rt: &R,
    alloc: Global,
    store: &Store<N, S, Grown<O>>,
    background: &Background,
    shelf: &mut NamedShelf<N, S>,
    lines: &mut BatchReader<I>,
    mark: Mark<N, O>,
    teller: &mut T,
) -> (Result<(), LoadFault>, Mark<N, O>, Progress)
    requires held { lines.old.held ≡ [] }
    requires asked { IsKeptByAll (S.refuses N.place) (IsOfLines lines.old) O.keeps }
    ensures loaded { OnOk result.0 (IsLoaded lines.old mark result.1 result.2) }
    ensures refused { IfErr result.0 (λ e.
        IsStopped (S.refuses N.place) O.keeps lines.old mark result.1 result.2 e) }
    ensures told { IsToldOfBatches (S.refuses N.place) O.keeps (IsOfLines lines.old)
        shelf.old shelf.new }
{
    let mut mark = mark;
    let mut progress = Progress::none();
    'batches: for _turn in 0..u64::MAX {
        let end = match take_batch(rt, alloc, store, background, shelf, lines, mark, progress) {
            Ok((next, more, end)) => {
                mark = next;
                progress = more;
                end
            }
            Err((fault, left)) => return (Err(fault), left, progress),
        };
        match end {
            BatchEnd::Full => teller.came(progress),
            BatchEnd::End => return (Ok(()), mark, progress),
            BatchEnd::Stopped(fault) => return (Err(LoadFault::Line(fault)), mark, progress),
        }
    }
    (Err(LoadFault::OutOfMemory), mark, progress)
}
