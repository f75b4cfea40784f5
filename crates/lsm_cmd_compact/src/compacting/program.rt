//! One run of a compaction.

ghost use Rattle.std.specs.Prelude.{◌≡◌, ◌≢◌, IsFalse, OnErr, OnOk};
ghost use Rattle.std.specs.Io.KnownBytes.{Keeps};
ghost use Rattle.lsm_cmd_compact.specs.Compacting.{IsCompacted, IsNotCompacted};
ghost use Rattle.lsm_cmd_compact.specs.Compacted.{IsCompactedAt, IsUncompacted};
ghost use Rattle.lsm_opening.specs.declared.faults.compact_fault.CompactFault.{CompactFault};
ghost use Rattle.lsm_shelf.specs.Stored.{Stored};

use crate::compacting::compact_to;
use lsm_directory::{Known, Paths, open_at, refuse, status_of};
use lsm_folder::{FolderCalls, Reasons};
use lsm_opening::{CompactFault, held_shelf};
use lsm_requests::{CompactLine, CompactOptions};
use lsm_table::Shelf;
use std::alloc::Global;
use std::io::Write;
use std::sync::Wait;
use std::thread::Threads;

/// Opens the database on the shelf, compacts it by so many workers (1 to 8 are meant), each in a
/// thread of its own with a fork of the shelf, until none of them finds anything left to do,
/// or, where a range is asked for, no file of it is left but below the deepest level that had one;
/// removes the tables that nothing names any more, writes `installed M`, and answers the exit
/// status: 0 where it is done, and 1 where it is refused. A fault is one line on `err`: that of the
/// first worker, in their order, that has one, and then nothing is removed; else what refused the
/// opening, the removal or the write.
///
/// Where progress is asked for, lines on `err` say what was opened, each job that a worker begins,
/// how many results were installed, and how many files were removed. A line that can't be written
/// is left out.
///
/// Opening begins a new manifest; a database that is not there is not begun. A manifest that ends
/// with bytes which hold no whole record is `TornManifest`, unless that is accepted: then nothing is
/// written. The shelf is given back.
#[tactic(auto, using(crate::proofs::Quiet::quietly))]
pub fn compact<S: Shelf, R: Threads + Wait + Sync, O: Write, E: Write + Send>(
    rt: &R,
    alloc: Global,
    shelf: S,
    options: &CompactOptions,
    out: &mut O,
    err: &mut E,
) -> (u8, S)
    ensures done { result.0 ≡ 0 → IsCompacted (S.refuses (S.told shelf).place) S.honest
        options.now (S.told shelf) (S.told result.1) (O.contents out.old)
        (O.contents out.new) }
    ensures refused { result.0 ≢ 0 → (result.0 ≡ 1) × ((fault : CompactFault)
        × IsNotCompacted (Stored S.Receipt (S.is_of (S.told shelf).place) S.Receipt.number
        S.Receipt.image) (S.refuses (S.told shelf).place) S.honest options.now fault
        (S.told shelf) (S.told result.1) (O.contents out.old) (O.contents out.new)) }
    ensures quiet { result.0 ≡ 0 → IsFalse options.now.progress
        → Keeps (E.contents err.old) (E.contents err.new) }
{
    let (done, shelf) = compact_to(rt, alloc, shelf, options, out, err);
    (status_of(done, Known::answered(None), err), shelf)
}

/// Compacts the folder at the path of a line, under its lock.
#[tactic(auto, using(lsm_directory::proofs::CallerLemmas::keeps_same))]
fn compact_at<C, P, R, O, E>(
    rt: &R,
    paths: &P,
    line: &CompactLine<'_>,
    reasons: &Reasons,
    out: &mut O,
    err: &mut E,
) -> Result<(), CompactFault>
where
    C: FolderCalls + Send + Sync,
    C::Mark: Send + Sync,
    P: Paths<C>,
    R: Threads + Wait + Sync,
    O: Write,
    E: Write + Send,
    ensures done { OnOk result (IsCompactedAt C.FolderCalls line.now (O.contents out.old)
        (O.contents out.new)) }
    ensures refused { OnErr result (IsUncompacted C.FolderCalls C.Mark.Mark line.now
        (O.contents out.old) (O.contents out.new)) }
    ensures quiet { IsFalse line.now.options.progress
        → Keeps (E.contents err.old) (E.contents err.new) }
{
    let folder = open_at(paths, line.path, reasons)?;
    let shelf = held_shelf(rt, folder)?;
    let (done, _shelf) = compact_to(rt, paths.alloc(), shelf, &line.options, out, err);
    done
}

/// Does what a line asks of the folder at its path, and answers the exit status. `Locked` where
/// another program has the folder open.
#[tactic(auto, using(crate::proofs::Quiet::quietly))]
pub fn run_compact<C, P, R, O, E>(
    rt: &R,
    paths: &P,
    line: &CompactLine<'_>,
    out: &mut O,
    err: &mut E,
) -> u8
where
    C: FolderCalls + Send + Sync,
    C::Mark: Send + Sync,
    P: Paths<C>,
    R: Threads + Wait + Sync,
    O: Write,
    E: Write + Send,
    ensures done { result ≡ 0 → IsCompactedAt C.FolderCalls line.now (O.contents out.old)
        (O.contents out.new) }
    ensures refused { result ≢ 0 → (result ≡ 1) × IsUncompacted C.FolderCalls C.Mark.Mark
        line.now (O.contents out.old) (O.contents out.new) }
    ensures quiet { result ≡ 0 → IsFalse line.now.options.progress
        → Keeps (E.contents err.old) (E.contents err.new) }
{
    let reasons = match Reasons::new(paths.alloc()) {
        Ok(reasons) => reasons,
        Err(fault) => return refuse(CompactFault::from(fault), err),
    };
    let done = compact_at(rt, paths, line, &reasons, out, err);
    status_of(done, Known::answered(Some(&reasons)), err)
}
