//! One run of `bench`.

ghost use Rattle.std.specs.Prelude.{◌≡◌, ◌≢◌, IfOk, OnErr, OnOk};
ghost use Rattle.std.specs.Io.KnownBytes.{Keeps};
ghost use Rattle.lsm_cmd_bench.specs.Benched.{BenchesAt, FailsToBench};
ghost use Rattle.lsm_directory.specs.Logs.{NoneUnread};
ghost use Rattle.lsm_opening.specs.declared.prepared.Start.TheVariants.{Begin};

use crate::bench_fault::BenchFault;
use crate::running::run_on;
use lsm_directory::{Known, Paths, first_unread, open_at, refuse, status_of};
use lsm_folder::{FolderCalls, Reasons};
use lsm_opening::{Prepared, Start, WriterFault, plainly, prepare};
use lsm_requests::BenchOptions;
use lsm_storage::FileShelf;
use std::io::Write;
use std::rt::Clock;
use std::sync::Wait;
use std::thread::Threads;

/// The number of the manifest of a database that is to be begun, where there is none, and no log
/// that LevelDB would read.
fn number_in(prepared: &Prepared) -> Result<u64, BenchFault>
    ensures begins { IfOk result (λ n. prepared.now.start ≡ Begin n) }
    ensures flushed { OnOk result (NoneUnread 0 0 prepared.now.logs.items) }
{
    let Start::Begin(number) = prepared.start else {
        return Err(BenchFault::IsThere);
    };
    match first_unread(&prepared.logs, 0, 0) {
        Some(log) => Err(BenchFault::Before(WriterFault::UnflushedLog(log))),
        None => Ok(number),
    }
}

/// Begins a database in the folder at a path, and runs the benchmarks on it.
fn bench_at<C, P, R, O>(
    rt: &R,
    paths: &P,
    path: &str,
    options: &BenchOptions,
    reasons: &Reasons,
    out: &mut O,
) -> Result<(), BenchFault>
where
    C: FolderCalls + Send + Sync,
    C::Mark: Send + Sync,
    P: Paths<C>,
    R: Threads + Wait + Clock + Sync,
    O: Write,
    ensures done { OnOk result (BenchesAt C.FolderCalls path.now options.now) }
    ensures refused { OnErr result (FailsToBench C.FolderCalls path.now options.now
        (O.contents out.old) (O.contents out.new)) }
{
    let mut folder = open_at(paths, path, reasons)?;
    let prepared = prepare(rt, paths.alloc(), &mut folder, plainly())?;
    let number = number_in(&prepared)?;
    let shelf = FileShelf::over(folder);
    let (done, _shelf) = run_on(rt, paths.alloc(), shelf, number, options, out);
    done
}

/// Begins a database in the folder at a path, which has none, runs the benchmarks on it, and
/// answers the exit status: 0 then, and 1 where it is refused. Writes a head, and a line for each
/// benchmark once it has run. A fault is one line on `err`, and may have more behind it.
pub fn run_bench<C, P, R, O, E>(
    rt: &R,
    paths: &P,
    path: &str,
    options: &BenchOptions,
    out: &mut O,
    err: &mut E,
) -> u8
where
    C: FolderCalls + Send + Sync,
    C::Mark: Send + Sync,
    P: Paths<C>,
    R: Threads + Wait + Clock + Sync,
    O: Write,
    E: Write,
    ensures done { result ≡ 0 → BenchesAt C.FolderCalls path.now options.now }
    ensures refused { result ≢ 0 → (result ≡ 1) × FailsToBench C.FolderCalls path.now options.now
        (O.contents out.old) (O.contents out.new) }
    ensures quiet { result ≡ 0 → Keeps (E.contents err.old) (E.contents err.new) }
{
    let reasons = match Reasons::new(paths.alloc()) {
        Ok(reasons) => reasons,
        Err(fault) => return refuse(BenchFault::from(fault), err),
    };
    let done = bench_at(rt, paths, path, options, &reasons, out);
    status_of(done, Known::answered(Some(&reasons)), err)
}
