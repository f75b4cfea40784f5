//! Logs that are read up to the first fault.

ghost use Rattle.std.specs.Prelude.{◌≡◌, ◌++◌, [], ℕ, List, length, false, true, IfErr, IfOk, None};
ghost use Rattle.std.specs.Prelude.{MatchOption};
ghost use Rattle.lsm_manifest.specs.Shape.{IsShape};
ghost use Rattle.lsm_manifest.specs.WholeEdit.{FitsShape};
ghost use Rattle.lsm_opening.specs.Tidying.{OnlyReads};
ghost use Rattle.lsm_wal.specs.WriteLog.{IsWriteLog, after};
ghost use Rattle.lsm_wal.specs.Front.{IsFront};
ghost use Rattle.lsm_wal.specs.declared.write_batch.WriteBatch.{WriteBatch};
ghost use Rattle.lsm_log_files.specs.Logs.{AreLogs, AreRead, AreUnread, IsUngiven, ReadsNext};
ghost use Rattle.lsm_log_files.specs.Source.{ReadsManifest};
ghost use Rattle.lsm_log_files.specs.Stops.{AreReadTo, IsBadLog, IsNoSourceTo, IsSourceTo};
ghost use Rattle.lsm_log_files.specs.Stops.{ReadsFront};

use crate::log_files::logs_read;
use crate::log_stop::LogStop;
use crate::reading::{SourceRead, load_log, read_shape, read_source, sum_of};
use crate::source_fault::SourceFault;
use lsm_directory::FolderFile;
use lsm_folder::FolderCalls;
use lsm_table::{NamedShelf, Naming, Shelf};
use lsm_wal::{LeftOut, WriteLogs};
use std::alloc::Global;
use std::sync::Wait;

/// Reads the log of a number behind those before up to its first fault, where it has one, and
/// answers what is left out of it.
fn read_front<C: FolderCalls, R: Wait>(
    rt: &R,
    alloc: Global,
    folder: &mut C,
    logs: &mut WriteLogs,
    number: u64,
) -> Result<LeftOut, SourceFault>
    ensures read { IfOk result (λ left. MatchOption left.fault
        (ReadsNext number logs.old logs.new 0 left.bytes (C.calls folder.old)
        (C.calls folder.new))
        (λ e. ReadsFront number e left.bytes logs.old logs.new (C.calls folder.old)
        (C.calls folder.new))) }
    ensures refused { IfErr result (λ e.
        IsUngiven number e (C.calls folder.old) (C.calls folder.new)) }
    ensures reads { OnlyReads (C.calls folder.old) (C.calls folder.new) }
    ensures place { C.place folder.new ≡ C.place folder.old }
{
    let bytes = load_log(rt, alloc, folder, number)?;
    let left = logs.read_to_fault(alloc, &bytes)?;
    Ok(left)
}

/// What was read of logs: how many bytes at the ends of the whole ones hold no whole record; how
/// many logs these are, with the one of the stop; and where it stopped, if it did.
#[derive(Clone, Copy, Debug)]
struct LogsFront {
    rest: u64,
    count: u64,
    stop: Option<LogStop>,
}

/// Reads the logs of these numbers, one behind another, behind none, up to the first fault.
fn read_fronts<C: FolderCalls, R: Wait>(
    rt: &R,
    alloc: Global,
    folder: &mut C,
    logs: &mut WriteLogs,
    numbers: &[u64],
) -> Result<LogsFront, SourceFault>
    requires none { logs.old ≡ [] }
    ensures whole { IfOk result (λ f. MatchOption f.stop
        ((f.count ≡ length numbers.now)
        × AreRead numbers.now logs.new f.rest (C.calls folder.old) (C.calls folder.new))
        (λ stop. AreReadTo stop numbers.now logs.new f.count f.rest (C.calls folder.old)
        (C.calls folder.new))) }
    ensures refused { IfErr result (λ e.
        AreUnread numbers.now e (C.calls folder.old) (C.calls folder.new)) }
    ensures given { IfErr result (λ e. IsBadLog e → ⊥) }
    ensures reads { OnlyReads (C.calls folder.old) (C.calls folder.new) }
    ensures place { C.place folder.new ≡ C.place folder.old }
{
    let total = numbers.len() as u64;
    let mut rest: u64 = 0;
    let mut count: u64 = 0;
    for number in numbers {
        count += 1;
        let left = read_front(rt, alloc, folder, logs, *number)?;
        match left.fault {
            None => rest = sum_of(rest, left.bytes)?,
            Some(fault) => {
                let stop = LogStop {
                    log: *number,
                    fault,
                    bytes: left.bytes,
                    later: total - count,
                };
                return Ok(LogsFront {
                    rest,
                    count,
                    stop: Some(stop),
                });
            }
        }
    }
    Ok(LogsFront {
        rest,
        count,
        stop: None,
    })
}

/// What is read of a database beside its tables, where logs may be read up to the first fault. How
/// many logs were read, with the one at fault; and where that was, if there was one: then this log
/// is read up to it, and none of the later ones, whose numbers are among those of the source too.
#[derive(Debug, Drop)]
pub struct SourceFront {
    pub source: SourceRead,
    pub count: u64,
    pub stop: Option<LogStop>,
}

/// Reads the manifest of a shelf, and then the logs among these files in the folder up to the first
/// fault. Nothing is written.
fn read_source_front<C: FolderCalls, N: Naming, S: Shelf, R: Wait>(
    rt: &R,
    alloc: Global,
    folder: &mut C,
    files: &[FolderFile],
    source: &mut NamedShelf<N, S>,
) -> Result<SourceFront, SourceFault>
    ensures read { IfOk result (λ f. IsSourceTo true f.stop files.now f.source.shape f.source.logs
        f.count f.source.rest (C.calls folder.old) (C.calls folder.new) source.old source.new) }
    ensures logs { IfOk result (λ f. AreLogs f.source.shape.log f.source.shape.prev_log files.now
        f.source.numbers.items) }
    ensures shape { IfOk result (λ f. IsShape f.source.shape) }
    ensures keys { IfOk result (λ f. FitsShape f.source.shape) }
    ensures refused { IfErr result (λ e. IsNoSourceTo true (S.refuses N.place) files.now e
        (C.calls folder.old) (C.calls folder.new) source.old source.new) }
    ensures reads { OnlyReads (C.calls folder.old) (C.calls folder.new) }
    ensures place { C.place folder.new ≡ C.place folder.old }
    ensures left { ReadsManifest source.old source.new }
{
    let (shape, torn) = read_shape(rt, alloc, source)?;
    let numbers = logs_read(alloc, files, shape.log, shape.prev_log)?;
    let mut logs = WriteLogs::new(alloc);
    let LogsFront {
        rest: tail,
        count,
        stop,
    } = read_fronts(rt, alloc, folder, &mut logs, &numbers)?;

    // What holds of the logs is told by this call.
    let _end = logs.end();
    let rest = sum_of(torn, tail)?;
    Ok(SourceFront {
        source: SourceRead {
            shape,
            numbers,
            logs,
            rest,
        },
        count,
        stop,
    })
}

/// Reads the manifest of a shelf, and then the logs among these files in the folder: whole, as
/// `read_source` does, or up to the first fault. Nothing is written.
///
/// # Errors
/// Those of `read_source`; no `BadLog` where the logs are read up to the first fault.
pub fn read_source_to<C: FolderCalls, N: Naming, S: Shelf, R: Wait>(
    rt: &R,
    alloc: Global,
    folder: &mut C,
    files: &[FolderFile],
    source: &mut NamedShelf<N, S>,
    to_first_fault: bool,
) -> Result<SourceFront, SourceFault>
    ensures read { IfOk result (λ f. IsSourceTo to_first_fault f.stop files.now f.source.shape
        f.source.logs f.count f.source.rest (C.calls folder.old) (C.calls folder.new) source.old
        source.new) }

    // Nothing is left out where that is not asked for.
    ensures whole { IfOk result (λ f. to_first_fault ≡ false → f.stop ≡ None) }
    ensures logs { IfOk result (λ f. AreLogs f.source.shape.log f.source.shape.prev_log files.now
        f.source.numbers.items) }
    ensures shape { IfOk result (λ f. IsShape f.source.shape) }
    ensures keys { IfOk result (λ f. FitsShape f.source.shape) }
    ensures refused { IfErr result (λ e. IsNoSourceTo to_first_fault (S.refuses N.place) files.now
        e (C.calls folder.old) (C.calls folder.new) source.old source.new) }
    ensures reads { OnlyReads (C.calls folder.old) (C.calls folder.new) }
    ensures place { C.place folder.new ≡ C.place folder.old }
    ensures left { ReadsManifest source.old source.new }
{
    if to_first_fault {
        return read_source_front(rt, alloc, folder, files, source);
    }
    let read = read_source(rt, alloc, folder, files, source)?;
    let count = read.numbers.len() as u64;
    Ok(SourceFront {
        source: read,
        count,
        stop: None,
    })
}
