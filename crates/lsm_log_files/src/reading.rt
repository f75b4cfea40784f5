//! What is read of a database beside its tables: its manifest, and its logs one after another.

ghost use Rattle.std.specs.Prelude.{◌≡◌, ◌+◌, [], length, IfErr, IfOk};
ghost use Rattle.lsm_storage.specs.FolderFault.{missing_of};
ghost use Rattle.lsm_manifest.specs.Shape.{IsShape};
ghost use Rattle.lsm_manifest.specs.WholeEdit.{FitsShape};
ghost use Rattle.lsm_journal.specs.Recovering.{IsRecoverRefusal};
ghost use Rattle.lsm_journal.specs.declared.recover_fault.RecoverFault.{RecoverFault};
ghost use Rattle.lsm_opening.specs.Tidying.{OnlyReads};
ghost use Rattle.lsm_log_files.specs.Logs.{AreLogs, AreRead, AreUnread, IsGiven, IsLogStop};
ghost use Rattle.lsm_log_files.specs.Logs.{IsUngiven, ReadsNext};
ghost use Rattle.lsm_log_files.specs.Source.{HasShape, IsNoSource, IsSource, ReadsManifest};
ghost use Rattle.lsm_log_files.specs.declared.source_fault.SourceFault.TheVariants.{Manifest};

use crate::log_files::{log_file, logs_read};
use crate::source_fault::SourceFault;
use lsm_directory::FolderFile;
use lsm_folder::{FolderCalls, FolderFault};
use lsm_journal::{Journal, ManifestLimit};
use lsm_manifest::{Shape, replayed_shapes};
use lsm_table::{NamedShelf, Naming, Shelf, ShelfFault};
use lsm_wal::WriteLogs;
use std::alloc::{AllocError, Global};
use std::sync::Wait;

/// What a refusal of a folder means to one that asks it for a log.
fn missing(fault: FolderFault) -> ShelfFault
    ensures { result ≡ missing_of fault }
{
    match fault {
        FolderFault::OutOfMemory => ShelfFault::OutOfMemory,
        FolderFault::Missing => ShelfFault::Missing,
        FolderFault::Failed | FolderFault::Exists => ShelfFault::Device,
    }
}

/// The bytes of the log of a number.
pub(crate) fn load_log<C: FolderCalls, R: Wait>(
    rt: &R,
    alloc: Global,
    folder: &mut C,
    number: u64,
) -> Result<Vec<u8>, SourceFault>
    ensures given { IfOk result (λ v.
        IsGiven number v.items (C.calls folder.old) (C.calls folder.new)) }
    ensures refused { IfErr result (λ e.
        IsUngiven number e (C.calls folder.old) (C.calls folder.new)) }
    ensures reads { OnlyReads (C.calls folder.old) (C.calls folder.new) }
    ensures place { C.place folder.new ≡ C.place folder.old }
{
    let name = log_file(alloc, number)?;
    match folder.load(rt, alloc, name.as_str()) {
        Ok((_mark, bytes)) => Ok(bytes),
        Err(fault) => Err(SourceFault::UnreadLog(number, missing(fault))),
    }
}

/// Reads the log of a number behind those before, and answers how many bytes at its end hold no
/// whole record.
fn read_log<C: FolderCalls, R: Wait>(
    rt: &R,
    alloc: Global,
    folder: &mut C,
    logs: &mut WriteLogs,
    number: u64,
) -> Result<u64, SourceFault>
    ensures read { IfOk result (λ rest. ReadsNext number logs.old logs.new 0 rest
        (C.calls folder.old) (C.calls folder.new)) }
    ensures refused { IfErr result (λ e.
        IsLogStop logs.old number e (C.calls folder.old) (C.calls folder.new)) }
    ensures reads { OnlyReads (C.calls folder.old) (C.calls folder.new) }
    ensures place { C.place folder.new ≡ C.place folder.old }
{
    let bytes = load_log(rt, alloc, folder, number)?;
    match logs.read(alloc, &bytes) {
        Ok(rest) => Ok(rest),
        Err(fault) => Err(SourceFault::BadLog(number, fault)),
    }
}

/// The sum of two numbers of bytes. No folder has so many that they can't be counted.
pub(crate) fn sum_of(rest: u64, more: u64) -> Result<u64, AllocError>
    ensures { IfOk result (λ sum. sum ≡ rest + more) }
{
    match rest.checked_add(more) {
        Some(sum) => Ok(sum),
        None => Err(AllocError),
    }
}

/// Reads the log of a number behind those before, and answers how many bytes at the ends of all
/// hold no whole record.
fn read_next<C: FolderCalls, R: Wait>(
    rt: &R,
    alloc: Global,
    folder: &mut C,
    logs: &mut WriteLogs,
    rest: u64,
    number: u64,
) -> Result<u64, SourceFault>
    ensures read { IfOk result (λ sum. ReadsNext number logs.old logs.new rest sum
        (C.calls folder.old) (C.calls folder.new)) }
    ensures refused { IfErr result (λ e.
        IsLogStop logs.old number e (C.calls folder.old) (C.calls folder.new)) }
    ensures reads { OnlyReads (C.calls folder.old) (C.calls folder.new) }
    ensures place { C.place folder.new ≡ C.place folder.old }
{
    let more = read_log(rt, alloc, folder, logs, number)?;
    let sum = sum_of(rest, more)?;
    Ok(sum)
}

/// Reads the logs of these numbers, one behind another, behind none, and answers how many bytes at
/// their ends hold no whole record.
fn read_logs<C: FolderCalls, R: Wait>(
    rt: &R,
    alloc: Global,
    folder: &mut C,
    logs: &mut WriteLogs,
    numbers: &[u64],
) -> Result<u64, SourceFault>
    requires none { logs.old ≡ [] }
    ensures read { IfOk result (λ rest.
        AreRead numbers.now logs.new rest (C.calls folder.old) (C.calls folder.new)) }
    ensures refused { IfErr result (λ e.
        AreUnread numbers.now e (C.calls folder.old) (C.calls folder.new)) }
    ensures reads { OnlyReads (C.calls folder.old) (C.calls folder.new) }
    ensures place { C.place folder.new ≡ C.place folder.old }
{
    let mut rest: u64 = 0;
    for number in numbers {
        rest = read_next(rt, alloc, folder, logs, rest, *number)?;
    }
    Ok(rest)
}

/// What a manifest comes to, and how many bytes at its end hold no whole record.
pub(crate) fn read_shape<N: Naming, S: Shelf, R: Wait>(
    rt: &R,
    alloc: Global,
    source: &mut NamedShelf<N, S>,
) -> Result<(Shape, u64), SourceFault>
    ensures found { IfOk result (λ r. HasShape r.0 r.1 source.old source.new) }
    ensures shape { IfOk result (λ r. IsShape r.0) }
    ensures keys { IfOk result (λ r. FitsShape r.0) }
    ensures refused { IfErr result (λ e. (fault : RecoverFault) × (e ≡ Manifest fault)
        × IsRecoverRefusal (S.refuses N.place) fault source.old source.new) }
    ensures reads { ReadsManifest source.old source.new }
{
    replayed_shapes();
    // A journal that nothing is sent through has no use for its limit.
    match Journal::recover(rt, alloc, source, ManifestLimit::none()) {
        Ok(found) => Ok((found.shape, found.rest)),
        Err(fault) => Err(SourceFault::Manifest(fault)),
    }
}

/// What is read of a database beside its tables: what its manifest comes to; the numbers of the
/// logs that LevelDB reads, ascending; what these logs say; and how many bytes at the ends of the
/// manifest and of the logs hold no whole record.
#[derive(Debug, Drop)]
pub struct SourceRead {
    pub shape: Shape,
    pub numbers: Vec<u64>,
    pub logs: WriteLogs,
    pub rest: u64,
}

/// Reads the manifest of a shelf, and then the logs among these files in the folder. Nothing is
/// written.
///
/// # Errors
/// `Manifest`; then, log by log, `UnreadLog` where the folder does not give it, and `BadLog` where
/// it is damaged, or begins below the end of the one before. `OutOfMemory` on the way.
pub fn read_source<C: FolderCalls, N: Naming, S: Shelf, R: Wait>(
    rt: &R,
    alloc: Global,
    folder: &mut C,
    files: &[FolderFile],
    source: &mut NamedShelf<N, S>,
) -> Result<SourceRead, SourceFault>
    ensures read { IfOk result (λ r. IsSource files.now r.shape r.logs (length r.numbers.items)
        r.rest (C.calls folder.old) (C.calls folder.new) source.old source.new) }
    ensures logs { IfOk result (λ r.
        AreLogs r.shape.log r.shape.prev_log files.now r.numbers.items) }
    ensures shape { IfOk result (λ r. IsShape r.shape) }
    ensures keys { IfOk result (λ r. FitsShape r.shape) }
    ensures refused { IfErr result (λ e. IsNoSource (S.refuses N.place) files.now e
        (C.calls folder.old) (C.calls folder.new) source.old source.new) }
    ensures reads { OnlyReads (C.calls folder.old) (C.calls folder.new) }
    ensures place { C.place folder.new ≡ C.place folder.old }
    ensures left { ReadsManifest source.old source.new }
{
    let (shape, torn) = read_shape(rt, alloc, source)?;
    let numbers = logs_read(alloc, files, shape.log, shape.prev_log)?;
    let mut logs = WriteLogs::new(alloc);
    let tail = read_logs(rt, alloc, folder, &mut logs, &numbers)?;

    // What holds of the logs is told by this call.
    let _end = logs.end();
    let rest = sum_of(torn, tail)?;
    Ok(SourceRead {
        shape,
        numbers,
        logs,
        rest,
    })
}
