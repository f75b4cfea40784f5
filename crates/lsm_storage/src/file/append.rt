//! How bytes are appended to the manifest of a folder.

ghost use Rattle.std.specs.Prelude.{◌≡◌, ◌+◌, ◌<◌, ◌≤◌, ◌^◌, length, IfOk, IfErr, OnOk, MatchBool};
ghost use Rattle.lsm_storage.specs.Plans.{done, MeasureStopped, BehindStopped, AppendStopped};
ghost use Rattle.lsm_storage.specs.Plans.{append_plan, manifest_measured};
ghost use Rattle.lsm_shelf.specs.Told.{NotTaken};

use crate::file::current::current;
use crate::file::fault::missing;
use crate::file::file_names::manifest_file;
use lsm_folder::FolderCalls;
use lsm_shelf::{MAX_IMAGE, ShelfFault};
use std::sync::Wait;

/// Whether a file of this length stays within 1 GiB with so many bytes more.
fn has_room(len: u64, more: usize) -> bool
    ensures { MatchBool result (len + more ≤ 2 ^ 30) (2 ^ 30 < len + more) }
{
    more <= MAX_IMAGE && len <= (MAX_IMAGE - more) as u64
}

/// The number of the manifest that `CURRENT` names, and its length.
fn measure_manifest<C: FolderCalls, W: Wait>(
    folder: &mut C,
    rt: &W,
) -> Result<(u64, u64), ShelfFault>
    ensures ok { IfOk result (λ r.
        C.calls folder.new ≡ manifest_measured r.0 r.1 (C.calls folder.old)) }
    ensures err { IfErr result (λ e. MeasureStopped e (C.calls folder.old) (C.calls folder.new)) }
    ensures place { C.place folder.new ≡ C.place folder.old }
    ensures fault { IfErr result NotTaken }
{
    let alloc = folder.alloc();
    let number = current(folder, rt, alloc)?;
    let name = manifest_file(alloc, number)?;
    match folder.length(rt, name.as_str()) {
        Ok(len) => Ok((number, len)),
        Err(fault) => Err(missing(fault)),
    }
}

/// Puts bytes behind those of a manifest's file. A sync that is refused is the device, also for
/// want of memory: the bytes are there.
fn write_behind<C: FolderCalls, W: Wait>(
    folder: &mut C,
    rt: &W,
    number: u64,
    bytes: &[u8],
) -> Result<(), ShelfFault>
    ensures ok { OnOk result (C.calls folder.new
        ≡ done (append_plan number bytes.now) (C.calls folder.old)) }
    ensures err { IfErr result (λ e.
        BehindStopped number bytes.now e (C.calls folder.old) (C.calls folder.new)) }
    ensures place { C.place folder.new ≡ C.place folder.old }
    ensures fault { IfErr result NotTaken }
{
    let name = manifest_file(folder.alloc(), number)?;
    if let Err(fault) = folder.append(rt, name.as_str(), bytes) {
        return Err(missing(fault));
    }
    match folder.sync(rt, name.as_str()) {
        Ok(()) => Ok(()),
        Err(_) => Err(ShelfFault::Device),
    }
}

/// Appends to the manifest that `CURRENT` names, which stays within 1 GiB. Answers its number and
/// the bytes that it had.
pub(crate) fn append_manifest<C: FolderCalls, W: Wait>(
    folder: &mut C,
    rt: &W,
    bytes: &[u8],
) -> Result<(u64, u64), ShelfFault>
    ensures ok { IfOk result (λ r. C.calls folder.new
        ≡ done (append_plan r.0 bytes.now) (manifest_measured r.0 r.1 (C.calls folder.old))) }
    ensures limit { IfOk result (λ r. r.1 + length bytes.now ≤ 2 ^ 30) }
    ensures err { IfErr result (λ e.
        AppendStopped bytes.now e (C.calls folder.old) (C.calls folder.new)) }
    ensures place { C.place folder.new ≡ C.place folder.old }
    ensures fault { IfErr result NotTaken }
{
    let manifest = measure_manifest(folder, rt)?;
    if !has_room(manifest.1, bytes.len()) {
        return Err(ShelfFault::Device);
    }
    match write_behind(folder, rt, manifest.0, bytes) {
        Ok(()) => Ok(manifest),
        Err(fault) => Err(fault),
    }
}
