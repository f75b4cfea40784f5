//! How a manifest is started in a folder.

ghost use Rattle.std.specs.Prelude.{◌≡◌, ◌<◌, ◌^◌, ◌∷◌, [], Some, length, IfErr, OnOk, IsErrOf};
ghost use Rattle.lsm_folder.specs.Calls.{wrote, synced, folder_synced};
ghost use Rattle.lsm_storage.specs.Plans.{done, Refused, StartedFrom, StartStopped, WriteStopped};
ghost use Rattle.lsm_storage.specs.Plans.{Clears, current_plan, start_plan};
ghost use Rattle.lsm_shelf.specs.Told.{NotNamed, TakenIs};

use crate::file::current::named_manifest;
use crate::file::fault::device;
use crate::file::file_names::{manifest_file, temporary_file, text_of_current};
use lsm_folder::{FolderCalls, FolderFault};
use lsm_shelf::{MAX_IMAGE, ShelfFault};
use std::alloc::Global;
use std::sync::Wait;

/// Gives a file the name `CURRENT`, and makes that durable.
fn make_current<C: FolderCalls, W: Wait>(
    folder: &mut C,
    rt: &W,
    name: &str,
) -> Result<(), FolderFault>
    ensures ok { OnOk result (C.calls folder.new
        ≡ done (current_plan name.now) (C.calls folder.old)) }
    ensures err { IfErr result (λ f.
        Refused (current_plan name.now) f (C.calls folder.old) (C.calls folder.new)) }
    ensures place { C.place folder.new ≡ C.place folder.old }
{
    folder.rename(rt, name, "CURRENT")?;
    folder.sync_folder(rt)
}

/// Writes a manifest over what has its name, and then what `CURRENT` is to hold, and makes both
/// durable.
fn write_both<C: FolderCalls, W: Wait>(
    folder: &mut C,
    rt: &W,
    manifest: &str,
    bytes: &[u8],
    temporary: &str,
    text: &str,
) -> Result<(), FolderFault>
    ensures ok { OnOk result (C.calls folder.new ≡ done (wrote manifest.now bytes.now
        ∷ synced manifest.now ∷ folder_synced ∷ wrote temporary.now text.now
        ∷ synced temporary.now ∷ []) (C.calls folder.old)) }
    ensures err { IfErr result (λ f. Refused (wrote manifest.now bytes.now
        ∷ synced manifest.now ∷ folder_synced ∷ wrote temporary.now text.now
        ∷ synced temporary.now ∷ []) f (C.calls folder.old) (C.calls folder.new)) }
    ensures place { C.place folder.new ≡ C.place folder.old }
{
    folder.write(rt, manifest, bytes)?;
    folder.sync(rt, manifest)?;
    folder.sync_folder(rt)?;
    folder.write(rt, temporary, text.as_bytes())?;
    folder.sync(rt, temporary)
}

/// Writes a manifest over what has its name, and makes `CURRENT` name it. Where the last step is
/// refused, `CURRENT` may name it all the same: that is the device, also for want of memory.
fn write_manifest<C: FolderCalls, W: Wait>(
    folder: &mut C,
    rt: &W,
    alloc: Global,
    number: u64,
    bytes: &[u8],
) -> Result<(), ShelfFault>
    ensures ok { OnOk result (C.calls folder.new
        ≡ done (start_plan number bytes.now) (C.calls folder.old)) }
    ensures err { IfErr result (λ e.
        WriteStopped number bytes.now e (C.calls folder.old) (C.calls folder.new)) }
    ensures place { C.place folder.new ≡ C.place folder.old }
    ensures fault { IfErr result NotNamed }
{
    let manifest = manifest_file(alloc, number)?;
    let temporary = temporary_file(alloc, number)?;
    let text = text_of_current(alloc, number)?;
    let (manifest, temporary) = (manifest.as_str(), temporary.as_str());
    if let Err(fault) = write_both(folder, rt, manifest, bytes, temporary, text.as_str()) {
        return Err(device(fault));
    }
    match make_current(folder, rt, temporary) {
        Ok(()) => Ok(()),
        Err(_) => Err(ShelfFault::Device),
    }
}

/// Starts a manifest in the place of another one, which is removed at last. Where that is refused,
/// its file is left.
fn follow_manifest<C: FolderCalls, W: Wait>(
    folder: &mut C,
    rt: &W,
    alloc: Global,
    followed: u64,
    number: u64,
    bytes: &[u8],
) -> Result<(), ShelfFault>
    ensures ok { OnOk result (Clears (Some followed)
        (done (start_plan number bytes.now) (C.calls folder.old)) (C.calls folder.new)) }
    ensures err { IfErr result (λ e.
        WriteStopped number bytes.now e (C.calls folder.old) (C.calls folder.new)) }
    ensures place { C.place folder.new ≡ C.place folder.old }
    ensures fault { IfErr result NotNamed }
{
    let name = manifest_file(alloc, followed)?;
    write_manifest(folder, rt, alloc, number, bytes)?;
    let _is_removed = folder.remove(rt, name.as_str());
    Ok(())
}

/// Starts a manifest, where `CURRENT` does not name one of this number. The one that it names is
/// removed.
pub(crate) fn start_manifest<C: FolderCalls, W: Wait>(
    folder: &mut C,
    rt: &W,
    alloc: Global,
    number: u64,
    bytes: &[u8],
) -> Result<(), ShelfFault>
    ensures ok { OnOk result
        (StartedFrom number bytes.now (C.calls folder.old) (C.calls folder.new)) }
    ensures err { IfErr result (λ e.
        StartStopped number bytes.now e (C.calls folder.old) (C.calls folder.new)) }
    ensures large { 2 ^ 30 < length bytes.now
        → IsErrOf result ShelfFault.Device × (C.calls folder.new ≡ C.calls folder.old) }
    ensures place { C.place folder.new ≡ C.place folder.old }
    ensures fault { IfErr result (TakenIs number) }
{
    if bytes.len() > MAX_IMAGE {
        return Err(ShelfFault::Device);
    }
    match named_manifest(folder, rt, alloc)? {
        Some(named) if named == number => Err(ShelfFault::Taken(number)),
        Some(named) => follow_manifest(folder, rt, alloc, named, number, bytes),
        None => write_manifest(folder, rt, alloc, number, bytes),
    }
}
