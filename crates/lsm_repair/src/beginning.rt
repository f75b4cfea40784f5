//! A manifest is begun in a folder, beside the one that was followed.

ghost use Rattle.std.specs.Prelude.{◌≡◌, ◌∷◌, [], IfErr, IfOk, OnOk, string_bytes};
ghost use Rattle.lsm_folder.specs.Calls.{folder_synced, synced, wrote};
ghost use Rattle.lsm_storage.specs.FileNames.{current_text, padded, temporary_name};
ghost use Rattle.lsm_storage.specs.FolderFault.{device_of};
ghost use Rattle.lsm_storage.specs.Plans.{Refused, WriteStopped, current_plan, done, start_plan};

use lsm_folder::{FolderCalls, FolderFault};
use lsm_storage::manifest_file;
use lsm_table::ShelfFault;
use std::alloc::{AllocError, Global};
use std::sync::Wait;

/// The number in decimal, with zeros in front to at least six digits.
fn digits_of(alloc: Global, number: u64) -> Result<String, AllocError>
    ensures { IfOk result (λ s. string_bytes s ≡ padded number) }
{
    format!(in alloc; "{number:06}")
}

/// The name of the file that becomes `CURRENT`: `N.dbtmp`.
fn temporary_file(alloc: Global, number: u64) -> Result<String, AllocError>
    ensures { IfOk result (λ s. string_bytes s ≡ temporary_name number) }
{
    let digits = digits_of(alloc, number)?;
    format!(in alloc; "{digits}.dbtmp")
}

/// What `CURRENT` holds where it names this manifest.
fn text_of_current(alloc: Global, number: u64) -> Result<String, AllocError>
    ensures { IfOk result (λ s. string_bytes s ≡ current_text number) }
{
    let digits = digits_of(alloc, number)?;
    format!(in alloc; "MANIFEST-{digits}\n")
}

/// A refusal of a folder, as one of a shelf.
fn device(fault: FolderFault) -> ShelfFault
    ensures { result ≡ device_of fault }
{
    match fault {
        FolderFault::OutOfMemory => ShelfFault::OutOfMemory,
        FolderFault::Failed | FolderFault::Missing | FolderFault::Exists => ShelfFault::Device,
    }
}

/// Gives a file the name `CURRENT`, and makes that durable.
fn make_current<C: FolderCalls, R: Wait>(
    rt: &R,
    folder: &mut C,
    name: &str,
) -> Result<(), FolderFault>
    ensures ok { OnOk result (C.calls folder.new
        ≡ done (current_plan name.now) (C.calls folder.old)) }
    ensures err { IfErr result (λ f.
        Refused (current_plan name.now) f (C.calls folder.old) (C.calls folder.new)) }
    ensures place { C.place folder.new ≡ C.place folder.old }
{
    folder.rename(rt, name, "CURRENT")?;
    folder.sync_folder(rt)
}

/// Writes a manifest, and then what `CURRENT` is to hold, and makes both durable.
fn write_both<C: FolderCalls, R: Wait>(
    rt: &R,
    folder: &mut C,
    manifest: &str,
    bytes: &[u8],
    temporary: &str,
    text: &str,
) -> Result<(), FolderFault>
    ensures ok { OnOk result (C.calls folder.new ≡ done (wrote manifest.now bytes.now
        ∷ synced manifest.now ∷ folder_synced ∷ wrote temporary.now text.now
        ∷ synced temporary.now ∷ []) (C.calls folder.old)) }
    ensures err { IfErr result (λ f. Refused (wrote manifest.now bytes.now
        ∷ synced manifest.now ∷ folder_synced ∷ wrote temporary.now text.now
        ∷ synced temporary.now ∷ []) f (C.calls folder.old) (C.calls folder.new)) }
    ensures place { C.place folder.new ≡ C.place folder.old }
{
    folder.write(rt, manifest, bytes)?;
    folder.sync(rt, manifest)?;
    folder.sync_folder(rt)?;
    folder.write(rt, temporary, text.as_bytes())?;
    folder.sync(rt, temporary)
}

/// Writes a manifest of a number that no file has, and makes `CURRENT` name it. No other file is
/// changed, and none removed. Where the last step is refused, `CURRENT` may name it all the same:
/// that is the device, also for want of memory.
pub(crate) fn begin_manifest<C: FolderCalls, R: Wait>(
    rt: &R,
    alloc: Global,
    folder: &mut C,
    number: u64,
    bytes: &[u8],
) -> Result<(), ShelfFault>
    ensures ok { OnOk result (C.calls folder.new
        ≡ done (start_plan number bytes.now) (C.calls folder.old)) }
    ensures err { IfErr result (λ e.
        WriteStopped number bytes.now e (C.calls folder.old) (C.calls folder.new)) }
    ensures place { C.place folder.new ≡ C.place folder.old }
{
    let manifest = manifest_file(alloc, number)?;
    let temporary = temporary_file(alloc, number)?;
    let text = text_of_current(alloc, number)?;
    let (manifest, temporary) = (manifest.as_str(), temporary.as_str());
    if let Err(fault) = write_both(rt, folder, manifest, bytes, temporary, text.as_str()) {
        return Err(device(fault));
    }
    match make_current(rt, folder, temporary) {
        Ok(()) => Ok(()),
        Err(_) => Err(ShelfFault::Device),
    }
}
