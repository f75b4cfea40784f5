//! Which manifest a folder's `CURRENT` names, and that manifest's bytes.

ghost use Rattle.std.specs.Prelude.{◌≡◌, ℕ, ◌<◌, ◌≤◌, ◌^◌, List, Ok, Err, Result, IfOk, IfErr};
ghost use Rattle.std.specs.Prelude.{length};
ghost use Rattle.lsm_folder.specs.declared.folder_fault.FolderFault.{FolderFault};
ghost use Rattle.lsm_storage.specs.FileNames.{current_text, longest_current};
ghost use Rattle.lsm_storage.specs.Plans.{CurrentUnread, CurrentStopped, NoneIn, IsNamedBy};
ghost use Rattle.lsm_storage.specs.Plans.{ReadStopped, current_read, manifest_read};
ghost use Rattle.lsm_shelf.specs.Told.{NotNamed, NotTaken};

use crate::file::fault::missing;
use crate::file::file_names::{LONGEST_CURRENT, manifest_file, manifest_in};
use lsm_folder::FolderCalls;
use lsm_shelf::ShelfFault;
use std::alloc::Global;
use std::sync::Wait;

/// What `CURRENT` holds. One that is longer than each text that names a manifest is as one that is
/// not there, and none of it is read.
fn load_current<C: FolderCalls, W: Wait>(
    folder: &mut C,
    rt: &W,
    alloc: Global,
) -> Result<Vec<u8>, ShelfFault>
    ensures ok { IfOk result (λ v.
        C.calls folder.new ≡ current_read (Ok v.items) (C.calls folder.old)) }
    ensures short { IfOk result (λ v. length v.items ≤ longest_current) }
    ensures err { IfErr result (λ e. CurrentUnread e (C.calls folder.old) (C.calls folder.new)) }
    ensures place { C.place folder.new ≡ C.place folder.old }
    ensures fault { IfErr result NotTaken }
{
    match folder.load_short(rt, alloc, "CURRENT", LONGEST_CURRENT) {
        Ok(text) => Ok(text),
        Err(fault) => Err(missing(fault)),
    }
}

/// The number of the manifest that a text of `CURRENT` names.
fn named_by(alloc: Global, text: &Vec<u8>) -> Result<u64, ShelfFault>
    ensures named { IfOk result (λ n. text.now.items ≡ current_text n) }
    ensures only { IfOk result (λ n. (m : ℕ) → m < 2 ^ 64 → text.now.items ≡ current_text m
        → n ≡ m) }
    ensures none { IfErr result (λ e. NoneIn text.now.items e) }
    ensures fault { IfErr result NotTaken }
{
    match manifest_in(alloc, text.as_slice()) {
        Ok(Some(number)) => Ok(number),
        Ok(None) => Err(ShelfFault::Missing),
        Err(_) => Err(ShelfFault::OutOfMemory),
    }
}

/// The number of the manifest that `CURRENT` names.
pub(crate) fn current<C: FolderCalls, W: Wait>(
    folder: &mut C,
    rt: &W,
    alloc: Global,
) -> Result<u64, ShelfFault>
    ensures ok { IfOk result (λ n.
        C.calls folder.new ≡ current_read (Ok (current_text n)) (C.calls folder.old)) }
    ensures only { IfOk result (λ n. (m : ℕ) → m < 2 ^ 64 → current_text n ≡ current_text m
        → n ≡ m) }
    ensures err { IfErr result (λ e. CurrentStopped e (C.calls folder.old) (C.calls folder.new)) }
    ensures place { C.place folder.new ≡ C.place folder.old }
    ensures fault { IfErr result NotTaken }
{
    let text = load_current(folder, rt, alloc)?;
    match named_by(alloc, &text) {
        Ok(number) => Ok(number),
        Err(fault) => Err(fault),
    }
}

/// The number of the manifest that `CURRENT` names, if it names one. A `CURRENT` that is not there
/// or not well-formed names none.
pub(crate) fn named_manifest<C: FolderCalls, W: Wait>(
    folder: &mut C,
    rt: &W,
    alloc: Global,
) -> Result<Option<u64>, ShelfFault>
    ensures ok { IfOk result (λ o. (answer : Result (List ℕ) FolderFault)
        × (C.calls folder.new ≡ current_read answer (C.calls folder.old))
        × IsNamedBy answer o) }
    ensures err { IfErr result (λ e. CurrentStopped e (C.calls folder.old) (C.calls folder.new)) }
    ensures place { C.place folder.new ≡ C.place folder.old }
    ensures fault { IfErr result NotNamed }
{
    match current(folder, rt, alloc) {
        Ok(number) => Ok(Some(number)),
        Err(ShelfFault::Missing) => Ok(None),
        Err(fault) => Err(fault),
    }
}

/// Number and bytes of the manifest that `CURRENT` names.
pub(crate) fn read_manifest<C: FolderCalls, W: Wait>(
    folder: &mut C,
    rt: &W,
    alloc: Global,
) -> Result<(u64, Vec<u8>), ShelfFault>
    ensures ok { IfOk result (λ r.
        C.calls folder.new ≡ manifest_read r.0 r.1.items (C.calls folder.old)) }
    ensures err { IfErr result (λ e. ReadStopped e (C.calls folder.old) (C.calls folder.new)) }
    ensures place { C.place folder.new ≡ C.place folder.old }
    ensures fault { IfErr result NotTaken }
{
    let number = current(folder, rt, alloc)?;
    let name = manifest_file(alloc, number)?;
    match folder.load(rt, alloc, name.as_str()) {
        Ok((_, bytes)) => Ok((number, bytes)),
        Err(fault) => Err(missing(fault)),
    }
}
