//! What a crash leaves behind is removed by the next opening: manifests that `CURRENT` does not
//! name, and temporary files.

ghost use Rattle.std.specs.Prelude.{◌≡◌, ◌∷◌, List, ℕ, Ok, Result, IfErr, IfOk, MatchBool};
ghost use Rattle.std.specs.Prelude.{MatchOption, OnErr, OnOk, map, string_bytes};
ghost use Rattle.lsm_directory.specs.Looking.{LooksStopped};
ghost use Rattle.lsm_folder.specs.Calls.{loaded};
ghost use Rattle.lsm_folder.specs.declared.folder_fault.FolderFault.{FolderFault};
ghost use Rattle.lsm_manifest.specs.LogView.{is_memory};
ghost use Rattle.lsm_opening.specs.Names.{Among, IsManifestName};
ghost use Rattle.lsm_opening.specs.Tidying.{AsksIfObsolete, AsksObsolete, IsReadWhole, IsTidied};
ghost use Rattle.lsm_opening.specs.Tidying.{IsWhole};
ghost use Rattle.lsm_opening.specs.Tidying.{NamesNone, OnlyReads, RemovesAmong, RemovesBeside};
ghost use Rattle.lsm_opening.specs.Tidying.{RemovesUnspent};
ghost use Rattle.lsm_storage.specs.FileNames.{current_text};
ghost use Rattle.lsm_storage.specs.Plans.{Refused, current_read, done, durable_plan};

use crate::names::are_numbers_spent;
use crate::obsolete::{current_among, has_obsolete, is_obsolete};
use lsm_directory::folder_names;
use lsm_folder::FolderCalls;
use lsm_manifest::{LogFault, one_log, read_log};
use lsm_storage::manifest_file;
use lsm_table::ShelfFault;
use std::alloc::{AllocError, Global};
use std::sync::Wait;

/// The most bytes that a `CURRENT` has that names a manifest: `MANIFEST-`, 20 digits, a newline.
const LONGEST_CURRENT: usize = 30;

/// The number of the manifest among these files that `CURRENT` names; none where it names none of
/// them, or can't be read.
fn current_in<C: FolderCalls, R: Wait>(
    rt: &R,
    alloc: Global,
    folder: &mut C,
    names: &[String],
) -> Result<Option<u64>, AllocError>
    ensures named { IfOk result (λ o. MatchOption o
        ((answer : Result (List ℕ) FolderFault) × NamesNone (map string_bytes names.now) answer
        × (C.calls folder.new ≡ current_read answer (C.calls folder.old)))
        (λ n. Among (map string_bytes names.now) (IsManifestName n)
        × (C.calls folder.new ≡ current_read (Ok (current_text n)) (C.calls folder.old)))) }
    ensures reads { OnlyReads (C.calls folder.old) (C.calls folder.new) }
    ensures place { C.place folder.new ≡ C.place folder.old }
{
    match folder.load_short(rt, alloc, "CURRENT", LONGEST_CURRENT) {
        Ok(text) => current_among(alloc, &text, names),
        Err(_) => Ok(None),
    }
}

/// Whether memory was refused.
fn is_memory(fault: LogFault) -> bool
    ensures { result ≡ is_memory fault }
{
    match fault {
        LogFault::OutOfMemory => true,
        LogFault::LogChecksum(_) | LogFault::LogOrder(_) | LogFault::LogType(_) => false,
    }
}

/// Whether these bytes are records to the last one, and one at least.
fn is_whole(alloc: Global, bytes: &[u8]) -> Result<bool, AllocError>
    ensures { IfOk result (λ b. MatchBool b (IsWhole bytes.now) (IsWhole bytes.now → ⊥)) }
{
    one_log();
    match read_log(alloc, bytes) {
        Ok(log) => {
            if log.records.as_slice().is_empty() {
                return Ok(false);
            }
            Ok(log.rest == 0)
        }
        Err(fault) => {
            if is_memory(fault) {
                return Err(AllocError);
            }
            Ok(false)
        }
    }
}

/// Whether the manifest in this file can be read, and is whole.
fn is_read_whole<C: FolderCalls, R: Wait>(
    rt: &R,
    alloc: Global,
    folder: &mut C,
    file: &str,
) -> Result<bool, AllocError>
    ensures read { IfOk result (λ b. (answer : Result (List ℕ) FolderFault)
        × (C.calls folder.new ≡ loaded file.now answer ∷ C.calls folder.old)
        × MatchBool b (IsReadWhole answer) (IsReadWhole answer → ⊥)) }
    ensures reads { OnlyReads (C.calls folder.old) (C.calls folder.new) }
    ensures place { C.place folder.new ≡ C.place folder.old }
{
    match folder.load(rt, alloc, file) {
        Ok((_mark, bytes)) => is_whole(alloc, &bytes),
        Err(_) => Ok(false),
    }
}

/// Makes a file's bytes and the folder's names durable. Answers whether the folder did both.
fn is_made_durable<C: FolderCalls, R: Wait>(rt: &R, folder: &mut C, file: &str) -> bool
    ensures durable { MatchBool result
        (C.calls folder.new ≡ done (durable_plan file.now) (C.calls folder.old))
        ((fault : FolderFault)
        × Refused (durable_plan file.now) fault (C.calls folder.old) (C.calls folder.new)) }
    ensures place { C.place folder.new ≡ C.place folder.old }
{
    match folder.sync(rt, file) {
        Ok(()) => folder.sync_folder(rt).is_ok(),
        Err(_) => false,
    }
}

/// Asks for the removal of the file of this name, if it is obsolete beside the manifest of this
/// number. What the folder answers is left: a file that stays is asked for once more by the next
/// opening.
fn remove_if_obsolete<C: FolderCalls, R: Wait>(rt: &R, folder: &mut C, manifest: u64, name: &str)
    ensures asked { AsksIfObsolete manifest name.now (C.calls folder.old) (C.calls folder.new) }
    ensures place { C.place folder.new ≡ C.place folder.old }
{
    if is_obsolete(manifest, name) {
        let _ = folder.remove(rt, name);
    }
}

/// The same of the files of these names, in their order.
fn remove_obsolete<C: FolderCalls, R: Wait>(rt: &R, folder: &mut C, manifest: u64, names: &[String])
    ensures asked { AsksObsolete manifest (map string_bytes names.now) (C.calls folder.old)
        (C.calls folder.new) }
    ensures place { C.place folder.new ≡ C.place folder.old }
{
    for name in names {
        remove_if_obsolete(rt, folder, manifest, name.as_str());
    }
}

/// Removes those of these files that are obsolete beside the manifest of this number, which
/// `CURRENT` names.
fn tidy_beside<C: FolderCalls, R: Wait>(
    rt: &R,
    alloc: Global,
    folder: &mut C,
    manifest: u64,
    names: &[String],
) -> Result<(), AllocError>
    ensures removed { OnOk result (RemovesBeside manifest (map string_bytes names.now)
        (C.calls folder.old) (C.calls folder.new)) }
    ensures reads { OnErr result (OnlyReads (C.calls folder.old) (C.calls folder.new)) }
    ensures place { C.place folder.new ≡ C.place folder.old }
{
    if !has_obsolete(manifest, names) {
        return Ok(());
    }
    let file = manifest_file(alloc, manifest)?;
    if !is_read_whole(rt, alloc, folder, file.as_str())? {
        return Ok(());
    }
    if !is_made_durable(rt, folder, file.as_str()) {
        return Ok(());
    }
    remove_obsolete(rt, folder, manifest, names);
    Ok(())
}

/// Removes those of these files that are obsolete.
fn tidy_among<C: FolderCalls, R: Wait>(
    rt: &R,
    alloc: Global,
    folder: &mut C,
    names: &[String],
) -> Result<(), AllocError>
    ensures removed { OnOk result (RemovesAmong (map string_bytes names.now)
        (C.calls folder.old) (C.calls folder.new)) }
    ensures reads { OnErr result (OnlyReads (C.calls folder.old) (C.calls folder.new)) }
    ensures place { C.place folder.new ≡ C.place folder.old }
{
    match current_in(rt, alloc, folder, names)? {
        Some(manifest) => tidy_beside(rt, alloc, folder, manifest, names),
        None => Ok(()),
    }
}

/// Removes those of these files that are obsolete, unless one of them has the last number that there
/// is.
fn tidy_unspent<C: FolderCalls, R: Wait>(
    rt: &R,
    alloc: Global,
    folder: &mut C,
    names: &[String],
) -> Result<(), AllocError>
    ensures removed { OnOk result (RemovesUnspent (map string_bytes names.now)
        (C.calls folder.old) (C.calls folder.new)) }
    ensures reads { OnErr result (OnlyReads (C.calls folder.old) (C.calls folder.new)) }
    ensures place { C.place folder.new ≡ C.place folder.old }
{
    if are_numbers_spent(names) {
        return Ok(());
    }
    tidy_among(rt, alloc, folder, names)
}

/// Removes the manifests that `CURRENT` does not name, and temporary files; no other file. The
/// caller holds the lock of the folder.
///
/// Nothing is removed where `CURRENT` names no manifest that is there, or the one that it names
/// can't be read, has no record, or ends with bytes that hold no whole one; nor where that manifest
/// or the folder's names can't be made durable first: a crash may then show the older `CURRENT`;
/// nor where no number is left, so that the opening is refused. A removal that the folder refuses
/// is no refusal. `Device` where the folder does not tell its names.
pub(crate) fn tidy<C: FolderCalls, R: Wait>(
    rt: &R,
    alloc: Global,
    folder: &mut C,
) -> Result<(), ShelfFault>
    ensures tidied { OnOk result (IsTidied (C.calls folder.old) (C.calls folder.new)) }
    ensures refused { IfErr result (λ e. LooksStopped e (C.calls folder.old) (C.calls folder.new)) }
    ensures reads { OnErr result (OnlyReads (C.calls folder.old) (C.calls folder.new)) }
    ensures place { C.place folder.new ≡ C.place folder.old }
{
    let names = folder_names(rt, alloc, folder)?;
    tidy_unspent(rt, alloc, folder, &names)?;
    Ok(())
}
