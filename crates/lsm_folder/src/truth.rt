//! When folders of the system are honest.

ghost use Rattle.std.specs.Prelude.{◌≡◌, take, drop, IfOk, IfErr};
ghost use Rattle.lsm_folder.specs.Finding.{SystemHolds};
ghost use Rattle.lsm_folder.specs.FolderFault.{NotExists};
ghost use Rattle.lsm_folder.specs.SystemFolder.{IsOfHonestType, system_place, system_mark_image};
ghost use Rattle.lsm_folder.specs.Truth.{TellsTruth};

use crate::contents::Contents;
use crate::finding_calls::FindingCalls;
use crate::folder_calls::FolderCalls;
use crate::folder_fault::FolderFault;
use crate::images::Images;
use crate::mute::Mute;
use crate::system_folder::SystemFolder;
use crate::system_mark::SystemMark;
use crate::witness::Witness;
use std::alloc::Global;
use std::fs::{File, Files};
use std::sync::Wait;

/// Where each read that happened was answered with the truth, folders of the system are honest,
/// whatever their witness is.
pub fn system_is_honest<R: Files<File = File> + AllocGlobal + Clone + Drop, W: Witness>(
    folder: &SystemFolder<R, W>,
)
    ensures { TellsTruth W.happened → IsOfHonestType folder.now }
{
    let _ = folder;
}

/// With the witness that compares they are honest, with no premise: what a disk answers that was
/// not written is refused.
pub fn compared_system_is_honest<R: Files<File = File> + AllocGlobal + Clone + Drop>(
    folder: &SystemFolder<R, Images>,
)
    ensures { IsOfHonestType folder.now }
{
    let _ = folder;
}

/// What is read of a file that was found is that part of bytes which its folder says that it holds
/// (`FindingCalls::holds`), all reads of one mark of the same ones. So where the witness only
/// measured the file, these are the bytes that are named for it (`Contents`), and no premise is
/// needed but the one on reads that happened. `Failed` where the file is too short.
pub fn found_files_are_read<
    R: Files<File = File> + AllocGlobal + Clone + Drop,
    W: Witness,
    T: Wait,
>(
    folder: &mut SystemFolder<R, W>,
    rt: &T,
    alloc: Global,
    name: &str,
    offset: u64,
    len: usize,
) -> Result<(SystemMark<W>, Vec<u8>), FolderFault>
    ensures held { IfOk result (λ r. SystemHolds W.holds (system_place folder.old) name.now
        (system_mark_image W.image r.0)) }
    ensures part { TellsTruth W.happened → IfOk result (λ r.
        r.1.items ≡ take len (drop offset (system_mark_image W.image r.0))) }
    ensures fault { IfErr result NotExists }
{
    let (mark, size) = folder.find(rt, alloc, name)?;
    match offset.checked_add(len as u64) {
        Some(end) if end <= size => {
            let bytes = folder.read_part(alloc, name, &mark, offset, len)?;
            Ok((mark, bytes))
        }
        _ => Err(FolderFault::Failed),
    }
}

/// So the premise can be met: it says no more of a read than that its answer is true.
pub fn truth_can_be_told()
    ensures { TellsTruth (λ image offset len bytes. bytes ≡ take len (drop offset image)) }
{}

/// With the witness that lets all through it can't: any bytes are an answer that may have happened.
pub fn the_mute_cannot_tell()
    ensures { TellsTruth (λ _ _ _ _. Unit {0}) → ⊥ }
{}

/// Nor are folders with that witness honest, whatever its files hold, for the premise speaks of every list of calls that the
/// type could have. A theorem of a folder is to be read with a witness that compares; that a run of
/// the program is like one, where its disk told the truth, is an argument.
pub fn the_mute_system_is_not_honest<
    R: Files<File = File> + AllocGlobal + Clone + Drop,
    C: Contents,
>(folder: &SystemFolder<R, Mute<C>>)
    ensures { IsOfHonestType folder.now → ⊥ }
{
    let _ = folder;
}
