//! The bytes at a manifest's end that hold no whole record.

ghost use Rattle.std.specs.Prelude.{◌≡◌, ◌++◌, IfErr, IsTrue, OnOk};
ghost use Rattle.lsm_directory.specs.Rest.{IsLeftOut, LeavesNothingOut, rest_note};

use crate::faults::directory_fault::DirectoryFault;
use crate::folder::folder_file::FolderFile;
use crate::folder::logs::first_unread;
use lsm_text::push_decimal;
use std::alloc::AllocError;

/// Appends the note of so many bytes at a manifest's end, which a torn write leaves.
#[tactic(auto, unfolding(crate::specs::Rest::rest_note))]
pub fn push_rest(out: &mut Vec<u8>, rest: u64) -> Result<(), AllocError>
    ensures { OnOk result (out.new.items ≡ out.old.items ++ rest_note rest) }
{
    out.extend_from_slice(b"note: the last ")?;
    push_decimal(out, rest)?;
    out.extend_from_slice(b" bytes of the manifest hold no whole record, and are not read\n")?;
    Ok(())
}

/// Refuses what is not read, where nothing is to be left out: bytes at the manifest's end, and
/// then the first log that is not read. The last two numbers are those of the manifest.
pub fn refuse_left_out(
    strict: bool,
    rest: u64,
    files: &[FolderFile],
    log: u64,
    prev_log: u64,
) -> Result<(), DirectoryFault>
    ensures whole { OnOk result (IsTrue strict → LeavesNothingOut rest log prev_log files.now) }
    ensures refused { IfErr result (λ e.
        IsTrue strict × IsLeftOut rest log prev_log files.now e) }
{
    if !strict {
        return Ok(());
    }
    if rest > 0 {
        return Err(DirectoryFault::TornManifest(rest));
    }
    match first_unread(files, log, prev_log) {
        Some(number) => Err(DirectoryFault::UnflushedLog(number)),
        None => Ok(()),
    }
}
