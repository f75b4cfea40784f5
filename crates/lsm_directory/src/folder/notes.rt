//! What is told of what lies beside the tables: notes; or a refusal, where nothing is to be left
//! out.

ghost use Rattle.std.specs.Prelude.{◌≡◌, ◌++◌, IfErr, IsTrue, OnOk};
ghost use Rattle.lsm_storage.specs.FileNames.{manifest_name};
ghost use Rattle.lsm_directory.specs.Beside.{IsFirstLeftOut, IsWhole, beside_text, later_note};
ghost use Rattle.lsm_directory.specs.Beside.{later_text, later_than, rocksdb_text};

use crate::faults::directory_fault::DirectoryFault;
use crate::folder::beside::Beside;
use crate::folder::named_manifest::NamedManifest;
use crate::folder::rest::refuse_left_out;
use lsm_storage::manifest_file;
use std::alloc::{AllocError, Global};

/// The highest manifest, if it is later than the one of this number.
fn later_than(number: u64, highest: Option<u64>) -> Option<u64>
    ensures { result ≡ later_than number highest }
{
    match highest {
        Some(highest) if number < highest => Some(highest),
        _ => None,
    }
}

/// Appends the name of a manifest.
fn push_name(alloc: Global, out: &mut Vec<u8>, number: u64) -> Result<(), AllocError>
    ensures { OnOk result (out.new.items ≡ out.old.items ++ manifest_name number) }
{
    let name = manifest_file(alloc, number)?;
    out.extend_from_slice(name.as_bytes())?;
    Ok(())
}

/// Appends the note of a manifest that is later than the one of this number.
#[tactic(auto, unfolding(crate::specs::Beside::later_note))]
fn push_later(alloc: Global, out: &mut Vec<u8>, number: u64, later: u64) -> Result<(), AllocError>
    ensures { OnOk result (out.new.items ≡ out.old.items ++ later_note number later) }
{
    out.extend_from_slice(b"note: CURRENT names ")?;
    push_name(alloc, out, number)?;
    out.extend_from_slice(b", and ")?;
    push_name(alloc, out, later)?;
    out.extend_from_slice(b" is there\n")?;
    Ok(())
}

/// Appends the note of the highest manifest, if it is later than the one of this number.
fn push_manifest(
    alloc: Global,
    out: &mut Vec<u8>,
    number: u64,
    highest: Option<u64>,
) -> Result<(), AllocError>
    ensures { OnOk result
        (out.new.items ≡ out.old.items ++ later_text number (later_than number highest)) }
{
    match later_than(number, highest) {
        Some(later) => push_later(alloc, out, number, later),
        None => Ok(()),
    }
}

/// Appends the note of files of RocksDB, where there are any.
fn push_rocksdb(out: &mut Vec<u8>, rocksdb: bool) -> Result<(), AllocError>
    ensures { OnOk result (out.new.items ≡ out.old.items ++ rocksdb_text rocksdb) }
{
    if rocksdb {
        out.extend_from_slice(b"note: the folder has files of RocksDB\n")?;
    }
    Ok(())
}

/// Appends a note of the latest manifest, where it is later than the one of this number, which
/// `CURRENT` names; and one of files of RocksDB, where there are any.
pub fn push_beside(
    alloc: Global,
    out: &mut Vec<u8>,
    number: u64,
    beside: &Beside,
) -> Result<(), AllocError>
    ensures { OnOk result (out.new.items ≡ out.old.items ++ beside_text number beside.now) }
{
    push_manifest(alloc, out, number, beside.manifest)?;
    push_rocksdb(out, beside.rocksdb)
}

/// Refuses what is not read, where nothing is to be left out: a manifest that is later than the one
/// that `CURRENT` names; files of RocksDB; bytes at the manifest's end; and then the first log that
/// is not read.
pub fn refuse_beside(
    strict: bool,
    manifest: NamedManifest,
    beside: &Beside,
) -> Result<(), DirectoryFault>
    ensures whole { OnOk result (IsTrue strict → IsWhole manifest beside.now) }
    ensures refused { IfErr result (λ e. IsTrue strict × IsFirstLeftOut manifest beside.now e) }
{
    if !strict {
        return Ok(());
    }
    if let Some(later) = later_than(manifest.number, beside.manifest) {
        return Err(DirectoryFault::LaterManifest(later));
    }
    if beside.rocksdb {
        return Err(DirectoryFault::RocksDbFiles);
    }
    refuse_left_out(
        strict,
        manifest.rest,
        &beside.logs,
        manifest.log,
        manifest.prev_log,
    )
}
