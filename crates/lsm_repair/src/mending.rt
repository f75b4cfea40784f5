//! The whole tables of a shelf, as one table that a new manifest names.

ghost use Rattle.std.specs.Prelude.{◌≡◌, ◌∷◌, [], ◌⊎◌, ◌+◌, ◌-◌, ◌<◌, ◌≤◌, ◌^◌, length, IfErr};
ghost use Rattle.std.specs.Prelude.{IfOk, MatchBool, OnOk};
ghost use Rattle.lsm_shelf.specs.Stored.{Stored};
ghost use Rattle.lsm_shelf.specs.Told.{Becomes, putting};
ghost use Rattle.lsm_manifest.specs.EditFit.{IsFit};
ghost use Rattle.lsm_manifest.specs.EditWriting.{edit_text};
ghost use Rattle.lsm_manifest.specs.LogWriting.{record_text};
ghost use Rattle.lsm_manifest.specs.Manifest.{IsManifest};
ghost use Rattle.lsm_repair.specs.Mending.{ChangesNothing, IsMended, IsTable, IsTakenIn};
ghost use Rattle.lsm_repair.specs.Mending.{IsUnmended, IsUnput, IsUntaken, PutsAtMost, edit_of};
ghost use Rattle.lsm_repair.specs.Mending.{file_at, manifest_of};
ghost use Rattle.lsm_repair.specs.declared.mend_fault.MendFault.TheVariants.{OutOfMemory, TooLarge};

use crate::laws::mended_is_sound;
use crate::left_out::LeftOut;
use crate::mend_fault::MendFault;
use crate::merging::{Merged, merge};
use crate::old_logs::OldLogs;
use crate::old_manifest::read_old;
use crate::reading::{Found, read_tables};
use lsm_codec::{Bytes, List};
use lsm_manifest::{AddedFile, Edit, FileMeta, LogWriter, manifest_grows, whole_edit_replays};
use lsm_table::{NamedShelf, Naming, Shelf, TableImage, TableOptions, TableReceipt, TableRecord};
use std::alloc::{AllocError, Global};
use std::sync::Wait;

/// What was read of a shelf's tables, and the manifest that is to be begun there.
#[derive(Drop)]
pub(crate) struct Mended {
    /// The bytes of the manifest.
    pub(crate) manifest: Vec<u8>,
    /// How many tables are whole.
    pub(crate) tables: u64,
    /// How many entries the new table has.
    pub(crate) entries: u64,
    /// The tables that are left out.
    pub(crate) left: Vec<LeftOut>,
    /// The logs of the manifest that is replaced.
    pub(crate) logs: OldLogs,
}

/// Whether the length of a key fits 32 bits.
fn is_short(key: &[u8]) -> bool
    ensures { MatchBool result (length key.now < 2 ^ 32) (2 ^ 32 ≤ length key.now) }
{
    key.len() <= 4_294_967_295
}

/// The file of a table that was put under this number, where its keys are short.
fn file_of<C: TableReceipt>(
    alloc: Global,
    number: u64,
    table: &TableRecord<C>,
) -> Result<FileMeta, MendFault>
    ensures file { IfOk result (λ f. f ≡ record {
      number = number;
      size = length (C.image table.now.receipt);
      smallest = table.now.smallest;
      largest = table.now.largest;
    }) }
    ensures short { OnOk result
        ((length table.now.smallest < 2 ^ 32) × (length table.now.largest < 2 ^ 32)) }
    ensures long { IfErr result (λ e. (e ≡ OutOfMemory) ⊎ ((e ≡ TooLarge)
        × ((2 ^ 32 ≤ length table.now.smallest) ⊎ (2 ^ 32 ≤ length table.now.largest)))) }
{
    if !is_short(table.smallest.as_slice()) {
        return Err(MendFault::TooLarge);
    }
    if !is_short(table.largest.as_slice()) {
        return Err(MendFault::TooLarge);
    }
    Ok(FileMeta {
        number,
        size: table.size(),
        smallest: table.smallest.try_copy(alloc)?,
        largest: table.largest.try_copy(alloc)?,
    })
}

/// Puts a table on a shelf under a number.
fn put<N: Naming, S: Shelf, R: Wait>(
    rt: &R,
    alloc: Global,
    shelf: &mut NamedShelf<N, S>,
    image: TableImage,
    number: u64,
) -> Result<FileMeta, MendFault>
    ensures file { IfOk result (λ f. f ≡ file_at number image) }
    ensures put { OnOk result (Stored S.Receipt (S.is_of N.place) S.Receipt.number S.Receipt.image
        number image.bytes) }
    ensures short { OnOk result
        ((length image.smallest < 2 ^ 32) × (length image.largest < 2 ^ 32)) }
    ensures told { OnOk result (Becomes (putting number image.bytes shelf.old) shelf.new) }
    ensures at_most { PutsAtMost number shelf.old shelf.new }
    ensures same_list { shelf.new.listed ≡ shelf.old.listed }
    ensures refused { IfErr result (IsUnput (S.refuses N.place) number image) }
{
    let table = match image.put_alone(rt, alloc, shelf, number) {
        Ok(table) => table,
        Err(fault) => return Err(MendFault::Unwritten(fault)),
    };
    file_of(alloc, number, &table)
}

/// The edit that names one table, at level 6, and these logs.
fn edit_of(
    alloc: Global,
    file: FileMeta,
    logs: OldLogs,
    next: u64,
    last: u64,
) -> Result<Edit, AllocError>
    ensures { IfOk result (λ e. e ≡ edit_of file logs next last) }
{
    let name = Vec::from_slice(alloc, b"leveldb.BytewiseComparator".as_slice())?;
    let mut added = Vec::new(alloc);
    added.push(AddedFile { level: 6, file })?;
    Ok(Edit {
        comparator: Some(Bytes::of(name)),
        log: Some(logs.log),
        prev_log: Some(logs.prev_log),
        next: Some(next),
        last: Some(last),
        pointers: List::of(Vec::new(alloc)),
        deleted: List::of(Vec::new(alloc)),
        added: List::of(added),
    })
}

/// The bytes of a manifest of one edit.
fn manifest_bytes(alloc: Global, edit: &Edit) -> Result<Vec<u8>, AllocError>
    requires fit { IsFit edit.now }
    requires none { edit.now.deleted ≡ [] }
    ensures bytes { IfOk result (λ bytes. bytes.items ≡ record_text 0 (edit_text edit.now)) }
    ensures manifest { OnOk result (IsManifest (record_text 0 (edit_text edit.now))
        (edit.now ∷ []) 0) }
{
    manifest_grows();
    let mut text = Vec::new(alloc);
    edit.encode(&mut text)?;
    let mut bytes = Vec::new(alloc);
    let mut writer = LogWriter::at(0);
    writer.append(&mut bytes, &text)?;
    Ok(bytes)
}

/// Reads the tables that a shelf lists; answers also how many of them are whole.
fn take_in<N: Naming, S: Shelf, R: Wait>(
    rt: &R,
    alloc: Global,
    shelf: &mut NamedShelf<N, S>,
) -> Result<(Found, u64), MendFault>
    ensures taken { IfOk result (λ r. IsTakenIn
        (Stored S.Receipt (S.is_of N.place) S.Receipt.number S.Receipt.image)
        r.0.entries.items r.0.left.items r.1 shelf.old shelf.new) }
    ensures same { ChangesNothing shelf.old shelf.new }
    ensures refused { IfErr result (IsUntaken (S.refuses N.place)) }
{
    let numbers = match shelf.list(rt, alloc) {
        Ok(numbers) => numbers,
        Err(fault) => return Err(MendFault::Unlisted(fault)),
    };
    let found = read_tables(rt, alloc, shelf, &numbers)?;
    let whole = numbers.len().saturating_sub(found.left.len()) as u64;
    Ok((found, whole))
}

/// Puts a table, and makes the manifest that names just it, whose own number is the next one.
fn name_table<N: Naming, S: Shelf, R: Wait>(
    rt: &R,
    alloc: Global,
    shelf: &mut NamedShelf<N, S>,
    image: TableImage,
    number: u64,
    logs: OldLogs,
    last: u64,
) -> Result<Vec<u8>, MendFault>
    requires number { number < 2 ^ 64 - 2 }
    requires table { IsTable image }
    ensures manifest { IfOk result (λ v. v.items ≡ manifest_of number image logs last) }
    ensures spelled { OnOk result (IsManifest (manifest_of number image logs last)
        (edit_of (file_at number image) logs (number + 2) last ∷ []) 0) }
    ensures put { OnOk result (Stored S.Receipt (S.is_of N.place) S.Receipt.number S.Receipt.image
        number image.bytes) }
    ensures told { OnOk result (Becomes (putting number image.bytes shelf.old) shelf.new) }
    ensures at_most { PutsAtMost number shelf.old shelf.new }
    ensures same_list { shelf.new.listed ≡ shelf.old.listed }
    ensures refused { IfErr result (IsUnput (S.refuses N.place) number image) }
{
    whole_edit_replays();
    let file = put(rt, alloc, shelf, image, number)?;
    let edit = edit_of(alloc, file, logs, number + 2, last)?;
    let manifest = manifest_bytes(alloc, &edit)?;
    Ok(manifest)
}

/// Makes one table, of this number, of all whole tables that a shelf lists, and the manifest that
/// names just it, which is to have the next number.
///
/// Each entry of each whole table is in the new one, once, and nothing else. Its logs are those of
/// the manifest that is there, as far as that can be read. What is read is held in memory, and the
/// new table too.
///
/// # Errors
/// `UnreadManifest`; `OtherComparator`; `Unlisted`; `Unread`; `NothingWhole`; `TwoValues`;
/// `TooLarge`; `Unwritten`; `OutOfMemory` on the way.
pub(crate) fn mend<N: Naming, S: Shelf, R: Wait>(
    rt: &R,
    alloc: Global,
    shelf: &mut NamedShelf<N, S>,
    number: u64,
) -> Result<Mended, MendFault>
    requires number { number < 2 ^ 64 - 2 }
    ensures mended { IfOk result (λ m. IsMended
        (Stored S.Receipt (S.is_of N.place) S.Receipt.number S.Receipt.image) (S.refuses N.place)
        number m.manifest.items m.logs m.tables m.entries m.left.items shelf.old shelf.new) }
    ensures at_most { PutsAtMost number shelf.old shelf.new }
    ensures refused { IfErr result (IsUnmended
        (Stored S.Receipt (S.is_of N.place) S.Receipt.number S.Receipt.image) (S.refuses N.place)
        number shelf.old shelf.new) }
{
    mended_is_sound();
    let logs = read_old(rt, alloc, shelf)?;
    let (found, tables) = take_in(rt, alloc, shelf)?;
    let Found { entries, left } = found;
    let merged = merge(alloc, TableOptions::usual(), entries)?;
    let Merged { image, last, count } = merged;
    let manifest = name_table(rt, alloc, shelf, image, number, logs, last)?;
    Ok(Mended {
        manifest,
        tables,
        entries: count,
        left,
        logs,
    })
}
