//! The manifest that a new one replaces is read, as far as it can be.

ghost use Rattle.std.specs.Prelude.{◌≡◌, ◌⊎◌, false, take, IfErr, IfOk, MatchBool};
ghost use Rattle.std.specs.Prelude.{MatchOption, OnOk, Ok, Err};
ghost use Rattle.lsm_manifest.specs.EditReading.{edit_at};
ghost use Rattle.lsm_manifest.specs.LogReading.{log_at};
ghost use Rattle.lsm_manifest.specs.LogView.{is_memory};
ghost use Rattle.lsm_manifest.specs.Replay.{NamesOther, last_log, last_prev_log};
ghost use Rattle.lsm_manifest.specs.declared.edit_fault.EditFault.{EditFault};
ghost use Rattle.lsm_repair.specs.Mending.{ChangesNothing};
ghost use Rattle.lsm_repair.specs.OldManifest.{IsNotOld, IsOld, NamesAnother, edits_in, ends_whole};
ghost use Rattle.lsm_repair.specs.OldManifest.{first_edits, first_records, is_some, logs_in};
ghost use Rattle.lsm_repair.specs.OldManifest.{number_or_none, place_of, records_by};
ghost use Rattle.lsm_repair.specs.declared.mend_fault.MendFault.TheVariants.{OtherComparator};
ghost use Rattle.lsm_repair.specs.declared.mend_fault.MendFault.TheVariants.{OutOfMemory};

use crate::mend_fault::MendFault;
use crate::old_logs::OldLogs;
use lsm_codec::{Bytes, List};
use lsm_manifest::{Edit, EditFault, LogFault, read_log};
use lsm_table::{NamedShelf, Naming, Shelf, ShelfFault};
use std::alloc::{AllocError, Global};
use std::sync::Wait;

/// The first so many bytes, or all.
fn first_bytes(bytes: &[u8], place: u64) -> &[u8]
    ensures { result.now ≡ take place bytes.now }
{
    if place >= bytes.len() as u64 {
        return bytes;
    }
    let (front, _rest) = bytes.split_at(place as usize);
    front
}

/// The bytes in front of a log's first fault, which is not want of memory.
fn bytes_before(bytes: &[u8], fault: LogFault) -> Result<&[u8], AllocError>
    ensures front { IfOk result (λ front. front.now ≡ take (place_of fault) bytes.now) }
    ensures other { OnOk result (is_memory fault ≡ false) }
{
    match fault {
        LogFault::OutOfMemory => Err(AllocError),
        LogFault::LogChecksum(place) | LogFault::LogOrder(place) | LogFault::LogType(place) => {
            Ok(first_bytes(bytes, place))
        }
    }
}

/// The records of a log; none where it has a fault.
fn records_of(alloc: Global, bytes: &[u8]) -> Result<List<Bytes>, AllocError>
    ensures { IfOk result (λ records. records ≡ records_by (log_at bytes.now)) }
{
    match read_log(alloc, bytes) {
        Ok(log) => Ok(log.records),
        Err(LogFault::OutOfMemory) => Err(AllocError),
        Err(_) => Ok(List::of(Vec::new(alloc))),
    }
}

/// The records of a log in front of its first fault; and whether it has none, and ends with a whole
/// record.
fn first_records(alloc: Global, bytes: &[u8]) -> Result<(List<Bytes>, bool), AllocError>
    ensures records { IfOk result (λ r. r.0 ≡ first_records bytes.now) }
    ensures whole { IfOk result (λ r. r.1 ≡ ends_whole (log_at bytes.now)) }
{
    match read_log(alloc, bytes) {
        Ok(log) => {
            let whole = log.rest == 0;
            Ok((log.records, whole))
        }
        Err(fault) => {
            let front = bytes_before(bytes, fault)?;
            let records = records_of(alloc, front)?;
            Ok((records, false))
        }
    }
}

/// The edit that a record spells, if it spells one.
fn edit_in(alloc: Global, own: &[u8]) -> Result<Option<Edit>, AllocError>
    ensures { IfOk result (λ o. MatchOption o
        ((fault : EditFault) × (edit_at own.now ≡ Err fault))
        (λ edit. edit_at own.now ≡ Ok edit)) }
{
    match Edit::decode(alloc, own) {
        Ok(edit) => Ok(Some(edit)),
        Err(EditFault::OutOfMemory) => Err(AllocError),
        Err(_) => Ok(None),
    }
}

/// The edits of records in front of the first that is none.
fn first_edits(alloc: Global, records: &[Bytes]) -> Result<Vec<Edit>, AllocError>
    ensures { IfOk result (λ edits. edits.items ≡ first_edits records.now) }
{
    let mut edits = Vec::new(alloc);
    for record in records {
        let found = edit_in(alloc, record.as_slice())?;
        let Some(edit) = found else {
            return Ok(edits);
        };
        edits.push(edit)?;
    }
    Ok(edits)
}

/// Whether an edit names a comparator other than LevelDB's own.
fn names_other(edit: &Edit) -> bool
    ensures { MatchBool result (NamesOther edit.now) (NamesOther edit.now → ⊥) }
{
    match &edit.comparator {
        Some(name) => name.as_slice() != b"leveldb.BytewiseComparator".as_slice(),
        None => false,
    }
}

/// Whether one of these edits does.
fn names_another(edits: &[Edit]) -> bool
    ensures { MatchBool result (NamesAnother edits.now) (NamesAnother edits.now → ⊥) }
{
    for edit in edits {
        if names_other(edit) {
            return true;
        }
    }
    false
}

/// The last log number that edits have, and the last one of the log before.
fn numbers_of(edits: &[Edit]) -> (Option<u64>, Option<u64>)
    ensures log { result.0 ≡ last_log edits.now }
    ensures prev_log { result.1 ≡ last_prev_log edits.now }
{
    let mut log = None;
    let mut prev_log = None;
    for edit in edits {
        log = edit.log.or(log);
        prev_log = edit.prev_log.or(prev_log);
    }
    (log, prev_log)
}

/// A number, 0 where there is none.
fn or_none(number: Option<u64>) -> u64
    ensures { result ≡ number_or_none number }
{
    match number {
        Some(number) => number,
        None => 0,
    }
}

/// Whether there is one.
fn has(number: Option<u64>) -> bool
    ensures { result ≡ is_some number }
{
    match number {
        Some(_) => true,
        None => false,
    }
}

/// The logs of a manifest of this number and these bytes.
fn logs_in(alloc: Global, number: u64, bytes: &[u8]) -> Result<OldLogs, MendFault>
    ensures logs { IfOk result (λ logs. logs ≡ logs_in number bytes.now) }
    ensures bytewise { OnOk result (NamesAnother (edits_in bytes.now) → ⊥) }
    ensures refused { IfErr result (λ e. (e ≡ OutOfMemory)
        ⊎ ((e ≡ OtherComparator) × NamesAnother (edits_in bytes.now))) }
{
    let (records, ends_whole) = first_records(alloc, bytes)?;
    let edits = first_edits(alloc, records.as_slice())?;
    if names_another(&edits) {
        return Err(MendFault::OtherComparator);
    }
    let (log, prev_log) = numbers_of(&edits);
    let all = edits.len() == records.as_slice().len();
    let named = has(log);
    Ok(OldLogs {
        manifest: number,
        log: or_none(log),
        prev_log: or_none(prev_log),
        is_whole: ends_whole && all && named,
    })
}

/// What the manifest of a shelf says of logs, in front of its first fault. Where the shelf has none
/// each log is one to read.
///
/// `UnreadManifest` where it has one, and does not give it; `OtherComparator`; `OutOfMemory`.
pub(crate) fn read_old<N: Naming, S: Shelf, R: Wait>(
    rt: &R,
    alloc: Global,
    shelf: &mut NamedShelf<N, S>,
) -> Result<OldLogs, MendFault>
    ensures old { IfOk result (λ logs. IsOld (S.refuses N.place) logs shelf.old shelf.new) }
    ensures same { ChangesNothing shelf.old shelf.new }
    ensures refused { IfErr result (λ e. IsNotOld (S.refuses N.place) e shelf.old shelf.new) }
{
    match shelf.read_manifest(rt, alloc) {
        Ok((number, bytes)) => logs_in(alloc, number, &bytes),
        Err(ShelfFault::Missing) => Ok(OldLogs::none()),
        Err(fault) => Err(MendFault::UnreadManifest(fault)),
    }
}
