//! Reading a record log (LevelDB's `doc/log_format.md`).

ghost use Rattle.std.specs.Prelude.{◌≡◌, false, [], ◌≤◌, ℕ, List, length, IfOk, IfSome, Ok};
ghost use Rattle.std.specs.Option.{option_map};
ghost use Rattle.lsm_manifest.specs.Log.{IsLog};
ghost use Rattle.lsm_manifest.specs.LogReading.{record_at, log_at};

use crate::log_fault::LogFault;
use crate::log_part::LogPart;
use lsm_codec::{Bytes, List};
use std::alloc::Global;

/// What a log holds: its records, and how many bytes at its end hold no whole record.
#[derive(Debug, Drop)]
pub struct Log {
    pub records: List<Bytes>,
    pub rest: u64,
}

ghost use Rattle.lsm_manifest.specs.LogView.{Gives, seen};

/// The next record of a text that ends where `total` bytes end, and what follows it.
fn next_record<'a>(
    alloc: Global,
    total: usize,
    text: &'a [u8],
) -> Result<Option<(Vec<u8>, &'a [u8])>, LogFault>
    requires { length text.now ≤ total }
    ensures shorter { IfOk result (λ r. IfSome r (λ x. length x.1.now ≤ length text.now)) }
    ensures reads { Gives (option_map (λ x. (x.0.items, x.1.now))) result
        (record_at (length text.now) total false [] text.now) }
{
    let mut begun = false;
    let mut whole: Vec<u8> = Vec::new(alloc);
    let mut rest = text;
    for _ in 0..text.len() {
        let offset = (total - rest.len()) as u64;
        let (kind, body, after) = match LogPart::at(offset, begun, rest)? {
            LogPart::End => return Ok(None),
            LogPart::Skipped(after) => {
                rest = after;
                continue;
            }
            LogPart::Fragment(kind, body, after) => (kind, body, after),
        };
        if !kind.may_follow(begun, &whole) {
            return Err(LogFault::LogOrder(offset));
        }
        whole.extend_from_slice(body)?;
        rest = after;
        if kind.ends() {
            return Ok(Some((whole, rest)));
        }
        begun = true;
    }
    Ok(None)
}

fn read(alloc: Global, bytes: &[u8]) -> Result<Log, LogFault>
    ensures { Gives seen result (log_at bytes.now) }
{
    let mut records: Vec<Bytes> = Vec::new(alloc);
    let mut rest = bytes;
    for _ in 0..bytes.len() {
        let Some((record, after)) = next_record(alloc, bytes.len(), rest)? else {
            return Ok(Log {
                records: List::of(records),
                rest: rest.len() as u64,
            });
        };
        records.push(Bytes::of(record))?;
        rest = after;
    }
    Ok(Log {
        records: List::of(records),
        rest: rest.len() as u64,
    })
}

/// The records of a log, and how many bytes at its end hold no whole record: a torn record and
/// zeros to the end are dropped without a fault. `LogChecksum`, `LogOrder` and `LogType` name the
/// offset of the first fragment at fault, in bytes; `OutOfMemory` where memory was refused.
pub fn read_log(alloc: Global, bytes: &[u8]) -> Result<Log, LogFault>
    // What is read is the log's.
    ensures found { IfOk result (λ log. IsLog bytes.now log.records log.rest) }

    // What is a log is read, unless memory runs out.
    ensures only { (records : List (List ℕ)) (rest : ℕ) → IsLog bytes.now records rest
        → Gives seen result (Ok (records, rest)) }

    // Which fault it is, and where.
    ensures exact { Gives seen result (log_at bytes.now) }
{
    read(alloc, bytes)
}

/// A law: at most one list of records and one rest fit a log's bytes.
pub fn one_log()
    ensures { (bytes : List ℕ) (rs ss : List (List ℕ)) (m n : ℕ) → IsLog bytes rs m
        → IsLog bytes ss n → (rs ≡ ss) × (m ≡ n) }
{}
