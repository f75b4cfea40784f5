//! Write-ahead logs.

ghost use Rattle.std.specs.Prelude.{◌≡◌, ◌≤◌, ℕ, List, length, take, IfOk, Ok};
ghost use Rattle.lsm_wal.specs.WriteLog.{AreBatches, IsWriteLog, SpellsFirstBatches};
ghost use Rattle.lsm_wal.specs.Reading.{batches_at, log_writes_at};
ghost use Rattle.lsm_wal.specs.View.{Gives, seen};
ghost use Rattle.lsm_wal.specs.declared.write_batch.WriteBatch.{WriteBatch as Given};

use crate::write_batch::WriteBatch;
use crate::write_log_fault::WriteLogFault;
use lsm_codec::{Bytes, List};
use lsm_manifest::{one_log, prefixes, read_log};
use std::alloc::Global;

/// The batches of a log, in order, and how many bytes at its end hold no whole record.
#[derive(Debug, Drop)]
pub struct WriteLog {
    /// The batches, in order.
    pub batches: List<WriteBatch>,
    /// How many bytes at the end hold no whole record.
    pub rest: u64,
}

/// Reads a write-ahead log: its batches in order. A torn record at the end, and zeros to the end of
/// its block, are dropped without a fault; any other damage is refused.
///
/// # Errors
/// The record log's first fault (`LogChecksum`, `LogOrder`, `LogType`), else the first of its
/// batches (`BatchShort`, `WriteKind`, `WriteCut`, `BatchCount`, `BatchSequence`, `SequenceOrder`);
/// `OutOfMemory` where a growth was refused.
pub fn read_writes(alloc: Global, bytes: &[u8]) -> Result<WriteLog, WriteLogFault>
    // What is read is the log's.
    ensures found { IfOk result (λ log. IsWriteLog bytes.now log.batches log.rest) }

    // What is a log is read, unless memory runs out.
    ensures only { (batches : List Given) (rest : ℕ) → IsWriteLog bytes.now batches rest
        → Gives seen result (Ok (batches, rest)) }

    // Which fault it is.
    ensures exact { Gives seen result (log_writes_at bytes.now) }
{
    match read_log(alloc, bytes) {
        Ok(log) => {
            let batches = batches_of(alloc, log.records.as_slice())?;
            Ok(WriteLog {
                batches,
                rest: log.rest,
            })
        }
        Err(fault) => Err(WriteLogFault::of(fault)),
    }
}

/// The batch of each record.
fn batches_of(alloc: Global, records: &[Bytes]) -> Result<List<WriteBatch>, WriteLogFault>
    ensures found { IfOk result (λ bs. AreBatches 0 records.now bs) }
    ensures reads { Gives (λ x. x) result (batches_at 0 records.now) }
{
    let mut batches: Vec<WriteBatch> = Vec::new(alloc);
    let mut least = 0;
    for record in records {
        let batch = WriteBatch::decode(alloc, record.as_slice())?;
        if batch.first < least {
            return Err(WriteLogFault::SequenceOrder);
        }
        least = batch.first + batch.writes.as_slice().len() as u64;
        batches.push(batch)?;
    }
    Ok(List::of(batches))
}

/// A law: at most one list of batches and one rest fit a log's bytes.
pub fn one_write_log()
    ensures { (bytes : List ℕ) (xs ys : List Given) (m n : ℕ) → IsWriteLog bytes xs m
        → IsWriteLog bytes ys n → (xs ≡ ys) × (m ≡ n) }
{
    one_log();
}

/// A law: the first bytes of a log, however many, spell the first of its batches. So what a crash
/// leaves of a log that was only appended to is whole batches from the front.
pub fn first_batches()
    ensures { (bytes : List ℕ) (batches : List Given) (rest : ℕ) → IsWriteLog bytes batches rest
        → (n : ℕ) → SpellsFirstBatches (take n bytes) batches }
{
    prefixes();
}
