//! Logs that are read one behind another.

ghost use Rattle.std.specs.Prelude.{◌≡◌, ◌++◌, [], ℕ, List, IfErr, IfNone, IfOk, IfSome, OnErr};
ghost use Rattle.std.specs.Prelude.{false, true};
ghost use Rattle.lsm_wal.specs.Front.{IsFront};
ghost use Rattle.lsm_wal.specs.WriteLog.{AreBatches, IsWriteLog, after};
ghost use Rattle.lsm_wal.specs.WriteLogs.{AreInRow, BeginBelow, IsReadRefusal};
ghost use Rattle.lsm_wal.specs.declared.write_batch.WriteBatch.{WriteBatch as Given};

use crate::log_front::{left_behind, read_to_first_fault};
use crate::write_batch::WriteBatch;
use crate::write_log::{WriteLog, first_batches, read_writes};
use crate::write_log_fault::WriteLogFault;
use lsm_codec::List;
use std::alloc::{AllocError, Global};
use std::marker::Model;

/// The batches of logs, one log behind another, as LevelDB reads them when it opens a folder: in
/// the order of their numbers. Contracts see these batches.
#[derive(Debug, Drop)]
pub struct WriteLogs {
    batches: Vec<WriteBatch>,
    end: u64,
}

impl Model for WriteLogs {
    ghost use Rattle.std.specs.Prelude.{◌≡◌, List};
    ghost use Rattle.lsm_wal.specs.WriteLog.{after};
    ghost use Rattle.lsm_wal.specs.WriteLogs.{AreInRow};
    ghost use Rattle.lsm_wal.specs.declared.write_batch.WriteBatch.{WriteBatch as Given};

    ghost Value = { List Given };

    ghost view = { λ l. l.batches.items };

    ghost invariant = { λ l. AreInRow l.batches.items × (l.end ≡ after 0 l.batches.items) };
}

/// What is left out of a log: so many bytes behind its last whole record, or behind the last one
/// before this fault.
#[derive(Clone, Copy, Debug)]
pub struct LeftOut {
    /// How many bytes these are.
    pub bytes: u64,
    /// The log's first fault, if it has one.
    pub fault: Option<WriteLogFault>,
}

/// Whether the first of these batches begins below this sequence.
pub(crate) fn begin_below(least: u64, batches: &[WriteBatch]) -> bool
    ensures yes { result ≡ true → BeginBelow least batches.now }
    ensures above { result ≡ false → BeginBelow least batches.now → ⊥ }
    ensures no { result ≡ false → (rs : List (List ℕ)) → AreBatches 0 rs batches.now
        → AreBatches least rs batches.now }
{
    match batches.first() {
        Some(first) => first.first < least,
        None => false,
    }
}

/// The sequence that the batch behind these may begin with, where the first one may begin with this
/// sequence.
fn end_of(least: u64, batches: &[WriteBatch]) -> u64
    requires { (rs : List (List ℕ)) × AreBatches least rs batches.now }
    ensures { result ≡ after least batches.now }
{
    match batches.last() {
        Some(last) => last.first + last.writes.as_slice().len() as u64,
        None => least,
    }
}

impl WriteLogs {
    /// No log was read.
    pub fn new(alloc: Global) -> WriteLogs
        ensures { result ≡ [] }
    {
        WriteLogs {
            batches: Vec::new(alloc),
            end: 0,
        }
    }

    /// Reads the next log, and answers how many bytes at its end hold no whole record.
    ///
    /// # Errors
    /// Those of `read_writes`; `SequenceOrder` also where the log begins below the end of those
    /// before. Then these are as they were.
    pub fn read(&mut self, alloc: Global, bytes: &[u8]) -> Result<u64, WriteLogFault>
        ensures ok { IfOk result (λ rest. (batches : List Given)
            × IsWriteLog bytes.now batches rest × (self.new ≡ self.old ++ batches)) }
        ensures err { OnErr result (self.new ≡ self.old) }
        ensures refused { IfErr result (IsReadRefusal self.old bytes.now) }
    {
        let log = read_writes(alloc, bytes)?;
        let rest = log.rest;
        let mut batches = log.batches.into_vec();
        if begin_below(self.end, &batches) {
            return Err(WriteLogFault::SequenceOrder);
        }
        let end = end_of(self.end, &batches);
        self.batches.append(&mut batches)?;
        self.end = end;
        Ok(rest)
    }

    /// Reads the next log up to its first fault, where it has one: that of `read`. Answers what is
    /// left out of it. `AllocError` where a growth was refused; then these are as they were.
    pub fn read_to_fault(&mut self, alloc: Global, bytes: &[u8]) -> Result<LeftOut, AllocError>
        // Without a fault it is read whole.
        ensures whole { IfOk result (λ left. IfNone left.fault ((batches : List Given)
            × IsWriteLog bytes.now batches left.bytes × (self.new ≡ self.old ++ batches))) }

        // Else the longest front of it is that is a log behind these.
        ensures front { IfOk result (λ left. IfSome left.fault (λ e. (batches : List Given)
            × IsFront (after 0 self.old) bytes.now batches left.bytes e
            × (self.new ≡ self.old ++ batches))) }
        ensures err { OnErr result (self.new ≡ self.old) }
    {
        first_batches();
        let front = read_to_first_fault(alloc, self.end, bytes)?;
        let fault = front.fault;
        let left = left_behind(bytes.len(), front.len, front.log.rest);
        let mut batches = front.log.batches.into_vec();
        let end = end_of(self.end, &batches);
        self.batches.append(&mut batches)?;
        self.end = end;
        Ok(LeftOut { bytes: left, fault })
    }

    /// The sequence that the next batch may begin with: one above that of the last write, or 0. No
    /// batch begins below the end of the one before, also from one log to the next.
    pub fn end(&self) -> u64
        ensures end { result ≡ after 0 self.now }
        ensures row { AreInRow self.now }
    {
        self.end
    }

    /// The batches of all these logs, as those of one that has no rest.
    pub fn into_log(self) -> WriteLog
        ensures batches { result.batches ≡ self }
        ensures rest { result.rest ≡ 0 }
        ensures row { (records : List (List ℕ)) × AreBatches 0 records result.batches }
    {
        let WriteLogs { batches, .. } = self;
        WriteLog {
            batches: List::of(batches),
            rest: 0,
        }
    }
}
