//! Write batches (LevelDB's `db/write_batch.cc`), and how they are read.

ghost use Rattle.std.specs.Prelude.{◌≡◌, ◌+◌, ◌^◌, ◌≤◌, ℕ, List, length, IfOk, Ok};
ghost use Rattle.lsm_wal.specs.WriteLog.{IsWriteBatch};
ghost use Rattle.lsm_wal.specs.Reading.{batch_at, writes_at};
ghost use Rattle.lsm_wal.specs.View.{Gives};

use crate::write_log_fault::WriteLogFault;
use crate::write_reader::next_write;
use lsm_batch::Write;
use lsm_codec::List;
use std::alloc::Global;

/// Writes one after the other, the first at this sequence, and each later one at the next.
#[derive(Debug, Drop)]
pub struct WriteBatch {
    /// The sequence of the first write.
    pub first: u64,
    /// The writes, in their order. A key may be in several.
    pub writes: List<Write>,
}

ghost use Rattle.lsm_wal.specs.declared.write_batch.WriteBatch.{WriteBatch as Given};

impl WriteBatch {
    /// Reads a batch.
    ///
    /// # Errors
    /// The first fault from the front: `BatchShort`, `WriteKind` or `WriteCut`, then `BatchCount`,
    /// then `BatchSequence`; `OutOfMemory` where a growth was refused.
    pub fn decode(alloc: Global, bytes: &[u8]) -> Result<WriteBatch, WriteLogFault>
        // What is read is spelled so.
        ensures found { IfOk result (λ b. IsWriteBatch bytes.now b) }

        // What is spelled is read, unless memory runs out.
        ensures only { (b : Given) → IsWriteBatch bytes.now b → Gives (λ x. x) result (Ok b) }

        // Which fault it is.
        ensures exact { Gives (λ x. x) result (batch_at bytes.now) }

        // Its sequences are sequences.
        ensures fits { IfOk result (λ b. b.first + length b.writes ≤ 2 ^ 56) }
    {
        read(alloc, bytes)
    }
}

/// A law: bytes spell at most one batch.
pub fn one_write_batch()
    ensures { (bytes : List ℕ) (a b : Given) → IsWriteBatch bytes a → IsWriteBatch bytes b → a ≡ b }
{}

#[tactic(auto, unfolding(crate::specs::Reading::batch_at))]
fn read(alloc: Global, bytes: &[u8]) -> Result<WriteBatch, WriteLogFault>
    ensures { Gives (λ x. x) result (batch_at bytes.now) }
{
    if bytes.len() < 12 {
        return Err(WriteLogFault::BatchShort);
    }
    let first = u64::from_le_bytes([
        bytes[0], bytes[1], bytes[2], bytes[3], bytes[4], bytes[5], bytes[6], bytes[7],
    ]);
    let count = u32::from_le_bytes([bytes[8], bytes[9], bytes[10], bytes[11]]);
    let (_, body) = bytes.split_at(12);
    let writes = writes_of(alloc, body)?;
    if writes.as_slice().len() != count as usize {
        return Err(WriteLogFault::BatchCount);
    }
    if first > 72_057_594_037_927_936 - count as u64 {
        return Err(WriteLogFault::BatchSequence);
    }
    Ok(WriteBatch { first, writes })
}

fn writes_of(alloc: Global, text: &[u8]) -> Result<List<Write>, WriteLogFault>
    ensures { Gives (λ x. x) result (writes_at (length text.now) text.now) }
{
    let mut writes: Vec<Write> = Vec::new(alloc);
    let mut rest = text;
    for _ in 0..text.len() {
        if rest.is_empty() {
            return Ok(List::of(writes));
        }
        let (write, after) = next_write(alloc, rest)?;
        writes.push(write)?;
        rest = after;
    }
    Ok(List::of(writes))
}
