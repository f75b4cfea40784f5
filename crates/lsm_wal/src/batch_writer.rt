//! The bytes of a write batch.

ghost use Rattle.std.specs.Prelude.{◌≡◌, ◌<◌, ◌++◌, ◌^◌, All, length, OnOk};
ghost use Rattle.std.specs.Int.{w32, w64, to_le_bytes};
ghost use Rattle.lsm_wal.specs.WriteLog.{IsWriteBatch};
ghost use Rattle.lsm_wal.specs.Writing.{bytes_text, write_text, writes_text, batch_text};
ghost use Rattle.lsm_wal.specs.Writing.{CanBeSpelled, IsShort};

use crate::write_batch::WriteBatch;
use lsm_batch::Write;
use lsm_codec::put_varint32;
use std::alloc::AllocError;

/// Appends a length and the bytes.
#[tactic(auto, unfolding(crate::specs::Writing::bytes_text))]
fn push_bytes(out: &mut Vec<u8>, bytes: &[u8]) -> Result<(), AllocError>
    requires { length bytes.now < 2 ^ 32 }
    ensures { OnOk result (out.new.items ≡ out.old.items ++ bytes_text bytes.now) }
{
    put_varint32(out, bytes.len() as u32)?;
    out.extend_from_slice(bytes)?;
    Ok(())
}

fn push_write(out: &mut Vec<u8>, write: &Write) -> Result<(), AllocError>
    requires { IsShort write.now }
    ensures { OnOk result (out.new.items ≡ out.old.items ++ write_text write.now) }
{
    match &write.value {
        None => {
            out.push(0)?;
            push_bytes(out, write.key.as_slice())?;
            Ok(())
        }
        Some(value) => {
            out.push(1)?;
            push_bytes(out, write.key.as_slice())?;
            push_bytes(out, value.as_slice())?;
            Ok(())
        }
    }
}

fn push_writes(out: &mut Vec<u8>, writes: &[Write]) -> Result<(), AllocError>
    requires { All IsShort writes.now }
    ensures { OnOk result (out.new.items ≡ out.old.items ++ writes_text writes.now) }
{
    for write in writes {
        push_write(out, write)?;
    }
    Ok(())
}

/// Appends a sequence, the number of the writes, and the writes.
fn push_batch(out: &mut Vec<u8>, first: u64, writes: &[Write]) -> Result<(), AllocError>
    requires few { length writes.now < 2 ^ 32 }
    requires short { All IsShort writes.now }
    ensures { OnOk result (out.new.items ≡ out.old.items ++ (to_le_bytes w64 first
        ++ (to_le_bytes w32 (length writes.now) ++ writes_text writes.now))) }
{
    out.extend_from_slice(first.to_le_bytes().as_slice())?;
    out.extend_from_slice((writes.len() as u32).to_le_bytes().as_slice())?;
    push_writes(out, writes)?;
    Ok(())
}

impl WriteBatch {
    /// Appends the bytes of the batch. After an `Err` some of them may stand there.
    #[tactic(auto, unfolding(crate::specs::Writing::batch_text))]
    pub fn encode(&self, out: &mut Vec<u8>) -> Result<(), AllocError>
        requires { CanBeSpelled self.now }

        // These bytes are added, and they spell the batch.
        ensures bytes { OnOk result (out.new.items ≡ out.old.items ++ batch_text self.now) }
        ensures spelled { IsWriteBatch (batch_text self.now) self.now }
    {
        push_batch(out, self.first, self.writes.as_slice())
    }
}
