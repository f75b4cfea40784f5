//! The handle of a block: where it stands in a table's file.

use crate::table_fault::TableFault;
use lsm_codec::{get_varint64, put_varint64};
use std::alloc::AllocError;

/// Where a block stands (LevelDB's `doc/table_format.md`, "BlockHandle").
#[derive(Clone, Copy, Debug, PartialEq, Eq)]
pub struct Handle {
    /// Bytes from the start of the file.
    pub offset: u64,
    /// Bytes of the contents, the trailer not counted.
    pub size: u64,
}

impl Handle {
    ghost use Rattle.std.specs.Prelude.{◌≡◌, ◌++◌, OnOk, OnErr};
    ghost use Rattle.lsm_table.specs.Handle.{handle_text, handle_at};
    ghost use Rattle.lsm_table.specs.Reading.{Gives};
    ghost use Rattle.lsm_table.specs.HeldTable.{IsSpelled, SpellsJust};

    /// Appends the shortest spelling. An `Err` leaves the contents as they were.
    pub(crate) fn put(&self, out: &mut Vec<u8>) -> Result<(), AllocError>
        ensures ok { OnOk result (out.new.items ≡ out.old.items ++ handle_text self.now) }
        ensures err { OnErr result (out.new.items ≡ out.old.items) }
    {
        let len = out.len();
        put_varint64(out, self.offset)?;
        match put_varint64(out, self.size) {
            Ok(()) => Ok(()),
            Err(error) => {
                out.truncate(len);
                Err(error)
            }
        }
    }

    /// Reads the handle at the front, and what follows it; this fault where there is none.
    #[tactic(auto, unfolding(crate::specs::Handle::handle_at))]
    pub fn get(fault: TableFault, bytes: &[u8]) -> Result<(Handle, &[u8]), TableFault>
        ensures { Gives (λ x. (x.0, x.1.now)) result (handle_at fault bytes.now) }
    {
        let Ok((offset, used)) = get_varint64(bytes) else {
            return Err(fault);
        };
        let (_, rest) = bytes.split_at(used);
        let Ok((size, used)) = get_varint64(rest) else {
            return Err(fault);
        };
        let (_, after) = rest.split_at(used);
        Ok((Handle { offset, size }, after))
    }

    /// The handle that bytes spell which were read before.
    pub(crate) fn spelled(bytes: &[u8]) -> Handle
        requires { IsSpelled bytes.now }
        ensures { SpellsJust bytes.now result }
    {
        let Ok((offset, used)) = get_varint64(bytes) else {
            unreachable!()
        };
        let (_, rest) = bytes.split_at(used);
        let Ok((size, _)) = get_varint64(rest) else {
            unreachable!()
        };
        Handle { offset, size }
    }
}
