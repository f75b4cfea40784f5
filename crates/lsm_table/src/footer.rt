//! The end of a table's file, 48 bytes:
//!
//! ```text
//! metaindex handle | index handle | padding up to 40 bytes | magic number, 8 bytes
//! ```

use crate::handle::Handle;
use crate::table_fault::TableFault;
use std::alloc::{AllocError, Global};

/// A footer has 48 bytes: 40 for the two handles, 8 for the magic number.
pub const FOOTER: usize = 48;

const PLACES: usize = 40;

/// The fixed64 0xdb4775248b80fb57.
const MAGIC: [u8; 8] = [0x57, 0xfb, 0x80, 0x8b, 0x24, 0x75, 0x47, 0xdb];

/// The handles of the metaindex block and of the index block (LevelDB's `doc/table_format.md`,
/// "footer").
#[derive(Clone, Copy, Debug, PartialEq, Eq)]
pub struct Footer {
    pub metaindex: Handle,
    pub index: Handle,
}

impl Footer {
    ghost use Rattle.std.specs.Prelude.{◌≡◌, ◌≤◌, ◌++◌, length, IfOk};
    ghost use Rattle.lsm_table.specs.Reading.{Gives};
    ghost use Rattle.lsm_table.specs.Footer.{places_at, footer_at, footer_text};

    #[tactic(auto, unfolding(crate::specs::Footer::places_at))]
    fn places(bytes: &[u8]) -> Result<Footer, TableFault>
        ensures { Gives (λ x. x) result (places_at bytes.now) }
    {
        let (metaindex, rest) = Handle::get(TableFault::BadHandle, bytes)?;
        let (index, _) = Handle::get(TableFault::BadHandle, rest)?;
        Ok(Footer { metaindex, index })
    }

    /// Reads the footer of a file: its length, its magic number and both handles, in this order.
    #[tactic(auto, unfolding(crate::specs::Footer::footer_at))]
    pub fn of(file: &[u8]) -> Result<Footer, TableFault>
        ensures reads { Gives (λ x. x) result (footer_at file.now) }
        ensures long { IfOk result (λ _. FOOTER ≤ length file.now) }
    {
        if file.len() < FOOTER {
            return Err(TableFault::ShortFile);
        }
        let (_, footer) = file.split_at(file.len() - FOOTER);
        let (places, magic) = footer.split_at(PLACES);
        if magic != MAGIC.as_slice() {
            return Err(TableFault::BadMagic);
        }
        Footer::places(places)
    }

    /// The 48 bytes; the padding is zeros.
    pub(crate) fn text(self, alloc: Global) -> Result<Vec<u8>, AllocError>
        ensures { IfOk result (λ v. v.items ≡ footer_text self) }
    {
        let mut out = Vec::with_capacity(alloc, FOOTER)?;
        self.metaindex.put(&mut out)?;
        self.index.put(&mut out)?;
        out.resize(PLACES, 0)?;
        out.extend_from_slice(&MAGIC)?;
        Ok(out)
    }
}
