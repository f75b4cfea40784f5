//! Reading a user key of a table, block by block.

ghost use Rattle.std.specs.Prelude.{◌≡◌, ℕ, List, IfOk, IfErr};
ghost use Rattle.std.specs.Arc.{arc_value};
ghost use Rattle.lsm_block.specs.Held.{HeldBlock};
ghost use Rattle.lsm_reader.specs.Blocks.{Reads, or_none};
ghost use Rattle.lsm_reader.specs.Getting.{got, got_by};
ghost use Rattle.lsm_reader.specs.Refusals.{IsReadRefusal};
ghost use Rattle.lsm_table.specs.Footer.{body_of};
ghost use Rattle.lsm_table.specs.HeldTable.{Names};
ghost use Rattle.lsm_codec.specs.Entries.{Entry, newest};
ghost use Rattle.lsm_table.specs.Found.{seen, found_in};
ghost use Rattle.lsm_table.specs.ReadFault.{ReadCounted, IsMemoryOrShelf};
ghost use Rattle.lsm_table.specs.Searching.{of_user};
ghost use Rattle.lsm_table.specs.Table.{IsTable};
ghost use Rattle.lsm_shelf.specs.Told.{Becomes};

use crate::blocks::Blocks;
use crate::opening::index_by;
use crate::search::sought_by;
use lsm_block::{Block, BlockIter};
use lsm_table::{Found, NamedShelf, Naming, ReadFault, Shelf, found_in_entry, key_for};
use std::alloc::{AllocError, Global};
use std::sync::Arc;

/// What the first of the entries that a search found says of the user key; nothing where it found
/// none.
fn found_at(
    alloc: Global,
    here: &Option<BlockIter>,
    user: &[u8],
) -> Result<Option<Found>, AllocError>
    ensures found { IfOk result (λ f. seen f ≡ found_in (of_user user.now (or_none here.now))) }
{
    let Some(entries) = here else {
        return Ok(None);
    };
    match entries.key() {
        None => Ok(None),
        Some(first) => found_in_entry(alloc, &first, entries.value(), user),
    }
}

/// What a read finds in the table of a receipt, where this is its index block.
pub(crate) fn get_from<N: Naming, S: Shelf, B: Blocks<N, S>>(
    blocks: &mut B,
    alloc: Global,
    receipt: &S::Receipt,
    index: Arc<Block>,
    user: &[u8],
    seq: u64,
) -> Result<Option<Found>, ReadFault>
    requires here { S.is_of N.place receipt.now }
    ensures exact { S.honest → Reads seen result (got_by (body_of (S.Receipt.image receipt.now))
        user.now seq (arc_value {X = HeldBlock} index).entries) }
    ensures found { S.honest → (es : List Entry)
        → Names (body_of (S.Receipt.image receipt.now)) (arc_value {X = HeldBlock} index).entries es
        → IfOk result (λ f. seen f ≡ found_in (newest user.now seq es)) }
    ensures sound { S.honest → (es : List Entry)
        → Names (body_of (S.Receipt.image receipt.now)) (arc_value {X = HeldBlock} index).entries es
        → IfErr result IsMemoryOrShelf }
    ensures told { Becomes (B.told blocks.old) (B.told blocks.new) }
    ensures loan { B.loan blocks.new ≡ B.loan blocks.old }
    ensures cause { IfErr result (λ e. ReadCounted e (B.told blocks.old) (B.told blocks.new)) }
    ensures refused { IfErr result
        (IsReadRefusal (S.refuses N.place) (S.Receipt.number receipt.now)) }
{
    let key = key_for(user, seq);
    let here = sought_by(blocks, alloc, receipt, index, &key)?;
    Ok(found_at(alloc, &here, user)?)
}

/// What a read of the user key finds at the sequence in the table of a receipt: the newest entry
/// with a sequence at most `seq`. It reads the footer, the index block, and the data blocks that
/// may have it, each judged.
pub fn get_by<N: Naming, S: Shelf, B: Blocks<N, S>>(
    blocks: &mut B,
    alloc: Global,
    receipt: &S::Receipt,
    user: &[u8],
    seq: u64,
) -> Result<Option<Found>, ReadFault>
    requires here { S.is_of N.place receipt.now }
    // Whatever the image is.
    ensures exact { S.honest → Reads seen result (got (S.Receipt.image receipt.now) user.now seq) }
    ensures found { S.honest → (es : List Entry) → IsTable (S.Receipt.image receipt.now) es
        → IfOk result (λ f. seen f ≡ found_in (newest user.now seq es)) }
    ensures sound { S.honest → (es : List Entry) → IsTable (S.Receipt.image receipt.now) es
        → IfErr result IsMemoryOrShelf }
    ensures told { Becomes (B.told blocks.old) (B.told blocks.new) }
    ensures loan { B.loan blocks.new ≡ B.loan blocks.old }
    ensures cause { IfErr result (λ e. ReadCounted e (B.told blocks.old) (B.told blocks.new)) }
    ensures refused { IfErr result
        (IsReadRefusal (S.refuses N.place) (S.Receipt.number receipt.now)) }
{
    let index = index_by(blocks, alloc, receipt)?;
    get_from(blocks, alloc, receipt, index, user, seq)
}

/// The same by the shelf itself.
pub fn get<N: Naming, S: Shelf>(
    shelf: &mut NamedShelf<N, S>,
    alloc: Global,
    receipt: &S::Receipt,
    user: &[u8],
    seq: u64,
) -> Result<Option<Found>, ReadFault>
    requires here { S.is_of N.place receipt.now }
    ensures exact { S.honest → Reads seen result (got (S.Receipt.image receipt.now) user.now seq) }
    ensures found { S.honest → (es : List Entry) → IsTable (S.Receipt.image receipt.now) es
        → IfOk result (λ f. seen f ≡ found_in (newest user.now seq es)) }
    ensures sound { S.honest → (es : List Entry) → IsTable (S.Receipt.image receipt.now) es
        → IfErr result IsMemoryOrShelf }
    ensures told { Becomes shelf.old shelf.new }
    ensures cause { IfErr result (λ e. ReadCounted e shelf.old shelf.new) }
    ensures refused { IfErr result
        (IsReadRefusal (S.refuses N.place) (S.Receipt.number receipt.now)) }
{
    get_by(shelf, alloc, receipt, user, seq)
}
