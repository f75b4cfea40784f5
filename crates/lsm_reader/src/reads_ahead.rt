//! A shelf that is read ahead.

ghost use Rattle.std.specs.Prelude.{◌≡◌, ◌+◌, ◌≤◌, length, take, drop, IfOk, IfErr};
ghost use Rattle.lsm_shelf.specs.Asked.{ReadAt};
ghost use Rattle.lsm_shelf.specs.Told.{Told, Becomes, Counted, NotTaken};

use crate::ahead::{Ahead, reach, wider};
use crate::part::{Part, copied, is_within};
use lsm_table::{NamedShelf, Naming, Shelf, ShelfFault, TableReceipt};
use std::alloc::Global;
use std::marker::PhantomData;

/// A shelf that is read ahead. A trait, since an `impl` of `Blocks` calls no function of a shelf
/// but by one.
pub(crate) trait ReadsAhead<N: Naming, S: Shelf> {
    ghost use Rattle.lsm_shelf.specs.Told.{Told};

    /// What the calls told.
    ghost told: { Self → Told };

    /// Reads the bytes of an image from an offset on, as many as are to be read at once, unless so
    /// many are there or were to be read alone. A refusal is passed over.
    fn read_ahead(
        &mut self,
        alloc: Global,
        receipt: &S::Receipt,
        offset: u64,
        len: usize,
        ahead: &mut Ahead<N, S>,
    )
        requires here { S.is_of N.place receipt.now }
        ensures { Becomes (told self.old) (told self.new) };

    /// So many bytes of an image from an offset on: of those that were read ahead, where they are
    /// among them, and else as `Shelf::read_at`.
    fn part_at(
        &mut self,
        alloc: Global,
        receipt: &S::Receipt,
        offset: u64,
        len: usize,
        ahead: &mut Ahead<N, S>,
    ) -> Result<Vec<u8>, ShelfFault>
        requires here { S.is_of N.place receipt.now }
        requires inside { offset + len ≤ length (S.Receipt.image receipt.now) }
        ensures bytes { S.honest
            → IfOk result (λ v. v.items ≡ take len (drop offset (S.Receipt.image receipt.now))) }
        ensures told { Becomes (told self.old) (told self.new) }
        ensures refused { IfErr result
            (S.refuses N.place (ReadAt (S.Receipt.number receipt.now) offset len)) }
        ensures cause { IfErr result (λ e.
            NotTaken e × Counted e (told self.old) (told self.new)) };
}

impl<N: Naming, S: Shelf> ReadsAhead<N, S> for NamedShelf<N, S> {
    ghost told = { λ s. s };

    #[tactic(auto, using(crate::proofs::AheadLaws::part_read))]
    fn read_ahead(
        &mut self,
        alloc: Global,
        receipt: &S::Receipt,
        offset: u64,
        len: usize,
        ahead: &mut Ahead<N, S>,
    ) {
        if let Some(part) = &ahead.part {
            if is_within(part.offset, part.bytes.len(), offset, len) {
                return;
            }
        }
        let most = reach(ahead.window, offset, receipt.size());
        ahead.window = wider(ahead.window);
        if most <= len {
            return;
        }
        match self.shelf.read_at(alloc, receipt, offset, most) {
            Ok(bytes) => {
                ahead.part = Some(Part {
                    receipt: self.shelf.copy_receipt(receipt),
                    offset,
                    bytes,
                    of: PhantomData,
                });
            }
            Err(_) => ahead.window = 0,
        }
    }

    fn part_at(
        &mut self,
        alloc: Global,
        receipt: &S::Receipt,
        offset: u64,
        len: usize,
        ahead: &mut Ahead<N, S>,
    ) -> Result<Vec<u8>, ShelfFault> {
        self.read_ahead(alloc, receipt, offset, len, ahead);
        if let Some(part) = &ahead.part {
            if self.shelf.same(&part.receipt, receipt) {
                if let Some(text) = copied(alloc, part.offset, &part.bytes, offset, len) {
                    return Ok(text);
                }
            }
        }
        self.shelf.read_at(alloc, receipt, offset, len)
    }
}
