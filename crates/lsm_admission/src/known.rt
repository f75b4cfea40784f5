//! A shelf whose tables the program knows.

ghost use Rattle.std.specs.Prelude.{◌≡◌, ◌≤◌, ◌^◌, ℕ, IfErr, IfOk, List, length};
ghost use Rattle.std.specs.Option.{option_map};
ghost use Rattle.lsm_shelf.specs.Refusals.{MemoryRefuses};
ghost use Rattle.lsm_storage.specs.MemoryShelf.{memory_told};
ghost use Rattle.lsm_admission.specs.Answered.{IsAnswerRefusal};
ghost use Rattle.lsm_admission.specs.KnownAnswers.{KnownAnswers, KnownImage};

use crate::answer_fault::AnswerFault;
use crate::answering::get_unjudged;
use lsm_finding::Finding;
use lsm_shelf::{Shelf, ShelfFault};
use lsm_storage::{MemoryReceipt, MemoryShelf};
use lsm_table::TableReceipt;
use std::alloc::{AllocError, Global};
use std::marker::PhantomData;
use std::sync::Wait;

/// Tables that a program has of its own, as constants or as what it builds from them.
pub trait KnownTables: Send + Sync {
    /// The image under each number.
    ghost images: { ℕ → List ℕ };

    /// The length of the image, at most 1 GiB.
    fn size(number: u64) -> u64
        ensures size { result ≡ length (images number) }
        ensures limit { result ≤ 2 ^ 30 };

    /// The image itself.
    fn image(alloc: Global, number: u64) -> Result<Vec<u8>, AllocError>
        ensures { IfOk result (λ v. v.items ≡ images number) };
}

/// What a `Known` shelf hands out: for a known image, or for one in memory.
pub struct KnownReceipt<K: KnownTables> {
    pub(crate) number: u64,
    pub(crate) stored: Option<MemoryReceipt>,
    pub(crate) by: PhantomData<K>,
}

impl<K: KnownTables> Drop for KnownReceipt<K> {
    fn drop(self) {
        let Self {
            number: _,
            stored: _,
            by: _,
        } = self;
    }
}

impl<K: KnownTables> TableReceipt for KnownReceipt<K> {
    ghost use Rattle.lsm_admission.specs.KnownImages.{image_in, number_in};

    ghost number = { λ r. number_in r.number r.stored };

    ghost image = { λ r. image_in (K.images r.number) r.stored };

    fn number(&self) -> u64 {
        match &self.stored {
            None => self.number,
            Some(stored) => stored.number(),
        }
    }

    fn size(&self) -> u64 {
        match &self.stored {
            None => K::size(self.number),
            Some(stored) => stored.size(),
        }
    }
}

/// A shelf in memory that finds the tables which the program knows: `find` answers with the known
/// image of the number, and asks nothing of what lies there. All else is as with the shelf inside.
/// So its manifest may be any, and of its tables the program says what they are.
pub struct Known<K: KnownTables> {
    pub(crate) shelf: MemoryShelf,
    pub(crate) by: PhantomData<K>,
}

impl<K: KnownTables> Drop for Known<K> {
    fn drop(self) {
        let Self { shelf: _, by: _ } = self;
    }
}

impl<K: KnownTables> Known<K> {
    /// The shelf, with these tables.
    pub fn of(shelf: MemoryShelf) -> Known<K>
        ensures { memory_told result.shelf ≡ memory_told shelf }
    {
        Known {
            shelf,
            by: PhantomData,
        }
    }

    /// The shelf itself.
    pub fn into_shelf(self) -> MemoryShelf
        ensures { memory_told result ≡ memory_told self.shelf }
    {
        let Self { shelf, by: _ } = self;
        shelf
    }
}

impl<K: KnownTables> Shelf for Known<K> {
    ghost use Rattle.lsm_admission.specs.KnownImages.{IsOfKnown};

    type Receipt = KnownReceipt<K>;

    ghost honest = { Unit {0} };

    ghost told = { λ s. memory_told s.shelf };

    ghost is_of = { λ p r. IsOfKnown p r.stored };

    ghost refuses = { λ p asked fault. MemoryRefuses asked fault };

    fn put<R: Wait>(
        &mut self,
        rt: &R,
        alloc: Global,
        number: u64,
        image: &[u8],
    ) -> Result<KnownReceipt<K>, ShelfFault> {
        let receipt = self.shelf.put(rt, alloc, number, image)?;
        Ok(KnownReceipt {
            number,
            stored: Some(receipt),
            by: PhantomData,
        })
    }

    fn read_at(
        &mut self,
        alloc: Global,
        receipt: &KnownReceipt<K>,
        offset: u64,
        len: usize,
    ) -> Result<Vec<u8>, ShelfFault> {
        match &receipt.stored {
            None => {
                let image = K::image(alloc, receipt.number)?;
                let from = offset as usize;
                Ok(Vec::from_slice(alloc, &image[from..from + len])?)
            }
            Some(stored) => self.shelf.read_at(alloc, stored, offset, len),
        }
    }

    fn load<R: Wait>(
        &mut self,
        rt: &R,
        alloc: Global,
        number: u64,
    ) -> Result<(KnownReceipt<K>, Vec<u8>), ShelfFault> {
        let (receipt, image) = self.shelf.load(rt, alloc, number)?;
        let receipt = KnownReceipt {
            number,
            stored: Some(receipt),
            by: PhantomData,
        };
        Ok((receipt, image))
    }

    fn remove<R: Wait>(&mut self, rt: &R, number: u64) -> Result<(), ShelfFault> {
        self.shelf.remove(rt, number)
    }

    fn list<R: Wait>(&mut self, rt: &R, alloc: Global) -> Result<Vec<u64>, ShelfFault> {
        self.shelf.list(rt, alloc)
    }

    fn read_manifest<R: Wait>(
        &mut self,
        rt: &R,
        alloc: Global,
    ) -> Result<(u64, Vec<u8>), ShelfFault> {
        self.shelf.read_manifest(rt, alloc)
    }

    fn start_manifest<R: Wait>(
        &mut self,
        rt: &R,
        alloc: Global,
        number: u64,
        bytes: &[u8],
    ) -> Result<(), ShelfFault> {
        self.shelf.start_manifest(rt, alloc, number, bytes)
    }

    fn append_manifest<R: Wait>(&mut self, rt: &R, bytes: &[u8]) -> Result<(), ShelfFault> {
        self.shelf.append_manifest(rt, bytes)
    }

    fn fork(&mut self, alloc: Global) -> Result<Known<K>, ShelfFault> {
        Ok(Known {
            shelf: self.shelf.fork(alloc)?,
            by: PhantomData,
        })
    }

    fn same(&self, a: &KnownReceipt<K>, b: &KnownReceipt<K>) -> bool {
        match (&a.stored, &b.stored) {
            (None, None) => a.number == b.number,
            (Some(first), Some(second)) => self.shelf.same(first, second),
            _ => false,
        }
    }

    fn copy_receipt(&self, receipt: &KnownReceipt<K>) -> KnownReceipt<K> {
        let copy = match &receipt.stored {
            None => None,
            Some(stored) => Some(self.shelf.copy_receipt(stored)),
        };
        KnownReceipt {
            number: receipt.number,
            stored: copy,
            by: PhantomData,
        }
    }

    fn failures(&self) -> (u64, u64) {
        self.shelf.failures()
    }
}

impl<K: KnownTables> Finding for Known<K> {
    ghost keeps = { λ place number image. image ≡ K.images number };

    fn find<R: Wait>(
        &mut self,
        _rt: &R,
        _alloc: Global,
        number: u64,
    ) -> Result<KnownReceipt<K>, ShelfFault> {
        Ok(KnownReceipt {
            number,
            stored: None,
            by: PhantomData,
        })
    }
}

/// What a user key answers in the database on a shelf in memory, whose tables the program knows. As
/// `get_unjudged`, with no premise on what lies there: where the known images are the tables of a
/// version that a judgment gives, the answer is that of all entries.
pub fn get_known<K: KnownTables, R: Wait>(
    rt: &R,
    alloc: Global,
    shelf: MemoryShelf,
    user: &[u8],
) -> (Result<Option<Vec<u8>>, AnswerFault>, MemoryShelf)
    ensures answered { IfOk result.0 (λ a. KnownAnswers K.images user.now
        (option_map (λ b. b.items) a) (memory_told shelf) (memory_told result.1)) }
    ensures refused { IfErr result.0 (λ e. IsAnswerRefusal (KnownImage K.images)
        (λ asked. MemoryRefuses asked) (Unit {0}) e (memory_told shelf) (memory_told result.1)) }
{
    let known: Known<K> = Known::of(shelf);
    let (answer, known) = get_unjudged(rt, alloc, known, user);
    (answer, known.into_shelf())
}
