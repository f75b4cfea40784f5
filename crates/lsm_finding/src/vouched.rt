//! A shelf with one premise more.

use crate::finding::Finding;
use lsm_shelf::{Shelf, ShelfFault};
use std::alloc::Global;
use std::marker::{Brand, PhantomData};
use std::sync::Wait;

/// Stands for a premise, which who opens a database without reading its tables picks: that they are
/// as its manifest says.
pub trait Vouching: Send + Sync {
    /// The premise.
    ghost holds: { Type 0 };
}

impl Vouching for Brand {
    ghost holds = { Unit {0} };
}

/// A shelf that answers as another one does, and is honest where that one is and the premise `V`
/// holds. So all that is proved of every shelf, with its honesty as the premise, is proved of a
/// database whose tables were not judged, with that premise beside it.
pub struct Vouched<V: Vouching, S: Shelf> {
    pub(crate) shelf: S,
    pub(crate) by: PhantomData<V>,
}

impl<V: Vouching, S: Shelf> Drop for Vouched<V, S> {
    fn drop(self) {
        let Self { shelf: _, by: _ } = self;
    }
}

impl<V: Vouching, S: Shelf> Vouched<V, S> {
    ghost use Rattle.std.specs.Prelude.{◌≡◌};

    /// The shelf, under this premise.
    pub fn of(shelf: S) -> Vouched<V, S>
        ensures { S.told result.shelf ≡ S.told shelf }
    {
        Vouched {
            shelf,
            by: PhantomData,
        }
    }

    /// The shelf itself.
    pub fn into_shelf(self) -> S
        ensures { S.told result ≡ S.told self.shelf }
    {
        let Self { shelf, by: _ } = self;
        shelf
    }
}

impl<V: Vouching, S: Shelf> Shelf for Vouched<V, S> {
    type Receipt = S::Receipt;

    ghost honest = { S.honest × V.holds };

    ghost told = { λ s. S.told s.shelf };

    ghost is_of = { S.is_of };

    ghost refuses = { S.refuses };

    fn put<R: Wait>(
        &mut self,
        rt: &R,
        alloc: Global,
        number: u64,
        image: &[u8],
    ) -> Result<S::Receipt, ShelfFault> {
        self.shelf.put(rt, alloc, number, image)
    }

    fn read_at(
        &mut self,
        alloc: Global,
        receipt: &S::Receipt,
        offset: u64,
        len: usize,
    ) -> Result<Vec<u8>, ShelfFault> {
        self.shelf.read_at(alloc, receipt, offset, len)
    }

    fn load<R: Wait>(
        &mut self,
        rt: &R,
        alloc: Global,
        number: u64,
    ) -> Result<(S::Receipt, Vec<u8>), ShelfFault> {
        self.shelf.load(rt, alloc, number)
    }

    fn remove<R: Wait>(&mut self, rt: &R, number: u64) -> Result<(), ShelfFault> {
        self.shelf.remove(rt, number)
    }

    fn list<R: Wait>(&mut self, rt: &R, alloc: Global) -> Result<Vec<u64>, ShelfFault> {
        self.shelf.list(rt, alloc)
    }

    fn read_manifest<R: Wait>(
        &mut self,
        rt: &R,
        alloc: Global,
    ) -> Result<(u64, Vec<u8>), ShelfFault> {
        self.shelf.read_manifest(rt, alloc)
    }

    fn start_manifest<R: Wait>(
        &mut self,
        rt: &R,
        alloc: Global,
        number: u64,
        bytes: &[u8],
    ) -> Result<(), ShelfFault> {
        self.shelf.start_manifest(rt, alloc, number, bytes)
    }

    fn append_manifest<R: Wait>(&mut self, rt: &R, bytes: &[u8]) -> Result<(), ShelfFault> {
        self.shelf.append_manifest(rt, bytes)
    }

    fn fork(&mut self, alloc: Global) -> Result<Vouched<V, S>, ShelfFault> {
        Ok(Vouched {
            shelf: self.shelf.fork(alloc)?,
            by: PhantomData,
        })
    }

    fn same(&self, a: &S::Receipt, b: &S::Receipt) -> bool {
        self.shelf.same(a, b)
    }

    fn copy_receipt(&self, receipt: &S::Receipt) -> S::Receipt {
        self.shelf.copy_receipt(receipt)
    }

    fn failures(&self) -> (u64, u64) {
        self.shelf.failures()
    }
}

impl<V: Vouching, S: Finding> Finding for Vouched<V, S> {
    ghost keeps = { S.keeps };

    fn find<R: Wait>(
        &mut self,
        rt: &R,
        alloc: Global,
        number: u64,
    ) -> Result<S::Receipt, ShelfFault> {
        self.shelf.find(rt, alloc, number)
    }
}
