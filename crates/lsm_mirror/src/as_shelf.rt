//! A `Mirror` as a `Shelf`. (Its calls stand in it whole: the prover passes no bound that is `Send`
//! on from an `impl` of a trait.)

ghost use Rattle.std.specs.Prelude.{◌≡◌, Err, IfErr};
ghost use Rattle.lsm_shelf.specs.Told.{Becomes, Counted, CountedBy, NotTaken, TakenIs};

use crate::counts::Counts;
use crate::held_table::{HeldTable, hold};
use crate::made_receipt::load_made;
use crate::mirror::Mirror;
use crate::mirror_receipt::MirrorReceipt;
use crate::mirroring::Mirroring;
use crate::part::part_of;
use crate::plain::plain_of;
use crate::plain_receipt::PlainReceipt;
use lsm_shelf::{Shelf, ShelfFault, TableReceipt};
use std::alloc::Global;
use std::marker::PhantomData;
use std::sync::{Arc, Wait};

impl<V: Mirroring, S: Shelf> Shelf for Mirror<V, S> {
    ghost use Rattle.lsm_shelf.specs.Stored.{Stored};
    ghost use Rattle.lsm_mirror.specs.Mirrored.{IsMirrored};
    ghost use Rattle.lsm_mirror.specs.Refusals.{MirrorRefuses};

    type Receipt = MirrorReceipt<S::Receipt>;

    ghost honest = { S.honest };

    ghost told = { λ m. m };

    ghost is_of = { λ p. IsMirrored S.Receipt.TableReceipt (S.is_of p) V.shown };

    ghost refuses = { λ p. MirrorRefuses
        (Stored S.Receipt (S.is_of p) S.Receipt.number S.Receipt.image)
        (S.refuses p) S.honest V.shown };

    fn put<R: Wait>(
        &mut self,
        _rt: &R,
        _alloc: Global,
        _number: u64,
        _image: &[u8],
    ) -> Result<MirrorReceipt<S::Receipt>, ShelfFault>
        ensures denied { result ≡ Err ShelfFault.Device }
        ensures told { Becomes self.old self.new }
        ensures cause { IfErr result (λ e. TakenIs _number e × Counted e self.old self.new) }
        ensures counts { CountedBy result self.old self.new }
    {
        self.counts.count(Err(ShelfFault::Device))
    }

    fn read_at(
        &mut self,
        alloc: Global,
        receipt: &MirrorReceipt<S::Receipt>,
        offset: u64,
        len: usize,
    ) -> Result<Vec<u8>, ShelfFault> {
        let packed = match receipt {
            MirrorReceipt::Direct(receipt) => {
                let part = self.shelf.read_at(alloc, receipt, offset, len);
                return self.counts.count(part);
            }
            MirrorReceipt::Plain(plain) => &plain.receipt,
            MirrorReceipt::Made(_) => {
                let Some(made) = &self.view.made else {
                    unreachable!()
                };
                let part = part_of(&made.image, alloc, offset, len);
                return self.counts.count(part);
            }
        };
        let mut held = None;
        for table in &self.held {
            if !self.shelf.same(&table.receipt, packed) {
                continue;
            }
            held = Some(part_of(&table.image, alloc, offset, len));
        }
        if let Some(part) = held {
            return self.counts.count(part);
        }
        let read = self.shelf.read_at(alloc, packed, 0, packed.size() as usize);
        let bytes = self.counts.count(read)?;
        let image = self.counts.count(plain_of(alloc, &bytes))?;
        let part = part_of(&image, alloc, offset, len);
        let table: HeldTable<V, S> = HeldTable {
            receipt: self.shelf.copy_receipt(packed),
            image,
            of: PhantomData,
        };
        hold(&mut self.held, &mut self.next, table);
        self.counts.count(part)
    }

    fn load<R: Wait>(
        &mut self,
        rt: &R,
        alloc: Global,
        number: u64,
    ) -> Result<(MirrorReceipt<S::Receipt>, Vec<u8>), ShelfFault> {
        if let Some(made) = self.view.made_at(number) {
            let (receipt, image) = self.counts.count(load_made(alloc, made))?;
            return Ok((MirrorReceipt::Made(receipt), image));
        }
        let loaded = self.shelf.load(rt, alloc, number);
        let (receipt, image) = self.counts.count(loaded)?;
        if !self.view.inflates {
            return Ok((MirrorReceipt::Direct(receipt), image));
        }
        let plain = self.counts.count(plain_of(alloc, &image))?;
        let size = plain.len() as u64;
        Ok((MirrorReceipt::Plain(PlainReceipt { receipt, size }), plain))
    }

    /// `OutOfMemory`, by which a shelf says that nothing was asked of the device.
    fn remove<R: Wait>(&mut self, _rt: &R, _number: u64) -> Result<(), ShelfFault>
        ensures denied { result ≡ Err ShelfFault.OutOfMemory }
        ensures told { Becomes self.old self.new }
        ensures cause { IfErr result (λ e. NotTaken e × Counted e self.old self.new) }
        ensures counts { CountedBy result self.old self.new }
    {
        Err(ShelfFault::OutOfMemory)
    }

    fn list<R: Wait>(&mut self, rt: &R, alloc: Global) -> Result<Vec<u64>, ShelfFault> {
        let listed = self.shelf.list(rt, alloc);
        self.counts.count(listed)
    }

    fn read_manifest<R: Wait>(
        &mut self,
        rt: &R,
        alloc: Global,
    ) -> Result<(u64, Vec<u8>), ShelfFault> {
        // Nothing is asked below where memory runs out.
        let bytes = Vec::from_slice(alloc, &self.view.manifest)?;
        let read = self.shelf.read_manifest(rt, alloc);
        let (number, _) = self.counts.count(read)?;
        Ok((number, bytes))
    }

    fn start_manifest<R: Wait>(
        &mut self,
        _rt: &R,
        _alloc: Global,
        _number: u64,
        _bytes: &[u8],
    ) -> Result<(), ShelfFault>
        ensures denied { result ≡ Err ShelfFault.Device }
        ensures told { Becomes self.old self.new }
        ensures cause { IfErr result (λ e. TakenIs _number e × Counted e self.old self.new) }
        ensures counts { CountedBy result self.old self.new }
    {
        self.counts.count(Err(ShelfFault::Device))
    }

    fn append_manifest<R: Wait>(&mut self, _rt: &R, _bytes: &[u8]) -> Result<(), ShelfFault>
        ensures denied { result ≡ Err ShelfFault.Device }
        ensures told { Becomes self.old self.new }
        ensures cause { IfErr result (λ e. NotTaken e × Counted e self.old self.new) }
        ensures counts { CountedBy result self.old self.new }
    {
        self.counts.count(Err(ShelfFault::Device))
    }

    fn fork(&mut self, alloc: Global) -> Result<Mirror<V, S>, ShelfFault> {
        let view = Arc::try_clone(&self.view)?;
        let forked = self.shelf.fork(alloc);
        Ok(Mirror {
            shelf: self.counts.count(forked)?,
            view,
            held: Vec::new(alloc),
            next: 0,
            counts: Counts {
                faults: 0,
                misses: 0,
            },
        })
    }

    fn same(&self, a: &MirrorReceipt<S::Receipt>, b: &MirrorReceipt<S::Receipt>) -> bool {
        match (a, b) {
            (MirrorReceipt::Direct(a), MirrorReceipt::Direct(b)) => self.shelf.same(a, b),
            (MirrorReceipt::Plain(a), MirrorReceipt::Plain(b)) => {
                self.shelf.same(&a.receipt, &b.receipt)
            }
            (MirrorReceipt::Made(_), MirrorReceipt::Made(_)) => true,
            _ => false,
        }
    }

    fn copy_receipt(&self, receipt: &MirrorReceipt<S::Receipt>) -> MirrorReceipt<S::Receipt> {
        match receipt {
            MirrorReceipt::Direct(receipt) => {
                MirrorReceipt::Direct(self.shelf.copy_receipt(receipt))
            }
            MirrorReceipt::Plain(plain) => MirrorReceipt::Plain(PlainReceipt {
                receipt: self.shelf.copy_receipt(&plain.receipt),
                size: plain.size,
            }),
            MirrorReceipt::Made(made) => MirrorReceipt::Made(made.again()),
        }
    }

    fn failures(&self) -> (u64, u64) {
        (self.counts.faults, self.counts.misses)
    }
}
