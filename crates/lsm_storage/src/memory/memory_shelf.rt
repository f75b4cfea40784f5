//! Tables and a manifest in memory.

ghost use Rattle.std.specs.Prelude.{◌≡◌, ◌↔◌, ◌+◌, ◌<◌, ◌≤◌, ◌^◌, length, take, drop, IfOk, IfErr};
ghost use Rattle.std.specs.Prelude.{IsErrOf, OnOk, OnErr, IsTrue};
ghost use Rattle.std.specs.List.Sorted.{IsStrictlyIncreasing};
ghost use Rattle.boxcar.specs.Table.{Shows};
ghost use Rattle.lsm_shelf.specs.Told.{Becomes, Counted, CountedBy, NotDevice, NotNamed, NotTaken};
ghost use Rattle.lsm_shelf.specs.Told.{TakenIs, forking, fresh, next_fork, putting, removing};
ghost use Rattle.lsm_shelf.specs.Told.{listing, sending, appending, finding};

use crate::account::{
    Account, tag_of_both, tag_of_bytes, tag_of_more, tag_of_number, tag_of_numbers,
};
use crate::changes::{tag_of_append, tag_of_put, tag_of_removal, tag_of_start};
use crate::memory::contents::Contents;
use crate::memory::image::Image;
use crate::memory::memory_receipt::MemoryReceipt;
use lsm_finding::Finding;
use lsm_shelf::{Shelf, ShelfFault};
use std::alloc::{AllocError, Global};
use std::sync::{Arc, Wait};

/// Tables and a manifest in memory. Forks share them.
#[derive(Drop)]
pub struct MemoryShelf {
    pub(crate) contents: Arc<Contents>,
    pub(crate) account: Account,
}

/// A part of an image. The directory is not asked, so an image that was removed is there all the
/// same.
fn part(
    images: &boxcar::Vec<Image>,
    alloc: Global,
    receipt: &MemoryReceipt,
    offset: usize,
    len: usize,
) -> Result<Vec<u8>, AllocError>
    requires here { Shows images.now receipt.now.token }
    requires inside { offset + len ≤ length receipt.now.token.value.bytes.items }
    ensures { IfOk result (λ v.
        v.items ≡ take len (drop offset receipt.now.token.value.bytes.items)) }
{
    let image = images.value(&receipt.token);
    Vec::from_slice(alloc, &image.bytes[offset..offset + len])
}

impl MemoryShelf {
    ghost use Rattle.lsm_storage.specs.MemoryShelf.{memory_told};

    /// A shelf without tables and without a manifest.
    pub fn new(alloc: Global) -> Result<MemoryShelf, AllocError>
        ensures { IfOk result (λ s. memory_told s ≡ fresh (memory_told s).place) }
    {
        Ok(MemoryShelf {
            contents: Arc::new(alloc, Contents::new(alloc)?)?,
            account: Account::new(),
        })
    }
}

impl Shelf for MemoryShelf {
    ghost use Rattle.lsm_shelf.specs.Refusals.{MemoryRefuses};
    ghost use Rattle.lsm_storage.specs.MemoryShelf.{IsOfMemory, memory_image, memory_number};
    ghost use Rattle.lsm_storage.specs.MemoryShelf.{memory_told};

    type Receipt = MemoryReceipt;

    ghost honest = { Unit {0} };

    ghost told = { memory_told };

    ghost is_of = { IsOfMemory };

    ghost refuses = { λ p asked fault. MemoryRefuses asked fault };

    fn put<R: Wait>(
        &mut self,
        rt: &R,
        alloc: Global,
        number: u64,
        image: &[u8],
    ) -> Result<MemoryReceipt, ShelfFault>
        ensures receipt { IfOk result (λ r. (memory_number r ≡ number)
            × (memory_image r ≡ image.now) × IsOfMemory (memory_told self.old).place r) }
        ensures ok { OnOk result
            (Becomes (putting number image.now (memory_told self.old)) (memory_told self.new)) }
        ensures err { OnErr result (Becomes (memory_told self.old) (memory_told self.new)) }
        ensures refused { IfErr result (TakenIs number) }
        ensures cause { IfErr result (λ e. TakenIs number e
            × Counted e (memory_told self.old) (memory_told self.new)) }
        ensures counts { CountedBy result (memory_told self.old) (memory_told self.new) }
        ensures device { IsErrOf result ShelfFault.Device ↔ (2 ^ 30 < length image.now) }
    {
        let Contents { images, directory } = &*self.contents;
        let outcome = directory.lock(rt).put(rt, alloc, images, number, image);
        let receipt = self.account.count(outcome)?;
        self.account.puts = tag_of_both(&tag_of_number(receipt.number), &self.account.puts);
        self.account.made = tag_of_put(receipt.number, image, &self.account.made);
        Ok(receipt)
    }

    fn read_at(
        &mut self,
        alloc: Global,
        receipt: &MemoryReceipt,
        offset: u64,
        len: usize,
    ) -> Result<Vec<u8>, ShelfFault>
        requires here { IsOfMemory (memory_told self.old).place receipt.now }
        requires inside { offset + len ≤ length (memory_image receipt.now) }
        ensures bytes { IfOk result (λ v.
            v.items ≡ take len (drop offset (memory_image receipt.now))) }
        ensures told { Becomes (memory_told self.old) (memory_told self.new) }
        ensures refused { IfErr result NotTaken }
        ensures cause { IfErr result (λ e. NotTaken e
            × Counted e (memory_told self.old) (memory_told self.new)) }
        ensures counts { CountedBy result (memory_told self.old) (memory_told self.new) }
        ensures memory { IfErr result (λ e. e ≡ ShelfFault.OutOfMemory) }
    {
        Ok(part(&self.contents.images, alloc, receipt, offset as usize, len)?)
    }

    fn load<R: Wait>(
        &mut self,
        rt: &R,
        alloc: Global,
        number: u64,
    ) -> Result<(MemoryReceipt, Vec<u8>), ShelfFault>
        ensures receipt { IfOk result (λ r. (memory_number r.0 ≡ number)
            × (memory_image r.0 ≡ r.1.items) × IsOfMemory (memory_told self.old).place r.0) }
        ensures told { Becomes (memory_told self.old) (memory_told self.new) }
        ensures cause { IfErr result (λ e. NotTaken e
            × Counted e (memory_told self.old) (memory_told self.new)) }
        ensures counts { CountedBy result (memory_told self.old) (memory_told self.new) }
        ensures device { IfErr result NotDevice }
    {
        let Contents { images, directory } = &*self.contents;
        let outcome = directory.lock(rt).load(alloc, images, number);
        self.account.count(outcome)
    }

    fn remove<R: Wait>(&mut self, rt: &R, number: u64) -> Result<(), ShelfFault>
        ensures told { Becomes (removing number (memory_told self.old)) (memory_told self.new) }
        ensures refused { IfErr result NotTaken }
        ensures cause { IfErr result (λ e. NotTaken e
            × Counted e (memory_told self.old) (memory_told self.new)) }
        ensures counts { CountedBy result (memory_told self.old) (memory_told self.new) }
        ensures missing { IfErr result (λ e. e ≡ ShelfFault.Missing) }
    {
        let (asked, outcome) = self.contents.directory.lock(rt).remove(number);
        self.account.gone = tag_of_both(&asked, &self.account.gone);
        self.account.made = tag_of_removal(number, &self.account.made);
        self.account.count(outcome)
    }

    fn list<R: Wait>(&mut self, rt: &R, alloc: Global) -> Result<Vec<u64>, ShelfFault>
        ensures ascending { IfOk result (λ v. IsStrictlyIncreasing v.items) }
        ensures ok { IfOk result (λ v.
            Becomes (listing v.items (memory_told self.old)) (memory_told self.new)) }
        ensures err { OnErr result (Becomes (memory_told self.old) (memory_told self.new)) }
        ensures refused { IfErr result NotNamed }
        ensures cause { IfErr result (λ e. NotNamed e
            × Counted e (memory_told self.old) (memory_told self.new)) }
        ensures counts { CountedBy result (memory_told self.old) (memory_told self.new) }
        ensures memory { IfErr result (λ e. e ≡ ShelfFault.OutOfMemory) }
    {
        let numbers = self.contents.directory.lock(rt).list(alloc)?;
        self.account.listed = tag_of_both(&tag_of_number(0), &tag_of_numbers(numbers.as_slice()));
        Ok(numbers)
    }

    fn read_manifest<R: Wait>(
        &mut self,
        rt: &R,
        alloc: Global,
    ) -> Result<(u64, Vec<u8>), ShelfFault>
        ensures ok { IfOk result (λ r.
            Becomes (finding r.0 r.1.items (memory_told self.old)) (memory_told self.new)) }
        ensures err { OnErr result (Becomes (memory_told self.old) (memory_told self.new)) }
        ensures refused { IfErr result NotTaken }
        ensures cause { IfErr result (λ e. NotTaken e
            × Counted e (memory_told self.old) (memory_told self.new)) }
        ensures counts { CountedBy result (memory_told self.old) (memory_told self.new) }
        ensures device { IfErr result NotDevice }
    {
        let outcome = self.contents.directory.lock(rt).read(alloc);
        let (number, bytes) = self.account.count(outcome)?;
        self.account.manifest = tag_of_number(number);
        self.account.sent = tag_of_bytes(bytes.as_slice());
        self.account.found = tag_of_both(&self.account.manifest, &self.account.sent);
        Ok((number, bytes))
    }

    fn start_manifest<R: Wait>(
        &mut self,
        rt: &R,
        alloc: Global,
        number: u64,
        bytes: &[u8],
    ) -> Result<(), ShelfFault>
        ensures ok { OnOk result
            (Becomes (sending number bytes.now (memory_told self.old)) (memory_told self.new)) }
        ensures err { OnErr result (Becomes (memory_told self.old) (memory_told self.new)) }
        ensures refused { IfErr result (TakenIs number) }
        ensures cause { IfErr result (λ e. TakenIs number e
            × Counted e (memory_told self.old) (memory_told self.new)) }
        ensures counts { CountedBy result (memory_told self.old) (memory_told self.new) }
        ensures device { IfErr result NotDevice }
    {
        let outcome = self.contents.directory.lock(rt).start(alloc, number, bytes);
        self.account.sent = self.account.count(outcome)?;
        self.account.manifest = tag_of_number(number);
        self.account.starts = tag_of_both(&self.account.manifest, &self.account.starts);
        self.account.written = tag_of_both(&self.account.written, &self.account.sent);
        self.account.made = tag_of_start(number, bytes, &self.account.made);
        Ok(())
    }

    fn append_manifest<R: Wait>(&mut self, rt: &R, bytes: &[u8]) -> Result<(), ShelfFault>
        ensures ok { OnOk result
            (Becomes (appending bytes.now (memory_told self.old)) (memory_told self.new)) }
        ensures err { OnErr result (Becomes (memory_told self.old) (memory_told self.new)) }
        ensures refused { IfErr result NotTaken }
        ensures cause { IfErr result (λ e. NotTaken e
            × Counted e (memory_told self.old) (memory_told self.new)) }
        ensures counts { CountedBy result (memory_told self.old) (memory_told self.new) }
        ensures device { IfErr result NotDevice }
    {
        let outcome = self.contents.directory.lock(rt).append(bytes);
        let appended = self.account.count(outcome)?;
        self.account.sent = tag_of_both(&self.account.sent, &appended);
        self.account.written = tag_of_both(&self.account.written, &appended);
        self.account.made = tag_of_append(bytes, &self.account.made);
        Ok(())
    }

    fn fork(&mut self, _alloc: Global) -> Result<MemoryShelf, ShelfFault>
        ensures fork { IfOk result (λ s. memory_told s ≡ next_fork (memory_told self.old)) }
        ensures ok { OnOk result
            (Becomes (forking 1 (memory_told self.old)) (memory_told self.new)) }
        ensures err { OnErr result (Becomes (memory_told self.old) (memory_told self.new)) }
        ensures cause { IfErr result (λ e. NotNamed e
            × Counted e (memory_told self.old) (memory_told self.new)) }
        ensures counts { CountedBy result (memory_told self.old) (memory_told self.new) }
        ensures memory { IfErr result (λ e. e ≡ ShelfFault.OutOfMemory) }
    {
        let contents = Arc::try_clone(&self.contents)?;
        self.account.forks = tag_of_more(&self.account.forks);
        Ok(MemoryShelf {
            contents,
            account: Account::of_fork(&self.account.forks),
        })
    }

    fn same(&self, a: &MemoryReceipt, b: &MemoryReceipt) -> bool
        requires here { IsOfMemory (memory_told self.now).place a.now
            × IsOfMemory (memory_told self.now).place b.now }
        ensures copy { a.now ≡ b.now → IsTrue result }
        ensures one { IsTrue result → (memory_number a.now ≡ memory_number b.now)
            × (memory_image a.now ≡ memory_image b.now) }
    {
        if a.token.index() == b.token.index() {
            self.contents.images.agrees(&a.token, &b.token);
            true
        } else {
            false
        }
    }

    fn copy_receipt(&self, receipt: &MemoryReceipt) -> MemoryReceipt {
        MemoryReceipt {
            number: receipt.number,
            size: receipt.size,
            token: receipt.token.again(),
        }
    }

    fn failures(&self) -> (u64, u64) {
        (self.account.faults, self.account.misses)
    }
}

impl Finding for MemoryShelf {
    ghost use Rattle.lsm_storage.specs.MemoryShelf.{IsOfMemory, memory_number, memory_told};

    ghost keeps = { λ _ _ _. Unit {0} };

    fn find<R: Wait>(
        &mut self,
        rt: &R,
        _alloc: Global,
        number: u64,
    ) -> Result<MemoryReceipt, ShelfFault>
        ensures receipt { IfOk result (λ r. (memory_number r ≡ number)
            × IsOfMemory (memory_told self.old).place r) }
        ensures told { Becomes (memory_told self.old) (memory_told self.new) }
        ensures cause { IfErr result (λ e. NotTaken e
            × Counted e (memory_told self.old) (memory_told self.new)) }
        ensures counts { CountedBy result (memory_told self.old) (memory_told self.new) }
        ensures missing { IfErr result (λ e. e ≡ ShelfFault.Missing) }
    {
        let Contents { images, directory } = &*self.contents;
        let outcome = directory.lock(rt).receipt(images, number);
        self.account.count(outcome)
    }
}

fn crosses_threads<T: Send>(_: &T) {}

/// A shelf may go to another thread.
fn is_sent(shelf: &MemoryShelf) {
    crosses_threads(shelf);
}
