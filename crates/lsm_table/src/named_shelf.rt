//! The shelf of a name.

ghost use Rattle.std.specs.Prelude.{◌≡◌, ◌+◌, ◌≤◌, length, take, drop, IfOk, IfErr, OnOk, OnErr};
ghost use Rattle.std.specs.Prelude.{IsTrue};
ghost use Rattle.std.specs.List.Sorted.{IsStrictlyIncreasing};
ghost use Rattle.lsm_shelf.specs.Asked.{Put, ReadAt, Load, Remove, ListTables};
ghost use Rattle.lsm_shelf.specs.Asked.{ReadManifest, StartManifest, AppendManifest};
ghost use Rattle.lsm_shelf.specs.Told.{Becomes, Counted, CountedBy, NotTaken, NotNamed, TakenIs};
ghost use Rattle.lsm_shelf.specs.Told.{putting, removed_by, listing, sending, appending, finding};
ghost use Rattle.lsm_shelf.specs.Told.{fork_at, forking};

use crate::naming::Naming;
use lsm_shelf::{Shelf, ShelfFault};
use std::alloc::Global;
use std::marker::{Model, PhantomData};
use std::sync::Wait;

/// A shelf of the contents for which the name `N` stands: what it hands out belongs in the
/// registry of that name. Its calls are those of the shelf (`Shelf`), and contracts see it as what
/// they told.
#[derive(Drop)]
pub struct NamedShelf<N: Naming, S: Shelf> {
    /// The shelf itself. The prover passes no bound that is `Send` on from an `impl` of a trait, so
    /// there a call is made by this field.
    pub shelf: S,
    of: PhantomData<N>,
}

impl<N: Naming, S: Shelf> Model for NamedShelf<N, S> {
    ghost use Rattle.std.specs.Prelude.{◌≡◌};
    ghost use Rattle.lsm_shelf.specs.Told.{Told};

    ghost Value = { Told };

    ghost view = { λ s. S.told s.shelf };

    ghost invariant = { λ s. (S.told s.shelf).place ≡ N.place };
}

impl<N: Naming, S: Shelf> NamedShelf<N, S> {
    /// The shelf of the name that was picked for its contents.
    pub fn of(shelf: S) -> NamedShelf<N, S>
        requires named { (S.told shelf).place ≡ N.place }
        ensures { result ≡ S.told shelf }
    {
        NamedShelf {
            shelf,
            of: PhantomData,
        }
    }

    /// The shelf itself.
    pub fn into_shelf(self) -> S
        ensures told { S.told result ≡ self }
        ensures named { (S.told result).place ≡ N.place }
    {
        self.shelf
    }

    /// As `Shelf::put`.
    pub fn put<R: Wait>(
        &mut self,
        rt: &R,
        alloc: Global,
        number: u64,
        image: &[u8],
    ) -> Result<S::Receipt, ShelfFault>
        ensures receipt { IfOk result (λ r. (S.Receipt.number r ≡ number)
            × (S.Receipt.image r ≡ image.now) × S.is_of N.place r) }
        ensures ok { OnOk result (Becomes (putting number image.now self.old) self.new) }
        ensures err { OnErr result (Becomes self.old self.new) }
        ensures refused { IfErr result (S.refuses N.place (Put number image.now)) }
        ensures cause { IfErr result (λ e. TakenIs number e × Counted e self.old self.new) }
        ensures counts { CountedBy result self.old self.new }
    {
        self.shelf.put(rt, alloc, number, image)
    }

    /// As `Shelf::read_at`.
    pub fn read_at(
        &mut self,
        alloc: Global,
        receipt: &S::Receipt,
        offset: u64,
        len: usize,
    ) -> Result<Vec<u8>, ShelfFault>
        requires here { S.is_of N.place receipt.now }
        requires inside { offset + len ≤ length (S.Receipt.image receipt.now) }
        ensures bytes { S.honest
            → IfOk result (λ v. v.items ≡ take len (drop offset (S.Receipt.image receipt.now))) }
        ensures told { Becomes self.old self.new }
        ensures refused { IfErr result
            (S.refuses N.place (ReadAt (S.Receipt.number receipt.now) offset len)) }
        ensures cause { IfErr result (λ e. NotTaken e × Counted e self.old self.new) }
        ensures counts { CountedBy result self.old self.new }
    {
        self.shelf.read_at(alloc, receipt, offset, len)
    }

    /// As `Shelf::load`.
    pub fn load<R: Wait>(
        &mut self,
        rt: &R,
        alloc: Global,
        number: u64,
    ) -> Result<(S::Receipt, Vec<u8>), ShelfFault>
        ensures receipt { IfOk result (λ r. (S.Receipt.number r.0 ≡ number)
            × (S.Receipt.image r.0 ≡ r.1.items) × S.is_of N.place r.0) }
        ensures told { Becomes self.old self.new }
        ensures refused { IfErr result (S.refuses N.place (Load number)) }
        ensures cause { IfErr result (λ e. NotTaken e × Counted e self.old self.new) }
        ensures counts { CountedBy result self.old self.new }
    {
        self.shelf.load(rt, alloc, number)
    }

    /// As `Shelf::remove`.
    pub fn remove<R: Wait>(&mut self, rt: &R, number: u64) -> Result<(), ShelfFault>
        ensures told { Becomes (removed_by result number self.old) self.new }
        ensures refused { IfErr result (S.refuses N.place (Remove number)) }
        ensures cause { IfErr result (λ e. NotTaken e × Counted e self.old self.new) }
        ensures counts { CountedBy result self.old self.new }
    {
        self.shelf.remove(rt, number)
    }

    /// As `Shelf::list`.
    pub fn list<R: Wait>(&mut self, rt: &R, alloc: Global) -> Result<Vec<u64>, ShelfFault>
        ensures ascending { IfOk result (λ v. IsStrictlyIncreasing v.items) }
        ensures ok { IfOk result (λ v. Becomes (listing v.items self.old) self.new) }
        ensures err { OnErr result (Becomes self.old self.new) }
        ensures refused { IfErr result (S.refuses N.place ListTables) }
        ensures cause { IfErr result (λ e. NotNamed e × Counted e self.old self.new) }
        ensures counts { CountedBy result self.old self.new }
    {
        self.shelf.list(rt, alloc)
    }

    /// As `Shelf::read_manifest`.
    pub fn read_manifest<R: Wait>(
        &mut self,
        rt: &R,
        alloc: Global,
    ) -> Result<(u64, Vec<u8>), ShelfFault>
        ensures ok { IfOk result (λ r. Becomes (finding r.0 r.1.items self.old) self.new) }
        ensures err { OnErr result (Becomes self.old self.new) }
        ensures refused { IfErr result (S.refuses N.place ReadManifest) }
        ensures cause { IfErr result (λ e. NotTaken e × Counted e self.old self.new) }
        ensures counts { CountedBy result self.old self.new }
    {
        self.shelf.read_manifest(rt, alloc)
    }

    /// As `Shelf::start_manifest`.
    pub fn start_manifest<R: Wait>(
        &mut self,
        rt: &R,
        alloc: Global,
        number: u64,
        bytes: &[u8],
    ) -> Result<(), ShelfFault>
        ensures ok { OnOk result (Becomes (sending number bytes.now self.old) self.new) }
        ensures err { OnErr result (Becomes self.old self.new) }
        ensures refused { IfErr result (S.refuses N.place (StartManifest number bytes.now)) }
        ensures cause { IfErr result (λ e. TakenIs number e × Counted e self.old self.new) }
        ensures counts { CountedBy result self.old self.new }
    {
        self.shelf.start_manifest(rt, alloc, number, bytes)
    }

    /// As `Shelf::append_manifest`.
    pub fn append_manifest<R: Wait>(&mut self, rt: &R, bytes: &[u8]) -> Result<(), ShelfFault>
        ensures ok { OnOk result (Becomes (appending bytes.now self.old) self.new) }
        ensures err { OnErr result (Becomes self.old self.new) }
        ensures refused { IfErr result (S.refuses N.place (AppendManifest bytes.now)) }
        ensures cause { IfErr result (λ e. NotTaken e × Counted e self.old self.new) }
        ensures counts { CountedBy result self.old self.new }
    {
        self.shelf.append_manifest(rt, bytes)
    }

    /// As `Shelf::fork`: another value on the same contents, and so of the same name.
    pub fn fork(&mut self, alloc: Global) -> Result<NamedShelf<N, S>, ShelfFault>
        ensures fork { IfOk result (λ s. s ≡ fork_at N.place (self.old.forks + 1)) }
        ensures ok { OnOk result (Becomes (forking 1 self.old) self.new) }
        ensures err { OnErr result (Becomes self.old self.new) }
        ensures cause { IfErr result (λ e. NotNamed e × Counted e self.old self.new) }
        ensures counts { CountedBy result self.old self.new }
    {
        let shelf = self.shelf.fork(alloc)?;
        Ok(NamedShelf {
            shelf,
            of: PhantomData,
        })
    }

    /// As `Shelf::same`.
    pub fn same(&self, a: &S::Receipt, b: &S::Receipt) -> bool
        requires here { S.is_of N.place a.now × S.is_of N.place b.now }
        ensures copy { a.now ≡ b.now → IsTrue result }
        ensures one { S.honest → IsTrue result
            → (S.Receipt.number a.now ≡ S.Receipt.number b.now)
            × (S.Receipt.image a.now ≡ S.Receipt.image b.now) }
    {
        self.shelf.same(a, b)
    }

    /// As `Shelf::copy_receipt`.
    pub fn copy_receipt(&self, receipt: &S::Receipt) -> S::Receipt
        ensures { result ≡ receipt.now }
    {
        self.shelf.copy_receipt(receipt)
    }

    /// As `Shelf::failures`.
    pub fn failures(&self) -> (u64, u64)
        ensures { result ≡ (self.now.faults, self.now.misses) }
    {
        self.shelf.failures()
    }
}
