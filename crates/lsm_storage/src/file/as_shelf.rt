//! A `FileShelf` as a `Shelf`.

ghost use Rattle.std.specs.Prelude.{◌≡◌, ◌<◌, ◌+◌, ◌≤◌, ◌^◌, ◌∷◌, ℕ, List, Ok, length, take, drop};
ghost use Rattle.std.specs.Prelude.{IfOk, IfErr, OnOk, OnErr, IsTrue, IsErrOf};
ghost use Rattle.std.specs.List.Sorted.{IsStrictlyIncreasing};
ghost use Rattle.lsm_folder.specs.Calls.{AreHonest, LastIsTrue, read, loaded, listed};
ghost use Rattle.lsm_shelf.specs.Refusals.{MayRefuse};
ghost use Rattle.lsm_storage.specs.FileNames.{table_name};
ghost use Rattle.lsm_storage.specs.FileShelf.{folder_of, file_told, file_number, mark_of};
ghost use Rattle.lsm_storage.specs.Plans.{done, PutStopped, PartUnread, TableUnread, RemoveStopped};
ghost use Rattle.lsm_storage.specs.Plans.{AreTablesOf, ListStopped, ReadStopped, StartedFrom};
ghost use Rattle.lsm_storage.specs.Plans.{StartStopped, AppendStopped, put_plan, remove_plan};
ghost use Rattle.lsm_storage.specs.Plans.{append_plan, manifest_read, manifest_measured};
ghost use Rattle.lsm_shelf.specs.Told.{Becomes, Counted, CountedBy, NotTaken, NotNamed, TakenIs};
ghost use Rattle.lsm_shelf.specs.Told.{putting, removed_by, listing, sending, appending, finding};
ghost use Rattle.lsm_shelf.specs.Told.{forking, next_fork};

use crate::account::{
    Account, tag_of_both, tag_of_bytes, tag_of_more, tag_of_number, tag_of_numbers,
};
use crate::changes::{tag_of_append, tag_of_put, tag_of_removal, tag_of_start};
use crate::file::append::append_manifest;
use crate::file::current::read_manifest;
use crate::file::fault::device;
use crate::file::file_receipt::FileReceipt;
use crate::file::file_shelf::FileShelf;
use crate::file::listing::list_tables;
use crate::file::start::start_manifest;
use crate::file::tables::{load_table, put_table, read_table, remove_table};
use lsm_folder::FolderCalls;
use lsm_shelf::{Shelf, ShelfFault};
use std::alloc::Global;
use std::sync::Wait;

impl<C: FolderCalls + Send + Sync> Shelf for FileShelf<C>
where
    C::Mark: Send + Sync,
{
    type Receipt = FileReceipt<C::Mark>;

    ghost honest = { AreHonest C.calls };

    ghost told = { file_told C.place };

    ghost is_of = { λ p r. C.is_of p r.mark };

    ghost refuses = { λ p asked fault. MayRefuse asked fault };

    fn put<W: Wait>(
        &mut self,
        rt: &W,
        alloc: Global,
        number: u64,
        image: &[u8],
    ) -> Result<FileReceipt<C::Mark>, ShelfFault>
        ensures receipt { IfOk result (λ r. (file_number r ≡ number) × (C.Mark.image (mark_of r)
            ≡ image.now) × C.is_of (file_told C.place self.old).place (mark_of r)) }
        ensures calls { OnOk result (C.calls (folder_of self.new)
            ≡ done (put_plan number image.now) (C.calls (folder_of self.old))) }
        ensures stopped { IfErr result (λ e. PutStopped number image.now e
            (C.calls (folder_of self.old)) (C.calls (folder_of self.new))) }
        ensures large { 2 ^ 30 < length image.now → IsErrOf result ShelfFault.Device
            × (C.calls (folder_of self.new) ≡ C.calls (folder_of self.old)) }
        ensures ok { OnOk result (Becomes (putting number image.now (file_told C.place self.old))
            (file_told C.place self.new)) }
        ensures err { OnErr result
            (Becomes (file_told C.place self.old) (file_told C.place self.new)) }
        ensures refused { IfErr result (TakenIs number) }
        ensures cause { IfErr result (λ e. TakenIs number e
            × Counted e (file_told C.place self.old) (file_told C.place self.new)) }
        ensures counts { CountedBy result (file_told C.place self.old)
            (file_told C.place self.new) }
    {
        let outcome = put_table(&mut self.folder, rt, alloc, number, image);
        let receipt = self.account.count(outcome)?;
        self.account.puts = tag_of_both(&tag_of_number(receipt.number), &self.account.puts);
        self.account.made = tag_of_put(receipt.number, image, &self.account.made);
        Ok(receipt)
    }

    fn read_at(
        &mut self,
        alloc: Global,
        receipt: &FileReceipt<C::Mark>,
        offset: u64,
        len: usize,
    ) -> Result<Vec<u8>, ShelfFault>
        requires here { C.is_of (file_told C.place self.old).place (mark_of receipt.now) }
        requires inside { offset + len ≤ length (C.Mark.image (mark_of receipt.now)) }
        ensures bytes { AreHonest C.calls → IfOk result (λ v.
            v.items ≡ take len (drop offset (C.Mark.image (mark_of receipt.now)))) }
        ensures answered { LastIsTrue (C.calls (folder_of self.new)) → IfOk result (λ v.
            v.items ≡ take len (drop offset (C.Mark.image (mark_of receipt.now)))) }
        ensures calls { IfOk result (λ v. C.calls (folder_of self.new)
            ≡ read (table_name (file_number receipt.now)) (C.Mark.image (mark_of receipt.now))
            offset len (Ok v.items) ∷ C.calls (folder_of self.old)) }
        ensures stopped { IfErr result (λ e.
            PartUnread (file_number receipt.now) (C.Mark.image (mark_of receipt.now)) offset len e
            (C.calls (folder_of self.old)) (C.calls (folder_of self.new))) }
        ensures told { Becomes (file_told C.place self.old) (file_told C.place self.new) }
        ensures refused { IfErr result NotTaken }
        ensures cause { IfErr result (λ e. NotTaken e
            × Counted e (file_told C.place self.old) (file_told C.place self.new)) }
        ensures counts { CountedBy result (file_told C.place self.old)
            (file_told C.place self.new) }
    {
        let outcome = read_table(&mut self.folder, alloc, receipt, offset, len);
        self.account.count(outcome)
    }

    fn load<W: Wait>(
        &mut self,
        rt: &W,
        alloc: Global,
        number: u64,
    ) -> Result<(FileReceipt<C::Mark>, Vec<u8>), ShelfFault>
        ensures receipt { IfOk result (λ r. (file_number r.0 ≡ number) × (C.Mark.image (mark_of r.0)
            ≡ r.1.items) × C.is_of (file_told C.place self.old).place (mark_of r.0)) }
        ensures calls { IfOk result (λ r. C.calls (folder_of self.new)
            ≡ loaded (table_name number) (Ok r.1.items) ∷ C.calls (folder_of self.old)) }
        ensures stopped { IfErr result (λ e.
            TableUnread number e (C.calls (folder_of self.old)) (C.calls (folder_of self.new))) }
        ensures told { Becomes (file_told C.place self.old) (file_told C.place self.new) }
        ensures refused { IfErr result NotTaken }
        ensures cause { IfErr result (λ e. NotTaken e
            × Counted e (file_told C.place self.old) (file_told C.place self.new)) }
        ensures counts { CountedBy result (file_told C.place self.old)
            (file_told C.place self.new) }
    {
        let outcome = load_table(&mut self.folder, rt, alloc, number);
        self.account.count(outcome)
    }

    fn remove<W: Wait>(&mut self, rt: &W, number: u64) -> Result<(), ShelfFault>
        ensures calls { OnOk result (C.calls (folder_of self.new)
            ≡ done (remove_plan number) (C.calls (folder_of self.old))) }
        ensures stopped { IfErr result (λ e.
            RemoveStopped number e (C.calls (folder_of self.old)) (C.calls (folder_of self.new))) }
        ensures told { Becomes (removed_by result number (file_told C.place self.old))
            (file_told C.place self.new) }
        ensures refused { IfErr result NotTaken }
        ensures cause { IfErr result (λ e. NotTaken e
            × Counted e (file_told C.place self.old) (file_told C.place self.new)) }
        ensures counts { CountedBy result (file_told C.place self.old)
            (file_told C.place self.new) }
    {
        let outcome = remove_table(&mut self.folder, rt, number);
        if outcome != Err(ShelfFault::OutOfMemory) {
            self.account.gone = tag_of_both(&tag_of_number(number), &self.account.gone);
            self.account.made = tag_of_removal(number, &self.account.made);
        }
        self.account.count(outcome)
    }

    fn list<W: Wait>(&mut self, rt: &W, alloc: Global) -> Result<Vec<u64>, ShelfFault>
        ensures ascending { IfOk result (λ v. IsStrictlyIncreasing v.items) }
        ensures calls { IfOk result (λ v. (names : List (List ℕ)) × (C.calls (folder_of self.new)
            ≡ listed (Ok names) ∷ C.calls (folder_of self.old)) × AreTablesOf names v.items) }
        ensures stopped { IfErr result (λ e.
            ListStopped e (C.calls (folder_of self.old)) (C.calls (folder_of self.new))) }
        ensures ok { IfOk result (λ v.
            Becomes (listing v.items (file_told C.place self.old)) (file_told C.place self.new)) }
        ensures err { OnErr result
            (Becomes (file_told C.place self.old) (file_told C.place self.new)) }
        ensures refused { IfErr result NotNamed }
        ensures cause { IfErr result (λ e. NotNamed e
            × Counted e (file_told C.place self.old) (file_told C.place self.new)) }
        ensures counts { CountedBy result (file_told C.place self.old)
            (file_told C.place self.new) }
    {
        let outcome = list_tables(&mut self.folder, rt, alloc);
        let numbers = self.account.count(outcome)?;
        self.account.listed = tag_of_both(&tag_of_number(0), &tag_of_numbers(numbers.as_slice()));
        Ok(numbers)
    }

    fn read_manifest<W: Wait>(
        &mut self,
        rt: &W,
        alloc: Global,
    ) -> Result<(u64, Vec<u8>), ShelfFault>
        ensures calls { IfOk result (λ r. C.calls (folder_of self.new)
            ≡ manifest_read r.0 r.1.items (C.calls (folder_of self.old))) }
        ensures stopped { IfErr result (λ e.
            ReadStopped e (C.calls (folder_of self.old)) (C.calls (folder_of self.new))) }
        ensures ok { IfOk result (λ r. Becomes (finding r.0 r.1.items (file_told C.place self.old))
            (file_told C.place self.new)) }
        ensures err { OnErr result
            (Becomes (file_told C.place self.old) (file_told C.place self.new)) }
        ensures refused { IfErr result NotTaken }
        ensures cause { IfErr result (λ e. NotTaken e
            × Counted e (file_told C.place self.old) (file_told C.place self.new)) }
        ensures counts { CountedBy result (file_told C.place self.old)
            (file_told C.place self.new) }
    {
        let outcome = read_manifest(&mut self.folder, rt, alloc);
        let (number, bytes) = self.account.count(outcome)?;
        self.account.manifest = tag_of_number(number);
        self.account.sent = tag_of_bytes(bytes.as_slice());
        self.account.found = tag_of_both(&self.account.manifest, &self.account.sent);
        Ok((number, bytes))
    }

    fn start_manifest<W: Wait>(
        &mut self,
        rt: &W,
        alloc: Global,
        number: u64,
        bytes: &[u8],
    ) -> Result<(), ShelfFault>
        ensures calls { OnOk result (StartedFrom number bytes.now (C.calls (folder_of self.old))
            (C.calls (folder_of self.new))) }
        ensures stopped { IfErr result (λ e. StartStopped number bytes.now e
            (C.calls (folder_of self.old)) (C.calls (folder_of self.new))) }
        ensures large { 2 ^ 30 < length bytes.now → IsErrOf result ShelfFault.Device
            × (C.calls (folder_of self.new) ≡ C.calls (folder_of self.old)) }
        ensures ok { OnOk result (Becomes (sending number bytes.now (file_told C.place self.old))
            (file_told C.place self.new)) }
        ensures err { OnErr result
            (Becomes (file_told C.place self.old) (file_told C.place self.new)) }
        ensures refused { IfErr result (TakenIs number) }
        ensures cause { IfErr result (λ e. TakenIs number e
            × Counted e (file_told C.place self.old) (file_told C.place self.new)) }
        ensures counts { CountedBy result (file_told C.place self.old)
            (file_told C.place self.new) }
    {
        let outcome = start_manifest(&mut self.folder, rt, alloc, number, bytes);
        match self.account.count(outcome) {
            Ok(()) => {
                self.account.manifest = tag_of_number(number);
                self.account.sent = tag_of_bytes(bytes);
                self.account.starts = tag_of_both(&self.account.manifest, &self.account.starts);
                self.account.written = tag_of_both(&self.account.written, &self.account.sent);
                self.account.made = tag_of_start(number, bytes, &self.account.made);
                Ok(())
            }
            Err(fault) => Err(fault),
        }
    }

    fn append_manifest<W: Wait>(&mut self, rt: &W, bytes: &[u8]) -> Result<(), ShelfFault>
        ensures calls { OnOk result ((n : ℕ) × (len : ℕ) × (len + length bytes.now ≤ 2 ^ 30)
            × (C.calls (folder_of self.new) ≡ done (append_plan n bytes.now)
            (manifest_measured n len (C.calls (folder_of self.old))))) }
        ensures stopped { IfErr result (λ e. AppendStopped bytes.now e
            (C.calls (folder_of self.old)) (C.calls (folder_of self.new))) }
        ensures ok { OnOk result (Becomes (appending bytes.now (file_told C.place self.old))
            (file_told C.place self.new)) }
        ensures err { OnErr result
            (Becomes (file_told C.place self.old) (file_told C.place self.new)) }
        ensures refused { IfErr result NotTaken }
        ensures cause { IfErr result (λ e. NotTaken e
            × Counted e (file_told C.place self.old) (file_told C.place self.new)) }
        ensures counts { CountedBy result (file_told C.place self.old)
            (file_told C.place self.new) }
    {
        let outcome = append_manifest(&mut self.folder, rt, bytes);
        let (_, _) = self.account.count(outcome)?;
        let appended = tag_of_bytes(bytes);
        self.account.sent = tag_of_both(&self.account.sent, &appended);
        self.account.written = tag_of_both(&self.account.written, &appended);
        self.account.made = tag_of_append(bytes, &self.account.made);
        Ok(())
    }

    fn fork(&mut self, _alloc: Global) -> Result<FileShelf<C>, ShelfFault>
        ensures fork { IfOk result (λ s.
            file_told C.place s ≡ next_fork (file_told C.place self.old)) }
        ensures calls { C.calls (folder_of self.new) ≡ C.calls (folder_of self.old) }
        ensures ok { OnOk result
            (Becomes (forking 1 (file_told C.place self.old)) (file_told C.place self.new)) }
        ensures err { OnErr result
            (Becomes (file_told C.place self.old) (file_told C.place self.new)) }
        ensures cause { IfErr result (λ e. NotNamed e
            × Counted e (file_told C.place self.old) (file_told C.place self.new)) }
        ensures counts { CountedBy result (file_told C.place self.old)
            (file_told C.place self.new) }
        ensures memory { IfErr result (λ e. e ≡ ShelfFault.OutOfMemory) }
    {
        match self.folder.fork() {
            Ok(folder) => {
                self.account.forks = tag_of_more(&self.account.forks);
                Ok(FileShelf {
                    folder,
                    account: Account::of_fork(&self.account.forks),
                })
            }
            Err(fault) => Err(device(fault)),
        }
    }

    fn same(&self, a: &FileReceipt<C::Mark>, b: &FileReceipt<C::Mark>) -> bool
        requires here { C.is_of (file_told C.place self.now).place (mark_of a.now)
            × C.is_of (file_told C.place self.now).place (mark_of b.now) }
        ensures copy { a.now ≡ b.now → IsTrue result }
        ensures one { IsTrue result → (file_number a.now ≡ file_number b.now)
            × (C.Mark.image (mark_of a.now) ≡ C.Mark.image (mark_of b.now)) }
    {
        a.number == b.number && self.folder.same(&a.mark, &b.mark)
    }

    fn copy_receipt(&self, receipt: &FileReceipt<C::Mark>) -> FileReceipt<C::Mark> {
        receipt.again()
    }

    fn failures(&self) -> (u64, u64) {
        (self.account.faults, self.account.misses)
    }
}

fn crosses_threads<T: Send>(_: &T) {}

/// A shelf on a folder may go to another thread where the folder may.
fn is_sent<C: FolderCalls + Send>(shelf: &FileShelf<C>) {
    crosses_threads(shelf);
}
