//! Where tables and the manifest lie.

ghost use Rattle.std.specs.Prelude.{◌≡◌, ◌+◌, ◌≤◌, length, take, drop, IfOk, IfErr, OnOk, OnErr};
ghost use Rattle.std.specs.Prelude.{IsTrue};
ghost use Rattle.std.specs.List.Sorted.{IsStrictlyIncreasing};

use crate::shelf_fault::ShelfFault;
use crate::table_receipt::TableReceipt;
use std::alloc::Global;
use std::sync::Wait;

/// A place for tables and one manifest, as LevelDB's `doc/impl.md` describes a database's folder.
///
/// One value has one user; `fork` makes another value on the same contents. Contracts see a value
/// as what its calls told it (`Told`): each call says what it leaves of that (`told`, or `ok` and
/// `err`), which refusals it has, each other than `OutOfMemory` with a count that rose (`cause`),
/// and that it counted its answer exactly (`counts`).
pub trait Shelf: Drop + Send + Sync {
    ghost use Rattle.lsm_shelf.specs.declared.shelf_fault.ShelfFault.{ShelfFault};
    ghost use Rattle.lsm_shelf.specs.Asked.{Asked, Put, ReadAt, Load, Remove, ListTables};
    ghost use Rattle.lsm_shelf.specs.Asked.{ReadManifest, StartManifest, AppendManifest};
    ghost use Rattle.lsm_shelf.specs.Told.{Place, Told, Becomes, Counted, CountedBy, NotTaken};
    ghost use Rattle.lsm_shelf.specs.Told.{NotNamed, TakenIs, putting, removed_by, listing};
    ghost use Rattle.lsm_shelf.specs.Told.{sending, appending, finding, forking, next_fork};

    /// What stands for an image that was put or loaded.
    type Receipt: TableReceipt;

    /// The premise under which reads give the bytes of the image put. One for the type, so the same
    /// for all its values.
    ghost honest: { Type 0 };

    /// What the value's calls told it.
    ghost told: { Self → Told };

    /// The receipt is of these contents.
    ghost is_of: { Place → Self.Receipt → Type 0 };

    /// This call was refused with this fault. What is proved for every shelf learns of it by that
    /// call alone, so a contract that says it tells which call was refused, and with what it was
    /// asked.
    ghost refuses: { Place → Asked → ShelfFault → Type 0 };

    /// Puts an image under a number, on the device before it answers Ok.
    ///
    /// `Taken` where a table of this number is there. `Device` where the image has more than 1 GiB
    /// or the device fails; the number may then be listed or not.
    fn put<R: Wait>(
        &mut self,
        rt: &R,
        alloc: Global,
        number: u64,
        image: &[u8],
    ) -> Result<Self::Receipt, ShelfFault>
        ensures receipt { IfOk result (λ r. (Self.Receipt.number r ≡ number)
            × (Self.Receipt.image r ≡ image.now) × is_of (told self.old).place r) }
        ensures ok { OnOk result
            (Becomes (putting number image.now (told self.old)) (told self.new)) }
        ensures err { OnErr result (Becomes (told self.old) (told self.new)) }
        ensures refused { IfErr result (refuses (told self.old).place (Put number image.now)) }
        ensures cause { IfErr result (λ e. TakenIs number e
            × Counted e (told self.old) (told self.new)) }
        ensures counts { CountedBy result (told self.old) (told self.new) };

    /// Reads `len` bytes at `offset` of the image for which the receipt stands.
    fn read_at(
        &mut self,
        alloc: Global,
        receipt: &Self::Receipt,
        offset: u64,
        len: usize,
    ) -> Result<Vec<u8>, ShelfFault>
        requires here { is_of (told self.old).place receipt.now }
        requires inside { offset + len ≤ length (Self.Receipt.image receipt.now) }
        ensures bytes { honest
            → IfOk result (λ v. v.items ≡ take len (drop offset (Self.Receipt.image receipt.now))) }
        ensures told { Becomes (told self.old) (told self.new) }
        ensures refused { IfErr result
            (refuses (told self.old).place (ReadAt (Self.Receipt.number receipt.now) offset len)) }
        ensures cause { IfErr result (λ e. NotTaken e × Counted e (told self.old) (told self.new)) }
        ensures counts { CountedBy result (told self.old) (told self.new) };

    /// Reads a whole image by its number; the receipt stands for the bytes that were read.
    /// `Missing` where no table has this number, `Device` where it has more than 1 GiB or the
    /// device fails.
    fn load<R: Wait>(
        &mut self,
        rt: &R,
        alloc: Global,
        number: u64,
    ) -> Result<(Self::Receipt, Vec<u8>), ShelfFault>
        ensures receipt { IfOk result (λ r. (Self.Receipt.number r.0 ≡ number)
            × (Self.Receipt.image r.0 ≡ r.1.items) × is_of (told self.old).place r.0) }
        ensures told { Becomes (told self.old) (told self.new) }
        ensures refused { IfErr result (refuses (told self.old).place (Load number)) }
        ensures cause { IfErr result (λ e. NotTaken e × Counted e (told self.old) (told self.new)) }
        ensures counts { CountedBy result (told self.old) (told self.new) };

    /// Removes the table of a number. `Missing` where there is none; after `Device` it may be gone
    /// or not. Where memory was refused, nothing was asked of the device, and `gone` has not grown.
    ///
    /// The removal of a table in a folder is not durable before the folder's names are, which the
    /// next call that puts a table or starts a manifest makes them: a crash before that may leave
    /// the table there. So a caller removes what it does not need, and removes it again where it is
    /// listed once more.
    fn remove<R: Wait>(&mut self, rt: &R, number: u64) -> Result<(), ShelfFault>
        ensures told { Becomes (removed_by result number (told self.old)) (told self.new) }
        ensures refused { IfErr result (refuses (told self.old).place (Remove number)) }
        ensures cause { IfErr result (λ e. NotTaken e × Counted e (told self.old) (told self.new)) }
        ensures counts { CountedBy result (told self.old) (told self.new) };

    /// The numbers of the tables that are there, ascending. `Device` where the device fails.
    fn list<R: Wait>(&mut self, rt: &R, alloc: Global) -> Result<Vec<u64>, ShelfFault>
        ensures ascending { IfOk result (λ v. IsStrictlyIncreasing v.items) }
        ensures ok { IfOk result (λ v. Becomes (listing v.items (told self.old)) (told self.new)) }
        ensures err { OnErr result (Becomes (told self.old) (told self.new)) }
        ensures refused { IfErr result (refuses (told self.old).place ListTables) }
        ensures cause { IfErr result (λ e. NotNamed e × Counted e (told self.old) (told self.new)) }
        ensures counts { CountedBy result (told self.old) (told self.new) };

    /// Number and bytes of the manifest. `Missing` where there is none, `Device` where the device
    /// fails.
    fn read_manifest<R: Wait>(
        &mut self,
        rt: &R,
        alloc: Global,
    ) -> Result<(u64, Vec<u8>), ShelfFault>
        ensures ok { IfOk result (λ r.
            Becomes (finding r.0 r.1.items (told self.old)) (told self.new)) }
        ensures err { OnErr result (Becomes (told self.old) (told self.new)) }
        ensures refused { IfErr result (refuses (told self.old).place ReadManifest) }
        ensures cause { IfErr result (λ e. NotTaken e × Counted e (told self.old) (told self.new)) }
        ensures counts { CountedBy result (told self.old) (told self.new) };

    /// Writes a new manifest and makes it the directory's. `Taken` where the directory's manifest
    /// has this number; a file of that name which is not the directory's manifest is replaced. Once
    /// the new one is the directory's, the old one is removed, if it can be. `Device` where the
    /// device fails, or where a shelf on a folder is handed more than 1 GiB; a shelf in memory has
    /// no such limit. After `Device` the directory names the old manifest or the new one whole, and
    /// after any other refusal the old one.
    fn start_manifest<R: Wait>(
        &mut self,
        rt: &R,
        alloc: Global,
        number: u64,
        bytes: &[u8],
    ) -> Result<(), ShelfFault>
        ensures ok { OnOk result
            (Becomes (sending number bytes.now (told self.old)) (told self.new)) }
        ensures err { OnErr result (Becomes (told self.old) (told self.new)) }
        ensures refused { IfErr result
            (refuses (told self.old).place (StartManifest number bytes.now)) }
        ensures cause { IfErr result (λ e. TakenIs number e
            × Counted e (told self.old) (told self.new)) }
        ensures counts { CountedBy result (told self.old) (told self.new) };

    /// Appends to the manifest that the directory names, on the device before it answers Ok.
    /// `Missing` where there is none. `Device` where the device fails, or where the manifest of a
    /// shelf on a folder would pass 1 GiB; a shelf in memory has no such limit. After `Device` the
    /// manifest is the old bytes and a prefix of the new ones, and after any other refusal the old
    /// bytes alone.
    fn append_manifest<R: Wait>(&mut self, rt: &R, bytes: &[u8]) -> Result<(), ShelfFault>
        ensures ok { OnOk result (Becomes (appending bytes.now (told self.old)) (told self.new)) }
        ensures err { OnErr result (Becomes (told self.old) (told self.new)) }
        ensures refused { IfErr result (refuses (told self.old).place (AppendManifest bytes.now)) }
        ensures cause { IfErr result (λ e. NotTaken e × Counted e (told self.old) (told self.new)) }
        ensures counts { CountedBy result (told self.old) (told self.new) };

    /// Another value on the same contents, to which nothing was told yet but its number; this one
    /// has given one fork more. `Device` where the device fails.
    fn fork(&mut self, alloc: Global) -> Result<Self, ShelfFault>
        ensures fork { IfOk result (λ s. told s ≡ next_fork (told self.old)) }
        ensures ok { OnOk result (Becomes (forking 1 (told self.old)) (told self.new)) }
        ensures err { OnErr result (Becomes (told self.old) (told self.new)) }
        ensures cause { IfErr result (λ e. NotNamed e × Counted e (told self.old) (told self.new)) }
        ensures counts { CountedBy result (told self.old) (told self.new) };

    /// Whether two receipts are copies of one receipt. `false` tells nothing: other receipts may
    /// stand for the same image.
    fn same(&self, a: &Self::Receipt, b: &Self::Receipt) -> bool
        requires here { is_of (told self.now).place a.now × is_of (told self.now).place b.now }
        ensures copy { a.now ≡ b.now → IsTrue result }
        ensures one { honest → IsTrue result
            → (Self.Receipt.number a.now ≡ Self.Receipt.number b.now)
            × (Self.Receipt.image a.now ≡ Self.Receipt.image b.now) };

    /// The same receipt once more. It takes no memory.
    fn copy_receipt(&self, receipt: &Self::Receipt) -> Self::Receipt
        ensures { result ≡ receipt.now };

    /// How often this value answered `Device`, and how often `Missing` or `Taken`. A count at
    /// 2^64-1 stays there.
    fn failures(&self) -> (u64, u64)
        ensures { result ≡ ((told self.now).faults, (told self.now).misses) };
}
