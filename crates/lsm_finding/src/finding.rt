//! Finding a table without reading it.

ghost use Rattle.std.specs.Prelude.{◌≡◌, ℕ, List, IfOk, IfErr};

use lsm_shelf::{Shelf, ShelfFault};
use std::alloc::Global;
use std::sync::Wait;

/// A shelf that finds tables: one more call, by which a database can be opened in the number of its
/// tables, not of their bytes.
pub trait Finding: Shelf {
    ghost use Rattle.lsm_shelf.specs.Asked.{Load};
    ghost use Rattle.lsm_shelf.specs.Told.{Place, Becomes, Counted, CountedBy, NotTaken};

    /// A shelf of these contents keeps this image under this number: what is found without being
    /// read is said to be such an image. Who takes found tables for those of a manifest says in a
    /// premise what these images are.
    ghost keeps: { Place → (number : ℕ) → (image : List ℕ) → Type 0 };

    /// A receipt of the table of a number. Its length is measured, and no byte of it is read: the
    /// receipt stands for an image of that length which the shelf keeps under the number.
    ///
    /// It is refused as `load` is: `Missing` where no table has this number, `Device` where it has
    /// more than 1 GiB or the device fails.
    fn find<R: Wait>(
        &mut self,
        rt: &R,
        alloc: Global,
        number: u64,
    ) -> Result<Self::Receipt, ShelfFault>
        ensures receipt { IfOk result (λ r. (Self.Receipt.number r ≡ number)
            × Self.is_of (Self.told self.old).place r) }
        ensures kept { IfOk result (λ r.
            keeps (Self.told self.old).place number (Self.Receipt.image r)) }
        ensures told { Becomes (Self.told self.old) (Self.told self.new) }
        ensures refused { IfErr result (Self.refuses (Self.told self.old).place (Load number)) }
        ensures cause { IfErr result (λ e. NotTaken e
            × Counted e (Self.told self.old) (Self.told self.new)) }
        ensures counts { CountedBy result (Self.told self.old) (Self.told self.new) };
}
