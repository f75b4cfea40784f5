//! A `FileShelf` as a shelf that finds tables.

ghost use Rattle.std.specs.Prelude.{◌≡◌, IfOk, IfErr};
ghost use Rattle.lsm_folder.specs.Finding.{Found};
ghost use Rattle.lsm_shelf.specs.Told.{Becomes, Counted, CountedBy, NotTaken};
ghost use Rattle.lsm_storage.specs.FileNames.{table_name};
ghost use Rattle.lsm_storage.specs.FileShelf.{folder_of, file_told, file_number, mark_of};
ghost use Rattle.lsm_storage.specs.Plans.{TableUnfound};

use crate::file::file_receipt::FileReceipt;
use crate::file::file_shelf::FileShelf;
use crate::file::tables::find_table;
use lsm_finding::Finding;
use lsm_folder::FindingCalls;
use lsm_shelf::ShelfFault;
use std::alloc::Global;
use std::sync::Wait;

impl<C: FindingCalls + Send + Sync> Finding for FileShelf<C>
where
    C::Mark: Send + Sync,
{
    ghost keeps = { λ p number image. C.holds p (table_name number) image };

    fn find<W: Wait>(
        &mut self,
        rt: &W,
        alloc: Global,
        number: u64,
    ) -> Result<FileReceipt<C::Mark>, ShelfFault>
        ensures receipt { IfOk result (λ r. (file_number r ≡ number)
            × C.is_of (file_told C.place self.old).place (mark_of r)) }
        ensures kept { IfOk result (λ r. C.holds (file_told C.place self.old).place
            (table_name number) (C.Mark.image (mark_of r))) }
        ensures calls { IfOk result (λ r. Found (table_name number) (C.Mark.image (mark_of r))
            (C.calls (folder_of self.old)) (C.calls (folder_of self.new))) }
        ensures stopped { IfErr result (λ e.
            TableUnfound number e (C.calls (folder_of self.old)) (C.calls (folder_of self.new))) }
        ensures told { Becomes (file_told C.place self.old) (file_told C.place self.new) }
        ensures refused { IfErr result NotTaken }
        ensures cause { IfErr result (λ e. NotTaken e
            × Counted e (file_told C.place self.old) (file_told C.place self.new)) }
        ensures counts { CountedBy result (file_told C.place self.old)
            (file_told C.place self.new) }
    {
        let outcome = find_table(&mut self.folder, rt, alloc, number);
        self.account.count(outcome)
    }
}
