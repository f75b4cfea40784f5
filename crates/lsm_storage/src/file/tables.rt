//! What a shelf asks of its folder for its tables.

ghost use Rattle.std.specs.Prelude.{◌≡◌, ◌+◌, ◌<◌, ◌≤◌, ◌^◌, ◌∷◌, Ok, length, take, drop, IfOk};
ghost use Rattle.std.specs.Prelude.{IfErr, OnOk, IsErrOf};
ghost use Rattle.lsm_folder.specs.Calls.{AreHonest, LastIsTrue, Answer, read, loaded, removed};
ghost use Rattle.lsm_storage.specs.FileNames.{table_name};
ghost use Rattle.lsm_storage.specs.Plans.{done, Refused, PutStopped, PartUnread, TableUnread};
ghost use Rattle.lsm_storage.specs.Plans.{TableUnfound, RemoveStopped, durable_plan, put_plan};
ghost use Rattle.lsm_storage.specs.Plans.{remove_plan};
ghost use Rattle.lsm_folder.specs.Finding.{Found};
ghost use Rattle.lsm_storage.specs.FolderFault.{undone_of};
ghost use Rattle.lsm_shelf.specs.Told.{NotNamed, NotTaken, TakenIs};

use crate::file::fault::{device, missing, taken};
use crate::file::file_names::table_file;
use crate::file::file_receipt::FileReceipt;
use lsm_folder::{FindingCalls, FolderCalls, FolderFault};
use lsm_shelf::{MAX_IMAGE, ShelfFault};
use std::alloc::Global;
use std::sync::Wait;

/// Makes a file durable, and then its name.
pub(crate) fn make_durable<C: FolderCalls, W: Wait>(
    folder: &mut C,
    rt: &W,
    name: &str,
) -> Result<(), FolderFault>
    ensures ok { OnOk result (C.calls folder.new
        ≡ done (durable_plan name.now) (C.calls folder.old)) }
    ensures err { IfErr result (λ f.
        Refused (durable_plan name.now) f (C.calls folder.old) (C.calls folder.new)) }
    ensures place { C.place folder.new ≡ C.place folder.old }
{
    folder.sync(rt, name)?;
    folder.sync_folder(rt)
}

/// Removes a file that was made and could not be made durable, and says why its call is refused:
/// where it could not be removed either, that is the device.
fn undo<C: FolderCalls, W: Wait>(
    folder: &mut C,
    rt: &W,
    name: &str,
    fault: FolderFault,
) -> ShelfFault
    ensures calls { (answer : Answer) × (C.calls folder.new
        ≡ removed name.now answer ∷ C.calls folder.old) × (result ≡ undone_of answer fault) }
    ensures place { C.place folder.new ≡ C.place folder.old }
    ensures fault { NotNamed result }
{
    match folder.remove(rt, name) {
        Ok(()) => device(fault),
        Err(_) => ShelfFault::Device,
    }
}

/// Puts a table.
pub(crate) fn put_table<C: FolderCalls, W: Wait>(
    folder: &mut C,
    rt: &W,
    alloc: Global,
    number: u64,
    image: &[u8],
) -> Result<FileReceipt<C::Mark>, ShelfFault>
    ensures number { IfOk result (λ r. r.number ≡ number) }
    ensures image { IfOk result (λ r. C.Mark.image r.mark ≡ image.now) }
    ensures here { IfOk result (λ r. C.is_of (C.place folder.old) r.mark) }
    ensures ok { OnOk result (C.calls folder.new
        ≡ done (put_plan number image.now) (C.calls folder.old)) }
    ensures err { IfErr result (λ e.
        PutStopped number image.now e (C.calls folder.old) (C.calls folder.new)) }
    ensures large { 2 ^ 30 < length image.now
        → IsErrOf result ShelfFault.Device × (C.calls folder.new ≡ C.calls folder.old) }
    ensures place { C.place folder.new ≡ C.place folder.old }
    ensures fault { IfErr result (TakenIs number) }
{
    if image.len() > MAX_IMAGE {
        return Err(ShelfFault::Device);
    }
    let name = table_file(alloc, number)?;
    let mark = match folder.make(rt, name.as_str(), image) {
        Ok(mark) => mark,
        Err(fault) => return Err(taken(fault, number)),
    };
    if let Err(fault) = make_durable(folder, rt, name.as_str()) {
        return Err(undo(folder, rt, name.as_str(), fault));
    }
    Ok(FileReceipt {
        number,
        size: image.len() as u64,
        mark,
    })
}

/// Reads a part of a table.
pub(crate) fn read_table<C: FolderCalls>(
    folder: &mut C,
    alloc: Global,
    receipt: &FileReceipt<C::Mark>,
    offset: u64,
    len: usize,
) -> Result<Vec<u8>, ShelfFault>
    requires here { C.is_of (C.place folder.old) receipt.now.mark }
    requires inside { offset + len ≤ length (C.Mark.image receipt.now.mark) }
    ensures bytes { AreHonest C.calls
        → IfOk result (λ v. v.items ≡ take len (drop offset (C.Mark.image receipt.now.mark))) }
    ensures answered { LastIsTrue (C.calls folder.new)
        → IfOk result (λ v. v.items ≡ take len (drop offset (C.Mark.image receipt.now.mark))) }
    ensures ok { IfOk result (λ v. C.calls folder.new ≡ read (table_name receipt.now.number)
        (C.Mark.image receipt.now.mark) offset len (Ok v.items) ∷ C.calls folder.old) }
    ensures err { IfErr result (λ e. PartUnread receipt.now.number (C.Mark.image receipt.now.mark)
        offset len e (C.calls folder.old) (C.calls folder.new)) }
    ensures place { C.place folder.new ≡ C.place folder.old }
    ensures fault { IfErr result NotTaken }
{
    let name = table_file(folder.alloc(), receipt.number)?;
    let read = folder.read_part(alloc, name.as_str(), &receipt.mark, offset, len);
    read.map_err(|e| missing(e))
}

/// Reads a table whole.
pub(crate) fn load_table<C: FolderCalls, W: Wait>(
    folder: &mut C,
    rt: &W,
    alloc: Global,
    number: u64,
) -> Result<(FileReceipt<C::Mark>, Vec<u8>), ShelfFault>
    ensures number { IfOk result (λ r. r.0.number ≡ number) }
    ensures image { IfOk result (λ r. C.Mark.image r.0.mark ≡ r.1.items) }
    ensures here { IfOk result (λ r. C.is_of (C.place folder.old) r.0.mark) }
    ensures ok { IfOk result (λ r.
        C.calls folder.new ≡ loaded (table_name number) (Ok r.1.items) ∷ C.calls folder.old) }
    ensures err { IfErr result (λ e.
        TableUnread number e (C.calls folder.old) (C.calls folder.new)) }
    ensures place { C.place folder.new ≡ C.place folder.old }
    ensures fault { IfErr result NotTaken }
{
    let name = table_file(folder.alloc(), number)?;
    match folder.load(rt, alloc, name.as_str()) {
        Ok((mark, bytes)) => {
            let receipt = FileReceipt {
                number,
                size: bytes.len() as u64,
                mark,
            };
            Ok((receipt, bytes))
        }
        Err(fault) => Err(missing(fault)),
    }
}

/// Finds a table.
pub(crate) fn find_table<C: FindingCalls, W: Wait>(
    folder: &mut C,
    rt: &W,
    alloc: Global,
    number: u64,
) -> Result<FileReceipt<C::Mark>, ShelfFault>
    ensures number { IfOk result (λ r. r.number ≡ number) }
    ensures here { IfOk result (λ r. C.is_of (C.place folder.old) r.mark) }
    ensures held { IfOk result (λ r.
        C.holds (C.place folder.old) (table_name number) (C.Mark.image r.mark)) }
    ensures ok { IfOk result (λ r. Found (table_name number) (C.Mark.image r.mark)
        (C.calls folder.old) (C.calls folder.new)) }
    ensures err { IfErr result (λ e.
        TableUnfound number e (C.calls folder.old) (C.calls folder.new)) }
    ensures place { C.place folder.new ≡ C.place folder.old }
    ensures fault { IfErr result NotTaken }
{
    let name = table_file(folder.alloc(), number)?;
    match folder.find(rt, alloc, name.as_str()) {
        Ok((mark, size)) => Ok(FileReceipt { number, size, mark }),
        Err(fault) => Err(missing(fault)),
    }
}

/// Removes a table. The removal is not made durable.
pub(crate) fn remove_table<C: FolderCalls, W: Wait>(
    folder: &mut C,
    rt: &W,
    number: u64,
) -> Result<(), ShelfFault>
    ensures ok { OnOk result (C.calls folder.new ≡ done (remove_plan number) (C.calls folder.old)) }
    ensures err { IfErr result (λ e.
        RemoveStopped number e (C.calls folder.old) (C.calls folder.new)) }
    ensures place { C.place folder.new ≡ C.place folder.old }
    ensures fault { IfErr result NotTaken }
{
    let name = table_file(folder.alloc(), number)?;
    folder.remove(rt, name.as_str()).map_err(|e| missing(e))
}
