//! Tables of the source, put into the target as plain ones.

ghost use Rattle.std.specs.Prelude.{◌≡◌, List, ℕ, length, Ok, Some, IfErr, IfOk, MatchBool};
ghost use Rattle.lsm_codec.specs.Entries.{Entry};
ghost use Rattle.lsm_shelf.specs.Stored.{Stored};
ghost use Rattle.lsm_shelf.specs.Told.{Becomes};
ghost use Rattle.lsm_table.specs.Options.{AreInRange};
ghost use Rattle.lsm_table.specs.Table.{IsImage};
ghost use Rattle.lsm_inflate.specs.PackedReading.{inflated_at};
ghost use Rattle.lsm_inflate.specs.PackedTable.{IsPackedTable};
ghost use Rattle.lsm_import.specs.Copies.{AreCopies, AreNotCopied, IsCopy, IsCopyRefusal};
ghost use Rattle.lsm_import.specs.Copies.{IsPackedRefusal, IsPutRefusal, OnlyPuts};

use crate::import_fault::ImportFault;
use lsm_inflate::{PlainTable, inflate};
use lsm_manifest::{AddedFile, FileMeta};
use lsm_table::{NamedShelf, Naming, Shelf, TableOptions};
use std::alloc::Global;
use std::sync::Wait;

/// Whether a plain table begins and ends at the keys of a file.
fn has_keys(plain: &PlainTable, file: &FileMeta) -> bool
    ensures { MatchBool result
        ((plain.now.smallest ≡ file.now.smallest) × (plain.now.largest ≡ file.now.largest))
        ((plain.now.smallest ≡ file.now.smallest) × (plain.now.largest ≡ file.now.largest) → ⊥) }
{
    plain.smallest.as_slice() == file.smallest.as_slice()
        && plain.largest.as_slice() == file.largest.as_slice()
}

/// The plain table of a file's image: that of `lsm_inflate::inflate`, where it begins and ends at
/// the keys of the file.
///
/// # Errors
/// `Packed` of the image's first fault; `WrongRange` where it has no entry or other keys; both name
/// the file.
pub fn plain_of(
    alloc: Global,
    options: TableOptions,
    file: &FileMeta,
    packed: &[u8],
) -> Result<Vec<u8>, ImportFault>
    requires { AreInRange options }
    ensures plain { IfOk result (λ plain. (es : List Entry) × IsPackedTable packed.now es
        × IsImage es file.now.smallest file.now.largest plain.items) }
    ensures exact { IfOk result (λ plain.
        inflated_at options packed.now ≡ Ok (Some plain.items)) }
    ensures refused { IfErr result (IsPackedRefusal options file.now packed.now) }
{
    match inflate(alloc, options, packed) {
        Ok(Some(plain)) => {
            if !has_keys(&plain, file) {
                return Err(ImportFault::WrongRange(file.number));
            }
            Ok(plain.bytes)
        }
        Ok(None) => Err(ImportFault::WrongRange(file.number)),
        Err(fault) => Err(ImportFault::Packed(file.number, fault)),
    }
}

/// Puts the plain table of a file into the target, and names it as the manifest does.
fn put_plain<M: Naming, T: Shelf, R: Wait>(
    rt: &R,
    alloc: Global,
    target: &mut NamedShelf<M, T>,
    file: &AddedFile,
    plain: &[u8],
) -> Result<AddedFile, ImportFault>
    ensures put { IfOk result (λ _. Stored T.Receipt (T.is_of M.place) T.Receipt.number
        T.Receipt.image file.now.file.number plain.now) }
    ensures level { IfOk result (λ copy. copy.level ≡ file.now.level) }
    ensures number { IfOk result (λ copy. copy.file.number ≡ file.now.file.number) }
    ensures size { IfOk result (λ copy. copy.file.size ≡ length plain.now) }
    ensures smallest { IfOk result (λ copy. copy.file.smallest ≡ file.now.file.smallest) }
    ensures largest { IfOk result (λ copy. copy.file.largest ≡ file.now.file.largest) }
    ensures puts { OnlyPuts target.old target.new }
    ensures refused { IfErr result
        (IsPutRefusal (T.refuses M.place) file.now.file.number plain.now) }
{
    let smallest = file.file.smallest.try_copy(alloc)?;
    let largest = file.file.largest.try_copy(alloc)?;
    match target.put(rt, alloc, file.file.number, plain) {
        Ok(_receipt) => Ok(AddedFile {
            level: file.level,
            file: FileMeta {
                number: file.file.number,
                size: plain.len() as u64,
                smallest,
                largest,
            },
        }),
        Err(fault) => Err(ImportFault::Unwritten(fault)),
    }
}

/// Reads the table of a file, and puts the plain one into the target.
fn copy_table<N: Naming, S: Shelf, M: Naming, T: Shelf, R: Wait>(
    rt: &R,
    alloc: Global,
    source: &mut NamedShelf<N, S>,
    target: &mut NamedShelf<M, T>,
    options: TableOptions,
    file: &AddedFile,
) -> Result<AddedFile, ImportFault>
    requires { AreInRange options }
    ensures copied { IfOk result (λ copy. (es : List Entry) × IsCopy
        (Stored S.Receipt (S.is_of N.place) S.Receipt.number S.Receipt.image)
        (Stored T.Receipt (T.is_of M.place) T.Receipt.number T.Receipt.image)
        file.now copy es) }
    ensures read { Becomes source.old source.new }
    ensures puts { OnlyPuts target.old target.new }
    ensures refused { IfErr result (IsCopyRefusal
        (Stored S.Receipt (S.is_of N.place) S.Receipt.number S.Receipt.image)
        (S.refuses N.place) (T.refuses M.place) options file.now.file) }
{
    let packed = match source.load(rt, alloc, file.file.number) {
        Ok((_receipt, packed)) => packed,
        Err(fault) => return Err(ImportFault::Unread(file.file.number, fault)),
    };
    let plain = plain_of(alloc, options, &file.file, &packed)?;
    put_plain(rt, alloc, target, file, &plain)
}

/// Copies these files, one after another.
pub(crate) fn copy_tables<N: Naming, S: Shelf, M: Naming, T: Shelf, R: Wait>(
    rt: &R,
    alloc: Global,
    source: &mut NamedShelf<N, S>,
    target: &mut NamedShelf<M, T>,
    options: TableOptions,
    files: &[AddedFile],
) -> Result<Vec<AddedFile>, ImportFault>
    requires { AreInRange options }
    ensures copied { IfOk result (λ copies. (es : List Entry) × AreCopies
        (Stored S.Receipt (S.is_of N.place) S.Receipt.number S.Receipt.image)
        (Stored T.Receipt (T.is_of M.place) T.Receipt.number T.Receipt.image)
        files.now copies.items es) }
    ensures read { Becomes source.old source.new }
    ensures puts { OnlyPuts target.old target.new }
    ensures refused { IfErr result (AreNotCopied
        (Stored S.Receipt (S.is_of N.place) S.Receipt.number S.Receipt.image)
        (S.refuses N.place) (T.refuses M.place) options files.now) }
{
    let mut copies: Vec<AddedFile> = Vec::new(alloc);
    for file in files {
        let copy = copy_table(rt, alloc, source, target, options, file)?;
        copies.push(copy)?;
    }
    Ok(copies)
}
