//! The tables of a shelf are read, and the entries of those that are whole are held.

ghost use Rattle.std.specs.Prelude.{◌≡◌, ◌++◌, [], map, IfErr, IfOk, MatchOption, OnOk};
ghost use Rattle.std.specs.Option.{option_map};
ghost use Rattle.lsm_shelf.specs.Stored.{Stored};
ghost use Rattle.lsm_shelf.specs.Told.{Becomes};
ghost use Rattle.lsm_table.specs.HeldTable.{Steps};
ghost use Rattle.lsm_inflate.specs.PackedReading.{inflated_at};
ghost use Rattle.lsm_inflate.specs.PackedTable.{IsPackedTable};
ghost use Rattle.lsm_inflate.specs.Reading.{Fails, is_memory};
ghost use Rattle.lsm_import.specs.Copied.{usual};
ghost use Rattle.lsm_repair.specs.Reading.{AreRead, AreUnread, IsUnread, ReadsImage, ReadsNext};
ghost use Rattle.lsm_repair.specs.Reading.{held_at};
ghost use Rattle.lsm_repair.specs.declared.mend_fault.MendFault.TheVariants.{OutOfMemory};

use crate::kept_entry::KeptEntry;
use crate::left_out::LeftOut;
use crate::mend_fault::MendFault;
use lsm_inflate::{InflateFault, inflate};
use lsm_table::{NamedShelf, Naming, Shelf, Table, TableFault, TableIter, TableOptions};
use std::alloc::{AllocError, Global};
use std::sync::Wait;

/// What was read of tables: the entries of those that are whole, and those that are left out.
#[derive(Drop)]
pub(crate) struct Found {
    pub(crate) entries: Vec<KeptEntry>,
    pub(crate) left: Vec<LeftOut>,
}

/// Goes to the next entry of a table, and lends its value: a table that was checked has no fault
/// but want of memory.
fn step<'t>(walk: &mut TableIter<'t>) -> Result<Option<&'t [u8]>, AllocError>
    ensures { IfOk result (λ r. Steps walk.old walk.new (option_map (λ v. v.now) r)) }
{
    match walk.next() {
        Ok(value) => Ok(value),
        Err(_memory) => Err(AllocError),
    }
}

/// Adds the entries of the table of this number.
fn add_entries(
    alloc: Global,
    entries: &mut Vec<KeptEntry>,
    number: u64,
    table: &Table,
) -> Result<(), AllocError>
    ensures { OnOk result (entries.new.items
        ≡ entries.old.items ++ map (held_at number) table.now) }
{
    let mut walk = table.iter(alloc);
    while let Some(value) = step(&mut walk)? {
        let Some(key) = walk.key() else {
            unreachable!()
        };
        entries.push(KeptEntry::of(alloc, number, &key, value)?)?;
    }
    Ok(())
}

/// The table of an image, whose blocks may be Snappy's; none where it has no entry.
fn table_of(alloc: Global, packed: &[u8]) -> Result<Option<Table>, InflateFault>
    ensures whole { IfOk result (λ table. MatchOption table (IsPackedTable packed.now [])
        (λ t. IsPackedTable packed.now t)) }
    ensures refused { IfErr result (λ e. Fails e (inflated_at usual packed.now)) }
{
    match inflate(alloc, TableOptions::usual(), packed)? {
        Some(plain) => match Table::check(alloc, plain.bytes) {
            Ok(table) => Ok(Some(table)),
            Err(fault) => Err(InflateFault::Table(fault)),
        },
        None => Ok(None),
    }
}

/// Whether memory ran out.
fn is_memory(fault: InflateFault) -> bool
    ensures { result ≡ is_memory fault }
{
    match fault {
        InflateFault::Table(TableFault::OutOfMemory) => true,
        _ => false,
    }
}

/// Reads the image of the table of this number: adds its entries; or the table to those that are
/// left out, where the image is none.
fn read_image(
    alloc: Global,
    number: u64,
    packed: &[u8],
    entries: &mut Vec<KeptEntry>,
    left: &mut Vec<LeftOut>,
) -> Result<(), MendFault>
    ensures read { OnOk result (ReadsImage number packed.now entries.old.items entries.new.items
        left.old.items left.new.items) }
    ensures memory { IfErr result (λ e. e ≡ OutOfMemory) }
{
    match table_of(alloc, packed) {
        Ok(Some(table)) => {
            add_entries(alloc, entries, number, &table)?;
            Ok(())
        }
        Ok(None) => Ok(()),
        Err(fault) => {
            if is_memory(fault) {
                return Err(MendFault::OutOfMemory);
            }
            left.push(LeftOut {
                file: number,
                fault,
            })?;
            Ok(())
        }
    }
}

/// Reads the table of this number from a shelf, and adds its entries, or it to those that are left
/// out.
///
/// `Unread` where the shelf does not give it; `OutOfMemory`.
fn read_table<N: Naming, S: Shelf, R: Wait>(
    rt: &R,
    alloc: Global,
    shelf: &mut NamedShelf<N, S>,
    number: u64,
    entries: &mut Vec<KeptEntry>,
    left: &mut Vec<LeftOut>,
) -> Result<(), MendFault>
    ensures read { OnOk result (ReadsNext
        (Stored S.Receipt (S.is_of N.place) S.Receipt.number S.Receipt.image)
        number entries.old.items entries.new.items left.old.items left.new.items) }
    ensures refused { IfErr result (IsUnread (S.refuses N.place) number) }
    ensures told { Becomes shelf.old shelf.new }
{
    match shelf.load(rt, alloc, number) {
        Ok((_receipt, packed)) => read_image(alloc, number, &packed, entries, left),
        Err(fault) => Err(MendFault::Unread(number, fault)),
    }
}

/// Reads the tables of these numbers from a shelf, one after another.
pub(crate) fn read_tables<N: Naming, S: Shelf, R: Wait>(
    rt: &R,
    alloc: Global,
    shelf: &mut NamedShelf<N, S>,
    numbers: &[u64],
) -> Result<Found, MendFault>
    ensures read { IfOk result (λ f. AreRead
        (Stored S.Receipt (S.is_of N.place) S.Receipt.number S.Receipt.image)
        numbers.now f.entries.items f.left.items) }
    ensures refused { IfErr result (AreUnread (S.refuses N.place) numbers.now) }
    ensures told { Becomes shelf.old shelf.new }
{
    let mut entries: Vec<KeptEntry> = Vec::new(alloc);
    let mut left: Vec<LeftOut> = Vec::new(alloc);
    for number in numbers {
        read_table(rt, alloc, shelf, *number, &mut entries, &mut left)?;
    }
    Ok(Found { entries, left })
}
