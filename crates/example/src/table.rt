//! A table: it is built in memory, checked and read, then put on a shelf and read from there.

ghost use Rattle.std.specs.Prelude.{◌≡◌, Some, None, IfOk, codes};
ghost use Rattle.lsm_table.specs.Table.{IsTable};
ghost use Rattle.lsm_table.specs.Found.{seen};
ghost use Rattle.example.specs.Fruit.{fruit};

use lsm_codec::Kind;
use lsm_reader::get;
use lsm_storage::MemoryShelf;
use lsm_table::{
    BuildFault, Found, NamedShelf, Naming, Shelf, Table, TableBuilder, TableFault, TableOptions,
};
use std::alloc::Global;
use std::io::Print;
use std::marker::Brand;
use std::sync::Wait;

/// The table of the three entries.
pub fn fruit_table(alloc: Global) -> Result<Vec<u8>, BuildFault>
    ensures { IfOk result (λ file. IsTable file.items fruit) }
{
    let mut table = TableBuilder::new(alloc, TableOptions::usual());
    table.add(b"apple", 3, Kind::Value, b"red")?;
    table.add(b"apple", 1, Kind::Value, b"green")?;
    table.add(b"cherry", 2, Kind::Deletion, b"")?;
    table.finish()
}

/// What was found of "apple" as of sequence 2: the entry at 1, and not the newer one at 3.
fn older_apple(alloc: Global, table: &Table) -> Result<Option<Found>, TableFault>
    requires { table.now ≡ fruit }
    ensures { IfOk result (λ found. seen found ≡ Some (Some (codes "green"))) }
{
    table.get(alloc, b"apple", 2)
}

fn show(rt: &impl Print, read: &str, found: &Option<Found>) -> anyhow::Result<()> {
    match found {
        Some(Found::Value(value)) => println!(rt; "{read}: {}", str::from_utf8(value)?)?,
        Some(Found::Deleted) => println!(rt; "{read}: deleted")?,
        None => println!(rt; "{read}: no entry")?,
    }
    Ok(())
}

/// Reads the table in memory.
fn read(rt: &impl Print, alloc: Global, table: &Table) -> anyhow::Result<()>
    requires { table.now ≡ fruit }
{
    show(rt, "apple at 2", &older_apple(alloc, table)?)?;
    show(rt, "cherry at 9", &table.get(alloc, b"cherry", 9)?)?;
    show(rt, "plum at 9", &table.get(alloc, b"plum", 9)?)
}

/// Puts the table on a shelf, in memory or in a folder, and reads one key from there.
fn read_from<N: Naming, S: Shelf, R: Print + Wait>(
    rt: &R,
    alloc: Global,
    shelf: S,
    file: &[u8],
) -> anyhow::Result<()>
    requires named { (S.told shelf).place ≡ N.place }
{
    let mut shelf = NamedShelf::<N, S>::of(shelf);
    let receipt = shelf.put(rt, alloc, 7, file)?;
    let found = get(&mut shelf, alloc, &receipt, b"apple", 9)?;
    show(rt, "apple at 9, from the shelf", &found)
}

/// What a program does with a table.
pub fn show_table<R: Print + Wait>(rt: &R, alloc: Global) -> anyhow::Result<()> {
    let file = fruit_table(alloc)?;
    println!(rt; "a table of {} bytes", file.len())?;
    read_from::<Brand, MemoryShelf, _>(rt, alloc, MemoryShelf::new(alloc)?, &file)?;
    let table = Table::check(alloc, file)?;
    read(rt, alloc, &table)
}
