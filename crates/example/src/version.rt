//! A version: two tables are put on a shelf in memory, an edit says at which levels they stand, and
//! what is read is what both say together, of one key the newest entry first.

ghost use Rattle.std.specs.Prelude.{◌≡◌, ◌≤◌};

use crate::table::fruit_table;
use lsm_codec::{KeyRef, Kind, List, MAX_SEQ};
use lsm_manifest::{AddedFile, Edit, FileMeta, Shape, replay};
use lsm_query::{Pair, Scan};
use lsm_storage::MemoryShelf;
use lsm_table::{
    BuildFault, NamedShelf, Naming, Records, Registry, Shelf, TableBuilder, TableOptions,
};
use lsm_version::Version;
use std::alloc::{AllocError, Global};
use std::io::Print;
use std::marker::Brand;
use std::sync::Wait;

/// A newer table than the one of `fruit_table`: no apples any more, and sweet cherries.
fn newer_table(alloc: Global) -> Result<Vec<u8>, BuildFault> {
    let mut table = TableBuilder::new(alloc, TableOptions::usual());
    table.add(b"apple", 5, Kind::Deletion, b"")?;
    table.add(b"cherry", 4, Kind::Value, b"sweet")?;
    table.finish()
}

/// An internal key.
fn key(user: &[u8], seq: u64, kind: Kind) -> KeyRef<'_>
    requires { seq ≤ MAX_SEQ }
{
    KeyRef { user, seq, kind }
}

/// A table as an edit adds it to a level: its number, its size in bytes, and the first and the last
/// of its keys.
fn added_file(
    alloc: Global,
    level: u8,
    number: u64,
    size: u64,
    keys: [KeyRef<'_>; 2],
) -> Result<AddedFile, AllocError> {
    let [first, last] = keys;
    let smallest = first.to_bytes(alloc)?;
    let largest = last.to_bytes(alloc)?;
    Ok(AddedFile {
        level,
        file: FileMeta {
            number,
            size,
            smallest,
            largest,
        },
    })
}

/// Both tables, as a manifest's first edit adds them.
fn edit(alloc: Global, older_size: u64, newer_size: u64) -> Result<Edit, AllocError> {
    let older = [
        key(b"apple", 3, Kind::Value),
        key(b"cherry", 2, Kind::Deletion),
    ];
    let newer = [
        key(b"apple", 5, Kind::Deletion),
        key(b"cherry", 4, Kind::Value),
    ];
    let mut added = Vec::new(alloc);
    added.push(added_file(alloc, 1, 5, older_size, older)?)?;
    added.push(added_file(alloc, 0, 6, newer_size, newer)?)?;
    Ok(Edit {
        comparator: None,
        log: Some(0),
        prev_log: None,
        next: Some(7),
        last: Some(5),
        pointers: List::of(Vec::new(alloc)),
        deleted: List::of(Vec::new(alloc)),
        added: List::of(added),
    })
}

/// Puts both tables on the shelf: what the edit that adds them comes to.
fn put_tables<N: Naming, S: Shelf, R: Wait>(
    rt: &R,
    alloc: Global,
    shelf: &mut NamedShelf<N, S>,
) -> anyhow::Result<Shape> {
    let older = fruit_table(alloc)?;
    let newer = newer_table(alloc)?;
    shelf.put(rt, alloc, 5, &older)?;
    shelf.put(rt, alloc, 6, &newer)?;
    let edits = [edit(alloc, older.len() as u64, newer.len() as u64)?];
    Ok(replay(alloc, &edits)?)
}

/// Prints the answer for a key as of a sequence.
fn show<N: Naming, S: Shelf>(
    rt: &impl Print,
    alloc: Global,
    version: &Version<N, S>,
    shelf: &mut NamedShelf<N, S>,
    user: &str,
    seq: u64,
) -> anyhow::Result<()> {
    match lsm_query::get(version, shelf, alloc, user.as_bytes(), seq)? {
        Some(value) => println!(rt; "{user} at {seq}: {}", str::from_utf8(&value)?)?,
        None => println!(rt; "{user} at {seq}: absent")?,
    }
    Ok(())
}

fn show_pair(rt: &impl Print, pair: &Pair) -> anyhow::Result<()> {
    let user = str::from_utf8(pair.user())?;
    let value = str::from_utf8(pair.value())?;
    Ok(println!(rt; "scan: {user} {value}")?)
}

/// Prints what is left of a scan. The shelf is honest, so that it comes to its end.
fn show_rest<N: Naming, S: Shelf>(
    rt: &impl Print,
    alloc: Global,
    scan: &mut Scan<N, S>,
    shelf: &mut NamedShelf<N, S>,
) -> anyhow::Result<()>
    requires honest { S.honest }
{
    while let Some(pair) = scan.next(shelf, alloc)? {
        show_pair(rt, &pair)?;
    }
    Ok(())
}

/// Prints the live keys as of a sequence, each with its value.
fn scan<N: Naming, S: Shelf>(
    rt: &impl Print,
    alloc: Global,
    version: &Version<N, S>,
    shelf: &mut NamedShelf<N, S>,
    seq: u64,
) -> anyhow::Result<()>
    requires honest { S.honest }
{
    let mut scan = lsm_query::scan(version, shelf, alloc, seq)?;
    show_rest(rt, alloc, &mut scan, shelf)
}

/// Reads one key as of its last sequence and of two before it, and then all.
fn read<N: Naming, S: Shelf>(
    rt: &impl Print,
    alloc: Global,
    version: &Version<N, S>,
    shelf: &mut NamedShelf<N, S>,
) -> anyhow::Result<()>
    requires honest { S.honest }
{
    let last = version.last();
    println!(rt; "a version whose last sequence is {last}")?;
    for seq in [last, 4, 2] {
        show(rt, alloc, version, shelf, "apple", seq)?;
    }
    scan(rt, alloc, version, shelf, last)
}

/// A version of both tables, once checked. What is generic in `N` is of the registry and of the
/// shelf's contents that the premises name; the caller picks them by
/// `proofs/version/show_version/Invariants.antt`.
fn check_and_read<N: Naming, S: Shelf, R: Wait + Print>(
    rt: &R,
    alloc: Global,
    records: Records<S::Receipt>,
    shelf: S,
) -> anyhow::Result<()>
    requires records { records ≡ N.registry }
    requires named { (S.told shelf).place ≡ N.place }
    requires honest { S.honest }
{
    let registry = Registry::shared(alloc, records)?;
    let mut shelf = NamedShelf::of(shelf);
    let shape = put_tables(rt, alloc, &mut shelf)?;
    let version = lsm_verify::check::<N, S, R>(&mut shelf, rt, alloc, &shape, registry)?;
    read(rt, alloc, &version, &mut shelf)
}

/// What a program does with a version.
pub fn show_version<R: Wait + Print>(rt: &R, alloc: Global) -> anyhow::Result<()> {
    let records = Records::new(alloc)?;
    let shelf = MemoryShelf::new(alloc)?;
    check_and_read::<Brand, MemoryShelf, _>(rt, alloc, records, shelf)
}
