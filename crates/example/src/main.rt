//! A program that uses this repository's libraries, as short as one can be: it keeps a database in
//! a folder, reads a table, then a version of two tables, and then keeps a store.
//!
//! Stands on `lsm_database` (`database`), on `lsm_table` and `lsm_reader` (`table`), `lsm_version`
//! (`version`) and `lsm_store` (`store`). Its contract: what is read of the table is what its three
//! entries say, and what is read of the store is of the version that a view holds.
#![tactic(auto)]

mod database;
mod store;
mod table;
mod version;

use database::show_database;
use store::show_store;
use table::show_table;
use version::show_version;

fn main(rt: HostRuntime) -> anyhow::Result<()> {
    let alloc = rt.alloc();
    show_database(&rt, rt.clone()?)?;
    show_table(&rt, alloc)?;
    show_version(&rt, alloc)?;
    show_store(&rt, alloc)
}
