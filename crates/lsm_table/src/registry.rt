//! The records of tables.

ghost use Rattle.std.specs.Prelude.{◌≡◌, ◌↔◌, IfOk, IfErr, IsTrue};

use crate::naming::Naming;
use crate::records::Records;
use crate::table_record::TableRecord;
use crate::table_ref::TableRef;
use lsm_shelf::Shelf;
use std::alloc::{AllocError, Global};
use std::marker::{Model, PhantomData};
use std::sync::{Arc, Wait};

/// The registry of the name `N`: the records of its tables. Records are only added, by any thread,
/// and each stays for the registry's life.
pub struct Registry<N: Naming, S: Shelf> {
    records: Records<S::Receipt>,
    of: PhantomData<N>,
}

impl<N: Naming, S: Shelf> Drop for Registry<N, S> {
    fn drop(self) {
        let Self { records: _, of: _ } = self;
    }
}

impl<N: Naming, S: Shelf> Model for Registry<N, S> {
    ghost use Rattle.std.specs.Prelude.{◌≡◌};
    ghost use Rattle.boxcar.specs.Table.{Shelves};

    ghost Value = { Shelves };

    ghost view = { λ r. r.records };

    ghost invariant = { λ r. r.records ≡ N.registry };
}

impl<N: Naming, S: Shelf> Registry<N, S> {
    /// The registry of the name that was picked for these records.
    pub fn of(records: Records<S::Receipt>) -> Registry<N, S>
        requires named { records ≡ N.registry }
    {
        Registry {
            records,
            of: PhantomData,
        }
    }

    /// The same, to be shared. `AllocError` where a growth was refused.
    pub fn shared(
        alloc: Global,
        records: Records<S::Receipt>,
    ) -> Result<Arc<Registry<N, S>>, AllocError>
        requires named { records ≡ N.registry }
    {
        Ok(Arc::new(alloc, Registry::of(records))?)
    }

    /// Adds a record, and gives it back where a growth was refused.
    pub fn push<R: Wait>(
        &self,
        rt: &R,
        row: TableRecord<S::Receipt>,
    ) -> Result<TableRef<N, S>, TableRecord<S::Receipt>>
        requires here { S.is_of N.place row.receipt }
        ensures number { IfOk result (λ t. t.number ≡ S.Receipt.number row.receipt) }
        ensures smallest { IfOk result (λ t. t.smallest ≡ row.smallest) }
        ensures largest { IfOk result (λ t. t.largest ≡ row.largest) }
        ensures image { IfOk result (λ t. t.image ≡ S.Receipt.image row.receipt) }
        ensures err { IfErr result (λ r. r ≡ row) }
    {
        let token = self.records.list.push_shown(rt, row)?;
        Ok(TableRef {
            token,
            of: PhantomData,
        })
    }

    /// The record that was pushed.
    pub fn record<'a>(&'a self, table: &TableRef<N, S>) -> &'a TableRecord<S::Receipt>
        ensures number { S.Receipt.number result.now.receipt ≡ table.now.number }
        ensures smallest { result.now.smallest ≡ table.now.smallest }
        ensures largest { result.now.largest ≡ table.now.largest }
        ensures image { S.Receipt.image result.now.receipt ≡ table.now.image }
        ensures here { S.is_of N.place result.now.receipt }
    {
        self.records.list.value(&table.token)
    }

    /// Whether two references have one index, and so one record.
    pub fn same(&self, a: &TableRef<N, S>, b: &TableRef<N, S>) -> bool
        ensures index { IsTrue result ↔ (a.now.index ≡ b.now.index) }
        ensures one { IsTrue result → a.now ≡ b.now }
    {
        if a.token.index() == b.token.index() {
            self.records.list.agrees(&a.token, &b.token);
            true
        } else {
            false
        }
    }
}
