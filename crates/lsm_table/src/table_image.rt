//! A table on its way to a shelf: begun, built, and put.

ghost use Rattle.std.specs.Prelude.{◌≡◌, ◌<◌, ◌≤◌, ◌^◌, [], ◌∷◌, ◌++◌, length, Some, IfErr, IfOk};
ghost use Rattle.std.specs.Prelude.{OnErr, OnOk, Err};
ghost use Rattle.lsm_codec.specs.KeyRef.{key_of};
ghost use Rattle.lsm_block.specs.Block.{Ascends, entry_of};
ghost use Rattle.lsm_block.specs.Building.{last_key};
ghost use Rattle.lsm_block.specs.declared.build_fault.BuildFault.TheVariants.{TooLarge};
ghost use Rattle.lsm_shelf.specs.Asked.{Put};
ghost use Rattle.lsm_shelf.specs.Refusals.{IsWantOr};
ghost use Rattle.lsm_shelf.specs.Told.{Becomes, Counted, CountedBy, TakenIs, putting};
ghost use Rattle.lsm_table.specs.Options.{AreInRange};
ghost use Rattle.lsm_table.specs.Table.{IsImage};
ghost use Rattle.lsm_table.specs.TableBuilding.{PassesLimit, groups_by, index_block, table_bytes};
ghost use Rattle.lsm_table.specs.TableBuilding.{written_bytes};
ghost use Rattle.lsm_table.specs.TableImage.{IsPutAs, IsPutRefusal};

use crate::builder::TableBuilder;
use crate::named_shelf::NamedShelf;
use crate::naming::Naming;
use crate::registry::Registry;
use crate::table_options::TableOptions;
use crate::table_record::TableRecord;
use crate::table_ref::TableRef;
use lsm_block::BuildFault;
use lsm_codec::{Bytes, KeyRef};
use lsm_shelf::{Shelf, ShelfFault};
use std::alloc::Global;
use std::marker::Model;
use std::sync::Wait;

/// A table that is being built and has an entry at least, with the key of its first one. Contracts
/// see it as its options and the entries that were added.
#[derive(Debug, Drop)]
pub struct BegunTable {
    smallest: Bytes,
    builder: TableBuilder,
}

impl Model for BegunTable {
    ghost use Rattle.lsm_table.specs.TableImage.{IsBegun};
    ghost use Rattle.lsm_table.specs.TableMaking.{Making};

    ghost Value = { Making };

    ghost view = { λ b. b.builder };

    ghost invariant = { λ b. IsBegun b.smallest b.builder.entries };
}

impl BegunTable {
    /// A table that begins with an entry. `TooLarge` where its data block or the index block would
    /// pass 2^32 - 1 bytes.
    pub fn begin(
        alloc: Global,
        options: TableOptions,
        key: &KeyRef<'_>,
        value: &[u8],
    ) -> Result<BegunTable, BuildFault>
        requires options { AreInRange options }
        ensures ok { IfOk result (λ b. b ≡ record {
          options = options;
          entries = entry_of (key_of key.now) value.now ∷ [];
        }) }
        ensures large { result ≡ Err TooLarge
            → PassesLimit options [] (entry_of (key_of key.now) value.now) }
    {
        let smallest = key.to_bytes(alloc)?;
        let mut builder = TableBuilder::new(alloc, options);
        builder.add(key.user, key.seq, key.kind, value)?;
        Ok(BegunTable { smallest, builder })
    }

    /// Adds an entry after the others, as `TableBuilder::add`. An `Err` leaves the table as it was.
    pub fn add(&mut self, key: &KeyRef<'_>, value: &[u8]) -> Result<(), BuildFault>
        requires ascends { Ascends
            (self.old.entries ++ entry_of (key_of key.now) value.now ∷ []) }
        ensures ok { OnOk result (self.new ≡ record self.old
            { entries = self.old.entries ++ entry_of (key_of key.now) value.now ∷ [] }) }
        ensures err { OnErr result (self.new ≡ self.old) }
        ensures large { result ≡ Err TooLarge → PassesLimit self.old.options self.old.entries
            (entry_of (key_of key.now) value.now) }
        ensures fits { OnOk result (PassesLimit self.old.options self.old.entries
            (entry_of (key_of key.now) value.now) → ⊥) }
    {
        self.builder.add(key.user, key.seq, key.kind, value)
    }

    /// The key of the last entry.
    pub fn last_key(&self) -> KeyRef<'_>
        ensures key { last_key self.now.entries ≡ Some (key_of result) }
        ensures ascends { Ascends self.now.entries }
    {
        match self.builder.last_key() {
            Some(key) => key,
            None => unreachable!(),
        }
    }

    /// How many bytes the finished data blocks have, as `TableBuilder::written`.
    pub fn written(&self) -> u64
        ensures { result ≡ length (written_bytes self.now.options self.now.entries) }
    {
        self.builder.written()
    }

    /// The image of the table of its entries. `TooLarge` just where the index block would pass 2^32
    /// - 1 bytes.
    pub fn finish(self, alloc: Global) -> Result<TableImage, BuildFault>
        ensures bytes { IfOk result (λ i. i.bytes ≡ table_bytes self.options self.entries) }
        ensures image { IfOk result (λ i. IsImage self.entries i.smallest i.largest i.bytes) }
        ensures large { result ≡ Err TooLarge → 2 ^ 32 ≤ length
            (index_block self.options.restart_interval (groups_by self.options self.entries)) }
        ensures fits { OnOk result (length (index_block self.options.restart_interval
            (groups_by self.options self.entries)) < 2 ^ 32) }
    {
        let largest = self.last_key().to_bytes(alloc)?;
        let BegunTable { smallest, builder } = self;
        let bytes = builder.finish()?;
        Ok(TableImage {
            smallest,
            largest,
            bytes,
        })
    }
}

/// The image of a table that was built, not yet put. Contracts see it as its bytes, with its first
/// and last internal key.
#[derive(Debug, Drop)]
pub struct TableImage {
    smallest: Bytes,
    largest: Bytes,
    bytes: Vec<u8>,
}

impl Model for TableImage {
    ghost use Rattle.lsm_table.specs.TableImage.{Imaged};

    ghost Value = { Imaged };

    ghost view = { λ i.
        record { smallest = i.smallest; largest = i.largest; bytes = i.bytes.items } };
}

impl TableImage {
    /// Puts the table on a shelf under a number, and gives what is to be pushed into the registry:
    /// for who has to note, before that can be refused, that the table was put. `put` does both.
    ///
    /// The refusals of `Shelf::put`.
    pub fn put_alone<N: Naming, S: Shelf, R: Wait>(
        self,
        rt: &R,
        alloc: Global,
        shelf: &mut NamedShelf<N, S>,
        number: u64,
    ) -> Result<TableRecord<S::Receipt>, ShelfFault>
        ensures number { IfOk result (λ r. S.Receipt.number r.receipt ≡ number) }
        ensures smallest { IfOk result (λ r. r.smallest ≡ self.smallest) }
        ensures largest { IfOk result (λ r. r.largest ≡ self.largest) }
        ensures image { IfOk result (λ r. S.Receipt.image r.receipt ≡ self.bytes) }
        ensures here { IfOk result (λ r. S.is_of N.place r.receipt) }
        ensures ok { OnOk result (Becomes (putting number self.bytes shelf.old) shelf.new) }
        ensures err { OnErr result (Becomes shelf.old shelf.new) }
        ensures refused { IfErr result (S.refuses N.place (Put number self.bytes)) }
        ensures cause { IfErr result (λ e. TakenIs number e × Counted e shelf.old shelf.new) }
        ensures counts { CountedBy result shelf.old shelf.new }
    {
        let TableImage {
            smallest,
            largest,
            bytes,
        } = self;
        let receipt = shelf.put(rt, alloc, number, &bytes)?;
        Ok(TableRecord {
            smallest,
            largest,
            receipt,
        })
    }

    /// Its first and its last internal key, and its bytes: for who puts it on no shelf.
    pub fn into_parts(self) -> (Bytes, Bytes, Vec<u8>)
        ensures smallest { result.0 ≡ self.smallest }
        ensures largest { result.1 ≡ self.largest }
        ensures bytes { result.2.items ≡ self.bytes }
    {
        let TableImage {
            smallest,
            largest,
            bytes,
        } = self;
        (smallest, largest, bytes)
    }

    /// Puts the table under a number, and then its record into the registry.
    ///
    /// The shelf's refusals: `Taken` where a table of this number is there; `Device`, after which
    /// the number may be listed or not; `OutOfMemory`, after which the table was put or not.
    #[tactic(auto, using(lsm_shelf::proofs::CallerLemmas::want_or))]
    pub fn put<N: Naming, S: Shelf, R: Wait>(
        self,
        rt: &R,
        alloc: Global,
        shelf: &mut NamedShelf<N, S>,
        registry: &Registry<N, S>,
        number: u64,
    ) -> Result<TableRef<N, S>, ShelfFault>
        ensures table { IfOk result (IsPutAs self number) }
        ensures told { OnOk result (Becomes (putting number self.bytes shelf.old) shelf.new) }
        ensures counts { OnOk result ((shelf.new.faults ≡ shelf.old.faults)
            × (shelf.new.misses ≡ shelf.old.misses)) }
        ensures refused { IfErr result (λ e. IsPutRefusal number self.bytes e shelf.old shelf.new) }
        ensures asked { IfErr result (IsWantOr (S.refuses N.place (Put number self.bytes))) }
    {
        let record = self.put_alone(rt, alloc, shelf, number)?;
        match registry.push(rt, record) {
            Ok(table) => Ok(table),
            Err(_record) => Err(ShelfFault::OutOfMemory),
        }
    }
}
