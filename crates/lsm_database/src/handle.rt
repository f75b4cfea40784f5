//! The calls on a database that is open.

ghost use Rattle.std.specs.Prelude.{IfErr, IfOk};
ghost use Rattle.std.specs.Option.{option_map};
ghost use Rattle.lsm_database.specs.Calls.{AnswersRead};
ghost use Rattle.lsm_database.specs.Databases.{ComesIn, Finds, IsUnread, Shows};
ghost use Rattle.lsm_database.specs.Databases.{StaysOut, seen};
ghost use Rattle.lsm_database.specs.Keeping.{CameIn};

use crate::asking::{AskedFor, Asking};
use crate::found::Found;
use crate::known::Known;
use crate::lent::{bring_in, find_in, scan_in};
use crate::wanted::Wanted;
use lsm_batch::Batch;
use lsm_history::Memory;
use lsm_query::Pair;
use lsm_reader::Cached;
use lsm_slots::Boarded;
use lsm_state::{Ingested, StateFault};
use lsm_store::{Background, Invariant, Store};
use lsm_table::{NamedShelf, ReadFault, Shelf};
use std::alloc::Global;
use std::sync::Wait;

/// A database that is open, while workers compact beside: the store, a shelf that it writes to, and
/// one from which it reads, and what it knows to have come in, which was asked for.
#[derive(Drop)]
pub(crate) struct Handle<'a, N: Boarded, S: Shelf, A: Asking, R: Wait>
where
    AskedFor<N, S, A>: Invariant,
{
    pub(crate) rt: &'a R,
    pub(crate) alloc: Global,
    pub(crate) store: &'a Store<N, S, AskedFor<N, S, A>>,
    pub(crate) background: &'a Background,
    pub(crate) shelf: NamedShelf<N, S>,
    pub(crate) blocks: Cached<N, S>,
    pub(crate) memory: Memory<N>,
    pub ghost asked: { ∥ CameIn A.asks A.found memory ∥₁ },
}

impl<'a, N: Boarded, S: Shelf, A: Asking, R: Wait> Known for Handle<'a, N, S, A, R> {
    ghost use Rattle.lsm_database.specs.Databases.{seen};

    ghost seen = { λ d. seen d.memory d.shelf d.blocks };

    ghost honest = { S.honest };

    ghost refuses = { S.refuses N.place };

    ghost found = { A.found };

    ghost asks = { A.asks };

    ghost asked = { λ d. d.asked };
}

impl<'a, N: Boarded, S: Shelf, A: Asking, R: Wait> Handle<'a, N, S, A, R> {
    // One try, after which the workers look again.
    fn try_write(&mut self, batch: &Batch) -> Result<Ingested, StateFault>
        requires asked { A.asks batch.now }
        ensures came { IfOk result (λ r. ComesIn batch.now r
            (seen self.old.memory self.old.shelf self.old.blocks)
            (seen self.new.memory self.new.shelf self.new.blocks)) }
        ensures refused { IfErr result (λ e. StaysOut (S.refuses N.place) batch.now e
            (seen self.old.memory self.old.shelf self.old.blocks)
            (seen self.new.memory self.new.shelf self.new.blocks)) }
    {
        let came = bring_in(
            &mut self.store.lock(self.rt).state,
            self.rt,
            self.alloc,
            &mut self.shelf,
            &mut self.memory,
            batch,
        );
        self.background.wake(self.rt);
        came
    }

    /// `Database::write`.
    pub(crate) fn write(&mut self, batch: &Batch) -> Result<Ingested, StateFault>
        requires asked { A.asks batch.now }
        ensures came { IfOk result (λ r. ComesIn batch.now r
            (seen self.old.memory self.old.shelf self.old.blocks)
            (seen self.new.memory self.new.shelf self.new.blocks)) }
        ensures refused { IfErr result (λ e. StaysOut (S.refuses N.place) batch.now e
            (seen self.old.memory self.old.shelf self.old.blocks)
            (seen self.new.memory self.new.shelf self.new.blocks)) }
    {
        match self.try_write(batch) {
            Err(StateFault::LevelZeroFull) => {
                self.background.wait_for_room(self.rt, self.store);
                self.try_write(batch)
            }
            came => came,
        }
    }

    /// `Database::get`.
    pub(crate) fn get(&mut self, key: &[u8]) -> Result<Option<Vec<u8>>, ReadFault>
        ensures found { IfOk result (λ v. Finds S.honest key.now (option_map (λ b. b.items) v)
            (seen self.old.memory self.old.shelf self.old.blocks)
            (seen self.new.memory self.new.shelf self.new.blocks)) }
        ensures refused { IfErr result (λ e. IsUnread S.honest (S.refuses N.place) e
            (seen self.old.memory self.old.shelf self.old.blocks)
            (seen self.new.memory self.new.shelf self.new.blocks)) }
    {
        find_in(
            &mut self.store.lock(self.rt).state,
            &mut self.memory,
            &mut self.blocks,
            self.alloc,
            key,
        )
    }

    /// `Database::scan`.
    pub(crate) fn scan(&mut self, from: &[u8], limit: usize) -> Result<Vec<Pair>, ReadFault>
        ensures shown { IfOk result (λ v. Shows S.honest from.now limit v.items
            (seen self.old.memory self.old.shelf self.old.blocks)
            (seen self.new.memory self.new.shelf self.new.blocks)) }
        ensures refused { IfErr result (λ e. IsUnread S.honest (S.refuses N.place) e
            (seen self.old.memory self.old.shelf self.old.blocks)
            (seen self.new.memory self.new.shelf self.new.blocks)) }
    {
        scan_in(
            &mut self.store.lock(self.rt).state,
            &mut self.memory,
            &mut self.blocks,
            self.alloc,
            from,
            limit,
        )
    }

    /// `Database::get` or `scan`.
    pub(crate) fn read(&mut self, key: &[u8], wanted: Wanted) -> Result<Found, ReadFault>
        ensures { AnswersRead S.honest (S.refuses N.place) key.now wanted result
            (seen self.old.memory self.old.shelf self.old.blocks)
            (seen self.new.memory self.new.shelf self.new.blocks) }
    {
        match wanted {
            Wanted::Value => match self.get(key) {
                Ok(value) => Ok(Found::Value(value)),
                Err(fault) => Err(fault),
            },
            Wanted::Pairs(limit) => match self.scan(key, limit) {
                Ok(pairs) => Ok(Found::Pairs(pairs)),
                Err(fault) => Err(fault),
            },
        }
    }
}
