//! A database whose calls are closures.

ghost use Rattle.std.specs.Prelude.{◌≡◌, List};
ghost use Rattle.lsm_batch.specs.declared.write.Write.{Write};
ghost use Rattle.lsm_database.specs.Calls.{AnswersRead, AnswersWrite};
ghost use Rattle.lsm_database.specs.Databases.{IsUntold};
ghost use Rattle.lsm_database.specs.Keeping.{HasSaid};

use crate::batches::{delete_of, put_of};
use crate::database::Database;
use crate::found::Found;
use crate::known::Known;
use crate::program::Program;
use crate::wanted::Wanted;
use lsm_batch::Batch;
use lsm_query::Pair;
use lsm_state::{Ingested, StateFault};
use lsm_table::ReadFault;
use std::alloc::Global;

/// A database whose calls are closures over what they work on. The toolchain proves no call of what
/// locks in a trait's impl; here there is none.
#[derive(Drop)]
struct Served<
    I: Known,
    W: Fn(&mut I, &Batch) -> Result<Ingested, StateFault> + Drop,
    G: Fn(&mut I, &[u8], Wanted) -> Result<Found, ReadFault> + Drop,
> {
    alloc: Global,
    inner: I,
    write: W,
    read: G,
}

impl<
    I: Known,
    W: Fn(&mut I, &Batch) -> Result<Ingested, StateFault> + Drop,
    G: Fn(&mut I, &[u8], Wanted) -> Result<Found, ReadFault> + Drop,
> Database for Served<I, W, G> {
    ghost use Rattle.lsm_database.specs.Calls.{AnswersRead, AnswersWrite};

    ghost seen = { λ s. I.seen s.inner };

    ghost honest = { I.honest };

    ghost refuses = { I.refuses };

    ghost found = { I.found };

    ghost asks = { I.asks };

    ghost ready = { λ s.
        (((x : _) (b : _) → I.asks b.now → W.pre s.write x b)
        × ((x : _) (b : _) (r : _) (y : _) → W.post s.write x b r y
        → AnswersWrite I.refuses b.now r (I.seen x.now) (I.seen y.now)))
        × (G.IsAlwaysCallable s.read
        × ((x : _) (k : _) (w : _) (r : _) (y : _) → G.post s.read x k w r y
        → AnswersRead I.honest I.refuses k.now w r (I.seen x.now) (I.seen y.now))) };

    fn put(&mut self, key: &[u8], value: &[u8]) -> Result<Ingested, StateFault> {
        let batch = put_of(self.alloc, key, value)?;
        (self.write)(&mut self.inner, &batch)
    }

    fn delete(&mut self, key: &[u8]) -> Result<Ingested, StateFault> {
        let batch = delete_of(self.alloc, key)?;
        (self.write)(&mut self.inner, &batch)
    }

    fn write(&mut self, batch: &Batch) -> Result<Ingested, StateFault> {
        (self.write)(&mut self.inner, batch)
    }

    fn get(&mut self, key: &[u8]) -> Result<Option<Vec<u8>>, ReadFault> {
        match (self.read)(&mut self.inner, key, Wanted::Value) {
            Ok(Found::Value(value)) => Ok(value),
            Ok(Found::Pairs(_)) => unreachable!(),
            Err(fault) => Err(fault),
        }
    }

    fn scan(&mut self, from: &[u8], limit: usize) -> Result<Vec<Pair>, ReadFault> {
        match (self.read)(&mut self.inner, from, Wanted::Pairs(limit)) {
            Ok(Found::Pairs(pairs)) => Ok(pairs),
            Ok(Found::Value(_)) => unreachable!(),
            Err(fault) => Err(fault),
        }
    }
}

/// Runs a program on a database whose calls are these closures over what they work on.
pub(crate) fn run_served<
    I: Known,
    W: Fn(&mut I, &Batch) -> Result<Ingested, StateFault> + Drop,
    G: Fn(&mut I, &[u8], Wanted) -> Result<Found, ReadFault> + Drop,
    P: Program,
>(alloc: Global, inner: I, write: W, read: G, program: P) -> P::Answer
    requires write { ((x : _) (b : _) → I.asks b.now → W.pre write x b)
        × ((x : _) (b : _) (r : _) (y : _) → W.post write x b r y
        → AnswersWrite I.refuses b.now r (I.seen x.now) (I.seen y.now)) }
    requires read { G.IsAlwaysCallable read
        × ((x : _) (k : _) (w : _) (r : _) (y : _) → G.post read x k w r y
        → AnswersRead I.honest I.refuses k.now w r (I.seen x.now) (I.seen y.now)) }
    requires asks { (ws : List Write) → P.asks program I.honest (I.seen inner).known ws
        → I.asks ws }
    requires found { (I.seen inner).known ≡ I.found.history }
    requires untold { IsUntold (I.seen inner) }
    ensures said { HasSaid I.asks I.found (λ es.
        P.says program I.honest (I.seen inner).known es result) }
{
    let mut database = Served {
        alloc,
        inner,
        write,
        read,
    };
    program.run(&mut database)
}
