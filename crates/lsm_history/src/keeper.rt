//! The end of a history that knows all of it.

ghost use Rattle.std.specs.Prelude.{◌≡◌, ◌++◌};
ghost use Rattle.lsm_history.specs.History.{IsLater};

use crate::catalogue::Catalogue;
use crate::historied::Historied;
use crate::history::History;
use crate::memory::Memory;
use crate::rule::Words;
use crate::steps::{Asks, Compares, Grows, Lists, Remembers};
use crate::view::View;
use atomic_table::Seat;
use std::marker::{Model, PhantomData};

/// The end of a history that knows all of it. Contracts see it as that: all entries that came in,
/// the latest batch first, and all editions of versions, the latest first.
pub struct Keeper<N: Historied> {
    pub(crate) table: Words,
    pub(crate) seat: Seat<History, View>,
    pub(crate) of: PhantomData<N>,
}

impl<N: Historied> Drop for Keeper<N> {
    fn drop(self) {
        let Self {
            table: _,
            seat: _,
            of: _,
        } = self;
    }
}

impl<N: Historied> Model for Keeper<N> {
    ghost use Rattle.std.specs.Prelude.{◌≡◌, ◌<◌, []};
    ghost use Rattle.lsm_history.specs.History.{Chronicle};
    ghost use Rattle.lsm_history.specs.Rule.{knowing};

    ghost Value = { Chronicle };

    ghost view = { λ k. record {
      entries = k.seat.me.0.seen.entries;
      editions = k.seat.me.0.seen.editions;
    } };

    ghost invariant = { λ k. (0 < k.table.shared.table_id.words)
        × (k.table.shared.table_id ≡ N.history)
        × (k.seat.table_id ≡ N.history)
        × (k.seat.me ≡ (knowing k.seat.me.0.seen, [])) };
}

impl<N: Historied> Keeper<N> {
    /// Entries come in, in front of all others. One atomic step, and no memory.
    pub fn grow(&mut self, new: &History)
        ensures { self.new ≡ record self.old { entries = new.now.entries ++ self.old.entries } }
    {
        let table = &self.table;
        table
            .shared
            .compare_exchange_with::<Grows>(&mut self.seat, 0, 0, 0, new);
    }

    /// Editions come in, in front of all others. One atomic step, and no memory.
    pub fn publish(&mut self, new: &History)
        ensures { self.new ≡ record self.old { editions = new.now.editions ++ self.old.editions } }
    {
        let table = &self.table;
        table
            .shared
            .compare_exchange_with::<Lists>(&mut self.seat, 0, 0, 0, new);
    }

    /// What the history is now, to be remembered.
    pub fn remember(&mut self) -> Memory<N>
        ensures seen { result ≡ self.old.entries }
        ensures same { self.new ≡ self.old }
    {
        let table = &self.table;
        let seat = table.shared.split_seat::<Remembers>(&mut self.seat);
        Memory {
            seat,
            of: PhantomData,
        }
    }

    /// Which editions there are now.
    pub fn catalogue(&mut self) -> Catalogue<N>
        ensures seen { result ≡ self.old.editions }
        ensures same { self.new ≡ self.old }
    {
        let table = &self.table;
        let seat = table.shared.split_seat::<Remembers>(&mut self.seat);
        Catalogue {
            seat,
            of: PhantomData,
        }
    }

    /// The history goes on from what was remembered. The memory is used up; `remember` behind it
    /// gives a later one.
    pub fn recall(&mut self, memory: Memory<N>)
        ensures later { IsLater self.old.entries memory }
        ensures same { self.new ≡ self.old }
    {
        let Memory { seat, of: _ } = memory;
        let table = &self.table;
        table.shared.join_seat::<Asks>(&mut self.seat, seat);
        table.shared.load::<Compares>(&mut self.seat, 0);
    }

    /// The editions go on from those of a catalogue, which is used up.
    pub fn consult(&mut self, catalogue: Catalogue<N>)
        ensures later { IsLater self.old.editions catalogue }
        ensures same { self.new ≡ self.old }
    {
        let Catalogue { seat, of: _ } = catalogue;
        let table = &self.table;
        table.shared.join_seat::<Asks>(&mut self.seat, seat);
        table.shared.load::<Compares>(&mut self.seat, 0);
    }
}
