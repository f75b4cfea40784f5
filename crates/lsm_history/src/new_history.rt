//! A history that has no name yet.

ghost use Rattle.std.specs.Prelude.{◌≡◌, ◌<◌, []};
ghost use Rattle.lsm_history.specs.Rule.{knowing, nothing};

use crate::historied::Historied;
use crate::history::History;
use crate::keeper::Keeper;
use crate::rule::Words;
use crate::view::View;
use atomic_table::{Seat, Table};
use std::alloc::{AllocError, Global};
use std::marker::PhantomData;

/// A history that has no name yet, no entry and no edition. Who picks a name for it, so that the
/// name's history is this table, gets its keeper.
#[derive(Drop)]
pub struct NewHistory {
    table: Words,
    seat: Seat<History, View>,
    pub ghost words: { 0 < table.shared.table_id.words },
    pub ghost seated: { seat.table_id ≡ table.shared.table_id },
    pub ghost knows: { seat.me ≡ (knowing nothing, []) },
}

impl NewHistory {
    /// A history without entries and editions.
    pub fn new(alloc: Global) -> Result<NewHistory, AllocError> {
        let (table, seat) = Table::of_words(alloc, &[0], &())?;
        Ok(NewHistory { table, seat })
    }

    /// Its keeper, under a name.
    pub fn named<N: Historied>(self) -> Keeper<N>
        requires { self.table.shared.table_id ≡ N.history }
        ensures { result ≡ record { entries = []; editions = [] } }
    {
        let NewHistory { table, seat } = self;
        Keeper {
            table,
            seat,
            of: PhantomData,
        }
    }
}
