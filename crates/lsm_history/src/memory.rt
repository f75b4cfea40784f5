//! What is remembered of a history.

use crate::historied::Historied;
use crate::history::History;
use crate::view::View;
use atomic_table::Seat;
use std::marker::{Model, PhantomData};

/// What a history was when it was remembered. Contracts see it as that. It is of the history of its
/// name, and may lie with any thread.
#[derive(Drop)]
pub struct Memory<N: Historied> {
    pub(crate) seat: Seat<History, View>,
    pub(crate) of: PhantomData<N>,
}

impl<N: Historied> Model for Memory<N> {
    ghost use Rattle.std.specs.Prelude.{◌≡◌, List, []};
    ghost use Rattle.lsm_codec.specs.Entries.{Entry};
    ghost use Rattle.lsm_history.specs.Rule.{remembering};

    ghost Value = { List Entry };

    ghost view = { λ m. m.seat.me.0.seen.entries };

    ghost invariant = { λ m. (m.seat.table_id ≡ N.history)
        × (m.seat.me ≡ (remembering m.seat.me.0.seen, [])) };
}
