//! Editions that are remembered.

use crate::historied::Historied;
use crate::history::History;
use crate::view::View;
use atomic_table::Seat;
use std::marker::{Model, PhantomData};

/// Which editions of versions there were at some moment. Contracts see it as their list. It is of
/// the history of its name, and may lie with any thread.
#[derive(Drop)]
pub struct Catalogue<N: Historied> {
    pub(crate) seat: Seat<History, View>,
    pub(crate) of: PhantomData<N>,
}

impl<N: Historied> Model for Catalogue<N> {
    ghost use Rattle.std.specs.Prelude.{◌≡◌, List, []};
    ghost use Rattle.lsm_history.specs.History.{Edition};
    ghost use Rattle.lsm_history.specs.Rule.{remembering};

    ghost Value = { List Edition };

    ghost view = { λ m. m.seat.me.0.seen.editions };

    ghost invariant = { λ m. (m.seat.table_id ≡ N.history)
        × (m.seat.me ≡ (remembering m.seat.me.0.seen, [])) };
}
