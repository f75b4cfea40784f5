//! A shelf that shows other bytes than lie below it.

ghost use Rattle.std.specs.Prelude.{◌≡◌};
ghost use Rattle.std.specs.Arc.{arc_value};
ghost use Rattle.lsm_mirror.specs.Shown.{shown_of, shown_told};

use crate::counts::Counts;
use crate::held_table::HeldTable;
use crate::mirroring::Mirroring;
use crate::view::View;
use lsm_shelf::Shelf;
use std::alloc::Global;
use std::marker::Model;
use std::sync::Arc;

/// A shelf that shows, of what lies on the shelf below, what the name `V` stands for: another
/// manifest, one table more, and the tables as plain ones. It writes nothing: a call that would
/// write is refused, and nothing is asked below.
///
/// It counts refusals by itself, and holds the plain tables that it made last, `MAX_HELD` at most.
/// Contracts see it as what its calls told it.
pub struct Mirror<V: Mirroring, S: Shelf> {
    pub(crate) shelf: S,
    pub(crate) view: Arc<View>,
    pub(crate) held: Vec<HeldTable<V, S>>,
    pub(crate) next: usize,
    pub(crate) counts: Counts,
}

impl<V: Mirroring, S: Shelf> Drop for Mirror<V, S> {
    fn drop(self) {
        let Self {
            shelf: _,
            view: _,
            held: _,
            next: _,
            counts: _,
        } = self;
    }
}

impl<V: Mirroring, S: Shelf> Model for Mirror<V, S> {
    ghost use Rattle.std.specs.Prelude.{◌≡◌};
    ghost use Rattle.std.specs.Arc.{arc_value};
    ghost use Rattle.lsm_shelf.specs.Told.{Told};
    ghost use Rattle.lsm_mirror.specs.Counts.{with_counts};
    ghost use Rattle.lsm_mirror.specs.Shown.{shown_of, shown_told};

    ghost Value = { Told };

    ghost view = { λ m. with_counts m.counts (shown_told V.shown (S.told m.shelf)) };

    ghost invariant = { λ m. ((S.told m.shelf).place ≡ V.place)
        × (shown_of (arc_value m.view) ≡ V.shown) };
}

impl<V: Mirroring, S: Shelf> Mirror<V, S> {
    /// What is shown of a shelf, whose counts go on.
    pub fn of(alloc: Global, shelf: S, view: Arc<View>) -> Mirror<V, S>
        requires place { (S.told shelf).place ≡ V.place }
        requires shown { shown_of (arc_value view) ≡ V.shown }
        ensures { result ≡ shown_told V.shown (S.told shelf) }
    {
        let (faults, misses) = shelf.failures();
        Mirror {
            shelf,
            view,
            held: Vec::new(alloc),
            next: 0,
            counts: Counts { faults, misses },
        }
    }

    /// The shelf below.
    pub fn into_shelf(self) -> S
        ensures told { self ≡ record (shown_told V.shown (S.told result))
            { faults = self.faults; misses = self.misses } }
        ensures place { (S.told result).place ≡ V.place }
    {
        let Self {
            shelf,
            view: _,
            held: _,
            next: _,
            counts: _,
        } = self;
        shelf
    }
}
