//! The tables of a run that are to come.

ghost use Rattle.std.specs.Prelude.{◌≡◌, All, map, drop, None, IfSome, MatchOption, []};
ghost use Rattle.lsm_table.specs.Registry.{image_of};
ghost use Rattle.lsm_iterators.specs.Runs.{IsFirst, once};

use crate::row::Row;
use lsm_table::{Naming, Shelf};
use std::alloc::Global;
use std::collections::VecDeque;
use std::marker::Model;

/// What stands for the tables of a run that are to come: a row, of which tables of one number
/// behind one another are one; or receipts. Contracts see their numbers and images.
pub(crate) struct Later<N: Naming, S: Shelf> {
    row: Option<Row<N, S>>,
    // None where there is a row.
    receipts: VecDeque<S::Receipt>,
}

impl<N: Naming, S: Shelf> Drop for Later<N, S> {
    fn drop(self) {
        let Self {
            row: _,
            receipts: _,
        } = self;
    }
}

impl<N: Naming, S: Shelf> Model for Later<N, S> {
    ghost use Rattle.std.specs.Prelude.{All, map};
    ghost use Rattle.lsm_iterators.specs.Runs.{Awaited, awaited};

    ghost Value = { Awaited };

    ghost view = { λ l. awaited (map S.Receipt.number l.receipts.items)
        (map S.Receipt.image l.receipts.items) l.row };

    ghost invariant = { λ l. All (S.is_of N.place) l.receipts.items };
}

impl<N: Naming, S: Shelf> Later<N, S> {
    /// Those of these receipts.
    pub(crate) fn of_receipts(receipts: VecDeque<S::Receipt>) -> Later<N, S>
        requires named { All (S.is_of N.place) receipts.items }
        ensures numbers { result.numbers ≡ map S.Receipt.number receipts.items }
        ensures images { result.images ≡ map S.Receipt.image receipts.items }
    {
        Later {
            row: None,
            receipts,
        }
    }

    /// Those of this row. It takes no memory.
    pub(crate) fn of_row(alloc: Global, row: Row<N, S>) -> Later<N, S>
        ensures numbers { result.numbers ≡ map (λ t. t.number) (once None row) }
        ensures images { result.images ≡ map image_of (once None row) }
    {
        Later {
            row: Some(row),
            receipts: VecDeque::new(alloc),
        }
    }

    /// The receipt of the first, if there is one.
    pub(crate) fn first(&self) -> Option<&S::Receipt>
        ensures image { MatchOption result (self.now.images ≡ []) (λ r.
            IsFirst (S.Receipt.image r.now) self.now.images) }
        ensures number { IfSome result (λ r. IsFirst (S.Receipt.number r.now) self.now.numbers) }
        ensures here { IfSome result (λ r. S.is_of N.place r.now) }
    {
        match &self.row {
            None => self.receipts.front(),
            Some(row) => match row.first() {
                None => None,
                Some(record) => Some(&record.receipt),
            },
        }
    }

    /// Lets go of the first, if there is one.
    pub(crate) fn pass(&mut self)
        ensures numbers { self.new.numbers ≡ drop 1 self.old.numbers }
        ensures images { self.new.images ≡ drop 1 self.old.images }
    {
        match &mut self.row {
            None => {
                let _passed = self.receipts.pop_front();
            }
            Some(row) => row.pass(),
        }
    }
}
