//! Tables of a shared level.

ghost use Rattle.std.specs.Prelude.{◌≡◌, ◌≤◌, ◌<◌, length, map, take, drop, None, IfOk, IfSome};
ghost use Rattle.std.specs.Prelude.{MatchOption, []};
ghost use Rattle.lsm_table.specs.Registry.{image_of};
ghost use Rattle.lsm_model.specs.Checking.{level_in};
ghost use Rattle.lsm_iterators.specs.Runs.{IsFirst, once};

use crate::shared_levels::SharedLevels;
use lsm_table::{Naming, Registry, Shelf, TableRecord, TableRef};
use std::alloc::AllocError;
use std::marker::Model;

/// Tables of a shared level that lie behind one another. However many they are, it takes no memory
/// for each. Contracts see it as these tables.
pub struct Row<N: Naming, S: Shelf> {
    shared: SharedLevels<N, S>,
    level: usize,
    // The indices of the first table, and of the one behind the last.
    begin: usize,
    end: usize,
}

impl<N: Naming, S: Shelf> Drop for Row<N, S> {
    fn drop(self) {
        let Self {
            shared: _,
            level: _,
            begin: _,
            end: _,
        } = self;
    }
}

impl<N: Naming, S: Shelf> Model for Row<N, S> {
    ghost use Rattle.std.specs.Prelude.{◌≤◌, ◌<◌, List, length, take, drop};
    ghost use Rattle.lsm_table.specs.Registry.{Table};
    ghost use Rattle.lsm_model.specs.Checking.{level_in};

    ghost Value = { List Table };

    ghost view = { λ r. drop r.begin (take r.end (level_in r.shared r.level)) };

    ghost invariant = { λ r. (r.level < length r.shared) × (r.begin ≤ r.end)
        × (r.end ≤ length (level_in r.shared r.level)) };
}

/// How many tables at the front have one number.
fn same_front<N: Naming, S: Shelf>(registry: &Registry<N, S>, tables: &[TableRef<N, S>]) -> usize
    ensures inside { result ≤ length tables.now }
    ensures rest { once None (drop result tables.now) ≡ drop 1 (once None tables.now) }
{
    let Some(first) = tables.first() else {
        return 0;
    };
    let number = registry.record(first).number();
    let mut count = 1;
    while count < tables.len() && registry.record(&tables[count]).number() == number {
        count += 1;
    }
    count
}

impl<N: Naming, S: Shelf> Row<N, S> {
    /// The tables of a level from one index on, up to another. `AllocError` where the levels have
    /// as many owners as can be counted.
    pub fn of(
        levels: &SharedLevels<N, S>,
        level: usize,
        begin: usize,
        end: usize,
    ) -> Result<Row<N, S>, AllocError>
        requires level { level < length levels.now }
        requires order { begin ≤ end }
        requires inside { end ≤ length (level_in levels.now level) }
        ensures { IfOk result (λ r. r ≡ drop begin (take end (level_in levels.now level))) }
    {
        Ok(Row {
            shared: levels.share()?,
            level,
            begin,
            end,
        })
    }

    /// The registry, which has a record for each of the tables.
    pub fn registry(&self) -> &Registry<N, S> {
        self.shared.registry()
    }

    /// The tables.
    pub fn tables(&self) -> &[TableRef<N, S>]
        ensures { result.now ≡ self.now }
    {
        &self.shared.level(self.level)[self.begin..self.end]
    }

    /// Lets go of the first tables.
    pub fn skip(&mut self, count: usize)
        requires { count ≤ length self.old }
        ensures { self.new ≡ drop count self.old }
    {
        self.begin += count;
    }

    /// The record of the first table, if there is one.
    pub(crate) fn first(&self) -> Option<&TableRecord<S::Receipt>>
        ensures image { MatchOption result (self.now ≡ []) (λ r.
            IsFirst (S.Receipt.image r.now.receipt) (map image_of (once None self.now))) }
        ensures number { IfSome result (λ r.
            IsFirst (S.Receipt.number r.now.receipt) (map (λ t. t.number) (once None self.now))) }
        ensures here { IfSome result (λ r. S.is_of N.place r.now.receipt) }
    {
        match self.tables().first() {
            None => None,
            Some(table) => Some(self.registry().record(table)),
        }
    }

    /// Lets go of the first table, and of those behind it that have its number.
    pub(crate) fn pass(&mut self)
        ensures { once None self.new ≡ drop 1 (once None self.old) }
    {
        let count = same_front(self.registry(), self.tables());
        self.skip(count);
    }
}
