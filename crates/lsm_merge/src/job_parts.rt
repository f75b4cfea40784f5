//! What a job is made of.

ghost use Rattle.std.specs.Prelude.{◌≡◌, ◌↔◌, IfOk, IsTrue};

use crate::copies::{again_all, copy_ranges};
use crate::sameness::{same_ranges, same_tables};
use lsm_codec::Bytes;
use lsm_table::{Naming, Registry, Shelf, TableOptions, TableRef};
use std::alloc::{AllocError, Global};
use std::marker::Model;

/// What a job is made of. Contracts see it as they see the job (`Work`).
pub struct JobParts<N: Naming, S: Shelf> {
    /// The ticket under which it is reserved.
    pub ticket: u64,
    /// The level of its upper inputs.
    pub level: usize,
    /// Its inputs of that level, in the level's order.
    pub upper: Vec<TableRef<N, S>>,
    /// Its inputs of the next level, in the level's order.
    pub lower: Vec<TableRef<N, S>>,
    /// The least user key of its inputs.
    pub low: Bytes,
    /// The greatest user key of its inputs.
    pub high: Bytes,
    /// The least sequence that reads still use.
    pub floor: u64,
    /// The user ranges of all files two or more levels below its level.
    pub ranges: Vec<(Bytes, Bytes)>,
    /// Whether its one input is only to change its level.
    pub is_move: bool,
    /// The sizes that its outputs are written with.
    pub table: TableOptions,
    /// An output is closed at the first change of user key after its finished data blocks reach
    /// this many bytes.
    pub target_size: u64,
}

impl<N: Naming, S: Shelf> Drop for JobParts<N, S> {
    fn drop(self) {
        let Self {
            ticket: _,
            level: _,
            upper: _,
            lower: _,
            low: _,
            high: _,
            floor: _,
            ranges: _,
            is_move: _,
            table: _,
            target_size: _,
        } = self;
    }
}

impl<N: Naming, S: Shelf> Model for JobParts<N, S> {
    ghost use Rattle.lsm_merge.specs.Work.{Work};

    ghost Value = { Work };

    ghost view = { λ j. record {
      ticket = j.ticket;
      level = j.level;
      upper = j.upper.items;
      lower = j.lower.items;
      low = j.low;
      high = j.high;
      floor = j.floor;
      ranges = j.ranges.items;
      is_move = j.is_move;
      table = j.table;
      target_size = j.target_size;
    } };
}

impl<N: Naming, S: Shelf> JobParts<N, S> {
    /// The same parts once more.
    pub(crate) fn try_copy(&self, alloc: Global) -> Result<JobParts<N, S>, AllocError>
        ensures { IfOk result (λ j. j ≡ self.now) }
    {
        Ok(JobParts {
            ticket: self.ticket,
            level: self.level,
            upper: again_all(alloc, self.upper.as_slice())?,
            lower: again_all(alloc, self.lower.as_slice())?,
            low: self.low.try_copy(alloc)?,
            high: self.high.try_copy(alloc)?,
            floor: self.floor,
            ranges: copy_ranges(alloc, self.ranges.as_slice())?,
            is_move: self.is_move,
            table: self.table,
            target_size: self.target_size,
        })
    }

    /// Whether all parts but the inputs are equal.
    fn same_but_inputs(&self, other: &JobParts<N, S>) -> bool
        ensures { IsTrue result
            ↔ (record self.now { upper = other.now.upper; lower = other.now.lower } ≡ other.now) }
    {
        self.ticket == other.ticket
            && self.level == other.level
            && self.low.as_slice() == other.low.as_slice()
            && self.high.as_slice() == other.high.as_slice()
            && self.floor == other.floor
            && same_ranges(self.ranges.as_slice(), other.ranges.as_slice())
            && self.is_move == other.is_move
            && self.table == other.table
            && self.target_size == other.target_size
    }

    /// Whether all parts are equal; tables are equal where they are one record of the registry.
    pub(crate) fn same(&self, registry: &Registry<N, S>, other: &JobParts<N, S>) -> bool
        ensures { IsTrue result ↔ (self.now ≡ other.now) }
    {
        self.same_but_inputs(other)
            && same_tables(registry, self.upper.as_slice(), other.upper.as_slice())
            && same_tables(registry, self.lower.as_slice(), other.lower.as_slice())
    }
}
