//! What a worker has to merge.

ghost use Rattle.std.specs.Prelude.{◌≡◌, ◌≤◌, ◌++◌, ◌↔◌, IfOk, IsTrue};
ghost use Rattle.lsm_codec.specs.Lists.{Has};
ghost use Rattle.lsm_table.specs.Options.{AreInRange};
ghost use Rattle.lsm_table.specs.Registry.{Table};
ghost use Rattle.lsm_version.specs.Versions.{IsWhole};
ghost use Rattle.lsm_merge.specs.Work.{IsWork, MovesOne};

use crate::job_parts::JobParts;
use lsm_codec::Bytes;
use lsm_table::{Naming, Registry, Shelf, TableOptions, TableRef};
use std::alloc::{AllocError, Global};
use std::marker::Model;

/// What a worker has to merge: tables of one level and of the next, with the rule by which entries
/// are dropped and the sizes of the outputs. Contracts see it as that (`Work`).
///
/// Its type keeps what a merge needs (`IsWork`): a level that has a next one, sizes in range, and
/// over an honest shelf tables that are whole.
pub struct Job<N: Naming, S: Shelf> {
    parts: JobParts<N, S>,
}

impl<N: Naming, S: Shelf> Drop for Job<N, S> {
    fn drop(self) {
        let Self { parts: _ } = self;
    }
}

impl<N: Naming, S: Shelf> Model for Job<N, S> {
    ghost use Rattle.lsm_merge.specs.Work.{IsWork, Work};

    ghost Value = { Work };

    ghost view = { λ j. j.parts };

    ghost invariant = { λ j. IsWork S.honest j.parts };
}

impl<N: Naming, S: Shelf> Job<N, S> {
    /// The job of these parts: its tables are those of a sound version, its sizes in the ranges of
    /// the options, and a move has one input, of its own level.
    pub fn of(parts: JobParts<N, S>) -> Job<N, S>
        requires low { parts.level ≤ 5 }
        requires in_range { AreInRange parts.table }
        requires whole { S.honest → (t : Table) → Has (parts.upper ++ parts.lower) t → IsWhole t }
        requires moves { MovesOne parts parts.is_move }
        ensures { result ≡ parts }
    {
        Job { parts }
    }

    /// The ticket under which it is reserved. What holds of every job is told here too.
    pub fn ticket(&self) -> u64
        ensures ticket { result ≡ self.now.ticket }
        ensures work { IsWork S.honest self.now }
    {
        self.parts.ticket
    }

    /// The level of its upper inputs, 0 to 5; its outputs go one level down.
    pub fn level(&self) -> usize
        ensures level { result ≡ self.now.level }
        ensures most { result ≤ 5 }
    {
        self.parts.level
    }

    /// Its inputs of its own level, in the level's order.
    pub fn upper(&self) -> &[TableRef<N, S>]
        ensures { result.now ≡ self.now.upper }
    {
        self.parts.upper.as_slice()
    }

    /// Its inputs of the next level, in the level's order.
    pub fn lower(&self) -> &[TableRef<N, S>]
        ensures { result.now ≡ self.now.lower }
    {
        self.parts.lower.as_slice()
    }

    /// The least user key of its inputs.
    pub fn low(&self) -> &[u8]
        ensures { result.now ≡ self.now.low }
    {
        self.parts.low.as_slice()
    }

    /// The greatest user key of its inputs.
    pub fn high(&self) -> &[u8]
        ensures { result.now ≡ self.now.high }
    {
        self.parts.high.as_slice()
    }

    /// The least sequence that reads still use.
    pub fn floor(&self) -> u64
        ensures { result ≡ self.now.floor }
    {
        self.parts.floor
    }

    /// The user ranges of all files two or more levels below its level.
    pub fn ranges(&self) -> &[(Bytes, Bytes)]
        ensures { result.now ≡ self.now.ranges }
    {
        self.parts.ranges.as_slice()
    }

    /// Whether its one input is only to change its level.
    pub fn is_move(&self) -> bool
        ensures { result ≡ self.now.is_move }
    {
        self.parts.is_move
    }

    /// The sizes that its outputs are written with.
    pub fn table(&self) -> TableOptions
        ensures table { result ≡ self.now.table }
        ensures in_range { AreInRange result }
    {
        self.parts.table
    }

    /// An output is closed at the first change of user key after its finished data blocks reach
    /// this many bytes.
    pub fn target_size(&self) -> u64
        ensures { result ≡ self.now.target_size }
    {
        self.parts.target_size
    }

    /// An equal job. `AllocError` where a growth was refused.
    pub fn try_copy(&self, alloc: Global) -> Result<Job<N, S>, AllocError>
        ensures { IfOk result (λ j. j ≡ self.now) }
    {
        Ok(Job {
            parts: self.parts.try_copy(alloc)?,
        })
    }

    /// Whether two jobs are equal in all parts; tables are equal where they are one record of the
    /// registry.
    pub fn same(&self, registry: &Registry<N, S>, other: &Job<N, S>) -> bool
        ensures { IsTrue result ↔ (self.now ≡ other.now) }
    {
        self.parts.same(registry, &other.parts)
    }
}
