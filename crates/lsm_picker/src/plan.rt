//! The tables that a compaction would take.

ghost use Rattle.std.specs.Prelude.{◌≡◌, ◌≤◌};

use lsm_codec::Bytes;
use lsm_table::{Naming, Shelf, TableRef};
use std::marker::Model;

/// The tables that a compaction of a level, 0 to 5, would take there and at the next level, each
/// list in its level's order, and the hull: the least and the greatest user key of all of them.
#[derive(Drop)]
pub struct Plan<N: Naming, S: Shelf> {
    pub(crate) level: u8,
    pub(crate) upper: Vec<TableRef<N, S>>,
    pub(crate) lower: Vec<TableRef<N, S>>,
    pub(crate) low: Bytes,
    pub(crate) high: Bytes,
}

impl<N: Naming, S: Shelf> Model for Plan<N, S> {
    ghost use Rattle.std.specs.Prelude.{◌≤◌};
    ghost use Rattle.lsm_picker.specs.TablePlans.{TablePlan};

    ghost Value = { TablePlan };

    ghost view = { λ p. record {
      level = p.level;
      upper = p.upper.items;
      lower = p.lower.items;
      low = p.low;
      high = p.high;
    } };

    ghost invariant = { λ p. p.level ≤ 5 };
}

impl<N: Naming, S: Shelf> Plan<N, S> {
    /// The level from which the compaction starts; its outputs come to the next one.
    pub fn level(&self) -> u8
        ensures level { result ≡ self.now.level }
        ensures above_last { self.now.level ≤ 5 }
    {
        self.level
    }

    /// The inputs at the plan's level, in the level's order.
    pub fn upper(&self) -> &[TableRef<N, S>]
        ensures { result.now ≡ self.now.upper }
    {
        self.upper.as_slice()
    }

    /// The inputs at the next level, in the level's order.
    pub fn lower(&self) -> &[TableRef<N, S>]
        ensures { result.now ≡ self.now.lower }
    {
        self.lower.as_slice()
    }

    /// The least user key of the inputs.
    pub fn low(&self) -> &[u8]
        ensures { result.now ≡ self.now.low }
    {
        self.low.as_slice()
    }

    /// The greatest user key of the inputs.
    pub fn high(&self) -> &[u8]
        ensures { result.now ≡ self.now.high }
    {
        self.high.as_slice()
    }

    /// The inputs at the plan's level, those at the next one, and the hull.
    pub fn into_parts(self) -> (Vec<TableRef<N, S>>, Vec<TableRef<N, S>>, (Bytes, Bytes))
        ensures upper { result.0.items ≡ self.upper }
        ensures lower { result.1.items ≡ self.lower }
        ensures low { result.2.0 ≡ self.low }
        ensures high { result.2.1 ≡ self.high }
        ensures above_last { self.level ≤ 5 }
    {
        let Plan {
            level: _,
            upper,
            lower,
            low,
            high,
        } = self;
        (upper, lower, (low, high))
    }
}
