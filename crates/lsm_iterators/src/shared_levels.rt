//! Levels that are shared.

ghost use Rattle.std.specs.Prelude.{◌≡◌, ◌<◌, length, map, IfOk};
ghost use Rattle.std.specs.Arc.{arc_value};
ghost use Rattle.lsm_model.specs.Checking.{level_in};

use lsm_table::{Naming, Registry, Shelf, TableRef};
use std::alloc::AllocError;
use std::marker::Model;
use std::sync::Arc;

/// The tables of levels, with their registry, which others may hold too, as a version does.
/// Contracts see the tables of each level.
pub struct SharedLevels<N: Naming, S: Shelf> {
    registry: Arc<Registry<N, S>>,
    levels: Arc<Vec<Vec<TableRef<N, S>>>>,
}

impl<N: Naming, S: Shelf> Drop for SharedLevels<N, S> {
    fn drop(self) {
        let Self {
            registry: _,
            levels: _,
        } = self;
    }
}

impl<N: Naming, S: Shelf> Model for SharedLevels<N, S> {
    ghost use Rattle.std.specs.Prelude.{List, map};
    ghost use Rattle.std.specs.Arc.{arc_value};
    ghost use Rattle.lsm_table.specs.Registry.{Table};

    ghost Value = { List (List Table) };

    ghost view = { λ s. map (λ l. l.items) (arc_value s.levels).items };
}

impl<N: Naming, S: Shelf> SharedLevels<N, S> {
    /// These levels.
    pub fn of(
        registry: Arc<Registry<N, S>>,
        levels: Arc<Vec<Vec<TableRef<N, S>>>>,
    ) -> SharedLevels<N, S>
        ensures { result ≡ map (λ l. l.items) (arc_value levels).items }
    {
        SharedLevels { registry, levels }
    }

    /// The same levels once more. `AllocError` where they have as many owners as can be counted.
    pub fn share(&self) -> Result<SharedLevels<N, S>, AllocError>
        ensures { IfOk result (λ s. s ≡ self.now) }
    {
        Ok(SharedLevels {
            registry: Arc::try_clone(&self.registry)?,
            levels: Arc::try_clone(&self.levels)?,
        })
    }

    /// The registry, which has a record for each of the tables.
    pub fn registry(&self) -> &Registry<N, S> {
        &self.registry
    }

    /// How many levels there are.
    pub fn count(&self) -> usize
        ensures { result ≡ length self.now }
    {
        self.levels.len()
    }

    /// The tables of a level.
    pub fn level(&self, level: usize) -> &[TableRef<N, S>]
        requires { level < length self.now }
        ensures { result.now ≡ level_in self.now level }
    {
        self.levels[level].as_slice()
    }
}
