//! Which tables stand at which level.

ghost use Rattle.std.specs.Prelude.{◌≡◌, ◌≤◌, ◌++◌, ℕ, List, length, map, get_or, None, IfOk};
ghost use Rattle.std.specs.Prelude.{OnErr, OnOk};
ghost use Rattle.std.specs.Arc.{arc_value};
ghost use Rattle.std.specs.Option.{option_map};
ghost use Rattle.lsm_version.specs.Versions.{IsSound, files_from, level_in, no_levels, numbers_in};

use lsm_codec::Bytes;
use lsm_table::{Naming, Registry, Shelf, TableRef};
use std::alloc::{AllocError, Global};
use std::marker::Model;
use std::sync::Arc;

/// The tables of the seven levels, the compaction pointers, and the last sequence. Over an honest
/// shelf it is sound: the levels are sorted, files of a level from 1 on lie in order of internal
/// keys, and a key's entries are newer the shallower they lie.
pub struct Version<N: Naming, S: Shelf> {
    pub(crate) registry: Arc<Registry<N, S>>,
    // Shared, since a scan may outlive its version.
    pub(crate) levels: Arc<Vec<Vec<TableRef<N, S>>>>,
    pub(crate) pointers: Vec<Option<Bytes>>,
    pub(crate) last: u64,
}

impl<N: Naming, S: Shelf> Drop for Version<N, S> {
    fn drop(self) {
        let Self {
            registry: _,
            levels: _,
            pointers: _,
            last: _,
        } = self;
    }
}

impl<N: Naming, S: Shelf> Model for Version<N, S> {
    ghost use Rattle.std.specs.Prelude.{◌≡◌, map, length};
    ghost use Rattle.std.specs.Arc.{arc_value};
    ghost use Rattle.lsm_version.specs.Versions.{AreInOrder, IsSound, Levels};

    ghost Value = { Levels };

    ghost view = { λ v. record {
      tables = map (λ l. l.items) (arc_value v.levels).items;
      pointers = v.pointers.items;
      last = v.last;
    } };

    ghost invariant = { λ v. (length (arc_value v.levels).items ≡ 7) × (length v.pointers.items ≡ 7)
        × AreInOrder (map (λ l. l.items) (arc_value v.levels).items)
        × (S.honest → IsSound record {
          tables = map (λ l. l.items) (arc_value v.levels).items;
          pointers = v.pointers.items;
          last = v.last;
        }) };
}

/// Appends the numbers of the tables of a level; where a growth was refused, of those before it.
fn push_level<N: Naming, S: Shelf>(
    registry: &Registry<N, S>,
    level: &[TableRef<N, S>],
    numbers: &mut Vec<u64>,
) -> Result<(), AllocError>
    ensures ok { OnOk result (numbers.new.items
        ≡ numbers.old.items ++ map (λ t. t.number) level.now) }
    ensures front { (more : List ℕ) × (numbers.new.items ≡ numbers.old.items ++ more) }
{
    for table in level {
        numbers.push(registry.record(table).number())?;
    }
    Ok(())
}

/// The same for the tables of all levels.
fn push_levels<N: Naming, S: Shelf>(
    registry: &Registry<N, S>,
    levels: &[Vec<TableRef<N, S>>],
    numbers: &mut Vec<u64>,
) -> Result<(), AllocError>
    ensures ok { OnOk result (numbers.new.items
        ≡ numbers.old.items ++ map (λ F. F.number) (files_from 0 (map (λ l. l.items) levels.now))) }
    ensures front { (more : List ℕ) × (numbers.new.items ≡ numbers.old.items ++ more) }
{
    for level in levels {
        push_level(registry, level.as_slice(), numbers)?;
    }
    Ok(())
}

impl<N: Naming, S: Shelf> Version<N, S> {
    ghost use Rattle.lsm_version.specs.Versions.{AreInOrder};

    /// The last sequence: no entry has a greater one. What holds of every version is told here too.
    pub fn last(&self) -> u64
        ensures last { result ≡ self.now.last }
        ensures levels { length self.now.tables ≡ 7 }
        ensures pointers { length self.now.pointers ≡ 7 }
        ensures order { AreInOrder self.now.tables }
        ensures sound { S.honest → IsSound self.now }
    {
        self.last
    }

    /// The tables of a level, 0 to 6, by smallest internal key, then number.
    pub fn level(&self, level: usize) -> &[TableRef<N, S>]
        requires { level ≤ 6 }
        ensures { result.now ≡ level_in self.now.tables level }
    {
        self.levels[level].as_slice()
    }

    /// The tables of the seven levels, each level as `level` gives it. What holds of every version
    /// is told here too.
    pub fn levels(&self) -> &[Vec<TableRef<N, S>>]
        ensures tables { map (λ l. l.items) result.now ≡ self.now.tables }
        ensures seven { length result.now ≡ 7 }
        ensures order { AreInOrder self.now.tables }
        ensures sound { S.honest → IsSound self.now }
    {
        self.levels.as_slice()
    }

    /// The same levels, for one that holds them beside the version.
    pub fn shared_levels(&self) -> &Arc<Vec<Vec<TableRef<N, S>>>>
        ensures tables { map (λ l. l.items) (arc_value result.now).items ≡ self.now.tables }
    {
        &self.levels
    }

    /// The registry, which has a record for each of the tables.
    pub fn registry(&self) -> &Registry<N, S> {
        &self.registry
    }

    /// The same registry, for one that holds it beside the version.
    pub fn shared_registry(&self) -> &Arc<Registry<N, S>> {
        &self.registry
    }

    /// The compaction pointer of a level, 0 to 6: an internal key, or none.
    pub fn pointer(&self, level: usize) -> Option<&[u8]>
        requires { level ≤ 6 }
        ensures { option_map (λ key. key.now) result ≡ get_or self.now.pointers level None }
    {
        match &self.pointers[level] {
            None => None,
            Some(key) => Some(key.as_slice()),
        }
    }

    /// The version of these tables, the levels 0 to 6, of the compaction pointers of these levels,
    /// and of this last sequence. `AllocError` where a growth was refused.
    pub fn of(
        alloc: Global,
        registry: Arc<Registry<N, S>>,
        levels: Vec<Vec<TableRef<N, S>>>,
        pointers: Vec<Option<Bytes>>,
        last: u64,
    ) -> Result<Version<N, S>, AllocError>
        requires levels { length levels.items ≡ 7 }
        requires pointers { length pointers.items ≡ 7 }
        requires order { AreInOrder (map (λ l. l.items) levels.items) }
        requires sound { S.honest → IsSound record {
          tables = map (λ l. l.items) levels.items;
          pointers = pointers.items;
          last = last;
        } }
        ensures { IfOk result (λ v. v ≡ record {
          tables = map (λ l. l.items) levels.items;
          pointers = pointers.items;
          last = last;
        }) }
    {
        Ok(Version {
            registry,
            levels: Arc::new(alloc, levels)?,
            pointers,
            last,
        })
    }

    /// A version without tables and pointers, whose last sequence is 0. `AllocError` where a growth
    /// was refused.
    pub fn empty(alloc: Global, registry: Arc<Registry<N, S>>) -> Result<Version<N, S>, AllocError>
        ensures { IfOk result (λ v. v ≡ no_levels) }
    {
        let levels = [
            Vec::new(alloc),
            Vec::new(alloc),
            Vec::new(alloc),
            Vec::new(alloc),
            Vec::new(alloc),
            Vec::new(alloc),
            Vec::new(alloc),
        ];
        let levels = Vec::from_array(alloc, levels)?;
        let pointers = Vec::from_array(alloc, [None, None, None, None, None, None, None])?;
        Ok(Version {
            registry,
            levels: Arc::new(alloc, levels)?,
            pointers,
            last: 0,
        })
    }

    /// Appends the numbers of all files, level by level, in the order of each level. Where a growth
    /// was refused the numbers are as before.
    pub fn push_numbers(&self, numbers: &mut Vec<u64>) -> Result<(), AllocError>
        ensures ok { OnOk result (numbers.new.items ≡ numbers.old.items ++ numbers_in self.now) }
        ensures err { OnErr result (numbers.new.items ≡ numbers.old.items) }
    {
        let before = numbers.len();
        let pushed = push_levels(&self.registry, self.levels.as_slice(), numbers);
        if pushed.is_err() {
            numbers.truncate(before);
        }
        pushed
    }
}
