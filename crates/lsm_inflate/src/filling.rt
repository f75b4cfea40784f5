//! The plain table in the making.

ghost use Rattle.std.specs.Prelude.{◌≡◌, ℕ, List, [], ◌∷◌, ◌++◌, IfOk};
ghost use Rattle.std.specs.Option.{option_map};
ghost use Rattle.lsm_codec.specs.KeyRef.{key_of};
ghost use Rattle.lsm_block.specs.Block.{Ascends, entry_of};
ghost use Rattle.lsm_table.specs.Options.{AreInRange};
ghost use Rattle.lsm_inflate.specs.Filling.{plain_bytes};
ghost use Rattle.lsm_inflate.specs.PackedReading.{added_at, finished_at, lies, put_at};
ghost use Rattle.lsm_inflate.specs.PackedTable.{IsPlain};
ghost use Rattle.lsm_inflate.specs.Reading.{Gives, Leaves};

use crate::inflate_fault::InflateFault;
use crate::plain_table::PlainTable;
use lsm_codec::{Bytes, KeyRef};
use lsm_table::{TableBuilder, TableFault, TableOptions};
use std::alloc::Global;
use std::marker::Model;

/// A plain table in the making, with the key of its first entry. Contracts see it as its options
/// and the entries that were added.
#[derive(Drop)]
pub(crate) struct Filling {
    alloc: Global,
    smallest: Option<Bytes>,
    builder: TableBuilder,
}

impl Model for Filling {
    ghost use Rattle.lsm_inflate.specs.Filling.{IsFirst};
    ghost use Rattle.lsm_table.specs.TableMaking.{Making};

    ghost Value = { Making };

    ghost view = { λ f. f.builder };

    ghost invariant = { λ f. IsFirst f.smallest f.builder.entries };
}

/// Whether a key lies after the index key before its data block, where there is one, and not behind
/// the block's own.
fn is_placed(bound: Option<KeyRef<'_>>, last: &KeyRef<'_>, key: &KeyRef<'_>) -> bool
    ensures { (value : List ℕ) → result ≡ lies (option_map key_of bound.entry) (key_of last.now)
        (entry_of (key_of key.now) value) }
{
    match bound {
        Some(before) => before.compare(key).is_lt() && key.compare(last).is_le(),
        None => key.compare(last).is_le(),
    }
}

impl Filling {
    /// A table without entries.
    pub(crate) fn new(alloc: Global, options: TableOptions) -> Filling
        requires { AreInRange options }
        ensures { result ≡ record { options = options; entries = [] } }
    {
        Filling {
            alloc,
            smallest: None,
            builder: TableBuilder::new(alloc, options),
        }
    }

    /// Adds an entry, which has to come after the others.
    fn add(&mut self, key: &KeyRef<'_>, value: &[u8]) -> Result<(), InflateFault>
        requires ascends { Ascends (self.old.entries ++ entry_of (key_of key.now) value.now ∷ []) }
        ensures options { self.new.options ≡ self.old.options }
        ensures left { Leaves result self.new.entries (added_at self.old.options self.old.entries
            (entry_of (key_of key.now) value.now)) }
    {
        if self.smallest.is_none() {
            let smallest = key.to_bytes(self.alloc)?;
            self.builder.add(key.user, key.seq, key.kind, value)?;
            self.smallest = Some(smallest);
            return Ok(());
        }
        self.builder.add(key.user, key.seq, key.kind, value)?;
        Ok(())
    }

    /// Adds an entry of a data block that lies behind the index key `bound` and not behind `last`.
    #[tactic(auto, unfolding(crate::specs::PackedReading::put_at))]
    pub(crate) fn put(
        &mut self,
        bound: Option<KeyRef<'_>>,
        last: &KeyRef<'_>,
        key: &KeyRef<'_>,
        value: &[u8],
    ) -> Result<(), InflateFault>
        ensures options { self.new.options ≡ self.old.options }
        ensures left { Leaves result self.new.entries (put_at self.old.options
            (option_map key_of bound.entry) (key_of last.now) self.old.entries
            (entry_of (key_of key.now) value.now)) }
    {
        if !is_placed(bound, last, key) || !self.builder.comes_last(key) {
            return Err(InflateFault::Table(TableFault::BadIndex));
        }
        self.add(key, value)
    }

    /// The table, if it has an entry.
    #[tactic(auto, unfolding(crate::specs::PackedReading::finished_at))]
    pub(crate) fn finish(self) -> Result<Option<PlainTable>, InflateFault>
        ensures plain { IfOk result (IsPlain self.entries) }
        ensures bytes { Gives plain_bytes result (finished_at self.options self.entries) }
    {
        let Filling {
            alloc,
            smallest,
            builder,
        } = self;
        let Some(smallest) = smallest else {
            return Ok(None);
        };
        let Some(last) = builder.last_key() else {
            return Ok(None);
        };
        let largest = last.to_bytes(alloc)?;
        let bytes = builder.finish()?;
        Ok(Some(PlainTable {
            smallest,
            largest,
            bytes,
        }))
    }
}
