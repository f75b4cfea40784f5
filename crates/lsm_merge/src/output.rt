//! An output in the making.

ghost use Rattle.std.specs.Prelude.{◌≡◌, [], ◌∷◌, ◌++◌, not, ◌&&◌, nat_le, IfOk, IfErr, OnOk};
ghost use Rattle.std.specs.Prelude.{OnErr};
ghost use Rattle.std.specs.Str.{bytes_eq};
ghost use Rattle.lsm_codec.specs.KeyRef.{key_of};
ghost use Rattle.lsm_block.specs.Block.{Ascends, entry_of};
ghost use Rattle.lsm_block.specs.declared.build_fault.BuildFault.TheVariants.{TooLarge};
ghost use Rattle.lsm_table.specs.Options.{AreInRange};
ghost use Rattle.lsm_table.specs.Table.{IsImage};
ghost use Rattle.lsm_table.specs.TableBuilding.{table_bytes};
ghost use Rattle.lsm_merge.specs.Cuts.{closes};
ghost use Rattle.lsm_merge.specs.Limits.{IsOverLimit};
ghost use Rattle.lsm_merge.specs.Work.{finished};

use lsm_codec::KeyRef;
use lsm_table::{BegunTable, BuildFault, TableImage, TableOptions};
use std::alloc::Global;
use std::marker::Model;

/// An output in the making: a table under its number, with an entry at least.
#[derive(Drop)]
pub(crate) struct Output {
    number: u64,
    table: BegunTable,
}

impl Model for Output {
    ghost use Rattle.lsm_merge.specs.Outputs.{Unfinished};

    ghost Value = { Unfinished };

    ghost view = { λ o.
        record { number = o.number; options = o.table.options; entries = o.table.entries } };
}

/// Whether an output may end with the one user key where another one follows: it has reached the
/// target, and they differ.
fn may_close(last: &[u8], user: &[u8], target: u64, written: u64) -> bool
    ensures { result ≡ (nat_le target written && not (bytes_eq last.now user.now)) }
{
    target <= written && last != user
}

impl Output {
    /// An output that begins with an entry.
    pub(crate) fn begin(
        alloc: Global,
        number: u64,
        options: TableOptions,
        key: &KeyRef<'_>,
        value: &[u8],
    ) -> Result<Output, BuildFault>
        requires { AreInRange options }
        ensures ok { IfOk result (λ o. o ≡ record {
          number = number;
          options = options;
          entries = entry_of (key_of key.now) value.now ∷ [];
        }) }
        ensures large { IfErr result (λ e. e ≡ TooLarge
            → IsOverLimit options (entry_of (key_of key.now) value.now ∷ [])) }
    {
        let table = BegunTable::begin(alloc, options, key, value)?;
        Ok(Output { number, table })
    }

    /// The number under which it will be put.
    pub(crate) fn number(&self) -> u64
        ensures { result ≡ self.now.number }
    {
        self.number
    }

    /// Tells that its entries ascend.
    pub(crate) fn tell_order(&self)
        ensures { Ascends self.now.entries }
    {
        // That they ascend is told by this call.
        let _last = self.table.last_key();
    }

    /// Adds an entry after the others. An `Err` leaves the output as it was.
    pub(crate) fn add(&mut self, key: &KeyRef<'_>, value: &[u8]) -> Result<(), BuildFault>
        requires { Ascends (self.old.entries ++ entry_of (key_of key.now) value.now ∷ []) }
        ensures ok { OnOk result (self.new ≡ record self.old
            { entries = self.old.entries ++ entry_of (key_of key.now) value.now ∷ [] }) }
        ensures err { OnErr result (self.new ≡ self.old) }
        ensures large { IfErr result (λ e. e ≡ TooLarge → IsOverLimit self.old.options
            (self.old.entries ++ entry_of (key_of key.now) value.now ∷ [])) }
    {
        self.table.add(key, value)
    }

    /// Whether it is closed before an entry of this user key: it ends with another one, and its
    /// finished data blocks reach the target.
    pub(crate) fn closes(&self, target: u64, user: &[u8]) -> bool
        ensures { result ≡ closes (finished self.now.options) target self.now.entries user.now }
    {
        may_close(
            self.table.last_key().user,
            user,
            target,
            self.table.written(),
        )
    }

    /// The image of the table of its entries.
    pub(crate) fn finish(self, alloc: Global) -> Result<TableImage, BuildFault>
        ensures bytes { IfOk result (λ i. i.bytes ≡ table_bytes self.options self.entries) }
        ensures image { IfOk result (λ i. IsImage self.entries i.smallest i.largest i.bytes) }
        ensures large { IfErr result (λ e. e ≡ TooLarge → IsOverLimit self.options self.entries) }
    {
        // That they ascend is told by this call.
        let _last = self.table.last_key();
        self.table.finish(alloc)
    }
}
