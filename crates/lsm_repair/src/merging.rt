//! The entries of several tables, as one table.

ghost use Rattle.std.specs.Prelude.{◌≡◌, ◌∷◌, [], ◌++◌, ◌⊎◌, ◌+◌, ◌≤◌, ℕ, List, Some, false, true};
ghost use Rattle.std.specs.Prelude.{length, max, IfErr, IfOk, OnOk};
ghost use Rattle.std.specs.List.Sorted.{IsPermutation};
ghost use Rattle.std.specs.Ordering.{is_lt};
ghost use Rattle.lsm_codec.specs.Entries.{entry_cmp};
ghost use Rattle.lsm_codec.specs.KeyRef.{key_of};
ghost use Rattle.lsm_codec.specs.Keys.{InternalKey, key_cmp};
ghost use Rattle.lsm_block.specs.Block.{Ascends, entry_of};
ghost use Rattle.lsm_block.specs.Building.{last_key};
ghost use Rattle.lsm_table.specs.Options.{AreInRange};
ghost use Rattle.lsm_table.specs.TableBuilding.{PassesLimit};
ghost use Rattle.lsm_repair.specs.Merging.{AddsOnce, AreOrdered, IsBuilt, IsMerged, IsTop};
ghost use Rattle.lsm_repair.specs.Merging.{IsUnadded, IsUnbuilt, IsUnmerged};
ghost use Rattle.lsm_repair.specs.declared.mend_fault.MendFault.TheVariants.{OutOfMemory, TooLarge};

use crate::kept_entry::KeptEntry;
use crate::mend_fault::MendFault;
use lsm_codec::KeyRef;
use lsm_table::{BegunTable, TableImage, TableOptions};
use std::alloc::{AllocError, Global};

/// The table of entries, not yet put; its greatest sequence, and how many entries it has.
#[derive(Drop)]
pub(crate) struct Merged {
    pub(crate) image: TableImage,
    pub(crate) last: u64,
    pub(crate) count: u64,
}

/// The entries in the order of tables.
fn in_order(mut entries: Vec<KeptEntry>) -> Result<Vec<KeptEntry>, AllocError>
    ensures order { IfOk result (λ v. AreOrdered v.items) }
    ensures same { IfOk result (λ v. IsPermutation entries.items v.items) }
{
    entries.sort_by(|a, b| a.key().compare(&b.key()))?;
    Ok(entries)
}

/// Whether an entry of this key comes behind those of the table.
fn comes_last(table: &BegunTable, key: &KeyRef<'_>) -> bool
    ensures ascends { result ≡ true → (value : List ℕ)
        → Ascends (table.now.entries ++ entry_of (key_of key.now) value ∷ []) }
    ensures later { (last : InternalKey) → last_key table.now.entries ≡ Some last
        → result ≡ is_lt (key_cmp last (key_of key.now)) }
{
    let order = table.last_key().compare(key);
    order.is_lt()
}

/// Adds an entry behind the one that was added last, or that is there already; answers how many
/// entries came to the table. One of the same internal key with another value is refused.
fn add(table: &mut BegunTable, top: &KeptEntry, entry: &KeptEntry) -> Result<u64, MendFault>
    requires top { IsTop table.old.entries top.now }
    requires order { is_lt (entry_cmp entry.now.entry top.now.entry) ≡ false }
    ensures added { OnOk result
        (AddsOnce top.now entry.now table.old.entries table.new.entries) }
    ensures counted { IfOk result (λ more.
        length table.new.entries ≡ length table.old.entries + more) }
    ensures few { IfOk result (λ more. more ≤ 1) }
    ensures options { OnOk result (table.new.options ≡ table.old.options) }
    ensures refused { IfErr result
        (IsUnadded table.old.options table.old.entries top.now entry.now) }
{
    let key = entry.key();
    let value = entry.value();
    let later = comes_last(&*table, &key);
    if later {
        return match table.add(&key, value) {
            Ok(()) => Ok(1),
            Err(fault) => Err(MendFault::of_build(fault)),
        };
    }
    let before = top.value();
    if before == value {
        return Ok(0);
    }
    let first = top.number();
    let second = entry.number();
    Err(MendFault::TwoValues(first, second))
}

/// The table of one entry.
fn begin(alloc: Global, options: TableOptions, one: &KeptEntry) -> Result<BegunTable, MendFault>
    requires options { AreInRange options }
    ensures begun { IfOk result (λ t.
        t ≡ record { options = options; entries = one.now.entry ∷ [] }) }
    ensures refused { IfErr result (λ e. (e ≡ OutOfMemory)
        ⊎ ((e ≡ TooLarge) × PassesLimit options [] one.now.entry)) }
{
    match BegunTable::begin(alloc, options, &one.key(), one.value()) {
        Ok(table) => Ok(table),
        Err(fault) => Err(MendFault::of_build(fault)),
    }
}

/// The greatest sequence of the entries of a table, and how many they are.
#[derive(Clone, Copy, Drop)]
struct Totals {
    last: u64,
    count: u64,
}

impl Totals {
    /// With one entry more, of this sequence, where the table grew by so many. No memory holds so
    /// many that they can't be counted.
    fn with(self, seq: u64, more: u64) -> Result<Totals, AllocError>
        ensures { IfOk result (λ t.
            t ≡ record { last = max self.last seq; count = self.count + more }) }
    {
        let Some(count) = self.count.checked_add(more) else {
            return Err(AllocError);
        };
        Ok(Totals {
            last: self.last.max(seq),
            count,
        })
    }
}

/// Adds these entries, which are in the order of tables behind the first one, each once.
fn add_all(
    table: &mut BegunTable,
    one: &KeptEntry,
    others: &[KeptEntry],
) -> Result<Totals, MendFault>
    requires begun { table.old.entries ≡ one.now.entry ∷ [] }
    requires order { AreOrdered (one.now ∷ others.now) }
    ensures built { IfOk result (λ t.
        IsBuilt (one.now ∷ others.now) table.new.entries t.last t.count) }
    ensures options { OnOk result (table.new.options ≡ table.old.options) }
    ensures refused { IfErr result (IsUnbuilt table.old.options (one.now ∷ others.now)) }
{
    let mut top = one;
    let begun = one.sequence();
    let mut totals = Totals {
        last: begun,
        count: 1,
    };
    for entry in others {
        let more = add(table, top, entry)?;
        let own = entry.sequence();
        totals = totals.with(own, more)?;
        top = entry;
    }
    Ok(totals)
}

/// The table of these entries, which are in the order of tables behind the first one: each once.
fn build_from(
    alloc: Global,
    options: TableOptions,
    one: &KeptEntry,
    others: &[KeptEntry],
) -> Result<Merged, MendFault>
    requires order { AreOrdered (one.now ∷ others.now) }
    requires options { AreInRange options }
    ensures merged { IfOk result (λ m.
        IsMerged (one.now ∷ others.now) m.last m.count m.image) }
    ensures refused { IfErr result (IsUnbuilt options (one.now ∷ others.now)) }
{
    let mut table = begin(alloc, options, one)?;
    let totals = add_all(&mut table, one, others)?;
    match table.finish(alloc) {
        Ok(image) => Ok(Merged {
            image,
            last: totals.last,
            count: totals.count,
        }),
        Err(fault) => Err(MendFault::of_build(fault)),
    }
}

/// The table of these entries, which are in the order of tables: each once.
fn merge_ordered(
    alloc: Global,
    options: TableOptions,
    entries: &[KeptEntry],
) -> Result<Merged, MendFault>
    requires order { AreOrdered entries.now }
    requires options { AreInRange options }
    ensures merged { IfOk result (λ m. IsMerged entries.now m.last m.count m.image) }
    ensures refused { IfErr result (IsUnmerged options entries.now) }
{
    match entries.split_first() {
        Some((one, others)) => build_from(alloc, options, one, others),
        None => Err(MendFault::NothingWhole),
    }
}

/// The table of these entries: each once. Two values of one internal key are refused.
pub(crate) fn merge(
    alloc: Global,
    options: TableOptions,
    entries: Vec<KeptEntry>,
) -> Result<Merged, MendFault>
    requires options { AreInRange options }
    ensures merged { IfOk result (λ m. IsMerged entries.items m.last m.count m.image) }
    ensures refused { IfErr result (IsUnmerged options entries.items) }
{
    let ordered = in_order(entries)?;
    match merge_ordered(alloc, options, &ordered) {
        Ok(merged) => Ok(merged),
        Err(fault) => Err(fault),
    }
}
