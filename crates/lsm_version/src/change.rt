//! A version with other tables.

ghost use Rattle.std.specs.Prelude.{◌≡◌, ◌≤◌, ◌<◌, map, length, IfOk, IfSome, OnOk};
ghost use Rattle.std.specs.List.{All, filter};
ghost use Rattle.std.specs.List.Sorted.{IsSortedBy};
ghost use Rattle.lsm_version.specs.Changes.{changed, coming, is_kept, level_after, levels_after};
ghost use Rattle.lsm_version.specs.Changes.{placed_all, with_pointer};
ghost use Rattle.lsm_version.specs.Versions.{AreInOrder, IsSound, stands_before};

use crate::copies::copies_of;
use crate::ordered_level::insert;
use crate::version::Version;
use lsm_codec::Bytes;
use lsm_table::{Naming, Registry, Shelf, TableRef};
use std::alloc::{AllocError, Global};
use std::sync::Arc;

/// The tables of a level whose numbers are not deleted.
fn kept<N: Naming, S: Shelf>(
    alloc: Global,
    registry: &Registry<N, S>,
    level: &[TableRef<N, S>],
    deleted: &[u64],
) -> Result<Vec<TableRef<N, S>>, AllocError>
    ensures { IfOk result (λ v. v.items ≡ filter (is_kept deleted.now) level.now) }
{
    let mut kept = Vec::new(alloc);
    for table in level {
        if !deleted.contains(&registry.record(table).number()) {
            kept.push(table.again())?;
        }
    }
    Ok(kept)
}

/// Puts the tables that come to a level into it.
fn insert_all<N: Naming, S: Shelf>(
    registry: &Registry<N, S>,
    level: &mut Vec<TableRef<N, S>>,
    number: usize,
    added: &[(usize, TableRef<N, S>)],
) -> Result<(), AllocError>
    requires order { IsSortedBy stands_before level.old.items }
    ensures ok { OnOk result (level.new.items
        ≡ placed_all (coming number added.now) level.old.items) }
    ensures order { IsSortedBy stands_before level.new.items }
{
    for one in added {
        if one.0 == number {
            insert(registry, level, one.1.again())?;
        }
    }
    Ok(())
}

/// A level without the deleted tables, and then with those that come to it.
#[tactic(auto, unfolding(crate::specs::Changes::level_after))]
fn level_after<N: Naming, S: Shelf>(
    alloc: Global,
    registry: &Registry<N, S>,
    number: usize,
    level: &[TableRef<N, S>],
    deleted: &[u64],
    added: &[(usize, TableRef<N, S>)],
) -> Result<Vec<TableRef<N, S>>, AllocError>
    requires order { IsSortedBy stands_before level.now }
    ensures { IfOk result (λ v. v.items ≡ level_after deleted.now added.now number level.now) }
{
    let mut after = kept(alloc, registry, level, deleted)?;
    insert_all(registry, &mut after, number, added)?;
    Ok(after)
}

/// All levels without the deleted tables and with the added ones.
fn levels_after<N: Naming, S: Shelf>(
    alloc: Global,
    registry: &Registry<N, S>,
    levels: &[Vec<TableRef<N, S>>],
    deleted: &[u64],
    added: &[(usize, TableRef<N, S>)],
) -> Result<Vec<Vec<TableRef<N, S>>>, AllocError>
    requires order { AreInOrder (map (λ l. l.items) levels.now) }
    ensures { IfOk result (λ v. map (λ l. l.items) v.items
        ≡ levels_after deleted.now added.now 0 (map (λ l. l.items) levels.now)) }
{
    let mut after = Vec::new(alloc);
    for (number, level) in levels.iter().enumerate() {
        let tables = level_after(alloc, registry, number, level.as_slice(), deleted, added)?;
        after.push(tables)?;
    }
    Ok(after)
}

/// Copies of compaction pointers, of which one is replaced.
fn with_pointer(
    alloc: Global,
    pointers: &[Option<Bytes>],
    pointer: Option<(usize, Bytes)>,
) -> Result<Vec<Option<Bytes>>, AllocError>
    requires { IfSome pointer (λ p. p.0 < length pointers.now) }
    ensures { IfOk result (λ v. v.items ≡ with_pointer pointer pointers.now) }
{
    let mut copies = copies_of(alloc, pointers)?;
    if let Some((level, key)) = pointer {
        copies[level] = Some(key);
    }
    Ok(copies)
}

impl<N: Naming, S: Shelf> Version<N, S> {
    /// The version without the tables of the deleted numbers and with the added ones, each at its
    /// level, 0 to 6, and where the order has it; the pointer of a level, 0 to 6, is replaced by an
    /// internal key, and the last sequence by another one. `AllocError` where a growth was refused.
    ///
    /// Deletions come before additions: a table that moves to another level is deleted and added
    /// under one number. After a refusal the version is as before, and the pointer's bytes are
    /// given up.
    pub fn change(
        &self,
        alloc: Global,
        deleted: &[u64],
        added: &[(usize, TableRef<N, S>)],
        pointer: Option<(usize, Bytes)>,
        last: u64,
    ) -> Result<Version<N, S>, AllocError>
        requires levels { All (λ a. a.0 ≤ 6) added.now }
        requires pointer { IfSome pointer (λ p. p.0 ≤ 6) }
        requires sound { S.honest → IsSound (changed deleted.now added.now pointer last self.now) }
        ensures { IfOk result (λ v. v ≡ changed deleted.now added.now pointer last self.now) }
    {
        let pointers = with_pointer(alloc, self.pointers.as_slice(), pointer)?;
        let levels = levels_after(alloc, &self.registry, self.levels(), deleted, added)?;
        let registry = Arc::try_clone(&self.registry)?;
        Version::of(alloc, registry, levels, pointers, last)
    }
}

ghost use Rattle.std.specs.Prelude.{ℕ, ◌⊎◌, ◌↔◌, List, Option, [], ◌∷◌, ◌++◌};
ghost use Rattle.lsm_codec.specs.Lists.{Has};
ghost use Rattle.lsm_table.specs.Registry.{Table};
ghost use Rattle.lsm_model.specs.Files.{File};
ghost use Rattle.lsm_version.specs.Changes.{added_files};
ghost use Rattle.lsm_version.specs.Versions.{Levels, files, level_in};

/// A law: a file is of the changed version exactly where it is of an added table, or of the version
/// before and its number not deleted.
pub fn changed_files()
    ensures { (deleted : List ℕ) (added : List (ℕ × Table)) (pointer : Option (ℕ × List ℕ))
        (last : ℕ) (v : Levels) (F : File) → length v.tables ≡ 7 → All (λ a. a.0 ≤ 6) added
        → (Has (files (changed deleted added pointer last v)) F
        ↔ ((Has (files v) F × (Has deleted F.number → ⊥)) ⊎ Has (added_files added) F)) }
{}

/// A law: a table stands at a level of the changed version exactly where it was added there, or
/// stood there and its number is not deleted.
pub fn changed_tables()
    ensures { (deleted : List ℕ) (added : List (ℕ × Table)) (pointer : Option (ℕ × List ℕ))
        (last : ℕ) (v : Levels) (n : ℕ) (t : Table) → n < length v.tables
        → (Has (level_in (changed deleted added pointer last v).tables n) t
        ↔ ((Has (level_in v.tables n) t × (Has deleted t.number → ⊥)) ⊎ Has added (n, t))) }
{}

ghost use Rattle.lsm_codec.specs.Entries.{Entry, internal_key};
ghost use Rattle.lsm_codec.specs.Keys.{IsKey};
ghost use Rattle.lsm_table.specs.Table.{IsTable};
ghost use Rattle.lsm_model.specs.Files.{Fits, IsLawful};
ghost use Rattle.lsm_version.specs.Versions.{IsWhole, file_of};

/// A law: a record whose keys are the first and the last of a table's entries stands for that
/// table.
pub fn tables_are_whole()
    ensures { (t : Table) (e : Entry) (rest : List Entry) (front : List Entry) (l : Entry)
        → IsTable t.image (e ∷ rest) → e ∷ rest ≡ front ++ l ∷ []
        → IsKey t.smallest (internal_key e) → IsKey t.largest (internal_key l) → IsWhole t }
{}

/// A law: the range of the file of a record that stands for a table is that of the table's entries.
pub fn whole_tables_fit()
    ensures { (n : ℕ) (t : Table) → IsWhole t → Fits (file_of n t) }
{}

/// A law: a changed version is sound where its files are lawful and below its last sequence, and
/// what is added is whole.
pub fn changed_is_sound()
    ensures { (deleted : List ℕ) (added : List (ℕ × Table)) (pointer : Option (ℕ × List ℕ))
        (last : ℕ) (v : Levels) → IsSound v → ((n : ℕ) (t : Table) → Has added (n, t) → IsWhole t)
        → IsLawful (files (changed deleted added pointer last v)) → ((F : File) (e : Entry)
        → Has (files (changed deleted added pointer last v)) F → Has F.entries e → e.seq ≤ last)
        → IsSound (changed deleted added pointer last v) }
{}

/// A law: a sound version without some of its tables is sound.
pub fn deletions_are_sound()
    ensures { (deleted : List ℕ) (pointer : Option (ℕ × List ℕ)) (last : ℕ) (v : Levels) → IsSound v
        → v.last ≤ last → IsSound (changed deleted [] pointer last v) }
{}
