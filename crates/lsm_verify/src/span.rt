//! Where the entries of a table begin and end, and which sequences they have.

ghost use Rattle.std.specs.Prelude.{◌≡◌, IfOk, MatchOption, OnErr};
ghost use Rattle.std.specs.Option.{option_map};
ghost use Rattle.lsm_codec.specs.KeyRef.{key_of};
ghost use Rattle.lsm_table.specs.HeldTable.{Steps};
ghost use Rattle.lsm_verify.specs.CheckedFiles.{IsSpanned, ends_at, walked, walked_all};
ghost use Rattle.lsm_verify.specs.Settled.{AreSequencesOf};
ghost use Rattle.lsm_model.specs.Streams.{IsAscending};

use crate::sequences::Sequences;
use lsm_codec::KeyRef;
use lsm_table::{Table, TableIter};
use std::alloc::{AllocError, Global};

/// Goes to the next entry of a checked table, and lends its value: a table that was checked has no
/// fault but want of memory.
fn step<'t>(entries: &mut TableIter<'t>) -> Result<Option<&'t [u8]>, AllocError>
    ensures given { IfOk result (λ r. Steps entries.old entries.new (option_map (λ v. v.now) r)) }
    ensures err { OnErr result (entries.new.left ≡ entries.old.left) }
{
    match entries.next() {
        Ok(value) => Ok(value),
        Err(_memory) => Err(AllocError),
    }
}

/// Whether the entry that was given last, if one was, has this key.
fn ends_at(entries: &TableIter<'_>, end: &KeyRef<'_>) -> bool
    ensures { result ≡ ends_at (key_of end.now) entries.now.last }
{
    match entries.key() {
        None => false,
        Some(here) => here.compare(end).is_eq(),
    }
}

/// Walks to the end of a table: the sequences with those of the entries that are left, where the
/// last entry has this key, and none is above the last sequence. An entry costs its own bytes: of
/// whole keys just the last one is compared.
fn walk_on(
    entries: &mut TableIter<'_>,
    end: &KeyRef<'_>,
    last: u64,
    sequences: Sequences,
) -> Result<Option<Sequences>, AllocError>
    ensures { IfOk result (λ r.
        r ≡ walked last (key_of end.now) entries.old.last sequences entries.old.left) }
{
    let mut sequences = sequences;
    while let Some(_value) = step(entries)? {
        let Some(here) = entries.key() else {
            unreachable!()
        };
        if here.seq > last {
            return Ok(None);
        }
        sequences = sequences.with(here.seq)?;
    }
    if ends_at(&*entries, end) {
        Ok(Some(sequences))
    } else {
        Ok(None)
    }
}

/// The same from the first entry on, which has to have the first key.
fn walk(
    alloc: Global,
    table: &Table,
    first: &KeyRef<'_>,
    end: &KeyRef<'_>,
    last: u64,
) -> Result<Option<Sequences>, AllocError>
    ensures { IfOk result (λ r. r ≡ walked_all last (key_of first.now) (key_of end.now) table.now) }
{
    let mut entries = table.iter(alloc);
    if step(&mut entries)?.is_none() {
        return Ok(None);
    }
    let Some(here) = entries.key() else {
        unreachable!()
    };
    let begins = here.compare(first).is_eq() && here.seq <= last;
    if !begins {
        return Ok(None);
    }
    let sequences = Sequences::of(here.seq);
    walk_on(&mut entries, end, last, sequences)
}

/// The sequences of a table, in one walk through it, where it begins and ends at these internal
/// keys and has no entry above the last sequence; else none.
pub(crate) fn sequences_of(
    alloc: Global,
    table: &Table,
    smallest: &[u8],
    largest: &[u8],
    last: u64,
) -> Result<Option<Sequences>, AllocError>
    requires { IsAscending table.now }
    ensures { IfOk result (λ r.
        MatchOption r (IsSpanned last smallest.now largest.now table.now → ⊥) (λ s.
        IsSpanned last smallest.now largest.now table.now × AreSequencesOf table.now s)) }
{
    let Ok(first) = KeyRef::split(smallest) else {
        return Ok(None);
    };
    let Ok(end) = KeyRef::split(largest) else {
        return Ok(None);
    };
    let walked = walk(alloc, table, &first, &end, last)?;
    Ok(walked)
}
