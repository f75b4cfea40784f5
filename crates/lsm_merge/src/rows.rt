//! The ranges of a job in rows, in each of which a user key is found by a search.

ghost use Rattle.std.specs.Prelude.{◌≡◌, ◌<◌, ◌≤◌, IfOk, length, take};
ghost use Rattle.lsm_model.specs.Kept.{covers};
ghost use Rattle.lsm_merge.specs.Rows.{IsRising, rises};

use lsm_codec::Bytes;
use lsm_model::is_at_most;
use std::alloc::{AllocError, Global};
use std::marker::Model;

/// Ranges of user keys, in rows that rise: those of a level from 1 on are one row. A key is looked
/// for by a search in each row. Contracts see it as the ranges.
#[derive(Drop)]
pub(crate) struct Rows<'a> {
    rows: Vec<&'a [(Bytes, Bytes)]>,
}

impl<'a> Model for Rows<'a> {
    ghost use Rattle.std.specs.Prelude.{List, All};
    ghost use Rattle.std.specs.List.{flat_map};
    ghost use Rattle.lsm_codec.specs.Keys.{UserKey};
    ghost use Rattle.lsm_merge.specs.Rows.{IsRising};

    ghost Value = { List (UserKey × UserKey) };

    ghost view = { λ r. flat_map (λ row. row.now) r.rows.items };

    ghost invariant = { λ r. All (λ row. IsRising row.now) r.rows.items };
}

/// Whether neither key of the second range is less than that of the first.
fn rises(first: &(Bytes, Bytes), second: &(Bytes, Bytes)) -> bool
    ensures { result ≡ rises first.now second.now }
{
    is_at_most(first.0.as_slice(), second.0.as_slice())
        && is_at_most(first.1.as_slice(), second.1.as_slice())
}

/// How many of these ranges, of which there is one, make a row.
fn row_length(ranges: &[(Bytes, Bytes)]) -> usize
    requires { 0 < length ranges.now }
    ensures inside { result ≤ length ranges.now }
    ensures some { 0 < result }
    ensures rising { IsRising (take result ranges.now) }
{
    let mut end = 1;
    while end < ranges.len() && rises(&ranges[end - 1], &ranges[end]) {
        end += 1;
    }
    end
}

/// Whether a range of a row has the user key.
fn is_in_row(row: &[(Bytes, Bytes)], user: &[u8]) -> bool
    ensures { IsRising row.now → result ≡ covers row.now user.now }
{
    let first = row.partition_point(|range| !is_at_most(user, range.1.as_slice()));
    match row.get(first) {
        Some(range) => is_at_most(range.0.as_slice(), user),
        None => false,
    }
}

impl<'a> Rows<'a> {
    /// These ranges. `AllocError` where a growth was refused.
    pub(crate) fn of(alloc: Global, ranges: &'a [(Bytes, Bytes)]) -> Result<Rows<'a>, AllocError>
        ensures { IfOk result (λ r. r ≡ ranges.now) }
    {
        let mut rows = Vec::new(alloc);
        let mut rest = ranges;
        'rows: while !rest.is_empty() {
            let (row, later) = rest.split_at(row_length(rest));
            rows.push(row)?;
            rest = later;
        }
        Ok(Rows { rows })
    }

    /// Whether one of the ranges has the user key.
    pub(crate) fn covers(&self, user: &[u8]) -> bool
        ensures { result ≡ covers self.now user.now }
    {
        for row in &self.rows {
            if is_in_row(row, user) {
                return true;
            }
        }
        false
    }
}
