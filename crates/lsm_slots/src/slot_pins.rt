//! Pins of versions: under the lock, and those of readers on the board.

ghost use Rattle.std.specs.Prelude.{◌≡◌, ℕ, suc, ◌+◌, ◌-◌, ◌^◌, ◌<◌, ◌↔◌, ◌++◌, List, Some, None};
ghost use Rattle.std.specs.Prelude.{length, is_some, if◌then◌else◌, IfOk, IfSome, IfNone};
ghost use Rattle.std.specs.Prelude.{MatchResult, OnErr, OnOk, IsTrue, slice_get, slice_set};
ghost use Rattle.lsm_pins.specs.View.{learnt_view, noted_view, told_view};
ghost use Rattle.lsm_version.specs.Versions.{numbers_in};
ghost use Rattle.lsm_slots.specs.Slots.{Epoch as Held, HasEpoch, IsPinned, PinsMove, current_id};
ghost use Rattle.lsm_slots.specs.Slots.{current_slot, numbers_at, numbers_held};

use crate::boarded::Boarded;
use crate::epoch::Epoch;
use crate::slots::{Slots, pins_at};
use lsm_pins::Pinner;
use lsm_table::{Naming, Shelf};
use std::alloc::{AllocError, Global};

// Whether the slot has the version of this id, which is pinned under the lock.
fn is_pinned_at<N: Naming, S: Shelf>(epochs: &[Option<Epoch<N, S>>], slot: u8, id: u32) -> bool
    requires { slot < length epochs.now }
    ensures { IsTrue result
        ↔ ((e : Held) × (slice_get epochs.now slot ≡ Some (Some e)) × (e.id ≡ id) × (0 < e.pins)) }
{
    match &epochs[usize::from(slot)] {
        None => false,
        Some(epoch) => epoch.id == id && epoch.pins > 0,
    }
}

// One pin more, if there may be one more.
fn one_more(pins: u32) -> Option<u32>
    ensures some { IfSome result (λ more. (more ≡ pins + 1) × (pins < 2 ^ 32 - 1)) }
    ensures none { IfNone result (pins ≡ 2 ^ 32 - 1) }
{
    if pins == u32::MAX {
        None
    } else {
        Some(pins + 1)
    }
}

// Another count of pins of the version in a slot.
fn set_pins<N: Naming, S: Shelf>(epochs: &mut Vec<Option<Epoch<N, S>>>, slot: u8, pins: u32)
    requires { slot < length epochs.old.items }
    ensures { (e : Held) → slice_get epochs.old.items slot ≡ Some (Some e)
        → epochs.new.items ≡ slice_set epochs.old.items slot (Some (record e { pins = pins })) }
{
    if let Some(epoch) = &mut epochs[usize::from(slot)] {
        epoch.pins = pins;
    }
}

// Appends the numbers of the tables of the version in a slot, if there is one.
fn push_epoch<N: Naming, S: Shelf>(
    epoch: &Option<Epoch<N, S>>,
    numbers: &mut Vec<u64>,
) -> Result<(), AllocError>
    ensures ok { OnOk result (numbers.new.items ≡ numbers.old.items ++ numbers_at epoch.now) }
    ensures err { OnErr result (numbers.new.items ≡ numbers.old.items) }
{
    match epoch {
        None => Ok(()),
        Some(epoch) => epoch.version.push_numbers(numbers),
    }
}

// The same of one slot, which has a version.
fn push_slot<N: Naming, S: Shelf>(
    epochs: &[Option<Epoch<N, S>>],
    slot: u8,
    numbers: &mut Vec<u64>,
) -> Result<(), AllocError>
    requires { slot < length epochs.now }
    ensures { (e : Held) → slice_get epochs.now slot ≡ Some (Some e)
        → OnOk result (numbers.new.items ≡ numbers.old.items ++ numbers_in e.version) }
{
    match &epochs[usize::from(slot)] {
        None => Ok(()),
        Some(epoch) => epoch.version.push_numbers(numbers),
    }
}

// The same of all slots.
fn push_slots<N: Naming, S: Shelf>(
    epochs: &[Option<Epoch<N, S>>],
    numbers: &mut Vec<u64>,
) -> Result<(), AllocError>
    ensures ok { OnOk result (numbers.new.items ≡ numbers.old.items ++ numbers_held epochs.now) }
    ensures front { (more : List ℕ) × (numbers.new.items ≡ numbers.old.items ++ more) }
{
    for epoch in epochs {
        push_epoch(epoch, numbers)?;
    }
    Ok(())
}

impl<N: Boarded, S: Shelf> Slots<N, S> {
    // The slot of the version of this id, where that is pinned under the lock.
    fn pinned_slot(&self, id: u32) -> Option<u8>
        ensures some { IfSome result (λ slot. (e : Held) × HasEpoch self.now slot e × (e.id ≡ id)
            × (0 < e.pins)) }
        ensures none { IfNone result (IsPinned self.now id → ⊥) }
    {
        for slot in 0..self.count() {
            if is_pinned_at(self.epochs.as_slice(), slot, id) {
                return Some(slot);
            }
        }
        None
    }

    /// Pins the current version under the lock, and answers its id; none where it has 2^32 - 1 such
    /// pins.
    pub fn pin(&mut self) -> Option<u32>
        ensures some { IfSome result (λ id. (id ≡ current_id self.old)
            × ((pins : ℕ) × (pins < 2 ^ 32 - 1) × PinsMove self.old self.new id pins (pins + 1))) }
        ensures none { IfNone result (((e : Held) × HasEpoch self.old (current_slot self.old) e
            × (e.pins ≡ 2 ^ 32 - 1)) × (self.new ≡ self.old)) }
    {
        let (id, slot) = self.publisher.current();
        let Some(pins) = pins_at(self.epochs.as_slice(), slot) else {
            unreachable!()
        };
        let Some(more) = one_more(pins) else {
            return None;
        };
        set_pins(&mut self.epochs, slot, more);
        Some(id)
    }

    /// Gives back a pin under the lock of the version of this id. Answers whether it has one.
    pub fn unpin(&mut self, id: u32) -> bool
        ensures pinned { IsTrue result ↔ IsPinned self.old id }
        ensures unpinned { IsTrue result
            → (pins : ℕ) × PinsMove self.old self.new id (pins + 1) pins }
        ensures unknown { (IsTrue result → ⊥) → self.new ≡ self.old }
    {
        let Some(slot) = self.pinned_slot(id) else {
            return false;
        };
        let Some(pins) = pins_at(self.epochs.as_slice(), slot) else {
            unreachable!()
        };
        set_pins(&mut self.epochs, slot, pins - 1);
        true
    }

    /// Appends the numbers of the tables of all versions that have a slot, slot by slot.
    /// `AllocError` where a growth was refused; then the numbers are as before.
    pub fn push_numbers(&self, numbers: &mut Vec<u64>) -> Result<(), AllocError>
        ensures { MatchResult result (λ _. numbers.new.items ≡ numbers.old.items
            ++ numbers_held self.now.epochs) (λ _. numbers.new.items ≡ numbers.old.items) }
    {
        let before = numbers.len();
        let pushed = push_slots(self.epochs.as_slice(), numbers);
        if pushed.is_err() {
            numbers.truncate(before);
        }
        pushed
    }

    /// The pinner, which is at the board, learns the current id and slot.
    pub fn learn(&mut self, pinner: &mut Pinner) -> (u32, u8)
        requires { pinner.old.board ≡ N.board }
        ensures current { (result.0 ≡ current_id self.old) × (result.1 ≡ current_slot self.old) }
        ensures board { (self.new.board.board ≡ self.old.board.board)
            × (self.new.board.knows ≡ noted_view self.old.board.knows pinner.new.knows) }
        ensures rest { self.new ≡ record self.old { board = self.new.board } }
        ensures pinner { (pinner.new.board ≡ pinner.old.board) × (pinner.new.knows
            ≡ learnt_view (told_view pinner.old.knows self.old.board.knows) result.0 result.1) }
    {
        pinner.learn(&mut self.publisher)
    }

    /// The numbers of the tables of the version that the pinner, which is at the board, holds,
    /// level by level; none where it holds nothing. Its slot is not free. `AllocError` where a
    /// growth was refused.
    pub fn meet(
        &mut self,
        alloc: Global,
        pinner: &mut Pinner,
    ) -> Result<Option<Vec<u64>>, AllocError>
        requires { pinner.old.board ≡ N.board }
        ensures some { IfOk result (λ o.
            IfSome o (λ v. (slot id : ℕ) × (e : Held) × (pinner.old.knows.held ≡ Some (id, slot))
            × HasEpoch self.new slot e × (e.id ≡ id) × (v.items ≡ numbers_in e.version))) }
        ensures none { IfOk result (λ o. IfNone o (pinner.old.knows.held ≡ None)) }
        ensures board { (self.new.board.board ≡ self.old.board.board)
            × (self.new.board.knows ≡ (if is_some pinner.old.knows.held then noted_view
            self.old.board.knows pinner.old.knows else self.old.board.knows)) }
        ensures rest { self.new ≡ record self.old { board = self.new.board } }
        ensures pinner { (pinner.new.board ≡ pinner.old.board)
            × (pinner.new.knows ≡ (if is_some pinner.old.knows.held then told_view pinner.old.knows
            self.old.board.knows else pinner.old.knows)) }
    {
        let Some((_, slot)) = self.publisher.meet(pinner) else {
            return Ok(None);
        };
        let mut numbers = Vec::new(alloc);
        push_slot(self.epochs.as_slice(), slot, &mut numbers)?;
        Ok(Some(numbers))
    }
}
