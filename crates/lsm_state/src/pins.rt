//! Pins of versions, and what they keep.

ghost use Rattle.std.specs.Prelude.{◌≡◌, ℕ, ◌+◌, ◌-◌, ◌^◌, ◌<◌, ◌↔◌, is_some, if◌then◌else◌, None};
ghost use Rattle.std.specs.Prelude.{Some, [], IfErr, IfOk, IfNone, IfSome, OnErr, OnOk};
ghost use Rattle.std.specs.List.Sorted.{IsStrictlyIncreasing};
ghost use Rattle.lsm_codec.specs.Lists.{Has};
ghost use Rattle.lsm_pins.specs.View.{learnt_view, noted_view, told_view};
ghost use Rattle.lsm_version.specs.Versions.{numbers_in};
ghost use Rattle.lsm_slots.specs.Slots.{Epoch, HasEpoch, IsPinned, PinsMove, current_id};
ghost use Rattle.lsm_slots.specs.Slots.{current_slot};
ghost use Rattle.lsm_state.specs.Collecting.{IsKeptNumber};
ghost use Rattle.lsm_state.specs.Held.{plain};
ghost use Rattle.lsm_state.specs.declared.state_fault.StateFault.TheVariants.{PinsSpent};
ghost use Rattle.lsm_state.specs.declared.state_fault.StateFault.TheVariants.{UnknownSnapshot};

use crate::state::State;
use crate::state_fault::StateFault;
use lsm_pins::Pinner;
use lsm_slots::Boarded;
use lsm_table::Shelf;
use std::alloc::{AllocError, Global};
use std::mem;

// The numbers, each once, ascending.
fn ascending(mut numbers: Vec<u64>) -> Result<Vec<u64>, AllocError>
    ensures ascending { IfOk result (λ v. IsStrictlyIncreasing v.items) }
    ensures all { IfOk result (λ v. (n : ℕ) → Has v.items n ↔ Has numbers.items n) }
{
    numbers.sort()?;
    numbers.dedup();
    Ok(numbers)
}

impl<N: Boarded, S: Shelf> State<N, S> {
    /// Pins the current version under the lock, and answers its id. `PinsSpent` where it has 2^32 -
    /// 1 such pins.
    pub fn pin(&mut self) -> Result<u32, StateFault>
        ensures ok { IfOk result (λ id. (id ≡ current_id self.old.slots) × ((pins : ℕ)
            × (pins < 2 ^ 32 - 1) × PinsMove self.old.slots self.new.slots id pins (pins + 1))) }
        ensures event { plain self.new ≡ plain self.old }
        ensures kept { (n : ℕ) → IsKeptNumber self.new n ↔ IsKeptNumber self.old n }
        ensures rest { self.new ≡ record self.old { slots = self.new.slots } }
        ensures err { OnErr result (self.new ≡ self.old) }
        ensures refused { IfErr result (λ e. (e ≡ PinsSpent) × ((epoch : Epoch) × HasEpoch
            self.old.slots (current_slot self.old.slots) epoch × (epoch.pins ≡ 2 ^ 32 - 1))) }
    {
        match self.slots.pin() {
            Some(id) => Ok(id),
            None => Err(StateFault::PinsSpent),
        }
    }

    /// Gives back a pin under the lock of the version of this id. `UnknownSnapshot` where no
    /// version of this id has one.
    pub fn unpin(&mut self, id: u32) -> Result<(), StateFault>
        ensures ok { OnOk result ((pins : ℕ)
            × PinsMove self.old.slots self.new.slots id (pins + 1) pins) }
        ensures event { plain self.new ≡ plain self.old }
        ensures kept { (n : ℕ) → IsKeptNumber self.new n ↔ IsKeptNumber self.old n }
        ensures rest { self.new ≡ record self.old { slots = self.new.slots } }
        ensures err { OnErr result (self.new ≡ self.old) }
        ensures refused { IfErr result (λ e. (e ≡ UnknownSnapshot id)
            × (IsPinned self.old.slots id → ⊥)) }
    {
        if !self.slots.unpin(id) {
            return Err(StateFault::UnknownSnapshot(u64::from(id)));
        }
        Ok(())
    }

    /// The numbers of the tables that are kept, ascending: those of each version that has a slot,
    /// and those that live jobs drew.
    pub fn kept(&self, alloc: Global) -> Result<Vec<u64>, AllocError>
        ensures numbers { IfOk result (λ v. (n : ℕ) → Has v.items n ↔ IsKeptNumber self.now n) }
        ensures ascending { IfOk result (λ v. IsStrictlyIncreasing v.items) }
    {
        let mut numbers = Vec::new(alloc);
        self.slots.push_numbers(&mut numbers)?;
        self.live.push_drawn(&mut numbers)?;
        let kept = ascending(numbers)?;
        Ok(kept)
    }

    /// The pinners of the state's board: all at the first call, none after it.
    pub fn take_pinners(&mut self, alloc: Global) -> Vec<Pinner>
        ensures taken { result.items ≡ self.old.pinners }
        ensures rest { self.new ≡ record self.old { pinners = [] } }
    {
        mem::replace(&mut self.pinners, Vec::new(alloc))
    }

    /// The pinner, which is at the state's board, learns the current id and slot.
    pub fn learn(&mut self, pinner: &mut Pinner) -> (u32, u8)
        requires { pinner.old.board ≡ N.board }
        ensures current { (result.0 ≡ current_id self.old.slots)
            × (result.1 ≡ current_slot self.old.slots) }
        ensures board { (self.new.slots.board.board ≡ self.old.slots.board.board)
            × (self.new.slots.board.knows
            ≡ noted_view self.old.slots.board.knows pinner.new.knows) }
        ensures rest { self.new
            ≡ record self.old { slots = record self.old.slots { board = self.new.slots.board } } }
        ensures pinner { (pinner.new.board ≡ pinner.old.board) × (pinner.new.knows ≡ learnt_view
            (told_view pinner.old.knows self.old.slots.board.knows) result.0 result.1) }
    {
        self.slots.learn(pinner)
    }

    /// The numbers of the tables of the version that the pinner, which is at the state's board,
    /// holds, level by level; none where it holds nothing. All of them are kept. `AllocError` where
    /// a growth was refused.
    pub fn meet(
        &mut self,
        alloc: Global,
        pinner: &mut Pinner,
    ) -> Result<Option<Vec<u64>>, AllocError>
        requires { pinner.old.board ≡ N.board }
        ensures some { IfOk result (λ o.
            IfSome o (λ v. (slot id : ℕ) × (e : Epoch) × (pinner.old.knows.held ≡ Some (id, slot))
            × HasEpoch self.new.slots slot e × (e.id ≡ id) × (v.items ≡ numbers_in e.version))) }
        ensures kept { IfOk result (λ o.
            IfSome o (λ v. (n : ℕ) → Has v.items n → IsKeptNumber self.new n)) }
        ensures none { IfOk result (λ o. IfNone o (pinner.old.knows.held ≡ None)) }
        ensures board { (self.new.slots.board.board ≡ self.old.slots.board.board)
            × (self.new.slots.board.knows ≡ (if is_some pinner.old.knows.held then noted_view
            self.old.slots.board.knows pinner.old.knows else self.old.slots.board.knows)) }
        ensures rest { self.new
            ≡ record self.old { slots = record self.old.slots { board = self.new.slots.board } } }
        ensures pinner { (pinner.new.board ≡ pinner.old.board)
            × (pinner.new.knows ≡ (if is_some pinner.old.knows.held then told_view pinner.old.knows
            self.old.slots.board.knows else pinner.old.knows)) }
    {
        self.slots.meet(alloc, pinner)
    }
}
