//! The versions of a store, by the slots of its board of pins.

ghost use Rattle.std.specs.Prelude.{◌≡◌, ℕ, suc, ◌+◌, ◌-◌, ◌^◌, ◌<◌, ◌≤◌, ◌↔◌, ◌∷◌, Some, None};
ghost use Rattle.std.specs.Prelude.{length, replicate, IfOk, IfSome, IfNone, IsTrue, slice_get};
ghost use Rattle.std.specs.Prelude.{slice_set};
ghost use Rattle.std.specs.Arc.{arc_value};
ghost use Rattle.lsm_pins.specs.View.{after_making, looked_view};
ghost use Rattle.lsm_slots.specs.Slots.{AllHeld, AreSlots, Epoch as Held, IsFreeSlot, Looked};
ghost use Rattle.lsm_slots.specs.Slots.{MayFree, Published, current_id, current_slot, first_slots};
ghost use Rattle.lsm_slots.specs.Slots.{looks_around, looks_of};

use crate::boarded::Boarded;
use crate::epoch::Epoch;
use lsm_pins::Publisher;
use lsm_table::{Naming, Shelf};
use lsm_version::Version;
use std::alloc::{AllocError, Global};
use std::marker::Model;
use std::sync::Arc;

/// The versions of a store, each in a slot of the board, and the publisher's end of the board.
pub struct Slots<N: Boarded, S: Shelf> {
    pub(crate) publisher: Publisher,
    pub(crate) current: Arc<Version<N, S>>,
    pub(crate) epochs: Vec<Option<Epoch<N, S>>>,
}

impl<N: Boarded, S: Shelf> Drop for Slots<N, S> {
    fn drop(self) {
        let Self {
            publisher: _,
            current: _,
            epochs: _,
        } = self;
    }
}

impl<N: Boarded, S: Shelf> Model for Slots<N, S> {
    ghost use Rattle.std.specs.Prelude.{◌≡◌};
    ghost use Rattle.std.specs.Arc.{arc_value};
    ghost use Rattle.lsm_slots.specs.Slots.{AreSlots, Slotted};

    ghost Value = { Slotted };

    ghost view = { λ s.
        record { board = s.publisher; version = arc_value s.current; epochs = s.epochs.items } };

    ghost invariant = { λ s. (s.publisher.board ≡ N.board) × AreSlots record {
      board = s.publisher;
      version = arc_value s.current;
      epochs = s.epochs.items;
    } };
}

// How often the version in a slot is pinned under the lock, none where the slot is free.
pub(crate) fn pins_at<N: Naming, S: Shelf>(epochs: &[Option<Epoch<N, S>>], slot: u8) -> Option<u32>
    requires { slot < length epochs.now }
    ensures some { IfSome result (λ pins. (e : Held) × (slice_get epochs.now slot ≡ Some (Some e))
        × (e.pins ≡ pins)) }
    ensures none { IfNone result (slice_get epochs.now slot ≡ Some None) }
{
    match &epochs[usize::from(slot)] {
        None => None,
        Some(epoch) => Some(epoch.pins),
    }
}

// Whether the slot is free.
fn is_free_at<N: Naming, S: Shelf>(epochs: &[Option<Epoch<N, S>>], slot: u8) -> bool
    requires { slot < length epochs.now }
    ensures { IsTrue result ↔ (slice_get epochs.now slot ≡ Some None) }
{
    epochs[usize::from(slot)].is_none()
}

// Whether the version in a slot has no pin under the lock; false where the slot is free.
fn is_unpinned<N: Naming, S: Shelf>(epochs: &[Option<Epoch<N, S>>], slot: u8) -> bool
    requires { slot < length epochs.now }
    ensures { IsTrue result
        ↔ ((e : Held) × (slice_get epochs.now slot ≡ Some (Some e)) × (e.pins ≡ 0)) }
{
    match &epochs[usize::from(slot)] {
        None => false,
        Some(epoch) => epoch.pins == 0,
    }
}

// Frees a slot: its version is let go.
fn clear<N: Naming, S: Shelf>(epochs: &mut Vec<Option<Epoch<N, S>>>, slot: u8)
    requires { slot < length epochs.old.items }
    ensures { epochs.new.items ≡ slice_set epochs.old.items slot None }
{
    epochs[usize::from(slot)] = None;
}

// The slots of a new board, all but the first free.
fn first_epochs<N: Naming, S: Shelf>(
    alloc: Global,
    slots: usize,
    id: u32,
    version: Arc<Version<N, S>>,
) -> Result<Vec<Option<Epoch<N, S>>>, AllocError>
    requires { 0 < slots }
    ensures { IfOk result (λ v. v.items ≡ Some record {
      id = id;
      version = arc_value version;
      pins = 0;
    } ∷ replicate (slots - 1) None) }
{
    let mut epochs = Vec::with_capacity(alloc, slots)?;
    epochs.push(Some(Epoch {
        id,
        version,
        pins: 0,
    }))?;
    for slot in 1..slots {
        epochs.push(None)?;
    }
    Ok(epochs)
}

impl<N: Boarded, S: Shelf> Slots<N, S> {
    /// The slots of a board that was just made with so many slots: the version is current in slot
    /// 0, under the board's id, and the other slots are free. `AllocError` where a growth was
    /// refused.
    pub fn new(
        alloc: Global,
        publisher: Publisher,
        slots: usize,
        version: Version<N, S>,
    ) -> Result<Slots<N, S>, AllocError>
        requires slots { (0 < slots) × (slots ≤ 64) }
        requires fresh { (id readers : ℕ) × (publisher.knows ≡ after_making slots id readers) }
        requires board { publisher.board ≡ N.board }
        ensures { IfOk result (λ s. s ≡ first_slots publisher slots version) }
    {
        let id = publisher.current().0;
        let current = Arc::new(alloc, version)?;
        let epochs = first_epochs(alloc, slots, id, Arc::try_clone(&current)?)?;
        Ok(Slots {
            publisher,
            current,
            epochs,
        })
    }

    /// The current version. What holds of all slots is told here too.
    pub fn version(&self) -> &Version<N, S>
        ensures version { result.now ≡ self.now.version }
        ensures law { AreSlots self.now }
        ensures board { self.now.board.board ≡ N.board }
    {
        &self.current
    }

    /// The current version, to be shared.
    pub fn current(&self) -> &Arc<Version<N, S>>
        ensures { arc_value result.now ≡ self.now.version }
    {
        &self.current
    }

    /// The current version's id.
    pub fn id(&self) -> u32
        ensures { result ≡ current_id self.now }
    {
        self.publisher.current().0
    }

    // How many slots there are: at most 64.
    pub(crate) fn count(&self) -> u8
        ensures { result ≡ length self.now.epochs }
    {
        self.epochs.len() as u8
    }

    // A slot that is free.
    fn free(&self) -> Option<u8>
        ensures some { IfSome result (λ slot. IsFreeSlot self.now slot) }
        ensures none { IfNone result (AllHeld self.now) }
    {
        for slot in 0..self.count() {
            if is_free_at(self.epochs.as_slice(), slot) {
                return Some(slot);
            }
        }
        None
    }

    // Whether a look may free the slot.
    fn may_free(&self, slot: u8) -> bool
        requires { slot < length self.now.epochs }
        ensures { IsTrue result ↔ MayFree self.now slot }
    {
        slot != self.publisher.current().1 && is_unpinned(self.epochs.as_slice(), slot)
    }

    // Looks at such a slot: where no reader holds it, it is free from then on.
    fn look(&mut self, slot: u8)
        requires { MayFree self.old slot }
        ensures looked { Looked self.old self.new }
        ensures looks { looks_of self.new ≡ slot ∷ looks_of self.old }
        ensures seen { self.new.board.knows
            ≡ looked_view self.old.board.knows slot self.new.board.knows.found }
        ensures others { (i : ℕ) → (i ≡ slot → ⊥)
            → slice_get self.new.epochs i ≡ slice_get self.old.epochs i }
    {
        if !self.publisher.look(slot) {
            return;
        }
        clear(&mut self.epochs, slot);
    }

    /// Looks at each slot that a look may free: it is not the current one, and its version has no
    /// pin under the lock. Those that no reader holds are free from then on.
    pub fn look_around(&mut self)
        ensures looked { Looked self.old self.new }
        ensures looks { looks_of self.new ≡ looks_around self.old }
    {
        for slot in 0..self.count() {
            if self.may_free(slot) {
                self.look(slot);
            }
        }
    }

    /// A free slot. Where one is known to be free nothing changes; else the slots that may be freed
    /// are looked at first, and none is answered exactly where no slot is free after that.
    pub fn find_free(&mut self) -> Option<u8>
        ensures looked { Looked self.old self.new }
        ensures some { IfSome result (λ slot. IsFreeSlot self.new slot) }
        ensures none { IfNone result
            (AllHeld self.new × (looks_of self.new ≡ looks_around self.old)) }
        ensures known { (slot : ℕ) → IsFreeSlot self.old slot → self.new ≡ self.old }
        ensures looks { AllHeld self.old → looks_of self.new ≡ looks_around self.old }
    {
        if let Some(slot) = self.free() {
            return Some(slot);
        }
        self.look_around();
        self.free()
    }

    /// Makes a version current, in a slot that is free, under the next id, which it answers. Both
    /// are one version: the first is kept as the current one, the second in the slot. It is shared
    /// before it is handed over, since room for that may be refused, and a publication is not.
    pub fn publish(
        &mut self,
        slot: u8,
        first: Arc<Version<N, S>>,
        second: Arc<Version<N, S>>,
    ) -> u32
        requires free { IsFreeSlot self.old slot }
        requires room { current_id self.old < 2 ^ 28 - 1 }
        requires one { arc_value first ≡ arc_value second }
        ensures id { result ≡ suc (current_id self.old) }
        ensures slot { current_slot self.new ≡ slot }
        ensures published { Published self.old self.new (arc_value first) }
        ensures looks { looks_of self.new ≡ looks_of self.old }
    {
        let Ok(id) = self.publisher.publish(slot) else {
            unreachable!()
        };
        self.current = first;
        self.epochs[usize::from(slot)] = Some(Epoch {
            id,
            version: second,
            pins: 0,
        });
        id
    }
}
