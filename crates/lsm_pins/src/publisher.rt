//! The publisher's end of a board.

ghost use Rattle.std.specs.Prelude.{◌≡◌, ◌≢◌, ℕ, ◌+◌, ◌-◌, ◌^◌, ◌<◌, ◌≤◌, ◌↔◌, [], None, Some};
ghost use Rattle.std.specs.Prelude.{length, slice_set, if◌then◌else◌, is_some, IfOk, IfSome, OnErr};
ghost use Rattle.std.specs.Prelude.{IsErr, IsTrue};
ghost use Rattle.std.specs.Arc.{arc_value};
ghost use Rattle.lsm_pins.specs.Publisher.{IsPublishersView};
ghost use Rattle.lsm_pins.specs.View.{HasId, IsCopy, IsFree, copied_view, is_unheld, looked_view};
ghost use Rattle.lsm_pins.specs.View.{noted_view, published_view, slot_ids, told_view};

use crate::head::Head;
use crate::pinner::Pinner;
use crate::publish_fault::PublishFault;
use crate::rule::Words;
use crate::slot_record::SlotRecord;
use crate::steps::{ChecksNote, Copies, Looks, Notes, Publishes};
use crate::view::View;
use atomic_table::Seat;
use std::marker::Model;
use std::sync::Arc;

const LAST_ID: u32 = (1 << 28) - 1;

/// The one end of a board that publishes.
pub struct Publisher {
    pub(crate) board: Arc<Words>,
    pub(crate) seat: Seat<(), View>,
    pub(crate) id: u32,
    pub(crate) slot: u8,
    pub(crate) records: Vec<SlotRecord>,
    ghost seated: { seat.table_id ≡ (arc_value board).shared.table_id },
    ghost words: { seat.table_id.words ≡ seat.me.0.slots + 1 },
    ghost knows: { IsPublishersView seat.me.0 id slot records.items },
}

impl Drop for Publisher {
    fn drop(self) {
        let Self {
            board: _,
            seat: _,
            id: _,
            slot: _,
            records: _,
        } = self;
    }
}

impl Model for Publisher {
    ghost use Rattle.lsm_pins.specs.Known.{Known};

    ghost Value = { Known };

    ghost view = { λ p. record { board = p.seat.table_id; knows = p.seat.me.0 } };
}

impl Publisher {
    /// The current id and slot.
    pub fn current(&self) -> (u32, u8)
        ensures current { (result.0 ≡ self.now.knows.id) × (result.1 ≡ self.now.knows.slot) }
        ensures in_use { HasId self.now.knows result.1 result.0 }
    {
        (self.id, self.slot)
    }

    /// Whether the slot is not current and no view holds it, by one load of the slot's word. Where
    /// it is so, the slot is free from then on.
    pub fn look(&mut self, slot: u8) -> bool
        requires { slot < length (slot_ids self.old.knows) }
        ensures board { self.new.board ≡ self.old.board }
        ensures looked { self.new.knows ≡ looked_view self.old.knows slot self.new.knows.found }
        ensures unheld { result ≡ is_unheld self.old.knows slot self.new.knows.found }

        // what is in the slots then
        ensures slots { slot_ids self.new.knows ≡ (if result then slice_set
            (slot_ids self.old.knows) slot None else slot_ids self.old.knows) }
        ensures free { IsTrue result → IsFree self.new.knows slot }
        ensures stays { (s : ℕ) → IsFree self.old.knows s → IsFree self.new.knows s }
    {
        let found = self
            .board
            .shared
            .load::<Looks>(&mut self.seat, usize::from(slot) + 1);
        let record = self.records[usize::from(slot)];
        let unheld = slot != self.slot && found == record.total;
        if unheld {
            self.records[usize::from(slot)] = SlotRecord {
                id: None,
                total: record.total,
            };
        }
        unheld
    }

    /// Makes the free slot current with the next id, by one swap of the head. Answers that id.
    pub fn publish(&mut self, slot: u8) -> Result<u32, PublishFault>
        requires { IsFree self.old.knows slot }
        ensures board { self.new.board ≡ self.old.board }
        ensures published { IfOk result (λ i.
            self.new.knows ≡ published_view self.old.knows slot self.new.knows.found) }
        ensures current { IfOk result (λ i. (i ≡ self.old.knows.id + 1) × (self.new.knows.id ≡ i)
            × (self.new.knows.slot ≡ slot)) }
        ensures spent { IsErr result ↔ (self.old.knows.id ≡ 2 ^ 28 - 1) }
        ensures err { OnErr result (self.new.knows ≡ self.old.knows) }

        // what is in the slots then
        ensures slots { IfOk result (λ i.
            slot_ids self.new.knows ≡ slice_set (slot_ids self.old.knows) slot (Some i)) }
        ensures stays { (s : ℕ) → s ≢ slot → IsFree self.old.knows s → IsFree self.new.knows s }
    {
        if self.id == LAST_ID {
            return Err(PublishFault::VersionsSpent);
        }
        let id = self.id + 1;
        let old = usize::from(self.slot);
        let new = usize::from(slot);
        let head = Head::unpinned(slot, id);
        let found = self.board.shared.swap::<Publishes>(&mut self.seat, 0, head);
        let retired = self.records[old];
        let current = self.records[new];
        self.records[old] = SlotRecord {
            id: retired.id,
            total: retired.total + Head::read(found).count,
        };
        self.records[new] = SlotRecord {
            id: Some(id),
            total: current.total,
        };
        self.id = id;
        self.slot = slot;
        Ok(id)
    }

    /// The id and the slot that the pinner holds, none where it holds nothing. The slot has that id
    /// for the publisher too, so it is not free.
    pub fn meet(&mut self, pinner: &mut Pinner) -> Option<(u32, u8)>
        requires { self.old.board ≡ pinner.old.board }
        ensures boards { (self.new.board ≡ self.old.board) × (pinner.new.board ≡ pinner.old.board) }
        ensures held { result ≡ pinner.old.knows.held }
        ensures in_use { IfSome result (λ r. HasId self.new.knows r.1 r.0) }
        ensures publisher { self.new.knows ≡ (if is_some result then noted_view self.old.knows
            pinner.old.knows else self.old.knows) }
        ensures slots { slot_ids self.new.knows ≡ slot_ids self.old.knows }
        ensures pinner { pinner.new.knows ≡ (if is_some result then told_view pinner.old.knows
            self.old.knows else pinner.old.knows) }
    {
        let Some((id, slot)) = pinner.held else {
            return None;
        };
        let seen = pinner.copy();
        self.take(seen);
        let told = self.copy();
        pinner.take(told);
        pinner.check();
        Some((id, slot))
    }

    // A copy of the seat, which has seen what the seat has.
    pub(crate) fn copy(&mut self) -> Seat<(), View>
        ensures board { (self.new.board ≡ self.old.board) × (result.table_id ≡ self.old.board) }
        ensures same { self.new.knows ≡ self.old.knows }
        ensures copy { (result.me.0 ≡ copied_view self.old.knows) × (result.me.1 ≡ [])
            × IsCopy result.me.0 }
        ensures told { self.old.knows.told_id ≡ self.old.knows.id }
    {
        self.board.shared.split_seat::<Copies>(&mut self.seat)
    }

    // Takes a reader's copy, and compares what the reader had seen with the current id.
    pub(crate) fn take(&mut self, seen: Seat<(), View>)
        requires { (seen.table_id ≡ self.old.board) × (seen.me.1 ≡ []) × IsCopy seen.me.0 }
        ensures board { self.new.board ≡ self.old.board }
        ensures noted { self.new.knows ≡ noted_view self.old.knows seen.me.0 }
        ensures below { seen.me.0.id ≤ self.old.knows.id }
        ensures slot { seen.me.0.id ≡ self.old.knows.id → seen.me.0.slot ≡ self.old.knows.slot }
    {
        self.board.shared.join_seat::<Notes>(&mut self.seat, seen);
        self.board.shared.load::<ChecksNote>(&mut self.seat, 0);
    }
}
