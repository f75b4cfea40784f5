//! A reader's end of a board.

ghost use Rattle.std.specs.Prelude.{◌≡◌, ℕ, ◌+◌, ◌^◌, ◌<◌, ◌≤◌, ◌↔◌, [], None, Some, IfOk, OnErr};
ghost use Rattle.std.specs.Prelude.{IsErr, IsSome};
ghost use Rattle.std.specs.Arc.{arc_value};
ghost use Rattle.lsm_pins.specs.Pinner.{IsPinnersView};
ghost use Rattle.lsm_pins.specs.Rule.{KnowsPin};
ghost use Rattle.lsm_pins.specs.View.{IsCopy, copied_view, learnt_view, noted_view, pinned_view};
ghost use Rattle.lsm_pins.specs.View.{slot_ids, told_view, unpinned_view};

use crate::head::Head;
use crate::pin_fault::PinFault;
use crate::publisher::Publisher;
use crate::rule::Words;
use crate::steps::{ChecksPin, Copies, Learns, Pins, Tells, Unpins};
use crate::view::View;
use atomic_table::Seat;
use std::marker::Model;
use std::sync::Arc;

// How many pins a pinner makes of one id.
const MOST_PINS: u32 = 1 << 24;

/// A reader's end of a board. It holds at most one pin at a time. One that is let go while it holds
/// a pin keeps the slot from turning free.
pub struct Pinner {
    pub(crate) board: Arc<Words>,
    pub(crate) seat: Seat<(), View>,
    pub(crate) id: u32,
    pub(crate) slot: u8,
    pub(crate) count: u32,
    pub(crate) held: Option<(u32, u8)>,
    ghost seated: { seat.table_id ≡ (arc_value board).shared.table_id },
    ghost words: { seat.table_id.words ≡ seat.me.0.slots + 1 },
    ghost knows: { IsPinnersView seat.me.0 id slot count held },
}

impl Drop for Pinner {
    fn drop(self) {
        let Self {
            board: _,
            seat: _,
            id: _,
            slot: _,
            count: _,
            held: _,
        } = self;
    }
}

impl Model for Pinner {
    ghost use Rattle.lsm_pins.specs.Known.{Known};

    ghost Value = { Known };

    ghost view = { λ p. record { board = p.seat.table_id; knows = p.seat.me.0 } };
}

impl Pinner {
    /// Pins the version that is current at one atomic step on the head, and gives its id and slot.
    pub fn pin(&mut self) -> Result<(u32, u8), PinFault>
        requires { self.old.knows.held ≡ None }
        ensures board { self.new.board ≡ self.old.board }
        ensures pinned { IfOk result (λ r. self.new.knows ≡ pinned_view self.old.knows r.0 r.1) }
        ensures later { IfOk result (λ r. (self.old.knows.id ≤ r.0)
            × (r.1 < self.old.knows.slots)) }
        ensures spent { IsErr result ↔ (self.old.knows.count ≡ 2 ^ 24) }
        ensures err { OnErr result (self.new.knows ≡ self.old.knows) }
    {
        if self.count >= MOST_PINS {
            return Err(PinFault::PinsSpent);
        }
        let found = self.board.shared.fetch_add::<Pins>(&mut self.seat, 0, 1);
        let head = Head::read(found);
        self.count = if head.id == self.id {
            self.count + 1
        } else {
            1
        };
        self.id = head.id;
        self.slot = head.slot;
        self.held = Some((head.id, head.slot));
        Ok((head.id, head.slot))
    }

    /// Gives the pin back by one atomic step on the word of the slot that was pinned.
    pub fn unpin(&mut self)
        requires { IsSome self.old.knows.held }
        ensures board { self.new.board ≡ self.old.board }
        ensures unpinned { self.new.knows ≡ unpinned_view self.old.knows }
    {
        let Some((_, slot)) = self.held else {
            unreachable!()
        };
        self.board
            .shared
            .fetch_add::<Unpins>(&mut self.seat, usize::from(slot) + 1, 1);
        self.held = None;
    }

    /// Learns the current id and slot, which are the publisher's. A new id starts a new count of
    /// pins.
    pub fn learn(&mut self, publisher: &mut Publisher) -> (u32, u8)
        requires { self.old.board ≡ publisher.old.board }
        ensures boards { (self.new.board ≡ self.old.board)
            × (publisher.new.board ≡ publisher.old.board) }
        ensures current { (result.0 ≡ publisher.old.knows.id)
            × (result.1 ≡ publisher.old.knows.slot) }
        ensures learnt { self.new.knows
            ≡ learnt_view (told_view self.old.knows publisher.old.knows) result.0 result.1 }
        ensures publisher { publisher.new.knows ≡ noted_view publisher.old.knows self.new.knows }
        ensures slots { slot_ids publisher.new.knows ≡ slot_ids publisher.old.knows }
    {
        let told = publisher.copy();
        self.take(told);
        let seen = self.see();
        let copy = self.copy();
        publisher.take(copy);
        seen
    }

    // A copy of the seat, which has seen what the seat has.
    pub(crate) fn copy(&mut self) -> Seat<(), View>
        ensures board { (self.new.board ≡ self.old.board) × (result.table_id ≡ self.old.board) }
        ensures same { self.new.knows ≡ self.old.knows }
        ensures copy { (result.me.0 ≡ copied_view self.old.knows) × (result.me.1 ≡ [])
            × IsCopy result.me.0 }
        ensures earlier { (i s : ℕ) → self.old.knows.held ≡ Some (i, s) → i ≤ self.old.knows.id }
    {
        self.board.shared.split_seat::<Copies>(&mut self.seat)
    }

    // Takes the publisher's copy.
    pub(crate) fn take(&mut self, told: Seat<(), View>)
        requires { (told.table_id ≡ self.old.board) × (told.me.1 ≡ []) × IsCopy told.me.0 }
        ensures board { self.new.board ≡ self.old.board }
        ensures told { self.new.knows ≡ told_view self.old.knows told.me.0 }
    {
        self.board.shared.join_seat::<Tells>(&mut self.seat, told);
    }

    // Sees the head.
    fn see(&mut self) -> (u32, u8)
        ensures board { self.new.board ≡ self.old.board }
        ensures learnt { self.new.knows ≡ learnt_view self.old.knows result.0 result.1 }
        ensures later { (self.old.knows.id ≤ result.0) × (self.old.knows.told_id ≤ result.0) }
    {
        let found = self.board.shared.load::<Learns>(&mut self.seat, 0);
        let head = Head::read(found);
        self.count = if head.id == self.id { self.count } else { 0 };
        self.id = head.id;
        self.slot = head.slot;
        (head.id, head.slot)
    }

    // The records that it was told of have its pin, where they are no older.
    pub(crate) fn check(&mut self)
        ensures board { self.new.board ≡ self.old.board }
        ensures same { self.new.knows ≡ self.old.knows }
        ensures known { KnowsPin self.old.knows self.old.knows }
    {
        self.board.shared.load::<ChecksPin>(&mut self.seat, 0);
    }
}
