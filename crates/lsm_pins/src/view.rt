//! What a seat at the board knows.

use crate::slot_record::SlotRecord;
use std::collections::LinkedList;

/// What a seat at the board knows: the publisher's, a reader's, or a copy of either. It is what
/// contracts speak of, and no value of it is made.
pub struct View {
    /// False once the seat was taken in by another.
    pub live: bool,
    /// Whether it is the publisher's.
    pub publishes: bool,
    /// How many slots the board has.
    pub slots: u64,
    /// A reader's is 1, a copy's 0, and the publisher's how many more readers it could make: the
    /// parts of all are 62.
    pub parts: u64,
    /// The id that was current when the seat saw the head last.
    pub id: u64,
    /// The slot that was current then.
    pub slot: u64,
    /// How many pins of that id the seat has made.
    pub count: u64,
    /// The pin that it holds: an id and a slot.
    pub held: Option<(u64, u64)>,
    /// The id that was current when the publisher's records were as `records` says.
    pub told_id: u64,
    /// The publisher's records, as the seat was told of them.
    pub records: LinkedList<SlotRecord>,
    /// The id that the reader had seen last whose copy the publisher took last.
    pub note_id: u64,
    /// The slot that that reader had seen.
    pub note_slot: u64,
    /// The slots that the publisher has looked at, one for each look, the latest first.
    pub looks: LinkedList<u64>,
    /// What the publisher's last look found, or the count that its last publication found.
    pub found: u64,
}
