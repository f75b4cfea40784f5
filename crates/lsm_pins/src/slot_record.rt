//! What the publisher keeps of a slot.

/// What the publisher keeps of a slot.
#[derive(Clone, Copy)]
pub struct SlotRecord {
    /// The id of the version in the slot. None where the publisher knows that no reader holds the
    /// slot: it is free.
    pub id: Option<u32>,
    /// How many pins were made of the slot before the last one began to be current there; of a slot
    /// that is not current, how many were made in all.
    pub total: u64,
}
