//! Making a board.

ghost use Rattle.std.specs.Prelude.{◌≡◌, ◌+◌, ◌*◌, ◌^◌, ◌<◌, ◌≤◌, ◌∷◌, ◌-◌, All, IfOk, Some, None};
ghost use Rattle.std.specs.Prelude.{length, replicate, vec_len};
ghost use Rattle.lsm_pins.specs.SlotRecord.{first_records};
ghost use Rattle.lsm_pins.specs.View.{after_making, slot_ids};
ghost use Rattle.lsm_pins.specs.Made.{IsNewPinner};

use crate::head::Head;
use crate::pinner::Pinner;
use crate::publisher::Publisher;
use crate::rule::Start;
use crate::slot_record::SlotRecord;
use crate::steps::MakesReader;
use atomic_table::Table;
use std::alloc::{AllocError, Global};
use std::sync::Arc;

/// A board of pins, which its publisher and its pinners share.
pub struct Board;

impl Board {
    /// A board with 1 to 62 readers, and at least two slots more, but at most 64. Its slot 0 is
    /// current with id 0, and the other slots are free.
    pub fn new(
        alloc: Global,
        readers: usize,
        slots: usize,
    ) -> Result<(Publisher, Vec<Pinner>), AllocError>
        requires readers { (0 < readers) × (readers ≤ 62) }
        requires slots { (readers + 2 ≤ slots) × (slots ≤ 64) }
        ensures publisher { IfOk result (λ r. r.0.knows ≡ after_making slots 0 readers) }
        ensures slots { IfOk result (λ r.
            slot_ids r.0.knows ≡ Some 0 ∷ replicate (slots - 1) None) }
        ensures few { IfOk result (λ r. length (slot_ids r.0.knows) ≤ 64) }
        ensures pinners { IfOk result (λ r. (vec_len r.1 ≡ readers)
            × All (IsNewPinner r.0.board slots 0) r.1.items) }
    {
        Board::new_at(alloc, readers, slots, 0)
    }

    /// The same with another id, at most 2^28 - 1, as the current one.
    pub fn new_at(
        alloc: Global,
        readers: usize,
        slots: usize,
        id: u32,
    ) -> Result<(Publisher, Vec<Pinner>), AllocError>
        requires readers { (0 < readers) × (readers ≤ 62) }
        requires slots { (readers + 2 ≤ slots) × (slots ≤ 64) }
        requires id { id < 2 ^ 28 }
        ensures publisher { IfOk result (λ r. r.0.knows ≡ after_making slots id readers) }
        ensures slots { IfOk result (λ r.
            slot_ids r.0.knows ≡ Some id ∷ replicate (slots - 1) None) }
        ensures few { IfOk result (λ r. length (slot_ids r.0.knows) ≤ 64) }
        ensures pinners { IfOk result (λ r. (vec_len r.1 ≡ readers)
            × All (IsNewPinner r.0.board slots id) r.1.items) }
    {
        let records = first_records(alloc, slots, id)?;
        let mut pinners = Vec::with_capacity(alloc, readers)?;
        let words = first_words(id);
        let start = Start { slots, id };
        let (table, mut seat) = Table::of_words(alloc, &words[..slots + 1], &start)?;
        let board = Arc::new(alloc, table)?;
        for made in 0..readers {
            let other = board.shared.split_seat::<MakesReader>(&mut seat);
            pinners.push(Pinner {
                board: Arc::try_clone(&board)?,
                seat: other,
                id,
                slot: 0,
                count: 0,
                held: None,
            })?;
        }
        let publisher = Publisher {
            board,
            seat,
            id,
            slot: 0,
            records,
        };
        Ok((publisher, pinners))
    }
}

// The words of the largest board: the head, and 64 slots of which no pin was given back.
fn first_words(id: u32) -> [u64; 65]
    requires { id < 2 ^ 28 }
    ensures { result ≡ (id * 2 ^ 30) ∷ replicate 64 0 }
{
    let mut words = [0u64; 65];
    words[0] = Head::unpinned(0, id);
    words
}

// What the publisher notes of the slots of a new board: the first has the version of this id, all
// others are free.
fn first_records(alloc: Global, slots: usize, id: u32) -> Result<Vec<SlotRecord>, AllocError>
    requires { 0 < slots }
    ensures { IfOk result (λ v. v.items ≡ first_records slots id) }
{
    let mut records = Vec::with_capacity(alloc, slots)?;
    records.push(SlotRecord {
        id: Some(id),
        total: 0,
    })?;
    for number in 1..slots {
        records.push(SlotRecord { id: None, total: 0 })?;
    }
    Ok(records)
}
