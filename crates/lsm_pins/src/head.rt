//! The head word: the current version's slot in the 6 highest bits, its id in the next 28, and in
//! the 30 lowest how many pins were made of it.

ghost use Rattle.std.specs.Prelude.{◌≡◌, ◌^◌, ◌<◌};
ghost use Rattle.lsm_pins.specs.Head.{head_of, slot_in, id_in, count_in};

/// What a head word says.
#[derive(Clone, Copy)]
pub(crate) struct Head {
    pub(crate) slot: u8,
    pub(crate) id: u32,
    pub(crate) count: u64,
}

impl Head {
    pub(crate) fn read(word: u64) -> Head
        ensures slot { result.slot ≡ slot_in word }
        ensures id { result.id ≡ id_in word }
        ensures count { result.count ≡ count_in word }
    {
        Head {
            slot: (word / (1 << 58)) as u8,
            id: (word / (1 << 30) % (1 << 28)) as u32,
            count: word % (1 << 30),
        }
    }

    /// The word of a version that no reader has pinned yet.
    pub(crate) fn unpinned(slot: u8, id: u32) -> u64
        requires slot { slot < 64 }
        requires id { id < 2 ^ 28 }
        ensures { result ≡ head_of slot id 0 }
    {
        u64::from(slot) * (1 << 58) + u64::from(id) * (1 << 30)
    }
}
