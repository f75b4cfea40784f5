//! The keys of a read that is to be sent.

ghost use Rattle.std.specs.Prelude.{◌≡◌, ◌<◌, ◌++◌, ◌∷◌, [], length, Err, OnOk, OnErr};
ghost use Rattle.lsm_frames.specs.declared.request_fault.RequestFault.TheVariants.{TooLong};
ghost use Rattle.lsm_frames.specs.declared.when.When.{When};
ghost use Rattle.lsm_frames.specs.Requests as asked;
ghost use Rattle.lsm_frames.specs.Requests.{spelled};

use crate::frame::{has_room, put_text};
use crate::keys::Keys;
use crate::length::MOST_REQUEST;
use crate::request_fault::RequestFault;
use std::alloc::Global;
use std::marker::Model;

/// The keys of a read that is to be sent. Contracts see them as a list.
#[derive(Debug, Drop)]
pub struct KeyList {
    bytes: Vec<u8>,
}

impl Model for KeyList {
    ghost use Rattle.std.specs.Prelude.{ℕ, List, []};

    ghost Value = { List (List ℕ) };

    ghost use Rattle.lsm_frames.specs.Texts.{text};
    ghost use Rattle.lsm_frames.specs.Requests.{FitsText};
    ghost use Rattle.lsm_frames.specs.Reading.{text_at};
    ghost use Rattle.lsm_frames.specs.Held.{Holds, held};

    ghost view = { λ k. held text_at 0 k.bytes.items };

    ghost invariant = { λ k. Holds text FitsText []
        (held text_at 0 k.bytes.items) k.bytes.items };
}

impl KeyList {
    /// No keys yet. Takes no memory.
    pub fn new(alloc: Global) -> KeyList
        ensures { result ≡ [] }
    {
        KeyList {
            bytes: Vec::new(alloc),
        }
    }

    /// One key more. `TooLong` only where no request has room for the keys. An `Err` changes
    /// nothing.
    pub fn push(&mut self, key: &[u8]) -> Result<(), RequestFault>
        ensures ok { OnOk result (self.new ≡ self.old ++ key.now ∷ []) }
        ensures err { OnErr result (self.new ≡ self.old) }
        ensures long { (when : When) → result ≡ Err TooLong
            → MOST_REQUEST < length (spelled (asked.Reads when (self.old ++ key.now ∷ []))) }
    {
        if !has_room(&self.bytes, 4, key.len(), 0) {
            return Err(RequestFault::TooLong);
        }
        put_text(&mut self.bytes, key)?;
        Ok(())
    }

    /// The keys, as a request has them.
    pub fn keys(&self) -> Keys<'_>
        ensures { result ≡ self.now }
    {
        Keys::over(&self.bytes)
    }
}
