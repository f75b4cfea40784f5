//! The writes of a request that is to be sent.

ghost use Rattle.std.specs.Prelude.{◌≡◌, ◌<◌, ◌++◌, ◌∷◌, [], None, Some, length, Err, OnOk, OnErr};
ghost use Rattle.lsm_frames.specs.declared.request_fault.RequestFault.TheVariants.{TooLong};
ghost use Rattle.lsm_frames.specs.Requests as asked;
ghost use Rattle.lsm_frames.specs.Requests.{spelled};

use crate::frame::{has_room, put_deletion, put_written};
use crate::length::MOST_REQUEST;
use crate::request_fault::RequestFault;
use crate::writes::Writes;
use std::alloc::Global;
use std::marker::Model;

/// The writes of a request that is to be sent. Contracts see them as a list.
#[derive(Debug, Drop)]
pub struct WriteList {
    bytes: Vec<u8>,
}

impl Model for WriteList {
    ghost use Rattle.std.specs.Prelude.{List, []};
    ghost use Rattle.lsm_frames.specs.Requests.{Written, FitsWritten, written_text};

    ghost Value = { List Written };

    ghost use Rattle.lsm_frames.specs.Reading.{written_at};
    ghost use Rattle.lsm_frames.specs.Held.{Holds, held};

    ghost view = { λ w. held written_at 0 w.bytes.items };

    ghost invariant = { λ w. Holds written_text FitsWritten []
        (held written_at 0 w.bytes.items) w.bytes.items };
}

impl WriteList {
    /// No writes yet. Takes no memory.
    pub fn new(alloc: Global) -> WriteList
        ensures { result ≡ [] }
    {
        WriteList {
            bytes: Vec::new(alloc),
        }
    }

    /// The key gets a value. `TooLong` only where no request has room for the writes. An `Err`
    /// changes nothing.
    pub fn put(&mut self, key: &[u8], value: &[u8]) -> Result<(), RequestFault>
        ensures ok { OnOk result (self.new
            ≡ self.old ++ record { key = key.now; value = Some value.now } ∷ []) }
        ensures err { OnErr result (self.new ≡ self.old) }
        ensures long { result ≡ Err TooLong → MOST_REQUEST < length (spelled (asked.Writes
            (self.old ++ record { key = key.now; value = Some value.now } ∷ []))) }
    {
        if !has_room(&self.bytes, 9, key.len(), value.len()) {
            return Err(RequestFault::TooLong);
        }
        put_written(&mut self.bytes, key, value)?;
        Ok(())
    }

    /// The key is deleted. `TooLong` only where no request has room for the writes. An `Err`
    /// changes nothing.
    pub fn delete(&mut self, key: &[u8]) -> Result<(), RequestFault>
        ensures ok { OnOk result (self.new
            ≡ self.old ++ record { key = key.now; value = None } ∷ []) }
        ensures err { OnErr result (self.new ≡ self.old) }
        ensures long { result ≡ Err TooLong → MOST_REQUEST < length (spelled (asked.Writes
            (self.old ++ record { key = key.now; value = None } ∷ []))) }
    {
        if !has_room(&self.bytes, 5, key.len(), 0) {
            return Err(RequestFault::TooLong);
        }
        put_deletion(&mut self.bytes, key)?;
        Ok(())
    }

    /// The writes, as a request has them.
    pub fn writes(&self) -> Writes<'_>
        ensures { result ≡ self.now }
    {
        Writes::over(&self.bytes)
    }
}
