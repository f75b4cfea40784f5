//! A channel of the system's.

ghost use Rattle.std.specs.Prelude.{◌≡◌, []};

use crate::log::Log;
use lsm_frames::request_length;
use lsm_wire::{Incoming, Wire};
use std::alloc::Global;

/// A channel of the system's: a descriptor that is open. What comes over it and what becomes of
/// what is written there no contract says: that `read_frame` reads the descriptor, and `write`
/// writes to it, is to be read here.
#[derive(Drop)]
pub(crate) struct DescriptorWire {
    fd: i32,
    log: Log,
}

impl DescriptorWire {
    /// The wire of this descriptor.
    pub(crate) fn of(fd: i32) -> DescriptorWire
        ensures descriptor { result.fd ≡ fd }
        ensures new { result.log.happened ≡ [] }
    {
        DescriptorWire {
            fd,
            log: Log::empty(),
        }
    }
}

/// The content of a frame of this length.
fn read_content(alloc: Global, fd: i32, length: usize) -> Incoming {
    let Ok(mut content) = Vec::from_elem(alloc, 0u8, length) else {
        return Incoming::Unheld;
    };
    if io::read_full(fd, content.as_mut_slice()) < length {
        return Incoming::End;
    }
    Incoming::Content(content)
}

/// The next frame of a descriptor.
fn read_frame(alloc: Global, fd: i32) -> Incoming {
    let mut front = [0u8; 4];
    if io::read_full(fd, &mut front) < 4 {
        return Incoming::End;
    }
    match request_length(front) {
        Ok(length) => read_content(alloc, fd, length),
        Err(_) => Incoming::Misfit,
    }
}

impl Wire for DescriptorWire {
    ghost happened = { λ w. w.log.happened };

    ghost descriptor = { λ w. w.fd };

    ghost gives = { λ _. Unit {0} };

    fn read(&mut self, alloc: Global) -> Incoming {
        let incoming = read_frame(alloc, self.fd);
        self.log.add_incoming(&incoming);
        incoming
    }

    fn write(&mut self, bytes: &[u8]) -> bool {
        let whole = io::write_all(self.fd, bytes);
        self.log.add_written(bytes, whole);
        whole
    }
}
