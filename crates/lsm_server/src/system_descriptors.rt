//! The descriptors of this process.

ghost use Rattle.std.specs.Prelude.{◌≡◌, []};

use crate::descriptor_wire::DescriptorWire;
use crate::opens::Opens;
use lsm_wire::Descriptors;
use std::fs;

/// A process has fewer files open than this. Numbers from here on are channels in memory, where the
/// server runs inside another program.
const PAST_FILES: i32 = 1_000_000;

/// The descriptors of this process, as the system lists them.
#[derive(Drop)]
pub(crate) struct SystemDescriptors {
    files: HostRuntime,
    opens: Opens,
}

impl SystemDescriptors {
    pub(crate) fn new(files: HostRuntime) -> SystemDescriptors
        ensures { result.opens.opened ≡ [] }
    {
        SystemDescriptors {
            files,
            opens: Opens::empty(),
        }
    }
}

impl Descriptors for SystemDescriptors {
    type Wire = DescriptorWire;

    ghost opened = { λ d. d.opens.opened };

    ghost says = { λ fd answer. Unit {0} };

    fn is_open(&self, fd: i32) -> bool {
        if fd >= PAST_FILES {
            return true;
        }
        let Ok(path) = format!(in self.files.alloc(); "/proc/self/fd/{fd}") else {
            return false;
        };
        matches!(fs::exists(&self.files, path.as_str()), Ok(true))
    }

    fn wire(&mut self, fd: i32) -> DescriptorWire {
        self.opens.add(fd);
        DescriptorWire::of(fd)
    }
}
