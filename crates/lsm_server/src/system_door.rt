//! The way to a folder of the system's.

use lsm_channels::Door;
use lsm_directory::{Paths, SystemPaths};
use lsm_folder::{FolderFault, Mute, Reasons, SystemFolder};
use std::alloc::Global;

/// The way to a folder of the system's. That `open` opens no other folder beside is to be read here.
#[derive(Drop)]
pub(crate) struct SystemDoor {
    paths: SystemPaths<Mute>,
}

impl SystemDoor {
    pub(crate) fn new(paths: SystemPaths<Mute>) -> SystemDoor {
        SystemDoor { paths }
    }
}

impl Door<SystemFolder<HostRuntime, Mute>> for SystemDoor {
    ghost refuses = { λ path fault. Unit {0} };

    fn alloc(&self) -> Global {
        self.paths.alloc()
    }

    fn open(
        self,
        path: &str,
        reasons: &Reasons,
    ) -> Result<SystemFolder<HostRuntime, Mute>, FolderFault> {
        match self.paths.open_folder(path, reasons) {
            Ok(folder) => Ok(folder),
            Err(fault) => Err(fault),
        }
    }
}
