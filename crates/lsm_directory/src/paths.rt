//! What stands at the paths that the words of a command line name.

ghost use Rattle.std.specs.Prelude.{◌≡◌, ◌∷◌, [], IfErr, IfOk, None};
ghost use Rattle.lsm_folder.specs.Calls.{opened};
ghost use Rattle.lsm_folder.specs.SystemFolder.{system_calls, system_place};
ghost use Rattle.lsm_shelf.specs.Place.{IsAtPath};
ghost use Rattle.lsm_directory.specs.Holding.{IsFolderFault};

use crate::faults::directory_fault::DirectoryFault;
use crate::folder::holding::device;
use lsm_folder::{FolderCalls, FolderFault, Reasons, SystemFolder, Witness};
use std::alloc::Global;
use std::fs::{self, File};
use std::io::{self, Read};
use std::marker::PhantomData;

/// What the system answers to who reads a folder as a file (EISDIR of Linux).
const IS_A_DIRECTORY: i32 = 21;

/// Where the words of a command line find files and folders: in the system, or elsewhere.
pub trait Paths<C: FolderCalls> {
    ghost use Rattle.std.specs.Prelude.{◌≡◌, ◌∷◌, [], ℕ, List, Option, IfOk};
    ghost use Rattle.lsm_folder.specs.Calls.{opened};
    ghost use Rattle.lsm_shelf.specs.Place.{IsAtPath};

    /// A file that is opened to be read.
    type Input: Read + Drop;

    /// What is to be read in the file of a path, where contracts know that.
    ghost text: { Self → List ℕ → Option (List ℕ) };

    /// What gives memory to the commands.
    fn alloc(&self) -> Global;

    /// Opens the file of a path to be read.
    fn open_file(&self, path: &str) -> io::Result<Self::Input>
        ensures text { IfOk result (λ f. Self.Input.remaining f ≡ text self.now path.now) };

    /// Opens the folder of a path. What is answered where it refuses a call is kept in `reasons`.
    fn open_folder(&self, path: &str, reasons: &Reasons) -> Result<C, FolderFault>
        ensures calls { IfOk result (λ f. C.calls f ≡ opened ∷ []) }
        ensures place { IfOk result (λ f. IsAtPath path.now (C.place f)) };
}

/// The files and folders of the system, with a witness of what is read in the folders.
#[derive(Drop)]
pub struct SystemPaths<W: Witness> {
    files: HostRuntime,
    by: PhantomData<W>,
}

impl<W: Witness> SystemPaths<W> {
    pub fn new(files: HostRuntime) -> SystemPaths<W> {
        SystemPaths {
            files,
            by: PhantomData,
        }
    }
}

impl<W: Witness> Paths<SystemFolder<HostRuntime, W>> for SystemPaths<W> {
    type Input = File;

    ghost text = { λ _ _. None };

    fn alloc(&self) -> Global {
        self.files.alloc()
    }

    // A folder is refused here, and not when it is read: then the reason is told.
    fn open_file(&self, path: &str) -> io::Result<File> {
        let file = fs::open(&self.files, path)?;
        if file.metadata()?.is_dir() {
            return Err(io::Error::from_raw_os_error(IS_A_DIRECTORY));
        }
        Ok(file)
    }

    fn open_folder(
        &self,
        path: &str,
        reasons: &Reasons,
    ) -> Result<SystemFolder<HostRuntime, W>, FolderFault> {
        let Ok(files) = self.files.clone() else {
            return Err(FolderFault::OutOfMemory);
        };
        SystemFolder::open_noting(files, path, reasons)
    }
}

/// The folder of this path. `Shelf` of `Device` where it is none that can be opened.
pub fn open_at<C: FolderCalls, P: Paths<C>>(
    paths: &P,
    path: &str,
    reasons: &Reasons,
) -> Result<C, DirectoryFault>
    ensures calls { IfOk result (λ f. C.calls f ≡ opened ∷ []) }
    ensures place { IfOk result (λ f. IsAtPath path.now (C.place f)) }
    ensures fault { IfErr result IsFolderFault }
{
    match paths.open_folder(path, reasons) {
        Ok(folder) => Ok(folder),
        Err(fault) => Err(DirectoryFault::Shelf(device(fault))),
    }
}
