//! Tables and a manifest in a folder.

ghost use Rattle.std.specs.Prelude.{◌≡◌, ◌∷◌, [], IfOk, IfErr};
ghost use Rattle.lsm_folder.specs.Calls.{opened};
ghost use Rattle.lsm_shelf.specs.Place.{IsAtPath};
ghost use Rattle.lsm_folder.specs.SystemFolder.{system_calls, system_place};
ghost use Rattle.lsm_shelf.specs.Told.{NotNamed, fresh};
ghost use Rattle.lsm_storage.specs.FileShelf.{folder_of, file_told};

use crate::account::Account;
use crate::file::fault::device;
use lsm_folder::{FolderCalls, SystemFolder, Witness};
use lsm_shelf::ShelfFault;
use std::fs::{File, Files};

/// Tables and a manifest in a folder, as LevelDB names their files: `N.ldb`, `MANIFEST-N` and
/// `CURRENT`.
///
/// It is generic in how the folder is asked. Each call says which calls on the folder it makes, in
/// which order (`calls`), and for each refusal how far it came, and which refusal of which call of
/// the folder it comes from (`stopped`). That reads answer what was written is the premise
/// `Shelf::honest`, that the folders of the type are honest: proved of the folder in memory, and of
/// the system's with a witness that compares. Forks are values on the same folder.
pub struct FileShelf<C: FolderCalls> {
    pub(crate) folder: C,
    pub(crate) account: Account,
}

impl<C: FolderCalls> Drop for FileShelf<C> {
    fn drop(self) {
        let Self {
            folder: _,
            account: _,
        } = self;
    }
}

/// A shelf on a folder of the system, of whose reads a witness lets through what it saw.
pub type SystemShelf<R, W> = FileShelf<SystemFolder<R, W>>;

impl<C: FolderCalls> FileShelf<C> {
    /// A shelf on this folder.
    pub fn over(folder: C) -> FileShelf<C>
        ensures folder { folder_of result ≡ folder }
        ensures fresh { file_told C.place result ≡ fresh (C.place folder) }
    {
        FileShelf {
            folder,
            account: Account::new(),
        }
    }
}

impl<R: Files<File = File> + AllocGlobal + Clone + Drop, W: Witness> FileShelf<SystemFolder<R, W>> {
    /// A shelf on the folder of this path. `Device` where it is no folder that can be opened.
    pub fn open(rt: R, path: &str) -> Result<FileShelf<SystemFolder<R, W>>, ShelfFault>
        ensures calls { IfOk result (λ s. system_calls (folder_of s) ≡ opened ∷ []) }
        ensures place { IfOk result (λ s. IsAtPath path.now (system_place (folder_of s))) }
        ensures fresh { IfOk result (λ s.
            file_told system_place s ≡ fresh (system_place (folder_of s))) }
        ensures err { IfErr result NotNamed }
    {
        match SystemFolder::open(rt, path) {
            Ok(folder) => Ok(FileShelf::over(folder)),
            Err(fault) => Err(device(fault)),
        }
    }
}
