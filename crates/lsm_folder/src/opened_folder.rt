//! The folder that was opened. Clauses say by which paths its files are found; what the system's
//! calls do with these no contract says.

ghost use Rattle.std.specs.Prelude.{◌≡◌, IfOk, MatchBool, string_bytes};
ghost use Rattle.std.specs.Fd.{file_raw_fd};
ghost use Rattle.lsm_folder.specs.OpenedFolder.{IsAgain, IsFoundBy, descriptor_path, path_in};

use std::alloc::{AllocError, Global};
use std::fs::{self, File, Files};
use std::io;
use std::os::fd::AsRawFd;
use std::sync::Arc;

/// A folder of the system, kept open. Its files are found through its descriptor: they are those of
/// the folder that was opened, wherever it was moved, and whatever has its path now.
#[derive(Drop)]
pub(crate) struct OpenedFolder {
    file: Arc<File>,
    /// The path by which it is found.
    path: String,
}

/// Where the system shows what is open under the file's descriptor.
fn path_of_descriptor(alloc: Global, file: &File) -> Result<String, AllocError>
    ensures { IfOk result (λ s. string_bytes s ≡ descriptor_path (file_raw_fd file.now)) }
{
    format!(in alloc; "/proc/self/fd/{}", file.as_raw_fd())
}

/// Whether the system shows a folder under this path.
fn is_folder<R: Files<File = File>>(rt: &R, path: &str) -> bool {
    match fs::metadata(rt, path) {
        Ok(found) => found.is_dir(),
        Err(_) => false,
    }
}

/// The path by which an open folder is found: where the system shows it through its descriptor,
/// that one, else the one that was given.
fn chosen(alloc: Global, shown: String, is_shown: bool, given: &str) -> Result<String, AllocError>
    ensures { IfOk result (λ s. MatchBool is_shown (string_bytes s ≡ string_bytes shown)
        (string_bytes s ≡ given.now)) }
{
    if is_shown {
        return Ok(shown);
    }
    String::from_str(alloc, given)
}

impl OpenedFolder {
    /// Opens the folder of this path. Where the system shows no open files in `/proc`, its files
    /// are found by this path.
    pub(crate) fn open<R: Files<File = File> + AllocGlobal + Clone + Drop>(
        rt: &R,
        path: &str,
    ) -> io::Result<OpenedFolder>
        ensures { IfOk result (IsFoundBy path.now) }
    {
        // It is listed before, to see that it is one: the opening of a pipe would wait.
        fs::read_dir(rt, path)?;
        let file = fs::open(rt, path)?;
        let shown = path_of_descriptor(rt.alloc(), &file)?;
        let is_shown = is_folder(rt, shown.as_str());
        let path = chosen(rt.alloc(), shown, is_shown, path)?;
        Ok(OpenedFolder {
            file: Arc::new(rt.alloc(), file)?,
            path,
        })
    }

    /// Another value for the same folder.
    pub(crate) fn again(&self) -> Result<OpenedFolder, AllocError>
        ensures { IfOk result (IsAgain self.now) }
    {
        Ok(OpenedFolder {
            file: Arc::try_clone(&self.file)?,
            path: self.path.clone()?,
        })
    }

    /// The path by which the folder is found.
    pub(crate) fn path(&self) -> &str
        ensures { result.now ≡ string_bytes self.now.path }
    {
        self.path.as_str()
    }

    /// The path by which a file in it is found.
    pub(crate) fn path_of(&self, alloc: Global, name: &str) -> Result<String, AllocError>
        ensures { IfOk result (λ s. string_bytes s ≡ path_in self.now name.now) }
    {
        format!(in alloc; "{}/{name}", self.path)
    }

    /// Makes its names durable.
    pub(crate) fn sync(&self) -> io::Result<()> {
        self.file.sync_all()
    }
}
