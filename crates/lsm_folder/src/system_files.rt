//! One call of the system for each call on a folder, with what cannot be avoided: a file is looked
//! at and opened to be read whole, written or synced; one of which a part is read stays open. No
//! contract says what the system's calls do; they are to be read.

ghost use Rattle.std.specs.Prelude.{◌≡◌, ◌↔◌, ◌<◌, ◌≤◌, length, Ok, Err, IfOk, IfErr};
ghost use Rattle.lsm_folder.specs.FolderFault.{NotMissing, NotExists, NotNamed};
ghost use Rattle.lsm_folder.specs.OpenedFolder.{IsAgain, IsFoundBy};
ghost use Rattle.lsm_folder.specs.SystemFault.{fault_kind};

use crate::folder_fault::FolderFault;
use crate::open_files::OpenFiles;
use crate::opened_folder::OpenedFolder;
use crate::reasons::Reasons;
use crate::system_fault::SystemFault;
use std::alloc::{AllocError, Global};
use std::fs::{self, File, Files, OpenFile, OpenOptions};
use std::io::{self, ErrorKind, Read, Write};
use std::os::unix::fs::FileExt;

/// What the calls on a folder of the system are made with: the system, the folder, the lock that is
/// held, the files that stay open, and where refusals are kept for people.
#[derive(Drop)]
pub(crate) struct SystemFiles<R: Files<File = File> + AllocGlobal + Clone + Drop> {
    pub(crate) rt: R,
    pub(crate) held: Option<File>,
    pub(crate) open_files: OpenFiles,
    folder: OpenedFolder,
    reasons: Reasons,
}

/// The path of a file in a folder, for people.
fn shown_path(alloc: Global, folder: &str, name: &str) -> Result<String, AllocError> {
    format!(in alloc; "{folder}/{name}")
}

/// Why a file that is not a regular one is refused.
fn irregular() -> SystemFault {
    SystemFault::Unacted(io::Error::other("not a regular file"))
}

/// The length of a file that is to be read whole, and may have `most` bytes. Refused by this kind of
/// error where it has more.
fn at_most(length: u64, most: usize, larger: ErrorKind) -> Result<usize, SystemFault>
    ensures ok { IfOk result (λ n. (n ≡ length) × (length ≤ most)) }
    ensures larger { IfErr result (λ f. (most < length) × (fault_kind f ≡ larger)) }
{
    if length > most as u64 {
        let why = io::Error::new(larger, "larger than what is read whole");
        return Err(SystemFault::Unacted(why));
    }
    Ok(length as usize)
}

/// The answer of a call that asks for a change, or for an open file.
fn asked<T: Drop>(answer: io::Result<T>) -> Result<T, SystemFault> {
    match answer {
        Ok(value) => Ok(value),
        Err(error) => Err(SystemFault::asked(error)),
    }
}

/// The answer of a call on an open file, which may have acted.
fn acted(answer: io::Result<()>) -> Result<(), SystemFault> {
    match answer {
        Ok(()) => Ok(()),
        Err(error) => Err(SystemFault::Acted(error)),
    }
}

/// What a file of the system says; nothing where it can't be read.
pub(crate) fn text_of<R: Files<File = File> + AllocGlobal>(
    rt: &R,
    path: &str,
) -> io::Result<String> {
    match fs::read_to_string(rt, path) {
        Err(error) if error.kind() != io::ErrorKind::OutOfMemory => Ok(String::new(rt.alloc())),
        answer => answer,
    }
}

/// Opens a folder.
fn opened<R: Files<File = File> + AllocGlobal + Clone + Drop>(
    rt: &R,
    path: &str,
    reasons: &Reasons,
) -> Result<OpenedFolder, SystemFault>
    ensures { IfOk result (IsFoundBy path.now) }
{
    match OpenedFolder::open(rt, path) {
        Ok(folder) => Ok(folder),
        Err(error) => {
            reasons.note("open", String::from_str(rt.alloc(), path), error);
            Err(SystemFault::from(error))
        }
    }
}

/// The name of an entry. A folder, and one whose name is no text, is left out.
fn name_of<R: Files<File = File> + Drop>(
    rt: &R,
    alloc: Global,
    entry: io::Result<fs::DirEntry<R, Global>>,
) -> io::Result<Option<String>> {
    match entry {
        Ok(entry) => match fs::metadata(rt, entry.path()) {
            Ok(found) if found.is_dir() => Ok(None),
            _ => Ok(Some(String::from_str(alloc, entry.file_name())?)),
        },
        Err(error) if error.kind() == io::ErrorKind::InvalidFilename => Ok(None),
        Err(error) => Err(error),
    }
}

/// Adds the name of an entry, if it has one.
fn add_name<R: Files<File = File> + Drop>(
    rt: &R,
    alloc: Global,
    names: &mut Vec<String>,
    entry: io::Result<fs::DirEntry<R, Global>>,
) -> io::Result<()> {
    if let Some(name) = name_of(rt, alloc, entry)? {
        names.push(name)?;
    }
    Ok(())
}

/// The names of entries.
fn names_of<R: Files<File = File> + AllocGlobal + Clone + Drop>(
    rt: &R,
    alloc: Global,
    entries: fs::ReadDir<R, Global>,
) -> io::Result<Vec<String>> {
    let mut names = Vec::new(alloc);
    for entry in entries {
        add_name(rt, alloc, &mut names, entry)?;
    }
    Ok(names)
}

impl<R: Files<File = File> + AllocGlobal + Clone + Drop> SystemFiles<R> {
    /// For the folder of this path. Refused where it is none that can be read.
    pub(crate) fn open(rt: R, path: &str, reasons: &Reasons) -> Result<SystemFiles<R>, SystemFault>
        ensures { IfOk result (λ f. IsFoundBy path.now f.folder) }
    {
        let folder = opened(&rt, path, reasons)?;
        let reasons = reasons.again()?;
        Ok(SystemFiles {
            open_files: OpenFiles::new(&rt)?,
            rt,
            held: None,
            folder,
            reasons,
        })
    }

    /// For another value on the folder.
    pub(crate) fn fork(&self) -> Result<SystemFiles<R>, AllocError>
        ensures { IfOk result (λ f. IsAgain self.now.folder f.folder) }
    {
        let rt = self.rt.clone()?;
        let folder = self.folder.again()?;
        let reasons = self.reasons.again()?;
        Ok(SystemFiles {
            open_files: self.open_files.fork(rt.alloc())?,
            rt,
            held: None,
            folder,
            reasons,
        })
    }

    /// Keeps why the system refused a call.
    fn note(&self, call: &'static str, folder: &str, name: &str, fault: SystemFault) {
        let path = shown_path(self.rt.alloc(), folder, name);
        self.reasons.note(call, path, fault.error());
    }

    /// Keeps which file was read whole.
    pub(crate) fn note_read(&self, folder: &str, name: &str) {
        self.reasons
            .note_read(shown_path(self.rt.alloc(), folder, name));
    }

    /// The answer of a call that needs no name.
    pub(crate) fn failed<T: Drop>(
        &self,
        call: &'static str,
        folder: &str,
        name: &str,
        answer: Result<T, SystemFault>,
    ) -> Result<T, FolderFault>
        ensures same { IfOk result (λ v. answer ≡ Ok v) }
        ensures err { IfErr result NotNamed }
    {
        match answer {
            Ok(value) => Ok(value),
            Err(fault) => {
                self.note(call, folder, name, fault);
                Err(fault.failed())
            }
        }
    }

    /// The answer of a call on a file that must be there.
    pub(crate) fn missing<T: Drop>(
        &self,
        call: &'static str,
        folder: &str,
        name: &str,
        answer: Result<T, SystemFault>,
    ) -> Result<T, FolderFault>
        ensures same { IfOk result (λ v. answer ≡ Ok v) }
        ensures passed { IfOk answer (λ v. result ≡ Ok v) }
        ensures missing { IfErr answer (λ f. (result ≡ Err FolderFault.Missing)
            ↔ (fault_kind f ≡ ErrorKind.NotFound)) }
        ensures err { IfErr result NotExists }
    {
        match answer {
            Ok(value) => Ok(value),
            Err(fault) => {
                self.note(call, folder, name, fault);
                Err(fault.missing())
            }
        }
    }

    /// The answer of a call that makes a file.
    pub(crate) fn exists(
        &self,
        call: &'static str,
        folder: &str,
        name: &str,
        answer: Result<(), SystemFault>,
    ) -> Result<(), FolderFault>
        ensures same { IfOk result (λ v. answer ≡ Ok v) }
        ensures err { IfErr result NotMissing }
    {
        match answer {
            Ok(()) => Ok(()),
            Err(fault) => {
                self.note(call, folder, name, fault);
                Err(fault.exists())
            }
        }
    }

    /// Opens a file. What has its name is looked at before, links followed: the opening of a pipe
    /// would wait. Where it is refused for want of a descriptor, here and below, the files that are
    /// kept open are closed, and it is tried once more.
    pub(crate) fn open_regular(
        &mut self,
        name: &str,
        options: &OpenOptions,
    ) -> Result<File, SystemFault>
        ensures { self.new.held ≡ self.old.held }
    {
        let path = self.folder.path_of(self.rt.alloc(), name)?;
        match fs::metadata(&self.rt, path.as_str()) {
            Ok(found) if !found.is_file() => return Err(irregular()),
            _ => {}
        }
        asked(match options.open(&self.rt, path.as_str()) {
            Err(error) if self.open_files.give_way(&error) => {
                options.open(&self.rt, path.as_str())
            }
            answer => answer,
        })
    }

    /// Opens a file, to put bytes behind its own, or to make these durable.
    fn open_to_append(&mut self, name: &str) -> Result<File, SystemFault> {
        let mut options = OpenOptions::new();
        options.append(true);
        self.open_regular(name, &options)
    }

    /// Makes a file that must not be there, with these bytes. Where they can't be written it is
    /// taken away again, so that it takes no room on a device that may be full; whether that was
    /// refused too is not told.
    fn fill_new(&mut self, path: &str, bytes: &[u8]) -> Result<(), SystemFault> {
        let made = match File::create_new(&self.rt, path) {
            Err(error) if self.open_files.give_way(&error) => File::create_new(&self.rt, path),
            answer => answer,
        };
        match made {
            Ok(mut file) => {
                let written = file.write_all(bytes);
                if written.is_err() {
                    let _ = fs::remove_file(&self.rt, path);
                }
                acted(written)
            }
            Err(error) => Err(SystemFault::asked(error)),
        }
    }

    pub(crate) fn make(&mut self, name: &str, bytes: &[u8]) -> Result<(), SystemFault> {
        let path = self.folder.path_of(self.rt.alloc(), name)?;
        self.fill_new(path.as_str(), bytes)
    }

    pub(crate) fn write(&mut self, name: &str, bytes: &[u8]) -> Result<(), SystemFault> {
        let path = self.folder.path_of(self.rt.alloc(), name)?;
        self.clear(path.as_str())?;
        self.fill_new(path.as_str(), bytes)
    }

    /// Takes the name from the file or the link that has it, so that nothing is written through a
    /// link: `CURRENT`, a table, or a file of another folder may have the same bytes.
    fn clear(&self, path: &str) -> Result<(), SystemFault> {
        match fs::metadata(&self.rt, path) {
            Ok(found) if !found.is_file() => return Err(irregular()),
            _ => {}
        }
        match fs::remove_file(&self.rt, path) {
            Err(error) if error.kind() != io::ErrorKind::NotFound => Err(SystemFault::asked(error)),
            _ => Ok(()),
        }
    }

    pub(crate) fn append(&mut self, name: &str, bytes: &[u8]) -> Result<(), SystemFault> {
        let mut file = self.open_to_append(name)?;
        acted(file.write_all(bytes))
    }

    pub(crate) fn sync(&mut self, name: &str) -> Result<(), SystemFault> {
        let file = self.open_to_append(name)?;
        acted(file.sync_all())
    }

    pub(crate) fn sync_folder(&self) -> Result<(), SystemFault> {
        acted(self.folder.sync())
    }

    pub(crate) fn rename(&self, from: &str, to: &str) -> Result<(), SystemFault> {
        let from = self.folder.path_of(self.rt.alloc(), from)?;
        let to = self.folder.path_of(self.rt.alloc(), to)?;
        asked(fs::rename(&self.rt, from.as_str(), to.as_str()))
    }

    /// Removes a file, and closes those that are kept open: it may be one of them.
    pub(crate) fn remove(&mut self, name: &str) -> Result<(), SystemFault> {
        let removed = self.try_remove(name);
        self.open_files.removed();
        removed
    }

    /// Asks for the removal, and closes nothing.
    fn try_remove(&self, name: &str) -> Result<(), SystemFault> {
        let path = self.folder.path_of(self.rt.alloc(), name)?;
        asked(fs::remove_file(&self.rt, path.as_str()))
    }

    pub(crate) fn length(&self, name: &str) -> Result<u64, SystemFault> {
        let path = self.folder.path_of(self.rt.alloc(), name)?;
        match fs::metadata(&self.rt, path.as_str()) {
            Ok(found) if found.is_file() => Ok(found.len()),
            Ok(_) => Err(irregular()),
            Err(error) => Err(SystemFault::from(error)),
        }
    }

    /// How many bytes a file has that may have `most`. It is as `length`, which opens nothing.
    pub(crate) fn length_within(&self, name: &str, most: usize) -> Result<u64, SystemFault>
        ensures { IfOk result (λ n. n ≤ most) }
    {
        let length = self.length(name)?;
        at_most(length, most, ErrorKind::Other)?;
        Ok(length)
    }

    /// Reads a part of a file: with the one that is kept open for the mark of this index, or it is
    /// opened and kept.
    pub(crate) fn read_part(
        &mut self,
        alloc: Global,
        name: &str,
        mark: usize,
        offset: u64,
        len: usize,
    ) -> Result<Vec<u8>, SystemFault> {
        let mut bytes = vec![in alloc; 0u8; len]?;
        self.read_into(name, mark, offset, bytes.as_mut_slice())?;
        Ok(bytes)
    }

    /// Fills the bytes from the file that is kept open for the mark, or opens it.
    fn read_into(
        &mut self,
        name: &str,
        mark: usize,
        offset: u64,
        bytes: &mut [u8],
    ) -> Result<(), SystemFault> {
        let Some(file) = self.open_files.of(mark) else {
            return self.read_anew(name, mark, offset, bytes);
        };
        match file.read_exact_at(bytes, offset) {
            Ok(()) => Ok(()),
            Err(error) => {
                self.open_files.make_room(mark);
                Err(SystemFault::from(error))
            }
        }
    }

    /// Opens the file in place of what is in the mark's slot, reads, and keeps it where that went.
    fn read_anew(
        &mut self,
        name: &str,
        mark: usize,
        offset: u64,
        bytes: &mut [u8],
    ) -> Result<(), SystemFault> {
        self.open_files.make_room(mark);
        let mut options = OpenOptions::new();
        options.read(true);
        let file = self.open_regular(name, &options)?;
        match file.read_exact_at(bytes, offset) {
            Ok(()) => {
                self.open_files.keep(mark, file);
                Ok(())
            }
            Err(error) => Err(SystemFault::from(error)),
        }
    }

    /// Reads a file whole that has at most `most` bytes. One that has more is refused by this kind
    /// of error, and none of it is read, unless it grew since its length was asked. Memory is asked
    /// for once.
    pub(crate) fn load(
        &mut self,
        alloc: Global,
        name: &str,
        most: usize,
        larger: ErrorKind,
    ) -> Result<Vec<u8>, SystemFault>
        ensures { IfOk result (λ v. length v.items ≤ most) }
    {
        let file = self.open_regular(name, OpenOptions::new().read(true))?;
        let length = at_most(file.metadata()?.len(), most, larger)?;
        let mut bytes = Vec::with_capacity(alloc, length.saturating_add(1))?;
        file.take((most as u64).saturating_add(1))
            .read_to_end(&mut bytes)?;
        at_most(bytes.len() as u64, most, larger)?;
        Ok(bytes)
    }

    pub(crate) fn list(&mut self, alloc: Global) -> Result<Vec<String>, SystemFault> {
        let entries = match fs::read_dir(&self.rt, self.folder.path()) {
            Err(error) if self.open_files.give_way(&error) => {
                fs::read_dir(&self.rt, self.folder.path())
            }
            answer => answer,
        }?;
        Ok(names_of(&self.rt, alloc, entries)?)
    }
}
