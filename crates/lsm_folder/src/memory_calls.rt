//! The calls on a folder in memory.

ghost use Rattle.std.specs.Prelude.{◌≡◌, ◌+◌, ◌≤◌, ◌∷◌, [], List, Some, None, length, take, drop};
ghost use Rattle.std.specs.Prelude.{IfOk, IfErr, MatchResult};
ghost use Rattle.lsm_folder.specs.FolderFault.{NotNamed};
ghost use Rattle.lsm_folder.specs.MemoryFolder.{memory_calls, memory_mark_image};
ghost use Rattle.lsm_folder.specs.Calls.{AreHonest};

use crate::finding_calls::FindingCalls;
use crate::folder_calls::{FolderCalls, MAX_LOAD};
use crate::folder_fault::FolderFault;
use crate::image::Image;
use crate::lock_kind::LockKind;
use crate::log::{Appended, FolderSynced, Log, Made, Removed, Renamed, Synced, Wrote, answered};
use crate::memory_files::MemoryFiles;
use crate::memory_folder::MemoryFolder;
use crate::memory_mark::MemoryMark;
use crate::tags::tag_of;
use boxcar::Pushed;
use boxcar::tag::{Names, Tag};
use std::alloc::{AllocError, Global};
use std::sync::{Arc, Wait};

/// Folders in memory are honest: the premise on folders can be met.
pub fn memory_is_honest()
    ensures { AreHonest memory_calls }
{}

/// The image of a mark, for contracts alone.
pub(crate) struct OfMark;

impl Names<MemoryMark> for OfMark {
    ghost use Rattle.lsm_folder.specs.MemoryFolder.{memory_mark_image};

    ghost numbers = { memory_mark_image };
}

fn image_of(mark: &MemoryMark) -> Tag
    ensures { result.numbers ≡ memory_mark_image mark.now }
{
    Tag::of::<MemoryMark, OfMark>(mark)
}

/// The mark of a file of this name.
fn mark_of(name: &str, token: Pushed<Image>) -> MemoryMark
    ensures name { result.name.numbers ≡ name.now }
    ensures token { result.token ≡ token }
{
    MemoryMark {
        name: tag_of(name.as_bytes()),
        token,
    }
}

impl MemoryFolder {
    /// A folder without files.
    pub fn new(alloc: Global) -> Result<MemoryFolder, AllocError>
        ensures { IfOk result (λ f. memory_calls f ≡ []) }
    {
        Ok(MemoryFolder {
            alloc,
            files: Arc::new(alloc, MemoryFiles::new(alloc)?)?,
            held: None,
            log: Log::empty(),
        })
    }

    /// Lets so many more calls through, counted over all forks, cuts the next, and fails each after
    /// it with `Failed`. The call that is cut answers `Failed` too, and has taken effect or not.
    pub fn stops_after(&self, calls: u64, takes_effect: bool) {
        self.files.stops.after(calls, takes_effect);
    }

    /// The folder as it is found after a crash at this moment, as a folder of its own that does not
    /// stop.
    ///
    /// A file has the bytes that a sync made durable, and the first `keep` of those that were
    /// written behind them. The names are those of the last sync of the folder, or, where
    /// `names_stay`, those of this moment: a disk may do either. Refused only by `OutOfMemory`.
    pub fn reopen<R: Wait>(
        &self,
        rt: &R,
        keep: usize,
        names_stay: bool,
    ) -> Result<MemoryFolder, FolderFault>
        ensures calls { IfOk result (λ f. memory_calls f ≡ []) }
        ensures err { IfErr result NotNamed }
    {
        let files = self.files.after_crash(rt, self.alloc, keep, names_stay)?;
        Ok(MemoryFolder {
            alloc: self.alloc,
            files: Arc::new(self.alloc, files)?,
            held: None,
            log: Log::empty(),
        })
    }
}

impl FolderCalls for MemoryFolder {
    ghost use Rattle.lsm_folder.specs.MemoryFolder.{memory_calls, memory_place, IsOfMemory};

    type Mark = MemoryMark;

    ghost calls = { memory_calls };

    ghost place = { memory_place };

    ghost is_of = { IsOfMemory };

    fn alloc(&self) -> Global {
        self.alloc
    }

    fn make<R: Wait>(
        &mut self,
        rt: &R,
        name: &str,
        bytes: &[u8],
    ) -> Result<MemoryMark, FolderFault> {
        let answer = self.files.make(rt, self.alloc, name, bytes);
        self.log
            .add::<Made>(name.as_bytes(), bytes, &answered(&answer));
        Ok(mark_of(name, answer?))
    }

    fn write<R: Wait>(&mut self, rt: &R, name: &str, bytes: &[u8]) -> Result<(), FolderFault> {
        let answer = self.files.write(rt, self.alloc, name, bytes);
        self.log.add::<Wrote>(name.as_bytes(), bytes, &answer);
        answer
    }

    fn append<R: Wait>(&mut self, rt: &R, name: &str, bytes: &[u8]) -> Result<(), FolderFault> {
        let answer = self.files.append(rt, self.alloc, name, bytes);
        self.log.add::<Appended>(name.as_bytes(), bytes, &answer);
        answer
    }

    fn sync<R: Wait>(&mut self, rt: &R, name: &str) -> Result<(), FolderFault> {
        let answer = self.files.sync(rt, name);
        self.log.add::<Synced>(name.as_bytes(), &[], &answer);
        answer
    }

    fn sync_folder<R: Wait>(&mut self, rt: &R) -> Result<(), FolderFault> {
        let answer = self.files.sync_folder(rt);
        self.log.add::<FolderSynced>(&[], &[], &answer);
        answer
    }

    fn rename<R: Wait>(&mut self, rt: &R, from: &str, to: &str) -> Result<(), FolderFault> {
        let answer = self.files.rename(rt, self.alloc, from, to);
        self.log
            .add::<Renamed>(from.as_bytes(), to.as_bytes(), &answer);
        answer
    }

    fn remove<R: Wait>(&mut self, rt: &R, name: &str) -> Result<(), FolderFault> {
        let answer = self.files.remove(rt, name);
        self.log.add::<Removed>(name.as_bytes(), &[], &answer);
        answer
    }

    fn lock<R: Wait>(&mut self, rt: &R, name: &str, kind: LockKind) -> Result<bool, FolderFault> {
        let answer = self.files.lock(rt, self.alloc, name, kind, &mut self.held);
        self.log.add_lock(name.as_bytes(), kind, &answer);
        answer
    }

    fn length<R: Wait>(&mut self, rt: &R, name: &str) -> Result<u64, FolderFault> {
        let answer = self.files.length(rt, name);
        self.log.add_length(name.as_bytes(), &answer);
        answer
    }

    fn read_part(
        &mut self,
        alloc: Global,
        name: &str,
        mark: &MemoryMark,
        offset: u64,
        len: usize,
    ) -> Result<Vec<u8>, FolderFault> {
        let answer = self.files.part(alloc, &mark.token, offset, len);
        self.log
            .add_read(name.as_bytes(), &image_of(mark), offset, len, &answer);
        answer
    }

    fn load<R: Wait>(
        &mut self,
        rt: &R,
        alloc: Global,
        name: &str,
    ) -> Result<(MemoryMark, Vec<u8>), FolderFault> {
        let answer = self
            .files
            .load(rt, alloc, name, MAX_LOAD, FolderFault::Failed);
        self.log.add_load(name.as_bytes(), &answer);
        let (token, bytes) = answer?;
        Ok((mark_of(name, token), bytes))
    }

    fn load_short<R: Wait>(
        &mut self,
        rt: &R,
        alloc: Global,
        name: &str,
        most: usize,
    ) -> Result<Vec<u8>, FolderFault> {
        let answer = self.files.load(rt, alloc, name, most, FolderFault::Missing);
        self.log.add_load(name.as_bytes(), &answer);
        let (_, bytes) = answer?;
        Ok(bytes)
    }

    fn list<R: Wait>(&mut self, rt: &R, alloc: Global) -> Result<Vec<String>, FolderFault> {
        let answer = self.files.list(rt, alloc);
        self.log.add_list(&answer);
        answer
    }

    fn fork(&self) -> Result<MemoryFolder, FolderFault> {
        Ok(MemoryFolder {
            alloc: self.alloc,
            files: Arc::try_clone(&self.files)?,
            held: None,
            log: Log::empty(),
        })
    }

    fn same(&self, a: &MemoryMark, b: &MemoryMark) -> bool {
        let same = a.token.index() == b.token.index();
        if same {
            self.files.images.agrees(&a.token, &b.token);
        }
        same
    }
}

impl FindingCalls for MemoryFolder {
    ghost holds = { λ _ _ _. Unit {0} };

    fn find<R: Wait>(
        &mut self,
        rt: &R,
        _alloc: Global,
        name: &str,
    ) -> Result<(MemoryMark, u64), FolderFault> {
        match self.files.find(rt, name, MAX_LOAD) {
            Ok((token, size)) => {
                self.log.add_length(name.as_bytes(), &Ok(size));
                Ok((mark_of(name, token), size))
            }
            Err(fault) => {
                self.log.add_length(name.as_bytes(), &Err(fault));
                Err(fault)
            }
        }
    }
}

// `FolderCalls` asks for neither `Send` nor `Sync`: these two functions show that the folder and
// its marks are both.
fn crosses_threads<T: Send + Sync>(_: &T) {}

/// A folder in memory and its marks may go to another thread, and be shared by threads.
fn is_sent(folder: &MemoryFolder, mark: &MemoryMark) {
    crosses_threads(folder);
    crosses_threads(mark);
}
