//! The calls on a folder of the system. Each makes one, and notes it with its answer.

ghost use Rattle.std.specs.Prelude.{◌≡◌, ◌+◌, ◌≤◌, ◌^◌, ◌∷◌, [], Ok, Err, length, take, drop};
ghost use Rattle.std.specs.Prelude.{IfOk, IfErr, IfSome, IfNone, List, ℕ, string_bytes};
ghost use Rattle.boxcar.specs.Table.{Shows};
ghost use Rattle.lsm_folder.specs.Calls.{opened};
ghost use Rattle.lsm_folder.specs.FolderFault.{NotMissing, NotExists, NotNamed};
ghost use Rattle.lsm_folder.specs.SystemFault.{fault_kind};
ghost use Rattle.lsm_shelf.specs.Place.{IsAtPath};
ghost use Rattle.lsm_folder.specs.SystemFolder.{system_calls, system_place, system_mark_name};
ghost use Rattle.lsm_folder.specs.SystemFolder.{system_mark_image};

use crate::finding_calls::FindingCalls;
use crate::folder_calls::{FolderCalls, MAX_LOAD};
use crate::folder_fault::FolderFault;
use crate::lock_kind::LockKind;
use crate::log::{Appended, FolderSynced, Made, Removed, Renamed, Synced, Wrote, answered};
use crate::reasons::Reasons;
use crate::seen_log::SeenLog;
use crate::system_fault::SystemFault;
use crate::system_files::SystemFiles;
use crate::system_folder::SystemFolder;
use crate::system_mark::{Facts, SystemMark};
use crate::tags::tag_of;
use crate::witness::Witness;
use boxcar::tag::{Names, Tag};
use std::alloc::{AllocError, Global};
use std::fs::{File, Files};
use std::io::{self, ErrorKind};
use std::sync::{Arc, Wait};

/// The image of a mark, for contracts alone.
pub(crate) struct OfMark;

impl<W: Witness> Names<SystemMark<W>> for OfMark {
    ghost use Rattle.lsm_folder.specs.SystemFolder.{system_mark_image};

    ghost numbers = { system_mark_image W.image };
}

fn image_of<W: Witness>(mark: &SystemMark<W>) -> Tag
    ensures { result.numbers ≡ system_mark_image W.image mark.now }
{
    Tag::of::<SystemMark<W>, OfMark>(mark)
}

/// What the witness did not see is refused, as a file that can't be read. What the system refused,
/// and what is that part of the file's bytes, is passed on as it is.
fn let_through<W: Witness>(
    facts: &Facts<W>,
    offset: u64,
    len: usize,
    outcome: Result<Vec<u8>, SystemFault>,
) -> Result<Vec<u8>, SystemFault>
    requires inside { offset + len ≤ length (W.image facts.now.kept) }
    ensures seen { IfOk result (λ v. W.happened (W.image facts.now.kept) offset len v.items) }
    ensures same { IfOk result (λ v. outcome ≡ Ok v) }
    ensures passed { IfOk outcome (λ v. v.items
        ≡ take len (drop offset (W.image facts.now.kept)) → result ≡ Ok v) }
    ensures unseen { IfOk outcome (λ _. IfErr result (λ e. fault_kind e ≡ ErrorKind.Other)) }
    ensures refused { IfErr outcome (λ e. result ≡ Err e) }
{
    let bytes = outcome?;
    if W::saw(&facts.kept, offset as usize, len, bytes.as_slice()) {
        Ok(bytes)
    } else {
        Err(SystemFault::Unacted(io::Error::other("other bytes than before")))
    }
}

/// A mark of a file of this name and these bytes.
fn marked<W: Witness, T: Wait>(
    rt: &T,
    alloc: Global,
    marks: &boxcar::Vec<Facts<W>>,
    name: &str,
    bytes: &[u8],
) -> Result<SystemMark<W>, FolderFault>
    ensures name { IfOk result (λ m. system_mark_name m ≡ name.now) }
    ensures image { IfOk result (λ m. system_mark_image W.image m ≡ bytes.now) }
    ensures here { IfOk result (λ m. Shows marks.now m.token) }
    ensures err { IfErr result (λ e. e ≡ FolderFault.OutOfMemory) }
{
    let facts = Facts {
        name: tag_of(name.as_bytes()),
        kept: W::keep(alloc, bytes)?,
    };
    shown(rt, marks, facts)
}

/// A mark of these facts.
fn shown<W: Witness, T: Wait>(
    rt: &T,
    marks: &boxcar::Vec<Facts<W>>,
    facts: Facts<W>,
) -> Result<SystemMark<W>, FolderFault>
    ensures facts { IfOk result (λ m. m.token.value ≡ facts) }
    ensures here { IfOk result (λ m. Shows marks.now m.token) }
    ensures err { IfErr result (λ e. e ≡ FolderFault.OutOfMemory) }
{
    match marks.push_shown(rt, facts) {
        Ok(token) => Ok(SystemMark { token }),
        Err(_) => Err(FolderFault::OutOfMemory),
    }
}

/// What is known of a file of which only the length is asked, and that. `None` where the witness
/// needs its bytes.
fn measured<R: Files<File = File> + AllocGlobal + Clone + Drop, W: Witness>(
    files: &SystemFiles<R>,
    folder: &str,
    name: &str,
) -> Result<(Option<Facts<W>>, u64), FolderFault>
    ensures name { IfOk result (λ r. IfSome r.0 (λ f. f.name.numbers ≡ name.now)) }
    ensures size { IfOk result (λ r. IfSome r.0 (λ f. length (W.image f.kept) ≡ r.1)) }
    ensures held { IfOk result (λ r.
        IfSome r.0 (λ f. W.holds folder.now name.now (W.image f.kept))) }
    ensures needed { IfOk result (λ r.
        IfNone r.0 ((bytes : List ℕ) → W.holds folder.now name.now bytes)) }
    ensures limit { IfOk result (λ r. r.1 ≤ 2 ^ 30) }
    ensures err { IfErr result NotExists }
{
    let length = files.length_within(name, MAX_LOAD);
    let size = files.missing("read", folder, name, length)?;
    let facts = match W::unread(folder, name, size) {
        Some(kept) => Some(Facts {
            name: tag_of(name.as_bytes()),
            kept,
        }),
        None => None,
    };
    Ok((facts, size))
}

/// Makes a file. What its mark needs is taken before.
fn make_marked<R: Files<File = File> + AllocGlobal + Clone + Drop, W: Witness, T: Wait>(
    rt: &T,
    files: &mut SystemFiles<R>,
    marks: &boxcar::Vec<Facts<W>>,
    folder: &str,
    name: &str,
    bytes: &[u8],
) -> Result<SystemMark<W>, FolderFault>
    ensures name { IfOk result (λ m. system_mark_name m ≡ name.now) }
    ensures image { IfOk result (λ m. system_mark_image W.image m ≡ bytes.now) }
    ensures here { IfOk result (λ m. Shows marks.now m.token) }
    ensures err { IfErr result NotMissing }
{
    let mark = marked(rt, files.rt.alloc(), marks, name, bytes)?;
    let made = files.make(name, bytes);
    match files.exists("make", folder, name, made) {
        Ok(()) => Ok(mark),
        Err(fault) => Err(fault),
    }
}

/// Reads a file whole.
fn load_marked<R: Files<File = File> + AllocGlobal + Clone + Drop, W: Witness, T: Wait>(
    rt: &T,
    files: &mut SystemFiles<R>,
    marks: &boxcar::Vec<Facts<W>>,
    alloc: Global,
    folder: &str,
    name: &str,
) -> Result<(SystemMark<W>, Vec<u8>), FolderFault>
    ensures name { IfOk result (λ r. system_mark_name r.0 ≡ name.now) }
    ensures image { IfOk result (λ r. system_mark_image W.image r.0 ≡ r.1.items) }
    ensures here { IfOk result (λ r. Shows marks.now r.0.token) }
    ensures limit { IfOk result (λ r. length r.1.items ≤ 2 ^ 30) }
    ensures err { IfErr result NotExists }
{
    let loaded = files.load(alloc, name, MAX_LOAD, ErrorKind::Other);
    let bytes = files.missing("read", folder, name, loaded)?;
    files.note_read(folder, name);
    match marked(rt, alloc, marks, name, bytes.as_slice()) {
        Ok(mark) => Ok((mark, bytes)),
        Err(fault) => Err(fault),
    }
}

/// Reads a file whole that has at most `most` bytes.
fn load_unmarked<R: Files<File = File> + AllocGlobal + Clone + Drop>(
    files: &mut SystemFiles<R>,
    alloc: Global,
    folder: &str,
    name: &str,
    most: usize,
) -> Result<((), Vec<u8>), FolderFault>
    ensures short { IfOk result (λ r. length r.1.items ≤ most) }
    ensures err { IfErr result NotExists }
{
    let loaded = files.load(alloc, name, most, ErrorKind::NotFound);
    let bytes = files.missing("read", folder, name, loaded)?;
    Ok(((), bytes))
}

impl<R: Files<File = File> + AllocGlobal + Clone + Drop, W: Witness> SystemFolder<R, W> {
    /// The folder of this path, or the one to which it is a link. `Failed` where it is no folder
    /// that can be opened.
    pub fn open(rt: R, path: &str) -> Result<SystemFolder<R, W>, FolderFault>
        ensures calls { IfOk result (λ f. system_calls f ≡ opened ∷ []) }
        ensures place { IfOk result (λ f. IsAtPath path.now (system_place f)) }
        ensures err { IfErr result NotNamed }
    {
        let reasons = Reasons::new(rt.alloc())?;
        SystemFolder::open_noting(rt, path, &reasons)
    }

    /// As `open`. What the system answers where it refuses a call of the folder or of its forks is
    /// kept in `reasons`, and which file was last read whole.
    pub fn open_noting(
        rt: R,
        path: &str,
        reasons: &Reasons,
    ) -> Result<SystemFolder<R, W>, FolderFault>
        ensures calls { IfOk result (λ f. system_calls f ≡ opened ∷ []) }
        ensures place { IfOk result (λ f. IsAtPath path.now (system_place f)) }
        ensures err { IfErr result NotNamed }
    {
        let alloc = rt.alloc();
        match SystemFiles::open(rt, path, reasons) {
            Ok(files) => SystemFolder::at(alloc, path, files),
            Err(fault) => Err(fault.failed()),
        }
    }

    /// The folder of this path, of which nothing was asked but that it be opened.
    fn at(
        alloc: Global,
        path: &str,
        files: SystemFiles<R>,
    ) -> Result<SystemFolder<R, W>, FolderFault>
        ensures calls { IfOk result (λ f. system_calls f ≡ opened ∷ []) }
        ensures place { IfOk result (λ f. IsAtPath path.now (system_place f)) }
        ensures err { IfErr result NotNamed }
    {
        match named(alloc, path) {
            Ok((path, marks)) => Ok(SystemFolder {
                path,
                marks,
                files,
                seen: SeenLog::opened(),
            }),
            Err(_) => Err(FolderFault::OutOfMemory),
        }
    }
}

/// A path, and no marks yet.
fn named<W: Witness>(
    alloc: Global,
    path: &str,
) -> Result<(String, Arc<boxcar::Vec<Facts<W>>>), AllocError>
    ensures { IfOk result (λ r. string_bytes r.0 ≡ path.now) }
{
    let marks = Arc::new(alloc, boxcar::Vec::new(alloc)?)?;
    Ok((String::from_str(alloc, path)?, marks))
}

impl<R: Files<File = File> + AllocGlobal + Clone + Drop, W: Witness> FolderCalls
    for SystemFolder<R, W> {
    ghost use Rattle.lsm_folder.specs.SystemFolder.{system_calls, system_place, IsOfSystem};

    type Mark = SystemMark<W>;

    ghost calls = { system_calls };

    ghost place = { system_place };

    ghost is_of = { IsOfSystem };

    fn alloc(&self) -> Global {
        self.files.rt.alloc()
    }

    fn make<T: Wait>(
        &mut self,
        rt: &T,
        name: &str,
        bytes: &[u8],
    ) -> Result<SystemMark<W>, FolderFault> {
        let folder = self.path.as_str();
        let answer = make_marked(rt, &mut self.files, &self.marks, folder, name, bytes);
        self.seen
            .add::<Made>(name.as_bytes(), bytes, &answered(&answer));
        answer
    }

    fn write<T: Wait>(&mut self, _rt: &T, name: &str, bytes: &[u8]) -> Result<(), FolderFault> {
        let folder = self.path.as_str();
        let outcome = self.files.write(name, bytes);
        let answer = self.files.failed("write", folder, name, outcome);
        self.seen.add::<Wrote>(name.as_bytes(), bytes, &answer);
        answer
    }

    fn append<T: Wait>(&mut self, _rt: &T, name: &str, bytes: &[u8]) -> Result<(), FolderFault> {
        let folder = self.path.as_str();
        let outcome = self.files.append(name, bytes);
        let answer = self.files.missing("append", folder, name, outcome);
        self.seen.add::<Appended>(name.as_bytes(), bytes, &answer);
        answer
    }

    fn sync<T: Wait>(&mut self, _rt: &T, name: &str) -> Result<(), FolderFault> {
        let folder = self.path.as_str();
        let outcome = self.files.sync(name);
        let answer = self.files.missing("sync", folder, name, outcome);
        self.seen.add::<Synced>(name.as_bytes(), &[], &answer);
        answer
    }

    fn sync_folder<T: Wait>(&mut self, _rt: &T) -> Result<(), FolderFault> {
        let folder = self.path.as_str();
        let outcome = self.files.sync_folder();
        let answer = self.files.failed("sync", folder, "", outcome);
        self.seen.add::<FolderSynced>(&[], &[], &answer);
        answer
    }

    fn rename<T: Wait>(&mut self, _rt: &T, from: &str, to: &str) -> Result<(), FolderFault> {
        let folder = self.path.as_str();
        let outcome = self.files.rename(from, to);
        let answer = self.files.missing("rename", folder, from, outcome);
        self.seen
            .add::<Renamed>(from.as_bytes(), to.as_bytes(), &answer);
        answer
    }

    fn remove<T: Wait>(&mut self, _rt: &T, name: &str) -> Result<(), FolderFault> {
        let folder = self.path.as_str();
        let outcome = self.files.remove(name);
        let answer = self.files.missing("remove", folder, name, outcome);
        self.seen.add::<Removed>(name.as_bytes(), &[], &answer);
        answer
    }

    fn lock<T: Wait>(&mut self, _rt: &T, name: &str, kind: LockKind) -> Result<bool, FolderFault> {
        let folder = self.path.as_str();
        let outcome = self.files.lock(name, kind);
        let answer = self.files.missing("lock", folder, name, outcome);
        self.seen.add_lock(name.as_bytes(), kind, &answer);
        answer
    }

    fn length<T: Wait>(&mut self, _rt: &T, name: &str) -> Result<u64, FolderFault> {
        let folder = self.path.as_str();
        let outcome = self.files.length(name);
        let answer = self.files.missing("read", folder, name, outcome);
        self.seen.add_length(name.as_bytes(), &answer);
        answer
    }

    fn read_part(
        &mut self,
        alloc: Global,
        name: &str,
        mark: &SystemMark<W>,
        offset: u64,
        len: usize,
    ) -> Result<Vec<u8>, FolderFault> {
        let folder = self.path.as_str();
        let index = mark.token.index();
        let outcome = self.files.read_part(alloc, name, index, offset, len);
        let facts = self.marks.value(&mark.token);
        let outcome = let_through(facts, offset, len, outcome);
        let answer = self.files.missing("read", folder, name, outcome);
        self.seen
            .add_read(name.as_bytes(), &image_of(mark), offset, len, &answer);
        answer
    }

    fn load<T: Wait>(
        &mut self,
        rt: &T,
        alloc: Global,
        name: &str,
    ) -> Result<(SystemMark<W>, Vec<u8>), FolderFault> {
        let folder = self.path.as_str();
        let answer = load_marked(rt, &mut self.files, &self.marks, alloc, folder, name);
        self.seen.add_load(name.as_bytes(), &answer);
        answer
    }

    fn load_short<T: Wait>(
        &mut self,
        _rt: &T,
        alloc: Global,
        name: &str,
        most: usize,
    ) -> Result<Vec<u8>, FolderFault> {
        let folder = self.path.as_str();
        let loaded = load_unmarked(&mut self.files, alloc, folder, name, most);
        self.seen.add_load(name.as_bytes(), &loaded);
        let (_, bytes) = loaded?;
        Ok(bytes)
    }

    fn list<T: Wait>(&mut self, _rt: &T, alloc: Global) -> Result<Vec<String>, FolderFault> {
        let folder = self.path.as_str();
        let outcome = self.files.list(alloc);
        let answer = self.files.failed("list", folder, "", outcome);
        self.seen.add_list(&answer);
        answer
    }

    fn fork(&self) -> Result<SystemFolder<R, W>, FolderFault> {
        let path = self.path.clone()?;
        let marks = Arc::try_clone(&self.marks)?;
        match self.files.fork() {
            Ok(files) => Ok(SystemFolder {
                path,
                marks,
                files,
                seen: SeenLog::empty(),
            }),
            Err(_) => Err(FolderFault::OutOfMemory),
        }
    }

    fn same(&self, a: &SystemMark<W>, b: &SystemMark<W>) -> bool {
        let same = a.token.index() == b.token.index();
        if same {
            self.marks.agrees(&a.token, &b.token);
        }
        same
    }
}

impl<R: Files<File = File> + AllocGlobal + Clone + Drop, W: Witness> FindingCalls
    for SystemFolder<R, W> {
    ghost use Rattle.lsm_folder.specs.Finding.{SystemHolds};

    ghost holds = { SystemHolds W.holds };

    fn find<T: Wait>(
        &mut self,
        rt: &T,
        alloc: Global,
        name: &str,
    ) -> Result<(SystemMark<W>, u64), FolderFault> {
        let folder = self.path.as_str();
        let (facts, size) = match measured::<R, W>(&self.files, folder, name) {
            Ok(known) => known,
            Err(fault) => {
                self.seen.add_length(name.as_bytes(), &Err(fault));
                return Err(fault);
            }
        };
        let Some(facts) = facts else {
            let (mark, bytes) = self.load(rt, alloc, name)?;
            return Ok((mark, bytes.len() as u64));
        };
        match shown(rt, &self.marks, facts) {
            Ok(mark) => {
                self.seen.add_length(name.as_bytes(), &Ok(size));
                Ok((mark, size))
            }
            Err(fault) => {
                self.seen.add_length(name.as_bytes(), &Err(fault));
                Err(fault)
            }
        }
    }
}

// `FolderCalls` asks for neither `Send` nor `Sync`: these two functions show that the folder and
// its marks are both.
fn crosses_threads<T: Send + Sync>(_: &T) {}

/// A folder of the system and its marks may go to another thread, and be shared by threads.
fn is_sent<
    R: Files<File = File> + AllocGlobal + Clone + Drop + Send + Sync,
    W: Witness<Kept: Send + Sync> + Send + Sync,
>(folder: &SystemFolder<R, W>, mark: &SystemMark<W>) {
    crosses_threads(folder);
    crosses_threads(mark);
}
