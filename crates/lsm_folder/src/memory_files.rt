//! The files of a folder in memory.

ghost use Rattle.std.specs.Prelude.{◌≡◌, ◌+◌, ◌≤◌, ◌++◌, length, take, drop, IfOk, IfErr};
ghost use Rattle.std.specs.Prelude.{OnOk, Some, None, IsSome, MatchBool};
ghost use Rattle.std.specs.Vec.{vec_len};
ghost use Rattle.boxcar.specs.Table.{Shows};
ghost use Rattle.lsm_folder.specs.Directory.{Names};
ghost use Rattle.lsm_folder.specs.FolderFault.{NotMissing, NotExists, NotNamed};

use crate::directory::Directory;
use crate::file_life::FileLife;
use crate::folder_fault::FolderFault;
use crate::image::Image;
use crate::lock_kind::LockKind;
use crate::memory_lock::MemoryLock;
use crate::stops::Stops;
use boxcar::Pushed;
use std::alloc::{AllocError, Global};
use std::sync::atomic::Ordering;
use std::sync::{Arc, Mutex, Wait};

/// What forks share: images, to which images are only added; the files and their names, under a
/// lock; and at which call the folder stops.
#[derive(Drop)]
pub(crate) struct MemoryFiles {
    pub(crate) images: boxcar::Vec<Image>,
    pub(crate) directory: Mutex<Directory>,
    pub(crate) stops: Stops,
}

/// `x_in` is `x` with the directory locked.
impl MemoryFiles {
    /// No files.
    pub(crate) fn new(alloc: Global) -> Result<MemoryFiles, AllocError> {
        Ok(MemoryFiles {
            images: boxcar::Vec::new(alloc)?,
            directory: Mutex::new(Directory::new(alloc)),
            stops: Stops::never(),
        })
    }

    fn push<R: Wait>(
        &self,
        rt: &R,
        bytes: Vec<u8>,
        life: Arc<FileLife>,
    ) -> Result<Pushed<Image>, FolderFault>
        ensures ok { IfOk result (λ t. (t.value.bytes ≡ bytes) × Shows self.now.images t) }
        ensures err { IfErr result (λ e. e ≡ FolderFault.OutOfMemory) }
    {
        match self.images.push_shown(rt, Image { bytes, life }) {
            Ok(token) => Ok(token),
            Err(_) => Err(FolderFault::OutOfMemory),
        }
    }

    /// The image of a file that is there.
    pub(crate) fn image<R: Wait>(
        &self,
        rt: &R,
        alloc: Global,
        bytes: &[u8],
    ) -> Result<Pushed<Image>, FolderFault>
        ensures ok { IfOk result (λ t. (t.value.bytes.items ≡ bytes.now)
            × Shows self.now.images t) }
        ensures err { IfErr result (λ e. e ≡ FolderFault.OutOfMemory) }
    {
        let bytes = Vec::from_slice(alloc, bytes)?;
        let life = Arc::new(alloc, FileLife::new())?;
        self.push(rt, bytes, life)
    }

    /// What shows the image of a file.
    pub(crate) fn shown(
        &self,
        directory: &Directory,
        number: usize,
    ) -> Result<Pushed<Image>, FolderFault>
        ensures ok { IfOk result (λ t. Shows self.now.images t) }
        ensures err { IfErr result NotExists }
    {
        let Some(file) = directory.files.get(number) else {
            return Err(FolderFault::Missing);
        };
        match self.images.witness(file.token.index()) {
            Some(token) => Ok(token),
            None => Err(FolderFault::Missing),
        }
    }

    /// The number of the file of this name, and what shows its image.
    fn found(
        &self,
        directory: &Directory,
        name: &str,
    ) -> Result<(usize, Pushed<Image>), FolderFault>
        ensures ok { IfOk result (λ f. Shows self.now.images f.1) }
        ensures err { IfErr result NotExists }
    {
        let Some(number) = directory.find(name) else {
            return Err(FolderFault::Missing);
        };
        match self.shown(directory, number) {
            Ok(token) => Ok((number, token)),
            Err(fault) => Err(fault),
        }
    }

    /// Marks the file of this name as gone, if there is one.
    fn lose(&self, directory: &Directory, name: &str) {
        if let Ok((_, token)) = self.found(directory, name) {
            self.images
                .value(&token)
                .life
                .gone
                .store(true, Ordering::SeqCst);
        }
    }

    /// Adds a file whose name no other has.
    fn add<R: Wait>(
        &self,
        rt: &R,
        alloc: Global,
        directory: &mut Directory,
        name: &str,
        bytes: &[u8],
    ) -> Result<Pushed<Image>, FolderFault>
        ensures ok { IfOk result (λ t. (t.value.bytes.items ≡ bytes.now)
            × Shows self.now.images t) }
        ensures names { OnOk result (Names directory.old.names directory.new.names name.now
            (Some (vec_len directory.old.files))) }
        ensures err { IfErr result (λ e. e ≡ FolderFault.OutOfMemory) }
    {
        let name = String::from_str(alloc, name)?;
        let token = self.image(rt, alloc, bytes)?;
        match directory.add(name, token.again(), 0) {
            Ok(()) => Ok(token),
            Err(_) => Err(FolderFault::OutOfMemory),
        }
    }

    pub(crate) fn make<R: Wait>(
        &self,
        rt: &R,
        alloc: Global,
        name: &str,
        bytes: &[u8],
    ) -> Result<Pushed<Image>, FolderFault>
        ensures ok { IfOk result (λ t. (t.value.bytes.items ≡ bytes.now)
            × Shows self.now.images t) }
        ensures err { IfErr result NotMissing }
    {
        let turn = self.stops.begin()?;
        turn.end(self.make_in(rt, alloc, &mut self.directory.lock(rt), name, bytes))
    }

    fn make_in<R: Wait>(
        &self,
        rt: &R,
        alloc: Global,
        directory: &mut Directory,
        name: &str,
        bytes: &[u8],
    ) -> Result<Pushed<Image>, FolderFault>
        ensures ok { IfOk result (λ t. (t.value.bytes.items ≡ bytes.now)
            × Shows self.now.images t) }
        ensures names { OnOk result (Names directory.old.names directory.new.names name.now
            (Some (vec_len directory.old.files))) }
        ensures err { IfErr result NotMissing }
    {
        match directory.find(name) {
            Some(_) => Err(FolderFault::Exists),
            None => self.add(rt, alloc, directory, name, bytes),
        }
    }

    pub(crate) fn write<R: Wait>(
        &self,
        rt: &R,
        alloc: Global,
        name: &str,
        bytes: &[u8],
    ) -> Result<(), FolderFault>
        ensures { IfErr result NotNamed }
    {
        let turn = self.stops.begin()?;
        turn.end(self.write_in(rt, alloc, &mut self.directory.lock(rt), name, bytes))
    }

    fn write_in<R: Wait>(
        &self,
        rt: &R,
        alloc: Global,
        directory: &mut Directory,
        name: &str,
        bytes: &[u8],
    ) -> Result<(), FolderFault>
        ensures { IfErr result NotNamed }
    {
        let Some(number) = directory.find(name) else {
            self.add(rt, alloc, directory, name, bytes)?;
            return Ok(());
        };
        let token = self.image(rt, alloc, bytes)?;
        self.lose(directory, name);
        directory.replace(number, token, 0);
        Ok(())
    }

    pub(crate) fn append<R: Wait>(
        &self,
        rt: &R,
        alloc: Global,
        name: &str,
        bytes: &[u8],
    ) -> Result<(), FolderFault>
        ensures { IfErr result NotExists }
    {
        let turn = self.stops.begin()?;
        turn.end(self.append_in(rt, alloc, &mut self.directory.lock(rt), name, bytes))
    }

    fn append_in<R: Wait>(
        &self,
        rt: &R,
        alloc: Global,
        directory: &mut Directory,
        name: &str,
        bytes: &[u8],
    ) -> Result<(), FolderFault>
        ensures { IfErr result NotExists }
    {
        let (number, token) = self.found(directory, name)?;
        let durable = directory.durable_of(number);
        let longer = self.longer(rt, alloc, &token, bytes)?;
        directory.replace(number, longer, durable);
        Ok(())
    }

    /// An image with these bytes behind those of another, for the same file.
    fn longer<R: Wait>(
        &self,
        rt: &R,
        alloc: Global,
        token: &Pushed<Image>,
        bytes: &[u8],
    ) -> Result<Pushed<Image>, FolderFault>
        requires { Shows self.now.images token.now }
        ensures ok { IfOk result (λ t. (t.value.bytes.items
            ≡ token.now.value.bytes.items ++ bytes.now) × Shows self.now.images t) }
        ensures err { IfErr result (λ e. e ≡ FolderFault.OutOfMemory) }
    {
        let image = self.images.value(token);
        let mut all = Vec::from_slice(alloc, image.bytes.as_slice())?;
        all.extend_from_slice(bytes)?;
        let life = Arc::try_clone(&image.life)?;
        self.push(rt, all, life)
    }

    pub(crate) fn sync<R: Wait>(&self, rt: &R, name: &str) -> Result<(), FolderFault>
        ensures { IfErr result NotExists }
    {
        let turn = self.stops.begin()?;
        turn.end(self.sync_in(&mut self.directory.lock(rt), name))
    }

    fn sync_in(&self, directory: &mut Directory, name: &str) -> Result<(), FolderFault>
        ensures { IfErr result NotExists }
    {
        let (number, token) = self.found(directory, name)?;
        let len = self.images.value(&token).bytes.len();
        directory.replace(number, token, len);
        Ok(())
    }

    pub(crate) fn sync_folder<R: Wait>(&self, rt: &R) -> Result<(), FolderFault>
        ensures { IfErr result NotNamed }
    {
        let turn = self.stops.begin()?;
        turn.end(self.keep_names(rt))
    }

    /// Makes the names durable.
    fn keep_names<R: Wait>(&self, rt: &R) -> Result<(), FolderFault>
        ensures { IfErr result (λ e. e ≡ FolderFault.OutOfMemory) }
    {
        let kept = self.directory.lock(rt).keep_names();
        Ok(kept?)
    }

    pub(crate) fn rename<R: Wait>(
        &self,
        rt: &R,
        alloc: Global,
        from: &str,
        to: &str,
    ) -> Result<(), FolderFault>
        ensures { IfErr result NotExists }
    {
        let turn = self.stops.begin()?;
        turn.end(self.rename_in(alloc, &mut self.directory.lock(rt), from, to))
    }

    fn rename_in(
        &self,
        alloc: Global,
        directory: &mut Directory,
        from: &str,
        to: &str,
    ) -> Result<(), FolderFault>
        ensures { IfErr result NotExists }
    {
        let Some(number) = directory.find(from) else {
            return Err(FolderFault::Missing);
        };
        if from == to {
            return Ok(());
        }
        let to_name = String::from_str(alloc, to)?;
        self.lose(directory, to);
        directory.rename(from, to_name, number)?;
        Ok(())
    }

    pub(crate) fn remove<R: Wait>(&self, rt: &R, name: &str) -> Result<(), FolderFault>
        ensures { IfErr result NotExists }
    {
        let turn = self.stops.begin()?;
        turn.end(self.remove_in(&mut self.directory.lock(rt), name))
    }

    fn remove_in(&self, directory: &mut Directory, name: &str) -> Result<(), FolderFault>
        ensures names { OnOk result (Names directory.old.names directory.new.names name.now None) }
        ensures files { directory.new.files ≡ directory.old.files }
        ensures err { IfErr result NotExists }
    {
        if directory.find(name).is_none() {
            return Err(FolderFault::Missing);
        }
        self.lose(directory, name);
        directory.remove(name);
        Ok(())
    }

    pub(crate) fn length<R: Wait>(&self, rt: &R, name: &str) -> Result<u64, FolderFault>
        ensures { IfErr result NotExists }
    {
        let turn = self.stops.begin()?;
        turn.end(self.length_in(&self.directory.lock(rt), name))
    }

    fn length_in(&self, directory: &Directory, name: &str) -> Result<u64, FolderFault>
        ensures { IfErr result NotExists }
    {
        let (_, token) = self.found(directory, name)?;
        Ok(self.images.value(&token).bytes.len() as u64)
    }

    /// What shows the image of a file, and how many bytes it has: at most `most`.
    pub(crate) fn find<R: Wait>(
        &self,
        rt: &R,
        name: &str,
        most: usize,
    ) -> Result<(Pushed<Image>, u64), FolderFault>
        ensures ok { IfOk result (λ r. (length r.0.value.bytes.items ≡ r.1)
            × Shows self.now.images r.0) }
        ensures limit { IfOk result (λ r. r.1 ≤ most) }
        ensures err { IfErr result NotExists }
    {
        let turn = self.stops.begin()?;
        turn.end(self.find_in(&self.directory.lock(rt), name, most))
    }

    fn find_in(
        &self,
        directory: &Directory,
        name: &str,
        most: usize,
    ) -> Result<(Pushed<Image>, u64), FolderFault>
        ensures ok { IfOk result (λ r. (length r.0.value.bytes.items ≡ r.1)
            × Shows self.now.images r.0) }
        ensures limit { IfOk result (λ r. r.1 ≤ most) }
        ensures err { IfErr result NotExists }
    {
        let (_, token) = self.found(directory, name)?;
        let len = self.images.value(&token).bytes.len();
        if len > most {
            return Err(FolderFault::Failed);
        }
        Ok((token, len as u64))
    }

    /// A part of a file of which a mark was given. No lock is taken: a flag beside the bytes says
    /// that the file is gone.
    pub(crate) fn part(
        &self,
        alloc: Global,
        token: &Pushed<Image>,
        offset: u64,
        len: usize,
    ) -> Result<Vec<u8>, FolderFault>
        requires here { Shows self.now.images token.now }
        requires inside { offset + len ≤ length token.now.value.bytes.items }
        ensures ok { IfOk result (λ v.
            v.items ≡ take len (drop offset token.now.value.bytes.items)) }
        ensures err { IfErr result NotExists }
    {
        let turn = self.stops.begin()?;
        turn.end(self.part_now(alloc, token, offset as usize, len))
    }

    /// `part` with its turn begun.
    fn part_now(
        &self,
        alloc: Global,
        token: &Pushed<Image>,
        offset: usize,
        len: usize,
    ) -> Result<Vec<u8>, FolderFault>
        requires here { Shows self.now.images token.now }
        requires inside { offset + len ≤ length token.now.value.bytes.items }
        ensures ok { IfOk result (λ v.
            v.items ≡ take len (drop offset token.now.value.bytes.items)) }
        ensures err { IfErr result NotExists }
    {
        let image = self.images.value(token);
        if image.life.gone.load(Ordering::SeqCst) {
            return Err(FolderFault::Missing);
        }
        Ok(Vec::from_slice(alloc, &image.bytes[offset..offset + len])?)
    }

    /// Reads a file whole that has at most `most` bytes. One that has more is refused by this fault.
    pub(crate) fn load<R: Wait>(
        &self,
        rt: &R,
        alloc: Global,
        name: &str,
        most: usize,
        larger: FolderFault,
    ) -> Result<(Pushed<Image>, Vec<u8>), FolderFault>
        requires { NotExists larger }
        ensures ok { IfOk result (λ r. (r.0.value.bytes.items ≡ r.1.items)
            × Shows self.now.images r.0) }
        ensures limit { IfOk result (λ r. length r.1.items ≤ most) }
        ensures err { IfErr result NotExists }
    {
        let turn = self.stops.begin()?;
        turn.end(self.load_in(alloc, &self.directory.lock(rt), name, most, larger))
    }

    fn load_in(
        &self,
        alloc: Global,
        directory: &Directory,
        name: &str,
        most: usize,
        larger: FolderFault,
    ) -> Result<(Pushed<Image>, Vec<u8>), FolderFault>
        requires { NotExists larger }
        ensures ok { IfOk result (λ r. (r.0.value.bytes.items ≡ r.1.items)
            × Shows self.now.images r.0) }
        ensures limit { IfOk result (λ r. length r.1.items ≤ most) }
        ensures err { IfErr result NotExists }
    {
        let (_, token) = self.found(directory, name)?;
        let image = self.images.value(&token);
        if image.bytes.len() > most {
            return Err(larger);
        }
        let bytes = Vec::from_slice(alloc, image.bytes.as_slice())?;
        Ok((token, bytes))
    }

    pub(crate) fn list<R: Wait>(&self, rt: &R, alloc: Global) -> Result<Vec<String>, FolderFault>
        ensures { IfErr result NotNamed }
    {
        let turn = self.stops.begin()?;
        turn.end(self.list_in(&self.directory.lock(rt), alloc))
    }

    fn list_in(&self, directory: &Directory, alloc: Global) -> Result<Vec<String>, FolderFault>
        ensures { IfErr result NotNamed }
    {
        Ok(directory.listed(alloc)?)
    }

    /// What shows the image of a file that is to be locked, which an exclusive lock makes.
    fn lockable<R: Wait>(
        &self,
        rt: &R,
        alloc: Global,
        directory: &mut Directory,
        name: &str,
        kind: LockKind,
    ) -> Result<Pushed<Image>, FolderFault>
        ensures ok { IfOk result (λ t. Shows self.now.images t) }
        ensures err { IfErr result NotExists }
    {
        match directory.find(name) {
            Some(number) => self.shown(directory, number),
            None if kind == LockKind::Shared => Err(FolderFault::Missing),
            None => self.add(rt, alloc, directory, name, &[]),
        }
    }

    /// Holds the lock from now on. False where another holds it.
    pub(crate) fn lock<R: Wait>(
        &self,
        rt: &R,
        alloc: Global,
        name: &str,
        kind: LockKind,
        held: &mut Option<MemoryLock>,
    ) -> Result<bool, FolderFault>
        ensures taken { IfOk result (λ b. MatchBool b (IsSome held.new) (held.new ≡ held.old)) }
        ensures kept { IfErr result (λ _. held.new ≡ held.old) }
        ensures err { IfErr result NotExists }
    {
        let turn = self.stops.begin()?;
        let answer = self.lock_in(rt, alloc, &mut self.directory.lock(rt), name, kind);
        match turn.end(answer) {
            Ok(None) => Ok(false),
            Ok(taken) => {
                *held = taken;
                Ok(true)
            }
            Err(fault) => Err(fault),
        }
    }

    /// `None` where another holds the lock.
    fn lock_in<R: Wait>(
        &self,
        rt: &R,
        alloc: Global,
        directory: &mut Directory,
        name: &str,
        kind: LockKind,
    ) -> Result<Option<MemoryLock>, FolderFault>
        ensures { IfErr result NotExists }
    {
        let token = self.lockable(rt, alloc, directory, name, kind)?;
        let life = Arc::try_clone(&self.images.value(&token).life)?;
        Ok(MemoryLock::take(life, kind))
    }

    /// Leaves a file to another folder: its durable bytes, and `keep` of those behind them.
    fn leave<R: Wait>(
        &self,
        rt: &R,
        alloc: Global,
        directory: &Directory,
        name: &str,
        number: usize,
        keep: usize,
        left: &MemoryFiles,
    ) -> Result<(), FolderFault>
        ensures { IfErr result NotNamed }
    {
        let Ok(token) = self.shown(directory, number) else {
            return Ok(());
        };
        let bytes = self.images.value(&token).bytes.as_slice();
        let len = directory
            .durable_of(number)
            .saturating_add(keep)
            .min(bytes.len());
        let token = left.image(rt, alloc, &bytes[..len])?;
        let name = String::from_str(alloc, name)?;
        left.directory.lock(rt).add(name, token, len)?;
        Ok(())
    }

    /// Leaves each of the names that a crash leaves to another folder.
    fn leave_all<R: Wait>(
        &self,
        rt: &R,
        alloc: Global,
        directory: &Directory,
        keep: usize,
        names_stay: bool,
        left: &MemoryFiles,
    ) -> Result<(), FolderFault>
        ensures { IfErr result NotNamed }
    {
        for (name, number) in directory.names_after(names_stay).iter() {
            self.leave(rt, alloc, directory, name.as_str(), *number, keep, left)?;
        }
        left.keep_names(rt)
    }

    /// What a crash leaves.
    pub(crate) fn after_crash<R: Wait>(
        &self,
        rt: &R,
        alloc: Global,
        keep: usize,
        names_stay: bool,
    ) -> Result<MemoryFiles, FolderFault>
        ensures { IfErr result NotNamed }
    {
        let left = MemoryFiles::new(alloc)?;
        let outcome = self.leave_all(rt, alloc, &self.directory.lock(rt), keep, names_stay, &left);
        outcome?;
        Ok(left)
    }
}
