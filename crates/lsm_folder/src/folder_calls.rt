//! What a shelf asks of a folder.

ghost use Rattle.std.specs.Prelude.{◌≡◌, ℕ, ◌+◌, ◌≤◌, ◌^◌, List, [], ◌∷◌, Ok, Err, length, map};
ghost use Rattle.std.specs.Prelude.{IfOk, IfErr, IsTrue, MatchResult, string_bytes};
ghost use Rattle.lsm_shelf.specs.Place.{Place};
ghost use Rattle.lsm_folder.specs.FolderFault.{NotMissing, NotExists, NotNamed};
ghost use Rattle.lsm_folder.specs.Calls.{Call, answer_of, made, wrote, appended, synced};
ghost use Rattle.lsm_folder.specs.Calls.{folder_synced, renamed, removed, measured, read, loaded};
ghost use Rattle.lsm_folder.specs.Calls.{listed, locked};

use crate::folder_fault::FolderFault;
use crate::lock_kind::LockKind;
use crate::mark::Mark;
use std::alloc::Global;
use std::sync::Wait;

/// The most bytes that `load` reads: 1 GiB.
pub(crate) const MAX_LOAD: usize = 1 << 30;

/// The calls on one folder. Files are named by their names in it.
///
/// Each method that takes `&mut self` makes one call and notes it with its answer, the fault where
/// it was refused (`noted`): exactly one, also where memory was refused before the call acted.
/// `OutOfMemory` can come from each of them, and means that the call did not act: nothing was made,
/// emptied, written, synced, renamed, removed or locked. A folder that wants memory once a file is
/// open for such a call, or once it asked for the change of a name, answers `Failed`, after which
/// the call may have acted or not. `fault` says which other refusals can come. Nothing is said of
/// what a read answers: that is `AreHonest`, a premise on the type. One value has one user; `fork`
/// makes another on the same folder.
///
/// A file is a regular one: another thing of its name, such as a pipe or a folder, is `Failed` to
/// each call that reads, writes, syncs, measures or locks it. `rename` and `remove` take a pipe as
/// they take a file.
pub trait FolderCalls: Drop {
    /// What stands for a file that was made or read whole.
    type Mark: Mark;

    /// Each call so far with its answer, the newest first.
    ghost calls: { Self → List Call };

    /// Which folder it is. Forks share it.
    ghost place: { Self → Place };

    /// The mark is of a file of this folder.
    ghost is_of: { Place → Self.Mark → Type 0 };

    /// What gives memory to the calls that are not passed an allocator, and may give it to the
    /// caller's names.
    fn alloc(&self) -> Global;

    /// Makes a file that was not there, with these bytes. `Exists` where a file has the name. After
    /// `Failed` the file may be there with a part of the bytes; after `OutOfMemory` there is none.
    fn make<R: Wait>(&mut self, rt: &R, name: &str, bytes: &[u8]) -> Result<Self::Mark, FolderFault>
        ensures noted { calls self.new
            ≡ made name.now bytes.now (answer_of result) ∷ calls self.old }
        ensures place { place self.new ≡ place self.old }
        ensures mark { IfOk result (λ m. (Self.Mark.name m ≡ name.now)
            × (Self.Mark.image m ≡ bytes.now) × is_of (place self.old) m) }
        ensures fault { IfErr result NotMissing };

    /// Makes a file in place of what has the name, and puts these bytes into it: nothing is written
    /// through a link. After `Failed` it may be there with a part of them, or gone; after
    /// `OutOfMemory` it is as it was.
    fn write<R: Wait>(&mut self, rt: &R, name: &str, bytes: &[u8]) -> Result<(), FolderFault>
        ensures noted { calls self.new ≡ wrote name.now bytes.now result ∷ calls self.old }
        ensures place { place self.new ≡ place self.old }
        ensures fault { IfErr result NotNamed };

    /// Puts these bytes behind those of a file. `Missing` where there is none. After `Failed` a
    /// front of them may be there; after `OutOfMemory` and `Missing` none is.
    fn append<R: Wait>(&mut self, rt: &R, name: &str, bytes: &[u8]) -> Result<(), FolderFault>
        ensures noted { calls self.new ≡ appended name.now bytes.now result ∷ calls self.old }
        ensures place { place self.new ≡ place self.old }
        ensures fault { IfErr result NotExists };

    /// Makes a file's bytes durable. `Missing` where there is none. After `OutOfMemory` it was not
    /// tried; after `Failed` it may be that they never will be.
    fn sync<R: Wait>(&mut self, rt: &R, name: &str) -> Result<(), FolderFault>
        ensures noted { calls self.new ≡ synced name.now result ∷ calls self.old }
        ensures place { place self.new ≡ place self.old }
        ensures fault { IfErr result NotExists };

    /// Makes the folder's names durable. After `OutOfMemory` it was not tried.
    fn sync_folder<R: Wait>(&mut self, rt: &R) -> Result<(), FolderFault>
        ensures noted { calls self.new ≡ folder_synced result ∷ calls self.old }
        ensures place { place self.new ≡ place self.old }
        ensures fault { IfErr result NotNamed };

    /// Gives the file of the first name the second, in place of the file that has it. `Missing`
    /// where no file has the first. After `Failed` it may have it; after `OutOfMemory` not.
    fn rename<R: Wait>(&mut self, rt: &R, from: &str, to: &str) -> Result<(), FolderFault>
        ensures noted { calls self.new ≡ renamed from.now to.now result ∷ calls self.old }
        ensures place { place self.new ≡ place self.old }
        ensures fault { IfErr result NotExists };

    /// Takes a file out of the folder. `Missing` where there is none. After `Failed` it may be
    /// gone; after `OutOfMemory` it is there.
    fn remove<R: Wait>(&mut self, rt: &R, name: &str) -> Result<(), FolderFault>
        ensures noted { calls self.new ≡ removed name.now result ∷ calls self.old }
        ensures place { place self.new ≡ place self.old }
        ensures fault { IfErr result NotExists };

    /// Locks a file, unless a lock of it that is held forbids this one, be it the value's own: an
    /// exclusive lock forbids each other, and is forbidden by each other. True where it is held
    /// now: until the value is let go, or locks once more with the answer true; after each other
    /// answer it holds what it held before. Forks do not hold it. `Missing` where there is no such
    /// file, which an exclusive lock makes; after `Failed` it may be made, and no lock was taken.
    fn lock<R: Wait>(&mut self, rt: &R, name: &str, kind: LockKind) -> Result<bool, FolderFault>
        ensures noted { calls self.new ≡ locked name.now kind result ∷ calls self.old }
        ensures place { place self.new ≡ place self.old }
        ensures fault { IfErr result NotExists };

    /// How many bytes a file has. `Missing` where there is none.
    fn length<R: Wait>(&mut self, rt: &R, name: &str) -> Result<u64, FolderFault>
        ensures noted { MatchResult result
            (λ n. calls self.new ≡ measured name.now (Ok n) ∷ calls self.old)
            (λ e. calls self.new ≡ measured name.now (Err e) ∷ calls self.old) }
        ensures place { place self.new ≡ place self.old }
        ensures fault { IfErr result NotExists };

    /// Reads `len` bytes at `offset` of a file of which the folder gave a mark. `Missing` where it
    /// was removed.
    fn read_part(
        &mut self,
        alloc: Global,
        name: &str,
        mark: &Self::Mark,
        offset: u64,
        len: usize,
    ) -> Result<Vec<u8>, FolderFault>
        requires here { is_of (place self.old) mark.now }
        requires named { Self.Mark.name mark.now ≡ name.now }
        requires inside { offset + len ≤ length (Self.Mark.image mark.now) }
        ensures noted { MatchResult result (λ v. calls self.new ≡ read name.now (Self.Mark.image
            mark.now) offset len (Ok v.items) ∷ calls self.old) (λ e. calls self.new
            ≡ read name.now (Self.Mark.image mark.now) offset len (Err e) ∷ calls self.old) }
        ensures place { place self.new ≡ place self.old }
        ensures fault { IfErr result NotExists };

    /// Reads a file whole. `Missing` where there is none, `Failed` where it has more than 1 GiB.
    /// Here and in `load_short` no byte is read of a file that has more.
    fn load<R: Wait>(
        &mut self,
        rt: &R,
        alloc: Global,
        name: &str,
    ) -> Result<(Self::Mark, Vec<u8>), FolderFault>
        ensures noted { MatchResult result
            (λ r. calls self.new ≡ loaded name.now (Ok r.1.items) ∷ calls self.old)
            (λ e. calls self.new ≡ loaded name.now (Err e) ∷ calls self.old) }
        ensures place { place self.new ≡ place self.old }
        ensures mark { IfOk result (λ r. (Self.Mark.name r.0 ≡ name.now)
            × (Self.Mark.image r.0 ≡ r.1.items) × is_of (place self.old) r.0) }
        ensures limit { IfOk result (λ r. length r.1.items ≤ 2 ^ 30) }
        ensures fault { IfErr result NotExists };

    /// Reads a file whole that has at most `most` bytes. It gives no mark. `Missing` where there is
    /// none, or it has more.
    fn load_short<R: Wait>(
        &mut self,
        rt: &R,
        alloc: Global,
        name: &str,
        most: usize,
    ) -> Result<Vec<u8>, FolderFault>
        ensures noted { MatchResult result
            (λ v. calls self.new ≡ loaded name.now (Ok v.items) ∷ calls self.old)
            (λ e. calls self.new ≡ loaded name.now (Err e) ∷ calls self.old) }
        ensures place { place self.new ≡ place self.old }
        ensures short { IfOk result (λ v. length v.items ≤ most) }
        ensures fault { IfErr result NotExists };

    /// The names of the folder's files, in no order. A folder in it, and a name that is no text, is
    /// left out.
    fn list<R: Wait>(&mut self, rt: &R, alloc: Global) -> Result<Vec<String>, FolderFault>
        ensures noted { MatchResult result
            (λ v. calls self.new ≡ listed (Ok (map string_bytes v.items)) ∷ calls self.old)
            (λ e. calls self.new ≡ listed (Err e) ∷ calls self.old) }
        ensures place { place self.new ≡ place self.old }
        ensures fault { IfErr result NotNamed };

    /// Another value on the same folder, which was asked nothing yet. Refused only by
    /// `OutOfMemory`.
    fn fork(&self) -> Result<Self, FolderFault>
        ensures fork { IfOk result (λ f. (calls f ≡ []) × (place f ≡ place self.now)) }
        ensures fault { IfErr result (λ e. e ≡ FolderFault.OutOfMemory) };

    /// Whether two marks are one, made by one call and its copies. Marks of different files or
    /// calls may have one image and are told apart all the same.
    fn same(&self, a: &Self::Mark, b: &Self::Mark) -> bool
        requires here { is_of (place self.now) a.now × is_of (place self.now) b.now }
        ensures copy { a.now ≡ b.now → IsTrue result }
        ensures image { IsTrue result → Self.Mark.image a.now ≡ Self.Mark.image b.now };
}
