//! The lock of a file of the system. A lock that is answered as held is kept; what the system's
//! calls do no contract says, and they are to be read.

ghost use Rattle.std.specs.Prelude.{◌≡◌, IfOk, IfErr, IsSome, MatchBool};

use crate::lock_kind::LockKind;
use crate::system_fault::SystemFault;
use crate::system_files::SystemFiles;
use std::fs::{self, File, Files, OpenOptions, TryLockError};
use std::io;
use std::os::fd::AsRawFd;

impl<R: Files<File = File> + AllocGlobal + Clone + Drop> SystemFiles<R> {
    /// Opens a file and locks it; an exclusive lock makes the file where it is not there. It is
    /// held from then on. False where another holds it.
    pub(crate) fn lock(&mut self, name: &str, kind: LockKind) -> Result<bool, SystemFault>
        ensures taken { IfOk result (λ b.
            MatchBool b (IsSome self.new.held) (self.new.held ≡ self.old.held)) }
        ensures kept { IfErr result (λ _. self.new.held ≡ self.old.held) }
    {
        let makes = kind == LockKind::Exclusive;
        let mut options = OpenOptions::new();
        options.read(true).write(makes).create(makes);
        let file = self.open_regular(name, &options)?;
        match self.is_taken(&file, kind) {
            Ok(true) => Ok(false),
            Ok(false) => {
                self.held = Some(file);
                Ok(true)
            }
            Err(error) => Err(SystemFault::Acted(error)),
        }
    }

    /// Locks an open file. Answers whether another holds it.
    fn is_taken(&mut self, file: &File, kind: LockKind) -> io::Result<bool>
        ensures { self.new.held ≡ self.old.held }
    {
        let answer = match kind {
            LockKind::Shared => file.try_lock_shared(),
            LockKind::Exclusive => file.try_lock(),
        };
        match answer {
            Ok(()) => self.is_held_by_record(file, kind),
            Err(TryLockError::WouldBlock) => Ok(true),
            Err(TryLockError::Error(error)) => Err(error),
        }
    }

    /// Whether a program holds a record lock of this file that forbids one of this kind. LevelDB
    /// locks so, by `fcntl`, and the system lets both kinds of lock be; its list of locks names the
    /// file as the one that was just taken. Where there is no such list, none is noticed.
    fn is_held_by_record(&mut self, file: &File, kind: LockKind) -> io::Result<bool>
        ensures { self.new.held ≡ self.old.held }
    {
        let own = self.own_lock(file)?;
        let locks = self.list_of("/proc/locks")?;
        Ok(is_forbidden(own.as_str(), locks.as_str(), kind))
    }

    /// What the system says of an open file and of its lock.
    fn own_lock(&mut self, file: &File) -> io::Result<String>
        ensures { self.new.held ≡ self.old.held }
    {
        let path = format!(in self.rt.alloc(); "/proc/self/fdinfo/{}", file.as_raw_fd())?;
        self.list_of(path.as_str())
    }

    /// What a list of the system says; nothing where it can't be read. But where it can't for want
    /// of a descriptor, with none kept open, that is a refusal: a lock may be in it.
    fn list_of(&mut self, path: &str) -> io::Result<String>
        ensures { self.new.held ≡ self.old.held }
    {
        match fs::read_to_string(&self.rt, path) {
            Err(error) if self.open_files.give_way(&error) => fs::read_to_string(&self.rt, path),
            Err(error) if error.kind() != io::ErrorKind::OutOfMemory => {
                Ok(String::new(self.rt.alloc()))
            }
            answer => answer,
        }
    }
}

/// Whether one of the system's locks forbids one of this kind of the file that is locked.
fn is_forbidden(own: &str, locks: &str, kind: LockKind) -> bool {
    match node_in(own) {
        None => false,
        Some(node) => locks.lines().any(|line| forbids(line, node, kind)),
    }
}

/// Device and inode in the line of the own lock: `lock: 1: FLOCK ADVISORY WRITE 7 08:01:99 0 EOF`.
fn node_in(own: &str) -> Option<&str> {
    let line = own.lines().find(|line| line.contains("FLOCK"))?;
    line.split_ascii_whitespace().nth(6)
}

/// Whether a line tells of a record lock of this file that forbids one of this kind:
/// `1: POSIX ADVISORY WRITE 7 08:01:99 0 EOF`.
fn forbids(line: &str, node: &str, kind: LockKind) -> bool {
    line.contains("POSIX")
        && line.split_ascii_whitespace().any(|word| word == node)
        && (kind == LockKind::Exclusive || line.contains("WRITE"))
}
