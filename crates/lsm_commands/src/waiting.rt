//! A command waits until it may have the lock of its folder.

ghost use Rattle.std.specs.Prelude.{◌≡◌, ◌*◌, IfSome, min, option_map};
ghost use Rattle.lsm_commands.specs.Waiting.{AwaitsLock, IsAwaited, locked_by, shell_lock};

use lsm_directory::{Paths, open_at};
use lsm_folder::{FolderCalls, LockKind, Reasons};
use lsm_grammar::Request;
use std::rt::Clock;
use std::sync::Wait;
use std::thread;
use std::time::Duration;

/// How often the lock is asked for in a second.
const ASKS: u64 = 20;

/// The longest that is waited, in seconds.
const LONGEST: u64 = 3600;

/// How a shell asks for the lock: shared where it only reads.
fn shell_lock(reads_only: bool) -> LockKind
    ensures { result ≡ shell_lock reads_only }
{
    if reads_only {
        LockKind::Shared
    } else {
        LockKind::Exclusive
    }
}

/// The folder of which a request asks for the lock, and how. None where it asks for none, or may
/// ask for two.
fn locked_by<'a>(request: &Request<'a>) -> Option<(&'a str, LockKind)>
    ensures { option_map (λ r. (r.0.now, r.1)) result ≡ locked_by request.now }
{
    match request {
        Request::Look(line) => Some((line.path, LockKind::Shared)),
        Request::Write(line) => Some((line.path, LockKind::Exclusive)),
        Request::Load(line) => Some((line.path, LockKind::Exclusive)),
        Request::Recover(line) => Some((line.path, LockKind::Exclusive)),
        Request::Repair(path) => Some((path, LockKind::Exclusive)),
        Request::Compact(line) => Some((line.path, LockKind::Exclusive)),
        Request::Shell(line) => Some((line.path, shell_lock(line.reads_only))),
        _ => None,
    }
}

/// Asks for the lock of a folder until the answer is another than that another program has it, so
/// many times at most, a twentieth of a second apart.
fn await_lock<C: FolderCalls, R: Wait + Clock>(rt: &R, folder: &mut C, kind: LockKind, times: u64)
    ensures asked { AwaitsLock kind times (C.calls folder.old) (C.calls folder.new) }
    ensures place { C.place folder.new ≡ C.place folder.old }
{
    for _ in 0..times {
        match folder.lock(rt, "LOCK", kind) {
            Ok(false) => thread::sleep(rt, Duration::from_millis(1000 / ASKS)),
            _ => return,
        }
    }
}

/// Waits for the lock of the folder of a request, so many seconds at most, and an hour at most. The
/// folder holds it then, if it was free in time. None where it can't be opened, or the request has
/// none: then nothing is waited for.
pub(crate) fn awaited<C: FolderCalls, P: Paths<C>, R: Wait + Clock>(
    rt: &R,
    paths: &P,
    request: &Request<'_>,
    seconds: u64,
) -> Option<C>
    ensures { IfSome result
        (IsAwaited C.FolderCalls (locked_by request.now) (20 * min seconds 3600)) }
{
    let (path, kind) = locked_by(request)?;
    let Ok(reasons) = Reasons::new(paths.alloc()) else {
        return None;
    };
    let Ok(mut folder) = open_at(paths, path, &reasons) else {
        return None;
    };
    await_lock(rt, &mut folder, kind, ASKS * seconds.min(LONGEST));
    Some(folder)
}
