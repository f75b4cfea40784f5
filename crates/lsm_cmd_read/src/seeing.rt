//! What a command does on a folder that is seen with its logs, or with its tables plain.

ghost use Rattle.std.specs.Prelude.{◌≡◌, ◌⊎◌, ◌<◌, All, IfErr, IfOk, IsTrue, List, OnOk, Option, ℕ};
ghost use Rattle.std.specs.Io.KnownBytes.{Keeps};
ghost use Rattle.std.specs.Arc.{arc_value};
ghost use Rattle.lsm_shelf.specs.Stored.{Stored};
ghost use Rattle.lsm_mirror.specs.Mirrored.{MirrorStored};
ghost use Rattle.lsm_mirror.specs.Refusals.{MirrorRefuses};
ghost use Rattle.lsm_mirror.specs.Shown.{shown_of};
ghost use Rattle.lsm_preview.specs.Tables.{OnlyLooks};
ghost use Rattle.lsm_opening.specs.Tidying.{OnlyReads};
ghost use Rattle.lsm_cmd_read.specs.Answers.{asking, moment};
ghost use Rattle.lsm_cmd_read.specs.Seen.{IsCut, IsNotSeenInto, IsSeen, IsSeenInto, IsUnseen};
ghost use Rattle.lsm_directory.specs.declared.faults.directory_fault.DirectoryFault.TheVariants.{TornManifest};

use crate::inquiry::Inquiry;
use crate::look_fault::LookFault;
use crate::notes::tell_ends;
use crate::performing::begin;
use lsm_directory::DirectoryFault;
use lsm_folder::FolderCalls;
use lsm_mirror::{Mirror, Mirroring, View};
use lsm_preview::{Preview, Sight, preview};
use lsm_table::Shelf;
use std::alloc::{AllocError, Global};
use std::io::Write;
use std::marker::Brand;
use std::sync::{Arc, Wait};
use std::thread::Threads;

/// What is shown of each of these shelves.
fn mirrors_of<V: Mirroring, S: Shelf>(
    alloc: Global,
    shelves: Vec<S>,
    view: &Arc<View>,
) -> Result<Vec<Mirror<V, S>>, AllocError>
    requires shown { shown_of (arc_value view.now) ≡ V.shown }
    requires shelves { All (λ s. (S.told s).place ≡ V.place) shelves.items }
    ensures { IfOk result (λ v. All (λ m. m.place ≡ V.place) v.items) }
{
    let mut mirrors = Vec::with_capacity(alloc, shelves.len())?;
    for shelf in shelves {
        let shared = Arc::try_clone(view)?;
        let mirror = Mirror::of(alloc, shelf, shared);
        mirrors.push(mirror)?;
    }
    Ok(mirrors)
}

/// Does what a command asks of what is shown of a shelf, under the name that was picked for that.
/// The shelf is given back.
fn begin_shown<V: Mirroring, S: Shelf, R: Threads + Wait + Sync, O: Write, E: Write + Send>(
    rt: &R,
    alloc: Global,
    view: Arc<View>,
    shelf: S,
    shelves: Vec<S>,
    inquiry: &Inquiry<'_>,
    out: &mut O,
    err: &mut E,
) -> (Result<(), DirectoryFault>, S)
    requires shown { shown_of (arc_value view) ≡ V.shown }
    requires place { (S.told shelf).place ≡ V.place }
    requires shelves { All (λ s. (S.told s).place ≡ V.place) shelves.items }
    ensures done { OnOk result.0 (IsSeenInto (asking inquiry.now)
        (MirrorStored S.Receipt.TableReceipt (S.is_of V.place) V.shown) S.honest V.shown
        (moment (S.told shelf) (O.contents out.old)) (moment (S.told result.1) (O.contents out.new))
        (E.contents err.old) (E.contents err.new)) }
    ensures refused { IfErr result.0 (λ e. IsNotSeenInto (asking inquiry.now)
        (MirrorStored S.Receipt.TableReceipt (S.is_of V.place) V.shown)
        (MirrorRefuses (Stored S.Receipt (S.is_of V.place) S.Receipt.number S.Receipt.image)
        (S.refuses V.place) S.honest V.shown) S.honest V.shown e
        (moment (S.told shelf) (O.contents out.old))
        (moment (S.told result.1) (O.contents out.new))) }
    ensures looks { OnlyLooks (S.told shelf) (S.told result.1) }
{
    let mirrors = match mirrors_of(alloc, shelves, &view) {
        Ok(mirrors) => mirrors,
        Err(fault) => return (Err(DirectoryFault::from(fault)), shelf),
    };
    let mirror: Mirror<V, S> = Mirror::of(alloc, shelf, view);
    let (done, mirror) = begin(rt, alloc, mirror, mirrors, inquiry, out, err);
    (done, mirror.into_shelf())
}

/// Does what a command asks of what is shown of a shelf, under a name of its own.
fn begin_seen<S: Shelf, R: Threads + Wait + Sync, O: Write, E: Write + Send>(
    rt: &R,
    alloc: Global,
    view: View,
    shelf: S,
    shelves: Vec<S>,
    inquiry: &Inquiry<'_>,
    out: &mut O,
    err: &mut E,
) -> (Result<(), DirectoryFault>, S)
    requires shelves { All (λ s. (S.told s).place ≡ (S.told shelf).place) shelves.items }
    ensures done { OnOk result.0 (IsSeenInto (asking inquiry.now)
        (MirrorStored S.Receipt.TableReceipt (S.is_of (S.told shelf).place) (shown_of view))
        S.honest (shown_of view)
        (moment (S.told shelf) (O.contents out.old)) (moment (S.told result.1) (O.contents out.new))
        (E.contents err.old) (E.contents err.new)) }
    ensures refused { IfErr result.0 (λ e. IsNotSeenInto (asking inquiry.now)
        (MirrorStored S.Receipt.TableReceipt (S.is_of (S.told shelf).place) (shown_of view))
        (MirrorRefuses
        (Stored S.Receipt (S.is_of (S.told shelf).place) S.Receipt.number S.Receipt.image)
        (S.refuses (S.told shelf).place) S.honest (shown_of view)) S.honest (shown_of view) e
        (moment (S.told shelf) (O.contents out.old))
        (moment (S.told result.1) (O.contents out.new))) }
    ensures looks { OnlyLooks (S.told shelf) (S.told result.1) }
{
    match Arc::new(alloc, view) {
        Ok(view) => begin_shown::<Brand, S, R, O, E>(
            rt, alloc, view, shelf, shelves, inquiry, out, err,
        ),
        Err(fault) => (Err(DirectoryFault::from(fault)), shelf),
    }
}

/// Refuses bytes at the ends of the manifest and of the logs that hold no whole record, where
/// nothing is to be left out.
fn refuse_ends(strict: bool, rest: u64) -> Result<(), DirectoryFault>
    ensures whole { OnOk result (IsTrue strict → rest ≡ 0) }
    ensures refused { IfErr result (λ e. IsTrue strict × (0 < rest) × (e ≡ TornManifest rest)) }
{
    if strict && rest > 0 {
        return Err(DirectoryFault::TornManifest(rest));
    }
    Ok(())
}

/// Does what a command asks of a preview of a shelf, once the ends that are left out are noted, or
/// is refused by these.
fn look_through<S: Shelf, R: Threads + Wait + Sync, O: Write, E: Write + Send>(
    rt: &R,
    alloc: Global,
    seen: Preview,
    shelf: S,
    shelves: Vec<S>,
    inquiry: &Inquiry<'_>,
    out: &mut O,
    err: &mut E,
) -> (Result<(), DirectoryFault>, S)
    requires shelves { All (λ s. (S.told s).place ≡ (S.told shelf).place) shelves.items }
    ensures whole { OnOk result.0 (IsTrue inquiry.now.strict → seen.rest ≡ 0) }
    ensures done { OnOk result.0 ((said : Option (List ℕ))
        × (seen.rest ≡ 0 → Keeps (E.contents err.old) said) × IsSeenInto (asking inquiry.now)
        (MirrorStored S.Receipt.TableReceipt (S.is_of (S.told shelf).place) (shown_of seen.view))
        S.honest (shown_of seen.view) (moment (S.told shelf) (O.contents out.old))
        (moment (S.told result.1) (O.contents out.new)) said (E.contents err.new)) }
    ensures refused { IfErr result.0 (λ e.
        IsCut (asking inquiry.now) seen.rest e (moment (S.told shelf) (O.contents out.old))
        (moment (S.told result.1) (O.contents out.new))
        ⊎ ((IsTrue inquiry.now.strict → seen.rest ≡ 0) × IsNotSeenInto (asking inquiry.now)
        (MirrorStored S.Receipt.TableReceipt (S.is_of (S.told shelf).place) (shown_of seen.view))
        (MirrorRefuses
        (Stored S.Receipt (S.is_of (S.told shelf).place) S.Receipt.number S.Receipt.image)
        (S.refuses (S.told shelf).place) S.honest (shown_of seen.view)) S.honest
        (shown_of seen.view) e (moment (S.told shelf) (O.contents out.old))
        (moment (S.told result.1) (O.contents out.new)))) }
    ensures looks { OnlyLooks (S.told shelf) (S.told result.1) }
{
    let Preview {
        view,
        rest,
        entries: _,
    } = seen;
    match refuse_ends(inquiry.strict, rest) {
        Ok(()) => {
            tell_ends(rest, err);
            begin_seen(rt, alloc, view, shelf, shelves, inquiry, out, err)
        }
        Err(fault) => (Err(fault), shelf),
    }
}

/// Sees the database of a shelf, whose folder has the logs beside its tables of which the inquiry
/// tells, and does what a command asks of what is seen. The folder and the shelf are only read; the
/// shelf is given back. A thread for each of the other shelves, forks of it, reads tables.
pub(crate) fn see<C: FolderCalls, S: Shelf, R: Threads + Wait + Sync, O: Write, E: Write + Send>(
    rt: &R,
    alloc: Global,
    folder: &mut C,
    shelf: S,
    shelves: Vec<S>,
    sight: Sight,
    inquiry: &Inquiry<'_>,
    out: &mut O,
    err: &mut E,
) -> (Result<(), LookFault>, S)
    requires shelves { All (λ s. (S.told s).place ≡ (S.told shelf).place) shelves.items }
    ensures done { OnOk result.0 (IsSeen sight (asking inquiry.now)
        (Stored S.Receipt (S.is_of (S.told shelf).place) S.Receipt.number S.Receipt.image)
        (λ shown. MirrorStored S.Receipt.TableReceipt (S.is_of (S.told shelf).place) shown)
        (S.refuses (S.told shelf).place) S.honest (C.calls folder.old) (C.calls folder.new)
        (moment (S.told shelf) (O.contents out.old)) (moment (S.told result.1) (O.contents out.new))
        (E.contents err.old) (E.contents err.new)) }
    ensures refused { IfErr result.0 (λ e. IsUnseen sight (asking inquiry.now)
        (Stored S.Receipt (S.is_of (S.told shelf).place) S.Receipt.number S.Receipt.image)
        (λ shown. MirrorStored S.Receipt.TableReceipt (S.is_of (S.told shelf).place) shown)
        (S.refuses (S.told shelf).place) S.honest e (C.calls folder.old) (C.calls folder.new)
        (moment (S.told shelf) (O.contents out.old))
        (moment (S.told result.1) (O.contents out.new))) }
    ensures looks { OnlyLooks (S.told shelf) (S.told result.1) }
    ensures reads { OnlyReads (C.calls folder.old) (C.calls folder.new) }
{
    let (seen, shelf) = preview(rt, alloc, folder, &inquiry.beside.logs, shelf, sight);
    let seen = match seen {
        Ok(seen) => seen,
        Err(fault) => return (Err(LookFault::Unseen(fault)), shelf),
    };
    let (done, shelf) = look_through(rt, alloc, seen, shelf, shelves, inquiry, out, err);
    match done {
        Ok(()) => (Ok(()), shelf),
        Err(fault) => (Err(LookFault::Directory(fault)), shelf),
    }
}
