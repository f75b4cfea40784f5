//! What the commands do on a directory whose tables are found and not judged.

ghost use Rattle.std.specs.Prelude.{◌≡◌, ◌≢◌, IfErr, IfOk, IsFalse, OnOk};
ghost use Rattle.lsm_shelf.specs.Stored.{Stored};
ghost use Rattle.lsm_shelf.specs.Told.{Becomes, Told, finding};
ghost use Rattle.lsm_journal.specs.Recovering.{IsRecovered};
ghost use Rattle.lsm_admission.specs.Keeping.{KeepsTables};
ghost use Rattle.lsm_cmd_read.specs.Answers.{asking, moment};
ghost use Rattle.lsm_cmd_read.specs.Directory.{OnlyReads};
ghost use Rattle.lsm_cmd_read.specs.Quick.{FailsQuickly, IsQuicklyLookedInto, IsUndone};
ghost use Rattle.lsm_cmd_read.specs.Quick.{LooksQuickly, is_check};

use crate::admitted::admit;
use crate::inquiry::Inquiry;
use crate::notes::tell_notes;
use crate::performing::read_on;
use lsm_admission::recover_manifest;
use lsm_directory::{DirectoryFault, refuse_beside};
use lsm_finding::{Finding, Vouched, Vouching};
use lsm_journal::{ManifestLimit, Recovered};
use lsm_table::{NamedShelf, Naming, Records, Registry};
use std::alloc::Global;
use std::io::Write;
use std::marker::Brand;
use std::sync::Wait;

/// Opens the directory of which this manifest was read, notes what is not read, or is refused by
/// that, and does what a command asks of it. No table is read that the command does not come to,
/// and nothing is written there.
fn perform_admitted<N: Naming, S: Finding, R: Wait, O: Write, E: Write>(
    rt: &R,
    alloc: Global,
    shelf: &mut NamedShelf<N, S>,
    records: Records<S::Receipt>,
    recovered: Recovered,
    inquiry: &Inquiry<'_>,
    out: &mut O,
    err: &mut E,
) -> Result<(), DirectoryFault>
    requires named { records ≡ N.registry }
    requires reads { IsFalse (is_check inquiry.now.command.now) }
    requires recovered { IsRecovered recovered.journal recovered.shape recovered.rest }
    requires kept { S.honest → KeepsTables (S.keeps N.place) recovered.shape }
    ensures done { (was : Told)
        → Becomes (finding recovered.journal.number recovered.journal.bytes was) shelf.old
        → OnOk result (IsQuicklyLookedInto (asking inquiry.now)
        (S.keeps N.place)
        (Stored S.Receipt (S.is_of N.place) S.Receipt.number S.Receipt.image) S.honest
        recovered.shape (moment was (O.contents out.old)) (moment shelf.new (O.contents out.new))
        (E.contents err.old) (E.contents err.new)) }
    ensures refused { (was : Told)
        → Becomes (finding recovered.journal.number recovered.journal.bytes was) shelf.old
        → IfErr result (λ e. IsUndone (asking inquiry.now)
        (S.keeps N.place)
        (Stored S.Receipt (S.is_of N.place) S.Receipt.number S.Receipt.image) (S.refuses N.place)
        S.honest recovered.shape e (moment was (O.contents out.old))
        (moment shelf.new (O.contents out.new))) }
{
    let registry = Registry::shared(alloc, records)?;
    let (version, manifest) = admit(rt, alloc, shelf, &registry, recovered)?;
    refuse_beside(inquiry.strict, manifest, inquiry.beside)?;
    tell_notes(alloc, inquiry.command, manifest, inquiry.beside, err);
    read_on(shelf, alloc, &registry, &version, inquiry, out, err)
}

/// The same over a shelf, under the name that was picked for its contents and under the premise
/// that was picked for its tables. The shelf is given back.
fn perform_vouched<N: Naming, V: Vouching, S: Finding, R: Wait, O: Write, E: Write>(
    rt: &R,
    alloc: Global,
    shelf: S,
    records: Records<S::Receipt>,
    recovered: Recovered,
    inquiry: &Inquiry<'_>,
    out: &mut O,
    err: &mut E,
) -> (Result<(), DirectoryFault>, S)
    requires named { records ≡ N.registry }
    requires shelf { (S.told shelf).place ≡ N.place }
    requires reads { IsFalse (is_check inquiry.now.command.now) }
    requires recovered { IsRecovered recovered.journal recovered.shape recovered.rest }
    requires kept { S.honest → V.holds → KeepsTables (S.keeps N.place) recovered.shape }
    ensures done { (was : Told)
        → Becomes (finding recovered.journal.number recovered.journal.bytes was) (S.told shelf)
        → OnOk result.0 (IsQuicklyLookedInto (asking inquiry.now)
        (S.keeps N.place)
        (Stored S.Receipt (S.is_of N.place) S.Receipt.number S.Receipt.image)
        (S.honest × V.holds) recovered.shape (moment was (O.contents out.old))
        (moment (S.told result.1) (O.contents out.new)) (E.contents err.old)
        (E.contents err.new)) }
    ensures refused { (was : Told)
        → Becomes (finding recovered.journal.number recovered.journal.bytes was) (S.told shelf)
        → IfErr result.0 (λ e. IsUndone (asking inquiry.now)
        (S.keeps N.place)
        (Stored S.Receipt (S.is_of N.place) S.Receipt.number S.Receipt.image) (S.refuses N.place)
        (S.honest × V.holds) recovered.shape e (moment was (O.contents out.old))
        (moment (S.told result.1) (O.contents out.new))) }
{
    let vouched: Vouched<V, S> = Vouched::of(shelf);
    let mut named: NamedShelf<N, Vouched<V, S>> = NamedShelf::of(vouched);
    let done = perform_admitted(rt, alloc, &mut named, records, recovered, inquiry, out, err);
    (done, named.into_shelf().into_shelf())
}

/// The same, with records of its own. The premise is that the shelf keeps the tables of the shape
/// that was read.
fn begin_recovered<S: Finding, R: Wait, O: Write, E: Write>(
    rt: &R,
    alloc: Global,
    shelf: S,
    recovered: Recovered,
    inquiry: &Inquiry<'_>,
    out: &mut O,
    err: &mut E,
) -> (Result<(), DirectoryFault>, S)
    requires reads { IsFalse (is_check inquiry.now.command.now) }
    requires recovered { IsRecovered recovered.journal recovered.shape recovered.rest }
    ensures done { (was : Told)
        → Becomes (finding recovered.journal.number recovered.journal.bytes was) (S.told shelf)
        → OnOk result.0 (LooksQuickly (asking inquiry.now)
        (S.keeps (S.told shelf).place)
        (Stored S.Receipt (S.is_of (S.told shelf).place) S.Receipt.number S.Receipt.image) S.honest
        (moment was (O.contents out.old)) (moment (S.told result.1) (O.contents out.new))
        (E.contents err.old) (E.contents err.new)) }
    ensures refused { (was : Told)
        → Becomes (finding recovered.journal.number recovered.journal.bytes was) (S.told shelf)
        → IfErr result.0 (λ e. FailsQuickly (asking inquiry.now)
        (S.keeps (S.told shelf).place)
        (Stored S.Receipt (S.is_of (S.told shelf).place) S.Receipt.number S.Receipt.image)
        (S.refuses (S.told shelf).place) S.honest e (moment was (O.contents out.old))
        (moment (S.told result.1) (O.contents out.new))) }
{
    match Records::new(alloc) {
        Ok(records) => perform_vouched::<Brand, Brand, S, R, O, E>(
            rt, alloc, shelf, records, recovered, inquiry, out, err,
        ),
        Err(fault) => (Err(DirectoryFault::from(fault)), shelf),
    }
}

/// Reads the manifest that the directory of a shelf names, finds its tables, and does what a
/// command that is no check asks. It requires nothing of the shelf: whatever that is, it ends.
pub(crate) fn begin_quickly<S: Finding, R: Wait, O: Write, E: Write>(
    rt: &R,
    alloc: Global,
    shelf: S,
    inquiry: &Inquiry<'_>,
    out: &mut O,
    err: &mut E,
) -> (Result<(), DirectoryFault>, S)
    requires reads { IsFalse (is_check inquiry.now.command.now) }
    ensures done { OnOk result.0 (LooksQuickly (asking inquiry.now)
        (S.keeps (S.told shelf).place)
        (Stored S.Receipt (S.is_of (S.told shelf).place) S.Receipt.number S.Receipt.image) S.honest
        (moment (S.told shelf) (O.contents out.old)) (moment (S.told result.1) (O.contents out.new))
        (E.contents err.old) (E.contents err.new)) }
    ensures refused { IfErr result.0 (λ e. FailsQuickly (asking inquiry.now)
        (S.keeps (S.told shelf).place)
        (Stored S.Receipt (S.is_of (S.told shelf).place) S.Receipt.number S.Receipt.image)
        (S.refuses (S.told shelf).place) S.honest e (moment (S.told shelf) (O.contents out.old))
        (moment (S.told result.1) (O.contents out.new))) }
    ensures reads { OnlyReads (S.told shelf) (S.told result.1) }
{
    // A journal that nothing is sent through has no use for its limit.
    let (recovered, shelf) = recover_manifest(rt, alloc, shelf, ManifestLimit::none());
    match recovered {
        Ok(recovered) => begin_recovered(rt, alloc, shelf, recovered, inquiry, out, err),
        Err(fault) => (Err(DirectoryFault::from(fault)), shelf),
    }
}
