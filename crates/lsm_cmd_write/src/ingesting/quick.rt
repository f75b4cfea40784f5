//! A batch comes into a directory that is opened quickly.

ghost use Rattle.std.specs.Prelude.{◌≡◌, ◌≢◌, IfErr, OnOk};
ghost use Rattle.std.specs.Io.KnownBytes.{Keeps};
ghost use Rattle.lsm_admission.specs.Keeping.{KeepsTables};
ghost use Rattle.lsm_journal.specs.Recovering.{IsRecovered};
ghost use Rattle.lsm_shelf.specs.Stored.{Stored};
ghost use Rattle.lsm_shelf.specs.Told.{Becomes, Told, finding};
ghost use Rattle.lsm_state.specs.Options.{limit_of};
ghost use Rattle.lsm_opening.specs.Parts.{AreOf, usual};
ghost use Rattle.lsm_opening.specs.declared.faults.writer_fault.WriterFault.TheVariants.{Write as WriteFault};
ghost use Rattle.lsm_cmd_write.specs.Ingesting.{BringsIn, IsBroughtInQuickly, IsBroughtInUnder};
ghost use Rattle.lsm_cmd_write.specs.Ingesting.{IsFaultUnder, IsQuickFault, KeepsOut};

use crate::ingesting::{bring_in, bring_in_opened};
use lsm_admission::recover_manifest;
use lsm_batch::Batch;
use lsm_directory::FolderFile;
use lsm_finding::{Finding, Vouching};
use lsm_journal::Recovered;
use lsm_opening::{NewParts, Prepared, Start, WriterFault, open_quickly};
use lsm_slots::Boarded;
use std::alloc::Global;
use std::io::Write;
use std::marker::Brand;
use std::sync::Wait;

/// The same under the name that was picked for the parts and the shelf, and under the premise that
/// was picked for its tables. The shelf is given back.
fn bring_in_vouched<N: Boarded, V: Vouching, S: Finding, R: Wait, O: Write>(
    rt: &R,
    alloc: Global,
    shelf: S,
    recovered: Recovered,
    logs: &[FolderFile],
    parts: NewParts<S>,
    batch: &Batch,
    out: &mut O,
) -> (Result<(), WriterFault>, S)
    requires parts { AreOf usual N.registry N.board N.history parts }
    requires shelf { (S.told shelf).place ≡ N.place }
    requires recovered { IsRecovered recovered.journal recovered.shape recovered.rest }
    requires manifest { (was : Told)
        × Becomes (finding recovered.journal.number recovered.journal.bytes was) (S.told shelf) }
    requires limit { recovered.journal.limit ≡ limit_of usual }
    requires kept { S.honest → V.holds → KeepsTables (S.keeps N.place) recovered.shape }
    ensures done { (was : Told)
        → Becomes (finding recovered.journal.number recovered.journal.bytes was) (S.told shelf)
        → OnOk result.0 (IsBroughtInUnder (S.keeps N.place) S.honest V.holds recovered.shape
        logs.now batch.now was (S.told result.1) (O.contents out.old) (O.contents out.new)) }
    ensures fault { (was : Told)
        → Becomes (finding recovered.journal.number recovered.journal.bytes was) (S.told shelf)
        → IfErr result.0 (λ e. IsFaultUnder (S.keeps N.place) (S.refuses N.place) S.honest V.holds
        recovered.shape logs.now batch.now e was (S.told result.1)) }
    ensures left { IfErr result.0 (λ e. e ≢ WriteFault
        → Keeps (O.contents out.old) (O.contents out.new)) }
{
    let (opened, mut shelf) = open_quickly::<N, V, S, R>(rt, alloc, shelf, recovered, logs, parts);
    match opened {
        Ok(state) => {
            let done = bring_in_opened(rt, alloc, &mut shelf, state, batch, out);
            (done, shelf.into_shelf().into_shelf())
        }
        Err(fault) => (Err(fault), shelf.into_shelf().into_shelf()),
    }
}

/// The same. The premise is that the shelf keeps the tables of the shape that was read.
fn bring_in_recovered<S: Finding, R: Wait, O: Write>(
    rt: &R,
    alloc: Global,
    shelf: S,
    recovered: Recovered,
    logs: &[FolderFile],
    parts: NewParts<S>,
    batch: &Batch,
    out: &mut O,
) -> (Result<(), WriterFault>, S)
    requires options { parts.options ≡ usual }
    requires recovered { IsRecovered recovered.journal recovered.shape recovered.rest }
    requires manifest { (was : Told)
        × Becomes (finding recovered.journal.number recovered.journal.bytes was) (S.told shelf) }
    requires limit { recovered.journal.limit ≡ limit_of usual }
    ensures done { (was : Told)
        → Becomes (finding recovered.journal.number recovered.journal.bytes was) (S.told shelf)
        → OnOk result.0 (IsBroughtInQuickly (S.keeps (S.told shelf).place) S.honest logs.now
        batch.now was (S.told result.1) (O.contents out.old) (O.contents out.new)) }
    ensures fault { (was : Told)
        → Becomes (finding recovered.journal.number recovered.journal.bytes was) (S.told shelf)
        → IfErr result.0 (λ e. IsQuickFault (S.keeps (S.told shelf).place)
        (S.refuses (S.told shelf).place) S.honest logs.now batch.now e was (S.told result.1)) }
    ensures left { IfErr result.0 (λ e. e ≢ WriteFault
        → Keeps (O.contents out.old) (O.contents out.new)) }
{
    bring_in_vouched::<Brand, Brand, S, R, O>(rt, alloc, shelf, recovered, logs, parts, batch, out)
}

/// Reads the manifest that the directory of a shelf names, opens its database quickly, brings a
/// batch in, and writes `file N first F last L`. It requires nothing of the shelf: whatever that
/// is, it ends. The shelf is given back.
fn bring_in_quickly<S: Finding, R: Wait, O: Write>(
    rt: &R,
    alloc: Global,
    shelf: S,
    logs: &[FolderFile],
    batch: &Batch,
    out: &mut O,
) -> (Result<(), WriterFault>, S)
    ensures done { OnOk result.0 (IsBroughtInQuickly (S.keeps (S.told shelf).place) S.honest
        logs.now batch.now (S.told shelf) (S.told result.1) (O.contents out.old)
        (O.contents out.new)) }
    ensures fault { IfErr result.0 (λ e. IsQuickFault (S.keeps (S.told shelf).place)
        (S.refuses (S.told shelf).place) S.honest logs.now batch.now e (S.told shelf)
        (S.told result.1)) }
    ensures left { IfErr result.0 (λ e. e ≢ WriteFault
        → Keeps (O.contents out.old) (O.contents out.new)) }
{
    match NewParts::make(alloc) {
        Ok(parts) => {
            let limit = parts.options().limit();
            let (recovered, shelf) = recover_manifest(rt, alloc, shelf, limit);
            match recovered {
                Ok(recovered) => bring_in_recovered(
                    rt, alloc, shelf, recovered, logs, parts, batch, out,
                ),
                Err(fault) => (Err(WriterFault::from(fault)), shelf),
            }
        }
        Err(_) => (Err(WriterFault::OutOfMemory), shelf),
    }
}

/// Begins a database on the shelf, or opens the one that is there, quickly where that is said, and
/// brings a batch in, as `bring_in` does.
pub(crate) fn bring_in_as_said<S: Finding, R: Wait, O: Write>(
    rt: &R,
    alloc: Global,
    shelf: S,
    prepared: &Prepared,
    quick: bool,
    batch: &Batch,
    out: &mut O,
) -> (Result<(), WriterFault>, S)
    ensures done { OnOk result.0 (BringsIn prepared.now.start quick
        (S.keeps (S.told shelf).place) S.honest prepared.now.logs.items batch.now (S.told shelf)
        (S.told result.1) (O.contents out.old) (O.contents out.new)) }
    ensures fault { IfErr result.0 (λ e. KeepsOut prepared.now.start quick
        (S.keeps (S.told shelf).place) (Stored S.Receipt (S.is_of (S.told shelf).place)
        S.Receipt.number S.Receipt.image) (S.refuses (S.told shelf).place) S.honest
        prepared.now.logs.items batch.now e (S.told shelf) (S.told result.1)) }
    ensures left { IfErr result.0 (λ e. e ≢ WriteFault
        → Keeps (O.contents out.old) (O.contents out.new)) }
{
    match prepared.start {
        Start::Open => {
            if quick {
                return bring_in_quickly(rt, alloc, shelf, &prepared.logs, batch, out);
            }
            bring_in(rt, alloc, shelf, prepared, batch, out)
        }
        Start::Begin(_) => bring_in(rt, alloc, shelf, prepared, batch, out),
    }
}
