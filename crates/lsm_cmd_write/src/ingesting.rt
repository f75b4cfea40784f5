//! A batch comes into a directory.

pub(crate) mod batch_input;
pub(crate) mod one_write;
pub(crate) mod program;
pub(crate) mod quick;

ghost use Rattle.std.specs.Prelude.{◌≡◌, ◌≢◌, IfErr, OnOk};
ghost use Rattle.std.specs.Io.KnownBytes.{Appends, Keeps};
ghost use Rattle.lsm_shelf.specs.Stored.{Stored};
ghost use Rattle.lsm_cmd_write.specs.Ingesting.{IsBroughtBehind, IsBroughtIn, IsFaultBehind};
ghost use Rattle.lsm_cmd_write.specs.Ingesting.{IsIngestFault, ingest_text};
ghost use Rattle.lsm_opening.specs.Parts.{AreOf, usual};
ghost use Rattle.lsm_opening.specs.declared.faults.writer_fault.WriterFault.TheVariants.{Write as WriteFault};

use lsm_batch::Batch;
use lsm_opening::{NewParts, Prepared, WriterFault, start};
use lsm_slots::Boarded;
use lsm_state::{Ingested, State};
use lsm_table::{NamedShelf, Shelf};
use std::alloc::Global;
use std::io::{self, Write};
use std::marker::Brand;
use std::sync::Wait;

/// Writes the reply, and flushes.
fn reply<O: Write>(out: &mut O, ingested: Ingested) -> io::Result<()>
    ensures written { OnOk result
        (Appends (O.contents out.old) (O.contents out.new) (ingest_text ingested)) }
{
    let Ingested { file, first, last } = ingested;
    writeln!(out, "file {file} first {first} last {last}")?;
    out.flush()
}

/// Brings a batch into the database of this state, and writes the reply.
pub(crate) fn bring_in_opened<N: Boarded, S: Shelf, R: Wait, O: Write>(
    rt: &R,
    alloc: Global,
    shelf: &mut NamedShelf<N, S>,
    state: State<N, S>,
    batch: &Batch,
    out: &mut O,
) -> Result<(), WriterFault>
    ensures done { OnOk result (IsBroughtBehind state batch.now shelf.old shelf.new
        (O.contents out.old) (O.contents out.new)) }
    ensures fault { IfErr result (λ e.
        IsFaultBehind (S.refuses N.place) state batch.now e shelf.old shelf.new) }
    ensures left { IfErr result (λ e. e ≢ WriteFault
        → Keeps (O.contents out.old) (O.contents out.new)) }
{
    let mut state = state;
    let ingested = state.ingest(rt, alloc, shelf, batch)?;
    match reply(out, ingested) {
        Ok(()) => Ok(()),
        Err(_) => Err(WriterFault::Write),
    }
}

/// Begins or opens the directory of a shelf, brings a batch in, and writes the reply.
fn bring_in_named<N: Boarded, S: Shelf, R: Wait, O: Write>(
    rt: &R,
    alloc: Global,
    shelf: &mut NamedShelf<N, S>,
    prepared: &Prepared,
    parts: NewParts<S>,
    batch: &Batch,
    out: &mut O,
) -> Result<(), WriterFault>
    requires parts { AreOf usual N.registry N.board N.history parts }
    ensures done { OnOk result (IsBroughtIn S.honest prepared.now.start prepared.now.logs.items
        batch.now shelf.old shelf.new (O.contents out.old) (O.contents out.new)) }
    ensures fault { IfErr result (λ e. IsIngestFault (Stored S.Receipt (S.is_of N.place)
        S.Receipt.number S.Receipt.image) (S.refuses N.place) S.honest prepared.now.start
        prepared.now.logs.items batch.now e shelf.old shelf.new) }
    ensures left { IfErr result (λ e. e ≢ WriteFault
        → Keeps (O.contents out.old) (O.contents out.new)) }
{
    let state: State<N, S> = start(rt, alloc, shelf, prepared, parts)?;
    bring_in_opened(rt, alloc, shelf, state, batch, out)
}

/// The same under the name that was picked for the parts and the shelf, which is given back.
fn bring_in_as<N: Boarded, S: Shelf, R: Wait, O: Write>(
    rt: &R,
    alloc: Global,
    shelf: S,
    prepared: &Prepared,
    parts: NewParts<S>,
    batch: &Batch,
    out: &mut O,
) -> (Result<(), WriterFault>, S)
    requires parts { AreOf usual N.registry N.board N.history parts }
    requires shelf { (S.told shelf).place ≡ N.place }
    ensures done { OnOk result.0 (IsBroughtIn S.honest prepared.now.start prepared.now.logs.items
        batch.now (S.told shelf) (S.told result.1) (O.contents out.old) (O.contents out.new)) }
    ensures fault { IfErr result.0 (λ e. IsIngestFault (Stored S.Receipt (S.is_of N.place)
        S.Receipt.number S.Receipt.image) (S.refuses N.place) S.honest prepared.now.start
        prepared.now.logs.items batch.now e (S.told shelf) (S.told result.1)) }
    ensures left { IfErr result.0 (λ e. e ≢ WriteFault
        → Keeps (O.contents out.old) (O.contents out.new)) }
{
    let mut shelf: NamedShelf<N, S> = NamedShelf::of(shelf);
    let done = bring_in_named(rt, alloc, &mut shelf, prepared, parts, batch, out);
    (done, shelf.into_shelf())
}

/// Begins a database on the shelf, or opens the one that is there, brings a batch in, and writes
/// `file N first F last L`. The shelf is given back.
pub(crate) fn bring_in<S: Shelf, R: Wait, O: Write>(
    rt: &R,
    alloc: Global,
    shelf: S,
    prepared: &Prepared,
    batch: &Batch,
    out: &mut O,
) -> (Result<(), WriterFault>, S)
    ensures done { OnOk result.0 (IsBroughtIn S.honest prepared.now.start prepared.now.logs.items
        batch.now (S.told shelf) (S.told result.1) (O.contents out.old) (O.contents out.new)) }
    ensures fault { IfErr result.0 (λ e.
        IsIngestFault (Stored S.Receipt (S.is_of (S.told shelf).place) S.Receipt.number
        S.Receipt.image) (S.refuses (S.told shelf).place) S.honest prepared.now.start
        prepared.now.logs.items batch.now e (S.told shelf) (S.told result.1)) }
    ensures left { IfErr result.0 (λ e. e ≢ WriteFault
        → Keeps (O.contents out.old) (O.contents out.new)) }
{
    match NewParts::make(alloc) {
        Ok(parts) => bring_in_as::<Brand, S, R, O>(rt, alloc, shelf, prepared, parts, batch, out),
        Err(_) => (Err(WriterFault::OutOfMemory), shelf),
    }
}
