//! The state with which one begins who only reads.

ghost use Rattle.std.specs.Prelude.{IfErr, IfOk};
ghost use Rattle.lsm_opening.specs.Parts.{AreOf, usual};
ghost use Rattle.lsm_opening.specs.Reading.{FindsManifest, IsHaltedWith, IsNotHalted};
ghost use Rattle.lsm_opening.specs.Reading.{IsReadingRefusal, LacksManifest, OnlyReads};
ghost use Rattle.lsm_opening.specs.Reading.{OpensToRead};
ghost use Rattle.lsm_shelf.specs.Stored.{Stored};

use crate::faults::writer_fault::WriterFault;
use crate::parts::{NewParts, Parts, usual_parts};
use lsm_directory::NamedManifest;
use lsm_journal::{Journal, ManifestLimit};
use lsm_slots::Boarded;
use lsm_state::State;
use lsm_table::{NamedShelf, Shelf};
use std::alloc::Global;
use std::sync::Wait;

/// Reads the manifest: what it is, and what it says of logs.
fn find_manifest<N: Boarded, S: Shelf, R: Wait>(
    rt: &R,
    alloc: Global,
    shelf: &mut NamedShelf<N, S>,
) -> Result<NamedManifest, WriterFault>
    ensures found { IfOk result (λ m. FindsManifest m shelf.old shelf.new) }
    ensures refused { IfErr result (λ e.
        LacksManifest (S.refuses N.place) e shelf.old shelf.new) }
{
    // A journal that nothing is sent through has no use for its limit.
    let found = Journal::recover(rt, alloc, shelf, ManifestLimit::none())?;
    Ok(NamedManifest {
        number: found.journal.number(),
        rest: found.rest,
        log: found.journal.log(),
        prev_log: found.journal.prev_log(),
    })
}

/// The state of the database that is on the shelf, halted.
fn open_halted<N: Boarded, S: Shelf, R: Wait>(
    rt: &R,
    alloc: Global,
    shelf: &mut NamedShelf<N, S>,
    parts: Parts<N, S>,
) -> Result<State<N, S>, WriterFault>
    ensures opened { IfOk result (λ s. IsHaltedWith S.honest parts s shelf.old shelf.new) }
    ensures refused { IfErr result (λ e. IsNotHalted
        (Stored S.Receipt (S.is_of N.place) S.Receipt.number S.Receipt.image)
        (S.refuses N.place) S.honest e shelf.old shelf.new) }
{
    let Parts {
        options,
        registry,
        publisher,
        pinners,
        history,
    } = parts;
    let board = (publisher, pinners);
    match State::open_to_read(rt, alloc, shelf, options, registry, board, history) {
        Ok(state) => Ok(state),
        Err(fault) => Err(WriterFault::of_open(fault)),
    }
}

/// The state of the database that is on the shelf, for reading alone, with the usual options; and
/// its manifest. Nothing is written: no manifest begins, and the state refuses each write as
/// `Halted`. A log that is not flushed does not stand against it; a caller can tell of it by the
/// manifest.
///
/// The refusals of reading the manifest, and then those of `State::open_to_read`.
pub fn open_to_read<N: Boarded, S: Shelf, R: Wait>(
    rt: &R,
    alloc: Global,
    shelf: &mut NamedShelf<N, S>,
    parts: NewParts<S>,
) -> Result<(State<N, S>, NamedManifest), WriterFault>
    requires parts { AreOf usual N.registry N.board N.history parts }
    ensures opened { IfOk result (λ r. OpensToRead S.honest r.1 r.0 shelf.old shelf.new) }
    ensures refused { IfErr result (λ e. IsReadingRefusal
        (Stored S.Receipt (S.is_of N.place) S.Receipt.number S.Receipt.image)
        (S.refuses N.place) S.honest e shelf.old shelf.new) }
    ensures reads { OnlyReads shelf.old shelf.new }
{
    let parts = usual_parts(alloc, parts)?;
    let manifest = find_manifest(rt, alloc, shelf)?;
    match open_halted(rt, alloc, shelf, parts) {
        Ok(state) => Ok((state, manifest)),
        Err(fault) => Err(fault),
    }
}
