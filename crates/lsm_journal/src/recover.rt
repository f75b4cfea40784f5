//! The manifest of a database that is there.

ghost use Rattle.std.specs.Prelude.{◌≡◌, IfErr, IfOk, OnOk};
ghost use Rattle.lsm_manifest.specs.Manifest.{AreEdits, IsManifest};
ghost use Rattle.lsm_shelf.specs.Told.{Becomes, finding};
ghost use Rattle.lsm_journal.specs.Recovering.{IsNoManifest, IsRecordRefusal, IsRecoverRefusal};
ghost use Rattle.lsm_journal.specs.Recovering.{IsRecovered, RecoverCounted, SameCounts};

use crate::journal::Journal;
use crate::manifest_limit::ManifestLimit;
use crate::recover_fault::RecoverFault;
use lsm_codec::Bytes;
use lsm_manifest::{Edit, EditFault, Shape, read_log, replay};
use lsm_table::{NamedShelf, Naming, Shelf};
use std::alloc::Global;
use std::sync::Wait;

/// What was read of a manifest.
#[derive(Debug, Drop)]
pub struct Recovered {
    /// The manifest, as it is held from then on.
    pub journal: Journal,
    /// What its edits come to.
    pub shape: Shape,
    /// How many bytes at its end hold no whole record.
    pub rest: u64,
}

/// The edits of a log's records.
fn edits_of(alloc: Global, records: &[Bytes]) -> Result<Vec<Edit>, EditFault>
    ensures spelled { IfOk result (λ edits. AreEdits records.now edits.items) }
    ensures refused { IfErr result (λ e. IsRecordRefusal records.now e) }
{
    let mut edits = Vec::new(alloc);
    for record in records {
        let edit = Edit::decode(alloc, record.as_slice())?;
        edits.push(edit)?;
    }
    Ok(edits)
}

/// The edits of a manifest, and how many bytes at its end hold no whole record. Its records are let
/// go.
fn edits_in(alloc: Global, bytes: &[u8]) -> Result<(Vec<Edit>, u64), RecoverFault>
    ensures found { IfOk result (λ r. IsManifest bytes.now r.0.items r.1) }
    ensures refused { IfErr result (IsNoManifest bytes.now) }
{
    let log = read_log(alloc, bytes)?;
    let edits = edits_of(alloc, log.records.as_slice())?;
    Ok((edits, log.rest))
}

impl Journal {
    /// Reads the manifest that the directory names, and what its edits come to.
    ///
    /// The shelf's refusals, `Missing` where there is no manifest; then those of the log, of the
    /// first record that is no edit, and of the edits together. Bytes at the end that hold no whole
    /// record are no fault: a journal with such a rest goes on only with a new manifest.
    pub fn recover<N: Naming, S: Shelf, R: Wait>(
        rt: &R,
        alloc: Global,
        shelf: &mut NamedShelf<N, S>,
        limit: ManifestLimit,
    ) -> Result<Recovered, RecoverFault>
        ensures found { IfOk result (λ r. Becomes
            (finding r.journal.number r.journal.bytes shelf.old) shelf.new) }
        ensures recovered { IfOk result (λ r. IsRecovered r.journal r.shape r.rest) }
        ensures limit { IfOk result (λ r. r.journal.limit ≡ limit) }
        ensures refused { IfErr result (λ e. IsRecoverRefusal (S.refuses N.place) e
            shelf.old shelf.new) }
        ensures counts { OnOk result (SameCounts shelf.old shelf.new) }
        ensures counts_err { IfErr result (λ e. RecoverCounted e shelf.old shelf.new) }
    {
        let (number, bytes) = shelf.read_manifest(rt, alloc)?;
        let (edits, rest) = edits_in(alloc, &bytes)?;
        let shape = replay(alloc, &edits)?;
        let journal = Journal {
            number,
            bytes,
            log: shape.log,
            prev_log: shape.prev_log,
            limit,
        };
        Ok(Recovered {
            journal,
            shape,
            rest,
        })
    }
}
