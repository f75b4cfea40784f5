//! What a database needs is made durable before anything else of its folder goes.

ghost use Rattle.std.specs.Prelude.{◌≡◌, IfErr, OnOk};
ghost use Rattle.lsm_cmd_write.specs.Cleaning.{IsDurable, IsUndurable};

use crate::cleaning::refused_by;
use lsm_folder::FolderCalls;
use lsm_opening::WriterFault;
use lsm_storage::manifest_file;
use std::alloc::Global;
use std::sync::Wait;

/// Makes the manifest of this number and the names of the folder durable. The last program in the
/// folder may have been killed behind an append or a rename and before its sync: then what only an
/// older version needs has to stay until the newer one can't be lost.
pub(crate) fn make_durable<C: FolderCalls, R: Wait>(
    rt: &R,
    alloc: Global,
    folder: &mut C,
    manifest: u64,
) -> Result<(), WriterFault>
    ensures durable { OnOk result (IsDurable manifest (C.calls folder.old) (C.calls folder.new)) }
    ensures refused { IfErr result (λ e.
        IsUndurable manifest e (C.calls folder.old) (C.calls folder.new)) }
    ensures place { C.place folder.new ≡ C.place folder.old }
{
    let name = manifest_file(alloc, manifest)?;
    if let Err(fault) = folder.sync(rt, name.as_str()) {
        return Err(refused_by(fault));
    }
    if let Err(fault) = folder.sync_folder(rt) {
        return Err(refused_by(fault));
    }
    Ok(())
}
