//! Notes on standard error of what lies in a folder and is not read.

use lsm_directory::{Beside, NamedManifest, Wording, push_beside, push_logs, push_rest};
use lsm_text::write_output;
use std::alloc::{AllocError, Global};
use std::io::Write;

/// Appends the notes of the manifest's end, of a later manifest and of files of RocksDB, and one
/// for each log that is not read.
fn push_notes(
    alloc: Global,
    text: &mut Vec<u8>,
    manifest: NamedManifest,
    beside: &Beside,
) -> Result<(), AllocError> {
    if manifest.rest > 0 {
        push_rest(text, manifest.rest)?;
    }
    push_beside(alloc, text, manifest.number, beside)?;
    push_logs(
        text,
        Wording::Noted,
        &beside.logs,
        manifest.log,
        manifest.prev_log,
    )
}

/// Notes what is not read, as the commands that only read do. What can't be written is left out.
pub(crate) fn tell_notes<E: Write>(
    alloc: Global,
    manifest: NamedManifest,
    beside: &Beside,
    err: &mut E,
) {
    let mut text = Vec::new(alloc);
    match push_notes(alloc, &mut text, manifest, beside) {
        Ok(()) if !text.is_empty() => {
            let _ = write_output(err, text.as_slice());
        }
        _ => {}
    }
}
