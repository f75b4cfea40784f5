//! A folder of the system.

use crate::seen_log::SeenLog;
use crate::system_files::SystemFiles;
use crate::system_mark::Facts;
use crate::witness::Witness;
use std::fs::{File, Files};
use std::sync::Arc;

/// A folder of the system, named by the path by which it was opened; it is the same one wherever it
/// is moved (`opened_folder.rt`). Each method makes one call of `std::fs`, on the file that it notes
/// (`system_files.rt`): that is to be read, since no contract says what a file has. A file of which
/// a part was read stays open for the next one (`open_files.rt`). What a read answers is passed on
/// where the witness saw it, so the last answer is true where the witness tells the truth.
#[derive(Drop)]
pub struct SystemFolder<R: Files<File = File> + AllocGlobal + Clone + Drop, W: Witness> {
    pub(crate) path: String,
    pub(crate) marks: Arc<boxcar::Vec<Facts<W>>>,
    pub(crate) files: SystemFiles<R>,
    pub(crate) seen: SeenLog<W>,
}
