//! How a batch is to come in.

use lsm_text::Form;

/// The form of a batch's file; whether a database is begun where `CURRENT` is not there, whatever
/// else is; whether the batch may come in beside a log that is not flushed; and whether the tables
/// of one that is there are found and not judged.
#[derive(Clone, Copy, Debug)]
pub struct IngestOptions {
    pub form: Form,
    pub begins: bool,
    pub beside_log: bool,
    pub quick: bool,
}
