//! The manifest of a folder, by what it tells of the files beside the tables.

/// The manifest that `CURRENT` names, as it was read: its number, how many bytes at its end hold no
/// whole record, and the numbers that it gives of the write-ahead log and of the one before it.
#[derive(Clone, Copy, Debug)]
pub struct NamedManifest {
    pub number: u64,
    pub rest: u64,
    pub log: u64,
    pub prev_log: u64,
}
