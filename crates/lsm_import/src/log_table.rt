//! The table of logs, on no shelf.

/// The table of the writes of logs, which lies nowhere: its file number, and its bytes.
#[derive(Debug, Drop)]
pub struct LogTable {
    pub number: u64,
    pub image: Vec<u8>,
}
