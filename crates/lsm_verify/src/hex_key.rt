//! A key as a word of a line.

use lsm_codec::Bytes;
use std::fmt;

/// A user key as a word of a line: lower-case hex, or `.` for no bytes.
#[derive(Drop)]
pub(crate) struct HexKey<'a> {
    bytes: &'a [u8],
}

impl<'a> HexKey<'a> {
    pub(crate) fn of(key: &'a Bytes) -> HexKey<'a> {
        HexKey {
            bytes: key.as_slice(),
        }
    }
}

impl<'a> fmt::Display for HexKey<'a> {
    fn fmt<W: fmt::Write>(&self, f: &mut fmt::Formatter<W>) -> fmt::Result {
        if self.bytes.is_empty() {
            return write!(f, ".");
        }
        for byte in self.bytes {
            write!(f, "{byte:02x}")?;
        }
        Ok(())
    }
}
