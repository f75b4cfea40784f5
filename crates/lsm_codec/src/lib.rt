//! Numbers, keys and checksums as LevelDB's files spell them: varints, internal keys, CRC-32C and
//! its mask. Its `specs` state the one record `Entry` of all crates above, its order, what a set of
//! entries answers to a read, and what a reader answers that may run out of memory.
//!
//! Stands on `std`, and on `thiserror` for its fault. Data flows from `varint` and `internal_key`
//! to the formats above; `checksum` goes by `vectorwise`, then `stridewise`, `wordwise` and
//! `bytewise`, over `stride_tables` and `byte_tables`.
//!
//! Its contract: bytes and numbers, keys, checksums by the grammar, both ways, and each refusal
//! exactly where it is due.
#![tactic(auto)]

// Texts, lists and numbers.
mod bytes;
mod fault;
mod list;
mod varint;

// Keys.
mod internal_key;
mod kind;

// Checksums.
mod checksum;
// By vectors of 32 bytes.
mod vectorwise;
// In strides of 32 bytes.
mod stridewise;
// Word by word.
mod wordwise;
// Byte by byte.
mod bytewise;
// The tables of all three.
mod byte_tables;
mod stride_tables;

pub use bytes::Bytes;
pub use checksum::{crc_extend, crc32c, mask, unmask};
pub use fault::CodecFault;
pub use internal_key::{KeyRef, MAX_SEQ, is_internal_key, key_parts, push_key};
pub use kind::Kind;
pub use list::List;
pub use varint::{get_varint32, get_varint64, put_varint32, put_varint64};
