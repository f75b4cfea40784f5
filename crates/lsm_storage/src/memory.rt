//! The shelf in memory.

mod contents;
mod directory;
mod image;
mod memory_receipt;
mod memory_shelf;

pub use memory_receipt::MemoryReceipt;
pub use memory_shelf::MemoryShelf;
