//! Tables on a shelf, read one block at a time.
//!
//! Stands on `lsm_table` for the format of a table, on `lsm_block` for its blocks, on `lsm_shelf`
//! for where its image lies, and on `lru` for the order in which kept blocks were used. Data flows
//! from `blocks` (what gives a block: `direct` or `cached`) through `opening` and `table_cursor` to
//! `reads`, `open_table`, `table_stream` and `table_reader`. Its contract: over an honest shelf,
//! what is read is the table's, and each fault is the first one on the way. The cache gives what
//! the shelf itself would give, and takes a block only where the receipt is the one that it was
//! read by.
#![tactic(auto)]

// Where blocks come from, and what of them is read ahead.
mod ahead;
mod blocks;
mod direct;
mod judging;
mod part;
mod reads_ahead;
mod shelf_reads;

// An open table, its reads and searches, and going through it.
mod open_table;
mod opening;
mod reads;
mod search;
mod table_cursor;
mod table_reader;
mod table_stream;

// A reader's cache: the open tables and the blocks that were used last.
mod block_key;
mod cached;
mod kept_block;
mod parts;
mod recent;
mod recent_blocks;

pub use ahead::Ahead;
pub use block_key::BlockKey;
pub use blocks::Blocks;
pub use cached::{Cached, MAX_OPEN_TABLES};
pub use direct::Direct;
pub use judging::{footer_from, is_inside, judge};
pub use kept_block::KeptBlock;
pub use open_table::OpenTable;
pub use opening::index_by;
pub use reads::{get, get_by};
pub use table_cursor::TableCursor;
pub use table_reader::TableReader;
pub use table_stream::TableStream;
