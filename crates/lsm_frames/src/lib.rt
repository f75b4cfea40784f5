//! The frames of `docs/PROTOCOL.md`: the requests of clients and the answers of `lsm_server`, as
//! bytes in memory. No I/O and no store.
//!
//! Stands on `std`, and on `thiserror` for its faults. A frame's length is read by `length`; what
//! follows it goes through `request` or `opening`, which read by `fields` and lend what they find
//! (`writes`, `keys`). Answers are made by `answer`, `values_answer` and `pairs_answer`.
//!
//! Its contract: what is read is what the bytes spell, all that is spelled is read, and what is
//! written is spelled so.
#![tactic(auto)]

// What a request asks for.
mod bounds;
mod malformed;
mod range;
mod request;
mod when;
mod write;

// Its lists, as they lie in a frame.
mod keys;
mod writes;

// The opening.
mod opening;

// Reading.
mod fields;
mod length;

// Requests that are to be sent.
mod key_list;
mod request_fault;
mod spelling;
mod write_list;

// Answers.
mod answer;
mod answer_fault;
mod frame;
mod level_size;
mod pairs_answer;
mod values_answer;

pub use answer::{nothing, pinned, refused, removed, told, unread, wrote};
pub use answer_fault::AnswerFault;
pub use bounds::Bounds;
pub use key_list::KeyList;
pub use keys::Keys;
pub use length::{MOST_ANSWER, MOST_REQUEST, answer_length, request_length};
pub use level_size::LevelSize;
pub use malformed::Malformed;
pub use opening::Opening;
pub use pairs_answer::PairsAnswer;
pub use range::Range;
pub use request::{Request, one_request};
pub use request_fault::RequestFault;
pub use values_answer::ValuesAnswer;
pub use when::When;
pub use write::Write;
pub use write_list::WriteList;
pub use writes::Writes;
