//! The server's end of a channel, frame by frame (`docs/PROTOCOL.md`).
//!
//! Stands on `lsm_frames` for requests and answers. A `Wire` notes what comes and what is written
//! in a list that only contracts read, the latest first; `Descriptors` notes of which descriptors a
//! wire was made. Its contract: these lists grow by exactly what happened. What a conversation over
//! a wire is, turn by turn, and why it ends, is said in `specs/Conversing.antt`. Descriptors of the
//! system are in `lsm_server`: what stands between has no other way to a channel.
#![tactic(auto)]

mod descriptors;
mod incoming;
mod saying;
mod wire;

pub use descriptors::Descriptors;
pub use incoming::Incoming;
pub use saying::{call_no_request, say, say_unanswered};
pub use wire::Wire;
