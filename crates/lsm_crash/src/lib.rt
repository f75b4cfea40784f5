//! What a crash leaves of a database: laws over the calls on its folder, without code.
#![tactic(auto)]

pub mod laws;
pub mod states;
