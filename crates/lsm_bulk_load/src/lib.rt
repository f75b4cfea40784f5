//! Lines of writes that come into a store, batch by batch, while workers compact beside.
#![tactic(auto)]

// How far a store is.
mod mark;
mod origin;

// How much is loaded, and why not all is.
mod load_fault;
mod progress;
mod teller;

// The lines come in.
mod bringing;
mod loading;

// The workers beside, and what is left behind them.
mod beside;
mod ending;

// What holds of it.
mod laws;

pub use beside::{Loaded, load_beside};
pub use bringing::bring_in;
pub use laws::{each_key_shows_its_last_line, what_came_is_of_lines};
pub use load_fault::LoadFault;
pub use loading::load;
pub use mark::Mark;
pub use origin::{Grown, Origin};
pub use progress::Progress;
pub use teller::{NoTeller, Teller};
