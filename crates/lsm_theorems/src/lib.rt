//! The headline theorems of the database, each the contract of one function: a law without a body,
//! or a few calls and what is known behind them.
//!
//! Stands on the libraries of the database below its commands, by their public contracts alone, and
//! nothing stands on it. Its contract: reads give the newest of all that came in, compactions
//! change no answer, an ingest adds just its batch, what a reader holds is kept, a later history
//! goes on from an earlier one, bytes are read as they were written, what was answered Ok survives
//! crashes, and any calls in a row are one history.
#![tactic(auto)]

// What is answered.
pub mod compactions;
pub mod ingests;
pub mod reads;

// What any calls in a row come to.
pub mod calls;
pub mod runs;

// What others leave alone.
pub mod memories;
pub mod pins;

// What lies in files.
pub mod bytes;
pub mod crashes;
pub mod recoveries;

// That there is something of which the laws speak.
pub mod compared;
pub mod instances;
pub mod made;
pub mod shown;
