//! What is wrong with a line that asks for nothing.

use crate::want::Want;
use lsm_text::{Form, SyntaxFault};

/// What is wrong in one place of a line.
#[derive(Clone, Copy, Debug)]
pub enum Wrong {
    /// No word stands there; what it is to be.
    Missing(Want),
    /// A word stands there, and none is wanted.
    Extra,
    /// The word is none for bytes: what it is to spell, where it stops being one, and whether it
    /// is one of text, for which `--text` asks.
    NoBytes(Want, SyntaxFault, bool),
    /// The word writes no number that may stand there.
    NoNumber(Want),
    /// The word is no write of a key in this form; whether it is one in the form of text.
    NoWrite(Form, bool),
    /// The word `limit` stands there for bytes.
    IsLimit,
}

/// What is wrong with a line.
#[derive(Clone, Copy, Debug)]
pub enum Mistake {
    /// It begins with a blank.
    Blank,
    /// It ends with a carriage return.
    Return,
    /// The first word that is not as it is wanted: its number, from 1, and what is wrong with it.
    Word(u64, Wrong),
}
