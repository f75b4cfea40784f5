//! Where a line stops being one of a batch, for people.

use crate::form::Form;
use crate::syntax_fault::{SyntaxFault, syntax_fault_in};
use crate::text_parts::parts;
use std::fmt;

/// What is wrong with a line.
#[derive(Clone, Copy, Debug)]
enum Mistake {
    /// There is neither `=` nor `!`.
    Unparted,
    /// Something stands behind the `!`.
    Behind,
    /// A word is not of the form.
    Word(SyntaxFault),
}

/// The column, from 1, at which a line stops being one of a batch, and what is wrong there. It
/// prints as a text without a newline.
#[derive(Clone, Copy, Debug)]
pub struct LineSyntaxFault {
    column: usize,
    mistake: Mistake,
    // It was read in hex, and is a line in the form of text.
    is_text: bool,
}

/// What is wrong with a word that stands behind so many bytes.
fn in_word(form: Form, word: &[u8], start: usize) -> Option<LineSyntaxFault> {
    let fault = syntax_fault_in(form, word)?;
    Some(LineSyntaxFault {
        column: fault.column(start),
        mistake: Mistake::Word(fault),
        is_text: false,
    })
}

/// What is wrong with a line that is parted by `=`.
fn in_value(form: Form, key: &[u8], value: &[u8]) -> Option<LineSyntaxFault> {
    match in_word(form, key, 0) {
        Some(fault) => Some(fault),
        None => in_word(form, value, key.len().saturating_add(1)),
    }
}

/// What is wrong with a line that is parted by `!`.
fn in_deletion(form: Form, key: &[u8], rest: &[u8]) -> Option<LineSyntaxFault> {
    if rest.is_empty() {
        return in_word(form, key, 0);
    }
    Some(LineSyntaxFault {
        column: key.len().saturating_add(2),
        mistake: Mistake::Behind,
        is_text: false,
    })
}

/// What is wrong with a line.
fn find(form: Form, line: &[u8]) -> Option<LineSyntaxFault> {
    if let Some((key, value)) = parts(b'=', line) {
        return in_value(form, key, value);
    }
    if let Some((key, rest)) = parts(b'!', line) {
        return in_deletion(form, key, rest);
    }
    Some(LineSyntaxFault {
        column: line.len().saturating_add(1),
        mistake: Mistake::Unparted,
        is_text: false,
    })
}

/// Whether a line that was read in this form is one of text, for which nothing asked.
fn is_text_instead(form: Form, line: &[u8]) -> bool {
    matches!(form, Form::Hex) && find(Form::Text, line).is_none()
}

impl LineSyntaxFault {
    /// The first place at which a line stops being one of a batch; none where it is one.
    pub(crate) fn of(form: Form, line: &[u8]) -> Option<LineSyntaxFault> {
        let mut fault = find(form, line)?;
        fault.is_text = is_text_instead(form, line);
        Some(fault)
    }
}

impl fmt::Display for Mistake {
    fn fmt<W: fmt::Write>(&self, f: &mut fmt::Formatter<W>) -> fmt::Result {
        match self {
            Mistake::Unparted => f.write_str(
                "neither `=` nor `!` stands in the line, which is KEY=VALUE or KEY!",
            ),
            Mistake::Behind => f.write_str("something stands behind the `!` of KEY!"),
            Mistake::Word(fault) => write!(f, "{fault}"),
        }
    }
}

impl fmt::Display for LineSyntaxFault {
    fn fmt<W: fmt::Write>(&self, f: &mut fmt::Formatter<W>) -> fmt::Result {
        let column = self.column;
        let mistake = self.mistake;
        let end = if self.is_text {
            "; it is a line of text, which --text asks for"
        } else {
            ""
        };
        write!(f, "column {column}: {mistake}{end}")
    }
}
