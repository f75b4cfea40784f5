//! Where a word stops being one of its form.

ghost use Rattle.std.specs.Prelude.{◌≡◌, ◌+◌, ◌<◌, ◌^◌, IfNone, IfSome, List, true, ℕ};
ghost use Rattle.hex.specs.Hex.{is_hex_digit};
ghost use Rattle.lsm_text.specs.SyntaxFault.{IsCutOff, IsSyntaxFault, Reaches};
ghost use Rattle.lsm_text.specs.Spelling.{IsWord};
ghost use Rattle.lsm_text.specs.declared.form.Form.TheVariants.{Hex, Text};

use crate::form::Form;
use crate::text_words::first_part;
use std::fmt;

/// The first place at which a word stops being one of its form, and what stands there. It prints as
/// a text without a newline, which says what that is, and how it is spelled.
#[derive(Clone, Copy, Debug)]
pub struct SyntaxFault {
    /// The form that the word was to have.
    pub form: Form,
    /// How many bytes of the word stand before this place.
    pub before: usize,
    /// The byte that stands there; none where the word ends.
    pub byte: Option<u8>,
}

/// Whether a byte is a hex digit, of either case.
fn is_digit(byte: u8) -> bool
    ensures { result ≡ is_hex_digit byte }
{
    matches!(byte, b'0'..=b'9' | b'a'..=b'f' | b'A'..=b'F')
}

/// What stands behind a word's first hex digits.
fn past_digits(word: &[u8]) -> &[u8]
    ensures { Reaches Hex word.now result.now }
{
    let mut rest = word;
    'digits: while let [digit, after @ ..] = rest {
        if !is_digit(*digit) {
            return rest;
        }
        rest = after;
    }
    rest
}

/// What stands behind a word's first parts of a text.
fn past_parts(word: &[u8]) -> &[u8]
    ensures { Reaches Text word.now result.now }
{
    let mut rest = word;
    'parts: while !rest.is_empty() {
        let Some((_, after)) = first_part(rest) else {
            return rest;
        };
        rest = after;
    }
    rest
}

/// What stands behind the place up to which a word is one of this form.
fn past(form: Form, word: &[u8]) -> &[u8]
    ensures { Reaches form word.now result.now }
{
    match form {
        Form::Hex => past_digits(word),
        Form::Text => past_parts(word),
    }
}

/// Whether a word of this form may not end behind these bytes.
fn is_cut_off(form: Form, front: &[u8]) -> bool
    ensures yes { result ≡ true → IsCutOff form front.now }
    ensures no { IsCutOff form front.now → result ≡ true }
{
    match form {
        Form::Hex => front.is_empty() || front.len() % 2 == 1,
        Form::Text => front.is_empty(),
    }
}

/// Where a word stops being one of this form; none where it is one.
pub fn syntax_fault_in(form: Form, word: &[u8]) -> Option<SyntaxFault>
    ensures none { IfNone result ((bytes : List ℕ) × IsWord form word.now bytes) }
    ensures place { IfSome result (IsSyntaxFault form word.now) }
    ensures only { IfSome result (λ _. (bytes : List ℕ) → IsWord form word.now bytes → ⊥) }
{
    if word == b".".as_slice() {
        return None;
    }
    let rest = past(form, word);
    if let [byte, ..] = rest {
        return Some(SyntaxFault {
            form,
            before: word.len() - rest.len(),
            byte: Some(*byte),
        });
    }
    if !is_cut_off(form, word) {
        return None;
    }
    Some(SyntaxFault {
        form,
        before: word.len(),
        byte: None,
    })
}

impl SyntaxFault {
    /// Its column, from 1, in a line in which the word stands behind this many bytes.
    pub fn column(self, start: usize) -> usize
        ensures { start + self.before + 1 < 2 ^ 64 → result ≡ start + self.before + 1 }
    {
        match start.checked_add(self.before) {
            Some(before) => before.checked_add(1).unwrap_or(before),
            None => start,
        }
    }
}

/// A byte, for people.
fn write_byte<W: fmt::Write>(f: &mut fmt::Formatter<W>, byte: u8) -> fmt::Result {
    match byte {
        b'\t' => f.write_str("a tab"),
        b'\r' => f.write_str("a carriage return"),
        b' ' => f.write_str("a blank"),
        b'!'..=b'~' => write!(f, "`{}`", byte as char),
        _ => write!(f, "the byte {byte:02x}"),
    }
}

/// How a byte that may not stand in a word of this form is spelled.
fn write_cure<W: fmt::Write>(f: &mut fmt::Formatter<W>, form: Form, byte: u8) -> fmt::Result {
    match form {
        Form::Hex => f.write_str(", which is no hex digit"),
        Form::Text if byte == b'\\' => f.write_str(
            ", which stands only in `\\xNN`, with two lower-case hex digits, and is spelled `\\x5c`",
        ),
        Form::Text => write!(f, ", which is spelled `\\x{byte:02x}`"),
    }
}

impl fmt::Display for SyntaxFault {
    fn fmt<W: fmt::Write>(&self, f: &mut fmt::Formatter<W>) -> fmt::Result {
        match self.byte {
            Some(byte) => {
                write_byte(f, byte)?;
                write_cure(f, self.form, byte)
            }
            None if self.before == 0 => f.write_str("no word, where `.` stands for no bytes"),
            None => f.write_str("the word's end, where a hex digit is missing"),
        }
    }
}
