//! Where a line stops being the object of a put, for people.

use crate::put_object::{bytes_of, take_brace, take_member};
use json::{Reader, Scratch};
use std::alloc::{AllocError, Global};
use std::fmt;

/// A member of the object.
#[derive(Clone, Copy, Debug)]
enum Part {
    Key,
    Value,
}

/// What is wrong with a line, or with its object.
#[derive(Clone, Copy, Debug)]
enum Mistake {
    /// The line is no UTF-8.
    Utf8,
    /// No object begins.
    Brace,
    /// This member does not come as a string.
    Member(Part),
    /// This member is no base64.
    Base64(Part),
    /// It does not end behind its value.
    Open,
    /// Something stands behind it.
    Behind,
}

/// The column, from 1, at which a line stops being the object of a put, and what is wrong there. It
/// prints as a text without a newline.
#[derive(Clone, Copy, Debug)]
pub struct ObjectFault {
    column: usize,
    mistake: Mistake,
}

impl Part {
    /// The name of the member, where it is a text.
    fn name(self) -> &'static str {
        match self {
            Part::Key => "key",
            Part::Value => "value",
        }
    }

    /// Its name, where it is base64.
    fn other(self) -> &'static str {
        match self {
            Part::Key => "key_base64",
            Part::Value => "value_base64",
        }
    }
}

/// A mistake behind so many bytes.
fn behind(before: usize, mistake: Mistake) -> ObjectFault {
    ObjectFault {
        column: before.saturating_add(1),
        mistake,
    }
}

/// What is wrong with the member that comes next, if something is.
fn find_in_member(
    alloc: Global,
    part: Part,
    reader: &mut Reader<'_>,
) -> Result<Option<ObjectFault>, AllocError> {
    let start = reader.offset();
    let Some(member) = take_member(reader) else {
        return Ok(Some(behind(start, Mistake::Member(part))));
    };
    let mistake = if member.name == part.other() {
        Mistake::Base64(part)
    } else {
        Mistake::Member(part)
    };
    match bytes_of(alloc, member, part.name(), part.other())? {
        Some(_) => Ok(None),
        None => Ok(Some(behind(start, mistake))),
    }
}

/// What is wrong behind the members of an object.
fn find_behind(reader: &mut Reader<'_>) -> ObjectFault {
    let end = reader.offset();
    match reader.next_key() {
        Ok(None) => behind(reader.offset(), Mistake::Behind),
        Ok(Some(_)) | Err(_) => behind(end, Mistake::Open),
    }
}

/// What is wrong with an object.
fn find_in_object(alloc: Global, reader: &mut Reader<'_>) -> Result<ObjectFault, AllocError> {
    let start = reader.offset();
    if !take_brace(reader) {
        return Ok(behind(start, Mistake::Brace));
    }
    if let Some(fault) = find_in_member(alloc, Part::Key, reader)? {
        return Ok(fault);
    }
    if let Some(fault) = find_in_member(alloc, Part::Value, reader)? {
        return Ok(fault);
    }
    Ok(find_behind(reader))
}

impl ObjectFault {
    /// The first place at which a line stops being the object of a put, of which it is none.
    pub(crate) fn of(alloc: Global, line: &[u8]) -> Result<ObjectFault, AllocError> {
        let text = match str::from_utf8(line) {
            Ok(text) => text,
            Err(error) => return Ok(behind(error.valid_up_to(), Mistake::Utf8)),
        };
        let mut scratch = Scratch::new(alloc);
        let mut reader = Reader::new(text, &mut scratch)?;
        find_in_object(alloc, &mut reader)
    }
}

impl fmt::Display for Mistake {
    fn fmt<W: fmt::Write>(&self, f: &mut fmt::Formatter<W>) -> fmt::Result {
        match self {
            Mistake::Utf8 => f.write_str("the line is no UTF-8"),
            Mistake::Brace => {
                f.write_str("no object begins, as {\"key\":\"..\",\"value\":\"..\"}")
            }
            Mistake::Member(part) => {
                let name = part.name();
                write!(f, "no string \"{name}\" or \"{name}_base64\" stands here")
            }
            Mistake::Base64(part) => {
                let name = part.other();
                write!(f, "\"{name}\" is no base64")
            }
            Mistake::Open => f.write_str("the object does not end behind its value"),
            Mistake::Behind => f.write_str("something stands behind the object"),
        }
    }
}

impl fmt::Display for ObjectFault {
    fn fmt<W: fmt::Write>(&self, f: &mut fmt::Formatter<W>) -> fmt::Result {
        let column = self.column;
        let mistake = self.mistake;
        write!(f, "column {column}: {mistake}")
    }
}
