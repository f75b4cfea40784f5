//! What is said of a mistake.

ghost use Rattle.std.specs.Prelude.{◌≡◌, ◌++◌, OnOk};
ghost use Rattle.lsm_cmd_shell.specs.MistakeText.{between, byte_text, column_text, cure_text, formed};
ghost use Rattle.lsm_cmd_shell.specs.MistakeText.{instead_text, mistake_text, no_bytes_text};
ghost use Rattle.lsm_cmd_shell.specs.MistakeText.{no_number_text, no_write_text, place_text};
ghost use Rattle.lsm_cmd_shell.specs.MistakeText.{spelling_text, want_name, word_text, words_text};
ghost use Rattle.lsm_cmd_shell.specs.MistakeText.{wrong_text};

use crate::mistake::{Mistake, Wrong};
use crate::want::Want;
use lsm_text::{Form, SyntaxFault, push_bytes, push_decimal};
use std::alloc::AllocError;

/// Appends a text, and how words of this form are called.
#[tactic(auto, unfolding(crate::specs::MistakeText::formed))]
fn push_formed(out: &mut Vec<u8>, front: &[u8], form: Form) -> Result<(), AllocError>
    ensures { OnOk result (out.new.items ≡ out.old.items ++ formed front.now form) }
{
    out.extend_from_slice(front)?;
    push_form(out, form)
}

/// Appends how words of this form are called.
#[tactic(auto, unfolding(crate::specs::MistakeText::words_text))]
fn push_form(out: &mut Vec<u8>, form: Form) -> Result<(), AllocError>
    ensures { OnOk result (out.new.items ≡ out.old.items ++ words_text form) }
{
    match form {
        Form::Hex => out.extend_from_slice(b"in hex"),
        Form::Text => out.extend_from_slice(b"of text"),
    }
}

/// Appends what is wanted.
fn push_name(out: &mut Vec<u8>, want: Want) -> Result<(), AllocError>
    ensures { OnOk result (out.new.items ≡ out.old.items ++ want_name want) }
{
    out.extend_from_slice(want.name().as_bytes())
}

/// Appends what is wanted, between two texts.
#[tactic(auto, unfolding(crate::specs::MistakeText::between))]
fn push_want(out: &mut Vec<u8>, front: &[u8], want: Want, back: &[u8]) -> Result<(), AllocError>
    ensures { OnOk result (out.new.items ≡ out.old.items ++ between front.now want back.now) }
{
    out.extend_from_slice(front)?;
    push_name(out, want)?;
    out.extend_from_slice(back)
}

/// Appends a byte, for people.
#[tactic(auto, unfolding(crate::specs::MistakeText::byte_text))]
fn push_byte(out: &mut Vec<u8>, byte: u8) -> Result<(), AllocError>
    ensures { OnOk result (out.new.items ≡ out.old.items ++ byte_text byte) }
{
    if byte == b'\t' {
        return out.extend_from_slice(b"a tab");
    }
    if byte == b'\r' {
        return out.extend_from_slice(b"a carriage return");
    }
    if byte.is_ascii_graphic() {
        return out.extend_from_slice(&[b'`', byte, b'`']);
    }
    out.extend_from_slice(b"the byte ")?;
    push_bytes(out, &[byte])
}

/// Appends how a byte is spelled in a text.
#[tactic(auto, unfolding(crate::specs::MistakeText::spelling_text))]
fn push_spelling(out: &mut Vec<u8>, byte: u8) -> Result<(), AllocError>
    ensures { OnOk result (out.new.items ≡ out.old.items ++ spelling_text byte) }
{
    out.extend_from_slice(b", which is spelled `\\x")?;
    push_bytes(out, &[byte])?;
    out.push(b'`')?;
    Ok(())
}

/// Appends how a byte is spelled that may not stand in a word of this form.
#[tactic(auto, unfolding(crate::specs::MistakeText::cure_text))]
fn push_cure(out: &mut Vec<u8>, form: Form, byte: u8) -> Result<(), AllocError>
    ensures { OnOk result (out.new.items ≡ out.old.items ++ cure_text form byte) }
{
    match form {
        Form::Hex => out.extend_from_slice(b", which is no hex digit"),
        Form::Text if byte == b'\\' => out.extend_from_slice(
            b", which stands only in `\\xNN`, with two lower-case hex digits, and is spelled `\\x5c`",
        ),
        Form::Text => push_spelling(out, byte),
    }
}

/// Appends what stands where a word stops being one.
#[tactic(auto, unfolding(crate::specs::MistakeText::place_text))]
fn push_place(out: &mut Vec<u8>, fault: SyntaxFault) -> Result<(), AllocError>
    ensures { OnOk result (out.new.items ≡ out.old.items ++ place_text fault) }
{
    match fault.byte {
        Some(byte) => {
            push_byte(out, byte)?;
            push_cure(out, fault.form, byte)
        }
        None if fault.before == 0 => {
            out.extend_from_slice(b"no word, where `.` stands for no bytes")
        }
        None => out.extend_from_slice(b"the word's end, where a hex digit is missing"),
    }
}

/// Appends that `--text` is missing, where it is.
#[tactic(auto, unfolding(crate::specs::MistakeText::instead_text))]
fn push_instead(out: &mut Vec<u8>, text: bool) -> Result<(), AllocError>
    ensures { OnOk result (out.new.items ≡ out.old.items ++ instead_text text) }
{
    if text {
        return out.extend_from_slice(b"; with --text it is one");
    }
    Ok(())
}

/// Appends at which column of a word it stops being one, and what stands there.
#[tactic(auto, unfolding(crate::specs::MistakeText::column_text))]
fn push_column(out: &mut Vec<u8>, fault: SyntaxFault) -> Result<(), AllocError>
    ensures { OnOk result (out.new.items ≡ out.old.items ++ column_text fault) }
{
    let column = fault.before.checked_add(1).ok_or(AllocError)?;
    out.extend_from_slice(b": column ")?;
    push_decimal(out, column as u64)?;
    out.extend_from_slice(b": ")?;
    push_place(out, fault)
}

/// Appends why a word spells no bytes.
#[tactic(auto, unfolding(crate::specs::MistakeText::no_bytes_text))]
fn push_no_bytes(
    out: &mut Vec<u8>,
    want: Want,
    fault: SyntaxFault,
    text: bool,
) -> Result<(), AllocError>
    ensures { OnOk result (out.new.items ≡ out.old.items ++ no_bytes_text want fault text) }
{
    push_want(out, b": ", want, b" is no word ")?;
    push_form(out, fault.form)?;
    push_column(out, fault)?;
    push_instead(out, text)
}

/// Appends that a word writes no number, and which may stand there.
#[tactic(auto, unfolding(crate::specs::MistakeText::no_number_text))]
fn push_no_number(out: &mut Vec<u8>, want: Want) -> Result<(), AllocError>
    ensures { OnOk result (out.new.items ≡ out.old.items ++ no_number_text want) }
{
    push_want(out, b": ", want, b" is no number from 0 to ")?;
    push_decimal(out, want.most())
}

/// Appends that a word is no write of a key.
#[tactic(auto, unfolding(crate::specs::MistakeText::no_write_text))]
fn push_no_write(out: &mut Vec<u8>, form: Form, text: bool) -> Result<(), AllocError>
    ensures { OnOk result (out.new.items ≡ out.old.items ++ no_write_text form text) }
{
    push_formed(out, b" is neither KEY=VALUE nor KEY! ", form)?;
    push_instead(out, text)
}

/// Appends what is wrong with a word, behind its number.
fn push_wrong(out: &mut Vec<u8>, wrong: Wrong) -> Result<(), AllocError>
    ensures { OnOk result (out.new.items ≡ out.old.items ++ wrong_text wrong) }
{
    match wrong {
        Wrong::Missing(want) => push_want(out, b": ", want, b" is missing"),
        Wrong::Extra => {
            out.extend_from_slice(b" is one too many, where one blank parts two words")
        }
        Wrong::NoBytes(want, fault, text) => push_no_bytes(out, want, fault, text),
        Wrong::NoNumber(want) => push_no_number(out, want),
        Wrong::NoWrite(form, text) => push_no_write(out, form, text),
        Wrong::IsLimit => out.extend_from_slice(
            b": FROM is `limit`, which is spelled `\\x6cimit` where TO stands too",
        ),
    }
}

/// Appends what is wrong with the word of this number, and a newline.
#[tactic(auto, unfolding(crate::specs::MistakeText::word_text))]
fn push_word(out: &mut Vec<u8>, number: u64, wrong: Wrong) -> Result<(), AllocError>
    ensures { OnOk result (out.new.items ≡ out.old.items ++ word_text number wrong) }
{
    out.extend_from_slice(b"bad line: word ")?;
    push_decimal(out, number)?;
    push_wrong(out, wrong)?;
    out.push(b'\n')?;
    Ok(())
}

/// Appends what is wrong with a line, and a newline.
#[tactic(auto, unfolding(crate::specs::MistakeText::mistake_text))]
pub(crate) fn push_mistake(out: &mut Vec<u8>, mistake: Mistake) -> Result<(), AllocError>
    ensures { OnOk result (out.new.items ≡ out.old.items ++ mistake_text mistake) }
{
    match mistake {
        Mistake::Blank => out.extend_from_slice(b"bad line: it begins with a blank\n"),
        Mistake::Return => out.extend_from_slice(b"bad line: it ends with a carriage return\n"),
        Mistake::Word(number, wrong) => push_word(out, number, wrong),
    }
}
