//! Replies as text.

ghost use Rattle.std.specs.Prelude.{◌≡◌, ◌++◌, OnOk, decimal};
ghost use Rattle.lsm_script.specs.ReplyText.{file_words_in, ingested_text, line_of};
ghost use Rattle.lsm_script.specs.ReplyText.{listed_line, listed_lines, numbers_text, replies_text};
ghost use Rattle.lsm_script.specs.ReplyText.{reply_text, reserved_text, two_numbers};

use crate::refusal_text::push_refused;
use crate::reply::{Reply, Reserved};
use lsm_manifest::FileMeta;
use lsm_state::Ingested;
use lsm_text::{Form, push_decimal};
use std::alloc::AllocError;

/// Appends a word and a number.
fn push_number(out: &mut Vec<u8>, word: &[u8], n: u64) -> Result<(), AllocError>
    ensures { OnOk result (out.new.items ≡ out.old.items ++ (word.now ++ decimal n)) }
{
    out.extend_from_slice(word)?;
    push_decimal(out, n)
}

/// Appends two words, with a number behind each.
#[tactic(auto, unfolding(crate::specs::ReplyText::two_numbers))]
fn push_two(
    out: &mut Vec<u8>,
    first: &[u8],
    m: u64,
    second: &[u8],
    n: u64,
) -> Result<(), AllocError>
    ensures { OnOk result (out.new.items ≡ out.old.items ++ two_numbers first.now m second.now n) }
{
    push_number(out, first, m)?;
    push_number(out, second, n)
}

/// Appends a space and a number, for each.
fn push_numbers(out: &mut Vec<u8>, numbers: &[u64]) -> Result<(), AllocError>
    ensures { OnOk result (out.new.items ≡ out.old.items ++ numbers_text numbers.now) }
{
    for number in numbers {
        push_number(out, b" ", *number)?;
    }
    Ok(())
}

/// Appends the numbers of a batch that came in.
#[tactic(auto, unfolding(crate::specs::ReplyText::ingested_text))]
fn push_ingested(out: &mut Vec<u8>, ingested: &Ingested) -> Result<(), AllocError>
    ensures { OnOk result (out.new.items ≡ out.old.items ++ ingested_text ingested.now) }
{
    push_two(out, b"file ", ingested.file, b" first ", ingested.first)?;
    push_number(out, b" last ", ingested.last)
}

/// Appends a compaction that was reserved.
#[tactic(auto, unfolding(crate::specs::ReplyText::reserved_text))]
fn push_reserved(
    out: &mut Vec<u8>,
    what: &[u8],
    inputs: &[u8],
    reserved: &Reserved,
) -> Result<(), AllocError>
    ensures { OnOk result (out.new.items
        ≡ out.old.items ++ reserved_text what.now inputs.now reserved.now) }
{
    push_two(
        out,
        what,
        reserved.ticket,
        b" level ",
        reserved.level as u64,
    )?;
    out.extend_from_slice(inputs)?;
    push_numbers(out, reserved.inputs.as_slice())
}

/// Appends the words of a file, its keys in this form: its number, its size, its smallest and its
/// largest key.
#[tactic(auto, unfolding(crate::specs::ReplyText::file_words_in))]
fn push_file_words(out: &mut Vec<u8>, form: Form, file: &FileMeta) -> Result<(), AllocError>
    ensures { OnOk result (out.new.items ≡ out.old.items ++ file_words_in form file.now) }
{
    push_decimal(out, file.number)?;
    out.push(b' ')?;
    push_decimal(out, file.size)?;
    out.push(b' ')?;
    form.push_key(out, file.smallest.as_slice())?;
    out.push(b' ')?;
    form.push_key(out, file.largest.as_slice())
}

/// Appends the line of a file.
#[tactic(auto, unfolding(crate::specs::ReplyText::listed_line))]
fn push_file(out: &mut Vec<u8>, form: Form, file: &(u8, FileMeta)) -> Result<(), AllocError>
    ensures { OnOk result (out.new.items ≡ out.old.items ++ listed_line form file.now) }
{
    push_decimal(out, u64::from(file.0))?;
    out.push(b' ')?;
    push_file_words(out, form, &file.1)?;
    out.push(b'\n')?;
    Ok(())
}

/// Appends the lines of files.
fn push_files(out: &mut Vec<u8>, form: Form, files: &[(u8, FileMeta)]) -> Result<(), AllocError>
    ensures { OnOk result (out.new.items ≡ out.old.items ++ listed_lines form files.now) }
{
    for file in files {
        push_file(out, form, file)?;
    }
    Ok(())
}

/// Appends a reply, without its newline.
fn push_line(out: &mut Vec<u8>, form: Form, reply: &Reply) -> Result<(), AllocError>
    ensures { OnOk result (out.new.items ≡ out.old.items ++ line_of form reply.now) }
{
    match reply {
        Reply::Ingested(ingested) => push_ingested(out, ingested),
        Reply::Value(value) => {
            out.extend_from_slice(b"value ")?;
            form.push_bytes(out, value.as_slice())
        }
        Reply::Absent => out.extend_from_slice(b"absent"),
        Reply::Snapshot(id, seq) => push_two(out, b"snapshot ", *id, b" seq ", *seq),
        Reply::Released => out.extend_from_slice(b"released"),
        Reply::Job(job) => push_reserved(out, b"job ", b" inputs", job),
        Reply::Move(job) => push_reserved(out, b"move ", b" input", job),
        Reply::NoJob => out.extend_from_slice(b"none"),
        Reply::Merged(ticket, tables) => {
            push_two(out, b"merged ", *ticket, b" tables ", *tables as u64)
        }
        Reply::Installed(numbers) => {
            out.extend_from_slice(b"installed")?;
            push_numbers(out, numbers.as_slice())
        }
        Reply::Cancelled => out.extend_from_slice(b"cancelled"),
        Reply::Pinned(id) => push_number(out, b"pin ", u64::from(*id)),
        Reply::Unpinned => out.extend_from_slice(b"unpinned"),
        Reply::Removed(numbers) => {
            out.extend_from_slice(b"removed")?;
            push_numbers(out, numbers.as_slice())
        }
        Reply::Files(files) => {
            push_files(out, form, files.as_slice())?;
            out.extend_from_slice(b"end")
        }
        Reply::Refused(refusal) => push_refused(out, refusal),
    }
}

/// Appends a reply, keys and values in this form: a line, and for a list of files a line each and
/// `end`.
#[tactic(auto, unfolding(crate::specs::ReplyText::reply_text))]
pub fn push_reply(out: &mut Vec<u8>, form: Form, reply: &Reply) -> Result<(), AllocError>
    ensures { OnOk result (out.new.items ≡ out.old.items ++ reply_text form reply.now) }
{
    push_line(out, form, reply)?;
    out.push(b'\n')?;
    Ok(())
}

/// Appends the replies of a script, one after another, keys and values in hex.
pub fn push_replies(out: &mut Vec<u8>, replies: &[Reply]) -> Result<(), AllocError>
    ensures { OnOk result (out.new.items ≡ out.old.items ++ replies_text replies.now) }
{
    for reply in replies {
        push_reply(out, Form::Hex, reply)?;
    }
    Ok(())
}
