//! Pairs as JSON objects, a line each.

ghost use Rattle.std.specs.Prelude.{◌≡◌, ◌++◌, ◌∷◌, [], IfOk, OnOk};
ghost use Rattle.json.specs.Token.{key, string};
ghost use Rattle.lsm_cmd_read.specs.JsonLines.{bytes_tokens, json_line};

use base64::engine::general_purpose::STANDARD;
use json::Writer;
use std::alloc::{AllocError, Global};

/// Writes a member of an object: a name, and a string behind it.
fn write_text(writer: &mut Writer, name: &str, text: &str) -> Result<(), AllocError>
    ensures written { OnOk result
        (writer.new.tokens ≡ writer.old.tokens ++ key name.now ∷ string text.now ∷ []) }
    ensures before { writer.new.before ≡ writer.old.before }
{
    writer.key(name)?;
    writer.string(text)
}

/// Writes bytes as a member of an object: the characters that they are in UTF-8, or, where they are
/// none, their base64 under the other name.
fn write_member(
    writer: &mut Writer,
    alloc: Global,
    name: &str,
    other: &str,
    bytes: &[u8],
) -> Result<(), AllocError>
    ensures written { OnOk result (writer.new.tokens
        ≡ writer.old.tokens ++ bytes_tokens name.now other.now bytes.now) }
    ensures before { writer.new.before ≡ writer.old.before }
{
    match str::from_utf8(bytes) {
        Ok(text) => write_text(writer, name, text),
        Err(_) => write_text(writer, other, STANDARD.encode(alloc, bytes)?.as_str()),
    }
}

/// Appends the line of a pair: `{"key":"..","value":".."}`, with base64 under another name for what
/// is no UTF-8.
pub(crate) fn append_json(
    out: Vec<u8>,
    alloc: Global,
    user: &[u8],
    value: &[u8],
) -> Result<Vec<u8>, AllocError>
    ensures { IfOk result (λ line. line.items ≡ out.items ++ json_line (user.now, value.now)) }
{
    let mut writer = Writer::new(out);
    writer.begin_object()?;
    write_member(&mut writer, alloc, "key", "key_base64", user)?;
    write_member(&mut writer, alloc, "value", "value_base64", value)?;
    writer.end_object()?;
    let mut line = writer.into_inner();
    line.push(b'\n')?;
    Ok(line)
}
