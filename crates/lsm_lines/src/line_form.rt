//! How lines spell writes.

use lsm_text::Form;

/// How each line of an input spells a write.
#[derive(Clone, Copy, Debug)]
pub enum LineForm {
    /// By words of this form: `KEY=VALUE`, or `KEY!` where the key is deleted.
    Words(Form),
    /// As a JSON object, of which it is the put: `{"key":"..","value":".."}`, or in the place of
    /// one of these names `key_base64`, `value_base64`, with base64 of the bytes.
    Json,
}
