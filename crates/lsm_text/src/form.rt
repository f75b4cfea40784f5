//! The two forms of words for bytes.

ghost use Rattle.std.specs.Prelude.{◌≡◌, ◌++◌, IfNone, IfOk, IfSome, List, OnOk, Some, ℕ};

use crate::spelling::{push_bytes, push_decimal};
use crate::text_words::{push_text, read_text};
use crate::words::read_hex;
use lsm_codec::{Bytes, key_parts};
use std::alloc::{AllocError, Global};

/// How bytes are spelled as words.
#[derive(Clone, Copy, Debug)]
pub enum Form {
    /// Two hex digits a byte, lower case when printed, of either case when read; `.` for no bytes.
    Hex,
    /// A byte that prints stands for itself, but for `!`, `=`, `@`, `\` and the blank; these and
    /// all others, and a lone `.`, are `\xNN`, with two lower-case hex digits. `.` for no bytes.
    Text,
}

impl Form {
    ghost use Rattle.lsm_text.specs.Spelling.{IsWord, spelled};
    ghost use Rattle.lsm_text.specs.ManifestPrinting.{key_word_in};

    /// Appends the word for some bytes.
    pub fn push_bytes(self, out: &mut Vec<u8>, bytes: &[u8]) -> Result<(), AllocError>
        ensures { OnOk result (out.new.items ≡ out.old.items ++ spelled self bytes.now) }
    {
        match self {
            Form::Hex => push_bytes(out, bytes),
            Form::Text => push_text(out, bytes),
        }
    }

    /// Appends an internal key: `KEY@SEQ+` for a value, `KEY@SEQ-` for a deletion.
    #[tactic(auto, unfolding(crate::specs::ManifestPrinting::key_word_in))]
    pub fn push_key(self, out: &mut Vec<u8>, key: &[u8]) -> Result<(), AllocError>
        ensures { OnOk result (out.new.items ≡ out.old.items ++ key_word_in self key.now) }
    {
        let (user, packed) = key_parts(key);
        self.push_bytes(out, user)?;
        out.push(b'@')?;
        push_decimal(out, packed / 256)?;
        out.extend_from_slice(if packed % 256 == 0 { b"-" } else { b"+" })
    }

    /// The bytes that a word spells; none where it spells none.
    pub fn read_bytes(self, alloc: Global, word: &[u8]) -> Result<Option<Bytes>, AllocError>
        ensures only { IfOk result (λ o. IfSome o (IsWord self word.now)) }
        ensures found { (bytes : List ℕ) → IsWord self word.now bytes
            → IfOk result (λ o. o ≡ Some bytes) }
        ensures none { IfOk result (λ o.
            IfNone o ((bytes : List ℕ) → IsWord self word.now bytes → ⊥)) }
    {
        match self {
            Form::Hex => read_hex(alloc, word),
            Form::Text => read_text(alloc, word),
        }
    }
}
