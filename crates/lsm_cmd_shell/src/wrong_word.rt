//! Words that are not as a line wants them.

ghost use Rattle.std.specs.Prelude.{◌↔◌, IfNone, IfOk, IfSome, IsTrue};
ghost use Rattle.lsm_cmd_shell.specs.Mistakes.{IsNoBytes, IsNoNumber, IsNoWrite, IsNoFrom};
ghost use Rattle.lsm_cmd_shell.specs.Mistakes.{IsTextInstead, IsTextWrite, IsWrongWord};
ghost use Rattle.lsm_cmd_shell.specs.declared.mistake.Wrong.{Wrong};
ghost use Rattle.lsm_text.specs.declared.form.Form.TheVariants.{Hex};

use crate::mistake::Wrong;
use crate::want::Want;
use lsm_text::{Form, number_in, syntax_fault_in, write_in};
use std::alloc::{AllocError, Global};

/// Whether a word, read in this form, is one of text, for which nothing asked.
fn is_text_instead(form: Form, word: &[u8]) -> bool
    ensures { IsTrue result ↔ IsTextInstead form word.now }
{
    match form {
        Form::Hex => syntax_fault_in(Form::Text, word).is_none(),
        Form::Text => false,
    }
}

/// Why a word spells no bytes; none where it spells some.
fn wrong_bytes(form: Form, want: Want, word: &[u8]) -> Option<Wrong>
    ensures some { IfSome result (IsNoBytes form want word.now) }
    ensures none { IfNone result ((wrong : Wrong) → IsNoBytes form want word.now wrong → ⊥) }
{
    match syntax_fault_in(form, word) {
        Some(fault) => Some(Wrong::NoBytes(want, fault, is_text_instead(form, word))),
        None => None,
    }
}

/// Why a word may not stand before `TO limit N` as FROM.
fn wrong_from(form: Form, word: &[u8]) -> Option<Wrong>
    ensures some { IfSome result (IsNoFrom form word.now) }
    ensures none { IfNone result ((wrong : Wrong) → IsNoFrom form word.now wrong → ⊥) }
{
    match wrong_bytes(form, Want::FromBeside, word) {
        Some(wrong) => Some(wrong),
        None if word == b"limit".as_slice() => Some(Wrong::IsLimit),
        None => None,
    }
}

/// Why a word writes no number that may stand there.
fn wrong_number(want: Want, word: &[u8]) -> Option<Wrong>
    ensures some { IfSome result (IsNoNumber want word.now) }
    ensures none { IfNone result ((wrong : Wrong) → IsNoNumber want word.now wrong → ⊥) }
{
    match number_in(word, want.most()) {
        Some(_) => None,
        None => Some(Wrong::NoNumber(want)),
    }
}

/// Whether a word is a write of a key in the form of text.
fn is_write_of_text(alloc: Global, word: &[u8]) -> Result<bool, AllocError>
    ensures { IfOk result (λ yes. IsTrue yes ↔ IsTextWrite Hex word.now) }
{
    Ok(write_in(alloc, Form::Text, word)?.is_some())
}

/// Whether a word, read in this form, is a write of a key in the form of text.
fn is_text_write(alloc: Global, form: Form, word: &[u8]) -> Result<bool, AllocError>
    ensures { IfOk result (λ text. IsTrue text ↔ IsTextWrite form word.now) }
{
    match form {
        Form::Hex => is_write_of_text(alloc, word),
        Form::Text => Ok(false),
    }
}

/// Why a word is no write of a key.
fn wrong_write(alloc: Global, form: Form, word: &[u8]) -> Result<Option<Wrong>, AllocError>
    ensures some { IfOk result (λ o. IfSome o (IsNoWrite form word.now)) }
    ensures none { IfOk result (λ o.
        IfNone o ((wrong : Wrong) → IsNoWrite form word.now wrong → ⊥)) }
{
    match write_in(alloc, form, word)? {
        Some(_) => Ok(None),
        None => Ok(Some(Wrong::NoWrite(form, is_text_write(alloc, form, word)?))),
    }
}

/// Why a word is not as it is wanted.
pub(crate) fn wrong_word(
    alloc: Global,
    form: Form,
    want: Want,
    word: &[u8],
) -> Result<Option<Wrong>, AllocError>
    ensures some { IfOk result (λ o. IfSome o (IsWrongWord form want word.now)) }
    ensures none { IfOk result (λ o.
        IfNone o ((wrong : Wrong) → IsWrongWord form want word.now wrong → ⊥)) }
{
    match want {
        Want::Key => Ok(wrong_bytes(form, Want::Key, word)),
        Want::Value => Ok(wrong_bytes(form, Want::Value, word)),
        Want::From => Ok(wrong_bytes(form, Want::From, word)),
        Want::FromBeside => Ok(wrong_from(form, word)),
        Want::To => Ok(wrong_bytes(form, Want::To, word)),
        Want::KeyWrite => wrong_write(alloc, form, word),
        Want::Limit => Ok(None),
        Want::Count | Want::Snapshot | Want::Pin | Want::Ticket | Want::Level => {
            Ok(wrong_number(want, word))
        }
    }
}
