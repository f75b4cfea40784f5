//! Lines that ask for nothing.

ghost use Rattle.std.specs.Prelude.{◌≡◌, IfNone, IfOk, IfSome, map, replicate};
ghost use Rattle.lsm_cmd_shell.specs.Mistakes.{IsFirstWrong, IsMistake, IsWordMistake};
ghost use Rattle.lsm_cmd_shell.specs.Mistakes.{begins_blank, ends_in_return};
ghost use Rattle.lsm_cmd_shell.specs.Mistakes.{scan_wants, wants_of};
ghost use Rattle.lsm_cmd_shell.specs.declared.mistake.Mistake.{Mistake};
ghost use Rattle.lsm_cmd_shell.specs.declared.want.Want.TheVariants.{KeyWrite};

use crate::line_kind::{LineKind, kind_of};
use crate::mistake::{Mistake, Wrong};
use crate::scan_line::has_limit;
use crate::want::Want;
use crate::wrong_word::wrong_word;
use lsm_script::words_in;
use lsm_text::Form;
use std::alloc::{AllocError, Global};

/// The first of these words, behind a name, that is not as it is wanted.
fn first_wrong(
    alloc: Global,
    form: Form,
    wants: &[Want],
    words: &[&[u8]],
) -> Result<Option<Mistake>, AllocError>
    ensures some { IfOk result (λ o.
        IfSome o (IsFirstWrong form 2 wants.now (map (λ w. w.now) words.now))) }
    ensures none { IfOk result (λ o. IfNone o ((m : Mistake)
        → IsFirstWrong form 2 wants.now (map (λ w. w.now) words.now) m → ⊥)) }
{
    let mut wanted = wants;
    let mut rest = words;
    let mut number = 2u64;
    'words: while let [word, after @ ..] = rest {
        let [want, later @ ..] = wanted else {
            return Ok(Some(Mistake::Word(number, Wrong::Extra)));
        };
        if let Some(wrong) = wrong_word(alloc, form, *want, word)? {
            return Ok(Some(Mistake::Word(number, wrong)));
        }
        number = number.checked_add(1).ok_or(AllocError)?;
        wanted = later;
        rest = after;
    }
    match wanted {
        [] => Ok(None),
        [want, ..] => Ok(Some(Mistake::Word(number, Wrong::Missing(*want)))),
    }
}

/// What a scan wants behind its name, where so many words stand there.
#[tactic(auto, unfolding(crate::specs::Mistakes::scan_wants))]
fn scan_wants(alloc: Global, limited: bool, count: usize) -> Result<Vec<Want>, AllocError>
    ensures { IfOk result (λ wants. wants.items ≡ scan_wants limited count) }
{
    match (limited, count) {
        (true, 2) => Vec::from_slice(alloc, &[Want::Limit, Want::Count]),
        (true, 3) => Vec::from_slice(alloc, &[Want::From, Want::Limit, Want::Count]),
        (true, 4) => Vec::from_slice(
            alloc,
            &[Want::FromBeside, Want::To, Want::Limit, Want::Count],
        ),
        (false, 0) => Ok(Vec::new(alloc)),
        (false, 1) => Vec::from_slice(alloc, &[Want::From]),
        _ => Vec::from_slice(alloc, &[Want::From, Want::To]),
    }
}

/// So many writes of keys.
fn writes(alloc: Global, count: usize) -> Result<Vec<Want>, AllocError>
    ensures { IfOk result (λ wants. wants.items ≡ replicate count KeyWrite) }
{
    let mut wants = Vec::new(alloc);
    wants.resize(count, Want::KeyWrite)?;
    Ok(wants)
}

/// What a line wants behind its name, where these words stand there.
fn wants_of(alloc: Global, kind: LineKind, words: &[&[u8]]) -> Result<Vec<Want>, AllocError>
    ensures { IfOk result (λ wants. wants.items ≡ wants_of kind (map (λ w. w.now) words.now)) }
{
    match kind {
        LineKind::Alone => Ok(Vec::new(alloc)),
        LineKind::Put => Vec::from_slice(alloc, &[Want::Key, Want::Value]),
        LineKind::Delete => Vec::from_slice(alloc, &[Want::Key]),
        LineKind::Get if words.len() < 2 => Vec::from_slice(alloc, &[Want::Key]),
        LineKind::Get => Vec::from_slice(alloc, &[Want::Key, Want::Snapshot]),
        LineKind::Scan => scan_wants(alloc, has_limit(words), words.len()),
        LineKind::Ingest => writes(alloc, words.len()),
        LineKind::Release => Vec::from_slice(alloc, &[Want::Snapshot]),
        LineKind::Reserve if words.is_empty() => Ok(Vec::new(alloc)),
        LineKind::Reserve => Vec::from_slice(alloc, &[Want::Level, Want::From, Want::To]),
        LineKind::Job => Vec::from_slice(alloc, &[Want::Ticket]),
        LineKind::Unpin => Vec::from_slice(alloc, &[Want::Pin]),
    }
}

/// What is wrong with a line of these words.
fn mistake_of(alloc: Global, form: Form, words: &[&[u8]]) -> Result<Option<Mistake>, AllocError>
    ensures some { IfOk result (λ o.
        IfSome o (IsWordMistake form (map (λ w. w.now) words.now))) }
    ensures none { IfOk result (λ o. IfNone o ((m : Mistake)
        → IsWordMistake form (map (λ w. w.now) words.now) m → ⊥)) }
{
    let [name, behind @ ..] = words else {
        return Ok(None);
    };
    let Some(kind) = kind_of(name) else {
        return Ok(None);
    };
    let wants = wants_of(alloc, kind, behind)?;
    first_wrong(alloc, form, &wants, behind)
}

/// Whether a line begins with a blank.
fn begins_blank(line: &[u8]) -> bool
    ensures { result ≡ begins_blank line.now }
{
    match line {
        [byte, ..] => *byte == b' ',
        [] => false,
    }
}

/// Whether a line ends with a carriage return.
fn ends_in_return(line: &[u8]) -> bool
    ensures { result ≡ ends_in_return line.now }
{
    match line {
        [.., byte] => *byte == b'\r',
        [] => false,
    }
}

/// What is wrong with a line, its words for bytes in this form. None where its first word is the
/// name of no line, and where nothing is wrong with it.
pub fn mistake_in(alloc: Global, form: Form, line: &[u8]) -> Result<Option<Mistake>, AllocError>
    ensures some { IfOk result (λ o. IfSome o (IsMistake form line.now)) }
    ensures none { IfOk result (λ o. IfNone o ((m : Mistake) → IsMistake form line.now m → ⊥)) }
{
    if begins_blank(line) {
        return Ok(Some(Mistake::Blank));
    }
    if ends_in_return(line) {
        return Ok(Some(Mistake::Return));
    }
    let words = words_in(alloc, line)?;
    mistake_of(alloc, form, &words)
}
