//! Commands of one word, and of a name and a number.

ghost use Rattle.std.specs.Prelude.{◌≡◌, ◌∷◌, ◌↔◌, [], ℕ, IfNone, IfSome, IsTrue, map};
ghost use Rattle.lsm_script.specs.declared.command.Command.{Command};
ghost use Rattle.lsm_script.specs.CommandLine.{HasNumber, IsBare, IsCommand, IsNumbered};
ghost use Rattle.lsm_text.specs.declared.form.Form.{Form};

use crate::command::Command;
use lsm_text::number_in;

/// Whether the words are this name alone.
fn is_alone(words: &[&[u8]], name: &[u8]) -> bool
    ensures { IsTrue result ↔ (map (λ w. w.now) words.now ≡ name.now ∷ []) }
{
    match words {
        [word] if *word == name => true,
        _ => false,
    }
}

/// The number, at most `most`, that stands behind this name, and nothing else.
fn number_of(words: &[&[u8]], name: &[u8], most: u64) -> Option<u64>
    ensures some { IfSome result (IsNumbered name.now most (map (λ w. w.now) words.now)) }
    ensures none { IfNone result ((n : ℕ) → IsNumbered name.now most (map (λ w. w.now) words.now) n
        → ⊥) }
{
    match words {
        [word, number] if *word == name => number_in(number, most),
        _ => None,
    }
}

/// The command of one word that the words ask for.
pub(crate) fn bare_in(words: &[&[u8]]) -> Option<Command>
    ensures some { (form : Form) → IfSome result (IsCommand form (map (λ w. w.now) words.now)) }
    ensures none { IfNone result ((form : Form) (c : Command) → IsBare c
        → IsCommand form (map (λ w. w.now) words.now) c → ⊥) }
{
    if is_alone(words, b"snapshot") {
        return Some(Command::Snapshot);
    }
    if is_alone(words, b"reserve") {
        return Some(Command::Reserve);
    }
    if is_alone(words, b"pin") {
        return Some(Command::Pin);
    }
    if is_alone(words, b"collect") {
        return Some(Command::Collect);
    }
    if is_alone(words, b"list") {
        return Some(Command::List);
    }
    None
}

/// The command of a name and a number that the words ask for.
pub(crate) fn numbered_in(words: &[&[u8]]) -> Option<Command>
    ensures some { (form : Form) → IfSome result (IsCommand form (map (λ w. w.now) words.now)) }
    ensures none { IfNone result ((form : Form) (c : Command) → HasNumber c
        → IsCommand form (map (λ w. w.now) words.now) c → ⊥) }
{
    if let Some(id) = number_of(words, b"release", u64::MAX) {
        return Some(Command::Release(id));
    }
    if let Some(ticket) = number_of(words, b"merge", u64::MAX) {
        return Some(Command::Merge(ticket));
    }
    if let Some(ticket) = number_of(words, b"install", u64::MAX) {
        return Some(Command::Install(ticket));
    }
    if let Some(ticket) = number_of(words, b"cancel", u64::MAX) {
        return Some(Command::Cancel(ticket));
    }
    if let Some(id) = number_of(words, b"unpin", u64::from(u32::MAX)) {
        return Some(Command::Unpin(id as u32));
    }
    None
}
