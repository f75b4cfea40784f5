//! The parts of a text.

ghost use Rattle.std.specs.Prelude.{◌≡◌, ◌<◌, ◌∷◌, length};
ghost use Rattle.std.specs.Option.{option_map};
ghost use Rattle.lsm_text.specs.EntryList.{lines_of};
ghost use Rattle.lsm_text.specs.EntryReading.{parts_at};

use memchr::memchr;

/// What stands before the first separator, and what stands after it.
pub fn parts<'a>(separator: u8, text: &'a [u8]) -> Option<(&'a [u8], &'a [u8])>
    ensures { option_map (λ p. (p.0.now, p.1.now)) result ≡ parts_at separator text.now }
{
    match memchr(separator, text) {
        Some(i) => Some((&text[..i], &text[i + 1..])),
        None => None,
    }
}

/// The first line of a text, and what follows it.
pub fn first_line(text: &[u8]) -> (&[u8], &[u8])
    requires { 0 < length text.now }
    ensures lines { lines_of text.now ≡ result.0.now ∷ lines_of result.1.now }
    ensures shorter { length result.1.now < length text.now }
{
    match parts(b'\n', text) {
        Some(found) => found,
        None => text.split_at(text.len()),
    }
}
