//! What is wrong with words that are of the grammar, but that ask for nothing.

use crate::asking::{between_in, form_in, is_set, quick_in, reads_only_in, word_in};
use clap::ArgMatches;
use lsm_text::{Form, SyntaxFault, syntax_fault_in};
use std::fmt;

/// What stands wrong in a command line, and why. It prints as a text without a newline.
#[derive(Clone, Copy)]
pub(crate) enum UsageFault<'a> {
    /// What it is to spell, KEY or VALUE, a word that is none of its form, and where it stops being
    /// one.
    Bytes(&'static str, &'a str, SyntaxFault),
    /// A word, and what is wrong with it.
    Word(&'a str, &'static str),
    /// Nothing that is seen here.
    Unseen,
}

/// The arguments that spell bytes, and what these are.
const SPELLED: [(&str, &str); 5] = [
    ("KEY", "KEY"),
    ("from", "KEY"),
    ("to", "KEY"),
    ("prefix", "KEY"),
    ("VALUE", "VALUE"),
];

/// What an option excludes by which nothing is written.
const READ_ONLY_EXCLUDES: &str = "excludes --begin, --beside-log, --recover and --workers";

/// What is said of the word of an argument that writes no number of a range, though `clap` may read
/// it as one.
struct Range {
    name: &'static str,
    least: u64,
    most: u64,
    wrong: &'static str,
}

/// The ranges, in the order in which words are looked at. Where no number is in a range, each word
/// stands wrong that comes so far.
const RANGES: [Range; 9] = [
    Range {
        name: "wait",
        least: 1,
        most: 3600,
        wrong: "is no number of seconds, 1 to 3600",
    },
    Range {
        name: "COMMAND",
        least: 1,
        most: 0,
        wrong: "is no command",
    },
    Range {
        name: "limit",
        least: 1,
        most: 0,
        wrong: "is no number of pairs",
    },
    Range {
        name: "from-line",
        least: 1,
        most: u64::MAX,
        wrong: "is no number of a line, from 1",
    },
    Range {
        name: "num",
        least: 1,
        most: u64::MAX,
        wrong: "is no number of pairs",
    },
    Range {
        name: "value-size",
        least: 0,
        most: u64::MAX,
        wrong: "is no size of a value",
    },
    Range {
        name: "workers",
        least: 0,
        most: u64::MAX,
        wrong: "is no number of workers",
    },
    Range {
        name: "benchmarks",
        least: 1,
        most: 0,
        wrong: "names no benchmarks",
    },
    Range {
        name: "workers",
        least: 1,
        most: 0,
        wrong: "is no number of workers",
    },
];

/// Why the word under this name spells no bytes in this form; `what` it is to spell.
fn wrong_bytes<'a>(
    form: Form,
    found: &ArgMatches<'a>,
    name: &str,
    what: &'static str,
) -> Option<UsageFault<'a>> {
    let word = word_in(found, name)?;
    let fault = syntax_fault_in(form, word.as_bytes())?;
    Some(UsageFault::Bytes(what, word, fault))
}

/// The first word that spells no bytes.
fn first_wrong_bytes<'a>(found: &ArgMatches<'a>) -> Option<UsageFault<'a>> {
    let form = form_in(found);
    for (name, what) in &SPELLED {
        let fault = wrong_bytes(form, found, name, what);
        if fault.is_some() {
            return fault;
        }
    }
    None
}

/// What is wrong with the word of this range's argument.
fn wrong_number<'a>(found: &ArgMatches<'a>, range: &Range) -> Option<UsageFault<'a>> {
    let word = word_in(found, range.name)?;
    match between_in(Some(word), range.least, range.most) {
        Some(_) => None,
        None => Some(UsageFault::Word(word, range.wrong)),
    }
}

/// The first word that writes no number of its range.
fn first_wrong_number<'a>(found: &ArgMatches<'a>) -> Option<UsageFault<'a>> {
    for range in &RANGES {
        let fault = wrong_number(found, range);
        if fault.is_some() {
            return fault;
        }
    }
    None
}

/// What is wrong with options that exclude one another.
fn excluding<'a>(found: &ArgMatches<'a>) -> Option<UsageFault<'a>> {
    if is_set(found, "files") && is_set(found, "svg") {
        return Some(UsageFault::Word("--files", "and `--svg` exclude one another"));
    }
    // A scan, which has no such argument, may have both.
    let loads = word_in(found, "from-line").is_some();
    if loads && is_set(found, "json") && is_set(found, "text") {
        return Some(UsageFault::Word("--json", "and `--text` exclude one another"));
    }
    if quick_in(found).is_none() {
        return Some(UsageFault::Word("--quick", "excludes --logs and --inflate"));
    }
    if reads_only_in(found).is_none() {
        return Some(UsageFault::Word("--read-only", READ_ONLY_EXCLUDES));
    }
    None
}

/// What is wrong with the words of a command.
fn fault_of<'a>(found: &ArgMatches<'a>) -> Option<UsageFault<'a>> {
    excluding(found)
        .or(first_wrong_bytes(found))
        .or(first_wrong_number(found))
}

/// What is wrong with the words of the command that was found.
pub(crate) fn fault_in<'a>(matches: &ArgMatches<'a>) -> UsageFault<'a> {
    match matches.subcommand() {
        Some((_, found)) => fault_of(found).unwrap_or(UsageFault::Unseen),
        None => UsageFault::Unseen,
    }
}

/// How words of this form are called.
fn words_of(form: Form) -> &'static str {
    match form {
        Form::Text => "of text",
        Form::Hex => "in hex",
    }
}

/// Whether a word that is none in hex is one of text.
fn is_text_instead(form: Form, word: &str) -> bool {
    matches!(form, Form::Hex) && syntax_fault_in(Form::Text, word.as_bytes()).is_none()
}

/// Writes why a word spells no KEY or VALUE.
fn write_bytes<W: fmt::Write>(
    f: &mut fmt::Formatter<W>,
    what: &str,
    word: &str,
    fault: SyntaxFault,
) -> fmt::Result {
    let words = words_of(fault.form);
    let column = fault.column(0);
    let end = if is_text_instead(fault.form, word) {
        "; with --text it is one"
    } else {
        ""
    };
    write!(
        f,
        "{what} `{word}` is no word {words}: column {column}: {fault}{end}"
    )
}

impl<'a> fmt::Display for UsageFault<'a> {
    fn fmt<W: fmt::Write>(&self, f: &mut fmt::Formatter<W>) -> fmt::Result {
        match self {
            UsageFault::Bytes(what, word, fault) => write_bytes(f, what, word, *fault),
            UsageFault::Word(word, wrong) => write!(f, "`{word}` {wrong}"),
            UsageFault::Unseen => f.write_str("the words ask for no command"),
        }
    }
}
