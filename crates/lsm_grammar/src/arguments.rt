//! The arguments of the commands.

/// An option with a word behind it.
#[derive(Clone, Copy)]
pub(crate) struct Valued {
    pub(crate) name: &'static str,
    /// What help calls the word.
    pub(crate) value: &'static str,
    /// What the word is where the option is left out.
    pub(crate) default: Option<&'static str>,
    /// The least and the greatest number that the word may write, where it is to be one.
    pub(crate) range: Option<(u64, u64)>,
    pub(crate) help: &'static str,
}

/// An argument of a command. What stands last is what its help says.
#[derive(Clone, Copy)]
pub(crate) enum Argument {
    /// A word of this name, which has to be there.
    Word(&'static str, &'static str),
    /// The file that is read, which may be left out.
    File,
    /// The command of which help is asked, which may be left out.
    Topic,
    /// An option of this name without a word behind it.
    Flag(&'static str, &'static str),
    /// An option with a word behind it.
    Valued(Valued),
}

/// The path of a folder.
pub(crate) const FOLDER: Argument = Argument::Word("DIR", "The folder of a LevelDB database");

/// The path of a folder that is copied.
pub(crate) const SOURCE: Argument = Argument::Word("SRC", "The folder that is copied");

/// The path of the folder of a copy.
pub(crate) const TARGET: Argument = Argument::Word("DST", "The folder of the copy");

/// The key of a command on one key.
pub(crate) const KEY: Argument = Argument::Word("KEY", "The key");

/// The value that a key gets.
pub(crate) const VALUE: Argument = Argument::Word("VALUE", "Its new value");

/// The file of a batch.
pub(crate) const BATCH: Argument = Argument::Word(
    "FILE",
    "The file of the keys, a line each; `-` is standard input",
);

/// Words are text.
pub(crate) const TEXT: Argument = Argument::Flag(
    "text",
    "Keys and values are text, with `\\xNN` for bytes that do not print",
);

/// A database is begun.
pub(crate) const BEGIN: Argument = Argument::Flag(
    "begin",
    "Begin a database also where CURRENT was lost",
);

/// It is written beside a log that is not flushed.
pub(crate) const BESIDE_LOG: Argument = Argument::Flag(
    "beside-log",
    "Go on also where LevelDB has not flushed its log",
);

/// Logs that are not flushed come in first.
pub(crate) const RECOVERS: Argument = Argument::Flag(
    "recover",
    "Bring in logs that are not flushed first",
);

/// What is read is compared.
pub(crate) const COMPARE: Argument = Argument::Flag(
    "compare",
    "Keep tables in memory, and compare each read",
);

/// Files are removed also where the manifest's end is no whole record.
pub(crate) const ACCEPT_REST: Argument = Argument::Flag(
    "accept-rest",
    "Go on also where the manifest's last record is not whole",
);

/// What is not read is no note.
pub(crate) const STRICT: Argument = Argument::Flag(
    "strict",
    "Refuse where a log or the manifest's end is not read",
);

/// What a command that writes would note is refused.
pub(crate) const NO_NOTES: Argument = Argument::Flag(
    "strict",
    "Refuse where there is something to note",
);

/// Logs that are not flushed are read too.
pub(crate) const LOGS: Argument = Argument::Flag(
    "logs",
    "Read what stands in logs that are not flushed",
);

/// Compressed tables are read too.
pub(crate) const INFLATE: Argument = Argument::Flag("inflate", "Read tables that are compressed");

/// A damaged log comes in as far as it is whole.
pub(crate) const TO_FIRST_FAULT: Argument = Argument::Flag(
    "to-first-fault",
    "Bring a damaged log in up to its first fault",
);

/// Tables are not verified first.
pub(crate) const QUICK: Argument = Argument::Flag(
    "quick",
    "Verify no table but what is read of it",
);

/// Lines say how far a command is.
pub(crate) const PROGRESS: Argument = Argument::Flag(
    "progress",
    "Say on standard error how far it is",
);

/// Levels are shown with their files.
pub(crate) const FILES: Argument = Argument::Flag("files", "Print a line a file too");

/// Levels are drawn.
pub(crate) const SVG: Argument = Argument::Flag("svg", "Draw the levels, as an SVG file");

/// The bytes of a value alone.
pub(crate) const RAW: Argument = Argument::Flag("raw", "Write the bytes of the value alone");

/// Nothing is written of a value.
pub(crate) const EXISTS: Argument = Argument::Flag(
    "exists",
    "Write nothing; status 1 where it is absent",
);

/// The keys of a scan alone.
pub(crate) const KEYS: Argument = Argument::Flag("keys", "Print the keys alone");

/// A scan as JSON.
pub(crate) const JSON: Argument = Argument::Flag("json", "Print a JSON object a line");

/// The number of pairs of a scan alone.
pub(crate) const COUNT: Argument = Argument::Flag("count", "Print how many there are alone");

/// The first key of a scan.
pub(crate) const FROM: Argument = Argument::Valued(Valued {
    name: "from",
    value: "KEY",
    default: None,
    range: None,
    help: "The first key that is printed",
});

/// The last key of a scan.
pub(crate) const TO: Argument = Argument::Valued(Valued {
    name: "to",
    value: "KEY",
    default: None,
    range: None,
    help: "The last key that is printed",
});

/// Whether all keys are compacted.
pub(crate) const ALL: Argument = Argument::Flag("all", "Compact all keys, and not what is due");

/// The first key that is compacted.
pub(crate) const FIRST: Argument = Argument::Valued(Valued {
    name: "from",
    value: "KEY",
    default: None,
    range: None,
    help: "The first key that is compacted",
});

/// The last key that is compacted.
pub(crate) const LAST: Argument = Argument::Valued(Valued {
    name: "to",
    value: "KEY",
    default: None,
    range: None,
    help: "The last key that is compacted",
});

/// How the keys of a scan begin.
pub(crate) const PREFIX: Argument = Argument::Valued(Valued {
    name: "prefix",
    value: "KEY",
    default: None,
    range: None,
    help: "How each key begins that is printed",
});

/// The most pairs of a scan.
pub(crate) const LIMIT: Argument = Argument::Valued(Valued {
    name: "limit",
    value: "N",
    default: None,
    range: Some((0, u64::MAX)),
    help: "How many pairs are printed at most",
});

/// The number of threads that compact.
pub(crate) const WORKERS: Argument = Argument::Valued(Valued {
    name: "workers",
    value: "N",
    default: Some("2"),
    range: Some((1, 8)),
    help: "How many threads compact, 1 to 8",
});

/// The number of threads that verify.
pub(crate) const VERIFIERS: Argument = Argument::Valued(Valued {
    name: "workers",
    value: "N",
    default: None,
    range: Some((1, 16)),
    help: "How many threads verify tables, 1 to 16",
});

/// The number of threads that compact beside a conversation.
pub(crate) const COMPACTORS: Argument = Argument::Valued(Valued {
    name: "workers",
    value: "N",
    default: None,
    range: Some((1, 16)),
    help: "How many threads compact beside, 1 to 16",
});

/// How long a lock is waited for.
pub(crate) const WAIT: Argument = Argument::Valued(Valued {
    name: "wait",
    value: "SECONDS",
    default: None,
    range: Some((1, 3600)),
    help: "Wait for the lock, 1 to 3600 seconds",
});

/// The first line that is loaded.
pub(crate) const FROM_LINE: Argument = Argument::Valued(Valued {
    name: "from-line",
    value: "I",
    default: Some("1"),
    range: Some((1, u64::MAX)),
    help: "The first line that is loaded, from 1",
});

/// A shell ends behind the first line that fails.
pub(crate) const BAIL: Argument = Argument::Flag(
    "bail",
    "End behind the first bad or refused line",
);

/// Lines that are loaded are JSON objects.
pub(crate) const JSON_LINES: Argument = Argument::Flag("json", "Each line is a JSON object");

/// A shell writes nothing.
pub(crate) const READ_ONLY: Argument = Argument::Flag(
    "read-only",
    "Refuse each line that would write",
);

/// A last line that may have been cut is loaded.
pub(crate) const LAST_LINE: Argument = Argument::Flag(
    "last-line",
    "Load the last line also without its newline",
);

/// The benchmarks that run.
pub(crate) const BENCHMARKS: Argument = Argument::Valued(Valued {
    name: "benchmarks",
    value: "LIST",
    default: Some("fillbatch,fillrandom,overwrite,readrandom,readwhilewriting,readseq,compact"),
    range: None,
    help: "Which benchmarks run, joined by commas",
});

/// The number of pairs that are measured.
pub(crate) const NUM: Argument = Argument::Valued(Valued {
    name: "num",
    value: "N",
    default: Some("1000000"),
    range: Some((1, 10_000_000)),
    help: "How many pairs, 1 to 10000000",
});

/// The size of each value that is measured.
pub(crate) const VALUE_SIZE: Argument = Argument::Valued(Valued {
    name: "value-size",
    value: "N",
    default: Some("100"),
    range: Some((0, 65_536)),
    help: "How many bytes a value has, 65536 at most",
});

/// The number of threads that compact beside benchmarks, which may be 0.
pub(crate) const SOME_WORKERS: Argument = Argument::Valued(Valued {
    name: "workers",
    value: "N",
    default: Some("2"),
    range: Some((0, 8)),
    help: "How many threads compact beside, 0 to 8",
});
