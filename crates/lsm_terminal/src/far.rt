//! How far a command is, in one line of a terminal.

ghost use Rattle.std.specs.Prelude.{◌≡◌, IsFalse, None};
ghost use Rattle.std.specs.Io.KnownBytes.{Keeps};

use std::alloc::{AllocError, Global};
use std::io::{self, IsTerminal, Write};
use std::{env, fs};

/// To the beginning of the terminal's line, and nothing behind it any more.
const CLEAR: &[u8] = b"\r\x1b[K";

/// What is wider than the terminal stays in its line (DECAWM is off), and no more so (it is on).
const KEEP_IN_LINE: &[u8] = b"\x1b[?7l";

const WRAP_AGAIN: &[u8] = b"\x1b[?7h";

/// How the lines begin that say how far a command is.
const BEGINNINGS: [&[u8]; 7] = [
    b"checked ",
    b"installed ",
    b"lines 1 to ",
    b"opened ",
    b"removed ",
    b"scanned ",
    b"worker ",
];

/// How many marks the bar has.
const MARKS: u64 = 20;

/// Whether what is open as standard output is a regular file.
fn goes_into_file(files: &HostRuntime) -> bool {
    match fs::metadata(files, "/proc/self/fd/1") {
        Ok(found) => found.is_file(),
        Err(_) => false,
    }
}

/// Whether the terminal is said to know no more than characters and ends of lines.
fn is_dumb(host: &HostRuntime) -> bool {
    match env::var(host, "TERM") {
        Ok(name) => name.as_str() == "dumb",
        Err(_) => false,
    }
}

/// Whether a command that these words name is to show on standard error how far it is, though they
/// do not ask for it: one that may take long, at a terminal that is not dumb, and on which nothing
/// else is written while it runs.
pub fn shows_how_far(host: &HostRuntime, words: &[String]) -> bool {
    let [name, rest @ ..] = words else {
        return false;
    };
    let may_take_long = match name.as_str() {
        "check" | "compact" | "load" => true,
        "scan" => goes_into_file(host),
        _ => false,
    };
    may_take_long
        && !rest
            .iter()
            .any(|word| word.as_str().starts_with("--progress"))
        && host.stderr().is_terminal()
        && !is_dumb(host)
}

/// The words, and `--progress` behind the first one if it is to be asked for.
pub fn asking<'a>(
    alloc: Global,
    words: &'a [String],
    asks: bool,
) -> Result<Vec<&'a str>, AllocError> {
    let mut all = Vec::new(alloc);
    for word in words {
        all.push(word.as_str())?;
        if asks && all.len() == 1 {
            all.push("--progress")?;
        }
    }
    Ok(all)
}

/// How many marks of the bar are set by a line such as `checked 3 of 17 files`; none where the line
/// does not say of how many it is.
fn marks_of(line: &[u8]) -> Option<u64> {
    let mut words = str::from_utf8(line).ok()?.split(' ');
    let _verb = words.next()?;
    let done: u64 = words.next()?.parse().ok()?;
    if words.next()? != "of" {
        return None;
    }
    let all: u64 = words.next()?.parse().ok()?;
    MARKS.checked_mul(done)?.checked_div(all)
}

/// Standard error. Where it shows how far a command is, each line that says so takes the place of
/// the one before it, however narrow the terminal, and the last one is gone at the end; all other
/// lines stay. Contracts see what it holds where it shows nothing: just what is written.
#[derive(Drop)]
pub struct OneLine<E: Write + Drop> {
    out: E,
    shows: bool,
    /// What was written of a line that has not ended.
    line: Vec<u8>,
    /// What shows a line that has ended.
    shown: Vec<u8>,
    /// Whether the terminal's line says how far it is.
    is_shown: bool,
}

impl<E: Write + Drop> OneLine<E> {
    /// One that writes there.
    pub fn new(alloc: Global, out: E, shows: bool) -> OneLine<E>
        ensures out { result.out ≡ out }
        ensures shows { result.shows ≡ shows }
    {
        OneLine {
            out,
            shows,
            line: Vec::new(alloc),
            shown: Vec::new(alloc),
            is_shown: false,
        }
    }

    /// Appends a bar to what is shown, if the line says of how many it is.
    fn push_bar(&mut self) -> Result<(), AllocError> {
        let Some(set) = marks_of(self.line.as_slice()) else {
            return Ok(());
        };
        self.shown.extend_from_slice(b"  [")?;
        for mark in 0..MARKS {
            self.shown.push(if mark < set { b'#' } else { b'.' })?;
        }
        self.shown.push(b']')?;
        Ok(())
    }

    /// Shows the line in the place of the one before it. That the terminal wraps again is in the
    /// same write, so that it does so however the program ends.
    fn show_line(&mut self) -> io::Result<()> {
        self.shown.clear();
        self.shown.extend_from_slice(CLEAR)?;
        self.shown.extend_from_slice(KEEP_IN_LINE)?;
        self.shown.extend_from_slice(self.line.as_slice())?;
        self.push_bar()?;
        self.shown.extend_from_slice(WRAP_AGAIN)?;
        self.out.write_all(self.shown.as_slice())
    }

    /// Writes a line that stays.
    fn keep_line(&mut self) -> io::Result<()> {
        self.out.write_all(CLEAR)?;
        self.line.push(b'\n')?;
        self.out.write_all(self.line.as_slice())
    }

    /// Writes the line that has ended.
    fn end_line(&mut self) -> io::Result<()> {
        let line = self.line.as_slice();
        self.is_shown = BEGINNINGS
            .iter()
            .any(|beginning| line.starts_with(beginning));
        if self.is_shown {
            self.show_line()?;
        } else {
            self.keep_line()?;
        }
        self.line.clear();
        Ok(())
    }

    /// Takes bytes of lines.
    fn take(&mut self, bytes: &[u8]) -> io::Result<()> {
        for byte in bytes {
            if *byte == b'\n' {
                self.end_line()?;
            } else {
                self.line.push(*byte)?;
            }
        }
        Ok(())
    }

    /// Ends the terminal's line: nothing of it is left where all was done, else it stays.
    pub fn end(&mut self, is_done: bool) -> io::Result<()> {
        if self.is_shown {
            self.out.write_all(if is_done { CLEAR } else { b"\n" })?;
            self.is_shown = false;
        }
        self.out.write_all(self.line.as_slice())
    }
}

impl<E: Write + Drop> Write for OneLine<E> {
    ghost use Rattle.std.specs.Prelude.{None, cond};

    ghost contents = { λ o. cond o.shows None (E.contents o.out) };

    fn write(&mut self, buf: &[u8]) -> io::Result<usize> {
        if !self.shows {
            return self.out.write(buf);
        }
        self.take(buf)?;
        Ok(buf.len())
    }

    fn flush(&mut self) -> io::Result<()> {
        self.out.flush()
    }
}

/// An output that may be the terminal whose line says how far a command is: before each write the
/// line is cleared there, if it is. It keeps why the last call failed, if it did. Contracts see what
/// the output holds: just what is written.
#[derive(Drop)]
pub struct BesideLine<O: Write + Drop, E: Write + Drop> {
    out: O,
    terminal: Option<E>,
    fault: Option<io::Error>,
}

impl<O: Write + Drop, E: Write + Drop> BesideLine<O, E> {
    /// An output, and the terminal if it is one.
    pub fn new(out: O, terminal: Option<E>) -> BesideLine<O, E>
        ensures out { result.out ≡ out }
        ensures fault { result.fault ≡ None }
    {
        BesideLine {
            out,
            terminal,
            fault: None,
        }
    }

    /// Why the last call failed; none where it was done.
    pub fn fault(&self) -> Option<io::Error>
        ensures { result ≡ self.now.fault }
    {
        self.fault
    }
}

/// Writes why the output of a command could not be written, where the command was refused and that
/// is known: `standard output: REASON`.
pub fn tell_unwritten<E: Write>(
    is_refused: bool,
    fault: Option<io::Error>,
    err: &mut E,
) -> io::Result<()>
    ensures done { IsFalse is_refused → Keeps (E.contents err.old) (E.contents err.new) }
    ensures none { fault ≡ None → Keeps (E.contents err.old) (E.contents err.new) }
{
    match fault {
        Some(error) if is_refused => writeln!(err, "standard output: {error}"),
        _ => Ok(()),
    }
}

impl<O: Write + Drop, E: Write + Drop> Write for BesideLine<O, E> {
    ghost use Rattle.std.specs.Result.{result_err};
    ghost use Rattle.std.specs.Io.{WritesAtMost};
    ghost use Rattle.std.specs.Io.KnownBytes.{WriteAppends};

    ghost contents = { λ b. O.contents b.out };

    fn write(&mut self, buf: &[u8]) -> io::Result<usize>
        ensures bound { WritesAtMost result buf.now }
        ensures bytes { WriteAppends (O.contents self.old.out) (O.contents self.new.out)
            result buf.now }
        ensures fault { self.new.fault ≡ result_err result }
    {
        if let Some(terminal) = &mut self.terminal {
            let _ = terminal.write_all(CLEAR);
        }
        let done = self.out.write(buf);
        self.fault = done.err();
        done
    }

    fn flush(&mut self) -> io::Result<()>
        ensures bytes { Keeps (O.contents self.old.out) (O.contents self.new.out) }
        ensures fault { self.new.fault ≡ result_err result }
    {
        let done = self.out.flush();
        self.fault = done.err();
        done
    }
}
