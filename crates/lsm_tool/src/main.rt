//! The program `lsm`: makes LevelDB's files, and shows what is in them and in a folder of them.
//!
//! Stands on `lsm_commands`, which does what the words ask, and on `lsm_terminal` for what a
//! terminal shows. Here stand the words themselves, standard input and output, and the exit status.
#![tactic(auto)]

use lsm_commands::{refuse_words, run};
use lsm_directory::SystemPaths;
use lsm_folder::{Images, Mute};
use lsm_terminal::{
    BesideLine, OneLine, Prompted, asking, at_terminal, hold_streams, shows_how_far, tell_unwritten,
};
use std::env::{self, Env};
use std::io::{self, BufWriter, IsTerminal};
use std::process::ExitCode;
use std::rt::Clock;
use std::sync::Wait;
use std::thread::Threads;

/// Whether the words ask for a shell.
fn is_shell(words: &[String]) -> bool {
    match words {
        [name, ..] => name.as_str() == "shell",
        [] => false,
    }
}

/// Does what the words of the command line ask, and answers the exit status: with `--compare` in
/// folders whose reads are compared, which are honest whatever the disk is. A shell between
/// terminals writes a prompt on standard error before each read of standard input; a command that
/// may take long shows at a terminal how far it is. Where standard output could not be written, a
/// line says why.
fn start<R: Threads + Wait + Clock + Sync>(rt: &R, host: HostRuntime) -> io::Result<u8> {
    let words: Vec<String> = env::args(&host)?.collect(host.alloc())?;
    let words = words.as_slice().get(1..).unwrap_or(&[]);
    let shows = shows_how_far(&host, words);
    let terminal = if shows && host.stdout().is_terminal() {
        Some(host.stderr())
    } else {
        None
    };
    let out = BesideLine::new(host.stdout(), terminal);
    let mut out = BufWriter::new(host.alloc(), out)?;
    let mut err = OneLine::new(host.alloc(), host.stderr(), shows);
    let asks = if is_shell(words) && at_terminal(&host) {
        Some(host.stderr())
    } else {
        None
    };
    let input = Prompted::new(host.stdin(), asks);
    let words = asking(host.alloc(), words, shows)?;
    let second: Result<HostRuntime, _> = host.clone();
    let compared = SystemPaths::<Images>::new(second?);
    let paths = SystemPaths::<Mute>::new(host);
    let status = run(
        rt,
        &paths,
        &compared,
        words.as_slice(),
        input,
        &mut out,
        &mut err,
    );
    let _ = tell_unwritten(status == 1, out.get_ref().fault(), &mut err);
    let _ = err.end(status == 0);
    Ok(status)
}

fn main(rt: HostRuntime) -> ExitCode {
    hold_streams(&rt);
    let host: Result<HostRuntime, _> = rt.clone();
    let done = match host {
        Ok(host) => start(&rt, host),
        Err(error) => Err(io::Error::from(error)),
    };
    let status = match done {
        Ok(status) => status,
        Err(error) => refuse_words(&error, &mut rt.stderr()),
    };
    ExitCode::from(status)
}
