//! The command line.

ghost use Rattle.std.specs.Prelude.{◌≡◌, ◌≢◌, ◌∷◌, [], IfOk, map};
ghost use Rattle.clap.specs.Words.{kind_of, subcommand_rows_of};
ghost use Rattle.clap.specs.declared.error.ErrorKind.TheVariants.{DisplayHelp, OutOfMemory};
ghost use Rattle.lsm_grammar.specs.Requests.{IsLine, IsOf, IsOfKind, IsPage, IsUnasked};
ghost use Rattle.lsm_grammar.specs.Requests.{faults_in};

use crate::asking::{asked_in, manner_in, topic_in};
use crate::command_name::CommandName;
use crate::grammar::found_in;
use crate::manner::Manner;
use crate::request::Request;
use crate::usage::usage_of;
use crate::usage_fault::fault_in;
use clap::ArgMatches;
use clap::error::ErrorKind;
use std::alloc::{AllocError, Global};
use std::convert::AsStr;
use std::io::{self, Write};

/// What a command line asks for.
#[derive(Debug, Drop)]
pub enum CommandLine<'a> {
    /// One request, and how it is done.
    Run(Request<'a>, Manner),
    /// Help, as text for standard output.
    Help(Vec<u8>),
    /// What is wrong with the command line, as text for standard error.
    Bad(Vec<u8>),
}

fn text_of(alloc: Global, error: &clap::Error) -> Result<Vec<u8>, AllocError> {
    let mut text = Vec::new(alloc);
    match write!(text, "{error}") {
        Ok(()) => Ok(text),
        Err(_) => Err(AllocError),
    }
}

/// Writes what is wrong with words that are of the grammar, and how their command is used.
fn write_wrong<W: Write>(out: &mut W, matches: &ArgMatches<'_>) -> io::Result<()> {
    let fault = fault_in(matches);
    let usage = usage_of(matches.subcommand_name().unwrap_or(""));
    writeln!(
        out,
        "error: {fault}\n\nUsage: {usage}\n\nFor more information, try '--help'."
    )
}

/// What is wrong with words that are of the grammar.
fn wrong(alloc: Global, matches: &ArgMatches<'_>) -> Result<Vec<u8>, AllocError> {
    let mut text = Vec::new(alloc);
    match write_wrong(&mut text, matches) {
        Ok(()) => Ok(text),
        Err(_) => Err(AllocError),
    }
}

/// What is said of words that are not of the grammar, or that ask for help.
fn refused_by<'a>(alloc: Global, error: &clap::Error) -> Result<CommandLine<'a>, AllocError>
    ensures line { IfOk result (IsOfKind (kind_of error.now)) }
    ensures kind { IfOk result (λ _. kind_of error.now ≢ OutOfMemory) }
{
    match error.kind() {
        ErrorKind::OutOfMemory => Err(AllocError),
        ErrorKind::DisplayHelp | ErrorKind::DisplayVersion => {
            Ok(CommandLine::Help(text_of(alloc, error)?))
        }
        _ => Ok(CommandLine::Bad(text_of(alloc, error)?)),
    }
}

/// What is said of words that ask for help.
fn page_of<'a>(alloc: Global, words: &[&str]) -> Result<CommandLine<'a>, AllocError>
    requires { faults_in (map (λ w. w.now) words.now) ≡ DisplayHelp ∷ [] }
    ensures { IfOk result IsPage }
{
    match found_in(alloc, words) {
        Ok(_) => unreachable!(),
        Err(error) => refused_by(alloc, &error),
    }
}

/// The page of a command, or the overview: what `--help` shows behind the command's name, or alone.
fn help_on<'a>(alloc: Global, topic: Option<CommandName>) -> Result<CommandLine<'a>, AllocError>
    ensures { IfOk result IsPage }
{
    match topic {
        Some(name) => page_of(alloc, &[name.word(), "--help"]),
        None => page_of(alloc, &["--help"]),
    }
}

/// What is said of words that are of the grammar, and ask for no request.
fn unasked<'a>(alloc: Global, matches: &ArgMatches<'a>) -> Result<CommandLine<'a>, AllocError>
    ensures { IfOk result (IsUnasked (subcommand_rows_of matches.now)) }
{
    match topic_in(matches) {
        Some(topic) => help_on(alloc, topic),
        None => Ok(CommandLine::Bad(wrong(alloc, matches)?)),
    }
}

/// What is said of words in which something was found.
#[tactic(auto, using(crate::proofs::HelpLines::no_request))]
fn line_of<'a>(alloc: Global, matches: &ArgMatches<'a>) -> Result<CommandLine<'a>, AllocError>
    ensures { IfOk result (IsOf (subcommand_rows_of matches.now)) }
{
    match asked_in(alloc, matches)? {
        Some(request) => Ok(CommandLine::Run(request, manner_in(matches))),
        None => unasked(alloc, matches),
    }
}

/// What the words after the program's name ask for: one request, or help, or nothing. They are read
/// by the program's grammar, which `clap` has: options stand anywhere, a value stands behind its
/// option or behind an `=` in its word, and after `--` no word is an option. `help` asks for what
/// `--help` shows, behind the name of a command for its page.
pub fn read_line<'a, S: AsStr>(alloc: Global, words: &'a [S]) -> Result<CommandLine<'a>, AllocError>
    ensures { IfOk result (IsLine (map S.text words.now)) }
{
    match found_in(alloc, words) {
        Ok(matches) => line_of(alloc, &matches),
        Err(error) => refused_by(alloc, &error),
    }
}
