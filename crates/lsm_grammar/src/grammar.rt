//! The grammar of command lines: the commands as `clap` knows them, made of their pages.
//!
//! Each maker hands on what was made, or that memory ran out, so that no more than one call drops a
//! command.

ghost use Rattle.std.specs.Prelude.{◌≡◌, ◌≢◌, [], IfErr, IfOk, false, map};
ghost use Rattle.clap.specs.Words.{App, IsAmong, kind_of, new_app, rule_of};
ghost use Rattle.clap.specs.Words.{subcommand_rows_of, with_subcommand};
ghost use Rattle.clap.specs.declared.error.ErrorKind.TheVariants.{OutOfMemory};
ghost use Rattle.lsm_grammar.specs.Grammar.{IsShaped, bare, file, flag, lsm, topic, with_rules, word};
ghost use Rattle.lsm_grammar.specs.Pages.{HasShape, app_of_page, rule_of_argument};
ghost use Rattle.lsm_grammar.specs.Pages.{rule_of_option, with_pages};
ghost use Rattle.lsm_grammar.specs.Requests.{faults_in, found_in};

use crate::arguments::{Argument, Valued};
use crate::overview::{OVERVIEW, VERSION};
use crate::pages::{COMMANDS, Page};
use crate::usage::usage_of;
use clap::builder::ValueParser;
use clap::{Arg, ArgAction, ArgMatches, Command, Error};
use std::alloc::{AllocError, Global};
use std::convert::AsStr;

/// A command in the making, or that memory ran out.
type Made<'a> = Result<Command<'a>, AllocError>;

/// A word that has to be there.
fn word<'a>(alloc: Global, name: &'a str, help: &'a str) -> Arg<'a>
    ensures rule { rule_of result ≡ word name.entry.now }
    ensures local { result.global ≡ false }
{
    Arg::new(alloc, name).required(true).help(help)
}

/// The file that is read.
fn file<'a>(alloc: Global) -> Arg<'a>
    ensures rule { rule_of result ≡ file }
    ensures local { result.global ≡ false }
{
    Arg::new(alloc, "FILE")
        .default_value("-")
        .help("The file that is read; `-` is standard input")
}

/// The command of which help is asked.
fn topic<'a>(alloc: Global) -> Arg<'a>
    ensures rule { rule_of result ≡ topic }
    ensures local { result.global ≡ false }
{
    Arg::new(alloc, "COMMAND").help("The command whose page is printed")
}

/// An option without a word behind it.
fn flag<'a>(alloc: Global, name: &'a str, help: &'a str) -> Arg<'a>
    ensures rule { rule_of result ≡ flag name.entry.now }
    ensures local { result.global ≡ false }
{
    Arg::new(alloc, name)
        .long(name)
        .action(ArgAction::SetTrue)
        .help(help)
}

/// An option with a word behind it.
fn valued<'a>(alloc: Global, option: Valued) -> Arg<'a>
    ensures rule { rule_of result ≡ rule_of_option option }
    ensures local { result.global ≡ false }
{
    let arg = Arg::new(alloc, option.name)
        .long(option.name)
        .value_name(option.value)
        .help(option.help);
    let arg = match option.default {
        Some(word) => arg.default_value(word),
        None => arg,
    };
    match option.range {
        Some((least, most)) => arg.value_parser(ValueParser::Unsigned(least, most)),
        None => arg,
    }
}

/// An argument as `clap` knows it.
fn argument<'a>(alloc: Global, argument: Argument) -> Arg<'a>
    ensures rule { rule_of result ≡ rule_of_argument argument }
    ensures local { result.global ≡ false }
{
    match argument {
        Argument::Word(name, help) => word(alloc, name, help),
        Argument::File => file(alloc),
        Argument::Topic => topic(alloc),
        Argument::Flag(name, help) => flag(alloc, name, help),
        Argument::Valued(option) => valued(alloc, option),
    }
}

/// The command with these arguments too, one after another.
fn with_arguments<'a>(alloc: Global, command: Command<'a>, arguments: &[Argument]) -> Made<'a>
    ensures { (app : App) → HasShape command.entry app
        → IsShaped result (with_rules app (map rule_of_argument arguments.now)) }
{
    match arguments {
        [] => Ok(command),
        [first, rest @ ..] => {
            let command = command.arg(argument(alloc, *first))?;
            with_arguments(alloc, command, rest)
        }
    }
}

/// A command with the texts of its help.
fn titled<'a>(alloc: Global, page: &Page) -> Command<'a>
    ensures { HasShape result (new_app page.now.name.now) }
{
    Command::new(alloc, page.name)
        .override_usage(usage_of(page.name))
        .about(page.about)
        .long_about(page.text)
        .after_help(page.example)
}

/// The command of a page.
fn command<'a>(alloc: Global, page: &Page) -> Made<'a>
    ensures { IsShaped result (app_of_page page.now) }
{
    with_arguments(alloc, titled(alloc, page), page.arguments)
}

/// One command more.
fn with<'a>(lsm: Command<'a>, more: Made<'a>) -> Made<'a>
    ensures { (before added : App) → HasShape lsm.entry before → IsShaped more.entry added
        → IsShaped result (with_subcommand before added.top) }
{
    lsm.subcommand(more?)
}

/// The program with the commands of these pages too, one after another.
fn with_commands<'a>(alloc: Global, lsm: Command<'a>, pages: &[Page]) -> Made<'a>
    ensures { (app : App) → HasShape lsm.entry app → IsShaped result (with_pages app pages.now) }
{
    match pages {
        [] => Ok(lsm),
        [first, rest @ ..] => {
            let lsm = with(lsm, command(alloc, first))?;
            with_commands(alloc, lsm, rest)
        }
    }
}

/// The program without its commands.
fn bare<'a>(alloc: Global) -> Made<'a>
    ensures { IsShaped result bare }
{
    Command::new(alloc, "lsm")
        .about("Makes and reads LevelDB's files, and reads and writes its folders")
        .after_help(OVERVIEW)
        .version(VERSION)
        .no_binary_name(true)
        .subcommand_required(true)
        .disable_help_subcommand(true)
        .bin_name("lsm")
}

/// The program with all commands, made of the program without them.
fn with_all<'a>(alloc: Global, program: Command<'a>) -> Made<'a>
    ensures { HasShape program.entry bare → IsShaped result lsm }
{
    with_commands(alloc, program, &COMMANDS)
}

/// The program with all commands.
fn lsm<'a>(alloc: Global) -> Made<'a>
    ensures { IsShaped result lsm }
{
    with_all(alloc, bare(alloc)?)
}

/// What `clap` finds in words, or what is wrong with them.
pub(crate) fn found_in<'a, S: AsStr>(alloc: Global, words: &'a [S]) -> Result<ArgMatches<'a>, Error>
    ensures good { IfOk result (λ _. faults_in (map S.text words.now) ≡ []) }
    ensures found { IfOk result (λ m. subcommand_rows_of m ≡ found_in (map S.text words.now)) }
    ensures bad { IfErr result (λ e. kind_of e ≢ OutOfMemory
        → IsAmong (kind_of e) (faults_in (map S.text words.now))) }
{
    lsm(alloc)?.try_get_matches_from(words)
}
