//! From what `clap` finds in words to what they ask for.

ghost use Rattle.std.specs.Prelude.{◌≡◌, IfNone, IfOk, IfSome, IsFalse, IsTrue, List, None};
ghost use Rattle.std.specs.Prelude.{Option, Some, codes, option_map, ℕ};
ghost use Rattle.clap.specs.Words.{subcommand_rows_of};
ghost use Rattle.lsm_grammar.specs.Requests.{AreBenchOptions, AreBounds, AreIngestOptions};
ghost use Rattle.lsm_grammar.specs.Requests.{AreLoadOptions, AreNamed, CanWait};
ghost use Rattle.lsm_grammar.specs.Requests.{AreScanOptions, AreThreads, AreWorkers};
ghost use Rattle.lsm_grammar.specs.Requests.{IsAsked, IsBound, IsInput};
ghost use Rattle.lsm_grammar.specs.Requests.{IsKeyWrite, IsLimit, IsLook, IsMannerIn};
ghost use Rattle.lsm_grammar.specs.Requests.{IsNumberIn, IsRange, IsSpelled, IsWithin, IsWorkersWord};
ghost use Rattle.lsm_grammar.specs.Requests.{IsWrite, Reads, form_in};
ghost use Rattle.lsm_grammar.specs.Requests.{get_output_in, is_set, json_in, levels_output_in};
ghost use Rattle.lsm_grammar.specs.Requests.{name_of_conversion, name_of_look, name_of_value};
ghost use Rattle.lsm_grammar.specs.Requests.{name_of_write, quick_in, rows_in, sees_more};
ghost use Rattle.lsm_grammar.specs.Requests.{reads_only_in, scan_output_in, topic_in, topic_of};
ghost use Rattle.lsm_grammar.specs.Requests.{word_in, writes_beside};

use crate::bench_line::BenchLine;
use crate::benchmarks::benchmarks_in;
use crate::command_name::{CommandName, named};
use crate::manner::Manner;
use crate::request::Request;
use crate::shell_line::ShellLine;
use crate::writing_command::WritingCommand;
use crate::writing_line::WritingLine;
use clap::ArgMatches;
use lsm_batch::Write;
use lsm_codec::Bytes;
use lsm_requests::{
    BenchOptions, Benchmark, CleanOptions, CompactLine, CompactOptions, CompactRange, Conversion,
    DirectoryCommand, DirectoryLine, GetOutput, ImportLine, IngestOptions, Input, KeyBounds,
    LevelsLine, LevelsOutput, LoadLine, LoadOptions, RecoverLine, ScanOptions, ScanOutput,
};
use lsm_text::{Form, number_in};
use std::alloc::{AllocError, Global};

/// The word that stands under a name.
pub(crate) fn word_in<'a>(found: &ArgMatches<'a>, name: &str) -> Option<&'a str>
    ensures { option_map (λ w. w.now) result ≡ word_in name.now (rows_in found.now) }
{
    found.get_str(name)
}

/// Whether an option without a value is there.
pub(crate) fn is_set(found: &ArgMatches<'_>, name: &str) -> bool
    ensures { result ≡ is_set name.now (rows_in found.now) }
{
    match word_in(found, name) {
        Some(word) => word == "true",
        None => false,
    }
}

/// The form of keys and values.
pub(crate) fn form_in(found: &ArgMatches<'_>) -> Form
    ensures { result ≡ form_in (rows_in found.now) }
{
    if is_set(found, "text") {
        return Form::Text;
    }
    Form::Hex
}

/// Where the input FILE is found.
fn input_in<'a>(found: &ArgMatches<'a>) -> Option<Input<'a>>
    ensures some { IfSome result (IsInput (word_in (codes "FILE") (rows_in found.now))) }
    ensures none { IfNone result (word_in (codes "FILE") (rows_in found.now) ≡ None) }
{
    let word = word_in(found, "FILE")?;
    if word == "-" {
        return Some(Input::Standard);
    }
    Some(Input::File(word))
}

/// How a batch is to come in.
fn ingest_options_in(found: &ArgMatches<'_>) -> IngestOptions
    ensures { AreIngestOptions (rows_in found.now) result }
{
    IngestOptions {
        form: form_in(found),
        begins: is_set(found, "begin"),
        beside_log: is_set(found, "beside-log"),
        quick: is_set(found, "quick"),
    }
}

/// What is written of a key's answer.
fn get_output_in(found: &ArgMatches<'_>) -> GetOutput
    ensures { result ≡ get_output_in (rows_in found.now) }
{
    if is_set(found, "exists") {
        return GetOutput::Nothing;
    }
    if is_set(found, "raw") {
        return GetOutput::Raw;
    }
    GetOutput::Line
}

/// What is written of the pairs of a scan.
fn scan_output_in(found: &ArgMatches<'_>) -> ScanOutput
    ensures { result ≡ scan_output_in (rows_in found.now) }
{
    if is_set(found, "count") {
        return ScanOutput::Count;
    }
    if is_set(found, "json") {
        return ScanOutput::Json;
    }
    if is_set(found, "keys") {
        return ScanOutput::Keys;
    }
    ScanOutput::Pairs
}

/// What is shown of levels. `None` where both `--files` and `--svg` are there.
fn levels_output_in(found: &ArgMatches<'_>) -> Option<LevelsOutput>
    ensures { result ≡ levels_output_in (rows_in found.now) }
{
    match (is_set(found, "svg"), is_set(found, "files")) {
        (true, true) => None,
        (true, false) => Some(LevelsOutput::Svg),
        (false, true) => Some(LevelsOutput::Files),
        (false, false) => Some(LevelsOutput::Levels),
    }
}

/// The bytes that the word under a name spells; none where it spells none.
fn bytes_in(alloc: Global, found: &ArgMatches<'_>, name: &str) -> Result<Option<Bytes>, AllocError>
    ensures only { IfOk result (λ o. IfSome o
        (IsSpelled (form_in (rows_in found.now)) (word_in name.now (rows_in found.now)))) }
    ensures none { IfOk result (λ o. IfNone o ((bytes : List ℕ) → IsSpelled
        (form_in (rows_in found.now)) (word_in name.now (rows_in found.now)) bytes → ⊥)) }
{
    match word_in(found, name) {
        Some(word) => form_in(found).read_bytes(alloc, word.as_bytes()),
        None => Ok(None),
    }
}

/// The bound that the word of an option spells: none where there is no option. `None` where the
/// word spells no key.
fn bound_in(
    alloc: Global,
    form: Form,
    word: Option<&str>,
) -> Result<Option<Option<Bytes>>, AllocError>
    ensures only { IfOk result (λ o. IfSome o (IsBound form (option_map (λ w. w.now) word.entry))) }
    ensures found { (key : Option (List ℕ)) → IsBound form (option_map (λ w. w.now) word.entry) key
        → IfOk result (λ o. o ≡ Some key) }
{
    let Some(word) = word else {
        return Ok(Some(None));
    };
    match form.read_bytes(alloc, word.as_bytes())? {
        Some(key) => Ok(Some(Some(key))),
        None => Ok(None),
    }
}

/// The bounds that `--from`, `--to` and `--prefix` spell. `None` where a word spells no key.
fn bounds_in(alloc: Global, found: &ArgMatches<'_>) -> Result<Option<KeyBounds>, AllocError>
    ensures only { IfOk result (λ o. IfSome o (AreBounds (rows_in found.now))) }
    ensures found { (bounds : KeyBounds) → AreBounds (rows_in found.now) bounds
        → IfOk result (λ o. o ≡ Some bounds) }
{
    let form = form_in(found);
    let Some(from) = bound_in(alloc, form, word_in(found, "from"))? else {
        return Ok(None);
    };
    let Some(to) = bound_in(alloc, form, word_in(found, "to"))? else {
        return Ok(None);
    };
    let Some(prefix) = bound_in(alloc, form, word_in(found, "prefix"))? else {
        return Ok(None);
    };
    Ok(Some(KeyBounds { from, to, prefix }))
}

/// The most pairs that the word of an option names: none where there is no option. `None` where the
/// word is no number.
fn limit_of(word: Option<&str>) -> Option<Option<u64>>
    ensures some { IfSome result (IsLimit (option_map (λ w. w.now) word.entry)) }
    ensures none { IfNone result ((n : Option ℕ)
        → IsLimit (option_map (λ w. w.now) word.entry) n → ⊥) }
{
    match word {
        Some(word) => Some(Some(number_in(word.as_bytes(), u64::MAX)?)),
        None => Some(None),
    }
}

/// What a scan is to print. `None` where a word spells no key, or that of `--limit` is no number.
fn scan_options_in(alloc: Global, found: &ArgMatches<'_>) -> Result<Option<ScanOptions>, AllocError>
    ensures only { IfOk result (λ o. IfSome o (AreScanOptions (rows_in found.now))) }
    ensures none { IfOk result (λ o. IfNone o ((options : ScanOptions)
        → AreScanOptions (rows_in found.now) options → ⊥)) }
{
    let Some(bounds) = bounds_in(alloc, found)? else {
        return Ok(None);
    };
    let Some(limit) = limit_of(word_in(found, "limit")) else {
        return Ok(None);
    };
    Ok(Some(ScanOptions {
        bounds,
        limit,
        output: scan_output_in(found),
    }))
}

/// How many workers a word names: one digit, 1 to 8.
fn workers_in(word: &str) -> Option<usize>
    ensures only { IfSome result (IsWorkersWord word.now) }
    ensures found { (n : ℕ) → IsWorkersWord word.now n → result ≡ Some n }
{
    match word.as_bytes() {
        [digit] if matches!(*digit, b'1'..=b'8') => Some(usize::from(*digit - b'0')),
        _ => None,
    }
}

/// How many workers `--workers` names.
fn workers_of(found: &ArgMatches<'_>) -> Option<usize>
    ensures only { IfSome result (AreWorkers (word_in (codes "workers") (rows_in found.now))) }
    ensures found { (n : ℕ) → AreWorkers (word_in (codes "workers") (rows_in found.now)) n
        → result ≡ Some n }
{
    workers_in(word_in(found, "workers")?)
}

/// The number that a word writes, where it is not below `least` and not above `most`.
pub(crate) fn between_in(word: Option<&str>, least: u64, most: u64) -> Option<u64>
    ensures some { IfSome result (IsNumberIn least most (option_map (λ w. w.now) word.entry)) }
    ensures none { IfNone result ((n : ℕ)
        → IsNumberIn least most (option_map (λ w. w.now) word.entry) n → ⊥) }
{
    let number = number_in(word?.as_bytes(), most)?;
    if number < least {
        return None;
    }
    Some(number)
}

/// Whether lines that are loaded are JSON objects. `None` where both `--json` and `--text` are
/// there.
fn json_in(found: &ArgMatches<'_>) -> Option<bool>
    ensures { result ≡ json_in (rows_in found.now) }
{
    let json = is_set(found, "json");
    if json && is_set(found, "text") {
        return None;
    }
    Some(json)
}

/// How lines are to be loaded. `None` where a word names no workers, or no line, or both `--json`
/// and `--text` are there.
fn load_options_in(found: &ArgMatches<'_>) -> Option<LoadOptions>
    ensures some { IfSome result (AreLoadOptions (rows_in found.now)) }
    ensures none { IfNone result ((options : LoadOptions)
        → AreLoadOptions (rows_in found.now) options → ⊥) }
{
    Some(LoadOptions {
        ingest: ingest_options_in(found),
        workers: workers_of(found)?,
        from_line: between_in(word_in(found, "from-line"), 1, u64::MAX)?,
        last_line: is_set(found, "last-line"),
        json: json_in(found)?,
        progress: is_set(found, "progress"),
    })
}

/// The benchmarks that the word under `--benchmarks` names. `None` where it names none.
fn benchmarks_of(alloc: Global, word: Option<&str>) -> Result<Option<Vec<Benchmark>>, AllocError>
    ensures some { IfOk result (λ o. IfSome o
        (λ found. AreNamed (option_map (λ w. w.now) word.entry) found.items)) }
    ensures none { IfOk result (λ o. IfNone o ((found : List Benchmark)
        → AreNamed (option_map (λ w. w.now) word.entry) found → ⊥)) }
{
    match word {
        Some(word) => benchmarks_in(alloc, word),
        None => Ok(None),
    }
}

/// What is to be measured with these benchmarks. `None` where a word writes no number of those that
/// it may.
fn bench_options_of(found: &ArgMatches<'_>, benchmarks: Vec<Benchmark>) -> Option<BenchOptions>
    ensures some { AreNamed (word_in (codes "benchmarks") (rows_in found.now)) benchmarks.items
        → IfSome result (AreBenchOptions (rows_in found.now)) }
    ensures none { IfNone result ((options : BenchOptions)
        → AreBenchOptions (rows_in found.now) options → ⊥) }
{
    let workers = between_in(word_in(found, "workers"), 0, 8)?;
    Some(BenchOptions {
        benchmarks,
        num: between_in(word_in(found, "num"), 1, 10_000_000)?,
        value_size: between_in(word_in(found, "value-size"), 0, 65_536)?,
        workers: workers as usize,
    })
}

/// A command that prints what an input has.
fn convert_in<'a>(conversion: Conversion, found: &ArgMatches<'a>) -> Option<Request<'a>>
    ensures { Reads (name_of_conversion conversion) (rows_in found.now) result }
{
    let input = input_in(found)?;
    Some(Request::Convert(conversion, input))
}

/// A script.
fn script_in<'a>(found: &ArgMatches<'a>) -> Option<Request<'a>>
    ensures { Reads CommandName.Script (rows_in found.now) result }
{
    let input = input_in(found)?;
    Some(Request::Script(input))
}

/// Whether logs or compressed tables are seen too.
fn sees_more(found: &ArgMatches<'_>) -> bool
    ensures { result ≡ sees_more (rows_in found.now) }
{
    is_set(found, "logs") || is_set(found, "inflate")
}

/// Whether a command is quick. `None` where it is to see logs or compressed tables as well.
pub(crate) fn quick_in(found: &ArgMatches<'_>) -> Option<bool>
    ensures { result ≡ quick_in (rows_in found.now) }
{
    let quick = is_set(found, "quick");
    if quick && sees_more(found) {
        return None;
    }
    Some(quick)
}

/// A command on a directory that is only read.
fn look_in<'a>(command: DirectoryCommand, found: &ArgMatches<'a>) -> Option<Request<'a>>
    ensures some { IsLook (rows_in found.now) command
        → Reads (name_of_look command) (rows_in found.now) result }
{
    let path = word_in(found, "DIR")?;
    let quick = quick_in(found)?;
    Some(Request::Look(DirectoryLine {
        path,
        command,
        form: form_in(found),
        strict: is_set(found, "strict"),
        logs: is_set(found, "logs"),
        inflates: is_set(found, "inflate"),
        quick,
        progress: is_set(found, "progress"),
    }))
}

/// How many threads an option names: none where there is no option. `None` where the word names
/// none of 1 to 16.
fn threads_of(word: Option<&str>) -> Option<Option<usize>>
    ensures some { IfSome result (AreThreads (option_map (λ w. w.now) word.entry)) }
    ensures none { IfNone result ((n : Option ℕ)
        → AreThreads (option_map (λ w. w.now) word.entry) n → ⊥) }
{
    match word {
        Some(word) => Some(Some(between_in(Some(word), 1, 16)? as usize)),
        None => Some(None),
    }
}

/// A verification.
fn check_in<'a>(found: &ArgMatches<'a>) -> Option<Request<'a>>
    ensures { Reads CommandName.Check (rows_in found.now) result }
{
    let workers = threads_of(word_in(found, "workers"))?;
    look_in(DirectoryCommand::Check(workers), found)
}

/// The levels of a folder.
fn levels_in<'a>(found: &ArgMatches<'a>) -> Option<Request<'a>>
    ensures { Reads CommandName.Levels (rows_in found.now) result }
{
    let path = word_in(found, "DIR")?;
    let output = levels_output_in(found)?;
    let form = form_in(found);
    let strict = is_set(found, "strict");
    Some(Request::Levels(LevelsLine {
        path,
        form,
        output,
        strict,
    }))
}

/// A read of a key.
fn get_in<'a>(alloc: Global, found: &ArgMatches<'a>) -> Result<Option<Request<'a>>, AllocError>
    ensures { IfOk result (Reads CommandName.Get (rows_in found.now)) }
{
    match bytes_in(alloc, found, "KEY")? {
        Some(key) => {
            let command = DirectoryCommand::Get(key, get_output_in(found));
            Ok(look_in(command, found))
        }
        None => Ok(None),
    }
}

/// A scan.
fn scan_in<'a>(alloc: Global, found: &ArgMatches<'a>) -> Result<Option<Request<'a>>, AllocError>
    ensures { IfOk result (Reads CommandName.Scan (rows_in found.now)) }
{
    match scan_options_in(alloc, found)? {
        Some(options) => Ok(look_in(DirectoryCommand::Scan(options), found)),
        None => Ok(None),
    }
}

/// A command that writes a directory.
fn write_in<'a>(command: WritingCommand<'a>, found: &ArgMatches<'a>) -> Option<Request<'a>>
    ensures { IsWrite (rows_in found.now) command.entry
        → Reads (name_of_write command.entry) (rows_in found.now) result }
{
    let path = word_in(found, "DIR")?;
    Some(Request::Write(WritingLine { path, command }))
}

/// An ingest.
fn ingest_in<'a>(found: &ArgMatches<'a>) -> Option<Request<'a>>
    ensures { Reads CommandName.Ingest (rows_in found.now) result }
{
    let input = input_in(found)?;
    let options = ingest_options_in(found);
    write_in(WritingCommand::Ingest(input, options), found)
}

/// A write of a key.
fn write_key_in<'a>(write: Write, found: &ArgMatches<'a>) -> Option<Request<'a>>
    ensures { IsKeyWrite (rows_in found.now) write
        → Reads (name_of_value write.value) (rows_in found.now) result }
{
    let options = ingest_options_in(found);
    write_in(WritingCommand::WriteKey(write, options), found)
}

/// A key that gets a value.
fn put_in<'a>(alloc: Global, found: &ArgMatches<'a>) -> Result<Option<Request<'a>>, AllocError>
    ensures { IfOk result (Reads CommandName.Put (rows_in found.now)) }
{
    let Some(key) = bytes_in(alloc, found, "KEY")? else {
        return Ok(None);
    };
    let Some(value) = bytes_in(alloc, found, "VALUE")? else {
        return Ok(None);
    };
    let value = Some(value);
    Ok(write_key_in(Write { key, value }, found))
}

/// A key that is deleted.
fn delete_in<'a>(alloc: Global, found: &ArgMatches<'a>) -> Result<Option<Request<'a>>, AllocError>
    ensures { IfOk result (Reads CommandName.Delete (rows_in found.now)) }
{
    match bytes_in(alloc, found, "KEY")? {
        Some(key) => Ok(write_key_in(Write { key, value: None }, found)),
        None => Ok(None),
    }
}

/// A cleaning.
fn clean_in<'a>(found: &ArgMatches<'a>) -> Option<Request<'a>>
    ensures { Reads CommandName.Clean (rows_in found.now) result }
{
    let options = CleanOptions {
        accepts_rest: is_set(found, "accept-rest"),
    };
    write_in(WritingCommand::Clean(options), found)
}

/// A load.
fn load_in<'a>(found: &ArgMatches<'a>) -> Option<Request<'a>>
    ensures { Reads CommandName.Load (rows_in found.now) result }
{
    let path = word_in(found, "DIR")?;
    let input = input_in(found)?;
    let options = load_options_in(found)?;
    Some(Request::Load(LoadLine {
        path,
        input,
        options,
    }))
}

/// A copy.
fn import_in<'a>(found: &ArgMatches<'a>) -> Option<Request<'a>>
    ensures { Reads CommandName.Import (rows_in found.now) result }
{
    let source = word_in(found, "SRC")?;
    let target = word_in(found, "DST")?;
    let to_first_fault = is_set(found, "to-first-fault");
    Some(Request::Import(ImportLine {
        source,
        target,
        to_first_fault,
    }))
}

/// Logs that come into their folder's database.
fn recover_in<'a>(found: &ArgMatches<'a>) -> Option<Request<'a>>
    ensures { Reads CommandName.Recover (rows_in found.now) result }
{
    let path = word_in(found, "DIR")?;
    Some(Request::Recover(RecoverLine {
        path,
        to_first_fault: is_set(found, "to-first-fault"),
    }))
}

/// A folder that gets a new manifest.
fn repair_in<'a>(found: &ArgMatches<'a>) -> Option<Request<'a>>
    ensures { Reads CommandName.Repair (rows_in found.now) result }
{
    let path = word_in(found, "DIR")?;
    Some(Request::Repair(path))
}

/// The bounds of a range that is compacted. `None` where a word spells no key.
fn range_of(
    alloc: Global,
    form: Form,
    from: Option<&str>,
    to: Option<&str>,
) -> Result<Option<CompactRange>, AllocError>
    ensures only { IfOk result (λ o. IfSome o
        (IsWithin form (option_map (λ w. w.now) from.entry) (option_map (λ w. w.now) to.entry))) }
    ensures found { (range : CompactRange)
        → IsWithin form (option_map (λ w. w.now) from.entry) (option_map (λ w. w.now) to.entry) range
        → IfOk result (λ o. o ≡ Some range) }
{
    let Some(from) = bound_in(alloc, form, from)? else {
        return Ok(None);
    };
    let Some(to) = bound_in(alloc, form, to)? else {
        return Ok(None);
    };
    Ok(Some(CompactRange { from, to }))
}

/// The range that is compacted, if `--all` or a bound asks for one. `None` where a word spells no
/// key.
fn range_in(
    alloc: Global,
    found: &ArgMatches<'_>,
) -> Result<Option<Option<CompactRange>>, AllocError>
    ensures only { IfOk result (λ o. IfSome o (IsRange (rows_in found.now))) }
    ensures found { (range : Option CompactRange) → IsRange (rows_in found.now) range
        → IfOk result (λ o. o ≡ Some range) }
{
    let from = word_in(found, "from");
    let to = word_in(found, "to");
    if !is_set(found, "all") && from.is_none() && to.is_none() {
        return Ok(Some(None));
    }
    match range_of(alloc, form_in(found), from, to)? {
        Some(range) => Ok(Some(Some(range))),
        None => Ok(None),
    }
}

/// A compaction.
fn compact_in<'a>(alloc: Global, found: &ArgMatches<'a>) -> Result<Option<Request<'a>>, AllocError>
    ensures { IfOk result (Reads CommandName.Compact (rows_in found.now)) }
{
    let Some(path) = word_in(found, "DIR") else {
        return Ok(None);
    };
    let Some(workers) = workers_of(found) else {
        return Ok(None);
    };
    let Some(range) = range_in(alloc, found)? else {
        return Ok(None);
    };
    let options = CompactOptions {
        workers,
        accepts_rest: is_set(found, "accept-rest"),
        progress: is_set(found, "progress"),
        range,
    };
    Ok(Some(Request::Compact(CompactLine { path, options })))
}

/// Whether a shell is to begin, to write beside a log, to bring logs in, or to compact.
fn writes_beside(found: &ArgMatches<'_>) -> bool
    ensures { result ≡ writes_beside (rows_in found.now) }
{
    is_set(found, "begin")
        || is_set(found, "beside-log")
        || is_set(found, "recover")
        || word_in(found, "workers").is_some()
}

/// Whether a shell only reads. `None` where it is to write as well.
pub(crate) fn reads_only_in(found: &ArgMatches<'_>) -> Option<bool>
    ensures { result ≡ reads_only_in (rows_in found.now) }
{
    let reads_only = is_set(found, "read-only");
    if reads_only && writes_beside(found) {
        return None;
    }
    Some(reads_only)
}

/// Commands on a folder, from standard input.
fn shell_in<'a>(found: &ArgMatches<'a>) -> Option<Request<'a>>
    ensures { Reads CommandName.Shell (rows_in found.now) result }
{
    let path = word_in(found, "DIR")?;
    let options = ingest_options_in(found);
    let workers = threads_of(word_in(found, "workers"))?;
    let reads_only = reads_only_in(found)?;
    Some(Request::Shell(ShellLine {
        path,
        options,
        workers,
        bails: is_set(found, "bail"),
        reads_only,
    }))
}

/// Measurements of a folder.
fn bench_in<'a>(alloc: Global, found: &ArgMatches<'a>) -> Result<Option<Request<'a>>, AllocError>
    ensures { IfOk result (Reads CommandName.Bench (rows_in found.now)) }
{
    let Some(path) = word_in(found, "DIR") else {
        return Ok(None);
    };
    let Some(benchmarks) = benchmarks_of(alloc, word_in(found, "benchmarks"))? else {
        return Ok(None);
    };
    match bench_options_of(found, benchmarks) {
        Some(options) => Ok(Some(Request::Bench(BenchLine { path, options }))),
        None => Ok(None),
    }
}

/// What the command of this name is asked for.
fn request_in<'a>(
    alloc: Global,
    name: CommandName,
    found: &ArgMatches<'a>,
) -> Result<Option<Request<'a>>, AllocError>
    ensures { IfOk result (Reads name (rows_in found.now)) }
{
    match name {
        CommandName::MakeTable => Ok(convert_in(Conversion::MakeTable, found)),
        CommandName::Dump => Ok(convert_in(Conversion::Dump, found)),
        CommandName::Manifest => Ok(convert_in(Conversion::Manifest, found)),
        CommandName::Script => Ok(script_in(found)),
        CommandName::Check => Ok(check_in(found)),
        CommandName::List => Ok(look_in(DirectoryCommand::List, found)),
        CommandName::Levels => Ok(levels_in(found)),
        CommandName::Get => get_in(alloc, found),
        CommandName::Scan => scan_in(alloc, found),
        CommandName::Ingest => Ok(ingest_in(found)),
        CommandName::Put => put_in(alloc, found),
        CommandName::Delete => delete_in(alloc, found),
        CommandName::Load => Ok(load_in(found)),
        CommandName::Import => Ok(import_in(found)),
        CommandName::Recover => Ok(recover_in(found)),
        CommandName::Repair => Ok(repair_in(found)),
        CommandName::Compact => compact_in(alloc, found),
        CommandName::Clean => Ok(clean_in(found)),
        CommandName::Shell => Ok(shell_in(found)),
        CommandName::Bench => bench_in(alloc, found),
        CommandName::Help => Ok(None),
    }
}

/// Whether the word of `--wait`, where there is one, writes a number of seconds.
fn can_wait(found: &ArgMatches<'_>) -> bool
    ensures yes { IsTrue result → CanWait (word_in (codes "wait") (rows_in found.now)) }
    ensures no { IsFalse result → CanWait (word_in (codes "wait") (rows_in found.now)) → ⊥ }
{
    match word_in(found, "wait") {
        Some(word) => between_in(Some(word), 1, 3600).is_some(),
        None => true,
    }
}

/// What is asked for by the command that was found, and by the words under its names; none where it
/// is `help`, or one of these spells no bytes or writes no number.
pub(crate) fn asked_in<'a>(
    alloc: Global,
    matches: &ArgMatches<'a>,
) -> Result<Option<Request<'a>>, AllocError>
    ensures some { IfOk result (λ o. IfSome o (IsAsked (subcommand_rows_of matches.now))) }
    ensures none { IfOk result (λ o.
        IfNone o ((r : Request) → IsAsked (subcommand_rows_of matches.now) r → ⊥)) }
{
    let Some((name, found)) = matches.subcommand() else {
        return Ok(None);
    };
    if !can_wait(found) {
        return Ok(None);
    }
    match named(name) {
        Some(name) => request_in(alloc, name, found),
        None => Ok(None),
    }
}

/// How the command that was found is done.
pub(crate) fn manner_in(matches: &ArgMatches<'_>) -> Manner
    ensures { IsMannerIn (subcommand_rows_of matches.now) result }
{
    match matches.subcommand() {
        Some((_, found)) => Manner {
            recovers: is_set(found, "recover"),
            compares: is_set(found, "compare"),
            strict: is_set(found, "strict"),
            waits: between_in(word_in(found, "wait"), 1, 3600),
        },
        None => Manner {
            recovers: false,
            compares: false,
            strict: false,
            waits: None,
        },
    }
}

/// Of which command `help` is asked: none where no command is named. `None` where the word behind
/// it names no command.
fn topic_of(found: &ArgMatches<'_>) -> Option<Option<CommandName>>
    ensures { result ≡ topic_of (word_in (codes "COMMAND") (rows_in found.now)) }
{
    let Some(word) = word_in(found, "COMMAND") else {
        return Some(None);
    };
    Some(Some(named(word)?))
}

/// Of what `help` is asked; `None` where it is not asked for by its name, or of no command.
pub(crate) fn topic_in(matches: &ArgMatches<'_>) -> Option<Option<CommandName>>
    ensures { result ≡ topic_in (subcommand_rows_of matches.now) }
{
    let (name, found) = matches.subcommand()?;
    if name == "help" {
        return topic_of(found);
    }
    None
}
