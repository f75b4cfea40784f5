//! The write-ahead logs beside the tables, which commands but `import` do not read.

ghost use Rattle.std.specs.Prelude.{◌≡◌, ◌≢◌, ◌<◌, ◌++◌, ◌∷◌, [], MatchBool, MatchOption, OnOk};
ghost use Rattle.std.specs.Prelude.{decimal, string_bytes};
ghost use Rattle.lsm_directory.specs.Logs.{AppendsLogs, IsFirstUnread, IsLogName, IsReached};
ghost use Rattle.lsm_directory.specs.Logs.{IsUnread, NoneUnread, line_in, log_line, note_line};

use crate::folder::file_names::number_before;
use crate::folder::folder_file::FolderFile;
use crate::folder::wording::Wording;
use lsm_text::push_decimal;
use std::alloc::AllocError;

/// Whether LevelDB reads the log of this number.
fn is_reached(number: u64, log: u64, prev_log: u64) -> bool
    ensures { MatchBool result (IsReached log prev_log number) ((number < log)
        × (number ≢ prev_log)) }
{
    log <= number || number == prev_log
}

/// The number of a file that is a log, is not empty, and that LevelDB reads when it opens the
/// directory.
fn number_unread(file: &FolderFile, log: u64, prev_log: u64) -> Option<u64>
    ensures { MatchOption result
        (IsUnread log prev_log file.now → ⊥)
        (λ n. IsUnread log prev_log file.now × IsLogName (string_bytes file.now.name) n) }
{
    if file.size == 0 {
        return None;
    }
    match number_before(".log", file.name.as_str()) {
        None => None,
        Some(number) => {
            if is_reached(number, log, prev_log) {
                return Some(number);
            }
            None
        }
    }
}

/// The number of the first log that is not read, in the order of the files: of the first that a
/// check names. The two numbers are those of the manifest (tags 2 and 9 of LevelDB's
/// `db/version_edit.cc`).
pub fn first_unread(files: &[FolderFile], log: u64, prev_log: u64) -> Option<u64>
    ensures { MatchOption result (NoneUnread log prev_log files.now)
        (IsFirstUnread log prev_log files.now) }
{
    for file in files {
        if let Some(number) = number_unread(file, log, prev_log) {
            return Some(number);
        }
    }
    None
}

/// Appends the name of a file and its size, each behind these words.
fn push_file(
    out: &mut Vec<u8>,
    before: &[u8],
    file: &FolderFile,
    between: &[u8],
) -> Result<(), AllocError>
    ensures { OnOk result (out.new.items ≡ out.old.items
        ++ (before.now ++ (string_bytes file.now.name ++ (between.now ++ decimal file.now.size)))) }
{
    out.extend_from_slice(before)?;
    out.extend_from_slice(file.name.as_bytes())?;
    out.extend_from_slice(between)?;
    push_decimal(out, file.size)
}

/// Appends the line of a log.
#[tactic(auto, unfolding(crate::specs::Logs::log_line))]
fn push_log(out: &mut Vec<u8>, file: &FolderFile) -> Result<(), AllocError>
    ensures { OnOk result (out.new.items ≡ out.old.items ++ log_line file.now) }
{
    push_file(out, b"log ", file, b" ")?;
    out.push(b'\n')?;
    Ok(())
}

/// Appends the note of a log.
#[tactic(auto, unfolding(crate::specs::Logs::note_line))]
fn push_note(out: &mut Vec<u8>, file: &FolderFile) -> Result<(), AllocError>
    ensures { OnOk result (out.new.items ≡ out.old.items ++ note_line file.now) }
{
    push_file(out, b"note: ", file, b" is not flushed: its ")?;
    out.extend_from_slice(b" bytes are not read\n")?;
    Ok(())
}

/// Appends a line for a file if it is a log that is not read.
#[tactic(auto, using(crate::proofs::LogLaws::one_log, crate::proofs::LogLaws::no_log))]
fn push_unread(
    out: &mut Vec<u8>,
    wording: Wording,
    file: &FolderFile,
    log: u64,
    prev_log: u64,
) -> Result<(), AllocError>
    ensures { OnOk result
        (AppendsLogs (line_in wording) log prev_log (file.now ∷ []) out.old.items out.new.items) }
{
    if number_unread(file, log, prev_log).is_none() {
        return Ok(());
    }
    match wording {
        Wording::Listed => push_log(out, file),
        Wording::Noted => push_note(out, file),
    }
}

/// Appends a line in these words for each log that is not read, in the order of the files. The two
/// numbers are those of the manifest.
#[tactic(auto, using(crate::proofs::LogLaws::logs_all))]
pub fn push_logs(
    out: &mut Vec<u8>,
    wording: Wording,
    files: &[FolderFile],
    log: u64,
    prev_log: u64,
) -> Result<(), AllocError>
    ensures { OnOk result
        (AppendsLogs (line_in wording) log prev_log files.now out.old.items out.new.items) }
{
    for file in files {
        push_unread(out, wording, file, log, prev_log)?;
    }
    Ok(())
}
