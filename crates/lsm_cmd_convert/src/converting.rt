//! What the commands answer.

pub(crate) mod program;

ghost use Rattle.std.specs.Prelude.{◌≡◌, ◌≢◌, [], IfOk, IfErr, IfSome, OnErr, OnOk, List, ℕ};
ghost use Rattle.std.specs.Io.KnownBytes.{Appends, Keeps};
ghost use Rattle.lsm_table.specs.HeldTable.{Steps};
ghost use Rattle.std.specs.Option.{option_map};
ghost use Rattle.lsm_text.specs.EntryPrinting.{entry_list};
ghost use Rattle.lsm_cmd_convert.specs.Converted.{Answers, BeginsAnswer, Explains};
ghost use Rattle.lsm_text.specs.Printing.{Begins, Passes, Stops};
ghost use Rattle.lsm_requests.specs.declared.conversion.Conversion.TheVariants.{MakeTable, Dump};
ghost use Rattle.lsm_requests.specs.declared.conversion.Conversion.TheVariants.{Manifest};
ghost use Rattle.lsm_text.specs.declared.fault.Fault.TheVariants.{Write as WriteFault};
ghost use Rattle.lsm_text.specs.declared.fault.Fault.TheVariants.{Read as ReadFault};
ghost use Rattle.lsm_text.specs.declared.fault.Fault.TheVariants.{OutOfMemory};

use lsm_manifest::{Edit, read_log};
use lsm_requests::Conversion;
use lsm_table::{Table, TableBuilder, TableIter, TableOptions};
use lsm_text::{
    EntryReader, Fault, Printer, print_entry, push_edit, push_number, read_input, write_output,
};
use std::alloc::Global;
use std::io::{Read, Write};

/// The table of a list of entries.
fn make_table(alloc: Global, list: &[u8]) -> Result<Vec<u8>, Fault>
    ensures made { IfOk result (λ table. Answers MakeTable list.now table.items) }
    ensures explained { IfErr result (λ e. Explains MakeTable list.now e) }
    ensures own { IfErr result (λ e. (e ≢ ReadFault) × (e ≢ WriteFault)) }
{
    let mut reader = EntryReader::new(alloc, list);
    let mut builder = TableBuilder::new(alloc, TableOptions::usual());
    'lines: while reader.next()? {
        let entry = &reader.entry;
        builder.add(&entry.user, entry.seq, entry.kind, &entry.value)?;
    }
    Ok(builder.finish()?)
}

/// The next value of a table that was gone through before. The room for its keys is there, so no
/// memory is wanted; as no clause says that, a want of it is told as one of the writer.
fn next_again<'t>(entries: &mut TableIter<'t>) -> Result<Option<&'t [u8]>, Fault>
    ensures given { IfOk result (λ r. Steps entries.old entries.new (option_map (λ v. v.now) r)) }
    ensures fault { IfErr result (λ e. e ≡ WriteFault) }
{
    match entries.next() {
        Ok(next) => Ok(next),
        Err(_) => Err(Fault::Write),
    }
}

/// Goes through all entries that are left, so that the room for the longest key is there. The one
/// fault is want of memory.
fn pass_all(entries: &mut TableIter<'_>) -> Result<(), Fault>
    ensures { IfErr result (λ e. e ≡ OutOfMemory) }
{
    'entries: while entries.next()?.is_some() {}
    Ok(())
}

/// Prints the entries that are left, a line each.
fn print_left<'t, O: Write>(
    entries: &mut TableIter<'t>,
    printer: &mut Printer,
    out: &mut O,
) -> Result<(), Fault>
    ensures printed { OnOk result (Passes (O.contents out.old) printer.old.held.items
        (O.contents out.new) printer.new.held.items (entry_list entries.old.left)) }
    ensures begun { OnErr result (Stops (O.contents out.old) printer.old.held.items
        (O.contents out.new) (entry_list entries.old.left)) }
    ensures fault { IfErr result (λ e. e ≡ WriteFault) }
{
    'values: while let Some(value) = next_again(entries)? {
        if let Some(key) = entries.key() {
            print_entry(printer, out, key.user, key.seq, key.kind, value)?;
        }
    }
    Ok(())
}

/// Prints the entries that are left, and flushes. The printer holds nothing before.
fn write_entries<'t, O: Write>(
    entries: &mut TableIter<'t>,
    printer: &mut Printer,
    out: &mut O,
) -> Result<(), Fault>
    requires { printer.old.held.items ≡ [] }
    ensures written { OnOk result
        (Appends (O.contents out.old) (O.contents out.new) (entry_list entries.old.left)) }
    ensures begun { OnErr result
        (Begins (O.contents out.old) (O.contents out.new) (entry_list entries.old.left)) }
    ensures fault { IfErr result (λ e. e ≡ WriteFault) }
{
    print_left(entries, printer, out)?;
    printer.finish(out)
}

/// Writes the list of a table's entries as it goes through them. All is judged, and all memory is
/// there, before the first byte is written.
fn print_table<O: Write>(alloc: Global, file: Vec<u8>, out: &mut O) -> Result<(), Fault>
    ensures written { OnOk result ((output : List ℕ) × Answers Dump file.items output
        × Appends (O.contents out.old) (O.contents out.new) output) }
    ensures explained { IfErr result (λ e. Explains Dump file.items e) }
    ensures kept { IfErr result (λ e. e ≢ WriteFault
        → Keeps (O.contents out.old) (O.contents out.new)) }
    ensures begun { IfErr result (λ e. e ≡ WriteFault
        → BeginsAnswer Dump file.items (O.contents out.old) (O.contents out.new)) }
{
    let table = Table::check(alloc, file)?;
    let mut entries = table.iter(alloc);
    pass_all(&mut entries)?;
    let mut printer = Printer::new(alloc)?;
    table.restart(&mut entries);
    write_entries(&mut entries, &mut printer, out)
}

/// The edits of a manifest, and how many bytes at its end hold no whole record.
fn list_manifest(alloc: Global, manifest: &[u8]) -> Result<Vec<u8>, Fault>
    ensures listed { IfOk result (λ text. Answers Manifest manifest.now text.items) }
    ensures explained { IfErr result (λ e. Explains Manifest manifest.now e) }
    ensures own { IfErr result (λ e. (e ≢ ReadFault) × (e ≢ WriteFault)) }
{
    let log = read_log(alloc, manifest)?;
    let records = log.records.as_slice();
    let mut text = Vec::new(alloc);
    'records: for (i, record) in records.iter().enumerate() {
        let edit = Edit::decode(alloc, record.as_slice())?;
        push_edit(&mut text, i as u64 + 1, &edit)?;
    }
    push_number(&mut text, b"rest ", log.rest)?;
    Ok(text)
}

/// Writes what a command answers for what it was given.
fn write_answer<O: Write>(
    alloc: Global,
    conversion: Conversion,
    input: Vec<u8>,
    out: &mut O,
) -> Result<(), Fault>
    ensures written { OnOk result ((output : List ℕ) × Answers conversion input.items output
        × Appends (O.contents out.old) (O.contents out.new) output) }
    ensures explained { IfErr result (λ e. Explains conversion input.items e) }
    ensures kept { IfErr result (λ e. e ≢ WriteFault
        → Keeps (O.contents out.old) (O.contents out.new)) }
    ensures begun { IfErr result (λ e. e ≡ WriteFault
        → BeginsAnswer conversion input.items (O.contents out.old) (O.contents out.new)) }
{
    let answer = match conversion {
        Conversion::MakeTable => make_table(alloc, input.as_slice())?,
        Conversion::Manifest => list_manifest(alloc, input.as_slice())?,
        Conversion::Dump => return print_table(alloc, input, out),
    };
    write_output(out, answer.as_slice())
}

/// Reads all of standard input, and then writes what the command answers; or nothing at all, but
/// for a failed write, which leaves a beginning of it.
pub(crate) fn perform<R: Read, O: Write>(
    alloc: Global,
    conversion: Conversion,
    input: &mut R,
    out: &mut O,
) -> Result<(), Fault>
    ensures done { OnOk result (IfSome (R.remaining input.old) (λ text. (output : List ℕ) × Answers
        conversion text output × Appends (O.contents out.old) (O.contents out.new) output)) }
    ensures explained { IfErr result (λ e.
        IfSome (R.remaining input.old) (λ text. Explains conversion text e)) }
    ensures kept { IfErr result (λ e. e ≢ WriteFault
        → Keeps (O.contents out.old) (O.contents out.new)) }
    ensures begun { IfErr result (λ e. e ≡ WriteFault → IfSome (R.remaining input.old) (λ text.
        BeginsAnswer conversion text (O.contents out.old) (O.contents out.new))) }
{
    let bytes = read_input(alloc, input)?;
    write_answer(alloc, conversion, bytes, out)
}
