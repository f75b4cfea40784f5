//! What is printed of entries, piece by piece: no line is ever whole in memory.

ghost use Rattle.std.specs.Prelude.{◌≡◌, ◌≤◌, ◌<◌, ◌+◌, [], ◌∷◌, IfErr, OnErr, OnOk, decimal};
ghost use Rattle.std.specs.Prelude.{length};
ghost use Rattle.hex.specs.Hex.{encode_lower};
ghost use Rattle.lsm_codec.specs.declared.kind.Kind.TheVariants.{Value};
ghost use Rattle.lsm_text.specs.EntryPrinting.{action_line, bytes_word, entry_line};
ghost use Rattle.lsm_text.specs.Printing.{Passes, Stops};
ghost use Rattle.lsm_text.specs.declared.fault.Fault.TheVariants.{Write as WriteFault};

use crate::fault::Fault;
use crate::printer::Printer;
use lsm_codec::Kind;
use std::io::Write;

/// So many bytes of a key or a value are spelled at a time.
const PIECE: usize = 128;

/// Prints some bytes in lower-case hex. There are at most `PIECE`.
fn print_piece<O: Write>(printer: &mut Printer, out: &mut O, piece: &[u8]) -> Result<(), Fault>
    requires { length piece.now ≤ PIECE }
    ensures printed { OnOk result (Passes (O.contents out.old) printer.old.held.items
        (O.contents out.new) printer.new.held.items (encode_lower piece.now)) }
    ensures begun { OnErr result (Stops (O.contents out.old) printer.old.held.items
        (O.contents out.new) (encode_lower piece.now)) }
    ensures fault { IfErr result (λ e. e ≡ WriteFault) }
{
    let mut digits = [0u8; 2 * PIECE];
    let spelled = &mut digits[..2 * piece.len()];
    let _ = hex::encode_to_slice(piece, &mut *spelled);
    printer.push(out, spelled)
}

/// Prints bytes in lower-case hex.
fn print_digits<O: Write>(printer: &mut Printer, out: &mut O, bytes: &[u8]) -> Result<(), Fault>
    ensures printed { OnOk result (Passes (O.contents out.old) printer.old.held.items
        (O.contents out.new) printer.new.held.items (encode_lower bytes.now)) }
    ensures begun { OnErr result (Stops (O.contents out.old) printer.old.held.items
        (O.contents out.new) (encode_lower bytes.now)) }
    ensures fault { IfErr result (λ e. e ≡ WriteFault) }
{
    let mut rest = bytes;
    'pieces: while !rest.is_empty() {
        let (piece, later) = rest.split_at(rest.len().min(PIECE));
        print_piece(printer, out, piece)?;
        rest = later;
    }
    Ok(())
}

/// Prints the word for some bytes: lower-case hex, or `.` for no bytes.
fn print_bytes<O: Write>(printer: &mut Printer, out: &mut O, bytes: &[u8]) -> Result<(), Fault>
    ensures printed { OnOk result (Passes (O.contents out.old) printer.old.held.items
        (O.contents out.new) printer.new.held.items (bytes_word bytes.now)) }
    ensures begun { OnErr result (Stops (O.contents out.old) printer.old.held.items
        (O.contents out.new) (bytes_word bytes.now)) }
    ensures fault { IfErr result (λ e. e ≡ WriteFault) }
{
    if bytes.is_empty() {
        return printer.push(out, b".");
    }
    print_digits(printer, out, bytes)
}

/// Prints a decimal digit.
fn print_digit<O: Write>(printer: &mut Printer, out: &mut O, digit: u64) -> Result<(), Fault>
    requires { digit < 10 }
    ensures printed { OnOk result (Passes (O.contents out.old) printer.old.held.items
        (O.contents out.new) printer.new.held.items ((48 + digit) ∷ [])) }
    ensures begun { OnErr result (Stops (O.contents out.old) printer.old.held.items
        (O.contents out.new) ((48 + digit) ∷ [])) }
    ensures fault { IfErr result (λ e. e ≡ WriteFault) }
{
    printer.push(out, &[b'0' + digit as u8])
}

/// Prints a number in decimal digits.
fn print_decimal<O: Write>(printer: &mut Printer, out: &mut O, n: u64) -> Result<(), Fault>
    ensures printed { OnOk result (Passes (O.contents out.old) printer.old.held.items
        (O.contents out.new) printer.new.held.items (decimal n)) }
    ensures begun { OnErr result
        (Stops (O.contents out.old) printer.old.held.items (O.contents out.new) (decimal n)) }
    ensures fault { IfErr result (λ e. e ≡ WriteFault) }
{
    if n < 10 {
        return print_digit(printer, out, n);
    }
    print_decimal(printer, out, n / 10)?;
    print_digit(printer, out, n % 10)
}

/// Prints a value behind the sequence of its entry, and the end of the line.
fn print_put<O: Write>(printer: &mut Printer, out: &mut O, value: &[u8]) -> Result<(), Fault>
    ensures printed { OnOk result (Passes (O.contents out.old) printer.old.held.items
        (O.contents out.new) printer.new.held.items (action_line Value value.now)) }
    ensures begun { OnErr result (Stops (O.contents out.old) printer.old.held.items
        (O.contents out.new) (action_line Value value.now)) }
    ensures fault { IfErr result (λ e. e ≡ WriteFault) }
{
    printer.push(out, b" put ")?;
    print_bytes(printer, out, value)?;
    printer.push(out, b"\n")
}

/// Prints what stands behind the sequence of an entry, and the end of its line.
fn print_action<O: Write>(
    printer: &mut Printer,
    out: &mut O,
    kind: Kind,
    value: &[u8],
) -> Result<(), Fault>
    ensures printed { OnOk result (Passes (O.contents out.old) printer.old.held.items
        (O.contents out.new) printer.new.held.items (action_line kind value.now)) }
    ensures begun { OnErr result (Stops (O.contents out.old) printer.old.held.items
        (O.contents out.new) (action_line kind value.now)) }
    ensures fault { IfErr result (λ e. e ≡ WriteFault) }
{
    match kind {
        Kind::Deletion => printer.push(out, b" del\n"),
        Kind::Value => print_put(printer, out, value),
    }
}

/// Prints the line of an entry.
pub fn print_entry<O: Write>(
    printer: &mut Printer,
    out: &mut O,
    user: &[u8],
    seq: u64,
    kind: Kind,
    value: &[u8],
) -> Result<(), Fault>
    ensures printed { OnOk result (Passes (O.contents out.old) printer.old.held.items
        (O.contents out.new) printer.new.held.items (entry_line record {
          user = user.now;
          seq = seq;
          kind = kind;
          value = value.now;
        })) }
    ensures begun { OnErr result
        (Stops (O.contents out.old) printer.old.held.items (O.contents out.new)
        (entry_line record { user = user.now; seq = seq; kind = kind; value = value.now })) }
    ensures fault { IfErr result (λ e. e ≡ WriteFault) }
{
    print_bytes(printer, out, user)?;
    printer.push(out, b" ")?;
    print_decimal(printer, out, seq)?;
    print_action(printer, out, kind, value)
}
