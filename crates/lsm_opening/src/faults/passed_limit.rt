//! Which limit a batch passes, for people.

use lsm_batch::{MOST_BYTES, MOST_ENTRIES, MOST_KEY, MOST_VALUE, Write as KeyWrite};
use std::io::{self, Write};

/// How many bytes the value has.
fn value_size(write: &KeyWrite) -> usize {
    match &write.value {
        Some(value) => value.as_slice().len(),
        None => 0,
    }
}

/// Writes the limit that a line passes alone. `false` where it passes none.
fn write_limit_of_line<E: Write>(
    err: &mut E,
    line: usize,
    key: usize,
    value: usize,
) -> io::Result<bool> {
    if key > MOST_KEY {
        writeln!(
            err,
            "line {line}: the key has {key} bytes, and may have {MOST_KEY}"
        )?;
        return Ok(true);
    }
    if value > MOST_VALUE {
        writeln!(
            err,
            "line {line}: the value has {value} bytes, and may have {MOST_VALUE}"
        )?;
        return Ok(true);
    }
    Ok(false)
}

/// Writes the first limit that a batch passes, and the line where it does. Nothing where it passes
/// none.
pub(crate) fn write_limit<E: Write>(err: &mut E, writes: &[KeyWrite]) -> io::Result<()> {
    let entries = writes.len();
    if entries > MOST_ENTRIES {
        return writeln!(
            err,
            "the file has {entries} lines, and may have {MOST_ENTRIES}"
        );
    }
    let mut bytes = 0usize;
    let mut line = 0usize;
    for write in writes {
        line = line.saturating_add(1);
        let key = write.key.as_slice().len();
        let value = value_size(write);
        if write_limit_of_line(err, line, key, value)? {
            return Ok(());
        }
        bytes = bytes.saturating_add(key).saturating_add(value);
        if bytes > MOST_BYTES {
            return writeln!(
                err,
                "line {line}: up to here keys and values have {bytes} bytes, and may have {MOST_BYTES}"
            );
        }
    }
    Ok(())
}
