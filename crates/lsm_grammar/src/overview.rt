//! The program's version, and what its help says of all commands.

/// The program's version, and of what version of LevelDB the files are.
pub(crate) const VERSION: &str = "0.1.0 (files of LevelDB 1.23, uncompressed)";

pub(crate) const OVERVIEW: &str =
    "Keys and values are words in hex, two digits a byte (61 is `a`), or with --text
as text; `.` stands for no bytes. In text a byte that does not print is `\\xNN`,
and so are `\\` (`\\x5c`), `=` (`\\x3d`), `!` (`\\x21`), `@` (`\\x40`), a blank
(`\\x20`) and a word that is just a point (`\\x2e`). Sizes are in bytes.

FILE is the path of a file, or `-` for standard input; it may have 64 MiB, and
for `load` any size.
Options stand anywhere behind the command, and a value is the word behind its
option, or behind `=` in its word: `--from 61`, `--from=61`. Behind `--` no word
is an option: `lsm get db --text -- -key`.

A DIR that is not there is `refused 9 Device`, one without a file CURRENT
`refused 10 Missing`; but `ingest`, `put`, `delete`, `load` and `shell` begin a
database in a DIR that has no manifest and no table either. A DIR that is a
symbolic link is the folder that it leads to; what is no regular file is not
read.

`ingest`, `put`, `delete`, `load`, `recover`, `repair`, `compact`, `clean` and
`shell` without --read-only hold LevelDB's lock file, DIR/LOCK, alone, and make
it where it is not there; the other commands share it where it is there. Where
another program holds it, also a LevelDB, it is `refused 52 Locked`, and nothing
is read or written. A LevelDB is noticed where the system has the file
/proc/locks; it does not notice `lsm`: do not open DIR while `lsm` writes there.
With --wait a command first waits until the lock is free, SECONDS at most; it
asks for it 20 times a second.

No command but `import` and `recover` reads a write-ahead log (`N.log`). Of each
one that LevelDB has not flushed, `list`, `get` and `scan` say on standard error
how many bytes are not read, and `check` prints a line. `ingest`, `put`,
`delete`, `load` and `shell` are `refused 51 UnflushedLog N` beside it; with
--recover they first bring it in, as `recover` does.

Where the last record of DIR's manifest is cut off, DIR has a later manifest than
the one that CURRENT names, or files of RocksDB, standard error says so, also
before a command that writes; with --strict that is `refused 61 TornManifest B`,
`refused 62 LaterManifest N` or `refused 63 RocksDbFiles`. `levels` looks at the
manifest's end alone; `import`, `repair` and `bench` do not look.

Tables that are compressed, as LevelDB makes them unless told otherwise, are
refused: `refused 16 Compressed 1`.

With --compare each table is kept in memory as it was read first, and what is
read of it again is compared with that: where the disk then gives other bytes it
is `refused 9 Device`. It takes as much memory as the tables have bytes.

Standard output has what was asked for, and nothing else. Standard error says
why a command is refused or is none, names logs that are not read, and with
--progress says how far a command is. Where standard error is a terminal,
`load`, `compact`, `check`, and a `scan` into a file, show that without
--progress too, in one line that is gone at the end.

Exit status:
  0  done
  1  refused; standard error says why: `refused N Name ..`, `write fault`,
     `read fault` or `bad line I`, and of a shell also `failed line` or
     `open batch`. A second line may say more: the call that the system refused,
     with its path and the system's reason, the file of a fault, the place in a
     line, or what is to be done. `get` with --raw or --exists: the key is absent,
     and standard error says `absent`
  2  bad command line

Example: lsm check db";
