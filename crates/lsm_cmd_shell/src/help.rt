//! What lines there are.

/// The lines of a conversation with their replies, and `end`.
pub(crate) const HELP: &[u8] = b"put KEY VALUE             file N first F last L, or queued
delete KEY                file N first F last L, or queued
begin                     begun: put and delete are queued up to commit or abort
commit                    file N first F last L: one batch, of each key the last write
abort                     aborted
ingest W W ..             file N first F last L; W is KEY=VALUE or KEY!, keys ascend
get KEY, get KEY ID       value V, or absent; ID is a snapshot's
scan [FROM [TO]] [limit N]
                          a line KEY=VALUE each, then end
snapshot                  snapshot ID seq S
release ID                released
compact                   installed M: all that is due is compacted and collected
reserve                   job T level L inputs N N .., move T level L input N, or none
reserve LEVEL FROM TO     the same for the files of a level that meet a range
merge T                   merged T tables M
install T                 installed N N ..
cancel T                  cancelled
pin, unpin ID             pin ID, unpinned
collect                   removed N N ..
stats                     a line a level, last L, snapshots N, then end
list                      a line a file, then end
help                      these lines, then end
quit                      ends
A refusal is refused N Name .., also in place of a list's end.
Another line is answered bad line: and why.
end
";
