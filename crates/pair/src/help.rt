//! The texts of the help.

/// What `--version` prints after the program's name.
pub const VERSION: &str = "1.0.0";

/// The message for a word that is not UTF-8.
pub const NOT_UTF8: &str = "\
error: invalid UTF-8 was detected in one or more arguments

Usage: pair <COMMAND>

For more information, try '--help'.
";

/// The end of the help, after the subcommands.
pub const MORE: &str = "\
A log is in the files PREFIX.1, PREFIX.2, .., and PREFIX.schema says what it is written over: its identifier, the
tables, and the rows before the first record. 'pair make' makes both, 'pair source' writes the log, and 'pair replica'
follows it by a feed. The others only read: they lock nothing and change nothing, so they may run beside a source.

Begin with: printf 'table 1 2 keyed\\n' | pair make /tmp/p; pair source /tmp/p
And in a second terminal: pair replica <(pair feed /tmp/p)

Exit status: 0 done, 2 a wrong command line, 3 a line, a schema or a log that is refused, 4 a file could not be opened
or failed, or no memory, 6 two logs differ, 7 a stream failed (no text). A fault names its file, as
'/tmp/p.2: L3 OutOfTurn'.";

pub const MORE_OF_MAKE: &str = "\
Standard input says what the log is written over, a line each; an empty line and one that begins with '#' say nothing:
  table ID COLUMNS keyed|keyless [unique COLUMN] [parent COLUMN TABLE]
  base TABLE KEY V ..                          a row before the first record; all tables come before all rows
'pair rows' prints such a text, so 'pair rows P | pair make Q' makes a log that begins where the log P ends.

Or it is what 'pair feed' writes: then the log gets the identifier, the rows before the first record and the records of
that log. 'pair feed P --once > FILE' is a backup, and 'pair make Q < FILE' restores it. All of it is checked before a
file is made; a fault is reported as 'wire: C1 Short'. No two sources may write under one identifier.

PREFIX.schema and PREFIX.1 are made, and kept, before it prints the log's identifier. It is refused if there is a file
whose name begins with 'PREFIX.', so no log is overwritten, and no identifier is used twice.

Exit status: 0 done, 2 a wrong command line, 3 a line or a schema is refused, or there is such a file, 4 a file could not
be made, or no memory, 7 a stream failed (no text).";

pub const MORE_OF_SOURCE: &str = "\
It prints 'open N', where N is the number of records in the log, and continues after them. It replies to each line of
standard input at once, as 'mtr run' replies to the same event; 'help' lists the lines. 'put S' commits the transaction
of session S, in one step, and prints 'GNO (SEQUENCE,PARENT)' once it is kept: each later start finds it, whatever
happens. A bad line is reported on standard error, and the next one is read. At a terminal it prompts, and Ctrl-D ends
it. What is not committed at the end is lost. It never waits for a replica. Only one source at a time may have the log.

Exit status: 0 done, 2 a wrong command line, 3 a line or the log is refused, 4 a file could not be opened or failed, or
no memory, 7 a stream failed (no text). Even then all that was reported is kept.";

pub const MORE_OF_FEED: &str = "\
It writes the log to standard output, as bytes for another process: first the tables and the rows before the first record,
then each record, once it is kept. It follows the log as it grows, through several runs of its source, until it is ended;
with '--once' it ends after the records that are there. It only reads the files, so any number of feeds may run at one
time, and no source waits for one.

'--from N' begins after N records. It is refused with 'gone F' if the log begins with the record F, after those; and with
'ahead M' if it has M records, fewer than N, for example because it was restored from a copy.

Exit status: 0 done, 2 a wrong command line, 3 the log is refused, 4 a file could not be read, or no memory, 7 a stream
failed (no text), for example because the reader is gone.";

pub const MORE_OF_REPLICA: &str = "\
It begins with the tables and the rows of the feed, executes each record as it comes, and publishes the commits in the
order of the log. It keeps nothing in files: after a restart it follows a feed from the first record. It replies to each
line of standard input at once; 'help' lists the lines. 'read TABLE KEY' prints 'COMMITS: V ..', the row after that number
of the source's commits, which is never less than at an earlier read. 'wait N' waits until the commit N is published; it
prints 'wire closed' if that can't come.

'wire closed behind N' is reported on standard error once the feed has ended, after N records. Reads go on: it ends once
both the feed and the lines have. 'promote PREFIX' then makes a log over its rows, for 'pair source PREFIX'.

  pair replica <(pair feed /tmp/p)
  pair replica <(ssh HOST pair feed /tmp/p)

Exit status: 0 done, 2 a wrong command line, 3 a line, the wire or a record is refused, 4 the wire could not be read, a
file not be made, or no memory, 7 a stream failed (no text).";

pub const MORE_OF_CHECK: &str = "\
It prints a line for each file: the number of its first record, how many records and groups it has, whether it is
finished or open, and how many bytes follow the last gate of the last file, which a start cuts off. A file is 'left over'
if a rotation was cut short and left it; the next rotation overwrites it. Then come the identifier, the numbers of records
and rows, and about how much memory a start takes, in kilobytes. It replays the log as a start does.

A fault names its file and, for changed bytes, the record and the byte where they are, both counted from 1:
'/tmp/p.1: C1 Short in record 4 at byte 93'.

Exit status: 0 a source would continue from it, 2 a wrong command line, 3 it would be refused, 4 a file could not be read,
or no memory, 7 a stream failed (no text).";

pub const MORE_OF_DECODE: &str = "\
For each file, in turn, it prints the lines that 'mtr decode' prints: whose log it is, a line for each record, and
'closed', or 'finished' if the log continues in a next file.

Exit status: 0 done, 2 a wrong command line, 3 a file is not a log, 4 a file could not be read, or no memory, 7 a stream
failed (no text).";

pub const MORE_OF_ROWS: &str = "\
It prints the tables and the rows after N records, as lines that 'pair make' reads.

Exit status: 0 done, 2 a wrong command line, 3 the log is refused, or has fewer records, 4 a file could not be read, or
no memory, 7 a stream failed (no text).";

pub const MORE_OF_DIFF: &str = "\
It compares both after N records; without '--upto' after all records of the shorter one. It prints 'tables differ' if
they do; 'first difference: record G'; and a line for each row that is not the same in both, as
'TABLE KEY: V .. | V ..', with 'none' for no row: first the rows of A, then those that only B has. If there are none of
these lines it prints 'no difference in N records'.

Exit status: 0 no difference, 2 a wrong command line, 3 a log is refused, or has fewer records, 4 a file could not be
read, or no memory, 6 a difference, 7 a stream failed (no text).";
