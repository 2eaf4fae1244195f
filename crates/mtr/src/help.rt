//! The texts of the help.

/// What `--version` prints after the program's name.
pub const VERSION: &str = "1.0.0";

/// The message for a word that is not UTF-8.
pub const NOT_UTF8: &str = "\
error: invalid UTF-8 was detected in one or more arguments

Usage: mtr <COMMAND>

For more information, try '--help'.
";

/// The end of each help text, after the subcommands or the options.
pub const MORE: &str = "\
Begin with 'mtr run < SCRIPT': a script is a text file, and 'mtr run --help' has a first one to paste.
Replies go to standard output, faults to standard error, each in a line.

Exit status: 0 done (even if events were refused), 2 a wrong command line, 3 a bad script, schema, row or digit,
4 no log file, or none could be made, 5 no memory, 6 'threads' found a difference, 7 a stream failed (no text).

Begin with README.md; docs/FORMATS.md has each line of a script, each reply and each refusal.";

pub const MORE_OF_RUN: &str = "\
mtr run < SCRIPT

A script has its tables first, then the rows that both sides begin with, then its events, one a line, its words
separated by one space. A line that begins with '#' is a comment. Each event prints one line: its reply, or its
refusal, as 'S8 NoRow'. A first script, whose last reply is '1: 5 6', row 10 of table 1 as of commit 1:

table 1 2 keyed
begin 1
insert 1 1 10 5 6
prepare 1
queue 1
flush
sync
commit
deliver 1
dispatch
finish 1
next
publish
read 1 10

'log' prints the log as hexadecimal digits, and 'rotate' continues it in a next file.

Exit status: 0 all events were run, refused ones too; 2 a wrong command line; 3 a bad script, reported as
'line 2: bad command', 'B5 Parent' or 'bad base'; 4 the log could not be made; 5 no memory; 7 a stream failed.

docs/FORMATS.md has the grammar, each reply and each refusal; examples/run has scripts to read.";

pub const MORE_OF_THREADS: &str = "\
It reads nothing, and prints one line: 'log 40 published 40 equal', with the numbers of its transactions, or
'different'.

Exit status: 0 equal, 2 a wrong command line, 5 no memory, 6 different, 7 a stream failed (no text).

docs/FORMATS.md says what its sessions write.";

pub const MORE_OF_DECODE: &str = "\
mtr run < SCRIPT | tail -1 | mtr decode      if the script's last event is 'log'
xxd -p FILE | mtr decode                     if the file has the bytes

It prints the source, a line for each record, as '2 (2,1) set 1 10 0=7', and 'closed', or 'finished' if a next file
follows. 'log' prints the files one after the other, joined by one space: each is decoded separately.

Exit status: 0 done, 2 a wrong command line, 3 bad hexadecimal, 4 not a log file (its fault is reported, as 'C1 Short'),
5 no memory, 7 a stream failed (no text).

docs/FORMATS.md has the bytes of a log file, and its faults in their order.";
