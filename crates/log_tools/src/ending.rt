//! How the program ends, and what it prints then.

ghost use Rattle.std.specs.Prelude.{◌≡◌, ◌⊎◌, IsTrue};
ghost use Rattle.std.specs.IoError.{error_kind};
ghost use Rattle.log_tools.specs.Ending.{status_of, ending_of, was_told, stop_of_error, stop_of_wire_head};

use crate::describing::HeadFault;
use log_file::LogFault;
use promotion::PromotionFault;
use record_codec::CodecFault;
use recovery::RecoveryFault;
use relay::ReplicaFault;
use schema::Memory;
use std::alloc::{AllocError, AllocFailed};
use std::io;
use std::io::{ErrorKind, Write};
use stored_log::{FileFault, StoreFault};

/// How the program ends.
#[derive(Clone, Copy, Debug, PartialEq, Eq)]
pub enum Ending {
    /// All was done.
    Done,
    /// The command line is not one of the program's.
    CommandLine,
    /// A line, a schema or a log is refused.
    Refused,
    /// A file could not be opened or failed, or memory ran out.
    Failed,
    /// Two logs differ.
    Different,
    /// A stream could not be read or written.
    Stream,
}

impl Ending {
    /// The exit status.
    pub fn status(self) -> u8
        ensures { result ≡ status_of self }
    {
        match self {
            Ending::Done => 0,
            Ending::CommandLine => 2,
            Ending::Refused => 3,
            Ending::Failed => 4,
            Ending::Different => 6,
            Ending::Stream => 7,
        }
    }
}

/// Why the work on a path stopped.
#[derive(Clone, Copy)]
pub enum Stop {
    /// The system gave no random bytes for an identifier. This is its error.
    NoIdentifier(io::Error),
    /// Standard input does not say what a log is written over.
    Head(HeadFault),
    /// PREFIX.schema does not say what a log is written over.
    SchemaFile(HeadFault),
    /// PREFIX.schema could not be opened, read or made. This is the system's error.
    NoSchemaFile(io::Error),
    /// The file could not be opened or read. This is the system's error.
    NoFile(io::Error),
    /// The file, or the log, is refused. The fault is never that memory ran out.
    Log(LogFault),
    /// A log was asked for, but its prefix has a file already.
    Exists,
    /// A file of the log was refused or failed, or memory ran out.
    Store(StoreFault),
    /// Bytes of the log's file `number` changed, in record `gno`, which begins at byte `byte`, counted from 1.
    Changed {
        number: usize,
        fault: LogFault,
        gno: u64,
        byte: u64,
    },
    /// The log is of an earlier form, which no source writes.
    OldForm,
    /// The log does not have the identifier that PREFIX.schema says.
    OtherSource,
    /// A wire does not have a whole head. This is the fault's text.
    Wire(&'static str),
    /// What a wire's head says is refused. The fault is never that memory ran out.
    WireHead(HeadFault),
    /// Bytes of a wire are not a record. The fault is never that memory ran out.
    Codec(CodecFault),
    /// A wire is refused as a replica refuses records: it is of another source, or begins after the first record.
    Record(ReplicaFault),
    /// The replica can't become a source. The fault is never that memory ran out.
    Promotion(PromotionFault),
    /// A source can't continue from the records over these rows. The fault is never that memory ran out.
    Records(RecoveryFault),
    /// The log has only `records` records, and `upto` were asked for.
    PastEnd {
        upto: usize,
        records: usize,
    },
    /// The log begins with the record of this number, and earlier ones were asked for.
    Gone(u64),
    /// The log has this many records, and later ones were asked for.
    Ahead(u64),
    /// Another file has the path of the log's file with this number.
    Replaced(usize),
    /// The replica gave no reader, or the reader no reply.
    NoReader,
    /// Lines were bad, and each was reported.
    BadLines,
    /// Two logs differ, and the differences were printed.
    Different,
    /// Memory ran out.
    Memory,
    /// A stream could not be read or written.
    Stream,
}

impl From<Memory> for Stop {
    ghost use Rattle.std.specs.Prelude.{◌≡◌};
    ghost use Rattle.log_tools.specs.declared.ending.Stop.TheVariants as stops;

    ghost from_gives = { λ _ stop. stop ≡ stops.Memory };

    fn from(_memory: Memory) -> Stop {
        Stop::Memory
    }
}

impl From<AllocError> for Stop {
    ghost use Rattle.std.specs.Prelude.{◌≡◌};
    ghost use Rattle.log_tools.specs.declared.ending.Stop.TheVariants as stops;

    ghost from_gives = { λ _ stop. stop ≡ stops.Memory };

    fn from(_error: AllocError) -> Stop {
        Stop::Memory
    }
}

impl<T: Drop> From<AllocFailed<T>> for Stop {
    ghost use Rattle.std.specs.Prelude.{◌≡◌};
    ghost use Rattle.log_tools.specs.declared.ending.Stop.TheVariants as stops;

    ghost from_gives = { λ _ stop. stop ≡ stops.Memory };

    fn from(_error: AllocFailed<T>) -> Stop {
        Stop::Memory
    }
}

/// A stream that failed.
impl From<io::Error> for Stop {
    ghost use Rattle.std.specs.Prelude.{◌≡◌, ◌⊎◌};
    ghost use Rattle.log_tools.specs.declared.ending.Stop.TheVariants as stops;

    ghost from_gives = { λ _ stop. (stop ≡ stops.Memory) ⊎ (stop ≡ stops.Stream) };

    fn from(error: io::Error) -> Stop {
        match error.kind() {
            ErrorKind::OutOfMemory => Stop::Memory,
            _ => Stop::Stream,
        }
    }
}

impl From<StoreFault> for Stop {
    ghost use Rattle.std.specs.Prelude.{◌≡◌};
    ghost use Rattle.log_tools.specs.Ending.{stop_of_store};

    ghost from_gives = { λ fault stop. stop ≡ stop_of_store fault };

    fn from(fault: StoreFault) -> Stop {
        match fault {
            StoreFault::Memory => Stop::Memory,
            fault => Stop::Store(fault),
        }
    }
}

impl From<LogFault> for Stop {
    ghost use Rattle.std.specs.Prelude.{◌≡◌};
    ghost use Rattle.log_tools.specs.Ending.{stop_of_log};

    ghost from_gives = { λ fault stop. stop ≡ stop_of_log fault };

    fn from(fault: LogFault) -> Stop {
        match fault {
            LogFault::Memory | LogFault::Codec(CodecFault::Memory) => Stop::Memory,
            fault => Stop::Log(fault),
        }
    }
}

impl From<RecoveryFault> for Stop {
    ghost use Rattle.std.specs.Prelude.{◌≡◌};
    ghost use Rattle.log_tools.specs.Ending.{stop_of_recovery};

    ghost from_gives = { λ fault stop. stop ≡ stop_of_recovery fault };

    fn from(fault: RecoveryFault) -> Stop {
        match fault {
            RecoveryFault::Memory => Stop::Memory,
            fault => Stop::Records(fault),
        }
    }
}

impl Stop {
    /// A file could not be opened or read: what to report for the system's error.
    pub fn of_file(error: io::Error) -> Stop
        ensures { result ≡ stop_of_error error (Stop.NoFile error) }
    {
        match error.kind() {
            ErrorKind::OutOfMemory => Stop::Memory,
            _ => Stop::NoFile(error),
        }
    }

    /// A wire's head is refused: what to report for its fault.
    pub fn of_wire_head(fault: HeadFault) -> Stop
        ensures { result ≡ stop_of_wire_head fault }
    {
        match fault {
            HeadFault::Memory => Stop::Memory,
            fault => Stop::WireHead(fault),
        }
    }

    /// Like `of_file`, but for PREFIX.schema.
    pub fn of_schema_file(error: io::Error) -> Stop
        ensures { result ≡ stop_of_error error (Stop.NoSchemaFile error) }
    {
        match error.kind() {
            ErrorKind::OutOfMemory => Stop::Memory,
            _ => Stop::NoSchemaFile(error),
        }
    }

    /// Adds the path whose work stopped.
    pub fn at(self, path: &str) -> StopAt
        ensures stop { result.stop ≡ self }
        ensures path { result.path.now ≡ path.now }
    {
        StopAt { stop: self, path }
    }

    /// How the program ends for this cause.
    fn ending(self) -> Ending
        ensures { result ≡ ending_of self }
    {
        match self {
            Stop::Head(_)
            | Stop::SchemaFile(_)
            | Stop::Log(_)
            | Stop::Exists
            | Stop::Changed { .. }
            | Stop::Wire(_)
            | Stop::WireHead(_)
            | Stop::Codec(_)
            | Stop::Record(_)
            | Stop::Promotion(_)
            | Stop::OldForm
            | Stop::OtherSource
            | Stop::Records(_)
            | Stop::PastEnd { .. }
            | Stop::Gone(_)
            | Stop::Ahead(_)
            | Stop::Replaced(_)
            | Stop::BadLines => Ending::Refused,
            Stop::Store(
                StoreFault::File {
                    fault: FileFault::Log(_),
                    ..
                },
            ) => Ending::Refused,
            Stop::Store(_)
            | Stop::NoIdentifier(_)
            | Stop::NoSchemaFile(_)
            | Stop::NoFile(_)
            | Stop::NoReader
            | Stop::Memory => Ending::Failed,
            Stop::Different => Ending::Different,
            Stop::Stream => Ending::Stream,
        }
    }
}

/// Why the work on this path stopped.
#[derive(Clone, Copy)]
pub struct StopAt<'a> {
    stop: Stop,
    path: &'a str,
}

impl<'a> StopAt<'a> {
    /// Prints the cause in a line, and returns how the program ends. It prints nothing for bad lines and for two logs
    /// that differ, since these were reported before. A stream that failed has no text either.
    pub fn tell<E: Write>(self, errors: &mut E) -> Ending
        ensures ending { (result ≡ ending_of self.entry.stop) ⊎ (result ≡ Ending.Stream) }
        ensures silent { IsTrue (was_told self.entry.stop) → (result ≡ ending_of self.entry.stop) × (errors.new ≡ errors.old) }
    {
        match self.stop {
            Stop::BadLines | Stop::Different | Stop::Stream => self.stop.ending(),
            stop => match self.write_line(errors) {
                Ok(()) => stop.ending(),
                Err(_) => Ending::Stream,
            },
        }
    }

    fn write_line<E: Write>(self, errors: &mut E) -> io::Result<()> {
        let path = self.path;
        match self.stop {
            Stop::NoIdentifier(error) => writeln!(errors, "no identifier: {error}"),
            Stop::Head(fault) => writeln!(errors, "{fault}"),
            Stop::SchemaFile(fault) => writeln!(errors, "{path}.schema: {fault}"),
            Stop::NoSchemaFile(error) => writeln!(errors, "{path}.schema: {error}"),
            Stop::NoFile(error) => writeln!(errors, "{path}: {error}"),
            Stop::Log(fault) => writeln!(errors, "{path}: {fault}"),
            Stop::Exists => writeln!(errors, "{path}.*: such a file is there"),
            Stop::Store(StoreFault::File { number, fault }) => writeln!(
                errors,
                "{path}.{number}: {fault}"
            ),
            Stop::Changed {
                number,
                fault,
                gno,
                byte,
            } => writeln!(
                errors,
                "{path}.{number}: {fault} in record {gno} at byte {byte}"
            ),
            Stop::Wire(fault) => writeln!(errors, "{path}: {fault}"),
            Stop::WireHead(fault) => writeln!(errors, "{path}: {fault}"),
            Stop::Codec(fault) => writeln!(errors, "{path}: {fault}"),
            Stop::Record(fault) => writeln!(errors, "{path}: {fault}"),
            Stop::Promotion(fault) => writeln!(errors, "{path}: {fault}"),
            Stop::OldForm => writeln!(errors, "{path}: L6 OldForm"),
            Stop::OtherSource => writeln!(errors, "{path}: L7 OtherSource"),
            Stop::Records(fault) => writeln!(errors, "{path}: {fault}"),
            Stop::PastEnd { upto, records } => writeln!(
                errors,
                "{path}: {upto} is past its {records} records"
            ),
            Stop::Gone(first) => writeln!(errors, "{path}: gone {first}"),
            Stop::Ahead(records) => writeln!(errors, "{path}: ahead {records}"),
            Stop::Replaced(number) => writeln!(
                errors,
                "{path}.{number}: another file stands there"
            ),
            Stop::NoReader => writeln!(errors, "{path}: seat refused"),
            Stop::Store(StoreFault::Memory) | Stop::Memory => writeln!(errors, "no memory"),
            Stop::BadLines | Stop::Different | Stop::Stream => Ok(()),
        }
    }
}
