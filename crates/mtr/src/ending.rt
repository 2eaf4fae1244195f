//! How the program ends, and what it prints then.

ghost use Rattle.std.specs.Prelude.{◌≡◌, ◌≢◌, ◌∷◌, [], ◌++◌, codes, OnOk};
ghost use Rattle.std.specs.Io.KnownBytes.{Appends};
ghost use Rattle.mtr.specs.Ending.{status_of, ending_of, stop_text};

use log_file::LogFault;
use record_codec::CodecFault;
use schema::{Memory, SchemaFault};
use std::alloc::AllocError;
use std::io;
use std::io::{ErrorKind, Write};

/// How the program ends.
#[derive(Clone, Copy)]
pub enum Ending {
    /// Everything was done.
    Done,
    /// The words are not a command line of the program.
    CommandLine,
    /// The script, its schema or its base rows are bad, or the hexadecimal text is.
    BadScript,
    /// A log could not be opened or made.
    BadLog,
    /// Memory ran out outside an event.
    NoMemory,
    /// The two sides differ at the end.
    Different,
    /// A stream could not be read or written.
    Stream,
}

impl Ending {
    /// The exit status.
    pub fn status(self) -> u8
        ensures { result ≡ status_of self }
    {
        match self {
            Ending::Done => 0,
            Ending::CommandLine => 2,
            Ending::BadScript => 3,
            Ending::BadLog => 4,
            Ending::NoMemory => 5,
            Ending::Different => 6,
            Ending::Stream => 7,
        }
    }
}

/// Why the program stopped.
#[derive(Clone, Copy)]
pub enum Stop {
    /// The number, from 1, of the script's first bad line: it says nothing known, or it comes after a line that it has
    /// to precede.
    BadCommand { line: usize },
    /// The tables do not form a schema. It is never `SchemaFault::Memory`.
    Schema(SchemaFault),
    /// The base rows do not fit the schema, or one comes twice.
    BadBase,
    /// A text is not whole bytes in hexadecimal digits.
    BadHexadecimal,
    /// The log could not be opened or made. It is never `LogFault::Memory`, nor `CodecFault::Memory` for a record.
    Log(LogFault),
    /// Memory ran out.
    Memory,
    /// A stream could not be read or written.
    Stream,
}

impl From<Memory> for Stop {
    ghost use Rattle.std.specs.Prelude.{◌≡◌};
    ghost use Rattle.mtr.specs.declared.ending.Stop.TheVariants as stops;

    ghost from_gives = { λ _ stop. stop ≡ stops.Memory };

    fn from(_memory: Memory) -> Stop {
        Stop::Memory
    }
}

impl From<AllocError> for Stop {
    ghost use Rattle.std.specs.Prelude.{◌≡◌};
    ghost use Rattle.mtr.specs.declared.ending.Stop.TheVariants as stops;

    ghost from_gives = { λ _ stop. stop ≡ stops.Memory };

    fn from(_error: AllocError) -> Stop {
        Stop::Memory
    }
}

impl From<io::Error> for Stop {
    ghost use Rattle.std.specs.Prelude.{◌≡◌, ◌⊎◌};
    ghost use Rattle.mtr.specs.declared.ending.Stop.TheVariants as stops;

    ghost from_gives = { λ _ stop. (stop ≡ stops.Memory) ⊎ (stop ≡ stops.Stream) };

    fn from(error: io::Error) -> Stop {
        match error.kind() {
            ErrorKind::OutOfMemory => Stop::Memory,
            _ => Stop::Stream,
        }
    }
}

impl From<SchemaFault> for Stop {
    fn from(fault: SchemaFault) -> Stop {
        match fault {
            SchemaFault::Memory => Stop::Memory,
            fault => Stop::Schema(fault),
        }
    }
}

impl From<LogFault> for Stop {
    ghost use Rattle.std.specs.Prelude.{◌≡◌};
    ghost use Rattle.mtr.specs.Ending.{stop_of_log};

    ghost from_gives = { λ fault stop. stop ≡ stop_of_log fault };

    fn from(fault: LogFault) -> Stop {
        match fault {
            LogFault::Memory | LogFault::Codec(CodecFault::Memory) => Stop::Memory,
            fault => Stop::Log(fault),
        }
    }
}

impl Stop {
    /// How the program ends for this reason.
    pub fn ending(self) -> Ending
        ensures { result ≡ ending_of self }
    {
        match self {
            Stop::BadCommand { .. } | Stop::Schema(_) | Stop::BadBase | Stop::BadHexadecimal =>
                Ending::BadScript,
            Stop::Log(_) => Ending::BadLog,
            Stop::Memory => Ending::NoMemory,
            Stop::Stream => Ending::Stream,
        }
    }

    /// Prints the reason as one line. There is no text for a stream that fails.
    pub fn tell<E: Write>(self, errors: &mut E) -> Ending
        ensures ending { result ≢ Ending.Stream → result ≡ ending_of self }
        ensures text { result ≢ Ending.Stream → Appends (E.contents errors.old) (E.contents errors.new) (stop_text self ++ 10 ∷ []) }
    {
        if let Stop::Stream = self {
            return Ending::Stream;
        }
        match self.write_line(errors) {
            Ok(()) => self.ending(),
            Err(_) => Ending::Stream,
        }
    }

    fn write_line<E: Write>(self, errors: &mut E) -> io::Result<()>
        ensures { OnOk result (Appends (E.contents errors.old) (E.contents errors.new) (stop_text self ++ 10 ∷ [])) }
    {
        match self {
            Stop::BadCommand { line } => writeln!(errors, "line {line}: bad command"),
            Stop::Schema(fault) => writeln!(errors, "{fault}"),
            Stop::BadBase => writeln!(errors, "bad base"),
            Stop::BadHexadecimal => writeln!(errors, "bad hexadecimal"),
            Stop::Log(fault) => writeln!(errors, "{fault}"),
            Stop::Memory => writeln!(errors, "no memory"),
            Stop::Stream => writeln!(errors),
        }
    }
}
