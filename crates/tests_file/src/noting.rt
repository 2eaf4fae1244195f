//! A file in memory that notes what it is asked, and fails a call.
ghost use Rattle.std.specs.Prelude.{◌≡◌, [], ◌∷◌, None};
ghost use Rattle.file_device.specs.Call.{Call, Notes, written, cut, synced};

use file_device::Calls;
use log_device::{Device, MemoryDevice};
use std::alloc::{AllocError, Global};
use std::{fmt, io};

/// A call that was made to the file.
#[derive(Drop)]
pub enum Noted {
    Written { at: u64, bytes: Vec<u8> },
    Cut { len: u64 },
    Synced,
}

impl fmt::Display for Noted {
    fn fmt<W: fmt::Write>(&self, f: &mut fmt::Formatter<W>) -> fmt::Result {
        match self {
            Noted::Written { at, bytes } => write!(f, "write {at} {bytes:?}"),
            Noted::Cut { len } => write!(f, "cut {len}"),
            Noted::Synced => f.write_str("sync"),
        }
    }
}

/// What a failing call still does.
#[derive(Clone, Copy, Debug, PartialEq, Eq)]
pub enum Outcome {
    /// Nothing.
    None,
    /// Half of a write, or a whole cut.
    Half,
}

/// A file in memory. Its content has room for a thousand bytes, so that only a note can run out of memory.
#[derive(Drop)]
pub struct NotingFile {
    alloc: Global,
    content: MemoryDevice,
    notes: Vec<Noted>,
    is_whole: bool,
    calls_left: u64,
    outcome: Outcome,
}

impl NotingFile {
    ghost use Rattle.tests_file.specs.Noted.{call_of, made_of};

    /// A file without content that fails its `nth` call, counted from 1, or none if `nth` is 0.
    pub fn failing(alloc: Global, nth: u64, outcome: Outcome) -> Result<NotingFile, AllocError> {
        Ok(NotingFile {
            alloc,
            content: MemoryDevice::of(Vec::with_capacity(alloc, 1000)?),
            notes: Vec::with_capacity(alloc, 100)?,
            is_whole: true,
            calls_left: nth,
            outcome,
        })
    }

    /// What it was asked, unless memory ran out for a note.
    pub fn notes(&self) -> Option<&[Noted]> {
        if self.is_whole {
            Some(&self.notes)
        } else {
            None
        }
    }

    /// What it holds.
    pub fn into_content(self) -> MemoryDevice {
        self.content
    }

    fn note(&mut self, call: Noted)
        ensures { Notes (made_of self.old) (call_of call ∷ []) (made_of self.new) }
    {
        if self.notes.push(call).is_err() {
            self.is_whole = false;
        }
    }

    fn note_write(&mut self, at: u64, bytes: &[u8])
        ensures { Notes (made_of self.old) (written at bytes.now ∷ []) (made_of self.new) }
    {
        match bytes.to_vec(self.alloc) {
            Ok(bytes) => self.note(Noted::Written { at, bytes }),
            Err(_) => self.is_whole = false,
        }
    }

    /// Counts a call, and returns whether it fails: its turn has come.
    fn fails(&mut self) -> bool
        ensures { made_of self.new ≡ made_of self.old }
    {
        let fails = self.calls_left == 1;
        self.calls_left = self.calls_left.saturating_sub(1);
        fails
    }
}

impl Calls for NotingFile {
    ghost use Rattle.tests_file.specs.Noted.{made_of};

    ghost made = { λ f. made_of f };

    fn write_all(&mut self, at: u64, bytes: &[u8]) -> io::Result<()> {
        self.note_write(at, bytes);
        if !self.fails() {
            return told(self.content.write_at(at, bytes));
        }
        if self.outcome == Outcome::Half {
            let _ = self.content.write_at(at, &bytes[..bytes.len() / 2]);
        }
        Err(io::ErrorKind::StorageFull.into())
    }

    fn cut(&mut self, len: u64) -> io::Result<()> {
        self.note(Noted::Cut { len });
        if !self.fails() {
            return told(self.content.cut(len));
        }
        if self.outcome == Outcome::Half {
            let _ = self.content.cut(len);
        }
        Err(io::ErrorKind::StorageFull.into())
    }

    fn sync(&mut self) -> io::Result<()> {
        self.note(Noted::Synced);
        if self.fails() {
            return Err(io::ErrorKind::StorageFull.into());
        }
        Ok(())
    }
}

fn told(done: Result<(), log_device::DeviceFault>) -> io::Result<()> {
    done.map_err(|_| io::ErrorKind::OutOfMemory.into())
}
