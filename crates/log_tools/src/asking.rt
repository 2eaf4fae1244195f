//! Lines of an input, one after another, each with its number.

ghost use Rattle.std.specs.Prelude.{◌≡◌, true, false, MatchResult, MatchOption, OnOk, OnErr, IfOk, IfNone};
ghost use Rattle.std.specs.Borrow.{sem};
ghost use Rattle.std.specs.Io.BufRead.{Rests};
ghost use Rattle.std.specs.Io.KnownBytes.{Appends};
ghost use Rattle.log_tools.specs.contracts.asking.Lines.{the_row};
ghost use Rattle.log_tools.specs.Asking.{AreUnread, HaveRead, HaveNotRead, prompt_of, bad_line};

use crate::ending::Stop;
use script_text::lines::read_line;
use std::alloc::Global;
use std::io;
use std::io::{BufRead, Write};

/// The lines of an input.
#[derive(Drop)]
pub struct Lines {
    line: Vec<u8>,
    /// The number of lines that were read.
    number: usize,
    /// Whether more lines come after the last one that was read.
    is_more: bool,
    /// Whether the lines come from a terminal; if so, a prompt is written before each.
    terminal: bool,
    /// Whether no line was bad.
    is_good: bool,
}

impl Lines {
    /// Lines before the first one is read.
    pub fn new(alloc: Global, terminal: bool) -> Lines
        ensures { AreUnread terminal result }
    {
        Lines {
            line: Vec::new(alloc),
            number: 0,
            is_more: true,
            terminal,
            is_good: true,
        }
    }

    /// Writes the prompt, if more lines come from a terminal.
    pub fn prompt<E: Write>(&self, errors: &mut E) -> io::Result<()>
        ensures { OnOk result (Appends (E.contents errors.old) (E.contents errors.new) (prompt_of self.now)) }
    {
        if !self.terminal || !self.is_more {
            return Ok(());
        }
        write!(errors, "> ")?;
        errors.flush()
    }

    /// The next line; `None` after the last one.
    pub fn next<R: BufRead>(&mut self, input: &mut R) -> Result<Option<&[u8]>, Stop>
        ensures none { IfOk result (λ line. IfNone line (input.new ≡ input.old)) }
        ensures* after { sem 𝓛 (Rests the_row self.entry (λ lines. MatchResult result
            (λ line. MatchOption line ((self.old.is_more ≡ false) × (lines ≡ self.old))
            (λ line. HaveRead self.old lines line.now (R.remaining input.old) (R.remaining input.new)))
            (λ _. HaveNotRead self.old lines))) }
    {
        if !self.is_more {
            return Ok(None);
        }
        self.read(input)?;
        Ok(Some(&self.line))
    }

    /// Reads a line, which replaces the last one.
    fn read<R: BufRead>(&mut self, input: &mut R) -> Result<(), Stop>
        requires { self.old.is_more ≡ true }
        ensures ok { OnOk result (HaveRead self.old self.new self.new.line.items (R.remaining input.old) (R.remaining input.new)) }
        ensures err { OnErr result (HaveNotRead self.old self.new) }
    {
        self.is_more = read_line(input, &mut self.line)?;
        self.number = self.number.saturating_add(1);
        Ok(())
    }

    /// Reports that the line is bad.
    pub fn refuse<E: Write>(&mut self, errors: &mut E) -> io::Result<()>
        ensures text { OnOk result (Appends (E.contents errors.old) (E.contents errors.new) (bad_line self.old.number)) }
        ensures bad { self.new ≡ record self.old { is_good = false } }
    {
        self.is_good = false;
        writeln!(errors, "line {}: bad command", self.number)
    }

    /// Whether no line was bad.
    pub fn is_good(&self) -> bool
        ensures { result ≡ self.now.is_good }
    {
        self.is_good
    }
}
