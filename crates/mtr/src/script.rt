//! Scripts: the tables, the rows at the start, and the events.
//!
//! A script is read line by line, and checked as a whole before anything is done. Its lines end with LF. An empty line
//! says nothing, nor does one that begins with `#`. All tables come first, then the rows of the base, then the events.
//! Any other line is bad. The first bad line ends the reading, and nothing after it is kept. The events are kept in a
//! short form (`events`).

ghost use Rattle.std.specs.Prelude.{◌≡◌, IfOk, IfSome};
ghost use Rattle.std.specs.Bool.{then_some};
ghost use Rattle.script_text.specs.Lines.{table, base, event};
ghost use Rattle.mtr.specs.Script.{said, said_with, nothing, added, Says, SaysIn};

use crate::ending::Stop;
use crate::events::EventList;
use rows::Row;
use schema::{Memory, RowId, Table};
use script_text::lines::{Line, base_of, line_of, read_line, table_of};
use script_text::words::Words;
use std::alloc::Global;
use std::io::BufRead;

/// The room for a line at first, in bytes.
const LINE: usize = 64;

/// What a script says.
#[derive(Drop)]
pub struct Script {
    /// The tables, in the order of their lines.
    pub tables: Vec<Table>,
    /// The rows with which source and replica begin, in the order of their lines.
    pub base: Vec<(RowId, Row)>,
    /// The events, in order.
    pub events: EventList,
}

impl Script {
    /// What the text of a reader says. All of it is read before anything is done, but nothing past the first bad line.
    /// The time grows with the length of the text. Each event takes 16 bytes and its columns.
    pub fn read<R: BufRead>(alloc: Global, input: &mut R) -> Result<Script, Stop>
        ensures { IfSome (R.remaining input.old) (λ text. Says text result) }
    {
        let mut script = Script {
            tables: Vec::new(alloc),
            base: Vec::new(alloc),
            events: EventList::new(alloc),
        };
        script.fill(alloc, input)?;
        Ok(script)
    }

    /// Takes what the lines of the reader say. Nothing was taken before.
    fn fill<R: BufRead>(&mut self, alloc: Global, input: &mut R) -> Result<(), Stop>
        requires { said self.old ≡ nothing }
        ensures { IfSome (R.remaining input.old) (λ text. SaysIn text self.new result) }
    {
        let mut line = Vec::with_capacity(alloc, LINE)?;
        for number in 1..usize::MAX {
            let is_more = read_line(input, &mut line)?;
            if !self.add(&line)? {
                return Err(Stop::BadCommand { line: number });
            }
            if !is_more {
                return Ok(());
            }
        }
        Err(Stop::Memory)
    }

    /// Takes what a line says. If the line is bad or comes too late, nothing is taken and the result is `false`.
    fn add(&mut self, line: &[u8]) -> Result<bool, Memory>
        ensures said { IfOk result (λ is_good. said_with (said self.old) line.now ≡ then_some is_good (said self.new)) }
    {
        match line_of(line) {
            None => Ok(false),
            Some(Line::Skipped) => Ok(true),
            Some(Line::Table(words)) => self.add_table(words),
            Some(Line::Base(words)) => self.add_base(words),
            Some(Line::Event(name, words)) => self.add_event(name, words),
        }
    }

    /// Takes the table that the words describe.
    #[tactic(auto, unfolding(crate::specs::Script::added))]
    fn add_table(&mut self, words: Words) -> Result<bool, Memory>
        ensures { IfOk result (λ is_good. added (said self.old) (table words.entry) ≡ then_some is_good (said self.new)) }
    {
        let Some(table) = table_of(words) else {
            return Ok(false);
        };
        if !(self.base.is_empty() && self.events.is_empty()) {
            return Ok(false);
        }
        self.tables.push(table)?;
        Ok(true)
    }

    /// Takes the base row that the words describe.
    #[tactic(auto, unfolding(crate::specs::Script::added))]
    fn add_base(&mut self, words: Words) -> Result<bool, Memory>
        ensures { IfOk result (λ is_good. added (said self.old) (base words.entry) ≡ then_some is_good (said self.new)) }
    {
        let Some(row) = base_of(words) else {
            return Ok(false);
        };
        if !self.events.is_empty() {
            return Ok(false);
        }
        self.base.push(row)?;
        Ok(true)
    }

    /// Takes the event of this name, if the words after it are its parameters.
    #[tactic(auto, unfolding(crate::specs::Script::added))]
    fn add_event(&mut self, name: &[u8], words: Words) -> Result<bool, Memory>
        ensures { IfOk result (λ is_good. added (said self.old) (event name.now words.entry) ≡ then_some is_good (said self.new)) }
    {
        self.events.push(name, words)
    }
}
