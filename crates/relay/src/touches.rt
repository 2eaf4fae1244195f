//! Which records touched each row last, and which stated each mark last.
ghost use Rattle.std.specs.Prelude.{◌≡◌, ◌+◌, ◌≤◌, nat_le, length, OnOk};
ghost use Rattle.std.specs.List.{list_all};
ghost use Rattle.std.specs.FinMap.{empty};
ghost use Rattle.rows.specs.Database.{writes};
ghost use Rattle.relay.specs.Touches.{touch_at, written_at, touched_at, stated_at, NotesWrites, NotesRefs, NotesMarks, Notes, is_behind};

use record_codec::Record;
use row_map::RowMap;
use rows::Change;
use schema::{Mark, Memory, RowId};
use std::alloc::Global;

/// The numbers of the records that touched a row last, 0 if there is none.
#[derive(Clone, Copy, Debug, PartialEq, Eq)]
pub(crate) struct Touch {
    /// The last one that wrote it.
    written: u64,
    /// The last one that wrote it or referred to it.
    touched: u64,
}

const NONE: Touch = Touch {
    written: 0,
    touched: 0,
};

/// The last touches of each row that a record touched, and the number of the last record that states each mark.
#[derive(Debug, Drop)]
pub(crate) struct Touches {
    rows: RowMap<Touch>,
    marks: RowMap<u64>,
}

impl Touches {
    /// No rows and no marks. It takes no memory.
    pub(crate) fn new(alloc: Global) -> Touches
        ensures rows { result.rows.map ≡ empty }
        ensures marks { result.marks.map ≡ empty }
    {
        Touches {
            rows: RowMap::new(alloc),
            marks: RowMap::new(alloc),
        }
    }

    /// Whether the record's parent is at least the last record that wrote a row that it writes or refers to. The parent
    /// also has to be at least the last that referred to a row that it writes, and the last that states a mark that it
    /// states. It takes no memory, and expected constant time for each of its rows and marks.
    pub(crate) fn are_behind(&self, new: &Record) -> bool
        ensures { result ≡ is_behind self.now.rows.map self.now.marks.map new.now }
    {
        self.written_behind(new.changes.list(), new.parent)
            && self.referred_behind(new.refs.list(), new.parent)
            && self.stated_behind(new.marks.list(), new.parent)
    }

    fn written_behind(&self, changes: &[Change], parent: u64) -> bool
        ensures { result ≡ list_all (λ row. nat_le (touched_at self.now.rows.map row) parent) (writes changes.now) }
    {
        changes
            .iter()
            .map(|change| change.target())
            .all(|row| last_touch(&self.rows, row).touched <= parent)
    }

    fn referred_behind(&self, rows: &[RowId], parent: u64) -> bool
        ensures { result ≡ list_all (λ row. nat_le (written_at self.now.rows.map row) parent) rows.now }
    {
        rows.iter()
            .all(|row| last_touch(&self.rows, *row).written <= parent)
    }

    fn stated_behind(&self, marks: &[Mark], parent: u64) -> bool
        ensures { result ≡ list_all (λ mark. nat_le (stated_at self.now.marks.map mark) parent) marks.now }
    {
        marks
            .iter()
            .all(|mark| last_stated(&self.marks, *mark) <= parent)
    }

    /// Makes room for the rows and the marks of a record.
    pub(crate) fn reserve(&mut self, new: &Record) -> Result<(), Memory>
        ensures rows { self.new.rows.map ≡ self.old.rows.map }
        ensures marks { self.new.marks.map ≡ self.old.marks.map }
        ensures room { OnOk result (length new.now.changes + length new.now.refs ≤ self.new.rows.room) }
        ensures places { OnOk result (length new.now.marks ≤ self.new.marks.room) }
    {
        let count = new.changes.list().len() + new.refs.list().len();
        self.rows.reserve(count)?;
        self.marks.reserve(new.marks.list().len())
    }

    /// Notes the record as the last that touched its rows and states its marks. It takes no memory, and expected constant
    /// time for each of these.
    pub(crate) fn note(&mut self, new: &Record)
        requires room { length new.now.changes + length new.now.refs ≤ self.old.rows.room }
        requires places { length new.now.marks ≤ self.old.marks.room }
        ensures rows { Notes self.old.rows.map new.now self.new.rows.map }
        ensures marks { NotesMarks new.now.gno self.old.marks.map new.now.marks self.new.marks.map }
    {
        note_writes(&mut self.rows, new.changes.list(), new.gno);
        note_refs(&mut self.rows, new.refs.list(), new.gno);
        note_marks(&mut self.marks, new.marks.list(), new.gno);
    }
}

fn last_touch(rows: &RowMap<Touch>, row: RowId) -> Touch
    ensures { result ≡ touch_at rows.now.map row }
{
    rows.get(row).unwrap_or(NONE)
}

/// The number of the last record that states the mark, 0 if none does.
fn last_stated(marks: &RowMap<u64>, mark: Mark) -> u64
    ensures { result ≡ stated_at marks.now.map mark }
{
    marks.get(mark.as_row()).unwrap_or(0)
}

fn note_writes(rows: &mut RowMap<Touch>, changes: &[Change], gno: u64)
    requires { length changes.now ≤ rows.old.room }
    ensures noted { NotesWrites gno rows.old.map (writes changes.now) rows.new.map }
    ensures room { rows.old.room ≤ rows.new.room + length changes.now }
{
    let touch = Touch {
        written: gno,
        touched: gno,
    };
    for change in changes {
        rows.set(change.target(), touch);
    }
}

fn note_refs(rows: &mut RowMap<Touch>, refs: &[RowId], gno: u64)
    requires { length refs.now ≤ rows.old.room }
    ensures { NotesRefs gno rows.old.map refs.now rows.new.map }
{
    for row in refs {
        let written = last_touch(rows, *row).written;
        rows.set(
            *row,
            Touch {
                written,
                touched: gno,
            },
        );
    }
}

fn note_marks(stated: &mut RowMap<u64>, marks: &[Mark], gno: u64)
    requires { length marks.now ≤ stated.old.room }
    ensures { NotesMarks gno stated.old.map marks.now stated.new.map }
{
    for mark in marks {
        stated.set(mark.as_row(), gno);
    }
}
