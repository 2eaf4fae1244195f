//! Events in the form in which they are kept until they run.
//!
//! An `Event` has room for 16 columns. A kept one takes 16 bytes, and its columns are in a separate list.

ghost use Rattle.std.specs.Prelude.{◌≡◌, ◌≤◌, List, ℤ, length, count_ones};
ghost use Rattle.script_text.specs.Kept.{IsBare, IsWhole, width_of, event_of};

use rows::{Change, Named, Row};
use schema::RowId;
use world::Event;

/// An event without its columns. A row's table and key are separate fields, since a `RowId` has six bytes more.
#[derive(Clone, Copy)]
pub enum KeptEvent {
    Begin {
        session: u16,
    },
    /// A write of a row with `count` columns.
    Insert {
        session: u16,
        table: u16,
        count: u8,
        key: i64,
    },
    /// A write of the columns that the mask names.
    Update {
        session: u16,
        table: u16,
        mask: u16,
        key: i64,
    },
    Delete {
        session: u16,
        table: u16,
        key: i64,
    },
    See {
        session: u16,
        table: u16,
        key: i64,
    },
    Prepare {
        session: u16,
    },
    Queue {
        session: u16,
    },
    Abort {
        session: u16,
    },
    Flush,
    Sync,
    Commit,
    Deliver {
        gno: u64,
    },
    Dispatch,
    Finish {
        gno: u64,
    },
    Next,
    Publish,
    Executed,
    Read {
        table: u16,
        key: i64,
    },
    Rotate,
    Log,
}

impl KeptEvent {
    /// The number of its columns.
    pub fn width(self) -> usize
        ensures { result ≡ width_of self }
    {
        match self {
            KeptEvent::Insert { count, .. } => count as usize,
            KeptEvent::Update { mask, .. } => mask.count_ones() as usize,
            _ => 0,
        }
    }

    /// The event with its columns.
    pub fn with(self, columns: &[i64]) -> Event
        requires whole { IsWhole self }
        requires width { length columns.now ≡ width_of self }
        ensures { result ≡ event_of self columns.now }
    {
        match self {
            KeptEvent::Insert {
                session,
                table,
                key,
                ..
            } => inserted(session, RowId { table, key }, columns),
            KeptEvent::Update {
                session,
                table,
                mask,
                key,
            } => updated(session, RowId { table, key }, mask, columns),
            _ => self.bare(),
        }
    }

    /// The event, if it has no columns.
    pub fn bare(self) -> Event
        requires { IsBare self }
        ensures { (columns : List ℤ) → result ≡ event_of self columns }
    {
        match self {
            KeptEvent::Begin { session } => Event::Begin { session },
            KeptEvent::Insert { .. } | KeptEvent::Update { .. } => unreachable!(),
            KeptEvent::Delete {
                session,
                table,
                key,
            } => deleted(session, RowId { table, key }),
            KeptEvent::See {
                session,
                table,
                key,
            } => Event::See {
                session,
                row: RowId { table, key },
            },
            KeptEvent::Prepare { session } => Event::Prepare { session },
            KeptEvent::Queue { session } => Event::Queue { session },
            KeptEvent::Abort { session } => Event::Abort { session },
            KeptEvent::Flush => Event::Flush,
            KeptEvent::Sync => Event::Sync,
            KeptEvent::Commit => Event::Commit,
            KeptEvent::Deliver { gno } => Event::Deliver { gno },
            KeptEvent::Dispatch => Event::Dispatch,
            KeptEvent::Finish { gno } => Event::Finish { gno },
            KeptEvent::Next => Event::Next,
            KeptEvent::Publish => Event::Publish,
            KeptEvent::Executed => Event::Executed,
            KeptEvent::Read { table, key } => Event::Read {
                row: RowId { table, key },
            },
            KeptEvent::Rotate => Event::Rotate,
            KeptEvent::Log => Event::Log,
        }
    }
}

/// A write of a row with these columns, 1 to 16 of them.
fn inserted(session: u16, row: RowId, columns: &[i64]) -> Event
    requires some { 1 ≤ length columns.now }
    requires few { length columns.now ≤ 16 }
    ensures { result ≡ Event.Write session (Change.Insert row columns.now) }
{
    let values = Row::new(columns).unwrap();
    Event::Write {
        session,
        change: Change::Insert { row, values },
    }
}

/// A write of one value for each column that the mask names.
fn updated(session: u16, row: RowId, mask: u16, values: &[i64]) -> Event
    requires some { 1 ≤ mask }
    requires each { length values.now ≡ count_ones mask }
    ensures { result ≡ Event.Write session (Change.Update row (record { mask = mask; values = values.now })) }
{
    let columns = Named::new(mask, values).unwrap();
    Event::Write {
        session,
        change: Change::Update { row, columns },
    }
}

fn deleted(session: u16, row: RowId) -> Event
    ensures { result ≡ Event.Write session (Change.Delete row) }
{
    Event::Write {
        session,
        change: Change::Delete { row },
    }
}
