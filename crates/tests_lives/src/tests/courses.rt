//! Courses of three lives, against a plain model. The first life is killed at each moment. The second one goes on from
//! each image of it, and ends. The third one finds what the second had.

ghost use Rattle.std.specs.Prelude.{◌≤◌, ◌<◌, length};

use super::trackers::Fresh;
use btree_store::BTreeStore;
use commit_order_tracker::CommitOrder;
use durable_source::DurableSource;
use log_device::{CrashDevice, Device, MemoryDevice};
use rows::{Change, Row};
use schema::{Memory, RowId};
use std::alloc::Global;
use std::process::Abort;
use std::test::Fail;
use store_trait::{Batch, RowStore, fits};
use tests_log::common::source;
use tests_stores::common::{boxed, insert, row, unique_tables, update};
use tracker_trait::{Resumable, Tracker};
use writeset_trackers::{WriteSetSession, WriteSetTracker};

type Life<T, D> = DurableSource<BTreeStore, T, D>;

/// Making the log takes this many moments, and each group that is synced takes `GROUP`.
const MADE: usize = 3;

const GROUP: usize = 4;

/// The number of groups that a life commits.
const GROUPS: usize = 4;

/// The row of the start. Each record that writes it sets its first column to the record's number.
fn ten() -> RowId {
    row(2, 10)
}

fn start(alloc: Global) -> Result<BTreeStore, Memory> {
    let rows = vec![in alloc; (ten(), Row::new(&[0, 10]))]?;
    let mut store = BTreeStore::new(alloc);
    store.put_all(&Batch::from_entries(rows).ok_or(Memory)?)?;
    Ok(store)
}

fn begun<T: Fresh + Resumable + Drop>(alloc: Global) -> Result<Box<Life<T, CrashDevice>>, Fail> {
    let (schema, store) = (unique_tables(alloc)?, start(alloc)?);
    if !fits(&schema, &store) {
        Err(Memory)?;
    }
    let (tracker, device) = (T::fresh(alloc)?, CrashDevice::new(alloc));
    match DurableSource::make(alloc, schema, store, tracker, 256, source(), device) {
        Ok(life) => Ok(boxed(alloc, life)?),
        // A device in memory fails only if memory runs out.
        Err(_) => Err(Memory)?,
    }
}

fn next_life<T: Fresh + Resumable + Drop>(
    alloc: Global,
    devices: Vec<MemoryDevice>,
) -> Result<Box<Life<T, MemoryDevice>>, Fail>
    requires { 1 ≤ length devices.items }
{
    let (schema, store) = (unique_tables(alloc)?, start(alloc)?);
    let tracker = T::fresh(alloc)?;
    match DurableSource::open(alloc, schema, store, tracker, 256, source(), devices) {
        Ok(life) => Ok(boxed(alloc, life)?),
        // A device in memory fails only if memory runs out.
        Err(_) => Err(Memory)?,
    }
}

/// The model of a life.
#[derive(Drop)]
struct Course {
    /// The state of a sequence of numbers that look random.
    drawn: u64,
    /// The key of the last row that was inserted.
    key: i64,
    /// At the start, and after each record: the first column of row 10, and the number of rows.
    states: Vec<(i64, usize)>,
    /// At the start, and after each group: the number of records.
    ends: Vec<usize>,
}

impl Course {
    fn new(alloc: Global, drawn: u64) -> Result<Course, Memory> {
        Ok(Course {
            drawn,
            key: 10,
            states: vec![in alloc; (0, 1)]?,
            ends: vec![in alloc; 0]?,
        })
    }

    /// The course of a life that goes on after the first `found` records.
    fn behind(&self, alloc: Global, found: usize) -> Result<Course, Memory> {
        let states = self.states.get(..=found).ok_or(Memory)?;
        Ok(Course {
            drawn: self.drawn,
            key: self.key,
            states: states.to_vec(alloc)?,
            ends: vec![in alloc; found]?,
        })
    }

    fn draw(&mut self, most: u64) -> u64
        requires { 1 ≤ most }
        ensures { result < most }
    {
        self.drawn = self
            .drawn
            .wrapping_mul(6364136223846793005)
            .wrapping_add(1442695040888963407);
        (self.drawn >> 33) % most
    }

    /// The change of the next transaction. The first one of a group may write row 10, and each other one inserts a row.
    fn change(&mut self, session: u16) -> Result<Change, Memory> {
        let number = self.states.len();
        let (value, rows) = *self.states.last().ok_or(Memory)?;
        if session == 1 && self.draw(2) == 0 {
            self.states.push((number as i64, rows))?;
            return update(ten(), 0, number as i64);
        }
        self.key = self.key.wrapping_add(1);
        self.states.push((value, rows.wrapping_add(1)))?;
        insert(row(2, self.key), &[1, self.key])
    }

    /// Flushes a group of up to three transactions.
    fn flush<T: Tracker, D: Device>(&mut self, life: &mut Life<T, D>) -> Result<(), Fail> {
        let last = self.draw(3) as u16 + 1;
        for session in 1..=last {
            let change = self.change(session)?;
            life.begin(session)?;
            life.write(session, change)?;
            life.prepare(session)?;
            life.queue(session)?;
        }
        life.flush()?;
        self.ends.push(self.states.len().saturating_sub(1))?;
        Ok(())
    }

    /// The groups of a life: `GROUPS` that are committed, and a last one that is synced and not committed.
    fn run<T: Tracker, D: Device>(&mut self, life: &mut Life<T, D>) -> Result<(), Fail> {
        for _ in 0..GROUPS {
            self.flush(life)?;
            life.sync().map_err(|_| Memory)?;
            life.commit()?;
        }
        self.flush(life)?;
        life.sync().map_err(|_| Memory)?;
        Ok(())
    }

    /// The life has the first records of the course, and the rows after them. Returns the number of these records.
    fn agrees<T: Tracker, D: Device>(
        &self,
        rt: &impl Abort,
        life: &Life<T, D>,
    ) -> Result<usize, Fail> {
        let found = life.count() as usize;
        let (value, count) = *self.states.get(found).ok_or(Memory)?;
        let rows = life.source().rows();
        assert_eq!(rt; rows.len(), count);
        assert_eq!(rt; rows.get(ten()), Row::new(&[value, 10]));
        Ok(found)
    }
}

/// Goes on from this image in a second life, and opens that in a third. Returns the number of records that the second
/// one found.
fn goes_on<T: Fresh + Resumable + Drop>(
    rt: &(impl Abort + AllocGlobal),
    first: &Course,
    image: Vec<u8>,
) -> Result<usize, Fail> {
    let alloc = rt.alloc();
    let devices = vec![in alloc; MemoryDevice::of(image)]?;
    let mut second = next_life::<T>(alloc, devices)?;
    let found = first.agrees(rt, &second)?;
    let mut course = first.behind(alloc, found)?;
    course.run(&mut second)?;
    let (_, device) = Box::into_inner(second).into_devices();
    let third = next_life::<T>(alloc, vec![in alloc; device]?)?;
    let all = course.agrees(rt, &third)?;
    assert_eq!(rt; Some(&all), course.ends.last());
    Ok(found)
}

/// A life is killed at each moment. The next one finds each group that was synced by then, and at most one more.
fn three_lives<T: Fresh + Resumable + Drop>(
    rt: &(impl Abort + AllocGlobal),
    drawn: u64,
) -> Result<(), Fail> {
    let alloc = rt.alloc();
    let mut life = begun::<T>(alloc)?;
    let mut course = Course::new(alloc, drawn)?;
    course.run(&mut life)?;
    let (_, device) = Box::into_inner(life).into_devices();
    for moment in MADE..device.moments() {
        let synced = (moment - MADE) / GROUP;
        let least = *course.ends.get(synced).ok_or(Memory)?;
        let most = *course.ends.get(synced.saturating_add(1)).unwrap_or(&least);
        for image in device.images(moment)? {
            let found = goes_on::<T>(rt, &course, image)?;
            assert!(rt; found == least || found == most);
        }
    }
    Ok(())
}

/// Catches a restart that loses a synced group, takes half of one, or gives other rows or numbers than the records.
#[test]
fn three_lives_by_commit_order(rt: HostRuntime) -> Result<(), Fail> {
    for drawn in 0..3 {
        three_lives::<CommitOrder>(&rt, drawn)?;
    }
    Ok(())
}

/// Like `three_lives_by_commit_order`, but the tracker also looks at the rows.
#[test]
fn three_lives_by_rows(rt: HostRuntime) -> Result<(), Fail> {
    three_lives::<WriteSetTracker>(&rt, 7)
}

/// Like `three_lives_by_rows`, but the tracker also looks at the sessions.
#[test]
fn three_lives_by_session(rt: HostRuntime) -> Result<(), Fail> {
    three_lives::<WriteSetSession>(&rt, 8)
}
