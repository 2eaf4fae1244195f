//! Steps of a course, and the events that they are made of.

use schema::Memory;
use std::alloc::Global;
use world::Event;

/// What is sent to a world, and its reply.
#[derive(Drop)]
pub enum Step {
    /// An event, and its reply.
    Told(Event, &'static str),
    /// The sessions from the first number to the second prepare after this number of commits. They are one group, from
    /// the record of this number on, each with this parent.
    Commits((u16, u16), u64, (u64, u64)),
    /// The replica accepts the records from this number to that.
    Takes(u64, u64),
    /// The replica hands out the job of this number, which is finished and committed.
    Applies(u64),
}

/// Events, each with its reply.
#[derive(Drop)]
pub struct Course {
    pub told: Vec<(Event, String)>,
}

impl Course {
    /// The events of these steps, at the source and then at the replica.
    pub fn new(alloc: Global, source: &[Step], replica: &[Step]) -> Result<Course, Memory> {
        let mut course = Course {
            told: Vec::new(alloc),
        };
        course.add_all(alloc, source)?;
        course.add_all(alloc, replica)?;
        Ok(course)
    }

    fn add_all(&mut self, alloc: Global, steps: &[Step]) -> Result<(), Memory> {
        for step in steps {
            self.add(alloc, step)?;
        }
        Ok(())
    }

    fn add(&mut self, alloc: Global, step: &Step) -> Result<(), Memory> {
        match step {
            Step::Told(event, answer) => self.tell(*event, format!(in alloc; "{answer}")?),
            Step::Commits(sessions, commits, stamp) => {
                self.prepare(alloc, *sessions, *commits)?;
                self.queue(alloc, *sessions)?;
                self.commit(alloc, *sessions, *stamp)
            }
            Step::Takes(first, last) => self.take(alloc, *first, *last),
            Step::Applies(gno) => self.apply(alloc, *gno),
        }
    }

    fn tell(&mut self, event: Event, answer: String) -> Result<(), Memory> {
        Ok(self.told.push((event, answer))?)
    }

    /// Each of the sessions prepares after `commits` commits.
    fn prepare(&mut self, alloc: Global, sessions: (u16, u16), commits: u64) -> Result<(), Memory> {
        for session in sessions.0..=sessions.1 {
            let prepared = format!(in alloc; "Prepared {{ parent: {commits} }}")?;
            self.tell(Event::Prepare { session }, prepared)?;
        }
        Ok(())
    }

    /// Each of the sessions is queued.
    fn queue(&mut self, alloc: Global, sessions: (u16, u16)) -> Result<(), Memory> {
        for session in sessions.0..=sessions.1 {
            self.tell(Event::Queue { session }, format!(in alloc; "Done")?)?;
        }
        Ok(())
    }

    /// All are flushed, synced and committed, with these stamps: the first record's gno, and the parent of each.
    fn commit(
        &mut self,
        alloc: Global,
        sessions: (u16, u16),
        stamp: (u64, u64),
    ) -> Result<(), Memory> {
        let (first, parent) = stamp;
        let mut stamps = Vec::new(alloc);
        for session in sessions.0..=sessions.1 {
            let gno = first.wrapping_add(u64::from(session.wrapping_sub(sessions.0)));
            stamps.push((gno, parent))?;
        }
        let last = first.wrapping_add(stamps.len() as u64).wrapping_sub(1);
        let group = format!(in alloc; "{{ first: {first}, last: {last} }}")?;
        self.tell(Event::Flush, format!(in alloc; "from {first} {stamps:?}")?)?;
        self.tell(Event::Sync, format!(in alloc; "Synced {group}")?)?;
        self.tell(Event::Commit, format!(in alloc; "Committed {group}")?)
    }

    /// The records come one by one, and are accepted.
    fn take(&mut self, alloc: Global, first: u64, last: u64) -> Result<(), Memory> {
        for gno in first..=last {
            self.tell(Event::Deliver { gno }, format!(in alloc; "Accepted")?)?;
        }
        Ok(())
    }

    /// The record's job is handed out, finished and committed.
    fn apply(&mut self, alloc: Global, gno: u64) -> Result<(), Memory> {
        self.tell(Event::Dispatch, format!(in alloc; "Job {{ gno: {gno} }}")?)?;
        let finished = format!(in alloc; "Finished {{ gno: {gno} }}")?;
        self.tell(Event::Finish { gno }, finished)?;
        self.tell(Event::Next, format!(in alloc; "Commit {{ gno: {gno} }}")?)
    }
}
