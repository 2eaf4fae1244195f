//! The memory of executed jobs, kept for later ones.

use crate::Job;
use overlay::Pending;
use std::alloc::Global;
use vector_store::VectorStore;

/// The most changes of a job whose room is kept. So a room takes about ten kilobytes at most, and no job pays for the
/// length of an earlier one.
const MOST_CHANGES: usize = 16;

/// The most rows in such a job's input: each change has its own row, and may look at two parents.
const MOST_ROWS: usize = 3 * MOST_CHANGES;

/// What the execution of a job needs beside the job: the rows of its input in a separate store, what its changes leave
/// of them, the parent rows that they look at, and their marks. A caller that executes many jobs keeps one room from
/// job to job (`execute_in`). Only the memory of the job before is used again, so no result depends on that job.
#[derive(Debug, Drop)]
pub struct Room {
    pub(crate) rows: VectorStore,
    pub(crate) pending: Pending,
    pub(crate) alloc: Global,
}

impl Room {
    /// A room in which no job was executed yet. It takes no memory; jobs take what they need beyond what is there.
    pub fn new(alloc: Global) -> Room {
        Room {
            rows: VectorStore::new(alloc),
            pending: Pending::new(alloc),
            alloc,
        }
    }

    /// Keeps the memory after this job, or gives it back if the job had many changes or rows. It takes none.
    pub(crate) fn keep_behind(&mut self, job: &Job) {
        if job.rec.changes.list().len() > MOST_CHANGES || job.input.entries().len() > MOST_ROWS {
            *self = Room::new(self.alloc);
        }
    }
}
