//! The queues of group commit: a session's transaction waits for its flush, then for its sync, then for its commit.
//!
//! A `Stages` has three queues of the sessions 1 to 256, which callers see as three lists (`specs/Queues.antt`). A
//! session enters at the end of the flush queue. All that are in it move on together, as a group. The group moves as a
//! whole to the end of the next queue, in the order in which groups came, and leaves at the front of the commit queue.
//! The type keeps each session in at most one queue, and there only once.
//!
//! So no step in between changes the line of all that wait, the furthest first (`specs/Laws.antt`). The queues are three
//! parts of one list of at most 256 places, and a group moves on as the bound between two parts moves. All room is taken
//! when the queues are made. The crate uses no other.
#![tactic(auto)]

ghost use Rattle.std.specs.Prelude.{◌≡◌, ◌≤◌, ◌<◌, ◌++◌, ◌∷◌, [], nat_lt, if◌then◌else◌, false, length, IfOk};
ghost use Rattle.std.specs.VecDeque.{deque_len, deque_capacity};
ghost use Rattle.commit_stages.specs.Queues.{no_queues, queue_of, is_waiting, queued, flush_taken, oldest_size, sync_taken, commit_taken};
ghost use Rattle.commit_stages.specs.Queues.{IsOrderly};

pub mod laws;

use std::alloc::{AllocError, Global};
use std::collections::VecDeque;
use std::marker::Model;

/// What the sessions of a queue wait for.
#[derive(Clone, Copy, Debug, PartialEq, Eq)]
pub enum Stage {
    /// To become records of the log.
    Flush,
    /// For their records to be synced.
    Sync,
    /// To be committed.
    Commit,
}

/// The number of sessions, which have the numbers 1 to this.
pub const MAX_SESSIONS: u16 = 256;

/// The sessions that wait, each in the queue of its stage.
#[derive(Debug, Drop)]
pub struct Stages {
    /// All that wait, the furthest first: the commit queue, the sync queue, the flush queue. There is room for all.
    line: Vec<u16>,
    /// Where in `line` the sync queue begins.
    sync_from: usize,
    /// Where in `line` the flush queue begins.
    flush_from: usize,
    /// How many sessions each group of the sync queue has, the oldest group first. There is room for all.
    sizes: VecDeque<usize>,
}

impl Model for Stages {
    ghost use Rattle.std.specs.Prelude.{vec_capacity};
    ghost use Rattle.std.specs.VecDeque.{deque_capacity};
    ghost use Rattle.commit_stages.specs.Queues.{Queues};

    ghost Value = { Queues };

    ghost use Rattle.commit_stages.specs.Line.{queues_in, IsLine, AreGroups};

    ghost view = { λ s. queues_in s.line.items s.sync_from s.flush_from s.sizes.items };

    ghost invariant = { λ s. IsLine s.line.items s.sync_from s.flush_from (vec_capacity s.line)
        × AreGroups s.sizes.items s.sync_from s.flush_from (deque_capacity s.sizes) };
}

impl Stages {
    /// Queues in which no session waits. Room for all sessions is taken here, and no other call takes memory.
    pub fn new(alloc: Global) -> Result<Stages, AllocError>
        ensures { IfOk result (λ stages. stages ≡ no_queues) }
    {
        Ok(Stages {
            line: Vec::with_capacity(alloc, MAX_SESSIONS as usize)?,
            sync_from: 0,
            flush_from: 0,
            sizes: VecDeque::with_capacity(alloc, MAX_SESSIONS as usize)?,
        })
    }

    /// The sessions of a stage's queue, in the order in which they came. It takes constant time.
    pub fn look(&self, stage: Stage) -> &[u16]
        ensures queue { result.now ≡ queue_of self.now stage }
        ensures orderly { IsOrderly self.now }
    {
        match stage {
            Stage::Flush => &self.line[self.flush_from..],
            Stage::Sync => &self.line[self.sync_from..self.flush_from],
            Stage::Commit => &self.line[..self.sync_from],
        }
    }

    /// Whether the session is in a queue. The time grows with the number of sessions in the queues.
    pub fn contains(&self, session: u16) -> bool
        ensures { result ≡ is_waiting self.now session }
    {
        self.line.contains(&session)
    }

    /// Puts the session last into the flush queue. It takes constant time, and no memory.
    pub fn queue(&mut self, session: u16)
        requires least { 1 ≤ session }
        requires greatest { session ≤ 256 }
        requires free { is_waiting self.old session ≡ false }
        ensures { self.new ≡ queued self.old session }
    {
        self.line.push(session).unwrap();
    }

    /// Moves the whole flush queue to the end of the sync queue, in its order, as one group, and returns the number of
    /// its sessions. If it is empty, nothing changes. It takes constant time, and no memory.
    pub fn take_flush(&mut self) -> usize
        ensures queues { self.new ≡ flush_taken self.old }
        ensures count { result ≡ length self.old.flush }
    {
        let count = self.line.len() - self.flush_from;
        keep_size(&mut self.sizes, count);
        self.flush_from = self.line.len();
        count
    }

    /// Moves the oldest group of the sync queue to the end of the commit queue, in its order, and returns the number of
    /// its sessions. If there is no group, nothing changes. It takes constant time, and no memory.
    pub fn take_sync(&mut self) -> usize
        ensures queues { self.new ≡ sync_taken self.old }
        ensures count { result ≡ oldest_size self.old }
    {
        let count = self.sizes.pop_front().unwrap_or(0);
        self.sync_from += count;
        count
    }

    /// Empties the commit queue. It moves each session that still waits, 256 at most.
    pub fn take_commit(&mut self)
        ensures { self.new ≡ commit_taken self.old }
    {
        drop(self.line.drain(..self.sync_from));
        self.flush_from -= self.sync_from;
        self.sync_from = 0;
    }
}

/// Keeps the size of a group, for which there is room. Without sessions there is no group.
fn keep_size(sizes: &mut VecDeque<usize>, size: usize)
    requires { 0 < size → deque_len sizes.old < deque_capacity sizes.old }
    ensures sizes { sizes.new.items ≡ sizes.old.items ++ (if nat_lt 0 size then size ∷ [] else []) }
    ensures room { deque_capacity sizes.old ≤ deque_capacity sizes.new }
{
    if size > 0 {
        sizes.push_back(size).unwrap();
    }
}
