//! Both sides on one thread, call by call: two sessions whose transactions clash, a replica that gets their records in wrong
//! ways before the right one, and both sides compared in the end. It does the same over a log that is filled (`limits`).

ghost use Rattle.replica_shared.specs.Names.{replica_names, IsNewReplica, OpensReplica};
ghost use Rattle.std.specs.Prelude.{◌≡◌, None};
ghost use Rattle.source_core.specs.Source.{new_source};
ghost use Rattle.log_file.specs.Log.{IsNew};

use crate::tests::makers::{SOURCE, columns, insert, row, set, sides};
use btree_store::BTreeStore;
use commit_order_tracker::CommitOrder;
use log_device::MemoryDevice;
use log_set::LogSet;
use published::{Answer, Counts, LeftRight, open};
use record_codec::Record;
use relay::{Received, ReplicaFault};
use replica_core::ReplicaCore;
use replica_shared::{NoGate, ReplicaNaming, SharedReplica};
use source_core::{Prepared, SourceCore, SourceFault};
use source_shared::{Receipt, SessionSeat, SharedSource, SourceNaming};
use std::alloc::Global;
use std::marker::Brand;
use std::process::Abort;
use std::sync::Wait;
use std::test::Fail;
use std::thread::Threads;
use uuid::Uuid;
use world::{Pair, begins};

pub type Source<J> = SharedSource<BTreeStore, CommitOrder, MemoryDevice, J>;

pub type Replica<K> = SharedReplica<BTreeStore, K>;

/// A source whose records are not taken.
const OTHER: [u8; 16] = [7; 16];

#[test]
fn both_sides_on_one_thread(rt: HostRuntime) -> Result<(), Fail> {
    runs(&rt, rt.alloc(), Course::Clash)
}

/// Catches a call that fails within the bounds of the product, or succeeds beyond them.
#[test]
fn a_log_is_filled(rt: HostRuntime) -> Result<(), Fail> {
    runs(&rt, rt.alloc(), Course::Limits)
}

/// What happens between the opening and the end.
#[derive(Clone, Copy, Drop)]
enum Course {
    /// Two transactions that clash.
    Clash,
    /// All the transactions that the log may have.
    Limits,
}

fn runs<R: Threads + Wait + Abort + Sync>(
    rt: &R,
    alloc: Global,
    course: Course,
) -> Result<(), Fail> {
    let Pair {
        source,
        log,
        replica,
    } = sides(alloc)?;
    let receipts = source_shared::Beginning::new();
    over_source::<Brand, R>(rt, alloc, course, source, log, receipts, replica)
}

/// Opens the source, and compares it with the replica in the end.
fn over_source<J: SourceNaming + Send + Sync, R: Threads + Wait + Abort + Sync>(
    rt: &R,
    alloc: Global,
    course: Course,
    core: SourceCore<BTreeStore, CommitOrder>,
    log: LogSet<MemoryDevice>,
    receipts: source_shared::Beginning,
    replica: ReplicaCore<BTreeStore>,
) -> Result<(), Fail>
    requires core { core ≡ new_source core.tables core.base core.limit core.kind }
    requires log { IsNew log.log }
    requires named { (core.base ≡ J.base) × (core.tables ≡ J.tables) × (receipts ≡ J.book) }
    requires replica { IsNewReplica (replica_names replica) replica.preserve replica }
{
    let source: Source<J> = match SharedSource::new(alloc, core, log, receipts) {
        Ok(source) => source,
        Err(fault) => {
            drop(replica);
            return Err(fault)?;
        }
    };
    let base = match replica.base().copy() {
        Ok(base) => base,
        Err(refused) => {
            drop(source);
            drop(replica);
            return Err(refused)?;
        }
    };
    let publication = published::Beginning::of(base);
    match over_both::<J, Brand, R>(rt, alloc, course, &source, replica, publication) {
        Ok((receipts, core)) => {
            let source = source.end(&receipts);
            let is_beginning = begins(&source, &core) == Some(true);
            drop(source);
            drop(core);
            assert!(rt; is_beginning);
            Ok(())
        }
        Err(fail) => {
            drop(source);
            Err(fail)
        }
    }
}

/// Opens the replica, with one seat. Returns the source's receipts, and the replica's core.
fn over_both<J, K, R>(
    rt: &R,
    alloc: Global,
    course: Course,
    source: &Source<J>,
    core: ReplicaCore<BTreeStore>,
    publication: published::Beginning,
) -> Result<(Vec<Receipt<J>>, ReplicaCore<BTreeStore>), Fail>
where
    J: SourceNaming + Send + Sync,
    K: ReplicaNaming + Send + Sync,
    R: Threads + Wait + Abort + Sync,
    requires replica { OpensReplica K.names K.preserve K.book K.known core publication }
    requires free { K.names.log ≡ None }
{
    let (first, second) = (BTreeStore::new(alloc), BTreeStore::new(alloc));
    let preserve = core.preserve();
    let opened = open::<_, K, R, LeftRight>(rt, alloc, publication, preserve, first, second, 1);
    let (publisher, seats) = match opened {
        Ok(opened) => opened,
        Err(fault) => {
            drop(core);
            return Err(fault)?;
        }
    };
    let replica: Replica<K> = SharedReplica::new(rt, alloc, core, publisher, seats)?;
    let met = Rig {
        rt,
        alloc,
        source,
        replica: &replica,
    }
    .run(course);
    let core = core_of(rt, replica);
    match met {
        Ok(receipts) => Ok((receipts, core)),
        Err(fail) => {
            drop(core);
            Err(fail)
        }
    }
}

/// The core of a replica that has ended.
fn core_of<K: ReplicaNaming, R: Wait>(rt: &R, replica: Replica<K>) -> ReplicaCore<BTreeStore> {
    let (core, publisher) = replica.end();
    drop(publisher.close(rt));
    core
}

/// Both sides.
#[derive(Drop)]
pub struct Rig<'a, J: SourceNaming, K: ReplicaNaming, R: Wait> {
    pub rt: &'a R,
    pub alloc: Global,
    pub source: &'a Source<J>,
    pub replica: &'a Replica<K>,
    /// Nothing is known of the replica's log in advance.
    ghost free: { K.names.log ≡ None },
}

impl<J, K, R> Rig<'_, J, K, R>
where
    J: SourceNaming + Send + Sync,
    K: ReplicaNaming + Send + Sync,
    R: Threads + Wait + Abort + Sync,
{
    /// Returns the source's receipts.
    fn run(&self, course: Course) -> Result<Vec<Receipt<J>>, Fail> {
        match course {
            Course::Clash => self.clash(),
            Course::Limits => self.fill(),
        }
    }

    /// Two transactions that clash.
    fn clash(&self) -> Result<Vec<Receipt<J>>, Fail> {
        let receipts = self.commit_two()?;
        self.apply_two()?;
        Ok(receipts)
    }

    /// Session 2 commits a row that session 1 held, and then session 1 sets a column of it.
    fn commit_two(&self) -> Result<Vec<Receipt<J>>, SourceFault> {
        let mut one = self.source.session(self.rt, 1)?;
        let mut two = self.source.session(self.rt, 2)?;
        self.insert_both(&mut one, &mut two)?;
        let mut receipts = Vec::new(self.alloc);
        receipts.push(self.receipt(&mut two, (2, 1, 0))?)?;
        self.set_one(&mut one)?;
        receipts.push(self.receipt(&mut one, (1, 2, 1))?)?;
        Ok(receipts)
    }

    /// Both insert the row. Session 1 gives it up, and session 2 prepares, and may write no more.
    fn insert_both(
        &self,
        one: &mut SessionSeat<J>,
        two: &mut SessionSeat<J>,
    ) -> Result<(), SourceFault> {
        let (rt, source) = (self.rt, self.source);
        source.begin(rt, one)?;
        source.begin(rt, two)?;
        source.write(rt, one, insert(10, 5, 6))?;
        let locked = source.write(rt, two, insert(10, 5, 6));
        assert_eq!(rt; locked, Err(SourceFault::RowLocked));
        source.abort(rt, one)?;
        source.write(rt, two, insert(10, 5, 6))?;
        assert_eq!(rt; source.prepare(rt, two), Ok(Prepared::Parent(0)));
        let late = source.write(rt, two, insert(11, 1, 1));
        assert_eq!(rt; late, Err(SourceFault::NotActive));
        Ok(())
    }

    /// Session 1 sets column 0, and sees what it did.
    fn set_one(&self, one: &mut SessionSeat<J>) -> Result<(), SourceFault> {
        let (rt, source) = (self.rt, self.source);
        source.begin(rt, one)?;
        source.write(rt, one, set(10, 7))?;
        assert_eq!(rt; source.read(rt, one, row(10)), Ok(Some(columns(7, 6))));
        assert_eq!(rt; source.prepare(rt, one), Ok(Prepared::Parent(1)));
        Ok(())
    }

    /// Commits, with this session, gno and parent.
    fn receipt(
        &self,
        seat: &mut SessionSeat<J>,
        wanted: (u16, u64, u64),
    ) -> Result<Receipt<J>, SourceFault> {
        let receipt = self.source.commit(self.rt, seat)?;
        let given = receipt.given();
        assert_eq!(self.rt; (given.session, given.gno, given.parent), wanted);
        Ok(receipt)
    }

    /// The replica takes the source's two records, and a reader sees them.
    fn apply_two(&self) -> Result<(), Fail> {
        let first = self.source.record(self.rt, 1)?.ok_or("a record")?;
        let second = self.source.record(self.rt, 2)?.ok_or("a record")?;
        self.receive_two(&first, &second)?;
        self.replica.close(self.rt);
        self.replica.worker(self.rt, self.alloc, &NoGate)?;
        self.read_two()
    }

    /// Receives the second too early, the first, and the first again. Then it receives the second from another source,
    /// with a false flag, with a parent that does not cover the first, and as it is.
    fn receive_two(&self, first: &Record, second: &Record) -> Result<(), Fail> {
        let mut lying = second.copy()?;
        lying.parent = 0;
        let mut flagged = second.copy()?;
        flagged.flags.missing_keys = true;
        for (from, record, want) in [
            (SOURCE, second, Err(ReplicaFault::Gap)),
            (SOURCE, first, Ok(Received::Accepted)),
            (SOURCE, first, Ok(Received::Skipped)),
            (OTHER, second, Err(ReplicaFault::ForeignSource)),
            (SOURCE, &flagged, Err(ReplicaFault::Malformed)),
            (SOURCE, &lying, Err(ReplicaFault::BadParent)),
            (SOURCE, second, Ok(Received::Accepted)),
        ] {
            let answer = self
                .replica
                .receive(self.rt, Uuid::from_bytes(from), record);
            assert_eq!(self.rt; answer, want, "record {}", record.gno);
        }
        Ok(())
    }

    /// A reader that learned of commit 2 sees both commits, and so does the status.
    fn read_two(&self) -> Result<(), Fail> {
        let mut reader = self.replica.seat(self.rt).ok_or("a seat")?;
        reader.learn(self.replica.wait_for(self.rt, 2)?);
        let both = Answer {
            row: Some(columns(7, 6)),
            upto: 2,
            more: 0,
        };
        assert_eq!(self.rt; reader.read(row(10)), Some(both));
        self.shows_all(2);
        Ok(())
    }

    /// `count` records are received, committed and published.
    pub fn shows_all(&self, count: u64) {
        let all = Counts {
            received: count,
            committed: count,
            published: count,
        };
        assert_eq!(self.rt; self.replica.status(self.rt), all);
    }
}
