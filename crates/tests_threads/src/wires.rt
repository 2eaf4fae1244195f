//! Bytes of a log that come to a shared replica in pieces, and waits for sets of ids.
ghost use Rattle.std.specs.Prelude.{◌<◌};

use crate::gates::HoldingGate;
use crate::makers::SOURCE;
use crate::replicas::ReplicaRig;
use crate::steps::Step;
use gtid_set::GtidSet;
use record_codec::CodecFault;
use relay::ReplicaFault;
use replica_core::{Wire, WireFault};
use replica_shared::{NoGate, ReplicaNaming};
use schema::Memory;
use std::process::Abort;
use std::sync::Wait;
use std::test::Fail;
use std::thread::{Threads, join};
use std::time::Clock;
use tests_log::common::spelled;
use uuid::Uuid;

/// The identifier of a source that is not the replica's.
const OTHER: u128 = 7;

/// The place of the second record's flags: after the 63 bytes of the first record and 28 bytes of the second.
const FLAGS: usize = 91;

impl<J, R> ReplicaRig<'_, J, R>
where
    J: ReplicaNaming + Send + Sync,
    R: Threads + Wait + Abort + Clock + Sync,
{
    /// The records come in pieces of `width` bytes, and are published.
    pub fn come_in_pieces(&self, width: usize) -> Result<u64, Fail>
        requires { 0 < width }
    {
        let bytes = spelled(self.alloc, self.records)?;
        let mut wire = self.wire();
        for piece in bytes.chunks(width) {
            self.feed_again(&mut wire, piece)?;
        }
        self.all_is_done()
    }

    /// A wire from the source.
    fn wire(&self) -> Wire {
        Wire::new(self.alloc, Uuid::from_u128(SOURCE))
    }

    /// No more records come, a worker does all, and all three are published.
    fn all_is_done(&self) -> Result<u64, Fail> {
        self.shared.close(self.rt);
        self.work(&NoGate)?;
        self.shows(3, [7, 6])
    }

    /// Feeds a piece. If memory runs out, feeds once more what was not taken of it.
    fn feed_again(&self, wire: &mut Wire, piece: &[u8]) -> Result<u64, WireFault> {
        match self.shared.feed(self.rt, wire, piece) {
            Err(WireFault::Codec(CodecFault::Memory) | WireFault::Waiting(ReplicaFault::Memory)) =>
                { self.shared.feed(self.rt, wire, piece) }
            Err(WireFault::Replica(ReplicaFault::Memory)) => {
                self.shared.feed(self.rt, wire, &[])
            }
            told => told,
        }
    }

    /// What `feed` returns for a piece. If memory runs out, that is the outer error.
    fn told(&self, wire: &mut Wire, piece: &[u8]) -> Result<Result<u64, WireFault>, Memory> {
        match self.shared.feed(self.rt, wire, piece) {
            Err(
                WireFault::Codec(CodecFault::Memory)
                | WireFault::Replica(ReplicaFault::Memory)
                | WireFault::Waiting(ReplicaFault::Memory),
            ) => Err(Memory),
            told => Ok(told),
        }
    }

    /// The second record comes damaged, and then intact.
    pub fn are_damaged(&self) -> Result<u64, Fail> {
        let mut bytes = spelled(self.alloc, self.records)?;
        let mut wire = self.wire();
        let fault = WireFault::Codec(CodecFault::BadFlags);
        for (flags, wanted, received) in [(0x80, Err(fault), 0), (0, Ok(3), 3)] {
            *bytes.get_mut(FLAGS).ok_or("flags")? = flags;
            assert_eq!(self.rt; self.told(&mut wire, &bytes)?, wanted);
            assert_eq!(self.rt; self.shared.status(self.rt).received, received);
        }
        self.all_is_done()
    }

    /// The first record comes last, and not over the wire. Meanwhile four bytes come over the wire that are not a record.
    pub fn are_kept_waiting(&self) -> Result<u64, Fail> {
        let (first, rest) = self.records.split_first().ok_or("a record")?;
        let bytes = spelled(self.alloc, rest)?;
        let mut wire = self.wire();
        for (piece, fault) in [
            (bytes.as_slice(), WireFault::Replica(ReplicaFault::Gap)),
            (&[0; 4], WireFault::Waiting(ReplicaFault::Gap)),
        ] {
            assert_eq!(self.rt; self.told(&mut wire, piece)?, Err(fault));
            assert_eq!(self.rt; wire.waiting().len(), 2);
        }
        self.receive(first)?;
        assert_eq!(self.rt; self.told(&mut wire, &[])?, Ok(2));
        self.all_is_done()
    }

    /// Two workers sleep when the bytes of the first two records come in one piece. The second record is executed while
    /// the first is held.
    pub fn wake_workers(&self) -> Result<u64, Fail> {
        let (_, two) = self.records.split_last().ok_or("a record")?;
        let bytes = spelled(self.alloc, two)?;
        let gate = HoldingGate::new(2);
        let ((one, two), shown) = join(
            self.rt,
            || join(self.rt, || self.work(&gate), || self.work(&gate)),
            || self.show_asleep(&bytes, &gate),
        );
        if !shown? {
            Err(Memory)?;
        }
        gate.met()?;
        one?;
        two?;
        self.shows(2, [5, 6])
    }

    /// Feeds the bytes once two workers sleep, and waits until both records are published. Whatever comes of that, it
    /// then closes the replica and opens the gate. Returns whether both are published.
    fn show_asleep(&self, bytes: &[u8], gate: &HoldingGate) -> Result<bool, Memory> {
        let in_time = self.sleep_all(2, 0);
        let told = self.told(&mut self.wire(), bytes);
        let shown = in_time && told == Ok(Ok(2)) && self.shown(2).is_ok();
        self.shared.close(self.rt);
        gate.open();
        told?.map_err(|_| Memory)?;
        Ok(shown)
    }

    /// Waits for no id, for an id of another source, and then for the first two ids.
    pub fn sets_are_shown(&self) -> Result<u64, Fail> {
        let two = GtidSet::first(self.alloc, Uuid::from_u128(SOURCE), 2)?;
        let other = GtidSet::first(self.alloc, Uuid::from_u128(OTHER), 1)?;
        let foreign = Err(ReplicaFault::ForeignSource);
        assert_eq!(self.rt; self.set_shown(&GtidSet::new(self.alloc)), Ok(0));
        assert_eq!(self.rt; self.set_shown(&other), foreign);
        self.feed(&[Step::Take(1, 3)])?;
        self.work(&NoGate)?;
        self.shared.wait_for(self.rt, 2)?;
        assert_eq!(self.rt; self.set_shown(&two), Ok(3));
        assert_eq!(self.rt; self.set_shown(&other), foreign);
        self.shows(3, [7, 6])
    }

    /// How many commits are published once those of all ids of the set are.
    fn set_shown(&self, set: &GtidSet) -> Result<u64, ReplicaFault> {
        self.shared
            .wait_for_set(self.rt, set)
            .map(|notice| notice.upto())
    }
}
