//! A log that is filled, through both sides: the last session, the most changes of a transaction, the widest row, the
//! least and the greatest key, three tables, and all the records that the log may have.

use crate::tests::makers::{LIMIT, SOURCE, columns, insert, row};
use crate::tests::one_thread::Rig;
use published::{Answer, Notice};
use relay::ReplicaFault;
use replica_core::Wire;
use replica_shared::{NoGate, ReplicaNaming};
use rows::{Change, Row};
use schema::RowId;
use source_core::SourceFault;
use source_shared::{Receipt, SessionSeat, SourceNaming};
use std::process::Abort;
use std::sync::Wait;
use std::test::Fail;
use std::thread::{Threads, join};
use tests_stores::{again, common};
use uuid::Uuid;

/// The row of the greatest key, in the table of sixteen columns.
const WIDE: RowId = RowId {
    table: 2,
    key: i64::MAX,
};

/// The row of the least key, in the table of the greatest id.
const LEAST: RowId = RowId {
    table: 256,
    key: i64::MIN,
};

impl<J, K, R> Rig<'_, J, K, R>
where
    J: SourceNaming + Send + Sync,
    K: ReplicaNaming + Send + Sync,
    R: Threads + Wait + Abort + Sync,
{
    /// Session 256 fills the log, and the replica takes it. Returns the source's receipts.
    pub fn fill(&self) -> Result<Vec<Receipt<J>>, Fail> {
        let (rt, source) = (self.rt, self.source);
        let mut seat = source.session(rt, 256)?;
        let receipts = self.commit_all(&mut seat)?;
        self.write_for(&mut seat, LIMIT)?;
        let full = source.commit(rt, &mut seat).err();
        assert_eq!(rt; full, Some(SourceFault::Exhausted));
        let read = source.read(rt, &mut seat, common::row(3, 0));
        assert_eq!(rt; read, Err(SourceFault::NoTable));
        let last = source.record(rt, LIMIT)?.map(|record| record.gno);
        assert_eq!(rt; last, Some(LIMIT));
        source.close(rt);
        self.send_all()?;
        self.apply_all()?;
        Ok(receipts)
    }

    /// Commits all the transactions that the log may have.
    fn commit_all(&self, seat: &mut SessionSeat<J>) -> Result<Vec<Receipt<J>>, Fail> {
        let mut receipts = Vec::new(self.alloc);
        for gno in 1..=LIMIT {
            self.write_for(seat, gno)?;
            let receipt = self.source.commit(self.rt, seat)?;
            assert_eq!(self.rt; receipt.given().gno, gno);
            receipts.push(receipt)?;
        }
        Ok(receipts)
    }

    /// What the transaction of this number writes: rows at both ends; the most rows that it may; the delete of a row;
    /// and then column 15, again and again.
    fn write_for(&self, seat: &mut SessionSeat<J>, gno: u64) -> Result<(), Fail> {
        let (rt, source) = (self.rt, self.source);
        source.begin(rt, seat)?;
        match gno {
            1 => {
                source.write(rt, seat, common::insert(WIDE, &[i64::MIN; 16])?)?;
                source.write(rt, seat, common::insert(LEAST, &[5])?)?;
            }
            2 => self.write_most(seat)?,
            3 => source.write(rt, seat, Change::Delete { row: LEAST })?,
            _ => source.write(rt, seat, common::update(WIDE, 15, gno.cast_signed())?)?,
        }
        source.prepare(rt, seat)?;
        Ok(())
    }

    /// Writes 1024 rows, the first with a key below 0. One more is refused.
    fn write_most(&self, seat: &mut SessionSeat<J>) -> Result<(), Fail> {
        for key in -1..1023 {
            self.source.write(self.rt, seat, insert(key, key, 1))?;
        }
        let more = self.source.write(self.rt, seat, insert(1023, 1023, 1));
        assert_eq!(self.rt; more, Err(SourceFault::TooManyChanges));
        Ok(())
    }

    /// The bytes of the log go to the replica, and it learns that no more come.
    fn send_all(&self) -> Result<(), Fail> {
        let mut wire = Wire::new(self.alloc, Uuid::from_bytes(SOURCE));
        let mut bytes = Vec::with_capacity(self.alloc, 4096)?;
        let mut sent = 0u64;
        for _ in self.rt.forever() {
            bytes.clear();
            let count = self.source.bytes_past(self.rt, sent, &mut bytes)?;
            if count == 0 {
                break;
            }
            assert_eq!(self.rt; self.replica.feed(self.rt, &mut wire, &bytes), Ok(count));
            sent = sent.saturating_add(count);
        }
        assert_eq!(self.rt; sent, LIMIT);
        self.replica.close(self.rt);
        Ok(())
    }

    /// A worker applies it all, while a reader waits for the last commit.
    fn apply_all(&self) -> Result<(), Fail> {
        // If no thread can be made, the second closure is called first.
        let (told, worked) = join(
            self.rt,
            || self.replica.wait_for(self.rt, LIMIT),
            || self.work(),
        );
        worked?;
        self.read_all(told?)
    }

    /// A worker's call, made again if it runs out of memory: otherwise the reader would wait forever.
    fn work(&self) -> Result<(), ReplicaFault> {
        again!(ReplicaFault::Memory => self.replica.worker(self.rt, self.alloc, &NoGate))
    }

    /// What a reader sees of it, once it has the notice.
    fn read_all(&self, told: Notice<K>) -> Result<(), Fail> {
        let mut reader = self.replica.seat(self.rt).ok_or("a seat")?;
        reader.learn(told);
        let mut last = [i64::MIN; 16];
        last[15] = LIMIT.cast_signed();
        for (row, seen) in [
            (WIDE, Row::new(&last)),
            (LEAST, None),
            (row(-1), Some(columns(-1, 1))),
            (row(1022), Some(columns(1022, 1))),
            (row(1023), None),
        ] {
            let want = Answer {
                row: seen,
                upto: LIMIT,
                more: 0,
            };
            assert_eq!(self.rt; reader.read(row), Some(want));
        }
        self.shows_all(LIMIT);
        Ok(())
    }
}
