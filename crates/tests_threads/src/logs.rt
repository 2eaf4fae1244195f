//! The log of a shared source: how it goes on in next files, between commits and beside them, and if the next file can't
//! be made. Also the threads that follow it.

use crate::device::{Ordered, PATIENCE, comes};
use crate::held::waits;
use crate::makers::{insert, set};
use crate::sources::{Disk, SourceRig};
use log_device::{FaultyDevice, MemoryDevice};
use record_codec::{CodecFault, Record, Version, decode, same_records};
use schema::Memory;
use source_core::SourceFault;
use source_shared::{SourceNaming, Waits};
use std::process::Abort;
use std::sync::Wait;
use std::sync::atomic::Ordering;
use std::test::Fail;
use std::thread::{Threads, join, sleep};
use std::time::{Clock, Duration};
use tests_stores::again;

/// How often the two followers look, for three records and the end: each once when it begins to wait, and once when it is
/// woken.
const LOOKS: u64 = 16;

impl<'d, J, R> SourceRig<'_, 'd, J, R>
where
    J: SourceNaming + Send + Sync,
    R: Threads + Wait + Abort + Clock + Sync,
{
    /// A device for a next file. Its call number `nth` fails, counted from 1, or none if that is 0.
    fn next_disk(&self, nth: u64) -> Disk<'d, R> {
        let device = Ordered {
            inner: MemoryDevice::new(self.alloc),
            orders: self.orders,
        };
        FaultyDevice::new(device, nth)
    }

    /// Rotates, once more if memory runs out, and returns how many files there are.
    pub fn rotate(&self) -> Result<u64, SourceFault> {
        again!(SourceFault::Memory => self.source.rotate(self.rt, self.next_disk(0)))
    }

    /// Two sessions commit, and the log goes on in a next file after each commit.
    pub fn rotate_between(&self) -> Result<usize, Fail> {
        let (rt, source) = (self.rt, self.source);
        let mut one = source.session(rt, 1)?;
        let mut two = source.session(rt, 2)?;
        self.transact(&mut one, &insert(10, [5, 6])?)?;
        assert_eq!(rt; self.rotate(), Ok(2));
        self.transact(&mut two, &set(10, 7)?)?;
        assert_eq!(rt; self.rotate(), Ok(3));
        let receipts = self.receipts.lock(rt);
        let mut stamps = [(0, 0); 2];
        for (stamp, receipt) in stamps.iter_mut().zip(receipts.iter()) {
            *stamp = (receipt.given().sequence, receipt.given().parent);
        }
        assert_eq!(rt; stamps, [(1, 0), (2, 1)]);
        Ok(2)
    }

    /// Four threads commit ten times each, and the log goes on in three next files meanwhile.
    pub fn rotate_beside(&self) -> Result<usize, Fail> {
        let (committed, rotated) = join(
            self.rt,
            || self.commit_beside(0, 4, 10),
            || self.rotate_thrice(),
        );
        let committed = committed?;
        assert_eq!(self.rt; rotated?, [2, 3, 4]);
        Ok(committed)
    }

    fn rotate_thrice(&self) -> Result<[u64; 3], SourceFault> {
        let mut numbers = [0; 3];
        for number in numbers.iter_mut() {
            *number = self.rotate()?;
        }
        Ok(numbers)
    }

    /// Memory runs out for the next file, and the source goes on as before. Then a next file's device fails, which halts
    /// the source.
    pub fn rotate_in_vain(&self) -> Result<usize, Fail> {
        let (rt, source) = (self.rt, self.source);
        let mut one = source.session(rt, 1)?;
        self.transact(&mut one, &insert(10, [5, 6])?)?;
        self.orders.refusals.store(1, Ordering::SeqCst);
        let refused = source.rotate(rt, self.next_disk(0));
        self.orders.refusals.store(0, Ordering::SeqCst);
        assert_eq!(rt; refused, Err(SourceFault::Memory));
        let second = self.transact(&mut one, &set(10, 7)?)?;
        assert_eq!(rt; second.1, 2);
        assert_eq!(rt; self.rotate(), Ok(2));
        let failed = again!(SourceFault::Memory => source.rotate(rt, self.next_disk(1)));
        assert_eq!(rt; failed, Err(SourceFault::Halted));
        assert_eq!(rt; source.begin(rt, &mut one), Err(SourceFault::Halted));
        assert_eq!(rt;
            source.rotate(rt, self.next_disk(0)),
            Err(SourceFault::Halted)
        );
        Ok(2)
    }

    /// The first session's group is held, and the next session sleeps, while two threads wait to rotate. Each of these
    /// looks once when it begins to wait, and once more.
    pub fn rotate_twice(&self) -> Result<usize, Fail> {
        // (If no thread can be made, the second closure is called first: so it has what the first one waits for.)
        let ((one, two), (in_time, (second, first))) = join(
            self.rt,
            || join(self.rt, || self.rotate_behind(), || self.rotate_behind()),
            || join(
                self.rt,
                || self.free_behind(waits(1, 0, 2)),
                || join(
                    self.rt,
                    || self.commit_one_behind(1, 2),
                    || self.commit_one(1),
                ),
            ),
        );
        first?;
        second?;
        let (one, two) = (one?, two?);
        assert_eq!(self.rt; [one.min(two), one.max(two)], [2, 3]);
        if !in_time || self.source.looks(self.rt).rotators != 4 {
            // A thread that ran out of memory looks again.
            Err(Memory)?;
        }
        Ok(2)
    }

    /// Rotates once the device is held. Fails with `Memory` if it is not held in time.
    fn rotate_behind(&self) -> Result<u64, SourceFault> {
        if !comes(self.rt, &self.orders.entered) {
            return Err(SourceFault::Memory);
        }
        self.rotate()
    }

    /// Frees the device once this number of calls sleep, and returns whether they do in time.
    fn free_behind(&self, wanted: Waits) -> bool {
        let in_time = self.sleep_all(wanted);
        self.orders.freed.store(true, Ordering::SeqCst);
        in_time
    }

    /// Whether the two followers have looked `looks` times, and sleep, before the patience ends.
    pub fn two_follow(&self, looks: u64) -> bool {
        for _ in 0..PATIENCE {
            if self.source.looks(self.rt).followers >= looks {
                return self.sleep_all(waits(0, 2, 0));
            }
            sleep(self.rt, Duration::from_millis(1));
        }
        false
    }

    /// A session commits three times while two other threads follow the log from 0 on, until no more records come.
    pub fn is_followed(&self) -> Result<usize, Fail> {
        // (If no thread can be made, the second closure is called first: so it has what the first one waits for.)
        let ((one, other), committed) = join(
            self.rt,
            || join(self.rt, || self.follow(), || self.follow()),
            || self.commit_three(),
        );
        committed?;
        let (one, other) = (one?, other?);
        if self.source.looks(self.rt).followers != LOOKS {
            // A thread that ran out of memory looks again.
            Err(Memory)?;
        }
        self.are_bytes(one, 3)?;
        self.are_bytes(other, 3)?;
        Ok(3)
    }

    /// Commits three inserts, and closes the source, whatever came of them. The followers sleep each time before.
    fn commit_three(&self) -> Result<(), SourceFault> {
        let done = self.commit_up_to(3);
        self.two_follow(LOOKS - 2);
        self.source.close(self.rt);
        done
    }

    /// Inserts the rows from 1 to `last`, one commit each, once two followers sleep that have all earlier records. Fails
    /// with `Memory` if they don't in time.
    fn commit_up_to(&self, last: i64) -> Result<(), SourceFault> {
        let mut seat = self.source.session(self.rt, 7)?;
        let mut looks = 2u64;
        for key in 1..=last {
            if !self.two_follow(looks) {
                return Err(SourceFault::Memory);
            }
            looks = looks.saturating_add(4);
            self.transact(&mut seat, &insert(key, [key, 0])?)?;
        }
        Ok(())
    }

    /// The bytes of all records, from the first on, once no more come.
    pub fn follow(&self) -> Result<Vec<u8>, SourceFault> {
        let mut bytes = Vec::new(self.alloc);
        let mut followed = 0u64;
        for _ in self.rt.forever() {
            let count = self.come(followed, &mut bytes)?;
            if count == 0 {
                break;
            }
            followed = followed.saturating_add(count);
        }
        Ok(bytes)
    }

    /// How many records come after this one. A call that runs out of memory is made once more.
    fn come(&self, gno: u64, bytes: &mut Vec<u8>) -> Result<u64, SourceFault> {
        again!(SourceFault::Memory => self.source.bytes_past(self.rt, gno, bytes))
    }

    /// Checks that the bytes are those of the source's `count` records. No bytes come after these, or after the greatest
    /// gno.
    pub fn are_bytes(&self, mut bytes: Vec<u8>, count: u64) -> Result<(), Fail> {
        let len = bytes.len();
        for gno in [count, u64::MAX] {
            let more = self.source.bytes_past(self.rt, gno, &mut bytes);
            assert_eq!(self.rt; more, Ok(0));
        }
        assert_eq!(self.rt; bytes.len(), len);
        let mut rest = &bytes[..];
        for gno in 1..=count {
            let (made, taken) = self.read(rest)?;
            assert!(self.rt; self.is_kept(gno, &made)?, "gno {gno}");
            rest = rest.get(taken..).unwrap_or(&[]);
        }
        assert!(self.rt; rest.is_empty(), "bytes behind the last record");
        self.fill_the_room(bytes, count)
    }

    /// Checks that one call gives the bytes of all records if there is room for them, and of all but the last if one byte
    /// is missing.
    fn fill_the_room(&self, mut bytes: Vec<u8>, count: u64) -> Result<(), Fail> {
        let len = bytes.len();
        for missing in [0, 1] {
            bytes.clear();
            for _ in len.saturating_sub(missing)..bytes.capacity() {
                bytes.push(0)?;
            }
            let taken = count.saturating_sub(missing as u64);
            let came = self.source.bytes_past(self.rt, 0, &mut bytes);
            assert_eq!(self.rt; came, Ok(taken));
        }
        Ok(())
    }

    /// The first record of the bytes and its length. If memory runs out, it is read once more.
    fn read(&self, bytes: &[u8]) -> Result<(Record, usize), CodecFault> {
        again!(CodecFault::Memory => decode(self.alloc, Version::current(), bytes))
    }

    /// Whether the source has this record of this gno.
    fn is_kept(&self, gno: u64, made: &Record) -> Result<bool, SourceFault> {
        let kept = again!(SourceFault::Memory => self.source.record(self.rt, gno))?;
        Ok(kept.is_some_and(|kept| same_records(&kept, made)))
    }
}
