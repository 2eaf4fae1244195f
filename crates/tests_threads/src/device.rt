//! A device in memory that follows orders: syncs take a while, a call is held, and writes run out of memory.

use log_device::{Device, DeviceFault, MemoryDevice};
use std::sync::atomic::{AtomicBool, AtomicU64, Ordering};
use std::thread::{sleep, yield_now};
use std::time::{Clock, Duration};

/// How many milliseconds a thread waits for another one to get there.
pub const PATIENCE: u32 = 3000;

/// How often a thread that holds others up lets them run, at most.
const TURNS: u32 = 1_000_000;

/// Which call of the device is held until it is freed, or until the turns end.
#[derive(Clone, Copy, Drop)]
pub enum Hold {
    None,
    /// The sync of this number, counted from 1.
    Sync(u64),
    /// A write that runs out of memory.
    Refusal,
}

/// The orders for the device, and what it reports.
#[derive(Drop)]
pub struct Orders<'r, R: Clock> {
    rt: &'r R,
    /// How many more writes past the end run out of memory.
    pub refusals: AtomicU64,
    /// How many milliseconds a sync takes.
    pub millis: AtomicU64,
    held: Hold,
    /// How often the device was synced.
    syncs: AtomicU64,
    /// The device is in the call that is held.
    pub entered: AtomicBool,
    /// The held call may go on.
    pub freed: AtomicBool,
    /// The held call went on before it was freed.
    pub is_late: AtomicBool,
}

impl<'r, R: Clock> Orders<'r, R> {
    pub fn new(rt: &'r R, millis: u64, held: Hold) -> Orders<'r, R> {
        Orders {
            rt,
            refusals: AtomicU64::new(0),
            millis: AtomicU64::new(millis),
            held,
            syncs: AtomicU64::new(0),
            entered: AtomicBool::new(false),
            freed: AtomicBool::new(false),
            is_late: AtomicBool::new(false),
        }
    }

    /// How many groups were synced. A group takes two syncs, and a new log one.
    pub fn groups(&self) -> u64 {
        self.syncs.load(Ordering::SeqCst) / 2
    }

    /// Whether the next write runs out of memory. It is held if the orders say so.
    fn refuses(&self) -> bool {
        let left = self.refusals.load(Ordering::SeqCst);
        self.refusals
            .store(left.saturating_sub(1), Ordering::SeqCst);
        if left > 0 && matches!(self.held, Hold::Refusal) {
            self.hold();
        }
        left > 0
    }

    /// A sync.
    fn syncs(&self) {
        let before = self.syncs.fetch_add(1, Ordering::SeqCst);
        let millis = self.millis.load(Ordering::SeqCst);
        if millis > 0 {
            sleep(self.rt, Duration::from_millis(millis));
        }
        if matches!(self.held, Hold::Sync(number) if before.wrapping_add(1) == number) {
            self.hold();
        }
    }

    /// Frees the device, late enough for the waiting sessions to fall asleep.
    pub fn free_soon(&self) {
        sleep(self.rt, Duration::from_millis(20));
        self.freed.store(true, Ordering::SeqCst);
    }

    fn hold(&self) {
        self.entered.store(true, Ordering::SeqCst);
        if !comes_in_turns(&self.freed) {
            self.is_late.store(true, Ordering::SeqCst);
        }
    }
}

/// Whether the flag is set within `PATIENCE` milliseconds.
pub fn comes(clock: &impl Clock, flag: &AtomicBool) -> bool {
    for _ in 0..PATIENCE {
        if flag.load(Ordering::SeqCst) {
            return true;
        }
        sleep(clock, Duration::from_millis(1));
    }
    false
}

/// Whether the flag is set before the turns end. In each turn another thread may run.
pub fn comes_in_turns(flag: &AtomicBool) -> bool {
    for _ in 0..TURNS {
        if flag.load(Ordering::SeqCst) {
            return true;
        }
        yield_now();
    }
    false
}

/// A device that follows orders.
#[derive(Drop)]
pub struct Ordered<'a, D: Device, R: Clock> {
    pub inner: D,
    pub orders: &'a Orders<'a, R>,
}

impl<'a, D: Device, R: Clock> Device for Ordered<'a, D, R> {
    ghost seen = { λ d. D.seen d.inner };

    ghost faults = { λ d. D.faults d.inner };

    ghost may_leave = { λ d left. D.may_leave d.inner left };

    ghost moment = { λ d. D.moment d.inner };

    ghost left_since = { λ d t left. D.left_since d.inner t left };

    ghost counts_now = { λ d t left earlier now. D.counts_now d.inner t left earlier now };

    ghost only_now = { λ d left since. D.only_now d.inner left since };

    fn len(&self) -> u64 {
        self.inner.len()
    }

    fn failures(&self) -> u64 {
        self.inner.failures()
    }

    fn read(&mut self, at: u64, out: &mut [u8]) -> Result<usize, DeviceFault> {
        self.inner.read(at, out)
    }

    fn write_at(&mut self, at: u64, bytes: &[u8]) -> Result<(), DeviceFault> {
        let end = at.saturating_add(bytes.len() as u64);
        let may_lack = self.inner.len() < end && self.inner.failures() < u64::MAX;
        if may_lack && self.orders.refuses() {
            return Err(DeviceFault::Memory);
        }
        self.inner.write_at(at, bytes)
    }

    fn cut(&mut self, len: u64) -> Result<(), DeviceFault> {
        self.inner.cut(len)
    }

    fn sync(&mut self) -> Result<(), DeviceFault> {
        self.orders.syncs();
        self.inner.sync()
    }
}

/// A device in memory that follows orders.
pub type InMemory<'a, R> = Ordered<'a, MemoryDevice, R>;
