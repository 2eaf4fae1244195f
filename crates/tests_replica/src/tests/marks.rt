//! The low-water mark of transactions that are committed out of turn, and the places of those past it.

use scheduler::{AHEAD, Scheduler};
use std::process::Abort;

/// Commits the transaction of this number, which is past the mark and has a place.
fn commit(rt: &impl Abort, scheduler: &mut Scheduler, gno: u64) {
    let low = scheduler.low_water();
    let is_near = low < gno && gno - low <= 4096;
    assert!(rt; is_near, "{gno} behind {low}");
    scheduler.committed(gno);
}

/// Commits the transactions from the first number up to the last.
fn commit_all(rt: &impl Abort, scheduler: &mut Scheduler, first: u64, last: u64) {
    for gno in first..=last {
        commit(rt, scheduler, gno);
    }
}

/// Whether records of these numbers and parents may be executed.
fn eligible(scheduler: &Scheduler, records: [(u64, u64); 2]) -> [bool; 2] {
    records.map(|(gno, parent)| scheduler.eligible(gno, parent))
}

/// Whether the transactions of these numbers are committed.
fn committed(scheduler: &Scheduler, gnos: [u64; 2]) -> [bool; 2] {
    gnos.map(|gno| scheduler.is_committed(gno))
}

/// Catches a definition by which the mark counts commits, or passes over a gap.
#[test]
fn a_gap_holds_the_mark(rt: HostRuntime) {
    let mut scheduler = Scheduler::new();
    assert_eq!(rt; eligible(&scheduler, [(1, 0), (2, 1)]), [true, false]);
    commit(&rt, &mut scheduler, 2);
    commit(&rt, &mut scheduler, 3);
    commit(&rt, &mut scheduler, 5);
    assert_eq!(rt; scheduler.low_water(), 0);
    assert_eq!(rt; eligible(&scheduler, [(6, 0), (6, 2)]), [true, false]);
    commit(&rt, &mut scheduler, 1);
    assert_eq!(rt; scheduler.low_water(), 3);
    assert_eq!(rt; eligible(&scheduler, [(6, 3), (6, 4)]), [true, false]);
    commit(&rt, &mut scheduler, 4);
    assert_eq!(rt; scheduler.low_water(), 5);
}

/// Catches a definition with a place too few or too many, or one by which a commit also counts for another number with
/// the same place.
#[test]
fn there_are_4096_places(rt: HostRuntime) {
    assert_eq!(rt; AHEAD, 4096);
    let mut scheduler = Scheduler::new();
    assert_eq!(rt; eligible(&scheduler, [(4096, 0), (4097, 0)]), [true, false]);
    commit(&rt, &mut scheduler, 4096);
    assert_eq!(rt; committed(&scheduler, [4096, 8192]), [true, false]);
    commit(&rt, &mut scheduler, 1);
    assert_eq!(rt; eligible(&scheduler, [(4097, 1), (4098, 1)]), [true, false]);
    commit(&rt, &mut scheduler, 4097);
    assert_eq!(rt; committed(&scheduler, [4097, 2]), [true, false]);
    assert_eq!(rt; scheduler.low_water(), 1);
}

/// Catches a mark that stays at a gap that closed, or places that stay taken once the mark has passed them.
#[test]
fn the_mark_passes_4095_at_once(rt: HostRuntime) {
    let mut scheduler = Scheduler::new();
    commit_all(&rt, &mut scheduler, 2, 4096);
    assert_eq!(rt; scheduler.low_water(), 0);
    commit(&rt, &mut scheduler, 1);
    assert_eq!(rt; scheduler.low_water(), 4096);
    assert_eq!(rt; committed(&scheduler, [4097, 8192]), [false, false]);
    assert_eq!(rt;
        eligible(&scheduler, [(8192, 4096), (8193, 4096)]),
        [true, false]
    );
}
