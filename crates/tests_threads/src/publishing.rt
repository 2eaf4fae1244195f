//! Publication: what a seat, a watch and a plain store show, and what threads see that publish and read side by side.
ghost use Rattle.std.specs.Prelude.{◌≡◌, ◌≤◌, true, None, IfOk};

use crate::desk::{Desk, LAST};
use crate::makers::{ONE, answer, commit, set_to};
use btree_store::BTreeStore;
use published::plain::Plain;
use published::{Answer, Beginning, Counts, Naming, Notice, OpenError, ReadSeat, Status};
use schema::Memory;
use std::alloc::Global;
use std::marker::Brand;
use std::process::Abort;
use std::sync::{Mutex, Wait};
use std::test::Fail;
use std::thread::{Threads, join};
use tests_stores::again;

/// Catches a call that gives up although there is memory, after a refusal, or if some number of commits wait.
#[test]
fn plain_publishes_again(rt: HostRuntime) -> Result<(), Fail> {
    let alloc = rt.alloc();
    let mut plain = match plain_of_base(alloc) {
        Ok(plain) => plain,
        Err(_) => plain_of_base(alloc)?,
    };
    for upto in [0, 1, 3, 303] {
        plain_again(&rt, alloc, &mut plain, upto)?;
    }
    Ok(())
}

/// A plain store with only the base, which keeps the order of the log.
fn plain_of_base(alloc: Global) -> Result<Plain<BTreeStore>, Memory>
    ensures { IfOk result (λ plain. (plain.preserve ≡ true) × (plain.more ≡ 0)) }
{
    Plain::new(alloc, BTreeStore::new(alloc), set_to(alloc, 0)?, true)
}

/// Publishes the commits up to this one.
fn plain_again(
    rt: &impl Abort,
    alloc: Global,
    plain: &mut Plain<BTreeStore>,
    upto: u16,
) -> Result<(), Memory>
    requires { (plain.old.preserve ≡ true) × (plain.old.more ≡ 0) }
    ensures { (plain.new.preserve ≡ true) × (plain.new.more ≡ 0) }
{
    if append_upto(alloc, plain, upto).is_err() {
        append_upto(alloc, plain, upto)?;
    }
    if plain.publish().is_err() {
        plain.publish()?;
    }
    assert_eq!(rt; plain.read(ONE), in_order(upto as u64));
    Ok(())
}

fn append_upto(alloc: Global, plain: &mut Plain<BTreeStore>, last: u16) -> Result<(), Memory>
    requires { (plain.old.preserve ≡ true) × (plain.old.more ≡ 0) }
    ensures { (plain.new.preserve ≡ true) × (plain.new.more ≡ 0) }
{
    let first = plain.appended().checked_add(1).ok_or(Memory)?;
    for gno in first..last as u64 + 1 {
        plain.append(&commit(alloc, gno)?)?;
    }
    Ok(())
}

/// What is read of the row `ONE` once `upto` commits are published in the order of the log.
fn in_order(upto: u64) -> Answer {
    answer(&[upto.cast_signed()], upto, 0)
}

const SOME: Counts = Counts {
    received: 3,
    committed: 2,
    published: 1,
};

const MORE: Counts = Counts {
    received: 3,
    committed: 3,
    published: 2,
};

/// Catches a watch that is refused although there is memory, and one that shows for ever what was stored when it was
/// made.
#[test]
fn watches_are_made_again(rt: HostRuntime) -> Result<(), Fail> {
    let mut status = again!(Status::new(rt.alloc()))?;
    status.store(&rt, SOME);
    let mut watch = again!(status.watch())?;
    assert_eq!(rt; watch.load(&rt), SOME);
    status.store(&rt, MORE);
    assert_eq!(rt; watch.load(&rt), MORE);
    Ok(())
}

/// What is done with a publisher and its seats.
#[derive(Clone, Copy, Drop)]
enum Course {
    /// 32 seats read, the most that there can be, beside refused calls.
    Seats,
    /// The second commit is published before the first.
    Gap,
    /// All other commits come before the first.
    WideGap,
    /// Two threads publish, and two read.
    Beside,
}

impl Course {
    /// Whether the order of the log is kept, the gno of the first commit, and the number of seats.
    fn row(self) -> (bool, u64, usize)
        ensures first { result.0 ≡ true → result.1 ≡ 1 }
        ensures seats { (1 ≤ result.2) × (result.2 ≤ 32) }
    {
        match self {
            Course::Seats => (true, 1, 32),
            Course::Gap => (false, 2, 1),
            Course::WideGap => (false, LAST, 1),
            Course::Beside => (true, 1, 3),
        }
    }
}

/// Catches a seat that is refused, or reads nothing, while the publisher is there. Also a publisher that gives up for
/// good once memory ran out, or if some number of commits wait.
#[test]
fn seats_read_again(rt: HostRuntime) -> Result<(), Fail> {
    runs(&rt, rt.alloc(), Course::Seats)
}

/// Catches a commit ahead of a gap that is refused for good, counted twice if memory ran out, or shown as if there were
/// no gap. Also a gap that stays open, and a publisher that gives up for good once memory ran out.
#[test]
fn a_seat_sees_a_gap_close_again(rt: HostRuntime) -> Result<(), Fail> {
    runs(&rt, rt.alloc(), Course::Gap)
}

/// Catches numbers ahead of a gap that the low-water mark does not pass at once, or that get lost if there are many.
#[test]
fn a_gap_closes_below_4095_numbers(rt: HostRuntime) -> Result<(), Fail> {
    runs(&rt, rt.alloc(), Course::WideGap)
}

/// Catches a number of commits that falls, or is below what the seat has learnt, and a row that is not that of its
/// number. Also a commit that is lost or a publisher that gives up if two threads have it in turn, and a seat that shows
/// what it read thousands of commits before.
#[test]
fn two_publish_beside_two_seats(rt: HostRuntime) -> Result<(), Fail> {
    runs(&rt, rt.alloc(), Course::Beside)
}

fn runs<R: Threads + Wait + Abort + Sync>(
    rt: &R,
    alloc: Global,
    course: Course,
) -> Result<(), Fail> {
    if !has_run(rt, alloc, course)? && !has_run(rt, alloc, course)? {
        Err("twice no memory")?;
    }
    Ok(())
}

/// Whether there was memory for the publisher and its seats.
fn has_run<R: Threads + Wait + Abort + Sync>(
    rt: &R,
    alloc: Global,
    course: Course,
) -> Result<bool, Fail> {
    let Ok(base) = set_to(alloc, 0) else {
        return Ok(false);
    };
    let (preserve, next, seats) = course.row();
    run_over::<Brand, R>(
        rt,
        alloc,
        course,
        Beginning::of(base),
        preserve,
        next,
        seats,
    )
}

fn run_over<J: Naming + Send + Sync, R: Threads + Wait + Abort + Sync>(
    rt: &R,
    alloc: Global,
    course: Course,
    beginning: Beginning,
    preserve: bool,
    next: u64,
    seats: usize,
) -> Result<bool, Fail>
    requires book { beginning.book ≡ J.book }
    requires order { J.preserve ≡ preserve }
    requires free { J.known ≡ None }
    requires first { preserve ≡ true → next ≡ 1 }
    requires seats { (1 ≤ seats) × (seats ≤ 32) }
{
    let (desk, seats) = match Desk::<J, R>::open(rt, alloc, beginning, preserve, next, seats) {
        Ok(opened) => opened,
        Err(cause) => {
            assert_eq!(rt; cause, OpenError::Memory);
            return Ok(false);
        }
    };
    match course {
        Course::Seats => seats_see(rt, alloc, desk, seats)?,
        Course::Gap | Course::WideGap => a_gap_closes(rt, alloc, desk, seats, next)?,
        Course::Beside => all_see(rt, alloc, desk, seats)?,
    }
    Ok(true)
}

/// Commits are published, and after a refused call one more or none.
fn seats_see<J: Naming, R: Wait + Abort>(
    rt: &R,
    alloc: Global,
    mut desk: Desk<'_, J, R>,
    mut seats: Vec<ReadSeat<BTreeStore, J>>,
) -> Result<(), Memory> {
    assert_eq!(rt; seats.len(), 32);
    for (count, more) in [(1, 0), (2, 1), (1, 0), (300, 1)] {
        publish_seen(rt, alloc, &mut desk, &mut seats, count, more)?;
    }
    Ok(())
}

/// Publishes `count` commits. If that is refused, publishes them with `more` others.
fn publish_seen<J: Naming, R: Wait + Abort>(
    rt: &R,
    alloc: Global,
    desk: &mut Desk<'_, J, R>,
    seats: &mut [ReadSeat<BTreeStore, J>],
    count: u64,
    more: u64,
) -> Result<(), Memory> {
    desk.append_again(alloc, count)?;
    all_read(rt, desk, seats);
    if desk.publish().is_err() {
        all_read(rt, desk, seats);
        desk.publish_again(alloc, more)?;
    }
    all_read(rt, desk, seats);
    Ok(())
}

/// Checks that each seat reads the row as the published commits leave it, also once it has learnt which these are.
fn all_read<J: Naming, R: Wait + Abort>(
    rt: &R,
    desk: &Desk<'_, J, R>,
    seats: &mut [ReadSeat<BTreeStore, J>],
) {
    let upto = desk.tell().upto();
    for seat in seats {
        assert_eq!(rt; seat.read(ONE), Some(in_order(upto)));
        assert_eq!(rt; read_on(rt, seat, desk.tell(), upto), upto);
    }
}

/// Checks what a seat reads once it has learnt this notice, after it has seen `seen` commits. Returns how many commits it
/// sees.
fn read_on<J: Naming>(
    rt: &impl Abort,
    seat: &mut ReadSeat<BTreeStore, J>,
    notice: Notice<J>,
    seen: u64,
) -> u64 {
    let floor = notice.upto().max(seen);
    seat.learn(notice);
    let found = seat.read(ONE).expect(rt, "the publisher is there");
    assert!(rt; found.upto >= floor, "{} falls below {floor}", found.upto);
    assert_eq!(rt; found, in_order(found.upto));
    found.upto
}

/// Publishes the commits from this one down to the second, and then the first.
fn a_gap_closes<J: Naming, R: Wait + Abort>(
    rt: &R,
    alloc: Global,
    mut desk: Desk<'_, J, R>,
    mut seats: Vec<ReadSeat<BTreeStore, J>>,
    last: u64,
) -> Result<(), Fail> {
    let mut seat = seats.pop().ok_or("a seat")?;
    let ahead = last.saturating_sub(1);
    assert_eq!(rt; desk.publish_again(alloc, ahead)?, ahead);
    assert_eq!(rt; seat.read(ONE), Some(answer(&[2], 0, ahead)));
    assert_eq!(rt; desk.publish_again(alloc, 1)?, last);
    assert_eq!(rt; seat.read(ONE), Some(answer(&[1], last, 0)));
    Ok(())
}

/// Two threads publish beside two that read; a third seat reads before and after that.
fn all_see<J: Naming + Send + Sync, R: Threads + Wait + Abort + Sync>(
    rt: &R,
    alloc: Global,
    desk: Desk<'_, J, R>,
    mut seats: Vec<ReadSeat<BTreeStore, J>>,
) -> Result<(), Fail> {
    let (Some(one), Some(two), Some(mut idle)) = (seats.pop(), seats.pop(), seats.pop()) else {
        return Err("three seats")?;
    };
    let desk = Mutex::new(desk);
    assert_eq!(rt; idle.read(ONE), Some(in_order(0)));
    // (If no thread can be made, the readers come last.)
    join(
        rt,
        || join(rt, || follow(rt, &desk, one), || follow(rt, &desk, two)),
        || join(
            rt,
            || publish_all(rt, alloc, &desk),
            || publish_all(rt, alloc, &desk),
        ),
    );
    assert_eq!(rt; idle.read(ONE), Some(in_order(LAST)));
    Ok(())
}

/// Publishes commit by commit, until all are published.
fn publish_all<J: Naming, R: Wait>(rt: &R, alloc: Global, desk: &Mutex<Desk<'_, J, R>>) {
    for _ in 0..LAST {
        if desk.lock(rt).publish_again(alloc, 1).is_err() {
            return;
        }
    }
}

/// Reads until all is published.
fn follow<J: Naming, R: Wait + Abort>(
    rt: &R,
    desk: &Mutex<Desk<'_, J, R>>,
    mut seat: ReadSeat<BTreeStore, J>,
) {
    let mut seen = 0;
    for _ in rt.forever() {
        let notice = desk.lock(rt).tell();
        seen = read_on(rt, &mut seat, notice, seen);
        if seen == LAST {
            return;
        }
    }
}
