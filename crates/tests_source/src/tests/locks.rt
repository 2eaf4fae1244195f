//! Which locks clash, how many there may be, and that a refused call may be made again.

use row_locks::{LockFault, LockTable, MAX_SESSIONS, Mode};
use schema::{Mark, Memory, RowId};
use std::alloc::Global;
use std::test::Fail;
use tests_stores::again;
use tests_stores::common::{boxed, row};

/// A table without locks.
fn new_table(alloc: Global) -> Result<Box<LockTable>, Memory> {
    Ok(boxed(alloc, LockTable::new(alloc)?)?)
}

/// Catches a definition of clashes that swaps the two modes, or forgets whose a lock is.
#[test]
fn two_clash_unless_both_share(rt: HostRuntime) -> Result<(), Fail> {
    let mut locks = new_table(rt.alloc())?;
    let (shared, own) = (row(1, 10), row(2, 10));
    locks.take(1, &[(shared, Mode::Share), (own, Mode::Exclusive)])?;
    for (session, asked, mode, clashes) in [
        (256, shared, Mode::Share, false),
        (256, shared, Mode::Exclusive, true),
        (256, own, Mode::Share, true),
        (256, row(1, 11), Mode::Exclusive, false),
        (1, shared, Mode::Exclusive, false),
        (1, own, Mode::Share, false),
    ] {
        assert_eq!(rt;
            locks.clashes(session, asked, mode),
            clashes,
            "{session} {mode:?}"
        );
    }
    Ok(())
}

/// Catches a `take_all` that takes some locks although one clashes, or that mixes up the locks of rows and marks, and
/// marks that outlive their session.
#[test]
fn values_are_locked_with_their_rows(rt: HostRuntime) -> Result<(), Fail> {
    let mut locks = new_table(rt.alloc())?;
    let (five, six) = (Mark::new(1, 5), Mark::new(1, 6));
    let (first, second) = (
        [(row(1, 10), Mode::Exclusive)],
        [(row(1, 11), Mode::Exclusive)],
    );
    locks.take_all(1, &first, &[five])?;
    assert_eq!(rt;
        locks.take_all(256, &second, &[six, five]),
        Err(LockFault::Clash)
    );
    assert_eq!(rt; locks.take_all(256, &first, &[six]), Err(LockFault::Clash));
    for (session, mark, clashes) in [
        (2, five, true),
        (1, five, false),
        (2, six, false),
        (2, Mark::new(2, 5), false),
        (2, Mark::new(1, 10), false),
    ] {
        assert_eq!(rt;
            locks.clashes_mark(session, mark),
            clashes,
            "{session} {mark:?}"
        );
    }
    assert!(rt; !locks.clashes(2, row(1, 11), Mode::Share));
    assert!(rt; !locks.clashes(2, row(1, 5), Mode::Exclusive));
    locks.take_all(1, &second, &[five, six])?;
    locks.release_all(1);
    locks.take_all(256, &second, &[six, five])?;
    Ok(())
}

/// The rows of a transaction with 1024 changes and 2048 refs.
fn longest_list(alloc: Global) -> Result<Vec<(RowId, Mode)>, Fail> {
    let mut list = again!(Vec::with_capacity(alloc, 3072))?;
    for key in 0..3072 {
        let mode = if key < 1024 {
            Mode::Exclusive
        } else {
            Mode::Share
        };
        list.push((row(1, key), mode))?;
    }
    Ok(list)
}

/// All the values of unique columns that 1024 changes may have.
fn most_marks(alloc: Global) -> Result<Vec<Mark>, Fail> {
    let mut list = again!(Vec::with_capacity(alloc, 2048))?;
    for value in 0..2048 {
        list.push(Mark::new(1, value))?;
    }
    Ok(list)
}

/// Catches a `take_all` that fails at long lists, or for good once memory ran out.
#[test]
fn the_longest_lists_are_taken_again(rt: HostRuntime) -> Result<(), Fail> {
    let mut locks = again!(new_table(rt.alloc()))?;
    let (list, marks) = (longest_list(rt.alloc())?, most_marks(rt.alloc())?);
    again!(locks.take_all(256, &list, &marks))?;
    assert_eq!(rt; again!(locks.take(1, &list)), Err(LockFault::Clash));
    assert_eq!(rt;
        again!(locks.take_all(1, &[], &marks)),
        Err(LockFault::Clash)
    );
    locks.release_all(256);
    again!(locks.take_all(1, &list, &marks))?;
    Ok(())
}

/// Catches a `take` that fails if many sessions hold the row.
#[test]
fn all_sessions_share_a_row_again(rt: HostRuntime) -> Result<(), Fail> {
    let mut locks = again!(new_table(rt.alloc()))?;
    let shared = [(row(256, i64::MIN), Mode::Share)];
    for session in 1..=MAX_SESSIONS {
        again!(locks.take(session, &shared))?;
    }
    Ok(())
}

/// Catches a wrong text: no clause fixes the texts.
#[test]
fn texts_of_lock_faults(rt: HostRuntime) -> Result<(), Fail> {
    for (fault, text) in [
        (LockFault::Clash, "a row is locked"),
        (LockFault::Memory, "no memory"),
    ] {
        let said = format!(in rt.alloc(); "{fault}")?;
        assert_eq!(rt; said.as_str(), text);
    }
    Ok(())
}
