//! What histories of written rows return to a tracker that goes over a log.

ghost use Rattle.std.specs.Prelude.{◌+◌, ◌<◌, ◌^◌, IfOk};
ghost use Rattle.writeset_history.specs.History.{IsUpTo};

use std::alloc::{AllocError, Global};
use std::process::Abort;
use std::test::Fail;
use tests_stores::again;
use writeset_history::History;

fn new_history(alloc: Global, limit: u32) -> Result<History, AllocError>
    ensures { IfOk result (λ history. IsUpTo history 0) }
{
    again!(History::with_limit(alloc, limit))
}

/// Touches the digests with the number after `before`. Returns the last number that had touched one of them, or the start.
fn touch(history: &mut History, digests: &[u64], before: u64) -> u64
    requires up_to { IsUpTo history.old before }
    requires fits { before + 1 < 2 ^ 64 }
    ensures { IsUpTo history.new (before + 1) }
{
    let mut last = history.start();
    for digest in digests {
        last = last.max(history.look(*digest));
    }
    if history.has_room(digests.len()) {
        history.enter(digests, before + 1);
    } else {
        history.empty_at(before + 1);
    }
    last
}

/// A transaction: its digests, and then the number that touched one of them last, and the start and the number of
/// digests after it.
type Touched<'a> = (&'a [u64], u64, u64, usize);

/// Goes over the transactions with a new history, and compares.
fn follow(rt: &impl Abort, history: &mut History, log: &[Touched]) -> Result<(), Fail>
    requires { IsUpTo history.old 0 }
{
    for (before, (digests, last, start, len)) in log.iter().enumerate() {
        let found = touch(history, digests, before as u64);
        assert_eq!(rt; found, *last, "behind {before}");
        assert_eq!(rt;
            (history.start(), history.len()),
            (*start, *len),
            "behind {before}"
        );
    }
    Ok(())
}

/// Catches a history that forgets by the union of both sets, keeps what a raised start forgot, or counts a digest twice, and
/// a probe that ends too early. In the third log, the slots 14, 15 and 0 of 16 are the homes of two, five and one digest.
#[test]
fn worked_logs_again(rt: HostRuntime) -> Result<(), Fail> {
    let tight: [Touched; 4] = [
        (&[10], 0, 0, 1),
        (&[11], 0, 0, 2),
        (&[12], 0, 3, 0),
        (&[10], 3, 3, 1),
    ];
    let tightest: [Touched; 6] = [
        (&[10, 11], 0, 1, 0),
        (&[12], 1, 1, 1),
        (&[10, 11], 1, 3, 0),
        (&[10, 11], 3, 4, 0),
        (&[12], 4, 4, 1),
        (&[12], 5, 6, 0),
    ];
    let crowded: [Touched; 13] = [
        (&[49], 0, 0, 1),
        (&[61, 66], 0, 0, 3),
        (&[88], 0, 0, 4),
        (&[3], 0, 0, 5),
        (&[61], 2, 0, 5),
        (&[91], 0, 0, 6),
        (&[17, 66], 2, 0, 7),
        (&[35], 0, 0, 8),
        (&[3, 61], 5, 9, 0),
        (&[91], 9, 9, 1),
        (&[3, 17, 35, 49, 61, 66, 88, 91], 10, 11, 0),
        (&[3, 17, 35, 49, 61, 66, 88, 91], 11, 11, 8),
        (&[88], 12, 13, 0),
    ];
    let logs: [(u32, &[Touched]); 4] = [
        (2, &tight),
        (1, &tightest),
        (8, &crowded),
        (1000000, &[(&[0], 0, 0, 1), (&[0], 1, 0, 1)]),
    ];
    for (limit, log) in logs {
        let mut history = new_history(rt.alloc(), limit)?;
        follow(&rt, &mut history, log)?;
    }
    Ok(())
}
