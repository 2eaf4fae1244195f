//! Sets of ids: fixed texts, and ids that are added.

use crate::common::source;
use gtid_set::{GtidFault, GtidSet};
use schema::Gtid;
use std::alloc::{AllocError, Global};
use std::test::Fail;
use tests_stores::again;
use tests_stores::common::boxed;
use uuid::Uuid;

/// The identifier of `source`, as text.
const NAME: &str = "6d747200-0000-4000-8000-000000000001";

/// The text of the set that this text is parsed as, or of the fault.
fn told(alloc: Global, text: &str) -> Result<String, AllocError> {
    let read = again!(GtidFault::Memory => GtidSet::parse(alloc, text));
    match read {
        Ok(set) => again!(format!(in alloc; "{set}")),
        Err(fault) => again!(format!(in alloc; "{fault}")),
    }
}

/// Catches a misread beginning of a text: an identifier in another form that is taken, or a good one that is refused.
#[test]
fn texts_begin_with_an_identifier_again(rt: HostRuntime) -> Result<(), Fail> {
    for (text, wanted) in [
        ("", ""),
        (
            "6D747200-0000-4000-8000-00000000000A:2",
            "6d747200-0000-4000-8000-00000000000a:2",
        ),
        (NAME, "G3 BadInterval"),
        ("6d747200-0000-4000-8000-000000000001;1", "G3 BadInterval"),
        ("6d747200-0000-4000-8000-00000000001", "G1 BadUuid"),
        ("6d747200-0000-4000-8000-00000000000x:1", "G1 BadUuid"),
        ("6d747200000040008000000000000001:1", "G1 BadUuid"),
        ("{6d747200-0000-4000-8000-000000000001}:1", "G1 BadUuid"),
        ("6d747200-0000-4000-8000-00000000000\u{e9}:1", "G1 BadUuid"),
        (" ", "G1 BadUuid"),
    ] {
        assert_eq!(rt; told(rt.alloc(), text)?.as_str(), wanted, "{text}");
    }
    Ok(())
}

/// Catches an interval that is taken although it is not one, a fault that is not the first, or intervals that are not joined.
#[test]
fn intervals_are_read_again(rt: HostRuntime) -> Result<(), Fail> {
    for (list, wanted) in [
        (":1-5:7", ":1-5:7"),
        (":7:1-5", ":1-5:7"),
        (":4-4:4", ":4"),
        (":3-9:1-4:30:11-20:10:5-6", ":1-20:30"),
        (":1-2:3", ":1-3"),
        (":1-2:4", ":1-2:4"),
        (
            ":9223372036854775807:1-9223372036854775806",
            ":1-9223372036854775807",
        ),
        (":", "G2 BadNumber"),
        ("::1", "G2 BadNumber"),
        (":1:", "G2 BadNumber"),
        (":1-", "G2 BadNumber"),
        (":-1", "G2 BadNumber"),
        (":1-2-3", "G2 BadNumber"),
        (":01", "G2 BadNumber"),
        (":0", "G2 BadNumber"),
        (":+1", "G2 BadNumber"),
        (": 1", "G2 BadNumber"),
        (":1 ", "G2 BadNumber"),
        (":1 -2", "G2 BadNumber"),
        (":9223372036854775808", "G2 BadNumber"),
        (":18446744073709551617", "G2 BadNumber"),
        (":5-3", "G3 BadInterval"),
        (":5-3:x", "G3 BadInterval"),
        (":x:5-3", "G2 BadNumber"),
    ] {
        let text = again!(format!(in rt.alloc(); "{NAME}{list}"))?;
        let answer = told(rt.alloc(), text.as_str())?;
        let seen = answer
            .as_str()
            .strip_prefix(NAME)
            .unwrap_or(answer.as_str());
        assert_eq!(rt; seen, wanted, "{list}");
    }
    Ok(())
}

/// Catches an id that is reported as new although it is not, one that is put beside the interval that it extends, or
/// one that fails to join two intervals.
#[test]
fn ids_are_put_in_again(rt: HostRuntime) -> Result<(), Fail> {
    let mut set = boxed(rt.alloc(), GtidSet::new(rt.alloc()))?;
    assert!(rt; set.is_empty() && set.source().is_none());
    for (gno, new, wanted) in [
        (7, true, ":7"),
        (2, true, ":2:7"),
        (3, true, ":2-3:7"),
        (6, true, ":2-3:6-7"),
        (6, false, ":2-3:6-7"),
        (4, true, ":2-4:6-7"),
        (5, true, ":2-7"),
        (9, true, ":2-7:9"),
        (1, true, ":1-7:9"),
        (
            9_223_372_036_854_775_807,
            true,
            ":1-7:9:9223372036854775807",
        ),
    ] {
        let id = Gtid {
            source: source(),
            gno,
        };
        assert_eq!(rt; set.contains(id), !new, "{gno}");
        assert_eq!(rt; again!(set.add(id))?, new, "{gno}");
        assert!(rt; set.contains(id), "{gno}");
        let text = again!(format!(in rt.alloc(); "{set}"))?;
        assert_eq!(rt;
            text.as_str().strip_prefix(NAME).unwrap_or(""),
            wanted,
            "{gno}"
        );
    }
    assert_eq!(rt; set.intervals().len(), 3);
    Ok(())
}

/// Catches ids from 1 on that are refused if the last one has many digits, or a set that is one id short.
#[test]
fn first_ids_are_made_again(rt: HostRuntime) -> Result<(), Fail> {
    for (last, wanted) in [
        (1, ":1"),
        (4_294_967_297, ":1-4294967297"),
        (9_223_372_036_854_775_807, ":1-9223372036854775807"),
    ] {
        let set = again!(GtidSet::first(rt.alloc(), source(), last))?;
        let text = again!(format!(in rt.alloc(); "{set}"))?;
        assert_eq!(rt; text.as_str().strip_prefix(NAME).unwrap_or(""), wanted);
    }
    Ok(())
}

/// Catches the wrong refusal, or one that changes the set.
#[test]
fn ids_are_refused(rt: HostRuntime) -> Result<(), Fail> {
    let mut set = GtidSet::parse(rt.alloc(), "6d747200-0000-4000-8000-000000000001:1-5:7")?;
    let other = Uuid::from_u128(1);
    for (source, gno, wanted) in [
        (source(), 0, GtidFault::BadNumber),
        (source(), 9_223_372_036_854_775_808, GtidFault::BadNumber),
        (other, 0, GtidFault::BadNumber),
        (other, 6, GtidFault::ForeignSource),
    ] {
        let id = Gtid { source, gno };
        assert!(rt; set.add(id) == Err(wanted), "{gno}");
        assert!(rt; !set.contains(id), "{gno}");
    }
    assert!(rt;
        !set.contains(Gtid {
            source: other,
            gno: 5
        })
    );
    assert_eq!(rt;
        format!(in rt.alloc(); "{set}")?.as_str(),
        "6d747200-0000-4000-8000-000000000001:1-5:7"
    );
    Ok(())
}

/// Catches a set that is refused once it has more intervals than 16 bits can count.
#[test]
fn more_intervals_than_65536(rt: HostRuntime) -> Result<(), Fail> {
    let mut set = GtidSet::new(rt.alloc());
    for number in 1..=66_000u64 {
        let id = Gtid {
            source: source(),
            gno: number.saturating_mul(2),
        };
        assert_eq!(rt; set.add(id)?, true);
    }
    assert_eq!(rt; set.intervals().len(), 66_000);
    let text = format!(in rt.alloc(); "{set}")?;
    let read = GtidSet::parse(rt.alloc(), text.as_str())?;
    assert_eq!(rt; read.intervals().len(), 66_000);
    Ok(())
}
