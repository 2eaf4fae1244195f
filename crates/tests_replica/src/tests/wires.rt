//! A wire with its replica: what each result makes of the waiting records and of a piece.

use crate::tests::makers::{Replica, insert_of, replica};
use record_codec::{CodecFault, Version, encode};
use relay::ReplicaFault;
use replica_core::{Wire, WireFault};
use schema::Memory;
use std::alloc::Global;
use std::process::Abort;
use std::test::Fail;
use tests_log::common::{source, spelled};

/// What is taken, and what comes of it.
#[derive(Clone, Copy, Debug)]
struct Case {
    /// The numbers of the records that wait.
    waiting: &'static [u64],
    /// The numbers of the piece's records, and the bytes after them in the piece.
    piece: &'static [u64],
    behind: &'static [u8],
    answer: Result<u64, WireFault>,
    /// The numbers of the records that are accepted by then.
    accepted: &'static [u64],
    /// How many wait then.
    left: usize,
}

fn cases() -> [Case; 5] {
    let all = Case {
        waiting: &[1, 2],
        piece: &[3],
        behind: &[],
        answer: Ok(3),
        accepted: &[1, 2, 3],
        left: 0,
    };
    [
        all,
        // Skipped records are counted too.
        Case {
            waiting: &[1, 1, 2],
            piece: &[2, 3],
            answer: Ok(5),
            ..all
        },
        // If a piece has a fault, nothing of it is taken, but the waiting records are.
        Case {
            behind: &[0; 4],
            answer: Err(WireFault::Codec(CodecFault::BadLength)),
            accepted: &[1, 2],
            ..all
        },
        // A refused record waits, and so do those after it.
        Case {
            piece: &[3, 5, 6],
            answer: Err(WireFault::Replica(ReplicaFault::Gap)),
            left: 2,
            ..all
        },
        // If a waiting record is refused again, the piece is not looked at.
        Case {
            waiting: &[1, 3, 4],
            piece: &[2],
            answer: Err(WireFault::Waiting(ReplicaFault::Gap)),
            accepted: &[1],
            left: 2,
            ..all
        },
    ]
}

/// The bytes of the inserts of these numbers.
fn bytes_of(alloc: Global, numbers: &[u64]) -> Result<Vec<u8>, Memory> {
    let mut bytes = Vec::new(alloc);
    for gno in numbers {
        let new = insert_of(alloc, *gno, gno.cast_signed())?;
        encode(Version::current(), &new, &mut bytes)?;
    }
    Ok(bytes)
}

/// A wire over which these bytes came. Their records wait.
fn wire_of(alloc: Global, bytes: &[u8]) -> Result<Wire, CodecFault> {
    let mut wire = Wire::new(alloc, source());
    wire.gather(bytes)?;
    Ok(wire)
}

fn take(wire: &mut Wire, replica: &mut Replica, piece: &[u8]) -> Result<u64, WireFault> {
    wire.take(replica, piece)
}

fn accepted(rt: &(impl Abort + AllocGlobal), replica: &Replica) -> Result<Vec<u8>, Memory> {
    assert!(rt; replica.keeps());
    spelled(rt.alloc(), replica.accepted())
}

/// The piece is taken like this, after the waiting records.
fn is_taken(
    rt: &(impl Abort + AllocGlobal),
    replica: &mut Replica,
    case: &Case,
) -> Result<(), Fail> {
    let mut wire = wire_of(rt.alloc(), &bytes_of(rt.alloc(), case.waiting)?)?;
    let mut piece = bytes_of(rt.alloc(), case.piece)?;
    piece.extend_from_slice(case.behind)?;
    assert_eq!(rt; take(&mut wire, replica, &piece), case.answer, "{case:?}");
    assert_eq!(rt; wire.waiting().len(), case.left, "{case:?}");
    let wanted = bytes_of(rt.alloc(), case.accepted)?;
    assert!(rt;
        accepted(rt, replica)?.as_slice() == wanted.as_slice(),
        "{case:?}"
    );
    Ok(())
}

/// Catches waiting records that are not counted, dropped, passed over, or kept from a piece; a piece that is taken in
/// part; a false out of memory if records wait.
#[test]
fn pieces_come_behind_records_that_wait(rt: HostRuntime) -> Result<(), Fail> {
    for case in cases() {
        let mut replica = replica(rt.alloc(), 1)?;
        is_taken(&rt, &mut replica, &case)?;
    }
    Ok(())
}
