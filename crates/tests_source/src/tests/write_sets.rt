//! Worked digests, and the largest write set that a transaction may make.

use log_index::{Footprint, MarkSet, Rows};
use schema::{Mark, Memory, RowId};
use std::alloc::Global;
use std::test::Fail;
use tests_stores::again;
use tests_stores::common::{five_tables, row};
use write_set::{WriteSet, digests};

/// A copy of the write set of these rows and marks. Table 5 is keyless.
fn set_of(alloc: Global, rows: Vec<RowId>, marks: Vec<Mark>) -> Result<WriteSet, Memory> {
    let schema = again!(five_tables(alloc))?;
    let (writes, refs) = (Rows::new(rows), Rows::new(Vec::new(alloc)));
    let footprint = Footprint::new(&schema, writes, refs, MarkSet::new(marks));
    let set = again!(digests(alloc, &schema, &footprint))?;
    again!(set.copy())
}

/// Catches a definition of digests by other bits of the key or of the table's id, one that orders them by their sign,
/// and one that includes rows of a keyless or an unknown table.
#[test]
fn worked_digests_again(rt: HostRuntime) -> Result<(), Fail> {
    let rows = [
        row(1, -1),
        row(2, 844424930131968),
        row(5, 7),
        row(1, 10),
        row(1, 0),
        row(6, 7),
        row(1, -1),
    ];
    let set = set_of(
        rt.alloc(),
        again!(rows.to_vec(rt.alloc()))?,
        Vec::new(rt.alloc()),
    )?;
    let rising = [0x0001000000000000, 0x000100000000000a, 0xfffeffffffffffff];
    assert_eq!(rt; set.digests(), rising.as_slice());
    Ok(())
}

/// Catches a mark's digest that is not the complement of its row's, and a digest that is there twice because a row and
/// a mark share it.
#[test]
fn worked_digests_of_marks_again(rt: HostRuntime) -> Result<(), Fail> {
    let marks = [
        Mark::new(2, -7),
        Mark::new(1, 0),
        Mark::new(256, i64::MIN),
        Mark::new(1, 0),
    ];
    let cases: [(&[RowId], &[u64]); 2] = [
        (
            &[row(1, 3)],
            &[
                0x0001000000000003,
                0x0002000000000006,
                0x7effffffffffffff,
                0xfffeffffffffffff,
            ],
        ),
        (
            &[row(1, -1)],
            &[0x0002000000000006, 0x7effffffffffffff, 0xfffeffffffffffff],
        ),
    ];
    for (rows, rising) in cases {
        let rows = again!(rows.to_vec(rt.alloc()))?;
        let set = set_of(rt.alloc(), rows, again!(marks.to_vec(rt.alloc()))?)?;
        assert_eq!(rt; set.digests(), rising);
    }
    Ok(())
}

/// Catches a write set that is refused for its size.
#[test]
fn the_greatest_set_again(rt: HostRuntime) -> Result<(), Fail> {
    let mut rows = again!(Vec::with_capacity(rt.alloc(), 1024))?;
    let mut marks = again!(Vec::with_capacity(rt.alloc(), 2048))?;
    for key in (0..1024).rev() {
        rows.push(row(2, key))?;
        marks.push(Mark::new(2, key))?;
        marks.push(Mark::new(3, key))?;
    }
    let set = set_of(rt.alloc(), rows, marks)?;
    assert_eq!(rt; set.len(), 3072);
    assert_eq!(rt; set.digests().first(), Some(&0x0002000000000000));
    assert_eq!(rt; set.digests().last(), Some(&0xfffdffffffffffff));
    Ok(())
}
