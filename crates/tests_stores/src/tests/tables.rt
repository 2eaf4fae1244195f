//! Schemas, and the texts of faults.

use crate::again;
use crate::common::is_told;
use crate::tests::makers::table;
use rows::ChangeFault;
use schema::{Memory, Schema, SchemaFault, Table};
use std::alloc::Global;
use std::test::Fail;

fn fault(alloc: Global, tables: &[Table]) -> Result<Option<SchemaFault>, Memory> {
    Ok(Schema::new(Vec::from_slice(alloc, tables)?).err())
}

/// Catches a wrong rule for parents or unique columns, and faults that are reported in another order.
#[test]
fn first_fault_of_a_list(rt: HostRuntime) -> Result<(), Fail> {
    let (top, child) = (table(1, None), table(3, Some(1)));
    let (own_parent, no_table) = (table(2, Some(2)), table(257, None));
    let mut narrow = child;
    narrow.columns = 15;
    let (last, outside) = (top.with_unique(15), top.with_unique(16));
    let mut keyless = last;
    keyless.keyed = false;
    let cases: [(&[Table], Option<SchemaFault>); 11] = [
        (&[child, top], None),
        (&[child], Some(SchemaFault::Parent)),
        (&[top, narrow], Some(SchemaFault::Parent)),
        (&[top, own_parent, no_table], Some(SchemaFault::Parent)),
        (&[no_table, own_parent, top], Some(SchemaFault::Id)),
        (&[child.with_unique(15), last], None),
        (&[outside], Some(SchemaFault::Unique)),
        (&[top.with_unique(255)], Some(SchemaFault::Unique)),
        (&[keyless], Some(SchemaFault::Unique)),
        (&[own_parent.with_unique(16)], Some(SchemaFault::Parent)),
        (&[outside, no_table], Some(SchemaFault::Unique)),
    ];
    for (tables, want) in cases {
        assert_eq!(rt; fault(rt.alloc(), tables)?, want, "{tables:?}");
    }
    Ok(())
}

fn tables_to(alloc: Global, last: u16) -> Result<Vec<Table>, Memory> {
    let mut tables = Vec::new(alloc);
    for id in 1..=last {
        tables.push(table(id, None))?;
    }
    Ok(tables)
}

/// Catches a copy that gives up, at the greatest number of tables or after memory ran out once.
#[test]
fn most_tables_are_copied_again(rt: HostRuntime) -> Result<(), Fail> {
    let tables = again!(tables_to(rt.alloc(), 256))?;
    let schema = Schema::new(tables)?;
    let copy = again!(schema.copy())?;
    assert_eq!(rt; copy.tables().len(), 256);
    assert_eq!(rt; copy.tables(), schema.tables());
    Ok(())
}

/// Catches another text: no contract says what is printed.
#[test]
fn faults_are_told_by_number_and_name(rt: HostRuntime) -> Result<(), Fail> {
    assert!(rt; is_told(rt.alloc(), &SchemaFault::Count, "B1 Count")?);
    assert!(rt; is_told(rt.alloc(), &SchemaFault::Id, "B2 Id")?);
    assert!(rt; is_told(rt.alloc(), &SchemaFault::Columns, "B3 Columns")?);
    assert!(rt; is_told(rt.alloc(), &SchemaFault::Twice, "B4 Twice")?);
    assert!(rt; is_told(rt.alloc(), &SchemaFault::Parent, "B5 Parent")?);
    assert!(rt; is_told(rt.alloc(), &SchemaFault::Memory, "B6 Memory")?);
    assert!(rt; is_told(rt.alloc(), &SchemaFault::Unique, "B7 Unique")?);
    assert!(rt; is_told(rt.alloc(), &ChangeFault::Present, "F1 Present")?);
    assert!(rt; is_told(rt.alloc(), &ChangeFault::Absent, "F2 Absent")?);
    assert!(rt; is_told(rt.alloc(), &ChangeFault::Columns, "F3 Columns")?);
    assert!(rt; is_told(rt.alloc(), &Memory, "no memory")?);
    Ok(())
}
