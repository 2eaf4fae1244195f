//! The parents that trackers give in worked logs. Each transaction commits before the next one is prepared.

ghost use Rattle.std.specs.Prelude.{◌≡◌, ◌≤◌, true, false, List, [], IsTrue, IfOk, IfSome, is_some};
ghost use Rattle.std.specs.List.{list_all};
ghost use Rattle.schema.specs.declared.Table.{Table as ATable};
ghost use Rattle.schema.specs.Schema.{table_at};
ghost use Rattle.log_index.specs.Footprint.{footprint_of};
ghost use Rattle.tracker_trait.specs.Law.{IsOfTables};
ghost use Rattle.writeset_trackers.specs.Agreement.{IsHistoryOf};
ghost use Rattle.writeset_trackers.specs.Places.{AreLast};

use commit_order_tracker::CommitOrder;
use log_index::{Entry, Footprint, Log, MarkSet, Rows};
use row_locks::MAX_SESSIONS;
use schema::{Mark, Memory, RowId, Schema};
use std::alloc::Global;
use std::process::Abort;
use std::test::Fail;
use tests_stores::again;
use tests_stores::common::{five_tables, unique_tables};
use tracker_trait::Tracker;
use write_set::{WriteSet, digests};
use writeset_trackers::{WriteSetSession, WriteSetTracker};

fn footprint(
    alloc: Global,
    schema: &Schema,
    writes: &[RowId],
    refs: &[RowId],
    marks: &[Mark],
) -> Result<Footprint, Memory>
    ensures { IfOk result (λ t. t ≡ footprint_of schema.now t.writes t.refs t.marks) }
{
    let writes = Rows::new(again!(writes.to_vec(alloc))?);
    let refs = Rows::new(again!(refs.to_vec(alloc))?);
    let marks = MarkSet::new(again!(marks.to_vec(alloc))?);
    Ok(Footprint::new(schema, writes, refs, marks))
}

/// Whether the transaction writes rows of the schema's tables, and refers to rows only if it has the foreign key flag.
fn is_of_tables(schema: &Schema, t: &Footprint) -> bool
    ensures known { IsTrue result → list_all (λ r. is_some (table_at schema.now r.table)) t.now.writes ≡ true }
    ensures refs { IsTrue result → t.now.flags.fk ≡ false → t.now.refs ≡ [] }
{
    are_known(schema, t.writes.list()) && (t.flags.fk || t.refs.list().is_empty())
}

fn are_known(schema: &Schema, rows: &[RowId]) -> bool
    ensures { result ≡ list_all (λ r. is_some (table_at schema.now r.table)) rows.now }
{
    rows.iter().all(|r| schema.table(r.table).is_some())
}

/// Stamps the transaction after the log, which is all committed, and appends it with the parent that is returned.
fn log_next<T: Tracker>(
    _schema: &Schema,
    tracker: &mut T,
    log: &mut Log,
    t: Footprint,
    w: &WriteSet,
    session: u16,
) -> u64
    requires seen { T.agrees tracker.old _schema.now log.old.entries }
    requires tables { IsOfTables _schema.now t w.now }
    requires room { 1 ≤ log.old.room }
    requires least { 1 ≤ session }
    requires greatest { session ≤ MAX_SESSIONS }
    ensures { T.agrees tracker.new _schema.now log.new.entries }
{
    let committed = log.len() as u64;
    let parent = tracker.stamp(log, &t, w, session, committed);
    log.push(Entry {
        sequence: committed + 1,
        parent,
        session,
        footprint: t,
    })
    .unwrap();
    parent
}

/// A transaction: its session, its rows, those that it refers to, its marks, and the parent that it gets.
type Step<'a> = (u16, &'a [RowId], &'a [RowId], &'a [Mark], u64);

/// Gives each transaction its parent, and compares it with the wanted one.
fn follow<T: Tracker>(
    rt: &impl Abort,
    alloc: Global,
    tracker: &mut T,
    schema: &Schema,
    steps: &[Step],
) -> Result<(), Fail>
    requires { T.agrees tracker.old schema.now [] }
{
    let mut log = Log::new();
    for (session, writes, refs, marks, wanted) in steps {
        let t = footprint(alloc, schema, writes, refs, marks)?;
        assert!(rt; is_of_tables(schema, &t));
        assert!(rt; *session >= 1 && *session <= MAX_SESSIONS);
        let w = again!(digests(alloc, schema, &t))?;
        again!(log.reserve(1))?;
        let parent = log_next(schema, tracker, &mut log, t, &w, *session);
        assert_eq!(rt; parent, *wanted, "{writes:?}");
    }
    Ok(())
}

pub(super) fn by_rows(alloc: Global, limit: u32) -> Result<WriteSetTracker, Memory>
    ensures { IfOk result (λ tracker. (ts : List ATable) → IsHistoryOf ts [] tracker) }
{
    again!(WriteSetTracker::with_limit(alloc, limit))
}

pub(super) fn by_session(alloc: Global, limit: u32) -> Result<WriteSetSession, Memory>
    ensures { IfOk result (λ tracker. (ts : List ATable) → IsHistoryOf ts [] tracker.history × AreLast [] tracker.last) }
{
    again!(WriteSetSession::with_limit(alloc, limit))
}

const TEN: RowId = RowId { table: 1, key: 10 };

const ELEVEN: RowId = RowId { table: 1, key: 11 };

const TWELVE: RowId = RowId { table: 1, key: 12 };

const ZERO: RowId = RowId { table: 1, key: 0 };
/// Its digest is that of `ZERO`.
const TWIN: RowId = RowId {
    table: 2,
    key: 844424930131968,
};

const BELOW: RowId = RowId { table: 1, key: -1 };

const THREE: RowId = RowId { table: 1, key: 3 };

const PARENT: RowId = RowId { table: 3, key: 1 };

const CHILD: RowId = RowId { table: 4, key: 9 };

const KEYLESS: RowId = RowId { table: 5, key: 1 };

const OTHER_KEYLESS: RowId = RowId { table: 5, key: 2 };

/// Catches an order tracker whose log is not that of its callers.
#[test]
fn parents_by_commit_order_again(rt: HostRuntime) -> Result<(), Fail> {
    let schema = again!(five_tables(rt.alloc()))?;
    let steps: [Step; 2] = [(1, &[TEN], &[], &[], 0), (1, &[ELEVEN], &[], &[], 1)];
    follow(&rt, rt.alloc(), &mut CommitOrder, &schema, &steps)
}

/// Catches definitions that differ from MySQL's: a history that is emptied one digest too early or too late, is emptied
/// before it is asked, or does not count a digest that it already has. Also: digests of rows by other bits, and a child
/// or a keyless row that no other waits for.
#[test]
fn parents_by_rows_again(rt: HostRuntime) -> Result<(), Fail> {
    let schema = again!(five_tables(rt.alloc()))?;
    let apart: [Step; 2] = [(1, &[TEN], &[], &[], 0), (1, &[ELEVEN], &[], &[], 0)];
    let emptied: [Step; 4] = [
        (1, &[TEN], &[], &[], 0),
        (1, &[ELEVEN], &[], &[], 0),
        (1, &[TWELVE], &[], &[], 0),
        (1, &[TEN], &[], &[], 3),
    ];
    let too_many: [Step; 2] = [
        (1, &[TEN, ELEVEN], &[], &[], 0),
        (1, &[TWELVE], &[], &[], 1),
    ];
    let filled: [Step; 4] = [
        (1, &[TEN], &[], &[], 0),
        (1, &[ELEVEN, TWELVE], &[], &[], 0),
        (1, &[TEN], &[], &[], 1),
        (1, &[ELEVEN], &[], &[], 3),
    ];
    let twins: [Step; 2] = [(1, &[ZERO], &[], &[], 0), (1, &[TWIN], &[], &[], 1)];
    let related: [Step; 3] = [
        (1, &[PARENT], &[], &[], 0),
        (1, &[CHILD], &[PARENT], &[], 1),
        (1, &[TEN], &[], &[], 2),
    ];
    let keyless: [Step; 2] = [
        (1, &[KEYLESS], &[], &[], 0),
        (1, &[OTHER_KEYLESS], &[], &[], 1),
    ];
    let logs: [(u32, &[Step]); 7] = [
        (1000000, &apart),
        (2, &emptied),
        (1, &too_many),
        (3, &filled),
        (25000, &twins),
        (25000, &related),
        (25000, &keyless),
    ];
    for (limit, steps) in logs {
        let mut tracker = by_rows(rt.alloc(), limit)?;
        follow(&rt, rt.alloc(), &mut tracker, &schema, steps)?;
    }
    Ok(())
}

/// Catches a session that is taken for its neighbour, or for the one at the other bound.
#[test]
fn parents_by_session_again(rt: HostRuntime) -> Result<(), Fail> {
    let schema = again!(five_tables(rt.alloc()))?;
    let steps: [Step; 6] = [
        (1, &[TEN], &[], &[], 0),
        (256, &[ELEVEN], &[], &[], 0),
        (1, &[TWELVE], &[], &[], 1),
        (256, &[TEN], &[], &[], 2),
        (2, &[ZERO], &[], &[], 0),
        (1, &[KEYLESS], &[], &[], 5),
    ];
    let mut tracker = by_session(rt.alloc(), 25000)?;
    follow(&rt, rt.alloc(), &mut tracker, &schema, &steps)
}

/// The tracker gives each step its parent, over a schema with unique columns.
fn follow_values<T: Tracker>(
    rt: &(impl Abort + AllocGlobal),
    mut tracker: T,
    steps: &[Step],
) -> Result<(), Fail>
where
    T: Drop,
    requires { (ts : List ATable) → T.agrees tracker ts [] }
{
    let schema = again!(unique_tables(rt.alloc()))?;
    follow(rt, rt.alloc(), &mut tracker, &schema, steps)
}

/// Catches a tracker that does not look at marks: row 11 takes the value that row 10 gave up.
#[test]
fn parents_by_values_again(rt: HostRuntime) -> Result<(), Fail> {
    let five = [Mark::new(1, 5)];
    let freed: [Step; 3] = [
        (1, &[TEN], &[], &five, 0),
        (2, &[TEN], &[], &five, 1),
        (3, &[ELEVEN], &[], &five, 2),
    ];
    follow_values(&rt, CommitOrder, &freed)?;
    follow_values(&rt, by_rows(rt.alloc(), 25000)?, &freed)?;
    follow_values(&rt, by_session(rt.alloc(), 25000)?, &freed)?;
    Ok(())
}

/// Catches a mark that does not share its digest with a row: mark (1, 0) has the digest of row (1, -1).
#[test]
fn parents_by_one_digest_again(rt: HostRuntime) -> Result<(), Fail> {
    let (seven, zero) = ([Mark::new(1, 7)], [Mark::new(1, 0)]);
    let steps: [Step; 2] = [(1, &[BELOW], &[], &seven, 0), (2, &[THREE], &[], &zero, 1)];
    follow_values(&rt, by_rows(rt.alloc(), 25000)?, &steps)
}
