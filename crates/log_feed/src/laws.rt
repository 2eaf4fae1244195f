//! What follows from the definitions. Each function states a law by its contract, and does nothing.

ghost use Rattle.log_feed.specs.Laws.{OneHead, CutAnywhere, TwoProcesses};

/// Bytes begin with at most one head: what is read is what was written.
pub fn one_head()
    ensures { OneHead }
{}

/// Wherever what was written is cut, a prefix of it is read. If it ends within the head, `read_head` reports that.
/// Otherwise it has the head, the first of the records, and then less than one more, which a stream of records keeps as
/// its rest.
pub fn feed_is_cut_anywhere()
    ensures { CutAnywhere }
{}

/// A replica in another process shows the source's log: each record that it accepts is synced there, and each reader
/// sees the source's rows. There are three premises. The log is legal, and its first n records are synced, for some n.
/// Both processes read the same tables and rows from the head's text. What was read is a prefix of what was written.
/// The contracts of `write_head`, `write_records`, `read_head` and `Wire::take` give all else.
pub fn two_processes()
    ensures { TwoProcesses }
{}
