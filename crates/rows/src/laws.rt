//! What follows from the definitions. Each function states laws by its contract, and does nothing.

ghost use Rattle.rows.specs.Effect.{AppliesByKind, LeavesWhereItApplies};
ghost use Rattle.rows.specs.Effect.{HasParentWhereItApplies, AppliesWhereItFits, WritesOfJoined, EffectOfJoined, StepsOfJoined};
ghost use Rattle.rows.specs.Effect.{KinOfJoined, MarksOfJoined, RowAfterJoined, EachRowIsLeft, EffectIsItsRows, ValuesStayApart};
ghost use Rattle.rows.specs.Effect.{ChildrenKeepParents};
ghost use Rattle.rows.specs.Naming.{AssignsWhatIsThere, KeepsWidth, OthersStay, NamedTakeTheirs};
ghost use Rattle.rows.specs.Frame.{ChangesOnlyWrites, ChangesOnlyMarks, LooksOnlyAtItsRows, AppliesBehind};
ghost use Rattle.rows.specs.Given.{LooksOnlyAtGiven, OneOutcome, GivenParentsAreKin, GivenMarksAreMarks};
ghost use Rattle.rows.specs.Holders.{HolderHasIt, HoldersAreSame, FreeByHolder, FreeByRows, MarksAreFew, MarksAreOfUnique};
ghost use Rattle.rows.specs.Parents.{NoOrphanOfJoined, NoOrphanBehind, KinAreFew, NoKinOfOthers, NoKinUnrelated};

/// The frame law: a list of changes changes only the rows that it writes and which rows have its marks. It looks only
/// at these rows, at their kin, and at which rows have its marks.
pub fn frame()
    ensures changes_only { ChangesOnlyWrites }
    ensures only_marks { ChangesOnlyMarks }
    ensures looks_only { LooksOnlyAtItsRows }
{}

/// What changes give their rows decides their outcome. They look only at the rows that they write, the parents that
/// they give, and which rows have the values that they give. If they apply, these parents are among their kin, and
/// these values among their marks.
pub fn given()
    ensures looks_only { LooksOnlyAtGiven }
    ensures one_outcome { OneOutcome }
    ensures parents { GivenParentsAreKin }
    ensures marks { GivenMarksAreMarks }
{}

/// If transactions each apply to one database and do not clash, they apply one after another, by the frame law. If the
/// first writes nothing that the second looks at, and has none of its marks, the second does there what it does without
/// the first.
pub fn behind()
    ensures { AppliesBehind }
{}

/// What an update leaves of the columns of its row.
pub fn columns()
    ensures there { AssignsWhatIsThere }
    ensures width { KeepsWidth }
    ensures others { OthersStay }
    ensures named { NamedTakeTheirs }
{}

/// When a change applies to a database: it fits its row, the parent that it gives the row is there, and no other row
/// has the value that it gives it.
pub fn one_change()
    ensures by_kind { AppliesByKind }
    ensures leaves { LeavesWhereItApplies }
    ensures has_parent { HasParentWhereItApplies }
    ensures applies { AppliesWhereItFits }
{}

/// What two lists of changes do one after the other.
pub fn joined()
    ensures writes { WritesOfJoined }
    ensures effect { EffectOfJoined }
    ensures steps { StepsOfJoined }
    ensures kin { KinOfJoined }
    ensures marks { MarksOfJoined }
    ensures row { RowAfterJoined }
{}

/// The effect of a list of changes, row by row: what it leaves of each row. These rows determine the effect.
pub fn row_by_row()
    ensures each { EachRowIsLeft }
    ensures determined { EffectIsItsRows }
{}

/// Changes leave a child row without its parent only if one of them deletes the parent of a row.
pub fn parents()
    ensures { ChildrenKeepParents }
{}

/// Which changes leave no orphan after others: one list, if each part leaves none when its turn comes; two transactions
/// that do not conflict, if neither leaves one without the other.
pub fn one_after_another()
    ensures joined { NoOrphanOfJoined }
    ensures behind { NoOrphanBehind }
{}

/// How many kin changes have: at most two each. They have none if they write no child table, as in a transaction that
/// is not foreign-key related.
pub fn kin()
    ensures few { KinAreFew }
    ensures of_others { NoKinOfOthers }
    ensures unrelated { NoKinUnrelated }
{}

/// If no two rows of a table have one value in its unique column, none do after changes. Then a value has at most one
/// row, and columns are free for a row if no other row has their value.
pub fn values()
    ensures apart { ValuesStayApart }
    ensures holder { HolderHasIt }
    ensures same { HoldersAreSame }
    ensures free { FreeByHolder }
    ensures free_by_rows { FreeByRows }
{}

/// How many marks changes have, at most two each, and the tables that these are of.
pub fn marks()
    ensures few { MarksAreFew }
    ensures of_unique { MarksAreOfUnique }
{}
