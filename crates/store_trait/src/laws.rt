//! What batches leave of a database, stated as contracts of functions that do nothing.

ghost use Rattle.store_trait.specs.Laws.{SetsItsRows, IsItsRows, HasTheRows, SortedRowsRise, RisingRowsDiffer, CarriesChanges, GoesOn};
ghost use Rattle.store_trait.specs.Laws.{GoesOnByOps, LoadsAll, FitsApart, StandingFits, FitsStands, HolderIsFirst};

/// After a batch each row is as the batch has it, or else as it was.
pub fn batch_sets_its_rows()
    ensures { SetsItsRows }
{}

/// Batches that agree at each row are equal.
pub fn batch_is_its_rows()
    ensures { IsItsRows }
{}

/// The batch of some rows of a database has these rows as they are there, absent ones as removed, and no others.
pub fn batch_of_rows()
    ensures { HasTheRows }
{}

/// The batch of the rows that changes write, as they leave them, does what the changes do.
pub fn batch_carries_changes()
    ensures { CarriesChanges }
{}

/// Entries, sorted by row id, make a batch exactly if no row comes twice.
pub fn sorted_rows()
    ensures rise { SortedRowsRise }
    ensures differ { RisingRowsDiffer }
{}

/// Putting batches in two parts is the same as putting them in one.
pub fn batches_go_on()
    ensures { GoesOn }
{}

/// Further operations begin with what the operations before them leave.
pub fn operations_go_on()
    ensures { GoesOnByOps }
{}

/// For each database there is a batch that loads it.
pub fn batch_loads_all()
    ensures { LoadsAll }
{}

/// In rows that fit, a value of a unique column has at most one row, which is the first that has it.
pub fn values()
    ensures apart { FitsApart }
    ensures first { HolderIsFirst }
{}

/// Rows fit exactly if each has its table's columns and its parent, as `rows_stand` checks, and no two have one value
/// in a unique column.
pub fn standing()
    ensures fit { StandingFits }
    ensures stand { FitsStands }
{}
