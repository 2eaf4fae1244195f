//! The history of receipts, which exists only in proofs: what the commits gave, one entry for each commit. A receipt
//! holds a beginning of the history, and its place there. To add an entry takes the pen of the cell that the last entry
//! names. There is one pen for each cell, so nobody else adds, and the pen's owner knows the whole history. At run time
//! the history is one word.
ghost use Rattle.std.specs.Prelude.{◌≡◌, ◌++◌, ◌-◌, ◌≤◌, [], Some, IfSome, slice_get};
ghost use Rattle.logbook.specs.Pages.{may_write};
ghost use Rattle.source_shared.specs.Book.{head_of, old_receipts};

use logbook::{Gain, Offer, Pen, Plain, Play, Rule, Seen, Start, Word};
use record_codec::Record;
use source_core::Receipt as Given;
use std::collections::LinkedList;
use std::marker::{Brand, Model, PhantomData};

/// An entry. No value of it is made.
pub type Part = (u64, LinkedList<Given>);

/// What a holder has seen of the history.
pub type Known = Seen<Part, u64, Law>;

/// The rule of the history.
pub struct Law;

impl Rule<Part, u64> for Law {
    ghost use Rattle.std.specs.Prelude.{[]};
    ghost use base.Fml.{ftrue};
    ghost use Rattle.source_shared.specs.Book.{IsLedger};

    ghost holds = { λ cells log. IsLedger cells log };

    ghost first = { [] };

    ghost hinted = { λ n log. Unit {0} };

    ghost shows = { λ log. [] };

    ghost keeps = { λ names log. ftrue };

    ghost moves = { λ ask before after answer. Unit {0} };
}

/// Nobody keeps anything besides the history.
pub struct Nothing;

impl Gain<Part, u64> for Nothing {
    ghost use base.Fml.{ftrue};

    ghost after = { λ names about answer. ftrue };
}

/// A step that makes a cell for a pen to write.
pub struct Reserve;

impl Play<Part, u64> for Reserve {
    ghost use Rattle.source_shared.specs.Book.{Reserves};

    ghost then = { Reserves };
}

/// A step that begins the history with the receipts of an older log, for the owner of this pen.
pub struct Begin;

impl Play<Part, u64> for Begin {
    ghost use Rattle.source_shared.specs.Book.{Begins};

    ghost then = { Begins };
}

impl Plain<Pen, Part, u64> for Begin {
    ghost use Rattle.std.specs.Prelude.{None, []};

    ghost ask = { λ pen. (pen.nib.key, []) };

    ghost state = { λ pen. None };
}

/// The log that was there before, and the pen for what follows it.
pub struct Before<'a> {
    log: &'a [Record],
    next: Pen,
}

impl<'a> Plain<Before<'a>, Part, u64> for Begin {
    ghost use Rattle.std.specs.Prelude.{None};
    ghost use Rattle.source_shared.specs.Book.{old_receipts};

    ghost ask = { λ before. (before.next.nib.key, old_receipts before.log.now) };

    ghost state = { λ before. None };
}

/// A step that adds what a commit gave.
pub struct Add;

impl Play<Part, u64> for Add {
    ghost use Rattle.source_shared.specs.Book.{Adds};

    ghost then = { Adds };
}

/// What a commit gave, and the pen for the next commit.
pub struct Adding {
    given: Vec<Given>,
    next: Pen,
}

impl Plain<Adding, Part, u64> for Add {
    ghost use Rattle.std.specs.Prelude.{None};

    ghost ask = { λ adding. (adding.next.nib.key, adding.given.items) };

    ghost state = { λ adding. None };
}

/// A step that changes nothing.
pub struct Check;

impl Play<Part, u64> for Check {
    ghost use Rattle.source_shared.specs.Book.{Checks};

    ghost then = { Checks };
}

/// Which source a shared source, its seats and its receipts belong to. A type names it, so those of two sources can't be
/// mixed. Write a function over `J: SourceNaming` that takes a `Beginning` and the core, and requires
/// `beginning ≡ J.book`, `core.base ≡ J.base` and `core.tables ≡ J.tables`. Its caller passes the marker `Brand` for `J`,
/// and says in its `Invariants.antt` that these are those of the arguments.
pub trait SourceNaming {
    ghost use Rattle.std.specs.Prelude.{List};
    ghost use Rattle.logbook.specs.Pages.{Book};
    ghost use Rattle.schema.specs.declared.Table.{Table};
    ghost use Rattle.store_trait.specs.Batch.{Entry};

    /// The history of its receipts.
    ghost book: { Book };

    /// The rows before its first transaction.
    ghost base: { List Entry };

    /// The tables of its schema.
    ghost tables: { List Table };
}

impl SourceNaming for Brand {
    ghost use Rattle.std.specs.Prelude.{[]};

    ghost book = { record { number = 0; log_name = 0; cells_name = 0 } };

    ghost base = { [] };

    ghost tables = { [] };
}

/// A history that has not begun. `SharedSource::new` takes it. Contracts see which history it is.
#[derive(Drop)]
pub struct Beginning {
    word: Word<Part, u64, Law>,
    seen: Known,
}

impl Model for Beginning {
    ghost use Rattle.std.specs.Prelude.{◌≡◌};
    ghost use Rattle.logbook.specs.Pages.{Book};
    ghost use Rattle.source_shared.specs.Book.{head_of};

    ghost Value = { Book };

    ghost view = { λ b. b.seen.book };

    ghost invariant = { λ b. b.word ≡ head_of b.seen.book };
}

impl Beginning {
    /// A new history. It takes no memory.
    pub fn new() -> Beginning {
        let (seen, mut first, _second) = Seen::open(Start::alone(), 0, 0);
        let word = Word::tracked(0, &mut first);
        Beginning { word, seen }
    }

    // The history, begun with the receipts of this log. `None` if another caller began it, but only its owner can.
    pub(crate) fn begun<J: SourceNaming>(self, log: &[Record]) -> Option<History<J>>
        requires named { self ≡ J.book }
        ensures { IfSome result (λ history. history ≡ old_receipts log.now) }
    {
        let Beginning { word, mut seen } = self;
        let next = new_pen(&word, &seen);
        let before = Before { log, next };
        let mut offer: Offer<Part, u64, Law, Nothing> = seen.plain::<Nothing, Before<'_>, Begin>(
            &before,
        );
        let Before { log: _, next } = before;
        let mut none = seen.no_pen();
        let found = word.compare_exchange::<Begin, Nothing>(0, 1, &mut seen, &mut offer, &mut none);
        if found != 0 {
            return None;
        }
        Some(History {
            word,
            seen,
            pen: next,
            of: PhantomData,
        })
    }
}

/// The history, for the code that adds to it. Contracts see it as all receipts that were given.
#[derive(Drop)]
pub struct History<J: SourceNaming> {
    word: Word<Part, u64, Law>,
    seen: Known,
    pen: Pen,
    of: PhantomData<J>,
}

impl<J: SourceNaming> Model for History<J> {
    ghost use Rattle.std.specs.Prelude.{◌≡◌, List};
    ghost use Rattle.source_core.specs.declared.transaction.Receipt.{Receipt};
    ghost use Rattle.source_shared.specs.Book.{head_of, receipts_in, IsTurn};

    ghost Value = { List Receipt };

    ghost view = { λ h. receipts_in h.seen.log };

    ghost invariant = { λ h. (h.word ≡ head_of J.book) × (h.seen.book ≡ J.book) × (h.pen.book ≡ J.book) × IsTurn h.pen.nib h.seen.log };
}

impl<J: SourceNaming> History<J> {
    // Adds what a commit gave, and returns it.
    pub(crate) fn add(&mut self, given: Vec<Given>) -> Vec<Given>
        ensures history { self.new ≡ self.old ++ given.items }
        ensures given { result.items ≡ given.items }
    {
        let next = new_pen(&self.word, &self.seen);
        let adding = Adding { given, next };
        let mut offer: Offer<Part, u64, Law, Nothing> = self
            .seen
            .plain::<Nothing, Adding, Add>(&adding);
        self.word
            .compare_exchange::<Add, Nothing>(1, 1, &mut self.seen, &mut offer, &mut self.pen);
        let Adding { given, next } = adding;
        self.pen = next;
        given
    }

    // The `Receipt` for one that a commit gave.
    pub(crate) fn receipt(&self, given: Given) -> Receipt<J>
        requires { (1 ≤ given.gno) × (slice_get self.now (given.gno - 1) ≡ Some given) }
        ensures { result ≡ given }
    {
        Receipt {
            given,
            seen: self.seen.again(),
            of: PhantomData,
        }
    }

    // Shows that the receipt is in the history, at its number.
    pub(crate) fn find(&mut self, receipt: &Receipt<J>)
        ensures same { self.new ≡ self.old }
        ensures found { (1 ≤ receipt.now.gno) × (slice_get self.old (receipt.now.gno - 1) ≡ Some receipt.now) }
    {
        let mut seen = self.seen.again();
        seen.learn(&receipt.seen);
        let mut offer: Offer<Part, u64, Law, Nothing> = seen.plain::<Nothing, Pen, Begin>(
            &self.pen,
        );
        self.word
            .compare_exchange::<Check, Nothing>(1, 1, &mut seen, &mut offer, &mut self.pen);
    }
}

/// What a session gets for its committed transaction. Contracts see it as the receipt that the core gave. The core that
/// `SharedSource::end` returns has its record. It may go to any thread.
#[derive(Drop)]
pub struct Receipt<J: SourceNaming> {
    given: Given,
    seen: Known,
    of: PhantomData<J>,
}

impl<J: SourceNaming> Model for Receipt<J> {
    ghost use Rattle.std.specs.Prelude.{◌≡◌};
    ghost use Rattle.source_core.specs.declared.transaction.Receipt.{Receipt};
    ghost use Rattle.source_shared.specs.Book.{IsEntered};

    ghost Value = { Receipt };

    ghost view = { λ r. r.given };

    ghost invariant = { λ r. (r.seen.book ≡ J.book) × IsEntered r.seen.log r.given };
}

impl<J: SourceNaming> Receipt<J> {
    /// The receipt as the core gave it: session, gno, sequence number, parent and changes.
    pub fn given(&self) -> &Given
        ensures { result.now ≡ self.now }
    {
        &self.given
    }

    /// Like `given`, but moved out. It takes no memory.
    pub fn into_given(self) -> Given
        ensures { result ≡ self }
    {
        let Receipt {
            given,
            seen: _,
            of: _,
        } = self;
        given
    }
}

// A pen for a new cell.
fn new_pen(word: &Word<Part, u64, Law>, seen: &Known) -> Pen
    requires { word.now ≡ head_of seen.now.book }
    ensures book { result.book ≡ seen.now.book }
    ensures right { result.nib.right ≡ may_write }
{
    let mut seen = seen.again();
    let mut pen = seen.no_pen();
    let mut offer: Offer<Part, u64, Law, Nothing> = seen.plain::<Nothing, Pen, Begin>(&pen);
    word.compare_exchange::<Reserve, Nothing>(1, 1, &mut seen, &mut offer, &mut pen);
    let _word: Word<Part, u64, Law> = Word::tracked(0, &mut pen);
    pen
}
