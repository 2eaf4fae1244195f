//! The history of operations, which exists only in proofs: all that seats see and learn is a prefix of it. At run time
//! only one word is shared, the number of its commits. It grows only when commits are published, by all that wait at
//! once.
ghost use Rattle.std.specs.Prelude.{◌≡◌, ◌≢◌, ◌+◌, ◌≤◌, true, false, ◌++◌, ◌∷◌, [], MatchBool, IfSome};
ghost use mathlib.Core.List.{IsPrefix};
ghost use Rattle.scheduler.specs.Gnos.{low_of};
ghost use Rattle.published.specs.History.{IsHistory, IsWithin, gnos_of, commits_in, count_above};
ghost use Rattle.published.specs.Book.{head_of};
ghost use Rattle.store_trait.specs.declared.Op.TheVariants.{Load};

use logbook::{Gain, Offer, Opening, Plain, Play, Rule, Seen, Start, Word};
use std::collections::LinkedList;
use std::marker::{Brand, Model, PhantomData};
use store_trait::{Batch, Op};

/// What one step adds. No value of it is made.
pub type Part = LinkedList<Op>;

/// The rule of the history.
pub struct Law;

impl Rule<Part, u64> for Law {
    ghost use Rattle.std.specs.Prelude.{[]};
    ghost use base.Fml.{ftrue};
    ghost use Rattle.published.specs.Book.{CountsCommits};

    ghost holds = { λ cells log. CountsCommits cells log };

    ghost first = { [] };

    ghost hinted = { λ n log. Unit {0} };

    ghost shows = { λ log. [] };

    ghost keeps = { λ names log. ftrue };

    ghost moves = { λ ask before after answer. Unit {0} };
}

/// Nothing is kept beside the history.
pub struct Nothing;

impl Gain<Part, u64> for Nothing {
    ghost use base.Fml.{ftrue};

    ghost after = { λ names about answer. ftrue };
}

/// The history begins with the load of the base.
pub struct Loads;

impl Opening<Batch, Part> for Loads {
    ghost use Rattle.std.specs.Prelude.{[], ◌∷◌};
    ghost use Rattle.store_trait.specs.declared.Op.TheVariants.{Load};

    ghost log = { λ count base. (Load base ∷ []) ∷ [] };
}

/// A step that adds operations.
pub struct Add;

impl Play<Part, u64> for Add {
    ghost use Rattle.published.specs.Book.{Adds};

    ghost then = { Adds };
}

/// A type that stands for one publication, with its publisher, seats and notices. So those of two publications can't be
/// mixed. Write a function over `J: Naming` that takes a `Beginning` and whether the order of the log is kept, and
/// requires `beginning.book ≡ J.book` and `preserve ≡ J.preserve`. Its caller passes the marker `Brand` for `J`. It says
/// in its `Invariants.antt` that both are those of the arguments, and that `known` is `None`. If all that the publication
/// may ever publish is known before, `known` is that, the load first.
pub trait Naming {
    ghost use Rattle.std.specs.Prelude.{Bool, Option, List};
    ghost use Rattle.logbook.specs.Pages.{Book};
    ghost use Rattle.store_trait.specs.declared.Op.{Op};

    ghost book: { Book };

    /// Whether commits are published in the order of the log.
    ghost preserve: { Bool };

    /// All that it may ever publish, the load first, if that is known before.
    ghost known: { Option (List Op) };
}

impl Naming for Brand {
    ghost use Rattle.std.specs.Prelude.{true, None};

    ghost book = { record { number = 0; log_name = 0; cells_name = 0 } };

    ghost preserve = { true };

    ghost known = { None };
}

/// The one word. It counts the commits of the history.
#[derive(Drop)]
pub struct Head<J: Naming> {
    word: Word<Part, u64, Law>,
    of: PhantomData<J>,
    ghost word_is: { word ≡ head_of J.book },
}

/// The first rows, and the history that begins with their load. `open` takes it. Contracts see it as those rows, and
/// which publication it is.
#[derive(Drop)]
pub struct Beginning {
    base: Batch,
    word: Word<Part, u64, Law>,
    seen: Seen<Part, u64, Law>,
}

impl Model for Beginning {
    ghost use Rattle.std.specs.Prelude.{◌≡◌, [], ◌∷◌};
    ghost use Rattle.store_trait.specs.declared.Op.TheVariants.{Load};
    ghost use Rattle.published.specs.Book.{head_of};
    ghost use Rattle.published.specs.Publication.{Begun};

    ghost Value = { Begun };

    ghost view = { λ b. record { book = b.seen.book; base = b.base } };

    ghost invariant = { λ b. (b.word ≡ head_of b.seen.book) × (b.seen.log ≡ (Load b.base ∷ []) ∷ []) };
}

impl Beginning {
    /// A new publication of this base. It takes no memory.
    pub fn of(base: Batch) -> Beginning
        ensures { result.base ≡ base }
    {
        let (seen, mut pens) = Seen::open_row::<Batch, Loads>(&base, Start::alone(), 1);
        let word = Word::tracked(0, &mut pens.take());
        Beginning { base, word, seen }
    }

    // The parts, under the name of this publication.
    pub(crate) fn named<J: Naming>(self) -> (Batch, Head<J>, Notice<J>)
        requires named { self.book ≡ J.book }
        requires within { IsWithin J.known (Load self.base ∷ []) }
        ensures base { result.0 ≡ self.base }
        ensures notice { result.2 ≡ Load self.base ∷ [] }
    {
        let Beginning { base, word, seen } = self;
        let head = Head {
            word,
            of: PhantomData,
        };
        let notice = Notice {
            count: 0,
            upto: 0,
            seen,
            of: PhantomData,
        };
        (base, head, notice)
    }
}

/// Operations that were published, the load first: a prefix of the history. Contracts see it as that list. At run time it
/// is the number of its commits, and the gno up to which these leave no gap. It may go to any thread.
#[derive(Drop)]
pub struct Notice<J: Naming> {
    count: u64,
    upto: u64,
    seen: Seen<Part, u64, Law>,
    of: PhantomData<J>,
}

impl<J: Naming> Model for Notice<J> {
    ghost use Rattle.std.specs.Prelude.{◌≡◌, List};
    ghost use Rattle.store_trait.specs.declared.Op.{Op};
    ghost use Rattle.scheduler.specs.Gnos.{low_of};
    ghost use Rattle.published.specs.History.{IsHistory, IsWithin, gnos_of, commits_in};
    ghost use Rattle.published.specs.Book.{operations_of};

    ghost Value = { List Op };

    ghost view = { λ n. operations_of n.seen.log };

    ghost invariant = { λ n. (n.count ≡ commits_in (operations_of n.seen.log)) × (n.upto ≡ low_of (gnos_of (operations_of n.seen.log))) ×
        (n.seen.book ≡ J.book) × IsHistory J.preserve (operations_of n.seen.log) × IsWithin J.known (operations_of n.seen.log) };
}

impl<J: Naming> Notice<J> {
    /// It has all commits of the gnos 1 to this one, and not the next; 0 if it does not have the first.
    pub fn upto(&self) -> u64
        ensures mark { result ≡ low_of (gnos_of self.now) }
        // In the order of the log it is the gno of its last commit.
        ensures in_order { J.preserve ≡ true → result ≡ commits_in self.now }
        ensures within { result ≤ commits_in self.now }
        ensures above { count_above result (gnos_of self.now) + result ≡ commits_in self.now }
        ensures history { IsHistory J.preserve self.now }
        ensures known { IsWithin J.known self.now }
    {
        self.upto
    }

    /// How many commits it has, 0 if it has only the load.
    pub fn count(&self) -> u64
        ensures { result ≡ commits_in self.now }
    {
        self.count
    }

    /// A copy. It takes no memory.
    pub fn again(&self) -> Notice<J>
        ensures { result ≡ self.now }
    {
        Notice {
            count: self.count,
            upto: self.upto,
            seen: self.seen.again(),
            of: PhantomData,
        }
    }

    /// Whether the other begins with this one. If not, this one begins with the other. It takes no memory.
    pub fn begins(&self, other: &Notice<J>) -> bool
        ensures one { MatchBool result (IsPrefix self.now other.now) (IsPrefix other.now self.now) }
        ensures other { result ≡ false → self.now ≢ other.now }
    {
        let mut both = self.seen.again();
        both.learn(&other.seen);
        other.count >= self.count
    }

    // This notice with the commits that `M` names after it. It then has `count` commits, with no gap up to `upto`. `None`
    // if the history went on without them.
    pub(crate) fn and<X, M: Plain<X, Part, u64>>(
        &self,
        head: &Head<J>,
        of: &X,
        count: u64,
        upto: u64,
    ) -> Option<Notice<J>>
        requires history { IsHistory J.preserve (self.now ++ M.ask of.now) }
        requires number { count ≡ commits_in (self.now ++ M.ask of.now) }
        requires mark { upto ≡ low_of (gnos_of (self.now ++ M.ask of.now)) }
        requires within { IsWithin J.known (self.now ++ M.ask of.now) }
        ensures { IfSome result (λ longer. longer ≡ self.now ++ M.ask of.now) }
    {
        let mut seen = self.seen.again();
        let mut offer: Offer<Part, u64, Law, Nothing> = seen.plain::<Nothing, X, M>(of);
        let mut pen = seen.no_pen();
        let found = head
            .word
            .compare_exchange::<Add, Nothing>(self.count, count, &mut seen, &mut offer, &mut pen);
        if found != self.count {
            return None;
        }
        Some(Notice {
            count,
            upto,
            seen,
            of: PhantomData,
        })
    }
}
