//! The threads that sleep, and the news for them.
ghost use Rattle.std.specs.Prelude.{◌≡◌};
ghost use Rattle.replica_core.specs.Sound.{IsSound};
ghost use Rattle.replica_shared.specs.Together.{is_idle, offers, outlook_of, news_between};

use super::Coordinator;
use crate::naming::ReplicaNaming;
use crate::news::{Looks, News, Outlook, Sleepers};
use store_trait::RowStore;

impl<S: RowStore + Drop, J: ReplicaNaming> Coordinator<S, J> {
    // Whether there is nothing for a worker.
    fn is_idle(&self) -> bool
        ensures { result ≡ is_idle self.now }
    {
        let now = self.outlook();
        !(0 < now.offers || now.behind || now.over)
    }

    // What waiting threads look at.
    fn outlook(&self) -> Outlook
        ensures { result ≡ outlook_of self.now }
    {
        let stopped = self.core.stopped().is_some();
        Outlook {
            offers: self.offers(),
            behind: self.behind,
            published: self.publisher.tell().count(),
            over: stopped || self.is_ended(),
        }
    }

    // The number of jobs that no worker has.
    fn offers(&self) -> u64
        requires { IsSound self.now.core }
        ensures { result ≡ offers self.now }
    {
        (self.outlet.pushed() - self.claimed) + self.kept.len()
    }

    // The threads to wake for what was done since the last call.
    pub(crate) fn news(&mut self) -> News
        ensures news { result ≡ news_between self.old.told (outlook_of self.old) }
        ensures told { self.new ≡ record self.old { told = outlook_of self.old } }
    {
        let now = self.outlook();
        let news = now.since(self.told);
        self.told = now;
        news
    }

    // One more call of `worker` waits.
    pub(crate) fn worker_sleeps(&mut self)
        ensures { self.new ≡ self.old }
    {
        self.sleepers.workers = self.sleepers.workers.saturating_add(1);
    }

    // One call of `worker` less waits.
    pub(crate) fn worker_wakes(&mut self)
        ensures { self.new ≡ self.old }
    {
        self.sleepers.workers = self.sleepers.workers.saturating_sub(1);
    }

    // A waiting call of `worker` looks. Whether there is nothing for it.
    pub(crate) fn worker_looks(&mut self) -> bool
        ensures idle { result ≡ is_idle self.old }
        ensures same { self.new ≡ self.old }
    {
        self.looks.workers = self.looks.workers.saturating_add(1);
        self.is_idle()
    }

    // The number of waiting calls.
    pub(crate) fn sleepers(&self) -> Sleepers {
        self.sleepers
    }

    // How often waiting calls looked.
    pub(crate) fn looks(&self) -> Looks {
        self.looks
    }
}
