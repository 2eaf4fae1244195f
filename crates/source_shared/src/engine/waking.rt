//! Which sessions sleep, and which sleepers a thread must call as it lets go of the lock, or waits under it.
ghost use Rattle.std.specs.Prelude.{
  ◌≡◌,
  ◌⊎◌,
  ◌<◌,
  ◌≢◌,
  MatchBool,
  true,
  false,
  length,
  slice_index_or,
  is_some,
  slice_set,
  if◌then◌else◌,
  ◌&&◌,
  ◌||◌,
};
ghost use Rattle.source_shared.specs.Engine.{
  due_of,
  set_asleep,
  has_end,
  called_by,
  awoken,
  has_news,
  with_told,
  with_calm,
  with_rest,
  is_at_work,
  calls_rotator,
  with_rotator,
  NoneSleepsWithEnd,
  NobodyIsCalled,
  IsTold,
  count,
};

use super::{Due, Engine, SESSIONS};
use crate::book::SourceNaming;
use crate::calls::{Called, News, Waits};
use log_device::Device;
use store_trait::RowStore;
use tracker_trait::Tracker;

impl<S: RowStore, T: Tracker, D: Device + Drop, J: SourceNaming> Engine<S, T, D, J> {
    // The sleepers that a thread must call as it lets go of the lock, or waits under it. They are now noted as called. A
    // sleeping session is called if it is due. Readers that wait for records are called if more are synced than they
    // know, or if they don't know that no more come. Threads that wait to rotate are called if the source is at rest.
    pub(crate) fn news(&mut self, leads: bool) -> News
        ensures called { result.called.all ≡ called_by self.old leads }
        ensures followers { result.followers ≡ has_news self.old }
        ensures rotators { result.rotators ≡ calls_rotator self.old }
        ensures left { self.new ≡ with_rest (with_told (with_calm (awoken self.old result.called.all))) }
        ensures told { IsTold self.new }
    {
        let called = self.call_due(leads);
        self.settle();
        let followers = self.has_news();
        let rotators = self.call_rotators();
        News::new(called, followers, rotators)
    }

    // Whether no sleeper has to be called. It looks at no place.
    pub(crate) fn is_quiet(&self, leads: bool) -> bool
        ensures told { result ≡ true → IsTold self.now }
        ensures nobody { result ≡ true → NobodyIsCalled self.now leads }
    {
        !self.may_call(leads) && self.is_calm()
    }

    // Whether no session sleeps whose wait has ended, readers that wait for records know all, and no thread that waits to
    // rotate has to be called.
    fn is_calm(&self) -> bool
        ensures { result ≡ true → IsTold self.now }
    {
        !self.stirred
            && (self.synced_records().len(), self.is_over()) == self.told
            && !self.calls_rotator()
    }

    // Whether a session sleeps that may be called to lead.
    fn may_call(&self, leads: bool) -> bool
        ensures { result ≡ false → ((leads && is_some self.now.home) ≡ false) ⊎ (count self.now.watch.sleeping ≡ 0) }
    {
        self.may_lead(leads) && self.asleep() > 0
    }

    // Calls the sleeping sessions that are due: each whose wait has ended and, if `leads` says so and the writer is here,
    // the first of the others, which has to lead. A called session is noted as awake, so it is called once, unless it
    // then finds that it still has to wait. The loop ends at the last sleeper's place.
    fn call_due(&mut self, leads: bool) -> Called
        ensures called { result.all ≡ called_by self.old leads }
        ensures left { self.new ≡ awoken self.old result.all }
        ensures ended { NoneSleepsWithEnd self.new }
    {
        let mut called = Called::nobody();
        let mut lead = self.may_lead(leads);
        let mut left = self.asleep();
        for place in 0..SESSIONS {
            if left == 0 {
                break;
            }
            if self.sleeps(place) {
                left -= 1;
                lead = self.call_one(place, lead, &mut called);
            }
        }
        called
    }

    // Calls the session of this place, if its wait has ended or it has to lead. It returns whether another has to lead.
    fn call_one(&mut self, place: usize, lead: bool, called: &mut Called) -> bool
        requires { place < 256 }
        ensures lead { result ≡ (lead && has_end self.old place) }
        ensures called { called.new.all ≡ (if has_end self.old place || lead then slice_set called.old.all place true else called.old.all) }
        ensures left { self.new ≡ (if has_end self.old place || lead then set_asleep self.old place false else self.old) }
    {
        let ends = self.has_end(place);
        if ends || lead {
            self.set_sleeping(place, false);
            called.add(place);
        }
        lead && ends
    }

    // Whether a session has to lead: `leads` says so, and the writer is here.
    fn may_lead(&self, leads: bool) -> bool
        ensures { result ≡ (leads && is_some self.now.home) }
    {
        leads && self.writer.is_some()
    }

    // How many sessions sleep.
    fn asleep(&self) -> usize
        ensures count { result ≡ count self.now.watch.sleeping }
        ensures sessions { length self.now.watch.sleeping ≡ 256 }
        ensures places { length self.now.places ≡ 256 }
        ensures noted { self.now.watch.asleep ≡ count self.now.watch.sleeping }
    {
        self.asleep
    }

    // Whether the session of this place sleeps.
    fn sleeps(&self, place: usize) -> bool
        requires { place < 256 }
        ensures { result ≡ slice_index_or self.now.watch.sleeping place false }
    {
        self.sleeping[place]
    }

    // Notes whether the session of this place sleeps.
    pub(crate) fn set_sleeping(&mut self, place: usize, sleeps: bool)
        requires place { place < 256 }
        requires waits { sleeps ≡ true → has_end self.old place ≡ false }
        ensures { self.new ≡ set_asleep self.old place sleeps }
    {
        let slept = self.sleeping[place];
        self.sleeping[place] = sleeps;
        self.asleep = self.asleep + usize::from(sleeps) - usize::from(slept);
    }

    // Whether the session of this place has to wait. It notes whether its thread sleeps: it does if it has to wait.
    pub(crate) fn waits(&mut self, place: usize) -> bool
        requires place { place < 256 }
        ensures tells { MatchBool result (due_of self.old place ≡ Due.Wait) (due_of self.old place ≢ Due.Wait) }
        ensures left { self.new ≡ set_asleep self.old place result }
    {
        self.looks = self.looks.plus(Waits::SESSION);
        let waits = self.due(place) == Due::Wait;
        self.set_sleeping(place, waits);
        waits
    }

    // Whether more records are synced than waiting readers know, or they don't know that no more come. They are now noted
    // to know.
    fn has_news(&mut self) -> bool
        ensures news { result ≡ has_news self.old }
        ensures told { self.new ≡ with_told self.old }
        ensures known { has_news self.new ≡ false }
        ensures ended { NoneSleepsWithEnd self.old → NoneSleepsWithEnd self.new }
    {
        let (synced, over) = (self.synced_records().len(), self.is_over());
        let news = synced != self.told.0 || over && !self.told.1;
        self.told = (synced, over);
        news
    }

    // Whether a flushed transaction is not committed yet, or a thread writes a group. It is false if the source is
    // halted.
    pub(super) fn is_at_work(&self) -> bool
        ensures { result ≡ is_at_work self.now }
    {
        !self.core.is_halted() && (self.core.busy() || self.writer.is_none())
    }

    // Whether a thread that rotates has to wait. If so, it is called once the source is at rest.
    pub(crate) fn waits_to_rotate(&mut self) -> bool
        ensures tells { result ≡ is_at_work self.new }
        ensures left { self.new ≡ with_rotator self.old }
    {
        self.looks = self.looks.plus(Waits::ROTATOR);
        let waits = self.is_at_work();
        self.rotating = self.rotating || waits;
        waits
    }

    // Whether the threads that wait to rotate have to be called.
    fn calls_rotator(&self) -> bool
        ensures { result ≡ calls_rotator self.now }
    {
        self.rotating && !self.is_at_work()
    }

    // Whether the threads that wait to rotate have to be called. They are now noted as called.
    fn call_rotators(&mut self) -> bool
        ensures called { result ≡ calls_rotator self.old }
        ensures left { self.new ≡ with_rest self.old }
        ensures told { NoneSleepsWithEnd self.old → has_news self.old ≡ false → IsTold self.new }
    {
        let called = self.calls_rotator();
        self.rotating = self.rotating && !called;
        called
    }

    // Notes that no session sleeps whose wait has ended: they were all called.
    fn settle(&mut self)
        requires { NoneSleepsWithEnd self.old }
        ensures { self.new ≡ with_calm self.old }
    {
        self.stirred = false;
    }

    // Counts more calls that wait.
    pub(crate) fn one_more(&mut self, more: Waits)
        ensures { self.new ≡ self.old }
    {
        self.sleepers = self.sleepers.plus(more);
    }

    // Counts fewer calls that wait.
    pub(crate) fn one_less(&mut self, less: Waits)
        ensures { self.new ≡ self.old }
    {
        self.sleepers = self.sleepers.minus(less);
    }

    // How many calls wait.
    pub(crate) fn sleepers(&self) -> Waits {
        self.sleepers
    }

    // How often waiting calls looked.
    pub(crate) fn looks(&self) -> Waits {
        self.looks
    }
}
