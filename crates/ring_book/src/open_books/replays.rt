ghost use Rattle.std.specs.Prelude.{◌≡◌, ◌≤◌, ◌↔◌, [], length, IsTrue, IfSome, IsNone};
ghost use Rattle.ring_model.specs.History.{opening};
ghost use Rattle.ring_book.specs.BookView.{view_of, IsOpenKept};
ghost use Rattle.ring_book.specs.BookHistory.{IsFirstWrong, IsGiven, HasFollowed, HasReplayed};

use crate::open_books::OpenBook;
use crate::resources::Resource;
use ring_model::limits::SEAT_LIMIT;
use ring_model::{Event, Op};

/// Whether two events are the same.
fn is_same(one: Event, other: Event) -> bool
    ensures { IsTrue result ↔ one ≡ other }
{
    one == other
}

impl<R: Resource + Drop> OpenBook<R> {
    /// Makes the pass of an event, and answers whether the event is what comes of it.
    fn follow_pass(&mut self, event: Event, machine: u32, order: u64) -> bool
        requires kept { IsOpenKept R.works R.first (view_of self.old) self.old.tally }
        requires call { event.op ≡ Op.Pass machine order }
        requires room { 1 ≤ self.old.events.room }
        ensures given { IsTrue result ↔ IsGiven R.works (view_of self.old).now event }
        ensures follows { IsTrue result
            → HasFollowed R.works R.first (view_of self.old) (view_of self.new)
            self.new.tally event }
    {
        if event.seat as usize >= SEAT_LIMIT || machine >= self.ring.params().n() {
            return false;
        }
        let receipt = self.pass(event.seat, machine, order);
        is_same(receipt.event, event)
    }

    /// Makes the pass of a member of a group, and answers whether the event is what comes of it.
    fn follow_member(&mut self, event: Event, machine: u32, order: u64, left: u32) -> bool
        requires kept { IsOpenKept R.works R.first (view_of self.old) self.old.tally }
        requires call { event.op ≡ Op.Member machine order left }
        requires room { 1 ≤ self.old.events.room }
        ensures given { IsTrue result ↔ IsGiven R.works (view_of self.old).now event }
        ensures follows { IsTrue result
            → HasFollowed R.works R.first (view_of self.old) (view_of self.new)
            self.new.tally event }
    {
        if event.seat as usize >= SEAT_LIMIT || machine >= self.ring.params().n() {
            return false;
        }
        if !self.ring.is_privileged(machine) {
            return false;
        }
        let receipt = self.grant(event.seat, machine, order, Some(left));
        is_same(receipt.event, event)
    }

    /// Makes the fault of an event, and answers whether the event is what comes of it.
    fn follow_corruption(&mut self, event: Event, machine: u32, value: u32) -> bool
        requires kept { IsOpenKept R.works R.first (view_of self.old) self.old.tally }
        requires call { event.op ≡ Op.Corrupt machine value }
        requires room { 1 ≤ self.old.events.room }
        ensures given { IsTrue result ↔ IsGiven R.works (view_of self.old).now event }
        ensures follows { IsTrue result
            → HasFollowed R.works R.first (view_of self.old) (view_of self.new)
            self.new.tally event }
    {
        if event.seat as usize >= SEAT_LIMIT || machine >= self.ring.params().n() {
            return false;
        }
        if value >= self.ring.params().k() {
            return false;
        }
        let receipt = self.corrupt(event.seat, machine, value);
        is_same(receipt.event, event)
    }

    /// Makes the call of an event, and answers whether the event is what comes of it.
    fn follow(&mut self, event: Event) -> bool
        requires kept { IsOpenKept R.works R.first (view_of self.old) self.old.tally }
        requires room { 1 ≤ self.old.events.room }
        ensures given { IsTrue result ↔ IsGiven R.works (view_of self.old).now event }
        ensures follows { IsTrue result
            → HasFollowed R.works R.first (view_of self.old) (view_of self.new)
            self.new.tally event }
    {
        match event.op {
            Op::Pass { machine, order } => self.follow_pass(event, machine, order),
            Op::Member {
                machine,
                order,
                left,
            } => self.follow_member(event, machine, order, left),
            Op::Corrupt { machine, value } => self.follow_corruption(event, machine, value),
        }
    }

    /// Makes the calls of these events in a book that has none, one after the other. Answers the place of the first event
    /// that is not what comes of its call, if there is one.
    pub(crate) fn replay(&mut self, events: &[Event]) -> Option<u64>
        requires kept { IsOpenKept R.works R.first (view_of self.old) self.old.tally }
        requires fresh { self.old.events.list ≡ [] }
        requires room { length events.now ≤ self.old.events.room }
        ensures wrong { IfSome result (λ place.
            IsFirstWrong R.works (opening self.old.start R.first) events.now place) }
        ensures replayed { IsNone result
            → HasReplayed R.works R.first self.old.start events.now (view_of self.new)
            self.new.tally }
    {
        for place in 0..events.len() {
            if !self.follow(events[place]) {
                return Some(place as u64);
            }
        }
        None
    }
}
