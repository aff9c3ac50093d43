ghost use Rattle.std.specs.Prelude.{◌≡◌, ◌<◌, ◌≤◌, ◌+◌, length};
ghost use Rattle.ring_model.specs.Limits.{seat_limit};
ghost use Rattle.ring_book.specs.BookView.{view_of, IsOpenKept, IsRecorded};

use crate::open_books::OpenBook;
use crate::resources::Resource;
use ring_model::{Event, Op, Receipt, Reply};
use ring_settle::is_settled;

impl<R: Resource + Drop> OpenBook<R> {
    /// A pass by itself: a privileged machine does the work and moves; either way the call is recorded.
    #[inline(always)]
    pub(crate) fn pass(&mut self, seat: u32, machine: u32, order: u64) -> Receipt
        requires kept { IsOpenKept R.works R.first (view_of self.old) self.old.tally }
        requires seat { seat < seat_limit }
        requires machine { machine < length self.old.ring.values }
        requires room { 1 ≤ self.old.events.room }
        ensures kept { IsOpenKept R.works R.first (view_of self.new) self.new.tally }
        ensures recorded { IsRecorded R.works (view_of self.old) (view_of self.new) seat
            (Op.Pass machine order) result }
        ensures room { self.new.events.room + 1 ≡ self.old.events.room }
    {
        if self.ring.is_privileged(machine) {
            return self.grant(seat, machine, order, None);
        }
        self.tally.add_call(seat);
        let event = Event {
            seat,
            op: Op::Pass { machine, order },
            reply: Reply::NotPrivileged,
        };
        let position = self.events.push(event);
        Receipt { position, event }
    }

    /// A fault: the value is written into the machine, and the call is recorded.
    #[inline(always)]
    pub(crate) fn corrupt(&mut self, seat: u32, machine: u32, value: u32) -> Receipt
        requires kept { IsOpenKept R.works R.first (view_of self.old) self.old.tally }
        requires seat { seat < seat_limit }
        requires machine { machine < length self.old.ring.values }
        requires value { value < self.old.ring.k }
        requires room { 1 ≤ self.old.events.room }
        ensures kept { IsOpenKept R.works R.first (view_of self.new) self.new.tally }
        ensures recorded { IsRecorded R.works (view_of self.old) (view_of self.new) seat
            (Op.Corrupt machine value) result }
        ensures room { self.new.events.room + 1 ≡ self.old.events.room }
    {
        let old = self.ring.write(machine, value);
        self.tally.add_corruption(is_settled(&self.ring));
        self.tally.add_call(seat); // a corruption is a call too
        let event = Event {
            seat,
            op: Op::Corrupt { machine, value },
            reply: Reply::Corrupted { old },
        };
        let position = self.events.push(event);
        Receipt { position, event }
    }
}
