ghost use Rattle.std.specs.Prelude.{◌≡◌, ◌<◌, ◌≤◌, ◌+◌, true, length, Some, None};
ghost use Rattle.ring_model.specs.Ring.{is_privileged};
ghost use Rattle.ring_model.specs.GroupLaws.{CanMove};
ghost use Rattle.ring_model.specs.Limits.{seat_limit};
ghost use Rattle.ring_book.specs.BookView.{view_of, pass_of, IsOpenKept, IsRecorded};
ghost use Rattle.ring_book.specs.GroupView.{HasMoved};

mod calls;
mod replays;

use crate::events::Events;
use crate::resources::Resource;
use crate::tallies::Tally;
use ring_model::{Event, Op, Receipt, Reply};
use ring_settle::{is_settled, least_left_out, machine_in_turn};
use ring_state::RingState;

/// The parts of a book, whose history may end inside a group's block.
#[derive(Drop)]
pub(crate) struct OpenBook<R: Resource + Drop> {
    pub(crate) start: RingState,
    pub(crate) ring: RingState,
    pub(crate) resource: R,
    pub(crate) events: Events,
    pub(crate) tally: Tally,
}

impl<R: Resource + Drop> OpenBook<R> {
    /// A pass by a privileged machine, by itself or as a member of a group with `left` members after it: it does the
    /// work and moves, and is recorded.
    #[inline(always)]
    pub(crate) fn grant(
        &mut self,
        seat: u32,
        machine: u32,
        order: u64,
        left: Option<u32>,
    ) -> Receipt
        requires kept { IsOpenKept R.works R.first (view_of self.old) self.old.tally }
        requires seat { seat < seat_limit }
        requires machine { machine < length self.old.ring.values }
        requires privileged { is_privileged self.old.ring.values machine ≡ true }
        requires room { 1 ≤ self.old.events.room }
        ensures kept { IsOpenKept R.works R.first (view_of self.new) self.new.tally }
        ensures recorded { IsRecorded R.works (view_of self.old) (view_of self.new) seat
            (pass_of machine order left) result }
        ensures room { self.new.events.room + 1 ≡ self.old.events.room }
    {
        let result = self.resource.work(machine, order);
        self.ring.move_machine(machine);
        // A move of a settled ring leaves it settled.
        let settled = self.tally.is_settled() || is_settled(&self.ring);
        let number = self.tally.add_grant(machine, settled);
        self.tally.add_call(seat);
        let event = Event {
            seat,
            op: pass_of(machine, order, left),
            reply: Reply::Granted { number, result },
        };
        let position = self.events.push(event);
        Receipt { position, event }
    }

    /// A pass by a group that can move, one member after the other.
    pub(crate) fn grant_group(&mut self, seat: u32, machines: &[u32], order: u64)
        requires kept { IsOpenKept R.works R.first (view_of self.old) self.old.tally }
        requires seat { seat < seat_limit }
        requires group { CanMove self.old.ring.values machines.now }
        requires room { length machines.now ≤ self.old.events.room }
        ensures kept { IsOpenKept R.works R.first (view_of self.new) self.new.tally }
        ensures moved { HasMoved R.works (view_of self.old) (view_of self.new) seat order
            machines.now }
        ensures room { self.new.events.room + length machines.now ≡ self.old.events.room }
    {
        let least = least_left_out(machines);
        for turn in 0..machines.len() {
            let machine = machine_in_turn(machines, least, turn);
            let left = (machines.len() - 1 - turn) as u32;
            self.grant(seat, machine, order, Some(left));
        }
    }
}

/// The call of a pass by itself, or of a member of a group with `left` members after it.
#[inline(always)]
fn pass_of(machine: u32, order: u64, left: Option<u32>) -> Op
    ensures { result ≡ pass_of machine order left }
{
    match left {
        None => Op::Pass { machine, order },
        Some(left) => Op::Member {
            machine,
            order,
            left,
        },
    }
}
