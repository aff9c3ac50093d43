ghost use Rattle.std.specs.Prelude.{◌≡◌, ◌≢◌, ◌<◌, ◌≤◌, ◌+◌, ◌↔◌, ℕ, true, length, IsOk, IfOk, OnOk, OnErr, IsErrOf, IfSome, IsNone};
ghost use Rattle.ring_model.specs.Ring.{is_privileged};
ghost use Rattle.ring_model.specs.History.{opening};
ghost use Rattle.ring_model.specs.HistoryLaws.{Settlement};
ghost use Rattle.ring_model.specs.Groups.{Rises};
ghost use Rattle.ring_model.specs.GroupLaws.{AreAllPrivileged, CanMove};
ghost use Rattle.ring_model.specs.Limits.{event_limit, seat_limit};
ghost use Rattle.ring_book.specs.BookView.{IsBook};
ghost use Rattle.ring_book.specs.GroupView.{IsLeastWithout, IsGroupRecorded};

use crate::books::Book;
use crate::events::BookError;
use crate::resources::Resource;
use ring_state::RingState;
use thiserror::Error;

/// The place of the block of a group in the history: its first position, and how many members it has.
#[derive(Clone, Copy, Debug, PartialEq, Eq)]
pub struct GroupReceipt {
    pub first: u64,
    pub count: u32,
}

/// Why a book refuses a group.
#[derive(Clone, Copy, Debug, Drop, Error, PartialEq, Eq)]
pub enum GroupError {
    #[error("the group is the whole ring")]
    WholeRing,
    #[error("machine {0} is not privileged")]
    NotPrivileged(u32),
    #[error("a history is full")]
    HistoryFull,
    #[error("out of memory")]
    OutOfMemory,
}

impl<R: Resource + Drop> Book<R> {
    /// A pass by a group of machines at once, which are strictly increasing, below n and at least one: each
    /// does the resource's work on `order`, and all move. Each is recorded as a member, a call of `seat`,
    /// which is below `SEAT_LIMIT`, in an order in which each of them could also have passed by itself.
    ///
    /// With room for as many events as machines the call takes no memory, and is never refused because
    /// memory or places run out.
    ///
    /// # Errors
    ///
    /// The first that applies: `WholeRing` where the group is all n machines; `NotPrivileged` with the least
    /// machine of the group that is not privileged; `HistoryFull` where the history would have more than
    /// `EVENT_LIMIT` events; `OutOfMemory`. Nothing has changed then.
    pub fn pass_group(
        &mut self,
        seat: u32,
        machines: &[u32],
        order: u64,
    ) -> Result<GroupReceipt, GroupError>
        requires seat { seat < seat_limit }
        requires rising { Rises 0 (length self.old.now.ring.values) machines.now }
        requires some { 1 ≤ length machines.now }
        ensures ok { IfOk result
            (λ r. IsGroupRecorded R.works self.old self.new seat order machines.now r) }
        ensures book { IsBook R.works R.first self.new }
        ensures settlement { Settlement R.works (opening self.new.start R.first) self.new.history }
        ensures whole { IsErrOf result GroupError.WholeRing
            ↔ (length machines.now ≡ length self.old.now.ring.values) }
        ensures unprivileged { (m : ℕ)
            → IsErrOf result (GroupError.NotPrivileged m)
            ↔ (length machines.now ≢ length self.old.now.ring.values)
            × IsLeastWithout self.old.now.ring.values machines.now m }
        ensures full { IsErrOf result GroupError.HistoryFull
            ↔ CanMove self.old.now.ring.values machines.now
            × (event_limit < length self.old.history + length machines.now) }
        ensures err { OnErr result (self.new ≡ self.old) }
        ensures succeeds { CanMove self.old.now.ring.values machines.now
            → length machines.now ≤ self.old.room → IsOk result }
        ensures room { OnOk result (self.old.room ≤ self.new.room + length machines.now) }
    {
        if machines.len() == self.parts.ring.params().n() as usize {
            return Err(GroupError::WholeRing);
        }
        if let Some(machine) = first_unprivileged(&self.parts.ring, machines) {
            return Err(GroupError::NotPrivileged(machine));
        }
        let count = machines.len() as u32;
        match self.parts.events.reserve(count) {
            Ok(()) => {}
            Err(BookError::HistoryFull) => return Err(GroupError::HistoryFull),
            Err(BookError::OutOfMemory) => return Err(GroupError::OutOfMemory),
        }
        let first = self.parts.events.as_slice().len() as u64;
        self.parts.grant_group(seat, machines, order);
        Ok(GroupReceipt { first, count })
    }
}

/// The least machine of a group that is not privileged.
fn first_unprivileged(ring: &RingState, machines: &[u32]) -> Option<u32>
    requires { Rises 0 (length ring.now.values) machines.now }
    ensures some { IfSome result (λ m. IsLeastWithout ring.now.values machines.now m) }
    ensures none { IsNone result → AreAllPrivileged ring.now.values machines.now }
{
    for machine in machines {
        if !ring.is_privileged(*machine) {
            return Some(*machine);
        }
    }
    None
}
