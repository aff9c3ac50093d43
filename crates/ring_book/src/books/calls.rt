ghost use Rattle.std.specs.Prelude.{◌≡◌, ◌<◌, ◌≤◌, ◌+◌, ◌↔◌, true, false, List, length, IsOk, IfOk, IfErr, OnOk, OnErr, IsErrOf};
ghost use Rattle.ring_model.specs.Ring.{is_privileged, is_settled, rest};
ghost use Rattle.ring_model.specs.RepairLaws.{passes_left};
ghost use Rattle.ring_model.specs.History.{opening};
ghost use Rattle.ring_model.specs.HistoryLaws.{Settlement};
ghost use Rattle.ring_model.specs.declared.events.Event.{Event};
ghost use Rattle.ring_model.specs.Limits.{event_limit, seat_limit};
ghost use Rattle.ring_book.specs.BookView.{IsBook, IsRecorded};
ghost use Rattle.ring_book.specs.Repairs.{IsRepairedBy};

use crate::books::Book;
use crate::events::BookError;
use crate::resources::Resource;
use ring_model::{Op, Receipt};

impl<R: Resource + Drop> Book<R> {
    /// A pass by `machine`, which is below n: if it is privileged it does the resource's work on `order` and
    /// moves, else nothing changes; either way it is recorded as a call of `seat`, which is below `SEAT_LIMIT`.
    ///
    /// With room for an event the call takes no memory and is not refused.
    ///
    /// # Errors
    ///
    /// `HistoryFull` where the history has `EVENT_LIMIT` events, else `OutOfMemory`. Nothing has changed then.
    #[inline(always)]
    pub fn pass(&mut self, seat: u32, machine: u32, order: u64) -> Result<Receipt, BookError>
        requires seat { seat < seat_limit }
        requires machine { machine < length self.old.now.ring.values }
        ensures ok { IfOk result
            (λ r. IsRecorded R.works self.old self.new seat (Op.Pass machine order) r) }
        ensures book { IsBook R.works R.first self.new }
        ensures settlement { Settlement R.works (opening self.new.start R.first) self.new.history }
        ensures full { IsErrOf result BookError.HistoryFull
            ↔ (length self.old.history ≡ event_limit) }
        ensures err { OnErr result (self.new ≡ self.old) }
        ensures succeeds { 1 ≤ self.old.room → IsOk result }
        ensures room { OnOk result (self.old.room ≤ self.new.room + 1) }
    {
        self.parts.events.reserve(1)?; // before the work
        Ok(self.parts.pass(seat, machine, order))
    }

    /// A pass by `machine`, which is privileged, where there is room for an event: it is granted, takes no memory and is not refused.
    #[inline(always)]
    pub fn grant(&mut self, seat: u32, machine: u32, order: u64) -> Receipt
        requires seat { seat < seat_limit }
        requires machine { machine < length self.old.now.ring.values }
        requires privileged { is_privileged self.old.now.ring.values machine ≡ true }
        requires room { 1 ≤ self.old.room }
        ensures recorded { IsRecorded R.works self.old self.new seat (Op.Pass machine order) result }
        ensures book { IsBook R.works R.first self.new }
        ensures settlement { Settlement R.works (opening self.new.start R.first) self.new.history }
        ensures room { self.old.room ≤ self.new.room + 1 }
    {
        self.parts.grant(seat, machine, order, None)
    }

    /// A fault: `value`, which is below K, is written into `machine`, which is below n. It is recorded as a
    /// call of `seat`, which is below `SEAT_LIMIT`, also where the value is the one that was there.
    ///
    /// With room for an event the call takes no memory and is not refused.
    ///
    /// # Errors
    ///
    /// `HistoryFull` where the history has `EVENT_LIMIT` events, else `OutOfMemory`. Nothing has changed then.
    pub fn corrupt(&mut self, seat: u32, machine: u32, value: u32) -> Result<Receipt, BookError>
        requires seat { seat < seat_limit }
        requires machine { machine < length self.old.now.ring.values }
        requires value { value < self.old.now.ring.k }
        ensures ok { IfOk result
            (λ r. IsRecorded R.works self.old self.new seat (Op.Corrupt machine value) r) }
        ensures book { IsBook R.works R.first self.new }
        ensures settlement { Settlement R.works (opening self.new.start R.first) self.new.history }
        ensures full { IsErrOf result BookError.HistoryFull
            ↔ (length self.old.history ≡ event_limit) }
        ensures err { OnErr result (self.new ≡ self.old) }
        ensures succeeds { 1 ≤ self.old.room → IsOk result }
        ensures room { OnOk result (self.old.room ≤ self.new.room + 1) }
    {
        self.parts.events.reserve(1)?; // before the write
        Ok(self.parts.corrupt(seat, machine, value))
    }

    /// Takes memory for `more` events, so that as many passes, corruptions and members of groups take none and are
    /// not refused for lack of room.
    ///
    /// # Errors
    ///
    /// `HistoryFull` where the history would have more than `EVENT_LIMIT` events, else `OutOfMemory`. Nothing has
    /// changed then.
    pub fn reserve(&mut self, more: u32) -> Result<(), BookError>
        ensures ok { OnOk result (more ≤ self.new.room) }
        ensures same { self.new ≡ record self.old { room = self.new.room } }
        ensures grows { self.old.room ≤ self.new.room }
        ensures book { IsBook R.works R.first self.new }
        ensures full { IsErrOf result BookError.HistoryFull
            ↔ (event_limit < length self.old.history + more) }
        ensures succeeds { more ≤ self.old.room → IsOk result }
        ensures err { OnErr result (self.new ≡ self.old) }
    {
        self.parts.events.reserve(more)
    }

    /// Passes the first privileged machine with order 0, as calls of `seat`, which is below `SEAT_LIMIT`, until exactly
    /// one machine is privileged. Answers the number of these passes, which the state before determines, and which is at
    /// most n - 1 and at most the rest there was; in a ring with one privileged machine it is 0 and nothing is recorded,
    /// also where the history is full.
    ///
    /// # Errors
    ///
    /// As for `pass`. The passes that were granted until then stay recorded.
    pub fn settle(&mut self, seat: u32) -> Result<u64, BookError>
        requires { seat < seat_limit }
        ensures repairs { (passes : List Event)
            × IsRepairedBy R.works self.old self.new seat passes }
        ensures ok { OnOk result (is_settled self.new.now.ring.values ≡ true) }
        ensures number { IfOk result
            (λ passes. length self.new.history ≡ length self.old.history + passes) }
        ensures few { IfOk result (λ passes. passes ≤ rest self.old.now.ring) }
        ensures count { IfOk result (λ passes. passes ≡ passes_left self.old.now.ring) }
        ensures soon { IfOk result (λ passes. passes + 1 ≤ length self.old.now.ring.values) }
        ensures none { is_settled self.old.now.ring.values ≡ true → result ≡ Ok 0 }
        ensures book { IsBook R.works R.first self.new }
        ensures settlement { Settlement R.works (opening self.new.start R.first) self.new.history }
        ensures full { IfErr result
            (λ e. (e ≡ BookError.HistoryFull) ↔ (length self.new.history ≡ event_limit)) }
        ensures err { OnErr result (is_settled self.new.now.ring.values ≡ false) }
        ensures succeeds { rest self.old.now.ring ≤ self.old.room → IsOk result }
        ensures fits { passes_left self.old.now.ring ≤ self.old.room → IsOk result }
    {
        let mut passes = 0;
        while !self.is_settled() {
            let machine = self.state().first();
            self.pass(seat, machine, 0)?;
            passes += 1;
        }
        Ok(passes)
    }

    /// Whether exactly one machine is privileged.
    fn is_settled(&self) -> bool
        ensures is { result ≡ is_settled self.now.now.ring.values }
        ensures book { IsBook R.works R.first self.now }
    {
        self.parts.tally.is_settled()
    }
}
