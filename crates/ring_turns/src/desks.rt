//! The clients that wait for a turn at a ring, and since when.
ghost use Rattle.std.specs.Prelude.{◌≡◌, ◌<◌, ◌≤◌, ◌+◌, ◌++◌, ◌∷◌, ◌↔◌, [], ℕ, Some, length, drop, slice_get, MatchBool, IfOk, OnErr, IsErrOf};
ghost use mathlib.Core.List.{IsPrefix};
ghost use Rattle.ring_model.specs.Grants.{grants_of};
ghost use Rattle.ring_model.specs.Groups.{IsHistory};
ghost use Rattle.ring_model.specs.History.{opening};
ghost use Rattle.ring_model.specs.Limits.{event_limit, seat_limit};
ghost use Rattle.ring_model.specs.Ring.{IsRing};
ghost use Rattle.ring_model.specs.Surveys.{survey_at};
ghost use Rattle.ring_turns.specs.Looking.{IsDeskAfter, IsFirst, IsGrantedPass, IsLook};
ghost use Rattle.ring_shared.specs.Client.{IsUnchanged};
ghost use Rattle.ring_turns.specs.Spared.{on_order};
ghost use Rattle.ring_turns.specs.Waiting.{AreWaiting, HasLeft, HasWaited};

use crate::spared::PASS_ON;
use ring_book::{BookError, Resource};
use ring_model::limits::{EVENT_LIMIT, SEAT_LIMIT};
use ring_model::{Entry, Event, Op, Receipt};
use ring_shared::{Front, Name, Ring, Seat};
use std::alloc::AllocError;
use std::sync::Wait;

/// The result of a client's look at the desk.
#[derive(Clone, Copy, Debug, PartialEq, Eq)]
pub(crate) enum Look {
    /// Its turn.
    Taken(Receipt),
    /// The first privileged machine was another's, whose client does not wait: it was passed on.
    PassedOn(Receipt),
    /// The first privileged machine is another's, whose client waits.
    Waits,
}

/// The clients of a ring that wait, each with the place of the history at which it asked, and all that was seen of the
/// history.
///
/// While a client waits its machine is granted nothing.
#[derive(Drop)]
pub(crate) struct Desk<N: Name> {
    last: Front<N>,
    waits: [Option<u64>; SEAT_LIMIT],
    ghost kept: { AreWaiting waits last },
}

impl<N: Name> Desk<N> {
    /// A desk at which nobody waits.
    pub(crate) fn new(last: Front<N>) -> Desk<N> {
        Desk {
            last,
            waits: [None; SEAT_LIMIT],
        }
    }

    /// Whether the client of the machine waits.
    fn is_left_to(&self, machine: u32) -> bool
        ensures { MatchBool result
            ((p : ℕ) × (slice_get self.now.waits machine ≡ Some (Some p)))
            ((p : ℕ) → slice_get self.now.waits machine ≡ Some (Some p) → ⊥) }
    {
        let machine = machine as usize;
        machine < self.waits.len() && self.waits[machine].is_some()
    }

    /// The client waits from now on, at the end of the history.
    fn wait_from_now(&mut self, client: u32)
        requires { client < seat_limit }
        ensures { self.new.last ≡ self.old.last }
    {
        self.waits[client as usize] = Some(self.last.len());
    }

    /// The client waits no more.
    fn leave(&mut self, client: u32)
        requires { client < seat_limit }
        ensures last { self.new.last ≡ self.old.last }
        ensures left { HasLeft self.old.waits self.new.waits client }
    {
        self.waits[client as usize] = None;
    }

    /// Returns only if the client waits since this place. It does: only its own calls, which have the seat, write down
    /// that it waits.
    fn surely_waits<W: Wait>(&self, rt: &W, client: u32, asked_at: u64)
        requires { client < seat_limit }
        ensures { slice_get self.now.waits client ≡ Some (Some asked_at) }
    {
        for _ in rt.forever() {
            if self.waits[client as usize] == Some(asked_at) {
                return;
            }
        }
        unreachable!()
    }

    /// The client waits no more; it did since this place, and its machine was granted nothing.
    fn end_wait<W: Wait>(&mut self, rt: &W, client: u32, asked_at: u64)
        requires { client < seat_limit }
        ensures last { self.new.last ≡ self.old.last }
        ensures left { HasLeft self.old.waits self.new.waits client }
        ensures waited { asked_at ≤ length self.old.last }
        ensures none { grants_of client (drop asked_at self.old.last) ≡ 0 }
    {
        self.surely_waits(rt, client, asked_at);
        self.leave(client);
    }

    /// Why a call was refused that the ring refused: the history is full, or memory ran out.
    fn refusal(&self) -> BookError
        ensures { result ≡ BookError.HistoryFull ↔ length self.now.last ≡ event_limit }
    {
        if self.last.len() >= EVENT_LIMIT as u64 {
            BookError::HistoryFull
        } else {
            BookError::OutOfMemory
        }
    }

    /// One pass more, by a machine whose client does not wait.
    fn record(&mut self, seen: Front<N>, machine: u32, order: u64, event: Event)
        requires one { seen ≡ self.old.last ++ event ∷ [] }
        requires call { event.op ≡ Op.Pass machine order }
        requires free { (p : ℕ) → slice_get self.old.waits machine ≡ Some (Some p) → ⊥ }
        ensures last { self.new.last ≡ seen }
        ensures same { self.new.waits ≡ self.old.waits }
    {
        self.last = seen;
    }

    /// One fault more.
    fn note(&mut self, seen: Front<N>, machine: u32, value: u32, event: Event)
        requires one { seen ≡ self.old.last ++ event ∷ [] }
        requires call { event.op ≡ Op.Corrupt machine value }
        ensures last { self.new.last ≡ seen }
        ensures same { self.new.waits ≡ self.old.waits }
    {
        self.last = seen;
    }

    /// Returns only if all that the seat has seen is the list that was seen last, and this event after it. It is: the
    /// desk sees each event, since nobody calls the ring beside it.
    fn surely_one_more<W: Wait>(&self, rt: &W, seen: &Front<N>, receipt: Receipt)
        requires length { length seen.now ≡ receipt.position + 1 }
        requires event { slice_get seen.now receipt.position ≡ Some receipt.event }
        ensures { seen.now ≡ self.now.last ++ receipt.event ∷ [] }
    {
        self.last.compare(seen); // says: the shorter of the two is a prefix of the longer
        for _ in rt.forever() {
            if receipt.position == self.last.len() {
                return;
            }
        }
        unreachable!()
    }

    /// Returns only if the front is the list that was seen last. It is, as above.
    fn surely_last<W: Wait>(&self, rt: &W, seen: &Front<N>)
        ensures { seen.now ≡ self.now.last }
    {
        self.last.compare(seen); // says: the shorter of the two is a prefix of the longer
        for _ in rt.forever() {
            if seen.len() == self.last.len() {
                return;
            }
        }
        unreachable!()
    }

    /// Asks for a turn: the client waits from now on, and has surveyed the ring at the place that is answered.
    ///
    /// # Errors
    ///
    /// If there is no memory for the seat's log. Nothing has changed then.
    pub(crate) fn ask<R: Resource + Drop, W: Wait>(
        &mut self,
        rt: &W,
        ring: &Ring<N, R>,
        seat: &mut Seat<N>,
    ) -> Result<u64, AllocError>
        ensures place { IfOk result (λ p. p ≡ length seat.new.seen) }
        ensures logged { IfOk result (λ p. seat.new.log
            ≡ seat.old.log
            ++ Entry.Survey (survey_at R.works (opening N.start R.first) seat.new.seen p) ∷ []) }
        ensures number { seat.new.number ≡ seat.old.number }
        ensures later { IsPrefix seat.old.seen seat.new.seen }
        ensures err { OnErr result (IsUnchanged seat.old seat.new) }
    {
        ring.survey(seat)?;
        let seen = seat.seen();
        self.surely_last(rt, &seen);
        self.wait_from_now(seat.number());
        Ok(seen.len())
    }

    /// The first privileged machine after the whole history, which the seat has seen then.
    fn first_privileged<R: Resource + Drop, W: Wait>(
        &self,
        rt: &W,
        ring: &Ring<N, R>,
        seat: &mut Seat<N>,
    ) -> u32
        requires start { IsRing N.start }
        ensures first { IsFirst R.works (opening N.start R.first) self.now.last result }
        ensures seen { seat.new.seen ≡ self.now.last }
        ensures machine { result < length N.start.values }
        ensures number { seat.new.number ≡ seat.old.number }
        ensures log { seat.new.log ≡ seat.old.log }
        ensures room { seat.new.room ≡ seat.old.room }
        ensures later { IsPrefix seat.old.seen seat.new.seen }
    {
        let first = ring.glance(seat).first;
        let seen = seat.seen();
        self.surely_last(rt, &seen);
        first
    }

    /// A pass of the ring by the first privileged machine, whose client does not wait. It is granted.
    fn pass<R: Resource + Drop, W: Wait>(
        &mut self,
        rt: &W,
        ring: &Ring<N, R>,
        seat: &mut Seat<N>,
        machine: u32,
        order: u64,
    ) -> Result<Receipt, BookError>
        requires start { IsRing N.start }
        requires machine { machine < length N.start.values }
        requires first { IsFirst R.works (opening N.start R.first) self.old.last machine }
        requires free { (p : ℕ) → slice_get self.old.waits machine ≡ Some (Some p) → ⊥ }
        ensures place { IfOk result (λ r. seat.new.seen ≡ self.old.last ++ r.event ∷ []) }
        ensures told { IfOk result (λ r.
            IsGrantedPass R.works (opening N.start R.first) seat.old seat.new machine order r) }
        ensures waits { self.new.waits ≡ self.old.waits }
        ensures number { seat.new.number ≡ seat.old.number }
        ensures later { IsPrefix seat.old.seen seat.new.seen }
        ensures full { IsErrOf result BookError.HistoryFull → length self.old.last ≡ event_limit }
        ensures err { OnErr result (IsUnchanged seat.old seat.new) }
    {
        let Ok(receipt) = ring.pass(rt, seat, machine, order) else {
            return Err(self.refusal());
        };
        let seen = seat.seen();
        self.surely_one_more(rt, &seen, receipt);
        self.record(seen, machine, order, receipt.event);
        Ok(receipt)
    }

    /// The turn of a client that waits since this place, and whose machine is the first that is privileged. It waits no more
    /// then, also if it is refused.
    fn turn<R: Resource + Drop, W: Wait>(
        &mut self,
        rt: &W,
        ring: &Ring<N, R>,
        seat: &mut Seat<N>,
        asked_at: u64,
        order: u64,
    ) -> Result<Receipt, BookError>
        requires start { IsRing N.start }
        requires machine { seat.old.number < length N.start.values }
        requires first { IsFirst R.works (opening N.start R.first) self.old.last seat.old.number }
        ensures told { IfOk result (λ r. IsGrantedPass R.works (opening N.start R.first) seat.old
            seat.new seat.old.number order r) }
        ensures waited { IfOk result (λ r. HasWaited R.works (opening N.start R.first) seat.new.seen
            seat.old.number asked_at r.position) }
        ensures left { HasLeft self.old.waits self.new.waits seat.old.number }
        ensures number { seat.new.number ≡ seat.old.number }
        ensures later { IsPrefix seat.old.seen seat.new.seen }
        ensures full { IsErrOf result BookError.HistoryFull → length self.old.last ≡ event_limit }
        ensures err { OnErr result (IsUnchanged seat.old seat.new) }
    {
        let me = seat.number();
        self.end_wait(rt, me, asked_at);
        let receipt = self.pass(rt, ring, seat, me, order)?;
        Ok(receipt)
    }

    /// Passes on the first privileged machine, whose client does not wait. If that is refused, the client of this seat waits no
    /// more, and every other client waits as it did.
    fn pass_on<R: Resource + Drop, W: Wait>(
        &mut self,
        rt: &W,
        ring: &Ring<N, R>,
        seat: &mut Seat<N>,
        machine: u32,
    ) -> Result<Receipt, BookError>
        requires start { IsRing N.start }
        requires machine { machine < length N.start.values }
        requires first { IsFirst R.works (opening N.start R.first) self.old.last machine }
        requires free { (p : ℕ) → slice_get self.old.waits machine ≡ Some (Some p) → ⊥ }
        ensures told { IfOk result (λ r.
            IsGrantedPass R.works (opening N.start R.first) seat.old seat.new machine on_order r) }
        ensures same { IfOk result (λ _. self.new.waits ≡ self.old.waits) }
        ensures left { OnErr result (HasLeft self.old.waits self.new.waits seat.old.number) }
        ensures number { seat.new.number ≡ seat.old.number }
        ensures later { IsPrefix seat.old.seen seat.new.seen }
        ensures full { IsErrOf result BookError.HistoryFull → length self.old.last ≡ event_limit }
        ensures err { OnErr result (IsUnchanged seat.old seat.new) }
    {
        match self.pass(rt, ring, seat, machine, PASS_ON) {
            Ok(receipt) => Ok(receipt),
            Err(error) => {
                self.leave(seat.number());
                Err(error)
            }
        }
    }

    /// One look at the ring for a client that waits since this place: its turn, if its machine is the first that is
    /// privileged; else another's machine is passed on, if its client does not wait. If that is refused, the client waits no
    /// more, and every other client waits as it did.
    pub(crate) fn look<R: Resource + Drop, W: Wait>(
        &mut self,
        rt: &W,
        ring: &Ring<N, R>,
        seat: &mut Seat<N>,
        asked_at: u64,
        order: u64,
    ) -> Result<Look, BookError>
        requires start { IsRing N.start }
        requires machine { seat.old.number < length N.start.values }
        ensures look { IfOk result
            (λ l. IsLook R.works (opening N.start R.first) seat.old seat.new asked_at order l) }
        ensures desk { IfOk result (λ l. IsDeskAfter R.works (opening N.start R.first) seat.new.seen
            self.old.waits self.new.waits seat.old.number l) }
        ensures number { seat.new.number ≡ seat.old.number }
        ensures later { IsPrefix seat.old.seen seat.new.seen }
        ensures full { IsErrOf result BookError.HistoryFull → length seat.new.seen ≡ event_limit }
        ensures left { OnErr result (HasLeft self.old.waits self.new.waits seat.old.number) }
        ensures err { OnErr result (seat.new.log ≡ seat.old.log) }
    {
        let first = self.first_privileged(rt, ring, seat);
        if first == seat.number() {
            let receipt = self.turn(rt, ring, seat, asked_at, order)?;
            return Ok(Look::Taken(receipt));
        }
        if self.is_left_to(first) {
            return Ok(Look::Waits);
        }
        let receipt = self.pass_on(rt, ring, seat, first)?;
        Ok(Look::PassedOn(receipt))
    }

    /// A fault, which is not a grant of any machine.
    pub(crate) fn corrupt<R: Resource + Drop, W: Wait>(
        &mut self,
        rt: &W,
        ring: &Ring<N, R>,
        seat: &mut Seat<N>,
        machine: u32,
        value: u32,
    ) -> Result<Receipt, BookError>
        requires machine { machine < length N.start.values }
        requires value { value < N.start.k }
        ensures call { IfOk result
            (λ r. (r.event.seat ≡ seat.old.number) × (r.event.op ≡ Op.Corrupt machine value)) }
        ensures number { seat.new.number ≡ seat.old.number }
        ensures logged { IfOk result (λ r. seat.new.log ≡ seat.old.log ++ Entry.Receipt r ∷ []) }
        ensures told { IfOk result (λ r. (length seat.new.seen ≡ r.position + 1)
            × (slice_get seat.new.seen r.position ≡ Some r.event)) }
        ensures legal_and_whole { IfOk result
            (λ r. IsHistory R.works (opening N.start R.first) seat.new.seen) }
        ensures waits { self.new.waits ≡ self.old.waits }
        ensures later { IsPrefix seat.old.seen seat.new.seen }
        ensures full { IsErrOf result BookError.HistoryFull → length self.old.last ≡ event_limit }
        ensures err { OnErr result (IsUnchanged seat.old seat.new) }
    {
        let Ok(receipt) = ring.corrupt(rt, seat, machine, value) else {
            return Err(self.refusal());
        };
        let seen = seat.seen();
        self.surely_one_more(rt, &seen, receipt);
        self.note(seen, machine, value, receipt.event);
        Ok(receipt)
    }
}
