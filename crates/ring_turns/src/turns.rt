//! The turns of the clients of one ring.
ghost use Rattle.std.specs.Prelude.{◌≡◌, ◌<◌, ◌+◌, ◌++◌, ◌∷◌, ◌↔◌, [], All, length, map, eqb, vec_len, slice_get, Some, IfOk, IfErr, OnErr, IsErr, IsErrOf, MatchResult};
ghost use Rattle.std.specs.List.{IsDistinct};
ghost use mathlib.Core.List.{IsPrefix};
ghost use Rattle.ring_book.specs.BookView.{IsBook};
ghost use Rattle.ring_model.specs.Groups.{IsHistory};
ghost use Rattle.ring_model.specs.History.{opening};
ghost use Rattle.ring_model.specs.HistoryLaws.{Settlement};
ghost use Rattle.ring_model.specs.Limits.{event_limit};
ghost use Rattle.ring_model.specs.Logs.{Fits, calls_of, receipts_of};
ghost use Rattle.ring_model.specs.Progress.{Progress};
ghost use Rattle.ring_model.specs.Ring.{IsRing};
ghost use Rattle.ring_model.specs.Surveys.{survey_at};
ghost use Rattle.ring_shared.specs.Closing.{HasLog, AreNumbered};
ghost use Rattle.ring_shared.specs.Seats.{AreOfSeats};
ghost use Rattle.ring_turns.specs.Spared.{spared};
ghost use Rattle.ring_turns.specs.Turning.{HasPassedOn, HasNoTurn, IsTaken, IsTurn};
ghost use Rattle.ring_shared.specs.Client.{IsUnchanged};
ghost use Rattle.ring_turns.specs.Waiting.{HasWaited};

use crate::desks::{Desk, Look};
use crate::spared::Spared;
use ring_book::{BookError, Resource};
use ring_model::{Entry, Op, Receipt};
use ring_shared::{CloseFault, CloseReason, Closed, Name, Ring, Seat};
use std::alloc::{AllocError, Global};
use std::marker::Model;
use std::sync::{Condvar, Mutex, MutexGuard, Wait};

/// A turn that a client had: how many events the history had when it asked, and the receipt of its pass.
#[derive(Clone, Copy, Debug, PartialEq, Eq)]
pub struct Turn {
    pub asked_at: u64,
    pub receipt: Receipt,
}

/// A ring that has fewer machines than it is to have clients, handed back. It ends by its `close`, and by nothing else.
pub struct TooFewMachines<N: Name, R: Resource + Drop> {
    pub ring: Ring<N, Spared<R>>,
}

/// A ring whose clients take turns. Contracts see how many clients it has: those with the seats of lower numbers. The
/// client with the seat of number i has machine i and no other. It ends by `close`, and by nothing else.
pub struct Turns<N: Name, R: Resource + Drop> {
    ring: Ring<N, Spared<R>>,
    desk: Mutex<Desk<N>>,
    moved: Condvar,
    clients: u32,
}

impl<N: Name, R: Resource + Drop> Model for Turns<N, R> {
    ghost use Rattle.std.specs.Prelude.{◌≤◌, ℕ, length};
    ghost use Rattle.ring_model.specs.Ring.{IsRing};

    ghost Value = { ℕ };

    ghost view = { λ t. t.clients };

    ghost invariant = { λ t. (t.clients ≤ length N.start.values) × IsRing N.start };
}

/// Waits until the client's machine comes up, and passes it; meanwhile machines whose clients do not wait are passed on.
/// The client has asked at this place. The desk is left between any two looks, so that others can ask.
fn await_turn<N: Name, R: Resource + Drop, W: Wait>(
    rt: &W,
    turns: &Turns<N, R>,
    seat: &mut Seat<N>,
    asked_at: u64,
    order: u64,
) -> Result<Receipt, BookError>
    requires client { seat.old.number < turns.now }
    ensures told { IfOk result (λ r.
        IsTaken (spared R.works) (opening N.start R.first) seat.old seat.new asked_at order r) }
    ensures number { seat.new.number ≡ seat.old.number }
    ensures later { IsPrefix seat.old.seen seat.new.seen }
    ensures full { IsErrOf result BookError.HistoryFull → length seat.new.seen ≡ event_limit }
    ensures err { OnErr result (HasPassedOn seat.old.number seat.old.log seat.new.log) }
{
    for _ in rt.forever() {
        let mut desk = turns.desk.lock(rt);
        match desk.look(rt, &turns.ring, seat, asked_at, order) {
            Ok(Look::Taken(receipt)) => {
                turns.leave(desk);
                return Ok(receipt);
            }
            Ok(Look::PassedOn(_)) => turns.leave(desk),
            Ok(Look::Waits) => {
                MutexGuard::unlock(turns.moved.wait(rt, desk));
            }
            Err(error) => {
                turns.leave(desk);
                return Err(error);
            }
        }
    }
    unreachable!()
}

impl<N: Name, R: Resource + Drop> Turns<N, R> {
    /// Turns at a ring for `clients` clients. They begin with all that the ring's seats have called before.
    ///
    /// # Errors
    ///
    /// `TooFewMachines` if the ring has fewer machines than clients; the ring is handed back.
    pub fn new(
        ring: Ring<N, Spared<R>>,
        clients: u32,
        machines: u32,
    ) -> Result<Turns<N, R>, TooFewMachines<N, R>>
        requires machines { machines ≡ length N.start.values }
        requires start { IsRing N.start }
        ensures ok { IfOk result (λ t. t ≡ clients) }
        ensures few { IsErr result ↔ machines < clients }
    {
        if machines < clients {
            return Err(TooFewMachines { ring });
        }
        let mut ring = ring;
        let seen = ring.seen();
        Ok(Turns {
            ring,
            desk: Mutex::new(Desk::new(seen)),
            moved: Condvar::new(),
            clients,
        })
    }

    /// Leaves the desk after a change, which it signals to all that wait.
    fn leave(&self, desk: MutexGuard<'_, Desk<N>>) {
        self.moved.notify_all();
        MutexGuard::unlock(desk);
    }

    /// Asks for a turn, and answers where.
    fn ask<W: Wait>(&self, rt: &W, seat: &mut Seat<N>) -> Result<u64, AllocError>
        ensures place { IfOk result (λ p. p ≡ length seat.new.seen) }
        ensures logged { IfOk result (λ p. seat.new.log
            ≡ seat.old.log
            ++ Entry.Survey
            (survey_at (spared R.works) (opening N.start R.first) seat.new.seen p) ∷ []) }
        ensures number { seat.new.number ≡ seat.old.number }
        ensures later { IsPrefix seat.old.seen seat.new.seen }
        ensures err { OnErr result (IsUnchanged seat.old seat.new) }
    {
        let mut desk = self.desk.lock(rt);
        let asked = desk.ask(rt, &self.ring, seat);
        MutexGuard::unlock(desk);
        asked
    }

    /// Takes a turn: asks, waits until the client's machine comes up, and passes it on this order. Meanwhile the client passes
    /// on each machine whose client does not wait.
    ///
    /// - A client without rivals pays an event for each machine of the others, up to n for a turn.
    /// - A client that does not ask before its machine comes up loses that round.
    /// - A corruption voids the bound on what others are granted, for the clients that wait meanwhile.
    /// - A turn on the order `PASS_ON` does no work.
    /// - It waits for the other clients that ask: a thread that is stopped within its turn stops them all.
    ///
    /// # Errors
    ///
    /// `HistoryFull` only if the history has `EVENT_LIMIT` events, all of which the seat has seen then; `OutOfMemory`. The client
    /// waits no more then, no other client is put off, and all that wait look again. The log may have the survey by which the
    /// client asked, and machines that it passed on. The seat can ask again.
    pub fn take_turn<W: Wait>(
        &self,
        rt: &W,
        seat: &mut Seat<N>,
        order: u64,
    ) -> Result<Turn, BookError>
        requires client { seat.old.number < self.now }
        ensures turn { IfOk result
            (λ t. IsTurn (spared R.works) (opening N.start R.first) seat.old seat.new order t) }
        ensures waited { IfOk result (λ t. HasWaited (spared R.works) (opening N.start R.first)
            seat.new.seen seat.old.number t.asked_at t.receipt.position) }
        ensures number { seat.new.number ≡ seat.old.number }
        ensures later { IsPrefix seat.old.seen seat.new.seen }
        ensures full { IsErrOf result BookError.HistoryFull → length seat.new.seen ≡ event_limit }
        ensures err { OnErr result (HasNoTurn seat.old seat.new) }
    {
        let Ok(asked_at) = self.ask(rt, seat) else {
            return Err(BookError::OutOfMemory);
        };
        let receipt = await_turn(rt, self, seat, asked_at, order)?;
        Ok(Turn { asked_at, receipt })
    }

    /// Writes a value into a machine, as a fault, and has all that wait look again. It voids the bound of `waited` for them.
    ///
    /// # Errors
    ///
    /// `HistoryFull` if the history has `EVENT_LIMIT` events; `OutOfMemory`. Nothing has changed then.
    pub fn corrupt<W: Wait>(
        &self,
        rt: &W,
        seat: &mut Seat<N>,
        machine: u32,
        value: u32,
    ) -> Result<Receipt, BookError>
        requires machine { machine < length N.start.values }
        requires value { value < N.start.k }
        ensures call { IfOk result
            (λ r. (r.event.seat ≡ seat.old.number) × (r.event.op ≡ Op.Corrupt machine value)) }
        ensures number { seat.new.number ≡ seat.old.number }
        ensures logged { IfOk result (λ r. seat.new.log ≡ seat.old.log ++ Entry.Receipt r ∷ []) }
        ensures told { IfOk result (λ r. (length seat.new.seen ≡ r.position + 1)
            × (slice_get seat.new.seen r.position ≡ Some r.event)) }
        ensures legal_and_whole { IfOk result
            (λ r. IsHistory (spared R.works) (opening N.start R.first) seat.new.seen) }
        ensures later { IsPrefix seat.old.seen seat.new.seen }
        ensures err { OnErr result (IsUnchanged seat.old seat.new) }
    {
        let mut desk = self.desk.lock(rt);
        let result = desk.corrupt(rt, &self.ring, seat, machine, value);
        self.leave(desk);
        result
    }

    /// Ends the ring, as `Ring::close` does.
    pub fn close<W: Wait>(
        self,
        rt: &W,
        alloc: Global,
        seats: Vec<Seat<N>>,
    ) -> Result<Closed<Spared<R>>, CloseFault<N, Spared<R>>>
        requires { IsDistinct eqb (map (λ s. s.number) seats.items) }
        ensures start { IfOk result (λ c. c.book.start ≡ N.start) }
        ensures book { IfOk result (λ c. IsBook (spared R.works) R.first c.book) }
        ensures legal_and_whole { IfOk result
            (λ c. IsHistory (spared R.works) (opening N.start R.first) c.book.history) }
        ensures settlement { IfOk result
            (λ c. Settlement (spared R.works) (opening N.start R.first) c.book.history) }
        ensures progress { IfOk result
            (λ c. Progress (spared R.works) (opening N.start R.first) c.book.history) }
        ensures logs { IfOk result (λ c. (vec_len c.logs ≡ N.seats)
            × AreNumbered c.logs.items
            × All (HasLog c.logs.items) seats.items) }
        ensures of_seats { IfOk result (λ c. AreOfSeats N.seats c.book.history) }
        ensures fits { IfOk result (λ c. All (λ l.
            Fits (spared R.works) (opening N.start R.first) c.book.history l.seat l.entries.items)
            c.logs.items) }
        ensures calls { IfOk result (λ c. All
            (λ l. length (calls_of l.seat c.book.history) ≡ length (receipts_of l.entries.items))
            c.logs.items) }
        ensures seen { IfOk result (λ c. All (λ s. IsPrefix s.seen c.book.history) seats.items) }
        ensures missing { MatchResult result (λ _. ⊥) (λ f. f.reason ≡ CloseReason.SeatsMissing)
            ↔ vec_len seats < N.seats }
        ensures mismatch { IfErr result (λ f. f.reason ≡ CloseReason.Mismatch
            → All
            (λ s. Fits (spared R.works) (opening N.start R.first) f.book.history s.number s.log)
            seats.items → ⊥) }
        ensures fault { IfErr result (λ f. (f.book.start ≡ N.start)
            × IsBook (spared R.works) R.first f.book
            × AreOfSeats N.seats f.book.history
            × (f.seats.items ≡ seats.items)) }
    {
        let Turns {
            ring,
            desk: _desk,
            moved: _moved,
            clients: _,
        } = self;
        ring.close(rt, alloc, seats)
    }
}
