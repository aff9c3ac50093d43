//! Rings that threads share: how they are opened, and the calls of their seats.
ghost use Rattle.std.specs.Prelude.{◌≡◌, ◌<◌, ◌≤◌, ◌+◌, ◌++◌, ◌∷◌, [], length, map, eqb, drop, fold, IsOk, IfOk, IfErr, OnErr, IsErrOf};
ghost use Rattle.std.specs.List.{IsDistinct};
ghost use mathlib.Core.List.{IsPrefix};
ghost use Rattle.ring_model.specs.Ring.{bound};
ghost use Rattle.ring_model.specs.Limits.{seat_limit};
ghost use Rattle.ring_model.specs.Groups.{IsHistory, Rises};
ghost use Rattle.ring_model.specs.History.{opening};
ghost use Rattle.ring_model.specs.Surveys.{survey_at};
ghost use Rattle.ring_state.specs.Sizes.{IsRingState};
ghost use Rattle.ring_shared.specs.Calls.{IsToldCall};
ghost use Rattle.ring_shared.specs.Client.{IsFreshClient, IsUnchanged};
ghost use Rattle.ring_shared.specs.Groups.{IsGroupLogged, IsRefusedFor};
ghost use Rattle.ring_shared.specs.Holding.{MeansLegal};
ghost use Rattle.ring_logs.specs.Seats.{AreOfSeats};
ghost use Rattle.ring_shared.specs.Opening.{AreFresh};
ghost use Rattle.ring_shared.specs.Stepping.{stepped};

use crate::front::{Front, Opened};
use crate::locked::Locked;
use crate::names::Name;
use crate::seats::{RingReader, RingWriter, Seat};
use crate::shown::{Operation, Shown};
use left_right::Absorb;
use left_right::writer::Writer;
use ring_book::{Book, BookError, GroupError, GroupReceipt, Resource};
use ring_model::{Entry, Event, Op, Receipt, Survey};
use ring_state::RingState;
use std::alloc::{AllocError, Global};
use std::marker::Model;
use std::sync::{Mutex, MutexGuard, Wait};

/// A book, a number of seats and an empty list of events, for a ring that has no name yet.
///
/// Contracts see the three. The book has no events, and there are 1 to `SEAT_LIMIT` seats.
#[derive(Drop)]
pub struct Draft<R: Resource + Drop> {
    book: Book<R>,
    seats: u32,
    opened: Opened,
}

impl<R: Resource + Drop> Model for Draft<R> {
    ghost use Rattle.ring_shared.specs.Opening.{Drafted, IsDraft};

    ghost Value = { Drafted R };

    ghost view = { λ d. record { book = d.book; seats = d.seats; log = d.opened.seen.book } };

    ghost invariant = { λ d.
        IsDraft (record { book = d.book; seats = d.seats; log = d.opened.seen.book }) };
}

/// A draft that was not made: the book as it was.
#[derive(Drop)]
pub struct DraftFault<R: Resource + Drop> {
    pub reason: OpenReason,
    pub book: Book<R>,
}

impl<R: Resource + Drop> Draft<R> {
    /// Makes the draft of a ring over this book, which has no events, with 1 to `SEAT_LIMIT` seats.
    ///
    /// # Errors
    ///
    /// None today: the parts that take memory are made when the ring is opened.
    pub fn new(book: Book<R>, seats: u32) -> Result<Draft<R>, DraftFault<R>>
        requires some { 1 ≤ seats }
        requires most { seats ≤ seat_limit }
        requires empty { book.history ≡ [] }
        ensures always { IsOk result }
        ensures ok { IfOk result (λ d. (d.book ≡ book) × (d.seats ≡ seats)) }
        ensures err { IfErr result (λ f. f.book ≡ book) }
    {
        Ok(Draft {
            book,
            seats,
            opened: Opened::new(),
        })
    }
}

/// Why a ring was not opened.
#[derive(Clone, Copy, Debug, PartialEq, Eq)]
pub enum OpenReason {
    OutOfMemory,
    /// No place is left for a seat to look from.
    NoSeat,
}

/// A ring that was not opened: why, and the book as it was. It ends by `into_book`, and by nothing else, since
/// a writer that was made can only be ended by a caller that may wait.
pub struct OpenFault<N: Name, R: Resource + Drop>
where
    Shown<N>: Absorb<Operation<N>, State = [Event; 0]>,
{
    pub reason: OpenReason,
    pub book: Book<R>,
    writer: Option<RingWriter<N>>,
}

impl<N: Name, R: Resource + Drop> OpenFault<N, R> {
    /// The book. Nobody looks yet, so it has nobody to wait for.
    pub fn into_book<W: Wait>(self, rt: &W) -> Book<R>
        ensures { result ≡ self.book }
    {
        let OpenFault {
            reason: _,
            book,
            writer,
        } = self;
        if let Some(writer) = writer {
            writer.take(rt);
        }
        book
    }
}

/// A ring that threads share. It ends by `close`, and by nothing else.
///
/// A pass, a group pass or a corruption waits for the lock; its work after that is one critical section. A survey and a
/// glance wait for nobody.
///
/// The promises of a pass, a group pass, a corruption and `close` hold if they return. Each returns once it has the lock and
/// those that look have left the copy that is not shown: its loops end at their first turn, since whoever holds the lock
/// has seen the whole list of events, and since the places for what is shown are taken when the ring is opened.
pub struct Ring<N: Name, R: Resource + Drop> {
    pub(crate) shared: Mutex<Locked<N, R>>,
    pub(crate) seats: u32,
}

impl<N: Name, R: Resource + Drop> Model for Ring<N, R> {
    ghost use Rattle.ring_shared.specs.Opening.{IsRingOf};

    ghost Value = { Unit {0} };

    ghost view = { λ r. tt };

    ghost invariant = { λ r. IsRingOf R.works R.first N.start N.seats N.legal r.seats };
}

/// A place to look from.
///
/// # Errors
///
/// Only if the pair of copies has no place left.
fn reader_of<N: Name>(writer: &RingWriter<N>) -> Result<RingReader<N>, OpenReason>
    ensures { IfErr result (λ e. e ≡ OpenReason.NoSeat) }
{
    match writer.factory().reader() {
        Ok(reader) => Ok(reader),
        Err(_) => Err(OpenReason::NoSeat),
    }
}

/// A seat that has called nothing and seen nothing.
fn seat_of<N: Name>(
    alloc: Global,
    number: u32,
    writer: &RingWriter<N>,
    front: &Front<N>,
    start: &RingState,
) -> Result<Seat<N>, OpenReason>
    requires number { (number < N.seats) × (number < seat_limit) }
    requires front { front.now ≡ [] }
    requires start { start.now ≡ N.start }
    ensures { IfOk result (IsFreshClient number) }
{
    let reader = reader_of(writer)?;
    let Ok(start) = start.try_copy(alloc) else {
        return Err(OpenReason::OutOfMemory);
    };
    Ok(Seat::new(alloc, number, reader, front.again(), start))
}

/// This many seats, with empty logs.
fn seats_of<N: Name>(
    alloc: Global,
    writer: &RingWriter<N>,
    front: &Front<N>,
    start: &RingState,
    count: u32,
) -> Result<Vec<Seat<N>>, OpenReason>
    requires count { count ≡ N.seats }
    requires most { count ≤ seat_limit }
    requires front { front.now ≡ [] }
    requires start { start.now ≡ N.start }
    ensures { IfOk result (λ v. AreFresh N.seats v.items) }
{
    let Ok(mut seats) = Vec::with_capacity(alloc, count as usize) else {
        return Err(OpenReason::OutOfMemory);
    };
    for number in 0..count {
        let seat = seat_of(alloc, number, writer, front, start)?;
        seats.push_reserved(seat);
    }
    Ok(seats)
}

/// Appends enough operations that the list of those that are pending gets eight places. A call needs two more than them: its
/// own, and that of the last call, which one copy lacks.
const FIRST_OPERATIONS: u32 = 5;

/// Makes room for the operations of calls, by pending ones that change nothing: the first call shows them with its own. So
/// no call asks for memory to show its effect.
#[tactic(auto, using(crate::proofs::Stepped::stepped_still))]
fn warm<N: Name>(writer: &mut RingWriter<N>, front: &Front<N>) -> bool
    requires machine { 0 < length N.start.values }
    requires value { 0 < N.start.k }
    requires front { front.now ≡ [] }
    requires shown { writer.old.desk.shown.value ≡ [] }
    requires pending { drop writer.old.behind writer.old.log.items ≡ [] }
    ensures shown { writer.new.desk.shown.value ≡ [] }
    ensures pending { fold stepped [] (drop writer.new.behind writer.new.log.items) ≡ [] }
{
    for _ in 0..FIRST_OPERATIONS {
        let operation = Operation::nothing(front.again());
        if writer.append(operation).is_err() {
            return false;
        }
    }
    true
}

/// The writer of a pair that shows the start.
fn writer_of<N: Name>(
    alloc: Global,
    start: &RingState,
    front: &Front<N>,
    count: u32,
) -> Result<RingWriter<N>, AllocError>
    requires some { (0 < count) × (count ≤ seat_limit) }
    requires start { start.now ≡ N.start }
    requires front { front.now ≡ [] }
    ensures shown { IfOk result (λ w. w.desk.shown.value ≡ []) }
    ensures pending { IfOk result (λ w. drop w.behind w.log.items ≡ []) }
{
    let first = Shown::new(start.try_copy(alloc)?, front.again());
    let second = Shown::new(start.try_copy(alloc)?, front.again());
    Writer::new(alloc, first, second, count as usize)
}

/// A writer that shows the start, with room for operations, and this many seats. Where a seat is refused there may
/// be a writer, which has to be ended.
fn writer_and_seats<N: Name>(
    alloc: Global,
    front: &Front<N>,
    start: &RingState,
    count: u32,
) -> Result<(RingWriter<N>, Vec<Seat<N>>), (OpenReason, Option<RingWriter<N>>)>
    requires count { count ≡ N.seats }
    requires some { (0 < count) × (count ≤ seat_limit) }
    requires machine { 0 < length N.start.values }
    requires value { 0 < N.start.k }
    requires start { start.now ≡ N.start }
    requires front { front.now ≡ [] }
    ensures shown { IfOk result (λ t. t.0.desk.shown.value ≡ []) }
    ensures pending { IfOk result (λ t. fold stepped [] (drop t.0.behind t.0.log.items) ≡ []) }
    ensures fresh { IfOk result (λ t. AreFresh N.seats t.1.items) }
{
    let Ok(mut writer) = writer_of(alloc, start, front, count) else {
        return Err((OpenReason::OutOfMemory, None));
    };
    if !warm(&mut writer, front) {
        return Err((OpenReason::OutOfMemory, Some(writer)));
    }
    match seats_of(alloc, &writer, front, start, count) {
        Ok(seats) => Ok((writer, seats)),
        Err(reason) => Err((reason, Some(writer))),
    }
}

impl<N: Name, R: Resource + Drop> Ring<N, R> {
    /// A ring over the draft's book, and its seats with the numbers 0, 1 and so on, which have called
    /// nothing and seen nothing.
    ///
    /// The name says the draft's start, its number of seats, its list of events, and which histories are legal. It waits for
    /// nobody.
    ///
    /// # Errors
    ///
    /// `OutOfMemory`; `NoSeat`, where there is no place for a seat to look from. The book is handed back as
    /// it was.
    pub fn open(
        alloc: Global,
        draft: Draft<R>,
    ) -> Result<(Ring<N, R>, Vec<Seat<N>>), OpenFault<N, R>>
        requires start { draft.book.start ≡ N.start }
        requires seats { draft.seats ≡ N.seats }
        requires log { draft.log ≡ N.log }
        requires legal { MeansLegal R.works R.first N.start N.legal }
        ensures ok { IfOk result (λ t. AreFresh N.seats t.1.items) }
        ensures distinct { IfOk result (λ t. IsDistinct eqb (map (λ s. s.number) t.1.items)) }
        ensures err { IfErr result (λ f. f.book ≡ draft.book) }
    {
        let Draft {
            book,
            seats: count,
            opened,
        } = draft;
        book.history(); // says: the book is one
        let (head, front) = opened.with_name::<N>();
        match writer_and_seats(alloc, &front, book.start(), count) {
            Ok((writer, seats)) => {
                let ring = Ring {
                    shared: Mutex::new(Locked::new(alloc, book, head, front, writer)),
                    seats: count,
                };
                Ok((ring, seats))
            }
            Err((reason, writer)) => Err(OpenFault {
                reason,
                book,
                writer,
            }),
        }
    }

    /// The events of all calls so far, as a front: a caller that has the ring to itself need not wait for its lock.
    pub fn seen(&mut self) -> Front<N>
        ensures legal { N.legal result }
    {
        let front = self.shared.get_mut().front.again();
        front.len(); // says: it is legal
        front
    }

    /// Waits for the lock, and makes a pass by `machine`, which is below n, for the seat: its receipt is
    /// answered, and added to the seat's log.
    ///
    /// # Errors
    ///
    /// `HistoryFull` where the history has `EVENT_LIMIT` events; `OutOfMemory`. Nothing has changed then.
    pub fn pass<W: Wait>(
        &self,
        rt: &W,
        seat: &mut Seat<N>,
        machine: u32,
        order: u64,
    ) -> Result<Receipt, BookError>
        requires { machine < length N.start.values }
        ensures told { IfOk result (λ r. IsToldCall R.works (opening N.start R.first) seat.old
            seat.new (Op.Pass machine order) r) }
        ensures number { seat.new.number ≡ seat.old.number }
        ensures later { IsPrefix seat.old.seen seat.new.seen }
        ensures err { OnErr result (IsUnchanged seat.old seat.new) }
    {
        let mut locked = self.shared.lock(rt);
        let result = locked.call(rt, seat, Op::Pass { machine, order });
        MutexGuard::unlock(locked);
        result
    }

    /// Waits for the lock, and writes `value`, which is below K, into `machine`, which is below n, for the
    /// seat: its receipt is answered, and added to the seat's log.
    ///
    /// # Errors
    ///
    /// As of `pass`.
    pub fn corrupt<W: Wait>(
        &self,
        rt: &W,
        seat: &mut Seat<N>,
        machine: u32,
        value: u32,
    ) -> Result<Receipt, BookError>
        requires machine { machine < length N.start.values }
        requires value { value < N.start.k }
        ensures told { IfOk result (λ r. IsToldCall R.works (opening N.start R.first) seat.old
            seat.new (Op.Corrupt machine value) r) }
        ensures number { seat.new.number ≡ seat.old.number }
        ensures later { IsPrefix seat.old.seen seat.new.seen }
        ensures err { OnErr result (IsUnchanged seat.old seat.new) }
    {
        let mut locked = self.shared.lock(rt);
        let result = locked.call(rt, seat, Op::Corrupt { machine, value });
        MutexGuard::unlock(locked);
        result
    }

    /// Waits for the lock, and makes a pass by a group of machines at once, for the seat: its log gains the receipt of
    /// each member, in the order of their positions, and the list that the seat has seen ends with their block. The machines are
    /// strictly increasing, below n and at least one.
    ///
    /// # Errors
    ///
    /// `WholeRing` where the group is all n machines; `NotPrivileged` with the least machine of the group that is not
    /// privileged; `HistoryFull` where the history has fewer places left than the group has machines; `OutOfMemory`.
    /// Nothing has changed then.
    pub fn pass_group<W: Wait>(
        &self,
        rt: &W,
        seat: &mut Seat<N>,
        machines: &[u32],
        order: u64,
    ) -> Result<GroupReceipt, GroupError>
        requires rising { Rises 0 (length N.start.values) machines.now }
        requires some { 1 ≤ length machines.now }
        ensures told { IfOk result
            (λ r. IsGroupLogged (length N.start.values) seat.old seat.new order machines.now r) }
        ensures legal_and_whole { IfOk result
            (λ r. IsHistory R.works (opening N.start R.first) seat.new.seen) }
        ensures later { IsPrefix seat.old.seen seat.new.seen }
        ensures whole { length machines.now ≡ length N.start.values
            → IsRefusedFor GroupError.WholeRing result }
        ensures whole_only { IsErrOf result GroupError.WholeRing
            → length machines.now ≡ length N.start.values }
        ensures err { OnErr result (IsUnchanged seat.old seat.new) }
    {
        let mut locked = self.shared.lock(rt);
        let result = locked.pass_group(rt, seat, machines, order);
        MutexGuard::unlock(locked);
        result
    }

    /// Answers the survey of the state that the seat sees now, which is added to its log. That begins with the
    /// state that it saw before. It waits for nobody.
    ///
    /// # Errors
    ///
    /// Only if there is no memory for the log, where it has no room. Nothing has changed then.
    pub fn survey(&self, seat: &mut Seat<N>) -> Result<Survey, AllocError>
        ensures number { seat.new.number ≡ seat.old.number }
        ensures logged { IfOk result (λ s. seat.new.log ≡ seat.old.log ++ Entry.Survey s ∷ []) }
        ensures room { IfOk result (λ s. seat.old.room ≤ seat.new.room + 1) }
        ensures with_room { 1 ≤ seat.old.room → IsOk result }
        ensures told { IfOk result (λ s.
            s ≡ survey_at R.works (opening N.start R.first) seat.new.seen (length seat.new.seen)) }
        ensures legal_and_whole { IsHistory R.works (opening N.start R.first) seat.new.seen }
        ensures of_seats { AreOfSeats N.seats seat.new.seen }
        ensures later { IsPrefix seat.old.seen seat.new.seen }
        ensures calm { IfOk result
            (λ s. bound (length N.start.values) ≤ s.calm → (s.privileged ≡ 1) × (s.rest ≡ 0)) }
        ensures err { OnErr result (seat.new ≡ seat.old) }
    {
        let _ = &self.shared; // says: a history that the ring's name calls legal is one of the one-thread ring
        let survey = seat.survey()?;
        Ok(survey)
    }

    /// Answers the survey of the state that the seat sees now, which is not logged. That begins with the state
    /// that it saw before. It waits for nobody, takes no memory and always answers.
    pub fn glance(&self, seat: &mut Seat<N>) -> Survey
        ensures number { seat.new.number ≡ seat.old.number }
        ensures log { seat.new.log ≡ seat.old.log }
        ensures room { seat.new.room ≡ seat.old.room }
        ensures told { result
            ≡ survey_at R.works (opening N.start R.first) seat.new.seen (length seat.new.seen) }
        ensures legal_and_whole { IsHistory R.works (opening N.start R.first) seat.new.seen }
        ensures of_seats { AreOfSeats N.seats seat.new.seen }
        ensures later { IsPrefix seat.old.seen seat.new.seen }
        ensures calm { bound (length N.start.values) ≤ result.calm
            → (result.privileged ≡ 1) × (result.rest ≡ 0) }
    {
        let _ = &self.shared; // says: a history that the ring's name calls legal is one of the one-thread ring
        seat.glance()
    }
}
