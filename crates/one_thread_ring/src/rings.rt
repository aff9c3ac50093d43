//! A ring with its clients, called by numbers.
ghost use Rattle.std.specs.Prelude.{◌≡◌, ◌<◌, ◌≤◌, ◌+◌, ◌↔◌, ◌∷◌, [], length, drop, slice_index_or, true, IsTrue, IsOk, IfOk, IfErr, OnOk, OnErr};
ghost use Rattle.ring_model.specs.History.{opening};
ghost use Rattle.ring_model.specs.HistoryLaws.{Settlement};
ghost use Rattle.ring_model.specs.Limits.{seat_limit};
ghost use Rattle.ring_model.specs.Ring.{is_privileged, first_privileged};
ghost use Rattle.ring_model.specs.Surveys.{survey_at, calm as calm_of};
ghost use Rattle.ring_model.specs.declared.events.Op.TheVariants as op;
ghost use Rattle.ring_state.specs.Sizes.{IsSize};
ghost use Rattle.ring_book.specs.BookView.{IsFresh, IsRecorded};
ghost use Rattle.ring_model.specs.Groups.{Rises};
ghost use Rattle.ring_book.specs.GroupView.{IsGroupRecorded};
ghost use Rattle.ring_logs.specs.Seats.{receipts_from};
ghost use Rattle.one_thread_ring.specs.Clients.{told_all, with_survey_at, AreNew};
ghost use Rattle.one_thread_ring.specs.Texts.{surveys_told, surveys_kept};
ghost use Rattle.one_thread_ring.specs.Rings.{IsOneThreadRing, IsSameRing, IsKeptBy, IsOpenFault, IsSeatCount, AreFresh, IsTried, told_more};
ghost use Rattle.one_thread_ring.specs.Refusals.{IsDecided, bounds_of, seat_refusal, reserve_refusal, pass_refusal, try_refusal, corrupt_refusal, group_refusal};

mod closing;

use crate::clients::Client;
use crate::errors::{CallError, OpenError};
use ring_book::{Book, GroupReceipt, Resource};
use ring_model::limits::SEAT_LIMIT;
use ring_model::{Entry, Event, Receipt, Survey};
use ring_state::{Params, RingState};
use std::alloc::{AllocError, Global};
use std::marker::Model;

/// A ring over a resource with its clients, on one thread, which is called by numbers.
///
/// Contracts see the book and the log of each client. At every moment the history is a legal and whole one of the
/// one-thread ring, each of its events is a client's, and each client's log fits it.
#[derive(Drop)]
pub struct OneThreadRing<R: Resource + Drop> {
    book: Book<R>,
    clients: Vec<Client>,
}

impl<R: Resource + Drop> Model for OneThreadRing<R> {
    ghost use Rattle.one_thread_ring.specs.Clients.{told_all};
    ghost use Rattle.one_thread_ring.specs.Rings.{RingView, IsKeptBy};

    ghost Value = { RingView R };

    ghost view = { λ d.
        record { book = d.book; clients = told_all d.book.history d.clients.items } };

    ghost invariant = { λ d. IsKeptBy R.works R.first d.book d.clients.items };
}

/// Returns the state that a ring of `n` machines, `k` values and `seats` seats starts from.
pub(crate) fn start_of(
    alloc: Global,
    n: u32,
    k: u32,
    start: &[u32],
    seats: u32,
) -> Result<RingState, OpenError>
    ensures ok { IfOk result (λ s. s ≡ record { k = k; values = start.now }) }
    ensures sizes { IfOk result
        (λ _. IsSeatCount seats × IsSize (record { n = n; k = k }) × (length start.now ≡ n)) }
    ensures err { IfErr result (λ e. IsOpenFault (record { n = n; k = k }) start.now seats e) }
{
    if seats == 0 || seats as usize > SEAT_LIMIT {
        return Err(OpenError::Seats);
    }
    let params = Params::new(n, k)?;
    let state = RingState::from_values(alloc, &params, start)?;
    Ok(state)
}

/// This many clients with empty logs.
fn fresh_clients(alloc: Global, count: u32) -> Result<Vec<Client>, AllocError>
    requires { count ≤ seat_limit }
    ensures { IfOk result (λ v. AreNew count v.items) }
{
    let mut clients = Vec::with_capacity(alloc, count as usize)?;
    for number in 0..count {
        clients.push_reserved(Client::new(alloc, number));
    }
    Ok(clients)
}

/// Gives the client of this number a survey.
fn tell_at(clients: &mut Vec<Client>, seat: u32, survey: Survey) -> Result<(), AllocError>
    requires seat { seat < length clients.old.items }
    ensures told { OnOk result (clients.new.items ≡ with_survey_at clients.old.items seat survey) }
    ensures err { OnErr result (clients.new.items ≡ clients.old.items) }
{
    clients[seat as usize].tell(survey)
}

/// Whether the numbers rise, each below `n`.
fn rise(machines: &[u32], n: u32) -> bool
    ensures { IsTrue result ↔ Rises 0 n machines.now }
{
    let mut low = 0;
    for machine in machines {
        if *machine < low || *machine >= n {
            return false;
        }
        low = *machine + 1;
    }
    true
}

impl<R: Resource + Drop> OneThreadRing<R> {
    /// A ring of `n` machines and `k` values that starts so, over a resource with its first content, and this many seats,
    /// whose numbers begin at 0.
    ///
    /// # Errors
    ///
    /// The first that applies: `Seats` where they are not 1 to `SEAT_LIMIT`; `Size` for a size that no ring has; `Length`
    /// where there are not n start values; `Value` with the least index of one that is not below K; `OutOfMemory`.
    pub fn open(
        alloc: Global,
        n: u32,
        k: u32,
        start: &[u32],
        seats: u32,
        resource: R,
    ) -> Result<OneThreadRing<R>, OpenError>
        requires { resource ≡ R.first }
        ensures ring { IfOk result (λ d. IsOneThreadRing R.works R.first d) }
        ensures fresh { IfOk result (λ d.
            IsFresh (record { k = k; values = start.now }) R.first d.book
            × AreFresh seats d.clients) }
        ensures sizes { IfOk result
            (λ _. IsSeatCount seats × IsSize (record { n = n; k = k }) × (length start.now ≡ n)) }
        ensures err { IfErr result (λ e. IsOpenFault (record { n = n; k = k }) start.now seats e) }
    {
        let state = start_of(alloc, n, k, start, seats)?;
        let clients = fresh_clients(alloc, seats)?;
        match Book::new(alloc, state, resource) {
            Ok(book) => Ok(OneThreadRing { book, clients }),
            Err(_) => Err(OpenError::OutOfMemory),
        }
    }

    /// How many seats there are.
    fn seats(&self) -> u32
        ensures is { result ≡ length self.now.clients }
        ensures few { result ≤ seat_limit }
    {
        self.clients().len() as u32
    }

    /// A ring with no events that starts with this one's state, over a resource with its first content, and with as many
    /// clients, whose logs are empty. This one does not change.
    ///
    /// # Errors
    ///
    /// If there is no memory for it.
    pub fn successor(&self, alloc: Global, resource: R) -> Result<OneThreadRing<R>, AllocError>
        requires { resource ≡ R.first }
        ensures ring { IfOk result (λ d. IsOneThreadRing R.works R.first d) }
        ensures fresh { IfOk result (λ d. IsFresh self.now.book.now.ring R.first d.book
            × AreFresh (length self.now.clients) d.clients) }
    {
        let seats = self.seats();
        let state = self.book.state().try_copy(alloc)?;
        let clients = fresh_clients(alloc, seats)?;
        match Book::new(alloc, state, resource) {
            Ok(book) => Ok(OneThreadRing { book, clients }),
            Err(_) => Err(AllocError),
        }
    }

    /// Makes a ring of this book and of clients whose logs fit its history.
    pub(crate) fn with_clients(book: Book<R>, clients: Vec<Client>) -> OneThreadRing<R>
        requires { IsKeptBy R.works R.first book clients.items }
        ensures is { result
            ≡ record { book = book; clients = told_all book.history clients.items } }
        ensures surveys { surveys_told result.clients ≡ surveys_kept clients.items }
        ensures ring { IsOneThreadRing R.works R.first result }
    {
        OneThreadRing { book, clients }
    }

    /// The number of machines.
    pub fn machines(&self) -> u32
        ensures { result ≡ length self.now.book.now.ring.values }
    {
        self.book.state().params().n()
    }

    /// The number of values.
    pub fn values(&self) -> u32
        ensures { result ≡ self.now.book.now.ring.k }
    {
        self.book.state().params().k()
    }

    /// Whether a machine, which is below n, is privileged.
    pub fn is_privileged(&self, machine: u32) -> bool
        requires { machine < length self.now.book.now.ring.values }
        ensures { result ≡ is_privileged self.now.book.now.ring.values machine }
    {
        self.book.state().is_privileged(machine)
    }

    /// The least privileged machine.
    pub fn first(&self) -> u32
        ensures { result ≡ first_privileged self.now.book.now.ring.values }
    {
        self.book.state().first()
    }

    /// How many passes were granted since the last corruption, or since the start if there was none.
    pub fn calm(&self) -> u64
        ensures { result ≡ calm_of self.now.book.history }
    {
        self.book.calm()
    }

    /// The state that the ring started from.
    pub fn start(&self) -> &RingState
        ensures is { result.now ≡ self.now.book.start }
        ensures ring { IsOneThreadRing R.works R.first self.now }
    {
        self.book.start()
    }

    /// The history.
    pub fn history(&self) -> &[Event]
        ensures { result.now ≡ self.now.book.history }
    {
        self.book.history()
    }

    /// How many events the history has.
    pub fn history_length(&self) -> u64
        ensures { result ≡ length self.now.book.history }
    {
        self.book.history().len() as u64
    }

    /// The clients, in the order of their seats, with the surveys that they were given. The whole log of one is answered by
    /// [`log`](OneThreadRing::log).
    pub fn clients(&self) -> &[Client]
        ensures are { told_all self.now.book.history result.now ≡ self.now.clients }
        ensures surveys { surveys_kept result.now ≡ surveys_told self.now.clients }
        ensures ring { IsOneThreadRing R.works R.first self.now }
    {
        self.clients.as_slice()
    }

    /// Returns the log of the client of a seat, in order: the receipts of its calls, and the surveys.
    ///
    /// # Errors
    ///
    /// `NoSeat`, `OutOfMemory`.
    pub fn log(&self, alloc: Global, seat: u32) -> Result<Vec<Entry>, CallError>
        ensures ok { IfOk result (λ log. log.items
            ≡ (slice_index_or self.now.clients seat (record { number = seat; log = [] })).log) }
        ensures refused { IsDecided (seat_refusal (bounds_of self.now) seat) result }
    {
        if seat as usize >= self.clients.len() {
            return Err(CallError::NoSeat);
        }
        let log = self.clients[seat as usize].log(alloc, self.book.history())?;
        Ok(log)
    }

    /// Takes memory for `more` events, so that this many calls are not refused for lack of it.
    ///
    /// # Errors
    ///
    /// `HistoryFull` where the history would have more events than it may have, else `OutOfMemory`. Nothing has changed then.
    pub fn reserve(&mut self, more: u32) -> Result<(), CallError>
        ensures ok { OnOk result (more ≤ self.new.book.room) }
        ensures same { IsSameRing self.old self.new }
        ensures ring { IsOneThreadRing R.works R.first self.new }
        ensures refused { IsDecided (reserve_refusal (bounds_of self.old) more) result }
        ensures err { OnErr result (self.new ≡ self.old) }
    {
        match self.book.reserve(more) {
            Ok(()) => Ok(()),
            Err(error) => Err(CallError::from(error)),
        }
    }

    /// A pass by a machine, for a seat.
    ///
    /// With room for an event, it is not refused for lack of room or memory.
    ///
    /// # Errors
    ///
    /// The first that applies: `NoSeat`, `NoMachine`; `HistoryFull`, `OutOfMemory`. Nothing has changed then.
    #[inline(always)]
    pub fn pass(&mut self, seat: u32, machine: u32, order: u64) -> Result<Receipt, CallError>
        ensures ok { IfOk result
            (λ r. IsRecorded R.works self.old.book self.new.book seat (op.Pass machine order) r) }
        ensures told { IfOk result
            (λ r. self.new.clients ≡ told_more self.old.clients seat (Entry.Receipt r ∷ [])) }
        ensures ring { IsOneThreadRing R.works R.first self.new }
        ensures settlement { Settlement R.works (opening self.new.book.start R.first)
            self.new.book.history }
        ensures err { OnErr result (self.new ≡ self.old) }
        ensures refused { IsDecided (pass_refusal (bounds_of self.old) seat machine) result }
        ensures succeeds { 1 ≤ self.old.book.room
            → pass_refusal (bounds_of self.old) seat machine ≡ None → IsOk result }
        ensures room { OnOk result (self.old.book.room ≤ self.new.book.room + 1) }
    {
        if seat as usize >= self.clients.len() {
            return Err(CallError::NoSeat);
        }
        if machine >= self.machines() {
            return Err(CallError::NoMachine);
        }
        let receipt = self.book.pass(seat, machine, order)?;
        Ok(receipt)
    }

    /// A pass by a machine that is privileged, for a seat that there is, where there is room for an event: it is not refused.
    #[inline(always)]
    pub fn grant(&mut self, seat: u32, machine: u32, order: u64) -> Receipt
        requires seat { seat < length self.old.clients }
        requires machine { machine < length self.old.book.now.ring.values }
        requires privileged { is_privileged self.old.book.now.ring.values machine ≡ true }
        requires room { 1 ≤ self.old.book.room }
        ensures recorded { IsRecorded R.works self.old.book self.new.book seat
            (op.Pass machine order) result }
        ensures told { self.new.clients
            ≡ told_more self.old.clients seat (Entry.Receipt result ∷ []) }
        ensures ring { IsOneThreadRing R.works R.first self.new }
        ensures room { self.old.book.room ≤ self.new.book.room + 1 }
    {
        self.book.grant(seat, machine, order)
    }

    /// A pass by a machine, for a seat, if the machine is privileged. If it is not, there is no receipt: nothing is recorded or
    /// logged, so a client may try as often as it likes.
    ///
    /// # Errors
    ///
    /// The first that applies: `NoSeat`, `NoMachine`; of a privileged machine `HistoryFull`, `OutOfMemory`. Nothing has
    /// changed then.
    pub fn try_pass(
        &mut self,
        seat: u32,
        machine: u32,
        order: u64,
    ) -> Result<Option<Receipt>, CallError>
        ensures ok { IfOk result
            (λ r. IsTried R.works self.old self.new seat machine order r) }
        ensures ring { IsOneThreadRing R.works R.first self.new }
        ensures err { OnErr result (self.new ≡ self.old) }
        ensures refused { IsDecided (try_refusal (bounds_of self.old) seat machine) result }
    {
        if seat as usize >= self.clients.len() {
            return Err(CallError::NoSeat);
        }
        if machine >= self.machines() {
            return Err(CallError::NoMachine);
        }
        if !self.book.state().is_privileged(machine) {
            return Ok(None);
        }
        match self.pass(seat, machine, order) {
            Ok(receipt) => Ok(Some(receipt)),
            Err(error) => Err(error),
        }
    }

    /// A fault, for a seat: a value is written into a machine.
    ///
    /// With room for an event, it is not refused for lack of room or memory.
    ///
    /// # Errors
    ///
    /// The first that applies: `NoSeat`, `NoMachine`, `NoValue`; `HistoryFull`, `OutOfMemory`. Nothing has changed then.
    pub fn corrupt(&mut self, seat: u32, machine: u32, value: u32) -> Result<Receipt, CallError>
        ensures ok { IfOk result (λ r.
            IsRecorded R.works self.old.book self.new.book seat (op.Corrupt machine value) r) }
        ensures told { IfOk result
            (λ r. self.new.clients ≡ told_more self.old.clients seat (Entry.Receipt r ∷ [])) }
        ensures ring { IsOneThreadRing R.works R.first self.new }
        ensures refused { IsDecided
            (corrupt_refusal (bounds_of self.old) seat machine value) result }
        ensures err { OnErr result (self.new ≡ self.old) }
        ensures succeeds { 1 ≤ self.old.book.room
            → corrupt_refusal (bounds_of self.old) seat machine value ≡ None → IsOk result }
        ensures room { OnOk result (self.old.book.room ≤ self.new.book.room + 1) }
    {
        if seat as usize >= self.clients.len() {
            return Err(CallError::NoSeat);
        }
        if machine >= self.machines() {
            return Err(CallError::NoMachine);
        }
        if value >= self.values() {
            return Err(CallError::NoValue);
        }
        let receipt = self.book.corrupt(seat, machine, value)?;
        Ok(receipt)
    }

    /// A pass by a group of machines at once, for a seat.
    ///
    /// # Errors
    ///
    /// The first that applies: `NoSeat`; `NotRising` where the machines do not rise below n, or there are none;
    /// `WholeRing`, `NotPrivileged`, `HistoryFull`, `OutOfMemory`. Nothing has changed then.
    pub fn pass_group(
        &mut self,
        seat: u32,
        machines: &[u32],
        order: u64,
    ) -> Result<GroupReceipt, CallError>
        ensures ok { IfOk result
            (λ r. IsGroupRecorded R.works self.old.book self.new.book seat order machines.now r) }
        ensures told { IfOk result (λ r. self.new.clients
            ≡ told_more self.old.clients seat
            (receipts_from r.first (drop r.first self.new.book.history))) }
        ensures ring { IsOneThreadRing R.works R.first self.new }
        ensures refused { IsDecided
            (group_refusal (bounds_of self.old) seat machines.now) result }
        ensures err { OnErr result (self.new ≡ self.old) }
    {
        if seat as usize >= self.clients.len() {
            return Err(CallError::NoSeat);
        }
        if machines.is_empty() || !rise(machines, self.machines()) {
            return Err(CallError::NotRising);
        }
        let receipt = self.book.pass_group(seat, machines, order)?;
        Ok(receipt)
    }

    /// Returns the privileged machines now, how long the ring has been calm, and how far it is from being settled. Nothing is
    /// logged.
    pub fn glance(&self) -> Survey
        ensures { result
            ≡ survey_at R.works (opening self.now.book.start R.first) self.now.book.history
            (length self.now.book.history) }
    {
        self.book.survey()
    }

    /// The same, which the seat's log keeps.
    ///
    /// # Errors
    ///
    /// `NoSeat`, `OutOfMemory`. Nothing has changed then.
    pub fn survey(&mut self, seat: u32) -> Result<Survey, CallError>
        ensures ok { IfOk result (λ s. s
            ≡ survey_at R.works (opening self.old.book.start R.first) self.old.book.history
            (length self.old.book.history)) }
        ensures told { IfOk result
            (λ s. self.new.clients ≡ told_more self.old.clients seat (Entry.Survey s ∷ [])) }
        ensures book { self.new.book ≡ self.old.book }
        ensures ring { IsOneThreadRing R.works R.first self.new }
        ensures refused { IsDecided (seat_refusal (bounds_of self.old) seat) result }
        ensures err { OnErr result (self.new ≡ self.old) }
    {
        if seat as usize >= self.clients.len() {
            return Err(CallError::NoSeat);
        }
        let survey = self.book.survey();
        tell_at(&mut self.clients, seat, survey)?;
        Ok(survey)
    }
}
