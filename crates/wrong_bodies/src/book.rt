//! Wrong bodies of the calls that begin a history and add to it.

ghost use Rattle.std.specs.Prelude.{◌≡◌, ◌≢◌, ◌<◌, ◌≤◌, ◌+◌, ◌↔◌, true, false, length, slice_index, IsOk, IfOk, OnOk, OnErr, IsErrOf};
ghost use Rattle.ring_model.specs.Limits.{event_limit, seat_limit};
ghost use Rattle.ring_model.specs.Ring.{is_privileged};
ghost use Rattle.ring_book.specs.BookView.{IsFresh, IsRecorded};

use crate::numbers::{another, another_narrow};
use ring_book::{Book, BookError, Event, Op, Receipt, Reply, Resource};
use ring_model::limits::EVENT_LIMIT;
use ring_state::RingState;
use std::alloc::Global;

/// A book starts with the state that it is given: this one starts with another.
pub fn starts_with_another_state<R: Resource + Drop>(
    alloc: Global,
    state: RingState,
    other: RingState,
    resource: R,
) -> Result<Book<R>, BookError>
    requires first { resource ≡ R.first }
    requires apart { other ≢ state }
    ensures wrong { IfOk result (λ b. IsFresh state resource b → ⊥) }
{
    match Book::new(alloc, other, resource) {
        Ok(book) => Ok(book),
        Err(_) => Err(BookError::OutOfMemory),
    }
}

/// A pass is recorded under its seat: this one under another.
pub fn passes_under_another_seat<R: Resource + Drop>(
    book: &mut Book<R>,
    seat: u32,
    other: u32,
    machine: u32,
    order: u64,
) -> Result<Receipt, BookError>
    requires seat { other < seat_limit }
    requires machine { machine < length book.old.now.ring.values }
    requires apart { other ≢ seat }
    ensures wrong { IfOk result
        (λ r. IsRecorded R.works book.old book.new seat (Op.Pass machine order) r → ⊥) }
{
    book.pass(other, machine, order)
}

/// A pass is recorded with its order: this one with another.
pub fn passes_with_another_order<R: Resource + Drop>(
    book: &mut Book<R>,
    seat: u32,
    machine: u32,
    order: u64,
    other: u64,
) -> Result<Receipt, BookError>
    requires seat { seat < seat_limit }
    requires machine { machine < length book.old.now.ring.values }
    requires apart { other ≢ order }
    ensures wrong { IfOk result
        (λ r. IsRecorded R.works book.old book.new seat (Op.Pass machine order) r → ⊥) }
{
    book.pass(seat, machine, other)
}

/// A pass is the machine's that asks: this one is another machine's.
pub fn passes_another_machine<R: Resource + Drop>(
    book: &mut Book<R>,
    seat: u32,
    machine: u32,
    other: u32,
    order: u64,
) -> Result<Receipt, BookError>
    requires seat { seat < seat_limit }
    requires machine { other < length book.old.now.ring.values }
    requires apart { other ≢ machine }
    ensures wrong { IfOk result
        (λ r. IsRecorded R.works book.old book.new seat (Op.Pass machine order) r → ⊥) }
{
    book.pass(seat, other, order)
}

/// A pass that cannot be refused is recorded under its seat: this one under another.
pub fn grants_under_another_seat<R: Resource + Drop>(
    book: &mut Book<R>,
    seat: u32,
    other: u32,
    machine: u32,
    order: u64,
) -> Receipt
    requires seat { other < seat_limit }
    requires machine { machine < length book.old.now.ring.values }
    requires privileged { is_privileged book.old.now.ring.values machine ≡ true }
    requires room { 1 ≤ book.old.room }
    requires apart { other ≢ seat }
    ensures wrong { IsRecorded R.works book.old book.new seat (Op.Pass machine order) result → ⊥ }
{
    book.grant(other, machine, order)
}

/// A pass is one event: this one is two.
pub fn passes_twice<R: Resource + Drop>(
    book: &mut Book<R>,
    seat: u32,
    machine: u32,
    order: u64,
) -> Result<Receipt, BookError>
    requires seat { seat < seat_limit }
    requires machine { machine < length book.old.now.ring.values }
    ensures wrong { IfOk result
        (λ r. IsRecorded R.works book.old book.new seat (Op.Pass machine order) r → ⊥) }
{
    let first = book.pass(seat, machine, order)?;
    book.pass(seat, machine, order)?;
    Ok(first)
}

/// A pass is one event: this answer of a refused one leaves none.
pub fn answers_without_an_event<R: Resource + Drop>(
    book: &mut Book<R>,
    seat: u32,
    machine: u32,
    order: u64,
) -> Result<Receipt, BookError>
    ensures wrong { IfOk result
        (λ r. IsRecorded R.works book.old book.new seat (Op.Pass machine order) r → ⊥) }
{
    Ok(Receipt {
        position: book.history().len() as u64,
        event: Event {
            seat,
            op: Op::Pass { machine, order },
            reply: Reply::NotPrivileged,
        },
    })
}

/// The receipt has the position of the event: this one has another.
pub fn tells_another_position<R: Resource + Drop>(
    book: &mut Book<R>,
    seat: u32,
    machine: u32,
    order: u64,
) -> Result<Receipt, BookError>
    requires seat { seat < seat_limit }
    requires machine { machine < length book.old.now.ring.values }
    ensures wrong { IfOk result
        (λ r. IsRecorded R.works book.old book.new seat (Op.Pass machine order) r → ⊥) }
{
    let receipt = book.pass(seat, machine, order)?;
    Ok(Receipt {
        position: another(receipt.position),
        event: receipt.event,
    })
}

/// A machine that is not privileged is refused: this pass is reported as granted.
#[tactic(auto, using(crate::proofs::Calls::refused_is_told))]
pub fn tells_a_refused_pass_as_granted<R: Resource + Drop>(
    book: &mut Book<R>,
    seat: u32,
    machine: u32,
    order: u64,
) -> Result<Receipt, BookError>
    requires seat { seat < seat_limit }
    requires machine { machine < length book.old.now.ring.values }
    requires refused { is_privileged book.old.now.ring.values machine ≡ false }
    ensures wrong { IfOk result
        (λ r. IsRecorded R.works book.old book.new seat (Op.Pass machine order) r → ⊥) }
{
    let receipt = book.pass(seat, machine, order)?;
    Ok(replied(
        receipt,
        Reply::Granted {
            number: 1,
            result: 0,
        },
    ))
}

/// A privileged machine is granted its pass: this one is reported as refused.
#[tactic(auto, using(crate::proofs::Calls::granted_is_told))]
pub fn tells_a_granted_pass_as_refused<R: Resource + Drop>(
    book: &mut Book<R>,
    seat: u32,
    machine: u32,
    order: u64,
) -> Result<Receipt, BookError>
    requires seat { seat < seat_limit }
    requires machine { machine < length book.old.now.ring.values }
    requires granted { is_privileged book.old.now.ring.values machine ≡ true }
    ensures wrong { IfOk result
        (λ r. IsRecorded R.works book.old book.new seat (Op.Pass machine order) r → ⊥) }
{
    let receipt = book.pass(seat, machine, order)?;
    Ok(replied(receipt, Reply::NotPrivileged))
}

/// A granted pass is answered with its number among the grants: this one another.
#[tactic(auto, using(crate::proofs::Calls::one_reply))]
pub fn tells_another_grant<R: Resource + Drop>(
    book: &mut Book<R>,
    seat: u32,
    machine: u32,
    order: u64,
) -> Result<Receipt, BookError>
    requires seat { seat < seat_limit }
    requires machine { machine < length book.old.now.ring.values }
    ensures wrong { IfOk result
        (λ r. IsRecorded R.works book.old book.new seat (Op.Pass machine order) r → ⊥) }
{
    let receipt = book.pass(seat, machine, order)?;
    let reply = another_grant(receipt.event.reply);
    Ok(replied(receipt, reply))
}

/// A granted pass is answered with the answer of the work: this one with another number.
#[tactic(auto, using(crate::proofs::Calls::one_reply))]
pub fn tells_another_result<R: Resource + Drop>(
    book: &mut Book<R>,
    seat: u32,
    machine: u32,
    order: u64,
) -> Result<Receipt, BookError>
    requires seat { seat < seat_limit }
    requires machine { machine < length book.old.now.ring.values }
    ensures wrong { IfOk result
        (λ r. IsRecorded R.works book.old book.new seat (Op.Pass machine order) r → ⊥) }
{
    let receipt = book.pass(seat, machine, order)?;
    let reply = another_result(receipt.event.reply);
    Ok(replied(receipt, reply))
}

/// A call that refuses changes nothing: this one refuses when its event is already recorded.
pub fn refuses_behind_its_event<R: Resource + Drop>(
    book: &mut Book<R>,
    seat: u32,
    machine: u32,
    order: u64,
) -> Result<Receipt, BookError>
    requires seat { seat < seat_limit }
    requires machine { machine < length book.old.now.ring.values }
    requires room { 1 ≤ book.old.room }
    ensures wrong { OnErr result (book.new ≡ book.old) → ⊥ }
{
    book.pass(seat, machine, order)?;
    Err(BookError::OutOfMemory)
}

/// With room for an event a pass is not refused: this one is.
pub fn refuses_a_pass_with_room<R: Resource + Drop>(
    book: &mut Book<R>,
) -> Result<Receipt, BookError>
    requires room { 1 ≤ book.old.room }
    ensures wrong { (1 ≤ book.old.room → IsOk result) → ⊥ }
{
    Err(BookError::OutOfMemory)
}

/// A history has room for each of its events: this one is full one event early.
pub fn is_full_one_event_early<R: Resource + Drop>(
    book: &mut Book<R>,
    seat: u32,
    machine: u32,
    order: u64,
) -> Result<Receipt, BookError>
    requires seat { seat < seat_limit }
    requires machine { machine < length book.old.now.ring.values }
    requires almost { length book.old.history + 1 ≡ event_limit }
    ensures wrong { (IsErrOf result BookError.HistoryFull ↔ (length book.old.history ≡ event_limit))
        → ⊥ }
{
    if book.history().len() + 1 >= EVENT_LIMIT {
        return Err(BookError::HistoryFull);
    }
    book.pass(seat, machine, order)
}

/// A full history is reported as full: this one as out of memory.
pub fn tells_a_full_history_as_lack_of_memory<R: Resource + Drop>(
    book: &mut Book<R>,
    seat: u32,
    machine: u32,
    order: u64,
) -> Result<Receipt, BookError>
    requires seat { seat < seat_limit }
    requires machine { machine < length book.old.now.ring.values }
    requires full { length book.old.history ≡ event_limit }
    ensures wrong { (IsErrOf result BookError.HistoryFull ↔ (length book.old.history ≡ event_limit))
        → ⊥ }
{
    let Ok(receipt) = book.pass(seat, machine, order) else {
        return Err(BookError::OutOfMemory);
    };
    Ok(receipt)
}

/// A corruption writes its value: this one writes another.
pub fn corrupts_with_another_value<R: Resource + Drop>(
    book: &mut Book<R>,
    seat: u32,
    machine: u32,
    value: u32,
    other: u32,
) -> Result<Receipt, BookError>
    requires seat { seat < seat_limit }
    requires machine { machine < length book.old.now.ring.values }
    requires value { other < book.old.now.ring.k }
    requires apart { other ≢ value }
    ensures wrong { IfOk result
        (λ r. IsRecorded R.works book.old book.new seat (Op.Corrupt machine value) r → ⊥) }
{
    book.corrupt(seat, machine, other)
}

/// A corruption hits its machine: this one hits another.
pub fn corrupts_another_machine<R: Resource + Drop>(
    book: &mut Book<R>,
    seat: u32,
    machine: u32,
    other: u32,
    value: u32,
) -> Result<Receipt, BookError>
    requires seat { seat < seat_limit }
    requires machine { other < length book.old.now.ring.values }
    requires value { value < book.old.now.ring.k }
    requires apart { other ≢ machine }
    ensures wrong { IfOk result
        (λ r. IsRecorded R.works book.old book.new seat (Op.Corrupt machine value) r → ⊥) }
{
    book.corrupt(seat, other, value)
}

/// A corruption is recorded under its seat: this one under another.
pub fn corrupts_under_another_seat<R: Resource + Drop>(
    book: &mut Book<R>,
    seat: u32,
    other: u32,
    machine: u32,
    value: u32,
) -> Result<Receipt, BookError>
    requires seat { other < seat_limit }
    requires machine { machine < length book.old.now.ring.values }
    requires value { value < book.old.now.ring.k }
    requires apart { other ≢ seat }
    ensures wrong { IfOk result
        (λ r. IsRecorded R.works book.old book.new seat (Op.Corrupt machine value) r → ⊥) }
{
    book.corrupt(other, machine, value)
}

/// A corruption answers the value that was there: this one answers the new value, where that is another.
#[tactic(auto, using(crate::proofs::Calls::corruption_is_told))]
pub fn tells_the_new_value<R: Resource + Drop>(
    book: &mut Book<R>,
    seat: u32,
    machine: u32,
    value: u32,
) -> Result<Receipt, BookError>
    requires seat { seat < seat_limit }
    requires machine { machine < length book.old.now.ring.values }
    requires value { value < book.old.now.ring.k }
    requires apart { slice_index book.old.now.ring.values machine ≢ value }
    ensures wrong { IfOk result
        (λ r. IsRecorded R.works book.old book.new seat (Op.Corrupt machine value) r → ⊥) }
{
    let receipt = book.corrupt(seat, machine, value)?;
    Ok(replied(receipt, Reply::Corrupted { old: value }))
}

/// A corruption is recorded as one: this one as a pass.
pub fn records_a_pass_for_a_corruption<R: Resource + Drop>(
    book: &mut Book<R>,
    seat: u32,
    machine: u32,
    value: u32,
) -> Result<Receipt, BookError>
    requires seat { seat < seat_limit }
    requires machine { machine < length book.old.now.ring.values }
    ensures wrong { IfOk result
        (λ r. IsRecorded R.works book.old book.new seat (Op.Corrupt machine value) r → ⊥) }
{
    book.pass(seat, machine, value as u64)
}

/// After `reserve` there is room for that many events: this one takes none, where there is too little.
pub fn reserves_nothing<R: Resource + Drop>(book: &mut Book<R>, more: u32) -> Result<(), BookError>
    requires short { book.old.room < more }
    ensures wrong { OnOk result (more ≤ book.new.room) → ⊥ }
{
    Ok(())
}

/// Room can be had up to the limit of events: here it is refused one event early.
pub fn refuses_the_last_place<R: Resource + Drop>(
    book: &mut Book<R>,
    more: u32,
) -> Result<(), BookError>
    requires just { length book.old.history + more ≡ event_limit }
    ensures wrong { (IsErrOf result BookError.HistoryFull
        ↔ (event_limit < length book.old.history + more)) → ⊥ }
{
    if book.history().len() + more as usize >= EVENT_LIMIT {
        return Err(BookError::HistoryFull);
    }
    book.reserve(more)
}

/// Room that is there is not refused: here it is.
pub fn refuses_room_that_is_there<R: Resource + Drop>(
    book: &mut Book<R>,
    more: u32,
) -> Result<(), BookError>
    requires room { more ≤ book.old.room }
    ensures wrong { (more ≤ book.old.room → IsOk result) → ⊥ }
{
    Err(BookError::OutOfMemory)
}

/// `reserve` adds no event: this one does.
pub fn reserves_with_an_event<R: Resource + Drop>(
    book: &mut Book<R>,
    seat: u32,
    machine: u32,
    more: u32,
) -> Result<(), BookError>
    requires seat { seat < seat_limit }
    requires machine { machine < length book.old.now.ring.values }
    ensures wrong { OnOk result (book.new ≡ record book.old { room = book.new.room } → ⊥) }
{
    book.pass(seat, machine, 0)?;
    book.reserve(more)
}

/// The receipt with another reply.
fn replied(receipt: Receipt, reply: Reply) -> Receipt
    ensures reply { result.event.reply ≡ reply }
{
    Receipt {
        position: receipt.position,
        event: Event {
            seat: receipt.event.seat,
            op: receipt.event.op,
            reply,
        },
    }
}

/// A reply with another number of the grant.
fn another_grant(reply: Reply) -> Reply
    ensures { result ≢ reply }
{
    match reply {
        Reply::Granted { number, result } => Reply::Granted {
            number: another(number),
            result,
        },
        Reply::NotPrivileged => Reply::Corrupted { old: 0 },
        Reply::Corrupted { old } => Reply::Corrupted {
            old: another_narrow(old),
        },
    }
}

/// A reply with another answer of the work.
fn another_result(reply: Reply) -> Reply
    ensures { result ≢ reply }
{
    match reply {
        Reply::Granted { number, result } => Reply::Granted {
            number,
            result: another(result),
        },
        Reply::NotPrivileged => Reply::Corrupted { old: 0 },
        Reply::Corrupted { old } => Reply::Corrupted {
            old: another_narrow(old),
        },
    }
}
