//! Wrong bodies of [`Book::settle`].

ghost use Rattle.std.specs.Prelude.{◌≡◌, ◌≢◌, ◌<◌, ◌≤◌, ◌+◌, true, false, List, length, IsOk, IfOk, OnOk};
ghost use Rattle.ring_model.specs.Limits.{seat_limit};
ghost use Rattle.ring_model.specs.Ring.{first_privileged, is_settled, rest};
ghost use Rattle.ring_model.specs.RepairLaws.{passes_left};
ghost use Rattle.ring_model.specs.declared.events.Event.{Event};
ghost use Rattle.ring_book.specs.Repairs.{IsRepairedBy};

use crate::numbers::another;
use ring_book::{Book, BookError, Resource};
use ring_settle::rest;

/// A ring that was settled has one privileged machine: this one is left as it was, where it has more.
pub fn settles_nothing<R: Resource + Drop>(book: &mut Book<R>) -> Result<u64, BookError>
    requires unsettled { is_settled book.old.now.ring.values ≡ false }
    ensures wrong { OnOk result (is_settled book.new.now.ring.values ≡ true) → ⊥ }
{
    Ok(0)
}

/// The number of the passes is answered: here another.
pub fn tells_another_number_of_repairs<R: Resource + Drop>(
    book: &mut Book<R>,
    seat: u32,
) -> Result<u64, BookError>
    requires { seat < seat_limit }
    ensures wrong { IfOk result
        (λ passes. length book.new.history ≡ length book.old.history + passes → ⊥) }
{
    let passes = book.settle(seat)?;
    Ok(another(passes))
}

/// The number of the passes is the one that the state before determines: here the rest is answered, where it is another.
pub fn tells_the_rest_as_the_repairs<R: Resource + Drop>(
    book: &mut Book<R>,
    seat: u32,
) -> Result<u64, BookError>
    requires seat { seat < seat_limit }
    requires more { rest book.old.now.ring ≢ passes_left book.old.now.ring }
    ensures wrong { IfOk result (λ passes. passes ≡ passes_left book.old.now.ring → ⊥) }
{
    let most = rest(book.state());
    book.settle(seat)?;
    Ok(most)
}

/// With room for the passes that are left no call is refused: here it is.
pub fn refuses_to_settle_with_room<R: Resource + Drop>(book: &mut Book<R>) -> Result<u64, BookError>
    requires room { passes_left book.old.now.ring ≤ book.old.room }
    ensures wrong { (passes_left book.old.now.ring ≤ book.old.room → IsOk result) → ⊥ }
{
    Err(BookError::HistoryFull)
}

/// The repairs are calls of the seat: here of another, where there is one at least.
#[tactic(auto, using(crate::proofs::Repairs::repairs_tell_the_seat))]
pub fn settles_under_another_seat<R: Resource + Drop>(
    book: &mut Book<R>,
    seat: u32,
    other: u32,
) -> Result<u64, BookError>
    requires seat { other < seat_limit }
    requires apart { other ≢ seat }
    requires unsettled { is_settled book.old.now.ring.values ≡ false }
    ensures wrong { IfOk result
        (λ _. (passes : List Event) → IsRepairedBy R.works book.old book.new seat passes → ⊥) }
{
    book.settle(other)
}

/// The first privileged machine passes each time: here another begins.
pub fn settles_from_another_machine<R: Resource + Drop>(
    book: &mut Book<R>,
    seat: u32,
    machine: u32,
) -> Result<u64, BookError>
    requires seat { seat < seat_limit }
    requires machine { machine < length book.old.now.ring.values }
    requires apart { machine ≢ first_privileged book.old.now.ring.values }
    ensures wrong { IfOk result
        (λ _. (passes : List Event) → IsRepairedBy R.works book.old book.new seat passes → ⊥) }
{
    book.pass(seat, machine, 0)?;
    let passes = book.settle(seat)?;
    Ok(passes)
}

/// Each repair has the order 0: here the first has another.
pub fn settles_with_another_order<R: Resource + Drop>(
    book: &mut Book<R>,
    seat: u32,
    order: u64,
) -> Result<u64, BookError>
    requires seat { seat < seat_limit }
    requires apart { order ≢ 0 }
    ensures wrong { IfOk result
        (λ _. (passes : List Event) → IsRepairedBy R.works book.old book.new seat passes → ⊥) }
{
    let machine = book.state().first();
    book.pass(seat, machine, order)?;
    let passes = book.settle(seat)?;
    Ok(passes)
}

/// A settled ring makes no pass: here it makes one.
pub fn passes_in_a_settled_ring<R: Resource + Drop>(
    book: &mut Book<R>,
    seat: u32,
) -> Result<u64, BookError>
    requires seat { seat < seat_limit }
    requires settled { is_settled book.old.now.ring.values ≡ true }
    ensures wrong { IfOk result
        (λ _. (is_settled book.old.now.ring.values ≡ true → result ≡ Ok 0) → ⊥) }
{
    let machine = book.state().first();
    book.pass(seat, machine, 0)?;
    Ok(1)
}

/// A ring that is settled is let be: here it makes one pass more.
pub fn settles_one_pass_late<R: Resource + Drop>(
    book: &mut Book<R>,
    seat: u32,
) -> Result<u64, BookError>
    requires { seat < seat_limit }
    ensures wrong { IfOk result
        (λ _. (passes : List Event) → IsRepairedBy R.works book.old book.new seat passes → ⊥) }
{
    let passes = book.settle(seat)?;
    let machine = book.state().first();
    book.pass(seat, machine, 0)?;
    Ok(passes)
}
