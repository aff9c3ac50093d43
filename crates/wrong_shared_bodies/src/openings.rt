//! Openings of a ring, each broken: the outcome of a draft, an opened ring or a ring that was not opened, with one thing wrong.

ghost use Rattle.std.specs.Prelude.{◌≡◌, ◌≢◌, ◌<◌, ◌≤◌, [], map, eqb, IfOk, IfSome};
ghost use Rattle.std.specs.List.{IsDistinct};
ghost use Rattle.ring_model.specs.Limits.{seat_limit};
ghost use Rattle.ring_shared.specs.Holding.{MeansLegal};
ghost use Rattle.ring_shared.specs.Opening.{AreFresh};

use ring_book::{Book, Resource};
use ring_shared::{Draft, DraftFault, Name, OpenFault, Ring, Seat};
use std::alloc::Global;
use std::sync::Wait;

/// A draft is for the number of seats that was given: it is made for another one.
pub fn draft_for_another_number_of_seats<R: Resource + Drop>(
    book: Book<R>,
    seats: u32,
    other: u32,
) -> Result<Draft<R>, DraftFault<R>>
    requires some { 1 ≤ other }
    requires most { other ≤ seat_limit }
    requires empty { book.history ≡ [] }
    requires apart { other ≢ seats }
    ensures wrong { IfOk result (λ d. (d.book ≡ book) × (d.seats ≡ seats) → ⊥) }
{
    Draft::new(book, other)
}

/// A ring is opened with all its seats: the last one is not handed out.
pub fn seat_that_is_not_handed_out<N: Name, R: Resource + Drop>(
    alloc: Global,
    draft: Draft<R>,
) -> Result<(Ring<N, R>, Vec<Seat<N>>), OpenFault<N, R>>
    requires start { draft.book.start ≡ N.start }
    requires seats { draft.seats ≡ N.seats }
    requires log { draft.log ≡ N.log }
    requires legal { MeansLegal R.works R.first N.start N.legal }
    ensures wrong { IfOk result (λ t. AreFresh N.seats t.1.items → ⊥) }
{
    let (ring, mut seats) = Ring::<N, R>::open(alloc, draft)?;
    seats.pop();
    Ok((ring, seats))
}

/// A ring that was not opened hands its book back as it was: a pass is made first.
pub fn book_handed_back_with_an_event<N: Name, R: Resource + Drop, W: Wait>(
    rt: &W,
    fault: OpenFault<N, R>,
) -> Option<Book<R>>
    ensures wrong { IfSome result (λ book. book ≡ fault.book → ⊥) }
{
    let mut book = fault.into_book(rt);
    book.history(); // says: the book is one
    let Ok(_) = book.pass(0, 0, 0) else {
        return None;
    };
    Some(book)
}
