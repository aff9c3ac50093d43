//! Prefixes of a ring's one list of events. The list itself is only in the proofs.
ghost use Rattle.std.specs.Prelude.{◌≡◌, ◌+◌, ◌<◌, ◌≤◌, ◌++◌, ◌∷◌, [], length, IsTrue, MatchBool};
ghost use mathlib.Core.List.{IsPrefix};
ghost use Rattle.ring_model.specs.Limits.{event_limit};
ghost use Rattle.ring_logs.specs.Seats.{AreOfSeats};
ghost use Rattle.ring_shared.specs.Rules.{head_of};

use crate::names::Name;
use logbook::{Gain, Offer, Plain, Play, Rule, Seen, Start, Word};
use ring_model::Event;
use std::marker::{Model, PhantomData};
use std::sync::Wait;

/// The word is as long as the list.
pub struct Law;

impl Rule<Event, u64> for Law {
    ghost use Rattle.std.specs.Prelude.{[]};
    ghost use base.Fml.{ftrue};
    ghost use Rattle.ring_shared.specs.Rules.{IsKept};

    ghost holds = { λ cells log. IsKept cells log };

    ghost first = { [] };

    ghost hinted = { λ n log. Unit {0} };

    ghost shows = { λ log. [] };

    ghost keeps = { λ names log. ftrue };

    ghost moves = { λ ask before after answer. Unit {0} };
}

/// Callers trade nothing.
pub struct Nothing;

impl Gain<Event, u64> for Nothing {
    ghost use base.Fml.{ftrue};

    ghost after = { λ names about answer. ftrue };
}

/// A step that adds an event.
pub struct Add;

impl Play<Event, u64> for Add {
    ghost use Rattle.ring_shared.specs.Rules.{Adds};

    ghost then = { Adds };
}

/// The parameter of a step: the event.
impl Plain<Event, Event, u64> for Add {
    ghost use Rattle.std.specs.Prelude.{None};

    ghost ask = { λ event. event };

    ghost state = { λ event. None };
}

/// An empty list of events that has no name yet.
#[derive(Drop)]
pub struct Opened {
    word: Word<Event, u64, Law>,
    pub seen: Seen<Event, u64, Law>,
    pub ghost empty: { seen.log ≡ [] },
    pub ghost word_is: { word ≡ head_of seen.book },
}

impl Opened {
    pub(crate) fn new() -> Opened {
        let (seen, mut first, _second) = Seen::open(Start::alone(), 0, 0);
        Opened {
            word: Word::tracked(0, &mut first),
            seen,
        }
    }

    /// The list's word under a name, and the front that has seen nothing.
    pub(crate) fn with_name<N: Name>(self) -> (ListWord<N>, Front<N>)
        requires log { self.seen.book ≡ N.log }
        requires legal { N.legal [] }
        ensures { result.1 ≡ [] }
    {
        let Opened { word, seen } = self;
        (
            ListWord {
                word,
                of: PhantomData,
            },
            Front {
                end: End {
                    count: 0,
                    seen,
                    of: PhantomData,
                },
            },
        )
    }
}

/// The word that is as long as the list.
#[derive(Drop)]
pub struct ListWord<N: Name> {
    word: Word<Event, u64, Law>,
    of: PhantomData<N>,
    ghost word_is: { word ≡ head_of N.log },
}

/// A prefix of the list that was seen, legal or not. Contracts see it as its events; it is a count, with no
/// event.
#[derive(Drop)]
struct End<N: Name> {
    count: u64,
    seen: Seen<Event, u64, Law>,
    of: PhantomData<N>,
}

impl<N: Name> Model for End<N> {
    ghost use Rattle.std.specs.Prelude.{◌≡◌, ◌≤◌, List, length};
    ghost use Rattle.ring_model.specs.Limits.{event_limit};
    ghost use Rattle.ring_model.specs.declared.events.Event.{Event};

    ghost Value = { List Event };

    ghost view = { λ e. e.seen.log };

    ghost invariant = { λ e.
        (e.count ≡ length e.seen.log) × (e.seen.book ≡ N.log) × (length e.seen.log ≤ event_limit) };
}

impl<N: Name> End<N> {
    /// How many events it has.
    fn len(&self) -> u64
        ensures length { result ≡ length self.now }
        ensures few { length self.now ≤ event_limit }
    {
        self.count
    }

    /// A copy.
    fn again(&self) -> End<N>
        ensures { result ≡ self.now }
    {
        End {
            count: self.count,
            seen: self.seen.again(),
            of: PhantomData,
        }
    }

    /// Of two the shorter is a prefix of the longer.
    fn compare(&self, other: &End<N>)
        ensures shorter { length self.now ≤ length other.now → IsPrefix self.now other.now }
        ensures longer { length other.now ≤ length self.now → IsPrefix other.now self.now }
    {
        let mut both = self.seen.again();
        both.learn(&other.seen);
    }

    /// Adds an event to all that was seen, and says whether it did. It did not where the list is longer. Where it did,
    /// this end has the whole list, so the other is a prefix of it.
    fn add(&mut self, head: &ListWord<N>, other: &End<N>, event: Event) -> bool
        requires { length self.old < event_limit }
        ensures is { MatchBool result (self.new ≡ self.old ++ event ∷ []) (self.new ≡ self.old) }
        ensures begins { IsTrue result → IsPrefix other.now self.new }
    {
        let mut seen = self.seen.again();
        seen.learn(&other.seen);
        let mut offer: Offer<Event, u64, Law, Nothing> = seen.plain::<Nothing, Event, Add>(&event);
        let mut pen = seen.no_pen();
        let count = self.count;
        let found = head
            .word
            .compare_exchange::<Add, Nothing>(count, count + 1, &mut seen, &mut offer, &mut pen);
        if found == count {
            self.count = count + 1;
            self.seen = seen;
        }
        found == count
    }

    /// Returns only where the event was added to all that was seen. The other is a prefix of the list then. It returns at its
    /// first turn where this end has the whole list, as that under the lock has.
    fn surely_add<W: Wait>(&mut self, rt: &W, head: &ListWord<N>, other: &End<N>, event: Event)
        requires { length self.old < event_limit }
        ensures is { self.new ≡ self.old ++ event ∷ [] }
        ensures begins { IsPrefix other.now self.new }
    {
        for _ in rt.forever() {
            if self.add(head, other, event) {
                return;
            }
        }
        unreachable!()
    }
}

/// A legal prefix of the list that was seen, of events of the ring's seats, which ends inside no block. Contracts
/// see it as its events.
#[derive(Drop)]
pub struct Front<N: Name> {
    end: End<N>,
}

impl<N: Name> Model for Front<N> {
    ghost use Rattle.std.specs.Prelude.{List};
    ghost use Rattle.ring_model.specs.declared.events.Event.{Event};
    ghost use Rattle.ring_logs.specs.Seats.{AreOfSeats};

    ghost Value = { List Event };

    ghost view = { λ f. f.end };

    ghost invariant = { λ f. N.legal f.end × AreOfSeats N.seats f.end };
}

impl<N: Name> Front<N> {
    /// How many events it has.
    pub fn len(&self) -> u64
        ensures length { result ≡ length self.now }
        ensures legal { N.legal self.now }
        ensures of_seats { AreOfSeats N.seats self.now }
        ensures few { length self.now ≤ event_limit }
    {
        self.end.len()
    }

    /// A copy.
    pub fn again(&self) -> Front<N>
        ensures { result ≡ self.now }
    {
        Front {
            end: self.end.again(),
        }
    }

    /// Of two fronts of one ring's name the shorter is a prefix of the longer. It changes neither: it is called for its
    /// clauses.
    pub fn compare(&self, other: &Front<N>)
        ensures shorter { length self.now ≤ length other.now → IsPrefix self.now other.now }
        ensures longer { length other.now ≤ length self.now → IsPrefix other.now self.now }
    {
        self.end.compare(&other.end);
    }

    /// Returns only where this front is a prefix of the other. It returns at its first turn where the other has the whole list.
    pub(crate) fn surely_begins<W: Wait>(&self, rt: &W, other: &Front<N>)
        ensures { IsPrefix self.now other.now }
    {
        self.compare(other); // says: the shorter of the two is a prefix of the longer
        for _ in rt.forever() {
            if self.len() <= other.len() {
                return;
            }
        }
        unreachable!()
    }

    /// Returns only where the event was added to all that was seen. The other is a prefix of the list then. It returns at its
    /// first turn where this front has the whole list, as that under the lock has.
    pub(crate) fn surely_add<W: Wait>(
        &mut self,
        rt: &W,
        head: &ListWord<N>,
        other: &Front<N>,
        event: Event,
    )
        requires room { length self.old < event_limit }
        requires legal { N.legal (self.old ++ event ∷ []) }
        requires of_seats { AreOfSeats N.seats (self.old ++ event ∷ []) }
        ensures is { self.new ≡ self.old ++ event ∷ [] }
        ensures begins { IsPrefix other.now self.new }
    {
        self.end.surely_add(rt, head, &other.end, event);
    }

    /// Returns only where the events, at least one, were added, in order, to all that was seen. The other is a prefix
    /// of the list then. It returns as `surely_add` does, for each event.
    pub(crate) fn surely_add_all<W: Wait>(
        &mut self,
        rt: &W,
        head: &ListWord<N>,
        other: &Front<N>,
        events: &[Event],
    )
        requires some { 1 ≤ length events.now }
        requires room { length self.old + length events.now ≤ event_limit }
        requires legal { N.legal (self.old ++ events.now) }
        requires of_seats { AreOfSeats N.seats (self.old ++ events.now) }
        ensures is { self.new ≡ self.old ++ events.now }
        ensures begins { IsPrefix other.now self.new }
    {
        let mut end = self.end.again();
        for event in events {
            end.surely_add(rt, head, &other.end, *event);
        }
        self.end = end;
    }
}
