//! Which ring a lock, a seat or a log belongs to.

use std::marker::Brand;

/// The name of a ring. It has no bytes: its meaning exists only in contracts, and each call of a program
/// that opens a ring picks it. Seats of rings with different names have different types, so neither can be used
/// at the other.
///
/// A name says a ring's start, its number of seats, which histories are legal, and the log that the ring's list
/// of events is in. Each draft has a log of its own, and nothing says that two logs are one, so that with one
/// name no second ring can be opened.
pub trait Name {
    ghost use Rattle.std.specs.Prelude.{ℕ, List};
    ghost use Rattle.logbook.specs.Pages.{Book};
    ghost use Rattle.ring_model.specs.Ring.{Ring};
    ghost use Rattle.ring_model.specs.declared.events.Event.{Event};

    ghost start: { Ring };

    ghost seats: { ℕ };

    ghost legal: { List Event → Type 0 };

    ghost log: { Book };
}

impl Name for Brand {
    ghost use Rattle.std.specs.Prelude.{[]};

    ghost start = { record { k = 0; values = [] } };

    ghost seats = { 0 };

    ghost legal = { λ h. Unit {0} };

    ghost log = { record { number = 0; log_name = 0; cells_name = 0 } };
}
