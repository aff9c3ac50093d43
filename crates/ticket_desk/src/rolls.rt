//! The roll: a resource with a content and an answer of its own.
ghost use Rattle.std.specs.Prelude.{◌≡◌, ◌≤◌, ◌+◌};
ghost use Rattle.ticket_desk.specs.Tickets.{roll_size};

use ring_book::Resource;
use std::marker::Model;

/// How many tickets a roll has.
pub const TICKETS: u64 = 60;

/// The answer to a pass where no ticket is left.
pub const NO_TICKET: u64 = 0;

/// A roll of 60 tickets, numbered from 1.
///
/// Contracts see how many of them are gone, which are 0 at first.
#[derive(Drop)]
pub struct Roll {
    gone: u64,
}

impl Model for Roll {
    ghost use Rattle.std.specs.Prelude.{ℕ, ◌≤◌};
    ghost use Rattle.ticket_desk.specs.Tickets.{roll_size};

    ghost Value = { ℕ };

    ghost view = { λ r. r.gone };

    ghost invariant = { λ r. r.gone ≤ roll_size };
}

impl Roll {
    /// A roll with all its tickets.
    pub fn new() -> Roll
        ensures { result ≡ 0 }
    {
        Roll { gone: 0 }
    }

    /// How many tickets are left.
    pub fn left(&self) -> u64
        ensures { result + self.now ≡ roll_size }
    {
        TICKETS - self.gone
    }
}

impl Resource for Roll {
    ghost use Rattle.ticket_desk.specs.Tickets.{roll};

    ghost first = { 0 };

    ghost works = { roll };

    /// Takes the next ticket and answers its number; `NO_TICKET` where none is left.
    fn work(&mut self, _machine: u32, _order: u64) -> u64 {
        if self.gone < TICKETS {
            self.gone += 1;
            return self.gone;
        }
        NO_TICKET
    }
}
