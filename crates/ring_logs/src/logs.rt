//! The logs of clients.

use ring_model::Entry;
use std::marker::Model;

/// A client's number, which is below `SEAT_LIMIT`, and its log: its receipts and surveys, in order. Contracts see the two.
#[derive(Drop)]
pub struct ClientLog<'a> {
    pub number: u32,
    pub entries: &'a [Entry],
}

impl<'a> Model for ClientLog<'a> {
    ghost use Rattle.std.specs.Prelude.{◌<◌};
    ghost use Rattle.ring_model.specs.Limits.{seat_limit};
    ghost use Rattle.ring_logs.specs.LogView.{LogView};

    ghost Value = { LogView };

    ghost view = { λ c. record { number = c.number; log = c.entries.now } };

    ghost invariant = { λ c. c.number < seat_limit };
}

/// The log of the client of a seat, once its ring is closed.
#[derive(Drop)]
pub struct Log {
    pub seat: u32,
    pub entries: Vec<Entry>,
}
